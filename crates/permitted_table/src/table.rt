//! The permitted table: where each native is found. No other place says so: the definitions read it here.

use crate::native::NativeId::{Adsafe, Dom, Global, List, Math, Prototype, Read, Text, Write};
use crate::native::{
    AdsafeNative, DomNative, GlobalNative, HostEntry, ListNative, MathNative, NativeId,
    PrototypeNative, ReadNative, TextNative, WriteNative,
};

/// What has a native under a name.
#[derive(Clone, Copy, Drop)]
pub enum Home {
    /// The Global cell.
    Globals,
    /// An entry of the table.
    Of(HostEntry),
}

const GLOBAL: Home = Home::Globals;

const STRING: Home = Home::Of(HostEntry::Native(Global(GlobalNative::StringOf)));

const MATH: Home = Home::Of(HostEntry::Math);

const OBJECT: Home = Home::Of(HostEntry::ObjectPrototype);

const FUNCTION: Home = Home::Of(HostEntry::FunctionPrototype);

const NUMBER: Home = Home::Of(HostEntry::NumberPrototype);

const BOOLEAN: Home = Home::Of(HostEntry::BooleanPrototype);

const TEXT: Home = Home::Of(HostEntry::TextPrototype);

const ARRAY: Home = Home::Of(HostEntry::ArrayPrototype);

const ADSAFE: Home = Home::Of(HostEntry::Adsafe);

const DOM: Home = Home::Of(HostEntry::Dom);

const BUNCH: Home = Home::Of(HostEntry::BunchPrototype);

/// The natives with a home, in the order of their numbers: the home in which each is found first, and its name there.
/// The rows of one home are in the order of `keys`. `bubble` has none, since event objects have it.
pub const ROWS: [(Home, &str, NativeId); 90] = [
    (GLOBAL, "Boolean", Global(GlobalNative::BooleanOf)),
    (GLOBAL, "Number", Global(GlobalNative::NumberOf)),
    (GLOBAL, "String", Global(GlobalNative::StringOf)),
    (GLOBAL, "isNaN", Global(GlobalNative::IsNaN)),
    (GLOBAL, "isFinite", Global(GlobalNative::IsFinite)),
    (GLOBAL, "parseInt", Global(GlobalNative::ParseInt)),
    (STRING, "fromCharCode", Global(GlobalNative::FromCharCode)),
    (MATH, "abs", Math(MathNative::Abs)),
    (MATH, "ceil", Math(MathNative::Ceil)),
    (MATH, "floor", Math(MathNative::Floor)),
    (MATH, "round", Math(MathNative::Round)),
    (MATH, "max", Math(MathNative::Max)),
    (MATH, "min", Math(MathNative::Min)),
    (MATH, "pow", Math(MathNative::Pow)),
    (
        OBJECT,
        "hasOwnProperty",
        Prototype(PrototypeNative::HasOwnProperty),
    ),
    (
        OBJECT,
        "toString",
        Prototype(PrototypeNative::ObjectToString),
    ),
    (
        FUNCTION,
        "toString",
        Prototype(PrototypeNative::FunctionToString),
    ),
    (
        NUMBER,
        "toString",
        Prototype(PrototypeNative::NumberToString),
    ),
    (
        BOOLEAN,
        "toString",
        Prototype(PrototypeNative::BooleanToString),
    ),
    (TEXT, "toString", Prototype(PrototypeNative::TextToString)),
    (ARRAY, "toString", Prototype(PrototypeNative::ArrayToString)),
    (TEXT, "charAt", Text(TextNative::CharAt)),
    (TEXT, "charCodeAt", Text(TextNative::CharCodeAt)),
    (TEXT, "concat", Text(TextNative::TextConcat)),
    (TEXT, "indexOf", Text(TextNative::IndexOf)),
    (TEXT, "lastIndexOf", Text(TextNative::LastIndexOf)),
    (TEXT, "slice", Text(TextNative::TextSlice)),
    (TEXT, "substring", Text(TextNative::Substring)),
    (TEXT, "split", Text(TextNative::Split)),
    (TEXT, "toLowerCase", Text(TextNative::ToLowerCase)),
    (TEXT, "toUpperCase", Text(TextNative::ToUpperCase)),
    (ARRAY, "concat", List(ListNative::ListConcat)),
    (ARRAY, "join", List(ListNative::Join)),
    (ARRAY, "pop", List(ListNative::Pop)),
    (ARRAY, "shift", List(ListNative::Shift)),
    (ARRAY, "push", List(ListNative::Push)),
    (ARRAY, "unshift", List(ListNative::Unshift)),
    (ARRAY, "reverse", List(ListNative::Reverse)),
    (ARRAY, "sort", List(ListNative::Sort)),
    (ARRAY, "slice", List(ListNative::ListSlice)),
    (ARRAY, "splice", List(ListNative::Splice)),
    (ARRAY, "forEach", List(ListNative::ForEach)),
    (ARRAY, "map", List(ListNative::MapNative)),
    (ARRAY, "filter", List(ListNative::FilterNative)),
    (ADSAFE, "get", Adsafe(AdsafeNative::GetProperty)),
    (ADSAFE, "set", Adsafe(AdsafeNative::SetProperty)),
    (ADSAFE, "remove", Adsafe(AdsafeNative::RemoveProperty)),
    (ADSAFE, "has", Adsafe(AdsafeNative::HasProperty)),
    (ADSAFE, "create", Adsafe(AdsafeNative::Create)),
    (ADSAFE, "isArray", Adsafe(AdsafeNative::IsArray)),
    (ADSAFE, "keys", Adsafe(AdsafeNative::KeysOf)),
    (ADSAFE, "later", Adsafe(AdsafeNative::Later)),
    (ADSAFE, "log", Adsafe(AdsafeNative::LogValue)),
    (ADSAFE, "post", Adsafe(AdsafeNative::Post)),
    (ADSAFE, "fromJson", Adsafe(AdsafeNative::FromJson)),
    (ADSAFE, "toJson", Adsafe(AdsafeNative::ToJson)),
    (DOM, "q", Dom(DomNative::DomQuery)),
    (DOM, "append", Dom(DomNative::DomAppend)),
    (DOM, "tag", Dom(DomNative::DomTag)),
    (DOM, "text", Dom(DomNative::DomText)),
    (BUNCH, "q", Read(ReadNative::Query)),
    (BUNCH, "getValue", Read(ReadNative::GetValue)),
    (BUNCH, "getValues", Read(ReadNative::GetValues)),
    (BUNCH, "getStyle", Read(ReadNative::GetStyle)),
    (BUNCH, "getClass", Read(ReadNative::GetClass)),
    (BUNCH, "getTitle", Read(ReadNative::GetTitle)),
    (BUNCH, "getCheck", Read(ReadNative::GetCheck)),
    (BUNCH, "explode", Read(ReadNative::Explode)),
    (BUNCH, "count", Read(ReadNative::Count)),
    (BUNCH, "getParent", Read(ReadNative::GetParent)),
    (BUNCH, "getTagName", Read(ReadNative::GetTagName)),
    (BUNCH, "getMark", Read(ReadNative::GetMark)),
    (BUNCH, "append", Write(WriteNative::Append)),
    (BUNCH, "remove", Write(WriteNative::Remove)),
    (BUNCH, "empty", Write(WriteNative::Empty)),
    (BUNCH, "replace", Write(WriteNative::Replace)),
    (BUNCH, "value", Write(WriteNative::SetValue)),
    (BUNCH, "style", Write(WriteNative::SetStyle)),
    (BUNCH, "klass", Write(WriteNative::SetClass)),
    (BUNCH, "title", Write(WriteNative::SetTitle)),
    (BUNCH, "check", Write(WriteNative::SetCheck)),
    (BUNCH, "enable", Write(WriteNative::SetEnabled)),
    (BUNCH, "focus", Write(WriteNative::Focus)),
    (BUNCH, "blur", Write(WriteNative::Blur)),
    (BUNCH, "on", Write(WriteNative::On)),
    (BUNCH, "off", Write(WriteNative::Off)),
    (BUNCH, "fire", Write(WriteNative::Fire)),
    (BUNCH, "each", Write(WriteNative::Each)),
    (BUNCH, "mark", Write(WriteNative::SetMark)),
    (BUNCH, "protect", Write(WriteNative::Protect)),
];

/// How many natives come before those of globals: `bubble`.
pub const GLOBALS: u32 = 1;

/// How many come before those of `Math`. The last of each family is named.
pub const MATHS: u32 = GLOBALS + GlobalNative::FromCharCode as u32 + 1;

/// How many come before those of prototypes.
pub const PROTOTYPES: u32 = MATHS + MathNative::Pow as u32 + 1;

/// How many come before those of texts.
pub const TEXTS: u32 = PROTOTYPES + PrototypeNative::ArrayToString as u32 + 1;

/// How many come before those of arrays.
pub const LISTS: u32 = TEXTS + TextNative::ToUpperCase as u32 + 1;

/// How many come before those of `ADSAFE`.
pub const ADSAFES: u32 = LISTS + ListNative::FilterNative as u32 + 1;

/// How many come before those of `dom`.
pub const DOMS: u32 = ADSAFES + AdsafeNative::ToJson as u32 + 1;

/// How many come before those of Bunches that read.
pub const READS: u32 = DOMS + DomNative::DomText as u32 + 1;

/// How many come before those of Bunches that write.
pub const WRITES: u32 = READS + ReadNative::GetMark as u32 + 1;

/// How many natives there are.
pub const COUNT: u32 = WRITES + WriteNative::Protect as u32 + 1;
