//! The natives of the language by their families, and the entries of the permitted table.
ghost use Rattle.std.specs.Prelude.{◌≡◌};
ghost use Rattle.permitted_table.specs.Natives.{number_of};

use crate::table::{ADSAFES, DOMS, GLOBALS, LISTS, MATHS, PROTOTYPES, READS, TEXTS, WRITES};

/// A native among the listed globals, or `String.fromCharCode`.
#[derive(Clone, Copy, PartialEq, Eq, Drop)]
pub enum GlobalNative {
    BooleanOf,
    NumberOf,
    StringOf,
    IsNaN,
    IsFinite,
    ParseInt,
    FromCharCode,
}

/// A native of `Math`.
#[derive(Clone, Copy, PartialEq, Eq, Drop)]
pub enum MathNative {
    Abs,
    Ceil,
    Floor,
    Round,
    Max,
    Min,
    Pow,
}

/// `hasOwnProperty`, and the `toString` of each prototype.
#[derive(Clone, Copy, PartialEq, Eq, Drop)]
pub enum PrototypeNative {
    HasOwnProperty,
    ObjectToString,
    FunctionToString,
    NumberToString,
    BooleanToString,
    TextToString,
    ArrayToString,
}

/// A method of texts.
#[derive(Clone, Copy, PartialEq, Eq, Drop)]
pub enum TextNative {
    CharAt,
    CharCodeAt,
    TextConcat,
    IndexOf,
    LastIndexOf,
    TextSlice,
    Substring,
    Split,
    ToLowerCase,
    ToUpperCase,
}

/// A method of arrays.
#[derive(Clone, Copy, PartialEq, Eq, Drop)]
pub enum ListNative {
    ListConcat,
    Join,
    Pop,
    Shift,
    Push,
    Unshift,
    Reverse,
    Sort,
    ListSlice,
    Splice,
    ForEach,
    MapNative,
    FilterNative,
}

/// A native of `ADSAFE`.
#[derive(Clone, Copy, PartialEq, Eq, Drop)]
pub enum AdsafeNative {
    GetProperty,
    SetProperty,
    RemoveProperty,
    HasProperty,
    Create,
    IsArray,
    KeysOf,
    Later,
    LogValue,
    Post,
    FromJson,
    ToJson,
}

/// A native of `dom`.
#[derive(Clone, Copy, PartialEq, Eq, Drop)]
pub enum DomNative {
    DomQuery,
    DomAppend,
    DomTag,
    DomText,
}

/// A method of Bunches that reads.
#[derive(Clone, Copy, PartialEq, Eq, Drop)]
pub enum ReadNative {
    Query,
    GetValue,
    GetValues,
    GetStyle,
    GetClass,
    GetTitle,
    GetCheck,
    Explode,
    Count,
    GetParent,
    GetTagName,
    GetMark,
}

/// A method of Bunches that changes something, or asks for calls.
#[derive(Clone, Copy, PartialEq, Eq, Drop)]
pub enum WriteNative {
    Append,
    Remove,
    Empty,
    Replace,
    SetValue,
    SetStyle,
    SetClass,
    SetTitle,
    SetCheck,
    SetEnabled,
    Focus,
    Blur,
    On,
    Off,
    Fire,
    Each,
    SetMark,
    Protect,
}

/// A native of the language, by its family. The order is that of the table.
#[derive(Clone, Copy, PartialEq, Eq, Drop)]
pub enum NativeId {
    /// Of event objects.
    Bubble,
    Global(GlobalNative),
    Math(MathNative),
    Prototype(PrototypeNative),
    Text(TextNative),
    List(ListNative),
    Adsafe(AdsafeNative),
    Dom(DomNative),
    Read(ReadNative),
    Write(WriteNative),
}

impl NativeId {
    /// Its number in the order of the table, from 0.
    pub fn number(self) -> u32
        ensures { result ≡ number_of self }
    {
        match self {
            NativeId::Bubble => 0,
            NativeId::Global(native) => GLOBALS + native as u32,
            NativeId::Math(native) => MATHS + native as u32,
            NativeId::Prototype(native) => PROTOTYPES + native as u32,
            NativeId::Text(native) => TEXTS + native as u32,
            NativeId::List(native) => LISTS + native as u32,
            NativeId::Adsafe(native) => ADSAFES + native as u32,
            NativeId::Dom(native) => DOMS + native as u32,
            NativeId::Read(native) => READS + native as u32,
            NativeId::Write(native) => WRITES + native as u32,
        }
    }
}

/// An entry of the permitted table: one of the host's objects that a widget may hold.
#[derive(Clone, Copy, PartialEq, Eq, Drop)]
pub enum HostEntry {
    ObjectPrototype,
    ArrayPrototype,
    FunctionPrototype,
    BunchPrototype,
    TextPrototype,
    NumberPrototype,
    BooleanPrototype,
    Math,
    Adsafe,
    Dom,
    Native(NativeId),
}
