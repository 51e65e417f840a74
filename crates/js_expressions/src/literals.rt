//! Literals: numbers, words, functions, and arrays and objects, which are born before their parts.
ghost use Rattle.std.specs.Prelude.{◌≡◌, ℕ, ◌+◌, ◌<◌, ◌≤◌, List, [], drop, OnOk};
ghost use Rattle.js_tree.specs.Forest.{IsFun, expr_at, fun_at};
ghost use Rattle.js_tree.specs.Plain as node;
ghost use Rattle.store_cells.specs.Cells.{PlainCell};
ghost use Rattle.widget_meaning.specs.Values as meaning;
ghost use Rattle.code_units.specs.Whole.{number_in};
ghost use Rattle.widget_meaning.specs.OwnState.{State, new_array, plain_object};
ghost use Rattle.widget_meaning.specs.Costs as costs;
ghost use Rattle.widget_meaning.specs.Expressions as expressions;
ghost use Rattle.js_image.specs.Image.{seen};
ghost use Rattle.js_image.specs.Held.{IsConfined, IsFine, IsHeld, Kept};
ghost use Rattle.js_image.specs.Laws.{AreLawful};
ghost use Rattle.js_names.specs.Code.{trees_of};
ghost use Rattle.js_flow.specs.Parts.{elements_of, forest_at, properties_of};
ghost use Rattle.js_flow.specs.Views.{place_of};
ghost use Rattle.js_flow.specs.Forms.{form_taken};
ghost use Rattle.js_flow.specs.Frames.{Plans, planned};
ghost use Rattle.js_flow.specs.Fine.{FineLeft, IsExprAt, IsPlace};
ghost use Rattle.js_flow.specs.Free.{left_free};
ghost use Rattle.js_flow.specs.Left.{all_frames};

use crate::reading::throw;
use code_units::{Memory, WholeRead, whole_text};
use js_flow::{Completion, Flow, FormFrame, Frame, Job, Place, element_at, property_at};
use js_image::{Made, Written, make, put};
use js_names::{Code, tree_at};
use js_tree::{ExprId, FunId, Numeral, Word};
use object_store::{CellId, HostEntry, NewCell, Number, Store, Value};
use std::alloc::Global;

/// The value of a number literal.
pub(crate) fn number(numeral: &Numeral) -> Value
    ensures value { (w : ℕ) (cells : List PlainCell) → seen w cells result ≡ expressions.literal (number_in numeral.now) }
    ensures fine { (w : ℕ) (cells : List PlainCell) → IsFine w cells result }
{
    match numeral.number() {
        WholeRead::Whole(z) => Value::Num(Number::Whole(z)),
        WholeRead::NotNumber => Value::Num(Number::NaN),
        WholeRead::Left => Value::Num(Number::NaN),
    }
}

/// The value of a word.
pub(crate) fn word_value(word: Word) -> Value
    ensures value { (w : ℕ) (cells : List PlainCell) → seen w cells result ≡ expressions.word_value word }
    ensures fine { (w : ℕ) (cells : List PlainCell) → IsFine w cells result }
{
    match word {
        Word::Null => Value::Null,
        Word::True => Value::Bool(true),
        Word::False => Value::Bool(false),
        Word::This => Value::Undefined,
    }
}

/// A function expression.
pub(crate) fn function(
    flow: &mut Flow,
    alloc: Global,
    w: u32,
    codes: &Vec<Code>,
    store: &mut Store,
    fun: FunId,
    place: Place,
) -> Result<(), Memory>
    requires widget { w < 32 }
    requires confined { IsConfined (trees_of codes.now.items) w store.old }
    requires place { IsPlace (trees_of codes.now.items) w store.old.cells place }
    requires fun { IsFun (forest_at (trees_of codes.now.items) place.code) fun }
    ensures plan { OnOk result (Plans (trees_of codes.now.items) w store.old store.new
        (expressions.expression (node.Function (fun_at (forest_at (trees_of codes.now.items) place.code) fun))
        (place_of w store.old.cells place)) flow.new) }
    ensures fine { OnOk result (FineLeft (trees_of codes.now.items) w store.new.cells flow.new) }
    ensures near { OnOk result (left_free flow.new ≤ 1) }
    ensures kept { Kept (trees_of codes.now.items) w store.old store.new }
    ensures below { OnOk result (flow.new.below ≡ all_frames flow.old) }
{
    let cell = NewCell::Function {
        code: place.code,
        fun,
        declared: false,
        scope: place.scope,
    };
    match make(alloc, store, w, cell)? {
        Made::Cell(id) => Ok(flow.give(Completion::Is(Value::Ref(id)))),
        Made::Stop(cause) => Ok(flow.stop(cause)),
    }
}

/// An array literal.
pub(crate) fn array(
    flow: &mut Flow,
    alloc: Global,
    w: u32,
    codes: &Vec<Code>,
    store: &mut Store,
    id: ExprId,
    place: Place,
) -> Result<(), Memory>
    requires widget { w < 32 }
    requires confined { IsConfined (trees_of codes.now.items) w store.old }
    requires place { IsExprAt (trees_of codes.now.items) w store.old.cells id place }
    ensures plan { OnOk result (Plans (trees_of codes.now.items) w store.old store.new
        (λ s. costs.make (new_array 0 []) 0 s
        (λ a t. expressions.array_parts a 0
        (elements_of (expr_at (forest_at (trees_of codes.now.items) place.code) id))
        (place_of w store.old.cells place) t)) flow.new) }
    ensures fine { OnOk result (FineLeft (trees_of codes.now.items) w store.new.cells flow.new) }
    ensures near { OnOk result (left_free flow.new ≤ 1) }
    ensures kept { Kept (trees_of codes.now.items) w store.old store.new }
    ensures below { OnOk result (flow.new.below ≡ all_frames flow.old) }
{
    match make(alloc, store, w, NewCell::Array)? {
        Made::Cell(cell) => elements(flow, w, codes, store, cell, (id, 0), place),
        Made::Stop(cause) => Ok(flow.stop(cause)),
    }
}

// The elements of an array literal from an index on.
fn elements(
    flow: &mut Flow,
    w: u32,
    codes: &Vec<Code>,
    store: &Store,
    array: CellId,
    from: (ExprId, usize),
    place: Place,
) -> Result<(), Memory>
    requires held { IsHeld w store.now.cells array
        × IsExprAt (trees_of codes.now.items) w store.now.cells from.0 place }
    ensures plan { OnOk result ((s : State) → planned (trees_of codes.now.items) w store.now.cells flow.new s
        ≡ expressions.array_parts (seen w store.now.cells (Value.Ref array)) from.1
        (drop from.1 (elements_of (expr_at (forest_at (trees_of codes.now.items) place.code) from.0)))
        (place_of w store.now.cells place) s) }
    ensures fine { OnOk result (FineLeft (trees_of codes.now.items) w store.now.cells flow.new) }
    ensures near { OnOk result (left_free flow.new ≤ 1) }
    ensures below { OnOk result (flow.new.below ≡ all_frames flow.old) }
{
    let (id, n) = from;
    match element_at(tree_at(codes, place.code), id, n) {
        Some(e) => flow.push(
            Frame::Form(FormFrame::Element(array, id, n, place)),
            Job::Eval(e, place),
        ),
        None => Ok(flow.give(Completion::Is(Value::Ref(array)))),
    }
}

/// An element has its value.
pub(crate) fn element(
    flow: &mut Flow,
    alloc: Global,
    w: u32,
    codes: &Vec<Code>,
    store: &mut Store,
    at: (CellId, ExprId, usize, Place),
    value: Value,
) -> Result<(), Memory>
    requires widget { w < 32 }
    requires confined { IsConfined (trees_of codes.now.items) w store.old }
    requires held { IsHeld w store.old.cells at.0 × IsExprAt (trees_of codes.now.items) w store.old.cells at.1 at.3
        × IsFine w store.old.cells value }
    ensures plan { OnOk result (Plans (trees_of codes.now.items) w store.old store.new
        (form_taken (trees_of codes.now.items) w store.old.cells (FormFrame.Element at.0 at.1 at.2 at.3)
        (meaning.Is (seen w store.old.cells value))) flow.new) }
    ensures fine { OnOk result (FineLeft (trees_of codes.now.items) w store.new.cells flow.new) }
    ensures near { OnOk result (left_free flow.new ≤ 1) }
    ensures kept { Kept (trees_of codes.now.items) w store.old store.new }
    ensures below { OnOk result (flow.new.below ≡ all_frames flow.old) }
{
    let (array, id, n, place) = at;
    let Ok(index) = u32::try_from(n) else {
        return Err(Memory);
    };
    let name = whole_text(alloc, i64::from(index))?;
    match put(store, w, &Value::Ref(array), &name, value)? {
        Written::Done => elements(flow, w, codes, store, array, (id, n + 1), place),
        Written::Throw(fault) => throw(flow, alloc, w, codes, store, fault),
        Written::Stop(cause) => Ok(flow.stop(cause)),
    }
}

/// An object literal.
pub(crate) fn object(
    flow: &mut Flow,
    alloc: Global,
    w: u32,
    codes: &Vec<Code>,
    store: &mut Store,
    id: ExprId,
    place: Place,
) -> Result<(), Memory>
    requires widget { w < 32 }
    requires confined { IsConfined (trees_of codes.now.items) w store.old }
    requires place { IsExprAt (trees_of codes.now.items) w store.old.cells id place }
    ensures plan { OnOk result (Plans (trees_of codes.now.items) w store.old store.new
        (λ s. costs.make (plain_object []) 0 s
        (λ a t. expressions.object_parts a
        (properties_of (expr_at (forest_at (trees_of codes.now.items) place.code) id))
        (place_of w store.old.cells place) t)) flow.new) }
    ensures fine { OnOk result (FineLeft (trees_of codes.now.items) w store.new.cells flow.new) }
    ensures near { OnOk result (left_free flow.new ≤ 1) }
    ensures kept { Kept (trees_of codes.now.items) w store.old store.new }
    ensures below { OnOk result (flow.new.below ≡ all_frames flow.old) }
{
    lawful(store);
    let proto = store.host(HostEntry::ObjectPrototype);
    match make(alloc, store, w, NewCell::Object(proto))? {
        Made::Cell(cell) => properties(flow, w, codes, store, cell, (id, 0), place),
        Made::Stop(cause) => Ok(flow.stop(cause)),
    }
}

// A law: what every store keeps.
fn lawful(store: &Store)
    ensures { AreLawful store.now.cells }
{
    store.links_are_older();
    store.permitted_leads_on();
    store.host_stays();
    store.arrays_have_length();
    store.cells_have_prototypes();
}

// The properties of an object literal from one on.
fn properties(
    flow: &mut Flow,
    w: u32,
    codes: &Vec<Code>,
    store: &Store,
    object: CellId,
    from: (ExprId, usize),
    place: Place,
) -> Result<(), Memory>
    requires held { IsHeld w store.now.cells object
        × IsExprAt (trees_of codes.now.items) w store.now.cells from.0 place }
    ensures plan { OnOk result ((s : State) → planned (trees_of codes.now.items) w store.now.cells flow.new s
        ≡ expressions.object_parts (seen w store.now.cells (Value.Ref object))
        (drop from.1 (properties_of (expr_at (forest_at (trees_of codes.now.items) place.code) from.0)))
        (place_of w store.now.cells place) s) }
    ensures fine { OnOk result (FineLeft (trees_of codes.now.items) w store.now.cells flow.new) }
    ensures near { OnOk result (left_free flow.new ≤ 1) }
    ensures below { OnOk result (flow.new.below ≡ all_frames flow.old) }
{
    let (id, n) = from;
    match property_at(tree_at(codes, place.code), id, n) {
        Some(part) => flow.push(
            Frame::Form(FormFrame::Property(object, id, n, place)),
            Job::Eval(part.1, place),
        ),
        None => Ok(flow.give(Completion::Is(Value::Ref(object)))),
    }
}

/// A property has its value.
pub(crate) fn property(
    flow: &mut Flow,
    alloc: Global,
    w: u32,
    codes: &Vec<Code>,
    store: &mut Store,
    at: (CellId, ExprId, usize, Place),
    value: Value,
) -> Result<(), Memory>
    requires widget { w < 32 }
    requires confined { IsConfined (trees_of codes.now.items) w store.old }
    requires held { IsHeld w store.old.cells at.0 × IsExprAt (trees_of codes.now.items) w store.old.cells at.1 at.3
        × IsFine w store.old.cells value }
    ensures plan { OnOk result (Plans (trees_of codes.now.items) w store.old store.new
        (form_taken (trees_of codes.now.items) w store.old.cells (FormFrame.Property at.0 at.1 at.2 at.3)
        (meaning.Is (seen w store.old.cells value))) flow.new) }
    ensures fine { OnOk result (FineLeft (trees_of codes.now.items) w store.new.cells flow.new) }
    ensures near { OnOk result (left_free flow.new ≤ 1) }
    ensures kept { Kept (trees_of codes.now.items) w store.old store.new }
    ensures below { OnOk result (flow.new.below ≡ all_frames flow.old) }
{
    let (object, id, n, place) = at;
    match property_at(tree_at(codes, place.code), id, n) {
        Some(part) => match put(store, w, &Value::Ref(object), &part.0, value)? {
            Written::Done => properties(flow, w, codes, store, object, (id, n + 1), place),
            Written::Throw(fault) => throw(flow, alloc, w, codes, store, fault),
            Written::Stop(cause) => Ok(flow.stop(cause)),
        },
        None => Ok(flow.give(Completion::Is(Value::Ref(object)))),
    }
}
