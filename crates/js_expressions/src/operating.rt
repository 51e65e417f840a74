//! Operators: their operands are converted, and a joined text is paid.
ghost use Rattle.std.specs.Prelude.{◌≡◌, ℕ, ◌<◌, ◌≤◌, List, length, true, false, OnOk};
ghost use Rattle.js_tree.specs.Forest.{Forest};
ghost use Rattle.store_cells.specs.Cells.{PlainCell};
ghost use Rattle.widget_meaning.specs.Values as meaning;
ghost use Rattle.widget_meaning.specs.Plan.{after, and_then};
ghost use Rattle.widget_meaning.specs.Costs as costs;
ghost use Rattle.widget_meaning.specs.Operators as operators;
ghost use Rattle.widget_meaning.specs.Properties as properties;
ghost use Rattle.widget_meaning.specs.Expressions as expressions;
ghost use Rattle.widget_meaning.specs.Calls as calls;
ghost use Rattle.store_cells.specs.Shape.{IsRefWithin};
ghost use Rattle.js_image.specs.Image.{Rest, image, seen};
ghost use Rattle.js_image.specs.Held.{IsConfined, IsFine, Kept};
ghost use Rattle.js_values.specs.Operands.{IsOperand, IsPlainOut, IsPrefixed, IsPrimitive, meant_out, plain};
ghost use Rattle.js_names.specs.Code.{trees_of};
ghost use Rattle.js_flow.specs.Views.{place_of, reference_of};
ghost use Rattle.js_flow.specs.Frames.{Plans};
ghost use Rattle.js_flow.specs.Fine.{FineLeft, FineReference};
ghost use Rattle.js_flow.specs.Free.{left_free};
ghost use Rattle.js_flow.specs.Left.{all_frames};

use crate::handing::convert;
use crate::reading::{element_name, throw};
use code_units::{Memory, Text};
use js_flow::{Completion, Flow, FormFrame, Place, Reference};
use js_image::{Callee, Paid, Removed, StopCause, callee, pay_text, remove};
use js_names::Code;
use js_tree::{BinOp, UnOp};
use js_values::{OpOut, binary, type_name, unary};
use object_store::{Store, Value};
use std::alloc::Global;

/// Whether a value is an object.
pub(crate) fn is_object(value: &Value) -> bool
    ensures object { (w : ℕ) (cells : List PlainCell) → result ≡ meaning.is_object (seen w cells value.now) }
    ensures primitive { result ≡ false → IsPrimitive value.now }
{
    match value {
        Value::Ref(_) => true,
        _ => false,
    }
}

// Whether an operator converts objects.
fn is_converting(op: BinOp) -> bool
    ensures converting { result ≡ expressions.is_converting op }
    ensures same { result ≡ false → (v : Value) → IsOperand op v }
{
    match op {
        BinOp::Same => false,
        BinOp::NotSame => false,
        _ => true,
    }
}

/// What an operator gives: a joined text costs its units.
pub(crate) fn result_of(
    flow: &mut Flow,
    w: u32,
    codes: &Vec<Code>,
    store: &mut Store,
    out: OpOut,
) -> Result<(), Memory>
    requires widget { w < 32 }
    requires plain { IsPlainOut out }
    ensures plan { OnOk result (Plans (trees_of codes.now.items) w store.old store.new
        (expressions.result (meant_out out)) flow.new) }
    ensures fine { OnOk result (FineLeft (trees_of codes.now.items) w store.new.cells flow.new) }
    ensures near { OnOk result (left_free flow.new ≤ 1) }
    ensures kept { Kept (trees_of codes.now.items) w store.old store.new }
    ensures below { OnOk result (flow.new.below ≡ all_frames flow.old) }
{
    match out {
        OpOut::Is(value) => give_value(flow, w, codes, store, value),
        OpOut::Left => Ok(flow.stop(StopCause::Number)),
        OpOut::LongText => Ok(flow.stop(StopCause::LongText)),
    }
}

// What an operator made: a text costs its units.
fn give_value(
    flow: &mut Flow,
    w: u32,
    codes: &Vec<Code>,
    store: &mut Store,
    value: Value,
) -> Result<(), Memory>
    requires widget { w < 32 }
    requires plain { IsPrimitive value }
    ensures plan { OnOk result (Plans (trees_of codes.now.items) w store.old store.new
        (expressions.result (operators.Gives (plain value))) flow.new) }
    ensures fine { OnOk result (FineLeft (trees_of codes.now.items) w store.new.cells flow.new) }
    ensures near { OnOk result (left_free flow.new ≤ 1) }
    ensures kept { Kept (trees_of codes.now.items) w store.old store.new }
    ensures below { OnOk result (flow.new.below ≡ all_frames flow.old) }
{
    match value {
        Value::Text(t) => match pay_text(store, w, &t) {
            Paid::Done => Ok(flow.give(Completion::Is(Value::Text(t)))),
            Paid::Stop(cause) => Ok(flow.stop(cause)),
        },
        value => Ok(flow.give(Completion::Is(value))),
    }
}

// An operator on two operands that need no conversion.
pub(crate) fn computed(
    flow: &mut Flow,
    alloc: Global,
    w: u32,
    codes: &Vec<Code>,
    store: &mut Store,
    op: BinOp,
    left: &Value,
    right: &Value,
) -> Result<(), Memory>
    requires widget { w < 32 }
    requires held { IsFine w store.old.cells left.now × IsFine w store.old.cells right.now }
    requires operands { IsOperand op left.now × IsOperand op right.now }
    ensures plan { OnOk result (Plans (trees_of codes.now.items) w store.old store.new
        (expressions.result (operators.binary op (seen w store.old.cells left.now)
        (seen w store.old.cells right.now))) flow.new) }
    ensures fine { OnOk result (FineLeft (trees_of codes.now.items) w store.new.cells flow.new) }
    ensures near { OnOk result (left_free flow.new ≤ 1) }
    ensures kept { Kept (trees_of codes.now.items) w store.old store.new }
    ensures below { OnOk result (flow.new.below ≡ all_frames flow.old) }
{
    let out = binary(alloc, op, left, right)?;
    result_of(flow, w, codes, store, out)
}

/// An operator on two values, by a caller at a depth: objects are converted, left before right.
pub(crate) fn operate(
    flow: &mut Flow,
    alloc: Global,
    w: u32,
    codes: &Vec<Code>,
    store: &mut Store,
    op: (BinOp, u32),
    left: &Value,
    right: &Value,
) -> Result<(), Memory>
    requires widget { w < 32 }
    requires held { IsFine w store.old.cells left.now × IsFine w store.old.cells right.now }
    ensures plan { OnOk result (Plans (trees_of codes.now.items) w store.old store.new
        (expressions.operate op.0 (seen w store.old.cells left.now) (seen w store.old.cells right.now) op.1) flow.new) }
    ensures fine { OnOk result (FineLeft (trees_of codes.now.items) w store.new.cells flow.new) }
    ensures near { OnOk result (left_free flow.new ≤ 6) }
    ensures kept { Kept (trees_of codes.now.items) w store.old store.new }
    ensures below { OnOk result (flow.new.below ≡ all_frames flow.old) }
{
    let (of, depth) = op;
    if !is_converting(of) {
        return computed(flow, alloc, w, codes, store, of, left, right);
    }
    if is_object(left) {
        let waits = FormFrame::ConvertedLeft(of, right.share()?, depth);
        return convert(flow, waits, depth, left.share()?);
    }
    convert_right(flow, alloc, w, codes, store, op, left, right)
}

/// After the conversion of the left operand: that of the right.
pub(crate) fn convert_right(
    flow: &mut Flow,
    alloc: Global,
    w: u32,
    codes: &Vec<Code>,
    store: &mut Store,
    op: (BinOp, u32),
    left: &Value,
    right: &Value,
) -> Result<(), Memory>
    requires widget { w < 32 }
    requires held { IsFine w store.old.cells left.now × IsFine w store.old.cells right.now }
    requires left { IsPrimitive left.now }
    ensures plan { OnOk result (Plans (trees_of codes.now.items) w store.old store.new
        (expressions.converted_left op.0 (seen w store.old.cells right.now) op.1
        (meaning.Is (seen w store.old.cells left.now))) flow.new) }
    ensures fine { OnOk result (FineLeft (trees_of codes.now.items) w store.new.cells flow.new) }
    ensures near { OnOk result (left_free flow.new ≤ 3) }
    ensures kept { Kept (trees_of codes.now.items) w store.old store.new }
    ensures below { OnOk result (flow.new.below ≡ all_frames flow.old) }
{
    let (of, depth) = op;
    if is_object(right) {
        let waits = FormFrame::ConvertedRight(of, left.share()?);
        return convert(flow, waits, depth, right.share()?);
    }
    computed(flow, alloc, w, codes, store, of, left, right)
}

/// A prefix operator on a value: `+` and `-` convert an object, `!` and `typeof` do not.
pub(crate) fn prefix(
    flow: &mut Flow,
    alloc: Global,
    w: u32,
    codes: &Vec<Code>,
    store: &mut Store,
    op: (UnOp, Place),
    value: Value,
) -> Result<(), Memory>
    requires widget { w < 32 }
    requires confined { IsConfined (trees_of codes.now.items) w store.old }
    requires held { IsFine w store.old.cells value }
    ensures plan { OnOk result (Plans (trees_of codes.now.items) w store.old store.new
        (expressions.unary_on op.0 (seen w store.old.cells value) (place_of w store.old.cells op.1)) flow.new) }
    ensures fine { OnOk result (FineLeft (trees_of codes.now.items) w store.new.cells flow.new) }
    ensures near { OnOk result (left_free flow.new ≤ 4) }
    ensures kept { Kept (trees_of codes.now.items) w store.old store.new }
    ensures below { OnOk result (flow.new.below ≡ all_frames flow.old) }
{
    let (op, place) = op;
    match op {
        UnOp::TypeOf => type_of(flow, alloc, w, codes, store, &value),
        UnOp::Not => converted_prefix(flow, w, codes, store, UnOp::Not, &value),
        _ => convert_prefix(flow, w, codes, store, (op, place.depth), value),
    }
}

// The name of a value's type.
fn type_of(
    flow: &mut Flow,
    alloc: Global,
    w: u32,
    codes: &Vec<Code>,
    store: &mut Store,
    value: &Value,
) -> Result<(), Memory>
    requires held { IsFine w store.old.cells value.now }
    ensures plan { OnOk result (Plans (trees_of codes.now.items) w store.old store.new
        (λ s. costs.give (meaning.Text
        (operators.type_name (properties.is_function s (seen w store.old.cells value.now))
        (seen w store.old.cells value.now))) s) flow.new) }
    ensures fine { OnOk result (FineLeft (trees_of codes.now.items) w store.new.cells flow.new) }
    ensures near { OnOk result (left_free flow.new ≤ 1) }
    ensures kept { Kept (trees_of codes.now.items) w store.old store.new }
    ensures below { OnOk result (flow.new.below ≡ all_frames flow.old) }
{
    let function = is_function(store, value);
    let name = type_name(alloc, value, function)?;
    Ok(flow.give(Completion::Is(Value::Text(name))))
}

// Whether a value can be called.
fn is_function(store: &Store, value: &Value) -> bool
    requires { IsRefWithin (length store.now.cells) value.now }
    ensures { (fs : List Forest) (r : Rest) (w : ℕ) → IsFine w store.now.cells value.now
        → result ≡ properties.is_function (image fs r w store.now) (seen w store.now.cells value.now) }
{
    match callee(store, value) {
        Callee::Function(_) => true,
        Callee::Native(_) => true,
        Callee::Nothing => false,
    }
}

// A prefix operator that converts its operand.
fn convert_prefix(
    flow: &mut Flow,
    w: u32,
    codes: &Vec<Code>,
    store: &mut Store,
    op: (UnOp, u32),
    value: Value,
) -> Result<(), Memory>
    requires widget { w < 32 }
    requires held { IsFine w store.old.cells value }
    ensures plan { OnOk result (Plans (trees_of codes.now.items) w store.old store.new
        (λ s. and_then (calls.to_primitive (seen w store.old.cells value) op.1 s)
        (after (λ v t. expressions.result (operators.unary op.0 v) t))) flow.new) }
    ensures fine { OnOk result (FineLeft (trees_of codes.now.items) w store.new.cells flow.new) }
    ensures near { OnOk result (left_free flow.new ≤ 3) }
    ensures kept { Kept (trees_of codes.now.items) w store.old store.new }
    ensures below { OnOk result (flow.new.below ≡ all_frames flow.old) }
{
    let (op, depth) = op;
    if is_object(&value) {
        return convert(flow, FormFrame::ConvertedPrefix(op), depth, value);
    }
    converted_prefix(flow, w, codes, store, op, &value)
}

/// A prefix operator on an operand that needs no conversion.
pub(crate) fn converted_prefix(
    flow: &mut Flow,
    w: u32,
    codes: &Vec<Code>,
    store: &mut Store,
    op: UnOp,
    value: &Value,
) -> Result<(), Memory>
    requires widget { w < 32 }
    requires operand { IsPrefixed op value.now }
    ensures plan { OnOk result (Plans (trees_of codes.now.items) w store.old store.new
        (expressions.result (operators.unary op (seen w store.old.cells value.now))) flow.new) }
    ensures fine { OnOk result (FineLeft (trees_of codes.now.items) w store.new.cells flow.new) }
    ensures near { OnOk result (left_free flow.new ≤ 1) }
    ensures kept { Kept (trees_of codes.now.items) w store.old store.new }
    ensures below { OnOk result (flow.new.below ≡ all_frames flow.old) }
{
    let out = unary(op, value)?;
    result_of(flow, w, codes, store, out)
}

/// `delete` takes a property out.
pub(crate) fn delete(
    flow: &mut Flow,
    alloc: Global,
    w: u32,
    codes: &Vec<Code>,
    store: &mut Store,
    of: Reference,
) -> Result<(), Memory>
    requires widget { w < 32 }
    requires held { FineReference w store.old.cells of }
    ensures plan { OnOk result (Plans (trees_of codes.now.items) w store.old store.new
        (expressions.delete_at (reference_of w store.old.cells of)) flow.new) }
    ensures fine { OnOk result (FineLeft (trees_of codes.now.items) w store.new.cells flow.new) }
    ensures near { OnOk result (left_free flow.new ≤ 1) }
    ensures kept { Kept (trees_of codes.now.items) w store.old store.new }
    ensures below { OnOk result (flow.new.below ≡ all_frames flow.old) }
{
    match of {
        Reference::Property(base, x) => delete_named(flow, alloc, w, codes, store, &base, &x),
        Reference::Element(cell, i) => {
            let name = element_name(alloc, i)?;
            let base = Value::Ref(cell);
            delete_named(flow, alloc, w, codes, store, &base, &name)
        }
        _ => Ok(flow.give(Completion::Is(Value::Bool(true)))),
    }
}

// `delete` takes a property out of a value.
fn delete_named(
    flow: &mut Flow,
    alloc: Global,
    w: u32,
    codes: &Vec<Code>,
    store: &mut Store,
    base: &Value,
    name: &Text,
) -> Result<(), Memory>
    requires widget { w < 32 }
    requires held { IsFine w store.old.cells base.now }
    ensures plan { OnOk result (Plans (trees_of codes.now.items) w store.old store.new
        (expressions.delete_at (meaning.Property (seen w store.old.cells base.now) name.now)) flow.new) }
    ensures fine { OnOk result (FineLeft (trees_of codes.now.items) w store.new.cells flow.new) }
    ensures near { OnOk result (left_free flow.new ≤ 1) }
    ensures kept { Kept (trees_of codes.now.items) w store.old store.new }
    ensures below { OnOk result (flow.new.below ≡ all_frames flow.old) }
{
    match remove(store, w, base, name) {
        Removed::Done(answer) => Ok(flow.give(Completion::Is(Value::Bool(answer)))),
        Removed::Throw(fault) => throw(flow, alloc, w, codes, store, fault),
    }
}
