//! What a JSON value costs as a widget's value, and what is wrong with it.
ghost use Rattle.std.specs.Prelude.{◌≡◌, ◌+◌, ◌&&◌, OnOk, IfOk};
ghost use Rattle.code_units.specs.Utf8.{units_of};
ghost use Rattle.serde_json.specs.View.{view, items_view, members_view, number_view};
ghost use Rattle.widget_meaning.specs.JsonValues.{is_number};
ghost use Rattle.json_text.specs.Weights.{items_weight, members_weight, name_weight, plus, text_weight, weight};

use code_units::{Memory, Text, permitted};
use serde_json::{Map, Number, Value};
use std::alloc::Global;

/// The units that a text may have.
const LONGEST: usize = 65_536;

/// The first whole number past the numbers.
const LIMIT: u64 = 1 << 53;

/// What a value costs: its objects, its names and elements, the units of its texts; and whether all its
/// names are permitted, all its numbers are whole and within the numbers, and no text is too long.
#[derive(Clone, Copy, Drop)]
pub struct Weight {
    pub cells: usize,
    pub slots: usize,
    pub units: usize,
    pub named: bool,
    pub whole: bool,
    pub short: bool,
}

/// Nothing.
pub(crate) const NO_WEIGHT: Weight = Weight {
    cells: 0,
    slots: 0,
    units: 0,
    named: true,
    whole: true,
    short: true,
};

/// The weight of a value is added.
#[cycle(weighing)]
pub(crate) fn weigh(alloc: Global, value: &Value, sum: &mut Weight) -> Result<(), Memory>
    ensures { OnOk result (sum.new ≡ plus sum.old (weight (view value.now))) }
{
    match value {
        Value::Null => Ok(()),
        Value::Bool(_) => Ok(()),
        Value::Number(x) => {
            sum.whole = both(sum.whole, is_number(x));
            Ok(())
        }
        Value::String(text) => weigh_text(&Text::from_str(alloc, text.as_str())?, sum),
        Value::Array(items) => {
            sum.cells = add(sum.cells, 1)?;
            weigh_items(alloc, items, sum)
        }
        Value::Object(members) => {
            sum.cells = add(sum.cells, 1)?;
            weigh_members(alloc, members, sum)
        }
    }
}

#[cycle(weighing)]
fn weigh_items(alloc: Global, items: &Vec<Value>, sum: &mut Weight) -> Result<(), Memory>
    ensures { OnOk result (sum.new ≡ plus sum.old (items_weight (items_view items.now.items))) }
{
    for item in items {
        sum.slots = add(sum.slots, 1)?;
        weigh(alloc, item, sum)?;
    }
    Ok(())
}

#[cycle(weighing)]
fn weigh_members(
    alloc: Global,
    members: &Map<String, Value>,
    sum: &mut Weight,
) -> Result<(), Memory>
    ensures { OnOk result (sum.new ≡ plus sum.old (members_weight (members_view members.now.entries))) }
{
    for (key, member) in members.iter() {
        weigh_name(alloc, key.as_str(), sum)?;
        weigh(alloc, member, sum)?;
    }
    Ok(())
}

fn weigh_name(alloc: Global, key: &str, sum: &mut Weight) -> Result<(), Memory>
    ensures { OnOk result (sum.new ≡ plus sum.old (name_weight (units_of key.now))) }
{
    sum.slots = add(sum.slots, 1)?;
    sum.named = both(sum.named, permitted(&Text::from_str(alloc, key)?));
    Ok(())
}

fn weigh_text(text: &Text, sum: &mut Weight) -> Result<(), Memory>
    ensures { OnOk result (sum.new ≡ plus sum.old (text_weight text.now)) }
{
    let len = text.units().len();
    sum.units = add(sum.units, len)?;
    sum.short = both(sum.short, len <= LONGEST);
    Ok(())
}

// A sum that no memory holds is want of memory.
fn add(a: usize, b: usize) -> Result<usize, Memory>
    ensures { IfOk result (λ n. n ≡ a + b) }
{
    match a.checked_add(b) {
        Some(n) => Ok(n),
        None => Err(Memory),
    }
}

fn both(a: bool, b: bool) -> bool
    ensures { result ≡ (a && b) }
{
    a && b
}

// Whether a number is held as a whole one and is within the numbers.
fn is_number(x: &Number) -> bool
    ensures { result ≡ is_number (number_view x.now) }
{
    if let Some(n) = x.as_u64() {
        return n < LIMIT;
    }
    match x.as_i64() {
        Some(z) => z.unsigned_abs() < LIMIT,
        None => false,
    }
}
