//! A function that is called with each item of a list.
ghost use Rattle.std.specs.Prelude.{◌≡◌, ℕ, ◌+◌, ◌<◌, ◌≤◌, ◌++◌, ◌∷◌, [], List, None, IfOk, OnOk, false, if◌then◌else◌, length, option_to_list, pos, slice_get};
ghost use Rattle.std.specs.Option.{option_map_or};
ghost use Rattle.store_cells.specs.Cells.{PlainCell};
ghost use Rattle.widget_meaning.specs.Values as meaning;
ghost use Rattle.widget_meaning.specs.Costs as costs;
ghost use Rattle.widget_meaning.specs.NativeForms as natives;
ghost use Rattle.widget_meaning.specs.ListNatives as lists;
ghost use Rattle.js_image.specs.Image.{all_seen, seen};
ghost use Rattle.js_image.specs.Held.{AreFine, IsFine, Kept};
ghost use Rattle.js_names.specs.Code.{trees_of};
ghost use Rattle.js_flow.specs.Calls.{gathered, gathering_taken};
ghost use Rattle.js_flow.specs.Fine.{FineCalling, FineGathering, FineLeft};
ghost use Rattle.js_flow.specs.Frames.{Plans};
ghost use Rattle.js_flow.specs.Free.{left_free};
ghost use Rattle.js_calls.specs.Called.{each_left, gather_left};
ghost use Rattle.js_flow.specs.Left.{all_frames};

use code_units::Memory;
use js_flow::{Args, Call, CallFrame, Calling, Completion, Flow, Frame, Gathering, Job, Keep};
use js_image::{Made, make_array};
use js_names::Code;
use js_values::is_true;
use object_store::{CellId, Number, Store, Value};
use std::alloc::Global;

/// The next call with an item, or else what is given after the last.
pub fn each(
    flow: &mut Flow,
    alloc: Global,
    w: u32,
    codes: &Vec<Code>,
    store: &Store,
    c: Box<Calling>,
) -> Result<(), Memory>
    requires held { FineCalling w store.now.cells c.value }
    ensures plan { OnOk result
        (Plans (trees_of codes.now.items) w store.now store.now (each_left w store.now.cells c.value) flow.new) }
    ensures fine { OnOk result (FineLeft (trees_of codes.now.items) w store.now.cells flow.new) }
    ensures near { OnOk result (left_free flow.new ≤ 1) }
    ensures below { OnOk result (flow.new.below ≡ all_frames flow.old) }
{
    match item_left(&c)? {
        None => Ok(flow.give(Completion::Is(last_of(c)))),
        Some(item) => {
            let call = each_call(alloc, &c, item)?;
            flow.push(Frame::Call(CallFrame::Each(next_of(c))), Job::Call(call))
        }
    }
}

// The item of the next call.
fn item_left(c: &Calling) -> Result<Option<Value>, Memory>
    ensures { IfOk result (λ o. o ≡ slice_get c.now.items.items c.now.next) }
{
    shared(&c.items, c.next)
}

// What is given after the last call.
fn last_of(c: Box<Calling>) -> Value
    ensures { result ≡ c.value.last }
{
    let Calling { last, .. } = Box::into_inner(c);
    last
}

// The call with an item.
fn each_call(alloc: Global, c: &Calling, item: Value) -> Result<Box<Call>, Memory>
    ensures func { IfOk result (λ k. k.value.func ≡ Value.Ref c.now.func) }
    ensures this { IfOk result (λ k. k.value.this ≡ None) }
    ensures args { IfOk result (λ k. k.value.args.items ≡ item ∷ []) }
    ensures depth { IfOk result (λ k. k.value.depth ≡ c.now.depth) }
{
    call_with(alloc, c.func, item, None, c.depth)
}

// The same calls, at the next item.
fn next_of(c: Box<Calling>) -> Box<Calling>
    requires { c.value.next < length c.value.items.items }
    ensures { result.value ≡ record (c.value) { next = c.value.next + 1 } }
{
    let mut c = c;
    c.next += 1;
    c
}

/// The next call with an item and its index, or else what is kept of all calls.
pub fn gather(
    flow: &mut Flow,
    alloc: Global,
    w: u32,
    codes: &Vec<Code>,
    store: &mut Store,
    g: Box<Gathering>,
) -> Result<(), Memory>
    requires widget { w < 32 }
    requires held { FineGathering w store.old.cells g.value }
    ensures plan { OnOk result
        (Plans (trees_of codes.now.items) w store.old store.new (gather_left w store.old.cells g.value) flow.new) }
    ensures fine { OnOk result (FineLeft (trees_of codes.now.items) w store.new.cells flow.new) }
    ensures near { OnOk result (left_free flow.new ≤ 1) }
    ensures kept { Kept (trees_of codes.now.items) w store.old store.new }
    ensures below { OnOk result (flow.new.below ≡ all_frames flow.old) }
{
    match next_item(&g)? {
        None => keep(flow, alloc, w, codes, store, Box::into_inner(g)),
        Some(item) => {
            let call = gather_call(alloc, &g, item)?;
            flow.push(Frame::Call(CallFrame::Gather(g)), Job::Call(call))
        }
    }
}

/// The item whose call has no result yet; none behind the last.
pub fn next_item(g: &Gathering) -> Result<Option<Value>, Memory>
    ensures { IfOk result (λ o. o ≡ slice_get g.now.items.items (length g.now.results.items)) }
{
    shared(&g.items, g.results.len())
}

// The call with an item and its index.
fn gather_call(alloc: Global, g: &Gathering, item: Value) -> Result<Box<Call>, Memory>
    ensures func { IfOk result (λ k. k.value.func ≡ Value.Ref g.now.func) }
    ensures this { IfOk result (λ k. k.value.this ≡ None) }
    ensures args { IfOk result
        (λ k. k.value.args.items ≡ item ∷ (Value.Num (Number.Whole (pos (length g.now.results.items))) ∷ [])) }
    ensures depth { IfOk result (λ k. k.value.depth ≡ g.now.depth) }
{
    call_with(alloc, g.func, item, Some(count_of(&g.results)), g.depth)
}

// How many there are, as a value.
fn count_of(values: &Vec<Value>) -> Value
    ensures { result ≡ Value.Num (Number.Whole (pos (length values.now.items))) }
{
    Value::Num(Number::Whole(values.len() as i64))
}

/// After a call with an item: the next.
pub fn gathered(
    flow: &mut Flow,
    alloc: Global,
    w: u32,
    codes: &Vec<Code>,
    store: &mut Store,
    g: Box<Gathering>,
    value: Value,
) -> Result<(), Memory>
    requires widget { w < 32 }
    requires held { FineGathering w store.old.cells g.value × IsFine w store.old.cells value }
    ensures plan { OnOk result (Plans (trees_of codes.now.items) w store.old store.new
        (gathering_taken (trees_of codes.now.items) w store.old.cells g.value
        (meaning.Is (seen w store.old.cells value))) flow.new) }
    ensures fine { OnOk result (FineLeft (trees_of codes.now.items) w store.new.cells flow.new) }
    ensures near { OnOk result (left_free flow.new ≤ 1) }
    ensures kept { Kept (trees_of codes.now.items) w store.old store.new }
    ensures below { OnOk result (flow.new.below ≡ all_frames flow.old) }
{
    let mut g = g;
    g.results.push(value)?;
    gather(flow, alloc, w, codes, store, g)
}

// What is kept of all calls.
fn keep(
    flow: &mut Flow,
    alloc: Global,
    w: u32,
    codes: &Vec<Code>,
    store: &mut Store,
    g: Gathering,
) -> Result<(), Memory>
    requires widget { w < 32 }
    requires held { FineGathering w store.old.cells g }
    ensures plan { OnOk result (Plans (trees_of codes.now.items) w store.old store.new
        (gathered g.keep (all_seen w store.old.cells g.items.items)
        (all_seen w store.old.cells g.results.items)) flow.new) }
    ensures fine { OnOk result (FineLeft (trees_of codes.now.items) w store.new.cells flow.new) }
    ensures near { OnOk result (left_free flow.new ≤ 1) }
    ensures kept { Kept (trees_of codes.now.items) w store.old store.new }
    ensures below { OnOk result (flow.new.below ≡ all_frames flow.old) }
{
    let Gathering {
        items,
        results,
        keep,
        ..
    } = g;
    match keep {
        Keep::Nothing => Ok(flow.give(Completion::Is(Value::Undefined))),
        Keep::Results => new_array(flow, alloc, w, codes, store, results),
        Keep::Passing => {
            let passing = passing(alloc, &items, &results)?;
            new_array(flow, alloc, w, codes, store, passing)
        }
    }
}

// A new array of these elements.
fn new_array(
    flow: &mut Flow,
    alloc: Global,
    w: u32,
    codes: &Vec<Code>,
    store: &mut Store,
    values: Vec<Value>,
) -> Result<(), Memory>
    requires widget { w < 32 }
    requires held { AreFine w store.old.cells values.items }
    ensures plan { OnOk result (Plans (trees_of codes.now.items) w store.old store.new
        (λ s. natives.make_array (all_seen w store.old.cells values.items) 0 s costs.give) flow.new) }
    ensures fine { OnOk result (FineLeft (trees_of codes.now.items) w store.new.cells flow.new) }
    ensures near { OnOk result (left_free flow.new ≤ 1) }
    ensures kept { Kept (trees_of codes.now.items) w store.old store.new }
    ensures below { OnOk result (flow.new.below ≡ all_frames flow.old) }
{
    match make_array(alloc, store, w, values, 0)? {
        Made::Cell(id) => Ok(flow.give(Completion::Is(Value::Ref(id)))),
        Made::Stop(cause) => Ok(flow.stop(cause)),
    }
}

// The items whose result is true.
fn passing(alloc: Global, items: &Vec<Value>, results: &Vec<Value>) -> Result<Vec<Value>, Memory>
    ensures seen { IfOk result (λ vs. (w : ℕ) (cells : List PlainCell)
        → all_seen w cells vs.items
        ≡ lists.kept (all_seen w cells items.now.items) (all_seen w cells results.now.items)) }
    ensures fine { IfOk result (λ vs. (w : ℕ) (cells : List PlainCell) → AreFine w cells items.now.items
        → AreFine w cells vs.items) }
{
    let mut kept = Vec::new(alloc);
    'items: for (i, item) in items.iter().enumerate() {
        let passes = is_passing(results, i);
        add_if(&mut kept, item, passes)?;
    }
    Ok(kept)
}

// Whether the result at a place is true.
fn is_passing(results: &Vec<Value>, i: usize) -> bool
    ensures { (w : ℕ) (cells : List PlainCell)
        → result ≡ option_map_or meaning.is_true (slice_get (all_seen w cells results.now.items) i) false }
{
    match results.get(i) {
        None => false,
        Some(v) => is_true(v),
    }
}

fn add_if(kept: &mut Vec<Value>, item: &Value, passes: bool) -> Result<(), Memory>
    ensures { OnOk result (kept.new.items ≡ kept.old.items ++ (if passes then item.now ∷ [] else [])) }
{
    if passes {
        kept.push(item.share()?)?;
    }
    Ok(())
}

// An item for a second holder.
fn shared(items: &Vec<Value>, n: usize) -> Result<Option<Value>, Memory>
    ensures { IfOk result (λ o. o ≡ slice_get items.now.items n) }
{
    match items.get(n) {
        None => Ok(None),
        Some(v) => Ok(Some(v.share()?)),
    }
}

// A plain call with an item, and maybe its index.
fn call_with(
    alloc: Global,
    func: CellId,
    item: Value,
    index: Option<Value>,
    depth: u32,
) -> Result<Box<Call>, Memory>
    ensures func { IfOk result (λ c. c.value.func ≡ Value.Ref func) }
    ensures this { IfOk result (λ c. c.value.this ≡ None) }
    ensures args { IfOk result (λ c. c.value.args.items ≡ item ∷ option_to_list index) }
    ensures depth { IfOk result (λ c. c.value.depth ≡ depth) }
{
    let mut args = Args::new(alloc);
    args.push(item)?;
    if let Some(index) = index {
        args.push(index)?;
    }
    let call = Call {
        func: Value::Ref(func),
        this: None,
        args,
        depth,
    };
    Ok(Box::new(alloc, call)?)
}
