//! Many steps on one flow.
ghost use Rattle.std.specs.Prelude.{◌≡◌, ◌+◌, ◌*◌, ◌-◌, ◌<◌, ◌≤◌, IfOk, IsFalse, IsTrue, OnOk, true};
ghost use Rattle.js_image.specs.Image.{Rest, image};
ghost use Rattle.js_image.specs.Held.{IsConfined, Kept};
ghost use Rattle.js_names.specs.Code.{trees_of};
ghost use Rattle.js_flow.specs.Left.{all_frames};
ghost use Rattle.js_flow.specs.Frames.{flow_plan};
ghost use Rattle.js_flow.specs.Fine.{FineControl, FineFlow, FineFrames};
ghost use Rattle.js_flow.specs.Free.{control_free, flow_free, free, native_free, next_free};
ghost use Rattle.js_flow.specs.Todo.{IsGoing, Strides, todo};
ghost use Rattle.js_direct.specs.Going.{is_direct};
ghost use Rattle.js_direct.specs.Reduces.{Reduces};
ghost use Rattle.js_steps.specs.Ending.{IsNative};
ghost use Rattle.js_steps.specs.Tolls.{EndsFlow, Halts, IsRunning, IsTolled, at_rest, paid, paid_next};

use crate::machine::{begin, give, pay, run};
use code_units::Memory;
use js_direct::is_direct;
use js_flow::{Completion, Control, Flow, Next};
use js_names::Code;
use js_values::Meter;
use object_store::Store;
use std::alloc::Global;

/// Below so many units steps cost less: a form in place would soon be suspended.
pub(crate) const FEW: u32 = 4;

/// What came of a charge.
#[derive(Drop)]
pub(crate) enum Toll {
    /// It was paid.
    Paid,
    /// The units are used up.
    Cut,
    /// It is more than is left.
    Short,
    /// There is none: a native, a stop or an end is next.
    Over,
}

/// How far steps go: so many units from what was left at first.
#[derive(Clone, Copy, Drop)]
pub(crate) struct Bound {
    pub first: u32,
    pub units: u32,
}

/// Whether so many units are used up before a charge.
#[inline(always)]
pub(crate) fn is_used(charge: usize, spent: u32, units: u32) -> bool
    ensures yes { IsTrue result → (units ≤ spent) × (0 < charge) }
    ensures no { IsFalse result → units ≤ spent → charge ≡ 0 }
{
    charge > 0 && spent >= units
}

// A charge is paid where it begins below the bound.
fn charged(meter: &mut Meter, charge: usize, bound: Bound) -> Toll
    requires first { meter.old.left ≤ bound.first }
    ensures { IsTolled bound.units bound.first meter.old meter.new (Next.Pay charge) result }
{
    if is_used(charge, bound.first - meter.left(), bound.units) {
        return Toll::Cut;
    }
    if pay(meter, charge) {
        Toll::Paid
    } else {
        Toll::Short
    }
}

// The charge of what is next is paid where it begins below the bound.
#[inline(always)]
fn pay_next(next: &Next, meter: &mut Meter, bound: Bound) -> Toll
    requires first { meter.old.left ≤ bound.first }
    ensures { IsTolled bound.units bound.first meter.old meter.new next.now result }
{
    match next {
        Next::Begin(_) => Toll::Paid,
        Next::Run(_, _) => Toll::Paid,
        Next::Give(_) => Toll::Paid,
        Next::Go(_) => charged(meter, 1, bound),
        Next::Pay(charge) => charged(meter, *charge, bound),
        _ => Toll::Over,
    }
}

// The units below the bound, as far as they are left.
fn below(meter: &Meter, bound: Bound) -> u32
    requires first { meter.now.left ≤ bound.first }
    ensures left { result ≤ meter.now.left }
    ensures bound { result ≤ bound.units - (bound.first - meter.now.left) }
{
    let left = meter.left();
    let spent = bound.first - left;
    if spent >= bound.units {
        return 0;
    }
    if bound.units - spent < left {
        bound.units - spent
    } else {
        left
    }
}

// What is next is done, once its charge was taken.
fn go(
    flow: &mut Flow,
    alloc: Global,
    w: u32,
    codes: &Vec<Code>,
    store: &mut Store,
) -> Result<(), Memory>
    requires running { IsRunning flow.old.next }
    requires widget { w < 32 }
    requires confined { IsConfined (trees_of codes.now.items) w store.old }
    requires held { FineFlow (trees_of codes.now.items) w store.old.cells flow.old }
    ensures plan { let F = trees_of codes.now.items in OnOk result ((r : Rest)
        → flow_plan F w store.new.cells flow.new (image F r w store.new)
        ≡ flow_plan F w store.old.cells (paid flow.old) (image F r w store.old)) }
    ensures fine { OnOk result (FineFlow (trees_of codes.now.items) w store.new.cells flow.new) }
    ensures near { OnOk result (flow_free flow.new < flow_free (paid flow.old)) }
    ensures native { OnOk result (IsNative flow.new.next → (native_free < next_free (paid_next flow.old.next))
        × (all_frames flow.new ≡ all_frames flow.old)) }
    ensures kept { Kept (trees_of codes.now.items) w store.old store.new }
{
    match flow.take_next() {
        Next::Go(job) => begin(flow, alloc, w, codes, store, job),
        Next::Begin(job) => begin(flow, alloc, w, codes, store, job),
        Next::Run(block, place) => run(flow, codes, block, place),
        Next::Give(how) => give(flow, alloc, w, codes, store, how),
        Next::Pay(_) => give(flow, alloc, w, codes, store, Completion::Normal),
        _ => unreachable!(),
    }
}

// Whether what is next is carried out in place, where so many units may be spent.
#[inline(always)]
fn is_in_place(next: &Next, units: u32) -> bool
    ensures { IsTrue result → (0 < units) × (is_direct next.now ≡ true) }
{
    units >= FEW && is_direct(next)
}

// What is next is carried out in place, by no more than these units.
fn in_place(
    flow: &mut Flow,
    alloc: Global,
    w: u32,
    codes: &Vec<Code>,
    store: &mut Store,
    meter: &mut Meter,
    units: u32,
) -> Result<(), Memory>
    requires direct { is_direct flow.old.next ≡ true }
    requires units { (0 < units) × (units ≤ meter.old.left) }
    requires widget { w < 32 }
    requires confined { IsConfined (trees_of codes.now.items) w store.old }
    requires held { FineFlow (trees_of codes.now.items) w store.old.cells flow.old }
    ensures reduces { let F = trees_of codes.now.items in OnOk result ((r : Rest)
        → Reduces (meter.old.left - meter.new.left)
        (flow_plan F w store.old.cells flow.old (image F r w store.old))
        (flow_plan F w store.new.cells flow.new (image F r w store.new))) }
    ensures within { meter.old.left - meter.new.left ≤ units }
    ensures fine { OnOk result (FineFlow (trees_of codes.now.items) w store.new.cells flow.new) }
    ensures near { OnOk result (32 * meter.new.left + flow_free flow.new < 32 * meter.old.left + flow_free flow.old) }
    ensures native { OnOk result (IsNative flow.new.next → ⊥) }
    ensures spends { (meter.new.left ≤ meter.old.left)
        × (meter.new.left + meter.new.spent ≡ meter.old.left + meter.old.spent) }
    ensures kept { Kept (trees_of codes.now.items) w store.old store.new }
{
    let left = js_direct::go(flow, alloc, w, codes, store, units)?;
    if !pay(meter, (units - left) as usize) {
        unreachable!()
    }
    Ok(())
}

// What is next is done: in place where it can be, and else by one step.
fn go_on(
    flow: &mut Flow,
    alloc: Global,
    w: u32,
    codes: &Vec<Code>,
    store: &mut Store,
    meter: &mut Meter,
    bound: Bound,
) -> Result<Toll, Memory>
    requires first { meter.old.left ≤ bound.first }
    requires widget { w < 32 }
    requires confined { IsConfined (trees_of codes.now.items) w store.old }
    requires held { FineFlow (trees_of codes.now.items) w store.old.cells flow.old }
    requires call { EndsFlow (trees_of codes.now.items) w store.old flow.old }
    ensures strides { let F = trees_of codes.now.items in IfOk result (λ t. (r : Rest)
        → Strides (bound.units - (bound.first - meter.old.left)) (meter.old.left - meter.new.left)
        (flow_plan F w store.old.cells flow.old (image F r w store.old))
        (flow_plan F w store.new.cells flow.new (image F r w store.new))) }
    ensures halts { IfOk result (λ t. (t ≡ Toll.Paid → ⊥)
        → Halts bound.units (bound.first - meter.new.left) meter.new.left flow.new.next t) }
    ensures fine { IfOk result (λ t. FineFlow (trees_of codes.now.items) w store.new.cells flow.new) }
    ensures call { IfOk result (λ t. EndsFlow (trees_of codes.now.items) w store.new flow.new) }
    ensures near { IfOk result (λ t. 32 * meter.new.left + flow_free flow.new + at_rest flow.new.next
        ≤ 32 * meter.old.left + flow_free flow.old + at_rest flow.old.next) }
    ensures less { IfOk result (λ t. t ≡ Toll.Paid
        → 32 * meter.new.left + flow_free flow.new < 32 * meter.old.left + flow_free flow.old) }
    ensures spends { (meter.new.left ≤ meter.old.left)
        × (meter.new.left + meter.new.spent ≡ meter.old.left + meter.old.spent) }
    ensures kept { Kept (trees_of codes.now.items) w store.old store.new }
{
    let units = below(meter, bound);
    if is_in_place(flow.next(), units) {
        in_place(flow, alloc, w, codes, store, meter, units)?;
        return Ok(Toll::Paid);
    }
    match pay_next(flow.next(), meter, bound) {
        Toll::Paid => {
            go(flow, alloc, w, codes, store)?;
            Ok(Toll::Paid)
        }
        halt => Ok(halt),
    }
}

/// What is next is done, and so on, while charges begin below so many units.
pub(crate) fn carry_on(
    flow: &mut Flow,
    alloc: Global,
    w: u32,
    codes: &Vec<Code>,
    store: &mut Store,
    meter: &mut Meter,
    units: u32,
) -> Result<Toll, Memory>
    requires widget { w < 32 }
    requires confined { IsConfined (trees_of codes.now.items) w store.old }
    requires held { FineFlow (trees_of codes.now.items) w store.old.cells flow.old }
    requires call { EndsFlow (trees_of codes.now.items) w store.old flow.old }
    ensures strides { let F = trees_of codes.now.items in IfOk result (λ t. (r : Rest)
        → Strides units (meter.old.left - meter.new.left)
        (flow_plan F w store.old.cells flow.old (image F r w store.old))
        (flow_plan F w store.new.cells flow.new (image F r w store.new))) }
    ensures halts { IfOk result (λ t. Halts units (meter.old.left - meter.new.left) meter.new.left flow.new.next t) }
    ensures fine { IfOk result (λ t. FineFlow (trees_of codes.now.items) w store.new.cells flow.new) }
    ensures call { IfOk result (λ t. EndsFlow (trees_of codes.now.items) w store.new flow.new) }
    ensures near { IfOk result (λ t. 32 * meter.new.left + flow_free flow.new + at_rest flow.new.next
        ≤ 32 * meter.old.left + flow_free flow.old + at_rest flow.old.next) }
    ensures spends { (meter.new.left ≤ meter.old.left)
        × (meter.new.left + meter.new.spent ≡ meter.old.left + meter.old.spent) }
    ensures kept { Kept (trees_of codes.now.items) w store.old store.new }
{
    let first = meter.left();
    let bound = Bound { first, units };
    'steps: loop {
        match go_on(flow, alloc, w, codes, store, meter, bound)? {
            Toll::Paid => {}
            halt => return Ok(halt),
        }
    }
}

/// What a task is at is next on its flow.
pub(crate) fn resumed(
    flow: &mut Flow,
    alloc: Global,
    w: u32,
    codes: &Vec<Code>,
    store: &mut Store,
    control: Control,
) -> Result<(), Memory>
    requires going { IsGoing control }
    requires widget { w < 32 }
    requires confined { IsConfined (trees_of codes.now.items) w store.old }
    requires held { FineControl (trees_of codes.now.items) w store.old.cells control
        × FineFrames (trees_of codes.now.items) w store.old.cells (all_frames flow.old) }
    ensures plan { let F = trees_of codes.now.items in OnOk result ((r : Rest)
        → flow_plan F w store.new.cells flow.new (image F r w store.new)
        ≡ todo F w store.old.cells control (all_frames flow.old) (image F r w store.old)) }
    ensures fine { OnOk result (FineFlow (trees_of codes.now.items) w store.new.cells flow.new) }
    ensures near { OnOk result (flow_free flow.new + at_rest flow.new.next ≤ free control (all_frames flow.old)) }
    ensures native { OnOk result (IsNative flow.new.next → native_free < control_free control) }
    ensures kept { Kept (trees_of codes.now.items) w store.old store.new }
{
    match control {
        Control::Do(job) => Ok(flow.leave(Next::Go(job))),
        Control::Begin(job) => begin(flow, alloc, w, codes, store, job),
        Control::Give(how) => Ok(flow.leave(Next::Give(how))),
        Control::Pay(units) => Ok(flow.leave(Next::Pay(units))),
        _ => unreachable!(),
    }
}
