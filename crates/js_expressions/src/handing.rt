//! What is next, each word of it made by a function of its own: a function pays at its entry for all that
//! its arms may make, so an arm only hands on.
ghost use Rattle.js_flow.specs.declared.job.Next.{Next};
ghost use Rattle.std.specs.Prelude.{OnOk, [], ◌∷◌};
ghost use Rattle.js_flow.specs.Left.{Leaves};

use code_units::Memory;
use js_flow::{CallFrame, Completion, Flow, FormFrame, Frame, Job, Place, Reference};
use js_tree::ExprId;
use object_store::Value;

/// An expression, and the frame that waits for it.
#[inline(always)]
pub(crate) fn evaluate(
    flow: &mut Flow,
    frame: FormFrame,
    id: ExprId,
    place: Place,
) -> Result<(), Memory>
    ensures { OnOk result (Leaves flow.old flow.new (Frame.Form frame ∷ []) (Next.Go (Job.Eval id place))) }
{
    flow.push(Frame::Form(frame), Job::Eval(id, place))
}

/// A target, and the frame that waits for it.
#[inline(always)]
pub(crate) fn reach(
    flow: &mut Flow,
    frame: FormFrame,
    id: ExprId,
    place: Place,
) -> Result<(), Memory>
    ensures { OnOk result (Leaves flow.old flow.new (Frame.Form frame ∷ []) (Next.Go (Job.Target id place))) }
{
    flow.push(Frame::Form(frame), Job::Target(id, place))
}

/// The target of a call, and the frame that waits for it.
#[inline(always)]
pub(crate) fn reach_callee(
    flow: &mut Flow,
    call: ExprId,
    callee: ExprId,
    place: Place,
) -> Result<(), Memory>
    ensures { OnOk result (Leaves flow.old flow.new (Frame.Call (CallFrame.Callee call place) ∷ [])
        (Next.Go (Job.Target callee place))) }
{
    flow.push(
        Frame::Call(CallFrame::Callee(call, place)),
        Job::Target(callee, place),
    )
}

/// An expression in the place of this one.
#[inline(always)]
pub(crate) fn go(flow: &mut Flow, id: ExprId, place: Place) -> Result<(), Memory>
    ensures { OnOk result (Leaves flow.old flow.new [] (Next.Go (Job.Eval id place))) }
{
    Ok(flow.go(Job::Eval(id, place)))
}

/// An expression that stands where a target may be; it has the unit of the target.
#[inline(always)]
pub(crate) fn find(flow: &mut Flow, id: ExprId, place: Place) -> Result<(), Memory>
    ensures { OnOk result (Leaves flow.old flow.new (Frame.Form FormFrame.Found ∷ [])
        (Next.Begin (Job.Eval id place))) }
{
    flow.push_begun(Frame::Form(FormFrame::Found), Job::Eval(id, place))
}

/// The conversion of an object, and the frame that waits for it.
#[inline(always)]
pub(crate) fn convert(
    flow: &mut Flow,
    frame: FormFrame,
    depth: u32,
    value: Value,
) -> Result<(), Memory>
    ensures { OnOk result (Leaves flow.old flow.new
        (Frame.Form frame ∷ Frame.Call (CallFrame.ToPrimitive depth) ∷ []) (Next.Give (Completion.Is value))) }
{
    flow.push_given(
        Frame::Form(frame),
        Frame::Call(CallFrame::ToPrimitive(depth)),
        Completion::Is(value),
    )
}

/// A value.
#[inline(always)]
pub(crate) fn give(flow: &mut Flow, value: Value) -> Result<(), Memory>
    ensures { OnOk result (Leaves flow.old flow.new [] (Next.Give (Completion.Is value))) }
{
    Ok(flow.give(Completion::Is(value)))
}

/// A reference.
#[inline(always)]
pub(crate) fn give_reference(flow: &mut Flow, of: Reference) -> Result<(), Memory>
    ensures { OnOk result (Leaves flow.old flow.new [] (Next.Give (Completion.Refers of))) }
{
    Ok(flow.give(Completion::Refers(of)))
}

/// How a part ended, passed on.
#[inline(always)]
pub(crate) fn pass_on(flow: &mut Flow, how: Completion) -> Result<(), Memory>
    ensures { OnOk result (Leaves flow.old flow.new [] (Next.Give how)) }
{
    Ok(flow.give(how))
}
