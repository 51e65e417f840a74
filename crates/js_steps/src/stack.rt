//! The explicit stack of a task: no form calls another by recursion.
ghost use Rattle.std.specs.Prelude.{◌≡◌, ℕ, ◌-◌, ◌<◌, ◌≤◌, ◌++◌, List, [], ◌∷◌, IsSomeAnd, MatchOption, OnErr, OnOk, length, slice_get, suc, take, false, true};
ghost use Rattle.js_tree.specs.Forest.{Forest};
ghost use Rattle.store_cells.specs.Cells.{PlainCell};
ghost use Rattle.widget_meaning.specs.OwnState.{State};
ghost use Rattle.js_flow.specs.Left.{all_frames};
ghost use Rattle.js_flow.specs.Views.{completion_of};
ghost use Rattle.js_flow.specs.Frames.{rest};
ghost use Rattle.js_flow.specs.Fine.{FineFrames};
ghost use Rattle.js_flow.specs.Free.{frames_free};
ghost use Rattle.js_steps.specs.Unwinding.{IsAbrupt, IsUnwound, call_takes, ends_pass, is_break, is_throw, statement_takes, takes};

use code_units::Memory;
use js_flow::{CallFrame, Completion, Flow, Frame, StatementFrame};
use std::alloc::Global;

/// Frames, each of which waits for the one above it; the last is given to first.
#[derive(Drop)]
pub struct Frames {
    pub list: Vec<Frame>,
}

/// What unwinding came to, with how the form ended.
#[derive(Drop)]
pub enum Unwound {
    /// A loop, a switch, a call, a `catch` or a `finally` takes it: the last frame that is left.
    Resumed(Completion),
    /// No frame takes it, and none is left.
    Over(Completion),
}

impl Frames {
    /// No frames.
    pub fn new(alloc: Global) -> Frames
        ensures { result.list.items ≡ [] }
    {
        Frames {
            list: Vec::new(alloc),
        }
    }

    /// How many frames there are.
    pub fn depth(&self) -> usize
        ensures { result ≡ length self.now.list.items }
    {
        self.list.len()
    }

    /// One more frame, which is given to first.
    pub fn push(&mut self, frame: Frame) -> Result<(), Memory>
        ensures pushed { OnOk result (self.new.list.items ≡ self.old.list.items ++ frame ∷ []) }
        ensures same { OnErr result (self.new.list.items ≡ self.old.list.items) }
    {
        self.list.push(frame)?;
        Ok(())
    }

    /// The last frame is taken out; none where there is none.
    pub fn pop(&mut self) -> Option<Frame>
        ensures { MatchOption result ((self.old.list.items ≡ []) × (self.new.list.items ≡ []))
            (λ f. self.old.list.items ≡ self.new.list.items ++ f ∷ []) }
    {
        self.list.pop()
    }

    /// Takes out the frames that pass on an abrupt end. What is left to do with it stays the same.
    #[tactic(auto, using(crate::proofs::Fronts::fine_front, crate::proofs::Fronts::free_front))]
    pub fn unwind(&mut self, how: Completion) -> Unwound
        requires abrupt { IsAbrupt how }
        ensures rest { (fs : List Forest) (w : ℕ) (cells : List PlainCell) (s : State)
            → rest fs w cells self.new.list.items (completion_of w cells how) s
            ≡ rest fs w cells self.old.list.items (completion_of w cells how) s }
        ensures unwound { IsUnwound self.new.list.items how result }
        ensures fine { (fs : List Forest) (w : ℕ) (cells : List PlainCell)
            → FineFrames fs w cells self.old.list.items → FineFrames fs w cells self.new.list.items }
        ensures free { frames_free self.new.list.items ≤ frames_free self.old.list.items }
    {
        let left = taking(&self.list, &how);
        self.list.truncate(left);
        if left == 0 {
            Unwound::Over(how)
        } else {
            Unwound::Resumed(how)
        }
    }
}

/// The same on a flow, of any end: one that is not abrupt leaves no frame. It is not moved.
#[tactic(auto, using(crate::proofs::Fronts::fine_front, crate::proofs::Fronts::free_front))]
pub(crate) fn leave(flow: &mut Flow, how: &Completion)
    ensures next { flow.new.next ≡ flow.old.next }
    ensures rest { (fs : List Forest) (w : ℕ) (cells : List PlainCell) (s : State)
        → rest fs w cells (all_frames flow.new) (completion_of w cells how.now) s
        ≡ rest fs w cells (all_frames flow.old) (completion_of w cells how.now) s }
    ensures fine { (fs : List Forest) (w : ℕ) (cells : List PlainCell) → FineFrames fs w cells (all_frames flow.old)
        → FineFrames fs w cells (all_frames flow.new) }
    ensures free { frames_free (all_frames flow.new) ≤ frames_free (all_frames flow.old) }
{
    if is_abrupt(how) {
        let left = taking(flow.frames(), how);
        flow.truncate(left);
    }
}

// Whether an end is neither normal nor a value nor a reference.
fn is_abrupt(how: &Completion) -> bool
    ensures { result ≡ true → IsAbrupt how.now }
{
    match how {
        Completion::Return(_) => true,
        Completion::Break => true,
        Completion::Continue => true,
        Completion::Throw(_) => true,
        _ => false,
    }
}

// How many frames are left once those above the last that takes an end are gone.
fn taking(frames: &Vec<Frame>, how: &Completion) -> usize
    requires abrupt { IsAbrupt how.now }
    ensures within { result ≤ length frames.now.items }
    ensures rest { (fs : List Forest) (w : ℕ) (cells : List PlainCell) (s : State)
        → rest fs w cells (take result frames.now.items) (completion_of w cells how.now) s
        ≡ rest fs w cells frames.now.items (completion_of w cells how.now) s }
    ensures last { 0 < result → IsSomeAnd (slice_get frames.now.items (result - 1)) (λ f. takes f how.now ≡ true) }
{
    let mut left = frames.len();
    'frames: while left > 0 {
        if takes_at(frames, left - 1, how) {
            return left;
        }
        left -= 1;
    }
    left
}

// Whether the frame at a place takes an abrupt end, or else passes it on.
fn takes_at(frames: &Vec<Frame>, at: usize, how: &Completion) -> bool
    requires within { at < length frames.now.items }
    requires abrupt { IsAbrupt how.now }
    ensures taken { result ≡ true → IsSomeAnd (slice_get frames.now.items at) (λ f. takes f how.now ≡ true) }
    ensures passed { result ≡ false → (fs : List Forest) (w : ℕ) (cells : List PlainCell) (s : State)
        → rest fs w cells (take at frames.now.items) (completion_of w cells how.now) s
        ≡ rest fs w cells (take (suc at) frames.now.items) (completion_of w cells how.now) s }
{
    is_taken(&frames[at], how)
}

// Whether a frame takes an abrupt end.
fn is_taken(frame: &Frame, how: &Completion) -> bool
    ensures { result ≡ takes frame.now how.now }
{
    match frame {
        Frame::Form(_) => false,
        Frame::Statement(frame) => in_statement(frame, how),
        Frame::Call(frame) => in_call(frame, how),
    }
}

// Whether a frame of a statement takes an abrupt end.
fn in_statement(frame: &StatementFrame, how: &Completion) -> bool
    ensures { result ≡ statement_takes frame.now how.now }
{
    match frame {
        StatementFrame::LoopNext(_, _) => is_of_loop(how),
        StatementFrame::ForInNext(_, _) => is_of_loop(how),
        StatementFrame::SwitchEnd => is_break(how),
        StatementFrame::Caught(_, _) => is_throw(how),
        StatementFrame::Finally(_, _) => true,
        _ => false,
    }
}

// Whether a frame of a call takes an abrupt end.
fn in_call(frame: &CallFrame, how: &Completion) -> bool
    ensures { result ≡ call_takes frame.now how.now }
{
    match frame {
        CallFrame::CallEnd => !is_throw(how),
        _ => false,
    }
}

// Whether an end is one of a pass of a loop.
fn is_of_loop(how: &Completion) -> bool
    ensures { result ≡ ends_pass how.now }
{
    matches!(how, Completion::Break | Completion::Continue)
}

fn is_break(how: &Completion) -> bool
    ensures { result ≡ is_break how.now }
{
    matches!(how, Completion::Break)
}

fn is_throw(how: &Completion) -> bool
    ensures { result ≡ is_throw how.now }
{
    matches!(how, Completion::Throw(_))
}
