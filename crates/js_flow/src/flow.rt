//! What forms leave on the frames of a task.
ghost use Rattle.std.specs.Prelude.{◌≡◌, ◌+◌, ◌≤◌, [], ◌∷◌, ◌++◌, IsTrue, MatchOption, OnOk, take};
ghost use Rattle.std.specs.Vec.{vec_capacity, vec_len};
ghost use Rattle.js_flow.specs.declared.frame.Frame.{Frame};
ghost use Rattle.js_flow.specs.Left.{Leaves, all_frames, is_free_next};

use crate::frame::Frame;
use crate::job::{Block, Completion, Job, NativeCall, Next, Place};
use code_units::Memory;
use js_image::StopCause;
use std::marker::Model;
use std::mem;

/// The frames of a task while its forms run. Each form leaves what is next, and the frames that wait for
/// it above those that were there; the last frame is given to first.
#[derive(Drop)]
pub struct Flow {
    frames: Vec<Frame>,
    // how many were there
    below: usize,
    next: Next,
}

impl Model for Flow {
    ghost use Rattle.std.specs.Prelude.{◌≤◌, drop, length, take};
    ghost use Rattle.js_flow.specs.Left.{Left};

    ghost Value = { Left };

    ghost view = { λ f. record { below = take f.below f.frames.items; above = drop f.below f.frames.items; next = f.next } };

    ghost invariant = { λ f. f.below ≤ length f.frames.items };
}

// Room for so many frames more; whether there is.
#[inline(always)]
fn make_room(frames: &mut Vec<Frame>, count: usize) -> bool
    ensures items { frames.new.items ≡ frames.old.items }
    ensures room { IsTrue result → vec_len frames.new + count ≤ vec_capacity frames.new }
{
    match frames.reserve(count) {
        Ok(()) => true,
        Err(_) => false,
    }
}

// For want of memory frames and what is next are let go. This stands apart, so that what runs often ends no frame.
#[cold]
#[inline(never)]
fn lost(_frame: Frame, _next: Next) -> Memory {
    Memory
}

#[cold]
#[inline(never)]
fn lost_both(_lower: Frame, _upper: Frame, _next: Next) -> Memory {
    Memory
}

// What is next. The old one was taken out before, so there is nothing to end.
#[inline(always)]
fn set(place: &mut Next, next: Next)
    ensures { place.new ≡ next }
{
    mem::forget(mem::replace(place, next));
}

impl Flow {
    /// Frames on which no form left anything yet.
    pub fn new(frames: Vec<Frame>) -> Flow
        ensures { result ≡ record { below = frames.items; above = []; next = Next.Nothing } }
    {
        let below = frames.len();
        Flow {
            frames,
            below,
            next: Next::Nothing,
        }
    }

    /// The form ended.
    #[inline(always)]
    pub fn give(&mut self, how: Completion)
        ensures { Leaves self.old self.new [] (Next.Give how) }
    {
        self.below = self.frames.len();
        set(&mut self.next, Next::Give(how));
    }

    /// A job is next.
    #[inline(always)]
    pub fn go(&mut self, job: Job)
        ensures { Leaves self.old self.new [] (Next.Go job) }
    {
        self.below = self.frames.len();
        set(&mut self.next, Next::Go(job));
    }

    /// The statements of a block are next.
    #[inline(always)]
    pub fn run(&mut self, block: Block, place: Place)
        ensures { Leaves self.old self.new [] (Next.Run block place) }
    {
        self.below = self.frames.len();
        set(&mut self.next, Next::Run(block, place));
    }

    /// A native that has its unit is next.
    #[inline(always)]
    pub fn call_native(&mut self, call: Box<NativeCall>)
        ensures { Leaves self.old self.new [] (Next.Native call) }
    {
        self.below = self.frames.len();
        set(&mut self.next, Next::Native(call));
    }

    /// The call stops.
    #[inline(always)]
    pub fn stop(&mut self, cause: StopCause)
        ensures { Leaves self.old self.new [] (Next.Stop cause) }
    {
        self.below = self.frames.len();
        set(&mut self.next, Next::Stop(cause));
    }

    /// A job, and the frame that waits for it.
    #[inline(always)]
    pub fn push(&mut self, frame: Frame, job: Job) -> Result<(), Memory>
        ensures { OnOk result (Leaves self.old self.new (frame ∷ []) (Next.Go job)) }
    {
        self.below = self.frames.len();
        let next = Next::Go(job);
        if !make_room(&mut self.frames, 1) {
            return Err(lost(frame, next));
        }
        self.frames.push_reserved(frame);
        set(&mut self.next, next);
        Ok(())
    }

    /// A job that has its unit, and the frame that waits for it.
    #[inline(always)]
    pub fn push_begun(&mut self, frame: Frame, job: Job) -> Result<(), Memory>
        ensures { OnOk result (Leaves self.old self.new (frame ∷ []) (Next.Begin job)) }
    {
        self.below = self.frames.len();
        let next = Next::Begin(job);
        if !make_room(&mut self.frames, 1) {
            return Err(lost(frame, next));
        }
        self.frames.push_reserved(frame);
        set(&mut self.next, next);
        Ok(())
    }

    /// The statements of a block, and the frame that waits for them.
    #[inline(always)]
    pub fn push_run(&mut self, frame: Frame, block: Block, place: Place) -> Result<(), Memory>
        ensures { OnOk result (Leaves self.old self.new (frame ∷ []) (Next.Run block place)) }
    {
        self.below = self.frames.len();
        let next = Next::Run(block, place);
        if !make_room(&mut self.frames, 1) {
            return Err(lost(frame, next));
        }
        self.frames.push_reserved(frame);
        set(&mut self.next, next);
        Ok(())
    }

    /// A charge, and the frame that waits for it.
    #[inline(always)]
    pub fn push_pay(&mut self, frame: Frame, units: usize) -> Result<(), Memory>
        ensures { OnOk result (Leaves self.old self.new (frame ∷ []) (Next.Pay units)) }
    {
        self.below = self.frames.len();
        let next = Next::Pay(units);
        if !make_room(&mut self.frames, 1) {
            return Err(lost(frame, next));
        }
        self.frames.push_reserved(frame);
        set(&mut self.next, next);
        Ok(())
    }

    /// A job, and two frames that wait for it, of which the first lies below.
    #[inline(always)]
    pub fn push_two(&mut self, lower: Frame, upper: Frame, job: Job) -> Result<(), Memory>
        ensures { OnOk result (Leaves self.old self.new (lower ∷ upper ∷ []) (Next.Go job)) }
    {
        self.below = self.frames.len();
        let next = Next::Go(job);
        if !make_room(&mut self.frames, 2) {
            return Err(lost_both(lower, upper, next));
        }
        self.frames.push_reserved(lower);
        self.frames.push_reserved(upper);
        set(&mut self.next, next);
        Ok(())
    }

    /// An end that is given to the second frame; the first waits for what that gives.
    #[inline(always)]
    pub fn push_given(&mut self, lower: Frame, upper: Frame, how: Completion) -> Result<(), Memory>
        ensures { OnOk result (Leaves self.old self.new (lower ∷ upper ∷ []) (Next.Give how)) }
    {
        self.below = self.frames.len();
        let next = Next::Give(how);
        if !make_room(&mut self.frames, 2) {
            return Err(lost_both(lower, upper, next));
        }
        self.frames.push_reserved(lower);
        self.frames.push_reserved(upper);
        set(&mut self.next, next);
        Ok(())
    }

    /// The statements of a block, and two frames that wait for them, of which the first lies below.
    #[inline(always)]
    pub fn push_both(
        &mut self,
        lower: Frame,
        upper: Frame,
        block: Block,
        place: Place,
    ) -> Result<(), Memory>
        ensures { OnOk result (Leaves self.old self.new (lower ∷ upper ∷ []) (Next.Run block place)) }
    {
        self.below = self.frames.len();
        let next = Next::Run(block, place);
        if !make_room(&mut self.frames, 2) {
            return Err(lost_both(lower, upper, next));
        }
        self.frames.push_reserved(lower);
        self.frames.push_reserved(upper);
        set(&mut self.next, next);
        Ok(())
    }

    /// No frame takes the end, and none is left.
    #[inline(always)]
    pub fn end(&mut self, how: Completion)
        ensures { Leaves self.old self.new [] (Next.Done how) }
    {
        self.below = self.frames.len();
        set(&mut self.next, Next::Done(how));
    }

    /// This is next, whatever was.
    #[inline(always)]
    pub fn leave(&mut self, next: Next)
        ensures { Leaves self.old self.new [] next }
    {
        self.below = self.frames.len();
        set(&mut self.next, next);
    }

    /// What is next.
    #[inline(always)]
    pub fn next(&self) -> &Next
        ensures { result.now ≡ self.now.next }
    {
        &self.next
    }

    /// Whether what is next costs nothing.
    #[inline(always)]
    pub fn is_free(&self) -> bool
        ensures { result ≡ is_free_next self.now.next }
    {
        matches!(self.next, Next::Begin(_) | Next::Run(_, _) | Next::Give(_))
    }

    /// What is next is taken out.
    #[inline(always)]
    pub fn take_next(&mut self) -> Next
        ensures taken { result ≡ self.old.next }
        ensures flow { self.new ≡ record self.old { next = Next.Nothing } }
    {
        mem::replace(&mut self.next, Next::Nothing)
    }

    /// All frames.
    #[inline(always)]
    pub fn frames(&self) -> &Vec<Frame>
        ensures { result.now.items ≡ all_frames self.now }
    {
        &self.frames
    }

    /// So many of the first frames are left.
    #[inline(always)]
    pub fn truncate(&mut self, left: usize)
        ensures next { self.new.next ≡ self.old.next }
        ensures frames { all_frames self.new ≡ take left (all_frames self.old) }
    {
        self.below = 0;
        self.frames.truncate(left);
    }

    /// The last frame is taken out; none where there is none.
    #[inline(always)]
    pub fn pop(&mut self) -> Option<Frame>
        ensures next { self.new.next ≡ self.old.next }
        ensures popped { MatchOption result ((all_frames self.old ≡ []) × (all_frames self.new ≡ []))
            (λ f. all_frames self.old ≡ all_frames self.new ++ f ∷ []) }
    {
        self.below = 0;
        self.frames.pop()
    }

    /// All frames, and what is next.
    #[inline(always)]
    pub fn into_parts(self) -> (Vec<Frame>, Next)
        ensures frames { result.0.items ≡ all_frames self }
        ensures next { result.1 ≡ self.next }
    {
        (self.frames, self.next)
    }
}
