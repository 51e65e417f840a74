//! What is kept for one widget.
ghost use Rattle.std.specs.Prelude.{◌≡◌, ℕ, ◌+◌, ◌<◌, ◌≤◌, [], ◌∷◌, ◌++◌, Some, None, length, option_copied, slice_get, OnOk, OnErr, IfOk, IfErr};
ghost use Rattle.event_loop.specs.Kept.{nothing, with_handler, without_handlers, with_mark, protected};
ghost use Rattle.event_loop.specs.declared.around.LoopFault.TheVariants as fault;

use crate::kept;
use crate::kept::Table;
use crate::timers::{Timer, by_due, delay, soonest, take_due};
use code_units::{Memory, Text};
use indexmap::IndexMap;
use keyed_names::Keys;
use page_tree::NodeId;
use std::alloc::Global;

/// Why a timer was not started.
#[derive(Clone, Copy, Drop)]
pub enum LoopFault {
    /// So many wait.
    Full { waiting: u32 },
    /// There was no memory.
    Memory,
}

/// So many timers may wait.
pub const MOST: usize = 64;

/// The handlers, marks, protected nodes, timers, clock and focus of one widget.
#[derive(Drop)]
pub struct Loop {
    table: Table,
    waiting: Vec<Timer>,
    clock: u64,
    focus: Option<u32>,
    ghost few: { length waiting.items ≤ 64 },
}

impl Loop {
    ghost use Rattle.event_loop.specs.Around.{kept, timers, clock, focus, left_waiting, clock_after, SameKept, ChangedAt, SameTimes, SameButTimers, RefusesTimer};
    ghost use Rattle.event_loop.specs.Timers.{next_due, by_due, delay};

    /// Nothing is kept, and the clock is at 0. The table hashes by these keys.
    pub fn new(alloc: Global, keys: Keys) -> Result<Loop, Memory>
        ensures kept { IfOk result (λ around. (n : ℕ) → kept around n ≡ nothing) }
        ensures timers { IfOk result (λ around. timers around ≡ []) }
        ensures clock { IfOk result (λ around. clock around ≡ 0) }
        ensures focus { IfOk result (λ around. focus around ≡ None) }
    {
        Ok(Loop {
            table: IndexMap::with_hasher(alloc, keys.for_numbers()),
            waiting: Vec::new(alloc),
            clock: 0,
            focus: None,
        })
    }

    /// The handlers of a node in order of listening, each with its type and its function. It takes no
    /// memory.
    pub fn handlers(&self, node: NodeId) -> &[(Text, u32)]
        ensures { result.now ≡ (kept self.now node).handlers }
    {
        kept::handlers(&self.table, node)
    }

    /// Gives a node one more handler, the last.
    pub fn listen(
        &mut self,
        alloc: Global,
        node: NodeId,
        kind: Text,
        func: u32,
    ) -> Result<(), Memory>
        ensures done { OnOk result (ChangedAt self.old self.new node (with_handler kind func)) }
        ensures same { OnErr result (SameKept self.old self.new) }
        ensures others { SameTimes self.old self.new }
    {
        kept::listen(&mut self.table, alloc, node, kind, func)
    }

    /// Takes the handlers of a type from a node, or all. It takes no memory.
    pub fn hush(&mut self, node: NodeId, kind: Option<&Text>)
        ensures done { ChangedAt self.old self.new node (without_handlers (option_copied kind.entry)) }
        ensures others { SameTimes self.old self.new }
    {
        kept::hush(&mut self.table, node, kind);
    }

    /// The text that was set for a node, none exactly where none was. It takes no memory.
    pub fn mark(&self, node: NodeId) -> Option<&Text>
        ensures { option_copied result ≡ (kept self.now node).mark }
    {
        kept::mark(&self.table, node)
    }

    /// Sets the text of a node.
    pub fn set_mark(&mut self, alloc: Global, node: NodeId, text: Text) -> Result<(), Memory>
        ensures done { OnOk result (ChangedAt self.old self.new node (with_mark text)) }
        ensures same { OnErr result (SameKept self.old self.new) }
        ensures others { SameTimes self.old self.new }
    {
        kept::set_mark(&mut self.table, alloc, node, text)
    }

    /// Whether a node is protected. It takes no memory.
    pub fn is_protected(&self, node: NodeId) -> bool
        ensures { result ≡ (kept self.now node).is_protected }
    {
        kept::is_protected(&self.table, node)
    }

    /// Protects a node for good.
    pub fn protect(&mut self, alloc: Global, node: NodeId) -> Result<(), Memory>
        ensures done { OnOk result (ChangedAt self.old self.new node protected) }
        ensures same { OnErr result (SameKept self.old self.new) }
        ensures others { SameTimes self.old self.new }
    {
        kept::protect(&mut self.table, alloc, node)
    }

    /// The node that has the focus, none exactly where none is recorded. It takes no memory.
    pub fn focus(&self) -> Option<NodeId>
        ensures { result ≡ focus self.now }
    {
        self.focus
    }

    /// Records the node that has the focus, or that none has. It takes no memory.
    pub fn set_focus(&mut self, node: Option<NodeId>)
        ensures done { focus self.new ≡ node }
        ensures kept { SameKept self.old self.new }
        ensures timers { timers self.new ≡ timers self.old }
        ensures clock { clock self.new ≡ clock self.old }
    {
        self.focus = node;
    }

    /// The clock, in milliseconds. It takes no memory.
    pub fn clock(&self) -> u64
        ensures { result ≡ clock self.now }
    {
        self.clock
    }

    /// How many timers wait. It takes no memory.
    pub fn waiting(&self) -> u32
        ensures exact { result ≡ length (timers self.now) }
        ensures few { result ≤ 64 }
    {
        self.waiting.len() as u32
    }

    /// Starts a timer, which is due after the larger of 10 and `ms` milliseconds. `Full` comes exactly
    /// where 64 wait.
    pub fn later(&mut self, func: u32, ms: i64) -> Result<(), LoopFault>
        requires { clock self.old < 4611686018427387904 }
        ensures done { OnOk result
            (timers self.new ≡ timers self.old ++ record { func = func; at = clock self.old + delay ms } ∷ []) }
        ensures room { OnOk result (length (timers self.old) < 64) }
        ensures full { IfErr result (RefusesTimer (timers self.old)) }
        ensures same { OnErr result (timers self.new ≡ timers self.old) }
        ensures others { SameButTimers self.old self.new }
    {
        if self.waiting.len() >= MOST {
            return Err(LoopFault::Full { waiting: 64 });
        }
        let at = self.clock + delay(ms);
        match self.waiting.push(Timer { func, at }) {
            Ok(()) => Ok(()),
            Err(_) => Err(LoopFault::Memory),
        }
    }

    /// Takes out the timer with the least due time up to a limit, the earlier started at a tie. The
    /// clock becomes its due time, or the limit where none is due. It takes no memory.
    pub fn due(&mut self, until: u64) -> Option<Timer>
        ensures due { result ≡ next_due until (timers self.old) }
        ensures left { timers self.new ≡ left_waiting result (timers self.old) }
        ensures clock { clock self.new ≡ clock_after result until }
        ensures kept { SameKept self.old self.new }
        ensures focus { focus self.new ≡ focus self.old }
    {
        let found = soonest(&self.waiting, until);
        match found {
            Some(timer) => {
                take_due(&mut self.waiting, timer.at);
                self.clock = timer.at;
            }
            None => self.clock = until,
        }
        found
    }

    /// The waiting timer at a place by due time, the earlier started first at a tie, from 0. It takes
    /// no memory.
    pub fn timer(&self, at: u32) -> Option<Timer>
        ensures { result ≡ slice_get (by_due (timers self.now)) at }
    {
        by_due(&self.waiting).get(at as usize).copied()
    }
}
