//! Lines, one after the other.
ghost use Rattle.std.specs.Prelude.{◌≡◌, ℕ, ◌+◌, ◌≤◌, List, Some, length, take, drop, Option, option_map, IfSome, IsSome, IfOk, OnOk, IsErrOf};
ghost use Rattle.std.specs.List.{slice_get};
ghost use Rattle.host_io.specs.Files.{Rose};

use crate::files::ReadFail;
use std::alloc::Global;

/// Lines that are read one after the other.
pub trait Lines {
    /// The lines that are left, without their line feeds, where they are told.
    ghost left: { Self → Option (List (List ℕ)) };

    /// No read fails.
    ghost calm: { Self → Type 0 };

    /// How many reads have failed. At its last value the count stays.
    ghost faults: { Self → ℕ };

    /// Reads the next line, without its line feed, or none at the end. Of a line of over `max` bytes the
    /// first `max + 1` are given, and the rest is passed over. Where a read fails, or memory is short, a
    /// part of the line may be lost.
    fn next_line(&mut self, alloc: Global, max: usize) -> Result<Option<Vec<u8>>, ReadFail>
        ensures line { IfOk result (λ next. IfSome (left self.old) (λ lines.
            option_map (λ line. line.items) next ≡ option_map (take (max + 1)) (slice_get lines 0))) }
        ensures rest { OnOk result (IfSome (left self.old) (λ lines. left self.new ≡ Some (drop 1 lines))) }
        ensures bound { IfOk result (λ next. IfSome next (λ line. length line.items ≤ max + 1)) }
        // A fault has its cause in the lines.
        ensures count { faults self.old ≤ faults self.new }
        ensures cause { IsErrOf result ReadFail.Failed → Rose (faults self.old) (faults self.new) }
        // Calm lines give each, and stay calm.
        ensures calm { calm self.old → calm self.new }
        ensures calm_count { calm self.old → faults self.new ≡ faults self.old }
        ensures calm_reads { calm self.old → ¬ IsErrOf result ReadFail.Failed };

    /// Calm lines are told.
    ghost calm_tells: { (lines : Self) → calm lines → IsSome (left lines) };
}
