//! Files by name.
ghost use Rattle.std.specs.Prelude.{◌≡◌, ℕ, ◌+◌, ◌≤◌, length, Option, IfSome, IsSome, IfOk, IsErrOf};
ghost use Rattle.host_io.specs.Files.{FileMap, IsStart, Rose, IsThere};

use std::alloc::Global;

/// Why a read gave nothing.
#[derive(Clone, Copy, PartialEq, Eq)]
pub enum ReadFail {
    /// The file is missing, or reading it failed.
    Failed,
    /// There was no memory for its bytes.
    Memory,
}

/// Files that are read by name.
pub trait Files {
    /// The bytes of the files by name, where they are told.
    ghost told: { Self → Option FileMap };

    /// No read of a file that is there fails.
    ghost calm: { Self → Type 0 };

    /// How many reads have failed. At its last value the count stays.
    ghost faults: { Self → ℕ };

    /// Reads the first `max + 1` bytes of a file, or all where it has fewer. So a result of over
    /// `max` bytes is that of a file of over `max`.
    fn read(&mut self, alloc: Global, name: &str, max: usize) -> Result<Vec<u8>, ReadFail>
        ensures told { told self.new ≡ told self.old }
        ensures bytes { IfOk result (λ v. IfSome (told self.old) (λ m. IsStart (m name.now) (max + 1) v.items)) }
        ensures bound { IfOk result (λ v. length v.items ≤ max + 1) }
        // A fault has its cause in the files.
        ensures count { faults self.old ≤ faults self.new }
        ensures cause { IsErrOf result ReadFail.Failed → Rose (faults self.old) (faults self.new) }
        // Calm files give each file that is there, and stay calm.
        ensures calm { calm self.old → IsThere (told self.old) name.now → calm self.new }
        ensures calm_count { calm self.old → IsThere (told self.old) name.now → faults self.new ≡ faults self.old }
        ensures calm_reads { calm self.old → IsThere (told self.old) name.now → ¬ IsErrOf result ReadFail.Failed };

    /// Calm files are told.
    ghost calm_tells: { (files : Self) → calm files → IsSome (told files) };
}
