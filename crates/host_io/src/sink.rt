//! Where a report goes.
ghost use Rattle.std.specs.Prelude.{◌≡◌, ℕ, ◌+◌, ◌≤◌, ◌<◌, List, length, take, Option, IfOk, OnErr, IsOkAnd};
ghost use Rattle.host_io.specs.Files.{Rose};
ghost use Rattle.host_io.specs.Sink.{with_bytes};

/// Why a write appended nothing.
#[derive(Clone, Copy, PartialEq, Eq)]
pub enum WriteFail {
    /// Writing failed.
    Failed,
}

/// A place to which bytes are appended.
pub trait Sink {
    /// The bytes that it holds, where they are told.
    ghost held: { Self → Option (List ℕ) };

    /// How many bytes it takes before a write may fail.
    ghost takes: { Self → ℕ };

    /// How many writes have failed. At its last value the count stays.
    ghost faults: { Self → ℕ };

    /// Appends the first bytes of a piece, and says how many. It takes no memory.
    fn write(&mut self, bytes: &[u8]) -> Result<usize, WriteFail>
        ensures bound { IfOk result (λ n. n ≤ length bytes.now) }
        ensures appended { IfOk result (λ n. held self.new ≡ with_bytes (held self.old) (take n bytes.now)) }
        ensures kept { OnErr result (held self.new ≡ held self.old) }
        // A fault has its cause in the sink; so has a call that appends nothing of a piece.
        ensures count { faults self.old ≤ faults self.new }
        ensures nothing { IfOk result (λ n. n ≡ 0 → 0 < length bytes.now → Rose (faults self.old) (faults self.new)) }
        ensures cause { OnErr result (Rose (faults self.old) (faults self.new)) }
        // A piece that fits is taken, in part or whole.
        ensures room { 0 < length bytes.now → length bytes.now ≤ takes self.old
            → IsOkAnd result (λ n. (0 < n) × (takes self.new + n ≡ takes self.old)) }
        ensures room_count { 0 < length bytes.now → length bytes.now ≤ takes self.old
            → faults self.new ≡ faults self.old };
}
