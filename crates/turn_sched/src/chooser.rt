//! Choosers, and the asks that they keep.
ghost use Rattle.std.specs.Prelude.{◌≡◌, ◌<◌, ◌+◌, ℕ, List, All, length};
ghost use Rattle.std.specs.List.Sorted.{IsStrictlyIncreasing};
ghost use Rattle.turn_sched.specs.declared.chooser.Ask.{Ask};
ghost use Rattle.turn_sched.specs.Asks.{KeepsAsk};

use code_units::WIDGETS;

/// One call of a chooser: which of the widgets' numbers were ready, and which one was taken.
#[derive(Clone, Copy, PartialEq, Eq)]
pub struct Ask {
    pub ready: [bool; WIDGETS],
    pub taken: u32,
}

/// Chooses who is next.
pub trait Chooser {
    /// The calls that it keeps, oldest first.
    ghost asks: { Self → List Ask };

    /// How many more calls it keeps.
    ghost room: { Self → ℕ };

    /// The index of the one that is next, in a rising list of widgets' numbers that is not empty.
    /// It takes no memory.
    fn next(&mut self, ready: &[u32]) -> usize
        requires rising { IsStrictlyIncreasing ready.now }
        requires below { All (λ w. w < WIDGETS) ready.now }
        requires some { 0 < length ready.now }
        ensures within { result < length ready.now }
        ensures kept { 0 < room self.old → KeepsAsk ready.now result (asks self.old) (asks self.new) }
        ensures room { 0 < room self.old → room self.new + 1 ≡ room self.old }
        // Without room nothing is kept.
        ensures full { room self.old ≡ 0 → asks self.new ≡ asks self.old }
        ensures stays_full { room self.old ≡ 0 → room self.new ≡ 0 };
}
