//! Fuel.
ghost use Rattle.std.specs.Prelude.{◌≡◌, ◌+◌, ◌-◌, ◌<◌, ◌≤◌, ◌^◌, IfErr, OnErr, OnOk};

use std::marker::Model;

/// The fuel that is left of a grant, and all that was spent. What a meter hands out it counts, so
/// the sum of the two stays; it is at most 2^64-1.
#[derive(Clone, Copy, PartialEq, Eq, Drop)]
pub struct Meter {
    left: u32,
    spent: u64,
}

impl Model for Meter {
    ghost use Rattle.std.specs.Prelude.{◌+◌, ◌<◌, ◌^◌};
    ghost use Rattle.js_values.specs.Fuel.{Fuel};

    ghost Value = { Fuel };

    ghost view = { λ m. record { left = m.left; spent = m.spent } };

    ghost inverse = { λ f. record { left = f.left; spent = f.spent } };

    ghost invariant = { λ m. m.left + m.spent < 2 ^ 64 };
}

/// Fuel was asked for that is not there.
#[derive(Clone, Copy, PartialEq, Eq, Drop)]
pub struct OutOfFuel {
    pub left: u32,
    pub asked: u32,
}

impl Meter {
    /// A meter with so much left of a grant, after so much was spent.
    pub fn new(left: u32, spent: u64) -> Meter
        requires room { left + spent < 2 ^ 64 }
        ensures { result ≡ record { left = left; spent = spent } }
    {
        Meter { left, spent }
    }

    /// The fuel that is left.
    pub fn left(&self) -> u32
        ensures value { result ≡ self.now.left }
        ensures room { self.now.left + self.now.spent < 2 ^ 64 }
    {
        self.left
    }

    /// All fuel that was spent.
    pub fn spent(&self) -> u64
        ensures value { result ≡ self.now.spent }
        ensures room { self.now.left + self.now.spent < 2 ^ 64 }
    {
        self.spent
    }

    /// Takes fuel. `OutOfFuel` comes exactly where more is asked than is left; then nothing is taken.
    pub fn take(&mut self, n: u32) -> Result<(), OutOfFuel>
        ensures ok { OnOk result ((n ≤ self.old.left) × (self.new.left + n ≡ self.old.left)
            × (self.new.spent ≡ self.old.spent + n)) }
        ensures err { IfErr result (λ e. (e.left ≡ self.old.left) × (e.asked ≡ n) × (self.old.left < n)) }
        ensures same { OnErr result (self.new ≡ self.old) }
    {
        if n > self.left {
            return Err(OutOfFuel {
                left: self.left,
                asked: n,
            });
        }
        self.left -= n;
        self.spent += u64::from(n);
        Ok(())
    }
}
