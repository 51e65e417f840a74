//! Keys of tables whose keys are numbers.
ghost use Rattle.std.specs.Prelude.{◌≡◌};
ghost use Rattle.keyed_names.specs.Numbers as spec;

use crate::keys::Keys;
use std::hash::{BuildHasher, DefaultHasher, Hasher};

/// The keys of tables whose keys are numbers below 2^32, for which a hash of texts is dear. A
/// number is multiplied by a secret factor, and a secret summand is added; the high half of the
/// 64 bits is the hash, so that each bit of it that a table looks at is a good one.
#[derive(Clone, Copy, Drop)]
pub struct NumberKeys {
    first: NumberHasher,
}

/// A hasher of numbers, which `NumberKeys` makes.
#[derive(Clone, Copy, Drop)]
pub struct NumberHasher {
    factor: u64,
    summand: u64,
    state: u64,
}

impl Keys {
    /// The keys of tables whose keys are numbers.
    pub fn for_numbers(&self) -> NumberKeys
        ensures { result ≡ spec.number_keys self.now }
    {
        NumberKeys {
            first: NumberHasher {
                factor: secret(self, 1),
                summand: secret(self, 2),
                state: 0,
            },
        }
    }
}

// A number that nobody who lacks the keys can know.
fn secret(keys: &Keys, which: u8) -> u64
    ensures { result ≡ spec.secret keys.now which }
{
    let mut hasher = keys.build_hasher();
    hasher.write_u8(which);
    hasher.finish()
}

impl BuildHasher for NumberKeys {
    type Hasher = NumberHasher;

    ghost build_hasher = { λ keys. keys.first };

    fn build_hasher(&self) -> NumberHasher {
        self.first
    }
}

impl NumberHasher {
    fn feed(&mut self, n: u64)
        ensures { self.new ≡ spec.fed_with self.old n }
    {
        self.state = (self.state ^ n)
            .wrapping_mul(self.factor)
            .wrapping_add(self.summand);
    }
}

impl Hasher for NumberHasher {
    ghost write = { spec.write };

    ghost finish = { spec.finish };

    fn write(&mut self, bytes: &[u8]) {
        self.feed(number(bytes));
    }

    fn finish(&self) -> u64 {
        self.state >> 32
    }
}

// Bytes as a number, the first highest. Of more than eight the last eight count.
fn number(bytes: &[u8]) -> u64
    ensures { result ≡ spec.number bytes.now }
{
    let mut n: u64 = 0;
    for byte in bytes {
        n = n.wrapping_mul(256).wrapping_add(u64::from(*byte));
    }
    n
}
