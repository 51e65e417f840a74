//! Keys of tables, from everything that was read.
ghost use Rattle.std.specs.Prelude.{◌≡◌, ℕ, List, map};
ghost use Rattle.std.specs.List.{AllByRecursion};
ghost use Rattle.std.specs.Hash as fed;
ghost use Rattle.keyed_names.specs.Keying.{digest_of, message, AreKeysOf, IsShort};

use sha2::{Digest, Sha256};
use std::hash::{BuildHasher, DefaultHasher, Hasher};

/// The keys of tables of texts. A table with them hashes by SipHash-1-3 that was fed with the
/// keys first, so whoever does not know them cannot choose texts that collide.
#[derive(Clone, Copy, Drop)]
pub struct Keys {
    fed: DefaultHasher,
}

impl BuildHasher for Keys {
    type Hasher = DefaultHasher;

    ghost build_hasher = { λ keys. keys.fed };

    fn build_hasher(&self) -> DefaultHasher {
        self.fed
    }
}

impl Keys {
    /// The keys of the files that were read: their SHA-256, each file with its length before it.
    /// A widget that knows some of the files cannot know the keys.
    pub fn of_files(files: &[&[u8]]) -> Keys
        ensures { AreKeysOf (map (λ file. file.now) files.now) result }
    {
        let mut fed = DefaultHasher::new();
        fed.write(&digest_files(files));
        Keys { fed }
    }
}

/// No two lists of files are one message to the digest.
pub fn one_message()
    ensures { (xs ys : List (List ℕ)) → AllByRecursion IsShort xs → AllByRecursion IsShort ys →
        message xs ≡ message ys → xs ≡ ys }
{}

// The digest of the files, each with its length before it.
fn digest_files(files: &[&[u8]]) -> [u8; 32]
    ensures { result ≡ digest_of (map (λ file. file.now) files.now) }
{
    let mut hasher = Sha256::new();
    'each: for file in files {
        hasher.update(&length_bytes(file.len()));
        hasher.update(*file);
    }
    hasher.finalize()
}

// A length as eight bytes, the lowest first.
fn length_bytes(length: usize) -> [u8; 8]
    ensures { result ≡ fed.le_bytes 8 length }
{
    length.to_le_bytes()
}
