// A hash with a seed.

use sha2::{Digest, Sha256};
use std::hash::{BuildHasher, DefaultHasher, Hasher};

/// Begins each hash with a seed that is a digest of the very keys that are hashed. Keys that
/// collide under a seed cannot be chosen, since other keys have another seed. No contract mentions
/// the seed.
#[derive(Clone, Copy)]
pub struct Seeded {
    begun: DefaultHasher,
}

/// Adds keys to a digest, 4 bytes each, up to the first that needs more. Returns whether there is
/// none.
fn take_narrow(digest: &mut Sha256, keys: &[i64]) -> bool {
    for key in keys {
        match i32::try_from(*key) {
            Ok(narrow) => digest.update(&narrow.to_le_bytes()[..]),
            Err(_) => return false,
        }
    }
    true
}

/// Adds keys to a digest, 8 bytes each.
fn take_wide(digest: &mut Sha256, keys: &[i64]) {
    for key in keys {
        digest.update(&key.to_le_bytes()[..]);
    }
}

impl Seeded {
    /// Makes a hash whose seed is the digest of these keys. Its time is that of the digested bytes,
    /// and keys of few digits are digested in half as many.
    pub(crate) fn of_keys(keys: &[i64]) -> Seeded {
        let mut digest = Sha256::new();
        if !take_narrow(&mut digest, keys) {
            take_wide(&mut digest, keys);
        }
        let seed = digest.finalize();
        let mut begun = DefaultHasher::new();
        begun.write(&seed[..]);
        Seeded { begun }
    }
}

impl BuildHasher for Seeded {
    type Hasher = DefaultHasher;

    ghost build_hasher = { λ seeded. seeded.begun };

    fn build_hasher(&self) -> DefaultHasher {
        self.begun
    }
}
