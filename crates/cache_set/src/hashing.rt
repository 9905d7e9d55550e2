//! The hash of a way's number, which is that number: a set has a few ways, and a better hash would only cost time.

ghost use Rattle.std.specs.Prelude.{◌≡◌, fold};

use std::hash::{BuildHasher, Hasher};

/// Hashes the number of a way to itself. A set has few ways, so that more would only cost time.
#[derive(Clone, Copy)]
pub struct NumberHasher(u64);

impl NumberHasher {
    /// The hasher before it was given a number.
    pub fn new() -> Self {
        NumberHasher(0)
    }
}

impl Hasher for NumberHasher {
    ghost write = { λ h bytes. record { 0 = fold (λ last byte. byte) h.0 bytes } };

    ghost finish = { λ h. h.0 };

    fn finish(&self) -> u64 {
        self.0
    }

    fn write(&mut self, bytes: &[u8]) {
        for byte in bytes {
            self.0 = u64::from(*byte);
        }
    }
}

impl BuildHasher for NumberHasher {
    type Hasher = NumberHasher;

    ghost build_hasher = { λ h. h };

    fn build_hasher(&self) -> NumberHasher {
        *self
    }
}
