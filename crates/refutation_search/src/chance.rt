//! Numbers of chance, the same ones each time.

/// Where the numbers of chance go on.
#[derive(Clone, Copy)]
pub struct Chance {
    seed: u64,
}

/// Numbers of chance from the first one on.
pub const FIRST_CHANCE: Chance = Chance { seed: 1 };

impl Chance {
    /// The next number of chance below this one, or 0.
    pub fn below(&mut self, most: usize) -> usize {
        let mut seed = self.seed;
        seed ^= seed.wrapping_mul(8192);
        seed ^= seed / 128;
        seed ^= seed.wrapping_mul(131_072);
        self.seed = seed;
        (seed / 2048 % (most.max(1) as u64)) as usize
    }
}
