//! Which runs a sweep makes. A plan is made only within the limits, which bound the time that a sweep takes.

ghost use Rattle.std.specs.Prelude.{◌≡◌, ◌+◌, ◌↔◌, IsSome, IfSome};
ghost use Rattle.scheduler.specs.Limits.{most_choices};
ghost use Rattle.scheduler.specs.Plan.{most_seeds, IsPlanWithinLimits};

use crate::choices::MAX_CHOICES;
use std::marker::Model;

/// Maximum number of seeds of a sweep.
pub const MAX_SEEDS: u32 = 1000;

/// Maximum number of choices that a sweep draws from each seed: as many as a text may spell.
pub const MAX_LENGTH: u32 = MAX_CHOICES as u32;

/// The limits are the numbers that the definitions have: a law, with nothing to run.
pub fn limits_are_as_defined()
    ensures seeds { MAX_SEEDS ≡ most_seeds }
    ensures length { MAX_LENGTH ≡ most_choices }
{}

/// Which runs a sweep makes: one under the choices of each seed, from a first one on.
#[derive(Clone, Copy)]
pub struct SweepPlan {
    from: u32,
    seeds: u32,
    length: u32,
}

impl Model for SweepPlan {
    ghost use Rattle.scheduler.specs.Plan.{Plan, IsPlanWithinLimits};

    ghost Value = { Plan };

    ghost view = { λ p. record { from = p.from; seeds = p.seeds; length = p.length } };

    ghost inverse = { λ v. record { from = v.from; seeds = v.seeds; length = v.length } };

    ghost invariant = { λ p. IsPlanWithinLimits (record { from = p.from; seeds = p.seeds; length = p.length }) };
}

impl SweepPlan {
    /// The plan of so many runs, each under as many choices of a seed as `length` says, for the seeds
    /// `from`, `from + 1`, and so on. `None` exactly where there are no seeds or more than
    /// [`MAX_SEEDS`], or more than [`MAX_LENGTH`] choices.
    pub fn new(from: u32, seeds: u32, length: u32) -> Option<SweepPlan>
        ensures value { IfSome result (λ p. p ≡ record { from = from; seeds = seeds; length = length }) }
        ensures valid { IsSome result ↔ IsPlanWithinLimits (record { from = from; seeds = seeds; length = length }) }
    {
        if (1..=MAX_SEEDS).contains(&seeds) && length <= MAX_LENGTH {
            Some(SweepPlan {
                from,
                seeds,
                length,
            })
        } else {
            None
        }
    }

    /// The first seed.
    pub fn from(self) -> u32
        ensures { result ≡ self.from }
    {
        self.from
    }

    /// How many seeds there are: one for each run.
    pub fn seeds(self) -> u32
        ensures value { result ≡ self.seeds }
        ensures within { IsPlanWithinLimits self }
    {
        self.seeds
    }

    /// The seed of the run of this number; the first run has number 0.
    pub fn seed(self, number: u32) -> u64
        ensures { result ≡ self.from + number }
    {
        u64::from(self.from) + u64::from(number)
    }

    /// How many choices each seed makes.
    pub fn length(self) -> u32
        ensures { result ≡ self.length }
    {
        self.length
    }
}
