//! Why choices of a run stalled: how many, and for each reason the first, which is enough to see what to change. No list of
//! them is kept.

ghost use Rattle.std.specs.Prelude.{◌<◌};

use tso_terms::{Choice, Stall};

/// How many choices of a run stalled, and for each reason the first that did for it.
#[derive(Clone, Copy)]
pub struct Stalls {
    count: usize,
    /// Each reason has its [place](place_of).
    firsts: [Option<Choice>; 6],
}

/// A reason to stall, and the first choice that did for it.
#[derive(Clone, Copy)]
pub struct FirstStall {
    pub reason: Stall,
    pub choice: Option<Choice>,
}

impl Stalls {
    /// No choice stalled.
    pub fn none() -> Stalls {
        Stalls {
            count: 0,
            firsts: [None; 6],
        }
    }

    /// Notes a choice that stalled, and why. A run may do so at each of its choices.
    pub fn note(&mut self, choice: Choice, reason: Stall) {
        // No run has more choices than a `usize` counts.
        self.count = self.count.wrapping_add(1);
        let first = &mut self.firsts[place_of(reason)];
        if first.is_none() {
            *first = Some(choice);
        }
    }

    /// How many choices stalled.
    pub fn count(&self) -> usize {
        self.count
    }

    /// For each reason the first choice that stalled for it.
    pub fn firsts(&self) -> [FirstStall; 6] {
        [
            self.first(Stall::Done),
            self.first(Stall::Full),
            self.first(Stall::Fence),
            self.first(Stall::Lock),
            self.first(Stall::Empty),
            self.first(Stall::Bus),
        ]
    }

    fn first(&self, reason: Stall) -> FirstStall {
        FirstStall {
            reason,
            choice: self.firsts[place_of(reason)],
        }
    }
}

fn place_of(reason: Stall) -> usize
    ensures { result < 6 }
{
    match reason {
        Stall::Done => 0,
        Stall::Full => 1,
        Stall::Fence => 2,
        Stall::Lock => 3,
        Stall::Empty => 4,
        Stall::Bus => 5,
    }
}
