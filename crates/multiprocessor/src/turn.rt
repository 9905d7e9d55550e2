//! Whose turn it is, and how its access of the bus is made.

ghost use Rattle.std.specs.Prelude.{◌≡◌};
ghost use Rattle.tso_terms.specs.FlatMachine.{chosen};
ghost use Rattle.multiprocessor.specs.Keeping.{core_in};

use tso_terms::{Choice, Core};

/// How an access of the bus is made.
#[derive(Clone, Copy)]
pub enum Way {
    /// Whole, at one choice.
    Whole,
    /// As the second half of what was asked for at an earlier choice.
    Asked,
}

/// Whose access of the bus it is, and how it is made.
#[derive(Clone, Copy)]
pub struct Turn {
    pub core: Core,
    pub way: Way,
}

/// The core that a choice names.
#[inline(always)]
pub fn core_of(choice: Choice) -> Core
    ensures core { result ≡ core_in choice }
    ensures chosen { result.0 ≡ chosen choice }
{
    match choice {
        Choice::Step(core) | Choice::Drain(core) => core,
    }
}
