//! Why a search has no answer: too many states, or no memory. A search that stopped early and said nothing would pass for a
//! whole one.

ghost use Rattle.std.specs.Prelude.{◌≡◌};
ghost use Rattle.explorer.specs.declared.fault.ExploreFault.TheVariants as faults;

use std::error::Error;
use std::fmt;
use tso_terms::NoMemory;

/// Why a search has no answer.
#[derive(Clone, Copy, Debug)]
pub enum ExploreFault {
    /// The machine can reach more states than the search was to keep.
    TooMany,
    /// The allocator refused a growth, which says nothing of the test.
    NoMemory,
}

impl fmt::Display for ExploreFault {
    fn fmt<W: fmt::Write>(&self, f: &mut fmt::Formatter<W>) -> fmt::Result {
        f.write_str(match self {
            ExploreFault::TooMany => "more states than the limit",
            ExploreFault::NoMemory => "out of memory",
        })
    }
}

impl Error for ExploreFault {}

impl From<NoMemory> for ExploreFault {
    ghost from_gives = { λ _ fault. fault ≡ faults.NoMemory };

    fn from(_: NoMemory) -> ExploreFault {
        ExploreFault::NoMemory
    }
}
