//! Why an order isn't reached: the fault has the depth that its line has to name.

ghost use Rattle.std.specs.Prelude.{◌≡◌};
ghost use Rattle.scheduler.specs.declared.witness_fault.WitnessFault.TheVariants as fault;

use std::error::Error;
use std::fmt;

/// Why no choices are made that reach an order.
#[derive(Clone, Copy)]
pub enum WitnessFault {
    /// The order needs store buffers of this depth, which is greater than the one asked for.
    Depth(u8),
    /// The allocator refused a growth. It is answered for no other reason.
    NoMemory,
}

impl fmt::Display for WitnessFault {
    fn fmt<W: fmt::Write>(&self, f: &mut fmt::Formatter<W>) -> fmt::Result {
        match self {
            WitnessFault::Depth(needed) => write!(f, "the order needs a depth of {needed}"),
            WitnessFault::NoMemory => f.write_str("out of memory"),
        }
    }
}

impl fmt::Debug for WitnessFault {
    fn fmt<W: fmt::Write>(&self, f: &mut fmt::Formatter<W>) -> fmt::Result {
        fmt::Display::fmt(self, f)
    }
}

impl Error for WitnessFault {}

impl From<tso_terms::NoMemory> for WitnessFault {
    ghost from_gives = { λ _ e. e ≡ fault.NoMemory };

    fn from(_: tso_terms::NoMemory) -> WitnessFault {
        WitnessFault::NoMemory
    }
}
