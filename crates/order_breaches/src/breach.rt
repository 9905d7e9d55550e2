//! The breaches of the axioms. Their order is part of the answer: an order with several breaches is told the first of
//! these.
ghost use Rattle.std.specs.Prelude.{◌≡◌};

use std::error::Error;
use std::fmt;
use tso_terms::{Core, Entry, Kind, Loc, NoMemory};

/// Why an order is no TSO execution of a test: the first of its breaches, in the order of the
/// variants.
#[derive(Clone, Copy)]
pub enum Breach {
    /// No program has this core, place, kind and location, or it is a fence with a location or
    /// value other than 0.
    Extra(Entry),
    /// An entry of its core, place and kind stood before.
    Twice(Entry),
    /// The order has no entry of this core, place and kind; the location is the program's.
    Missing(Core, u8, Kind, Loc),
    /// A write of another value than its program gives it, by the read values of the order itself;
    /// that value is the second part.
    WrongValue(Entry, u32),
    /// The first entry comes after the second, though its program has it before, and isn't a
    /// plain store that a plain load passed.
    ProgramOrder(Entry, Entry),
    /// The load part of a locked instruction, not followed at once by its store part.
    NotAdjacent(Entry),
    /// A read of another value than the axioms give it; that value is the second part.
    ReadValue(Entry, u32),
    /// The allocator refused a growth, and nothing is said of the order.
    NoMemory,
}

impl fmt::Display for Breach {
    fn fmt<W: fmt::Write>(&self, f: &mut fmt::Formatter<W>) -> fmt::Result {
        f.write_str(match self {
            Breach::Extra(_) => "an entry that no program has",
            Breach::Twice(_) => "an entry stands twice",
            Breach::Missing(..) => "an entry is missing",
            Breach::WrongValue(..) => "a write of another value than its program's",
            Breach::ProgramOrder(..) => "two entries out of program order",
            Breach::NotAdjacent(_) => "a locked instruction in two parts",
            Breach::ReadValue(..) => "a read of another value than is due",
            Breach::NoMemory => "out of memory",
        })
    }
}

impl fmt::Debug for Breach {
    fn fmt<W: fmt::Write>(&self, f: &mut fmt::Formatter<W>) -> fmt::Result {
        fmt::Display::fmt(self, f)
    }
}

impl Error for Breach {}

impl From<NoMemory> for Breach {
    ghost use Rattle.order_breaches.specs.declared.breach.Breach.TheVariants.{NoMemory};

    ghost from_gives = { λ _ e. e ≡ NoMemory };

    fn from(_: NoMemory) -> Breach {
        Breach::NoMemory
    }
}
