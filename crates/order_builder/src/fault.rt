//! Why a text spells no order, with the line that is at fault.

ghost use Rattle.std.specs.Prelude.{◌≡◌};
ghost use Rattle.order_builder.specs.declared.fault.OrderFault.TheVariants as faults;

use std::alloc::AllocFailed;
use std::error::Error;
use std::fmt;

/// Why a text spells no order of a test. The first fault in the order of its lines is named.
#[derive(Clone, Copy)]
pub enum OrderFault {
    /// No line is `Order`.
    NoOrder,
    /// The line of this number, counted from 1, is after the line `Order` and before a line
    /// `Endorder n`, and is neither an entry nor such a line.
    BadLine(usize),
    /// No line `Endorder n` ends the entries, or its n isn't how many they are.
    BadCount,
    /// The allocator refused a growth, which says nothing of the text.
    NoMemory,
}

impl fmt::Display for OrderFault {
    fn fmt<W: fmt::Write>(&self, f: &mut fmt::Formatter<W>) -> fmt::Result {
        match self {
            OrderFault::NoOrder => f.write_str("no line is `Order`"),
            OrderFault::BadLine(number) => {
                write!(
                    f,
                    "line {number} is neither an entry nor the end of the order"
                )
            }
            OrderFault::BadCount => f.write_str(
                "the order's end doesn't give the number of entries",
            ),
            OrderFault::NoMemory => f.write_str("out of memory"),
        }
    }
}

impl fmt::Debug for OrderFault {
    fn fmt<W: fmt::Write>(&self, f: &mut fmt::Formatter<W>) -> fmt::Result {
        fmt::Display::fmt(self, f)
    }
}

impl Error for OrderFault {}

impl<T: Drop> From<AllocFailed<T>> for OrderFault {
    ghost from_gives = { λ _ fault. fault ≡ faults.NoMemory };

    fn from(_: AllocFailed<T>) -> OrderFault {
        OrderFault::NoMemory
    }
}
