//! Why a text spells no choices. Each fault has what its line has to name: the word or the core.

ghost use Rattle.std.specs.Prelude.{◌≡◌};
ghost use Rattle.scheduler.specs.declared.fault.ChoiceFault.TheVariants as fault;

use std::alloc::AllocFailed;
use std::error::Error;
use std::fmt;

/// Why a text wasn't read as choices. Words are numbered from 1.
#[derive(Clone, Copy)]
pub enum ChoiceFault {
    /// This word is of no form of a choice text, or isn't the number that `seed` needs here.
    BadWord(usize),
    /// This word names a core that isn't there.
    NoSuchCore(usize),
    /// The item that begins at this word passes the maximum number of choices of a text.
    TooMany(usize),
    /// The allocator refused a growth. It is answered for no other reason.
    NoMemory,
}

impl fmt::Display for ChoiceFault {
    fn fmt<W: fmt::Write>(&self, f: &mut fmt::Formatter<W>) -> fmt::Result {
        let (word, what) = match self {
            ChoiceFault::BadWord(word) => (word, "is no choice"),
            ChoiceFault::NoSuchCore(word) => (word, "names a core that isn't there"),
            ChoiceFault::TooMany(word) => (word, "passes the limit of choices"),
            ChoiceFault::NoMemory => return f.write_str("out of memory"),
        };
        write!(f, "word {word} {what}")
    }
}

impl fmt::Debug for ChoiceFault {
    fn fmt<W: fmt::Write>(&self, f: &mut fmt::Formatter<W>) -> fmt::Result {
        fmt::Display::fmt(self, f)
    }
}

impl Error for ChoiceFault {}

impl From<tso_terms::NoMemory> for ChoiceFault {
    ghost from_gives = { λ _ e. e ≡ fault.NoMemory };

    fn from(_: tso_terms::NoMemory) -> ChoiceFault {
        ChoiceFault::NoMemory
    }
}

impl<T: Drop> From<AllocFailed<T>> for ChoiceFault {
    ghost from_gives = { λ _ e. e ≡ fault.NoMemory };

    fn from(_: AllocFailed<T>) -> ChoiceFault {
        ChoiceFault::NoMemory
    }
}
