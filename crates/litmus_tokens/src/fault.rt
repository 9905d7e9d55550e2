//! Why a text is refused, and at which place of it: how many bytes stand from there on.

ghost use Rattle.std.specs.Prelude.{◌≡◌, Some};
ghost use Rattle.litmus_tokens.specs.Why.{name_of};
ghost use Rattle.litmus_tokens.specs.declared.fault.ReadError.TheVariants as errors;

use std::alloc::AllocFailed;
use std::fmt;
use tso_terms::NoMemory;

/// Why a text spells no test.
#[derive(Clone, Copy, PartialEq, Eq)]
pub enum Why {
    /// No header line: `X86`, a space or tab, and a name of printable bytes.
    NoHeader,
    /// A comment, an initial state or a row that doesn't end.
    Unclosed,
    /// A byte that begins no token, a name of more than 32 bytes, or anything before the initial
    /// state that can't be there.
    BadToken,
    /// A token that doesn't fit in the initial state.
    BadInit,
    /// A header row of another form than `P0 | P1 ;`.
    BadHeaderRow,
    /// A row that hasn't one cell for each core.
    WrongCells,
    /// A cell that spells no instruction.
    BadInstruction,
    /// A value over 4294967295.
    BadNumber,
    /// A register or a location that the initial state gives a value twice.
    TwiceInit,
    /// A core that the header row doesn't have.
    NoSuchCore,
    /// A text, a name, or a number of things over its limit.
    TooLarge,
    /// A token that doesn't fit in the condition.
    BadCondition,
    /// Something after the end of the test.
    Trailing,
    /// The allocator refused a growth; nothing is said of the text.
    NoMemory,
}

impl Why {
    /// The refusal's name, as refusal lines have it.
    pub fn name(self) -> &'static str
        ensures { result.now ≡ name_of self }
    {
        match self {
            Why::NoHeader => "NoHeader",
            Why::Unclosed => "Unclosed",
            Why::BadToken => "BadToken",
            Why::BadInit => "BadInit",
            Why::BadHeaderRow => "BadHeaderRow",
            Why::WrongCells => "WrongCells",
            Why::BadInstruction => "BadInstruction",
            Why::BadNumber => "BadNumber",
            Why::TwiceInit => "TwiceInit",
            Why::NoSuchCore => "NoSuchCore",
            Why::TooLarge => "TooLarge",
            Why::BadCondition => "BadCondition",
            Why::Trailing => "Trailing",
            Why::NoMemory => "NoMemory",
        }
    }
}

impl fmt::Display for Why {
    ghost use Rattle.litmus_tokens.specs.Why.{name_of};

    ghost output = { λ why. Some (name_of why) };

    fn fmt<W: fmt::Write>(&self, f: &mut fmt::Formatter<W>) -> fmt::Result {
        f.write_str(self.name())
    }
}

impl fmt::Debug for Why {
    fn fmt<W: fmt::Write>(&self, f: &mut fmt::Formatter<W>) -> fmt::Result {
        fmt::Display::fmt(self, f)
    }
}

/// A refusal at a place: how many bytes of the text stand from there on.
#[derive(Clone, Copy)]
pub struct Fault {
    pub why: Why,
    pub remaining: usize,
}

/// Why a text is read as no test.
#[derive(Clone, Copy)]
pub enum ReadError {
    /// The allocator refused a growth; nothing is said of the text.
    NoMemory,
    /// The text spells no test: what is at fault, and where.
    Fault(Fault),
}

impl From<Fault> for ReadError {
    ghost from_gives = { λ f e. e ≡ errors.Fault f };

    fn from(fault: Fault) -> ReadError {
        ReadError::Fault(fault)
    }
}

impl From<NoMemory> for ReadError {
    ghost from_gives = { λ _ e. e ≡ errors.NoMemory };

    fn from(_: NoMemory) -> ReadError {
        ReadError::NoMemory
    }
}

impl<T: Drop> From<AllocFailed<T>> for ReadError {
    ghost from_gives = { λ _ e. e ≡ errors.NoMemory };

    fn from(_: AllocFailed<T>) -> ReadError {
        ReadError::NoMemory
    }
}
