//! Why a text is refused, and at which line. A fault has a place, the bytes from there on; its line is counted once, at the
//! end.

ghost use Rattle.std.specs.Prelude.{◌≡◌};
ghost use Rattle.litmus_tokens.specs.inner.Pieces.{pieces};
ghost use Rattle.litmus_reader.specs.Places as places;

use litmus_cells::{Fault, Why};
use litmus_tokens::{Stop, Token};
use std::error::Error;
use std::fmt;

/// The refusal of a text: its line, from 1, and why. With `NoMemory` the line is 0.
#[derive(Clone, Copy)]
pub struct TextFault {
    pub line: usize,
    pub why: Why,
}

impl fmt::Display for TextFault {
    fn fmt<W: fmt::Write>(&self, f: &mut fmt::Formatter<W>) -> fmt::Result {
        let line = self.line;
        let why = self.why;
        write!(f, "line {line} {why}")
    }
}

impl fmt::Debug for TextFault {
    fn fmt<W: fmt::Write>(&self, f: &mut fmt::Formatter<W>) -> fmt::Result {
        fmt::Display::fmt(self, f)
    }
}

impl Error for TextFault {}

/// How a part of the text refuses a token that doesn't fit, and what it answers where there is no
/// token more.
#[derive(Clone, Copy)]
pub struct Part {
    pub why: Why,
    pub missing: Fault,
}

impl Part {
    /// The refusal of the token at the front, or of its absence.
    pub fn unfit(self, tokens: &[Token<'_>]) -> Fault
        ensures { result ≡ places.unfit self (pieces tokens.now) }
    {
        match tokens.first() {
            Some(first) => Fault {
                why: self.why,
                remaining: first.remaining,
            },
            None => self.missing,
        }
    }
}

/// The refusal where the tokens run out: the lexical fault that ended them, or at the end of the
/// text `end`.
pub fn at_stop(end: Fault, stop: Stop) -> Fault
    ensures { result ≡ places.at_stop end stop }
{
    match stop {
        Stop::End => end,
        Stop::BadToken(remaining) => Fault {
            why: Why::BadToken,
            remaining,
        },
        Stop::Unclosed(remaining) => Fault {
            why: Why::Unclosed,
            remaining,
        },
    }
}

/// How a part of the text refuses for which the end of the text is at fault as a token is.
pub fn part_of(why: Why, stop: Stop) -> Part
    ensures { result ≡ places.part_of why stop }
{
    let end = Fault { why, remaining: 0 };
    Part {
        why,
        missing: at_stop(end, stop),
    }
}

/// The place of the first token, or of the end.
pub fn remaining_of(tokens: &[Token<'_>]) -> usize
    ensures { result ≡ places.remaining_of (pieces tokens.now) }
{
    match tokens.first() {
        Some(first) => first.remaining,
        None => 0,
    }
}
