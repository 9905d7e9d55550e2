//! What a person at a terminal sees while a command goes on, on standard error: that it waits for a test; and of a search one line that
//! is written over, and gone at the end. Where standard error is no terminal, nothing is written.

use std::io::IsTerminal;
use std::rt::Stderr;
use tso_cli::Watcher;

/// What a command says that waits for what a person types.
const READING: &str = "reading a test from the terminal; Ctrl-D ends it";

/// What takes the line away: as many spaces as it can be long.
const ERASED: &str = "\r                                                                      \r";

/// Tells how far a search is, and remembers how many states it kept.
#[derive(Drop)]
pub struct Teller {
    errors: Stderr,
    /// Whether a person types the input.
    is_typed: bool,
    /// Whether standard error is a terminal.
    is_seen: bool,
    /// Whether the line is there.
    stands: bool,
    /// How many states were kept when the search was over.
    kept: usize,
}

impl Teller {
    /// No search goes on. Whether a person types the input is known of standard input.
    pub fn new(is_typed: bool, errors: Stderr) -> Teller {
        Teller {
            errors,
            is_typed,
            is_seen: errors.is_terminal(),
            stands: false,
            kept: 0,
        }
    }

    /// Where it tells.
    pub fn errors(&self) -> Stderr {
        self.errors
    }

    /// Tells a person who is to type the input that the command waits for it.
    pub fn tell_reading(&self) {
        if self.is_typed && self.is_seen {
            let _ = self.errors.println(READING);
        }
    }

    /// How many states were kept when the search was over; 0 where there was none.
    pub fn kept(&self) -> usize {
        self.kept
    }
}

impl Watcher for Teller {
    fn goes_on(&mut self, kept: usize, finals: usize) {
        if self.is_seen {
            let _ = print!(self.errors;
                "\rsearching: {kept} states kept, {finals} final states met"
            );
            self.stands = true;
        }
    }

    fn is_over(&mut self, kept: usize) {
        self.kept = kept;
        if self.stands {
            let _ = self.errors.print(ERASED);
            self.stands = false;
        }
    }
}
