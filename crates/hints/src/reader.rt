//! The commands that read a test: hints name the one that was asked for, and know what follows the test there.

use litmus_tokens::Instructions;

/// What reads a test: a command, and with which instructions.
#[derive(Clone, Copy)]
pub struct Request {
    pub reader: Reader,
    pub instructions: Instructions,
}

/// A command that reads a test.
#[derive(Clone, Copy)]
pub enum Reader {
    /// `run`, which reads choices after the test.
    Run,
    /// `trace`, which reads choices after the test.
    Trace,
    /// `sweep`, which reads the test alone.
    Sweep,
    /// `counts`, which reads the test alone, or the choices after it that are given.
    Counts,
    /// `outcomes`, which reads the test alone.
    Outcomes,
    /// `why`, which reads the test alone.
    Why,
    /// `check`, which reads an order after the test.
    Check,
    /// `witness`, which reads an order after the test.
    Witness,
}

impl Reader {
    /// The word for it on a command line.
    pub(crate) fn name(self) -> &'static str {
        match self {
            Reader::Run => "run",
            Reader::Trace => "trace",
            Reader::Sweep => "sweep",
            Reader::Counts => "counts",
            Reader::Outcomes => "outcomes",
            Reader::Why => "why",
            Reader::Check => "check",
            Reader::Witness => "witness",
        }
    }
}
