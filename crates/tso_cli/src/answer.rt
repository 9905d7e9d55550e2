//! What a command answers: a text, how it ended, and of what a hint can be made; and the answers to inputs that are refused
//! before a command looks at them.

ghost use Rattle.std.specs.Prelude.{◌≡◌, IfOk};
ghost use Rattle.litmus_reader.specs.Reading.{refusal};
ghost use Rattle.tso_cli.specs.inner.Answers.{Says};
ghost use Rattle.tso_cli.specs.Lines.{test_refusal, input_refusal};
ghost use Rattle.tso_cli.specs.Verdicts.{status_of_verdict};

use hints::{Cause, Request};
use litmus_reader::{Fault, Why, refusal_for};
use std::alloc::Global;
use tso_io::MAX_INPUT;
use tso_terms::NoMemory;

/// How a command ended.
#[derive(Clone, Copy, PartialEq, Eq)]
pub enum Status {
    /// The test ended, the order is valid, or what was asked for was printed. Of a search that met its limit, a state
    /// was met by which the condition is as it claims, of which the status was to tell.
    Good,
    /// A text was refused.
    Refused,
    /// The choices were too few to end the test; of a sweep, those of one seed or more. Of a search, the
    /// machine can reach more states than may be kept.
    Unended,
    /// The order isn't valid, or needs deeper store buffers than a witness was asked for.
    Invalid,
    /// The test's condition isn't as it claims, of which the status was to tell: `exists` is so nowhere,
    /// `~exists` somewhere, or `forall` not everywhere.
    NotAsClaimed,
}

impl Status {
    /// The status of an answer that has a verdict: whether the test's condition is as it claims is told where
    /// that is asserted.
    pub(crate) fn of_verdict(assert: bool, is_as_claimed: bool) -> Status
        ensures { result ≡ status_of_verdict assert is_as_claimed }
    {
        if assert && !is_as_claimed {
            Status::NotAsClaimed
        } else {
            Status::Good
        }
    }
}

/// What is to be written, how the command ended, and of what a hint can be made.
#[derive(Drop)]
pub struct Answer {
    /// What is to be written to standard output.
    pub text: String,
    /// How the command ended.
    pub status: Status,
    /// Of what a hint can be made.
    pub cause: Cause,
}

/// The answer to a text that spells no test, for what is at fault in it, where this was to read it.
///
/// Errors: out of memory only.
pub fn refused_test(
    alloc: Global,
    asked: Request,
    text: &[u8],
    fault: Fault,
) -> Result<Answer, NoMemory>
    ensures { IfOk result (λ a. Says a (test_refusal (refusal text.now fault)) Status.Refused) }
{
    let refusal = refusal_for(text, fault);
    if refusal.why == Why::NoMemory {
        return Err(NoMemory);
    }
    let line = refusal.line;
    let name = refusal.why.name();
    Ok(Answer {
        text: format!(in alloc; "Refused test line {line} {name}\n")?,
        status: Status::Refused,
        cause: Cause::Test {
            asked,
            length: text.len(),
            fault,
        },
    })
}

/// The answer to an input that is larger than an input may be.
///
/// Errors: out of memory only.
pub fn refused_input(alloc: Global) -> Result<Answer, NoMemory>
    ensures { IfOk result (λ a. Says a input_refusal Status.Refused) }
{
    let text = String::from_str(alloc, "Refused input TooLarge\n")?;
    Ok(Answer {
        text,
        status: Status::Refused,
        cause: Cause::Size { most: MAX_INPUT },
    })
}
