//! The hint that is beside an answer, on standard error. It is made of what the answer knew, after the answer; nothing
//! that scripts read can change by it.

ghost use Rattle.std.specs.Prelude.{◌≡◌, IfOk, string_bytes};
ghost use Rattle.hints.specs.Hint.{IsHint};
ghost use Rattle.tso_cli.specs.Hints.{IsTold, IsToldOfGood, IsHintWithRuns, may_mislead, is_searched};

use crate::answer::{Answer, Status};
use command_line::Settings;
use hints::{Cause, hint_of, runs_line};
use std::alloc::Global;
use tso_terms::NoMemory;

/// One line for standard error: what was expected where an input was refused; where a run or a search
/// didn't end, what to do; and what may mislead in an answer that people read. Where `outcomes` didn't end, a second
/// line may say choices. The empty text where nothing is to be said. The answer is that of `answer_to` under these
/// settings to this input.
///
/// Errors: out of memory only.
pub fn hint(
    alloc: Global,
    settings: &Settings,
    answer: &Answer,
    input: &[u8],
) -> Result<String, NoMemory>
    ensures { IfOk result (λ text. IsTold settings.now answer.now.status (string_bytes text)) }
{
    match answer.status {
        Status::Good | Status::NotAsClaimed => good_hint(alloc, settings, &answer.cause, input),
        Status::Invalid => Ok(String::new(alloc)),
        Status::Refused => hint_of(alloc, &answer.cause, input),
        Status::Unended => {
            let hint = hint_of(alloc, &answer.cause, input)?;
            if is_searched(settings) {
                with_runs(alloc, hint, &answer.cause)
            } else {
                Ok(hint)
            }
        }
    }
}

/// Whether an answer that was printed may have a hint: it tells people of final states. What scripts read, JSON, a verdict or
/// choices, stands without one.
#[tactic(auto, unfolding(crate::specs::Hints::may_mislead))]
pub(crate) fn may_mislead(settings: &Settings) -> bool
    ensures { result ≡ may_mislead settings.now }
{
    match settings {
        Settings::Run { json, .. }
        | Settings::Trace { json, .. }
        | Settings::Outcomes { json, .. } => !*json,
        Settings::Sweep { .. } => true,
        Settings::Counts { .. } => false,
        Settings::Why { json, .. } => !*json,
        Settings::Check { .. } | Settings::Witness { .. } | Settings::Tables(_) => false,
    }
}

/// The hint beside an answer that was printed: of what may mislead, if something does.
fn good_hint(
    alloc: Global,
    settings: &Settings,
    cause: &Cause,
    input: &[u8],
) -> Result<String, NoMemory>
    ensures { IfOk result (λ text. IsToldOfGood (may_mislead settings.now) (string_bytes text)) }
{
    match cause {
        Cause::Nothing => Ok(String::new(alloc)),
        _ if may_mislead(settings) => hint_of(alloc, cause, input),
        _ => Ok(String::new(alloc)),
    }
}

/// Whether the command searches for final states.
#[tactic(auto, unfolding(crate::specs::Hints::is_searched))]
fn is_searched(settings: &Settings) -> bool
    ensures { result ≡ is_searched settings.now }
{
    match settings {
        Settings::Outcomes { .. } => true,
        Settings::Run { .. }
        | Settings::Trace { .. }
        | Settings::Sweep { .. }
        | Settings::Counts { .. }
        | Settings::Why { .. }
        | Settings::Check { .. }
        | Settings::Witness { .. }
        | Settings::Tables(_) => false,
    }
}

/// A hint, and after it the line that says choices to run, if there are some.
fn with_runs(alloc: Global, hint: String, cause: &Cause) -> Result<String, NoMemory>
    requires { IsHint (string_bytes hint) }
    ensures { IfOk result (λ text. IsHintWithRuns (string_bytes text)) }
{
    let mut text = hint;
    let runs = runs_line(alloc, cause)?;
    text.push_str(&runs)?;
    Ok(text)
}
