//! Whether a run is too long for its trace to be JSON, and how it is refused then.

ghost use Rattle.std.specs.Prelude.{◌≡◌, IfOk, List, length};
ghost use Rattle.tso_terms.specs.declared.choice.Choice.{Choice};
ghost use Rattle.scheduler.specs.Grammar.{SpellsChoices};
ghost use Rattle.machine_runs.specs.Runs.{run_under};
ghost use Rattle.machine_runs.specs.Simulation.{IsEndingOf};
ghost use Rattle.tso_cli.specs.Lines.{choices_refusal};
ghost use Rattle.tso_cli.specs.inner.Answers.{Says};
ghost use Rattle.tso_cli.specs.inner.Trace.{used_in, IsMeasured};

use crate::answer::{Answer, Status};
use hints::Cause;
use machine_runs::{Ending, Setup};
use scheduler::ChoiceFault;
use std::alloc::Global;
use trace_report::{MAX_STEPS, word_beyond};
use tso_terms::NoMemory;

/// Where a run of the choices that a text spells left its test so, and used more of them than a trace as JSON may have
/// steps, the number of the word that says the first one beyond. `None` where it didn't use more.
pub fn word_too_far(setup: &Setup<'_>, ending: &Ending, text: &[u8]) -> Option<usize>
    ensures { (choices : List Choice) → SpellsChoices (length setup.now.test.now.programs) text.now choices
        → IsEndingOf setup.now.test.now (run_under setup.now.test.now setup.now.protocol setup.now.config choices) ending.now
        → IsMeasured setup.now.test.now (run_under setup.now.test.now setup.now.protocol setup.now.config choices) text.now result }
{
    word_beyond(setup.test.cores(), used_in(ending), text)
}

/// How many choices a run used.
fn used_in(ending: &Ending) -> usize
    ensures { result ≡ used_in ending.now }
{
    match ending {
        Ending::Ended(run) => run.used,
        Ending::Unfinished { used, .. } => *used,
    }
}

/// The refusal of a run that uses more choices than a trace as JSON may have steps: this word says the first one beyond.
///
/// Errors: out of memory only.
pub fn refused_trace(alloc: Global, text: &[u8], word: usize) -> Result<Answer, NoMemory>
    ensures { IfOk result (λ a. Says a (choices_refusal (ChoiceFault.TooMany word)) Status.Refused) }
{
    Ok(Answer {
        text: format!(in alloc; "Refused choices word {word} TooMany\n")?,
        status: Status::Refused,
        cause: Cause::TooManySteps {
            length: text.len(),
            word,
            most: MAX_STEPS,
        },
    })
}
