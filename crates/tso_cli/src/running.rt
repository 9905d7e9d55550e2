//! The answer of `run`: the report of a run that ended, or how far it came. Only of an ended run is an order printed, for
//! only that is an execution of the test.

ghost use Rattle.std.specs.Prelude.{◌≡◌, ◌≢◌, IfOk, OnOk, string_bytes};
ghost use Rattle.machine_runs.specs.Simulation.{FitsEnding};
ghost use Rattle.tso_cli.specs.CommandAnswers.{IsRunAnswer};
ghost use Rattle.tso_cli.specs.inner.Answers.{Says, text_of_ending};
ghost use Rattle.tso_cli.specs.Lines.{choices_refusal};

use crate::answer::{Answer, Status};
use crate::tracing::status_in;
use hints::Cause;
use machine_core::Config;
use machine_runs::{Ending, Setup, simulate_observed};
use protocol_tables::ProtocolKind;
use scheduler::{ChoiceFault, Stalls, read_choices, spelled_cores_exist};
use std::alloc::Global;
use tso_report::{report_json, report_text, unfinished_json};
use tso_terms::{NoMemory, Test};

/// The answer of `run` to a test and the text of choices, plain or as JSON.
///
/// Errors: out of memory only.
pub fn run_answer(
    alloc: Global,
    test: &Test,
    protocol: ProtocolKind,
    config: Config,
    json: bool,
    text: &[u8],
) -> Result<Answer, NoMemory>
    ensures { IfOk result (λ a. IsRunAnswer test.now protocol config json text.now (string_bytes a.text) a.status) }
{
    spelled_cores_exist();
    let setup = Setup {
        test,
        protocol,
        config,
    };
    match read_choices(alloc, test.cores(), text) {
        Ok(choices) => {
            let mut stalls = Stalls::none();
            let ending = simulate_observed(alloc, &setup, &choices, &mut stalls)?;
            let status = status_in(&ending);
            Ok(Answer {
                text: text_of_ending(alloc, &setup, json, &ending)?,
                status,
                cause: cause_of(status, &setup, text, stalls),
            })
        }
        Err(fault) => refused_choices(alloc, test, text, fault),
    }
}

/// Why the run didn't end, if it didn't.
pub fn cause_of(status: Status, setup: &Setup<'_>, text: &[u8], stalls: Stalls) -> Cause {
    match status {
        Status::Unended => {
            Cause::of_unended_run(setup.test, text, setup.config.depth() > 0, stalls)
        }
        Status::Good | Status::Refused | Status::Invalid | Status::NotAsClaimed => Cause::Nothing,
    }
}

/// The answer to a text that spells no choices, for what is at fault in it.
///
/// Errors: out of memory only.
pub fn refused_choices(
    alloc: Global,
    test: &Test,
    text: &[u8],
    fault: ChoiceFault,
) -> Result<Answer, NoMemory>
    ensures says { IfOk result (λ a. Says a (choices_refusal fault) Status.Refused) }
    ensures real { OnOk result (fault ≢ ChoiceFault.NoMemory) }
{
    let (word, name) = match fault {
        ChoiceFault::BadWord(word) => (word, "BadWord"),
        ChoiceFault::NoSuchCore(word) => (word, "NoSuchCore"),
        ChoiceFault::TooMany(word) => (word, "TooMany"),
        ChoiceFault::NoMemory => return Err(NoMemory),
    };
    Ok(Answer {
        text: format!(in alloc; "Refused choices word {word} {name}\n")?,
        status: Status::Refused,
        cause: Cause::Choices {
            length: text.len(),
            cores: test.cores(),
            fault,
        },
    })
}

/// The report of a run that ended, or how far it came.
fn text_of_ending(
    alloc: Global,
    setup: &Setup<'_>,
    json: bool,
    ending: &Ending,
) -> Result<String, NoMemory>
    requires { FitsEnding setup.now.test.now ending.now }
    ensures { IfOk result (λ text. string_bytes text ≡ text_of_ending json setup.now.test.now setup.now.protocol setup.now.config ending.now) }
{
    match ending {
        Ending::Ended(run) => {
            if json {
                report_json(alloc, setup.test, setup.protocol, setup.config, run)
            } else {
                report_text(alloc, setup.test, setup.protocol, setup.config, run)
            }
        }
        Ending::Unfinished { used, stalled } => {
            if json {
                unfinished_json(alloc, *used, *stalled)
            } else {
                Ok(format!(in alloc; "Unfinished used={used} stalled={stalled}\n")?)
            }
        }
    }
}
