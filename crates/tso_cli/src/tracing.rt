//! The answer of `trace`: what `run` answers, and with it what each choice did. Both are of one run, or the trace would
//! explain another one.

ghost use Rattle.std.specs.Prelude.{◌≡◌, true, IfOk, length, string_bytes};
ghost use Rattle.tso_terms.specs.Runs.{CoresExist};
ghost use Rattle.scheduler.specs.Grammar.{SpellsChoices};
ghost use Rattle.tso_cli.specs.Trace.{IsTraceAnswer};
ghost use Rattle.tso_cli.specs.inner.Trace.{status_in};

use crate::answer::{Answer, Status};
use crate::measuring::{refused_trace, word_too_far};
use crate::running::{cause_of, refused_choices};
use crate::told_run::lines_answer;
use machine_core::{Choice, Config};
use machine_runs::{Ending, Setup};
use protocol_tables::ProtocolKind;
use scheduler::{read_choices, spelled_cores_exist};
use std::alloc::Global;
use trace_report::{TracedRun, simulate_tracing, traced_json};
use tso_terms::{NoMemory, Test};

/// The answer of `trace` to a test and the text of choices, plain or as JSON: what `run` answers, with what each choice did.
/// As JSON it is refused where more choices are used than a trace may have steps.
///
/// Errors: out of memory only.
pub fn trace_answer(
    alloc: Global,
    test: &Test,
    protocol: ProtocolKind,
    config: Config,
    json: bool,
    text: &[u8],
) -> Result<Answer, NoMemory>
    ensures { IfOk result (λ a. IsTraceAnswer test.now protocol config json text.now (string_bytes a.text) a.status) }
{
    spelled_cores_exist();
    let setup = Setup {
        test,
        protocol,
        config,
    };
    match read_choices(alloc, test.cores(), text) {
        Ok(choices) => {
            if json {
                object_answer(alloc, &setup, text, &choices)
            } else {
                lines_answer(alloc, &setup, text, &choices)
            }
        }
        Err(fault) => refused_choices(alloc, test, text, fault),
    }
}

/// The answer as JSON. The run is made once: its trace is kept as its choices are made, as far as it may be told.
fn object_answer(
    alloc: Global,
    setup: &Setup<'_>,
    text: &[u8],
    choices: &[Choice],
) -> Result<Answer, NoMemory>
    requires cores { CoresExist (length setup.now.test.now.programs) choices.now }
    requires spelled { SpellsChoices (length setup.now.test.now.programs) text.now choices.now }
    ensures { IfOk result (λ a. IsTraceAnswer setup.now.test.now setup.now.protocol setup.now.config true text.now (string_bytes a.text) a.status) }
{
    let traced = simulate_tracing(alloc, setup, choices)?;
    if let Some(word) = word_too_far(setup, &traced.ending, text) {
        return refused_trace(alloc, text, word);
    }
    let TracedRun {
        ending,
        told,
        stalls,
    } = traced;
    let status = status_in(&ending);
    let object = traced_json(alloc, setup, &ending, told)?;
    Ok(Answer {
        text: object,
        status,
        cause: cause_of(status, setup, text, stalls),
    })
}

/// The status of an answer to a run that was left so.
pub fn status_in(ending: &Ending) -> Status
    ensures { result ≡ status_in ending.now }
{
    match ending {
        Ending::Ended(_) => Status::Good,
        Ending::Unfinished { .. } => Status::Unended,
    }
}
