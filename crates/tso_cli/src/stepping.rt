//! The answer of `step`, which the page asks for after each choice that is made there: of the trace the last step alone, so
//! that the page needn't take in again what it has.

ghost use Rattle.std.specs.Prelude.{IfOk, length, string_bytes};
ghost use Rattle.tso_terms.specs.Runs.{CoresExist};
ghost use Rattle.scheduler.specs.Grammar.{SpellsChoices};
ghost use Rattle.tso_cli.specs.Step.{IsStepAnswer};
ghost use Rattle.tso_cli.specs.inner.Step.{IsLastStep};

use crate::answer::{Answer, refused_input, refused_test};
use crate::dividing::parts_of;
use crate::measuring::{refused_trace, word_too_far};
use crate::running::{cause_of, refused_choices};
use crate::tracing::status_in;
use hints::{Reader, Request};
use litmus_reader::{Instructions, ReadError, test_or_fault_in};
use machine_core::{Choice, Config};
use machine_runs::Setup;
use protocol_tables::ProtocolKind;
use scheduler::{read_choices, spelled_cores_exist};
use std::alloc::Global;
use trace_report::simulate_telling_last;
use tso_io::MAX_INPUT;
use tso_report::json::line_of;
use tso_terms::NoMemory;

/// Of the trace that `trace --json` prints of an input the last step alone, with the machine after it; where no choice is
/// used, the machine before the first choice. The test may have these instructions. What it refuses, how, and the status are those of `trace --json`.
///
/// Errors: out of memory only.
pub fn step_answer(
    alloc: Global,
    protocol: ProtocolKind,
    config: Config,
    instructions: Instructions,
    input: &[u8],
) -> Result<Answer, NoMemory>
    ensures { IfOk result (λ a. IsStepAnswer protocol config instructions input.now (string_bytes a.text) a.status) }
{
    if input.len() > MAX_INPUT {
        return refused_input(alloc);
    }
    let parts = parts_of(input);
    match test_or_fault_in(alloc, instructions, parts.test) {
        Ok(test) => {
            let setup = Setup {
                test: &test,
                protocol,
                config,
            };
            test_answer(alloc, &setup, parts.rest)
        }
        Err(ReadError::Fault(fault)) => {
            let asked = Request {
                reader: Reader::Trace,
                instructions,
            };
            refused_test(alloc, asked, parts.test, fault)
        }
        Err(ReadError::NoMemory) => Err(NoMemory),
    }
}

/// The answer to a test and the text of choices.
fn test_answer(alloc: Global, setup: &Setup<'_>, text: &[u8]) -> Result<Answer, NoMemory>
    ensures { IfOk result (λ a. IsLastStep setup.now.test.now setup.now.protocol setup.now.config text.now (string_bytes a.text) a.status) }
{
    spelled_cores_exist();
    match read_choices(alloc, setup.test.cores(), text) {
        Ok(choices) => last_answer(alloc, setup, text, &choices),
        Err(fault) => refused_choices(alloc, setup.test, text, fault),
    }
}

/// The answer to the choices that the text spells.
fn last_answer(
    alloc: Global,
    setup: &Setup<'_>,
    text: &[u8],
    choices: &[Choice],
) -> Result<Answer, NoMemory>
    requires cores { CoresExist (length setup.now.test.now.programs) choices.now }
    requires spelled { SpellsChoices (length setup.now.test.now.programs) text.now choices.now }
    ensures { IfOk result (λ a. IsLastStep setup.now.test.now setup.now.protocol setup.now.config text.now (string_bytes a.text) a.status) }
{
    let traced = simulate_telling_last(alloc, setup, choices)?;
    if let Some(word) = word_too_far(setup, &traced.ending, text) {
        return refused_trace(alloc, text, word);
    }
    let step = line_of(alloc, &traced.told)?;
    let status = status_in(&traced.ending);
    Ok(Answer {
        text: step,
        status,
        cause: cause_of(status, setup, text, traced.stalls),
    })
}
