//! A run with its trace as JSON, for programs to read. It is one line, and its objects have their keys in the order of
//! their bytes.

ghost use Rattle.std.specs.Prelude.{◌≡◌, ◌<◌, ◌≤◌, List, IfOk, IfSome, IsSome, None, false, length, string_bytes};
ghost use Rattle.serde_json.specs.View.{view, members_view};
ghost use Rattle.serde_json.specs.Written.{has_float};
ghost use Rattle.tso_terms.specs.declared.choice.Choice.{Choice};
ghost use Rattle.scheduler.specs.Grammar.{SpellsChoices};
ghost use Rattle.scheduler.specs.WordOfChoice.{IsWordOfChoice};
ghost use Rattle.machine_runs.specs.Simulation.{FitsEnding};
ghost use Rattle.trace_report.specs.TracedRun.{most_steps, line_with, ending_members};

use crate::programs_as_json::programs_value;
use crate::proposition_as_json::proposition_value;
use machine_runs::{Ending, Setup};
use scheduler::word_of_choice;
use serde_json::{Map, Value};
use std::alloc::Global;
use tso_report::json::{run_members, unfinished_members};
use tso_report::objects::Object;
use tso_terms::NoMemory;

/// Maximum number of steps of a trace as JSON.
pub const MAX_STEPS: usize = 1_000;

/// The limit of steps is the number that the definitions have: a law, with nothing to run.
pub fn steps_are_as_defined()
    ensures { MAX_STEPS ≡ most_steps }
{}

/// Where a run that used so many choices of a text is too long for a trace as JSON, the number of the word that
/// says the first choice beyond [`MAX_STEPS`]; words are numbered from 1. `None` where it isn't too long, or the text
/// has no such choice.
pub fn word_beyond(cores: u8, used: usize, text: &[u8]) -> Option<usize>
    requires { 0 < cores }
    ensures short { used ≤ most_steps → result ≡ None }
    ensures found { IfSome result (λ word. (most_steps < used) × IsWordOfChoice cores text.now most_steps word) }
    ensures there { (choices : List Choice) → SpellsChoices cores text.now choices → used ≤ length choices → most_steps < used
        → IsSome result }
{
    if used <= MAX_STEPS {
        None
    } else {
        word_of_choice(cores, MAX_STEPS, text)
    }
}

/// How a run left its test, with its trace, as JSON: an object of the members of the run's report, or of how many choices
/// were used and how many of these stalled, and of the programs, the condition's proposition and the trace; printed
/// compact, and a line feed.
///
/// Errors: out of memory only.
pub fn traced_json(
    alloc: Global,
    setup: &Setup<'_>,
    ending: &Ending,
    trace: Value,
) -> Result<String, NoMemory>
    requires run { FitsEnding setup.now.test.now ending.now }
    requires trace { has_float (view trace) ≡ false }
    ensures { IfOk result (λ text.
        string_bytes text ≡ line_with setup.now.test.now (view trace)
        (ending_members setup.now.test.now setup.now.protocol setup.now.config ending.now)) }
{
    Object::from_made(alloc, ending_members(alloc, setup, ending))
        .member("trace", Ok(trace))
        .member("proposition", proposition_value(alloc, setup.test))
        .member("programs", programs_value(alloc, setup.test))
        .line()
}

/// What the report of a run has, or the line of one that didn't end.
fn ending_members(
    alloc: Global,
    setup: &Setup<'_>,
    ending: &Ending,
) -> Result<Map<String, Value>, NoMemory>
    requires { FitsEnding setup.now.test.now ending.now }
    ensures { IfOk result (λ members. members_view members.entries ≡ ending_members setup.now.test.now setup.now.protocol setup.now.config ending.now) }
{
    match ending {
        Ending::Ended(run) => run_members(alloc, setup.test, setup.protocol, setup.config, run),
        Ending::Unfinished { used, stalled } => unfinished_members(alloc, *used, *stalled),
    }
}
