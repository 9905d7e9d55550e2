//! A run whose choices are told as they are made: a line is written for each, by an observer that sees the machine before it and
//! after it.

ghost use Rattle.std.specs.Prelude.{◌≡◌, ◌++◌, false, IfOk, OnOk, length, string_bytes};
ghost use Rattle.tso_terms.specs.Runs.{CoresExist};
ghost use Rattle.scheduler.specs.Grammar.{SpellsChoices};
ghost use Rattle.trace_report.specs.Told.{IsTraced, IsTracedInStates};
ghost use Rattle.machine_runs.specs.Simulation.{FitsEnding};
ghost use Rattle.tso_cli.specs.Trace.{IsTraceAnswer};
ghost use Rattle.tso_cli.specs.inner.Telling.{Opens, Tells, Closes};
ghost use Rattle.tso_cli.specs.inner.Trace.{lines_left};

use crate::answer::Answer;
use crate::running::cause_of;
use crate::tracing::status_in;
use machine_core::{Choice, Config, Machine, Outcome};
use machine_runs::{Ending, Observer, Setup, simulate_observed};
use protocol_tables::Protocol;
use scheduler::Stalls;
use std::alloc::Global;
use trace_report::states::PlacedState;
use trace_report::{
    Told, states_of, tell_or_stall, write_end, write_stall, write_start, write_step,
};
use tso_report::{head_text, write_body};
use tso_terms::{NoMemory, Test};

/// The answer of `trace` as lines. The run is made once: its trace is written as its choices are made, and what comes after it
/// is what the machine is left with.
///
/// Errors: out of memory only.
pub(crate) fn lines_answer(
    alloc: Global,
    setup: &Setup<'_>,
    text: &[u8],
    choices: &[Choice],
) -> Result<Answer, NoMemory>
    requires cores { CoresExist (length setup.now.test.now.programs) choices.now }
    requires spelled { SpellsChoices (length setup.now.test.now.programs) text.now choices.now }
    ensures { IfOk result (λ a. IsTraceAnswer setup.now.test.now setup.now.protocol setup.now.config false text.now (string_bytes a.text) a.status) }
{
    let head = head_text(alloc, setup.test, setup.protocol, setup.config)?;
    let mut teller = Teller {
        alloc,
        test: setup.test,
        config: setup.config,
        states: Vec::new(alloc),
        made: 0,
        text: head,
        stalls: Stalls::none(),
    };
    let ending = simulate_observed(alloc, setup, choices, &mut teller)?;
    let mut lines = teller.text;
    write_left(&mut lines, setup.test, &ending)?;
    let status = status_in(&ending);
    Ok(Answer {
        text: lines,
        status,
        cause: cause_of(status, setup, text, teller.stalls),
    })
}

/// Writes what comes after a trace: the rest of the report of a run that ended, or how far it came.
fn write_left(text: &mut String, test: &Test, ending: &Ending) -> Result<(), NoMemory>
    requires { FitsEnding test.now ending.now }
    ensures { OnOk result (string_bytes text.new ≡ string_bytes text.old ++ lines_left test.now ending.now) }
{
    match ending {
        Ending::Ended(run) => write_body(text, test, run),
        Ending::Unfinished { used, stalled } => {
            write!(text, "Unfinished used={used} stalled={stalled}\n")?;
            Ok(())
        }
    }
}

/// Writes a line for each choice, and notes which choices stalled.
#[derive(Drop)]
pub(crate) struct Teller<'t> {
    alloc: Global,
    test: &'t Test,
    config: Config,
    /// What the machine's lines are in.
    states: Vec<PlacedState>,
    /// How many choices were made.
    made: usize,
    text: String,
    stalls: Stalls,
}

impl<'t> Observer for Teller<'t> {
    ghost begins = { λ o m. IsTraced o.test.now o.config m };

    ghost opens = { Opens };

    ghost watches = { λ o m. IsTracedInStates o.test.now o.config m o.states.items };

    ghost makes = { Tells };

    ghost ends = { Closes };

    fn begin<P: Protocol>(&mut self, machine: &Machine<'_, P>) -> Result<(), NoMemory> {
        self.states = states_of(self.alloc, machine, self.test, self.config.words())?;
        write_start(&mut self.text)
    }

    fn choose<P: Protocol>(
        &mut self,
        machine: &mut Machine<'_, P>,
        number: usize,
        choice: Choice,
    ) -> Result<Outcome, NoMemory> {
        let alloc = self.alloc;
        let test = self.test;
        let told = tell_or_stall(alloc, machine, &mut self.states, test, self.config, choice)?;
        self.made = number;
        match told {
            Told::Stalled(reason) => {
                write_stall(&mut self.text, number, choice, reason)?;
                self.stalls.note(choice, reason);
                Ok(Outcome::Stalled(reason))
            }
            Told::Made(step) => {
                let words = self.config.words();
                write_step(&mut self.text, test, words, number, &step)?;
                Ok(step.outcome)
            }
        }
    }

    fn end<P: Protocol>(&mut self, _machine: &Machine<'_, P>) -> Result<(), NoMemory> {
        write_end(&mut self.text, self.made)
    }
}
