//! A run whose trace is kept as a value, or its last step alone: it is made by an observer of the run, while the run is made.

ghost use Rattle.std.specs.Prelude.{◌≡◌, ◌≤◌, IfOk, None, OnOk, length, map, option_map};
ghost use Rattle.serde_json.specs.Data.{array};
ghost use Rattle.serde_json.specs.View.{items_of, view};
ghost use Rattle.tso_terms.specs.Runs.{CoresExist};
ghost use Rattle.machine_runs.specs.Runs.{run_under, counts_under, AnswersFit};
ghost use Rattle.machine_runs.specs.Simulation.{IsEndingOf, FitsEnding, HasCounts};
ghost use Rattle.trace_report.specs.MachineJson.{machine_json};
ghost use Rattle.trace_report.specs.TraceJson.{last_step_json, trace_json};
ghost use Rattle.trace_report.specs.TracedRun.{most_steps};
ghost use Rattle.trace_report.specs.inner.Looked.{sourced, told_last, trace_with};
ghost use Rattle.trace_report.specs.inner.Following.{CanFollow, Follows};
ghost use Rattle.trace_report.specs.inner.Observing.{KnowsLast, MakesStep, OpensTrace, told_by, told_under};

use crate::Step;
use crate::following::Follower;
use crate::limited::Limited;
use crate::told_runs::traces_tell_their_runs;
use machine_core::{Choice, Machine, Outcome};
use machine_runs::{Ending, Observer, Setup, simulate_observed};
use protocol_tables::Protocol;
use scheduler::Stalls;
use serde_json::Value;
use std::alloc::Global;
use std::mem::replace;
use tso_report::members::push_made;
use tso_report::objects::Object;
use tso_terms::NoMemory;

/// How a run left its test, what is told of it as a value, and which choices stalled.
#[derive(Drop)]
pub struct TracedRun {
    /// How it left its test.
    pub ending: Ending,
    /// What is told of it, where it used no more than [`MAX_STEPS`](crate::MAX_STEPS) choices.
    pub told: Value,
    /// Which choices stalled.
    pub stalls: Stalls,
}

/// Runs a test under these choices, on a machine of this protocol and configuration, and keeps its trace: an object of the
/// machine before the first choice, and of a step for each choice up to the first moment at which the test has
/// ended, with the machine after it.
///
/// Errors: out of memory only.
pub fn simulate_tracing(
    alloc: Global,
    setup: &Setup<'_>,
    choices: &[Choice],
) -> Result<TracedRun, NoMemory>
    requires { CoresExist (length setup.now.test.now.programs) choices.now }
    ensures told { IfOk result (λ r. (run_under setup.now.test.now setup.now.protocol setup.now.config choices.now).used ≤ most_steps
        → view r.told ≡ trace_json setup.now.test.now setup.now.protocol setup.now.config choices.now) }
    ensures ending { IfOk result (λ r. IsEndingOf setup.now.test.now (run_under setup.now.test.now setup.now.protocol setup.now.config choices.now) r.ending) }
    ensures fits { IfOk result (λ r. FitsEnding setup.now.test.now r.ending) }
    ensures answers { OnOk result (AnswersFit setup.now.test.now setup.now.protocol setup.now.config choices.now) }
    ensures counts { IfOk result (λ r. HasCounts (counts_under setup.now.test.now setup.now.protocol setup.now.config choices.now) r.ending) }
{
    simulate_telling(alloc, setup, choices, Extent::Whole)
}

/// Runs a test under these choices as [`simulate_tracing`] does, and keeps of its trace the last step alone; where no choice
/// was used, the machine before the first choice.
///
/// Errors: out of memory only.
pub fn simulate_telling_last(
    alloc: Global,
    setup: &Setup<'_>,
    choices: &[Choice],
) -> Result<TracedRun, NoMemory>
    requires { CoresExist (length setup.now.test.now.programs) choices.now }
    ensures told { IfOk result (λ r. (run_under setup.now.test.now setup.now.protocol setup.now.config choices.now).used ≤ most_steps
        → view r.told ≡ last_step_json setup.now.test.now setup.now.protocol setup.now.config choices.now) }
    ensures ending { IfOk result (λ r. IsEndingOf setup.now.test.now (run_under setup.now.test.now setup.now.protocol setup.now.config choices.now) r.ending) }
    ensures answers { OnOk result (AnswersFit setup.now.test.now setup.now.protocol setup.now.config choices.now) }
{
    simulate_telling(alloc, setup, choices, Extent::LastStep)
}

/// How much is told of a run.
#[derive(Clone, Copy)]
enum Extent {
    /// The machine before the first choice, and each step.
    Whole,
    /// The last step alone; where there is none, the machine.
    LastStep,
}

/// Runs a test under these choices, and keeps so much of its trace.
fn simulate_telling(
    alloc: Global,
    setup: &Setup<'_>,
    choices: &[Choice],
    extent: Extent,
) -> Result<TracedRun, NoMemory>
    requires { CoresExist (length setup.now.test.now.programs) choices.now }
    ensures told { IfOk result (λ r. (run_under setup.now.test.now setup.now.protocol setup.now.config choices.now).used ≤ most_steps
        → view r.told ≡ told_under extent setup.now.test.now setup.now.protocol setup.now.config choices.now) }
    ensures ending { IfOk result (λ r. IsEndingOf setup.now.test.now (run_under setup.now.test.now setup.now.protocol setup.now.config choices.now) r.ending) }
    ensures fits { IfOk result (λ r. FitsEnding setup.now.test.now r.ending) }
    ensures answers { OnOk result (AnswersFit setup.now.test.now setup.now.protocol setup.now.config choices.now) }
    ensures counts { IfOk result (λ r. HasCounts (counts_under setup.now.test.now setup.now.protocol setup.now.config choices.now) r.ending) }
{
    traces_tell_their_runs();
    let follower = Follower::new(alloc, setup.test, setup.config)?;
    let mut limited = Limited::new(Tracer {
        follower,
        extent,
        told: Value::Null,
        steps: Vec::new(alloc),
        last: None,
    });
    let ending = simulate_observed(alloc, setup, choices, &mut limited)?;
    let told = replace(&mut limited.observer.told, Value::Null);
    Ok(TracedRun {
        ending,
        told,
        stalls: limited.stalls,
    })
}

/// Keeps what a run is to be told by, and makes a value of it at the end.
struct Tracer<'t> {
    follower: Follower<'t>,
    extent: Extent,
    /// What is told, once the run is over. Until then it is the machine before the first choice, where all is told.
    told: Value,
    /// The steps, where all are told.
    steps: Vec<Value>,
    /// What the last choice did.
    last: Option<Step>,
}

// Said by hand, so that who lets it go makes one call, and not one for each part.
impl<'t> Drop for Tracer<'t> {
    fn drop(self) {
        let Tracer {
            follower: _follower,
            told: _told,
            steps: _steps,
            last: _last,
            extent: _,
        } = self;
    }
}

impl<'t> Observer for Tracer<'t> {
    ghost begins = { λ o m. CanFollow o.follower m × (o.last ≡ None) };

    ghost opens = { OpensTrace };

    ghost watches = { λ o m. Follows o.follower m × KnowsLast o };

    ghost makes = { MakesStep };

    ghost ends = { λ o m n. view n.told ≡ told_by o m };

    fn begin<P: Protocol>(&mut self, machine: &Machine<'_, P>) -> Result<(), NoMemory> {
        self.follower.begin(machine)?;
        match self.extent {
            Extent::Whole => {
                self.told = self.follower.machine(machine)?;
                Ok(())
            }
            Extent::LastStep => Ok(()),
        }
    }

    fn choose<P: Protocol>(
        &mut self,
        machine: &mut Machine<'_, P>,
        _number: usize,
        choice: Choice,
    ) -> Result<Outcome, NoMemory> {
        let told = self.follower.tell(machine, choice)?;
        let outcome = told.outcome;
        match self.extent {
            Extent::Whole => push_made(&mut self.steps, self.follower.step_to(machine, &told))?,
            Extent::LastStep => {}
        }
        self.last = Some(told);
        Ok(outcome)
    }

    fn end<P: Protocol>(&mut self, machine: &Machine<'_, P>) -> Result<(), NoMemory> {
        let told = match self.extent {
            Extent::Whole => self.trace(),
            Extent::LastStep => self.last(machine),
        };
        self.told = told?;
        Ok(())
    }
}

impl<'t> Tracer<'t> {
    /// The trace, of the machine before the first choice and the steps. It takes both.
    fn trace(&mut self) -> Result<Value, NoMemory>
        ensures { IfOk result (λ value. view value ≡ trace_with (view self.old.told) (array (items_of (map view self.old.steps.items)))) }
    {
        let alloc = self.follower.alloc;
        let start = replace(&mut self.told, Value::Null);
        let steps = replace(&mut self.steps, Vec::new(alloc));
        Object::new(alloc)
            .member("start", Ok(start))
            .member("steps", Ok(Value::Array(steps)))
            .value()
    }

    /// What is told last of the machine as it now is.
    fn last<P: Protocol>(&self, machine: &Machine<'_, P>) -> Result<Value, NoMemory>
        requires follows { Follows self.now.follower machine.now }
        requires known { KnowsLast self.now }
        ensures { IfOk result (λ value. view value ≡ told_last (option_map sourced self.now.last) machine.now self.now.follower.memory.items) }
    {
        match &self.last {
            Some(told) => self.follower.step_to(machine, told),
            None => Object::new(self.follower.alloc)
                .member("start", self.follower.machine(machine))
                .value(),
        }
    }
}
