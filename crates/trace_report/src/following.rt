//! One who follows a machine along its choices: what the machine's lines are in, and memory's own words.

ghost use Rattle.std.specs.Prelude.{◌≡◌, ◌<◌, IfOk, OnOk, length};
ghost use Rattle.serde_json.specs.View.{view};
ghost use Rattle.tso_terms.specs.FlatMachine.{chosen};
ghost use Rattle.protocol_tables.specs.Tables.{Table};
ghost use Rattle.machine_core.specs.Running.{new_machine, machine_effect, machine_after, AnswerFits};
ghost use Rattle.trace_report.specs.Shown.{shown_step};
ghost use Rattle.trace_report.specs.Known.{StepNamesExist};
ghost use Rattle.trace_report.specs.TraceJson.{sourced_by, step_to};
ghost use Rattle.trace_report.specs.OwnWords.{own_words};
ghost use Rattle.trace_report.specs.MachineJson.{machine_json};
ghost use Rattle.trace_report.specs.inner.Looked.{sourced};
ghost use Rattle.trace_report.specs.inner.Following.{CanFollow, Follows};

use crate::Step;
use crate::machine_as_json::machine_value;
use crate::moment::Moment;
use crate::own_words::follow_words;
use crate::states::{PlacedState, states_of};
use crate::step_as_json::step_value;
use crate::telling::tell;
use machine_core::{Choice, Config, Machine};
use protocol_tables::Protocol;
use serde_json::Value;
use std::alloc::Global;
use tso_terms::{NoMemory, Test};

/// Follows a machine.
pub(crate) struct Follower<'t> {
    pub(crate) alloc: Global,
    test: &'t Test,
    config: Config,
    /// What the machine's lines are in.
    states: Vec<PlacedState>,
    /// Memory's own words.
    memory: Vec<u32>,
}

// Said by hand, so that who lets it go makes one call, and not one for each part.
impl<'t> Drop for Follower<'t> {
    fn drop(self) {
        let Follower {
            states: _states,
            memory: _memory,
            alloc: _,
            test: _,
            config: _,
        } = self;
    }
}

impl<'t> Follower<'t> {
    /// One who is to follow a machine from the beginning of this test on.
    pub(crate) fn new(alloc: Global, test: &'t Test, config: Config) -> Result<Self, NoMemory>
        ensures can { (table : Table) → IfOk result (λ f. CanFollow f (new_machine table config test.now)) }
        ensures memory { IfOk result (λ f. f.memory.items ≡ test.now.words) }
    {
        test.know_limits();
        let memory = Vec::from_slice(alloc, test.initial_words())?;
        Ok(Follower {
            alloc,
            test,
            config,
            states: Vec::new(alloc),
            memory,
        })
    }

    /// Looks at a machine before its first choice.
    pub(crate) fn begin<P: Protocol>(&mut self, machine: &Machine<'_, P>) -> Result<(), NoMemory>
        requires { CanFollow self.old machine.now }
        ensures follows { OnOk result (Follows self.new machine.now) }
        ensures memory { OnOk result (self.new.memory.items ≡ self.old.memory.items) }
    {
        self.states = states_of(self.alloc, machine, self.test, self.config.words())?;
        Ok(())
    }

    /// Makes a choice on the machine, and answers what it did.
    pub(crate) fn tell<P: Protocol>(
        &mut self,
        machine: &mut Machine<'_, P>,
        choice: Choice,
    ) -> Result<Step, NoMemory>
        requires follows { Follows self.old machine.old }
        requires core { chosen choice < length machine.old.test.programs }
        ensures step { IfOk result (λ told. sourced told ≡ sourced_by machine.old choice) }
        ensures known { IfOk result (λ told. StepNamesExist self.new.test.now self.new.config.shape.words (shown_step told)) }
        ensures outcome { IfOk result (λ told. told.outcome ≡ (machine_effect machine.old choice).effect.outcome) }
        ensures after { OnOk result (machine.new ≡ machine_after machine.old choice) }
        ensures answer { OnOk result (AnswerFits machine.old choice) }
        ensures follows { OnOk result (Follows self.new machine.new) }
        ensures memory { OnOk result (self.new.memory.items ≡ own_words machine.new self.old.memory.items) }
    {
        let alloc = self.alloc;
        let test = self.test;
        let words = self.config.words();
        let step = tell(alloc, machine, &mut self.states, test, self.config, choice)?;
        follow_words(machine, test, words, &mut self.memory);
        Ok(step)
    }

    /// What a choice did, and the machine after it.
    pub(crate) fn step_to<P: Protocol>(
        &self,
        machine: &Machine<'_, P>,
        told: &Step,
    ) -> Result<Value, NoMemory>
        requires follows { Follows self.now machine.now }
        requires known { StepNamesExist self.now.test.now self.now.config.shape.words (shown_step told.now) }
        ensures { IfOk result (λ value. view value ≡ step_to (sourced told.now) machine.now self.now.memory.items) }
    {
        let words = self.config.words();
        let after = self.machine(machine);
        step_value(self.alloc, self.test, words, told, after)
    }

    /// The machine as it now is.
    pub(crate) fn machine<P: Protocol>(&self, machine: &Machine<'_, P>) -> Result<Value, NoMemory>
        requires { Follows self.now machine.now }
        ensures { IfOk result (λ value. view value ≡ machine_json machine.now self.now.memory.items) }
    {
        let moment = Moment {
            machine,
            test: self.test,
            config: self.config,
            memory: &self.memory,
        };
        machine_value(self.alloc, &moment)
    }
}
