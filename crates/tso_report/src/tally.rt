//! What a sweep says of its runs: the tally of them, and its text. It grows with the states that were seen, and not with
//! the runs.

ghost use Rattle.std.specs.Prelude.{◌≡◌, ◌+◌, ◌<◌, ◌^◌, ◌-◌, true, IfOk, OnOk, OnErr, length, string_bytes, is_some};
ghost use Rattle.tso_report.specs.Shown.{shown_run};
ghost use Rattle.tso_report.specs.Tally.{nothing_counted, with_unfinished, runs_in, ended_in, tally_text};
ghost use Rattle.tso_report.specs.inner.Tally.{with_run, with_ended};

use crate::counters::{Counters, count_ended};
use crate::named::{Named, looked_at, values_at};
use crate::run::Run;
use crate::tally_text::{write_observation, write_states, write_sweep};
use std::alloc::Global;
use std::collections::BTreeMap;
use std::marker::Model;
use tso_terms::{NoMemory, Test};

/// What is counted of the runs of one test, which it borrows: how many ended with each list of values of
/// what the condition names (or of all locations, where there is no condition), how many of these made
/// the condition's proposition true and false, and how many didn't end.
#[derive(Drop)]
pub struct Tally<'a> {
    test: &'a Test,
    names: Vec<Named>,
    counters: Counters,
    alloc: Global,
}

impl<'a> Model for Tally<'a> {
    ghost use Rattle.std.specs.Coded.{codes};
    ghost use Rattle.tso_terms.specs.inner.ConditionCode.{claim_code};
    ghost use Rattle.tso_report.specs.inner.Tally.{Tallied};

    ghost Value = { Tallied };

    ghost coded = { Prim.hlevel (codes, claim_code) };

    ghost use Rattle.std.specs.Prelude.{◌≡◌, is_some};
    ghost use Rattle.tso_report.specs.Tally.{looked_at};
    ghost use Rattle.tso_report.specs.inner.Counted.{counts_in, IsKept};

    ghost view = { λ m. record { test = m.test.now; counts = counts_in m.counters } };

    ghost invariant = { λ m. (m.names.items ≡ looked_at m.test.now) × IsKept (is_some m.test.now.condition) m.counters };
}

impl<'a> Tally<'a> {
    /// A tally of the test in which nothing is counted.
    ///
    /// Errors: out of memory only.
    pub fn new(alloc: Global, test: &'a Test) -> Result<Self, NoMemory>
        ensures { IfOk result (λ tally. tally ≡ record { test = test.now; counts = nothing_counted }) }
    {
        let names = looked_at(alloc, test)?;
        let counters = Counters {
            states: BTreeMap::new(alloc),
            ended: 0,
            held: 0,
            failed: 0,
            unfinished: 0,
        };
        Ok(Tally {
            test,
            names,
            counters,
            alloc,
        })
    }

    /// Counts a run of the test that ended. Of the run its registers, its memory and its verdict are looked at.
    ///
    /// Errors: out of memory only; then nothing has changed.
    pub fn add(&mut self, run: &Run) -> Result<(), NoMemory>
        requires registers { length (shown_run run.now).registers ≡ length self.old.test.programs }
        requires memory { length (shown_run run.now).memory ≡ length self.old.test.locations }
        requires verdict { is_some (shown_run run.now).holds ≡ is_some self.old.test.condition }
        requires room { runs_in self.old.counts < 2 ^ 32 - 1 }

        ensures counts { OnOk result (self.new.counts ≡ with_run self.old.test (shown_run run.now) self.old.counts) }
        ensures test { self.new.test ≡ self.old.test }
        ensures refused { OnErr result (self.new ≡ self.old) }
    {
        self.add_state(&run.left.state.registers, &run.left.state.memory, run.holds)
    }

    /// Counts a run of the test that ended in this state, with this truth of the condition's proposition.
    ///
    /// Errors: out of memory only; then nothing has changed.
    pub fn add_state(
        &mut self,
        registers: &[[u32; 6]],
        memory: &[u32],
        holds: Option<bool>,
    ) -> Result<(), NoMemory>
        requires registers { length registers.now ≡ length self.old.test.programs }
        requires memory { length memory.now ≡ length self.old.test.locations }
        requires verdict { is_some holds ≡ is_some self.old.test.condition }
        requires room { runs_in self.old.counts < 2 ^ 32 - 1 }

        ensures counts { OnOk result (self.new.counts ≡ with_ended self.old.test registers.now memory.now holds self.old.counts) }
        ensures test { self.new.test ≡ self.old.test }
        ensures refused { OnErr result (self.new ≡ self.old) }
    {
        let values = values_at(self.alloc, &self.names, registers, memory)?;
        count_ended(&mut self.counters, values, holds)
    }

    /// Counts a run of the test that didn't end.
    pub fn add_unfinished(&mut self)
        requires { runs_in self.old.counts < 2 ^ 32 - 1 }

        ensures counts { self.new.counts ≡ with_unfinished self.old.counts }
        ensures test { self.new.test ≡ self.old.test }
    {
        self.counters.unfinished += 1;
    }

    /// How many runs were counted, those that ended and those that didn't.
    pub fn count(&self) -> u32
        ensures runs { result ≡ runs_in self.now.counts }

        // With a condition, each run that ended made its proposition true or false.
        ensures verdicts { is_some self.now.test.condition ≡ true
            → self.now.counts.held + self.now.counts.failed ≡ ended_in self.now.counts }
    {
        self.counters.ended + self.counters.unfinished
    }

    /// How many of the runs ended.
    pub fn ended(&self) -> u32
        ensures { result ≡ ended_in self.now.counts }
    {
        self.counters.ended
    }

    /// In how many of the runs that ended the condition's proposition was true.
    pub fn held(&self) -> u32
        ensures { result ≡ self.now.counts.held }
    {
        self.counters.held
    }

    /// The text of the counts: a line of the sweep; a line for each list of values, in ascending order; and,
    /// where the test has a condition, a line on how often its proposition was true and false. `from` is
    /// the number of the first run, and `length` how many choices each run was given.
    ///
    /// Errors: out of memory only.
    pub fn text(&self, alloc: Global, from: u32, length: u32) -> Result<String, NoMemory>
        ensures { IfOk result (λ text. string_bytes text ≡ tally_text self.now.test self.now.counts from length) }
    {
        let mut text = String::new(alloc);
        let (ended, unfinished) = (self.counters.ended, self.counters.unfinished);
        write_sweep(&mut text, ended, unfinished, from, length)?;
        write_states(&mut text, self.test, &self.names, &self.counters)?;
        write_observation(&mut text, self.test, &self.counters)?;
        Ok(text)
    }
}
