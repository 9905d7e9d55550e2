//! The machine: a test, choices one at a time, and what is left. Its calls do little themselves; what a choice does is said
//! of its hardware. Once memory was refused to a choice the machine has failed for good, so that nobody takes a run with a gap
//! for a whole one.

ghost use Rattle.std.specs.Prelude.{◌≡◌, ◌≢◌, ◌<◌, true, false, IsTrue, IsOk, IsErr, IfOk, OnOk, OnErr, length, map};
ghost use Rattle.tso_terms.specs.FlatMachine.{chosen};
ghost use Rattle.tso_terms.specs.Together.{put_together};
ghost use Rattle.machine_core.specs.Running.{new_machine, restarted, machine_effect, machine_use, machine_after, AnswerFits};
ghost use Rattle.machine_core.specs.inner.Running.{is_ended};
ghost use Rattle.machine_core.specs.inner.Running.{IsAloneBetween, HasFailed};

use crate::ending::{FinalState, final_state};
use crate::hardware::{Hardware, are_done, begin, make_choice};
use crate::restarting::restart;
use commit_order::build;
use multiprocessor::{CacheUse, Config, Counts};
use protocol_tables::Protocol;
use std::alloc::Global;
use std::marker::Model;
use tso_laws::{
    attempts_lead_from_state_to_state, stalls_on_either_bus_change_nothing,
    what_holds_so_far_on_either_bus,
};
use tso_terms::{Choice, Execution, NoMemory, Outcome, Stall, Test};

/// What a machine leaves when its test has ended.
#[derive(Drop)]
pub struct Final {
    /// The entries in the order of their commits, but for each load part of a locked instruction, which
    /// comes directly before its store part.
    pub execution: Execution,
    /// The registers of each core, and the word of each location.
    pub state: FinalState,
    /// What the accesses of each core's cache were.
    pub counts: Vec<Counts>,
}

/// A machine that runs a test, which it borrows, one choice at a time. Its caches are kept coherent by
/// this protocol. On the atomic bus neither the protocol nor the shape of the caches has a part in what a
/// choice does but in what is counted of its accesses; on a split bus an access that hits needs no bus.
pub struct Machine<'a, P: Protocol> {
    pub(crate) test: &'a Test,
    pub(crate) hardware: Hardware<P>,
    failed: bool,
}

impl<'a, P: Protocol> Model for Machine<'a, P> {
    ghost use Rattle.std.specs.Coded.{codes};
    ghost use Rattle.tso_terms.specs.inner.ConditionCode.{claim_code};
    ghost use Rattle.machine_core.specs.Running.{Running};

    ghost Value = { Running };

    ghost coded = { Prim.hlevel (codes, claim_code) };

    ghost use Rattle.machine_core.specs.inner.Machine.{running_of, IsMachine};

    ghost view = { λ m. running_of m.test.now m.hardware m.failed };

    ghost invariant = { λ m. IsMachine m.test.now m.hardware };
}

impl<'a, P: Protocol> Machine<'a, P> {
    /// A machine at the beginning of the test: each core before its first instruction with its first
    /// registers and nothing pending, memory with the test's first words, the caches empty, the bus held
    /// by nobody, and nothing committed or counted.
    ///
    /// Errors: out of memory only.
    pub fn new(alloc: Global, protocol: P, test: &'a Test, config: Config) -> Result<Self, NoMemory>
        ensures { IfOk result (λ m. m ≡ new_machine (P.table protocol) config test.now) }
    {
        attempts_lead_from_state_to_state();
        let hardware = begin(alloc, protocol, test, config)?;
        Ok(Machine {
            test,
            hardware,
            failed: false,
        })
    }

    /// Makes a choice, counts what it had to do with the caches, and answers what it did. A stall
    /// changes nothing. On a split bus a choice that needs the bus asks for it first, and the same choice
    /// completes it later; an access is counted when it is completed.
    ///
    /// Errors: out of memory only, which a choice takes only where it commits; then the machine
    /// has failed, and each later call fails as well.
    #[inline(always)]
    pub fn choose(&mut self, choice: Choice) -> Result<Outcome, NoMemory>
        requires { chosen choice < length self.old.test.programs }

        ensures outcome { IfOk result (λ o. o ≡ (machine_effect self.old choice).effect.outcome) }
        ensures after { OnOk result (self.new ≡ machine_after self.old choice) }
        ensures stall { (why : Stall) → result ≡ Ok (Outcome.Stalled why) → self.new ≡ self.old }

        // Between the two parts of a locked instruction no write of another core to its location hits.
        ensures answer { OnOk result (AnswerFits self.old choice) }

        // And no other core has its line then.
        ensures alone { OnOk result (IsAloneBetween self.new) }

        // Only a choice that commits takes memory, and a machine that was refused it stays so.
        ensures succeeds { self.old.failed ≡ false → (machine_effect self.old choice).effect.outcome ≢ Outcome.Committed → IsOk result }
        ensures refused { OnErr result (HasFailed self.old self.new) }
        ensures stays_refused { self.old.failed ≡ true → IsErr result }
    {
        let (outcome, _) = self.choose_telling(choice)?;
        Ok(outcome)
    }

    /// Makes a choice as `choose` does, and tells beside its outcome what it had to do with the caches.
    ///
    /// Errors: out of memory only, which a choice takes only where it commits; then the machine
    /// has failed, and each later call fails as well.
    #[inline(always)]
    pub fn choose_telling(&mut self, choice: Choice) -> Result<(Outcome, CacheUse), NoMemory>
        requires { chosen choice < length self.old.test.programs }

        ensures outcome { IfOk result (λ r. r.0 ≡ (machine_effect self.old choice).effect.outcome) }
        ensures how { IfOk result (λ r. r.1 ≡ (machine_use self.old choice).how) }
        ensures after { OnOk result (self.new ≡ machine_after self.old choice) }
        ensures stall { (why : Stall) (how : CacheUse) → result ≡ Ok (Outcome.Stalled why, how) → self.new ≡ self.old }

        // Between the two parts of a locked instruction no write of another core to its location hits.
        ensures answer { OnOk result (AnswerFits self.old choice) }

        // And no other core has its line then.
        ensures alone { OnOk result (IsAloneBetween self.new) }

        // Only a choice that commits takes memory, and a machine that was refused it stays so.
        ensures succeeds { self.old.failed ≡ false → (machine_effect self.old choice).effect.outcome ≢ Outcome.Committed → IsOk result }
        ensures refused { OnErr result (HasFailed self.old self.new) }
        ensures stays_refused { self.old.failed ≡ true → IsErr result }
    {
        attempts_lead_from_state_to_state();
        what_holds_so_far_on_either_bus();
        stalls_on_either_bus_change_nothing();
        if self.failed {
            return Err(NoMemory);
        }
        let made = make_choice(&mut self.hardware, self.test, choice);
        self.failed = made.is_err();
        // Who holds the bus between the two parts of a locked instruction has its line alone.
        let _holder = self.hardware.bus.who_holds();
        made
    }

    /// Whether the test has ended: each core is at the end of its program with nothing pending, and
    /// memory was never refused.
    pub fn is_ended(&self) -> bool
        ensures { result ≡ is_ended self.now }
    {
        !self.failed && are_done(&self.hardware, self.test)
    }

    /// Goes back to the beginning of the test: the machine is as `new` made it. It keeps its room, and no memory
    /// is taken.
    pub fn restart(&mut self)
        ensures { self.new ≡ restarted self.old }
    {
        attempts_lead_from_state_to_state();
        restart(&mut self.hardware, self.test);
        self.failed = false;
    }

    /// Answers the final state, and goes back to the beginning of the test as `restart` does.
    ///
    /// Errors: out of memory only; the machine has gone back then too.
    pub fn end_run(&mut self, alloc: Global) -> Result<FinalState, NoMemory>
        requires { IsTrue (is_ended self.old) }

        ensures registers { IfOk result (λ f. f.registers.items ≡ map (λ c. c.registers) self.old.state.flat.cores) }
        ensures memory { IfOk result (λ f. f.memory.items ≡ self.old.state.flat.memory) }
        ensures restarted { self.new ≡ restarted self.old }

        // As many registers as the test has cores, and as many words as it has locations.
        ensures cores { IfOk result (λ f. length f.registers.items ≡ length self.old.test.programs) }
        ensures locations { IfOk result (λ f. length f.memory.items ≡ length self.old.test.locations) }
    {
        what_holds_so_far_on_either_bus();
        attempts_lead_from_state_to_state();
        let state = final_state(alloc, &mut self.hardware, self.test);
        restart(&mut self.hardware, self.test);
        self.failed = false;
        state
    }

    /// Gives up the machine for what it leaves.
    ///
    /// Errors: out of memory only.
    pub fn finish(self, alloc: Global) -> Result<Final, NoMemory>
        requires { IsTrue (is_ended self) }

        ensures order { IfOk result (λ f. f.execution.order.items ≡ put_together self.entry.commits) }
        ensures registers { IfOk result (λ f. f.state.registers.items ≡ map (λ c. c.registers) self.entry.state.flat.cores) }
        ensures memory { IfOk result (λ f. f.state.memory.items ≡ self.entry.state.flat.memory) }
        ensures counts { IfOk result (λ f. f.counts.items ≡ self.entry.statistics.counts) }

        // As many registers as the test has cores, and as many words as it has locations.
        ensures cores { IfOk result (λ f. length f.state.registers.items ≡ length self.entry.test.programs) }
        ensures locations { IfOk result (λ f. length f.state.memory.items ≡ length self.entry.test.locations) }
    {
        what_holds_so_far_on_either_bus();
        let Machine {
            test,
            mut hardware,
            failed: _,
        } = self;
        let execution = build(alloc, &hardware.commits)?;
        let state = final_state(alloc, &mut hardware, test)?;
        Ok(Final {
            execution,
            state,
            counts: hardware.counts,
        })
    }
}

// Said by hand, so that who lets a machine go makes one call, and not one for each part.
impl<'a, P: Protocol> Drop for Machine<'a, P> {
    fn drop(self) {
        let Machine {
            test: _,
            hardware: _hardware,
            failed: _,
        } = self;
    }
}
