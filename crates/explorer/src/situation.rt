//! What a choice is judged by, as it stands: a state of a test, and how deep store buffers are. A core's next action and what
//! it has pending are looked up here alone.
ghost use Rattle.std.specs.Prelude.{◌≡◌, ◌<◌, ◌≤◌, ℕ, true, false, length, IfSome, Some, slice_get};
ghost use Rattle.tso_terms.specs.Actions.{action_of};
ghost use Rattle.tso_terms.specs.FlatMachine.{core_of, program_of};
ghost use Rattle.tso_terms.specs.declared.instruction.Instr.{Instr};
ghost use Rattle.tso_laws.specs.Eager.{meets};
ghost use Rattle.flat_machine.specs.State.{state_of_snapshot, core_of_processor};
ghost use Rattle.explorer.specs.inner.Coming.{AreAllComing};
ghost use Rattle.explorer.specs.inner.Picked.{IsNextAction};

use crate::coming::{Accesses, leaves_out};
use crate::meeting::Meeting;
use flat_machine::{Processor, Snapshot};
use tso_terms::{Action, Core, Entry, Instr, Test};

/// A state of a test, where each core's store buffer has this depth.
#[derive(Clone, Copy)]
pub struct Situation<'a> {
    /// How far the test has come.
    pub state: &'a Snapshot,
    /// The test whose programs the state's cores run.
    pub test: &'a Test,
    /// How many stores each core's buffer holds.
    pub depth: u8,
    /// What each core's instructions still to come do to memory, by how many they are.
    pub coming: &'a [Vec<Accesses>],
    ghost cores: { length state.now.cores.items ≡ length test.now.programs },
    ghost to_come: { AreAllComing test.now coming.now },
}

impl<'a> Situation<'a> {
    /// The core of this number.
    pub fn processor(&self, core: Core) -> &'a Processor
        requires { core.0 < length self.now.test.now.programs }
        ensures { core_of_processor result.now ≡ core_of (state_of_snapshot self.now.state.now) core.0 }
    {
        &self.state.cores[usize::from(core.0)]
    }

    /// What the core has pending, the oldest first.
    pub fn pending(&self, core: Core) -> &'a [Entry]
        requires { core.0 < length self.now.test.now.programs }
        ensures { result.now ≡ (core_of (state_of_snapshot self.now.state.now) core.0).pending }
    {
        &self.processor(core).pending
    }

    /// The core's next action, if it has one.
    pub fn next_action(&self, core: Core) -> Option<Action>
        requires { core.0 < length self.now.test.now.programs }
        ensures { IfSome result (λ action. IsNextAction self.now.test.now (state_of_snapshot self.now.state.now) core.0 action) }
    {
        let program = self.test.program(core);
        let place = usize::from(self.processor(core).place);
        if place >= program.len() {
            return None;
        }
        Some(program[place].action())
    }

    /// Whether none of the core's instructions that are to come makes such an access.
    pub fn has_none_coming(&self, core: Core, meeting: Meeting) -> bool
        requires { core.0 < length self.now.test.now.programs }
        ensures { result ≡ true → (i : ℕ) (x : Instr) → (core_of (state_of_snapshot self.now.state.now) core.0).place ≤ i
            → slice_get (program_of self.now.test.now core.0) i ≡ Some x → meets meeting.loads meeting.loc.0 (action_of x) ≡ false }
    {
        let length = self.test.program(core).len();
        let place = usize::from(self.processor(core).place);
        if place > length {
            return false;
        }
        let Some(rows) = self.coming.get(usize::from(core.0)) else {
            return false;
        };
        match rows.get(length - place) {
            Some(row) => leaves_out(row, meeting),
            None => false,
        }
    }
}
