//! Who looks at a machine while it is driven. There is one loop that drives machines, and what is told of a run is told by its
//! observer, which makes each choice and sees the machine before it and after it. So a run of which nothing is told pays nothing.

ghost use Rattle.std.specs.Prelude.{◌≡◌, ◌<◌, ℕ, IfOk, OnOk, length};
ghost use Rattle.tso_terms.specs.FlatMachine.{chosen};
ghost use Rattle.tso_terms.specs.declared.choice.Choice.{Choice};
ghost use Rattle.machine_core.specs.Running.{Running, machine_effect, machine_after, AnswerFits};

use machine_core::{Choice, Machine, Outcome};
use protocol_tables::Protocol;
use scheduler::Stalls;
use tso_terms::NoMemory;

/// Looks at a machine while it is driven, and makes its choices.
pub trait Observer {
    // It can begin to look at this machine.
    ghost begins: { Self → Running → Type 0 };

    // What becomes of it when it begins.
    ghost opens: { Self → Running → Self → Type 0 };

    // It knows of this machine what it has to.
    ghost watches: { Self → Running → Type 0 };

    // What becomes of it at the choice with this number on a machine.
    ghost makes: { Self → Running → ℕ → Choice → Self → Type 0 };

    // What becomes of it when it ends.
    ghost ends: { Self → Running → Self → Type 0 };

    /// Looks at a machine before its first choice.
    ///
    /// Errors: out of memory only.
    fn begin<P: Protocol>(&mut self, machine: &Machine<'_, P>) -> Result<(), NoMemory>
        requires { begins self.old machine.now }
        ensures watches { OnOk result (watches self.new machine.now) }
        ensures opens { OnOk result (opens self.old machine.now self.new) };

    /// Makes the choice with this number as the machine does it; choices are numbered from 1.
    ///
    /// Errors: out of memory only.
    fn choose<P: Protocol>(
        &mut self,
        machine: &mut Machine<'_, P>,
        number: usize,
        choice: Choice,
    ) -> Result<Outcome, NoMemory>
        requires watches { watches self.old machine.old }
        requires core { chosen choice < length machine.old.test.programs }
        ensures watches { OnOk result (watches self.new machine.new) }
        ensures makes { OnOk result (makes self.old machine.old number choice self.new) }
        ensures outcome { IfOk result (λ o. o ≡ (machine_effect machine.old choice).effect.outcome) }
        ensures after { OnOk result (machine.new ≡ machine_after machine.old choice) }
        ensures answer { OnOk result (AnswerFits machine.old choice) };

    /// Looks at a machine after its last choice.
    ///
    /// Errors: out of memory only.
    fn end<P: Protocol>(&mut self, machine: &Machine<'_, P>) -> Result<(), NoMemory>
        requires { watches self.old machine.now }
        ensures { OnOk result (ends self.old machine.now self.new) };
}

/// Which choices stalled is all that is noted.
impl Observer for Stalls {
    ghost begins = { λ _ _. Unit {0} };

    ghost opens = { λ _ _ _. Unit {0} };

    ghost watches = { λ _ _. Unit {0} };

    ghost makes = { λ _ _ _ _ _. Unit {0} };

    ghost ends = { λ _ _ _. Unit {0} };

    fn begin<P: Protocol>(&mut self, _machine: &Machine<'_, P>) -> Result<(), NoMemory> {
        Ok(())
    }

    #[inline(always)]
    fn choose<P: Protocol>(
        &mut self,
        machine: &mut Machine<'_, P>,
        _number: usize,
        choice: Choice,
    ) -> Result<Outcome, NoMemory> {
        let outcome = machine.choose(choice)?;
        if let Outcome::Stalled(reason) = outcome {
            self.note(choice, reason);
        }
        Ok(outcome)
    }

    fn end<P: Protocol>(&mut self, _machine: &Machine<'_, P>) -> Result<(), NoMemory> {
        Ok(())
    }
}
