//! Which choices of a run stalled since its machine last changed. Most choices of a run on a split bus stall, since another core
//! holds the bus, and a stall changes nothing: until another choice is made it stalls again. So a sweep needn't ask the machine again.

ghost use Rattle.std.specs.Prelude.{◌≡◌, ◌<◌, None};
ghost use Rattle.tso_terms.specs.Limits.{most_cores};
ghost use Rattle.tso_terms.specs.FlatMachine.{chosen};
ghost use Rattle.sweep_runs.specs.inner.Stalling.{place_of_choice, reason_at, noted_at, KnowsMachine};

use machine_core::Machine;
use machine_runs::Observer;
use protocol_tables::Protocol;
use tso_terms::limits::MAX_CORES;
use tso_terms::{Choice, NoMemory, Outcome, Stall};

/// How many choices there are at each moment: a step and a drain of each core.
const CHOICES: usize = 2 * MAX_CORES;

/// Why choices stalled since the machine last changed, each at its [place](place_of_choice).
#[derive(Drop)]
pub(crate) struct Stalling {
    reasons: [Option<Stall>; CHOICES],
}

impl Stalling {
    /// No choice stalled.
    pub(crate) fn nothing() -> Self
        ensures { (choice : Choice) → reason_at choice result ≡ None }
    {
        Stalling {
            reasons: [None; CHOICES],
        }
    }

    /// Why this choice stalled, if it did.
    #[inline(always)]
    fn reason(&self, choice: Choice) -> Option<Stall>
        requires { chosen choice < most_cores }
        ensures { result ≡ reason_at choice self.now }
    {
        self.reasons[place_of_choice(choice)]
    }

    /// This choice stalled for this reason.
    #[inline(always)]
    fn note(&mut self, choice: Choice, reason: Stall)
        requires { chosen choice < most_cores }
        ensures { self.new ≡ noted_at choice reason self.old }
    {
        self.reasons[place_of_choice(choice)] = Some(reason);
    }
}

/// The place of a choice: twice its core, and 1 more for a drain.
fn place_of_choice(choice: Choice) -> usize
    ensures { result ≡ place_of_choice choice }
{
    match choice {
        Choice::Step(core) => 2 * usize::from(core.0),
        Choice::Drain(core) => 2 * usize::from(core.0) + 1,
    }
}

impl Observer for Stalling {
    ghost begins = { λ o m. KnowsMachine o m };

    ghost opens = { λ _ _ _. Unit {0} };

    ghost watches = { λ o m. KnowsMachine o m };

    ghost makes = { λ _ _ _ _ _. Unit {0} };

    ghost ends = { λ _ _ _. Unit {0} };

    fn begin<P: Protocol>(&mut self, _machine: &Machine<'_, P>) -> Result<(), NoMemory> {
        Ok(())
    }

    #[inline(always)]
    fn choose<P: Protocol>(
        &mut self,
        machine: &mut Machine<'_, P>,
        _number: usize,
        choice: Choice,
    ) -> Result<Outcome, NoMemory> {
        if let Some(reason) = self.reason(choice) {
            return Ok(Outcome::Stalled(reason));
        }
        let outcome = machine.choose(choice)?;
        match outcome {
            Outcome::Stalled(reason) => self.note(choice, reason),
            Outcome::Committed | Outcome::Buffered | Outcome::Moved | Outcome::Asked => {
                *self = Stalling::nothing();
            }
        }
        Ok(outcome)
    }

    fn end<P: Protocol>(&mut self, _machine: &Machine<'_, P>) -> Result<(), NoMemory> {
        Ok(())
    }
}
