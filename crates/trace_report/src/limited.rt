//! An observer to which the first choices of a run alone are shown: what a trace as JSON tells is limited, and a run is made
//! once, before it is known how long it is.

ghost use Rattle.std.specs.Prelude.{◌≡◌, false};
ghost use Rattle.trace_report.specs.inner.Limited.{ShowsStep};

use crate::traced_run::MAX_STEPS;
use machine_core::{Choice, Machine, Outcome};
use machine_runs::Observer;
use protocol_tables::Protocol;
use scheduler::Stalls;
use tso_terms::NoMemory;

/// Shows an observer as many choices as a trace as JSON may have steps, and makes the others without it. Which choices
/// stalled is noted of all.
#[derive(Drop)]
pub(crate) struct Limited<O: Observer> {
    pub(crate) observer: O,
    /// Whether more choices were made than the observer was shown.
    is_passed: bool,
    pub(crate) stalls: Stalls,
}

impl<O: Observer> Limited<O> {
    /// An observer to which no choice was shown yet.
    pub(crate) fn new(observer: O) -> Self
        ensures observer { result.observer ≡ observer }
        ensures unpassed { result.is_passed ≡ false }
    {
        Limited {
            observer,
            is_passed: false,
            stalls: Stalls::none(),
        }
    }
}

impl<O: Observer> Observer for Limited<O> {
    ghost begins = { λ o m. O.begins o.observer m };

    ghost opens = { λ o m n. (n.is_passed ≡ o.is_passed) × O.opens o.observer m n.observer };

    ghost watches = { λ o m. o.is_passed ≡ false → O.watches o.observer m };

    ghost makes = { λ o m number c n. ShowsStep O.makes o.is_passed o.observer m number c n.is_passed n.observer };

    ghost ends = { λ o m n. o.is_passed ≡ false → O.ends o.observer m n.observer };

    fn begin<P: Protocol>(&mut self, machine: &Machine<'_, P>) -> Result<(), NoMemory> {
        self.observer.begin(machine)
    }

    fn choose<P: Protocol>(
        &mut self,
        machine: &mut Machine<'_, P>,
        number: usize,
        choice: Choice,
    ) -> Result<Outcome, NoMemory> {
        self.is_passed |= number > MAX_STEPS;
        let made = if self.is_passed {
            machine.choose(choice)
        } else {
            self.observer.choose(machine, number, choice)
        };
        let outcome = made?;
        if let Outcome::Stalled(reason) = outcome {
            self.stalls.note(choice, reason);
        }
        Ok(outcome)
    }

    fn end<P: Protocol>(&mut self, machine: &Machine<'_, P>) -> Result<(), NoMemory> {
        if self.is_passed {
            Ok(())
        } else {
            self.observer.end(machine)
        }
    }
}
