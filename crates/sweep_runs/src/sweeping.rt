//! The runs of a sweep, each from the beginning of the test: on a split bus one machine with its caches makes them, on the
//! atomic bus the flat one.

ghost use Rattle.std.specs.Prelude.{◌≡◌, ◌==◌, IfOk, OnOk};
ghost use Rattle.machine_core.specs.Running.{restarted};
ghost use Rattle.tso_report.specs.Tally.{nothing_counted};
ghost use Rattle.machine_runs.specs.inner.Runs.{machine_run, AnswersFitOn};
ghost use Rattle.sweep_runs.specs.Counting.{sweep_counts, SweepAnswersFit};
ghost use Rattle.sweep_runs.specs.inner.Counting.{EachKindWith};

use crate::flat_sweep::sweep_flat;
use crate::runner::{Runner, count_runs, count_state};
use crate::stalling::Stalling;
use machine_core::{Bus, Config, Machine};
use machine_runs::drive_machine;
use protocol_tables::{Mesi, Moesi, Mosi, Msi, Protocol, ProtocolKind};
use scheduler::{Choices, SweepPlan};
use std::alloc::Global;
use tso_laws::{
    atomic_runs_are_flat_runs, attempts_lead_from_state_to_state,
    runs_on_either_bus_stop_where_they_end,
};
use tso_report::Tally;
use tso_terms::{NoMemory, Test};

/// Makes the runs of a plan, counts them in a tally that has counted nothing yet, and answers whether all ended: on the atomic bus by
/// the flat machine.
///
/// Errors: out of memory only.
pub fn sweep_into(
    alloc: Global,
    test: &Test,
    protocol: ProtocolKind,
    config: Config,
    plan: SweepPlan,
    tally: &mut Tally<'_>,
) -> Result<bool, NoMemory>
    requires test { tally.old.test ≡ test.now }
    requires nothing { tally.old.counts ≡ nothing_counted }

    ensures test { OnOk result (tally.new.test ≡ test.now) }
    ensures counts { OnOk result (tally.new.counts ≡ sweep_counts test.now protocol config plan) }
    ensures ended { IfOk result (λ b. b ≡ (tally.new.counts.unfinished == 0)) }
    ensures answers { OnOk result (SweepAnswersFit test.now protocol config plan) }
{
    match (config.bus(), protocol) {
        (Bus::Atomic, _) => sweep_flat(alloc, test, config, plan, tally),
        (Bus::Split, ProtocolKind::Msi) => sweep_on(alloc, test, Msi, config, plan, tally),
        (Bus::Split, ProtocolKind::Mesi) => sweep_on(alloc, test, Mesi, config, plan, tally),
        (Bus::Split, ProtocolKind::Moesi) => sweep_on(alloc, test, Moesi, config, plan, tally),
        (Bus::Split, ProtocolKind::Mosi) => sweep_on(alloc, test, Mosi, config, plan, tally),
    }
}

/// The same by the machine with its caches: on a split bus a run goes by their answers.
fn sweep_on<P: Protocol>(
    alloc: Global,
    test: &Test,
    protocol: P,
    config: Config,
    plan: SweepPlan,
    tally: &mut Tally<'_>,
) -> Result<bool, NoMemory>
    requires test { tally.old.test ≡ test.now }
    requires nothing { tally.old.counts ≡ nothing_counted }

    ensures test { OnOk result (tally.new.test ≡ test.now) }
    ensures counts { EachKindWith (P.table protocol) (λ kind. OnOk result (tally.new.counts ≡ sweep_counts test.now kind config plan)) }
    ensures ended { IfOk result (λ b. b ≡ (tally.new.counts.unfinished == 0)) }
    ensures answers { EachKindWith (P.table protocol) (λ kind. OnOk result (SweepAnswersFit test.now kind config plan)) }
{
    let machine = Machine::new(alloc, protocol, test, config)?;
    let mut runner = MachineRunner { alloc, machine };
    count_runs(test, &mut runner, plan, tally)
}

/// Makes runs on a machine, which goes back to the beginning of its test after each.
#[derive(Drop)]
struct MachineRunner<'a, P: Protocol> {
    alloc: Global,
    machine: Machine<'a, P>,
}

impl<'a, P: Protocol> Runner for MachineRunner<'a, P> {
    ghost runs = { λ r t. (r.machine ≡ restarted r.machine) × (r.machine.test ≡ t) };

    ghost run_of = { λ r t choices. machine_run r.machine choices };

    ghost fits = { λ r choices. AnswersFitOn r.machine choices };

    fn count_run<C: Choices>(
        &mut self,
        test: &Test,
        choices: &mut C,
        tally: &mut Tally<'_>,
    ) -> Result<bool, NoMemory> {
        attempts_lead_from_state_to_state();
        atomic_runs_are_flat_runs();
        runs_on_either_bus_stop_where_they_end();
        test.know_limits();
        drive_machine(&mut self.machine, &mut Stalling::nothing(), choices)?;
        if !self.machine.is_ended() {
            self.machine.restart();
            tally.add_unfinished();
            return Ok(false);
        }
        let state = self.machine.end_run(self.alloc)?;
        count_state(test, &state.registers, &state.memory, tally)?;
        Ok(true)
    }
}
