//! The runs of a sweep on the atomic bus. Caches have no part in what such a run leaves, whatever the protocol and their
//! shape, and of a run a sweep keeps nothing else: so its runs are made on the flat machine, which has none.

ghost use Rattle.std.specs.Prelude.{◌≡◌, ◌==◌, IfOk, OnOk, length};
ghost use Rattle.tso_terms.specs.FlatMachine.{start};
ghost use Rattle.tso_terms.specs.Runs.{run};
ghost use Rattle.protocol_tables.specs.declared.kind.ProtocolKind.{ProtocolKind};
ghost use Rattle.flat_machine.specs.State.{state_of_snapshot};
ghost use Rattle.tso_report.specs.Tally.{nothing_counted};
ghost use Rattle.sweep_runs.specs.Counting.{sweep_counts, SweepAnswersFit};

use crate::runner::{Runner, count_runs, count_state};
use flat_machine::{Snapshot, drive, overwrite, start, write_registers};
use machine_core::{Bus, Config};
use scheduler::{Choices, SweepPlan};
use std::alloc::Global;
use tso_report::Tally;
use tso_terms::{NoMemory, Test};

/// Makes the runs of a plan on the flat machine, counts them in a tally that has counted nothing yet, and answers whether all ended.
///
/// Errors: out of memory only.
pub(crate) fn sweep_flat(
    alloc: Global,
    test: &Test,
    config: Config,
    plan: SweepPlan,
    tally: &mut Tally<'_>,
) -> Result<bool, NoMemory>
    requires bus { config.bus ≡ Bus.Atomic }
    requires test { tally.old.test ≡ test.now }
    requires nothing { tally.old.counts ≡ nothing_counted }

    ensures test { OnOk result (tally.new.test ≡ test.now) }
    ensures counts { OnOk result ((kind : ProtocolKind) → tally.new.counts ≡ sweep_counts test.now kind config plan) }
    ensures ended { IfOk result (λ b. b ≡ (tally.new.counts.unfinished == 0)) }
    ensures answers { OnOk result ((kind : ProtocolKind) → SweepAnswersFit test.now kind config plan) }
{
    let mut runner = FlatRunner {
        depth: config.depth(),
        first: start(alloc, test)?,
        state: start(alloc, test)?,
        registers: Vec::new(alloc),
    };
    count_runs(test, &mut runner, plan, tally)
}

/// Makes runs on the flat machine.
#[derive(Drop)]
struct FlatRunner {
    depth: u8,
    first: Snapshot,
    /// A run is made here.
    state: Snapshot,
    /// Its final registers are written here.
    registers: Vec<[u32; 6]>,
}

impl Runner for FlatRunner {
    ghost runs = { λ r t. (state_of_snapshot r.first ≡ start t)
        × (length r.first.cores.items ≡ length t.programs) × (length r.state.cores.items ≡ length t.programs) };

    ghost run_of = { λ r t choices. run t r.depth choices };

    ghost fits = { λ r choices. Unit {0} };

    fn count_run<C: Choices>(
        &mut self,
        test: &Test,
        choices: &mut C,
        tally: &mut Tally<'_>,
    ) -> Result<bool, NoMemory> {
        test.know_limits();
        overwrite(&mut self.state, &self.first)?;
        let ended = drive(&mut self.state, test, self.depth, choices)?;
        if !ended {
            tally.add_unfinished();
            return Ok(false);
        }
        write_registers(&mut self.registers, &self.state.cores)?;
        count_state(test, &self.registers, &self.state.memory, tally)?;
        Ok(true)
    }
}
