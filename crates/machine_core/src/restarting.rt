//! A machine that goes back to the beginning of its test, in the room that it has: many runs, one for each seed, then take
//! no memory of their own. Whatever isn't set back here would leak into the next run.
ghost use Rattle.std.specs.Prelude.{◌≡◌, ℕ, All, length, map, replicate};
ghost use Rattle.tso_terms.specs.Litmus.{IsTest};
ghost use Rattle.tso_terms.specs.FlatMachine.{started};
ghost use Rattle.snoop_bus.specs.Rows.{table_of_rows};
ghost use Rattle.multiprocessor.specs.Cores.{core_states};
ghost use Rattle.multiprocessor.specs.Statistics.{no_counts, no_statistics};
ghost use Rattle.multiprocessor.specs.Keeping.{IsCore};
ghost use Rattle.machine_core.specs.Keeping.{HardwareFitsTest};
ghost use Rattle.machine_core.specs.inner.Keeping.{statistics_in};
ghost use Rattle.machine_core.specs.inner.OneChoice.{AreAtStart};

use crate::hardware::Hardware;
use multiprocessor::{Counts, Processor};
use protocol_tables::Protocol;
use tso_terms::{Core, Test};

/// The hardware goes back to the beginning of the test.
pub fn restart<P: Protocol>(hardware: &mut Hardware<P>, test: &Test)
    requires fits { HardwareFitsTest test.now hardware.old }
    requires test { IsTest test.now }
    requires counts { length hardware.old.counts.items ≡ length test.now.programs }

    ensures begun { AreAtStart test.now hardware.new }
    ensures config { hardware.new.config ≡ hardware.old.config }
    ensures statistics { statistics_in hardware.new ≡ no_statistics (table_of_rows hardware.old.bus.rows) hardware.old.bus.shape test.now }
{
    restart_cores(&mut hardware.processors, test);
    hardware.bus.restart(test.initial_words());
    hardware.commits.clear();
    hardware.counts.fill(Counts::NONE);
}

/// Each core goes back before its first instruction, with its first registers and nothing pending.
fn restart_cores(processors: &mut [Processor], test: &Test)
    requires { length processors.old ≡ length test.now.programs }
    ensures states { core_states 0 processors.new ≡ started 0 test.now.programs test.now.registers }
    ensures depths { (depth before locations : ℕ) → All (IsCore depth before) processors.old → All (IsCore depth locations) processors.new }
    ensures count { length processors.new ≡ length processors.old }
{
    for core in 0..test.cores() {
        let registers = test.initial_registers(Core(core));
        let processor = &mut processors[core as usize];
        processor.restart(registers);
    }
}
