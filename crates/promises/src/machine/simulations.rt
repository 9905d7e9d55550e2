//! What a simulation says of runs that end: how many choices they took, and how many fair rounds are enough.

ghost use Rattle.std.specs.Prelude.{◌≡◌, ◌*◌, IfOk, OnOk, length};
ghost use Rattle.tso_terms.specs.Runs.{CoresExist};
ghost use Rattle.tso_laws.specs.Counting.{instructions, longest};
ghost use Rattle.machine_runs.specs.Runs.{AnswersFit, counts_under, run_under};
ghost use Rattle.machine_runs.specs.Simulation.{FitsEnding, HasAllOrder, HasCounts, HasEnded, HasRounds, IsCounted, IsEndingOf};

use machine_core::{Bus, Choice, Config};
use protocol_tables::ProtocolKind;
use scheduler::Stalls;
use simulator::simulate_noting;
use std::alloc::Global;
use tso_cli::{Ending, SimFault, simulate};
use tso_terms::Test;

/// A simulation is the run of its machine, with such answers as caches may give, and with its counts. On the atomic bus, an
/// ended run took each instruction once and drained each store once that was pending; and as many fair rounds as the longest
/// program has instructions, twice, end the test. On either bus, as many as all programs have instructions, three times, end
/// it; and without buffers the order of an ended run keeps program order without exception.
pub fn a_simulation_is_a_run(
    alloc: Global,
    test: &Test,
    protocol: ProtocolKind,
    config: Config,
    choices: &[Choice],
) -> Result<Ending, SimFault>
    requires { CoresExist (length test.now.programs) choices.now }
    ensures ending { IfOk result (IsEndingOf test.now (run_under test.now protocol config choices.now)) }
    ensures fits { IfOk result (FitsEnding test.now) }
    ensures answers { OnOk result (AnswersFit test.now protocol config choices.now) }
    ensures counts { IfOk result (HasCounts (counts_under test.now protocol config choices.now)) }
    ensures counting { config.bus ≡ Bus.Atomic → IfOk result (IsCounted test.now config.depth) }
    ensures fair { config.bus ≡ Bus.Atomic → HasRounds test.now (2 * longest test.now.programs) choices.now → IfOk result HasEnded }
    ensures fair_on_either_bus { HasRounds test.now (3 * instructions test.now.programs) choices.now → IfOk result HasEnded }
    ensures unbuffered { config.depth ≡ 0 → IfOk result HasAllOrder }
{
    simulate(alloc, test, protocol, config, choices)
}

/// A simulation that notes its stalls for a hint is one.
pub fn a_simulation_that_notes_its_stalls(
    alloc: Global,
    test: &Test,
    protocol: ProtocolKind,
    config: Config,
    choices: &[Choice],
    stalls: &mut Stalls,
) -> Result<Ending, SimFault>
    requires { CoresExist (length test.now.programs) choices.now }
    ensures ending { IfOk result (IsEndingOf test.now (run_under test.now protocol config choices.now)) }
    ensures fits { IfOk result (FitsEnding test.now) }
    ensures answers { OnOk result (AnswersFit test.now protocol config choices.now) }
    ensures counts { IfOk result (HasCounts (counts_under test.now protocol config choices.now)) }
    ensures counting { config.bus ≡ Bus.Atomic → IfOk result (IsCounted test.now config.depth) }
    ensures unbuffered { config.depth ≡ 0 → IfOk result HasAllOrder }
    ensures fair { config.bus ≡ Bus.Atomic → HasRounds test.now (2 * longest test.now.programs) choices.now → IfOk result HasEnded }
    ensures fair_on_either_bus { HasRounds test.now (3 * instructions test.now.programs) choices.now → IfOk result HasEnded }
{
    simulate_noting(alloc, test, protocol, config, choices, stalls)
}
