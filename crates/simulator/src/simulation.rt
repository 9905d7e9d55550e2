//! A test's run under a list of choices: it is the run of the definitions, and what follows from that for who asks for it.

ghost use Rattle.std.specs.Prelude.{◌≡◌, ◌*◌, IfOk, OnOk, length};
ghost use Rattle.tso_terms.specs.Runs.{CoresExist};
ghost use Rattle.machine_runs.specs.Runs.{run_under, counts_under, AnswersFit};
ghost use Rattle.machine_runs.specs.Simulation.{IsEndingOf, FitsEnding, HasCounts, IsCounted, HasAllOrder, HasRounds, HasEnded};
ghost use Rattle.tso_laws.specs.Counting.{instructions, longest};

use machine_core::{Bus, Choice, Config};
use machine_runs::{Ending, Setup, ended_runs_of_machines_are_executions, simulate_observed};
use protocol_tables::ProtocolKind;
use scheduler::Stalls;
use std::alloc::Global;
use thiserror::Error;
use tso_laws::{
    atomic_runs_are_flat_runs, fair_rounds_end, fair_rounds_end_on_either_bus, runs_are_counted,
};
use tso_terms::{NoMemory, Test};

/// Why a simulation came to no answer.
#[derive(Clone, Copy, Debug, Error)]
pub enum SimFault {
    /// The allocator refused a growth.
    #[error("out of memory")]
    NoMemory,
}

impl From<NoMemory> for SimFault {
    fn from(_: NoMemory) -> SimFault {
        SimFault::NoMemory
    }
}

/// Runs a test under a list of choices, up to the first moment at which it has ended, on a machine of
/// this protocol and configuration: what [`simulate_noting`] answers.
///
/// Errors: out of memory only.
pub fn simulate(
    alloc: Global,
    test: &Test,
    protocol: ProtocolKind,
    config: Config,
    choices: &[Choice],
) -> Result<Ending, SimFault>
    requires { CoresExist (length test.now.programs) choices.now }
    ensures ending { IfOk result (IsEndingOf test.now (run_under test.now protocol config choices.now)) }
    ensures fits { IfOk result (FitsEnding test.now) }
    ensures answers { OnOk result (AnswersFit test.now protocol config choices.now) }
    ensures counts { IfOk result (HasCounts (counts_under test.now protocol config choices.now)) }
    ensures counting { config.bus ≡ Bus.Atomic → IfOk result (IsCounted test.now config.depth) }
    ensures unbuffered { config.depth ≡ 0 → IfOk result HasAllOrder }
    ensures fair { config.bus ≡ Bus.Atomic → HasRounds test.now (2 * longest test.now.programs) choices.now → IfOk result HasEnded }
    ensures fair_on_either_bus { HasRounds test.now (3 * instructions test.now.programs) choices.now → IfOk result HasEnded }
{
    simulate_noting(alloc, test, protocol, config, choices, &mut Stalls::none())
}

/// Runs a test under a list of choices, up to the first moment at which it has ended, on a machine of
/// this protocol and configuration. On the atomic bus neither the protocol nor the shape of the caches
/// has a part in the answer but in the counts. On a split bus an access that hits needs no bus. Which choices
/// stalled is noted for a hint.
///
/// Errors: out of memory only.
pub fn simulate_noting(
    alloc: Global,
    test: &Test,
    protocol: ProtocolKind,
    config: Config,
    choices: &[Choice],
    stalls: &mut Stalls,
) -> Result<Ending, SimFault>
    requires { CoresExist (length test.now.programs) choices.now }

    // The answer is the run on the machine's bus, and a run that ended is one of the test.
    ensures ending { IfOk result (IsEndingOf test.now (run_under test.now protocol config choices.now)) }
    ensures fits { IfOk result (FitsEnding test.now) }

    // The caches answered as caches may: between the two parts of a locked instruction no write of another core to
    // its location hit.
    ensures answers { OnOk result (AnswersFit test.now protocol config choices.now) }

    // The counts go by the protocol's table and the shape of the caches too.
    ensures counts { IfOk result (HasCounts (counts_under test.now protocol config choices.now)) }

    // On the atomic bus an ended run took each instruction once, and drained each plain store once that was pending.
    ensures counting { config.bus ≡ Bus.Atomic → IfOk result (IsCounted test.now config.depth) }

    // Without buffers the order of an ended run keeps program order, without exception.
    ensures unbuffered { config.depth ≡ 0 → IfOk result HasAllOrder }

    // Enough fair rounds end the test: on the atomic bus fewer than on either.
    ensures fair { config.bus ≡ Bus.Atomic → HasRounds test.now (2 * longest test.now.programs) choices.now → IfOk result HasEnded }
    ensures fair_on_either_bus { HasRounds test.now (3 * instructions test.now.programs) choices.now → IfOk result HasEnded }
{
    runs_are_counted();
    fair_rounds_end();
    fair_rounds_end_on_either_bus();
    atomic_runs_are_flat_runs();
    ended_runs_of_machines_are_executions();
    test.know_limits();
    let setup = Setup {
        test,
        protocol,
        config,
    };
    let ending = simulate_observed(alloc, &setup, choices, stalls)?;
    Ok(ending)
}
