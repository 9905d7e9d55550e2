//! A clause of the call that tells a step, said again.

ghost use Rattle.std.specs.Prelude.{◌<◌, ◌≡◌, IfOk, OnOk, length};
ghost use Rattle.machine_core.specs.Running.{AnswerFits};
ghost use Rattle.trace_report.specs.Shown.{shown_step};
ghost use Rattle.trace_report.specs.Stalls.{stalled_step};
ghost use Rattle.trace_report.specs.Told.{IsTracedInStates};
ghost use Rattle.tso_terms.specs.FlatMachine.{chosen};

use machine_core::{Choice, Config, Machine};
use protocol_tables::Protocol;
use std::alloc::Global;
use trace_report::states::PlacedState;
use trace_report::{Step, tell};
use tso_terms::{NoMemory, Outcome, Stall, Test};

/// Of a choice that stalled nothing else is told; and between the parts of a locked instruction no write of another core hits.
pub fn a_told_stall_tells_nothing_else<P: Protocol>(
    alloc: Global,
    machine: &mut Machine<P>,
    states: &mut Vec<PlacedState>,
    test: &Test,
    config: Config,
    choice: Choice,
) -> Result<Step, NoMemory>
    requires core { chosen choice < length test.now.programs }
    requires told { IsTracedInStates test.now config machine.old states.old.items }
    ensures stall { (why : Stall)
        → IfOk result (λ step. step.outcome ≡ Outcome.Stalled why → shown_step step ≡ stalled_step choice why) }
    ensures answer { OnOk result (AnswerFits machine.old choice) }
{
    tell(alloc, machine, states, test, config, choice)
}
