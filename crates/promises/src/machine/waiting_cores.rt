//! What becomes of others' accesses while a locked instruction has read and not yet written.

ghost use Rattle.std.specs.Prelude.{◌<◌, OnOk, length};
ghost use Rattle.tso_terms.specs.FlatMachine.{chosen};
ghost use Rattle.promises.specs.inner.Waiting.{OthersWaitForTheLine};

use crate::machine::choices::between_locked_parts_its_core_alone_hits;
use machine_core::{Choice, Machine, Outcome};
use protocol_tables::Protocol;
use tso_terms::NoMemory;

/// Where a choice leaves a locked instruction between its two parts, each access of another core to its line, a load too,
/// waits for the bus.
pub fn between_locked_parts_others_wait_for_the_line<P: Protocol>(
    machine: &mut Machine<'_, P>,
    choice: Choice,
) -> Result<Outcome, NoMemory>
    requires { chosen choice < length machine.old.test.programs }
    ensures { OnOk result (OthersWaitForTheLine machine.new) }
{
    between_locked_parts_its_core_alone_hits(machine, choice)
}
