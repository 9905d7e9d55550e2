//! When a machine answers a choice, and what it keeps where it doesn't: only a commit takes memory, and one that is refused
//! changes nothing. And who would hit while a locked instruction has read and not yet written.

ghost use Rattle.std.specs.Prelude.{◌≡◌, ◌≢◌, ◌<◌, true, false, Ok, OnOk, OnErr, length};
ghost use Rattle.tso_terms.specs.FlatMachine.{chosen};
ghost use Rattle.machine_core.specs.Running.{machine_effect};
ghost use Rattle.promises.specs.Locked.{OwnCoreAloneHits};

use machine_core::{Choice, Machine, Outcome, Stall};
use protocol_tables::Protocol;
use tso_terms::NoMemory;

/// Memory is refused to a choice only where it commits: every other is answered, as long as memory never was.
pub fn what_commits_nothing_is_answered<P: Protocol>(
    machine: &mut Machine<'_, P>,
    choice: Choice,
) -> bool
    requires core { chosen choice < length machine.old.test.programs }
    requires whole { machine.old.failed ≡ false }
    requires nothing { (machine_effect machine.old choice).effect.outcome ≢ Outcome.Committed }
    ensures { result ≡ true }
{
    machine.choose(choice).is_ok()
}

/// A machine to which memory was refused answers no choice any more.
pub fn what_failed_stays_so<P: Protocol>(machine: &mut Machine<'_, P>, choice: Choice) -> bool
    requires core { chosen choice < length machine.old.test.programs }
    requires failed { machine.old.failed ≡ true }
    ensures { result ≡ true }
{
    machine.choose(choice).is_err()
}

/// A stall leaves the machine as it was; so does a refusal of memory, but that the machine has failed.
pub fn what_is_not_made_changes_nothing<P: Protocol>(
    machine: &mut Machine<'_, P>,
    choice: Choice,
) -> Result<Outcome, NoMemory>
    requires { chosen choice < length machine.old.test.programs }
    ensures stall { (why : Stall) → result ≡ Ok (Outcome.Stalled why) → machine.new ≡ machine.old }
    ensures failed { OnErr result (machine.new.failed ≡ true) }
    ensures state { OnErr result (machine.new.state ≡ machine.old.state) }
    ensures commits { OnErr result (machine.new.commits ≡ machine.old.commits) }
    ensures statistics { OnErr result (machine.new.statistics ≡ machine.old.statistics) }
{
    machine.choose(choice)
}

/// Where a choice leaves a locked instruction between its two parts, a load of its own core would hit at its location, and
/// no access of another core at its line.
pub fn between_locked_parts_its_core_alone_hits<P: Protocol>(
    machine: &mut Machine<'_, P>,
    choice: Choice,
) -> Result<Outcome, NoMemory>
    requires { chosen choice < length machine.old.test.programs }
    ensures { OnOk result (OwnCoreAloneHits machine.new) }
{
    machine.choose(choice)
}
