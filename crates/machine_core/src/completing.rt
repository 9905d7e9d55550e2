//! The holder's next choice on a split bus: it completes the access that it asked for, and frees the bus. A locked
//! instruction commits its load part first and keeps the bus until its store part, at the choice after it: freed between
//! the two, it would let another core's write in. (Primer, chapter 7.)

ghost use Rattle.std.specs.Prelude.{◌≡◌, ◌<◌, IfOk, OnErr, length};
ghost use Rattle.tso_terms.specs.Thread.{entry};
ghost use Rattle.tso_terms.specs.FlatMachine.{chosen};
ghost use Rattle.tso_terms.specs.SplitMachine.{HeldBy, HeldBetween};
ghost use Rattle.tso_terms.specs.declared.choice.Bus.TheVariants as Bus;
ghost use Rattle.machine_core.specs.Keeping.{state_in};
ghost use Rattle.machine_core.specs.Split.{completes_in};
ghost use Rattle.machine_core.specs.inner.Split.{writes_last_in};
ghost use Rattle.machine_core.specs.OneChoice.{AreConsistent, AreOfTest, HasMade, Makes, IsUndone, KeepsHardware};

use crate::hardware::{Hardware, act, instruction_at};
use crate::split::access_of;
use multiprocessor::accesses::{CacheUse, MemoryAccess};
use multiprocessor::entries::entry;
use multiprocessor::locked::read_first;
use multiprocessor::processor::{Processor, advance_taking};
use multiprocessor::turn::{Way, core_of};
use protocol_tables::Protocol;
use tso_terms::{Action, Choice, Entry, Kind, NoMemory, Outcome, Test};

/// Completes the action that has asked, which is this choice; of a locked instruction its load part.
///
/// Errors: out of memory only; nothing is changed then.
pub fn complete<P: Protocol>(
    hardware: &mut Hardware<P>,
    test: &Test,
    choice: Choice,
) -> Result<(Outcome, CacheUse), NoMemory>
    requires core { chosen choice < length test.now.programs }
    requires consistent { AreConsistent Bus.Split test.now hardware.old }
    requires asked { (state_in hardware.old).holder ≡ HeldBy choice }

    ensures makes { IfOk result (Makes completes_in test.now hardware.old hardware.new choice) }
    ensures commits_at_once { (completes_in test.now hardware.old choice).effect.outcome ≡ Outcome.Committed }
    ensures err { OnErr result (IsUndone hardware.old hardware.new) }
    ensures keeps { KeepsHardware hardware.old hardware.new }
    ensures of_test { AreOfTest test.now hardware.new }
{
    match access_of(hardware, test, choice) {
        MemoryAccess::Lock(loc) => {
            let core = core_of(choice);
            let place = hardware.processors[core.0 as usize].place;
            let (next, report) = read_first(
                core,
                place,
                loc,
                &mut hardware.bus,
                &mut hardware.commits,
            )?;
            hardware.next = next;
            Ok((Outcome::Committed, CacheUse::Through(report)))
        }
        _ => act(hardware, test, choice, Way::Asked),
    }
}

/// A locked instruction with this load part commits its store part, and frees the bus.
///
/// Errors: out of memory only; nothing is changed then.
pub fn write_last<P: Protocol>(
    hardware: &mut Hardware<P>,
    test: &Test,
    read: Entry,
) -> Result<(Outcome, CacheUse), NoMemory>
    requires core { chosen (Choice.Step read.core) < length test.now.programs }
    requires consistent { AreConsistent Bus.Split test.now hardware.old }
    requires between { (state_in hardware.old).holder ≡ HeldBetween read }

    ensures makes { IfOk result (HasMade test.now hardware.old hardware.new (Choice.Step read.core) (writes_last_in test.now hardware.old read)) }
    ensures commits_at_once { (writes_last_in test.now hardware.old read).effect.outcome ≡ Outcome.Committed }
    ensures err { OnErr result (IsUndone hardware.old hardware.new) }
    ensures keeps { KeepsHardware hardware.old hardware.new }
    ensures of_test { AreOfTest test.now hardware.new }
{
    let core = read.core;
    let processor = &mut hardware.processors[core.0 as usize];
    let instr = instruction_at(test.program(core), processor.place).unwrap();
    let Action::Lock(_, reg, update) = instr.action() else {
        unreachable!()
    };
    let value = update.apply(&processor.registers, read.value);
    hardware
        .commits
        .note(entry(core, read.place, Kind::LW, read.loc, value))?;
    hardware.bus.complete_write(core, read.loc, value);
    advance_taking(processor, reg, read.value);
    Ok((Outcome::Committed, CacheUse::Unused))
}
