//! A locked instruction made whole: its word is read and written at one choice, with nothing between. It waits until its
//! core's store buffer is empty; else its own older stores would come after it in memory order. Of one that has asked for a
//! split bus the load part comes first, and keeps the bus: freed between the two parts, it would let another core's write in.
//! (x86-TSO, section 3; Primer, chapters 4 and 7.)
ghost use Rattle.std.specs.Prelude.{◌≡◌, ◌<◌, Some, IfOk, OnOk, OnErr};
ghost use Rattle.tso_terms.specs.Limits.{most_instructions};
ghost use Rattle.tso_terms.specs.MemoryAccess.{locked_access};
ghost use Rattle.snoop_bus.specs.Bus.{words_of, holder_of, IsSameMachine};
ghost use Rattle.snoop_bus.specs.Held.{holder};
ghost use Rattle.multiprocessor.specs.Caches.{caches_of, completion_by};
ghost use Rattle.multiprocessor.specs.Effects.{HasUsed};
ghost use Rattle.multiprocessor.specs.inner.Cores.{pending_in, effect_of_lock, first_read};
ghost use Rattle.multiprocessor.specs.inner.Effects.{MayAccess};
ghost use Rattle.multiprocessor.specs.inner.Turns.{whole};
ghost use Rattle.multiprocessor.specs.inner.OneCore.{Acts, SucceedsUnlessCommitting, AreUnchanged, HasSameSizes, Notes};

use crate::accesses::{CacheUse, Next};
use crate::entries::entry;
use crate::processor::{Processor, advance_taking};
use commit_order::Commits;
use protocol_tables::Protocol;
use snoop_bus::holding::Stage;
use snoop_bus::{AccessReport, SnoopBus};
use tso_terms::{Core, Kind, Loc, NoMemory, Outcome, Reg, Stall, Update};

/// A locked instruction: the location that it reads and writes, the register that gets the word, if there is one, and what it
/// makes of the word.
#[derive(Clone, Copy)]
pub struct Locked {
    pub loc: Loc,
    pub reg: Option<Reg>,
    pub update: Update,
}

/// A locked instruction waits until nothing is pending. Then it reads the word into the register and
/// writes what the update makes of the word, both at once.
#[inline(always)]
pub fn read_and_write<P: Protocol>(
    processor: &mut Processor,
    core: Core,
    locked: Locked,
    bus: &mut SnoopBus<P>,
    commits: &mut Commits,
) -> Result<(Outcome, CacheUse), NoMemory>
    requires place { processor.old.place < most_instructions }
    requires access { MayAccess (whole core) bus.old locked.loc (locked_access locked.loc (pending_in core.0 processor.old)) }

    ensures acts { IfOk result
        (Acts (whole core) (locked_access locked.loc (pending_in core.0 processor.old))
        (effect_of_lock locked.loc locked.reg locked.update) processor.old processor.new bus.old bus.new commits.old
        commits.new) }
    ensures succeeds { SucceedsUnlessCommitting result (effect_of_lock locked.loc locked.reg locked.update core.0 processor.old (words_of bus.old)) }
    ensures err { OnErr result (AreUnchanged processor.old processor.new bus.old bus.new commits.old commits.new) }
    ensures sizes { HasSameSizes bus.old bus.new }
    ensures stores { processor.new.stores ≡ processor.old.stores }
{
    if !processor.stores.is_empty() {
        return Ok((Outcome::Stalled(Stall::Lock), CacheUse::Unused));
    }
    let Locked { loc, reg, update } = locked;
    let place = processor.place;
    commits.make_room(2)?;
    let updated = bus.update(core, loc, update, &processor.registers);
    // There is room for both parts.
    let load_part = entry(core, place, Kind::LR, loc, updated.before);
    commits.note(load_part).unwrap();
    let store_part = entry(core, place, Kind::LW, loc, updated.after);
    commits.note(store_part).unwrap();
    advance_taking(processor, reg, updated.before);
    Ok((Outcome::Committed, CacheUse::Through(updated.report)))
}

/// The load part of a locked instruction that has asked for the bus. It is committed, and the holder goes on with the store part.
///
/// Errors: out of memory only; nothing is changed then.
pub fn read_first<P: Protocol>(
    core: Core,
    place: u8,
    loc: Loc,
    bus: &mut SnoopBus<P>,
    commits: &mut Commits,
) -> Result<(Next, AccessReport), NoMemory>
    requires holds { holder_of bus.old ≡ Some (holder core loc Stage.Write) }

    ensures next { IfOk result (λ r. r.0 ≡ Next.Write (first_read core.0 place loc bus.old)) }
    ensures used { IfOk result (λ r. HasUsed (completion_by (caches_of bus.old) core.0 loc.0) bus.new (CacheUse.Through r.1)) }
    ensures commits { OnOk result (Notes commits.old commits.new (first_read core.0 place loc bus.old)) }
    ensures holds { OnOk result (holder_of bus.new ≡ Some (holder core loc Stage.Locked)) }
    ensures words { words_of bus.new ≡ words_of bus.old }
    ensures machine { IsSameMachine bus.old bus.new }
    ensures err_bus { OnErr result (bus.new ≡ bus.old) }
    ensures err_commits { OnErr result (commits.new.entries ≡ commits.old.entries) }
{
    commits.make_room(1)?;
    let (value, report) = bus.lock_asked(core, loc);
    // There is room for the entry.
    let read = entry(core, place, Kind::LR, loc, value);
    commits.note(read).unwrap();
    Ok((Next::Write(read), report))
}
