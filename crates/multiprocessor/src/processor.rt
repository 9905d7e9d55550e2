//! A core, its steps and its drains. TSO rests on these: a load sees the newest own pending store to its location
//! (forwarding), a drain takes the oldest (first in, first out), and a fence or a locked instruction waits until nothing is
//! pending. (x86-TSO, section 3; Primer, chapter 4.)

ghost use Rattle.std.specs.Prelude.{◌≡◌, ℕ, ◌<◌, List, [], None, true, false, IfOk, OnOk, OnErr, length, filter, slice_get, slice_set};
ghost use Rattle.tso_terms.specs.Limits.{most_instructions};
ghost use Rattle.tso_terms.specs.Actions.{action_of};
ghost use Rattle.tso_terms.specs.Litmus.{KnownLocation};
ghost use Rattle.tso_terms.specs.ProgramOrder.{writes_to};
ghost use Rattle.tso_terms.specs.Thread.{value_in, with_taken, with_value};
ghost use Rattle.tso_terms.specs.MemoryAccess.{NoAccess, Reads, Writes, store_access, load_access, drain_access};
ghost use Rattle.snoop_bus.specs.Bus.{BusModel, words_of, cores_of, holder_of};
ghost use Rattle.snoop_bus.specs.Accesses.{IsCurrentWord};
ghost use Rattle.multiprocessor.specs.Cores.{AreKnown};
ghost use Rattle.multiprocessor.specs.inner.Cores.{buffered_entries, pending_in, seen_by, at_next, own_access};
ghost use Rattle.multiprocessor.specs.inner.Cores.{effect_of_load, effect_of_store, effect_of_fence, step_by, effect_of_drain};
ghost use Rattle.multiprocessor.specs.Effects.{HasUsed};
ghost use Rattle.multiprocessor.specs.inner.Effects.{MayAccess, MayMake};
ghost use Rattle.multiprocessor.specs.inner.Turns.{by_way, whole};
ghost use Rattle.multiprocessor.specs.Caches.{caches_of, load_after, completing_by};
ghost use Rattle.multiprocessor.specs.inner.OneCore.{Acts, Waits, IsMade, IsStored, SucceedsUnlessCommitting, AreUnchanged, HasSameSizes};

use crate::accesses::CacheUse;
use crate::entries::{entry, store_entry};
use crate::locked::{Locked, read_and_write};
use crate::pending_stores::PendingStores;
use crate::turn::{Turn, Way};
use commit_order::Commits;
use protocol_tables::Protocol;
use snoop_bus::{AccessReport, SnoopBus};
use store_buffer::Pending;
use tso_terms::{Action, Core, Entry, Instr, Kind, Loc, NoMemory, Outcome, Reg, Stall, take};

/// A core: the place in its program, its registers, and the stores that it has issued and that
/// have not reached memory.
pub struct Processor {
    pub place: u8,
    pub registers: [u32; 6],
    pub stores: PendingStores,
}

// Said by hand, so that who lets a core go makes one call.
impl Drop for Processor {
    fn drop(self) {
        let Processor {
            place: _place,
            registers: _registers,
            stores: _stores,
        } = self;
    }
}

impl Processor {
    ghost use Rattle.tso_terms.specs.Runs.{is_done};
    ghost use Rattle.multiprocessor.specs.Cores.{core_state};
    ghost use Rattle.multiprocessor.specs.inner.Cores.{at_start};

    /// The value of a register.
    pub fn register(&self, reg: Reg) -> u32
        ensures { result ≡ value_in self.now.registers reg }
    {
        self.registers[reg.index()]
    }

    /// The pending store with this number, counted from the oldest, as the entry that it commits when it goes
    /// to memory; `None` where fewer are pending.
    pub fn pending(&self, core: Core, number: usize) -> Option<Entry>
        ensures { result ≡ slice_get (pending_in core.0 self.now) number }
    {
        match self.stores.get(number) {
            None => None,
            Some(store) => Some(store_entry(core, store)),
        }
    }

    /// The core goes back before its first instruction, with these registers and nothing pending.
    pub fn restart(&mut self, registers: [u32; 6])
        ensures { self.new ≡ at_start registers self.old }
    {
        self.place = 0;
        self.registers = registers;
        self.stores.clear();
    }

    /// Whether the core is at the end of this program with nothing pending.
    pub fn is_done(&self, program: &[Instr]) -> bool
        ensures { (core : ℕ) → result ≡ is_done program.now (core_state core self.now) }
    {
        self.place as usize == program.len() && self.stores.is_empty()
    }
}

/// A step of the core at this instruction, which is its next.
///
/// Errors: out of memory only; nothing is changed then.
#[inline(always)]
pub fn step<P: Protocol>(
    processor: &mut Processor,
    turn: Turn,
    instr: Instr,
    bus: &mut SnoopBus<P>,
    commits: &mut Commits,
) -> Result<(Outcome, CacheUse), NoMemory>
    requires place { processor.old.place < most_instructions }
    requires core { turn.core.0 < cores_of bus.old }
    requires free { MayMake turn bus.old (own_access (action_of instr) turn.core.0 processor.old) }
    requires known { KnownLocation (length (words_of bus.old)) instr }
    requires stores { AreKnown (length (words_of bus.old)) processor.old.stores }

    ensures acts { IfOk result
        (Acts turn (own_access (action_of instr) turn.core.0 processor.old) (step_by instr) processor.old processor.new
        bus.old bus.new commits.old commits.new) }
    ensures succeeds { SucceedsUnlessCommitting result (step_by instr turn.core.0 processor.old (words_of bus.old)) }
    ensures err { OnErr result (AreUnchanged processor.old processor.new bus.old bus.new commits.old commits.new) }
    ensures sizes { HasSameSizes bus.old bus.new }
    ensures depth { processor.new.stores.depth ≡ processor.old.stores.depth }
    ensures stores { AreKnown (length (words_of bus.old)) processor.new.stores }
{
    match instr.action() {
        Action::Store(loc, operand) => {
            let value = operand.value(&processor.registers);
            store(processor, turn, loc, value, bus, commits)
        }
        Action::Load(reg, loc) => load(processor, turn, reg, loc, bus, commits),
        Action::Move(change) => {
            change.apply(&mut processor.registers);
            processor.place += 1;
            Ok((Outcome::Moved, CacheUse::Unused))
        }
        Action::Fence => fence(processor, turn.core, commits),
        Action::Lock(loc, reg, update) => {
            let locked = Locked { loc, reg, update };
            read_and_write(processor, turn.core, locked, bus, commits)
        }
    }
}

/// A plain store waits in the buffer. Without one it goes to memory at once.
#[inline(always)]
fn store<P: Protocol>(
    processor: &mut Processor,
    turn: Turn,
    loc: Loc,
    value: u32,
    bus: &mut SnoopBus<P>,
    commits: &mut Commits,
) -> Result<(Outcome, CacheUse), NoMemory>
    requires place { processor.old.place < most_instructions }
    requires access { MayAccess turn bus.old loc (store_access processor.old.stores.depth loc) }

    ensures acts { IfOk result
        (Acts turn (store_access processor.old.stores.depth loc) (effect_of_store loc value) processor.old processor.new
        bus.old bus.new commits.old commits.new) }
    ensures succeeds { SucceedsUnlessCommitting result (effect_of_store loc value turn.core.0 processor.old (words_of bus.old)) }
    ensures err { OnErr result (AreUnchanged processor.old processor.new bus.old bus.new commits.old commits.new) }
    ensures sizes { HasSameSizes bus.old bus.new }
    ensures depth { processor.new.stores.depth ≡ processor.old.stores.depth }
    ensures stores { (n : ℕ) → loc.0 < n → AreKnown n processor.old.stores → AreKnown n processor.new.stores }
{
    if processor.stores.are_buffered() {
        return Ok((buffer(processor, loc, value), CacheUse::Unused));
    }
    let place = processor.place;
    let pending = Pending { place, loc, value };
    let report = write(turn, pending, bus, commits)?;
    processor.place += 1;
    Ok((Outcome::Committed, CacheUse::Through(report)))
}

/// A plain store waits in the buffer, or stalls where that is full.
#[inline(always)]
fn buffer(processor: &mut Processor, loc: Loc, value: u32) -> Outcome
    requires place { processor.old.place < most_instructions }
    requires depth { 0 < processor.old.stores.depth }
    ensures waits { (core : ℕ) (memory : List ℕ) → Waits core processor.new (effect_of_store loc value core processor.old memory) result }
    ensures depth { processor.new.stores.depth ≡ processor.old.stores.depth }
    ensures stores { (n : ℕ) → loc.0 < n → AreKnown n processor.old.stores → AreKnown n processor.new.stores }
{
    let place = processor.place;
    match processor.stores.put(Pending { place, loc, value }) {
        Ok(()) => {
            processor.place += 1;
            Outcome::Buffered
        }
        Err(_) => Outcome::Stalled(Stall::Full),
    }
}

/// A load reads the newest own store to the location, or memory's word where none is pending.
#[inline(always)]
fn load<P: Protocol>(
    processor: &mut Processor,
    turn: Turn,
    reg: Reg,
    loc: Loc,
    bus: &mut SnoopBus<P>,
    commits: &mut Commits,
) -> Result<(Outcome, CacheUse), NoMemory>
    requires place { processor.old.place < most_instructions }
    requires access { MayAccess turn bus.old loc (own_access (Action.Load reg loc) turn.core.0 processor.old) }

    ensures acts { IfOk result
        (Acts turn (own_access (Action.Load reg loc) turn.core.0 processor.old) (effect_of_load reg loc) processor.old
        processor.new bus.old bus.new commits.old commits.new) }
    ensures err { OnErr result (AreUnchanged processor.old processor.new bus.old bus.new commits.old commits.new) }
    ensures sizes { HasSameSizes bus.old bus.new }
    ensures stores { processor.new.stores ≡ processor.old.stores }
{
    commits.make_room(1)?;
    let (value, cache_use) = see(&processor.stores, turn, loc, bus);
    // There is room for the entry.
    let read = entry(turn.core, processor.place, Kind::R, loc, value);
    commits.note(read).unwrap();
    advance(processor, reg, value);
    Ok((Outcome::Committed, cache_use))
}

/// The value of the newest store to the location, or memory's word where none is pending.
#[inline(always)]
fn see<P: Protocol>(
    stores: &PendingStores,
    turn: Turn,
    loc: Loc,
    bus: &mut SnoopBus<P>,
) -> (u32, CacheUse)
    requires access { MayAccess turn bus.old loc (load_access loc (filter (writes_to loc.0) (buffered_entries turn.core.0 stores.now))) }

    ensures value { result.0 ≡ seen_by turn.core.0 stores.now (words_of bus.old) loc }
    ensures words { words_of bus.new ≡ words_of bus.old }
    ensures caches { HasUsed
        (by_way turn.way (load_after (caches_of bus.old) (buffered_entries turn.core.0 stores.now) turn.core.0 loc.0)
        (completing_by (caches_of bus.old) turn.core.0 (load_access loc (filter (writes_to loc.0) (buffered_entries turn.core.0 stores.now)))))
        bus.new result.1 }
    ensures holder { holder_of bus.new ≡ by_way turn.way (holder_of bus.old) None }
    ensures cores { cores_of bus.new ≡ cores_of bus.old }
{
    match stores.newest_for(loc) {
        Some(value) => (value, CacheUse::Forwarded),
        None => {
            let (word, report) = read(turn, loc, bus);
            (word, CacheUse::Through(report))
        }
    }
}

/// The word at a location of the bus, and what the access did.
#[inline(always)]
fn read<P: Protocol>(turn: Turn, loc: Loc, bus: &mut SnoopBus<P>) -> (u32, AccessReport)
    requires access { MayAccess turn bus.old loc (Reads loc) }

    ensures word { IsCurrentWord bus.old loc.0 result.0 }
    ensures words { words_of bus.new ≡ words_of bus.old }
    ensures made { IsMade turn false loc bus.old bus.new result.1 }
    ensures cores { cores_of bus.new ≡ cores_of bus.old }
{
    match turn.way {
        Way::Whole => bus.read(turn.core, loc),
        Way::Asked => bus.read_asked(turn.core, loc),
    }
}

/// A fence waits until nothing is pending.
#[inline(always)]
fn fence(
    processor: &mut Processor,
    core: Core,
    commits: &mut Commits,
) -> Result<(Outcome, CacheUse), NoMemory>
    requires { processor.old.place < most_instructions }
    ensures acts { (bus : BusModel) → IfOk result (Acts (whole core) NoAccess effect_of_fence processor.old processor.new bus bus commits.old commits.new) }
    ensures succeeds { SucceedsUnlessCommitting result (effect_of_fence core.0 processor.old []) }
    ensures err { (bus : BusModel) → OnErr result (AreUnchanged processor.old processor.new bus bus commits.old commits.new) }
    ensures stores { processor.new.stores ≡ processor.old.stores }
{
    if !processor.stores.is_empty() {
        return Ok((Outcome::Stalled(Stall::Fence), CacheUse::Unused));
    }
    commits.note(entry(core, processor.place, Kind::F, Loc(0), 0))?;
    processor.place += 1;
    Ok((Outcome::Committed, CacheUse::Unused))
}

/// The core goes on to its next instruction, with this value in the register.
#[inline(always)]
pub fn advance(processor: &mut Processor, reg: Reg, value: u32)
    requires { processor.old.place < most_instructions }
    ensures { processor.new ≡ at_next processor.old (with_value processor.old.registers reg value) }
{
    processor.registers[reg.index()] = value;
    processor.place += 1;
}

/// The core goes on to its next instruction, with this word in the register, if there is one.
#[inline(always)]
pub fn advance_taking(processor: &mut Processor, target: Option<Reg>, word: u32)
    requires { processor.old.place < most_instructions }
    ensures { processor.new ≡ at_next processor.old (with_taken processor.old.registers target word) }
{
    take(&mut processor.registers, target, word);
    processor.place += 1;
}

/// The oldest pending store goes to memory, if there is one.
///
/// Errors: out of memory only; nothing is changed then.
#[inline(always)]
pub fn drain<P: Protocol>(
    processor: &mut Processor,
    turn: Turn,
    bus: &mut SnoopBus<P>,
    commits: &mut Commits,
) -> Result<(Outcome, CacheUse), NoMemory>
    requires core { turn.core.0 < cores_of bus.old }
    requires free { MayMake turn bus.old (drain_access (pending_in turn.core.0 processor.old)) }
    requires stores { AreKnown (length (words_of bus.old)) processor.old.stores }

    ensures acts { IfOk result
        (Acts turn (drain_access (pending_in turn.core.0 processor.old)) effect_of_drain processor.old processor.new
        bus.old bus.new commits.old commits.new) }
    ensures succeeds { SucceedsUnlessCommitting result (effect_of_drain turn.core.0 processor.old (words_of bus.old)) }
    ensures err { OnErr result (AreUnchanged processor.old processor.new bus.old bus.new commits.old commits.new) }
    ensures sizes { HasSameSizes bus.old bus.new }
    ensures depth { processor.new.stores.depth ≡ processor.old.stores.depth }
    ensures stores { AreKnown (length (words_of bus.old)) processor.new.stores }
{
    match processor.stores.oldest() {
        None => Ok((Outcome::Stalled(Stall::Empty), CacheUse::Unused)),
        Some(store) => {
            let report = write(turn, store, bus, commits)?;
            processor.stores.take_oldest();
            Ok((Outcome::Committed, CacheUse::Through(report)))
        }
    }
}

/// A plain store goes to memory, and is noted.
///
/// Errors: out of memory only; nothing is changed then.
#[inline(always)]
fn write<P: Protocol>(
    turn: Turn,
    store: Pending,
    bus: &mut SnoopBus<P>,
    commits: &mut Commits,
) -> Result<AccessReport, NoMemory>
    requires access { MayAccess turn bus.old store.loc (Writes store.loc) }

    ensures stored { OnOk result (IsStored turn.core.0 store bus.old bus.new commits.old commits.new) }
    ensures made { IfOk result (IsMade turn true store.loc bus.old bus.new) }

    ensures err_bus { OnErr result (bus.new ≡ bus.old) }
    ensures err_commits { OnErr result (commits.new.entries ≡ commits.old.entries) }
    ensures sizes { HasSameSizes bus.old bus.new }
{
    commits.make_room(1)?;
    let report = write_word(turn, store.loc, store.value, bus);
    // There is room for the entry.
    commits.note(store_entry(turn.core, store)).unwrap();
    Ok(report)
}

/// Writes the word at a location of the bus, and answers what the access did.
#[inline(always)]
fn write_word<P: Protocol>(turn: Turn, loc: Loc, value: u32, bus: &mut SnoopBus<P>) -> AccessReport
    requires access { MayAccess turn bus.old loc (Writes loc) }

    ensures words { words_of bus.new ≡ slice_set (words_of bus.old) loc.0 value }
    ensures made { IsMade turn true loc bus.old bus.new result }
    ensures sizes { HasSameSizes bus.old bus.new }
{
    match turn.way {
        Way::Whole => bus.write(turn.core, loc, value),
        Way::Asked => bus.write_asked(turn.core, loc, value),
    }
}
