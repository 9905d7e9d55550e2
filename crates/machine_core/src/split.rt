//! What a choice does on a split bus: the holder's next choice completes what it asked for; any other asks for the bus,
//! stalls while it is held, or acts at once where its access hits. Between the two parts of a locked instruction no write
//! of another core to its location may hit: the instruction would no longer be atomic. (Primer, chapter 7, the
//! split-transaction bus.)
ghost use Rattle.std.specs.Prelude.{◌≡◌, ℕ, ◌<◌, IfOk, OnErr, Some, length};
ghost use Rattle.tso_terms.specs.Litmus.{KnownLocation};
ghost use Rattle.tso_terms.specs.FlatMachine.{chosen};
ghost use Rattle.tso_terms.specs.MemoryAccess.{access_of, step_access};
ghost use Rattle.tso_terms.specs.SplitMachine.{same_choice};
ghost use Rattle.tso_terms.specs.declared.choice.Bus.TheVariants as Bus;
ghost use Rattle.snoop_bus.specs.Bus.{words_of, cores_of};
ghost use Rattle.multiprocessor.specs.inner.Cores.{pending_in};
ghost use Rattle.multiprocessor.specs.Caches.{caches_of, hits_by};
ghost use Rattle.machine_core.specs.Keeping.{HardwareFitsTest, state_in};
ghost use Rattle.multiprocessor.specs.inner.Keeping.{memory_access_in};
ghost use Rattle.multiprocessor.specs.inner.OneCore.{SucceedsUnlessCommitting};
ghost use Rattle.machine_core.specs.inner.Split.{split_effect_in, needed_by, IsAccessAmong, IsOther, IsCourse, TakesBus};
ghost use Rattle.machine_core.specs.OneChoice.{AreConsistent, AreOfTest, Makes, IsUndone, KeepsHardware};
ghost use Rattle.machine_core.specs.inner.OneChoice.{AnswerFitsIn, LeavesLocked};

use crate::completing::{complete, write_last};
use crate::hardware::{Hardware, instruction_at, next_of};
use multiprocessor::Processor;
use multiprocessor::accesses::{CacheUse, MemoryAccess, Next};
use multiprocessor::turn::core_of;
use protocol_tables::Protocol;
use snoop_bus::SnoopBus;
use tso_terms::{Action, Choice, Core, Entry, Instr, Loc, NoMemory, Outcome, Test};

/// What a choice comes to.
pub enum Course {
    /// It completes what it asked for.
    Completes,
    /// It writes: the locked instruction with this load part has read.
    WritesLast(Entry),
    /// It acts at once: its access hits, or it makes none.
    ActsAtOnce,
    /// It asks for the bus, for this location, and whether to write there.
    Asks(Loc, bool),
    /// It waits: another action holds the bus that it needs.
    Stalls,
}

/// Makes a choice that holds the bus, or asks for it, and answers its outcome and what it had to do with the caches.
// A part of its caller, so that its calls' answers are laid down only where one of them is made.
#[inline(always)]
pub fn take_bus<P: Protocol>(
    hardware: &mut Hardware<P>,
    test: &Test,
    choice: Choice,
    course: Course,
) -> Result<(Outcome, CacheUse), NoMemory>
    requires core { chosen choice < length test.now.programs }
    requires consistent { AreConsistent Bus.Split test.now hardware.old }
    requires course { IsCourse test.now hardware.old choice course }
    requires takes { TakesBus course }

    ensures makes { IfOk result (Makes split_effect_in test.now hardware.old hardware.new choice) }
    ensures succeeds { SucceedsUnlessCommitting result (split_effect_in test.now hardware.old choice).effect }
    ensures err { OnErr result (IsUndone hardware.old hardware.new) }
    ensures keeps { KeepsHardware hardware.old hardware.new }
    ensures of_test { AreOfTest test.now hardware.new }
{
    match course {
        Course::Completes => complete(hardware, test, choice),
        Course::WritesLast(read) => write_last(hardware, test, read),
        Course::Asks(loc, write) => ask(hardware, test, choice, loc, write),
        Course::ActsAtOnce | Course::Stalls => unreachable!(),
    }
}

/// What a choice comes to on a split bus: the holder's next one goes on, another one begins.
pub fn course_of<P: Protocol>(hardware: &Hardware<P>, test: &Test, choice: Choice) -> Course
    requires core { chosen choice < length test.now.programs }
    requires consistent { AreConsistent Bus.Split test.now hardware.now }

    ensures course { IsCourse test.now hardware.now choice result }
    ensures answer { AnswerFitsIn test.now hardware.now choice }
{
    match next_of(hardware) {
        Some(Next::Complete(asked)) if is_same(asked, choice) => Course::Completes,
        Some(Next::Write(read)) if is_same(Choice::Step(read.core), choice) => {
            Course::WritesLast(read)
        }
        Some(_) | None => course_of_other(hardware, test, choice),
    }
}

fn is_same(a: Choice, b: Choice) -> bool
    ensures { result ≡ same_choice a b }
{
    a == b
}

/// What a choice comes to that isn't the holder's next one.
#[inline(always)]
fn course_of_other<P: Protocol>(hardware: &Hardware<P>, test: &Test, choice: Choice) -> Course
    requires core { chosen choice < length test.now.programs }
    requires consistent { AreConsistent Bus.Split test.now hardware.now }
    requires other { IsOther (state_in hardware.now).holder choice }

    ensures course { IsCourse test.now hardware.now choice result }
    ensures answer { AnswerFitsIn test.now hardware.now choice }
{
    let access = access_of(hardware, test, choice);
    match needed(&hardware.bus, core_of(choice), access) {
        None => Course::ActsAtOnce,
        Some((loc, write)) => match next_of(hardware) {
            None => Course::Asks(loc, write),
            Some(_) => Course::Stalls,
        },
    }
}

/// Asks for the bus for a choice that needs it for this location.
fn ask<P: Protocol>(
    hardware: &mut Hardware<P>,
    test: &Test,
    choice: Choice,
    loc: Loc,
    write: bool,
) -> Result<(Outcome, CacheUse), NoMemory>
    requires core { chosen choice < length test.now.programs }
    requires consistent { AreConsistent Bus.Split test.now hardware.old }
    requires course { IsCourse test.now hardware.old choice (Course.Asks loc write) }

    ensures makes { IfOk result (Makes split_effect_in test.now hardware.old hardware.new choice) }
    ensures succeeds { SucceedsUnlessCommitting result (split_effect_in test.now hardware.old choice).effect }
    ensures err { OnErr result (IsUndone hardware.old hardware.new) }
    ensures keeps { KeepsHardware hardware.old hardware.new }
    ensures of_test { AreOfTest test.now hardware.new }
{
    let core = core_of(choice);
    let request = hardware.bus.ask(core, loc, write);
    hardware.next = Next::Complete(choice);
    Ok((Outcome::Asked, CacheUse::Asked(request)))
}

/// For what a core's access needs the bus, a location and whether it writes there: a read or a write that doesn't
/// hit, and a locked instruction's. `None` where it doesn't need the bus.
#[inline(always)]
fn needed<P: Protocol>(bus: &SnoopBus<P>, core: Core, access: MemoryAccess) -> Option<(Loc, bool)>
    requires { core.0 < cores_of bus.now }
    ensures value { result ≡ needed_by (memory_access_in access) (hits_by (caches_of bus.now) core.0 (memory_access_in access)) }

    // Between the two parts of a locked instruction no write of another core to its location hits.
    ensures taken { LeavesLocked bus.now core.0 (memory_access_in access) }
{
    match access {
        MemoryAccess::Nothing => None,
        MemoryAccess::Read(loc) => {
            if bus.would_hit(core, loc, false) {
                None
            } else {
                Some((loc, false))
            }
        }
        MemoryAccess::Write(loc) => {
            if bus.would_hit(core, loc, true) {
                None
            } else {
                Some((loc, true))
            }
        }
        MemoryAccess::Lock(loc) => Some((loc, true)),
    }
}

/// The access that a choice makes.
#[inline(always)]
pub fn access_of<P: Protocol>(hardware: &Hardware<P>, test: &Test, choice: Choice) -> MemoryAccess
    requires core { chosen choice < length test.now.programs }
    requires fits { HardwareFitsTest test.now hardware.now }
    ensures value { memory_access_in result ≡ access_of test.now hardware.now.config.depth (state_in hardware.now).flat choice }
    ensures known { IsAccessAmong (length (words_of hardware.now.bus)) (memory_access_in result) }
{
    match choice {
        Choice::Step(core) => {
            let processor = &hardware.processors[core.0 as usize];
            match instruction_at(test.program(core), processor.place) {
                None => MemoryAccess::Nothing,
                Some(instr) => step_access(processor, instr),
            }
        }
        // A drain writes the oldest pending store.
        Choice::Drain(core) => {
            let processor = &hardware.processors[core.0 as usize];
            match processor.stores.oldest() {
                None => MemoryAccess::Nothing,
                Some(store) => MemoryAccess::Write(store.loc),
            }
        }
    }
}

/// The access of a step at this instruction.
#[inline(always)]
fn step_access(processor: &Processor, instr: Instr) -> MemoryAccess
    ensures value { (core : ℕ) → memory_access_in result ≡ step_access processor.now.stores.depth (Some instr) (pending_in core processor.now) }
    ensures known { (locations : ℕ) → KnownLocation locations instr → IsAccessAmong locations (memory_access_in result) }
{
    match instr.action() {
        // A plain store only waits in the buffer; without one it writes.
        Action::Store(loc, _) => {
            if processor.stores.are_buffered() {
                MemoryAccess::Nothing
            } else {
                MemoryAccess::Write(loc)
            }
        }
        // A load reads, unless the core's own buffer answers it.
        Action::Load(_, loc) => match processor.stores.newest_for(loc) {
            None => MemoryAccess::Read(loc),
            Some(_) => MemoryAccess::Nothing,
        },
        // A locked instruction waits until nothing is pending.
        Action::Lock(loc, _, _) => {
            if processor.stores.is_empty() {
                MemoryAccess::Lock(loc)
            } else {
                MemoryAccess::Nothing
            }
        }
        Action::Move(..) | Action::Fence => MemoryAccess::Nothing,
    }
}
