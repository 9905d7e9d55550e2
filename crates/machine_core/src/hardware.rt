//! What a machine consists of, and what a choice does to it: one core acts, on the caches' bus and on the list of commits.
//! A stall, or memory that is refused, must leave all of them as they were; a choice made by half would put memory order
//! and memory at odds. A choice passes many small functions, here and on the bus: they are inlined, since each would
//! else lay out anew in memory what the choice answers.

ghost use Rattle.std.specs.Prelude.{◌≡◌, ℕ, ◌<◌, ◌≤◌, None, IfOk, OnOk, OnErr, All, length, map, slice_get};
ghost use Rattle.tso_terms.specs.Limits.{most_depth};
ghost use Rattle.tso_terms.specs.FlatMachine.{chosen, started};
ghost use Rattle.tso_terms.specs.Runs.{all_done};
ghost use Rattle.snoop_bus.specs.Bus.{holder_of};
ghost use Rattle.multiprocessor.specs.Cores.{core_states};
ghost use Rattle.multiprocessor.specs.Statistics.{no_statistics};
ghost use Rattle.multiprocessor.specs.Keeping.{IsCore};
ghost use Rattle.machine_core.specs.Keeping.{HardwareFitsTest, next_in, state_in};
ghost use Rattle.multiprocessor.specs.inner.Keeping.{IsTallied};
ghost use Rattle.machine_core.specs.inner.Keeping.{statistics_in};
ghost use Rattle.machine_core.specs.Effects.{HasEffect};
ghost use Rattle.machine_core.specs.inner.Effects.{MayMakeIn, effect_in, flat_effect_in};
ghost use Rattle.multiprocessor.specs.inner.Turns.{by_way};
ghost use Rattle.multiprocessor.specs.inner.OneCore.{SucceedsUnlessCommitting};
ghost use Rattle.machine_core.specs.OneChoice.{AreConsistent, AreOfTest};
ghost use Rattle.machine_core.specs.inner.OneChoice.{AreAtStart, AnswerFitsIn, effect_made_in, use_in, statistics_next};
ghost use Rattle.machine_core.specs.OneChoice.{Makes, IsUndone, KeepsHardware};
ghost use Rattle.machine_core.specs.inner.Split.{IsCourseOn};

use crate::split::{Course, course_of, take_bus};
use commit_order::Commits;
use multiprocessor::accesses::{CacheUse, Next};
use multiprocessor::counts::{Counts, tally};
use multiprocessor::processor::{Processor, drain, step};
use multiprocessor::turn::{Turn, Way, core_of};
use multiprocessor::{Config, PendingStores};
use protocol_tables::Protocol;
use snoop_bus::SnoopBus;
use std::alloc::Global;
use tso_laws::accesses_wait;
use tso_terms::{Bus, Choice, Core, Instr, NoMemory, Outcome, Stall, Test};

/// What a machine consists of: its cores, memory after their caches, what the action that holds the bus goes on with, what was
/// committed and what was counted.
#[derive(Drop)]
pub struct Hardware<P: Protocol> {
    pub config: Config,
    pub processors: Vec<Processor>,
    pub bus: SnoopBus<P>,
    pub next: Next,
    pub commits: Commits,
    pub counts: Vec<Counts>,
}

/// What the action that holds the bus goes on with; `None` where nobody holds it.
pub fn next_of<P: Protocol>(hardware: &Hardware<P>) -> Option<Next>
    ensures { result ≡ next_in hardware.now }
{
    match hardware.bus.who_holds() {
        None => None,
        Some(_) => Some(hardware.next),
    }
}

/// The hardware of a machine at the beginning of the test.
pub fn begin<P: Protocol>(
    alloc: Global,
    protocol: P,
    test: &Test,
    config: Config,
) -> Result<Hardware<P>, NoMemory>
    ensures begun { IfOk result (AreAtStart test.now) }
    ensures config { IfOk result (λ hardware. hardware.config ≡ config) }
    ensures statistics { IfOk result (λ hardware. statistics_in hardware ≡ no_statistics (P.table protocol) config.shape test.now) }
{
    let counts = vec![in alloc; Counts::NONE; usize::from(test.cores())]?;
    let processors = processors_of(alloc, test, config.depth())?;
    let bus = SnoopBus::new(
        alloc,
        protocol,
        test.cores(),
        config.shape(),
        test.initial_words(),
    )?;
    Ok(Hardware {
        config,
        processors,
        bus,
        // Nobody holds the bus, so that this says nothing.
        next: Next::Complete(Choice::Step(Core(0))),
        commits: Commits::new(alloc),
        counts,
    })
}

/// Each core of the test before its first instruction, with its first registers and an empty buffer
/// of this depth; with none at depth 0.
fn processors_of(alloc: Global, test: &Test, depth: u8) -> Result<Vec<Processor>, NoMemory>
    requires { depth ≤ most_depth }
    ensures states { IfOk result (λ ps. core_states 0 ps.items ≡ started 0 test.now.programs test.now.registers) }
    ensures depths { IfOk result (λ ps. (locations : ℕ) → All (IsCore depth locations) ps.items) }
    ensures count { IfOk result (λ ps. length ps.items ≡ length test.now.programs) }
{
    let mut processors = Vec::new(alloc);
    for core in 0..test.cores() {
        let registers = test.initial_registers(Core(core));
        let stores = PendingStores::new(alloc, depth)?;
        processors.push(Processor {
            place: 0,
            registers,
            stores,
        })?;
    }
    Ok(processors)
}

/// Makes a choice, counts what it had to do with the caches, and answers its outcome and that.
///
/// Errors: out of memory only; nothing is changed then.
#[inline(always)]
pub fn make_choice<P: Protocol>(
    hardware: &mut Hardware<P>,
    test: &Test,
    choice: Choice,
) -> Result<(Outcome, CacheUse), NoMemory>
    requires core { chosen choice < length test.now.programs }
    requires consistent { AreConsistent hardware.old.config.bus test.now hardware.old }
    requires tallied { IsTallied test.now (state_in hardware.old) (statistics_in hardware.old) }

    ensures ok { IfOk result (λ r. HasEffect hardware.old hardware.new choice (effect_in test.now hardware.old choice) r.0) }
    ensures how { IfOk result (λ r. r.1 ≡ (use_in test.now hardware.old choice).how) }
    ensures answer { AnswerFitsIn test.now hardware.old choice }
    ensures statistics { OnOk result (statistics_in hardware.new ≡ statistics_next test.now hardware.old choice) }
    ensures succeeds { SucceedsUnlessCommitting result (effect_in test.now hardware.old choice).effect }
    ensures err_state { OnErr result (state_in hardware.new ≡ state_in hardware.old) }
    ensures err_commits { OnErr result (hardware.new.commits.entries ≡ hardware.old.commits.entries) }
    ensures err_statistics { OnErr result (statistics_in hardware.new ≡ statistics_in hardware.old) }
    ensures config { hardware.new.config ≡ hardware.old.config }
    ensures of_test { AreOfTest test.now hardware.new }
    ensures tallied { IsTallied test.now (state_in hardware.new) (statistics_in hardware.new) }
{
    let (outcome, cache_use) = act_on_bus(hardware, test, choice)?;
    tally(&mut hardware.counts, core_of(choice), outcome, cache_use);
    Ok((outcome, cache_use))
}

/// Makes a choice on the kind of bus that there is.
// What the choice comes to is decided first, so that on either bus one that acts at once passes the same code, and a stall
// lays down no answer but its own.
#[inline(always)]
fn act_on_bus<P: Protocol>(
    hardware: &mut Hardware<P>,
    test: &Test,
    choice: Choice,
) -> Result<(Outcome, CacheUse), NoMemory>
    requires core { chosen choice < length test.now.programs }
    requires consistent { AreConsistent hardware.old.config.bus test.now hardware.old }

    ensures makes { IfOk result (Makes effect_in test.now hardware.old hardware.new choice) }
    ensures answer { AnswerFitsIn test.now hardware.old choice }
    ensures succeeds { SucceedsUnlessCommitting result (effect_in test.now hardware.old choice).effect }
    ensures err { OnErr result (IsUndone hardware.old hardware.new) }
    ensures keeps { KeepsHardware hardware.old hardware.new }
    ensures of_test { AreOfTest test.now hardware.new }
{
    let course = course_on_bus(hardware, test, choice);
    accesses_wait();
    match course {
        Course::ActsAtOnce => act(hardware, test, choice, Way::Whole),
        Course::Stalls => Ok((Outcome::Stalled(Stall::Bus), CacheUse::Unused)),
        Course::Completes | Course::WritesLast(_) | Course::Asks(..) => {
            take_bus(hardware, test, choice, course)
        }
    }
}

/// What a choice comes to on the kind of bus that there is. On the atomic bus every choice acts at once.
#[inline(always)]
fn course_on_bus<P: Protocol>(hardware: &Hardware<P>, test: &Test, choice: Choice) -> Course
    requires core { chosen choice < length test.now.programs }
    requires consistent { AreConsistent hardware.now.config.bus test.now hardware.now }

    ensures course { IsCourseOn hardware.now.config.bus test.now hardware.now choice result }
    ensures answer { AnswerFitsIn test.now hardware.now choice }
{
    match hardware.config.bus() {
        Bus::Atomic => Course::ActsAtOnce,
        Bus::Split => course_of(hardware, test, choice),
    }
}

/// Makes a choice whose access is made this way, and answers its outcome and what it had to do with the caches.
#[inline(always)]
pub(crate) fn act<P: Protocol>(
    hardware: &mut Hardware<P>,
    test: &Test,
    choice: Choice,
    way: Way,
) -> Result<(Outcome, CacheUse), NoMemory>
    requires core { chosen choice < length test.now.programs }
    requires fits { HardwareFitsTest test.now hardware.old }
    requires free { MayMakeIn way test.now hardware.old choice }

    ensures makes { IfOk result (Makes (effect_made_in way) test.now hardware.old hardware.new choice) }
    ensures succeeds { SucceedsUnlessCommitting result (flat_effect_in test.now hardware.old choice) }
    ensures err { OnErr result (IsUndone hardware.old hardware.new) }
    ensures keeps { KeepsHardware hardware.old hardware.new }
    ensures holder { OnOk result (holder_of hardware.new.bus ≡ by_way way (holder_of hardware.old.bus) None) }
    ensures fits { HardwareFitsTest test.now hardware.new }
{
    let core = core_of(choice);
    let processor = &mut hardware.processors[core.0 as usize];
    let turn = Turn { core, way };
    match choice {
        Choice::Step(_) => match instruction_at(test.program(core), processor.place) {
            None => Ok((Outcome::Stalled(Stall::Done), CacheUse::Unused)),
            Some(instr) => step(
                processor,
                turn,
                instr,
                &mut hardware.bus,
                &mut hardware.commits,
            ),
        },
        Choice::Drain(_) => drain(processor, turn, &mut hardware.bus, &mut hardware.commits),
    }
}

/// The instruction at this place of the program, if it isn't after its end.
pub(crate) fn instruction_at(program: &[Instr], place: u8) -> Option<Instr>
    ensures { result ≡ slice_get program.now place }
{
    program.get(place as usize).copied()
}

/// Whether each core is at the end of its program with nothing pending.
pub fn are_done<P: Protocol>(hardware: &Hardware<P>, test: &Test) -> bool
    requires { length hardware.now.processors.items ≡ length test.now.programs }
    ensures { result ≡ all_done test.now.programs (core_states 0 hardware.now.processors.items) }
{
    for core in 0..test.cores() {
        if !hardware.processors[core as usize].is_done(test.program(Core(core))) {
            return false;
        }
    }
    true
}

/// The registers of each core.
pub(crate) fn registers_of(
    alloc: Global,
    processors: &[Processor],
) -> Result<Vec<[u32; 6]>, NoMemory>
    ensures { IfOk result (λ rs. rs.items ≡ map (λ p. p.registers) processors.now) }
{
    let mut registers = Vec::new(alloc);
    for processor in processors {
        registers.push(processor.registers)?;
    }
    Ok(registers)
}
