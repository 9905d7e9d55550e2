//! A choice, made in a state of the flat machine. Caches have no part here: on the atomic bus they have none in what can be
//! reached.
ghost use Rattle.std.specs.Prelude.{◌≡◌, ◌<◌, ◌≤◌, IfOk, OnOk, length, ℕ, ◌+◌, ◌==◌};
ghost use Rattle.std.specs.Prelude.{slice_get, slice_set, slice_index, Some, filter, true};
ghost use Rattle.tso_terms.specs.Limits.{most_instructions};
ghost use Rattle.tso_terms.specs.ProgramOrder.{writes_to};
ghost use Rattle.tso_terms.specs.Axioms.{last_value};
ghost use Rattle.tso_terms.specs.Thread.{entry, fence, value_of, with_value, with_taken, updated, value_in};
ghost use Rattle.tso_terms.specs.FlatMachine.{effect_of, after_choice, effect_by, drain_of, memory_after, chosen, is_none_pending};
ghost use Rattle.tso_terms.specs.FlatMachine.{load_value, loaded, stored, moved, fenced, locked};
ghost use Rattle.tso_terms.specs.Runs.{stall_count};
ghost use Rattle.flat_machine.specs.State.{state_of_snapshot, core_of_processor};

use crate::snapshot::{Processor, Snapshot};
use tso_terms::{
    Action, Choice, Core, Entry, Kind, Loc, NoMemory, Operand, Outcome, Reg, Stall, Test, Update,
    take,
};

/// The value that a load gets: of the newest pending store to the location, else this word.
fn newest(pending: &[Entry], loc: Loc, word: u32) -> u32
    ensures { result ≡ last_value (filter (writes_to loc.0) pending.now) word }
{
    let mut value = word;
    for entry in pending {
        if matches!(entry.kind, Kind::W | Kind::LW) && entry.loc.0 == loc.0 {
            value = entry.value;
        }
    }
    value
}

/// The word of a location.
fn word_at(memory: &[u32], loc: Loc) -> u32
    ensures { result ≡ slice_index memory.now loc.0 }
{
    match memory.get(usize::from(loc.0)) {
        Some(word) => *word,
        None => 0,
    }
}

/// Writes the word of a location.
fn write(memory: &mut Vec<u32>, loc: Loc, value: u32)
    ensures { memory.new.items ≡ slice_set memory.old.items loc.0 value }
{
    let place = usize::from(loc.0);
    if place < memory.len() {
        memory[place] = value;
    }
}

/// The core goes on to its next instruction, with this value in the register.
fn advance(processor: &mut Processor, reg: Reg, value: u32)
    requires { processor.old.place < most_instructions }
    ensures place { processor.new.place ≡ processor.old.place + 1 }
    ensures registers { processor.new.registers ≡ with_value processor.old.registers reg value }
    ensures pending { processor.new.pending ≡ processor.old.pending }
{
    processor.registers[reg.index()] = value;
    processor.place += 1;
}

/// The core goes on to its next instruction, with this word in the register, if there is one.
fn advance_taking(processor: &mut Processor, target: Option<Reg>, word: u32)
    requires { processor.old.place < most_instructions }
    ensures place { processor.new.place ≡ processor.old.place + 1 }
    ensures registers { processor.new.registers ≡ with_taken processor.old.registers target word }
    ensures pending { processor.new.pending ≡ processor.old.pending }
{
    take(&mut processor.registers, target, word);
    processor.place += 1;
}

#[inline(always)]
fn store(
    processor: &mut Processor,
    memory: &mut Vec<u32>,
    core: Core,
    depth: u8,
    loc: Loc,
    operand: Operand,
) -> Result<Outcome, NoMemory>
    requires { processor.old.place < most_instructions }
    ensures outcome { IfOk result (λ o. o
        ≡ (effect_by depth memory.old.items core.0 (Action.Store loc operand) (core_of_processor processor.old)).outcome) }
    ensures after { OnOk result (core_of_processor processor.new
        ≡ (effect_by depth memory.old.items core.0 (Action.Store loc operand) (core_of_processor processor.old)).after) }
    ensures memory { OnOk result (memory.new.items ≡ memory_after
        (effect_by depth memory.old.items core.0 (Action.Store loc operand) (core_of_processor processor.old)).commits memory.old.items) }
{
    let value = operand.value(&processor.registers);
    if depth == 0 {
        write(memory, loc, value);
        processor.place += 1;
        return Ok(Outcome::Committed);
    }
    if processor.pending.len() >= usize::from(depth) {
        return Ok(Outcome::Stalled(Stall::Full));
    }
    processor.pending.push(Entry {
        core,
        place: processor.place,
        kind: Kind::W,
        loc,
        value,
    })?;
    processor.place += 1;
    Ok(Outcome::Buffered)
}

#[inline(always)]
fn lock(
    processor: &mut Processor,
    memory: &mut Vec<u32>,
    loc: Loc,
    target: Option<Reg>,
    update: Update,
) -> Outcome
    requires { processor.old.place < most_instructions }
    ensures outcome { (depth core : ℕ) → result
        ≡ (effect_by depth memory.old.items core (Action.Lock loc target update) (core_of_processor processor.old)).outcome }
    ensures after { (depth core : ℕ) → core_of_processor processor.new
        ≡ (effect_by depth memory.old.items core (Action.Lock loc target update) (core_of_processor processor.old)).after }
    ensures memory { (depth core : ℕ) → memory.new.items ≡ memory_after
        (effect_by depth memory.old.items core (Action.Lock loc target update) (core_of_processor processor.old)).commits memory.old.items }
{
    if !processor.pending.is_empty() {
        return Outcome::Stalled(Stall::Lock);
    }
    let word = word_at(memory, loc);
    let value = update.apply(&processor.registers, word);
    write(memory, loc, value);
    advance_taking(processor, target, word);
    Outcome::Committed
}

/// A step of the core at this action, which is its next.
///
/// Errors: out of memory only.
#[inline(always)]
pub fn step(
    processor: &mut Processor,
    memory: &mut Vec<u32>,
    core: Core,
    depth: u8,
    action: Action,
) -> Result<Outcome, NoMemory>
    requires { processor.old.place < most_instructions }
    ensures outcome { IfOk result (λ o. o
        ≡ (effect_by depth memory.old.items core.0 action (core_of_processor processor.old)).outcome) }
    ensures after { OnOk result (core_of_processor processor.new
        ≡ (effect_by depth memory.old.items core.0 action (core_of_processor processor.old)).after) }
    ensures memory { OnOk result (memory.new.items ≡ memory_after
        (effect_by depth memory.old.items core.0 action (core_of_processor processor.old)).commits memory.old.items) }
{
    match action {
        Action::Store(loc, operand) => store(processor, memory, core, depth, loc, operand),
        Action::Load(reg, loc) => {
            let value = newest(&processor.pending, loc, word_at(memory, loc));
            advance(processor, reg, value);
            Ok(Outcome::Committed)
        }
        Action::Move(change) => {
            change.apply(&mut processor.registers);
            processor.place += 1;
            Ok(Outcome::Moved)
        }
        Action::Fence => {
            if !processor.pending.is_empty() {
                return Ok(Outcome::Stalled(Stall::Fence));
            }
            processor.place += 1;
            Ok(Outcome::Committed)
        }
        Action::Lock(loc, target, update) => Ok(lock(processor, memory, loc, target, update)),
    }
}

/// A drain of the core's oldest pending store.
#[inline(always)]
pub fn drain(processor: &mut Processor, memory: &mut Vec<u32>) -> Outcome
    ensures outcome { result ≡ (drain_of (core_of_processor processor.old)).outcome }
    ensures after { core_of_processor processor.new ≡ (drain_of (core_of_processor processor.old)).after }
    ensures memory { memory.new.items ≡ memory_after (drain_of (core_of_processor processor.old)).commits memory.old.items }
{
    if processor.pending.is_empty() {
        return Outcome::Stalled(Stall::Empty);
    }
    let oldest = processor.pending.remove(0);
    if matches!(oldest.kind, Kind::W | Kind::LW) {
        write(memory, oldest.loc, oldest.value);
    }
    Outcome::Committed
}

/// Whether the choice stalled, and so changed nothing.
pub fn has_stalled(outcome: Outcome) -> bool
    ensures { result ≡ (stall_count outcome == 1) }
{
    matches!(outcome, Outcome::Stalled(_))
}

/// Whether the core of a choice has nothing to make it with: no further instruction, or nothing
/// pending.
pub fn is_idle(state: &Snapshot, test: &Test, choice: Choice) -> bool
    requires cores { length state.now.cores.items ≡ length test.now.programs }
    requires chosen { chosen choice < length test.now.programs }
    ensures { result ≡ true → (depth : ℕ) → after_choice test.now depth (state_of_snapshot state.now) choice ≡ state_of_snapshot state.now }
{
    match choice {
        Choice::Step(core) => {
            let place = usize::from(state.cores[usize::from(core.0)].place);
            place >= test.program(core).len()
        }
        Choice::Drain(core) => state.cores[usize::from(core.0)].pending.is_empty(),
    }
}

/// A choice of one of the test's cores.
///
/// Errors: out of memory only.
// It is a part of its caller, with all that it does: as calls these have a sweep execute half as many instructions more.
#[inline(always)]
pub fn act(
    state: &mut Snapshot,
    test: &Test,
    depth: u8,
    choice: Choice,
) -> Result<Outcome, NoMemory>
    requires cores { length state.old.cores.items ≡ length test.now.programs }
    requires chosen { chosen choice < length test.now.programs }
    ensures outcome { IfOk result (λ o. o ≡ (effect_of test.now depth (state_of_snapshot state.old) choice).outcome) }
    ensures after { OnOk result (state_of_snapshot state.new ≡ after_choice test.now depth (state_of_snapshot state.old) choice) }
    ensures cores { OnOk result (length state.new.cores.items ≡ length test.now.programs) }
{
    match choice {
        Choice::Step(core) => {
            let program = test.program(core);
            let place = usize::from(state.cores[usize::from(core.0)].place);
            if place >= program.len() {
                return Ok(Outcome::Stalled(Stall::Done));
            }
            let action = program[place].action();
            let processor = &mut state.cores[usize::from(core.0)];
            step(processor, &mut state.memory, core, depth, action)
        }
        Choice::Drain(core) => Ok(drain(&mut state.cores[usize::from(core.0)], &mut state.memory)),
    }
}
