//! What registers hold and what writes write, told by what the reads of their core return.
ghost use Rattle.std.specs.Prelude.{ℕ, ◌≡◌, ◌<◌, ◌+◌, List, [], ◌∷◌, ◌++◌, IfOk, length, map, slice_set, slice_index_or};
ghost use Rattle.tso_terms.specs.Registers.{index_of};
ghost use Rattle.tso_terms.specs.Thread.{entry};
ghost use Rattle.tso_terms.specs.declared.instruction.Instr.{Instr};
ghost use Rattle.possible_reads.specs.Expressions as spec;
ghost use Rattle.reading_tables.specs.inner.Told.{held_of, making_of, all_made, written_of, AreExpressions, HasBeenMade, HaveBeenMade};
ghost use Rattle.reading_tables.specs.inner.Told.{IsMakingOfMade, IsMore, IsWalk, made_in, held_registers, told_writes};

use std::alloc::Global;
use tso_terms::{
    Action, Change, Core, Entry, Instr, Kind, Loc, NoMemory, Operand, Operator, Reg, Test, Update,
};

/// What a register holds, or a write writes.
#[derive(Clone, Copy)]
pub enum Held {
    /// A number.
    Number(u32),
    /// What a read returned.
    Returned(Entry),
    /// What an instruction made, by its number among those that were made.
    Made(usize),
}

/// What an instruction made of what registers held and reads returned.
#[derive(Clone, Copy)]
pub enum Making {
    /// What an operator makes of the two.
    Combined(Operator, Held, Held),
    /// Zero without this, modulo 2^32.
    Negated(Held),
    /// The third where the first two are equal, else the first.
    Exchanged(Held, Held, Held),
}

/// A write, and what it writes.
#[derive(Clone, Copy)]
pub struct Written {
    pub write: Entry,
    pub value: Held,
}

/// What a test's instructions make, its writes, and each core's registers at the end.
#[derive(Drop)]
pub struct Expressions {
    pub makings: Vec<Making>,
    pub written: Vec<Written>,
    pub registers: Vec<[Held; 6]>,
}

/// A program that is run: what has been made and written so far, and the registers.
#[derive(Drop)]
pub struct Walk {
    pub makings: Vec<Making>,
    pub written: Vec<Written>,
    pub registers: [Held; 6],
}

fn event(core: Core, place: u8, kind: Kind, loc: Loc) -> Entry
    ensures { result ≡ entry core.0 place kind loc 0 }
{
    Entry {
        core,
        place,
        kind,
        loc,
        value: 0,
    }
}

/// What a register holds among these.
pub fn held_in(registers: &[Held; 6], reg: Reg) -> Held
    ensures held { (made : List spec.Expression) → held_of made result ≡ spec.held_in (map (held_of made) registers.now) reg }
    ensures made { (count : ℕ) → HaveBeenMade count registers.now → HasBeenMade count result }
{
    registers[reg.index()]
}

fn set_register(registers: &mut [Held; 6], reg: Reg, held: Held)
    ensures held { (made : List spec.Expression) → map (held_of made) registers.new
        ≡ slice_set (map (held_of made) registers.old) (index_of reg) (held_of made held) }
    ensures made { (count : ℕ) → HaveBeenMade count registers.old → HasBeenMade count held → HaveBeenMade count registers.new }
{
    registers[reg.index()] = held;
}

fn operand_in(registers: &[Held; 6], operand: Operand) -> Held
    ensures held { (made : List spec.Expression) → held_of made result ≡ spec.operand_in (map (held_of made) registers.now) operand }
    ensures made { (count : ℕ) → HaveBeenMade count registers.now → HasBeenMade count result }
{
    match operand {
        Operand::Number(value) => Held::Number(value),
        Operand::Held(reg) => held_in(registers, reg),
    }
}

/// Makes this, and tells its number.
fn make(walk: &mut Walk, making: Making) -> Result<Held, NoMemory>
    requires walk { IsWalk walk.old }
    requires making { IsMakingOfMade (length walk.old.makings.items) making }
    ensures held { IfOk result (λ h. held_of (made_in walk.new) h ≡ making_of (made_in walk.old) making) }
    ensures made { IfOk result (λ h. HasBeenMade (length walk.new.makings.items) h) }
    ensures more { IfOk result (λ _. IsMore walk.old.makings.items walk.new.makings.items) }
    ensures written { walk.new.written ≡ walk.old.written }
    ensures registers { walk.new.registers ≡ walk.old.registers }
{
    let number = walk.makings.len();
    walk.makings.push(making)?;
    Ok(Held::Made(number))
}

/// What becomes of this word.
fn updated_by(walk: &mut Walk, update: Update, word: Held) -> Result<Held, NoMemory>
    requires walk { IsWalk walk.old }
    requires word { HasBeenMade (length walk.old.makings.items) word }
    ensures held { IfOk result (λ h. held_of (made_in walk.new) h
        ≡ spec.updated_by update (held_registers walk.old) (held_of (made_in walk.old) word)) }
    ensures made { IfOk result (λ h. HasBeenMade (length walk.new.makings.items) h) }
    ensures more { IfOk result (λ _. IsMore walk.old.makings.items walk.new.makings.items) }
    ensures written { walk.new.written ≡ walk.old.written }
    ensures registers { walk.new.registers ≡ walk.old.registers }
{
    match update {
        Update::Replace(operand) => Ok(operand_in(&walk.registers, operand)),
        Update::Combine(operator, operand) => {
            let value = operand_in(&walk.registers, operand);
            make(walk, Making::Combined(operator, word, value))
        }
        Update::Negate => make(walk, Making::Negated(word)),
        Update::CompareExchange(reg) => {
            let eax = held_in(&walk.registers, Reg::Eax);
            let new = held_in(&walk.registers, reg);
            make(walk, Making::Exchanged(word, eax, new))
        }
    }
}

/// The register gets what becomes of its value.
fn set_updated(walk: &mut Walk, reg: Reg, update: Update) -> Result<(), NoMemory>
    requires { IsWalk walk.old }
    ensures walk { IfOk result (λ _. IsWalk walk.new) }
    ensures more { IfOk result (λ _. IsMore walk.old.makings.items walk.new.makings.items) }
    ensures writes { IfOk result (λ _. told_writes walk.new ≡ told_writes walk.old) }
    ensures registers { IfOk result (λ _. held_registers walk.new ≡ slice_set (held_registers walk.old) (index_of reg)
        (spec.updated_by update (held_registers walk.old) (spec.held_in (held_registers walk.old) reg))) }
{
    let word = held_in(&walk.registers, reg);
    let held = updated_by(walk, update, word)?;
    set_register(&mut walk.registers, reg, held);
    Ok(())
}

/// Changes the registers.
fn change(walk: &mut Walk, change: Change) -> Result<(), NoMemory>
    requires { IsWalk walk.old }
    ensures walk { IfOk result (λ _. IsWalk walk.new) }
    ensures more { IfOk result (λ _. IsMore walk.old.makings.items walk.new.makings.items) }
    ensures writes { IfOk result (λ _. told_writes walk.new ≡ told_writes walk.old) }
    ensures registers { IfOk result (λ _. held_registers walk.new ≡ spec.changed_by change (held_registers walk.old)) }
{
    match change {
        Change::Keep => Ok(()),
        Change::Set(reg, update) => set_updated(walk, reg, update),
        Change::Swap(reg, other) => {
            let first = held_in(&walk.registers, reg);
            let second = held_in(&walk.registers, other);
            set_register(&mut walk.registers, reg, second);
            set_register(&mut walk.registers, other, first);
            Ok(())
        }
    }
}

/// The register, if there is one, gets what a read returned.
fn take_returned(registers: &mut [Held; 6], target: Option<Reg>, read: Entry)
    ensures held { (made : List spec.Expression) → map (held_of made) registers.new
        ≡ spec.taken_by (map (held_of made) registers.old) target (spec.Returned read) }
    ensures made { (count : ℕ) → HaveBeenMade count registers.old → HaveBeenMade count registers.new }
{
    if let Some(reg) = target {
        set_register(registers, reg, Held::Returned(read));
    }
}

/// Notes a write.
fn note(walk: &mut Walk, write: Entry, value: Held) -> Result<(), NoMemory>
    requires walk { IsWalk walk.old }
    requires value { HasBeenMade (length walk.old.makings.items) value }
    ensures walk { IfOk result (λ _. IsWalk walk.new) }
    ensures makings { walk.new.makings ≡ walk.old.makings }
    ensures written { IfOk result (λ _. told_writes walk.new
        ≡ told_writes walk.old ++ (record { write = write; value = held_of (made_in walk.old) value } ∷ [])) }
    ensures registers { walk.new.registers ≡ walk.old.registers }
{
    walk.written.push(Written { write, value })?;
    Ok(())
}

/// Runs a locked instruction.
fn lock(
    walk: &mut Walk,
    read: Entry,
    write: Entry,
    target: Option<Reg>,
    update: Update,
) -> Result<(), NoMemory>
    requires { IsWalk walk.old }
    ensures walk { IfOk result (λ _. IsWalk walk.new) }
    ensures more { IfOk result (λ _. IsMore walk.old.makings.items walk.new.makings.items) }
    ensures writes { IfOk result (λ _. told_writes walk.new ≡ told_writes walk.old
        ++ (record { write = write; value = spec.updated_by update (held_registers walk.old) (spec.Returned read) } ∷ [])) }
    ensures registers { IfOk result (λ _. held_registers walk.new ≡ spec.taken_by (held_registers walk.old) target (spec.Returned read)) }
{
    let value = updated_by(walk, update, Held::Returned(read))?;
    note(walk, write, value)?;
    take_returned(&mut walk.registers, target, read);
    Ok(())
}

/// Runs one instruction.
fn run_instruction(walk: &mut Walk, core: Core, place: u8, instr: Instr) -> Result<(), NoMemory>
    requires { IsWalk walk.old }
    ensures walk { IfOk result (λ _. IsWalk walk.new) }
    ensures more { IfOk result (λ _. IsMore walk.old.makings.items walk.new.makings.items) }
    ensures written { IfOk result (λ _. (rest : List Instr)
        → told_writes walk.old ++ spec.written_in core.0 place (instr ∷ rest) (held_registers walk.old)
        ≡ told_writes walk.new ++ spec.written_in core.0 (place + 1) rest (held_registers walk.new)) }
    ensures registers { IfOk result (λ _. (rest : List Instr)
        → spec.registers_at_end core.0 place (instr ∷ rest) (held_registers walk.old)
        ≡ spec.registers_at_end core.0 (place + 1) rest (held_registers walk.new)) }
{
    match instr.action() {
        Action::Store(loc, operand) => {
            let value = operand_in(&walk.registers, operand);
            note(walk, event(core, place, Kind::W, loc), value)
        }
        Action::Load(reg, loc) => {
            let read = event(core, place, Kind::R, loc);
            take_returned(&mut walk.registers, Some(reg), read);
            Ok(())
        }
        Action::Move(moved) => change(walk, moved),
        Action::Fence => Ok(()),
        Action::Lock(loc, target, update) => {
            let read = event(core, place, Kind::LR, loc);
            let write = event(core, place, Kind::LW, loc);
            lock(walk, read, write, target, update)
        }
    }
}

/// Runs a core's program.
fn run_program(walk: &mut Walk, test: &Test, core: Core) -> Result<(), NoMemory>
    requires core { core.0 < length test.now.programs }
    requires walk { IsWalk walk.old }
    ensures walk { IfOk result (λ _. IsWalk walk.new) }
    ensures more { IfOk result (λ _. IsMore walk.old.makings.items walk.new.makings.items) }
    ensures written { IfOk result (λ _. told_writes walk.new ≡ told_writes walk.old
        ++ spec.written_in core.0 0 (slice_index_or test.now.programs core.0 []) (held_registers walk.old)) }
    ensures registers { IfOk result (λ _. held_registers walk.new
        ≡ spec.registers_at_end core.0 0 (slice_index_or test.now.programs core.0 []) (held_registers walk.old)) }
{
    let mut place = 0;
    for instr in test.program(core) {
        run_instruction(walk, core, place, *instr)?;
        place += 1;
    }
    Ok(())
}

/// A core's registers at first.
fn first_registers(test: &Test, core: Core) -> [Held; 6]
    requires { core.0 < length test.now.programs }
    ensures held { (made : List spec.Expression) → map (held_of made) result ≡ spec.first_registers test.now.registers core.0 }
    ensures made { (count : ℕ) → HaveBeenMade count result }
{
    let first = test.initial_registers(core);
    [
        Held::Number(first[0]),
        Held::Number(first[1]),
        Held::Number(first[2]),
        Held::Number(first[3]),
        Held::Number(first[4]),
        Held::Number(first[5]),
    ]
}

/// What all programs make and write, and what their registers hold at the end.
///
/// Errors: out of memory only.
pub fn make_expressions(alloc: Global, test: &Test) -> Result<Expressions, NoMemory>
    ensures { IfOk result (AreExpressions test.now) }
{
    let mut makings = Vec::new(alloc);
    let mut written = Vec::new(alloc);
    let mut registers = Vec::new(alloc);
    for number in 0..test.cores() {
        let core = Core(number);
        let mut walk = Walk {
            makings,
            written,
            registers: first_registers(test, core),
        };
        run_program(&mut walk, test, core)?;
        registers.push(walk.registers)?;
        makings = walk.makings;
        written = walk.written;
    }
    Ok(Expressions {
        makings,
        written,
        registers,
    })
}
