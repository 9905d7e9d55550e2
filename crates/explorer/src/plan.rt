//! What a search goes by: the test, the depth of its store buffers, and for each place of a program which registers are dead
//! there, and what is still to come. That depends on the place alone, so it is worked out once, before the search, and not in
//! each state. A register called dead that is read would make the search take different states for one.
ghost use Rattle.std.specs.Prelude.{◌≡◌, IfOk};
ghost use Rattle.tso_laws.specs.Dead.{unless_read, dead_before, hidden_of};
ghost use Rattle.explorer.specs.inner.Planned.{AreDead, IsPlan};

use crate::alike::alike_pairs;
use crate::coming::{Accesses, accesses_to_come};
use std::alloc::Global;
use tso_terms::{Action, Change, Core, Instr, NoMemory, Operand, Reg, Test, Update};

/// What a search goes by.
#[derive(Drop)]
pub struct Plan<'a> {
    pub test: &'a Test,
    /// How many stores each core's buffer holds.
    pub depth: u8,
    /// For each core which of its registers nobody looks at; of a core that isn't there all are looked at.
    pub hidden: &'a [[bool; 6]],
    /// For each core, by how many of its instructions are still to come, which of its registers are dead.
    pub dead: Vec<Vec<[bool; 6]>>,
    /// For each core, by how many of its instructions are still to come, what these do to memory.
    pub coming: Vec<Vec<Accesses>>,
    /// Pairs of cores that are alike.
    pub alike: Vec<(u8, u8)>,
}

/// A register that the operand reads isn't dead.
fn unless_read(operand: Operand, dead: [bool; 6]) -> [bool; 6]
    ensures { result ≡ Rattle.tso_laws.specs.Dead.unless_read operand dead }
{
    let mut before = dead;
    if let Operand::Held(reg) = operand {
        before[reg.index()] = false;
    }
    before
}

/// A register that the update reads, beside the word that it changes, isn't dead.
fn unless_used(update: Update, dead: [bool; 6]) -> [bool; 6]
    ensures { result ≡ Rattle.tso_laws.specs.Dead.unless_used update dead }
{
    match update {
        Update::Replace(operand) | Update::Combine(_, operand) => unless_read(operand, dead),
        Update::Negate => dead,
        Update::CompareExchange(reg) => unless_read(
            Operand::Held(Reg::Eax),
            unless_read(Operand::Held(reg), dead),
        ),
    }
}

/// Which registers are dead before a move, where these are dead after it.
fn before_change(change: Change, dead: [bool; 6]) -> [bool; 6]
    ensures { result ≡ Rattle.tso_laws.specs.Dead.before_change change dead }
{
    let mut before = dead;
    match change {
        Change::Keep => dead,
        Change::Set(reg, update) => {
            before[reg.index()] = matches!(update, Update::Replace(_));
            unless_used(update, before)
        }
        Change::Swap(reg, other) => {
            before[reg.index()] = false;
            before[other.index()] = false;
            before
        }
    }
}

/// The register that gets the word that a locked instruction reads, if there is one, is dead before.
fn before_taking(target: Option<Reg>, dead: [bool; 6]) -> [bool; 6]
    ensures { result ≡ Rattle.tso_laws.specs.Dead.before_taking target dead }
{
    let mut before = dead;
    if let Some(reg) = target {
        before[reg.index()] = true;
    }
    before
}

/// Which registers are dead before an action, where these are dead after it.
fn dead_before(action: Action, dead: [bool; 6]) -> [bool; 6]
    ensures { result ≡ Rattle.tso_laws.specs.Dead.dead_before action dead }
{
    let mut before = dead;
    match action {
        Action::Store(_, operand) => unless_read(operand, dead),
        Action::Load(reg, _) => {
            before[reg.index()] = true;
            before
        }
        Action::Move(change) => before_change(change, dead),
        Action::Fence => dead,
        Action::Lock(_, target, update) => unless_used(update, before_taking(target, dead)),
    }
}

/// Which registers of a core are dead, by how many of its instructions are still to come.
///
/// Errors: out of memory only.
fn dead_registers(
    alloc: Global,
    program: &[Instr],
    hidden: [bool; 6],
) -> Result<Vec<[bool; 6]>, NoMemory>
    ensures { IfOk result (λ rows. AreDead program.now hidden rows.items) }
{
    let mut rows = Vec::new(alloc);
    rows.push(hidden)?;
    for left in 0..program.len() {
        let action = program[program.len() - 1 - left].action();
        let before = dead_before(action, rows[left]);
        rows.push(before)?;
    }
    Ok(rows)
}

/// The hidden registers of a core, if there are any.
pub fn hidden_of(hidden: &[[bool; 6]], core: u8) -> [bool; 6]
    ensures { result ≡ Rattle.tso_laws.specs.Dead.hidden_of hidden.now core }
{
    match hidden.get(usize::from(core)) {
        Some(registers) => *registers,
        None => [false; 6],
    }
}

/// What a search of the test at this depth goes by, where nobody looks at the hidden registers.
///
/// Errors: out of memory only.
pub fn plan_of<'a>(
    alloc: Global,
    test: &'a Test,
    depth: u8,
    hidden: &'a [[bool; 6]],
) -> Result<Plan<'a>, NoMemory>
    ensures plan { IfOk result IsPlan }
    ensures test { IfOk result (λ plan. plan.test.now ≡ test.now) }
    ensures depth { IfOk result (λ plan. plan.depth ≡ depth) }
    ensures hidden { IfOk result (λ plan. plan.hidden.now ≡ hidden.now) }
{
    let mut dead = Vec::new(alloc);
    let mut coming = Vec::new(alloc);
    for core in 0..test.cores() {
        let hidden = hidden_of(hidden, core);
        dead.push(dead_registers(alloc, test.program(Core(core)), hidden)?)?;
        coming.push(accesses_to_come(alloc, test.program(Core(core)))?)?;
    }
    let alike = alike_pairs(alloc, test, hidden)?;
    Ok(Plan {
        test,
        depth,
        hidden,
        dead,
        coming,
        alike,
    })
}
