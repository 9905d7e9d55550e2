//! What an instruction does: five cases, by which everything goes that runs, judges or limits a program.
ghost use Rattle.std.specs.Prelude.{◌≡◌};
ghost use Rattle.tso_terms.specs.Actions.{action_of, location_of};
ghost use Rattle.tso_terms.specs.Thread.{value_of, with_taken, changed, combined, updated};

use crate::instruction::{Instr, Loc};
use crate::register::Reg;

/// A value that an instruction is given.
#[derive(Clone, Copy)]
pub enum Operand {
    /// A number in the instruction.
    Number(u32),
    /// What a register holds.
    Held(Reg),
}

/// What is made of two words: the one that is changed, and the operand's value.
#[derive(Clone, Copy)]
pub enum Operator {
    /// Their sum modulo 2^32: ADD, XADD, and INC with 1.
    Add,
    /// The first without the second, modulo 2^32: SUB, and DEC with 1.
    Subtract,
    /// AND, bit by bit.
    And,
    /// OR, bit by bit.
    Or,
    /// XOR, bit by bit; NOT with 2^32 - 1.
    Xor,
}

/// What becomes of a word, of a register or a location.
#[derive(Clone, Copy)]
pub enum Update {
    /// The operand's value.
    Replace(Operand),
    /// What the operator makes of the word and the operand's value.
    Combine(Operator, Operand),
    /// Zero without the word, modulo 2^32: NEG.
    Negate,
    /// The register's value where the word is EAX's; else the word.
    CompareExchange(Reg),
}

/// What a move does to the registers of its core.
#[derive(Clone, Copy)]
pub enum Change {
    /// Nothing.
    Keep,
    /// The register gets what the update makes of its value.
    Set(Reg, Update),
    /// The two registers exchange their values.
    Swap(Reg, Reg),
}

/// What an instruction does.
#[derive(Clone, Copy)]
pub enum Action {
    /// A plain store: the location gets the value.
    Store(Loc, Operand),
    /// A plain load: the register gets the location's word.
    Load(Reg, Loc),
    /// A move: registers alone.
    Move(Change),
    /// A fence.
    Fence,
    /// A locked read and write: the location gets what the update makes of its word; the register, if
    /// there is one, gets the word that was read.
    Lock(Loc, Option<Reg>, Update),
}

impl Instr {
    /// What the instruction does.
    pub fn action(self) -> Action
        ensures { result ≡ action_of self }
    {
        match self {
            Instr::StoreImm(loc, value) => Action::Store(loc, Operand::Number(value)),
            Instr::StoreReg(loc, reg) => Action::Store(loc, Operand::Held(reg)),
            Instr::Load(reg, loc) => Action::Load(reg, loc),
            Instr::SetImm(reg, value) => {
                Action::Move(Change::Set(reg, Update::Replace(Operand::Number(value))))
            },
            Instr::SetReg(reg, other) => {
                Action::Move(Change::Set(reg, Update::Replace(Operand::Held(other))))
            },
            Instr::Fence => Action::Fence,
            Instr::Xchg(loc, reg) => {
                Action::Lock(loc, Some(reg), Update::Replace(Operand::Held(reg)))
            }
            Instr::Xadd(loc, reg) => Action::Lock(
                loc,
                Some(reg),
                Update::Combine(Operator::Add, Operand::Held(reg)),
            ),
            Instr::CompareExchange(loc, reg) => {
                Action::Lock(loc, Some(Reg::Eax), Update::CompareExchange(reg))
            }
            Instr::LockedCombine(loc, operator, operand) => {
                Action::Lock(loc, None, Update::Combine(operator, operand))
            }
            Instr::Combine(reg, operator, operand) => {
                Action::Move(Change::Set(reg, Update::Combine(operator, operand)))
            }
            Instr::LockedNegate(loc) => Action::Lock(loc, None, Update::Negate),
            Instr::Negate(reg) => Action::Move(Change::Set(reg, Update::Negate)),
            Instr::Swap(reg, other) => Action::Move(Change::Swap(reg, other)),
            Instr::Nop => Action::Move(Change::Keep),
        }
    }
}

impl Action {
    /// The location that the action reads or writes, if it does.
    pub fn location(self) -> Option<Loc>
        ensures { result ≡ location_of self }
    {
        match self {
            Action::Store(loc, _) | Action::Load(_, loc) | Action::Lock(loc, _, _) => Some(loc),
            Action::Move(..) | Action::Fence => None,
        }
    }
}

impl Operand {
    /// The value with these registers.
    pub fn value(self, registers: &[u32; 6]) -> u32
        ensures { result ≡ value_of registers.now self }
    {
        match self {
            Operand::Number(value) => value,
            Operand::Held(reg) => registers[reg.index()],
        }
    }
}

impl Operator {
    /// What is made of this word and this value.
    pub fn apply(self, word: u32, value: u32) -> u32
        ensures { result ≡ combined self word value }
    {
        match self {
            Operator::Add => word.wrapping_add(value),
            Operator::Subtract => word.wrapping_sub(value),
            Operator::And => word & value,
            Operator::Or => word | value,
            Operator::Xor => word ^ value,
        }
    }
}

impl Update {
    /// What becomes of this word, with these registers.
    #[inline(always)]
    pub fn apply(self, registers: &[u32; 6], word: u32) -> u32
        ensures { result ≡ updated self registers.now word }
    {
        match self {
            Update::Replace(operand) => operand.value(registers),
            Update::Combine(operator, operand) => operator.apply(word, operand.value(registers)),
            Update::Negate => 0_u32.wrapping_sub(word),
            Update::CompareExchange(reg) => {
                if word == registers[Reg::Eax.index()] {
                    registers[reg.index()]
                } else {
                    word
                }
            }
        }
    }
}

impl Change {
    /// Changes the registers.
    #[inline(always)]
    pub fn apply(self, registers: &mut [u32; 6])
        ensures { registers.new ≡ changed self registers.old }
    {
        match self {
            Change::Keep => {}
            Change::Set(reg, update) => {
                let value = update.apply(registers, registers[reg.index()]);
                registers[reg.index()] = value;
            }
            Change::Swap(reg, other) => {
                let value = registers[reg.index()];
                registers[reg.index()] = registers[other.index()];
                registers[other.index()] = value;
            }
        }
    }
}

/// The register, if there is one, gets the word.
#[inline(always)]
pub fn take(registers: &mut [u32; 6], target: Option<Reg>, word: u32)
    ensures { registers.new ≡ with_taken registers.old target word }
{
    if let Some(reg) = target {
        registers[reg.index()] = word;
    }
}
