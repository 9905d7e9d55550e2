//! Which cores of a test are alike: the same program, the same first registers and the same hidden registers. States that
//! differ by which of two such cores is which are kept as one; cores called alike that differ would make a search miss final
//! states.
ghost use Rattle.std.specs.Prelude.{◌≡◌, IfOk, true};
ghost use Rattle.tso_laws.specs.Exchanged.{AreAllAlike};

use crate::plan::hidden_of;
use std::alloc::Global;
use tso_terms::{Core, Instr, NoMemory, Operand, Operator, Reg, Test};

/// Whether two registers are the same.
fn is_same_register(reg: Reg, other: Reg) -> bool
    ensures { result ≡ true → reg ≡ other }
{
    reg.index() == other.index()
}

/// Whether two operators are the same.
fn is_same_operator(operator: Operator, other: Operator) -> bool
    ensures { result ≡ true → operator ≡ other }
{
    matches!(
        (operator, other),
        (Operator::Add, Operator::Add)
            | (Operator::Subtract, Operator::Subtract)
            | (Operator::And, Operator::And)
            | (Operator::Or, Operator::Or)
            | (Operator::Xor, Operator::Xor)
    )
}

/// Whether two operands are the same.
fn is_same_operand(operand: Operand, other: Operand) -> bool
    ensures { result ≡ true → operand ≡ other }
{
    match (operand, other) {
        (Operand::Number(value), Operand::Number(number)) => value == number,
        (Operand::Held(reg), Operand::Held(held)) => is_same_register(reg, held),
        _ => false,
    }
}

/// Whether two instructions are the same.
fn is_same_instr(instr: Instr, other: Instr) -> bool
    ensures { result ≡ true → instr ≡ other }
{
    match (instr, other) {
        (Instr::StoreImm(loc, value), Instr::StoreImm(at, number)) => {
            loc.0 == at.0 && value == number
        }
        (Instr::StoreReg(loc, reg), Instr::StoreReg(at, held)) => {
            loc.0 == at.0 && is_same_register(reg, held)
        }
        (Instr::Load(reg, loc), Instr::Load(held, at)) => {
            loc.0 == at.0 && is_same_register(reg, held)
        }
        (Instr::SetImm(reg, value), Instr::SetImm(held, number)) => {
            value == number && is_same_register(reg, held)
        }
        (Instr::SetReg(reg, from), Instr::SetReg(held, source)) => {
            is_same_register(reg, held) && is_same_register(from, source)
        }
        (Instr::Fence, Instr::Fence) => true,
        (Instr::Xchg(loc, reg), Instr::Xchg(at, held)) => {
            loc.0 == at.0 && is_same_register(reg, held)
        }
        (Instr::Xadd(loc, reg), Instr::Xadd(at, held)) => {
            loc.0 == at.0 && is_same_register(reg, held)
        }
        (Instr::CompareExchange(loc, reg), Instr::CompareExchange(at, held)) => {
            loc.0 == at.0 && is_same_register(reg, held)
        }
        (Instr::LockedCombine(loc, by, operand), Instr::LockedCombine(at, operator, other)) => {
            loc.0 == at.0 && is_same_operator(by, operator) && is_same_operand(operand, other)
        }
        (Instr::Combine(reg, by, operand), Instr::Combine(held, operator, other)) => {
            is_same_register(reg, held)
                && is_same_operator(by, operator)
                && is_same_operand(operand, other)
        }
        (Instr::LockedNegate(loc), Instr::LockedNegate(at)) => loc.0 == at.0,
        (Instr::Negate(reg), Instr::Negate(held)) => is_same_register(reg, held),
        (Instr::Swap(reg, with), Instr::Swap(held, other)) => {
            is_same_register(reg, held) && is_same_register(with, other)
        }
        (Instr::Nop, Instr::Nop) => true,
        _ => false,
    }
}

/// Whether two programs are the same.
fn is_same_program(program: &[Instr], other: &[Instr]) -> bool
    ensures { result ≡ true → program.now ≡ other.now }
{
    if program.len() != other.len() {
        return false;
    }
    for place in 0..program.len() {
        if !is_same_instr(program[place], other[place]) {
            return false;
        }
    }
    true
}

/// Pairs of cores that are alike: each core with the next one like it. Nobody looks at the hidden registers.
///
/// Errors: out of memory only.
pub fn alike_pairs(
    alloc: Global,
    test: &Test,
    hidden: &[[bool; 6]],
) -> Result<Vec<(u8, u8)>, NoMemory>
    ensures { IfOk result (λ pairs. AreAllAlike test.now hidden.now pairs.items) }
{
    let mut pairs = Vec::new(alloc);
    let cores = test.cores();
    for core in 0..cores {
        let registers = test.initial_registers(Core(core));
        for other in core + 1..cores {
            if registers == test.initial_registers(Core(other))
                && hidden_of(hidden, core) == hidden_of(hidden, other)
                && is_same_program(test.program(Core(core)), test.program(Core(other)))
            {
                pairs.push((core, other))?;
                break;
            }
        }
    }
    Ok(pairs)
}
