//! A cell of a row, and the instruction that its form says. A cell that spells no instruction must be refused: one that was
//! passed over would leave a shorter program, and another test.

ghost use Rattle.std.specs.Prelude.{◌≡◌};
ghost use Rattle.litmus_tokens.specs.inner.Returned.{GivesNamed};
ghost use Rattle.litmus_cells.specs.inner.Returned.{GivesCells};
ghost use Rattle.litmus_tokens.specs.Locations.{texts};
ghost use Rattle.litmus_tokens.specs.inner.Forms.{shape_of};
ghost use Rattle.litmus_cells.specs.Cells as spec;

use litmus_tokens::{
    Fault, Form, Instructions, ReadError, Token, Use, Why, constant_at, form_of, located,
};
use tso_terms::limits::MAX_INSTRUCTIONS;
use tso_terms::{Instr, Operand};

/// An instruction and the core in whose column it stands.
#[derive(Clone, Copy)]
pub struct CoreInstr {
    pub core: usize,
    pub instr: Instr,
}

/// The instruction of a form, with its location's number.
///
/// `BadNumber` for a value over a word, `TooLarge` for a location too many, both at `remaining`.
#[tactic(auto, unfolding(crate::specs::Cells::instr_of))]
fn instr_of<'a>(
    names: &mut Vec<&'a [u8]>,
    remaining: usize,
    form: Form<'a>,
) -> Result<Instr, ReadError>
    ensures { GivesNamed (λ i. i) result names.new.items (spec.instr_of remaining (texts names.old.items) (shape_of form.entry)) }
{
    match form {
        Form::StoreImm(name, value) => {
            let value = constant_at(remaining, value)?;
            let loc = located(names, remaining, name)?;
            Ok(Instr::StoreImm(loc, value))
        }
        Form::SetImm(reg, value) => {
            let value = constant_at(remaining, value)?;
            Ok(Instr::SetImm(reg, value))
        }
        Form::SetReg(reg, other) => Ok(Instr::SetReg(reg, other)),
        Form::Fence => Ok(Instr::Fence),
        Form::At(how, name, reg) => {
            let loc = located(names, remaining, name)?;
            match how {
                Use::Store => Ok(Instr::StoreReg(loc, reg)),
                Use::Load => Ok(Instr::Load(reg, loc)),
                Use::Xchg => Ok(Instr::Xchg(loc, reg)),
                Use::Xadd => Ok(Instr::Xadd(loc, reg)),
                Use::CompareExchange => Ok(Instr::CompareExchange(loc, reg)),
            }
        }
        Form::LockedImm(operator, name, value) => {
            let value = constant_at(remaining, value)?;
            let loc = located(names, remaining, name)?;
            Ok(Instr::LockedCombine(loc, operator, Operand::Number(value)))
        }
        Form::LockedReg(operator, name, reg) => {
            let loc = located(names, remaining, name)?;
            Ok(Instr::LockedCombine(loc, operator, Operand::Held(reg)))
        }
        Form::LockedNegate(name) => {
            let loc = located(names, remaining, name)?;
            Ok(Instr::LockedNegate(loc))
        }
        Form::CombineImm(operator, reg, value) => {
            let value = constant_at(remaining, value)?;
            Ok(Instr::Combine(reg, operator, Operand::Number(value)))
        }
        Form::CombineReg(operator, reg, other) => {
            Ok(Instr::Combine(reg, operator, Operand::Held(other)))
        }
        Form::Negate(reg) => Ok(Instr::Negate(reg)),
        Form::Swap(reg, other) => Ok(Instr::Swap(reg, other)),
        Form::Nothing => Ok(Instr::Nop),
    }
}

fn count_of(core: usize, instrs: &[CoreInstr]) -> usize
    ensures { result ≡ spec.count_of core instrs.now }
{
    let mut count = 0usize;
    for i in instrs {
        if i.core == core {
            count += 1;
        }
    }
    count
}

/// Reads a core's cell: its instruction goes after the others.
///
/// `BadInstruction`, then `BadNumber`, then `TooLarge`, at the cell's first token.
#[tactic(auto, unfolding(crate::specs::Cells::cell_in))]
pub fn read_cell<'a>(
    set: Instructions,
    core: usize,
    instrs: &mut Vec<CoreInstr>,
    names: &mut Vec<&'a [u8]>,
    cell: &[Token<'a>],
) -> Result<(), ReadError>
    ensures { GivesCells (spec.cell_in set core) instrs.old.items names.old.items cell.now result instrs.new.items names.new.items }
{
    let Some(first) = cell.first() else {
        return Ok(());
    };
    let remaining = first.remaining;
    let Some(form) = form_of(set, cell) else {
        return Err(ReadError::Fault(Fault {
            why: Why::BadInstruction,
            remaining,
        }));
    };
    let instr = instr_of(names, remaining, form)?;
    if count_of(core, instrs) >= MAX_INSTRUCTIONS {
        return Err(ReadError::Fault(Fault {
            why: Why::TooLarge,
            remaining,
        }));
    }
    instrs.push(CoreInstr { core, instr })?;
    Ok(())
}
