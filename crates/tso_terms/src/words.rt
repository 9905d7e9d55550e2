//! What the types of a test's parts say of their values: each is a word of 32 bits. Nothing here tests anything: who calls
//! one of these functions knows its clause from then on.

ghost use Rattle.std.specs.Prelude.{All};
ghost use Rattle.tso_terms.specs.Registers.{IsWord, AreRegisters};
ghost use Rattle.tso_terms.specs.Litmus.{ConstantIsWord, OperandIsWord, HasWords};
ghost use Rattle.tso_terms.specs.LitmusParts.{litmus_of};

use crate::action::Operand;
use crate::instruction::Instr;
use crate::litmus::TestParts;

/// Each value of a test's parts is a word, and each core has six registers.
pub fn know_values(parts: &TestParts)
    ensures { HasWords (litmus_of parts.now) }
{
    know_words(&parts.words);
    know_registers(&parts.registers);
    know_programs(&parts.programs);
}

fn know_words(words: &[u32])
    ensures { All IsWord words.now }
{}

fn know_registers(all: &[[u32; 6]])
    ensures { All AreRegisters all.now }
{
    for registers in all {
        know_words(registers);
    }
}

fn know_programs(programs: &[Vec<Instr>])
    ensures { All (λ program. All ConstantIsWord program.items) programs.now }
{
    for program in programs {
        know_constants(program);
    }
}

fn know_constants(program: &[Instr])
    ensures { All ConstantIsWord program.now }
{
    for instr in program {
        know_constant(instr);
    }
}

fn know_constant(instr: &Instr)
    ensures { ConstantIsWord instr.now }
{
    match instr {
        Instr::StoreImm(_, value) | Instr::SetImm(_, value) => {
            let _known = *value;
        }
        Instr::LockedCombine(_, _, operand) | Instr::Combine(_, _, operand) => {
            know_operand(operand);
        }
        _ => {}
    }
}

fn know_operand(operand: &Operand)
    ensures { OperandIsWord operand.now }
{
    match operand {
        Operand::Number(value) => {
            let _known = *value;
        }
        Operand::Held(_) => {}
    }
}
