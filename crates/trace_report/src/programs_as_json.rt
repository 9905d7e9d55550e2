//! The programs of a test as a value: each instruction as a test's text spells it.

ghost use Rattle.std.specs.Prelude.{◌≡◌, ◌++◌, All, IfOk, codes, length};
ghost use Rattle.serde_json.specs.Data.{string};
ghost use Rattle.serde_json.specs.View.{view};
ghost use Rattle.tso_terms.specs.Litmus.{KnownLocation};
ghost use Rattle.tso_terms.specs.Registers.{name_of};
ghost use Rattle.tso_report.specs.inner.Pieces.{line_piece};
ghost use Rattle.trace_report.specs.ProgramsJson.{operator_name, operand_text, instruction_text, program_value, programs_value};

use crate::texts_as_json::text_value;
use serde_json::Value;
use std::alloc::Global;
use tso_report::arrays::Array;
use tso_report::pieces::Piece;
use tso_terms::{Core, Instr, NoMemory, Operand, Operator, Reg, Test};

/// For each core a list of its instructions, each as a text: `MOV [x],$1`.
///
/// Errors: out of memory only.
pub fn programs_value(alloc: Global, test: &Test) -> Result<Value, NoMemory>
    ensures { IfOk result (λ value. view value ≡ programs_value test.now) }
{
    let mut programs = Array::new(alloc);
    for core in 0..test.cores() {
        programs = programs.with(program_value(alloc, test, test.program(Core(core))));
    }
    programs.value()
}

fn program_value(alloc: Global, test: &Test, program: &[Instr]) -> Result<Value, NoMemory>
    requires { All (KnownLocation (length test.now.locations)) program.now }
    ensures { IfOk result (λ value. view value ≡ program_value test.now program.now) }
{
    let mut texts = Array::new(alloc);
    for instr in program {
        texts = texts.with(instruction_value(alloc, test, instr));
    }
    texts.value()
}

/// An instruction as a cell of a test's table spells it.
///
/// Errors: out of memory only.
fn instruction_value(alloc: Global, test: &Test, instr: &Instr) -> Result<Value, NoMemory>
    requires { KnownLocation (length test.now.locations) instr.now }
    ensures { IfOk result (λ value. view value ≡ string (instruction_text test.now instr.now)) }
{
    match *instr {
        Instr::StoreImm(loc, value) => {
            let value = Piece::Number(value as u64);
            spelled(alloc, "MOV [", test.location_name(loc), "],$", value, "")
        }
        Instr::StoreReg(loc, reg) => with_location(alloc, "MOV [", test.location_name(loc), reg),
        Instr::Load(reg, loc) => {
            let name = Piece::Text(test.location_name(loc));
            spelled(alloc, "MOV ", reg.name(), ",[", name, "]")
        }
        Instr::SetImm(reg, value) => {
            let value = Piece::Number(value as u64);
            spelled(alloc, "MOV ", reg.name(), ",$", value, "")
        }
        Instr::SetReg(reg, from) => {
            spelled(alloc, "MOV ", reg.name(), ",", Piece::Text(from.name()), "")
        }
        Instr::Fence => text_value(alloc, &[Piece::Text("MFENCE")]),
        Instr::Xchg(loc, reg) => with_location(alloc, "XCHG [", test.location_name(loc), reg),
        Instr::Xadd(loc, reg) => with_location(alloc, "LOCK XADD [", test.location_name(loc), reg),
        Instr::CompareExchange(loc, reg) => {
            with_location(alloc, "LOCK CMPXCHG [", test.location_name(loc), reg)
        }
        Instr::LockedCombine(loc, operator, operand) => {
            let name = test.location_name(loc);
            combined(alloc, "LOCK ", operator, " [", name, "],", operand)
        }
        Instr::LockedNegate(loc) => {
            let name = Piece::Text(test.location_name(loc));
            text_value(alloc, &[Piece::Text("LOCK NEG ["), name, Piece::Text("]")])
        }
        Instr::Combine(reg, operator, operand) => {
            combined(alloc, "", operator, " ", reg.name(), ",", operand)
        }
        Instr::Negate(reg) => { text_value(alloc, &[Piece::Text("NEG "), Piece::Text(reg.name())]) }
        Instr::Swap(reg, other) => {
            spelled(
                alloc,
                "XCHG ",
                reg.name(),
                ",",
                Piece::Text(other.name()),
                "",
            )
        }
        Instr::Nop => text_value(alloc, &[Piece::Text("NOP")]),
    }
}

fn operator_name(operator: Operator) -> &'static str
    ensures { result.now ≡ operator_name operator }
{
    match operator {
        Operator::Add => "ADD",
        Operator::Subtract => "SUB",
        Operator::And => "AND",
        Operator::Or => "OR",
        Operator::Xor => "XOR",
    }
}

/// An instruction that combines a word with an operand: with what stands before the operator, behind it, and behind the word.
fn combined<'a>(
    alloc: Global,
    front: &'a str,
    operator: Operator,
    before: &'a str,
    word: &'a str,
    after: &'a str,
    operand: Operand,
) -> Result<Value, NoMemory>
    ensures { IfOk result (λ value. view value ≡ string (front.now ++ (operator_name operator
        ++ (before.now ++ (word.now ++ (after.now ++ operand_text operand)))))) }
{
    let (sign, value) = match operand {
        Operand::Number(number) => ("$", Piece::Number(number as u64)),
        Operand::Held(reg) => ("", Piece::Text(reg.name())),
    };
    let pieces = [
        Piece::Text(front),
        Piece::Text(operator_name(operator)),
        Piece::Text(before),
        Piece::Text(word),
        Piece::Text(after),
        Piece::Text(sign),
        value,
    ];
    text_value(alloc, &pieces)
}

/// An instruction of a location and then a register, `MOV [x],EAX`.
fn with_location(alloc: Global, front: &str, name: &str, reg: Reg) -> Result<Value, NoMemory>
    ensures { IfOk result (λ value. view value ≡ string (front.now ++ (name.now ++ (codes "]," ++ name_of reg)))) }
{
    spelled(alloc, front, name, "],", Piece::Text(reg.name()), "")
}

/// An instruction of two operands, with what comes before, between and after them.
fn spelled<'a>(
    alloc: Global,
    front: &'a str,
    first: &'a str,
    between: &'a str,
    second: Piece<'a>,
    end: &'a str,
) -> Result<Value, NoMemory>
    ensures { IfOk result (λ value. view value ≡ string (front.now ++ (first.now ++ (between.now ++ (line_piece second.entry ++ end.now))))) }
{
    let pieces = [
        Piece::Text(front),
        Piece::Text(first),
        Piece::Text(between),
        second,
        Piece::Text(end),
    ];
    text_value(alloc, &pieces)
}
