//! The parts of a test, made of what was read: only here are names copied; while reading they are slices of the text.

ghost use Rattle.std.specs.Prelude.{◌≡◌, Ok, IfOk, OnOk, All, map, replicate, string_bytes};
ghost use Rattle.std.specs.Str.{IsUtf8};
ghost use Rattle.std.specs.List.{range_with_len};
ghost use Rattle.tso_terms.specs.Names as names;
ghost use Rattle.tso_terms.specs.LitmusParts.{litmus_of};
ghost use Rattle.litmus_tokens.specs.Faults.{Gives};
ghost use Rattle.litmus_tokens.specs.Locations.{texts};
ghost use Rattle.litmus_reader.specs.inner.Initial as initial;
ghost use Rattle.litmus_reader.specs.Reading as spec;
ghost use Rattle.litmus_reader.specs.Returned.{asked_of};

use crate::row::Table;
use litmus_cells::{CoreInstr, ReadError};
use std::alloc::Global;
use std::mem::replace;
use tso_terms::{Cond, Instr, NoMemory, TestParts};

fn string_of(alloc: Global, bytes: &[u8]) -> Result<String, NoMemory>
    requires { IsUtf8 bytes.now }
    ensures { IfOk result (λ text. string_bytes text ≡ bytes.now) }
{
    Ok(String::from_utf8_lossy(alloc, bytes)?)
}

#[tactic(auto, using(crate::proofs::PartsAssembled::texts_next, std::proofs::lemmas::List::map_push, std::proofs::lemmas::List::take_all))]
fn strings_of(alloc: Global, names: &[&[u8]]) -> Result<Vec<String>, NoMemory>
    requires { All (λ name. IsUtf8 name) (texts names.now) }
    ensures { IfOk result (λ v. map string_bytes v.items ≡ texts names.now) }
{
    let mut strings = Vec::new(alloc);
    for name in names {
        strings.push(string_of(alloc, name)?)?;
    }
    Ok(strings)
}

/// Puts zeros after the words, so that they are so many in all.
#[tactic(auto, using(std::proofs::lemmas::List::take_all))]
fn fill_words(words: &mut Vec<u32>, count: usize) -> Result<(), NoMemory>
    ensures { OnOk result (words.new.items ≡ initial.words_of count words.old.items) }
{
    if words.len() < count {
        words.resize(count, 0)?;
    }
    Ok(())
}

#[tactic(auto, using(crate::proofs::PartsAssembled::program_more, crate::proofs::PartsAssembled::program_same))]
fn program_of(alloc: Global, instrs: &[CoreInstr], core: usize) -> Result<Vec<Instr>, NoMemory>
    ensures { IfOk result (λ v. v.items ≡ spec.program_of instrs.now core) }
{
    let mut program = Vec::new(alloc);
    for i in instrs {
        if i.core == core {
            program.push(i.instr)?;
        }
    }
    Ok(program)
}

#[tactic(auto, using(crate::proofs::PartsAssembled::programs_next, std::proofs::lemmas::List::map_push))]
fn programs_of(
    alloc: Global,
    instrs: &[CoreInstr],
    cores: usize,
) -> Result<Vec<Vec<Instr>>, NoMemory>
    ensures { IfOk result (λ v. map (λ program. program.items) v.items ≡ map (spec.program_of instrs.now) (range_with_len 0 cores)) }
{
    let mut programs = Vec::new(alloc);
    for core in 0..cores {
        programs.push(program_of(alloc, instrs, core)?)?;
    }
    Ok(programs)
}

/// The parts of a test, taken from what was read: the words of locations that the initial state doesn't
/// name are 0.
///
/// Errors: out of memory only.
pub fn parts_of(
    alloc: Global,
    name: &[u8],
    names: &[&[u8]],
    words: &mut Vec<u32>,
    table: &mut Table,
    cond: &mut Option<Cond>,
) -> Result<TestParts, ReadError>
    requires name { IsUtf8 name.now }
    requires names { All (λ name. IsUtf8 name) (texts names.now) }
    ensures { Gives (λ parts. litmus_of parts) result
        (Ok (spec.test_of name.now (texts names.now) words.old.items table.old.registers.items table.old.instrs.items (asked_of cond.old))) }
{
    let cores = table.registers.len();
    fill_words(words, names.len())?;
    Ok(TestParts {
        name: string_of(alloc, name)?,
        locations: strings_of(alloc, names)?,
        programs: programs_of(alloc, &table.instrs, cores)?,
        words: replace(words, Vec::new(alloc)),
        registers: replace(&mut table.registers, Vec::new(alloc)),
        cond: replace(cond, None),
    })
}
