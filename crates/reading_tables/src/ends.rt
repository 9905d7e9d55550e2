//! What locations and registers can hold at the end.
ghost use Rattle.std.specs.Prelude.{◌≡◌, ◌<◌, IfOk, length, map, filter};
ghost use Rattle.possible_reads.specs.Expressions as expressions;
ghost use Rattle.possible_reads.specs.Possible as spec;
ghost use Rattle.reading_tables.specs.Told.{facts_of};
ghost use Rattle.reading_tables.specs.inner.Told.{known_of, told_of};
ghost use Rattle.reading_tables.specs.inner.Tables.{IsProblem, IsTold, AreTableValues, readings_of};

use crate::counting::{counted, is_counter, is_written};
use crate::expressions::held_in;
use crate::facts::{Fact, may_be_left, told_word};
use crate::orders::last_writes;
use crate::rounds::held_values;
use crate::tables::{Problem, Table, Told, values_written};
use crate::values::{both_of, either_of, one};
use refutations::values::first_word;
use std::alloc::Global;
use tso_terms::{Core, Entry, Loc, NoMemory, Reg};

/// What one of these writes can write.
fn values_of_any(
    alloc: Global,
    told: Told<'_>,
    writes: &[Entry],
) -> Result<Option<Vec<u32>>, NoMemory>
    requires { IsTold told }
    ensures { IfOk result (λ v. known_of v ≡ spec.any_of (map (spec.values_written told.entry.test.now (readings_of told.entry.readings.now)) writes.now)) }
{
    let mut all = Some(Vec::new(alloc));
    let mut left = writes.len();
    while left > 0 {
        left -= 1;
        all = either_of(values_written(told, &writes[left]), all)?;
    }
    Ok(all)
}

/// What the last write to a location can leave there.
///
/// Errors: out of memory only.
pub fn last_words(alloc: Global, told: Told<'_>, loc: u8) -> Result<Option<Vec<u32>>, NoMemory>
    requires { IsTold told }
    ensures { IfOk result (λ v. known_of v ≡ spec.last_words told.entry.test.now (facts_of told.entry.facts.now) (readings_of told.entry.readings.now) loc) }
{
    if is_counter(told, loc) {
        one(alloc, counted(told, loc))
    } else if is_written(told.events, loc) {
        let writes = last_writes(alloc, told, loc)?;
        values_of_any(alloc, told, &writes)
    } else {
        one(alloc, first_word(told.test, Loc(loc)))
    }
}

fn left(alloc: Global, values: &[u32], facts: &[Fact<'_>], loc: u8) -> Result<Vec<u32>, NoMemory>
    ensures { IfOk result (λ kept. kept.items ≡ filter (spec.may_be_left (facts_of facts.now) loc) values.now) }
{
    let mut kept = Vec::new(alloc);
    for v in values {
        if may_be_left(facts, loc, *v) {
            kept.push(*v)?;
        }
    }
    Ok(kept)
}

fn kept_words(
    alloc: Global,
    values: &Option<Vec<u32>>,
    facts: &[Fact<'_>],
    loc: u8,
) -> Result<Option<Vec<u32>>, NoMemory>
    ensures { IfOk result (λ v. known_of v ≡ spec.kept (spec.may_be_left (facts_of facts.now) loc) (known_of values.now)) }
{
    match values {
        None => Ok(None),
        Some(values) => Ok(Some(left(alloc, values, facts, loc)?)),
    }
}

fn told_words(alloc: Global, facts: &[Fact<'_>], loc: u8) -> Result<Option<Vec<u32>>, NoMemory>
    ensures { IfOk result (λ v. known_of v ≡ spec.told_word (facts_of facts.now) loc) }
{
    match told_word(facts, loc) {
        Some(value) => one(alloc, value),
        None => Ok(None),
    }
}

/// What a location can hold at the end.
///
/// Errors: out of memory only.
pub fn words_left(alloc: Global, told: Told<'_>, loc: u8) -> Result<Option<Vec<u32>>, NoMemory>
    requires { IsTold told }
    ensures { IfOk result (λ v. known_of v ≡ spec.words_left told.entry.test.now (facts_of told.entry.facts.now) (readings_of told.entry.readings.now) loc) }
{
    let words = last_words(alloc, told, loc)?;
    let by_facts = told_words(alloc, told.facts, loc)?;
    let both = both_of(alloc, &by_facts, &words)?;
    kept_words(alloc, &both, told.facts, loc)
}

/// What a core's register can hold at the end.
///
/// Errors: out of memory only.
pub fn register_values(
    alloc: Global,
    problem: &Problem<'_>,
    table: &Table,
    core: Core,
    reg: Reg,
) -> Result<Option<Vec<u32>>, NoMemory>
    requires problem { IsProblem problem.now.test.now problem.now }
    requires values { AreTableValues problem.now table.now }
    requires core { core.0 < length problem.now.test.now.programs }
    ensures { IfOk result (λ v. known_of v ≡ spec.values_of (spec.values_read (readings_of table.now.readings.items))
        (expressions.register_left problem.now.test.now core.0 reg)) }
{
    let registers = &problem.expressions.registers[usize::from(core.0)];
    held_values(alloc, &table.readings, &table.made, held_in(registers, reg))
}
