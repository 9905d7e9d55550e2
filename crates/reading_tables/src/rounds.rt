//! Rounds: in each, what every read can read from and return goes by what the round before left.
ghost use Rattle.std.specs.Prelude.{◌≡◌, [], List, IfOk, true, map, filter, slice_index_or};
ghost use Rattle.tso_terms.specs.ProgramOrder as program_order;
ghost use Rattle.refutation_laws.specs.Known.{events_of};
ghost use Rattle.possible_reads.specs.Expressions.{Expression};
ghost use Rattle.possible_reads.specs.Possible as spec;
ghost use Rattle.reading_tables.specs.Told.{facts_of};
ghost use Rattle.reading_tables.specs.inner.Told.{held_of, making_of, all_made, unmade, known_of};
ghost use Rattle.reading_tables.specs.inner.Tables.{IsProblem, IsTold, AreMadeValues, AreTableValues, AreValues, reading_of, readings_of};

use crate::counting::counted_values;
use crate::equality::same_readings;
use crate::expressions::{Held, Making, Written};
use crate::facts::{Fact, may_return, told_value};
use crate::leasts::{all_least, least_after};
use crate::plain::{is_plain, plain_table};
use crate::sources::sources_after;
use crate::tables::{Problem, Reading, Table, Told, reading_for, told_by, values_written};
use crate::values::{
    both_of, combined_values, copy, either_of, exchanged_values, negated_values, one,
};
use refutations::events::is_read;
use refutations::values::first_word;
use std::alloc::Global;
use tso_terms::{Entry, NoMemory};

/// The value that a fact says of the read.
///
/// Errors: out of memory only.
pub fn told_values(
    alloc: Global,
    facts: &[Fact<'_>],
    read: &Entry,
) -> Result<Option<Vec<u32>>, NoMemory>
    ensures { IfOk result (λ v. known_of v ≡ spec.told_value (facts_of facts.now) read.now) }
{
    match told_value(facts, read) {
        Some(value) => one(alloc, value),
        None => Ok(None),
    }
}

/// What the read can return from this source, or else one of the others.
fn values_from_or(
    alloc: Global,
    told: Told<'_>,
    read: &Entry,
    source: &Option<Entry>,
    others: Option<Vec<u32>>,
) -> Result<Option<Vec<u32>>, NoMemory>
    requires { IsTold told }
    ensures { IfOk result (λ v. known_of v ≡ spec.either_of
        (spec.values_from told.entry.test.now (readings_of told.entry.readings.now) read.now source.now) (known_of others)) }
{
    match source {
        None => either_of(&one(alloc, first_word(told.test, read.loc))?, others),
        Some(w) => either_of(values_written(told, w), others),
    }
}

/// What the read can return from one of these sources.
fn values_from_any(
    alloc: Global,
    told: Told<'_>,
    read: &Entry,
    sources: &[Option<Entry>],
) -> Result<Option<Vec<u32>>, NoMemory>
    requires { IsTold told }
    ensures { IfOk result (λ v. known_of v
        ≡ spec.any_of (map (spec.values_from told.entry.test.now (readings_of told.entry.readings.now) read.now) sources.now)) }
{
    let mut all = Some(Vec::new(alloc));
    let mut left = sources.len();
    while left > 0 {
        left -= 1;
        all = values_from_or(alloc, told, read, &sources[left], all)?;
    }
    Ok(all)
}

fn returned(
    alloc: Global,
    values: &[u32],
    facts: &[Fact<'_>],
    read: &Entry,
) -> Result<Vec<u32>, NoMemory>
    ensures { IfOk result (λ kept. kept.items ≡ filter (spec.may_return (facts_of facts.now) read.now) values.now) }
{
    let mut kept = Vec::new(alloc);
    for v in values {
        if may_return(facts, read, *v) {
            kept.push(*v)?;
        }
    }
    Ok(kept)
}

/// Those of the values that the facts let the read return.
///
/// Errors: out of memory only.
pub fn kept_values(
    alloc: Global,
    values: &Option<Vec<u32>>,
    facts: &[Fact<'_>],
    read: &Entry,
) -> Result<Option<Vec<u32>>, NoMemory>
    ensures { IfOk result (λ v. known_of v ≡ spec.kept (spec.may_return (facts_of facts.now) read.now) (known_of values.now)) }
{
    match values {
        None => Ok(None),
        Some(values) => Ok(Some(returned(alloc, values, facts, read)?)),
    }
}

/// What a read can return from one of these sources, by the facts, and by counting.
fn values_after(
    alloc: Global,
    told: Told<'_>,
    read: &Entry,
    sources: &[Option<Entry>],
) -> Result<Option<Vec<u32>>, NoMemory>
    requires { IsTold told }
    ensures { IfOk result (λ v. known_of v ≡ spec.values_after told.entry.test.now (facts_of told.entry.facts.now)
        (readings_of told.entry.readings.now) read.now sources.now) }
{
    let from = values_from_any(alloc, told, read, sources)?;
    let by_facts = told_values(alloc, told.facts, read)?;
    let by_counting = counted_values(alloc, told, read)?;
    let others = both_of(alloc, &by_facts, &by_counting)?;
    both_of(alloc, &from, &others)
}

/// What a read can still read from and return, and the least of that.
fn reading_after(alloc: Global, told: Told<'_>, read: &Entry) -> Result<Reading, NoMemory>
    requires { IsTold told }
    ensures { IfOk result (λ x. reading_of x ≡ spec.reading_after told.entry.test.now (facts_of told.entry.facts.now)
        (readings_of told.entry.readings.now) read.now) }
{
    let sources = sources_after(alloc, told, read)?;
    let values = values_after(alloc, told, read, &sources)?;
    let kept = kept_values(alloc, &values, told.facts, read)?;
    let least = least_after(told, read, &sources, &kept);
    Ok(Reading {
        read: *read,
        sources,
        values: kept,
        least,
    })
}

fn next_readings(alloc: Global, told: Told<'_>) -> Result<Vec<Reading>, NoMemory>
    requires { IsTold told }
    ensures { IfOk result (λ xs. readings_of xs.items ≡ map (spec.reading_after told.entry.test.now (facts_of told.entry.facts.now)
        (readings_of told.entry.readings.now)) (filter program_order.is_read told.entry.events.now)) }
{
    let mut readings = Vec::new(alloc);
    for e in told.events {
        if is_read(e) {
            readings.push(reading_after(alloc, told, e)?)?;
        }
    }
    Ok(readings)
}

/// What was made can be, where all that was made can be these.
fn made_values(
    alloc: Global,
    made: &[Option<Vec<u32>>],
    number: usize,
) -> Result<Option<Vec<u32>>, NoMemory>
    ensures { (readings : List spec.Reading) (es : List Expression) → AreMadeValues readings es made.now
        → IfOk result (λ v. known_of v ≡ spec.values_of (spec.values_read readings) (slice_index_or es number unmade)) }
{
    match made.get(number) {
        Some(values) => copy(alloc, values),
        None => one(alloc, 0),
    }
}

/// What a register can hold.
///
/// Errors: out of memory only.
pub fn held_values(
    alloc: Global,
    readings: &[Reading],
    made: &[Option<Vec<u32>>],
    held: Held,
) -> Result<Option<Vec<u32>>, NoMemory>
    ensures { (es : List Expression) → AreMadeValues (readings_of readings.now) es made.now
        → IfOk result (λ v. known_of v ≡ spec.values_of (spec.values_read (readings_of readings.now)) (held_of es held)) }
{
    match held {
        Held::Number(value) => one(alloc, value),
        Held::Returned(read) => match reading_for(readings, &read) {
            Some(x) => copy(alloc, &x.values),
            None => Ok(None),
        },
        Held::Made(number) => made_values(alloc, made, number),
    }
}

/// What an instruction can make.
fn making_values(
    alloc: Global,
    readings: &[Reading],
    made: &[Option<Vec<u32>>],
    making: Making,
) -> Result<Option<Vec<u32>>, NoMemory>
    ensures { (es : List Expression) → AreMadeValues (readings_of readings.now) es made.now
        → IfOk result (λ v. known_of v ≡ spec.values_of (spec.values_read (readings_of readings.now)) (making_of es making)) }
{
    match making {
        Making::Combined(operator, left, right) => {
            let us = held_values(alloc, readings, made, left)?;
            let vs = held_values(alloc, readings, made, right)?;
            combined_values(alloc, operator, &us, &vs)
        }
        Making::Negated(inner) => {
            let values = held_values(alloc, readings, made, inner)?;
            negated_values(alloc, &values)
        }
        Making::Exchanged(word, eax, new) => {
            let words = held_values(alloc, readings, made, word)?;
            let compared = held_values(alloc, readings, made, eax)?;
            let values = held_values(alloc, readings, made, new)?;
            exchanged_values(alloc, &words, &compared, &values)
        }
    }
}

/// What all instructions can make.
fn all_made_values(
    alloc: Global,
    readings: &[Reading],
    makings: &[Making],
) -> Result<Vec<Option<Vec<u32>>>, NoMemory>
    ensures { IfOk result (λ vs. AreMadeValues (readings_of readings.now) (all_made makings.now) vs.items) }
{
    let mut made = Vec::new(alloc);
    for making in makings {
        let values = making_values(alloc, readings, &made, *making)?;
        made.push(values)?;
    }
    Ok(made)
}

/// What each write can write, and the value of none.
fn write_values(
    alloc: Global,
    readings: &[Reading],
    made: &[Option<Vec<u32>>],
    written: &[Written],
) -> Result<Vec<Option<Vec<u32>>>, NoMemory>
    ensures { (es : List Expression) → AreMadeValues (readings_of readings.now) es made.now
        → IfOk result (λ vs. AreValues (readings_of readings.now) es written.now vs.items) }
{
    let mut values = Vec::new(alloc);
    for x in written {
        values.push(held_values(alloc, readings, made, x.value)?)?;
    }
    values.push(one(alloc, 0)?)?;
    Ok(values)
}

/// The table of these readings.
///
/// Errors: out of memory only.
pub fn table_of(
    alloc: Global,
    problem: &Problem<'_>,
    readings: Vec<Reading>,
) -> Result<Table, NoMemory>
    requires { IsProblem problem.now.test.now problem.now }
    ensures readings { IfOk result (λ x. x.readings.items ≡ readings.items) }
    ensures values { IfOk result (λ x. AreTableValues problem.now x) }
{
    let made = all_made_values(alloc, &readings, &problem.expressions.makings)?;
    let values = write_values(alloc, &readings, &made, &problem.expressions.written)?;
    let least = all_least(alloc, &readings, &problem.bounds)?;
    Ok(Table {
        readings,
        made,
        values,
        least,
    })
}

/// A table that tells nothing yet.
///
/// Errors: out of memory only.
pub fn first_table(alloc: Global, problem: &Problem<'_>) -> Result<Table, NoMemory>
    requires { IsProblem problem.now.test.now problem.now }
    ensures readings { IfOk result (λ x. readings_of x.readings.items ≡ []) }
    ensures values { IfOk result (λ x. AreTableValues problem.now x) }
{
    table_of(alloc, problem, Vec::new(alloc))
}

/// One round more.
fn next_table(
    alloc: Global,
    problem: &Problem<'_>,
    facts: &[Fact<'_>],
    table: &Table,
) -> Result<Table, NoMemory>
    requires problem { IsProblem problem.now.test.now problem.now }
    requires values { AreTableValues problem.now table.now }
    ensures readings { IfOk result (λ x. readings_of x.readings.items ≡ map (spec.reading_after problem.now.test.now (facts_of facts.now)
        (readings_of table.now.readings.items)) (filter program_order.is_read (events_of problem.now.test.now))) }
    ensures values { IfOk result (λ x. AreTableValues problem.now x) }
{
    let readings = next_readings(alloc, told_by(problem, facts, table))?;
    table_of(alloc, problem, readings)
}

/// What each read can read from and return, where these facts are given, and what each write can write: the rounds end where one changes
/// nothing.
///
/// Errors: out of memory only.
pub fn make_table(
    alloc: Global,
    problem: &Problem<'_>,
    facts: &[Fact<'_>],
) -> Result<Table, NoMemory>
    requires { IsProblem problem.now.test.now problem.now }
    ensures readings { IfOk result (λ x. readings_of x.readings.items ≡ spec.readings problem.now.test.now (facts_of facts.now)) }
    ensures values { IfOk result (λ x. AreTableValues problem.now x) }
{
    if is_plain(problem) {
        return plain_table(alloc, problem, facts);
    }
    let mut table = first_table(alloc, problem)?;
    for _round in 0..problem.events.len() {
        let next = next_table(alloc, problem, facts, &table)?;
        if same_readings(&next.readings, &table.readings) {
            return Ok(next);
        }
        table = next;
    }
    Ok(table)
}
