//! Plain tests: each write writes a number, and no instruction is locked. There what a read can read from goes by programs and facts alone,
//! so that one round tells all.
ghost use Rattle.std.specs.Prelude.{◌≡◌, ◌∷◌, [], ◌++◌, ◌&&◌, IfOk, Some, true, map, filter, slice_index};
ghost use Rattle.std.specs.List.{list_all};
ghost use Rattle.tso_terms.specs.ProgramOrder as program_order;
ghost use Rattle.refutation_laws.specs.Known.{events_of};
ghost use Rattle.possible_reads.specs.Possible as spec;
ghost use Rattle.reading_tables.specs.Told.{facts_of};
ghost use Rattle.reading_tables.specs.inner.Told.{known_of};
ghost use Rattle.reading_tables.specs.inner.Tables.{AreTableValues, IsProblem, IsTold, is_of_core, reading_of, readings_of};
ghost use Rattle.reading_tables.specs.inner.Plain as plain;

use crate::expressions::{Held, Written};
use crate::facts::{Fact, facts_of_read, may_return, source_fits};
use crate::leasts::least_after;
use crate::rounds::{first_table, kept_values, table_of, told_values};
use crate::sources::{events_of_core, is_in_order};
use crate::tables::{Problem, Reading, Table, Told, told_by};
use crate::values::{both_of, one_of};
use refutations::events::{is_read, is_write, same_event};
use refutations::values::first_word;
use std::alloc::Global;
use tso_terms::{Core, Entry, Kind, NoMemory, Test};

/// A write, and the number that it writes.
#[derive(Clone, Copy)]
pub struct Choice {
    pub write: Entry,
    pub value: u32,
}

/// What a read can read from, and the number that is there of each.
#[derive(Drop)]
pub struct Chosen {
    pub sources: Vec<Option<Entry>>,
    pub values: Vec<u32>,
}

/// The events of a core.
#[derive(Drop)]
struct Own {
    core: Core,
    events: Vec<Entry>,
}

fn write_numbers(written: &[Written]) -> bool
    ensures { result ≡ list_all plain.writes_number written.now }
{
    for x in written {
        if !matches!(x.value, Held::Number(_)) {
            return false;
        }
    }
    true
}

fn none_is_locked(events: &[Entry]) -> bool
    ensures { result ≡ list_all plain.is_no_load_part events.now }
{
    for e in events {
        if e.kind == Kind::LR {
            return false;
        }
    }
    true
}

/// Whether each write writes a number, and no instruction is locked.
pub fn is_plain(problem: &Problem<'_>) -> bool
    ensures numbers { result ≡ true → list_all plain.writes_number problem.now.expressions.written.items ≡ true }
    ensures parts { result ≡ true → list_all plain.is_no_load_part problem.now.events.items ≡ true }
{
    write_numbers(&problem.expressions.written) && none_is_locked(&problem.events)
}

fn number_held(held: Held) -> u32
    ensures { result ≡ plain.number_held held }
{
    match held {
        Held::Number(number) => number,
        Held::Returned(_) | Held::Made(_) => 0,
    }
}

/// The number that this write writes.
fn number_written(written: &[Written], write: &Entry) -> u32
    ensures { result ≡ plain.number_written written.now write.now }
{
    for x in written {
        if same_event(&x.write, write) {
            return number_held(x.value);
        }
    }
    0
}

/// All writes, each with the number that it writes.
fn all_choices(
    alloc: Global,
    events: &[Entry],
    written: &[Written],
) -> Result<Vec<Choice>, NoMemory>
    ensures { IfOk result (λ all. all.items ≡ map (plain.choice_of written.now) (filter program_order.is_write events.now)) }
{
    let mut all = Vec::new(alloc);
    for e in events {
        if is_write(e) {
            all.push(Choice {
                write: *e,
                value: number_written(written, e),
            })?;
        }
    }
    Ok(all)
}

/// Whether the read can read this number from this source, where these are the events of its core.
fn is_possible(
    test: &Test,
    facts: &[Fact<'_>],
    own: &[Entry],
    read: &Entry,
    source: &Option<Entry>,
    value: u32,
) -> bool
    requires { own.now ≡ filter (is_of_core read.now.core.0) (events_of test.now) }
    ensures { result ≡ plain.is_possible test.now (facts_of facts.now) read.now source.now value }
{
    source_fits(read, source, facts)
        && is_in_order(test, own, read, source)
        && may_return(facts, read, value)
}

fn is_choice(test: &Test, facts: &[Fact<'_>], own: &[Entry], read: &Entry, choice: &Choice) -> bool
    requires { own.now ≡ filter (is_of_core read.now.core.0) (events_of test.now) }
    ensures { result ≡ plain.is_choice test.now (facts_of facts.now) read.now choice.now }
{
    choice.write.loc.0 == read.loc.0
        && is_possible(test, facts, own, read, &Some(choice.write), choice.value)
}

/// The initial write, if the read can read from it.
fn choose_first(
    alloc: Global,
    test: &Test,
    facts: &[Fact<'_>],
    own: &[Entry],
    read: &Entry,
) -> Result<Chosen, NoMemory>
    requires { own.now ≡ filter (is_of_core read.now.core.0) (events_of test.now) }
    ensures sources { IfOk result (λ c. c.sources.items ≡ plain.first_chosen test.now (facts_of facts.now) read.now) }
    ensures values { IfOk result (λ c. c.values.items
        ≡ map (λ s. slice_index test.now.words read.now.loc.0) (plain.first_chosen test.now (facts_of facts.now) read.now)) }
{
    let mut sources = Vec::new(alloc);
    let mut values = Vec::new(alloc);
    let word = first_word(test, read.loc);
    if !is_possible(test, facts, own, read, &None, word) {
        return Ok(Chosen { sources, values });
    }
    sources.push(None)?;
    values.push(word)?;
    Ok(Chosen { sources, values })
}

/// What the read can read from, of the initial write and these.
fn choose(
    alloc: Global,
    test: &Test,
    facts: &[Fact<'_>],
    own: &[Entry],
    read: &Entry,
    choices: &[Choice],
) -> Result<Chosen, NoMemory>
    requires { own.now ≡ filter (is_of_core read.now.core.0) (events_of test.now) }
    ensures sources { IfOk result (λ c. c.sources.items ≡ plain.first_chosen test.now (facts_of facts.now) read.now
        ++ map (λ x. Some x.write) (filter (plain.is_choice test.now (facts_of facts.now) read.now) choices.now)) }
    ensures values { IfOk result (λ c. c.values.items
        ≡ map (λ s. slice_index test.now.words read.now.loc.0) (plain.first_chosen test.now (facts_of facts.now) read.now)
        ++ map (λ x. x.value) (filter (plain.is_choice test.now (facts_of facts.now) read.now) choices.now)) }
{
    let Chosen {
        mut sources,
        mut values,
    } = choose_first(alloc, test, facts, own, read)?;
    for choice in choices {
        if is_choice(test, facts, own, read, choice) {
            sources.push(Some(choice.write))?;
            values.push(choice.value)?;
        }
    }
    Ok(Chosen { sources, values })
}

/// What the read can read from and return in the first round, and the least of that.
fn plain_reading(
    alloc: Global,
    told: Told<'_>,
    own: &[Entry],
    read: &Entry,
    choices: &[Choice],
) -> Result<Reading, NoMemory>
    requires told { IsTold told }
    requires first { readings_of told.readings.now ≡ [] }
    requires own { own.now ≡ filter (is_of_core read.now.core.0) (events_of told.test.now) }
    requires numbers { list_all plain.writes_number told.written.now ≡ true }
    requires part { plain.is_no_load_part read.now ≡ true }
    requires choices { choices.now ≡ map (plain.choice_of told.written.now) (filter program_order.is_write (events_of told.test.now)) }
    ensures { IfOk result (λ x. reading_of x ≡ spec.reading_after told.entry.test.now (facts_of told.entry.facts.now) [] read.now) }
{
    let facts = facts_of_read(alloc, told.facts, read)?;
    let Chosen { sources, values } = choose(alloc, told.test, &facts, own, read, choices)?;
    let from = one_of(alloc, &values)?;
    let by_facts = told_values(alloc, told.facts, read)?;
    let all = both_of(alloc, &from, &by_facts)?;
    let kept = kept_values(alloc, &all, told.facts, read)?;
    let least = least_after(told, read, &sources, &kept);
    Ok(Reading {
        read: *read,
        sources,
        values: kept,
        least,
    })
}

/// The events of this core: these, if they are its own.
fn own_events(alloc: Global, own: Own, events: &[Entry], core: Core) -> Result<Own, NoMemory>
    requires { own.events.items ≡ filter (is_of_core own.core.0) events.now }
    ensures core { IfOk result (λ o. o.core ≡ core) }
    ensures events { IfOk result (λ o. o.events.items ≡ filter (is_of_core o.core.0) events.now) }
{
    if own.core == core {
        return Ok(own);
    }
    Ok(Own {
        core,
        events: events_of_core(alloc, events, core)?,
    })
}

/// What each read can read from and return in the first round.
fn plain_readings(alloc: Global, told: Told<'_>) -> Result<Vec<Reading>, NoMemory>
    requires told { IsTold told }
    requires first { readings_of told.readings.now ≡ [] }
    requires numbers { list_all plain.writes_number told.written.now ≡ true }
    requires parts { list_all plain.is_no_load_part told.events.now ≡ true }
    ensures { IfOk result (λ xs. readings_of xs.items ≡ map (spec.reading_after told.entry.test.now (facts_of told.entry.facts.now) [])
        (filter program_order.is_read told.entry.events.now)) }
{
    let choices = all_choices(alloc, told.events, told.written)?;
    let mut own = Own {
        core: Core(0),
        events: events_of_core(alloc, told.events, Core(0))?,
    };
    let mut readings = Vec::new(alloc);
    for e in told.events {
        if is_read(e) {
            own = own_events(alloc, own, told.events, e.core)?;
            readings.push(plain_reading(alloc, told, &own.events, e, &choices)?)?;
        }
    }
    Ok(readings)
}

/// The first round.
fn first_round(
    alloc: Global,
    problem: &Problem<'_>,
    facts: &[Fact<'_>],
    table: &Table,
) -> Result<Table, NoMemory>
    requires problem { IsProblem problem.now.test.now problem.now }
    requires values { AreTableValues problem.now table.now }
    requires first { readings_of table.now.readings.items ≡ [] }
    requires numbers { list_all plain.writes_number problem.now.expressions.written.items ≡ true }
    requires parts { list_all plain.is_no_load_part problem.now.events.items ≡ true }
    ensures readings { IfOk result (λ x. readings_of x.readings.items ≡ map (spec.reading_after problem.now.test.now (facts_of facts.now) [])
        (filter program_order.is_read (events_of problem.now.test.now))) }
    ensures values { IfOk result (λ x. AreTableValues problem.now x) }
{
    let readings = plain_readings(alloc, told_by(problem, facts, table))?;
    table_of(alloc, problem, readings)
}

/// What each read can read from and return in a plain test, and what each write can write.
///
/// Errors: out of memory only.
pub fn plain_table(
    alloc: Global,
    problem: &Problem<'_>,
    facts: &[Fact<'_>],
) -> Result<Table, NoMemory>
    requires problem { IsProblem problem.now.test.now problem.now }
    requires numbers { list_all plain.writes_number problem.now.expressions.written.items ≡ true }
    requires parts { list_all plain.is_no_load_part problem.now.events.items ≡ true }
    ensures readings { IfOk result (λ x. readings_of x.readings.items ≡ spec.readings problem.now.test.now (facts_of facts.now)) }
    ensures values { IfOk result (λ x. AreTableValues problem.now x) }
{
    let first = first_table(alloc, problem)?;
    first_round(alloc, problem, facts, &first)
}
