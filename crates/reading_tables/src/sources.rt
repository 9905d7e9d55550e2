//! What a read can still read from.
ghost use Rattle.std.specs.Prelude.{◌≡◌, ◌&&◌, IfOk, Some, filter, map};
ghost use Rattle.std.specs.List.{list_any, list_all};
ghost use Rattle.tso_terms.specs.ProgramOrder as program_order;
ghost use Rattle.refutation_laws.specs.Known.{events_of};
ghost use Rattle.refutation_laws.specs.Refutations as refutations;
ghost use Rattle.possible_reads.specs.Possible as spec;
ghost use Rattle.reading_tables.specs.Told.{facts_of};
ghost use Rattle.reading_tables.specs.inner.Told.{known_of};
ghost use Rattle.reading_tables.specs.inner.Tables.{IsTold, is_of_core, reading_of, readings_of};

use crate::facts::{Fact, facts_of_read, may_return, same_source, source_fits};
use crate::leasts::returns_less;
use crate::tables::{Reading, Told, are_one, reading_for, values_written};
use refutations::events::{is_before, same_event, writes_to};
use refutations::values::first_word;
use std::alloc::Global;
use tso_terms::{Core, Entry, Kind, NoMemory, Test};

fn some_returned(values: &[u32], facts: &[Fact<'_>], read: &Entry) -> bool
    ensures { result ≡ list_any (spec.may_return (facts_of facts.now) read.now) values.now }
{
    for v in values {
        if may_return(facts, read, *v) {
            return true;
        }
    }
    false
}

/// Whether the read can return one of these values, as far as facts tell.
pub fn can_return(values: &Option<Vec<u32>>, facts: &[Fact<'_>], read: &Entry) -> bool
    ensures { result ≡ spec.can_be (known_of values.now) (spec.may_return (facts_of facts.now) read.now) }
{
    let Some(values) = values else {
        return true;
    };
    some_returned(values, facts, read)
}

/// Whether a write to the read's location comes before it in its program.
fn is_hidden(events: &[Entry], read: &Entry) -> bool
    ensures { result ≡ list_any (λ w. program_order.writes_to read.now.loc.0 w && program_order.is_before w read.now) events.now }
{
    for w in events {
        if writes_to(read.loc.0, w) && is_before(w, read) {
            return true;
        }
    }
    false
}

/// Whether another write to the read's location comes between w and the read in their program.
fn is_overwritten(events: &[Entry], read: &Entry, w: &Entry) -> bool
    ensures { result ≡ list_any
        (λ v.
        program_order.writes_to read.now.loc.0 v
        && program_order.is_before w.now v
        && program_order.is_before v read.now)
        events.now }
{
    for v in events {
        if writes_to(read.loc.0, v) && is_before(w, v) && is_before(v, read) {
            return true;
        }
    }
    false
}

/// The events of a core.
///
/// Errors: out of memory only.
pub fn events_of_core(alloc: Global, events: &[Entry], core: Core) -> Result<Vec<Entry>, NoMemory>
    ensures { IfOk result (λ own. own.items ≡ filter (is_of_core core.0) events.now) }
{
    let mut own = Vec::new(alloc);
    for e in events {
        if e.core == core {
            own.push(*e)?;
        }
    }
    Ok(own)
}

/// Whether program order leaves it possible that the read reads from this, where these are the events of its core.
pub fn is_in_order(test: &Test, own: &[Entry], read: &Entry, source: &Option<Entry>) -> bool
    requires { own.now ≡ filter (is_of_core read.now.core.0) (events_of test.now) }
    ensures { result ≡ spec.is_in_order test.now read.now source.now }
{
    match source {
        None => !is_hidden(own, read),
        // The program of another core orders neither before the other.
        Some(w) => w.core != read.core || (!is_before(read, w) && !is_overwritten(own, read, w)),
    }
}

fn takes(read: &Entry, source: &Option<Entry>, x: &Reading) -> bool
    ensures { result ≡ spec.takes read.now source.now (reading_of x.now) }
{
    x.read.kind == Kind::LR
        && x.read.loc.0 == read.loc.0
        && !same_event(&x.read, read)
        && are_one(source, &x.sources)
}

/// Whether another load part of the location is known to read from this, and the read is a load part too.
pub fn is_taken(readings: &[Reading], read: &Entry, source: &Option<Entry>) -> bool
    ensures { result ≡ spec.is_taken (readings_of readings.now) read.now source.now }
{
    if read.kind != Kind::LR {
        return false;
    }
    for x in readings {
        if takes(read, source, x) {
            return true;
        }
    }
    false
}

/// Whether the read can return something from this.
fn returns_from(told: Told<'_>, read: &Entry, source: &Option<Entry>) -> bool
    requires { IsTold told }
    ensures { result ≡ spec.can_be (spec.values_from told.entry.test.now (readings_of told.entry.readings.now) read.now source.now)
        (spec.may_return (facts_of told.entry.facts.now) read.now) }
{
    match source {
        None => may_return(told.facts, read, first_word(told.test, read.loc)),
        Some(w) => can_return(values_written(told, w), told.facts, read),
    }
}

/// Whether the read can read from this, where these are the events of its core.
fn can_read_from(told: Told<'_>, own: &[Entry], read: &Entry, source: &Option<Entry>) -> bool
    requires told { IsTold told }
    requires own { own.now ≡ filter (is_of_core read.now.core.0) (events_of told.test.now) }
    ensures { result ≡ spec.can_read_from told.entry.test.now (facts_of told.entry.facts.now) (readings_of told.entry.readings.now) read.now source.now }
{
    source_fits(read, source, told.facts)
        && is_in_order(told.test, own, read, source)
        && !is_taken(told.readings, read, source)
        && returns_from(told, read, source)
        && !returns_less(told, read, source)
}

/// What a read can read from at first: the initial write, and each write to its location.
///
/// Errors: out of memory only.
pub fn first_sources(
    alloc: Global,
    test: &Test,
    events: &[Entry],
    read: &Entry,
) -> Result<Vec<Option<Entry>>, NoMemory>
    requires { events.now ≡ events_of test.now }
    ensures { IfOk result (λ ss. ss.items ≡ refutations.sources_of test.now read.now) }
{
    let mut sources = Vec::new(alloc);
    sources.push(None)?;
    for w in events {
        if writes_to(read.loc.0, w) {
            sources.push(Some(*w))?;
        }
    }
    Ok(sources)
}

fn kept_sources(
    alloc: Global,
    told: Told<'_>,
    own: &[Entry],
    read: &Entry,
    sources: &[Option<Entry>],
) -> Result<Vec<Option<Entry>>, NoMemory>
    requires told { IsTold told }
    requires own { own.now ≡ filter (is_of_core read.now.core.0) (events_of told.test.now) }
    ensures { IfOk result (λ ss. ss.items ≡ filter (spec.can_read_from told.entry.test.now (facts_of told.entry.facts.now)
        (readings_of told.entry.readings.now) read.now) sources.now) }
{
    let mut kept = Vec::new(alloc);
    for s in sources {
        if can_read_from(told, own, read, s) {
            kept.push(*s)?;
        }
    }
    Ok(kept)
}

/// The same with these facts.
fn with_facts<'a>(told: Told<'a>, facts: &'a [Fact<'a>]) -> Told<'a>
    requires { IsTold told }
    ensures told { IsTold result }
    ensures test { result.test.now ≡ told.entry.test.now }
    ensures readings { result.readings.now ≡ told.entry.readings.now }
    ensures facts { result.facts.now ≡ facts.now }
{
    Told {
        test: told.test,
        events: told.events,
        makings: told.makings,
        written: told.written,
        others_first: told.others_first,
        facts,
        readings: told.readings,
        made: told.made,
        values: told.values,
        least: told.least,
    }
}

/// Those of these sources from which the read can read: only facts that speak of it tell.
fn sources_left(
    alloc: Global,
    told: Told<'_>,
    read: &Entry,
    sources: &[Option<Entry>],
) -> Result<Vec<Option<Entry>>, NoMemory>
    requires { IsTold told }
    ensures { IfOk result (λ ss. ss.items ≡ filter (spec.can_read_from told.entry.test.now (facts_of told.entry.facts.now)
        (readings_of told.entry.readings.now) read.now) sources.now) }
{
    let facts = facts_of_read(alloc, told.facts, read)?;
    let own = events_of_core(alloc, told.events, read.core)?;
    kept_sources(alloc, with_facts(told, &facts), &own, read, sources)
}

/// What the read can still read from.
///
/// Errors: out of memory only.
pub fn sources_after(
    alloc: Global,
    told: Told<'_>,
    read: &Entry,
) -> Result<Vec<Option<Entry>>, NoMemory>
    requires { IsTold told }
    ensures { IfOk result (λ ss.
        ss.items ≡ spec.sources_after told.entry.test.now (facts_of told.entry.facts.now) (readings_of told.entry.readings.now) read.now) }
{
    match reading_for(told.readings, read) {
        Some(x) => sources_left(alloc, told, read, &x.sources),
        None => {
            let sources = first_sources(alloc, told.test, told.events, read)?;
            sources_left(alloc, told, read, &sources)
        }
    }
}

/// What the read can read from; where the table has no such read, as at first.
///
/// Errors: out of memory only.
pub fn sources_for(
    alloc: Global,
    told: Told<'_>,
    read: &Entry,
) -> Result<Vec<Option<Entry>>, NoMemory>
    requires { IsTold told }
    ensures { IfOk result (λ ss. ss.items ≡ spec.sources_read told.entry.test.now (readings_of told.entry.readings.now) read.now) }
{
    match reading_for(told.readings, read) {
        Some(x) => Ok(Vec::from_slice(alloc, &x.sources)?),
        None => first_sources(alloc, told.test, told.events, read),
    }
}

/// Whether no write goes to the read's location but this one, where it isn't the initial write; whether none does, where it is.
fn is_only_source(events: &[Entry], read: &Entry, source: &Option<Entry>) -> bool
    ensures { result ≡ list_all (spec.same_source source.now) (map (λ w. Some w) (filter (program_order.writes_to read.now.loc.0) events.now)) }
{
    for w in events {
        if writes_to(read.loc.0, w) && !same_source(source, &Some(*w)) {
            return false;
        }
    }
    true
}

/// Whether the read is known to read from this.
pub fn reads_it(told: Told<'_>, source: &Option<Entry>, read: &Entry) -> bool
    requires { IsTold told }
    ensures { result ≡ spec.reads_it told.entry.test.now (readings_of told.entry.readings.now) source.now read.now }
{
    match reading_for(told.readings, read) {
        Some(x) => are_one(source, &x.sources),
        None => source.is_none() && is_only_source(told.events, read, source),
    }
}
