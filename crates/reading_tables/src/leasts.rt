//! The least that a read can return and that a write can write.
ghost use Rattle.std.specs.Prelude.{◌≡◌, IfOk, map};
ghost use Rattle.std.specs.List.{list_any};
ghost use Rattle.possible_reads.specs.Possible as spec;
ghost use Rattle.reading_tables.specs.Told.{facts_of};
ghost use Rattle.reading_tables.specs.inner.Told.{known_of};
ghost use Rattle.reading_tables.specs.inner.Tables.{IsTold, readings_of};
ghost use Rattle.reading_tables.specs.inner.Bounds.{bounded_by};

use crate::amounts::Bound;
use crate::facts::Fact;
use crate::numbers::number_among;
use crate::tables::{Reading, Told, reading_for};
use refutations::events::same_event;
use refutations::values::first_word;
use std::alloc::Global;
use tso_terms::{Entry, NoMemory, Prop};

/// The least that the read can return; 0 where the table has no such read.
fn least_read(readings: &[Reading], read: &Entry) -> u32
    ensures { result ≡ spec.least_read (readings_of readings.now) read.now }
{
    match reading_for(readings, read) {
        Some(x) => x.least,
        None => 0,
    }
}

fn least_by(readings: &[Reading], bound: &Bound) -> u32
    ensures { result ≡ bounded_by (readings_of readings.now) bound.now }
{
    match &bound.read {
        Some(read) => least_read(readings, read).saturating_add(bound.number),
        None => bound.number,
    }
}

/// The least that each write with such a bound can write.
///
/// Errors: out of memory only.
pub fn all_least(
    alloc: Global,
    readings: &[Reading],
    bounds: &[Bound],
) -> Result<Vec<u32>, NoMemory>
    ensures { IfOk result (λ ns. ns.items ≡ map (bounded_by (readings_of readings.now)) bounds.now) }
{
    let mut all = Vec::new(alloc);
    for bound in bounds {
        all.push(least_by(readings, bound))?;
    }
    Ok(all)
}

/// The least that the write can write.
pub fn least_written(told: Told<'_>, write: &Entry) -> u32
    requires { IsTold told }
    ensures { result ≡ spec.least_written told.entry.test.now (readings_of told.entry.readings.now) write.now }
{
    match told
        .least
        .get(number_among(told.written, told.others_first, write))
    {
        Some(least) => *least,
        None => 0,
    }
}

/// The least that the read can return from this source.
fn least_from(told: Told<'_>, read: &Entry, source: &Option<Entry>) -> u32
    requires { IsTold told }
    ensures { result ≡ spec.least_from told.entry.test.now (readings_of told.entry.readings.now) read.now source.now }
{
    match source {
        None => first_word(told.test, read.loc),
        Some(w) => least_written(told, w),
    }
}

/// Whether a fact says that the read returns less than it can return from this source.
pub fn returns_less(told: Told<'_>, read: &Entry, source: &Option<Entry>) -> bool
    requires { IsTold told }
    ensures { result ≡ list_any (spec.returns_less read.now
        (spec.least_from told.entry.test.now (readings_of told.entry.readings.now) read.now source.now)) (facts_of told.entry.facts.now) }
{
    for fact in told.facts {
        if let Fact::Returns(r, value, true) = fact {
            if same_event(r, read) && *value < least_from(told, read, source) {
                return true;
            }
        }
    }
    false
}

/// Whether a fact says that less is left in the location than the write can write.
pub fn leaves_less(told: Told<'_>, loc: u8, write: &Entry) -> bool
    requires { IsTold told }
    ensures { result ≡ list_any (spec.leaves_less loc (spec.least_written told.entry.test.now (readings_of told.entry.readings.now) write.now))
        (facts_of told.entry.facts.now) }
{
    for fact in told.facts {
        if let Fact::Holds(Prop::LocIs(l, value), true) = fact {
            if l.0 == loc && *value < least_written(told, write) {
                return true;
            }
        }
    }
    false
}

fn smallest(values: &[u32]) -> u32
    ensures { result ≡ spec.smallest values.now }
{
    let Some((first, rest)) = values.split_first() else {
        return 0;
    };
    let mut least = *first;
    for v in rest {
        least = (*v).min(least);
    }
    least
}

/// The least that the read can return from one of these sources.
fn least_from_any(told: Told<'_>, read: &Entry, sources: &[Option<Entry>]) -> u32
    requires { IsTold told }
    ensures { result ≡ spec.smallest (map (spec.least_from told.entry.test.now (readings_of told.entry.readings.now) read.now) sources.now) }
{
    let Some((first, rest)) = sources.split_first() else {
        return 0;
    };
    let mut least = least_from(told, read, first);
    for source in rest {
        least = least_from(told, read, source).min(least);
    }
    least
}

/// The least of these values; where any value can be, the least that the read can return from one of these sources.
pub fn least_after(
    told: Told<'_>,
    read: &Entry,
    sources: &[Option<Entry>],
    values: &Option<Vec<u32>>,
) -> u32
    requires { IsTold told }
    ensures { result ≡ spec.least_after told.entry.test.now (readings_of told.entry.readings.now) read.now sources.now (known_of values.now) }
{
    match values {
        Some(values) => smallest(values),
        None => least_from_any(told, read, sources),
    }
}
