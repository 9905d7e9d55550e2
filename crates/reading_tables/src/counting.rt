//! Counters: locations to which locked additions of numbers alone write. Their words add up.
ghost use Rattle.std.specs.Prelude.{◌≡◌, IfOk};
ghost use Rattle.std.specs.List.{list_any, list_all};
ghost use Rattle.tso_terms.specs.ProgramOrder as program_order;
ghost use Rattle.refutation_laws.specs.Known.{same_event as is_same_event};
ghost use Rattle.possible_reads.specs.Expressions as expressions;
ghost use Rattle.possible_reads.specs.Possible as spec;
ghost use Rattle.reading_tables.specs.Told.{facts_of};
ghost use Rattle.reading_tables.specs.inner.Told.{known_of};
ghost use Rattle.reading_tables.specs.inner.Tables.{IsTold, readings_of};

use crate::amounts::{addend_in, load_part_of, value_among};
use crate::orders::{is_put_before, last_writes};
use crate::tables::Told;
use crate::values::{combined_values, either_of, one};
use refutations::events::{same_event, writes_to};
use refutations::values::first_word;
use std::alloc::Global;
use tso_terms::{Entry, Kind, Loc, NoMemory, Operator};

/// The number that a write adds to what its load part reads, if it is one.
fn addend_written(told: Told<'_>, write: &Entry) -> Option<u32>
    requires { IsTold told }
    ensures { result ≡ spec.addend_in (spec.load_part_of write.now) (expressions.expression_of told.entry.test.now write.now) }
{
    addend_in(
        told.makings,
        &load_part_of(write),
        value_among(told.written, write),
    )
}

/// The number that a write adds to what its load part reads; 0 where it adds none.
fn addend_of(told: Told<'_>, write: &Entry) -> u32
    requires { IsTold told }
    ensures { result ≡ spec.addend_of told.entry.test.now write.now }
{
    match addend_written(told, write) {
        Some(addend) => addend,
        None => 0,
    }
}

fn adds_alone(told: Told<'_>, loc: u8, e: &Entry) -> bool
    requires { IsTold told }
    ensures { result ≡ spec.adds_alone told.entry.test.now loc e.now }
{
    if writes_to(loc, e) {
        e.kind == Kind::LW && addend_written(told, e).is_some()
    } else {
        true
    }
}

fn all_add(told: Told<'_>, loc: u8) -> bool
    requires { IsTold told }
    ensures { result ≡ list_all (spec.adds_alone told.entry.test.now loc) told.entry.events.now }
{
    for e in told.events {
        if !adds_alone(told, loc, e) {
            return false;
        }
    }
    true
}

/// Whether a write goes to the location.
pub fn is_written(events: &[Entry], loc: u8) -> bool
    ensures { result ≡ list_any (program_order.writes_to loc) events.now }
{
    for w in events {
        if writes_to(loc, w) {
            return true;
        }
    }
    false
}

/// Whether locked additions of numbers alone write to the location, and one does.
pub fn is_counter(told: Told<'_>, loc: u8) -> bool
    requires { IsTold told }
    ensures { result ≡ spec.is_counter told.entry.test.now loc }
{
    is_written(told.events, loc) && all_add(told, loc)
}

/// The last word of a counter.
pub fn counted(told: Told<'_>, loc: u8) -> u32
    requires { IsTold told }
    ensures { result ≡ spec.counted told.entry.test.now loc }
{
    let mut word = first_word(told.test, Loc(loc));
    for w in told.events {
        if writes_to(loc, w) {
            word = word.wrapping_add(addend_of(told, w));
        }
    }
    word
}

fn are_all(v: &Entry, writes: &[Entry]) -> bool
    ensures { result ≡ list_all (is_same_event v.now) writes.now }
{
    for w in writes {
        if !same_event(v, w) {
            return false;
        }
    }
    true
}

/// Whether w is known to come before v in coherence, where these are the writes that can be the last one to its location.
fn comes_first(told: Told<'_>, lasts: &[Entry], w: &Entry, v: &Entry) -> bool
    requires told { IsTold told }
    requires lasts { lasts.now ≡ spec.last_writes told.test.now (facts_of told.facts.now) (readings_of told.readings.now) w.now.loc.0 }
    ensures { result ≡ spec.comes_before told.entry.test.now (facts_of told.entry.facts.now) (readings_of told.entry.readings.now) w.now v.now }
{
    is_put_before(told.facts, w, v)
        || writes_to(w.loc.0, v) && !same_event(w, v) && are_all(v, lasts)
}

/// What an addition finds, with one addition more.
fn added(
    alloc: Global,
    told: Told<'_>,
    lasts: &[Entry],
    own: &Entry,
    w: &Entry,
    words: Option<Vec<u32>>,
) -> Result<Option<Vec<u32>>, NoMemory>
    requires told { IsTold told }
    requires lasts { lasts.now ≡ spec.last_writes told.test.now (facts_of told.facts.now) (readings_of told.readings.now) own.now.loc.0 }
    requires location { w.now.loc.0 ≡ own.now.loc.0 }
    ensures { IfOk result (λ v. known_of v ≡ spec.added told.entry.test.now (facts_of told.entry.facts.now)
        (readings_of told.entry.readings.now) own.now w.now (known_of words)) }
{
    if same_event(w, own) || comes_first(told, lasts, own, w) {
        return Ok(words);
    }
    let addend = one(alloc, addend_of(told, w))?;
    let sums = combined_values(alloc, Operator::Add, &words, &addend)?;
    if comes_first(told, lasts, w, own) {
        Ok(sums)
    } else {
        either_of(&words, sums)
    }
}

/// What the load part of a locked addition to a counter can return; of any other read this tells nothing.
///
/// Errors: out of memory only.
pub fn counted_values(
    alloc: Global,
    told: Told<'_>,
    read: &Entry,
) -> Result<Option<Vec<u32>>, NoMemory>
    requires { IsTold told }
    ensures { IfOk result (λ v. known_of v ≡ spec.counts told.entry.test.now (facts_of told.entry.facts.now) (readings_of told.entry.readings.now) read.now) }
{
    if read.kind != Kind::LR || !is_counter(told, read.loc.0) {
        return Ok(None);
    }
    let lasts = last_writes(alloc, told, read.loc.0)?;
    let own = Entry {
        core: read.core,
        place: read.place,
        kind: Kind::LW,
        loc: read.loc,
        value: 0,
    };
    let mut words = one(alloc, first_word(told.test, read.loc))?;
    for w in told.events {
        if writes_to(read.loc.0, w) {
            words = added(alloc, told, &lasts, &own, w, words)?;
        }
    }
    Ok(words)
}
