//! Which writes can be the last one to their location, and which is known to come before which. (Herding Cats, section 4: co.)
ghost use Rattle.std.specs.Prelude.{◌≡◌, IfOk};
ghost use Rattle.std.specs.List.{list_any};
ghost use Rattle.possible_reads.specs.Possible as spec;
ghost use Rattle.reading_tables.specs.Told.{facts_of};
ghost use Rattle.reading_tables.specs.inner.Told.{known_of};
ghost use Rattle.reading_tables.specs.inner.Tables.{IsTold, readings_of};
ghost use Rattle.reading_tables.specs.inner.Orders.{is_followed_by, puts_before_some};
ghost use Rattle.refutation_laws.specs.Known.{same_event as is_same_event};

use crate::facts::{Fact, last_fits, may_be_left, told_before};
use crate::leasts::leaves_less;
use crate::tables::{Told, values_written};
use refutations::events::{is_before, same_event, writes_to};
use std::alloc::Global;
use tso_terms::{Entry, NoMemory};

fn some_left(values: &[u32], facts: &[Fact<'_>], loc: u8) -> bool
    ensures { result ≡ list_any (spec.may_be_left (facts_of facts.now) loc) values.now }
{
    for v in values {
        if may_be_left(facts, loc, *v) {
            return true;
        }
    }
    false
}

/// Whether facts leave it possible that the location is left with what the write can write; where that is any value, with its least or more.
fn can_be_left(told: Told<'_>, loc: u8, w: &Entry) -> bool
    requires { IsTold told }
    ensures { result ≡ spec.can_be_left (facts_of told.entry.facts.now) loc
        (spec.values_written told.entry.test.now (readings_of told.entry.readings.now) w.now)
        (spec.least_written told.entry.test.now (readings_of told.entry.readings.now) w.now) }
{
    match values_written(told, w) {
        Some(values) => some_left(values, told.facts, loc),
        None => !leaves_less(told, loc, w),
    }
}

/// Whether their program puts w before v, a write to its location.
fn is_followed(w: &Entry, v: &Entry) -> bool
    ensures { result ≡ is_followed_by w.now v.now }
{
    is_before(w, v) && writes_to(w.loc.0, v)
}

/// Whether a fact, or their program, puts w before v. Their program is asked first, which takes less.
#[tactic(auto, using(crate::proofs::PutBefore::other_way))]
pub fn is_put_before(facts: &[Fact<'_>], w: &Entry, v: &Entry) -> bool
    ensures { result ≡ spec.is_put_before (facts_of facts.now) w.now v.now }
{
    is_followed(w, v) || told_before(w, v, facts)
}

fn is_followed_by_some(events: &[Entry], w: &Entry) -> bool
    ensures { result ≡ list_any (is_followed_by w.now) events.now }
{
    for v in events {
        if is_followed(w, v) {
            return true;
        }
    }
    false
}

fn is_one_of(events: &[Entry], v: &Entry) -> bool
    ensures { result ≡ list_any (is_same_event v.now) events.now }
{
    for e in events {
        if same_event(v, e) {
            return true;
        }
    }
    false
}

/// Whether a fact puts w before one of these.
fn is_told_before_some(facts: &[Fact<'_>], events: &[Entry], w: &Entry) -> bool
    ensures { result ≡ list_any (puts_before_some events.now w.now) (facts_of facts.now) }
{
    for fact in facts {
        if let Fact::Before(first, second) = fact {
            if same_event(first, w) && is_one_of(events, second) {
                return true;
            }
        }
    }
    false
}

#[tactic(auto, using(crate::proofs::PutBefore::put_before_some))]
fn is_put_before_some(facts: &[Fact<'_>], events: &[Entry], w: &Entry) -> bool
    ensures { result ≡ list_any (spec.is_put_before (facts_of facts.now) w.now) events.now }
{
    is_followed_by_some(events, w) || is_told_before_some(facts, events, w)
}

/// Whether w can be the last write to the location.
pub fn can_be_last(told: Told<'_>, loc: u8, w: &Entry) -> bool
    requires { IsTold told }
    ensures { result ≡ spec.can_be_last told.entry.test.now (facts_of told.entry.facts.now) (readings_of told.entry.readings.now) loc w.now }
{
    writes_to(loc, w)
        && last_fits(loc, w, told.facts)
        && !is_put_before_some(told.facts, told.events, w)
        && can_be_left(told, loc, w)
}

/// The writes that can be the last one to the location.
///
/// Errors: out of memory only.
pub fn last_writes(alloc: Global, told: Told<'_>, loc: u8) -> Result<Vec<Entry>, NoMemory>
    requires { IsTold told }
    ensures { IfOk result (λ ws. ws.items
        ≡ spec.last_writes told.entry.test.now (facts_of told.entry.facts.now) (readings_of told.entry.readings.now) loc) }
{
    let mut writes = Vec::new(alloc);
    for w in told.events {
        if can_be_last(told, loc, w) {
            writes.push(*w)?;
        }
    }
    Ok(writes)
}

/// Whether v is known to be the last write to its location.
pub fn is_last(told: Told<'_>, v: &Entry) -> bool
    requires { IsTold told }
    ensures { result ≡ spec.is_last told.entry.test.now (facts_of told.entry.facts.now) (readings_of told.entry.readings.now) v.now }
{
    for w in told.events {
        if can_be_last(told, v.loc.0, w) && !same_event(v, w) {
            return false;
        }
    }
    true
}

/// Whether w is known to come before v in coherence.
pub fn comes_before(told: Told<'_>, w: &Entry, v: &Entry) -> bool
    requires { IsTold told }
    ensures { result ≡ spec.comes_before told.entry.test.now (facts_of told.entry.facts.now) (readings_of told.entry.readings.now) w.now v.now }
{
    is_put_before(told.facts, w, v)
        || writes_to(w.loc.0, v) && !same_event(w, v) && is_last(told, v)
}
