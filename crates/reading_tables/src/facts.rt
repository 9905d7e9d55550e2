//! What is taken as given of a candidate on a branch of a refutation, and what fits it.
ghost use Rattle.std.specs.Prelude.{◌≡◌, IfOk, filter};
ghost use Rattle.std.specs.List.{list_any, list_all};
ghost use Rattle.possible_reads.specs.Possible as spec;
ghost use Rattle.reading_tables.specs.Told.{fact_of, facts_of};
ghost use Rattle.reading_tables.specs.inner.Told.{told_of};
ghost use Rattle.reading_tables.specs.inner.Told as inner;

use refutations::events::same_event;
use std::alloc::Global;
use tso_terms::{Entry, NoMemory, Prop};

/// An answer to a question on the way to a branch, or a part of what the test asks.
#[derive(Clone, Copy)]
pub enum Fact<'t> {
    /// The read reads from this write, none being the initial one; or it doesn't.
    From(Entry, Option<Entry>, bool),
    /// Of two writes to a location the first comes before the second.
    Before(Entry, Entry),
    /// The write is the last one to its location, or it isn't.
    Last(Entry, bool),
    /// The read returns this value, or another one.
    Returns(Entry, u32, bool),
    /// This part of what is asked is true at the end, or false.
    Holds(&'t Prop, bool),
}

/// Whether both are the initial write, or one write.
pub fn same_source(a: &Option<Entry>, b: &Option<Entry>) -> bool
    ensures { result ≡ spec.same_source a.now b.now }
{
    match (a, b) {
        (None, None) => true,
        (Some(w), Some(v)) => same_event(w, v),
        _ => false,
    }
}

fn fits_source(read: &Entry, source: &Option<Entry>, fact: &Fact<'_>) -> bool
    ensures { result ≡ spec.fits_source read.now source.now (fact_of fact.now) }
{
    match fact {
        Fact::From(r, write, truth) if same_event(r, read) => {
            same_source(write, source) == *truth
        }
        _ => true,
    }
}

/// Whether it says of this read from what it reads, or what it returns.
fn speaks_of(read: &Entry, fact: &Fact<'_>) -> bool
    ensures { result ≡ inner.speaks_of read.now (fact_of fact.now) }
{
    match fact {
        Fact::From(r, ..) | Fact::Returns(r, ..) => same_event(r, read),
        _ => false,
    }
}

/// The facts that say of this read from what it reads, or what it returns.
///
/// Errors: out of memory only.
pub fn facts_of_read<'a>(
    alloc: Global,
    facts: &[Fact<'a>],
    read: &Entry,
) -> Result<Vec<Fact<'a>>, NoMemory>
    ensures { IfOk result (λ own. facts_of own.items ≡ filter (inner.speaks_of read.now) (facts_of facts.now)) }
{
    let mut own = Vec::new(alloc);
    for fact in facts {
        if speaks_of(read, fact) {
            own.push(*fact)?;
        }
    }
    Ok(own)
}

/// Whether the facts leave it possible that the read reads from this.
pub fn source_fits(read: &Entry, source: &Option<Entry>, facts: &[Fact<'_>]) -> bool
    ensures { result ≡ list_all (spec.fits_source read.now source.now) (facts_of facts.now) }
{
    for fact in facts {
        if !fits_source(read, source, fact) {
            return false;
        }
    }
    true
}

fn fits_value(read: &Entry, value: u32, fact: &Fact<'_>) -> bool
    ensures { result ≡ spec.fits_value read.now value (fact_of fact.now) }
{
    match fact {
        Fact::Returns(r, v, truth) if same_event(r, read) => (value == *v) == *truth,
        _ => true,
    }
}

/// Whether the facts leave it possible that the read returns this.
pub fn may_return(facts: &[Fact<'_>], read: &Entry, value: u32) -> bool
    ensures { result ≡ spec.may_return (facts_of facts.now) read.now value }
{
    for fact in facts {
        if !fits_value(read, value, fact) {
            return false;
        }
    }
    true
}

/// The value that a fact says of this read.
pub fn told_value(facts: &[Fact<'_>], read: &Entry) -> Option<u32>
    ensures { spec.told_value (facts_of facts.now) read.now ≡ told_of result }
{
    for fact in facts {
        if let Fact::Returns(r, value, true) = fact {
            if same_event(r, read) {
                return Some(*value);
            }
        }
    }
    None
}

fn fits_word(loc: u8, word: u32, fact: &Fact<'_>) -> bool
    ensures { result ≡ spec.fits_word loc word (fact_of fact.now) }
{
    match fact {
        Fact::Holds(Prop::LocIs(l, value), truth) if l.0 == loc => (word == *value) == *truth,
        _ => true,
    }
}

/// Whether the facts leave it possible that the location holds this at the end.
pub fn may_be_left(facts: &[Fact<'_>], loc: u8, word: u32) -> bool
    ensures { result ≡ spec.may_be_left (facts_of facts.now) loc word }
{
    for fact in facts {
        if !fits_word(loc, word, fact) {
            return false;
        }
    }
    true
}

/// The word that a fact says of this location.
pub fn told_word(facts: &[Fact<'_>], loc: u8) -> Option<u32>
    ensures { spec.told_word (facts_of facts.now) loc ≡ told_of result }
{
    for fact in facts {
        if let Fact::Holds(Prop::LocIs(l, value), true) = fact {
            if l.0 == loc {
                return Some(*value);
            }
        }
    }
    None
}

fn fits_last(loc: u8, w: &Entry, fact: &Fact<'_>) -> bool
    ensures { result ≡ spec.fits_last loc w.now (fact_of fact.now) }
{
    match fact {
        Fact::Last(v, true) => v.loc.0 != loc || same_event(v, w),
        Fact::Last(v, false) => !same_event(v, w),
        _ => true,
    }
}

/// Whether the facts leave it possible that this is the last write to the location.
pub fn last_fits(loc: u8, w: &Entry, facts: &[Fact<'_>]) -> bool
    ensures { result ≡ list_all (spec.fits_last loc w.now) (facts_of facts.now) }
{
    for fact in facts {
        if !fits_last(loc, w, fact) {
            return false;
        }
    }
    true
}

fn is_told_before(w: &Entry, v: &Entry, fact: &Fact<'_>) -> bool
    ensures { result ≡ spec.is_told_before w.now v.now (fact_of fact.now) }
{
    match fact {
        Fact::Before(first, second) => same_event(first, w) && same_event(second, v),
        _ => false,
    }
}

/// Whether a fact says that the first write comes before the second.
pub fn told_before(w: &Entry, v: &Entry, facts: &[Fact<'_>]) -> bool
    ensures { result ≡ list_any (spec.is_told_before w.now v.now) (facts_of facts.now) }
{
    for fact in facts {
        if is_told_before(w, v, fact) {
            return true;
        }
    }
    false
}
