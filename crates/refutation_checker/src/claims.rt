//! What a proposition can be, as far as the facts of a branch tell the final state; and facts that are met, or can't be.
ghost use Rattle.std.specs.Prelude.{◌≡◌, IfOk, false, map, slice_get, true};
ghost use Rattle.std.specs.List.{list_all, list_any};
ghost use Rattle.tso_terms.specs.Condition.{claim_of};
ghost use Rattle.reading_tables.specs.Told.{fact_of, facts_of};
ghost use Rattle.reading_tables.specs.inner.Tables.{IsTold, readings_of};
ghost use Rattle.possible_reads.specs.Possible.{last_writes};
ghost use Rattle.refutation_laws.specs.Known as known;
ghost use Rattle.lemma_refutations.specs.Refutations as spec;
ghost use Rattle.possible_reads.specs.Facts.{Before, Last, Returns};
ghost use Rattle.refutation_checker.specs.Trees.{lemma_of};
ghost use Rattle.refutation_checker.specs.inner.Branches.{IsCase, knowledge_of};

use crate::tables::{can_read, values_left};
use crate::tree::Lemma;
use reading_tables::ends::words_left;
use reading_tables::facts::Fact;
use reading_tables::orders::{can_be_last, comes_before, is_last};
use reading_tables::sources::reads_it;
use reading_tables::tables::{Problem, Told, reading_for};
use reading_tables::values::can_be_number;
use refutations::events::{is_event, is_read, is_write, same_event};
use std::alloc::Global;
use tso_terms::{Entry, NoMemory, Prop};

/// Whether the proposition can have this truth in a final state, as far as the facts tell it.
///
/// Errors: out of memory only.
pub fn allows(
    alloc: Global,
    problem: &Problem<'_>,
    told: Told<'_>,
    prop: &Prop,
    truth: bool,
) -> Result<bool, NoMemory>
    requires { IsCase problem.now told }
    ensures { IfOk result (λ b. b ≡ spec.allows told.entry.test.now (knowledge_of told.entry) (claim_of prop.now) truth) }
{
    match prop {
        Prop::Truth(value) => Ok(*value == truth),
        Prop::RegIs(core, reg, value) => {
            let values = values_left(alloc, problem, told, *core, *reg)?;
            Ok(can_be_number(&values, truth, *value))
        }
        Prop::LocIs(loc, value) => {
            let values = words_left(alloc, told, loc.0)?;
            Ok(can_be_number(&values, truth, *value))
        }
        Prop::Not(inner) => allows(alloc, problem, told, inner, !truth),
        Prop::And(left, right) | Prop::Or(left, right) => {
            let needs_both = matches!(prop, Prop::And(..)) == truth;
            let first = allows(alloc, problem, told, left, truth)?;
            if first == needs_both {
                allows(alloc, problem, told, right, truth)
            } else {
                Ok(first)
            }
        }
    }
}

/// Whether a part of what is asked, which the fact gives, can't be so.
///
/// Errors: out of memory only.
fn is_impossible(
    alloc: Global,
    problem: &Problem<'_>,
    told: Told<'_>,
    fact: &Fact<'_>,
) -> Result<bool, NoMemory>
    requires { IsCase problem.now told }
    ensures { IfOk result (λ b. b ≡ spec.is_impossible told.entry.test.now (knowledge_of told.entry) (fact_of fact.now)) }
{
    match fact {
        Fact::Holds(prop, truth) => Ok(!allows(alloc, problem, told, prop, *truth)?),
        _ => Ok(false),
    }
}

/// Whether a part of what is asked, which one of the branch's facts gives, can't be so.
///
/// Errors: out of memory only.
pub fn is_false(alloc: Global, problem: &Problem<'_>, told: Told<'_>) -> Result<bool, NoMemory>
    requires { IsCase problem.now told }
    ensures { IfOk result (λ b. b ≡ list_any (spec.is_impossible told.entry.test.now (knowledge_of told.entry)) (facts_of told.entry.facts.now)) }
{
    for fact in told.facts {
        if is_impossible(alloc, problem, told, fact)? {
            return Ok(true);
        }
    }
    Ok(false)
}

/// Whether w is among the writes that can be the last one to the location.
pub fn may_come_last(told: Told<'_>, loc: u8, w: &Entry) -> bool
    requires { IsTold told }
    ensures { result ≡ list_any (known.same_event w.now)
        (last_writes told.entry.test.now (facts_of told.entry.facts.now) (readings_of told.entry.readings.now) loc) }
{
    for v in told.events {
        if can_be_last(told, loc, v) && same_event(w, v) {
            return true;
        }
    }
    false
}

/// Whether the read returns this value, or another one, whatever is still open.
fn is_returned(told: Told<'_>, read: &Entry, value: u32, truth: bool) -> bool
    requires { IsTold told }
    ensures { result ≡ spec.is_known told.entry.test.now (knowledge_of told.entry) (Returns read.now value truth) }
{
    if !is_read(read) {
        return false;
    }
    match reading_for(told.readings, read) {
        Some(x) => !can_be_number(&x.values, !truth, value),
        None => false,
    }
}

/// Whether this is the last write to its location, whatever is still open.
fn is_known_last(told: Told<'_>, w: &Entry) -> bool
    requires { IsTold told }
    ensures { result ≡ spec.is_known told.entry.test.now (knowledge_of told.entry) (Last w.now true) }
{
    is_event(told.test, told.events, w) && is_write(w) && is_last(told, w)
}

/// Whether w, a write, comes before v, whatever is still open.
fn are_ordered(told: Told<'_>, w: &Entry, v: &Entry) -> bool
    requires { IsTold told }
    ensures { result ≡ spec.is_known told.entry.test.now (knowledge_of told.entry) (Before w.now v.now) }
{
    is_write(w) && comes_before(told, w, v)
}

/// Whether the fact is met, whatever is still open.
///
/// Errors: out of memory only.
pub fn is_known(
    alloc: Global,
    problem: &Problem<'_>,
    told: Told<'_>,
    fact: &Fact<'_>,
) -> Result<bool, NoMemory>
    requires { IsCase problem.now told }
    ensures { IfOk result (λ b. b ≡ spec.is_known told.entry.test.now (knowledge_of told.entry) (fact_of fact.now)) }
{
    match fact {
        Fact::From(read, write, true) => Ok(is_read(read) && reads_it(told, write, read)),
        Fact::From(read, write, false) => Ok(is_read(read) && !can_read(told, write, read)),
        Fact::Before(w, v) => Ok(are_ordered(told, w, v)),
        Fact::Last(w, true) => Ok(is_known_last(told, w)),
        Fact::Last(w, false) => Ok(!may_come_last(told, w.loc.0, w)),
        Fact::Returns(read, value, truth) => Ok(is_returned(told, read, *value, *truth)),
        Fact::Holds(prop, truth) => Ok(!allows(alloc, problem, told, prop, !*truth)?),
    }
}

/// Whether all these facts are met, whatever is still open.
fn are_known(
    alloc: Global,
    problem: &Problem<'_>,
    told: Told<'_>,
    facts: &[Fact<'_>],
) -> Result<bool, NoMemory>
    requires { IsCase problem.now told }
    ensures { IfOk result (λ b. b ≡ list_all (spec.is_known told.entry.test.now (knowledge_of told.entry)) (facts_of facts.now)) }
{
    for fact in facts {
        if !is_known(alloc, problem, told, fact)? {
            return Ok(false);
        }
    }
    Ok(true)
}

/// Whether there is a lemma with this number, and its facts are met.
///
/// Errors: out of memory only.
pub fn applies(
    alloc: Global,
    problem: &Problem<'_>,
    told: Told<'_>,
    lemmas: &[Lemma<'_>],
    number: usize,
) -> Result<bool, NoMemory>
    requires { IsCase problem.now told }
    ensures { IfOk result (λ b. b ≡ spec.applies told.entry.test.now (knowledge_of told.entry) (slice_get (map lemma_of lemmas.now) number)) }
{
    match lemmas.get(number) {
        None => Ok(false),
        Some(lemma) => are_known(alloc, problem, told, &lemma.facts),
    }
}
