//! Where a node of a refutation by lemmas may stand.
ghost use Rattle.std.specs.Prelude.{◌≡◌, IfOk, map, slice_get};
ghost use Rattle.std.specs.List.{list_all};
ghost use Rattle.possible_reads.specs.Possible.{values_read};
ghost use Rattle.reading_tables.specs.Told.{fact_of, facts_of};
ghost use Rattle.reading_tables.specs.inner.Tables.{IsTold, readings_of};
ghost use Rattle.lemma_refutations.specs.Refutations as spec;
ghost use Rattle.refutation_checker.specs.Trees.{lemma_of, node_of};
ghost use Rattle.refutation_checker.specs.inner.Branches.{IsCase, knowledge_of};
ghost use Rattle.refutation_checker.specs.inner.Readers.{is_locked_write};

use crate::claims::{applies, is_false};
use crate::edges::{is_between, is_cycle};
use crate::tree::{Lemma, Node};
use reading_tables::counting::is_written;
use reading_tables::facts::Fact;
use reading_tables::tables::{Problem, Told, reading_for};
use refutation_laws::Model;
use refutations::edges::Acyclic;
use refutations::events::{is_event, is_read, is_write, may_come_first, writes_to};
use std::alloc::Global;
use tso_terms::{Entry, Kind, NoMemory};

/// Whether a fact may be asked: it speaks of events of the test.
pub fn may_be_asked(told: Told<'_>, fact: &Fact<'_>) -> bool
    requires { IsTold told }
    ensures { result ≡ spec.may_be_asked told.entry.test.now (fact_of fact.now) }
{
    match fact {
        Fact::From(read, _, _) => is_event(told.test, told.events, read) && is_read(read),
        Fact::Before(w, v) => may_come_first(told.test, told.events, w, v),
        Fact::Last(w, _) => is_event(told.test, told.events, w) && is_write(w),
        Fact::Returns(read, _, _) => is_event(told.test, told.events, read) && is_read(read),
        Fact::Holds(_, _) => true,
    }
}

fn are_locked(events: &[Entry], loc: u8) -> bool
    ensures { result ≡ list_all (is_locked_write loc) events.now }
{
    for e in events {
        if writes_to(loc, e) && e.kind != Kind::LW {
            return false;
        }
    }
    true
}

/// Whether only locked instructions write to the location, and one does.
pub fn is_written_locked(told: Told<'_>, loc: u8) -> bool
    requires { IsTold told }
    ensures { result ≡ spec.is_written_locked told.entry.test.now loc }
{
    is_written(told.events, loc) && are_locked(told.events, loc)
}

/// Whether this is the initial write, or one to this location.
pub fn is_source_at(told: Told<'_>, loc: u8, word: &Option<Entry>) -> bool
    requires { IsTold told }
    ensures { result ≡ spec.is_source_at told.entry.test.now loc word.now }
{
    match word {
        None => true,
        Some(w) => is_event(told.test, told.events, w) && writes_to(loc, w),
    }
}

/// Whether the values of the read are known.
pub fn are_values(told: Told<'_>, read: &Entry) -> bool
    requires { IsTold told }
    ensures { result ≡ spec.are_values (values_read (readings_of told.entry.readings.now) read.now) }
{
    match reading_for(told.readings, read) {
        Some(x) => x.values.is_some(),
        None => false,
    }
}

/// Whether the fact with this number is a proposition's truth.
pub fn is_case(told: Told<'_>, number: usize) -> bool
    requires { IsTold told }
    ensures { result ≡ spec.is_case (slice_get (facts_of told.entry.facts.now) number) }
{
    matches!(told.facts.get(number), Some(Fact::Holds(_, _)))
}

/// Whether a node may be in a branch, below these lemmas.
///
/// Errors: out of memory only.
pub fn is_node(
    alloc: Global,
    problem: &Problem<'_>,
    told: Told<'_>,
    model: Model,
    lemmas: &[Lemma<'_>],
    node: &Node<'_>,
) -> Result<bool, NoMemory>
    requires { IsCase problem.now told }
    ensures { IfOk result (λ b. b ≡ spec.is_node model told.entry.test.now (map lemma_of lemmas.now) (knowledge_of told.entry) (node_of node.now)) }
{
    match node {
        Node::ReadsFrom(r) => Ok(is_event(told.test, told.events, r) && is_read(r)),
        Node::ReadsValue(r) => Ok(
            is_event(told.test, told.events, r) && is_read(r) && are_values(told, r),
        ),
        Node::Asks(fact) => Ok(may_be_asked(told, fact)),
        Node::IsReadBy(loc, word) => Ok(
            is_written_locked(told, loc.0) && is_source_at(told, loc.0, word),
        ),
        Node::ComesLast(loc) => Ok(is_written(told.events, loc.0)),
        Node::HasCase(number) => Ok(is_case(told, *number)),
        Node::OnLocation(cycle) => Ok(is_cycle(told, Acyclic::OnLocation, cycle)),
        Node::Globally(cycle) => Ok(is_cycle(told, Acyclic::Globally(model), cycle)),
        Node::Between(r, v, w) => Ok(is_between(told, r, v, w)),
        Node::FalseClaim => is_false(alloc, problem, told),
        Node::ByLemma(number) => applies(alloc, problem, told, lemmas, *number),
    }
}
