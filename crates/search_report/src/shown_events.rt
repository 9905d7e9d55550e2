//! Events and edges as they are shown, with what the facts of a branch tell of them.

ghost use Rattle.std.specs.Prelude.{◌≡◌, IfOk};
ghost use Rattle.std.specs.Option.{option_map};
ghost use Rattle.refutations.specs.inner.Trees.{relations_of};
ghost use Rattle.reading_tables.specs.inner.Told.{known_of};
ghost use Rattle.reading_tables.specs.inner.Tables.{IsTold};
ghost use Rattle.refutation_checker.specs.inner.Branches.{knowledge_of};
ghost use Rattle.search_report.specs.Shown as spec;

use crate::shown::{Edge, Event};
use reading_tables::facts::told_value;
use reading_tables::tables::{Told, reading_for, values_written};
use refutation_checker::edges::first_relation;
use refutations::edges::Acyclic;
use refutations::events::{is_read, is_write};
use std::alloc::Global;
use tso_terms::{Entry, NoMemory};

/// The one value, where there is no other.
fn only_one(values: &Option<Vec<u32>>) -> Option<u32>
    ensures { result ≡ spec.only_one (known_of values.now) }
{
    let Some(values) = values else {
        return None;
    };
    match values.split_first() {
        Some((value, [])) => Some(*value),
        _ => None,
    }
}

fn value_returned(told: Told<'_>, read: &Entry) -> Option<u32>
    requires { IsTold told }
    ensures { result ≡ spec.value_returned told.entry.test.now (knowledge_of told.entry) read.now }
{
    if let Some(value) = told_value(told.facts, read) {
        return Some(value);
    }
    match reading_for(told.readings, read) {
        Some(x) => only_one(&x.values),
        None => None,
    }
}

/// What a read returns, and what a write writes, where the facts tell it.
fn value_shown(told: Told<'_>, e: &Entry) -> Option<u32>
    requires { IsTold told }
    ensures { result ≡ spec.value_shown told.entry.test.now (knowledge_of told.entry) e.now }
{
    if is_read(e) {
        value_returned(told, e)
    } else if is_write(e) {
        only_one(values_written(told, e))
    } else {
        None
    }
}

/// An event, with its value where the facts tell it.
pub fn event_at(told: Told<'_>, e: &Entry) -> Event
    requires { IsTold told }
    ensures { result ≡ spec.event_at told.entry.test.now (knowledge_of told.entry) e.now }
{
    Event {
        entry: *e,
        value: value_shown(told, e),
    }
}

/// What a read reads from; none is the initial write.
pub fn source_at(told: Told<'_>, source: &Option<Entry>) -> Option<Event>
    requires { IsTold told }
    ensures { result ≡ option_map (spec.event_at told.entry.test.now (knowledge_of told.entry)) source.now }
{
    match source {
        None => None,
        Some(write) => Some(event_at(told, write)),
    }
}

fn edge_at(told: Told<'_>, acyclic: Acyclic, x: &Entry, y: &Entry) -> Edge
    requires { IsTold told }
    ensures { result ≡ spec.edge_at told.entry.test.now (knowledge_of told.entry) (relations_of acyclic) x.now y.now }
{
    Edge {
        source: event_at(told, x),
        relation: first_relation(told, acyclic, x, y),
        target: event_at(told, y),
    }
}

/// The edges of a cycle: from each of these events to the next one, and from the last one to the first.
///
/// Errors: out of memory only.
pub fn edges_of(
    alloc: Global,
    told: Told<'_>,
    acyclic: Acyclic,
    cycle: &[Entry],
) -> Result<Vec<Edge>, NoMemory>
    requires { IsTold told }
    ensures { IfOk result (λ edges. edges.items
        ≡ spec.edges_of told.entry.test.now (knowledge_of told.entry) (relations_of acyclic) cycle.now) }
{
    let mut edges = Vec::new(alloc);
    let Some((first, rest)) = cycle.split_first() else {
        return Ok(edges);
    };
    let mut last = first;
    for next in rest {
        edges.push(edge_at(told, acyclic, last, next))?;
        last = next;
    }
    edges.push(edge_at(told, acyclic, last, first))?;
    Ok(edges)
}
