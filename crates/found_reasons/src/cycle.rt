//! A cycle of the edges that facts tell, or a row of the events in which each of these edges goes forward.
ghost use Rattle.std.specs.Prelude.{◌≡◌, ◌<◌, ◌+◌, true, IfOk, IfSome, length, option_map, take};
ghost use Rattle.std.specs.List.{list_any};
ghost use Rattle.tso_terms.specs.declared.execution.Entry as declared;
ghost use Rattle.relational_model.specs.Events.{IsIn};
ghost use Rattle.refutation_laws.specs.Known.{events_of};
ghost use Rattle.refutation_laws.specs.Edges as cycles;
ghost use Rattle.refutations.specs.inner.Trees.{relations_of};
ghost use Rattle.reading_tables.specs.inner.Tables.{IsTold};
ghost use Rattle.refutation_checker.specs.inner.Branches.{knowledge_of};
ghost use Rattle.lemma_refutations.specs.Edges as edges;
ghost use Rattle.found_reasons.specs.inner.Cycles.{up_to, CycleOrOrdered};

use crate::sorting::{Precedence, sort};
use reading_tables::tables::Told;
use refutation_checker::edges::leads_to;
use refutations::Acyclic;
use refutations::events::same_event;
use std::alloc::Global;
use tso_terms::{Entry, NoMemory};

/// One of these events that leads to x.
fn predecessor(told: Told<'_>, acyclic: Acyclic, some: &[Entry], x: &Entry) -> Entry
    requires told { IsTold told }
    requires some { list_any (λ y. edges.is_edge told.test.now (knowledge_of told) (relations_of acyclic) y x.now) some.now ≡ true }
    ensures inside { IsIn some.now result }
    ensures edge { edges.is_edge told.entry.test.now (knowledge_of told.entry) (relations_of acyclic) result x.now ≡ true }
{
    for y in some {
        if leads_to(told, acyclic, y, x) {
            return *y;
        }
    }
    *x
}

/// Where x stands in a path, if it does.
fn place_of(path: &[Entry], x: &Entry) -> Option<usize>
    ensures place { option_map (λ at. take (at + 1) path.now) result ≡ up_to x.now path.now }
    ensures within { IfSome result (λ at. at < length path.now) }
{
    for at in 0..path.len() {
        if same_event(&path[at], x) {
            return Some(at);
        }
    }
    None
}

/// Goes back from event to event until one comes again: a cycle.
fn walk_back(
    alloc: Global,
    told: Told<'_>,
    acyclic: Acyclic,
    some: &[Entry],
) -> Result<Vec<Entry>, NoMemory>
    requires told { IsTold told }
    requires inside { (x : declared.Entry) → IsIn some.now x → IsIn (events_of told.test.now) x }
    requires stuck { (x : declared.Entry) → IsIn some.now x
        → list_any (λ y. edges.is_edge told.test.now (knowledge_of told) (relations_of acyclic) y x) some.now ≡ true }
    requires some { 0 < length some.now }
    ensures { IfOk result (λ c.
        cycles.is_cycle told.entry.test.now (edges.is_edge told.entry.test.now (knowledge_of told.entry) (relations_of acyclic)) c.items
        ≡ true) }
{
    let mut path = Vec::new(alloc);
    let mut at = some[0];
    loop {
        if let Some(place) = place_of(&path, &at) {
            path.truncate(place + 1);
            return Ok(path);
        }
        path.insert(0, at)?;
        at = predecessor(told, acyclic, some, &at);
    }
}

/// A cycle of relations that are to be acyclic together. Where there is none, all events can stand in
/// a row in which each edge goes forward.
///
/// Errors: out of memory only.
pub fn find_cycle(
    alloc: Global,
    told: Told<'_>,
    acyclic: Acyclic,
) -> Result<Option<Vec<Entry>>, NoMemory>
    requires { IsTold told }
    ensures { IfOk result (CycleOrOrdered told.entry.test.now (knowledge_of told.entry) acyclic) }
{
    let sorted = sort(alloc, Precedence::Edges(told, acyclic), told.events)?;
    if sorted.rest.is_empty() {
        return Ok(None);
    }
    let cycle = walk_back(alloc, told, acyclic, &sorted.rest)?;
    Ok(Some(cycle))
}
