//! Events in a row in which nothing stands before what must precede it, as far as that is possible.
ghost use Rattle.std.specs.Prelude.{◌≡◌, ◌&&◌, IfOk};
ghost use Rattle.std.specs.List.{list_any};
ghost use Rattle.refutation_laws.specs.Edges as edges;
ghost use Rattle.refutation_laws.specs.inner.Orders as orders;
ghost use Rattle.refutations.specs.inner.Trees.{known_of};
ghost use Rattle.found_reasons.specs.inner.Precedence.{edge_by, is_first, IsPrecedence, IsSorted};

use reading_tables::tables::Told;
use refutation_checker::edges::leads_to;
use refutation_laws::Model;
use refutations::answers::{comes_before, from_reads, reads_from};
use refutations::events::{are_parts, is_before};
use refutations::{Acyclic, Answers, Branch};
use std::alloc::Global;
use tso_terms::{Entry, Kind, NoMemory};

/// What must precede what.
#[derive(Clone, Copy)]
pub enum Precedence<'a> {
    /// The edges of which a cycle is made.
    Edges(Told<'a>, Acyclic),
    /// What an order of the model keeps, in which each load part stands with its store part.
    Order(Branch<'a>, Model),
}

fn must_precede(model: Model, answers: &Answers, x: &Entry, y: &Entry) -> bool
    ensures { result ≡ orders.must_precede model (known_of answers.now) x.now y.now }
{
    // With store buffers a plain load may pass a plain store.
    is_before(x, y) && !(matches!(model, Model::Tso) && x.kind == Kind::W && y.kind == Kind::R)
        || reads_from(answers, x, y) && x.core.0 != y.core.0
        || comes_before(answers, x, y)
        || from_reads(answers, x, y)
}

fn precedes_load(events: &[Entry], model: Model, answers: &Answers, x: &Entry, y: &Entry) -> bool
    ensures { result ≡ list_any (λ r. edges.are_parts r y.now && orders.must_precede model (known_of answers.now) x.now r) events.now }
{
    for r in events {
        if are_parts(r, y) && must_precede(model, answers, x, r) {
            return true;
        }
    }
    false
}

/// Whether x must precede y.
pub fn precedes(precedence: Precedence<'_>, x: &Entry, y: &Entry) -> bool
    requires { IsPrecedence precedence }
    ensures { result ≡ edge_by precedence.entry x.now y.now }
{
    match precedence {
        Precedence::Edges(told, acyclic) => leads_to(told, acyclic, x, y),
        Precedence::Order(branch, model) => {
            must_precede(model, branch.answers, x, y)
                || precedes_load(branch.events, model, branch.answers, x, y)
        }
    }
}

fn can_be_first(precedence: Precedence<'_>, some: &[Entry], x: &Entry) -> bool
    requires { IsPrecedence precedence }
    ensures { result ≡ is_first (edge_by precedence.entry) some.now x.now }
{
    for y in some {
        if precedes(precedence, y, x) {
            return false;
        }
    }
    true
}

/// Events in a row, and those that are left, each of which is preceded by one of them.
#[derive(Drop)]
pub struct Sorted {
    pub row: Vec<Entry>,
    pub rest: Vec<Entry>,
}

/// Puts events in a row: first those that none must precede, then those that no one else must precede,
/// and so on.
///
/// Errors: out of memory only.
pub fn sort(alloc: Global, precedence: Precedence<'_>, some: &[Entry]) -> Result<Sorted, NoMemory>
    requires { IsPrecedence precedence }
    ensures { IfOk result (λ s. IsSorted (edge_by precedence.entry) some.now s.row.items s.rest.items) }
{
    let mut row = Vec::new(alloc);
    let mut rest = Vec::from_slice(alloc, some)?;
    loop {
        let mut left = Vec::new(alloc);
        for x in &rest {
            if can_be_first(precedence, &rest, x) {
                row.push(*x)?;
            } else {
                left.push(*x)?;
            }
        }
        if left.len() == rest.len() {
            return Ok(Sorted { row, rest });
        }
        rest = left;
    }
}
