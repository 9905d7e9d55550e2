//! What closes a case, where something does.
ghost use Rattle.std.specs.Prelude.{◌≡◌, IfOk};
ghost use Rattle.reading_tables.specs.inner.Tables.{IsTold};
ghost use Rattle.refutation_checker.specs.inner.Branches.{IsCase, knowledge_of};
ghost use Rattle.found_reasons.specs.inner.Questions.{first_where};
ghost use Rattle.found_reasons.specs.inner.Cases as spec;

use crate::cycle::find_cycle;
use reading_tables::tables::{Problem, Told, reading_for};
use refutation_checker::claims::is_false;
use refutation_checker::edges::is_between;
use refutation_laws::Model;
use refutations::events::{are_parts, is_read};
use refutations::{Acyclic, Node};
use std::alloc::Global;
use tso_terms::{Entry, NoMemory};

/// Whether it is a read to which no source is left.
fn has_no_source(told: Told<'_>, r: &Entry) -> bool
    requires { IsTold told }
    ensures { result ≡ spec.has_no_source told.entry.test.now (knowledge_of told.entry) r.now }
{
    if !is_read(r) {
        return false;
    }
    match reading_for(told.readings, r) {
        Some(x) => x.sources.is_empty(),
        None => false,
    }
}

/// What a read reads from to which no source is left: a question without answers.
fn find_sourceless(told: Told<'_>) -> Option<Node>
    requires { IsTold told }
    ensures { result ≡ spec.read_of (first_where (spec.has_no_source told.entry.test.now (knowledge_of told.entry)) told.entry.events.now) }
{
    for r in told.events {
        if has_no_source(told, r) {
            return Some(Node::ReadsFrom(*r));
        }
    }
    None
}

/// A write between the two parts of a locked instruction.
fn find_between(told: Told<'_>) -> Option<Node>
    requires { IsTold told }
    ensures { result ≡ spec.first_write_between told.entry.test.now (knowledge_of told.entry) told.entry.events.now told.entry.events.now }
{
    for r in told.events {
        for w in told.events {
            if are_parts(r, w) {
                for v in told.events {
                    if is_between(told, r, v, w) {
                        return Some(Node::Between(*r, *v, *w));
                    }
                }
            }
        }
    }
    None
}

/// A leaf that closes the case, or a question to which no answer is possible. One is found wherever there is one.
///
/// Errors: out of memory only.
pub fn find_leaf(
    alloc: Global,
    problem: &Problem<'_>,
    told: Told<'_>,
    model: Model,
) -> Result<Option<Node>, NoMemory>
    requires { IsCase problem.now told }
    ensures { IfOk result (spec.LeafIfAny model told.entry.test.now (knowledge_of told.entry)) }
{
    if is_false(alloc, problem, told)? {
        return Ok(Some(Node::FalseClaim));
    }
    if let Some(question) = find_sourceless(told) {
        return Ok(Some(question));
    }
    if let Some(cycle) = find_cycle(alloc, told, Acyclic::OnLocation)? {
        return Ok(Some(Node::OnLocation(cycle)));
    }
    if let Some(cycle) = find_cycle(alloc, told, Acyclic::Globally(model))? {
        return Ok(Some(Node::Globally(cycle)));
    }
    Ok(find_between(told))
}
