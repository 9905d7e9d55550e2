//! Why a node without branches closes its branch.

ghost use Rattle.std.specs.Prelude.{◌≡◌, IfOk};
ghost use Rattle.reading_tables.specs.inner.Tables.{IsTold};
ghost use Rattle.refutation_checker.specs.Trees.{node_of};
ghost use Rattle.refutation_checker.specs.inner.Branches.{IsCase, knowledge_of};
ghost use Rattle.search_report.specs.Shown as spec;
ghost use Rattle.search_report.specs.inner.ShownViews.{shown_closing_of, subject_of};

use crate::lines::next_number;
use crate::shown::{Closing, Subject};
use crate::shown_events::{edges_of, event_at};
use crate::shown_places::places_false;
use reading_tables::tables::{Problem, Told};
use refutation_checker::Node;
use refutation_laws::Model;
use refutations::edges::Acyclic;
use std::alloc::Global;
use tso_terms::{Entry, Loc, NoMemory};

/// What is asked of the word of a write, none being the initial one of the location.
fn subject_at(told: Told<'_>, loc: Loc, word: &Option<Entry>) -> Subject
    requires { IsTold told }
    ensures { subject_of result ≡ spec.subject_at told.entry.test.now (knowledge_of told.entry) loc.0 word.now }
{
    match word {
        None => Subject::OfInitial(loc),
        Some(write) => Subject::OfEvent(event_at(told, write)),
    }
}

/// Why a node without branches closes its branch. Two questions always have answers.
///
/// Errors: out of memory only.
pub fn closing_at(
    alloc: Global,
    problem: &Problem<'_>,
    told: Told<'_>,
    model: Model,
    node: &Node<'_>,
) -> Result<Closing, NoMemory>
    requires { IsCase problem.now told }
    ensures { IfOk result (λ closing. shown_closing_of closing
        ≡ spec.closing_at model told.entry.test.now (knowledge_of told.entry) (node_of node.now)) }
{
    let closing = match node {
        Node::OnLocation(cycle) => {
            Closing::Uniproc(edges_of(alloc, told, Acyclic::OnLocation, cycle)?)
        }
        Node::Globally(cycle) => {
            Closing::Cycle(edges_of(alloc, told, Acyclic::Globally(model), cycle)?)
        }
        Node::Between(read, between, write) => {
            Closing::Between(
                event_at(told, read),
                event_at(told, between),
                event_at(told, write),
            )
        }
        Node::FalseClaim => Closing::False(places_false(alloc, problem, told)?),
        Node::ByLemma(number) => Closing::ByLemma(next_number(*number)?),
        Node::ReadsFrom(read) => {
            Closing::NoAnswer("source", Subject::OfEvent(event_at(told, read)))
        }
        Node::ReadsValue(read) => {
            Closing::NoAnswer("value", Subject::OfEvent(event_at(told, read)))
        }
        Node::IsReadBy(loc, word) => Closing::NoAnswer("reader", subject_at(told, *loc, word)),
        Node::ComesLast(loc) => Closing::NoAnswer("last", Subject::OfLocation(*loc)),
        Node::Asks(_) | Node::HasCase(_) => Closing::False(Vec::new(alloc)),
    };
    Ok(closing)
}
