//! The search: an execution or a refutation that is proposed, or else from case to case, depth first. In each a leaf is
//! found, or a question is asked, or an execution is met.
ghost use Rattle.std.specs.Prelude.{◌≡◌, ◌<◌, IfOk, IfSome};
ghost use Rattle.reading_tables.specs.Told.{facts_of};
ghost use Rattle.reading_tables.specs.inner.Tables.{IsProblem};
ghost use Rattle.found_reasons.specs.Reasons.{IsReason};
ghost use Rattle.found_reasons.specs.inner.Cases.{given_at_first};
ghost use Rattle.found_reasons.specs.Reasons as spec;

use crate::reason::{Reason, Step};
use crate::steps::take_step;
use crate::telling::told_node;
use execution_check::is_met;
use reading_tables::facts::Fact;
use reading_tables::tables::{Problem, make_problem};
use refutation_checker::branches::add_branch;
use refutation_checker::checking::{asked_facts, refutes};
use refutation_laws::Model;
use refutation_search::{Proposal, Proposed, propose_answer};
use std::alloc::Global;
use tso_terms::{Execution, NoMemory, Prop, Test};

/// A refutation that is proposed, if the checker accepts it.
fn take_refutation<'t>(
    alloc: Global,
    test: &'t Test,
    model: Model,
    limit: usize,
    proposal: Proposal<'t>,
) -> Result<Option<Reason<'t>>, NoMemory>
    ensures { IfOk result (λ proposed. IfSome proposed (IsReason model test.now limit)) }
{
    let Proposal { lemmas, tree, .. } = proposal;
    if refutes(alloc, test, model, &lemmas, &tree)? {
        return Ok(Some(Reason::Never(lemmas, tree)));
    }
    Ok(None)
}

/// An execution that is proposed, if it is one in which what the test asks is true.
fn take_execution<'t>(
    alloc: Global,
    test: &Test,
    model: Model,
    limit: usize,
    execution: Execution,
) -> Result<Option<Reason<'t>>, NoMemory>
    ensures { IfOk result (λ proposed. IfSome proposed (IsReason model test.now limit)) }
{
    if is_met(alloc, test, model, &execution)? {
        return Ok(Some(Reason::Allowed(execution)));
    }
    Ok(None)
}

/// What a search proposes, if it is an answer.
fn take_proposal<'t>(
    alloc: Global,
    test: &'t Test,
    model: Model,
    limit: usize,
) -> Result<Option<Reason<'t>>, NoMemory>
    ensures { IfOk result (λ proposed. IfSome proposed (IsReason model test.now limit)) }
{
    let problem = make_problem(alloc, test)?;
    match propose_answer(alloc, &problem, model, limit)? {
        Proposed::Refutation(proposal) => take_refutation(alloc, test, model, limit, proposal),
        Proposed::Execution(execution) => take_execution(alloc, test, model, limit, execution),
        Proposed::Nothing => Ok(None),
    }
}

/// Why what the test asks never is, or an execution in which it is. One of the two is found if there can't be more cases than `limit`
/// (`most_cases`).
///
/// Errors: out of memory only.
pub fn explain<'t>(
    alloc: Global,
    test: &'t Test,
    model: Model,
    limit: usize,
) -> Result<Reason<'t>, NoMemory>
    ensures { IfOk result (IsReason model test.now limit) }
{
    if let Some(reason) = take_proposal(alloc, test, model, limit)? {
        return Ok(reason);
    }
    search(alloc, test, model, limit)
}

/// The search, from the case of which nothing is known but that what the test asks is true.
fn search(
    alloc: Global,
    test: &Test,
    model: Model,
    limit: usize,
) -> Result<Reason<'static>, NoMemory>
    ensures { IfOk result (IsReason model test.now limit) }
{
    let problem = make_problem(alloc, test)?;
    let always = Prop::Truth(true);
    let given = asked_facts(alloc, &problem, &always)?;
    close_cases(alloc, &problem, model, limit, given)
}

/// The most events that a test has: two for each instruction.
const MOST_EVENTS: usize = 512;

/// For how many cases one counts, where there are so many events.
fn counted_as(events: usize) -> usize
    ensures counted { result ≡ spec.counted_as events }
    ensures some { 0 < result }
{
    let few = if events < MOST_EVENTS {
        events
    } else {
        MOST_EVENTS
    };
    let side = 1 + few / 8;
    side * side * side
}

/// Goes from case to case, until each is closed by a node, or there is another reason to end the search.
fn close_cases<'t>(
    alloc: Global,
    problem: &Problem<'t>,
    model: Model,
    limit: usize,
    given: Vec<Fact<'t>>,
) -> Result<Reason<'static>, NoMemory>
    requires problem { IsProblem problem.now.test.now problem.now }
    requires given { facts_of given.items ≡ given_at_first problem.now.test.now }
    ensures { IfOk result (IsReason model problem.now.test.now limit) }
{
    let most = limit / counted_as(problem.events.len());
    let mut branches = Vec::new(alloc);
    add_branch(&mut branches, given)?;
    let mut nodes = Vec::new(alloc);
    while let Some(facts) = branches.pop() {
        if nodes.len().saturating_add(branches.len()) >= most {
            return Ok(Reason::TooMany);
        }
        match take_step(alloc, problem, model, &mut branches, &facts)? {
            Step::Leaf(leaf) => nodes.push(told_node(alloc, &leaf)?)?,
            Step::Question(question) => nodes.push(told_node(alloc, &question)?)?,
            Step::Allowed(execution) => return Ok(Reason::Allowed(execution)),
        }
    }
    Ok(Reason::Never(Vec::new(alloc), nodes))
}
