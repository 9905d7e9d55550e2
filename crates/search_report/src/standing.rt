//! The nodes of a tree, each in its branch: what is shown there, and how many branches there are below.

ghost use Rattle.std.specs.Prelude.{◌≡◌, ◌++◌, ◌∷◌, [], IfOk, OnOk, map};
ghost use Rattle.reading_tables.specs.Told.{facts_of};
ghost use Rattle.reading_tables.specs.inner.Tables.{IsProblem};
ghost use Rattle.refutation_checker.specs.Trees.{node_of};
ghost use Rattle.lemma_refutations.specs.Refutations.{answers, known_from};
ghost use Rattle.search_report.specs.Lines as spec;
ghost use Rattle.search_report.specs.inner.LineViews.{shown_facts_of};
ghost use Rattle.search_report.specs.Shown.{closing_at as spec_closing_at, shown_facts};
ghost use Rattle.search_report.specs.inner.ShownViews.{shown_closing_of};
ghost use Rattle.refutation_checker.specs.inner.Stack.{branches_of};
ghost use Rattle.search_report.specs.inner.Standing.{IsTableOf, branch_in, branch_of, stack_of, standing_of};

use crate::shown::{Closing, ShownFact};
use crate::shown_closings::closing_at;
use crate::shown_facts::add_shown;
use reading_tables::facts::Fact;
use reading_tables::rounds::make_table;
use reading_tables::tables::{Problem, Table, told_by};
use refutation_checker::Node;
use refutation_checker::branches::add_branches;
use refutation_laws::Model;
use std::alloc::Global;
use tso_terms::NoMemory;

/// The facts of a branch.
#[derive(Drop)]
pub struct Branch<'t> {
    pub facts: Vec<Fact<'t>>,
    /// How many there were before its last answer, which stands first.
    pub before: usize,
}

/// A node in its branch.
#[derive(Drop)]
pub struct Standing {
    /// The last answer there.
    pub answer: Vec<ShownFact>,
    /// The word that tells its own question from others, or nothing.
    pub question: &'static str,
    /// How many branches it has.
    pub count: usize,
    /// Why it closes its branch, if it has none.
    pub closing: Closing,
}

/// The word that tells a question from others, where its answers alone don't.
fn question_word(node: &Node<'_>) -> &'static str
    ensures { result.now ≡ spec.question_word (node_of node.now) }
{
    match node {
        Node::IsReadBy(..) => "reader",
        Node::HasCase(_) => "part",
        _ => "",
    }
}

/// Adds branches, of which the last one comes first, to those that are open.
fn add_below<'t>(
    stack: &mut Vec<Branch<'t>>,
    below: Vec<Vec<Fact<'t>>>,
    before: usize,
) -> Result<(), NoMemory>
    ensures { OnOk result (stack_of stack.new.items ≡ map (branch_of before) (branches_of below.entry.items) ++ stack_of stack.old.items) }
{
    for facts in below {
        stack.push(Branch { facts, before })?;
    }
    Ok(())
}

/// Adds the branches of a node in its branch, of which this is the table; the first is added last.
///
/// Errors: out of memory only.
fn add_answers<'t>(
    alloc: Global,
    below: &mut Vec<Vec<Fact<'t>>>,
    problem: &Problem<'_>,
    branch: &Branch<'t>,
    table: &Table,
    node: &Node<'t>,
) -> Result<(), NoMemory>
    requires problem { IsProblem problem.now.test.now problem.now }
    requires table { IsTableOf problem.now (facts_of branch.now.facts.items) table.now }
    ensures { IfOk result (λ _. branches_of below.new.items
        ≡ map (λ answer. answer ++ facts_of branch.now.facts.items)
        (answers problem.now.test.now (known_from problem.now.test.now (facts_of branch.now.facts.items)) (node_of node.now)) ++ branches_of below.old.items) }
{
    let told = told_by(problem, &branch.facts, table);
    add_branches(alloc, below, problem, told, &branch.facts, node)
}

/// A node in its branch, of which this is the table, with so many branches below.
///
/// Errors: out of memory only.
fn stand(
    alloc: Global,
    problem: &Problem<'_>,
    model: Model,
    branch: &Branch<'_>,
    table: &Table,
    node: &Node<'_>,
    count: usize,
) -> Result<Standing, NoMemory>
    requires problem { IsProblem problem.now.test.now problem.now }
    requires table { IsTableOf problem.now (facts_of branch.now.facts.items) table.now }
    ensures answer { IfOk result (λ s. shown_facts_of s.answer ≡ shown_facts problem.now.test.now
        (known_from problem.now.test.now (facts_of branch.now.facts.items)) (spec.last_answer (branch_in branch.now))) }
    ensures question { IfOk result (λ s. s.question.now ≡ spec.question_word (node_of node.now)) }
    ensures count { IfOk result (λ s. s.count ≡ count) }
    ensures closing { IfOk result (λ s. shown_closing_of s.closing ≡ spec_closing_at model problem.now.test.now
        (known_from problem.now.test.now (facts_of branch.now.facts.items)) (node_of node.now)) }
{
    let told = told_by(problem, &branch.facts, table);
    let (last, _) = branch
        .facts
        .split_at(branch.facts.len().saturating_sub(branch.before));
    let mut answer = Vec::new(alloc);
    add_shown(alloc, &mut answer, told, last)?;
    let closing = closing_at(alloc, problem, told, model, node)?;
    Ok(Standing {
        answer,
        question: question_word(node),
        count,
        closing,
    })
}

/// Adds a node in its branch, and its own branches to those that are open.
///
/// Errors: out of memory only.
fn go_on<'t>(
    alloc: Global,
    problem: &Problem<'_>,
    model: Model,
    all: &mut Vec<Standing>,
    stack: &mut Vec<Branch<'t>>,
    branch: &Branch<'t>,
    node: &Node<'t>,
) -> Result<(), NoMemory>
    requires { IsProblem problem.now.test.now problem.now }
    ensures standing { OnOk result (map standing_of all.new.items
        ≡ map standing_of all.old.items ++ (spec.standing_at model problem.now.test.now (branch_in branch.now) (node_of node.now) ∷ [])) }
    ensures below { OnOk result (stack_of stack.new.items
        ≡ spec.branches_below problem.now.test.now (branch_in branch.now) (node_of node.now) ++ stack_of stack.old.items) }
{
    let table = make_table(alloc, problem, &branch.facts)?;
    let mut below = Vec::new(alloc);
    add_answers(alloc, &mut below, problem, branch, &table, node)?;
    let standing = stand(alloc, problem, model, branch, &table, node, below.len())?;
    all.push(standing)?;
    add_below(stack, below, branch.facts.len())
}

/// The nodes of a tree, each in its branch, where these facts are given.
///
/// Errors: out of memory only.
pub fn nodes_in_branches<'t>(
    alloc: Global,
    problem: &Problem<'_>,
    model: Model,
    facts: Vec<Fact<'t>>,
    nodes: &[Node<'t>],
) -> Result<Vec<Standing>, NoMemory>
    requires { IsProblem problem.now.test.now problem.now }
    ensures { IfOk result (λ all. map standing_of all.items
        ≡ spec.standing model problem.now.test.now (spec.first_branch (facts_of facts.entry.items) ∷ []) (map node_of nodes.now)) }
{
    let mut all = Vec::new(alloc);
    let mut stack = Vec::new(alloc);
    let before = facts.len();
    stack.push(Branch { facts, before })?;
    for node in nodes {
        let Some(branch) = stack.pop() else {
            return Ok(all);
        };
        go_on(alloc, problem, model, &mut all, &mut stack, &branch, node)?;
    }
    Ok(all)
}
