//! A refutation laid out in lines: the nodes from the last to the first, with a stack of the parts that are done.

ghost use Rattle.std.specs.Prelude.{◌≡◌, ◌++◌, ◌∷◌, [], IfOk, None, OnOk, Some, map, take, drop, true};
ghost use Rattle.std.specs.List.{flat_map};
ghost use Rattle.reading_tables.specs.Told.{facts_of};
ghost use Rattle.reading_tables.specs.inner.Tables.{IsProblem};
ghost use Rattle.refutation_checker.specs.Trees.{lemma_of, node_of};
ghost use Rattle.lemma_refutations.specs.Refutations.{known_from};
ghost use Rattle.search_report.specs.Lines as spec;
ghost use Rattle.search_report.specs.inner.LineViews.{reason_line_of, shown_facts_of};
ghost use Rattle.search_report.specs.Shown.{shown_at, shown_facts};
ghost use Rattle.search_report.specs.inner.LineParts.{closed_of, reason_lines_in, open_of, part_in, stacked_parts};
ghost use Rattle.search_report.specs.inner.Standing.{standing_of};
ghost use Rattle.search_report.specs.declared.cases_of_lines.Closed as declared;

use crate::cases_of_lines::{Closed, Open, Part, take_cases};
use crate::lines::{Answered, Line, deeper};
use crate::shown::ShownFact;
use crate::shown_facts::{add_all, add_shown, add_shown_anywhere};
use crate::standing::{Standing, nodes_in_branches};
use reading_tables::facts::Fact;
use reading_tables::rounds::make_table;
use reading_tables::tables::{Problem, told_by};
use refutation_checker::{Lemma, Node};
use refutation_laws::Model;
use std::alloc::Global;
use tso_terms::{NoMemory, Test};

/// Answers that are closed.
fn answered(question: &'static str, closed: Closed) -> Answered
    ensures question { result.question.now ≡ question.now }
    ensures answers { map shown_facts_of result.answers.items ≡ (closed_of closed).answers }
    ensures closing { result.closing ≡ Some closed.closing }
{
    let Closed {
        answers,
        closing,
        text: _text,
    } = closed;
    Answered {
        question,
        answers,
        closing: Some(closing),
    }
}

/// One answer whose part follows.
fn followed(
    alloc: Global,
    question: &'static str,
    answer: Vec<ShownFact>,
) -> Result<Answered, NoMemory>
    ensures question { IfOk result (λ a. a.question.now ≡ question.now) }
    ensures answers { IfOk result (λ a. map shown_facts_of a.answers.items ≡ shown_facts_of answer ∷ []) }
    ensures closing { IfOk result (λ a. a.closing ≡ None) }
{
    let mut answers = Vec::new(alloc);
    answers.push(answer)?;
    Ok(Answered {
        question,
        answers,
        closing: None,
    })
}

/// Adds the lines of cases that are closed, before others.
///
/// Errors: out of memory only.
fn add_closed(
    lines: &mut Vec<Line>,
    question: &'static str,
    closed: Vec<Closed>,
) -> Result<(), NoMemory>
    ensures { OnOk result (reason_lines_in lines.new.items
        ≡ map (spec.closed_case question.now) (map closed_of closed.items) ++ reason_lines_in lines.old.items) }
{
    let mut left = closed;
    while let Some(case) = left.pop() {
        lines.push(Line::Case(0, answered(question, case)))?;
    }
    Ok(())
}

/// Adds lines, one step deeper, before others. The last one of both comes first.
///
/// Errors: out of memory only.
fn add_deeper(lines: &mut Vec<Line>, part: Vec<Line>) -> Result<(), NoMemory>
    ensures { OnOk result (reason_lines_in lines.new.items ≡ map spec.deeper (reason_lines_in part.items) ++ reason_lines_in lines.old.items) }
{
    for line in part {
        lines.push(deeper(line)?)?;
    }
    Ok(())
}

/// Adds the lines of cases whose parts follow, before others.
///
/// Errors: out of memory only.
fn add_open(
    alloc: Global,
    lines: &mut Vec<Line>,
    question: &'static str,
    others: Vec<Open>,
) -> Result<(), NoMemory>
    ensures { OnOk result (reason_lines_in lines.new.items
        ≡ flat_map (spec.open_case question.now) (map open_of others.items) ++ reason_lines_in lines.old.items) }
{
    let mut left = others;
    while let Some(case) = left.pop() {
        let Open {
            answer,
            lines: part,
        } = case;
        add_deeper(lines, part)?;
        lines.push(Line::Case(0, followed(alloc, question, answer)?))?;
    }
    Ok(())
}

/// The lines of a question, the last one first, where all its cases are closed: the last one is what is left.
///
/// Errors: out of memory only.
fn closed_lines(
    alloc: Global,
    question: &'static str,
    closed: Vec<Closed>,
) -> Result<Vec<Line>, NoMemory>
    ensures { IfOk result (λ lines. reason_lines_in lines.items ≡ spec.closed_cases question.now (map closed_of closed.items)) }
{
    let mut lines = Vec::new(alloc);
    let mut left = closed;
    let Some(case) = left.pop() else {
        return Ok(lines);
    };
    lines.push(Line::So(0, answered(question, case)))?;
    add_closed(&mut lines, question, left)?;
    Ok(lines)
}

/// The lines of a question with these cases, the last one first.
///
/// Errors: out of memory only.
fn question_lines(
    alloc: Global,
    question: &'static str,
    closed: Vec<Closed>,
    others: Vec<Open>,
) -> Result<Vec<Line>, NoMemory>
    ensures { IfOk result (λ lines. reason_lines_in lines.items
        ≡ spec.question_lines question.now (map closed_of closed.items) (map open_of others.items)) }
{
    let mut left = others;
    let Some(last) = left.pop() else {
        return closed_lines(alloc, question, closed);
    };
    if left.is_empty() {
        let Open { answer, lines } = last;
        let mut lines = lines;
        lines.push(Line::So(0, followed(alloc, question, answer)?))?;
        add_closed(&mut lines, question, closed)?;
        return Ok(lines);
    }
    left.push(last)?;
    let mut lines = Vec::new(alloc);
    lines.push(Line::Endcases(0))?;
    add_open(alloc, &mut lines, question, left)?;
    add_closed(&mut lines, question, closed)?;
    Ok(lines)
}

/// The part of a node, whose branches have the first of these parts: those are taken.
///
/// Errors: out of memory only.
fn part_of(
    alloc: Global,
    test: &Test,
    standing: Standing,
    parts: &mut Vec<Part>,
) -> Result<Part, NoMemory>
    ensures part { IfOk result (λ p. part_in p ≡ spec.part_of test.now (standing_of standing) (take standing.count (stacked_parts parts.old.items))) }
    ensures rest { OnOk result (stacked_parts parts.new.items ≡ drop standing.count (stacked_parts parts.old.items)) }
{
    let Standing {
        answer,
        question,
        count,
        closing,
    } = standing;
    if count == 0 || parts.is_empty() {
        return Ok(Part::Closed(answer, closing));
    }
    let cases = take_cases(alloc, test, parts, count)?;
    let lines = question_lines(alloc, question, cases.closed, cases.left)?;
    Ok(Part::Open(Open { answer, lines }))
}

/// The parts of a tree, the last one first, where these facts are given.
///
/// Errors: out of memory only.
fn tree_parts(alloc: Global, test: &Test, all: Vec<Standing>) -> Result<Vec<Part>, NoMemory>
    ensures { IfOk result (λ parts. stacked_parts parts.items ≡ spec.tree_parts test.now (map standing_of all.items)) }
{
    let mut parts = Vec::new(alloc);
    let mut left = all;
    while let Some(standing) = left.pop() {
        let part = part_of(alloc, test, standing, &mut parts)?;
        parts.push(part)?;
    }
    Ok(parts)
}

/// Adds the lines of a part.
///
/// Errors: out of memory only.
fn add_part(all: &mut Vec<Line>, part: Part) -> Result<(), NoMemory>
    ensures { OnOk result (map reason_line_of all.new.items ≡ map reason_line_of all.old.items ++ spec.part_lines (part_in part)) }
{
    match part {
        Part::Closed(_answer, closing) => all.push(Line::Leaf(0, closing))?,
        Part::Open(part) => {
            let mut left = part.lines;
            while let Some(line) = left.pop() {
                all.push(line)?;
            }
        }
    }
    Ok(())
}

/// The lines of a tree, where these facts are given.
///
/// Errors: out of memory only.
fn tree_lines<'t>(
    alloc: Global,
    problem: &Problem<'_>,
    model: Model,
    facts: Vec<Fact<'t>>,
    nodes: &[Node<'t>],
) -> Result<Vec<Line>, NoMemory>
    requires { IsProblem problem.now.test.now problem.now }
    ensures { IfOk result (λ lines.
        map reason_line_of lines.items
        ≡ spec.tree_lines model problem.now.test.now (facts_of facts.entry.items) (map node_of nodes.now)) }
{
    let standing = nodes_in_branches(alloc, problem, model, facts, nodes)?;
    let mut parts = tree_parts(alloc, problem.test, standing)?;
    let mut lines = Vec::new(alloc);
    while let Some(part) = parts.pop() {
        add_part(&mut lines, part)?;
    }
    Ok(lines)
}

/// What the claim gives, as it is shown. A table is made only where a fact of it is shown with values of events.
///
/// Errors: out of memory only.
fn shown_given(
    alloc: Global,
    problem: &Problem<'_>,
    given: &[Fact<'_>],
) -> Result<Vec<ShownFact>, NoMemory>
    requires { IsProblem problem.now.test.now problem.now }
    ensures { IfOk result (λ shown. shown_facts_of shown
        ≡ shown_facts problem.now.test.now (known_from problem.now.test.now (facts_of given.now)) (facts_of given.now)) }
{
    let mut shown = Vec::new(alloc);
    if add_shown_anywhere(alloc, &mut shown, problem.test, given)? {
        return Ok(shown);
    }
    let table = make_table(alloc, problem, given)?;
    let mut shown = Vec::new(alloc);
    add_shown(alloc, &mut shown, told_by(problem, given, &table), given)?;
    Ok(shown)
}

/// Facts of a branch, as they are shown there.
///
/// Errors: out of memory only.
fn shown_in_branch(
    alloc: Global,
    problem: &Problem<'_>,
    branch: &[Fact<'_>],
    facts: &[Fact<'_>],
) -> Result<Vec<ShownFact>, NoMemory>
    requires { IsProblem problem.now.test.now problem.now }
    ensures { IfOk result (λ shown. shown_facts_of shown
        ≡ map (shown_at problem.now.test.now (known_from problem.now.test.now (facts_of branch.now))) (facts_of facts.now)) }
{
    let table = make_table(alloc, problem, branch)?;
    let mut shown = Vec::new(alloc);
    add_all(alloc, &mut shown, told_by(problem, branch, &table), facts)?;
    Ok(shown)
}

/// Adds a line of what the claim gives, where that is more than one fact.
///
/// Errors: out of memory only.
pub fn add_given(
    alloc: Global,
    all: &mut Vec<Line>,
    problem: &Problem<'_>,
    given: &[Fact<'_>],
) -> Result<(), NoMemory>
    requires { IsProblem problem.now.test.now problem.now }
    ensures { OnOk result (map reason_line_of all.new.items ≡ map reason_line_of all.old.items ++ spec.given_lines problem.now.test.now (facts_of given.now)) }
{
    if given.len() < 2 {
        return Ok(());
    }
    all.push(Line::Given(shown_given(alloc, problem, given)?))?;
    Ok(())
}

/// Adds the lines of a lemma, which has this number.
///
/// Errors: out of memory only.
fn add_lemma<'t>(
    alloc: Global,
    all: &mut Vec<Line>,
    problem: &Problem<'_>,
    model: Model,
    given: &[Fact<'t>],
    number: usize,
    lemma: &Lemma<'t>,
) -> Result<(), NoMemory>
    requires { IsProblem problem.now.test.now problem.now }
    ensures { OnOk result (map reason_line_of all.new.items ≡ map reason_line_of all.old.items
        ++ spec.lemma_lines model problem.now.test.now (facts_of given.now) number (lemma_of lemma.now)) }
{
    let mut facts = Vec::from_slice(alloc, &lemma.facts)?;
    facts.extend_from_slice(given)?;
    let shown = shown_in_branch(alloc, problem, &facts, &lemma.facts)?;
    all.push(Line::Never(number, shown))?;
    let lines = tree_lines(alloc, problem, model, facts, &lemma.tree)?;
    for line in lines {
        all.push(deeper(line)?)?;
    }
    Ok(())
}

/// Adds the lines of lemmas, in their order; the first has the number 1.
///
/// Errors: out of memory only.
pub fn add_lemmas<'t>(
    alloc: Global,
    all: &mut Vec<Line>,
    problem: &Problem<'_>,
    model: Model,
    given: &[Fact<'t>],
    lemmas: &[Lemma<'t>],
) -> Result<(), NoMemory>
    requires { IsProblem problem.now.test.now problem.now }
    ensures { OnOk result (map reason_line_of all.new.items ≡ map reason_line_of all.old.items
        ++ spec.lemmas_lines model problem.now.test.now (facts_of given.now) 1 (map lemma_of lemmas.now)) }
{
    for at in 0..lemmas.len() {
        add_lemma(alloc, all, problem, model, given, at + 1, &lemmas[at])?;
    }
    Ok(())
}

/// Adds the lines of a tree, where these facts are given.
///
/// Errors: out of memory only.
pub fn add_tree<'t>(
    alloc: Global,
    all: &mut Vec<Line>,
    problem: &Problem<'_>,
    model: Model,
    given: &[Fact<'t>],
    tree: &[Node<'t>],
) -> Result<(), NoMemory>
    requires { IsProblem problem.now.test.now problem.now }
    ensures { OnOk result (map reason_line_of all.new.items ≡ map reason_line_of all.old.items
        ++ spec.tree_lines model problem.now.test.now (facts_of given.now) (map node_of tree.now)) }
{
    let lines = tree_lines(alloc, problem, model, Vec::from_slice(alloc, given)?, tree)?;
    for line in lines {
        all.push(line)?;
    }
    Ok(())
}
