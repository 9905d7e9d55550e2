//! One step of the search: what is done with an open case.
ghost use Rattle.std.specs.Prelude.{◌≡◌, IfOk};
ghost use Rattle.refutation_laws.specs.Models.{IsMet};
ghost use Rattle.refutation_laws.specs.Refutations.{asked_claim};
ghost use Rattle.refutation_laws.specs.inner.FullCases.{IsFull};
ghost use Rattle.possible_reads.specs.Possible.{readings};
ghost use Rattle.reading_tables.specs.Told.{facts_of};
ghost use Rattle.reading_tables.specs.inner.Tables.{IsProblem, IsTold, readings_of};
ghost use Rattle.refutations.specs.inner.Trees.{known_of};
ghost use Rattle.refutation_checker.specs.inner.Branches.{IsCase, knowledge_of};
ghost use Rattle.refutation_checker.specs.inner.Stack.{branches_of};
ghost use Rattle.found_reasons.specs.inner.Answered.{answers_told};
ghost use Rattle.found_reasons.specs.inner.Cases.{IsBranch, HasNoLeaf, IsCaseStep, AreOpenAfter, QuestionOrFull};

use crate::answers::make_answers;
use crate::choosing::choose_question;
use crate::leaves::find_leaf;
use crate::order::make_order;
use crate::questions::{is_open_question, next_question};
use crate::reason::Step;
use crate::telling::told_node;
use possible_reads::last_words_are_possible;
use reading_tables::facts::Fact;
use reading_tables::rounds::make_table;
use reading_tables::tables::{Problem, Told, told_by};
use refutation_checker::checking::go_on;
use refutation_laws::Model;
use refutations::{Answers, Node as Found};
use std::alloc::Global;
use tso_terms::{Entry, Execution, NoMemory};

/// The order of a branch in which each question is answered, and that no leaf closes.
fn order_of_branch(
    alloc: Global,
    told: Told<'_>,
    model: Model,
    answers: &Answers,
) -> Result<Vec<Entry>, NoMemory>
    requires told { IsTold told }
    requires table { readings_of told.readings.now ≡ readings told.test.now (facts_of told.facts.now) }
    requires branch { IsBranch told.test.now (facts_of told.facts.now) }
    requires answers { known_of answers.now ≡ answers_told (facts_of told.facts.now) }
    requires full { IsFull told.test.now (known_of answers.now) }
    requires leafless { HasNoLeaf model told.test.now (knowledge_of told) }
    ensures { IfOk result (λ o. IsMet model told.entry.test.now (asked_claim told.entry.test.now.condition) o.items) }
{
    told.test.know_limits();
    last_words_are_possible();
    make_order(alloc, told.test, told.events, model, answers)
}

/// A question that no answer settles: one that the facts leave open, or else the first one.
fn open_question(told: Told<'_>, answers: &Answers) -> Option<Found>
    requires { IsTold told }
    ensures { QuestionOrFull told.entry.test.now (known_of answers.now) result }
{
    if let Some(question) = choose_question(told) {
        if is_open_question(told.test, told.events, answers, &question) {
            return Some(question);
        }
    }
    next_question(told.events, answers)
}

/// What is done with an open case: a leaf closes it, or else the next question is asked, or it has an execution.
fn next_step(
    alloc: Global,
    problem: &Problem<'_>,
    told: Told<'_>,
    model: Model,
) -> Result<Step, NoMemory>
    requires case { IsCase problem.now told }
    requires table { readings_of told.readings.now ≡ readings told.test.now (facts_of told.facts.now) }
    requires branch { IsBranch told.test.now (facts_of told.facts.now) }
    ensures { IfOk result (IsCaseStep model told.entry.test.now (facts_of told.entry.facts.now)) }
{
    if let Some(leaf) = find_leaf(alloc, problem, told, model)? {
        return Ok(Step::Leaf(leaf));
    }
    let answers = make_answers(alloc, told.facts)?;
    if let Some(question) = open_question(told, &answers) {
        return Ok(Step::Question(question));
    }
    let order = order_of_branch(alloc, told, model, &answers)?;
    Ok(Step::Allowed(Execution { order }))
}

/// What is done with the branch of these facts.
fn step_at<'x>(
    alloc: Global,
    problem: &'x Problem<'x>,
    model: Model,
    facts: &'x [Fact<'x>],
) -> Result<Step, NoMemory>
    requires problem { IsProblem problem.now.test.now problem.now }
    requires branch { IsBranch problem.now.test.now (facts_of facts.now) }
    ensures step { IfOk result (IsCaseStep model problem.now.test.now (facts_of facts.now)) }
{
    let table = make_table(alloc, problem, facts)?;
    let told = told_by(problem, facts, &table);
    next_step(alloc, problem, told, model)
}

/// Takes a step in the branch of these facts. Where it asks a question, its branches are added.
///
/// Errors: out of memory only.
pub fn take_step<'t>(
    alloc: Global,
    problem: &Problem<'t>,
    model: Model,
    branches: &mut Vec<Vec<Fact<'t>>>,
    facts: &[Fact<'t>],
) -> Result<Step, NoMemory>
    requires problem { IsProblem problem.now.test.now problem.now }
    requires branch { IsBranch problem.now.test.now (facts_of facts.now) }
    ensures step { IfOk result (IsCaseStep model problem.now.test.now (facts_of facts.now)) }
    ensures added { IfOk result (AreOpenAfter problem.now.test.now (facts_of facts.now) (branches_of branches.old.items) (branches_of branches.new.items)) }
{
    let step = step_at(alloc, &*problem, model, &*facts)?;
    if let Step::Question(question) = &step {
        let node = told_node(alloc, question)?;
        // A question that may be asked may stand there.
        let _stands = go_on(alloc, problem, model, &[], branches, facts, &node)?;
    }
    Ok(step)
}
