//! The branches of a node: the answers to a question, each with the facts on the way to it.
ghost use Rattle.std.specs.Prelude.{◌≡◌, List, ◌∷◌, ◌++◌, IfOk, Some, [], map, slice_get, true};
ghost use Rattle.reading_tables.specs.declared.expressions.Making.{Making};
ghost use Rattle.possible_reads.specs.Facts as given;
ghost use Rattle.tso_terms.specs.Condition.{claim_of};
ghost use Rattle.possible_reads.specs.Possible.{last_writes};
ghost use Rattle.reading_tables.specs.Told.{fact_of, facts_of};
ghost use Rattle.reading_tables.specs.inner.Told.{held_of, all_made, known_of};
ghost use Rattle.reading_tables.specs.inner.Tables.{IsProblem, IsTold, readings_of};
ghost use Rattle.lemma_refutations.specs.Refutations as spec;
ghost use Rattle.refutation_checker.specs.inner.Branches.{IsCase, knowledge_of};
ghost use Rattle.refutation_checker.specs.Trees.{node_of};
ghost use Rattle.refutation_checker.specs.inner.Stack.{branches_of};
ghost use Rattle.refutation_checker.specs.inner.Readers.{reads_word};

use crate::claims::may_come_last;
use crate::tables::{can_read, register_left};
use crate::tree::Node;
use reading_tables::expressions::Held;
use reading_tables::facts::Fact;
use reading_tables::orders::can_be_last;
use reading_tables::sources::sources_for;
use reading_tables::tables::{Problem, Told, reading_for};
use std::alloc::Global;
use tso_terms::{Entry, Kind, NoMemory, Prop};

/// Adds a branch, which comes first.
#[tactic(auto, using(crate::proofs::Stack::pushed))]
pub fn add_branch<'t>(
    branches: &mut Vec<Vec<Fact<'t>>>,
    branch: Vec<Fact<'t>>,
) -> Result<(), NoMemory>
    ensures { IfOk result (λ _. branches_of branches.new.items ≡ facts_of branch.entry.items ∷ branches_of branches.old.items) }
{
    branches.push(branch)?;
    Ok(())
}

/// Adds the branch of one more fact.
pub fn add_fact<'t>(
    alloc: Global,
    branches: &mut Vec<Vec<Fact<'t>>>,
    facts: &[Fact<'t>],
    fact: Fact<'t>,
) -> Result<(), NoMemory>
    ensures { IfOk result (λ _. branches_of branches.new.items ≡ (fact_of fact.entry ∷ facts_of facts.now) ∷ branches_of branches.old.items) }
{
    let mut branch = Vec::new(alloc);
    branch.push(fact)?;
    branch.extend_from_slice(facts)?;
    add_branch(branches, branch)
}

/// Adds a branch for each source; the first is added last.
pub fn add_sources<'t>(
    alloc: Global,
    branches: &mut Vec<Vec<Fact<'t>>>,
    facts: &[Fact<'t>],
    read: Entry,
    sources: &[Option<Entry>],
) -> Result<(), NoMemory>
    ensures { IfOk result (λ _. branches_of branches.new.items
        ≡ map (λ answer. answer ++ facts_of facts.now) (map (λ source. given.From read source true ∷ []) sources.now) ++ branches_of branches.old.items) }
{
    let mut left = sources.len();
    while left > 0 {
        left -= 1;
        add_fact(
            alloc,
            branches,
            facts,
            Fact::From(read, sources[left], true),
        )?;
    }
    Ok(())
}

/// Adds a branch for each value; the first is added last.
pub fn add_values<'t>(
    alloc: Global,
    branches: &mut Vec<Vec<Fact<'t>>>,
    facts: &[Fact<'t>],
    read: Entry,
    values: &[u32],
) -> Result<(), NoMemory>
    ensures { IfOk result (λ _. branches_of branches.new.items
        ≡ map (λ answer. answer ++ facts_of facts.now) (map (λ value. given.Returns read value true ∷ []) values.now) ++ branches_of branches.old.items) }
{
    let mut left = values.len();
    while left > 0 {
        left -= 1;
        add_fact(
            alloc,
            branches,
            facts,
            Fact::Returns(read, values[left], true),
        )?;
    }
    Ok(())
}

/// Whether r is a load part of a locked instruction of the location that can read from this.
fn is_reader(told: Told<'_>, loc: u8, word: &Option<Entry>, r: &Entry) -> bool
    requires { IsTold told }
    ensures { result ≡ reads_word told.entry.test.now (knowledge_of told.entry) loc word.now r.now }
{
    r.kind == Kind::LR && r.loc.0 == loc && can_read(told, word, r)
}

/// Adds a branch for each load part that can read from this; the first is added last.
pub fn add_readers<'t>(
    alloc: Global,
    branches: &mut Vec<Vec<Fact<'t>>>,
    told: Told<'_>,
    facts: &[Fact<'t>],
    loc: u8,
    word: Option<Entry>,
) -> Result<(), NoMemory>
    requires { IsTold told }
    ensures { IfOk result (λ _. branches_of branches.new.items
        ≡ map (λ answer. answer ++ facts_of facts.now) (map (λ r. given.From r word true ∷ [])
        (spec.locked_readers told.entry.test.now (knowledge_of told.entry) loc word)) ++ branches_of branches.old.items) }
{
    let mut left = told.events.len();
    while left > 0 {
        left -= 1;
        let r = told.events[left];
        if is_reader(told, loc, &word, &r) {
            add_fact(alloc, branches, facts, Fact::From(r, word, true))?;
        }
    }
    Ok(())
}

/// Adds a branch for each write that can be the last one to the location; the first is added last.
pub fn add_last<'t>(
    alloc: Global,
    branches: &mut Vec<Vec<Fact<'t>>>,
    told: Told<'_>,
    facts: &[Fact<'t>],
    loc: u8,
) -> Result<(), NoMemory>
    requires { IsTold told }
    ensures { IfOk result (λ _. branches_of branches.new.items
        ≡ map (λ answer. answer ++ facts_of facts.now) (map (λ w. given.Last w true ∷ [])
        (last_writes told.entry.test.now (facts_of told.entry.facts.now) (readings_of told.entry.readings.now) loc)) ++ branches_of branches.old.items) }
{
    let mut left = told.events.len();
    while left > 0 {
        left -= 1;
        let w = told.events[left];
        if can_be_last(told, loc, &w) {
            add_fact(alloc, branches, facts, Fact::Last(w, true))?;
        }
    }
    Ok(())
}

/// Adds the branch in which nothing reads the word of this write, where it can be the last one.
pub fn add_unread<'t>(
    alloc: Global,
    branches: &mut Vec<Vec<Fact<'t>>>,
    told: Told<'_>,
    facts: &[Fact<'t>],
    loc: u8,
    word: &Option<Entry>,
) -> Result<(), NoMemory>
    requires { IsTold told }
    ensures { IfOk result (λ _. branches_of branches.new.items
        ≡ map (λ answer. answer ++ facts_of facts.now) (spec.unread told.entry.test.now (knowledge_of told.entry) loc word.now)
        ++ branches_of branches.old.items) }
{
    match word {
        None => Ok(()),
        Some(w) => {
            if may_come_last(told, loc, w) {
                add_fact(alloc, branches, facts, Fact::Last(*w, true))
            } else {
                Ok(())
            }
        }
    }
}

/// Adds the fact that a register has this value, or another one, where what it holds is what a read returned.
fn push_value<'t>(
    branch: &mut Vec<Fact<'t>>,
    held: Held,
    value: u32,
    truth: bool,
) -> Result<(), NoMemory>
    ensures { (makings : List Making) → IfOk result (λ _. facts_of branch.new.items
        ≡ facts_of branch.old.items ++ given.value_facts (held_of (all_made makings) held) value truth) }
{
    match held {
        Held::Number(_) | Held::Made(_) => Ok(()),
        Held::Returned(read) => {
            branch.push(Fact::Returns(read, value, truth))?;
            Ok(())
        }
    }
}

/// Adds what it gives that a proposition is true, or false.
pub fn push_given<'t>(
    branch: &mut Vec<Fact<'t>>,
    problem: &Problem<'_>,
    prop: &'t Prop,
    truth: bool,
) -> Result<(), NoMemory>
    requires { IsProblem problem.now.test.now problem.now }
    ensures { IfOk result (λ _. facts_of branch.new.items ≡ facts_of branch.old.items ++ given.given_by problem.now.test.now (claim_of prop.now) truth) }
{
    match prop {
        Prop::RegIs(core, reg, value) => {
            branch.push(Fact::Holds(prop, truth))?;
            push_value(branch, register_left(problem, *core, *reg), *value, truth)
        }
        Prop::Not(inner) => push_given(branch, problem, inner, !truth),
        Prop::And(left, right) if truth => {
            push_given(branch, problem, left, true)?;
            push_given(branch, problem, right, true)
        }
        Prop::Or(left, right) if !truth => {
            push_given(branch, problem, left, false)?;
            push_given(branch, problem, right, false)
        }
        _ => {
            branch.push(Fact::Holds(prop, truth))?;
            Ok(())
        }
    }
}

/// Adds the branch that a proposition's truth gives.
fn add_given<'t>(
    alloc: Global,
    branches: &mut Vec<Vec<Fact<'t>>>,
    problem: &Problem<'_>,
    facts: &[Fact<'t>],
    prop: &'t Prop,
    truth: bool,
) -> Result<(), NoMemory>
    requires { IsProblem problem.now.test.now problem.now }
    ensures { IfOk result (λ _. branches_of branches.new.items
        ≡ (given.given_by problem.now.test.now (claim_of prop.now) truth ++ facts_of facts.now) ∷ branches_of branches.old.items) }
{
    let mut branch = Vec::new(alloc);
    push_given(&mut branch, problem, prop, truth)?;
    branch.extend_from_slice(facts)?;
    add_branch(branches, branch)
}

/// Adds a branch for each case in which a proposition is true, or false; the first is added last.
#[tactic(auto, using(crate::proofs::Stack::in_two_parts))]
pub fn add_cases<'t>(
    alloc: Global,
    branches: &mut Vec<Vec<Fact<'t>>>,
    problem: &Problem<'_>,
    facts: &[Fact<'t>],
    prop: &'t Prop,
    truth: bool,
) -> Result<(), NoMemory>
    requires { IsProblem problem.now.test.now problem.now }
    ensures { IfOk result (λ _. branches_of branches.new.items
        ≡ map (λ answer. answer ++ facts_of facts.now) (given.cases_of problem.now.test.now (claim_of prop.now) truth) ++ branches_of branches.old.items) }
{
    match prop {
        Prop::Not(inner) => add_cases(alloc, branches, problem, facts, inner, !truth),
        Prop::Or(left, right) if truth => {
            add_cases(alloc, branches, problem, facts, right, true)?;
            add_cases(alloc, branches, problem, facts, left, true)
        }
        Prop::And(left, right) if !truth => {
            add_cases(alloc, branches, problem, facts, right, false)?;
            add_cases(alloc, branches, problem, facts, left, false)
        }
        _ => add_given(alloc, branches, problem, facts, prop, truth),
    }
}

/// Adds a branch for each case of the fact with this number.
fn add_cases_of<'t>(
    alloc: Global,
    branches: &mut Vec<Vec<Fact<'t>>>,
    problem: &Problem<'_>,
    facts: &[Fact<'t>],
    number: usize,
) -> Result<(), NoMemory>
    requires { IsProblem problem.now.test.now problem.now }
    ensures { IfOk result (λ _. branches_of branches.new.items
        ≡ map (λ answer. answer ++ facts_of facts.now) (spec.answers_of_cases problem.now.test.now (slice_get (facts_of facts.now) number))
        ++ branches_of branches.old.items) }
{
    match facts.get(number) {
        Some(Fact::Holds(prop, truth)) => add_cases(alloc, branches, problem, facts, prop, *truth),
        _ => Ok(()),
    }
}

/// Adds a branch for each of these values, if they are known.
fn add_known_values<'t>(
    alloc: Global,
    branches: &mut Vec<Vec<Fact<'t>>>,
    facts: &[Fact<'t>],
    read: Entry,
    values: &Option<Vec<u32>>,
) -> Result<(), NoMemory>
    ensures { IfOk result (λ _. branches_of branches.new.items
        ≡ map (λ answer. answer ++ facts_of facts.now) (spec.answers_of_values read (known_of values.now)) ++ branches_of branches.old.items) }
{
    match values {
        Some(values) => add_values(alloc, branches, facts, read, values),
        None => Ok(()),
    }
}

fn add_values_of<'t>(
    alloc: Global,
    branches: &mut Vec<Vec<Fact<'t>>>,
    told: Told<'_>,
    facts: &[Fact<'t>],
    read: Entry,
) -> Result<(), NoMemory>
    requires { IsTold told }
    ensures { IfOk result (λ _. branches_of branches.new.items
        ≡ map (λ answer. answer ++ facts_of facts.now) (spec.answers told.entry.test.now (knowledge_of told.entry) (spec.ReadsValue read))
        ++ branches_of branches.old.items) }
{
    match reading_for(told.readings, &read) {
        Some(x) => add_known_values(alloc, branches, facts, read, &x.values),
        None => Ok(()),
    }
}

fn add_sources_of<'t>(
    alloc: Global,
    branches: &mut Vec<Vec<Fact<'t>>>,
    told: Told<'_>,
    facts: &[Fact<'t>],
    read: Entry,
) -> Result<(), NoMemory>
    requires { IsTold told }
    ensures { IfOk result (λ _. branches_of branches.new.items
        ≡ map (λ answer. answer ++ facts_of facts.now) (spec.answers told.entry.test.now (knowledge_of told.entry) (spec.ReadsFrom read))
        ++ branches_of branches.old.items) }
{
    let sources = sources_for(alloc, told, &read)?;
    add_sources(alloc, branches, facts, read, &sources)
}

#[tactic(auto, using(crate::proofs::Stack::in_two_parts))]
fn add_readers_of<'t>(
    alloc: Global,
    branches: &mut Vec<Vec<Fact<'t>>>,
    told: Told<'_>,
    facts: &[Fact<'t>],
    loc: u8,
    word: Option<Entry>,
) -> Result<(), NoMemory>
    requires { IsTold told }
    ensures { IfOk result (λ _. branches_of branches.new.items
        ≡ map (λ answer. answer ++ facts_of facts.now) (spec.answers told.entry.test.now (knowledge_of told.entry) (spec.IsReadBy loc word))
        ++ branches_of branches.old.items) }
{
    add_unread(alloc, branches, told, facts, loc, &word)?;
    add_readers(alloc, branches, told, facts, loc, word)
}

fn opposite<'t>(fact: &Fact<'t>) -> Fact<'t>
    ensures { fact_of result ≡ spec.opposite (fact_of fact.now) }
{
    match fact {
        Fact::From(read, write, truth) => Fact::From(*read, *write, !*truth),
        Fact::Before(first, second) => Fact::Before(*second, *first),
        Fact::Last(write, truth) => Fact::Last(*write, !*truth),
        Fact::Returns(read, value, truth) => Fact::Returns(*read, *value, !*truth),
        Fact::Holds(prop, truth) => Fact::Holds(prop, !*truth),
    }
}

fn add_answers_to<'t>(
    alloc: Global,
    branches: &mut Vec<Vec<Fact<'t>>>,
    facts: &[Fact<'t>],
    fact: &Fact<'t>,
) -> Result<(), NoMemory>
    ensures { IfOk result (λ _. branches_of branches.new.items
        ≡ (fact_of fact.now ∷ facts_of facts.now) ∷ ((spec.opposite (fact_of fact.now) ∷ facts_of facts.now) ∷ branches_of branches.old.items)) }
{
    add_fact(alloc, branches, facts, opposite(fact))?;
    add_fact(alloc, branches, facts, *fact)
}

/// Adds what is known in each branch of a node.
///
/// Errors: out of memory only.
pub fn add_branches<'t>(
    alloc: Global,
    branches: &mut Vec<Vec<Fact<'t>>>,
    problem: &Problem<'_>,
    told: Told<'_>,
    facts: &[Fact<'t>],
    node: &Node<'t>,
) -> Result<(), NoMemory>
    requires told { IsCase problem.now told }
    requires facts { facts_of facts.now ≡ facts_of told.facts.now }
    ensures { IfOk result (λ _. branches_of branches.new.items
        ≡ map (λ answer. answer ++ facts_of facts.now) (spec.answers told.entry.test.now (knowledge_of told.entry) (node_of node.now))
        ++ branches_of branches.old.items) }
{
    match node {
        Node::ReadsFrom(r) => add_sources_of(alloc, branches, told, facts, *r),
        Node::ReadsValue(r) => add_values_of(alloc, branches, told, facts, *r),
        Node::Asks(fact) => add_answers_to(alloc, branches, facts, fact),
        Node::IsReadBy(loc, word) => add_readers_of(alloc, branches, told, facts, loc.0, *word),
        Node::ComesLast(loc) => add_last(alloc, branches, told, facts, loc.0),
        Node::HasCase(number) => add_cases_of(alloc, branches, problem, facts, *number),
        _ => Ok(()),
    }
}
