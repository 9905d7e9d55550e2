//! Whether lemmas and a list of nodes are a refutation by lemmas of what a test asks.
ghost use Rattle.std.specs.Prelude.{◌≡◌, ◌∷◌, ◌++◌, IfOk, [], map, true};
ghost use Rattle.tso_terms.specs.Condition.{TruthClaim, claim_of};
ghost use Rattle.refutation_laws.specs.Refutations.{asked_claim};
ghost use Rattle.possible_reads.specs.Facts.{given_by};
ghost use Rattle.reading_tables.specs.Told.{facts_of};
ghost use Rattle.reading_tables.specs.inner.Tables.{IsProblem};
ghost use Rattle.lemma_refutations.specs.Refutations as spec;
ghost use Rattle.refutation_checker.specs.Trees.{lemma_of, node_of};
ghost use Rattle.refutation_checker.specs.inner.Stack.{branches_of};

use crate::branches::{add_branch, add_branches, push_given};
use crate::nodes::is_node;
use crate::tree::{Lemma, Node};
use reading_tables::facts::Fact;
use reading_tables::rounds::make_table;
use reading_tables::tables::{Problem, make_problem, told_by};
use refutation_laws::Model;
use std::alloc::Global;
use tso_terms::{NoMemory, Prop, Quantifier, Test};

/// Whether a node may be in the branch of these facts, below these lemmas. If it may, its branches are added.
///
/// Errors: out of memory only.
pub fn go_on<'t>(
    alloc: Global,
    problem: &Problem<'t>,
    model: Model,
    lemmas: &[Lemma<'t>],
    branches: &mut Vec<Vec<Fact<'t>>>,
    facts: &[Fact<'t>],
    node: &Node<'t>,
) -> Result<bool, NoMemory>
    requires { IsProblem problem.now.test.now problem.now }
    ensures judged { IfOk result (λ b. b
        ≡ spec.is_node model problem.now.test.now (map lemma_of lemmas.now) (spec.known_from problem.now.test.now (facts_of facts.now)) (node_of node.now)) }
    ensures added { IfOk result (λ b. b ≡ true → branches_of branches.new.items
        ≡ map (λ answer. answer ++ facts_of facts.now)
        (spec.answers problem.now.test.now (spec.known_from problem.now.test.now (facts_of facts.now)) (node_of node.now)) ++ branches_of branches.old.items) }
{
    let table = make_table(alloc, problem, facts)?;
    let told = told_by(problem, facts, &table);
    if !is_node(alloc, problem, told, model, lemmas, node)? {
        return Ok(false);
    }
    add_branches(alloc, branches, problem, told, facts, node)?;
    Ok(true)
}

/// Whether the nodes are a tree for the branch of these facts, below these lemmas.
///
/// Errors: out of memory only.
pub fn close<'t>(
    alloc: Global,
    problem: &Problem<'t>,
    model: Model,
    lemmas: &[Lemma<'t>],
    facts: &[Fact<'t>],
    tree: &[Node<'t>],
) -> Result<bool, NoMemory>
    requires { IsProblem problem.now.test.now problem.now }
    ensures { IfOk result (λ b. b ≡ spec.close model problem.now.test.now (map lemma_of lemmas.now) (facts_of facts.now ∷ []) (map node_of tree.now)) }
{
    let mut branches = Vec::new(alloc);
    add_branch(&mut branches, Vec::from_slice(alloc, facts)?)?;
    for node in tree {
        let Some(branch) = branches.pop() else {
            return Ok(false);
        };
        if !go_on(alloc, problem, model, lemmas, &mut branches, &branch, node)? {
            return Ok(false);
        }
    }
    Ok(branches.is_empty())
}

/// Whether a lemma holds by those that are shown.
///
/// Errors: out of memory only.
fn holds<'t>(
    alloc: Global,
    problem: &Problem<'t>,
    model: Model,
    given: &[Fact<'t>],
    shown: &[Lemma<'t>],
    lemma: &Lemma<'t>,
) -> Result<bool, NoMemory>
    requires { IsProblem problem.now.test.now problem.now }
    ensures { IfOk result (λ b. b ≡ spec.close model problem.now.test.now (map lemma_of shown.now)
        ((facts_of lemma.now.facts.items ++ facts_of given.now) ∷ []) (map node_of lemma.now.tree.items)) }
{
    let mut facts = Vec::from_slice(alloc, &lemma.facts)?;
    facts.extend_from_slice(given)?;
    close(alloc, problem, model, shown, &facts, &lemma.tree)
}

/// Whether each of the lemmas holds by those before it.
///
/// Errors: out of memory only.
pub fn hold<'t>(
    alloc: Global,
    problem: &Problem<'t>,
    model: Model,
    given: &[Fact<'t>],
    lemmas: &[Lemma<'t>],
) -> Result<bool, NoMemory>
    requires { IsProblem problem.now.test.now problem.now }
    ensures { IfOk result (λ b. b ≡ spec.hold model problem.now.test.now (facts_of given.now) [] (map lemma_of lemmas.now)) }
{
    let mut number = 0;
    for lemma in lemmas {
        let (shown, _) = lemmas.split_at(number);
        if !holds(alloc, problem, model, given, shown, lemma)? {
            return Ok(false);
        }
        number += 1;
    }
    Ok(true)
}

/// What it gives that what the test asks is true: the proposition of `exists` or `~exists`, that of `forall` false, and without a
/// condition a proposition that is always true.
///
/// Errors: out of memory only.
pub fn asked_facts<'t>(
    alloc: Global,
    problem: &Problem<'t>,
    always: &'t Prop,
) -> Result<Vec<Fact<'t>>, NoMemory>
    requires problem { IsProblem problem.now.test.now problem.now }
    requires always { claim_of always.now ≡ TruthClaim true }
    ensures { IfOk result (λ facts. facts_of facts.items ≡ given_by problem.now.test.now (asked_claim problem.now.test.now.condition) true) }
{
    let mut facts = Vec::new(alloc);
    match problem.test.cond() {
        None => push_given(&mut facts, problem, always, true)?,
        Some(cond) => {
            let truth = !matches!(cond.quantifier, Quantifier::Forall);
            push_given(&mut facts, problem, &cond.prop, truth)?;
        }
    }
    Ok(facts)
}

/// Whether these lemmas and nodes are a refutation by lemmas of what the test asks.
///
/// Errors: out of memory only.
pub fn refutes(
    alloc: Global,
    test: &Test,
    model: Model,
    lemmas: &[Lemma<'_>],
    tree: &[Node<'_>],
) -> Result<bool, NoMemory>
    ensures { IfOk result (λ b. b ≡ spec.refutes model test.now (asked_claim test.now.condition) (map lemma_of lemmas.now) (map node_of tree.now)) }
{
    let problem = make_problem(alloc, test)?;
    let always = Prop::Truth(true);
    let given = asked_facts(alloc, &problem, &always)?;
    if !hold(alloc, &problem, model, &given, lemmas)? {
        return Ok(false);
    }
    close(alloc, &problem, model, lemmas, &given, tree)
}
