//! Whether lemmas and nodes are judged to refute.

ghost use Rattle.std.specs.Prelude.{◌≡◌, IfOk, map};
ghost use Rattle.refutation_laws.specs.Refutations.{asked_claim};
ghost use Rattle.refutation_checker.specs.Trees.{lemma_of, node_of};
ghost use Rattle.lemma_refutations.specs.Refutations as spec;

use refutation_checker::{Lemma, Node, refutes};
use refutation_laws::Model;
use std::alloc::Global;
use tso_terms::{NoMemory, Test};

/// Lemmas and nodes are judged to refute what a test asks exactly where they do by the definition.
pub fn lemmas_and_nodes_are_judged(
    alloc: Global,
    test: &Test,
    model: Model,
    lemmas: &[Lemma<'_>],
    tree: &[Node<'_>],
) -> Result<bool, NoMemory>
    ensures { IfOk result (λ b. b ≡ spec.refutes model test.now (asked_claim test.now.condition) (map lemma_of lemmas.now) (map node_of tree.now)) }
{
    refutes(alloc, test, model, lemmas, tree)
}
