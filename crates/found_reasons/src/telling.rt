//! What is done with a case, as a node over facts.
ghost use Rattle.std.specs.Prelude.{◌≡◌, IfOk};
ghost use Rattle.refutations.specs.inner.Trees as trees;
ghost use Rattle.refutation_checker.specs.Trees.{node_of};
ghost use Rattle.found_reasons.specs.inner.Answered.{as_node};

use reading_tables::facts::Fact;
use refutation_checker::tree::Node;
use refutations::Node as Found;
use std::alloc::Global;
use tso_terms::NoMemory;

/// A leaf or a question, as a node over facts.
///
/// Errors: out of memory only.
pub fn told_node<'t>(alloc: Global, found: &Found) -> Result<Node<'t>, NoMemory>
    ensures { IfOk result (λ node. node_of node ≡ as_node (trees.node_of found.now)) }
{
    match found {
        Found::ReadsFrom(r) => Ok(Node::ReadsFrom(*r)),
        Found::ComesFirst(w, v) => Ok(Node::Asks(Fact::Before(*w, *v))),
        Found::OnLocation(cycle) => Ok(Node::OnLocation(Vec::from_slice(alloc, cycle)?)),
        Found::Globally(cycle) => Ok(Node::Globally(Vec::from_slice(alloc, cycle)?)),
        Found::Between(r, v, w) => Ok(Node::Between(*r, *v, *w)),
        Found::FalseClaim => Ok(Node::FalseClaim),
    }
}
