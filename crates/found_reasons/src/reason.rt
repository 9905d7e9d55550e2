//! What a search for a reason answers.

use refutation_checker::tree::{Lemma, Node};
use refutations::Node as Found;
use tso_terms::Execution;

/// The answer to what a test asks.
#[derive(Drop)]
pub enum Reason<'t> {
    /// It never is: lemmas, and a tree below them, that refute it.
    Never(Vec<Lemma<'t>>, Vec<Node<'t>>),
    /// It can be: an execution in whose final state it is true.
    Allowed(Execution),
    /// There can be more cases than the caller allows, and the search found neither.
    TooMany,
}

/// What is done with an open case.
#[derive(Drop)]
pub enum Step {
    /// This closes it: a leaf, or a question to which no answer is possible.
    Leaf(Found),
    /// This question is asked.
    Question(Found),
    /// It has this execution.
    Allowed(Execution),
}
