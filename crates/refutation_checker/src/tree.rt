//! The nodes of a refutation by lemmas, and lemmas.

use reading_tables::facts::Fact;
use tso_terms::{Entry, Loc};

/// A node of a refutation by lemmas. A tree is the list of its nodes: each comes before its branches, and the first branch first.
pub enum Node<'t> {
    /// A question: what does this read read from?
    ReadsFrom(Entry),
    /// A question: what does this read return?
    ReadsValue(Entry),
    /// A question: is this so?
    Asks(Fact<'t>),
    /// A question, where locked instructions alone write to the location: which load part reads the word of this write, none being
    /// the initial one; or is that write the last one?
    IsReadBy(Loc, Option<Entry>),
    /// A question: which write to this location is the last?
    ComesLast(Loc),
    /// A question: which part of the fact with this number, a disjunction, is true?
    HasCase(usize),
    /// A leaf: a cycle of uniproc.
    OnLocation(Vec<Entry>),
    /// A leaf: a cycle of the model's global relations.
    Globally(Vec<Entry>),
    /// A leaf: the second, a write, comes between what the first, a load part, reads from and its store part.
    Between(Entry, Entry, Entry),
    /// A leaf: what is asked, or a part of it that is given, is false, whatever is still open.
    FalseClaim,
    /// A leaf: the facts of the lemma with this number are met.
    ByLemma(usize),
}

// Said by hand, so that who lets it go makes one call, and not one for each case.
impl Drop for Node<'_> {
    fn drop(self) {
        match self {
            Node::OnLocation(_cycle) => {}
            Node::Globally(_cycle) => {}
            Node::ReadsFrom(_) => {}
            Node::ReadsValue(_) => {}
            Node::Asks(_) => {}
            Node::IsReadBy(_, _) => {}
            Node::ComesLast(_) => {}
            Node::HasCase(_) => {}
            Node::Between(_, _, _) => {}
            Node::FalseClaim => {}
            Node::ByLemma(_) => {}
        }
    }
}

/// Facts that no allowed candidate meets together with what is asked, and a tree that shows it.
#[derive(Drop)]
pub struct Lemma<'t> {
    pub facts: Vec<Fact<'t>>,
    pub tree: Vec<Node<'t>>,
}
