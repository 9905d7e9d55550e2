//! The nodes of a refutation.

use tso_terms::Entry;

/// A node of a refutation. A tree is the list of its nodes: each comes before its branches, and the first branch first.
pub enum Node {
    /// A question: which write does this read read from? The initial one, or one to its location, as they are among the
    /// events.
    ReadsFrom(Entry),
    /// A question: which of these two writes to a location comes first? The one named first, or the other.
    ComesFirst(Entry, Entry),
    /// A leaf: a cycle of uniproc.
    OnLocation(Vec<Entry>),
    /// A leaf: a cycle of the model's global relations.
    Globally(Vec<Entry>),
    /// A leaf: the second, a write, comes between what the first, a load part, reads from and its store part.
    Between(Entry, Entry, Entry),
    /// A leaf: the proposition is false, whatever is still open.
    FalseClaim,
}

// Said by hand, so that who lets it go makes one call, and not one for each case.
impl Drop for Node {
    fn drop(self) {
        match self {
            Node::OnLocation(_cycle) => {}
            Node::Globally(_cycle) => {}
            Node::ReadsFrom(_) => {}
            Node::ComesFirst(_, _) => {}
            Node::Between(_, _, _) => {}
            Node::FalseClaim => {}
        }
    }
}
