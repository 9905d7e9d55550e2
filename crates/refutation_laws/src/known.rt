//! What a branch of a refutation knows of a candidate, answer by answer. (Herding Cats, section 4: rf and co.)

use tso_terms::Entry;

/// A read, and the write that it reads from; none is the initial write.
#[derive(Clone, Copy)]
pub struct Source {
    pub read: Entry,
    pub write: Option<Entry>,
}

/// Two writes to one location, as they are in its coherence order.
#[derive(Clone, Copy)]
pub struct Pair {
    pub first: Entry,
    pub second: Entry,
}
