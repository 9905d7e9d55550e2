//! The states of a line in a cache: M, O, E, S and I. Which of them may be together in two caches is coherence; in M and
//! O the copy is dirty, and memory may be stale. (Primer, chapter 6.)

/// The state of a line in a cache. M and O are the dirty states: memory may be stale.
///
/// (Primer on Memory Consistency and Cache Coherence, chapter 6.)
#[derive(Clone, Copy, PartialEq, Eq)]
pub enum State {
    /// Invalid: no copy.
    I,
    /// Shared: a copy that may only be read; other caches may have one too.
    S,
    /// Exclusive: the only copy, and memory has its words.
    E,
    /// Owned: a copy that may only be read and is dirty; other caches may have it in S.
    O,
    /// Modified: the only copy, and dirty.
    M,
}

/// What a copy does when another core's request for its line is seen on the bus.
#[derive(Clone, Copy)]
pub struct Snoop {
    /// The copy's state afterwards.
    pub next: State,
    /// Whether the copy's words answer the request, in place of memory's.
    pub supplies: bool,
    /// Whether the copy's words are also written to memory.
    pub to_memory: bool,
}
