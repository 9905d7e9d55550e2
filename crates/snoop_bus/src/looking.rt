//! What a bus holds, for one who only looks: words, states of lines, and what is awaited. No call changes anything: a
//! look is no access, moves no line to the front, and isn't counted.

ghost use Rattle.std.specs.Prelude.{◌≡◌, ◌<◌, length, option_map, slice_get};
ghost use Rattle.snoop_bus.specs.Bus.{words_of, cores_of, IsFree, IsCoherent, words_among};
ghost use Rattle.snoop_bus.specs.inner.Bus.{HasLines};
ghost use Rattle.snoop_bus.specs.inner.Held.{kept_words};
ghost use Rattle.snoop_bus.specs.Accesses.{awaited_of, contents_of, line_of_location, IsCurrentWord};
ghost use Rattle.snoop_bus.specs.inner.Accesses.{copies_of, ranked_line, memory_words_of, IsClean};
ghost use Rattle.snoop_bus.specs.Asks.{tag_at, awaited_by};

use crate::bus::SnoopBus;
use crate::holding::{HeldBus, Transaction};
use cache_set::cache::Cache;
use cache_set::{CacheSet, Line, MAX_WORDS};
use protocol_tables::{Protocol, State, Transient};
use tso_terms::{Core, Loc};

/// A line in a cache: its number, its state, and its words. Those past the line's size are 0.
#[derive(Clone, Copy)]
pub struct CachedLine {
    pub line: u8,
    pub state: State,
    pub words: [u32; MAX_WORDS],
}

impl<P: Protocol> SnoopBus<P> {
    /// The word that a program sees at a location. This is no access.
    pub fn word(&self, loc: Loc) -> u32
        requires { loc.0 < length (words_of self.now) }
        ensures { IsCurrentWord self.now loc.0 result }
    {
        let line = self.shape.line_of(loc);
        let offset = self.shape.offset_of(loc);
        let words = kept_words(self.held, line)
            .or(copied_words(&self.hierarchy.caches, line))
            .unwrap_or(self.hierarchy.memory[usize::from(line)]);
        words[usize::from(offset)]
    }

    /// Memory's own word at a location, which may be stale where a cache has a dirty copy, or an action holds
    /// the bus.
    pub fn memory_word(&self, loc: Loc) -> u32
        requires { loc.0 < length (words_of self.now) }
        ensures value { slice_get (memory_words_of self.now) loc.0 ≡ Some result }
        ensures clean { IsFree self.now → IsClean (contents_of self.now) (line_of_location self.now loc.0) → IsCurrentWord self.now loc.0 result }
    {
        let line = self.shape.line_of(loc);
        let offset = self.shape.offset_of(loc);
        self.hierarchy.memory[usize::from(line)][usize::from(offset)]
    }

    /// A core's set with this number, in which its copies are with their words: all those of their lines,
    /// and 0 past them.
    pub fn set_of(&self, core: Core, set: u8) -> &CacheSet
        requires core { core.0 < cores_of self.now }
        requires set { set < self.now.shape.sets }
        ensures set { result.now ≡ copies_of self.now core.0 set }
        ensures coherent { IsCoherent self.now }
        ensures lines { HasLines self.now }
    {
        self.hierarchy.caches[usize::from(core.0)].set(set)
    }

    /// The line of this rank in a core's set, where rank 0 is the most recently used; its words are those that a
    /// program sees. `None` where the set has no more lines than that, or there is no such core or set.
    pub fn ranked(&self, core: Core, set: u8, rank: usize) -> Option<CachedLine>
        ensures { result ≡ ranked_line self.now core.0 set rank }
    {
        let cache = self.hierarchy.caches.get(usize::from(core.0))?;
        // A line lies in its own set alone.
        if usize::from(set) >= cache.len() {
            return None;
        }
        match cache.set(set).ranked(rank) {
            None => None,
            Some((line, copy)) => {
                let words = copy.words;
                Some(CachedLine {
                    line,
                    state: copy.state,
                    words,
                })
            }
        }
    }

    /// What the line of the action that holds the bus is in until its words come; `None` where nobody holds
    /// the bus, and where nothing is awaited.
    pub fn transient(&self) -> Option<Transient>
        ensures { result ≡ option_map (λ awaited. awaited.transient) (awaited_of self.now) }
    {
        match self.awaited() {
            None => None,
            Some(transaction) => Some(transaction.transient),
        }
    }
}

/// The words that the bus keeps for its holder, if they are this line's.
fn kept_words(held: Option<HeldBus>, line: u8) -> Option<[u32; MAX_WORDS]>
    ensures { result ≡ kept_words held line }
{
    match held {
        None => None,
        Some(held) => match held.transaction {
            None => None,
            Some(transaction) => (held.line == line).then_some(transaction.copy.words),
        },
    }
}

/// The words of a line in the first cache that has a copy.
fn copied_words(caches: &[Cache], line: u8) -> Option<[u32; MAX_WORDS]>
    ensures { result ≡ words_among caches.now line }
{
    for cache in caches {
        if let Some(copy) = cache.look(line) {
            return Some(copy.words);
        }
    }
    None
}

impl<P: Protocol> SnoopBus<P> {
    /// The state of a core's copy of a line; `None` where it has none. This is no access.
    pub fn copy_state(&self, core: Core, line: u8) -> Option<State>
        requires { core.0 < cores_of self.now }
        ensures { result ≡ tag_at core.0 line (contents_of self.now) }
    {
        match self.hierarchy.caches[usize::from(core.0)].look(line) {
            None => None,
            Some(copy) => Some(copy.state),
        }
    }

    /// The request that the other caches have seen and whose line isn't yet filled; `None` where nobody holds
    /// the bus, and where nothing is awaited.
    pub fn awaited(&self) -> Option<Transaction>
        ensures { option_map awaited_by result ≡ awaited_of self.now }
    {
        match self.held {
            None => None,
            Some(held) => held.transaction,
        }
    }
}
