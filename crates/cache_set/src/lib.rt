//! One set of a cache: copies of lines, in the order of their last use. Where a new line finds the
//! set full, the line that was used longest ago leaves (least recently used, LRU). What a use is, is
//! the caller's to say: `touch` and `fill` bring a line to the front, and nothing else moves one.
//!
//! Over it stand the whole cache of one core (`cache`), whose sets they are, and what tells where a word stands: the shape
//! of a cache (`shape`), and memory as lines (`lines`). What goes by a protocol's table, and keeps all words where they are
//! seen, is here too: the walk over all caches for a line (`finding`), and dirty copies that go to memory (`cleaning`).
#![tactic(auto)]

ghost use Rattle.std.specs.Prelude.{◌≡◌, ◌≢◌, ◌<◌, ◌≤◌, ℕ, [], Some, None, IsSome, IfSome, IsOk, IfOk, OnErr, option_map, option_copied, slice_get};
ghost use Rattle.cache_set.specs.Limits.{most_ways, most_words};

pub mod cache;
pub mod cleaning;
pub mod finding;
mod hashing;
pub mod lines;
pub mod shape;
mod ways;

use crate::ways::{
    Way, Ways, copy_at, copy_of, empty_all, empty_ways, is_most_recent, take_over, victim_in,
    way_of, way_to_take_over,
};
use protocol_tables::State;
use std::alloc::Global;
use std::marker::Model;
use tso_terms::NoMemory;

/// Maximum number of lines that a set has room for.
pub const MAX_WAYS: u8 = 8;

/// Maximum number of words of a line.
pub const MAX_WORDS: usize = 4;

/// Each limit is the number that the definitions have: a law, with nothing to run.
pub fn limits_are_as_defined()
    ensures ways { MAX_WAYS ≡ most_ways }
    ensures words { MAX_WORDS ≡ most_words }
{}

/// A copy of a line: its state, and its words. Those past the line's size are 0.
#[derive(Clone, Copy)]
pub struct Line {
    pub state: State,
    pub words: [u32; MAX_WORDS],
}

/// A line that left a full set, with its copy.
#[derive(Clone, Copy)]
pub struct Victim {
    pub line: u8,
    pub content: Line,
}

/// The copies of one set, the most recently used first: never more than the set's ways, no line
/// twice, and none in state I. A line goes by its number.
///
/// Each call says what it makes of the whole list (`exact`), what is then found at each line
/// (`copies`), and that the above still holds (`valid`).
///
/// A call that changes a way asks for the number of ways first, and makes nothing of the answer: the map tells with it that
/// each way is there once, without which the way that is found by its number could be another one.
pub struct CacheSet {
    ways: Ways,
}

// Said by hand, so that who lets a set go makes one call.
impl Drop for CacheSet {
    fn drop(self) {
        let CacheSet { ways: _ways } = self;
    }
}

impl Model for CacheSet {
    ghost use Rattle.cache_set.specs.Contents.{Contents, contents};
    ghost use Rattle.cache_set.specs.inner.Contents.{IsCacheSet};
    ghost use Rattle.cache_set.specs.inner.Ways.{copies_in, AreWays};

    ghost Value = { Contents };

    ghost view = { λ s. contents (copies_in s.ways.entries) s.ways.cap };

    ghost invariant = { λ s. IsCacheSet (contents (copies_in s.ways.entries) s.ways.cap) × AreWays s.ways.entries s.ways.cap };
}

impl CacheSet {
    ghost use Rattle.cache_set.specs.Contents.{contents, copy_of, victim_of};
    ghost use Rattle.cache_set.specs.inner.Contents.{IsCacheSet, to_front, with_new, with_changed, without};
    ghost use Rattle.cache_set.specs.inner.Contents.{ChangesLine, Fills};
    ghost use Rattle.cache_set.specs.inner.Copy.{copy_with, with_state, with_word};

    /// An empty set for `ways` lines, from 1 to `MAX_WAYS`. All its room is made here: the other calls take no memory.
    ///
    /// Errors: out of memory only.
    pub fn new(alloc: Global, ways: u8) -> Result<Self, NoMemory>
        requires { (0 < ways) × (ways ≤ most_ways) }
        ensures { IfOk result (λ s. s ≡ contents [] ways) }
    {
        let ways = empty_ways(alloc, ways)?;
        Ok(CacheSet { ways })
    }

    /// The copy of a line, if it is here. Nothing moves.
    pub fn look(&self, line: u8) -> Option<&Line>
        ensures found { option_copied result ≡ copy_of self.now line }
        ensures valid { IsCacheSet self.now }
        ensures copies { (k : ℕ) → IfSome (copy_of self.now k) (λ copy. copy.state ≢ State.I) }
    {
        copy_of(&self.ways, line)
    }

    /// The line of this rank with its copy, where rank 0 is the most recently used; `None` where there are
    /// no more lines than that. Nothing moves.
    pub fn ranked(&self, rank: usize) -> Option<(u8, Line)>
        ensures value { result ≡ slice_get self.now.copies rank }
        ensures found { IfSome result (λ r. copy_of self.now r.0 ≡ Some r.1) }
    {
        copy_at(&self.ways, rank)
    }

    /// A line that is here was used: it goes to the front, and the others stay in their order.
    pub fn touch(&mut self, line: u8)
        requires { IsSome (copy_of self.old line) }
        ensures exact { self.new ≡ to_front line self.old }
        ensures valid { IsCacheSet self.new }
        ensures copies { (k : ℕ) → copy_of self.new k ≡ copy_of self.old k }
    {
        if is_most_recent(&self.ways, line) {
            return;
        }
        let _numbers = self.ways.len();
        let number = way_of(&self.ways, line).unwrap();
        self.ways.promote(&number);
    }

    /// A line that is not here comes in at the front, in a state other than I. A full set hands its
    /// last line back.
    ///
    /// Errors: out of memory only; nothing is changed then. A set takes its memory when it is made, so it always succeeds.
    pub fn fill(
        &mut self,
        line: u8,
        state: State,
        words: [u32; MAX_WORDS],
    ) -> Result<Option<Victim>, NoMemory>
        requires absent { copy_of self.old line ≡ None }
        requires valid { state ≢ State.I }
        ensures exact { IfOk result (λ _. self.new ≡ with_new line (copy_with state words) self.old) }
        ensures victim { IfOk result (λ v. v ≡ victim_of self.old) }
        ensures copies { IfOk result (Fills line (copy_with state words) self.old self.new) }
        ensures was_here { IfOk result (λ v. IfSome v (λ x. copy_of self.old x.line ≡ Some x.content)) }
        ensures err { OnErr result (self.new ≡ self.old) }
        ensures succeeds { IsOk result }
        ensures valid { IsCacheSet self.new }
    {
        let _numbers = self.ways.len();
        let copy = Line { state, words };
        let new = Way { line, copy };
        let number = way_to_take_over(&self.ways);
        Ok(victim_in(take_over(&mut self.ways, number, new)))
    }

    /// A line that is here goes to another state than I, and keeps its place.
    pub fn set_state(&mut self, line: u8, state: State)
        requires present { IsSome (copy_of self.old line) }
        requires valid { state ≢ State.I }
        ensures exact { self.new ≡ with_changed (with_state state) line self.old }
        ensures valid { IsCacheSet self.new }
        ensures copies { ChangesLine line (option_map (with_state state)) self.old self.new }
    {
        let _numbers = self.ways.len();
        let number = way_of(&self.ways, line).unwrap();
        let way = self.ways.peek_mut(&number).unwrap();
        way.copy.state = state;
    }

    /// The word at this place of a line that is here is written, and the line keeps its place in the set and
    /// its state.
    pub fn write_word(&mut self, line: u8, place: u8, value: u32)
        requires present { IsSome (copy_of self.old line) }
        requires place { place < most_words }
        ensures exact { self.new ≡ with_changed (with_word place value) line self.old }
        ensures valid { IsCacheSet self.new }
        ensures copies { ChangesLine line (option_map (with_word place value)) self.old self.new }
    {
        let _numbers = self.ways.len();
        let number = way_of(&self.ways, line).unwrap();
        let way = self.ways.peek_mut(&number).unwrap();
        way.copy.words[usize::from(place)] = value;
    }

    /// A line that is here leaves, and the others stay in their order. Answers its copy.
    pub fn drop_line(&mut self, line: u8) -> Line
        requires { IsSome (copy_of self.old line) }
        ensures content { Some result ≡ copy_of self.old line }
        ensures exact { self.new ≡ without line self.old }
        ensures valid { IsCacheSet self.new }
        ensures copies { ChangesLine line (λ _. None) self.old self.new }
    {
        let _numbers = self.ways.len();
        let number = way_of(&self.ways, line).unwrap();
        let way = self.ways.peek_mut(&number).unwrap();
        let copy = way.copy;
        way.copy.state = State::I;
        copy
    }

    /// Every line leaves, so that the set is as `new` left it.
    pub fn clear(&mut self)
        ensures exact { self.new ≡ contents [] self.old.ways }
        ensures valid { IsCacheSet self.new }
        ensures copies { (k : ℕ) → copy_of self.new k ≡ None }
    {
        empty_all(&mut self.ways);
    }
}
