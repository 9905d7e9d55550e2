//! The whole cache of one core. Each step says what it makes of the sets (`exact`), what is then found
//! at each line (`copies`), and that the room in each set stays (`ways`).
ghost use Rattle.std.specs.Prelude.{◌≡◌, ◌≢◌, ◌<◌, ◌%◌, ℕ, [], Some, None, IsSome, IfOk, IfSome};
ghost use Rattle.std.specs.Prelude.{length, map, replicate, slice_index_or, option_copied, option_map};
ghost use Rattle.cache_set.specs.Limits.{most_words};
ghost use Rattle.cache_set.specs.Contents.{contents, victim_of};
ghost use Rattle.cache_set.specs.Copies.{set_at, in_set, copy_in};
ghost use Rattle.cache_set.specs.inner.Contents.{IsCacheSet, to_front, with_new, with_changed, without};
ghost use Rattle.cache_set.specs.inner.Copy.{copy_with, with_state, with_word};
ghost use Rattle.cache_set.specs.inner.Copies.{emptied, ways_in, AtHome, OnlyAt, IsAfterFill};

use crate::shape::Shape;
use crate::{CacheSet, Line, MAX_WORDS, Victim};
use protocol_tables::State;
use std::alloc::Global;
use std::marker::Model;
use tso_terms::NoMemory;

/// The sets of one core's cache. A line lies in the set whose number is the line's modulo their count.
pub struct Cache {
    sets: Vec<CacheSet>,
}

// Said by hand, as a set's.
impl Drop for Cache {
    fn drop(self) {
        let Cache { sets: _sets } = self;
    }
}

impl Model for Cache {
    ghost use Rattle.std.specs.Prelude.{List, ◌<◌, length};
    ghost use Rattle.cache_set.specs.Contents.{Contents};

    ghost Value = { List Contents };

    ghost view = { λ c. c.sets.items };

    ghost use Rattle.cache_set.specs.inner.Copies.{AtHome};

    ghost invariant = { λ c. (0 < length c.sets.items) × AtHome c.sets.items };
}

impl Cache {
    /// An empty cache of this shape.
    pub fn new(alloc: Global, shape: Shape) -> Result<Self, NoMemory>
        ensures { IfOk result (λ c. c ≡ replicate shape.sets (contents [] shape.ways)) }
    {
        let mut sets = Vec::new(alloc);
        for _ in 0..shape.sets() {
            let set = CacheSet::new(alloc, shape.ways())?;
            sets.push(set)?;
        }
        Ok(Cache { sets })
    }

    /// How many sets there are. A line lies in the one whose number is the line's modulo their count.
    pub fn len(&self) -> usize
        ensures value { result ≡ length self.now }
        ensures some { 0 < length self.now }
        ensures home { AtHome self.now }
    {
        self.sets.len()
    }

    /// The set with this number.
    pub fn set(&self, set: u8) -> &CacheSet
        requires { set < length self.now }
        ensures { result.now ≡ slice_index_or self.now set (contents [] 1) }
    {
        &self.sets[usize::from(set)]
    }

    /// The number of a line's set. A cache of one set does without the division, which costs more than the look-up that
    /// follows.
    fn home(&self, line: u8) -> usize
        ensures value { result ≡ line % length self.now }
        ensures within { result < length self.now }
    {
        let count = self.sets.len();
        if count == 1 {
            return 0;
        }
        usize::from(line) % count
    }

    /// The copy of a line, if there is one.
    pub fn look(&self, line: u8) -> Option<&Line>
        ensures found { option_copied result ≡ copy_in self.now line }
        ensures valid { IsCacheSet (set_at self.now line) }
        ensures some { 0 < length self.now }
        ensures home { AtHome self.now }
        ensures not_invalid { IfSome (copy_in self.now line) (λ copy. copy.state ≢ State.I) }
    {
        self.sets[self.home(line)].look(line)
    }

    /// A line that is here was used.
    pub fn touch(&mut self, line: u8)
        requires { IsSome (copy_in self.old line) }
        ensures exact { self.new ≡ in_set line (to_front line) self.old }
        ensures valid { IsCacheSet (set_at self.new line) }
        ensures copies { (k : ℕ) → copy_in self.new k ≡ copy_in self.old k }
        ensures ways { ways_in self.new ≡ ways_in self.old }
    {
        let at = self.home(line);
        let set = &mut self.sets[at];
        set.touch(line);
    }

    /// A line that is not here comes in, and another may leave. Its set has had room for it since it was made.
    pub fn fill(&mut self, line: u8, state: State, words: [u32; MAX_WORDS]) -> Option<Victim>
        requires absent { copy_in self.old line ≡ None }
        requires valid { state ≢ State.I }
        ensures exact { self.new ≡ in_set line (with_new line (copy_with state words)) self.old }
        ensures victim { result ≡ victim_of (set_at self.old line) }
        ensures copies { IsAfterFill line (copy_with state words) self.old self.new result }
        ensures was_here { IfSome result (λ x. copy_in self.old x.line ≡ Some x.content) }
        ensures ways { ways_in self.new ≡ ways_in self.old }
    {
        let at = self.home(line);
        let set = &mut self.sets[at];
        set.fill(line, state, words).unwrap()
    }

    /// A line that is here goes to another state than I.
    pub fn set_state(&mut self, line: u8, state: State)
        requires present { IsSome (copy_in self.old line) }
        requires valid { state ≢ State.I }
        ensures exact { self.new ≡ in_set line (with_changed (with_state state) line) self.old }
        ensures copies { OnlyAt line (option_map (with_state state)) self.old self.new }
        ensures ways { ways_in self.new ≡ ways_in self.old }
    {
        let at = self.home(line);
        let set = &mut self.sets[at];
        set.set_state(line, state);
    }

    /// The word at this offset in a line that is here is written.
    pub fn write_word(&mut self, line: u8, offset: u8, value: u32)
        requires present { IsSome (copy_in self.old line) }
        requires offset { offset < most_words }
        ensures exact { self.new ≡ in_set line (with_changed (with_word offset value) line) self.old }
        ensures copies { OnlyAt line (option_map (with_word offset value)) self.old self.new }
        ensures ways { ways_in self.new ≡ ways_in self.old }
    {
        let at = self.home(line);
        let set = &mut self.sets[at];
        set.write_word(line, offset, value);
    }

    /// A line that is here leaves.
    pub fn drop_line(&mut self, line: u8)
        requires { IsSome (copy_in self.old line) }
        ensures exact { self.new ≡ in_set line (without line) self.old }
        ensures copies { OnlyAt line (λ _. None) self.old self.new }
        ensures ways { ways_in self.new ≡ ways_in self.old }
    {
        let at = self.home(line);
        let set = &mut self.sets[at];
        set.drop_line(line);
    }

    /// Every line leaves, so that the cache is as `new` left it.
    pub fn clear(&mut self)
        ensures { self.new ≡ map emptied self.old }
    {
        for at in 0..self.sets.len() {
            let set = &mut self.sets[at];
            set.clear();
        }
    }
}

/// Empty caches of this shape, one for each core.
pub fn empty_caches(alloc: Global, cores: u8, shape: Shape) -> Result<Vec<Cache>, NoMemory>
    ensures { IfOk result (λ caches. caches.items ≡ replicate cores (replicate shape.sets (contents [] shape.ways))) }
{
    let mut caches = Vec::new(alloc);
    for _ in 0..cores {
        let cache = Cache::new(alloc, shape)?;
        caches.push(cache)?;
    }
    Ok(caches)
}

/// Every line leaves these caches.
pub fn clear_caches(caches: &mut [Cache])
    ensures { caches.new ≡ map (map emptied) caches.old }
{
    for core in 0..caches.len() {
        let cache = &mut caches[core];
        cache.clear();
    }
}

/// A cache has a set, and each line lies in its own: so much is known of it from this call on, which has no effect.
pub fn know_sets(cache: &Cache)
    ensures some { 0 < length cache.now }
    ensures home { AtHome cache.now }
{
    let _sets = cache.len();
}
