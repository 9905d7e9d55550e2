//! How a set keeps its copies: in ways, each with a number, and in the order of their last use. A line that leaves leaves
//! its way empty, and a new line takes over an empty way, or that of the line which it displaces: the numbers stay, so that
//! nothing is hashed anew.

ghost use Rattle.std.specs.Prelude.{◌≡◌, ◌<◌, ◌≤◌, true, [], ◌∷◌, Some, IsSome, IfOk, length, slice_get, option_copied, nat_eq};
ghost use Rattle.cache_set.specs.Limits.{most_ways};
ghost use Rattle.std.specs.Map.{lookup, remove_entry};
ghost use Rattle.lru.specs.LruCache.{lru_cache};
ghost use Rattle.cache_set.specs.inner.Ways.{is_empty, has_line, copies_in, way_of, is_most_recent, first_empty, first_full, copy_left, IsForNew, AreWays};

use crate::hashing::NumberHasher;
use crate::{Line, MAX_WORDS, Victim};
use lru::LruCache;
use protocol_tables::State;
use std::alloc::Global;
use std::num::NonZeroUsize;
use tso_terms::NoMemory;

/// The ways of a set by their numbers, the most recently used first. All are there from the beginning.
pub type Ways = LruCache<u8, Way, NumberHasher>;

/// A way of a set: the line that lies in it, and its copy. In state I there is none.
#[derive(Clone, Copy)]
pub struct Way {
    pub line: u8,
    pub copy: Line,
}

impl Way {
    /// Whether no line lies here.
    fn is_empty(&self) -> bool
        ensures { result ≡ is_empty self.now }
    {
        matches!(self.copy.state, State::I)
    }

    /// A way in which no line lies yet.
    fn unused() -> Way
        ensures { is_empty result ≡ true }
    {
        Way {
            line: 0,
            copy: Line {
                state: State::I,
                words: [0; MAX_WORDS],
            },
        }
    }

    /// Whether this line lies here.
    pub fn has(&self, line: u8) -> bool
        ensures { result ≡ has_line line self.now }
    {
        self.line == line && !self.is_empty()
    }
}

/// The ways of a set of which none was used yet. A line that comes in takes over one of these, and so takes no memory.
///
/// Errors: out of memory only.
pub fn empty_ways(alloc: Global, count: u8) -> Result<Ways, NoMemory>
    requires { (0 < count) × (count ≤ most_ways) }
    ensures copies { IfOk result (λ w. copies_in w.entries ≡ []) }
    ensures room { IfOk result (λ w. w.cap ≡ count) }
    ensures ways { IfOk result (λ w. AreWays w.entries w.cap) }
{
    let capacity = NonZeroUsize::new(usize::from(count)).unwrap();
    let mut ways = LruCache::with_hasher(alloc, capacity, NumberHasher::new())?;
    for number in 0..count {
        ways.push(number, Way::unused())?;
    }
    Ok(ways)
}

/// The copy of a line, if it lies here.
pub fn copy_of(ways: &Ways, line: u8) -> Option<&Line>
    ensures { option_copied result ≡ lookup (nat_eq line) (copies_in ways.now.entries) }
{
    // A set has few ways, so a walk over them costs less than a hash.
    for (_, way) in ways.iter() {
        if way.has(line) {
            return Some(&way.copy);
        }
    }
    None
}

/// The number of the way in which a line lies, if there is one.
pub fn way_of(ways: &Ways, line: u8) -> Option<u8>
    ensures { result ≡ way_of line ways.now.entries }
{
    for (number, way) in ways.iter() {
        if way.has(line) {
            return Some(*number);
        }
    }
    None
}

/// Whether a line lies in the way used last.
pub fn is_most_recent(ways: &Ways, line: u8) -> bool
    ensures { result ≡ is_most_recent line ways.now.entries }
{
    match ways.peek_mru() {
        Some((_, way)) => way.has(line),
        None => false,
    }
}

/// The number of the first way that is empty, if there is one.
fn first_empty(ways: &Ways) -> Option<u8>
    ensures { result ≡ first_empty ways.now.entries }
{
    for (number, way) in ways.iter() {
        if way.is_empty() {
            return Some(*number);
        }
    }
    None
}

/// The number of the first way that has a line, if there is one.
fn first_full(ways: &Ways) -> Option<u8>
    ensures { result ≡ first_full ways.now.entries }
{
    for (number, way) in ways.iter() {
        if !way.is_empty() {
            return Some(*number);
        }
    }
    None
}

/// Every line leaves, so that each way is empty. The ways stay, with their numbers.
pub fn empty_all(ways: &mut Ways)
    requires { AreWays ways.old.entries ways.old.cap }
    ensures copies { copies_in ways.new.entries ≡ [] }
    ensures room { ways.new.cap ≡ ways.old.cap }
    ensures ways { AreWays ways.new.entries ways.new.cap }
{
    for _ in 0..ways.len() {
        let _numbers = ways.len();
        let Some(number) = first_full(ways) else {
            return;
        };
        let way = ways.peek_mut(&number).unwrap();
        way.copy.state = State::I;
    }
}

/// The number of the way that a new line takes over: of the first that is empty, else of the way used longest ago.
pub fn way_to_take_over(ways: &Ways) -> u8
    requires { 0 < length ways.now.entries }
    ensures { IsForNew ways.now.entries result }
{
    if let Some(number) = first_empty(ways) {
        return number;
    }
    let (number, _) = ways.peek_lru().unwrap();
    *number
}

/// A line comes into a way that is there, which goes to the front. Answers what the way had.
pub fn take_over(ways: &mut Ways, number: u8, new: Way) -> Way
    requires { IsSome (lookup (nat_eq number) ways.old.entries) }
    ensures old { Some result ≡ lookup (nat_eq number) ways.old.entries }
    ensures exact { ways.new ≡ lru_cache ((number, new) ∷ remove_entry (nat_eq number) ways.old.entries) ways.old.cap }
{
    let way = ways.get_mut(&number).unwrap();
    let old = *way;
    *way = new;
    old
}

/// The line that lay in a way which another takes over, with its copy; `None` of an empty way.
pub fn victim_in(way: Way) -> Option<Victim>
    ensures { result ≡ copy_left way }
{
    if way.is_empty() {
        return None;
    }
    Some(Victim {
        line: way.line,
        content: way.copy,
    })
}

/// The line of this rank with its copy, where rank 0 is the most recently used, if there are so many.
pub fn copy_at(ways: &Ways, rank: usize) -> Option<(u8, Line)>
    ensures { result ≡ slice_get (copies_in ways.now.entries) rank }
{
    let mut before = rank;
    for (_, way) in ways.iter() {
        if way.is_empty() {
            continue;
        }
        if before == 0 {
            return Some((way.line, way.copy));
        }
        before -= 1;
    }
    None
}
