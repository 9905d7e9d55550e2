//! Dirty copies of one core that go to memory, and stay as clean ones.

ghost use Rattle.std.specs.Prelude.{◌≡◌, ◌<◌, ◌≤◌, ℕ, None, length, map, option_map};
ghost use Rattle.tso_terms.specs.Limits.{most_locations};
ghost use Rattle.cache_set.specs.Lines.{line_in};
ghost use Rattle.cache_set.specs.Copies.{copy_in, tags_in};
ghost use Rattle.cache_set.specs.inner.Tags.{cleaned};
ghost use Rattle.cache_set.specs.inner.Copies.{ways_in, OnlyAt};
ghost use Rattle.cache_set.specs.inner.Cleaning.{clean_copy, cleaned_at, words_if_dirty, DirtyWrittenAt};

use crate::MAX_WORDS;
use crate::cache::{Cache, know_sets};
use protocol_tables::{Protocol, State};

/// Every dirty copy of one core goes to memory, and becomes S.
pub fn settle_cache<P: Protocol>(cache: &mut Cache, memory: &mut [[u32; MAX_WORDS]], protocol: &P)
    requires few { length memory.old ≤ most_locations }
    requires within { (k : ℕ) → length memory.old ≤ k → copy_in cache.old k ≡ None }

    ensures tags { map tags_in cache.new ≡ map cleaned (map tags_in cache.old) }
    ensures copies { (k : ℕ) → copy_in cache.new k ≡ option_map clean_copy (copy_in cache.old k) }
    ensures memory { (k : ℕ) → line_in memory.new k ≡ words_if_dirty (copy_in cache.old k) (line_in memory.old k) }
    ensures ways { ways_in cache.new ≡ ways_in cache.old }
{
    know_sets(cache);
    for line in 0..memory.len() {
        settle_line(cache, memory, protocol, line as u8);
    }
}

/// A core's copy of a line goes to memory if it is dirty, and becomes S.
fn settle_line<P: Protocol>(
    cache: &mut Cache,
    memory: &mut [[u32; MAX_WORDS]],
    protocol: &P,
    line: u8,
)
    requires { line < length memory.old }

    ensures tags { map tags_in cache.new ≡ map (cleaned_at line) (map tags_in cache.old) }
    ensures copies { OnlyAt line (option_map clean_copy) cache.old cache.new }
    ensures memory { DirtyWrittenAt line cache.old memory.old memory.new }
    ensures ways { ways_in cache.new ≡ ways_in cache.old }
{
    let Some(copy) = cache.look(line).copied() else {
        return;
    };
    if !protocol.evicts_dirty(copy.state) {
        return;
    }
    let words = copy.words;
    memory[usize::from(line)] = words;
    cache.set_state(line, State::S);
}
