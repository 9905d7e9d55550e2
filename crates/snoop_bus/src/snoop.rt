//! The snoop: what the other caches make of a core's request for a line, and what memory gets. A copy that stays where GetM
//! was asked, or a dirty one that is lost, would break coherence. (Primer, chapters 6 and 7.)
ghost use Rattle.std.specs.Prelude.{◌≡◌, ◌≢◌, ◌<◌, ◌≤◌, ℕ, None, IfSome, length};
ghost use Rattle.std.specs.Prelude.{slice_set, slice_index_or, is_some, option_map, if◌then◌else◌};
ghost use Rattle.std.specs.List.{list_any};
ghost use Rattle.tso_terms.specs.Limits.{most_cores};
ghost use Rattle.cache_set.specs.CacheTags.{requested};
ghost use Rattle.cache_set.specs.Copies.{tags_of, cache_of, copy_in};
ghost use Rattle.cache_set.specs.inner.Copies.{ways_of, ways_in, copy_state_in, state_at, OnlyAt};
ghost use Rattle.cache_set.specs.Requests.{snoop_column};
ghost use Rattle.snoop_bus.specs.inner.Requests.{after_request, copy_left_by, LeftByOthers};
ghost use Rattle.snoop_bus.specs.MemoryAfter.{written_back};
ghost use Rattle.snoop_bus.specs.CacheContents.{departing};

use crate::access::Departure;
use crate::hierarchy::Hierarchy;
use cache_set::cache::Cache;
use cache_set::finding::{Found, answer};
use cache_set::{MAX_WORDS, Victim};
use protocol_tables::{Protocol, Request, State};
use tso_terms::Core;

/// A cache, whose copy of the line is in this state, sees another core's request for the line.
#[inline(always)]
fn snoop_one<P: Protocol>(
    cache: &mut Cache,
    protocol: &P,
    request: Request,
    line: u8,
    state: Option<State>,
)
    requires state { state ≡ copy_state_in cache.old line }
    ensures exact { cache.new ≡ after_request (snoop_column (P.table protocol.now) request) line cache.old }
    ensures copies { OnlyAt line (copy_left_by (snoop_column (P.table protocol.now) request)) cache.old cache.new }
    ensures ways { ways_in cache.new ≡ ways_in cache.old }
{
    if let Some(state) = state {
        let next = answer(protocol, request, state).next;
        match next {
            State::I => cache.drop_line(line),
            State::S | State::E | State::O | State::M => cache.set_state(line, next),
        }
    }
}

impl Hierarchy {
    /// Every cache but the core's own sees its request for a line, of which so much was found in them.
    #[inline(always)]
    pub fn snoop_others<P: Protocol>(
        &mut self,
        protocol: &P,
        request: Request,
        core: usize,
        line: u8,
        found: &Found,
    )
        requires few { length self.old.caches.items ≤ most_cores }
        requires states { (i : ℕ) → i ≢ core → slice_index_or found.now.states i None ≡ state_at self.old.caches.items i line }
        requires shared { found.now.shared ≡ list_any (λ sets. is_some (copy_in sets line)) self.old.caches.items }
        ensures tags { tags_of self.new.caches.items ≡ requested (snoop_column (P.table protocol.now) request) core line (tags_of self.old.caches.items) }
        ensures own { cache_of self.new.caches.items core ≡ cache_of self.old.caches.items core }
        ensures copies { LeftByOthers (snoop_column (P.table protocol.now) request) core line self.old.caches.items self.new.caches.items }
        ensures ways { ways_of self.new.caches.items ≡ ways_of self.old.caches.items }
        ensures memory { self.new.memory.items ≡ self.old.memory.items }
    {
        // Most lines are in no cache.
        if !found.shared {
            return;
        }
        for other in 0..self.caches.len() {
            if other != core {
                let cache = &mut self.caches[other];
                snoop_one(cache, protocol, request, line, found.states[other]);
            }
        }
    }

    /// A victim is written to memory if it is dirty. Answers that the line left, and whether it was written.
    pub fn write_back<P: Protocol>(
        &mut self,
        protocol: &P,
        victim: Option<Victim>,
    ) -> Option<Departure>
        requires { IfSome victim (λ v. v.line < length self.old.memory.items) }
        ensures memory { self.new.memory.items ≡ written_back (P.table protocol.now) victim self.old.memory.items }
        ensures left { result ≡ option_map (departing (P.table protocol.now)) (option_map (λ v. (v.line, v.content.state)) victim) }
        ensures caches { self.new.caches.items ≡ self.old.caches.items }
    {
        let Some(victim) = victim else {
            return None;
        };
        let written_back = protocol.evicts_dirty(victim.content.state);
        if written_back {
            let words = victim.content.words;
            self.memory[usize::from(victim.line)] = words;
        }
        Some(Departure {
            line: victim.line,
            written_back,
        })
    }

    /// The words of a copy that is sent to memory on GetS go there, if there is one.
    pub fn flush(&mut self, line: u8, words: [u32; MAX_WORDS], flusher: Option<Core>)
        requires { line < length self.old.memory.items }
        ensures memory { self.new.memory.items ≡ (if is_some flusher then slice_set self.old.memory.items line words else self.old.memory.items) }
        ensures caches { self.new.caches.items ≡ self.old.caches.items }
    {
        if flusher.is_some() {
            self.memory[usize::from(line)] = words;
        }
    }
}
