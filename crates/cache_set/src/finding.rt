//! One walk over the caches for a line that a core asks for: who has it, whose words it gets, and whose copy is sent to
//! memory. Memory may be stale: where a dirty copy is, the words must come from it. (Primer, chapter 7.)

ghost use Rattle.std.specs.Prelude.{◌≡◌, ◌<◌, ◌≤◌, ℕ, None, length, slice_index_or, is_some};
ghost use Rattle.std.specs.List.{list_any};
ghost use Rattle.tso_terms.specs.Limits.{most_cores};
ghost use Rattle.cache_set.specs.Copies.{copy_in, tags_of};
ghost use Rattle.cache_set.specs.CacheTags.{flusher_from, states_by_core, first_supplier};
ghost use Rattle.cache_set.specs.Requests.{snoop_column};
ghost use Rattle.cache_set.specs.inner.Copies.{state_at};
ghost use Rattle.cache_set.specs.inner.Supplying.{HasSupplied};
ghost use Rattle.cache_set.specs.inner.Finding.{noting};

use crate::cache::Cache;
use crate::{Line, MAX_WORDS};
use protocol_tables::{Protocol, Request, Snoop, State};
use tso_terms::Core;
use tso_terms::limits::MAX_CORES;

/// What a copy in this state does when another core's request for its line is seen.
pub fn answer<P: Protocol>(protocol: &P, request: Request, state: State) -> Snoop
    ensures { result ≡ snoop_column (P.table protocol.now) request state }
{
    match request {
        Request::GetS => protocol.on_get_s(state),
        Request::GetM => protocol.on_get_m(state),
    }
}

/// What the caches have of a line that a core asks for.
#[derive(Clone, Copy)]
pub struct Found {
    /// The words of a copy that supplies them.
    pub words: Option<[u32; MAX_WORDS]>,
    /// The first core whose copy supplies them.
    pub supplier: Option<Core>,
    /// Whether a cache has the line.
    pub shared: bool,
    /// The core whose copy is sent to memory.
    pub flushed: Option<Core>,
    /// The state of each core's copy.
    pub states: [Option<State>; MAX_CORES],
}

impl Found {
    /// One core more has a copy, which does this at the request.
    fn note(&mut self, core: usize, copy: &Line, snoop: Snoop)
        requires { core < most_cores }
        ensures { self.new ≡ noting core copy.now snoop self.old }
    {
        if self.words.is_none() && snoop.supplies {
            self.words = Some(copy.words);
        }
        if self.supplier.is_none() && snoop.supplies {
            self.supplier = Some(Core(core as u8));
        }
        if self.flushed.is_none() && snoop.to_memory {
            self.flushed = Some(Core(core as u8));
        }
        self.shared = true;
        self.states[core] = Some(copy.state);
    }
}

/// Looks for the line once in each cache.
#[inline(always)]
pub fn find<P: Protocol>(caches: &[Cache], protocol: &P, request: Request, line: u8) -> Found
    requires few { length caches.now ≤ most_cores }
    ensures words { HasSupplied (snoop_column (P.table protocol.now) request) caches.now line result.words }
    ensures supplier { result.supplier ≡ first_supplier 0 (snoop_column (P.table protocol.now) request) line (tags_of caches.now) }
    ensures shared { result.shared ≡ list_any (λ sets. is_some (copy_in sets line)) caches.now }
    ensures flushed { result.flushed ≡ flusher_from 0 (snoop_column (P.table protocol.now) request) line (tags_of caches.now) }
    ensures states { (i : ℕ) → slice_index_or result.states i None ≡ state_at caches.now i line }
    ensures told { result.states ≡ states_by_core most_cores line (tags_of caches.now) }
{
    let mut found = Found {
        words: None,
        supplier: None,
        shared: false,
        flushed: None,
        states: [None; MAX_CORES],
    };
    for core in 0..caches.len() {
        if let Some(copy) = caches[core].look(line) {
            let snoop = answer(protocol, request, copy.state);
            found.note(core, copy, snoop);
        }
    }
    found
}
