//! Stores and locked accesses: what writes a word of a line. First the core's copy must be in M and no other core may have
//! one; a write in S or O has to ask by GetM (an upgrade), and one in M or E needs no bus. (Primer, chapters 6 and 7.)

ghost use Rattle.std.specs.Prelude.{◌≡◌, ◌≢◌, ◌<◌, Some, IsSome, length, option_map};
ghost use Rattle.cache_set.specs.Limits.{most_words};
ghost use Rattle.cache_set.specs.inner.Copy.{with_state, with_word};
ghost use Rattle.cache_set.specs.CacheTags.{used_by};
ghost use Rattle.cache_set.specs.Copies.{copy_at, tags_of};
ghost use Rattle.cache_set.specs.inner.Copies.{ways_of};
ghost use Rattle.snoop_bus.specs.inner.Requests.{ChangesCopy};
ghost use Rattle.snoop_bus.specs.inner.Accessing.{IsReady, MayWrite, Acquires, KeepsBeside};

use crate::access::{AccessKind, AccessReport};
use crate::hierarchy::Hierarchy;
use crate::holding::HeldBus;
use cache_set::MAX_WORDS;
use cache_set::shape::Target;
use protocol_tables::{Protocol, State};

impl Hierarchy {
    /// A core's write access to a line, but for the word that it writes: the core's copy is then in M, and
    /// no other core has one. Answers the words that the line has, and what the access did.
    #[inline(always)]
    pub fn acquire<P: Protocol>(
        &mut self,
        protocol: &P,
        held: Option<HeldBus>,
        core: usize,
        line: u8,
    ) -> ([u32; MAX_WORDS], AccessReport)
        requires ready { IsReady held core line self.old }
        requires free { MayWrite (P.table protocol.now) held core line (tags_of self.old.caches.items) }

        ensures ok { Acquires (P.table protocol.now) held core line self.old.caches.items self.new.caches.items
            self.old.memory.items self.new.memory.items result.0 result.1 }
        ensures kept { KeepsBeside held self.old.caches.items self.new.caches.items self.old.memory.items self.new.memory.items }
    {
        if let Some(copy) = self.caches[core].look(line).copied() {
            if protocol.written(copy.state).is_some() {
                let words = copy.words;
                self.enter(core, line, State::M);
                return (words, AccessReport::quiet(AccessKind::Hit));
            }
        }
        // Only a hit goes on beside an action that holds the bus.
        prove!(held.is_none());
        let transaction = self.ask_write(protocol, core, line);
        let (words, report) = self.acquire_asked(protocol, core, line, transaction);
        (words, report.requested_by(transaction))
    }

    /// A core's copy of a line goes to another state than I, and to the front of its set.
    #[inline(always)]
    pub fn enter(&mut self, core: usize, line: u8, state: State)
        requires core { core < length self.old.caches.items }
        requires present { IsSome (copy_at self.old.caches.items core line) }
        requires valid { state ≢ State.I }

        ensures tags { tags_of self.new.caches.items ≡ used_by core line state (tags_of self.old.caches.items) }
        ensures copies { ChangesCopy core line
            (option_map (with_state state) (copy_at self.old.caches.items core line)) self.old.caches.items
            self.new.caches.items }
        ensures ways { ways_of self.new.caches.items ≡ ways_of self.old.caches.items }
        ensures memory { self.new.memory.items ≡ self.old.memory.items }
    {
        let cache = &mut self.caches[core];
        cache.touch(line);
        cache.set_state(line, state);
    }

    /// Writes the word at an offset in a line that the core has.
    #[inline(always)]
    pub fn write(&mut self, target: Target, value: u32)
        requires core { target.core < length self.old.caches.items }
        requires present { IsSome (copy_at self.old.caches.items target.core target.line) }
        requires offset { target.offset < most_words }

        ensures tags { tags_of self.new.caches.items ≡ tags_of self.old.caches.items }
        ensures copies { ChangesCopy target.core target.line
            (option_map (with_word target.offset value) (copy_at self.old.caches.items target.core target.line))
            self.old.caches.items self.new.caches.items }
        ensures ways { ways_of self.new.caches.items ≡ ways_of self.old.caches.items }
        ensures memory { self.new.memory.items ≡ self.old.memory.items }
    {
        let Target { core, line, offset } = target;
        let cache = &mut self.caches[core];
        cache.write_word(line, offset, value);
    }
}
