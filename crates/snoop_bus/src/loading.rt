//! Loads: a hit reads the core's own copy, and a miss asks with GetS and completes at once. Which copy then supplies the
//! words, and whether it goes to memory too, is the protocol's table to say; a load that took stale memory's word in its
//! place would break coherence.

ghost use Rattle.std.specs.Prelude.{◌≡◌, ◌<◌, ◌⊎◌, None, IsSome};
ghost use Rattle.cache_set.specs.Limits.{most_words};
ghost use Rattle.cache_set.specs.Copies.{copy_at};
ghost use Rattle.snoop_bus.specs.inner.Accessing.{IsReady, Loads, KeepsBeside};

use crate::access::{AccessKind, AccessReport};
use crate::hierarchy::Hierarchy;
use crate::holding::HeldBus;
use cache_set::shape::Target;
use protocol_tables::Protocol;

impl Hierarchy {
    /// A core's load of a word of a line: the word, and what the access did.
    #[inline(always)]
    pub fn load<P: Protocol>(
        &mut self,
        protocol: &P,
        held: Option<HeldBus>,
        target: Target,
    ) -> (u32, AccessReport)
        requires ready { IsReady held target.core target.line self.old }
        requires offset { target.offset < most_words }
        requires free { (held ≡ None) ⊎ IsSome (copy_at self.old.caches.items target.core target.line) }

        ensures ok { Loads (P.table protocol.now) held target.core target.line target.offset self.old.caches.items
            self.new.caches.items self.old.memory.items self.new.memory.items result.0 result.1 }
        ensures kept { KeepsBeside held self.old.caches.items self.new.caches.items self.old.memory.items self.new.memory.items }
    {
        let Target { core, line, offset } = target;
        if let Some(copy) = self.caches[core].look(line).copied() {
            let cache = &mut self.caches[core];
            cache.touch(line);
            return (
                copy.words[usize::from(offset)],
                AccessReport::quiet(AccessKind::Hit),
            );
        }
        // Only a hit goes on beside an action that holds the bus.
        prove!(held.is_none());
        let transaction = Some(self.ask_load(protocol, core, line));
        let (word, report) = self.complete_load(protocol, target, transaction);
        (word, report.requested_by(transaction))
    }
}
