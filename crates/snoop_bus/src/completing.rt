//! The second half of an access that needs the bus: the core's own line is filled, with the words that the bus kept since
//! the ask, and a dirty victim is written back. (Primer, chapter 7.)
ghost use Rattle.std.specs.Prelude.{◌≡◌, ◌<◌, Some, None, length, slice_index};
ghost use Rattle.cache_set.specs.Limits.{most_words};
ghost use Rattle.cache_set.specs.inner.Copy.{copy_with};
ghost use Rattle.snoop_bus.specs.declared.holding.Stage.TheVariants.{Load, Write};
ghost use Rattle.protocol_tables.specs.declared.state.State.TheVariants.{M};
ghost use Rattle.cache_set.specs.CacheTags.{filled_by};
ghost use Rattle.snoop_bus.specs.MemoryAfter.{written_back, victim_at};
ghost use Rattle.snoop_bus.specs.inner.Completing.{IsAwaited, Completes, words_due};
ghost use Rattle.snoop_bus.specs.Held.{with_counted_copy, counted_in};
ghost use Rattle.cache_set.specs.Copies.{cache_of, copy_at, tags_of};
ghost use Rattle.cache_set.specs.inner.Copies.{ways_of};
ghost use Rattle.snoop_bus.specs.Bus.{AllCoherent};
ghost use Rattle.snoop_bus.specs.inner.Accessing.{KeepsWords};
ghost use Rattle.snoop_bus.specs.CacheContents.{missing};
ghost use Rattle.snoop_bus.specs.inner.CacheContents.{was_written_back};

use crate::access::{Access, AccessKind, AccessReport, Departure};
use crate::hierarchy::Hierarchy;
use crate::holding::Transaction;
use cache_set::shape::Target;
use cache_set::{Line, MAX_WORDS};
use protocol_tables::{Protocol, State, Transient};

/// Whether a line left, and was written to memory.
fn was_written_back(left: Option<Departure>) -> bool
    ensures { result ≡ was_written_back left }
{
    match left {
        None => false,
        Some(left) => left.written_back,
    }
}

impl Hierarchy {
    /// Fills a core's line with the copy that the bus keeps; another may leave. Answers what the access did: a miss.
    pub fn fill_asked<P: Protocol>(
        &mut self,
        protocol: &P,
        core: usize,
        line: u8,
        transaction: Transaction,
    ) -> AccessReport
        requires coherent { AllCoherent (with_counted_copy core line transaction.copy self.old.caches.items) self.old.memory.items }
        requires core { core < length self.old.caches.items }
        requires some_set { 0 < length (cache_of self.old.caches.items core) }
        requires line { line < length self.old.memory.items }
        requires absent { copy_at self.old.caches.items core line ≡ None }

        ensures report { result ≡ missing (P.table protocol.now) core line transaction.request.flushed (tags_of self.old.caches.items) }
        ensures tags { tags_of self.new.caches.items ≡ filled_by core line transaction.copy.state (tags_of self.old.caches.items) }
        ensures memory { self.new.memory.items ≡ written_back (P.table protocol.now) (victim_at self.old.caches.items core line) self.old.memory.items }
        ensures own { copy_at self.new.caches.items core line ≡ Some transaction.copy }
        ensures words { KeepsWords
            (with_counted_copy core line transaction.copy self.old.caches.items) self.new.caches.items self.old.memory.items
            self.new.memory.items }
        ensures ways { ways_of self.new.caches.items ≡ ways_of self.old.caches.items }
    {
        let cache = &mut self.caches[core];
        let Line { state, words } = transaction.copy;
        let victim = cache.fill(line, state, words);
        let left = self.write_back(protocol, victim);
        AccessReport {
            access: Access {
                kind: AccessKind::Miss,
                wrote_back: was_written_back(left),
                flushed: transaction.request.flushed,
            },
            request: None,
            left,
        }
    }

    /// Completes a write access, but for the word that it writes: the core's copy is then in M, and no other
    /// core has one. Answers the words that the line has, and what the access did.
    pub fn acquire_asked<P: Protocol>(
        &mut self,
        protocol: &P,
        core: usize,
        line: u8,
        transaction: Option<Transaction>,
    ) -> ([u32; MAX_WORDS], AccessReport)
        requires awaited { IsAwaited Write transaction core line self.old }

        ensures found { result.0 ≡ words_due transaction core line self.old }
        ensures ok { Completes (P.table protocol.now) transaction core line self.old self.new result.1 }
        ensures own { copy_at self.new.caches.items core line ≡ Some (copy_with M (words_due transaction core line self.old)) }
        ensures words { KeepsWords (counted_in core line transaction self.old.caches.items) self.new.caches.items self.old.memory.items self.new.memory.items }
        ensures ways { ways_of self.new.caches.items ≡ ways_of self.old.caches.items }
    {
        match transaction {
            None => {
                let words = self.caches[core].look(line).unwrap().words;
                self.enter(core, line, State::M);
                (words, AccessReport::quiet(AccessKind::Hit))
            }
            Some(transaction) => {
                let words = transaction.copy.words;
                match transaction.transient {
                    Transient::SmD => {
                        self.enter(core, line, State::M);
                        (words, AccessReport::quiet(AccessKind::Upgrade))
                    }
                    Transient::IsD | Transient::ImD => {
                        let report = self.fill_asked(protocol, core, line, transaction);
                        (words, report)
                    }
                }
            }
        }
    }

    /// Completes a load that missed, of the word at an offset in a line. Answers the word, and what the access did.
    pub fn complete_load<P: Protocol>(
        &mut self,
        protocol: &P,
        target: Target,
        transaction: Option<Transaction>,
    ) -> (u32, AccessReport)
        requires awaited { IsAwaited Load transaction target.core target.line self.old }
        requires offset { target.offset < most_words }

        ensures word { result.0 ≡ slice_index (words_due transaction target.core target.line self.old) target.offset }
        ensures ok { Completes (P.table protocol.now) transaction target.core target.line self.old self.new result.1 }
        ensures words { KeepsWords
            (counted_in target.core target.line transaction self.old.caches.items) self.new.caches.items
            self.old.memory.items self.new.memory.items }
        ensures ways { ways_of self.new.caches.items ≡ ways_of self.old.caches.items }
    {
        let transaction = transaction.unwrap();
        let Target { core, line, offset } = target;
        let report = self.fill_asked(protocol, core, line, transaction);
        (transaction.copy.words[usize::from(offset)], report)
    }
}
