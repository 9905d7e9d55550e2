//! The first half of an access that needs the bus: the other caches see the request, and the bus keeps the words for the
//! core's line. Their copies change at once, so from here on the kept words must count as the core's copy. (Primer, chapter
//! 7.)
ghost use Rattle.std.specs.Prelude.{◌≡◌, ◌<◌, Some, None, false, length};
ghost use Rattle.snoop_bus.specs.Asks.{request_for, asked_caches, asked_memory, supplier_in, moved_in};
ghost use Rattle.snoop_bus.specs.inner.Asks.{transacting_at, transaction_at, held_after_ask};
ghost use Rattle.snoop_bus.specs.Held.{with_counted_copy, counted_in, counted_copies_of};
ghost use Rattle.snoop_bus.specs.inner.Held.{Awaits, IsHeld};
ghost use Rattle.cache_set.specs.CacheTags.{requested};
ghost use Rattle.cache_set.specs.Copies.{cache_of, copy_at, tags_of};
ghost use Rattle.cache_set.specs.inner.Copies.{ways_of};
ghost use Rattle.snoop_bus.specs.inner.Accessing.{IsReady, KeepsWords};
ghost use Rattle.snoop_bus.specs.declared.holding.Stage.TheVariants.{Write};
ghost use Rattle.protocol_tables.specs.declared.requests.Request.TheVariants.{GetS, GetM};
ghost use Rattle.protocol_tables.specs.declared.requests.Transient.TheVariants.{IsD};

use crate::access::{BusRequest, Supplier};
use crate::hierarchy::Hierarchy;
use crate::holding::{HeldBus, Stage, Transaction, held_at};
use cache_set::Line;
use cache_set::cache::know_sets;
use cache_set::finding::find;
use protocol_tables::{Protocol, Request, State, Transient, transient};
use tso_terms::{Core, Loc};

/// Memory supplies the words where no core does.
fn supplier_in(core: Option<Core>) -> Supplier
    ensures { result ≡ supplier_in core }
{
    match core {
        None => Supplier::Memory,
        Some(core) => Supplier::Cache(core),
    }
}

/// Who supplies the words of a line that this is awaited of; `None` in an upgrade, since the core has them.
fn moved_in(transient: Transient, supplier: Supplier) -> Option<Supplier>
    ensures { result ≡ moved_in transient supplier }
{
    match transient {
        Transient::SmD => None,
        Transient::IsD | Transient::ImD => Some(supplier),
    }
}

/// What a core asks the bus for: the line of a location, to read the word or to write it.
#[derive(Clone, Copy)]
pub struct Wanted {
    pub core: Core,
    pub loc: Loc,
    pub line: u8,
    pub write: bool,
}

impl Hierarchy {
    /// A core asks for what it wants, where that isn't a load's hit. Answers what then holds the bus.
    pub fn ask<P: Protocol>(&mut self, protocol: &P, wanted: Wanted) -> HeldBus
        requires ready { IsReady None wanted.core.0 wanted.line self.old }
        requires misses { wanted.write ≡ false → copy_at self.old.caches.items wanted.core.0 wanted.line ≡ None }

        ensures exact { result ≡ held_after_ask (P.table protocol.now) wanted.core wanted.loc wanted.line wanted.write
            self.old.caches.items self.old.memory.items }
        ensures awaited { IsHeld self.new.caches.items self.new.memory.items result }
        ensures tags { tags_of self.new.caches.items
            ≡ asked_caches (P.table protocol.now) (request_for wanted.write) wanted.core.0 wanted.line (tags_of self.old.caches.items) }
        ensures memory { self.new.memory.items
            ≡ asked_memory (P.table protocol.now) (request_for wanted.write) wanted.line self.old.caches.items self.old.memory.items }
        ensures words { KeepsWords self.old.caches.items (counted_copies_of (Some result) self.new.caches.items) self.old.memory.items self.new.memory.items }
        ensures cache { cache_of self.new.caches.items wanted.core.0 ≡ cache_of self.old.caches.items wanted.core.0 }
        ensures ways { ways_of self.new.caches.items ≡ ways_of self.old.caches.items }
    {
        let Wanted {
            core,
            loc,
            line,
            write,
        } = wanted;
        let at = usize::from(core.0);
        know_sets(&self.caches[at]);
        if write {
            let transaction = self.ask_write(protocol, at, line);
            held_at(core, loc, Stage::Write, line, transaction)
        } else {
            let transaction = Some(self.ask_load(protocol, at, line));
            held_at(core, loc, Stage::Load, line, transaction)
        }
    }

    /// A core asks for a line that it doesn't have, to read it.
    pub fn ask_load<P: Protocol>(&mut self, protocol: &P, core: usize, line: u8) -> Transaction
        requires ready { IsReady None core line self.old }
        requires some_set { 0 < length (cache_of self.old.caches.items core) }
        requires absent { copy_at self.old.caches.items core line ≡ None }

        ensures transaction { result ≡ transacting_at (P.table protocol.now) GetS line self.old.caches.items self.old.memory.items IsD }
        ensures tags { tags_of self.new.caches.items ≡ requested (P.table protocol.now).on_get_s core line (tags_of self.old.caches.items) }
        ensures memory { self.new.memory.items ≡ asked_memory (P.table protocol.now) GetS line self.old.caches.items self.old.memory.items }
        ensures own { copy_at self.new.caches.items core line ≡ None }
        ensures words { KeepsWords self.old.caches.items
            (with_counted_copy core line result.copy self.new.caches.items) self.old.memory.items self.new.memory.items }
        ensures cache { cache_of self.new.caches.items core ≡ cache_of self.old.caches.items core }
        ensures ways { ways_of self.new.caches.items ≡ ways_of self.old.caches.items }
    {
        let found = find(&self.caches, protocol, Request::GetS, line);
        let words = found.words.unwrap_or(self.memory[usize::from(line)]);
        let state = protocol.filled(found.shared);
        self.snoop_others(protocol, Request::GetS, core, line, &found);
        self.flush(line, words, found.flushed);
        let supplier = Some(supplier_in(found.supplier));
        Transaction {
            transient: Transient::IsD,
            copy: Line { state, words },
            request: BusRequest {
                request: Request::GetS,
                line,
                supplier,
                flushed: found.flushed,
                states: found.states,
            },
        }
    }

    /// A core asks for a line, to write it. `None` where its copy is written in place.
    pub fn ask_write<P: Protocol>(
        &mut self,
        protocol: &P,
        core: usize,
        line: u8,
    ) -> Option<Transaction>
        requires ready { IsReady None core line self.old }
        requires some_set { 0 < length (cache_of self.old.caches.items core) }

        ensures transaction { result ≡ transaction_at (P.table protocol.now) GetM core line self.old.caches.items self.old.memory.items }
        ensures tags { tags_of self.new.caches.items ≡ asked_caches (P.table protocol.now) GetM core line (tags_of self.old.caches.items) }
        ensures awaits { Awaits Write result (copy_at self.new.caches.items core line) }
        ensures words { KeepsWords self.old.caches.items (counted_in core line result self.new.caches.items) self.old.memory.items self.old.memory.items }
        ensures cache { cache_of self.new.caches.items core ≡ cache_of self.old.caches.items core }
        ensures ways { ways_of self.new.caches.items ≡ ways_of self.old.caches.items }
        ensures memory { self.new.memory.items ≡ self.old.memory.items }
    {
        // A line that isn't there is in I.
        let state = match self.caches[core].look(line).copied() {
            None => State::I,
            Some(copy) => copy.state,
        };
        let transient = transient(state, Request::GetM)?;
        let found = find(&self.caches, protocol, Request::GetM, line);
        let words = found.words.unwrap_or(self.memory[usize::from(line)]);
        self.snoop_others(protocol, Request::GetM, core, line, &found);
        let copy = Line {
            state: State::M,
            words,
        };
        let supplier = moved_in(transient, supplier_in(found.supplier));
        Some(Transaction {
            transient,
            copy,
            request: BusRequest {
                request: Request::GetM,
                line,
                supplier,
                flushed: None,
                states: found.states,
            },
        })
    }
}
