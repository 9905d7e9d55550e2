//! The pending stores of a core, with a store buffer or without. Depth 0 has no buffer, and nothing is ever pending; one
//! type for both lets a core take the same steps on either machine.

ghost use Rattle.std.specs.Prelude.{◌≡◌, ◌<◌, ◌≤◌, ◌↔◌, [], ◌∷◌, ◌++◌, IsTrue, IfOk, OnOk, IfErr, length, drop, slice_get};
ghost use Rattle.tso_terms.specs.Limits.{most_depth};

use std::alloc::Global;
use std::marker::Model;
use store_buffer::{Pending, StoreBuffer};
use tso_terms::{Loc, NoMemory};

/// The stores that a core has issued and that have not reached memory, in a buffer. A machine of depth 0
/// makes no buffer, and nothing is ever pending there.
#[derive(Drop)]
pub struct PendingStores {
    buffer: Option<StoreBuffer>,
}

impl Model for PendingStores {
    ghost use Rattle.store_buffer.specs.Stores.{Stores};
    ghost use Rattle.multiprocessor.specs.inner.Buffers.{pending_stores, HasRoom};

    ghost Value = { Stores };

    ghost view = { λ s. pending_stores s.buffer };

    ghost invariant = { λ s. HasRoom s.buffer };
}

impl PendingStores {
    ghost use Rattle.store_buffer.specs.inner.Stores.{stores};
    ghost use Rattle.store_buffer.specs.inner.Newest.{newest_for};

    /// Nothing pending, with a buffer of this depth, up to `MAX_DEPTH` of `tso_terms`; at depth 0 with
    /// none. No other call takes memory.
    ///
    /// Errors: out of memory only.
    pub fn new(alloc: Global, depth: u8) -> Result<Self, NoMemory>
        requires { depth ≤ most_depth }
        ensures { IfOk result (λ s. s ≡ stores [] depth) }
    {
        if depth == 0 {
            return Ok(PendingStores { buffer: None });
        }
        let buffer = StoreBuffer::new(alloc, depth)?;
        Ok(PendingStores {
            buffer: Some(buffer),
        })
    }

    /// Whether stores wait in a buffer; without one each goes to memory at its step.
    pub fn are_buffered(&self) -> bool
        ensures { IsTrue result ↔ (0 < self.now.depth) }
    {
        self.buffer.is_some()
    }

    /// Appends a store. Hands it back, with nothing changed, exactly where as many stores are pending as
    /// the buffer's depth, and so where there is no buffer.
    #[inline(always)]
    pub fn put(&mut self, store: Pending) -> Result<(), Pending>
        ensures full { (length self.old.items ≡ self.old.depth) ↔ (result ≡ Err store) }
        ensures ok { OnOk result (self.new ≡ stores (self.old.items ++ store ∷ []) self.old.depth) }
        ensures err { IfErr result (λ back. (back ≡ store) × (self.new ≡ self.old)) }
        ensures within { length self.new.items ≤ self.new.depth }
    {
        match &mut self.buffer {
            None => Err(store),
            Some(buffer) => buffer.put(store),
        }
    }

    /// The oldest store, if any is pending.
    pub fn oldest(&self) -> Option<Pending>
        ensures { result ≡ slice_get self.now.items 0 }
    {
        match &self.buffer {
            None => None,
            Some(buffer) => buffer.oldest(),
        }
    }

    /// The store with this number, counted from the oldest, which has 0; `None` where fewer are pending.
    pub fn get(&self, number: usize) -> Option<Pending>
        ensures { result ≡ slice_get self.now.items number }
    {
        match &self.buffer {
            None => None,
            Some(buffer) => buffer.get(number),
        }
    }

    /// Takes the oldest store out of the buffer, if any is pending.
    pub fn take_oldest(&mut self) -> Option<Pending>
        ensures taken { result ≡ slice_get self.old.items 0 }
        ensures rest { self.new ≡ stores (drop 1 self.old.items) self.old.depth }
    {
        match &mut self.buffer {
            None => None,
            Some(buffer) => buffer.take_oldest(),
        }
    }

    /// Lets every pending store go, so that nothing is pending, as `new` left it.
    pub fn clear(&mut self)
        ensures { self.new ≡ stores [] self.old.depth }
    {
        if let Some(buffer) = &mut self.buffer {
            buffer.clear();
        }
    }

    /// The value of the newest store to the location, if any is pending: what a load of the core sees.
    pub fn newest_for(&self, loc: Loc) -> Option<u32>
        ensures { result ≡ newest_for loc.0 self.now.items }
    {
        match &self.buffer {
            None => None,
            Some(buffer) => buffer.newest_for(loc),
        }
    }

    /// Whether nothing is pending.
    pub fn is_empty(&self) -> bool
        ensures { IsTrue result ↔ (self.now.items ≡ []) }
    {
        match &self.buffer {
            None => true,
            Some(buffer) => buffer.is_empty(),
        }
    }
}
