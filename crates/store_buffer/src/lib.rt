//! The store buffer of a core: the stores that it has issued and memory has not seen yet, first in,
//! first out. (x86-TSO, section 3: each hardware thread has a FIFO store buffer, and a load reads the
//! newest store to its location from its own; that a buffer is bounded is this project's profile.)
#![tactic(auto)]

ghost use Rattle.std.specs.Prelude.{◌≡◌, ◌<◌, ◌≤◌, ◌↔◌, [], ◌∷◌, ◌++◌, IsTrue, IfOk, OnOk, IfErr, length, drop, slice_get};
ghost use Rattle.tso_terms.specs.Limits.{least_depth, most_depth};

use circular_buffer::HeapCircularBuffer;
use std::alloc::Global;
use std::marker::Model;
use tso_terms::{Loc, NoMemory};

/// A store that was issued and is not in memory yet: the number of its instruction in its program,
/// its location and the value that it writes.
#[derive(Clone, Copy)]
pub struct Pending {
    pub place: u8,
    pub loc: Loc,
    pub value: u32,
}

/// The pending stores of one core, the oldest first, and never more than the buffer's depth.
#[derive(Drop)]
pub struct StoreBuffer {
    ring: HeapCircularBuffer<Pending>,
}

impl Model for StoreBuffer {
    ghost use Rattle.std.specs.Prelude.{◌<◌, ◌≤◌, length};
    ghost use Rattle.store_buffer.specs.Stores.{Stores};
    ghost use Rattle.store_buffer.specs.inner.Stores.{stores};

    ghost Value = { Stores };

    ghost view = { λ s. stores s.ring.items s.ring.capacity };

    ghost invariant = { λ s. (length s.ring.items ≤ s.ring.capacity) × (0 < s.ring.capacity) };
}

impl StoreBuffer {
    ghost use Rattle.store_buffer.specs.inner.Stores.{stores};
    ghost use Rattle.store_buffer.specs.inner.Newest.{newest_for};

    /// An empty buffer for `depth` stores, from `MIN_DEPTH` to `MAX_DEPTH` of `tso_terms`. No other call takes memory.
    ///
    /// Errors: out of memory only.
    pub fn new(alloc: Global, depth: u8) -> Result<Self, NoMemory>
        requires { (least_depth ≤ depth) × (depth ≤ most_depth) }
        ensures { IfOk result (λ b. b ≡ stores [] depth) }
    {
        let ring = HeapCircularBuffer::with_capacity(alloc, usize::from(depth))?;
        Ok(StoreBuffer { ring })
    }

    /// Appends a store. Hands it back, with nothing changed, exactly where as many stores are
    /// pending as the buffer's depth.
    pub fn put(&mut self, store: Pending) -> Result<(), Pending>
        ensures full { (length self.old.items ≡ self.old.depth) ↔ (result ≡ Err store) }
        ensures ok { OnOk result (self.new ≡ stores (self.old.items ++ store ∷ []) self.old.depth) }
        ensures err { IfErr result (λ back. (back ≡ store) × (self.new ≡ self.old)) }
        ensures within { length self.new.items ≤ self.new.depth }
    {
        self.ring.try_push_back(store)
    }

    /// The oldest store, if any is pending.
    pub fn oldest(&self) -> Option<Pending>
        ensures { result ≡ slice_get self.now.items 0 }
    {
        self.ring.front().copied()
    }

    /// The store with this number, counted from the oldest, which has 0; `None` where fewer are pending.
    pub fn get(&self, number: usize) -> Option<Pending>
        ensures { result ≡ slice_get self.now.items number }
    {
        self.ring.get(number).copied()
    }

    /// Takes the oldest store out of the buffer, if any is pending.
    pub fn take_oldest(&mut self) -> Option<Pending>
        ensures taken { result ≡ slice_get self.old.items 0 }
        ensures rest { self.new ≡ stores (drop 1 self.old.items) self.old.depth }
    {
        self.ring.pop_front()
    }

    /// Lets every pending store go, so that the buffer is as `new` left it, with its room.
    pub fn clear(&mut self)
        ensures { self.new ≡ stores [] self.old.depth }
    {
        self.ring.clear();
    }

    /// The value of the newest store to the location, if any is pending: what a load of the buffer's
    /// own core sees.
    pub fn newest_for(&self, loc: Loc) -> Option<u32>
        ensures { result ≡ newest_for loc.0 self.now.items }
    {
        let mut newest = None;
        for p in self.ring.iter() {
            if p.loc == loc {
                newest = Some(p.value);
            }
        }
        newest
    }

    /// Whether nothing is pending.
    pub fn is_empty(&self) -> bool
        ensures { IsTrue result ↔ (self.now.items ≡ []) }
    {
        self.ring.is_empty()
    }

    /// Whether as many stores are pending as the buffer's depth, so that `put` would refuse one.
    pub fn is_full(&self) -> bool
        ensures full { IsTrue result ↔ (length self.now.items ≡ self.now.depth) }
        ensures within { length self.now.items ≤ self.now.depth }
    {
        self.ring.is_full()
    }
}
