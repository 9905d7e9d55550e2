//! What a choice reads or writes beyond its core's own store buffer, what it had to do with the caches, and what the
//! holder of a split bus goes on with. A store that waits in the buffer, and a load that the buffer answers, access
//! nothing there, and so need no bus. A choice answers its use of the caches beside its outcome, so that what is
//! counted is the very access that was made, and not what a second look at changed caches would find. The bus knows its
//! holder's access, and not its instruction: that a locked instruction has its store part still to do, and with which
//! entry, is kept here.

use snoop_bus::{AccessReport, BusRequest};
use tso_terms::{Choice, Entry, Loc};

/// What a choice had to do with the caches.
#[derive(Clone, Copy)]
pub enum CacheUse {
    /// Nothing.
    Unused,
    /// It was a load that the core's own pending stores answered.
    Forwarded,
    /// It asked for a split bus, by this request; by none where its write access hits. Its access isn't made yet.
    Asked(Option<BusRequest>),
    /// It went through the core's cache, by this access.
    Through(AccessReport),
}

/// What a choice is to read or write beyond its core's own buffer.
#[derive(Clone, Copy)]
pub enum MemoryAccess {
    Nothing,
    Read(Loc),
    Write(Loc),
    /// A locked instruction's read and write.
    Lock(Loc),
}

/// What the action that holds the bus goes on with, at its core's next choice. While nobody holds the bus it
/// says nothing.
#[derive(Clone, Copy)]
pub enum Next {
    /// This choice completes the access that was asked for.
    Complete(Choice),
    /// A locked instruction, of which this is the load part, writes.
    Write(Entry),
}
