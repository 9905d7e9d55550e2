//! What a choice did: a step of a trace. Text and JSON are both made of it, so they can't disagree.

ghost use Rattle.std.specs.Prelude.{◌≡◌};
ghost use Rattle.tso_terms.specs.FlatMachine.{chosen};

use crate::supplied::Source;
use protocol_tables::{Request, State, Transient};
use snoop_bus::AccessKind;
use tso_terms::{Choice, Core, Entry, Outcome, Reg};

/// What a choice did. Of a choice that stalled nothing is told but that.
pub struct Step {
    pub choice: Choice,
    pub outcome: Outcome,
    /// The entries that it committed; of a plain store that became pending, the entry that it is to commit.
    pub entries: Vec<Entry>,
    /// The register that it moved a value to.
    pub moved: Option<Moved>,
    /// Whether it was a load that the core's own pending stores answered.
    pub forwarded: bool,
    /// What its access to the core's cache was. On a split bus that is known when the access is completed.
    pub access: Option<AccessKind>,
    /// Where the word is found that it read. JSON alone tells that.
    pub supplied: Option<Source>,
    /// What went on the bus; on a split bus, when it was asked for.
    pub request: Option<LineRequest>,
    /// The core whose copy was sent to memory.
    pub flushed: Option<Core>,
    /// The number of the dirty line that left the core's cache and was written to memory.
    pub wrote_back: Option<u8>,
    /// The lines whose state changed, by core and then by line.
    pub changes: Vec<StateChange>,
    /// The core's pending stores after it, the oldest first, where they changed.
    pub buffer: Option<Vec<Entry>>,
}

// Said by hand, so that who lets it go makes one call, and not one for each part.
impl Drop for Step {
    fn drop(self) {
        let Step {
            entries: _entries,
            changes: _changes,
            buffer: _buffer,
            choice: _,
            outcome: _,
            moved: _,
            forwarded: _,
            access: _,
            supplied: _,
            request: _,
            flushed: _,
            wrote_back: _,
        } = self;
    }
}

/// A register, and the value that it was given.
#[derive(Clone, Copy)]
pub struct Given {
    pub reg: Reg,
    pub value: u32,
}

/// What a move gave.
#[derive(Clone, Copy)]
pub enum Moved {
    /// One register has a value now.
    One(Given),
    /// Two registers have each other's values now.
    Both(Given, Given),
}

/// A core's request for a line, by the line's number.
#[derive(Clone, Copy)]
pub struct LineRequest {
    pub request: Request,
    pub line: u8,
}

/// What a core's line is in.
///
/// (Primer on Memory Consistency and Cache Coherence, chapters 6 and 7.)
#[derive(Clone, Copy)]
pub enum LineState {
    /// A stable state; I where the core has no copy.
    Stable(State),
    /// Its core has asked for it, and its words haven't come in.
    Transient(Transient),
}

/// A core's line whose state changed, by the line's number.
#[derive(Clone, Copy)]
pub struct StateChange {
    pub core: Core,
    pub line: u8,
    pub before: LineState,
    pub after: LineState,
}

/// The core that a choice names.
pub fn core_of(choice: Choice) -> Core
    ensures { result.0 ≡ chosen choice }
{
    match choice {
        Choice::Step(core) | Choice::Drain(core) => core,
    }
}
