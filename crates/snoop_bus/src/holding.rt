//! Who holds the split bus, and how far the access is. One action holds it at a time, from its request to its answer; of a
//! locked instruction, until it has written. (Primer, chapter 7.)

ghost use Rattle.std.specs.Prelude.{◌≡◌, IfSome};
ghost use Rattle.snoop_bus.specs.Bus.{holder_of};
ghost use Rattle.snoop_bus.specs.inner.Accesses.{StandsAlone};
ghost use Rattle.snoop_bus.specs.inner.Held.{request_in, held_by};

use crate::access::BusRequest;
use crate::bus::SnoopBus;
use cache_set::Line;
use protocol_tables::{Protocol, Transient};
use tso_terms::{Core, Loc};

/// How far an action is that holds the bus.
#[derive(Clone, Copy)]
pub enum Stage {
    /// A load was asked for.
    Load,
    /// A write access was asked for.
    Write,
    /// A locked instruction has read the word, and is to write it.
    Locked,
}

/// Whose action holds the bus: a core's, at a location.
#[derive(Clone, Copy)]
pub struct BusAction {
    pub core: Core,
    pub loc: Loc,
    pub stage: Stage,
}

/// A request that the other caches have seen, while its line isn't yet filled.
#[derive(Clone, Copy)]
pub struct Transaction {
    /// What the line is in meanwhile.
    pub transient: Transient,
    /// The words that the bus keeps, in the state in which the line is to be filled.
    pub copy: Line,
    /// The request, and what the caches had of the line.
    pub request: BusRequest,
}

/// The action that holds the bus, the line of its location, and its transaction; a write access that hits
/// has none.
#[derive(Clone, Copy)]
pub struct HeldBus {
    pub holder: BusAction,
    pub line: u8,
    pub transaction: Option<Transaction>,
}

/// A core's action at a location, at this stage, with its line and its transaction.
pub fn held_at(
    core: Core,
    loc: Loc,
    stage: Stage,
    line: u8,
    transaction: Option<Transaction>,
) -> HeldBus
    ensures { result ≡ held_by core loc stage line transaction }
{
    HeldBus {
        holder: BusAction { core, loc, stage },
        line,
        transaction,
    }
}

/// The request of a transaction, if there is one.
pub fn request_in(transaction: Option<Transaction>) -> Option<BusRequest>
    ensures { result ≡ request_in transaction }
{
    match transaction {
        None => None,
        Some(transaction) => Some(transaction.request),
    }
}

impl<P: Protocol> SnoopBus<P> {
    /// Whose action holds the bus, and how far it is. While that is a write access or a locked instruction no other
    /// core has its line, and between the two parts of a locked instruction its core has it in M.
    pub fn who_holds(&self) -> Option<BusAction>
        ensures value { result ≡ holder_of self.now }
        ensures alone { IfSome (holder_of self.now) (StandsAlone self.now) }
    {
        match self.held {
            None => None,
            Some(held) => Some(held.holder),
        }
    }
}
