//! Memory when a test has ended. Its own words may be stale while a cache has a dirty line; so each dirty line is written back
//! before memory is read.

ghost use Rattle.std.specs.Prelude.{◌≡◌, ◌≤◌, IfOk, length, take};
ghost use Rattle.snoop_bus.specs.Bus.{words_of, IsFree, IsSameMachine};

use protocol_tables::Protocol;
use snoop_bus::SnoopBus;
use std::alloc::Global;
use tso_terms::{Loc, NoMemory};

/// Memory's own words of the first so many locations, once each dirty line has gone there.
///
/// Errors: out of memory only.
pub fn settled_memory<P: Protocol>(
    alloc: Global,
    bus: &mut SnoopBus<P>,
    locations: u8,
) -> Result<Vec<u32>, NoMemory>
    requires free { IsFree bus.old }
    requires within { locations ≤ length (words_of bus.old) }

    ensures memory { IfOk result (λ memory. memory.items ≡ take locations (words_of bus.old)) }
    ensures words { words_of bus.new ≡ words_of bus.old }
    ensures machine { IsSameMachine bus.old bus.new }
{
    bus.settle();
    let mut memory = Vec::new(alloc);
    for location in 0..locations {
        memory.push(bus.memory_word(Loc(location)))?;
    }
    Ok(memory)
}
