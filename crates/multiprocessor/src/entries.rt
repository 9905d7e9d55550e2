//! Entries that a core commits: what a step or a drain puts into memory order. All steps make theirs here, with the core
//! and the place in its program that they came from.
ghost use Rattle.std.specs.Prelude.{◌≡◌};
ghost use Rattle.tso_terms.specs.Thread.{entry};
ghost use Rattle.multiprocessor.specs.Cores.{store_of};

use store_buffer::Pending;
use tso_terms::{Core, Entry, Kind, Loc};

/// The entry of this kind that a core commits at this place of its program.
#[inline(always)]
pub fn entry(core: Core, place: u8, kind: Kind, loc: Loc, value: u32) -> Entry
    ensures { result ≡ entry core.0 place kind loc value }
{
    Entry {
        core,
        place,
        kind,
        loc,
        value,
    }
}

/// The entry that a pending store of a core commits when it goes to memory.
#[inline(always)]
pub fn store_entry(core: Core, store: Pending) -> Entry
    ensures { result ≡ store_of core.0 store }
{
    entry(core, store.place, Kind::W, store.loc, store.value)
}
