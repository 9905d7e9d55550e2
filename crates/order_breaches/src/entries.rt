//! Tests on one entry or two: reads, writes, and what must come before what. The one pair that may change places is a
//! plain store and a later plain load. (Primer, chapter 4.)
ghost use Rattle.std.specs.Prelude.{◌≡◌, ◌≤◌, ◌↔◌, IsTrue};
ghost use Rattle.tso_terms.specs.ProgramOrder as program_order;
ghost use Rattle.tso_terms.specs.ProgramOrder.{IsStorePart};
ghost use Rattle.order_breaches.specs.Entries as entries;
ghost use Rattle.order_breaches.specs.AxiomBreaches as axioms;
ghost use Rattle.basic_laws.specs.Ranks as ranks;

use tso_terms::{Entry, Kind};

/// Whether e and x differ at most in the value that they read or write. A fence does neither, so
/// its value counts.
pub fn is_same_but_value(e: &Entry, x: &Entry) -> bool
    ensures { result ≡ entries.same_but_value e.now x.now }
{
    if x.core != e.core || x.place != e.place || x.kind != e.kind {
        return false;
    }
    x.loc == e.loc && (x.kind != Kind::F || x.value == e.value)
}

/// Whether x is a load, or the load part of a locked instruction.
pub fn is_read(x: &Entry) -> bool
    ensures { result ≡ program_order.is_read x.now }
{
    matches!(x.kind, Kind::R | Kind::LR)
}

/// Whether x is a store, or the store part of a locked instruction.
pub fn is_write(x: &Entry) -> bool
    ensures { result ≡ program_order.is_write x.now }
{
    matches!(x.kind, Kind::W | Kind::LW)
}

/// Whether y is the store part of the locked instruction whose load part is x.
pub fn is_store_part(x: &Entry, y: &Entry) -> bool
    ensures { IsTrue result ↔ IsStorePart x.now y.now }
{
    y.core == x.core && y.place == x.place && y.kind == Kind::LW
}

/// Where an entry is among those of its program: the store part of a locked instruction
/// after its load part.
pub fn rank(x: &Entry) -> u32
    ensures value { result ≡ ranks.rank x.now }
    ensures small { result ≤ 511 }
{
    let place = u32::from(x.place);
    place + place + u32::from(x.kind == Kind::LW)
}

/// Whether a must come before b: it does in their program, and isn't a plain store that a plain
/// load b may pass.
pub fn must_stand_before(a: &Entry, b: &Entry) -> bool
    ensures { result ≡ axioms.must_stand_before a.now b.now }
{
    if a.core != b.core {
        return false;
    }
    // A plain load may pass a plain store.
    if a.kind == Kind::W && b.kind == Kind::R {
        return false;
    }
    if a.place < b.place {
        return true;
    }
    // Of one place the store part of a locked instruction comes after the load part.
    a.place == b.place && b.kind == Kind::LW && a.kind != Kind::LW
}
