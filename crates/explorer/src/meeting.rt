//! Accesses that meet: of two to one location of which one writes, the order matters. Whether a core may still make one that
//! meets another core's access says whether that one may go first.
ghost use Rattle.std.specs.Prelude.{◌≡◌, true};
ghost use Rattle.tso_laws.specs.Stubborn.{HasPending, HasNonePending};
ghost use Rattle.flat_machine.specs.State.{core_of_processor};

use flat_machine::Processor;
use tso_terms::{Kind, Loc};

/// The accesses that meet one to this location: those that write it and, where it writes itself, those that load it.
#[derive(Clone, Copy)]
pub struct Meeting {
    pub loc: Loc,
    /// Whether loads count.
    pub loads: bool,
}

/// Whether nothing that the core has pending is at the location.
pub fn has_none_pending(processor: &Processor, loc: Loc) -> bool
    ensures { result ≡ true → HasNonePending loc.0 (core_of_processor processor.now) }
{
    for entry in &processor.pending {
        if entry.loc.0 == loc.0 {
            return false;
        }
    }
    true
}

/// Whether the core has a store to the location pending.
pub fn has_pending(processor: &Processor, loc: Loc) -> bool
    ensures { result ≡ true → HasPending loc.0 (core_of_processor processor.now) }
{
    for entry in &processor.pending {
        if matches!(entry.kind, Kind::W | Kind::LW) && entry.loc.0 == loc.0 {
            return true;
        }
    }
    false
}
