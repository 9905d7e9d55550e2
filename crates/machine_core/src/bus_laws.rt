//! Laws of the caches' bus, and of what a machine has to do with it.
//!
//! Nothing here computes. Each public function has an empty body, and its contract is a law on the definitions of
//! `snoop_bus` and `multiprocessor`: that what is told beforehand of an access is what the access then is, that a
//! line has one dirty owner at most, and that what a choice asks the caches for is what is counted of it.
//!
//! Source: the Primer, chapters 2, 6 and 7.

ghost use Rattle.machine_core.specs.Hits.{HitsAreToldBeforehand};
ghost use Rattle.machine_core.specs.Owners.{OneOwnerAtMost};
ghost use Rattle.machine_core.specs.Uses.{AccessesAreWhatIsCounted};

use snoop_bus::whole_accesses::whole_accesses_are_two_halves;
use tso_laws::pending_stores_are_own;

/// An access is a hit, by what it makes of the contents, exactly where `would_hit` says so beforehand: a
/// load, a write access, and either of them asked for and completed.
pub fn hits_are_told_beforehand()
    ensures { HitsAreToldBeforehand }
{
    whole_accesses_are_two_halves();
}

/// No two cores have a dirty copy of one line, in M or in O: where copies are coherent, at most one core
/// owns a line's words.
pub fn one_owner_at_most()
    ensures { OneOwnerAtMost }
{}

/// What is counted of a choice of the flat machine is the access that the choice makes: none where it makes
/// none, a load for a read, and one write access for a write and for both parts of a locked instruction. The
/// caches answer that it hits exactly where that is a hit.
pub fn accesses_are_what_is_counted()
    ensures { AccessesAreWhatIsCounted }
{
    pending_stores_are_own();
}
