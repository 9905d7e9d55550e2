//! What a protocol is: its table, and the laws that it keeps. A table that breaks a law, such as one that keeps a copy on
//! another core's GetM, has no proof. (Primer, chapters 6 and 7.)

ghost use Rattle.std.specs.Prelude.{◌≡◌, List, ℕ};
ghost use Rattle.protocol_tables.specs.Tables.{Table};
ghost use Rattle.protocol_tables.specs.inner.Laws.{FillsExclusiveOnlyAlone, GivesUp, Shares, CleansByMemory, Supplies};
ghost use Rattle.protocol_tables.specs.Laws.{WritesInPlace};
ghost use Rattle.protocol_tables.specs.inner.Laws.{WritesBackDirty};

use crate::state::{Snoop, State};

/// A snooping protocol: a table of what each state becomes, which keeps the laws on which caches
/// over one bus rest.
///
/// Each function answers for all five states, also for those that the protocol never reaches.
/// An `impl` gives its table and proves each law of it, by a search that goes through the states;
/// where the table breaks a law there is no proof, and the check names that law.
///
/// (Primer on Memory Consistency and Cache Coherence, chapters 6 and 7.)
pub trait Protocol: Drop {
    ghost table: { Self → Table };

    ghost called: { Self → List ℕ };

    /// The state that a load fills its line in; `shared` says that another cache holds the line.
    fn filled(&self, shared: bool) -> State
        ensures { result ≡ (table self.now).filled shared };

    /// What another core's GetS, its request to read the line, does to a copy in this state.
    fn on_get_s(&self, state: State) -> Snoop
        ensures { result ≡ (table self.now).on_get_s state };

    /// What another core's GetM, its request to write the line, does to a copy in this state.
    fn on_get_m(&self, state: State) -> Snoop
        ensures { result ≡ (table self.now).on_get_m state };

    /// The state that a copy ends in where its own core writes it without the bus; `None` where the
    /// bus has to be asked.
    fn written(&self, state: State) -> Option<State>
        ensures { result ≡ (table self.now).written state };

    /// Whether a copy in this state is written to memory when it is replaced.
    fn evicts_dirty(&self, state: State) -> bool
        ensures { result ≡ (table self.now).evicts_dirty state };

    /// The protocol's name, in small letters.
    fn name(&self) -> &str
        ensures { result.now ≡ called self.now };

    ghost fills_exclusive_only_alone: { (p : Self) → FillsExclusiveOnlyAlone (table p).filled };

    ghost shares: { (p : Self) → Shares (table p).on_get_s };

    ghost cleans_by_memory: { (p : Self) → CleansByMemory (table p).on_get_s };

    ghost supplies_to_readers: { (p : Self) → Supplies (table p).on_get_s };

    ghost supplies_to_writers: { (p : Self) → Supplies (table p).on_get_m };

    ghost gives_up: { (p : Self) → GivesUp (table p).on_get_m };

    ghost writes_in_place: { (p : Self) → WritesInPlace (table p).written };

    ghost writes_back_dirty: { (p : Self) → WritesBackDirty (table p).evicts_dirty };
}
