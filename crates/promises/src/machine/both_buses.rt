//! What the laws of both buses say, field by field: what is told beforehand, whole accesses and halves, and runs beside the flat
//! machine's. (Primer, chapters 6 and 7.)

ghost use Rattle.std.specs.Prelude.{◌++◌, ◌+◌, ◌↔◌, ◌≡◌, ◌≢◌, List, Some, false, length, take, true, ℕ};
ghost use Rattle.machine_core.specs.Hits.{IsHit};
ghost use Rattle.machine_core.specs.Owners.{IsOwner};
ghost use Rattle.machine_core.specs.Uses.{IsHitUse, IsUseFor, use_at};
ghost use Rattle.multiprocessor.specs.Caches.{Caches, hits_by};
ghost use Rattle.protocol_tables.specs.Laws.{WritesInPlace};
ghost use Rattle.protocol_tables.specs.Tables.{Table};
ghost use Rattle.protocol_tables.specs.declared.requests.Request.TheVariants.{GetM, GetS};
ghost use Rattle.protocol_tables.specs.declared.state.State.TheVariants.{I};
ghost use Rattle.snoop_bus.specs.Accesses.{LoadsAt, WritesAt, contents_of, load_of, memory_of, would_hit, write_of};
ghost use Rattle.snoop_bus.specs.Asks.{hits, in_halves, tag_at};
ghost use Rattle.snoop_bus.specs.Bus.{BusModel, IsCoherent, IsFree, counted_copies, words_of};
ghost use Rattle.cache_set.specs.CacheTags.{TagSets};
ghost use Rattle.snoop_bus.specs.Rows.{table_of_rows};
ghost use Rattle.snoop_bus.specs.WholeAccesses.{LoadsInHalves, WritesInHalves};
ghost use Rattle.snoop_bus.specs.declared.access.AccessReport.{AccessReport};
ghost use Rattle.tso_laws.specs.Between.{ArePaired, IsApart};
ghost use Rattle.tso_laws.specs.BusChoices.{IsPossibleOn};
ghost use Rattle.tso_laws.specs.BusRuns.{IsFlatRun, made_for_bus, wait_for_bus, waiting};
ghost use Rattle.tso_laws.specs.BusSoFar.{SoFarOn};
ghost use Rattle.tso_laws.specs.Holders.{HolderFits};
ghost use Rattle.tso_laws.specs.Choices.{IsPossible};
ghost use Rattle.tso_terms.specs.EitherBus.{BusRun, BusState, HitsFit, choices_in, run_on, unheld};
ghost use Rattle.tso_terms.specs.FlatMachine.{chosen, start};
ghost use Rattle.tso_terms.specs.Litmus.{Litmus};
ghost use Rattle.tso_terms.specs.MemoryAccess.{access_of};
ghost use Rattle.tso_terms.specs.Runs.{CoresExist, has_ended, run};
ghost use Rattle.tso_terms.specs.SplitMachine.{Attempt, Free};
ghost use Rattle.tso_terms.specs.Together.{put_together};
ghost use Rattle.basic_laws.specs.Types.{Bus, Atomic, Choice, Entry, LR, LW, Core, Loc};
ghost use Rattle.tso_terms.specs.declared.choice.Bus as kind;

use machine_core::bus_laws::{
    accesses_are_what_is_counted, hits_are_told_beforehand, one_owner_at_most,
};
use snoop_bus::whole_accesses::halves_leave_what_whole_accesses_do;
use tso_laws::{atomic_runs_are_flat_runs, what_holds_so_far_on_either_bus};

/// A load and a write access are hits exactly where `would_hit` says so, whole and in halves.
pub fn hits_are_those_that_are_told()
    ensures loads { (b : BusModel) (core loc : ℕ) → IsHit (load_of b core loc) ↔ (would_hit b core loc false ≡ true) }
    ensures writes { (b : BusModel) (core loc : ℕ) → IsHit (write_of b core loc) ↔ (would_hit b core loc true ≡ true) }
    ensures loads_in_halves { (t : Table) (core line : ℕ) (caches : List TagSets) → hits t core line false caches ≡ false
        → IsHit (in_halves t GetS core line caches) → ⊥ }
    ensures writes_in_halves { (t : Table) (core line : ℕ) (caches : List TagSets) → WritesInPlace t.written
        → tag_at core line caches ≢ Some I → IsHit (in_halves t GetM core line caches) ↔ (hits t core line true caches ≡ true) }
{
    hits_are_told_beforehand();
}

/// Where copies are coherent, no two cores have a dirty one of a line.
pub fn no_line_has_two_owners()
    ensures { (b : BusModel) (line i j : ℕ) → IsCoherent b → IsOwner (counted_copies b) line i → IsOwner (counted_copies b) line j
        → i ≢ j → ⊥ }
{
    one_owner_at_most();
}

/// What is counted of a choice is its access, a hit exactly where the caches answer so.
pub fn a_use_of_the_caches_is_an_access()
    ensures uses { (bus : kind.Bus) (t : Litmus) (depth : ℕ) (commits : List Entry) (state : BusState) (c : Caches) (choice : Choice)
        → IsPossibleOn bus t depth commits state
        → IsUseFor c (chosen choice) (access_of t depth state.flat choice) (use_at t depth state.flat c choice) }
    ensures answers { (bus : kind.Bus) (t : Litmus) (depth : ℕ) (commits : List Entry) (state : BusState) (c : Caches) (choice : Choice)
        → IsPossibleOn bus t depth commits state
        → IsHitUse (use_at t depth state.flat c choice).how ↔ (hits_by c (chosen choice) (access_of t depth state.flat choice) ≡ true) }
{
    accesses_are_what_is_counted();
}

/// A load in halves answers the same word, and it and a write access do the same and leave the same words, memory, lines and states.
pub fn halves_leave_the_words_and_lines_of_whole_accesses()
    ensures load_word { (old whole between new : BusModel) (core : Core) (loc : Loc) (word other : ℕ) (a b : AccessReport)
        → would_hit old core.0 loc.0 false ≡ false → LoadsAt old whole core.0 loc.0 word a
        → LoadsInHalves old between new core loc other b → word ≡ other }
    ensures load_report { (old whole between new : BusModel) (core : Core) (loc : Loc) (word other : ℕ) (a b : AccessReport)
        → would_hit old core.0 loc.0 false ≡ false → LoadsAt old whole core.0 loc.0 word a
        → LoadsInHalves old between new core loc other b → a ≡ b }
    ensures load_words { (old whole between new : BusModel) (core : Core) (loc : Loc) (word other : ℕ) (a b : AccessReport)
        → would_hit old core.0 loc.0 false ≡ false → LoadsAt old whole core.0 loc.0 word a
        → LoadsInHalves old between new core loc other b → words_of whole ≡ words_of new }
    ensures load_memory { (old whole between new : BusModel) (core : Core) (loc : Loc) (word other : ℕ) (a b : AccessReport)
        → would_hit old core.0 loc.0 false ≡ false → LoadsAt old whole core.0 loc.0 word a
        → LoadsInHalves old between new core loc other b → memory_of whole ≡ memory_of new }
    ensures load_contents { (old whole between new : BusModel) (core : Core) (loc : Loc) (word other : ℕ) (a b : AccessReport)
        → would_hit old core.0 loc.0 false ≡ false → LoadsAt old whole core.0 loc.0 word a
        → LoadsInHalves old between new core loc other b → contents_of whole ≡ contents_of new }
    ensures write_report { (old whole between new : BusModel) (core : Core) (loc : Loc) (word : ℕ) (a b : AccessReport)
        → WritesInPlace (table_of_rows old.rows).written → IsFree old → IsCoherent old → WritesAt old whole core.0 loc.0 word a
        → WritesInHalves old between new core loc word b → a ≡ b }
    ensures write_words { (old whole between new : BusModel) (core : Core) (loc : Loc) (word : ℕ) (a b : AccessReport)
        → WritesInPlace (table_of_rows old.rows).written → IsFree old → IsCoherent old → WritesAt old whole core.0 loc.0 word a
        → WritesInHalves old between new core loc word b → words_of whole ≡ words_of new }
    ensures write_memory { (old whole between new : BusModel) (core : Core) (loc : Loc) (word : ℕ) (a b : AccessReport)
        → WritesInPlace (table_of_rows old.rows).written → IsFree old → IsCoherent old → WritesAt old whole core.0 loc.0 word a
        → WritesInHalves old between new core loc word b → memory_of whole ≡ memory_of new }
    ensures write_contents { (old whole between new : BusModel) (core : Core) (loc : Loc) (word : ℕ) (a b : AccessReport)
        → WritesInPlace (table_of_rows old.rows).written → IsFree old → IsCoherent old → WritesAt old whole core.0 loc.0 word a
        → WritesInHalves old between new core loc word b → contents_of whole ≡ contents_of new }
{
    halves_leave_what_whole_accesses_do();
}

/// On the atomic bus a run is the flat machine's, and nobody holds the bus after it.
pub fn atomic_runs_hold_no_bus()
    ensures atomic { (t : Litmus) (depth : ℕ) (attempts : List Attempt)
        → (run_on Atomic t depth attempts).run ≡ run t depth (choices_in attempts) }
    ensures free { (t : Litmus) (depth : ℕ) (attempts : List Attempt) → (run_on Atomic t depth attempts).holder ≡ Free }
    ensures fit { (t : Litmus) (depth : ℕ) (attempts : List Attempt) → HitsFit Atomic t depth (unheld (start t)) attempts }
    ensures together { (t : Litmus) (depth : ℕ) (choices : List Choice)
        → put_together (run t depth choices).commits ≡ (run t depth choices).commits }
{
    atomic_runs_are_flat_runs();
}

/// What holds so far on either bus; and nobody holds the bus once the test has ended.
pub fn what_holds_on_either_bus()
    ensures so_far { (bus : Bus) (t : Litmus) (depth : ℕ) (commits : List Entry) (state : BusState)
        → IsPossibleOn bus t depth commits state → SoFarOn bus t depth commits state }
    ensures free { (bus : Bus) (t : Litmus) (depth : ℕ) (commits : List Entry) (state : BusState)
        → IsPossibleOn bus t depth commits state → has_ended t state.flat ≡ true → state.holder ≡ Free }
{
    what_holds_so_far_on_either_bus();
}

/// The flat machine comes to the same state, and commits the same with the parts of locked instructions put together.
pub fn the_flat_machine_follows()
    ensures possible { (bus : Bus) (t : Litmus) (depth : ℕ) (commits : List Entry) (state : BusState)
        (said : SoFarOn bus t depth commits state) → IsPossible t depth said.flat_commits state.flat }
    ensures together { (bus : Bus) (t : Litmus) (depth : ℕ) (commits : List Entry) (state : BusState)
        (said : SoFarOn bus t depth commits state) → said.flat_commits ++ waiting state.holder ≡ put_together commits }
    ensures pairs { (bus : Bus) (t : Litmus) (depth : ℕ) (commits : List Entry) (state : BusState)
        → SoFarOn bus t depth commits state → ArePaired commits state.holder }
    ensures holder { (bus : Bus) (t : Litmus) (depth : ℕ) (commits : List Entry) (state : BusState)
        → SoFarOn bus t depth commits state → HolderFits bus t depth state.flat state.holder }
{}

/// Each run has one of the flat machine that uses and stalls the same choices, but for those made for the bus alone.
pub fn a_run_on_either_bus_is_a_flat_run()
    ensures cores { (bus : Bus) (t : Litmus) (depth : ℕ) (attempts : List Attempt) (r : BusRun) (said : IsFlatRun bus t depth attempts r)
        → CoresExist (length t.programs) (choices_in attempts) → CoresExist (length t.programs) said.choices }
    ensures ended { (bus : Bus) (t : Litmus) (depth : ℕ) (attempts : List Attempt) (r : BusRun) (said : IsFlatRun bus t depth attempts r)
        → (run t depth said.choices).ended ≡ r.run.ended }
    ensures state { (bus : Bus) (t : Litmus) (depth : ℕ) (attempts : List Attempt) (r : BusRun) (said : IsFlatRun bus t depth attempts r)
        → (run t depth said.choices).state ≡ r.run.state }
    ensures commits { (bus : Bus) (t : Litmus) (depth : ℕ) (attempts : List Attempt) (r : BusRun) (said : IsFlatRun bus t depth attempts r)
        → (run t depth said.choices).commits ++ waiting r.holder ≡ put_together r.run.commits }
    ensures used { (bus : Bus) (t : Litmus) (depth : ℕ) (attempts : List Attempt) (r : BusRun) (said : IsFlatRun bus t depth attempts r)
        → (run t depth said.choices).used + made_for_bus bus t depth (unheld (start t)) (take r.run.used attempts) ≡ r.run.used }
    ensures stalled { (bus : Bus) (t : Litmus) (depth : ℕ) (attempts : List Attempt) (r : BusRun) (said : IsFlatRun bus t depth attempts r)
        → (run t depth said.choices).stalled + wait_for_bus bus t depth (unheld (start t))
        (take r.run.used attempts) ≡ r.run.stalled }
    ensures unused { (bus : Bus) (t : Litmus) (depth : ℕ) (attempts : List Attempt) (r : BusRun) (said : IsFlatRun bus t depth attempts r)
        → (run t depth said.choices).unused ≡ 0 }
{}

/// Between the parts of a locked instruction other cores alone commit, and no part of another one.
pub fn between_locked_parts_stands_no_other()
    ensures core { (x e : Entry) → IsApart x e → e.core.0 ≢ x.core.0 }
    ensures no_load_part { (x e : Entry) → IsApart x e → e.kind ≢ LR }
    ensures no_store_part { (x e : Entry) → IsApart x e → e.kind ≢ LW }
{}
