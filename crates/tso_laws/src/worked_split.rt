//! Worked runs on the split bus, on which the laws can be held against the eye: that the laws' premises are met, and what
//! fails without them.

ghost use Rattle.std.specs.Prelude.{ℕ, ◌*◌, ◌≡◌, true, false, [], ◌∷◌, length};
ghost use Rattle.tso_terms.specs.Litmus.{IsTest};
ghost use Rattle.tso_terms.specs.Thread.{entry};
ghost use Rattle.tso_terms.specs.Axioms.{IsTsoExecution};
ghost use Rattle.tso_terms.specs.SequentialConsistency.{KeepsAllOrder};
ghost use Rattle.tso_terms.specs.FlatMachine.{start, drain, registers_in};
ghost use Rattle.tso_terms.specs.EitherBus.{unheld, effect_on, run_on, choices_in, HitsFit};
ghost use Rattle.tso_terms.specs.Together.{put_together, together};
ghost use Rattle.tso_terms.specs.Examples.{loc_x, zeros, sb, sb_order, n6};
ghost use Rattle.basic_laws.specs.Types.{Split, R, W, Stalled};
ghost use Rattle.tso_terms.specs.declared.choice.Stall.TheVariants as stall;
ghost use Rattle.tso_laws.specs.Counting.{instructions};
ghost use Rattle.tso_laws.specs.Rounds.{CanBeCutIntoRounds};
ghost use Rattle.tso_laws.specs.BusRuns.{EndOn, made_for_bus, wait_for_bus};
ghost use Rattle.tso_laws.specs.WorkedSplitRuns.{missing, one, sb_waits, sb_asks, added_and_loaded, load_waits, load_waits_order};
ghost use Rattle.tso_laws.specs.WorkedSplitRuns.{added_and_loaded_elsewhere, load_between, load_between_run};
ghost use Rattle.tso_laws.specs.WorkedSplitRuns.{load_between_commits, load_between_order, load_forwards, drain_holding};
ghost use Rattle.tso_laws.specs.inner.WorkedSplitRuns.{added_and_stored, store_between, store_between_order};
ghost use Rattle.tso_laws.specs.WorkedSplitRuns.{exchanged, exchange_asks, exchange_order, stored, store_asks};
ghost use Rattle.tso_laws.specs.WorkedSplitRuns.{stored_twice, store_hits};
ghost use Rattle.tso_laws.specs.inner.WorkedSplitRuns.{added_alone, two_rounds, three_rounds};

use crate::bus_runs::ended_runs_on_either_bus_are_executions;

/// Worked runs on the split bus.
pub fn worked_split_runs()
    ensures sb_waits_used { (run_on Split sb 4 sb_waits).run.used ≡ 6 }
    ensures sb_waits_stalled { (run_on Split sb 4 sb_waits).run.stalled ≡ 3 }
    ensures sb_waits_ended { (run_on Split sb 4 sb_waits).run.ended ≡ false }
    ensures sb_waits_for_bus { made_for_bus Split sb 4 (unheld (start sb)) sb_waits ≡ 4 }
    ensures sb_waits_that_wait { wait_for_bus Split sb 4 (unheld (start sb)) sb_waits ≡ 3 }
    ensures sb_asks_order { (run_on Split sb 4 sb_asks).run.commits ≡ sb_order }
    ensures sb_asks_used { (run_on Split sb 4 sb_asks).run.used ≡ 10 }
    ensures sb_asks_stalled { (run_on Split sb 4 sb_asks).run.stalled ≡ 0 }
    ensures sb_asks_for_bus { made_for_bus Split sb 4 (unheld (start sb)) sb_asks ≡ 4 }
    ensures sb_asks_that_wait { wait_for_bus Split sb 4 (unheld (start sb)) sb_asks ≡ 0 }
    ensures sb_asks_ended { (run_on Split sb 4 sb_asks).run.ended ≡ true }
    ensures load_waits_commits { (run_on Split added_and_loaded 4 load_waits).run.commits ≡ load_waits_order }
    ensures load_waits_used { (run_on Split added_and_loaded 4 load_waits).run.used ≡ 6 }
    ensures load_waits_stalled { (run_on Split added_and_loaded 4 load_waits).run.stalled ≡ 1 }
    ensures load_waits_ended { (run_on Split added_and_loaded 4 load_waits).run.ended ≡ true }
    ensures load_waits_memory { (run_on Split added_and_loaded 4 load_waits).run.state.memory ≡ 1 ∷ (0 ∷ []) }
    ensures load_waits_registers { registers_in (run_on Split added_and_loaded 4 load_waits).run.state ≡ zeros ∷ (one ∷ []) }
    ensures load_between_is_committed { load_between_run.run.commits ≡ load_between_commits }
    ensures load_between_put_together { (together load_between_run.run).commits ≡ load_between_order }
    ensures load_between_used { load_between_run.run.used ≡ 6 }
    ensures load_between_stalled { load_between_run.run.stalled ≡ 0 }
    ensures between_for_bus { made_for_bus Split added_and_loaded_elsewhere 4 (unheld (start added_and_loaded_elsewhere)) load_between ≡ 3 }
    ensures load_forwards_at_once { (run_on Split n6 4 load_forwards).run.commits ≡ entry 0 1 R loc_x 1 ∷ [] }
    ensures load_forwards_stalled { (run_on Split n6 4 load_forwards).run.stalled ≡ 0 }
    ensures empty_comes_before_bus { (effect_on Split n6 4 drain_holding (missing (drain 0))).effect.outcome ≡ Stalled stall.Empty }
    ensures exchange_asks_order { (run_on Split exchanged 4 exchange_asks).run.commits ≡ exchange_order }
    ensures exchange_asks_used { (run_on Split exchanged 4 exchange_asks).run.used ≡ 6 }
    ensures exchange_asks_stalled { (run_on Split exchanged 4 exchange_asks).run.stalled ≡ 0 }
    ensures unbuffered_order { (run_on Split stored 0 store_asks).run.commits ≡ entry 0 0 W loc_x 1 ∷ [] }
    ensures unbuffered_used { (run_on Split stored 0 store_asks).run.used ≡ 2 }
    ensures unbuffered_stalled { (run_on Split stored 0 store_asks).run.stalled ≡ 0 }
    ensures unbuffered_hits { (run_on Split stored_twice 0 store_hits).run.commits ≡ entry 0 0 W loc_x 1 ∷ (entry 0 1 W loc_x 2 ∷ []) }
{}

/// The laws' premises are met.
pub fn split_premises_are_met()
    ensures test { IsTest added_and_loaded_elsewhere }
    ensures ended { EndOn Split added_and_loaded_elsewhere 4 load_between }
    ensures fit { HitsFit Split added_and_loaded_elsewhere 4 (unheld (start added_and_loaded_elsewhere)) load_between }
    ensures execution { IsTsoExecution added_and_loaded_elsewhere load_between_order }
    ensures unbuffered { EndOn Split stored 0 store_asks }
    ensures rounds { CanBeCutIntoRounds (length added_alone.programs) (3 * instructions added_alone.programs) (choices_in three_rounds) }
{
    ended_runs_on_either_bus_are_executions();
}

/// What fails without the laws' premises.
///
/// Answers that the caches may not give: a write that is said to hit between the two parts of a
/// locked instruction, so that its read has an old value. Not ended: a run of no choices is no
/// execution. One round less: a locked instruction asks, reads and writes. A buffer: both loads of
/// store buffering pass their stores.
pub fn split_laws_need_their_premises()
    ensures store_between_ends { EndOn Split added_and_stored 1 store_between }
    ensures store_between_is { put_together (run_on Split added_and_stored 1 store_between).run.commits ≡ store_between_order }
    ensures store_between_is_refuted { IsTsoExecution added_and_stored store_between_order → ⊥ }
    ensures store_between_does_not_fit { HitsFit Split added_and_stored 1 (unheld (start added_and_stored)) store_between → ⊥ }
    ensures unended_is_refuted { IsTsoExecution sb (put_together (run_on Split sb 4 []).run.commits) → ⊥ }
    ensures two_rounds_are_cut { CanBeCutIntoRounds (length added_alone.programs) 2 (choices_in two_rounds) }
    ensures two_rounds_are_not_enough { (run_on Split added_alone 1 two_rounds).run.ended ≡ false }
    ensures buffered_is_not_sequential { KeepsAllOrder (put_together (run_on Split sb 4 sb_asks).run.commits) → ⊥ }
{}
