//! What each read of a test can read from and return, where some facts of a candidate are given: laws on the candidates that the
//! published models allow, by which refutations stay short.
//!
//! Nothing here computes. Each public function has no code of its own, and its contract is a law on the definitions.
#![tactic(auto)]

ghost use Rattle.possible_reads.specs.Laws.{ReadingsArePossible, WrittenValuesArePossible, KnownOrderIsRight, SomeWriteComesLast};
ghost use Rattle.possible_reads.specs.Laws.{LastWordsArePossible, LastRegistersArePossible, TruthsAreThoseLeft, ClaimsGiveFacts};
ghost use Rattle.possible_reads.specs.Laws.{SomeCaseIsMet};
ghost use Rattle.possible_reads.specs.Facts.{given_by};
ghost use Rattle.possible_reads.specs.Possible.{readings, values_read, least_read, sources_read, words_left};
ghost use Rattle.possible_reads.specs.Worked.{both_zero, load_part, store_part, taken, counter_of_three, adds_last, one_lost, load_of_y};
ghost use Rattle.possible_reads.specs.Worked.{load_of_x, load_then_store, compared_lock, references, sum_stored, both_add, load_after};
ghost use Rattle.possible_reads.specs.Worked.{one_loaded, one_left};
ghost use Rattle.std.specs.Prelude.{◌≡◌, true, [], ◌∷◌, Some, None};
ghost use Rattle.tso_terms.specs.Thread.{entry};
ghost use Rattle.tso_terms.specs.Examples.{sb, loc_x};
ghost use Rattle.basic_laws.specs.Types.{R};
ghost use Rattle.locked_laws.specs.WorkedLocks.{lock};

use locked_laws::{no_two_read_one_source, reads_add_up, words_add_up};

/// In each allowed candidate that meets the facts, each read has its source and its value among those that are possible, and returns no
/// less than the least, after any number of rounds.
pub fn readings_are_possible()
    ensures { ReadingsArePossible }
{
    no_two_read_one_source();
    reads_add_up();
}

/// What each write writes is among what it can write.
pub fn written_values_are_possible()
    ensures { WrittenValuesArePossible }
{
    no_two_read_one_source();
    reads_add_up();
}

/// Of two writes the one that is known to come first comes before the other in coherence.
pub fn known_order_is_right()
    ensures { KnownOrderIsRight }
{
    no_two_read_one_source();
    reads_add_up();
}

/// Where a location is written, its last write in coherence is among those that can be the last one.
pub fn some_write_comes_last()
    ensures { SomeWriteComesLast }
{
    no_two_read_one_source();
    reads_add_up();
}

/// What each location holds at the end is among what it can hold.
pub fn last_words_are_possible()
    ensures { LastWordsArePossible }
{
    no_two_read_one_source();
    words_add_up();
    reads_add_up();
}

/// What each register holds at the end is among what it can hold.
pub fn last_registers_are_possible()
    ensures { LastRegistersArePossible }
{
    no_two_read_one_source();
    words_add_up();
    reads_add_up();
}

/// Where its names exist, the truth of a proposition at the end of a candidate is its truth in the state that the candidate leaves.
pub fn truths_are_those_left()
    ensures { TruthsAreThoseLeft }
{}

/// Where a proposition has a truth at the end of a candidate, the candidate meets the facts that this gives.
pub fn claims_give_facts()
    ensures { ClaimsGiveFacts }
{}

/// And it meets the facts of one of its cases.
pub fn some_case_is_met()
    ensures { SomeCaseIsMet }
{}

/// Where one core has taken the lock, the other one reads what that core wrote; both take it in no candidate, since the read of each is
/// left no source. Of three additions of 1 to a counter each finds 0, 1 or 2, the last one 2, and 3 is left, never 2. In store buffering
/// the loads that both read 0 read the initial words. A load doesn't read what its own core stores later. Of two compare and exchanges
/// one alone finds 0. Of two references that are dropped the last word is 0. A sum is modulo 2^32. A load that comes after an addition
/// of 2, and to whose location another core adds 2, returns any value, but at least 2; so it doesn't return 1, which isn't left at the
/// end either. Where the sum of all could wrap, nothing is known of the least.
pub fn worked_readings()
    ensures turn { sources_read lock (readings lock taken) (load_part 1) ≡ Some (store_part 0) ∷ [] }
    ensures exclusion { sources_read lock (readings lock (given_by lock both_zero true)) (load_part 0) ≡ [] }
    ensures counts { values_read (readings counter_of_three []) (load_part 0) ≡ Some (0 ∷ (1 ∷ (2 ∷ []))) }
    ensures counts_last { values_read (readings counter_of_three adds_last) (load_part 0) ≡ Some (2 ∷ []) }
    ensures counted { words_left counter_of_three [] (readings counter_of_three []) 0 ≡ Some (3 ∷ []) }
    ensures none_lost { words_left counter_of_three one_lost (readings counter_of_three one_lost) 0 ≡ Some [] }
    ensures buffered { (sources_read sb (readings sb (given_by sb both_zero true)) load_of_y ≡ None ∷ [])
        × (sources_read sb (readings sb (given_by sb both_zero true)) load_of_x ≡ None ∷ []) }
    ensures later { sources_read load_then_store (readings load_then_store []) (entry 0 0 R loc_x 0) ≡ None ∷ [] }
    ensures compared { sources_read compared_lock (readings compared_lock (given_by compared_lock both_zero true)) (load_part 0) ≡ [] }
    ensures dropped { (values_read (readings references []) (load_part 0) ≡ Some (2 ∷ (1 ∷ [])))
        × (words_left references [] (readings references []) 0 ≡ Some (0 ∷ [])) }
    ensures sum { words_left sum_stored [] (readings sum_stored []) 1 ≡ Some (0 ∷ []) }
    ensures least { (values_read (readings (both_add 0) []) load_after ≡ None) × (least_read (readings (both_add 0) []) load_after ≡ 2) }
    ensures never_less { sources_read (both_add 0) (readings (both_add 0) one_loaded) load_after ≡ [] }
    ensures never_left { words_left (both_add 0) one_left (readings (both_add 0) one_left) 0 ≡ Some [] }
    ensures wraps { (least_read (readings (both_add 4294967290) []) load_after ≡ 3)
        × (least_read (readings (both_add 4294967291) []) load_after ≡ 0) }
{}
