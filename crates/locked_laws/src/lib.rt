//! Locked instructions of one location take turns. Laws on the candidates that the published models allow, by which one reasons
//! about locks and counters at the board: no two read one word, somebody reads the initial one, and additions add up.
//!
//! Nothing here computes. Each public function has no code of its own, and its contract is a law on the definitions of
//! `relational_model`. Sequential consistency allows no candidate that x86-TSO doesn't, so the laws hold of it too.
//!
//! Sources: herd's `x86tso.cat`, its third condition (`empty rmw & (fre;coe)`); x86-TSO, section 3, for locked instructions.
#![tactic(auto)]

ghost use Rattle.locked_laws.specs.Turns.{LockedInstructionsTakeTurns, NoTwoReadOneSource, SomebodyReadsTheInitialWord, EachButTheLastIsRead};
ghost use Rattle.locked_laws.specs.Sums.{WordsAddUp, ReadsAddUp};
ghost use Rattle.locked_laws.specs.WorkedLocks.{lock, counter};
ghost use Rattle.std.specs.Prelude.{◌≡◌, ◌≢◌, [], ◌∷◌};
ghost use Rattle.relational_model.specs.Candidates.{Candidate, registers_left, words_left};
ghost use Rattle.relational_model.specs.Model.{IsAllowed};
ghost use Rattle.relational_model.specs.WorkedCandidates.{two_cores};

use relational_model::allowed_candidates_are_executions;
use tso_laws::whole_orders_have_each_entry_once;

/// What the load part of a locked instruction reads comes directly before its own store part in coherence.
pub fn locked_instructions_take_turns()
    ensures { LockedInstructionsTakeTurns }
{
    allowed_candidates_are_executions();
    whole_orders_have_each_entry_once();
}

/// The load parts of two locked instructions of a location don't read from one source: neither from one write, nor both
/// the initial word.
pub fn no_two_read_one_source()
    ensures { NoTwoReadOneSource }
{
    locked_instructions_take_turns();
}

/// If only locked instructions write to a location, and one does, then the load part of one of them reads the initial word.
pub fn somebody_reads_the_initial_word()
    ensures { SomebodyReadsTheInitialWord }
{
    locked_instructions_take_turns();
}

/// If only locked instructions write to a location, then each of these writes but the last one in coherence is read by
/// the load part of another of them.
pub fn each_but_the_last_is_read()
    ensures { EachButTheLastIsRead }
{
    locked_instructions_take_turns();
}

/// If only locked additions write to a location, and one does, then its last word is the initial word and all that they
/// add, modulo 2^32.
pub fn words_add_up()
    ensures { WordsAddUp }
{
    locked_instructions_take_turns();
}

/// If only locked additions write to a location, then the load part of each of them reads the initial word and what those
/// before it in coherence add, modulo 2^32.
pub fn reads_add_up()
    ensures { ReadsAddUp }
{
    locked_instructions_take_turns();
}

/// Why a lock is a lock, and a counter counts: two cores that exchange 1 for the word of a free lock don't both read 0, and two
/// that add 1 leave 2.
pub fn worked_locks()
    ensures exclusion { (c : Candidate) → IsAllowed lock c → registers_left lock c ≢ two_cores }
    ensures count { (c : Candidate) → IsAllowed counter c → words_left counter c ≡ 2 ∷ [] }
{
    no_two_read_one_source();
    words_add_up();
}
