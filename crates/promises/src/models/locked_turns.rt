//! What the laws on locked instructions say of a location to which they alone write, each said again.

ghost use Rattle.std.specs.Prelude.{ℕ, ◌≡◌, ◌+◌, ◌%◌, ◌⊎◌, ◌++◌, ◌∷◌, List, None, Some, filter, slice_index, true};
ghost use Rattle.tso_terms.specs.Litmus.{Litmus};
ghost use Rattle.tso_terms.specs.ProgramOrder.{writes_to};
ghost use Rattle.basic_laws.specs.Types.{Entry, LR, LW};
ghost use Rattle.relational_model.specs.Events.{IsIn};
ghost use Rattle.relational_model.specs.Candidates.{Candidate, events, last_word};
ghost use Rattle.relational_model.specs.CandidatesOfOrders.{last_in};
ghost use Rattle.relational_model.specs.Model.{ArePair, IsAllowed};
ghost use Rattle.locked_laws.specs.Sums.{IsAddedTo, total_of, word_after_adding};

use locked_laws::{
    each_but_the_last_is_read, locked_instructions_take_turns, no_two_read_one_source,
    reads_add_up, somebody_reads_the_initial_word, words_add_up,
};

/// What a load part reads comes directly before its own store part in coherence.
pub fn a_load_part_reads_what_stands_before()
    ensures { (t : Litmus) (c : Candidate) (r : Entry) → IsAllowed t c → IsIn (events t c) r → r.kind ≡ LR
        → (w : Entry) × (earlier : List Entry) × (later : List Entry) × IsIn (events t c) w × ArePair r w × (w.loc.0 ≡ r.loc.0)
        × (c.coherence r.loc.0 ≡ earlier ++ (w ∷ later)) × (c.source r ≡ last_in earlier) }
{
    locked_instructions_take_turns();
}

/// Two load parts of a location that read from one source are one.
pub fn one_source_is_read_once()
    ensures { (t : Litmus) (c : Candidate) (r : Entry) (s : Entry) → IsAllowed t c → IsIn (events t c) r → IsIn (events t c) s
        → r.kind ≡ LR → s.kind ≡ LR → r.loc.0 ≡ s.loc.0 → c.source r ≡ c.source s → r ≡ s }
{
    no_two_read_one_source();
}

/// Where each write to a location is of a locked instruction, a load part reads the initial word.
pub fn the_initial_word_is_read()
    ensures { (t : Litmus) (c : Candidate) (loc : ℕ) (w : Entry) → IsAllowed t c
        → ((v : Entry) → IsIn (events t c) v → writes_to loc v ≡ true → v.kind ≡ LW) → IsIn (events t c) w → writes_to loc w ≡ true
        → (r : Entry) × IsIn (events t c) r × (r.kind ≡ LR) × (r.loc.0 ≡ loc) × (c.source r ≡ None) }
{
    somebody_reads_the_initial_word();
}

/// Each of these writes but the last is read by a load part.
pub fn a_write_is_read_or_the_last()
    ensures { (t : Litmus) (c : Candidate) (loc : ℕ) (w : Entry) → IsAllowed t c
        → ((v : Entry) → IsIn (events t c) v → writes_to loc v ≡ true → v.kind ≡ LW) → IsIn (events t c) w → writes_to loc w ≡ true
        → (last_in (c.coherence loc) ≡ Some w)
        ⊎ ((r : Entry) × IsIn (events t c) r × (r.kind ≡ LR) × (r.loc.0 ≡ loc) × (c.source r ≡ Some w)) }
{
    each_but_the_last_is_read();
}

/// Where these are additions, the last word is the initial one and their total, and a load part reads the sum of those before it.
pub fn additions_add_up()
    ensures last { (t : Litmus) (c : Candidate) (loc : ℕ) (addend : Entry → ℕ) (w : Entry) → IsAllowed t c → IsAddedTo t c loc addend
        → IsIn (events t c) w → writes_to loc w ≡ true
        → last_word (c.coherence loc) (slice_index t.words loc)
        ≡ (slice_index t.words loc + total_of addend (filter (writes_to loc) (events t c))) % 4294967296 }
    ensures read { (t : Litmus) (c : Candidate) (loc : ℕ) (addend : Entry → ℕ) (r : Entry) → IsAllowed t c → IsAddedTo t c loc addend
        → IsIn (events t c) r → r.kind ≡ LR → r.loc.0 ≡ loc
        → (w : Entry) × (earlier : List Entry) × (later : List Entry) × ArePair r w × (c.coherence loc ≡ earlier ++ (w ∷ later))
        × (r.value ≡ word_after_adding addend earlier (slice_index t.words loc)) }
{
    words_add_up();
    reads_add_up();
}
