//! What each call makes of one set, copies with their words, the most recently used first: a hit that kept its place, or a
//! fill that dropped the wrong line, would show here.

ghost use Rattle.std.specs.Prelude.{◌≡◌, [], ◌∷◌, Some, None};
ghost use Rattle.protocol_tables.specs.declared.state.State.TheVariants.{S, E, M};
ghost use Rattle.cache_set.specs.Contents.{copy_of, victim_of};
ghost use Rattle.cache_set.specs.inner.Contents.{to_front, with_new, with_changed, without};
ghost use Rattle.cache_set.specs.inner.Copy.{copy_with, with_state, with_word};
ghost use Rattle.worked_examples.specs.inner.LinesInSets.{words, copy, copies_for, victim, seven, four, two};

/// What is found, brought to the front, changed where it stands, and taken away.
pub fn worked_set_calls()
    ensures found { copy_of (copies_for 3 (seven ∷ four ∷ two ∷ [])) 4 ≡ Some (copy E (words 14 24 34 44)) }
    ensures not_found { copy_of (copies_for 3 (seven ∷ four ∷ two ∷ [])) 5 ≡ None }
    ensures to_the_front { to_front 4 (copies_for 3 (seven ∷ four ∷ two ∷ [])) ≡ copies_for 3 (four ∷ seven ∷ two ∷ []) }
    ensures state_changed { with_changed (with_state S) 4 (copies_for 3 (seven ∷ four ∷ two ∷ []))
        ≡ copies_for 3 (seven ∷ (4, copy S (words 14 24 34 44)) ∷ two ∷ []) }
    ensures word_changed { with_changed (with_word 2 99) 4 (copies_for 3 (seven ∷ four ∷ two ∷ []))
        ≡ copies_for 3 (seven ∷ (4, copy E (words 14 24 99 44)) ∷ two ∷ []) }
    ensures taken_away { without 4 (copies_for 3 (seven ∷ four ∷ two ∷ [])) ≡ copies_for 3 (seven ∷ two ∷ []) }
{}

/// What a new line makes of a set with room, and of a full one, and what leaves it.
pub fn worked_fills()
    ensures room { with_new 5 (copy_with S (words 15 25 35 45)) (copies_for 4 (seven ∷ four ∷ two ∷ []))
        ≡ copies_for 4 ((5, copy S (words 15 25 35 45)) ∷ seven ∷ four ∷ two ∷ []) }
    ensures no_room { with_new 5 (copy_with S (words 15 25 35 45)) (copies_for 3 (seven ∷ four ∷ two ∷ []))
        ≡ copies_for 3 ((5, copy S (words 15 25 35 45)) ∷ seven ∷ four ∷ []) }
    ensures nothing_leaves { victim_of (copies_for 4 (seven ∷ four ∷ two ∷ [])) ≡ None }
    ensures last_leaves { victim_of (copies_for 3 (seven ∷ four ∷ two ∷ [])) ≡ Some (victim 2 (copy M (words 12 22 32 42))) }
{}
