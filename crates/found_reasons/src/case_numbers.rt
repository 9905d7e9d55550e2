//! For how many cases one case counts, and how many there can be, as numerals.

ghost use Rattle.std.specs.Prelude.{◌≡◌};
ghost use Rattle.tso_terms.specs.Examples.{sb};
ghost use Rattle.lemma_refutations.specs.Worked.{exchanged_in_turn};
ghost use Rattle.found_reasons.specs.Reasons.{counted_as, most_cases};

/// A case counts for one up to 7 events of the test, for 8 from 8 events on, for 27 from 16 on; and for no more than with 512, which are
/// the most that a test can have. In store buffering each of two reads has two sources, or none that is told yet: nine cases. Where two
/// cores exchange, each of two reads has three, and of the two writes one comes first, or neither is told to: 48.
pub fn numbers_of_cases()
    ensures least { counted_as 0 ≡ 1 }
    ensures still_one { counted_as 7 ≡ 1 }
    ensures eight { counted_as 8 ≡ 8 }
    ensures still_eight { counted_as 15 ≡ 8 }
    ensures sixteen { counted_as 16 ≡ 27 }
    ensures before_most { counted_as 511 ≡ 262144 }
    ensures most { counted_as 512 ≡ 274625 }
    ensures no_more { counted_as 4096 ≡ 274625 }
    ensures store_buffering { most_cases sb ≡ 9 }
    ensures exchanges { most_cases exchanged_in_turn ≡ 48 }
{}
