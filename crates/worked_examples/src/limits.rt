//! Each limit of the definitions as a numeral. Where the code has a constant for it, that is the definition's number by a law of its
//! crate, `limits_are_as_defined`; here it is said which number it is.

ghost use Rattle.std.specs.Prelude.{ℕ, ◌≡◌, ◌⊎◌, ◌↔◌};
ghost use Rattle.tso_terms.specs.Registers.{IsWord};
ghost use Rattle.tso_terms.specs.Limits.{most_cores, most_locations, most_instructions, most_atoms, most_open};
ghost use Rattle.tso_terms.specs.Limits.{longest_name, longest_test_name, least_depth, most_depth};
ghost use Rattle.cache_set.specs.Limits.{most_sets, most_ways, most_words};
ghost use Rattle.cache_set.specs.Geometry.{IsLineSize};
ghost use Rattle.scheduler.specs.Limits.{most_choices};
ghost use Rattle.litmus_reader.specs.Limits.{longest_text};
ghost use Rattle.hints.specs.Hint.{longest_hint};
ghost use Rattle.tso_report.specs.Limits.{longest_report, most_entries};
ghost use Rattle.scheduler.specs.Plan.{most_seeds};
ghost use Rattle.command_line.specs.Search.{most_states};
ghost use Rattle.counted_io.specs.Limits.{longest_input};

/// How large a test may be.
pub fn numbers_of_tests()
    ensures cores { most_cores ≡ 8 }
    ensures locations { most_locations ≡ 16 }
    ensures instructions { most_instructions ≡ 32 }
    ensures atoms { most_atoms ≡ 256 }
    ensures nesting { most_open ≡ 64 }
    ensures location_name { longest_name ≡ 32 }
    ensures test_name { longest_test_name ≡ 64 }
    ensures greatest_word { IsWord 4294967295 }
    ensures no_word { IsWord 4294967296 → ⊥ }
{}

/// How a machine may be built.
pub fn numbers_of_machines()
    ensures shallowest { least_depth ≡ 1 }
    ensures deepest { most_depth ≡ 32 }
    ensures sets { most_sets ≡ 8 }
    ensures ways { most_ways ≡ 8 }
    ensures room_for_words { most_words ≡ 4 }
    ensures line_sizes { (words : ℕ) → IsLineSize words ↔ ((words ≡ 1) ⊎ (words ≡ 2) ⊎ (words ≡ 4)) }
{}

/// How long a text may be, and how many choices, seeds and states are taken.
pub fn numbers_of_texts()
    ensures test_text { longest_text ≡ 65536 }
    ensures choices { most_choices ≡ 100000 }
    ensures input { longest_input ≡ 1048576 }
    ensures seeds { most_seeds ≡ 1000 }
    ensures states { most_states ≡ 10000000 }
    ensures hint { longest_hint ≡ 256 }
    ensures entries { most_entries ≡ 512 }
    ensures report { longest_report ≡ 32768 }
{}
