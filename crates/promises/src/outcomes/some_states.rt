//! What `outcomes` says of a search that met its limit, field by field.

ghost use Rattle.std.specs.Prelude.{◌≡◌, All, Bool, List, length, map, ℕ};
ghost use Rattle.std.specs.Ordering.{nat_cmp};
ghost use Rattle.std.specs.Cmp.Lexicographic.{slice_cmp};
ghost use Rattle.std.specs.List.Sorted.{IsStrictlySortedBy};
ghost use Rattle.command_line.specs.Search.{Search};
ghost use Rattle.scheduler.specs.Grammar.{SpellsChoices};
ghost use Rattle.scheduler.specs.Printed.{printed_choices};
ghost use Rattle.search_report.specs.MetOutcomes.{unfinished_search_in};
ghost use Rattle.search_report.specs.Outcomes.{Outcome, shown_values};
ghost use Rattle.tso_cli.specs.Outcomes.{AreSomeOutcomes};
ghost use Rattle.tso_cli.specs.OutcomesHeadline.{AreSomeOf, PrintsSomeOutcomes};
ghost use Rattle.tso_laws.specs.Outcomes.{IsSequentiallyConsistent, LeadToEnd};
ghost use Rattle.tso_report.specs.ShownNames.{names_shown};
ghost use Rattle.tso_report.specs.declared.named.Named.{Named};
ghost use Rattle.tso_terms.specs.Axioms.{IsTsoExecution};
ghost use Rattle.tso_terms.specs.Limits.{most_depth};
ghost use Rattle.tso_terms.specs.Litmus.{Litmus};

/// What `outcomes` prints of a search that met its limit are some of those that can be reached, and at depth 32 and 0 of those that are
/// allowed, by the values that are shown.
pub fn outcomes_prints_some_of_what_is_allowed()
    ensures printed { (t : Litmus) (s : Search) (json : Bool) (out : List ℕ) (said : PrintsSomeOutcomes t s json out)
        → out ≡ unfinished_search_in json t (names_shown s.show t) s.states said.outcomes }
    ensures some { (t : Litmus) (s : Search) (json : Bool) (out : List ℕ) (said : PrintsSomeOutcomes t s json out)
        → AreSomeOutcomes t (names_shown s.show t) s.depth said.outcomes }
    ensures ascending { (t : Litmus) (names : List Named) (depth : ℕ) (outcomes : List Outcome) → AreSomeOutcomes t names depth outcomes
        → IsStrictlySortedBy (slice_cmp nat_cmp) (map (shown_values names) outcomes) }
    ensures reached { (t : Litmus) (names : List Named) (depth : ℕ) (outcomes : List Outcome) → AreSomeOutcomes t names depth outcomes
        → All (λ o. LeadToEnd t depth o.choices o.registers o.memory) outcomes }
    ensures tso { (t : Litmus) (s : Search) (json : Bool) (out : List ℕ) (said : PrintsSomeOutcomes t s json out)
        → s.depth ≡ most_depth → AreSomeOf t (names_shown s.show t) said.outcomes (IsTsoExecution t) }
    ensures sequential { (t : Litmus) (s : Search) (json : Bool) (out : List ℕ) (said : PrintsSomeOutcomes t s json out)
        → s.depth ≡ 0 → AreSomeOf t (names_shown s.show t) said.outcomes (IsSequentiallyConsistent t) }
    ensures spelled { (t : Litmus) (s : Search) (json : Bool) (out : List ℕ) (said : PrintsSomeOutcomes t s json out)
        → All (λ o. SpellsChoices (length t.programs) (printed_choices o.choices) o.choices) said.outcomes }
{}
