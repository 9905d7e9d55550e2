//! What the word of `outcomes` means, and what its lines and its object tell.

ghost use Rattle.std.specs.Prelude.{◌<◌, ◌≡◌, ◌≤◌, ◌^◌, Bool, List, codes, false, length, map, true, ℕ};
ghost use Rattle.explorer.specs.FinalStates.{HasMoreStates};
ghost use Rattle.command_line.specs.Search.{Search};
ghost use Rattle.search_report.specs.Laws.{OutcomesAreAlike};
ghost use Rattle.search_report.specs.Outcomes.{Outcome};
ghost use Rattle.search_report.specs.MetOutcomes.{unfinished_search_in};
ghost use Rattle.search_report.specs.PrintedOutcomes.{outcomes_in};
ghost use Rattle.tso_laws.specs.Outcomes.{IsSequentiallyConsistent};
ghost use Rattle.printed_laws.specs.Observed.{IsSoEverywhere, IsSoSomewhere, WordMeans, truth_after, truth_after_run};
ghost use Rattle.printed_laws.specs.Outcomes.{OutcomesFit, ShowTheSame};
ghost use Rattle.scheduler.specs.Printed.{printed_choices};
ghost use Rattle.tso_report.specs.ShownNames.{names_shown};
ghost use Rattle.tso_cli.specs.Outcomes.{AreSomeOutcomes};
ghost use Rattle.tso_cli.specs.OneSearch.{ShowOneSearch, ShowsSomeStates, without_choices};
ghost use Rattle.tso_laws.specs.Depth.{needed};
ghost use Rattle.tso_terms.specs.Axioms.{IsTsoExecution};
ghost use Rattle.tso_terms.specs.Condition.{Claim};
ghost use Rattle.tso_terms.specs.Litmus.{IsTest, Litmus};
ghost use Rattle.tso_terms.specs.Runs.{CoresExist, run};
ghost use Rattle.basic_laws.specs.Types.{Choice, Entry};
ghost use Rattle.tso_report.specs.declared.named.Named.{Named};

use printed_laws::{
    outcomes_tell_their_states, outcomes_tell_their_tests, words_mean_what_they_say,
};
use tso_report::Show;

/// `Never` is so nowhere, `Always` everywhere, and `Sometimes` here and not there.
pub fn a_word_means_what_it_says()
    ensures never { WordMeans (codes "Never") (λ t depth claim. IsSoEverywhere t depth claim false) }
    ensures always { WordMeans (codes "Always") (λ t depth claim. IsSoEverywhere t depth claim true) }
    ensures sometimes { WordMeans (codes "Sometimes") (λ t depth claim. IsSoSomewhere t depth claim true × IsSoSomewhere t depth claim false) }
{
    words_mean_what_they_say();
}

/// What is so everywhere is so after each run at that depth, after each TSO execution that needs no more, at depth 32 after each,
/// and at depth 0 after each that is sequentially consistent.
pub fn what_is_so_everywhere()
    ensures runs { (t : Litmus) (depth : ℕ) (claim : Claim) (truth : Bool) → IsSoEverywhere t depth claim truth → (choices : List Choice)
        → CoresExist (length t.programs) choices → (run t depth choices).ended ≡ true → truth_after_run t depth claim choices ≡ truth }
    ensures buffered { (t : Litmus) (depth : ℕ) (claim : Claim) (truth : Bool) → IsSoEverywhere t depth claim truth → 0 < depth
        → (order : List Entry) → IsTsoExecution t order → needed order ≤ depth → truth_after t claim order ≡ truth }
    ensures tso { (t : Litmus) (claim : Claim) (truth : Bool) → IsSoEverywhere t 32 claim truth
        → (order : List Entry) → IsTsoExecution t order → truth_after t claim order ≡ truth }
    ensures sequential { (t : Litmus) (claim : Claim) (truth : Bool) → IsSoEverywhere t 0 claim truth
        → (order : List Entry) → IsSequentiallyConsistent t order → truth_after t claim order ≡ truth }
{}

/// What is so somewhere is so after a run at that depth, after a TSO execution that needs no more, and at depth 0 after one that is
/// sequentially consistent.
pub fn what_is_so_somewhere()
    ensures runs { (t : Litmus) (depth : ℕ) (claim : Claim) (truth : Bool) → IsSoSomewhere t depth claim truth
        → (choices : List Choice) × CoresExist (length t.programs) choices × ((run t depth choices).ended ≡ true)
        × (truth_after_run t depth claim choices ≡ truth) }
    ensures buffered { (t : Litmus) (depth : ℕ) (claim : Claim) (truth : Bool) → IsSoSomewhere t depth claim truth → 0 < depth
        → (order : List Entry) × IsTsoExecution t order × (needed order ≤ depth) × (truth_after t claim order ≡ truth) }
    ensures sequential { (t : Litmus) (claim : Claim) (truth : Bool) → IsSoSomewhere t 0 claim truth
        → (order : List Entry) × IsSequentiallyConsistent t order × (truth_after t claim order ≡ truth) }
{}

/// Of one test, what is printed alike was found at one depth and shows the same, as lines and as JSON; and of any two tests it is
/// of one name.
pub fn what_is_printed_alike_is_the_same()
    ensures lines { (show : Show) (t : Litmus) (depth other_depth : ℕ) (outcomes others : List Outcome)
        → IsTest t → depth < 2 ^ 64 → other_depth < 2 ^ 64 → OutcomesFit (names_shown show t) outcomes → OutcomesFit (names_shown show t) others
        → outcomes_in false t (names_shown show t) depth outcomes ≡ outcomes_in false t (names_shown show t) other_depth others
        → (depth ≡ other_depth) × ShowTheSame t (names_shown show t) outcomes others }
    ensures object { (show : Show) (t : Litmus) (depth other_depth : ℕ) (outcomes others : List Outcome)
        → IsTest t → depth < 2 ^ 64 → other_depth < 2 ^ 64 → OutcomesFit (names_shown show t) outcomes → OutcomesFit (names_shown show t) others
        → outcomes_in true t (names_shown show t) depth outcomes ≡ outcomes_in true t (names_shown show t) other_depth others
        → (depth ≡ other_depth) × ShowTheSame t (names_shown show t) outcomes others }
    ensures lines_name { (t u : Litmus) (names others_names : List Named) (depth other_depth : ℕ) (outcomes others : List Outcome)
        → IsTest t → IsTest u → depth < 2 ^ 64 → other_depth < 2 ^ 64 → OutcomesFit names outcomes → OutcomesFit others_names others
        → outcomes_in false t names depth outcomes ≡ outcomes_in false u others_names other_depth others
        → (t.name ≡ u.name) × (depth ≡ other_depth) }
    ensures object_names { (t u : Litmus) (names others_names : List Named) (depth other_depth : ℕ) (outcomes others : List Outcome)
        → IsTest t → IsTest u → depth < 2 ^ 64 → other_depth < 2 ^ 64 → OutcomesFit names outcomes → OutcomesFit others_names others
        → outcomes_in true t names depth outcomes ≡ outcomes_in true u others_names other_depth others
        → (t.name ≡ u.name) × (depth ≡ other_depth) }
{
    outcomes_tell_their_states();
    outcomes_tell_their_tests();
}

/// What shows the same is alike in its values, its counts and the states in which the proposition is true, and prints the same
/// choices.
pub fn what_shows_the_same()
    ensures alike { (t : Litmus) (names : List Named) (outcomes others : List Outcome)
        → ShowTheSame t names outcomes others → OutcomesAreAlike t names outcomes others }
    ensures choices { (t : Litmus) (names : List Named) (outcomes others : List Outcome) → ShowTheSame t names outcomes others
        → map (λ o. printed_choices o.choices) outcomes ≡ map (λ o. printed_choices o.choices) others }
{}

/// Texts of one search show states that are alike, and are one text but for the choices; a text with some of the states says that the
/// machine can reach more than may be kept.
pub fn texts_of_one_search()
    ensures first { (t : Litmus) (s : Search) (json again : Bool) (out other : List ℕ) (said : ShowOneSearch t s json again out other)
        → out ≡ outcomes_in json t (names_shown s.show t) s.depth said.outcomes }
    ensures second { (t : Litmus) (s : Search) (json again : Bool) (out other : List ℕ) (said : ShowOneSearch t s json again out other)
        → other ≡ outcomes_in again t (names_shown s.show t) s.depth said.others }
    ensures alike { (t : Litmus) (s : Search) (json again : Bool) (out other : List ℕ) (said : ShowOneSearch t s json again out other)
        → OutcomesAreAlike t (names_shown s.show t) said.outcomes said.others }
    ensures but_for_choices { (t : Litmus) (s : Search) (json again : Bool) (out other : List ℕ)
        (said : ShowOneSearch t s json again out other) → (form : Bool)
        → outcomes_in form t (names_shown s.show t) s.depth (map without_choices said.outcomes)
        ≡ outcomes_in form t (names_shown s.show t) s.depth (map without_choices said.others) }
    ensures more { (t : Litmus) (s : Search) (json : Bool) (out : List ℕ) → ShowsSomeStates t s json out → HasMoreStates t s.depth s.states }
    ensures unfinished { (t : Litmus) (s : Search) (json : Bool) (out : List ℕ) (said : ShowsSomeStates t s json out)
        → out ≡ unfinished_search_in json t (names_shown s.show t) s.states said.outcomes }
    ensures some { (t : Litmus) (s : Search) (json : Bool) (out : List ℕ) (said : ShowsSomeStates t s json out)
        → AreSomeOutcomes t (names_shown s.show t) s.depth said.outcomes }
{}
