//! Laws of what is printed: states that look alike are told by any one of them. Each is the contract of a function that
//! does nothing: who calls it knows it.

ghost use Rattle.search_report.specs.Laws.{TruthIsShown, OutcomesAreOneButForChoices, OutcomesOfTheSameValuesAreAlike};

/// Of two states that look alike the condition's proposition is true in both, or in none. So it doesn't matter which of
/// them is printed.
pub fn truth_is_shown()
    ensures { TruthIsShown }
{}

/// Outcomes that ascend and have the same values are alike: in the order of their values, and in how many of them the
/// condition's proposition is true and false.
pub fn outcomes_of_the_same_values_are_alike()
    ensures { OutcomesOfTheSameValuesAreAlike }
{}

/// Of final states that are the same but for registers that no value shows, however they are listed and whichever choices
/// are with them, what is printed differs in choices alone.
pub fn outcomes_are_one_but_for_choices()
    ensures { OutcomesAreOneButForChoices }
{}
