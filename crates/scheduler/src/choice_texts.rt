//! Laws of texts and their choices, with nothing to run: each text is read in one way, and printed choices are read back as
//! they were. Who calls a function knows what its contract says.

ghost use Rattle.std.specs.Prelude.{◌<◌, ◌≤◌, ◌^◌, ◌++◌, ℕ, List, IsTrue, length};
ghost use Rattle.std.specs.List.{list_all};
ghost use Rattle.tso_terms.specs.Runs.{CoresExist};
ghost use Rattle.tso_terms.specs.declared.choice.Choice.{Choice};
ghost use Rattle.scheduler.specs.Limits.{most_choices};
ghost use Rattle.scheduler.specs.Words.{is_space};
ghost use Rattle.scheduler.specs.Grammar.{SpellsChoices};
ghost use Rattle.scheduler.specs.Refusals.{IsDecidedAsChoices};
ghost use Rattle.scheduler.specs.Printed.{printed_choices};

/// Each text spells one list of choices or gets one refusal, and never both.
pub fn texts_are_decided()
    ensures { (cores : ℕ) (text : List ℕ) → 0 < cores → IsDecidedAsChoices cores text }
{}

/// The choices that a text spells are of cores that are there.
pub fn spelled_cores_exist()
    ensures { (cores : ℕ) (text : List ℕ) (choices : List Choice)
        → 0 < cores → SpellsChoices cores text choices → CoresExist cores choices }
{}

/// What is printed of choices spells these very choices, also with white space after it, if their
/// cores are there and they are no more than a text may have.
pub fn printed_choices_are_spelled()
    ensures { (cores : ℕ) (choices : List Choice) (white : List ℕ)
        → cores < 2 ^ 64 → CoresExist cores choices → length choices ≤ most_choices → IsTrue (list_all is_space white)
        → SpellsChoices cores (printed_choices choices ++ white) choices }
{}
