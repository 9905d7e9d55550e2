//! What is told of texts of choices: each is decided.

ghost use Rattle.std.specs.Prelude.{◌<◌, ◌≡◌, ◌⊎◌, List, ℕ};
ghost use Rattle.scheduler.specs.Grammar.{SpellsChoices};
ghost use Rattle.scheduler.specs.Refusals.{IsRefusedAsChoices};
ghost use Rattle.scheduler.specs.declared.fault.ChoiceFault.{ChoiceFault};
ghost use Rattle.tso_terms.specs.declared.choice.Choice.{Choice};

use scheduler::choice_texts::texts_are_decided;

/// Each text spells one list of choices or gets one refusal, and never both.
pub fn each_text_of_choices_is_decided()
    ensures one_list { (cores : ℕ) (text : List ℕ) → 0 < cores → (choices others : List Choice) → SpellsChoices cores text choices
        → SpellsChoices cores text others → choices ≡ others }
    ensures one_refusal { (cores : ℕ) (text : List ℕ) → 0 < cores → (fault other : ChoiceFault) → IsRefusedAsChoices cores text fault
        → IsRefusedAsChoices cores text other → fault ≡ other }
    ensures never_both { (cores : ℕ) (text : List ℕ) → 0 < cores → (choices : List Choice) (fault : ChoiceFault)
        → SpellsChoices cores text choices → IsRefusedAsChoices cores text fault → ⊥ }
    ensures always { (cores : ℕ) (text : List ℕ) → 0 < cores
        → ((choices : List Choice) × SpellsChoices cores text choices) ⊎ ((fault : ChoiceFault) × IsRefusedAsChoices cores text fault) }
{
    texts_are_decided();
}
