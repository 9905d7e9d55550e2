//! What hints are, and that each text of a test is decided, field by field.

ghost use Rattle.std.specs.Prelude.{◌++◌, ◌∷◌, ◌≡◌, ◌≤◌, ◌⊎◌, List, [], codes, length, true, ℕ};
ghost use Rattle.litmus_tokens.specs.declared.instructions.Instructions.{Instructions};
ghost use Rattle.hints.specs.Hint.{IsHint, IsRunsLine, longest_hint};
ghost use Rattle.tso_cli.specs.Hints.{IsHintWithRuns};
ghost use Rattle.scheduler.specs.Printed.{printed_choices};
ghost use Rattle.litmus_reader.specs.Spelling.{IsRefused, SpellsTest};
ghost use Rattle.litmus_reader.specs.declared.fault.TextFault.{TextFault};
ghost use Rattle.std.specs.List.{list_all};
ghost use Rattle.tso_terms.specs.Litmus.{Litmus};
ghost use Rattle.tso_terms.specs.Names.{is_printable};

use litmus_reader::test_texts::texts_are_decided;

/// A hint begins with its word, is printable and short.
pub fn a_hint_is_one_printable_line()
    ensures is { (text : List ℕ) (said : IsHint text) → text ≡ codes "hint: " ++ said.words ++ (10 ∷ []) }
    ensures printable { (text : List ℕ) (said : IsHint text) → list_all is_printable said.words ≡ true }
    ensures short { (text : List ℕ) → IsHint text → length text ≤ longest_hint }
{}

/// A line that says choices has them in the form in which they are read, and at most 2,048 bytes; with the hint before it, 2,304.
pub fn a_line_of_runs_says_choices()
    ensures is { (text : List ℕ) (said : IsRunsLine text) → text ≡ codes "hint: run these: " ++ printed_choices said.choices ++ (10 ∷ []) }
    ensures short { (text : List ℕ) → IsRunsLine text → length text ≤ 2048 }
    ensures both { (text : List ℕ) → IsHintWithRuns text → length text ≤ 2304 }
{}

/// Each text spells one test or gets one refusal, and never both.
pub fn each_text_is_decided()
    ensures one_test { (set : Instructions) (text : List ℕ) → (t other : Litmus) → SpellsTest set text t → SpellsTest set text other → t ≡ other }
    ensures one_refusal { (set : Instructions) (text : List ℕ) → (refusal other : TextFault) → IsRefused set text refusal → IsRefused set text other
        → refusal ≡ other }
    ensures never_both { (set : Instructions) (text : List ℕ) → (t : Litmus) (refusal : TextFault) → SpellsTest set text t → IsRefused set text refusal → ⊥ }
    ensures always { (set : Instructions) (text : List ℕ) → ((t : Litmus) × SpellsTest set text t) ⊎ ((refusal : TextFault) × IsRefused set text refusal) }
{
    texts_are_decided();
}
