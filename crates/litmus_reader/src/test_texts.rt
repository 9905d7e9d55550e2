//! Laws of test texts: each spells one test or gets one refusal, and never both; and what they spell is what the grammar
//! says. Each law is the contract of a function that does nothing: who calls it knows it.

ghost use Rattle.std.specs.Prelude.{◌≡◌, ◌≤◌, ℕ, List, length};
ghost use Rattle.litmus_tokens.specs.declared.instructions.Instructions.{Instructions};
ghost use Rattle.tso_terms.specs.Litmus.{Litmus, IsTest};
ghost use Rattle.litmus_reader.specs.declared.fault.TextFault.{TextFault};
ghost use Rattle.litmus_reader.specs.GrammarTest.{FollowsGrammar};
ghost use Rattle.litmus_reader.specs.Limits.{longest_text};
ghost use Rattle.litmus_reader.specs.Spelling.{SpellsTest, IsRefused, IsDecided};

/// A text spells the test that it has by the grammar, and no other; what spells a test follows the
/// grammar. The grammar says no order of reading, and nothing of refusals.
pub fn spelled_tests_follow_the_grammar()
    ensures spells { (set : Instructions) (text : List ℕ) (t : Litmus) → FollowsGrammar set text t → SpellsTest set text t }
    ensures follows { (set : Instructions) (text : List ℕ) (t : Litmus) → SpellsTest set text t → FollowsGrammar set text t }
{}

/// Each text spells one test or gets one refusal, and never both: a law of the definitions, with
/// nothing to run.
pub fn texts_are_decided()
    ensures { (set : Instructions) (text : List ℕ) → IsDecided set text }
{}

/// A text spells one test at most, which is within the limits as the text is; one that gets a refusal spells
/// none, and gets no other refusal.
pub fn test_is_spelled_once()
    ensures once { (set : Instructions) (text : List ℕ) (t other : Litmus) → SpellsTest set text t → SpellsTest set text other → t ≡ other }
    ensures never_both { (set : Instructions) (text : List ℕ) (t : Litmus) (fault : TextFault) → SpellsTest set text t → IsRefused set text fault → ⊥ }
    ensures one_refusal { (set : Instructions) (text : List ℕ) (fault other : TextFault) → IsRefused set text fault → IsRefused set text other → fault ≡ other }
    ensures within { (set : Instructions) (text : List ℕ) (t : Litmus) → SpellsTest set text t → IsTest t }
    ensures short { (set : Instructions) (text : List ℕ) (t : Litmus) → SpellsTest set text t → length text ≤ longest_text }
{
    spelled_tests_follow_the_grammar();
    texts_are_decided();
}
