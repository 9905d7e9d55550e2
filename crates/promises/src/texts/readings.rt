//! What is read of texts: what they spell, and how they are refused, memory aside. Each text has one or the other.

ghost use Rattle.std.specs.Prelude.{◌≡◌, ◌≢◌, ◌<◌, List, Ok, Err, IfOk, IfErr, MatchResult};
ghost use Rattle.tso_terms.specs.Litmus.{Litmus};
ghost use Rattle.tso_terms.specs.Decimals.{decimal_value};
ghost use Rattle.tso_terms.specs.declared.choice.Choice.{Choice as ChoiceMade};
ghost use Rattle.tso_terms.specs.declared.execution.Entry.{Entry};
ghost use Rattle.litmus_reader.specs.GrammarTest.{FollowsGrammar};
ghost use Rattle.litmus_reader.specs.Spelling.{SpellsTest, IsFault, IsRefused};
ghost use Rattle.litmus_tokens.specs.Terms.{word_of};
ghost use Rattle.litmus_tokens.specs.declared.fault.Fault.{Fault as FaultFound};
ghost use Rattle.litmus_tokens.specs.declared.instructions.Instructions.TheVariants.{Basic};
ghost use Rattle.litmus_reader.specs.declared.fault.TextFault.{TextFault as TextRefused};
ghost use Rattle.order_builder.specs.Reading.{entries_of_order, Gives};
ghost use Rattle.order_builder.specs.Spelling.{SpellsOrder, HasFault};
ghost use Rattle.order_builder.specs.declared.fault.OrderFault.{OrderFault as OrderRefused};
ghost use Rattle.scheduler.specs.Grammar.{SpellsChoices};
ghost use Rattle.scheduler.specs.Refusals.{IsRefusedAsChoices};
ghost use Rattle.scheduler.specs.Seeds.{seeded_choices};
ghost use Rattle.scheduler.specs.declared.fault.ChoiceFault.{ChoiceFault as ChoicesRefused};

use litmus_reader::test_texts::spelled_tests_follow_the_grammar;
use litmus_reader::{
    Instructions, ReadError, TextFault, Why, read_test, read_test_in, test_or_fault,
    test_or_fault_in,
};
use litmus_tokens::word;
use order_builder::{OrderFault, read_order};
use scheduler::{ChoiceFault, read_choices, seeded_choices};
use std::alloc::Global;
use tso_terms::{Choice, Execution, NoMemory, Test};

/// Decimal digits are the word of 32 bits that they spell, if one has room for it.
pub fn digits_are_a_word(digits: &[u8]) -> Option<u32>
    ensures { result ≡ word_of (decimal_value digits.now) }
{
    word(digits)
}

/// A test is read exactly where a text spells it, and refused exactly as the text is; where memory ran out, of no line.
pub fn a_test_is_read(alloc: Global, text: &[u8]) -> Result<Test, TextFault>
    ensures found { IfOk result (λ test. SpellsTest Basic text.now test) }
    ensures only { (t : Litmus) → SpellsTest Basic text.now t → MatchResult result (λ test. test ≡ t) (λ f. f.why ≡ Why.NoMemory) }
    ensures refused { IfErr result (λ f. f.why ≢ Why.NoMemory → IsRefused Basic text.now f) }
    ensures refuses { (fault : TextRefused) → IsRefused Basic text.now fault
        → MatchResult result (λ _. ⊥) (λ f. f.why ≢ Why.NoMemory → f ≡ fault) }
    ensures no_memory { IfErr result (λ f. f.why ≡ Why.NoMemory → f.line ≡ 0) }
{
    read_test(alloc, text)
}

/// A test is read exactly where a text follows the grammar, keeps the limits and says this test.
pub fn a_test_is_read_by_the_grammar(alloc: Global, text: &[u8]) -> Result<Test, TextFault>
    ensures found { IfOk result (λ test. FollowsGrammar Basic text.now test) }
    ensures only { (t : Litmus) → FollowsGrammar Basic text.now t → MatchResult result (λ test. test ≡ t) (λ f. f.why ≡ Why.NoMemory) }
{
    spelled_tests_follow_the_grammar();
    read_test(alloc, text)
}

/// A test is read exactly where a text spells it, and what is at fault in any other text is found.
pub fn a_fault_is_found(alloc: Global, text: &[u8]) -> Result<Test, ReadError>
    ensures found { IfOk result (λ test. SpellsTest Basic text.now test) }
    ensures only { (t : Litmus) → SpellsTest Basic text.now t → MatchResult result (λ test. test ≡ t) (λ e. e ≡ ReadError.NoMemory) }
    ensures fault { (fault : FaultFound) → result ≡ Err (ReadError.Fault fault) → IsFault Basic text.now fault }
    ensures faults { (fault : FaultFound) → IsFault Basic text.now fault
        → MatchResult result (λ _. ⊥) (λ e. e ≢ ReadError.NoMemory → e ≡ ReadError.Fault fault) }
{
    test_or_fault(alloc, text)
}

/// So it is in either set of instructions.
pub fn a_test_is_read_in_a_set(
    alloc: Global,
    set: Instructions,
    text: &[u8],
) -> Result<Test, TextFault>
    ensures found { IfOk result (λ test. SpellsTest set text.now test) }
    ensures only { (t : Litmus) → SpellsTest set text.now t → MatchResult result (λ test. test ≡ t) (λ f. f.why ≡ Why.NoMemory) }
    ensures refused { IfErr result (λ f. f.why ≢ Why.NoMemory → IsRefused set text.now f) }
    ensures refuses { (fault : TextRefused) → IsRefused set text.now fault
        → MatchResult result (λ _. ⊥) (λ f. f.why ≢ Why.NoMemory → f ≡ fault) }
    ensures no_memory { IfErr result (λ f. f.why ≡ Why.NoMemory → f.line ≡ 0) }
{
    read_test_in(alloc, set, text)
}

/// By the grammar of either set.
pub fn a_test_is_read_by_the_grammar_of_a_set(
    alloc: Global,
    set: Instructions,
    text: &[u8],
) -> Result<Test, TextFault>
    ensures found { IfOk result (λ test. FollowsGrammar set text.now test) }
    ensures only { (t : Litmus) → FollowsGrammar set text.now t → MatchResult result (λ test. test ≡ t) (λ f. f.why ≡ Why.NoMemory) }
{
    spelled_tests_follow_the_grammar();
    read_test_in(alloc, set, text)
}

/// And what is at fault in any other text of a set is found.
pub fn a_fault_is_found_in_a_set(
    alloc: Global,
    set: Instructions,
    text: &[u8],
) -> Result<Test, ReadError>
    ensures found { IfOk result (λ test. SpellsTest set text.now test) }
    ensures only { (t : Litmus) → SpellsTest set text.now t → MatchResult result (λ test. test ≡ t) (λ e. e ≡ ReadError.NoMemory) }
    ensures fault { (fault : FaultFound) → result ≡ Err (ReadError.Fault fault) → IsFault set text.now fault }
    ensures faults { (fault : FaultFound) → IsFault set text.now fault
        → MatchResult result (λ _. ⊥) (λ e. e ≢ ReadError.NoMemory → e ≡ ReadError.Fault fault) }
{
    test_or_fault_in(alloc, set, text)
}

/// Choices are read exactly where a text spells them, and refused exactly as the text is.
pub fn choices_are_read(alloc: Global, cores: u8, text: &[u8]) -> Result<Vec<Choice>, ChoiceFault>
    requires { 0 < cores }
    ensures found { IfOk result (λ v. SpellsChoices cores text.now v.items) }
    ensures only { (choices : List ChoiceMade) → SpellsChoices cores text.now choices
        → MatchResult result (λ v. v.items ≡ choices) (λ f. f ≡ ChoiceFault.NoMemory) }
    ensures refused { IfErr result (λ f. f ≢ ChoiceFault.NoMemory → IsRefusedAsChoices cores text.now f) }
    ensures refuses { (fault : ChoicesRefused) → IsRefusedAsChoices cores text.now fault
        → MatchResult result (λ _. ⊥) (λ f. f ≢ ChoiceFault.NoMemory → f ≡ fault) }
{
    read_choices(alloc, cores, text)
}

/// The choices of a seed are those that its words say.
pub fn choices_are_drawn(
    alloc: Global,
    cores: u8,
    seed: u64,
    count: usize,
) -> Result<Vec<Choice>, NoMemory>
    requires { 0 < cores }
    ensures { IfOk result (λ v. v.items ≡ seeded_choices cores seed count) }
{
    seeded_choices(alloc, cores, seed, count)
}

/// An order is read exactly where a text spells it, and refused exactly for the fault that the text has.
pub fn an_order_is_read(alloc: Global, test: &Test, text: &[u8]) -> Result<Execution, OrderFault>
    ensures found { IfOk result (λ execution. SpellsOrder test.now text.now execution.order.items) }
    ensures only { (order : List Entry) → SpellsOrder test.now text.now order → Gives entries_of_order result (Ok order) }
    ensures fault { IfErr result (λ fault. fault ≢ OrderFault.NoMemory → HasFault test.now text.now fault) }
    ensures only_fault { (fault : OrderRefused) → HasFault test.now text.now fault → Gives entries_of_order result (Err fault) }
{
    read_order(alloc, test, text)
}
