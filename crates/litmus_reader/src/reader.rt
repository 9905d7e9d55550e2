//! Whole texts: the parts of a test one after the other, and the first fault. Parts are read in the order of the text, so
//! that what is refused is the first thing at fault in it.

ghost use Rattle.std.specs.Prelude.{◌≡◌, ◌≢◌, ◌≤◌, [], Ok, Err, IfOk, IfErr, MatchResult, IsTrue};
ghost use Rattle.std.specs.Option.{option_map};
ghost use Rattle.std.specs.Str.{IsUtf8};
ghost use Rattle.tso_terms.specs.Limits.{most_cores};
ghost use Rattle.tso_terms.specs.Litmus.{Litmus, IsTest};
ghost use Rattle.litmus_tokens.specs.declared.fault.Fault.{Fault};
ghost use Rattle.litmus_reader.specs.declared.fault.TextFault.{TextFault};
ghost use Rattle.tso_terms.specs.Condition.{condition_of};
ghost use Rattle.tso_terms.specs.LitmusParts.{litmus_of};
ghost use Rattle.litmus_tokens.specs.inner.Pieces.{pieces};
ghost use Rattle.litmus_tokens.specs.Faults.{Gives};
ghost use Rattle.litmus_tokens.specs.inner.Mapped.{mapped};
ghost use Rattle.litmus_tokens.specs.Locations.{texts};
ghost use Rattle.litmus_reader.specs.inner.Reading as spec;
ghost use Rattle.litmus_reader.specs.Reading as inner;
ghost use Rattle.litmus_reader.specs.Reading.{refusal};
ghost use Rattle.litmus_reader.specs.inner.Sections.{tokens_in, stop_of};
ghost use Rattle.litmus_reader.specs.inner.Initial.{KnowsGiven};
ghost use Rattle.litmus_reader.specs.inner.Returned.{GivesEnding, IsUnlessMemory};
ghost use Rattle.litmus_reader.specs.Spelling.{SpellsTest, IsFault, IsRefused};
ghost use Rattle.litmus_tokens.specs.declared.instructions.Instructions.TheVariants.{Basic};

use crate::assembling::parts_of;
use crate::condition::condition_at;
use crate::fault::TextFault;
use crate::header::header_at;
use crate::information::braces_at;
use crate::initial::{Initial, nothing_given, read_initial};
use crate::limits::MAX_TEXT;
use crate::observed::after_observed;
use crate::row::{Table, read_table};
use litmus_cells::{Fault, ReadError, Why};
use litmus_tokens::{Instructions, Stop, Token, line_of, tokens_of};
use std::alloc::Global;
use tso_terms::{Cond, NoMemory, Test, TestParts};

/// The end of the text has to follow.
#[tactic(auto, unfolding(crate::specs::Reading::end_at))]
fn end_at(stop: Stop, tokens: &[Token<'_>]) -> Result<(), Fault>
    ensures { result ≡ inner.end_at stop (pieces tokens.now) }
{
    if let Some(first) = tokens.first() {
        return Err(Fault {
            why: Why::Trailing,
            remaining: first.remaining,
        });
    }
    match stop {
        Stop::End => Ok(()),
        Stop::BadToken(remaining) => Err(Fault {
            why: Why::BadToken,
            remaining,
        }),
        Stop::Unclosed(remaining) => Err(Fault {
            why: Why::Unclosed,
            remaining,
        }),
    }
}

/// What comes after the rows of a text: `locations [..]`, the condition and the end.
#[tactic(auto, unfolding(crate::specs::Reading::tail_at))]
fn tail_at<'a>(
    alloc: Global,
    set: Instructions,
    text: &'a [u8],
    cores: usize,
    names: &mut Vec<&'a [u8]>,
    rest: &'a [u8],
) -> Result<Option<Cond>, ReadError>
    requires cores { cores ≤ most_cores }
    ensures { GivesEnding result names.new.items (inner.tail_at set text.now (stop_of set rest.now) cores (texts names.old.items) (tokens_in set rest.now)) }
{
    let bytes = after_observed(set, text, rest)?;
    let tokens = tokens_of(alloc, set, bytes)?;
    let (cond, rest) = condition_at(alloc, tokens.stop, cores, names, &tokens.items)?;
    end_at(tokens.stop, rest)?;
    Ok(cond)
}

/// The parts of the test: the initial state, the table and what comes after it. What is read on the way is lent, so that
/// no refusal has to let go of it.
#[tactic(auto, unfolding(crate::specs::Reading::body_of))]
fn body_with<'a>(
    alloc: Global,
    set: Instructions,
    name: &[u8],
    text: &'a [u8],
    tokens: &mut Vec<Token<'a>>,
    names: &mut Vec<&'a [u8]>,
    initial: &mut Initial<'a>,
    table: &mut Table,
) -> Result<TestParts, ReadError>
    requires name { IsUtf8 name.now }
    requires names { texts names.old.items ≡ [] }
    requires words { initial.old.words.items ≡ [] }
    requires registers { initial.old.registers.items ≡ [] }
    requires knows { KnowsGiven initial.old }
    requires instrs { table.old.instrs.items ≡ [] }
    ensures { Gives (λ parts. litmus_of parts) result (inner.body_of set name.now text.now (stop_of set text.now) (tokens_in set text.now)) }
{
    let rest = read_initial(set, tokens, initial, names, text)?;
    let rest = read_table(alloc, set, tokens, &initial.registers, names, table, rest)?;
    let mut cond = tail_at(alloc, set, text, table.cores, names, rest)?;
    let words = &mut initial.words;
    parts_of(alloc, name, names.as_slice(), words, table, &mut cond)
}

/// The test without its header and its information lines.
fn body_of(
    alloc: Global,
    set: Instructions,
    name: &[u8],
    text: &[u8],
) -> Result<TestParts, ReadError>
    requires { IsUtf8 name.now }
    ensures { Gives (λ parts. litmus_of parts) result (inner.body_of set name.now text.now (stop_of set text.now) (tokens_in set text.now)) }
{
    let mut tokens = Vec::new(alloc);
    let mut names = Vec::new(alloc);
    let mut initial = nothing_given(alloc);
    let mut table = Table {
        cores: 0,
        registers: Vec::new(alloc),
        instrs: Vec::new(alloc),
    };
    body_with(
        alloc,
        set,
        name,
        text,
        &mut tokens,
        &mut names,
        &mut initial,
        &mut table,
    )
}

/// What [`test_or_fault`] answers, with the line of what is at fault.
///
/// Out of memory aside, a text that spells no test is refused for the first thing in it that is at
/// fault, with that place's line, and no other text is refused.
pub fn read_test(alloc: Global, text: &[u8]) -> Result<Test, TextFault>
    // What is answered is what the text spells, and a text that spells a test is answered with it.
    ensures found { IfOk result (λ test. SpellsTest Basic text.now test) }
    ensures only { (t : Litmus) → SpellsTest Basic text.now t → MatchResult result (λ test. test ≡ t) (λ f. f.why ≡ Why.NoMemory) }

    // A refusal is the one that the text gets, and a text that gets one is answered with it.
    ensures refused { IfErr result (λ f. f.why ≢ Why.NoMemory → IsRefused Basic text.now f) }
    ensures refuses { (fault : TextFault) → IsRefused Basic text.now fault → MatchResult result (λ _. ⊥) (λ f. f.why ≢ Why.NoMemory → f ≡ fault) }
    // Out of memory is at no line.
    ensures no_memory { IfErr result (λ f. f.why ≡ Why.NoMemory → f.line ≡ 0) }
{
    read_test_in(alloc, Instructions::Basic, text)
}

/// What [`read_test`] answers, where a text may spell these instructions.
pub fn read_test_in(alloc: Global, set: Instructions, text: &[u8]) -> Result<Test, TextFault>
    ensures found { IfOk result (λ test. SpellsTest set text.now test) }
    ensures only { (t : Litmus) → SpellsTest set text.now t → MatchResult result (λ test. test ≡ t) (λ f. f.why ≡ Why.NoMemory) }
    ensures refused { IfErr result (λ f. f.why ≢ Why.NoMemory → IsRefused set text.now f) }
    ensures refuses { (fault : TextFault) → IsRefused set text.now fault → MatchResult result (λ _. ⊥) (λ f. f.why ≢ Why.NoMemory → f ≡ fault) }
    ensures no_memory { IfErr result (λ f. f.why ≡ Why.NoMemory → f.line ≡ 0) }
{
    with_line(set, text, read_whole(alloc, set, text))
}

/// The test that a text spells, or the first thing in it that is at fault, with its place.
///
/// Out of memory aside, a text that spells no test is refused, and no other text is.
pub fn test_or_fault(alloc: Global, text: &[u8]) -> Result<Test, ReadError>
    ensures found { IfOk result (λ test. SpellsTest Basic text.now test) }
    ensures only { (t : Litmus) → SpellsTest Basic text.now t → MatchResult result (λ test. test ≡ t) (λ e. e ≡ ReadError.NoMemory) }
    // What is answered is at fault, and a text in which something is at fault is answered with it.
    ensures fault { (fault : Fault) → result ≡ Err (ReadError.Fault fault) → IsFault Basic text.now fault }
    ensures faults { (fault : Fault) → IsFault Basic text.now fault
        → MatchResult result (λ _. ⊥) (λ e. e ≢ ReadError.NoMemory → e ≡ ReadError.Fault fault) }
{
    test_or_fault_in(alloc, Instructions::Basic, text)
}

/// What [`test_or_fault`] answers, where a text may spell these instructions.
pub fn test_or_fault_in(alloc: Global, set: Instructions, text: &[u8]) -> Result<Test, ReadError>
    ensures found { IfOk result (λ test. SpellsTest set text.now test) }
    ensures only { (t : Litmus) → SpellsTest set text.now t → MatchResult result (λ test. test ≡ t) (λ e. e ≡ ReadError.NoMemory) }
    ensures fault { (fault : Fault) → result ≡ Err (ReadError.Fault fault) → IsFault set text.now fault }
    ensures faults { (fault : Fault) → IsFault set text.now fault
        → MatchResult result (λ _. ⊥) (λ e. e ≢ ReadError.NoMemory → e ≡ ReadError.Fault fault) }
{
    read_whole(alloc, set, text)
}

#[tactic(auto, using(crate::proofs::Within::name_is_text, crate::proofs::Within::spelled_is_test), unfolding(crate::specs::Reading::reading_of))]
fn read_whole(alloc: Global, set: Instructions, text: &[u8]) -> Result<Test, ReadError>
    ensures { Gives (λ test. test) result (inner.reading_of set text.now) }
{
    // No time is spent on a text that is too large.
    if text.len() > MAX_TEXT {
        return Err(ReadError::Fault(Fault {
            why: Why::TooLarge,
            remaining: text.len(),
        }));
    }
    let (name, rest) = header_at(text)?;
    let rest = braces_at(rest)?;
    let parts = body_of(alloc, set, name, rest)?;
    Ok(Test::from_valid_parts(parts))
}

/// What a reading of a text answers, with the line of a refusal.
#[tactic(auto, unfolding(crate::specs::inner::Reading::refusal_of))]
fn with_line(
    set: Instructions,
    text: &[u8],
    read: Result<Test, ReadError>,
) -> Result<Test, TextFault>
    requires { Gives (λ test. test) read (inner.reading_of set text.now) }
    ensures found { IfOk result (λ test. inner.reading_of set text.now ≡ Ok test) }
    ensures only { (t : Litmus) → inner.reading_of set text.now ≡ Ok t → MatchResult result (λ test. test ≡ t) (λ f. f.why ≡ Why.NoMemory) }
    ensures refused { IfErr result (λ f. f.why ≢ Why.NoMemory → spec.refusal_of set text.now ≡ Some f) }
    ensures refuses { (fault : TextFault) → spec.refusal_of set text.now ≡ Some fault → MatchResult result (λ _. ⊥) (IsUnlessMemory fault) }
    ensures no_memory { IfErr result (λ f. f.why ≡ Why.NoMemory → f.line ≡ 0) }
{
    match read {
        Ok(test) => Ok(test),
        Err(ReadError::NoMemory) => Err(TextFault {
            line: 0,
            why: Why::NoMemory,
        }),
        Err(ReadError::Fault(fault)) => Err(refusal_for(text, fault)),
    }
}

/// The refusal for a fault of a text, with the line of its place; out of memory is at no line.
pub fn refusal_for(text: &[u8], fault: Fault) -> TextFault
    ensures refusal { fault.why ≢ Why.NoMemory → result ≡ refusal text.now fault }
    ensures why { result.why ≡ fault.why }
    ensures no_memory { result.why ≡ Why.NoMemory → result.line ≡ 0 }
{
    let line = match fault.why {
        Why::NoMemory => 0,
        _ => line_of(text, fault.remaining),
    };
    TextFault {
        line,
        why: fault.why,
    }
}
