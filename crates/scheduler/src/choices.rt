//! The choices that a text spells, or its first fault. The limit is judged before an item's choices are made, so that three
//! words can't ask for more room than a text may.

ghost use Rattle.std.specs.Prelude.{◌≡◌, ◌≢◌, ◌<◌, List, IfOk, IfErr, MatchResult};
ghost use Rattle.scheduler.specs.Limits.{most_choices};
ghost use Rattle.scheduler.specs.Grammar.{WordsSpell, SpellsChoices};
ghost use Rattle.scheduler.specs.Refusals.{AreRefused, IsRefusedAsChoices};
ghost use Rattle.scheduler.specs.Words.{words_of_text};
ghost use Rattle.scheduler.specs.declared.fault.ChoiceFault.{ChoiceFault};
ghost use Rattle.tso_terms.specs.declared.choice.Choice.{Choice};

use crate::fault::ChoiceFault;
use crate::item::{is_seed, read_one, read_seeded};
use crate::words::first_word;
use std::alloc::Global;
use tso_terms::Choice;

/// Maximum number of choices of a text.
pub const MAX_CHOICES: usize = 100_000;

/// The limit of choices is the number that the definitions have: a law, with nothing to run.
pub fn limits_are_as_defined()
    ensures { MAX_CHOICES ≡ most_choices }
{}

fn choices_of(alloc: Global, cores: u8, text: &[u8]) -> Result<Vec<Choice>, ChoiceFault>
    requires { 0 < cores }
    ensures found { IfOk result (λ v. SpellsChoices cores text.now v.items) }
    ensures refused { IfErr result (λ f. f ≢ ChoiceFault.NoMemory → IsRefusedAsChoices cores text.now f) }
{
    let mut choices = Vec::new(alloc);
    let mut text = text;
    let mut words = 0;
    while let Some((word, after)) = first_word(text) {
        let room = MAX_CHOICES - choices.len();
        if is_seed(word) {
            let read = read_seeded(room, words + 1, after)?;
            read.item.push_to(&mut choices, cores)?;
            words += read.item.words();
            text = read.after;
        } else {
            choices.push(read_one(cores, room, words + 1, word)?)?;
            words += 1;
            text = after;
        }
    }
    Ok(choices)
}

/// The choices that a text spells in a test with so many cores (1 or more).
///
/// Words are separated by spaces, tabs, carriage returns and line feeds, and numbered from 1. An item is digits and `s` (that
/// core steps), digits and `d` (it drains), or the three words `seed N M` for the first M choices of the seed N. The
/// first item at fault decides:
///
/// - [`ChoiceFault::BadWord`]: the word has none of these forms; or it is `seed` with fewer than two words after it, else
///   an N that isn't all digits or is 2^64 or more, else an M that isn't all digits.
/// - [`ChoiceFault::NoSuchCore`]: the word names a core that the test hasn't.
/// - [`ChoiceFault::TooMany`]: with the choices of this item, which has none of these faults, there are more than
///   [`MAX_CHOICES`]. None of its choices is made.
/// - [`ChoiceFault::NoMemory`]: only where the allocator refused a growth.
pub fn read_choices(alloc: Global, cores: u8, text: &[u8]) -> Result<Vec<Choice>, ChoiceFault>
    requires { 0 < cores }

    // What is answered is what the text spells, and a text that spells choices is answered with them.
    ensures found { IfOk result (λ v. SpellsChoices cores text.now v.items) }
    ensures only { (choices : List Choice) → SpellsChoices cores text.now choices
        → MatchResult result (λ v. v.items ≡ choices) (λ f. f ≡ ChoiceFault.NoMemory) }

    // A refusal is the one that the text gets, and a text that gets one is answered with it.
    ensures refused { IfErr result (λ f. f ≢ ChoiceFault.NoMemory → IsRefusedAsChoices cores text.now f) }
    ensures refuses { (fault : ChoiceFault) → IsRefusedAsChoices cores text.now fault
        → MatchResult result (λ _. ⊥) (λ f. f ≢ ChoiceFault.NoMemory → f ≡ fault) }
{
    choices_of(alloc, cores, text)
}
