//! The choices of a run, one after the other: those of a list, or those of a seed, drawn as they are asked for. So a sweep
//! keeps no list, and what runs a test needn't know which of the two it has.

ghost use Rattle.std.specs.Prelude.{◌≡◌, ◌<◌, List, length, map};
ghost use Rattle.tso_terms.specs.Runs.{CoresExist};
ghost use Rattle.tso_terms.specs.declared.choice.Choice.{Choice};
ghost use Rattle.scheduler.specs.inner.Coming.{IsNext};
ghost use Rattle.scheduler.specs.Seeds.{choice_of_word, drawn_words, seeded_choices};

use crate::seeds::choice_of_word;
use rand_core::SeedableRng;
use rand_core::utils::NextWord;
use rand_pcg::Lcg64Xsh32;
use tso_terms::Choice;

/// Choices that come one after the other.
pub trait Choices {
    ghost coming: { Self → List Choice };

    /// The next choice, or `None` where there is none left.
    fn next(&mut self) -> Option<Choice>
        ensures { IsNext (coming self.old) result (coming self.new) };

    /// How many choices are left.
    fn left(&self) -> usize
        ensures { result ≡ length (coming self.now) };
}

/// The choices of a list.
#[derive(Drop)]
pub struct Listed<'a> {
    choices: &'a [Choice],
}

impl<'a> Listed<'a> {
    /// The choices of this list.
    pub fn new(choices: &'a [Choice]) -> Self
        ensures { result.choices.now ≡ choices.now }
    {
        Listed { choices }
    }
}

impl<'a> Choices for Listed<'a> {
    ghost coming = { λ l. l.choices.now };

    fn next(&mut self) -> Option<Choice> {
        let Some((first, rest)) = self.choices.split_first() else {
            return None;
        };
        self.choices = rest;
        Some(*first)
    }

    fn left(&self) -> usize {
        self.choices.len()
    }
}

/// The first choices of a seed, drawn as they are asked for.
#[derive(Drop)]
pub struct Seeded {
    generator: Lcg64Xsh32,
    cores: u8,
    left: usize,
    ghost some: { 0 < cores },
}

impl Seeded {
    /// The first `count` choices of a seed in a test with so many cores: `seed N M` in a choice text.
    pub fn new(cores: u8, seed: u64, count: usize) -> Self
        requires { 0 < cores }
        ensures exact { map (choice_of_word result.cores) (drawn_words result.left result.generator) ≡ seeded_choices cores seed count }
        ensures cores { CoresExist cores (seeded_choices cores seed count) }
    {
        Seeded {
            generator: Lcg64Xsh32::seed_from_u64(seed),
            cores,
            left: count,
        }
    }
}

impl Choices for Seeded {
    ghost coming = { λ s. map (choice_of_word s.cores) (drawn_words s.left s.generator) };

    fn next(&mut self) -> Option<Choice> {
        if self.left == 0 {
            return None;
        }
        self.left -= 1;
        Some(choice_of_word(self.cores, self.generator.next_word()))
    }

    fn left(&self) -> usize {
        self.left
    }
}
