//! What is said of choices: the word at fault, and which words may be there.

use crate::characters::says_foreign;
use crate::divider::begins_order;
use crate::faults::{MARKDOWN, ONE_TEST};
use crate::hinting::NOTHING_KNOWN;
use crate::line::{Filling, Line};
use crate::quotes::{digits_at, is_all_digits, last_bytes, word};
use crate::tables::{Alike, is_exactly_one_of, is_one_of, said_of, said_of_front};
use scheduler::{ChoiceFault, MAX_CHOICES};

/// Says what is at fault in choices of a test with so many cores, with the word.
pub fn say_choices(line: &mut Line, cores: u8, text: &[u8], fault: ChoiceFault) {
    match fault {
        ChoiceFault::BadWord(number) => {
            let (word, part) = begin_word(line, text, number);
            if says_foreign(line, word, "choices are 0s, 0d and seed N M") {
                return;
            }
            match part {
                Part::First => bad_first(line, word),
                Part::Seed => line.say_of(
                    "{} is no seed: in seed N M the seed N is a number below 2^64",
                    word,
                ),
                Part::Count => line.say_of_number(
                    "{} is no number: in seed N M there are M choices, at most {}",
                    word,
                    MAX_CHOICES,
                ),
            }
        }
        ChoiceFault::NoSuchCore(number) => {
            let (word, _) = begin_word(line, text, number);
            line.say_with(
                "{}: the test has {}, numbered from 0",
                &[
                    Filling::Named(word),
                    Filling::Count(usize::from(cores), "core"),
                ],
            );
        }
        ChoiceFault::TooMany(number) => {
            let (word, _) = begin_word(line, text, number);
            line.say_of_number("{} goes over the limit of {} choices", word, MAX_CHOICES);
        }
        ChoiceFault::NoMemory => line.say(NOTHING_KNOWN),
    }
}

/// Says that more choices are used than a trace as JSON may have steps: this word says the first one beyond.
pub fn too_many_steps(line: &mut Line, text: &[u8], number: usize, most: usize) {
    let (word, _) = begin_word(line, text, number);
    line.say_of_number(
        "{} goes over the limit of {} choices for --json; without --json a trace may use more",
        word,
        most,
    );
}

/// Which word of its item a word is.
#[derive(Clone, Copy)]
enum Part {
    First,
    Seed,
    Count,
}

/// Says of which word of choices the hint is, from 1; that word, and which word of its item it is.
fn begin_word<'a>(line: &mut Line, text: &'a [u8], number: usize) -> (&'a [u8], Part) {
    line.say_number("word {}: ", number);
    let mut part = Part::First;
    let mut place = 0usize;
    let mut rest = text;
    // If there is one piece more than these, all are empty.
    for _ in 0..text.len() {
        let word = word(rest);
        if !word.is_empty() {
            place = place.saturating_add(1);
            if place == number {
                return (word, part);
            }
            part = match part {
                Part::First if is_exactly_one_of("seed", word) => Part::Seed,
                Part::Seed => Part::Count,
                _ => Part::First,
            };
        }
        if word.len() >= rest.len() {
            break;
        }
        rest = &rest[word.len() + 1..];
    }
    (&[], part)
}

/// What is said of a word that is no choice, by how it begins.
static BEGINNINGS: [Alike; 6] = [
    Alike(
        "# // (* /* -- ;",
        "{}: choices have no comments: leave it out",
    ),
    Alike("```", MARKDOWN),
    Alike("X86", ONE_TEST),
    Alike(
        "=",
        "{}: an input has only one line ====, between the test and the choices",
    ),
    Alike(
        "exists forall ~",
        "{} begins a condition, which stands before the line ====",
    ),
    Alike(
        "seed rand",
        "{}: write seed N M, as seed 1 1000, in small letters with spaces between",
    ),
];

/// What is said of a word that is no choice, by the whole of it.
static WORDS: [Alike; 4] = [
    Alike(
        "seed",
        "write two numbers after seed, the seed and how many choices it makes, as in seed 1 1000",
    ),
    Alike(
        "By Choices choices:",
        "{} is no choice: leave it out, and all but choices as 0s 1s 0d",
    ),
    Alike(
        "drain flush commit dequeue",
        "{} is no choice: that core 0 drains a store is 0d",
    ),
    Alike(
        "step execute exec issue s",
        "{} is no choice: that core 0 steps is 0s",
    ),
];

fn bad_first(line: &mut Line, word: &[u8]) {
    let is_seed = is_exactly_one_of("seed", word);
    if is_all_digits(word) {
        // A letter belongs to the number.
        let core = if word.len() < 10 {
            Filling::Shown(word)
        } else {
            Filling::Text("0")
        };
        return line.say_with(
            "{} lacks its letter: {}s steps that core, {}d drains it, with no space between",
            &[Filling::Named(word), core, core],
        );
    }
    let said = if begins_order(word) {
        Some("{} begins an order, which check and witness read: run reads choices")
    } else if is_seed || !is_one_of("seed", word) {
        said_of(&WORDS, word)
    } else {
        None
    };
    match said.or(said_of_front(&BEGINNINGS, word)) {
        Some(said) => line.say_of(said, word),
        None => other_first(line, word),
    }
}

/// Of a word that is no choice, by the one number that it has, if it has one.
fn other_first(line: &mut Line, word: &[u8]) {
    if word.contains(&b',') || word.contains(&b';') {
        return line.say_of("{}: only spaces and line ends stand between choices", word);
    }
    let core = digits_at(after_no_digits(word));
    let after = last_bytes(word, after_no_digits(word).len().saturating_sub(core.len()));
    if core.is_empty() {
        return line.say_of(
            "{} is no choice: 0s (core 0 steps), 0d (core 0 drains) or seed N M",
            word,
        );
    }
    if !digits_at(after_no_digits(after)).is_empty() {
        return line.say_of(
            "{} is no choice: 0s (core 0 steps) or 0d (core 0 drains), with spaces between choices",
            word,
        );
    }
    let small = match word.split_last() {
        Some((b'S' | b'D', digits)) if is_all_digits(digits) => ", in small letters",
        _ => "",
    };
    let letter = if has_letter(word, b"dD") {
        "d"
    } else if has_letter(word, b"sS") {
        "s"
    } else {
        return line.say_with(
            "{}: write {}s where core {} steps, and {}d where it drains a store",
            &[
                Filling::Named(word),
                Filling::Shown(core),
                Filling::Shown(core),
                Filling::Shown(core),
            ],
        );
    };
    line.say_with(
        "{}: write {}{}{}",
        &[
            Filling::Named(word),
            Filling::Shown(core),
            Filling::Text(letter),
            Filling::Text(small),
        ],
    );
}

/// What stands from the first digit on.
fn after_no_digits(word: &[u8]) -> &[u8] {
    for at in 0..word.len() {
        if word[at].is_ascii_digit() {
            return &word[at..];
        }
    }
    &[]
}

/// Whether one of these letters is in a word.
fn has_letter(word: &[u8], letters: &[u8]) -> bool {
    for letter in word {
        if letters.contains(letter) {
            return true;
        }
    }
    false
}
