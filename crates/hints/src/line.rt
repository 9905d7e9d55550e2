//! The line of a hint while it is written: sentences, and what is in their gaps. A hint is short, so it is written into
//! an array, and no step takes memory.

use crate::quotes::{first_bytes, is_bare};
use litmus_tokens::Instructions;

/// Maximum length of the words of a hint, in bytes.
const MAX_WORDS: usize = 249;

/// Maximum length of what is shown of one thing, in bytes.
const MAX_SHOWN: usize = 32;

/// The digits to base 16.
const DIGITS: &[u8; 16] = b"0123456789ABCDEF";

/// What is in a gap of a sentence.
#[derive(Clone, Copy)]
pub enum Filling<'a> {
    /// These words.
    Text(&'a str),
    /// Bytes of the input: bare where they are a name or a number, and else in quotation marks.
    Named(&'a [u8]),
    /// Bytes of the input as they stand.
    Shown(&'a [u8]),
    /// A number.
    Number(usize),
    /// So many things, which this word names if there is one of them.
    Count(usize, &'a str),
    /// A character, by its code point.
    Character(char),
}

/// What is said last of an instruction or a number of the larger set.
const OPTION: &str = "; add --instructions all";

/// The words of a hint; those that it has no room for are left out. It has those for someone who asks for these instructions.
#[derive(Drop)]
pub struct Line {
    bytes: [u8; MAX_WORDS],
    length: usize,
    instructions: Instructions,
}

impl Line {
    /// No words.
    pub fn new() -> Line {
        Line {
            bytes: [0; MAX_WORDS],
            length: 0,
            instructions: Instructions::Basic,
        }
    }

    /// What is written from now on is for someone who asks for these instructions.
    pub fn ask_for(&mut self, instructions: Instructions) {
        self.instructions = instructions;
    }

    /// Whether all instructions are asked for.
    pub fn has_all(&self) -> bool {
        matches!(self.instructions, Instructions::All)
    }

    /// The first of two sentences, or the second where all instructions are asked for.
    pub fn choose(&self, basic: &'static str, all: &'static str) -> &'static str {
        if self.has_all() { all } else { basic }
    }

    /// Names the option that gives the larger set, if it isn't given.
    pub fn say_option(&mut self) {
        if !self.has_all() {
            self.say(OPTION);
        }
    }

    /// What is written.
    pub fn words(&self) -> &[u8] {
        first_bytes(&self.bytes, self.length)
    }

    /// Whether nothing is written.
    pub fn is_empty(&self) -> bool {
        self.length == 0
    }

    /// Writes a sentence without gaps.
    pub fn say(&mut self, sentence: &str) {
        self.push(sentence.as_bytes());
    }

    /// Writes a sentence; in its gap `{}`, if it has one, this is named.
    pub fn say_of(&mut self, sentence: &str, named: &[u8]) {
        self.say_with(sentence, &[Filling::Named(named)]);
    }

    /// Writes a sentence with this number in its gap.
    pub fn say_number(&mut self, sentence: &str, number: usize) {
        self.say_with(sentence, &[Filling::Number(number)]);
    }

    /// Writes a sentence; in its first gap this is named, and in its second stands this number.
    pub fn say_of_number(&mut self, sentence: &str, named: &[u8], number: usize) {
        self.say_with(sentence, &[Filling::Named(named), Filling::Number(number)]);
    }

    /// Writes a sentence, with what fills its gaps `{}`, in their order. What has no gap isn't written.
    pub fn say_with(&mut self, sentence: &str, fillings: &[Filling<'_>]) {
        let mut rest = sentence;
        for filling in fillings {
            if let Some((before, after)) = rest.split_once("{}") {
                self.push(before.as_bytes());
                self.push_filling(*filling);
                rest = after;
            }
        }
        self.push(rest.as_bytes());
    }

    fn push_filling(&mut self, filling: Filling<'_>) {
        match filling {
            Filling::Text(text) => self.push(text.as_bytes()),
            Filling::Named(name) if is_bare(name) => self.push_shown(name),
            Filling::Named(name) => {
                self.push(b"'");
                self.push_shown(name);
                self.push(b"'");
            }
            Filling::Shown(shown) => self.push_shown(shown),
            Filling::Number(number) => self.push_number(number),
            Filling::Count(count, unit) => {
                self.push_number(count);
                self.push(b" ");
                self.push(unit.as_bytes());
                if count != 1 {
                    self.push(b"s");
                }
            }
            Filling::Character(character) => self.push_code_point(character),
        }
    }

    fn push_number(&mut self, number: usize) {
        self.push(itoa::Buffer::new().format(number).as_bytes());
    }

    /// A character's code point, as `U+2227`: at least four digits.
    fn push_code_point(&mut self, character: char) {
        self.push(b"U+");
        let code_point = u32::from(character);
        for place in [5u32, 4, 3, 2, 1, 0] {
            let rest = code_point >> (4 * place);
            if place < 4 || rest > 0 {
                self.push(&[DIGITS[(rest % 16) as usize]]);
            }
        }
    }

    /// The bytes; of too many the first, and two points.
    fn push_shown(&mut self, shown: &[u8]) {
        if shown.len() <= MAX_SHOWN {
            return self.push(shown);
        }
        self.push(first_bytes(shown, MAX_SHOWN - 2));
        self.push(b"..");
    }

    fn push(&mut self, bytes: &[u8]) {
        for byte in bytes {
            if self.length < MAX_WORDS {
                self.bytes[self.length] = *byte;
                self.length += 1;
            }
        }
    }
}
