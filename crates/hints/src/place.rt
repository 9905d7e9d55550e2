//! The place of a fault in a text: a refusal has the line alone, and a hint names what is there.

use crate::quotes::{
    after_last, begins_with_digit, digits_and_letters, ends_with_name, last_bytes, last_word,
    token, up_to,
};
use litmus_tokens::line_of;

/// A text in two: what comes before a place, and what stands from there on.
#[derive(Clone, Copy)]
pub struct Place<'a> {
    pub text: &'a [u8],
    pub before: &'a [u8],
    pub rest: &'a [u8],
    /// The word or the byte that comes before it.
    pub last_word: &'a [u8],
    /// The token that is there.
    pub token: &'a [u8],
}

impl<'a> Place<'a> {
    /// The place from which so many bytes of a text stand.
    pub fn new(text: &'a [u8], remaining: usize) -> Place<'a> {
        let (before, rest) = text.split_at(text.len().saturating_sub(remaining));
        Place {
            text,
            before,
            rest,
            last_word: last_word(before),
            token: token(rest),
        }
    }

    /// The line on which it is, from 1.
    pub fn line(&self) -> usize {
        line_of(self.text, self.rest.len())
    }

    /// The line on which it is; where that is an empty one at the text's end, the line before it.
    pub fn line_with_bytes(&self) -> usize {
        let line = self.line();
        if self.rest.is_empty() && self.before.ends_with(b"\n") {
            line.saturating_sub(1).max(1)
        } else {
            line
        }
    }

    /// What comes after the last of these bytes before it.
    pub fn from_last(&self, stops: &[u8]) -> &'a [u8] {
        let count = after_last(self.before, stops).len();
        last_bytes(self.text, self.rest.len().saturating_add(count))
    }

    /// The line on which it is, from its beginning to its end.
    pub fn whole_line(&self) -> &'a [u8] {
        up_to(self.from_last(b"\n"), b'\n')
    }

    /// What comes before it on its line, without white space at its end.
    pub fn line_before(&self) -> &'a [u8] {
        after_last(self.before, b"\n").trim_ascii_end()
    }

    /// Whether nothing but white space comes before it on its line.
    pub fn is_first_on_line(&self) -> bool {
        self.line_before().is_empty()
    }

    /// Whether nothing but white space stands after its token on its line.
    pub fn is_last_on_line(&self) -> bool {
        let line = up_to(self.rest, b'\n');
        last_bytes(line, line.len().saturating_sub(self.token.len()))
            .trim_ascii()
            .is_empty()
    }

    /// What comes after its token, without white space before it.
    pub fn after_token(&self) -> &'a [u8] {
        let count = self.rest.len().saturating_sub(self.token.len());
        last_bytes(self.rest, count).trim_ascii_start()
    }

    /// All of the number that is there, also where it isn't decimal, or else the token.
    pub fn number_or_token(&self) -> &'a [u8] {
        if begins_with_digit(self.token) {
            digits_and_letters(self.rest)
        } else {
            self.token
        }
    }

    /// The letters, digits and underscores at it, those that stand right before it included.
    pub fn bare_word(&self) -> &'a [u8] {
        let count = if ends_with_name(self.before) {
            self.last_word.len()
        } else {
            0
        };
        digits_and_letters(last_bytes(self.text, self.rest.len().saturating_add(count)))
    }

    /// Which character of its line it is, from 1.
    pub fn column(&self) -> usize {
        let mut column = 1usize;
        for byte in after_last(self.before, b"\n") {
            // The further bytes of a character in UTF-8 are these.
            if !matches!(*byte, 0x80..=0xbf) {
                column = column.saturating_add(1);
            }
        }
        column
    }
}
