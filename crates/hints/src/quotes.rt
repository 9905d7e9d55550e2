//! What is at a place of a text: the bytes that a hint names. They go by white space and names alone, since the text
//! may be none that a lexer takes.

use crate::tables::is_exactly_one_of;
use memchr::memchr;
use tso_terms::names::continues_name;

/// White space.
const SPACES: &[u8] = b" \t\r\n";

/// The first so many bytes, or all where there are fewer.
pub fn first_bytes(bytes: &[u8], count: usize) -> &[u8] {
    let (first, _) = bytes.split_at(count.min(bytes.len()));
    first
}

/// The last so many bytes, or all where there are fewer.
pub fn last_bytes(bytes: &[u8], count: usize) -> &[u8] {
    let (_, last) = bytes.split_at(bytes.len().saturating_sub(count));
    last
}

/// Whether these are digits, one or more.
pub fn is_all_digits(bytes: &[u8]) -> bool {
    !bytes.is_empty() && digits_at(bytes).len() == bytes.len()
}

/// Whether these are letters, digits and underscores, one or more.
pub fn is_bare(bytes: &[u8]) -> bool {
    !bytes.is_empty() && digits_and_letters(bytes).len() == bytes.len()
}

/// The name or the digits at the front, as long as they go; or `/\` or `\/`; or else one byte.
pub fn token(text: &[u8]) -> &[u8] {
    let digits = digits_at(text);
    let name = digits_and_letters(text);
    if !digits.is_empty() {
        digits
    } else if !name.is_empty() {
        name
    } else if text.starts_with(b"/\\") || text.starts_with(b"\\/") {
        first_bytes(text, 2)
    } else {
        first_bytes(text, 1)
    }
}

/// The digits at the front.
pub fn digits_at(text: &[u8]) -> &[u8] {
    for at in 0..text.len() {
        if !text[at].is_ascii_digit() {
            return &text[..at];
        }
    }
    text
}

/// The letters, digits and underscores at the front.
pub fn digits_and_letters(text: &[u8]) -> &[u8] {
    for at in 0..text.len() {
        if !continues_name(text[at]) {
            return &text[..at];
        }
    }
    text
}

/// What comes before the next white space.
pub fn word(text: &[u8]) -> &[u8] {
    up_to_any(text, SPACES)
}

/// The first word of a text, or no bytes.
pub fn first_word(text: &[u8]) -> &[u8] {
    word(text.trim_ascii_start())
}

/// What comes before the first such byte, or all where there is none.
pub fn up_to(text: &[u8], stop: u8) -> &[u8] {
    match memchr(stop, text) {
        Some(at) => first_bytes(text, at),
        None => text,
    }
}

/// What comes before the first of these bytes, or all where there is none.
pub fn up_to_any<'a>(text: &'a [u8], stops: &[u8]) -> &'a [u8] {
    for at in 0..text.len() {
        if stops.contains(&text[at]) {
            return &text[..at];
        }
    }
    text
}

/// What comes after the last of these bytes, or all where there is none.
pub fn after_last<'a>(text: &'a [u8], stops: &[u8]) -> &'a [u8] {
    for at in (0..text.len()).rev() {
        if stops.contains(&text[at]) {
            return &text[at + 1..];
        }
    }
    text
}

/// What comes after the first such byte, or no bytes where there is none.
pub fn after_byte(text: &[u8], byte: u8) -> &[u8] {
    for at in 0..text.len() {
        if text[at] == byte {
            return &text[at + 1..];
        }
    }
    &[]
}

/// The letters, digits and underscores that a text ends with, white space aside; or else its last byte.
pub fn last_word(text: &[u8]) -> &[u8] {
    let text = text.trim_ascii_end();
    let mut count = 0usize;
    for at in (0..text.len()).rev() {
        if !continues_name(text[at]) {
            break;
        }
        count = count.saturating_add(1);
    }
    last_bytes(text, count.max(1))
}

/// Whether these bytes stand somewhere in a text.
pub fn has(text: &[u8], wanted: &[u8]) -> bool {
    for at in 0..text.len() {
        if text[at..].starts_with(wanted) {
            return true;
        }
    }
    false
}

/// Whether a text ends with a letter, a digit or an underscore.
pub fn ends_with_name(text: &[u8]) -> bool {
    match text.last() {
        Some(last) => continues_name(*last),
        None => false,
    }
}

/// Whether a text begins with a digit.
pub fn begins_with_digit(text: &[u8]) -> bool {
    match text.first() {
        Some(first) => first.is_ascii_digit(),
        None => false,
    }
}

/// Whether a text begins with a letter.
pub fn begins_with_letter(text: &[u8]) -> bool {
    match text.first() {
        Some(first) => first.is_ascii_alphabetic(),
        None => false,
    }
}

/// Whether a line is a row of cores, or begins one.
pub fn is_row_of_cores(line: &[u8]) -> bool {
    let line = line.trim_ascii_start();
    let line = line.strip_prefix(b"|").unwrap_or(line);
    match line.trim_ascii_start().strip_prefix(b"P0") {
        Some(after) => {
            let after = after.trim_ascii_start();
            after.is_empty()
                || after.starts_with(b";")
                || after.starts_with(b"|")
                || after.starts_with(b"P1")
        }
        None => false,
    }
}

/// Whether a word is a choice of one core, or begins those of a seed.
pub fn is_choice(word: &[u8]) -> bool {
    match word.split_last() {
        Some((b's' | b'd', digits)) => is_all_digits(digits) || is_exactly_one_of("seed", word),
        _ => false,
    }
}
