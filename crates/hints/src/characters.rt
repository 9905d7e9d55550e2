//! What is said of a byte that isn't printable: a character that other texts have is told by its code point, since a hint is
//! ASCII, with what stands for it here.

use crate::line::{Filling, Line};
use crate::place::Place;
use crate::quotes::first_bytes;
use crate::signs::DIVIDER;
use crate::tables::{Alike, said_of_front};
use crate::values::says_unequal;

/// Characters of a test's signs, and what stands for them.
static SIGNS: [Alike; 10] = [
    Alike("\u{2227} \u{22c0}", "write /\\"),
    Alike("\u{2228} \u{22c1}", "write \\/"),
    Alike("\u{ac}", "write ~"),
    Alike("\u{2203}", "write exists"),
    Alike("\u{2204}", "write ~exists"),
    Alike("\u{2200}", "write forall"),
    Alike("\u{2260}", "that 0:EAX isn't 1 is written ~(0:EAX=1)"),
    Alike(
        "\u{2502} \u{a6} \u{2503} \u{2223} \u{2758} \u{2551}",
        "cells are split by the vertical bar |",
    ),
    Alike(
        "\u{2190} \u{2254}",
        "a store is MOV [x],$1, a load MOV EAX,[x]",
    ),
    Alike(
        "\u{201c} \u{201d} \u{201e} \u{ab} \u{bb} \u{2018} \u{2019}",
        "write \" here and at its other end",
    ),
];

/// Characters that look like a minus.
static MINUSES: [Alike; 1] = [Alike(
    "\u{2212} \u{2010} \u{2011} \u{2013} \u{2014}",
    "a number has no sign: write -1 as 4294967295",
)];

/// Dashes, of which a line is meant as the dividing line.
static DASHES: [Alike; 1] = [Alike(
    "\u{2013} \u{2014} \u{2015} \u{2500} \u{2550} \u{2501}",
    DIVIDER,
)];

/// Characters that look like a space or like nothing, and what stands for them, in any text.
static BLANKS: [Alike; 2] = [
    Alike(
        "\u{a0} \u{2002} \u{2003} \u{2009} \u{202f} \u{3000}",
        "write a space",
    ),
    Alike(
        "\u{feff} \u{200b} \u{200c} \u{200d} \u{2060}",
        "leave it out, since it is invisible",
    ),
];

/// What is said of a byte with which colours of a terminal begin.
pub const COLOURS: &str =
    "the byte 27 begins a colour or another sign of a terminal: paste the text without colours";

/// Says of a byte that isn't printable, and of the character that it begins.
pub fn say_character(line: &mut Line, place: &Place<'_>, byte: u8) {
    let dashes = if place.is_first_on_line() {
        said_of_front(&DASHES, place.rest)
    } else {
        None
    };
    let minus = match said_of_front(&MINUSES, place.rest) {
        Some(_) if line.has_all() => Some("write -"),
        said => said,
    };
    let said = dashes
        .or(minus)
        .or(said_of_front(&SIGNS, place.rest))
        .unwrap_or("leave it out, or write it in ASCII; it may stand only in a comment");
    if byte == 27 {
        line.say(COLOURS);
    } else if !says_unequal_sign(line, place)
        && !says_wide(line, place)
        && !says_foreign_at(line, place, said)
    {
        line.say_number("the byte {} can't stand here", usize::from(byte));
    }
}

/// Says of U+2260 between a place and a number how that is written. Whether it stands there.
fn says_unequal_sign(line: &mut Line, place: &Place<'_>) -> bool {
    place.rest.starts_with(b"\xe2\x89\xa0") && says_unequal(line, place, 3)
}

/// Says of a sign of ASCII in the width of Chinese and Japanese characters. Whether one stands there.
fn says_wide(line: &mut Line, place: &Place<'_>) -> bool {
    let Some(character) = character_at(place.rest) else {
        return false;
    };
    let code_point = u32::from(character);
    if !matches!(code_point, 0xff01..=0xff5e) {
        return false;
    }
    // These characters stand in ASCII's order.
    let sign = [(code_point.wrapping_sub(0xfee0) & 127) as u8];
    line.say_with(
        "{}, in column {}, is as wide as a Chinese character: write {}",
        &[
            Filling::Character(character),
            Filling::Number(place.column()),
            Filling::Shown(&sign),
        ],
    );
    true
}

/// Says of the first character of a word or a line that isn't ASCII: what is blank is told as such, and of any other this is
/// said. Whether one is there.
pub fn says_foreign(line: &mut Line, text: &[u8], said: &str) -> bool {
    for at in 0..text.len() {
        if !text[at].is_ascii() {
            return says_foreign_at(line, &Place::new(text, text.len() - at), said);
        }
    }
    false
}

/// Says of the first character that isn't ASCII in a word that begins at a place. Whether one is there.
pub fn says_foreign_in(line: &mut Line, place: &Place<'_>, word: &[u8], said: &str) -> bool {
    for at in 0..word.len() {
        if !word[at].is_ascii() {
            let remaining = place.rest.len().saturating_sub(at);
            return says_foreign_at(line, &Place::new(place.text, remaining), said);
        }
    }
    false
}

/// Says of a character that isn't ASCII what stands for it where it is blank, and else this. Whether one is there.
fn says_foreign_at(line: &mut Line, place: &Place<'_>, said: &str) -> bool {
    let Some(character) = character_at(place.rest) else {
        return false;
    };
    line.say_with(
        "{}, in column {}, isn't ASCII: {}",
        &[
            Filling::Character(character),
            Filling::Number(place.column()),
            Filling::Text(said_of_front(&BLANKS, place.rest).unwrap_or(said)),
        ],
    );
    true
}

/// The character at the front of a text, if it is in UTF-8 and not ASCII.
fn character_at(text: &[u8]) -> Option<char> {
    match text.first() {
        Some(first) if !first.is_ascii() => {}
        _ => return None,
    }
    for length in 2..5 {
        if let Ok(text) = str::from_utf8(first_bytes(text, length)) {
            return text.chars().next();
        }
    }
    None
}
