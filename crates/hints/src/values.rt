//! What stands behind the place of an atom in place of `=` and a number, or behind its number: another sign, more of the number, a further
//! value, or a second place.

use crate::faults::CONNECTIVES;
use crate::items::is_no_number;
use crate::line::{Filling, Line};
use crate::place::Place;
use crate::quotes::{
    after_last, begins_with_digit, digits_at, ends_with_name, first_bytes, is_all_digits,
    last_bytes, up_to, up_to_any,
};
use crate::tables::{is_exactly_one_of, is_one_of};
use tso_terms::Reg;
use tso_terms::names::{continues_name, is_location_name};

/// What is said of several values.
pub const VALUES: &str =
    "{}: write an atom for each value, joined by \\/, as (0:EAX=0 \\/ 0:EAX=1)";

/// What is said of two places that are compared.
pub const EQUAL: &str =
    "{}: an atom compares a place with one number: that two places are equal is written (0:EAX=0 /\\ x=0) \\/ (0:EAX=1 /\\ x=1)";

const UNEQUAL: &str = "{}: that {} isn't {} is written ~({}={})";

const EQUAL_PLACES: &str =
    "{}: an atom compares a place with one number: that two places are equal is written ({}=0 /\\ {}=0) \\/ ({}=1 /\\ {}=1)";

/// What parts the atoms of a condition.
const AROUND: &[u8] = b"()~/\\&|,; \t\r\n";

/// Says of a sign at a place, of so many bytes, how it is written that the place before it hasn't the number behind it. Whether both are
/// there.
pub fn says_unequal(line: &mut Line, place: &Place<'_>, sign: usize) -> bool {
    let named = after_last(place.before.trim_ascii_end(), AROUND);
    let after = last_bytes(place.rest, place.rest.len().saturating_sub(sign));
    let after = after.trim_ascii_start();
    let number = digits_at(after);
    if number.is_empty() || goes_on(after, number.len()) || !is_place(named) {
        return false;
    }
    let written = if place.rest.starts_with(b"\xe2") {
        Filling::Character('\u{2260}')
    } else {
        Filling::Named(first_bytes(place.rest, sign))
    };
    line.say_with(
        UNEQUAL,
        &[
            written,
            Filling::Shown(named),
            Filling::Shown(number),
            Filling::Shown(named),
            Filling::Shown(number),
        ],
    );
    true
}

/// Whether a name goes on behind so many bytes.
fn goes_on(text: &[u8], count: usize) -> bool {
    match text.get(count) {
        Some(next) => continues_name(*next),
        None => false,
    }
}

/// Says how it is written that two places are equal, where a place is at fault behind another one and `=`. Whether it is.
pub fn says_equal_places(line: &mut Line, place: &Place<'_>) -> bool {
    let core = if place.rest.starts_with(b":") && ends_with_name(place.before) {
        place.last_word.len()
    } else {
        0
    };
    let before = first_bytes(place.before, place.before.len().saturating_sub(core));
    let Some(named) = before.trim_ascii_end().strip_suffix(b"=") else {
        return false;
    };
    let first = after_last(named.trim_ascii_end(), AROUND);
    let second = last_bytes(place.text, place.rest.len().saturating_add(core));
    let second = up_to_any(second, AROUND);
    if !is_place(first) || !is_place(second) || is_for_number(second) {
        return false;
    }
    line.say_with(
        EQUAL_PLACES,
        &[
            Filling::Named(place.token),
            Filling::Shown(first),
            Filling::Shown(second),
            Filling::Shown(first),
            Filling::Shown(second),
        ],
    );
    true
}

/// Whether a name stands for a number, in other languages or by a slip.
fn is_for_number(word: &[u8]) -> bool {
    is_no_number(word) || is_one_of("O l I", word)
}

/// Whether a word is a place as a condition has it: `x`, `[x]` or `0:EAX`.
fn is_place(word: &[u8]) -> bool {
    let inside = match word.strip_prefix(b"[") {
        Some(inside) => inside.strip_suffix(b"]").unwrap_or(b""),
        None => word,
    };
    let core = up_to(inside, b':');
    let name = last_bytes(inside, inside.len().saturating_sub(core.len()));
    match name.strip_prefix(b":") {
        Some(name) => is_all_digits(core) && Reg::from_name(name).is_some(),
        None => is_location_name(inside),
    }
}

/// What is said of what stands behind a value, of a second sign, or of a connective.
pub fn said_of_further_value(place: &Place<'_>) -> Option<&'static str> {
    let token = place.token;
    if is_exactly_one_of(",", token) && is_in_number(place) {
        Some("{}: a number has digits alone: leave the comma out")
    } else if begins_further_value(place) {
        Some(VALUES)
    } else if goes_on_after_value(place) {
        Some(EQUAL)
    } else if is_one_of("| and or", token)
        || (is_exactly_one_of("=", token) && is_exactly_one_of("=", place.last_word))
    {
        Some(CONNECTIVES)
    } else {
        None
    }
}

/// Whether a comma stands between digits of a number, before three of them.
fn is_in_number(place: &Place<'_>) -> bool {
    let after = last_bytes(place.rest, place.rest.len().saturating_sub(1));
    matches!(place.before.last(), Some(last) if last.is_ascii_digit())
        && digits_at(after).len() == 3
}

/// Whether a further value of a place stands behind a sign or a word that joins, or several in brackets.
fn begins_further_value(place: &Place<'_>) -> bool {
    let (token, last) = (place.token, place.last_word);
    let next = place.after_token();
    let next = next.strip_prefix(b"-").unwrap_or(next);
    let digits = digits_at(next);
    if is_exactly_one_of("=", last) {
        return is_exactly_one_of("{ [", token) && !digits.is_empty();
    }
    let after = last_bytes(next, next.len().saturating_sub(digits.len()));
    begins_with_digit(last)
        && is_one_of(", | or", token)
        && !digits.is_empty()
        && !after.trim_ascii_start().starts_with(b":")
}

/// Whether an atom goes on behind its value, as with a second place.
fn goes_on_after_value(place: &Place<'_>) -> bool {
    let (before, last) = (place.before.trim_ascii_end(), place.last_word);
    let place_and_sign = first_bytes(before, before.len().saturating_sub(last.len()));
    is_exactly_one_of(": =", place.token)
        && begins_with_digit(last)
        && place_and_sign.trim_ascii_end().ends_with(b"=")
}
