//! What is said of a hyphen or a point, and what stands about a sign: a number, or an operand.

use crate::c_forms::said_of_access;
use crate::faults::LEAVE_OUT;
use crate::keywords::{begins_instruction, is_instruction};
use crate::line::{Filling, Line};
use crate::numbers::{is_of_larger_set, number_in};
use crate::operands::is_in_brackets;
use crate::place::Place;
use crate::quotes::{
    begins_with_digit, begins_with_letter, digits_and_letters, ends_with_name, first_bytes,
    is_all_digits, last_bytes, token,
};
use crate::region::Region;
use crate::registers::is_register;
use crate::signs::{after_first, is_core};
use crate::tables::is_exactly_one_of;

/// What is said of another sign between cells.
pub const BAR: &str = "{}: cells are split by the vertical bar |";

const COMMA: &str = "{}: a comma stands between two operands, as in MOV [x],$1 and MOV EAX,[x]";

const ITEMS: &str = "{}: write ; between items, as x=1; y=1";

/// What is said of a sign in a name.
pub const NAMES: &str = "{}: a name has letters, digits and _ alone: write _ in its place";

/// What is said of another sign between a core and its register.
pub const CORE_AND_REGISTER: &str =
    "{}: a register is written after its core and a colon, as 0:EAX";

/// What is said of the number of a core that has a sign or isn't decimal.
pub const CORE: &str = "{}: a core is its number in decimal digits alone, as in 0:EAX";

/// The least value of a number with a sign, without its sign.
const LEAST: u32 = 2_147_483_648;

/// Of a hyphen: in a name, before a number, or in a cell that is meant to be empty.
pub fn minus(line: &mut Line, place: &Place<'_>) {
    let after = after_first(place.rest).trim_ascii_start();
    let digits = digits_and_letters(after);
    let behind = last_bytes(after, after.len().saturating_sub(digits.len()));
    if ends_with_name(place.before) {
        line.say_of(NAMES, place.token);
    } else if !begins_with_digit(digits) {
        line.say_of(LEAVE_OUT, place.token);
    } else if behind.trim_ascii_start().starts_with(b":") {
        line.say_of(CORE, b"-");
    } else if line.has_all() {
        line.say_of(LEAVE_OUT, place.token);
    } else {
        say_unsigned(line, digits);
    }
}

/// Says of a number behind a sign what it is without one.
fn say_unsigned(line: &mut Line, digits: &[u8]) {
    let sentence = if is_all_digits(digits) {
        "a number has no sign: write -{} as {}"
    } else {
        "a number is decimal and has no sign: write -{} as {}"
    };
    match number_in(digits) {
        None => line.say("a number has no sign: values are 0 to 4294967295"),
        Some(value) => {
            let unsigned = 0u32.wrapping_sub(value);
            line.say_with(
                sentence,
                &[Filling::Shown(digits), Filling::Number(unsigned as usize)],
            );
            if value <= LEAST && is_of_larger_set(digits) {
                line.say(", or add --instructions all");
            }
        }
    }
}

/// Of a point: between a core and its register, in a name, or at an end.
pub fn point(place: &Place<'_>) -> &'static str {
    let last = place.last_word;
    let after = after_first(place.rest);
    if is_exactly_one_of("$", last) {
        return NAMES;
    }
    if is_instruction(last) || said_of_access(last).is_some() {
        if is_register(digits_and_letters(after)) {
            "{}: write a space in its place, between an instruction and its operands"
        } else {
            "{}: the name of an instruction has no point: leave it out, with what stands after it"
        }
    } else if !ends_with_name(place.before) || digits_and_letters(after).is_empty() {
        LEAVE_OUT
    } else if !begins_with_letter(after) {
        "{}: a value is a whole number: write one without a point"
    } else if is_all_digits(last) || is_core(last) {
        CORE_AND_REGISTER
    } else {
        NAMES
    }
}

/// What is said of a sign that stands where another one is to stand: between cells, operands or items, in a name, or between a core and
/// its register.
pub fn said_between(place: &Place<'_>, region: Region) -> Option<&'static str> {
    let after = after_first(place.rest);
    let next = token(after.trim_ascii_start());
    match region {
        Region::Rows if begins_cell(place) => None,
        Region::Rows if begins_instruction(next) || is_core(next) => Some(BAR),
        Region::Rows if is_in_brackets(place) => {
            let is_inside_name = ends_with_name(place.before) && begins_with_letter(after);
            if is_inside_name && !b"+-*".contains(&byte_at(place)) {
                Some(NAMES)
            } else {
                None
            }
        }
        Region::Rows if is_for_comma(place) => Some(COMMA),
        Region::Initial | Region::Condition if is_of_core(place) => Some(CORE_AND_REGISTER),
        Region::Initial if is_all_digits(place.last_word) && begins_with_letter(next) => {
            Some(ITEMS)
        }
        _ => None,
    }
}

/// The byte at a place, or a space at an end.
fn byte_at(place: &Place<'_>) -> u8 {
    place.rest.first().copied().unwrap_or(b' ')
}

/// Whether a place begins a cell.
fn begins_cell(place: &Place<'_>) -> bool {
    let before = place.line_before();
    before.is_empty() || before.ends_with(b"|") || before.ends_with(b";")
}

/// Whether a register or a location stands before a sign, and an operand behind it.
fn is_for_comma(place: &Place<'_>) -> bool {
    let after = after_first(place.rest).trim_ascii_start();
    let is_place = is_exactly_one_of("]", place.last_word);
    let begins_operand = after.starts_with(b"[")
        || after.starts_with(b"$")
        || is_register(token(after));
    (is_place || is_register(place.last_word))
        && (begins_operand || (is_place && begins_with_digit(after)))
}

/// Whether a number that is no value stands before a sign, and a register behind it.
pub fn is_of_core(place: &Place<'_>) -> bool {
    let before = place.before.trim_ascii_end();
    let before = first_bytes(before, before.len().saturating_sub(place.last_word.len()));
    is_all_digits(place.last_word)
        && !before.trim_ascii_end().ends_with(b"=")
        && !before.trim_ascii_end().ends_with(b":")
        && is_register(token(place.after_token()))
}

/// Whether a number stands before a sign, and another one or a name behind it, as in what is to be computed.
pub fn goes_on_after_number(place: &Place<'_>) -> bool {
    let after = after_first(place.rest).trim_ascii_start();
    is_all_digits(place.last_word)
        && !is_instruction(digits_and_letters(after))
        && matches!(after.first(), Some(next) if next.is_ascii_alphanumeric() || b"<>(~-".contains(next))
}
