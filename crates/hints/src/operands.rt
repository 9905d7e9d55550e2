//! Cells with signs of AT&T's syntax, or with sums, that aren't known as a whole.

use crate::c_forms::{is_type, told_of_access};
use crate::instructions::{LOCKED, UNLOCKED};
use crate::larger_set::says_forms;
use crate::line::Line;
use crate::place::Place;
use crate::quotes::{
    after_last, digits_and_letters, first_bytes, first_word, is_all_digits, last_bytes, up_to_any,
};
use crate::tables::said_of_front;

const OF_STATEMENT: &str =
    "{} is an operand of a statement of assembly in C: write the register or the location that it names there, as EAX or [x]";

const PERCENT: &str =
    "{} is in AT&T's syntax: here a register has no %, a location stands in [ ], and the destination stands first, as in MOV EAX,[y]";

/// What ends a cell of a row, or what comes before rows.
pub const ENDS_OF_CELL: &[u8] = b"|;}\n";

/// The cell in which a place stands.
pub fn cell_at<'a>(place: &Place<'a>) -> &'a [u8] {
    up_to_any(place.from_last(ENDS_OF_CELL), ENDS_OF_CELL).trim_ascii()
}

/// What is said of an address that is computed in a cell: a hyphen may be meant as a part of a name.
pub fn said_of_sum(cell: &[u8]) -> &'static str {
    if cell.contains(&b'-') {
        "{}: no address is computed here, and a name has letters, digits and _ alone: use a location for each address, as [x1] or [x_1]"
    } else {
        "{}: no address is computed here: use a location for each address, and write its name alone, as [x1]"
    }
}

/// Whether a place stands in the brackets of a location.
pub fn is_in_brackets(place: &Place<'_>) -> bool {
    let inside = after_last(place.before, b"[]|;\n");
    let outside = first_bytes(
        place.before,
        place.before.len().saturating_sub(inside.len()),
    );
    outside.ends_with(b"[")
}

/// Says of a sum in the brackets of a location. Whether a sign is in one.
pub fn says_sum(line: &mut Line, place: &Place<'_>) -> bool {
    if !is_in_brackets(place) {
        return false;
    }
    let cell = cell_at(place);
    line.say_of(said_of_sum(cell), cell);
    true
}

/// Of a `%` before a register, or before an operand of a statement of C.
pub fn percent(line: &mut Line, place: &Place<'_>) {
    let operand = up_to_any(place.rest, b",;| \t\n");
    if is_of_statement(operand) {
        line.say_of(OF_STATEMENT, operand);
    } else {
        line.say_of(PERCENT, cell_at(place));
    }
}

/// Whether an operand has a number or a name as one of a statement of assembly in C, as `%0`, `%w1` or `%[x]`.
fn is_of_statement(operand: &[u8]) -> bool {
    match operand {
        [b'%', b'[', ..] => true,
        [b'%', letter, digits @ ..] => {
            is_all_digits(digits) && (letter.is_ascii_lowercase() && !b"r".contains(letter))
                || (letter.is_ascii_digit() && (digits.is_empty() || is_all_digits(digits)))
        }
        _ => false,
    }
}

/// Says of an instruction that isn't read, whatever the order of its operands. Whether a cell begins with one.
pub fn says_unread(line: &mut Line, cell: &[u8]) -> bool {
    let first = first_word(cell);
    if is_type(first) {
        return false;
    }
    let (name, unread) = if first.eq_ignore_ascii_case(b"LOCK") {
        let after = last_bytes(cell, cell.len().saturating_sub(first.len()));
        (first_word(after), LOCKED.as_slice())
    } else {
        (first, UNLOCKED.as_slice())
    };
    if says_forms(line, digits_and_letters(name)) {
        return true;
    }
    let Some(said) = said_of_front(unread, name).or(told_of_access(line, name)) else {
        return false;
    };
    line.say_of(said, name);
    true
}
