//! What is said of a fault in a test: each name of a refusal has its words, chosen by what is at the place of the fault.

use crate::body::body_of;
use crate::cells::bad_instruction;
use crate::columns::bad_columns;
use crate::conditions::{bad_condition, trailing};
use crate::divider::Asked;
use crate::forms::{in_cell, says_form};
use crate::headers::no_header;
use crate::hinting::NOTHING_KNOWN;
use crate::hyphens::stray_hyphen;
use crate::items::{bad_init, says_information};
use crate::keywords::says_no_row;
use crate::larger_set::says_larger_set;
use crate::line::Line;
use crate::numbers::{GREATEST, bad_number, digits_to, is_of_larger_set, number_in};
use crate::openings::{bad_token, unclosed};
use crate::place::Place;
use crate::points::CORE;
use crate::quotes::{
    begins_with_digit, digits_and_letters, ends_with_name, first_bytes, is_all_digits,
    is_row_of_cores, last_bytes, up_to, up_to_any,
};
use crate::rows::{bars_in, too_large, wrong_cells};
use litmus_reader::Why;
use litmus_tokens::line_of;
use std::alloc::Global;
use tso_terms::NoMemory;

/// What is said of a comment of another form.
pub const COMMENT: &str = "a comment is written (* .. *)";

/// What is said of a second test.
pub const ONE_TEST: &str =
    "a second test begins here: an input has only one, so run tso once for each test; the tool campaign takes many";

const DIGITS: &str =
    "{} begins with a digit, as a number: a name begins with a letter or _, and a number has decimal digits, or hexadecimal ones behind 0x";

const ONE_HEADER: &str =
    "a second header stands here: a test has one line X86 NAME: leave one of the two out";

/// What is said of a sign or a word that other programs write in a condition.
pub const CONNECTIVES: &str =
    "{}: in a condition write /\\ for and, \\/ for or, ~ for not, and = alone";

/// What is said of an implication.
pub const IMPLICATION: &str = "{}: that a implies b is written ~(a) \\/ (b)";

/// What is said of an equivalence.
pub const EQUIVALENCE: &str =
    "{}: that a and b are both so, or neither, is written (a /\\ b) \\/ (~(a) /\\ ~(b))";

/// What is said of a sign that stands for no other.
pub const LEAVE_OUT: &str = "{} can't stand here: leave it out";

/// What is said of a line that encloses a text in Markdown.
pub const MARKDOWN: &str =
    "``` encloses a text in Markdown: leave this line out, and the other one too";

/// What is said of a condition before rows.
pub const COMES_LAST: &str = "{} begins the condition, which comes last: write it below the rows";

/// What is said of a sign that ends a row in the place of `;`.
pub const ENDS_ROW: &str = "{} ends this row: write ; in its place, here and at each row's end";

/// What is said of brackets of another form in a condition.
pub const ONLY_ROUND: &str = "{}: only ( ) stand around parts of a condition";

/// What is said of an assignment.
pub const STORE_AND_LOAD: &str =
    "{}: a store is MOV [x],$1, a load MOV EAX,[x], and a register is set by MOV EAX,$1";

/// What is said of an element of an array.
pub const NO_ARRAYS: &str =
    "{}: there are no arrays: use a location for each element, as x0 and x1";

/// What is said of a word that is neither a name nor a number.
pub const DIGIT_FIRST: &str =
    "{} begins with a digit, as a number: a name begins with a letter or _, and a number has decimal digits alone";

/// What is said of a word in the place of a number.
pub const NO_VALUE: &str = "{} is no value: a value is a number, as 0 or 1";

/// What is said of a location that is called by a word of conditions.
pub const WORD_OF_CONDITIONS: &str = "{} is a word of conditions: give the location another name";

/// What is said of a nested comment.
pub const NESTED: &str =
    "*) ends no comment here: a comment ends at its first *) and can't contain another comment";

/// What is said of an address.
pub const ADDRESS: &str =
    "{}: no register can hold an address here: leave the item out, and write the location's name in the instruction, as [x]; the tool import does so where no instruction changes the register";

/// Says what is at fault at a place of a test, with the line.
///
/// Errors: out of memory only.
pub fn say_fault(
    alloc: Global,
    line: &mut Line,
    asked: Asked,
    place: &Place<'_>,
    why: Why,
) -> Result<(), NoMemory> {
    let number = match why {
        // Of an input without a test, one that is there.
        Why::NoHeader => place.line_with_bytes(),
        _ => place.line(),
    };
    line.say_number("line {}: ", number);
    line.ask_for(asked.instructions);
    if line.has_all()
        && let Some(remaining) = stray_hyphen(alloc, place, why)?
    {
        // It is seen as where it is no sign at all.
        let place = Place::new(place.text, remaining);
        return say_reason(alloc, line, asked, &place, Why::BadToken);
    }
    say_reason(alloc, line, asked, place, why)
}

/// Says why what is at a place of a test is at fault.
///
/// Errors: out of memory only.
fn say_reason(
    alloc: Global,
    line: &mut Line,
    asked: Asked,
    place: &Place<'_>,
    why: Why,
) -> Result<(), NoMemory> {
    if let Some(cell) = in_cell(place, why)
        && says_larger_set(alloc, line, cell)?
    {
        return Ok(());
    }
    if is_no_part(line, place, why) || says_form(line, place, why) {
        return Ok(());
    }
    match why {
        Why::NoHeader => no_header(line, asked, place),
        Why::Unclosed => unclosed(line, asked, place),
        Why::BadToken => bad_token(line, place),
        Why::BadInit => bad_init(line, place),
        Why::BadHeaderRow => bad_columns(line, place),
        Why::WrongCells => return wrong_cells(alloc, line, place),
        Why::BadInstruction => return bad_instruction(alloc, line, place.rest),
        Why::BadNumber => return bad_number(alloc, line, place.rest),
        Why::TwiceInit => line.say_of(
            "{} has a value already: give each location and each register only one",
            up_to(place.rest, b'='),
        ),
        Why::NoSuchCore => line.say_of_number(
            "there is no core {}: cores count from 0, so the last one here is {}",
            place.token,
            last_core(place.text),
        ),
        Why::TooLarge => return too_large(alloc, line, place),
        Why::BadCondition => return bad_condition(alloc, line, place),
        Why::Trailing => trailing(line, asked, place),
        Why::NoMemory => line.say(NOTHING_KNOWN),
    }
    Ok(())
}

/// Says of a line that is no part of a test as it is read, whatever is at fault in it. Whether one is known to be none.
fn is_no_part(line: &mut Line, place: &Place<'_>, why: Why) -> bool {
    if matches!(why, Why::NoHeader | Why::TooLarge) {
        return false;
    }
    if place.from_last(b"\n").starts_with(b";;") {
        line.say(COMMENT);
        return true;
    }
    if place.token.starts_with(b"X86") {
        line.say(said_of_header(place));
        return true;
    }
    if matches!(why, Why::BadInit | Why::BadToken) && says_information(line, place) {
        return true;
    }
    matches!(why, Why::Unclosed | Why::WrongCells | Why::BadInstruction) && says_no_row(line, place)
}

/// What is said of a header that begins no text: it is a second one of this test, or another test's.
fn said_of_header(place: &Place<'_>) -> &'static str {
    if body_of(place.before).is_empty() {
        ONE_HEADER
    } else {
        ONE_TEST
    }
}

/// Whether what stands before the digits before a place has a number behind it.
fn is_of_value(place: &Place<'_>) -> bool {
    let before = place.before.trim_ascii_end();
    let before = first_bytes(before, before.len().saturating_sub(place.last_word.len()));
    match before.trim_ascii_end().last() {
        Some(last) => b"=$,#-+".contains(last),
        None => false,
    }
}

/// The number of the last core that a test's row of cores names.
fn last_core(text: &[u8]) -> usize {
    let mut rest = text;
    'lines: while !rest.is_empty() {
        let line = up_to(rest, b'\n');
        if is_row_of_cores(line) {
            return bars_in(up_to(rest, b';'));
        }
        let (_, after) = rest.split_at(line.len().saturating_add(1).min(rest.len()));
        rest = after;
    }
    0
}

/// Of what doesn't fit in a part of a test, which has this form; `end` says that the test ends there.
pub fn unfit(line: &mut Line, place: &Place<'_>, end: &str, form: &str) {
    if place.rest.is_empty() {
        line.say(end);
    } else {
        line.say_of("{} doesn't fit", place.number_or_token());
    }
    line.say(form);
}

/// Says of a word that begins with digits, at the first letter after these: of a number to base 16, or else of a name or a number of
/// another form. Whether such a word is there.
pub fn says_digit_first(line: &mut Line, place: &Place<'_>) -> bool {
    let word = place.bare_word();
    let is_inside = begins_within_name(place) && begins_with_digit(place.last_word);
    let is_core = is_before_colon(place, word) && number_in(word).is_some() && !is_of_value(place);
    if is_all_digits(word) || !begins_with_digit(word) || !(is_inside || is_core) {
        return false;
    }
    if is_core {
        line.say_of(CORE, word);
        return true;
    }
    let number = match number_in(word) {
        Some(number) => Some((said_of_base(line, word), number)),
        None => match digits_to(16, word) {
            Some(number) => Some((
                "{} is no decimal number: if it is to base 16, write {}",
                number,
            )),
            None => None,
        },
    };
    match number {
        Some((said, number)) if is_of_value(place) => {
            line.say_of_number(said, word, number as usize);
        }
        _ if is_of_value(place) && is_of_larger_set(word) => line.say_of_number(
            "{} is over {}, the greatest value: write that or a smaller one",
            word,
            GREATEST,
        ),
        _ => {
            let said = line.choose(DIGIT_FIRST, DIGITS);
            line.say_of(said, word);
        }
    }
    true
}

/// What is said of a number that isn't decimal.
fn said_of_base(line: &Line, word: &[u8]) -> &'static str {
    if line.has_all() {
        "{}: numbers are decimal, or hexadecimal behind 0x: write {}"
    } else if is_of_larger_set(word) {
        "{}: numbers are decimal: write {}, or add --instructions all"
    } else {
        "{}: numbers are decimal: write {}"
    }
}

/// Whether a place is within a name or a number.
fn begins_within_name(place: &Place<'_>) -> bool {
    ends_with_name(place.before) && !digits_and_letters(place.rest).is_empty()
}

/// Whether a colon stands behind a word at a place.
fn is_before_colon(place: &Place<'_>, word: &[u8]) -> bool {
    let inside = if ends_with_name(place.before) {
        place.last_word.len()
    } else {
        0
    };
    let count = word.len().saturating_sub(inside);
    last_bytes(place.rest, place.rest.len().saturating_sub(count))
        .trim_ascii_start()
        .starts_with(b":")
}

/// The line on which the initial state of a text begins.
pub fn line_of_initial_state(text: &[u8]) -> usize {
    line_of(text, body_of(text).len())
}
