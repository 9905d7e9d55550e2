//! What is said of orders: the line at fault, and what an order's text needs there.

use crate::characters::says_foreign;
use crate::faults::MARKDOWN;
use crate::hinting::NOTHING_KNOWN;
use crate::line::Line;
use crate::quotes::{
    after_byte, begins_with_digit, first_bytes, first_word, has, is_all_digits, is_choice, up_to,
};
use crate::tables::{Alike, is_exactly_one_of, is_one_of, said_of_front};
use litmus_tokens::word as word_value;
use order_builder::OrderFault;

/// Says what is at fault in an order; of a line, with which `from_line` begins, whether it has a location that the test
/// hasn't.
pub fn say_order(
    line: &mut Line,
    unknown_location: bool,
    text: &[u8],
    from_line: &[u8],
    fault: OrderFault,
) {
    match fault {
        OrderFault::NoOrder => {
            let word = first_word(text);
            let sentence = if word.is_empty() {
                "no order: give one after a line ====, as run prints it; --help says more"
            } else if word.starts_with(b"{") {
                "no line is Order: give the report that run prints without --json"
            } else if is_choice(word) {
                "no line is Order: {} is a choice; check and witness read an order, as run prints it"
            } else if word.eq_ignore_ascii_case(b"Order") || word.starts_with(b"Order") {
                "no line is Order alone: write it so, with nothing before or after it on its line"
            } else {
                "no line is Order: an order begins with this line and ends with a line Endorder n, as run prints it"
            };
            line.say_of(sentence, word);
        }
        OrderFault::BadLine(number) => {
            line.say_number("line {} after ====: ", number);
            bad_line(line, unknown_location, first_line(from_line));
        }
        OrderFault::BadCount => bad_count(line, text),
        OrderFault::NoMemory => line.say(NOTHING_KNOWN),
    }
}

/// A line without a carriage return at its end.
fn without_return(line: &[u8]) -> &[u8] {
    line.strip_suffix(b"\r").unwrap_or(line)
}

/// The first line of a text, without a carriage return at its end.
pub fn first_line(text: &[u8]) -> &[u8] {
    without_return(up_to(text, b'\n'))
}

/// What stands from the line at fault on, if one is.
pub fn from_line_at_fault(text: &[u8], fault: OrderFault) -> &[u8] {
    match fault {
        OrderFault::BadLine(number) if number > 1 => after_lines(text, number - 1),
        OrderFault::BadLine(_) => text,
        _ => &[],
    }
}

/// What comes after so many lines, one or more, or no bytes where the text has no more than these.
fn after_lines(text: &[u8], lines: usize) -> &[u8] {
    let mut passed: usize = 0;
    for at in 0..text.len() {
        if text[at] == b'\n' {
            passed = passed.wrapping_add(1);
            if passed == lines {
                return &text[at + 1..];
            }
        }
    }
    &[]
}

fn bad_line(line: &mut Line, unknown_location: bool, entry: &[u8]) {
    if entry.is_empty() {
        return line.say("an empty line stands in the order");
    }
    if says_foreign(line, entry, "an order, as run prints it, is in ASCII") {
        return;
    }
    if let Some(sentence) = said_of_blanks(entry) {
        line.say(sentence);
    } else if first_bytes(entry, 3).eq_ignore_ascii_case(b"end") {
        line.say_of(
            "{}: the order ends with Endorder, one space and the number of entries",
            entry,
        );
    } else if let Some(number) = number_out_of_range(entry) {
        line.say_of("{}: a core and a place are numbers from 0 to 255", number);
    } else if unknown_location && let Some(name) = location_in(entry) {
        line.say_of(
            if name.starts_with(b"[") {
                "{}: a location is written without [ ] in an order"
            } else {
                "{} is no location of the test"
            },
            name,
        );
    } else {
        line.say_of(said_of_entry(entry), entry);
    }
}

/// What is said of blanks on a line of an order, if they are at fault.
fn said_of_blanks(line: &[u8]) -> Option<&'static str> {
    if line.ends_with(b" ") || line.ends_with(b"\t") {
        Some("a blank ends this line: leave it out")
    } else if line.starts_with(b" ") || line.starts_with(b"\t") {
        Some("a blank begins this line: leave it out")
    } else if has(line, b"  ") || line.contains(&b'\t') {
        Some("one space stands between the parts of a line, as in P0:1 R x=0")
    } else {
        None
    }
}

/// What is said of a line that is no entry.
fn said_of_entry(entry: &[u8]) -> &'static str {
    if let Some(said) = said_of_front(&BEGINNINGS, entry) {
        said
    } else if entry.ends_with(b";") || entry.ends_with(b",") || entry.ends_with(b".") {
        "{}: nothing stands after an entry: leave out its last byte"
    } else if has(entry, b"FENCE") || has(entry, b"fence") {
        "{} is no entry: a fence is P0:1 F"
    } else if is_all_digits(after_byte(entry, b'='))
        && word_value(after_byte(entry, b'=')).is_none()
    {
        "{}: a value is at most 4294967295"
    } else if has(entry, b"=0x") || has(entry, b"=-") {
        "{}: a value is decimal and has no sign, as in P0:1 R x=0"
    } else {
        said_of_form(entry)
    }
}

/// What is said of a line without the form of an entry, by the first part that it lacks.
fn said_of_form(entry: &[u8]) -> &'static str {
    let place = up_to(entry, b' ');
    let access = up_to(after_byte(entry, b' '), b' ');
    if !begins_with_core(place) {
        "{}: an entry begins with its core and its place in that core's program, as P0:1 W x=1"
    } else if !place.contains(&b':') {
        "{}: a colon and the place in the core's program, from 0, stand behind the core, as P0:1 W x=1"
    } else if is_one_of("R W LR LW F", access) && !is_exactly_one_of("R W LR LW F", access) {
        "{}: R, W, LR, LW and F are written in capitals, as P0:1 W x=1"
    } else if is_exactly_one_of("R W LR LW", access) && !entry.contains(&b'=') {
        "{}: its location, = and its value stand behind an access, as P0:1 W x=1"
    } else {
        "{} is no entry: P0:1 R x=0 with R, W, LR or LW, or P0:1 F"
    }
}

/// Whether a word begins with a core's name.
fn begins_with_core(word: &[u8]) -> bool {
    match word.strip_prefix(b"P") {
        Some(digits) => begins_with_digit(digits),
        None => false,
    }
}

/// How lines begin that have no entry.
static BEGINNINGS: [Alike; 2] = [
    Alike(
        "# // (* /* ; --",
        "{}: an order has no comments: leave this line out",
    ),
    Alike("```", MARKDOWN),
];

/// The core or the place of an entry that is over 255.
fn number_out_of_range(entry: &[u8]) -> Option<&[u8]> {
    let Some(digits) = entry.strip_prefix(b"P") else {
        return None;
    };
    let core = up_to(digits, b':');
    let place = up_to(after_byte(digits, b':'), b' ');
    let number = if is_over_a_byte(core) { core } else { place };
    if digits.contains(&b':') && is_over_a_byte(number) {
        Some(number)
    } else {
        None
    }
}

fn is_over_a_byte(digits: &[u8]) -> bool {
    is_all_digits(digits)
        && match word_value(digits) {
            Some(value) => value > 255,
            None => true,
        }
}

/// What comes before `=` in the third of three pieces, which one space separates.
pub fn location_in(entry: &[u8]) -> Option<&[u8]> {
    let access = after_byte(after_byte(entry, b' '), b' ');
    if access.contains(&b' ') || !access.contains(&b'=') {
        return None;
    }
    Some(up_to(access, b'='))
}

/// Says of an order that its end is missing, or counts other entries.
fn bad_count(line: &mut Line, text: &[u8]) {
    let mut start = 0usize;
    let mut rest = text;
    // The number of a line of two bytes or more is below the length of its text.
    for number in 1..text.len() {
        if start == 0 {
            if rest.starts_with(b"Order") && first_line(rest).len() == 5 {
                start = number;
            }
        } else if rest.starts_with(b"Endorder ") {
            let entries = number.saturating_sub(start).saturating_sub(1);
            let sentence = if entries == 1 {
                "{} ends an order of 1 entry"
            } else {
                "{} ends an order of {} entries"
            };
            line.say_number("line {} after ====: ", number);
            return line.say_of_number(sentence, first_line(rest), entries);
        }
        rest = after_byte(rest, b'\n');
        if rest.is_empty() {
            break;
        }
    }
    line.say("no line Endorder n ends the order, where n is the number of its entries");
}
