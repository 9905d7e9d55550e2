//! What is said of a byte that begins no token, by the part of the test in which it stands: most are signs of other languages.

use crate::c_forms::{says_address_of, says_method};
use crate::characters::say_character;
use crate::faults::{
    COMMENT, CONNECTIVES, ENDS_ROW, EQUIVALENCE, IMPLICATION, LEAVE_OUT, MARKDOWN, NESTED,
    NO_VALUE, ONLY_ROUND, STORE_AND_LOAD,
};
use crate::items::bad_pointer;
use crate::line::Line;
use crate::markup::{
    is_alone_on_line, is_of_strokes, is_ruled, is_tag, says_entity, says_markup, says_of_conflict,
};
use crate::operands::{percent, says_sum};
use crate::place::Place;
use crate::points::{NAMES, goes_on_after_number, minus, point, said_between};
use crate::quotes::{
    begins_with_digit, begins_with_letter, digits_at, ends_with_name, is_all_digits, last_bytes,
    token, up_to_any,
};
use crate::region::{Region, region_of};
use crate::registers::says_percent;
use crate::tables::{Alike, is_exactly_one_of, is_one_of, said_of_front};
use crate::values::says_unequal;
use litmus_tokens::word;

/// What is said of a line that may be meant as the dividing line.
pub const DIVIDER: &str = "the dividing line between a test and its choices is ==== alone";

/// How lines begin that are meant as the dividing line.
static DIVIDERS: [Alike; 1] = [Alike("-- .. ** ### ~~ __", DIVIDER)];

const SUM: &str =
    "{}: no sums are read: a location is a name, as [x], and a value a number; LOCK XADD [x],EAX adds to a location";

const NO_ADDRESS: &str = "{}: leave it out: an atom compares a place with a number, as x=1";

const NEXT_ROW: &str = "{}: a row ends with ; and the next one stands in the next line";

const NO_SUM: &str = "{}: nothing is added up here: write the number that it comes to, as x=2";

const DIRECTIVE: &str =
    "{} is a directive of an assembler: leave it out: values stand in braces, as { x=0; y=0; }, and programs in columns below P0 | P1 ;";

const NO_RESULT: &str = "{}: nothing is computed here: write the number that it comes to, as $2";

const RULED: &str = "a line of strokes is no row: leave it out, and the strokes around cells";

const FURTHER: &str =
    "{} begins a line after the end of the condition, where the test ends: leave this line out";

/// Signs that are meant alike in all parts.
static ANYWHERE: [Alike; 6] = [
    Alike(
        "#define",
        "{} begins a line of C that names a number: leave the line out, and write the number wherever the name stands",
    ),
    Alike("// /* # <!--", COMMENT),
    Alike("*)", NESTED),
    Alike("```", MARKDOWN),
    Alike("*/", COMMENT),
    Alike("`", LEAVE_OUT),
];

/// Signs before the initial state.
static IN_INFORMATION: [Alike; 2] = [
    Alike("'", "{}: a quotation stands in \" \""),
    Alike("-- % ! *", COMMENT),
];

/// Signs in the initial state.
static IN_INITIAL: [Alike; 5] = [
    Alike("--", COMMENT),
    Alike("'", NO_VALUE),
    Alike("\"", LEAVE_OUT),
    Alike("-> <- < >", "{}: an item is x=1, [x]=1 or 0:EAX=1"),
    Alike("+", "{}: leave it out: an item is x=1, [x]=1 or 0:EAX=1"),
];

/// Signs in rows.
static IN_ROWS: [Alike; 10] = [
    Alike(
        "' \"",
        "{} begins a text, and a value is a number: write one, as $1",
    ),
    Alike(
        "\\exists \\forall \\nexists \\neg \\lnot",
        "{} begins a sign of TeX: write exists, ~exists or forall in its place",
    ),
    Alike(
        "@",
        "{}: a location is its name alone, as [x]: leave it out, with what belongs to it",
    ),
    Alike("!exists", "! isn't read before exists: write ~exists"),
    Alike(
        "*",
        "{}: a location is written [x]: a store is MOV [x],$1, a load MOV EAX,[x]",
    ),
    Alike("-> <-", STORE_AND_LOAD),
    Alike("--", COMMENT),
    Alike("+", SUM),
    Alike("\\n", NEXT_ROW),
    Alike(
        "&",
        "{}: cells are split by |, and a core's next instruction stands in the next row; a location is written [x]",
    ),
];

/// Signs in a condition.
static IN_CONDITION: [Alike; 11] = [
    Alike("'", NO_VALUE),
    Alike("->", IMPLICATION),
    Alike("--", COMMENT),
    Alike("\"", LEAVE_OUT),
    Alike("!= <>", "{}: that 0:EAX isn't 1 is written ~(0:EAX=1)"),
    Alike("<-> <=>", EQUIVALENCE),
    Alike(
        "?",
        "{} is no number: where any value will do, leave the atom out, with what joins it",
    ),
    Alike(
        "< >",
        "{}: atoms compare by = alone: write one for each value, joined by \\/",
    ),
    Alike(
        "*",
        "{}: a location is written x in a condition, and [x] in an instruction",
    ),
    Alike(
        "+",
        "{}: an atom is x=1 or 0:EAX=1, with one name and one number",
    ),
    Alike("& ! / \\ ^", CONNECTIVES),
];

/// Says of a byte that begins no token.
pub fn bad_byte(line: &mut Line, place: &Place<'_>, byte: u8) {
    let region = region_of(place);
    if is_value(place.rest) || (byte == b'#' && is_exactly_one_of(",", place.last_word)) {
        return line.say(match region {
            Region::Rows => "a value is written with $: MOV [x],$1",
            _ => "a number stands without # here, as in x=1",
        });
    }
    if ends_row(place, region) {
        return line.say_of(ENDS_ROW, place.token);
    }
    if byte != b'#'
        && byte != b'&'
        && let Some(said) = said_between(place, region)
    {
        return line.say_of(said, place.token);
    }
    if says_of_conflict(line, place) || says_of_form(line, place, region, byte) {
        return;
    }
    match (said_of_sign(place, region), byte) {
        (Some(said), _) => line.say_of(said, place.token),
        (None, b'-') => minus(line, place),
        (None, b'.') => line.say_of(point(place), place.token),
        (None, b'%') if begins_remark(place) => line.say(COMMENT),
        (None, b'%') if matches!(region, Region::Rows) => percent(line, place),
        (None, b'%') if says_percent(line, place, after_first(place.rest)) => {}
        (None, b'!'..=b'~') => {
            let said = form_of(line, region);
            line.say_of(said, place.token);
        }
        _ => say_character(line, place, byte),
    }
}

/// Whether `%` begins a comment, as in TeX: at a line's end, with no name right behind it.
fn begins_remark(place: &Place<'_>) -> bool {
    let is_at_end = place.is_first_on_line() || place.line_before().ends_with(b";");
    is_at_end && (place.rest.starts_with(b"% ") || place.rest.starts_with(b"%%"))
}

/// Whether a sign ends a row of cells in the place of `;`.
fn ends_row(place: &Place<'_>, region: Region) -> bool {
    let line = place.whole_line();
    matches!(region, Region::Rows)
        && place.is_last_on_line()
        && !place.is_first_on_line()
        && line.contains(&b'|')
        && !line.contains(&b';')
        && !is_of_strokes(line.trim_ascii())
}

/// What is said of a sign in a part of a test, where more is known of it.
fn said_of_sign(place: &Place<'_>, region: Region) -> Option<&'static str> {
    let said = match region {
        Region::Rows if is_ruled(place) => Some(RULED),
        Region::Rows | Region::Condition if is_alone_on_line(place) => said_of_front(
            &DIVIDERS, place.rest,
        ),
        Region::Information => said_of_front(&IN_INFORMATION, place.rest),
        _ => None,
    };
    match said.or(said_of_front(&ANYWHERE, place.rest)) {
        None if matches!(region, Region::Condition) && begins_further_line(place) => Some(FURTHER),
        None => said_of_front(signs_in(region), place.rest),
        said => said,
    }
}

/// Whether a place begins a line below a condition that is at its end, and joins nothing to it.
fn begins_further_line(place: &Place<'_>) -> bool {
    let before = place.before.trim_ascii_end();
    let is_at_end = before.ends_with(b")")
        || is_all_digits(place.last_word)
        || is_exactly_one_of("true false", place.last_word);
    let joins = match place.rest {
        [b'\\', next, ..] => !next.is_ascii_alphabetic(),
        [b'-', b'>', ..] => true,
        [first, ..] => b"&!^/|".contains(first),
        [] => true,
    };
    place.is_first_on_line() && is_at_end && !joins
}

/// Whether a number with `#` before it begins a text, as other processors' assemblers have values.
fn is_value(text: &[u8]) -> bool {
    match text {
        [b'#', b'-', next, ..] => next.is_ascii_digit(),
        [b'#', next, ..] => next.is_ascii_digit(),
        _ => false,
    }
}

/// Says of a sign by the form in which it stands: of an address, a method, a field or a sum. Whether it does.
fn says_of_form(line: &mut Line, place: &Place<'_>, region: Region, byte: u8) -> bool {
    match (region, byte) {
        (Region::Initial, b'&' | b'*') => {
            bad_pointer(line, place);
            true
        }
        (_, b'&') if says_entity(line, place) => true,
        (Region::Information, b'.') if begins_with_letter(after_first(place.rest)) => {
            line.say_of(DIRECTIVE, up_to_any(place.rest, b" \t\r\n"));
            true
        }
        (Region::Rows, b'\\') if ends_line_of_c(place) => {
            line.say("leave out \\n and \\t behind an instruction: a row ends with ;");
            true
        }
        (_, b'-') if is_second_sign(place) => {
            line.say_of(LEAVE_OUT, b"-");
            true
        }
        (_, b'-') if is_field(place) => {
            line.say_of(NAMES, b"->");
            true
        }
        (Region::Rows, _) if says_markup(line, place) => true,
        (Region::Initial | Region::Rows | Region::Condition, b'+') if is_sign(place) => {
            let said = line.choose(
                "a number has no sign: leave out +",
                "a number has no + before it: leave it out",
            );
            line.say(said);
            true
        }
        (Region::Rows, b'\'') if ends_with_name(place.before) => {
            line.say_of(NAMES, place.token);
            true
        }
        (Region::Rows, b'?') if place.is_first_on_line() && place.after_token().starts_with(b"(") =>
            {
                line.say_of(
                    "{}: a condition begins with exists, ~exists or forall: write one in its place",
                    place.token,
                );
                true
            }
        (Region::Condition, b'?') if !is_exactly_one_of("=", place.last_word) => {
            line.say_of(LEAVE_OUT, place.token);
            true
        }
        (Region::Rows, b'+' | b'-' | b'*' | b'/' | b'%' | b'^' | b'<' | b'>' | b'&')
            if goes_on_after_number(place) => {
            line.say_of(NO_RESULT, place.token);
            true
        }
        (Region::Condition, b'<') if is_tag(place.rest) => says_markup(line, place),
        (Region::Initial, b'+') if is_all_digits(place.last_word) => {
            line.say_of(NO_SUM, place.token);
            true
        }
        (Region::Initial | Region::Condition, b'-') if is_difference(place) => {
            line.say_of(NO_SUM, place.token);
            true
        }
        (Region::Initial, b'\'') if !is_exactly_one_of("=", place.last_word) => {
            line.say_of(LEAVE_OUT, place.token);
            true
        }
        (Region::Condition, b'<') if is_one_of("exists forall (", place.last_word) => {
            line.say_of(ONLY_ROUND, place.token);
            true
        }
        (Region::Rows, b'*') if place.before.ends_with(b"{") => {
            line.say(COMMENT);
            true
        }
        (Region::Rows, b'&') => says_address_of(line, place),
        (Region::Rows, b'.') => says_method(line, place),
        (Region::Rows, b'+') => says_sum(line, place),
        (Region::Rows, b'-') if place.rest.starts_with(b"->") => says_sum(line, place),
        (Region::Condition, b'!' | b'<')
            if place.rest.starts_with(b"!=") || place.rest.starts_with(b"<>") => {
            says_unequal(line, place, 2)
        }
        (Region::Condition, b'&') if is_exactly_one_of("= (", place.last_word) => {
            line.say_of(NO_ADDRESS, place.token);
            true
        }
        _ => false,
    }
}

/// Whether a place is of a sign before a number.
fn is_sign(place: &Place<'_>) -> bool {
    is_exactly_one_of("$ = ,", place.last_word)
        && matches!(after_first(place.rest).first(), Some(next) if next.is_ascii_digit())
}

/// Whether two hyphens stand before a number, where one may be its sign.
fn is_second_sign(place: &Place<'_>) -> bool {
    match place.rest.strip_prefix(b"--") {
        Some(after) => is_exactly_one_of("$ = ,", place.last_word) && begins_with_digit(after),
        None => false,
    }
}

/// Whether a hyphen stands between two numbers, of which the second names no core.
fn is_difference(place: &Place<'_>) -> bool {
    let after = after_first(place.rest).trim_ascii_start();
    let digits = digits_at(after);
    let behind = last_bytes(after, after.len().saturating_sub(digits.len()));
    begins_with_digit(place.last_word)
        && !digits.is_empty()
        && !behind.trim_ascii_start().starts_with(b":")
}

/// Whether `->` stands between two names without a space, as before a field in C.
fn is_field(place: &Place<'_>) -> bool {
    match place.rest.strip_prefix(b"->") {
        Some(after) => ends_with_name(place.before) && begins_with_letter(after),
        None => false,
    }
}

/// Whether signs with which strings in C end a line stand at a place, and nothing but these up to the end of its cell.
fn ends_line_of_c(place: &Place<'_>) -> bool {
    let mut rest = up_to_any(place.rest, b"|;\n").trim_ascii_end();
    for _ in 0..3 {
        rest = rest
            .strip_prefix(b"\\n")
            .or(rest.strip_prefix(b"\\t"))
            .unwrap_or(rest);
    }
    rest.is_empty()
}

/// What may stand in a part of a test.
fn form_of(line: &Line, region: Region) -> &'static str {
    match region {
        Region::Information => {
            "{} can't stand here: before the initial state { } stand only \"..\", KEY=.. and comments (* .. *)"
        }
        Region::Initial => {
            "{} can't stand in the initial state: an item is x=1, [x]=1 or 0:EAX=1, and ; stands between items"
        }
        Region::Rows => line.choose(
            "{} can't stand in a row: a cell is a store MOV [x],$1, a load MOV EAX,[x], a fence MFENCE, XCHG [x],EAX or LOCK XADD [x],EAX",
            "{} can't stand in a row: a cell is an instruction, as a store MOV [x],$1, a load MOV EAX,[x] or a fence MFENCE",
        ),
        Region::Condition => {
            "{} can't stand in a condition: it has atoms as 0:EAX=1 or x=1, joined by /\\ and \\/, with ~ for not"
        }
    }
}

/// The signs of a part of a test.
fn signs_in(region: Region) -> &'static [Alike] {
    match region {
        Region::Information => &[],
        Region::Initial => &IN_INITIAL,
        Region::Rows => &IN_ROWS,
        Region::Condition => &IN_CONDITION,
    }
}

/// Whether a word names a core by `P` and its number.
pub fn is_core(word: &[u8]) -> bool {
    match word.split_first() {
        Some((b'P' | b'p', digits)) => is_all_digits(digits),
        _ => false,
    }
}

/// All but the first byte.
pub fn after_first(text: &[u8]) -> &[u8] {
    last_bytes(text, text.len().saturating_sub(1))
}
