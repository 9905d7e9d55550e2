//! What is said of a fault before the initial state of a test; and of what doesn't end.

use crate::c_forms::{said_of_access, said_of_function};
use crate::columns::FRAMED;
use crate::cycles::is_edge_name;
use crate::divider::{Asked, says_missing_divider};
use crate::faults::{COMES_LAST, COMMENT, NESTED};
use crate::headers::has_row_of_cores;
use crate::items::KEYS;
use crate::keywords::{is_instruction, near_instruction};
use crate::line::{Filling, Line};
use crate::place::Place;
use crate::quotes::{
    after_byte, after_last, begins_with_letter, ends_with_name, has, is_all_digits, is_bare,
    is_row_of_cores, up_to,
};
use crate::region::{Region, region_of};
use crate::signs::bad_byte;
use crate::tables::{Alike, is_exactly_one_of, is_one_of, said_of_front};
use tso_terms::limits::MAX_NAME;
use tso_terms::names::continues_name;

/// What has no end, by what it begins with.
static OPENERS: [Alike; 4] = [
    Alike(
        "(*",
        "no *) ends the comment that begins here: write one at its end",
    ),
    Alike(
        "\"",
        "no \" ends the quotation that begins here: write one at its end",
    ),
    Alike("{", "no } closes the { that begins the initial state here"),
    Alike("[", "no ] closes the [ of locations"),
];

/// Of what doesn't end.
pub fn unclosed(line: &mut Line, asked: Asked, place: &Place<'_>) {
    let token = place.token;
    if place.rest.is_empty() {
        line.say(
            "the test ends before its initial state: write { } between the first line and the row P0 | P1 ;",
        );
    } else if let Some(said) = said_of_front(&OPENERS, place.rest) {
        if !says_pointer(line, place) {
            line.say_of(said, token);
        }
    } else if place.rest.starts_with(b"}") {
        line.say("} closes nothing here: leave it out");
    } else if !says_missing_divider(line, asked, place) {
        let is_other_word = begins_with_letter(token) && is_bare(token) && !is_known(token);
        let sentence = if place.rest.starts_with(b"|") {
            said_of_bars(place)
        } else if is_other_word && is_claim(place) {
            "{} begins no condition: write exists, ~exists or forall in its place"
        } else if is_bare_condition(place) {
            "a condition begins with exists, ~exists or forall: write one before {}"
        } else if is_other_word && is_apart(place) {
            "{} is no instruction, and begins no condition: leave it out, or write exists, ~exists or forall in its place"
        } else {
            "no ; ends the row that begins with {}: a row ends with ;"
        };
        line.say_of(sentence, token);
    }
}

/// What is said of a row that begins with a bar, as tables in Markdown have them, and has no end.
fn said_of_bars(place: &Place<'_>) -> &'static str {
    if place.whole_line().trim_ascii_end().ends_with(b"|") {
        FRAMED
    } else {
        "{} begins this row: leave it out, since one stands only between cells, and write ; at the end"
    }
}

/// Whether a claim about a state stands on the line of a place, behind its word: in brackets or after a colon.
fn is_claim(place: &Place<'_>) -> bool {
    let (line, after) = (place.whole_line(), place.after_token());
    line.contains(&b'=')
        && !line.contains(&b'|')
        && (after.starts_with(b"(") || after.starts_with(b":"))
}

/// Whether the word at a place stands alone on its line, or on the last line with anything on it.
fn is_apart(place: &Place<'_>) -> bool {
    place.whole_line().trim_ascii() == place.token
        || after_byte(place.rest, b'\n').trim_ascii().is_empty()
}

/// Whether a word begins an instruction, or an access in another language.
fn is_known(word: &[u8]) -> bool {
    is_instruction(word) || said_of_access(word).is_some() || near_instruction(word).is_some()
}

/// Says of a location in C behind a bracket, as in `(*x)`, which begins a comment here; of the function that gets it, where one does.
/// Whether one is there.
fn says_pointer(line: &mut Line, place: &Place<'_>) -> bool {
    let Some(after) = place.rest.strip_prefix(b"(*") else {
        return false;
    };
    if !begins_with_letter(after) {
        return false;
    }
    let function = if ends_with_name(place.before) {
        place.last_word
    } else {
        &[]
    };
    match (said_of_function(function), region_of(place)) {
        (Some(said), _) => line.say_of(said, function),
        (None, Region::Condition) => line.say(
            "no *) ends the comment that begins here; a location stands in a condition without *, as x=1",
        ),
        _ => line.say(
            "no *) ends the comment that begins here; a location is written without *, as [x]",
        ),
    }
    true
}

/// Whether the row at a place may be a condition without the word that begins it.
fn is_bare_condition(place: &Place<'_>) -> bool {
    let line = place.whole_line();
    place.rest.starts_with(b"(")
        || has(line, b"/\\")
        || has(line, b"\\/")
        || (place.after_token().starts_with(b":")
            && is_all_digits(place.token)
            && line.contains(&b'='))
        || (place.after_token().starts_with(b"=") && !has(line, b":="))
}

/// Of what begins no token, or is where it can't before the initial state.
pub fn bad_token(line: &mut Line, place: &Place<'_>) {
    let token = place.token;
    if is_exactly_one_of("locations", place.last_word) {
        return line.say(
            "what locations lists stands in [ ]: write it as in locations [x; 0:EAX;], or leave the line out",
        );
    }
    if token.len() > MAX_NAME && !token.starts_with(b"0") && is_bare(token) {
        return line.say_with(
            "{} has {} bytes: a name has at most {}",
            &[
                Filling::Named(token),
                Filling::Number(token.len()),
                Filling::Number(MAX_NAME),
            ],
        );
    }
    match place.rest {
        [] | [b'/', b'\\', ..] | [b'\\', b'/', ..] => {}
        [byte, ..] if continues_name(*byte) || b"=;:[]{}|,$~()".contains(byte) => {}
        [byte, ..] => return bad_byte(line, place, *byte),
    }
    // What is there begins a token.
    if has(up_to(place.rest, b'\n'), b"*)") {
        line.say(NESTED);
    } else {
        line.say_of(said_before_braces(place), token);
    }
}

/// Whether the last line before a place has an item of an initial state, and its end.
fn has_items(before: &[u8]) -> bool {
    let last = after_last(before.trim_ascii_end(), b"\n");
    last.contains(&b'=') && last.contains(&b';')
}

/// What is said of a token that comes before the initial state.
fn said_before_braces(place: &Place<'_>) -> &'static str {
    if up_to(place.text.trim_ascii_start(), b'\n').contains(&b'{') {
        return "the { in the first line is a part of the test's name: begin a line with it";
    }
    let has_braces = place.rest.contains(&b'{');
    if is_exactly_one_of("exists forall ~", place.token) {
        return if has_braces || has_row_of_cores(place.rest) {
            COMES_LAST
        } else {
            "no rows stand before {}: write { } above it, a row P0 | P1 ; and rows of instructions, as MOV [x],$1 | MOV [y],$1 ;"
        };
    }
    if is_edge_name(place.token) {
        return "a cycle stands in quotation marks: write \" before {} and at the line's end, or leave the line out";
    }
    if is_exactly_one_of(KEYS, place.token) && !place.after_token().starts_with(b"=") {
        return "{}: a line of information has = behind its key, as Generator=diyone7: write it there, or leave the line out";
    }
    if place.rest.starts_with(b";") && place.is_first_on_line() {
        return COMMENT;
    }
    if place.rest.starts_with(b"}") {
        return "no { stands before {}: write one above the items of the initial state, or { } where it has none";
    }
    if is_one_of("init initial initially state", place.token)
        && up_to(place.rest, b'\n').contains(&b'=')
    {
        return "{} begins no initial state: its items stand in braces, as { x=1; y=1; }, without this word";
    }
    if after_last(place.before.trim_ascii_end(), b"\n").contains(&b'=')
        && place.before.trim_ascii_end().ends_with(b",")
    {
        return "{} goes on with the line above, and a line of information is one line: write it at that line's end";
    }
    if is_exactly_one_of("locations", place.token) {
        return "{} stands before the initial state: write it below the rows, before the condition";
    }
    if is_row_of_cores(place.whole_line()) && !has_braces && has_items(place.before) {
        return "no { stands before the initial state: write one before its items, above {}, and } behind them";
    }
    if is_exactly_one_of("P0", place.token) {
        "{} stands before the initial state: write { } in a line above, also where all begins as 0"
    } else if place.rest.starts_with(b"(") || place.rest.starts_with(b"[") {
        "{} stands before the initial state, which is written in { }"
    } else {
        "{} stands before the initial state { }: only \"..\", KEY=.. and comments may stand there; put values into the braces, and other text into (* .. *)"
    }
}
