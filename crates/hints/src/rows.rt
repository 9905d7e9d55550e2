//! What is said of a row of a test, and of a test that is too large: which limit it passes, and what is one too many.

use crate::body::body_of;
use crate::c_forms::{is_call, is_type};
use crate::faults::COMMENT;
use crate::forms::says_cell;
use crate::headers::said_of_binary;
use crate::instructions::{LOOP, STRAIGHT};
use crate::keywords::{begins_instruction, is_instruction};
use crate::line::{Filling, Line};
use crate::passed::{Limit, after_curly, limit_at};
use crate::place::Place;
use crate::prefixes::said_of_prefix;
use crate::quotes::{
    after_byte, after_last, begins_with_letter, digits_and_letters, first_word, has, is_all_digits,
    last_word, up_to, up_to_any,
};
use crate::signs::is_core;
use crate::tables::{is_exactly_one_of, is_one_of};
use litmus_reader::MAX_TEXT;
use litmus_tokens::{Instructions, Symbol, after_gap, is_symbol, tokens_of};
use std::alloc::Global;
use tso_terms::NoMemory;
use tso_terms::limits::{
    MAX_ATOMS, MAX_CORES, MAX_INSTRUCTIONS, MAX_LOCATIONS, MAX_OPEN, MAX_TEST_NAME,
};
use tso_terms::names::continues_name;

const IN_C: &str =
    "{} begins a row as in C, and tools/compiled FILE.c reads C: here a load is MOV EAX,[y], a store MOV [x],$1; a row has one such cell for each core, | between cells, and ; at its end";

const CLAIMS: &str =
    "a condition begins with exists, ~exists or forall, and /\\ or \\/ joins its parts, as in exists (0:EAX=0 /\\ 1:EAX=0)";

/// Of the row with too many or too few cells at a place.
///
/// Errors: out of memory only.
pub fn wrong_cells(alloc: Global, line: &mut Line, place: &Place<'_>) -> Result<(), NoMemory> {
    let row = up_to(place.rest, b';');
    if says_other_row(line, place, row) {
        return Ok(());
    }
    let cells = bars_in(row).saturating_add(1);
    let cores = cores_before(alloc, place)?;
    line.say_with(
        sentence_of_row(place.rest, row, cells > cores),
        &[Filling::Count(cells, "cell"), Filling::Count(cores, "core")],
    );
    Ok(())
}

/// Says of a row in a form of another language, or with a `;` too many. Whether it is one.
fn says_other_row(line: &mut Line, place: &Place<'_>, row: &[u8]) -> bool {
    let first = place.token;
    if let Some(said) = said_of_prefix(row, place.rest) {
        line.say(said);
    } else if is_one_of("if else switch", first) {
        line.say_of(STRAIGHT, first);
    } else if is_one_of("while for do", first) {
        line.say_of(LOOP, first);
    } else if is_claim(place, row) {
        line.say(CLAIMS);
    } else if row.is_empty() && place.is_first_on_line() {
        line.say("; ends a row without cells: leave it out");
    } else if is_all_digits(up_to(row, b'|').trim_ascii()) {
        line.say_of(
            "{} stands before the row's instructions, as its number: leave it out, and the | behind it",
            first,
        );
    } else if place.rest.starts_with(b";") && place.line_before().ends_with(b";") {
        line.say(said_of_second_end(place));
    } else if place.rest.starts_with(b"{") {
        line.say(
            "{ } can't stand in a row: leave both out, and write one instruction into each cell",
        );
    } else if is_core(first) && place.after_token().starts_with(b":") && !row.contains(&b'|') {
        line.say_of(
            "{} names one core: a row has a cell for each core, in the order P0 | P1, with | between them",
            first,
        );
    } else if !row.contains(&b'|') && has_comma_between(row) {
        line.say("a comma stands between two instructions: cells are split by the vertical bar |");
    } else if !row.contains(&b'|') && has_second_instruction(row) {
        line.say(
            "no | stands before the second instruction of this row: cells are split by the vertical bar",
        );
    } else if ends_within_operands(place) {
        line.say("; ends a row: a comma stands between two operands, as in MOV [x],$1");
    } else if let Some(cell) = cell_with_end(place, row) {
        if is_type(first_word(cell)) && !cell.contains(&b'=') {
            line.say_of(
                "{}: nothing is declared here: leave it out, with the ; behind it",
                cell,
            );
        } else if says_cell(line, cell) {
            line.say("; leave out the ; behind it, which ends a row");
        } else {
            line.say_of(
                "; stands behind {}: leave it out: it ends a row, and | splits cells",
                cell,
            );
        }
    } else if is_in_c(first, up_to(row, b'\n')) {
        line.say_of(IN_C, first);
    } else {
        return false;
    }
    true
}

/// Whether a row claims something of a core's register, as conditions do.
fn is_claim(place: &Place<'_>, row: &[u8]) -> bool {
    is_all_digits(place.token)
        && place.after_token().starts_with(b":")
        && row.contains(&b'=')
        && !row.contains(&b'|')
}

/// What is said of `;` behind the end of a row.
fn said_of_second_end(place: &Place<'_>) -> &'static str {
    let after = up_to(after_byte(place.rest, b';'), b'\n');
    if begins_with_letter(after.trim_ascii_start()) {
        COMMENT
    } else {
        "; stands twice: a row ends with one ;"
    }
}

/// Whether what follows the end of a row on its line begins with an operand.
fn ends_within_operands(place: &Place<'_>) -> bool {
    let after = up_to(after_byte(place.rest, b';'), b'\n').trim_ascii_start();
    match after.first() {
        Some(first) => b"$[%".contains(first) || first.is_ascii_digit(),
        None => false,
    }
}

/// Whether a second instruction stands in a row behind the first.
fn has_second_instruction(row: &[u8]) -> bool {
    let mut is_at_start = false;
    for at in 0..row.len() {
        if is_at_start
            && begins_instruction(digits_and_letters(&row[at..]))
            && !last_word(&row[..at]).eq_ignore_ascii_case(b"LOCK")
        {
            return true;
        }
        is_at_start = !continues_name(row[at]);
    }
    false
}

/// Whether an instruction stands behind a comma.
fn has_comma_between(row: &[u8]) -> bool {
    let mut is_behind_comma = false;
    for at in 0..row.len() {
        if is_behind_comma
            && !row[at].is_ascii_whitespace()
            && begins_instruction(digits_and_letters(&row[at..]))
        {
            return true;
        }
        is_behind_comma = row[at] == b',' || (is_behind_comma && row[at].is_ascii_whitespace());
    }
    false
}

/// The last cell of a row where further cells stand behind the row's end on its line, as statements in C have `;` of their own.
fn cell_with_end<'a>(place: &Place<'a>, row: &'a [u8]) -> Option<&'a [u8]> {
    let after = up_to(after_byte(place.rest, b';'), b'\n').trim_ascii_start();
    if after.starts_with(b"|") && !row.contains(&b'\n') {
        Some(after_last(row, b"|").trim_ascii())
    } else {
        None
    }
}

/// Whether a line that begins with this token is of C: it has an equals sign, or begins as a declaration or an access does.
fn is_in_c(first: &[u8], line: &[u8]) -> bool {
    begins_with_letter(first)
        && (line.contains(&b'=')
            || is_type(first)
            || is_call(first)
            || is_exactly_one_of("return", first))
}

/// How many bars a row has.
pub fn bars_in(row: &[u8]) -> usize {
    let mut bars = 0usize;
    for byte in row {
        if *byte == b'|' {
            bars = bars.saturating_add(1);
        }
    }
    bars
}

/// How many cores the row of cores before a place has.
///
/// Errors: out of memory only.
fn cores_before(alloc: Global, place: &Place<'_>) -> Result<usize, NoMemory> {
    let tokens = tokens_of(alloc, Instructions::All, body_of(place.before))?;
    let mut cores = 1usize;
    for token in after_curly(&tokens.items).unwrap_or(&[]) {
        if is_symbol(Symbol::Semicolon, token) {
            break;
        }
        if is_symbol(Symbol::Bar, token) {
            cores = cores.saturating_add(1);
        }
    }
    Ok(cores)
}

/// What is said of a row at the front of a text, which has too many cells or too few: how many there are, and how many cores.
fn sentence_of_row(rest: &[u8], row: &[u8], are_too_many: bool) -> &'static str {
    let after = up_to(after_byte(rest, b';'), b'\n').trim_ascii_start();
    if row.trim_ascii().contains(&b'\n') {
        "no ; ends this row at its line's end, so it has {} with those of the next line: a row ends with ;"
    } else if has(row, b"||") {
        "this row has {}, since || makes an empty one: cells are split by one |"
    } else if are_too_many {
        sentence_of_long_row(row)
    } else if !begins_with_letter(after) {
        "this row has {}, and the test has {}: write a cell for each core, empty or not, with | between cells and ; at the end"
    } else if is_instruction(digits_and_letters(after)) {
        "this row has {} and ends at its first ;: put | between cells of different cores, and a core's next instruction into the next row"
    } else {
        "this row has {} and ends at its first ;: put | between cells; a comment is written (* .. *)"
    }
}

/// What is said of a row with too many cells.
fn sentence_of_long_row(row: &[u8]) -> &'static str {
    if row.trim_ascii_end().ends_with(b"|") {
        "this row has {}, and the test has {}: | stands only between cells, so leave out the one at the row's end"
    } else if row.starts_with(b"|") {
        "this row has {}, and the test has {}: | stands only between cells, so leave out the one that begins the row"
    } else {
        "this row has {}, and the test has {}: leave a cell out, or name a further core in the row P0 | P1 ;"
    }
}

/// Of what passes a limit.
///
/// Errors: out of memory only.
pub fn too_large(alloc: Global, line: &mut Line, place: &Place<'_>) -> Result<(), NoMemory> {
    let token = place.token;
    let length = place.text.len();
    if let Some(said) = said_of_binary(place.text) {
        line.say(said);
    } else if length > MAX_TEXT {
        line.say_with(
            "the test has {} bytes: at most {} may stand before the line ====",
            &[Filling::Number(length), Filling::Number(MAX_TEXT)],
        );
    } else if matches!(after_gap(place.text), Ok(rest) if rest.len() == place.rest.len()) {
        // Nothing comes before it but white space and comments.
        line.say_number(
            "the test's name has more than {} bytes: write a shorter one",
            MAX_TEST_NAME,
        );
    } else if is_exactly_one_of("( ~ not", token) {
        line.say_of_number(
            "{} is one too many: at most {} brackets and negations may be open at once",
            token,
            MAX_OPEN,
        );
    } else {
        // What comes before the end of a cell, of an item or of an atom.
        let item = up_to_any(place.rest, b"|;}/\\)").trim_ascii_end();
        let (sentence, named, most) = match limit_at(alloc, place)? {
            Limit::Cores => (
                "{} is one too many: a test has at most {} cores",
                token,
                MAX_CORES,
            ),
            Limit::Locations => (
                "{} is one too many: a test has at most {} locations",
                item,
                MAX_LOCATIONS,
            ),
            Limit::Instructions => (
                "{} is one too many: a core has at most {} instructions",
                item,
                MAX_INSTRUCTIONS,
            ),
            Limit::Atoms => (
                "{} is one too many: a condition has at most {} atoms",
                item,
                MAX_ATOMS,
            ),
        };
        line.say_of_number(sentence, named, most);
    }
    Ok(())
}
