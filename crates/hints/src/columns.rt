//! What is said of the row of cores.

use crate::c_forms::is_type;
use crate::faults::{COMES_LAST, ENDS_ROW, unfit};
use crate::headers::has_row_of_cores;
use crate::items::KEYS;
use crate::keywords::begins_instruction;
use crate::line::{Filling, Line};
use crate::mnemonics::larger_of;
use crate::numbers::number_in;
use crate::place::Place;
use crate::points::BAR;
use crate::quotes::{
    after_byte, begins_with_letter, first_word, has, is_all_digits, is_bare, is_row_of_cores,
    last_bytes, last_word, token, up_to, up_to_any,
};
use crate::rows::bars_in;
use crate::signs::is_core;
use crate::tables::is_exactly_one_of;

/// Of a row as Markdown has it.
pub const FRAMED: &str =
    "{} begins and ends this row, as in Markdown: leave both out, and write ; at its end";

/// The form of the row of cores.
const ROW_OF_CORES: &str = ": the row of cores is P0 | P1 | .. in order, ended by ;";

/// Of the row of cores.
pub fn bad_columns(line: &mut Line, place: &Place<'_>) {
    let said = said_behind_core(place)
        .or(said_of_bars(place))
        .or(said_of_condition(place))
        .or(said_of_braces(place))
        .or(said_of_signs(place));
    match said {
        Some(said) => line.say_of(said, place.token),
        None if says_core(line, place) => {}
        None => unfit(line, place, "the test ends within a row", ROW_OF_CORES),
    }
}

/// What is said of what stands behind a core and is no bar.
fn said_behind_core(place: &Place<'_>) -> Option<&'static str> {
    let token = place.token;
    if !is_core(place.last_word) {
        None
    } else if place.is_first_on_line() {
        Some("no ; ends the row of cores in the line before {}: a row ends with ;")
    } else if ends_row(place) {
        Some(ENDS_ROW)
    } else if is_core(token) {
        Some("no | stands before {}: cells are split by the vertical bar")
    } else if is_core(token_of(place)) {
        Some(BAR)
    } else if begins_with_letter(token) {
        Some(
            "{} can't stand behind a core: the row of cores is P0 | P1 | .. ;, and each core has a column of instructions below it",
        )
    } else if is_exactly_one_of("(", token) {
        Some(
            "{} begins the arguments of a function in C: here the row of cores is P0 | P1 | .. ;, and each core has a column of instructions below it",
        )
    } else {
        None
    }
}

/// Whether a sign or a word behind a core ends the row.
fn ends_row(place: &Place<'_>) -> bool {
    !is_exactly_one_of("| ; { (", place.token)
        && !place.rest.is_empty()
        && !is_core(place.token)
        && place.is_last_on_line()
        && (is_exactly_one_of(",", place.token) || place.whole_line().contains(&b'|'))
}

/// What is said of a bar that splits no two cells.
fn said_of_bars(place: &Place<'_>) -> Option<&'static str> {
    let (token, last) = (place.token, place.last_word);
    let is_bar = is_exactly_one_of("|", token);
    if is_bar && place.is_first_on_line() {
        Some(if place.whole_line().trim_ascii_end().ends_with(b"|") {
            FRAMED
        } else {
            "{} stands only between cells: leave out the one that begins the row"
        })
    } else if !is_exactly_one_of("|", last) {
        None
    } else if is_exactly_one_of(";", token) || place.is_first_on_line() {
        Some("| stands only between cells: leave out the one at the row's end, before {}")
    } else if is_bar {
        Some("{} stands twice: leave one out: one splits two cells")
    } else {
        None
    }
}

/// What is said of a condition before the rows, or without any, and of the end of the test there.
fn said_of_condition(place: &Place<'_>) -> Option<&'static str> {
    if is_exactly_one_of("exists forall ~", place.token) {
        Some(if has_rows(place.rest) {
            COMES_LAST
        } else {
            "no rows stand before {}: write a row P0 | P1 ; and rows of instructions above it, as MOV [x],$1 | MOV [y],$1 ;"
        })
    } else if place.rest.is_empty() && place.last_word.ends_with(b"}") {
        Some(
            "the test ends before its rows: write a row P0 | P1 ; and rows of instructions, as MOV [x],$1 | MOV [y],$1 ;",
        )
    } else {
        None
    }
}

/// Whether rows stand below the line with which a text begins.
fn has_rows(text: &[u8]) -> bool {
    has_row_of_cores(text) || up_to(after_byte(text, b'\n'), b'=').contains(&b';')
}

/// What is said of a brace, and of what stands behind one.
fn said_of_braces(place: &Place<'_>) -> Option<&'static str> {
    let (token, last) = (place.token, place.last_word);
    if is_exactly_one_of(";", token) && last.ends_with(b"}") {
        Some("{} stands behind the } of the initial state: leave it out")
    } else if is_exactly_one_of("{", token) && last.ends_with(b"}") {
        Some(
            "{} begins a second initial state: write all its items into the one above, and leave this one out",
        )
    } else if is_exactly_one_of("}", token) {
        Some("{} closes nothing here: leave it out")
    } else if is_exactly_one_of("{", token) && is_core(last) {
        Some(
            "{}: no braces stand around a core's program: the row of cores is P0 | P1 | .. ;, and each core has a column of instructions below it",
        )
    } else {
        None
    }
}

/// What is said of a comma, a stroke or a colon.
fn said_of_signs(place: &Place<'_>) -> Option<&'static str> {
    if is_exactly_one_of(", /", place.token) {
        Some(BAR)
    } else if is_exactly_one_of(":", place.token) {
        Some(
            "{}: leave it out: the row of cores is P0 | P1 | .. ;, and each row below it has one cell for each core, with its next instruction",
        )
    } else {
        None
    }
}

/// The token behind that of a place, on the same line.
fn token_of<'a>(place: &Place<'a>) -> &'a [u8] {
    let line = up_to(place.rest, b'\n');
    let count = line.len().saturating_sub(place.token.len());
    token(last_bytes(line, count).trim_ascii_start())
}

/// Says of a core by another name or another number, or of an instruction or an item in the place of the row of cores. Whether one
/// stands there.
fn says_core(line: &mut Line, place: &Place<'_>) -> bool {
    let cell = up_to_any(place.rest, b"|;\n").trim_ascii_end();
    let row = up_to(place.rest, b'\n');
    if is_of_function(place, row) {
        line.say_of(
            "{} begins a function or a thread of another language: here the row of cores is P0 | P1 | .. ;, and each core has a column of instructions below it",
            place.token,
        );
    } else if is_exactly_one_of(KEYS, place.token) && row.contains(&b'=') {
        line.say_of(
            "{}= begins a line of information: it stands above the {, or is left out",
            place.token,
        );
    } else if is_read_instruction(place.token) && place.is_first_on_line() {
        line.say_of(
            "no row of cores stands before {}: write one above it, as P0 | P1 ;, with a name for each core",
            place.token,
        );
    } else if row.contains(&b'=') && place.line_before().ends_with(b"}") {
        line.say_of(
            "{} stands behind the initial state: write its items before the }",
            place.token,
        );
    } else if !is_name_of_core(cell) || row.contains(&b'=') {
        return false;
    } else if !is_core(place.token) && is_row_of_cores(after_byte(row, b'|')) {
        line.say_of(
            "{} stands before the cores: leave it out, and the | behind it, here and in each row",
            cell,
        );
    } else {
        line.say_with(
            if is_core(cell) && !is_core_of(cell, bars_in(place.line_before())) {
                "{}: write P{} in its place: cores are P0 | P1 | .. in order; mend the numbers of the condition too"
            } else {
                "{}: write P{} in its place: the row of cores is P0 | P1 | .. in order, ended by ;"
            },
            &[
                Filling::Named(cell),
                Filling::Number(bars_in(place.line_before())),
            ],
        );
    }
    true
}

/// Whether a row begins a function or a thread of another language: with a type, or with a name before a bracket, a brace or a colon.
fn is_of_function(place: &Place<'_>, row: &[u8]) -> bool {
    let after = place.after_token();
    (begins_with_letter(place.token) || place.token.starts_with(b"_"))
        && place.is_first_on_line()
        && (is_type(place.token)
            || after.starts_with(b"(")
            || after.starts_with(b":")
            || row.trim_ascii_end().ends_with(b"{"))
}

/// Whether a word names the core of this number.
fn is_core_of(word: &[u8], number: usize) -> bool {
    let digits = last_bytes(word, word.len().saturating_sub(1));
    matches!(number_in(digits), Some(named) if named as usize == number)
}

/// Whether an instruction that is read begins with a word, of either set.
fn is_read_instruction(word: &[u8]) -> bool {
    begins_instruction(word) || larger_of(word).is_some()
}

/// Whether a cell may be meant as the name of a core: one word or two, the second a number.
fn is_name_of_core(cell: &[u8]) -> bool {
    let first = first_word(cell);
    let second = last_bytes(cell, cell.len().saturating_sub(first.len())).trim_ascii();
    is_bare(first)
        && !is_read_instruction(first)
        && (second.is_empty() || (is_all_digits(second) && begins_with_letter(first)))
}
