//! What is said of a cell or a row in a form of another language, wherever in it the fault is: only the whole of a form tells what was meant.

use crate::assembled::without_comment;
use crate::assembly::says_instruction;
use crate::directives::says_directive;
use crate::keywords::says_condition;
use crate::line::Line;
use crate::markup::unquoted;
use crate::operands::{ENDS_OF_CELL, cell_at, says_unread};
use crate::place::Place;
use crate::quotes::{after_last, begins_with_letter, up_to_any};
use crate::region::{Region, region_of};
use crate::statement::says_statement;
use litmus_reader::Why;

/// Says of the form of another language in which a place of a test stands, if it is known. Whether it is.
pub fn says_form(line: &mut Line, place: &Place<'_>, why: Why) -> bool {
    match why {
        Why::BadInstruction => {
            let cell = up_to_any(place.rest, b"|;").trim_ascii_end();
            !cell.contains(&b'\n') && says_cell(line, cell)
        }
        Why::BadToken => match region_of(place) {
            Region::Rows => {
                says_condition(line, &row_of(place))
                    || (is_in_cell(place) && says_cell(line, cell_at(place)))
                    || (is_in_operand(place) && says_unread(line, cell_at(place)))
            }
            Region::Condition => says_condition(line, &row_of(place)),
            _ => false,
        },
        Why::Unclosed if begins_pointer(place.rest) && matches!(region_of(place), Region::Rows) => {
            says_cell(line, cell_at(place))
        }
        _ => false,
    }
}

/// The cell in which a place of a row stands: of a fault of the cell, or of a byte before its comment.
pub fn in_cell<'a>(place: &Place<'a>, why: Why) -> Option<&'a [u8]> {
    match why {
        Why::BadInstruction => Some(up_to_any(place.rest, b"|;").trim_ascii_end()),
        Why::BadToken if matches!(region_of(place), Region::Rows) && is_in_cell(place) => {
            Some(cell_at(place))
        }
        _ => None,
    }
}

/// Whether a place stands before the comment that its cell ends with.
fn is_in_cell(place: &Place<'_>) -> bool {
    let before = after_last(place.before, ENDS_OF_CELL).trim_ascii_start();
    before.len() < without_comment(cell_at(place)).len()
}

/// Whether a place stands at a sign that operands have in other languages, and not at one that splits cells or lays a text out.
fn is_in_operand(place: &Place<'_>) -> bool {
    match place.rest.first() {
        Some(first) => is_in_cell(place) && b"%.*#+-@'".contains(first),
        None => false,
    }
}

/// Says of a cell in a form of another language, if all of it is known. Whether it is.
pub fn says_cell(line: &mut Line, cell: &[u8]) -> bool {
    let inside = before_comment(unquoted(cell));
    let is_known = says_instruction(line, inside)
        || says_statement(line, inside)
        || says_directive(line, inside);
    if is_known && cell.starts_with(b"\"") {
        line.say("; leave the quotation marks out");
    }
    is_known
}

/// What stands before a comment of C, or all where none begins.
fn before_comment(cell: &[u8]) -> &[u8] {
    for at in 0..cell.len() {
        if cell[at..].starts_with(b"/*") {
            return cell[..at].trim_ascii_end();
        }
    }
    cell
}

/// Whether a text begins with a location in C behind a bracket, as `(*x)`, which begins a comment here.
fn begins_pointer(text: &[u8]) -> bool {
    match text.strip_prefix(b"(*") {
        Some(after) => begins_with_letter(after),
        None => false,
    }
}

/// The place at which the row begins that a place stands in.
fn row_of<'a>(place: &Place<'a>) -> Place<'a> {
    let row = after_last(place.before, b";}").trim_ascii_start();
    Place::new(place.text, place.rest.len().saturating_add(row.len()))
}
