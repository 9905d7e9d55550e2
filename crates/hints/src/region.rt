//! In which part of a test a byte stands that begins no token: what is meant by it differs from part to part.

use crate::body::body_of;
use crate::place::Place;
use crate::quotes::{after_last, has, up_to};

/// A part of a test.
#[derive(Clone, Copy)]
pub enum Region {
    /// The lines before the initial state.
    Information,
    /// The initial state.
    Initial,
    /// The row of cores and the rows.
    Rows,
    /// The condition.
    Condition,
}

/// The part of a test in which a place stands, as far as the text before it tells.
pub fn region_of(place: &Place<'_>) -> Region {
    // Without a brace no initial state begins, which is known without a second reading of the lines before it.
    if !place.before.contains(&b'{') {
        return Region::Information;
    }
    let body = body_of(place.before);
    if body.is_empty() {
        Region::Information
    } else if !body.contains(&b'}') {
        Region::Initial
    } else if begins_condition(after_last(body, b";}"), up_to(place.rest, b'\n')) {
        Region::Condition
    } else {
        Region::Rows
    }
}

/// Whether a text that comes after the end of a row is of a condition. No row has an equals sign, but one in C has; then its line goes
/// on to the end of a row.
fn begins_condition(text: &[u8], rest_of_line: &[u8]) -> bool {
    text.trim_ascii_start().starts_with(b"~")
        || has(text, b"exists")
        || has(text, b"forall")
        || (text.contains(&b'=') && !rest_of_line.contains(&b';'))
}
