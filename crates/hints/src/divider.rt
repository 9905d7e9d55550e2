//! A dividing line that isn't there: what follows the test is then refused as a part of it, and the refusal alone would
//! mislead.

use crate::line::Line;
use crate::place::Place;
use crate::quotes::{is_choice, word};
use crate::reader::Reader;
use crate::tables::is_exactly_one_of;
use litmus_tokens::Instructions;

/// For which command a test was read and with which instructions, and whether a dividing line comes after it.
#[derive(Clone, Copy)]
pub struct Asked {
    pub reader: Reader,
    pub instructions: Instructions,
    pub is_divided: bool,
}

/// Says that the dividing line is missing, where an input without one goes on after its test as it would after such a line.
/// Whether it does.
pub fn says_missing_divider(line: &mut Line, asked: Asked, place: &Place<'_>) -> bool {
    let word = word(place.rest);
    let sentence = if asked.is_divided {
        return false;
    } else if word.starts_with(b"=") && place.is_first_on_line() {
        "{} is no dividing line: write ==== alone, with no space before or after it"
    } else if is_choice(word) {
        "{} is no part of a test: put a line ==== between the test and the choices"
    } else if matches!(asked.reader, Reader::Check | Reader::Witness) && begins_order(word) {
        "{} is no part of a test: put a line ==== between the test and the order"
    } else {
        return false;
    };
    line.say_of(sentence, word);
    true
}

/// Whether an order, as `run` prints it, begins with this word.
pub fn begins_order(word: &[u8]) -> bool {
    is_exactly_one_of("Order Test", word)
}
