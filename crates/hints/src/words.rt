//! What is said of words among the operands of an instruction: of one that is neither a register nor a location in brackets, and of a number
//! that is none.

use crate::brackets::says_of_brackets;
use crate::faults::{COMMENT, NO_VALUE, WORD_OF_CONDITIONS, says_digit_first};
use crate::instructions::WORDS;
use crate::items::is_no_number;
use crate::keywords::begins_instruction;
use crate::line::{Filling, Line};
use crate::mnemonics::larger_of;
use crate::numbers::number_in;
use crate::place::Place;
use crate::quotes::{digits_and_letters, first_bytes, last_bytes};
use crate::registers::{register_of, says_register};
use crate::tables::{begins_with_one_of, is_one_of, said_of};
use litmus_tokens::{Lexeme, Symbol, Token, is_symbol};
use tso_terms::Reg;
use tso_terms::names::is_location_name;

const NO_REGISTER: &str =
    "{} is none of EAX, EBX, ECX, EDX, ESI, EDI; a location is written [x], and a number in digits, as $1";

const NO_LOCATION: &str =
    "{} names no location, and no register can hold an address here: write the location's name in [ ], as [x]; the tool import does so where the initial state has an item as 0:EBX=x";

const NO_SECOND: &str =
    "{} begins a second instruction: a cell has one, so write it into the next row";

const NO_DOLLAR: &str =
    "$ stands before {}: it stands before numbers alone, and a register is written without it";

const NO_NAME: &str =
    "$ stands before {}: it stands before numbers alone, and a location's name in [ ], as [x]";

const NO_MORE: &str =
    "{} stands behind the instruction: leave it out; a comment is written (* .. *)";

/// Says of the first of an instruction's operands that is none, of a bracket among them, or of a word that is none. Whether there is one.
pub fn says_of_each(line: &mut Line, cell: &[u8], operands: &[Token<'_>]) -> bool {
    says_of_digits(line, cell, operands)
        || says_of_brackets(line, cell, operands)
        || says_parted(line, operands)
        || says_two_words(line, cell, operands)
        || says_of_words(line, operands)
}

/// Says of the first word among operands that begins with a digit and is no number. Whether there is one.
fn says_of_digits(line: &mut Line, cell: &[u8], operands: &[Token<'_>]) -> bool {
    let mut is_inside = false;
    for token in operands {
        let place = Place::new(cell, token.remaining);
        let is_address = is_inside && is_hexadecimal(place.bare_word());
        if !is_address && !name_of(token).is_empty() && says_digit_first(line, &place) {
            return true;
        }
        is_inside = is_symbol(Symbol::OpenSquare, token)
            || (is_inside && !is_symbol(Symbol::CloseSquare, token));
    }
    false
}

/// Whether a word is a number to base 16 by a mark that says so.
fn is_hexadecimal(word: &[u8]) -> bool {
    let is_marked = begins_with_one_of("0x", word) || word.ends_with(b"h") || word.ends_with(b"H");
    is_marked && number_in(word).is_some()
}

/// Says of a register with a space in its name. Whether one is among operands.
fn says_parted(line: &mut Line, operands: &[Token<'_>]) -> bool {
    for at in 1..operands.len() {
        let (first, second) = (name_of(&operands[at - 1]), name_of(&operands[at]));
        if let Some(meant) = register_of(first, second) {
            line.say_with(
                "{} {}: write {}, without a space",
                &[
                    Filling::Shown(first),
                    Filling::Shown(second),
                    Filling::Text(meant),
                ],
            );
            return true;
        }
    }
    false
}

/// Says of two operands without a comma between them, of which the first is a location without brackets. Whether they are all.
fn says_two_words(line: &mut Line, cell: &[u8], operands: &[Token<'_>]) -> bool {
    let [first, second] = operands else {
        return false;
    };
    let is_number = matches!(second.lexeme, Lexeme::Number(_));
    let is_known = is_location_name(name_of(first))
        && (is_number || Reg::from_name(name_of(second)).is_some());
    if is_known {
        let before = first_bytes(cell, cell.len().saturating_sub(first.remaining));
        line.say_with(
            "{}: write {} [{}],{}{}",
            &[
                Filling::Named(cell),
                Filling::Shown(before.trim_ascii_end()),
                Filling::Shown(digits_and_letters(last_bytes(cell, first.remaining))),
                Filling::Text(if is_number { "$" } else { "" }),
                Filling::Shown(digits_and_letters(last_bytes(cell, second.remaining))),
            ],
        );
    }
    is_known
}

/// Says of the first name among operands that is neither a location in brackets nor a register. Whether there is one.
fn says_of_words(line: &mut Line, operands: &[Token<'_>]) -> bool {
    let mut before = None;
    let mut has_comma = false;
    for token in operands {
        let name = name_of(token);
        if has_comma && is_symbol(Symbol::OpenRound, token) && ends_operand_before(before) {
            line.say(COMMENT);
            return true;
        }
        if !name.is_empty() && says_misfit(line, before, name, has_comma) {
            return true;
        }
        has_comma = has_comma || is_symbol(Symbol::Comma, token);
        before = Some(token.lexeme);
    }
    false
}

/// Says of a name that is no operand, by what stands before it, among it a comma or none. Whether it is none.
fn says_misfit(line: &mut Line, before: Option<Lexeme<'_>>, name: &[u8], has_comma: bool) -> bool {
    if fits(before, name) {
        return false;
    }
    match misfit(before, name, has_comma) {
        Some(said) => line.say_of(said, name),
        None if says_register(line, name) => {}
        None => line.say_of(NO_REGISTER, name),
    }
    true
}

/// Whether a name is a register, or a location's in brackets.
fn fits(before: Option<Lexeme<'_>>, name: &[u8]) -> bool {
    match before {
        Some(Lexeme::Symbol(Symbol::Dollar)) => false,
        Some(Lexeme::Symbol(Symbol::OpenSquare)) => is_location_name(name),
        _ => Reg::from_name(name).is_some(),
    }
}

/// What is said of a name that doesn't fit, where more is known of it than that it is none of the registers.
fn misfit(before: Option<Lexeme<'_>>, name: &[u8], has_comma: bool) -> Option<&'static str> {
    match before {
        Some(Lexeme::Symbol(Symbol::Dollar)) => Some(said_of_dollar(name)),
        Some(Lexeme::Symbol(Symbol::OpenSquare))
            if is_one_of("exists forall not true false", name) => Some(WORD_OF_CONDITIONS),
        Some(Lexeme::Symbol(Symbol::OpenSquare)) => Some(NO_LOCATION),
        _ if is_no_number(name) => Some(NO_VALUE),
        _ if begins_instruction(name) || larger_of(name).is_some() => Some(NO_SECOND),
        Some(before) if has_comma && ends_operand(before) => Some(NO_MORE),
        _ => said_of(&WORDS, name),
    }
}

/// What is said of a name behind `$`.
fn said_of_dollar(name: &[u8]) -> &'static str {
    if Reg::from_name(name).is_some() {
        NO_DOLLAR
    } else if is_no_number(name) {
        NO_VALUE
    } else {
        NO_NAME
    }
}

/// Whether an operand may end before a place, with a token that stands there or with none.
fn ends_operand_before(before: Option<Lexeme<'_>>) -> bool {
    match before {
        Some(lexeme) => ends_operand(lexeme),
        None => false,
    }
}

/// Whether an operand may end with a token.
fn ends_operand(lexeme: Lexeme<'_>) -> bool {
    matches!(
        lexeme,
        Lexeme::Number(_)
            | Lexeme::Hexadecimal(_)
            | Lexeme::Name(_)
            | Lexeme::Symbol(Symbol::CloseSquare)
    )
}

/// The name that a token is, or no bytes.
pub fn name_of<'a>(token: &Token<'a>) -> &'a [u8] {
    match token.lexeme {
        Lexeme::Name(name) => name,
        _ => &[],
    }
}
