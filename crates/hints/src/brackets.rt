//! What is said of the brackets of a location in a cell: one name is in them, and nothing else does.

use crate::faults::NO_ARRAYS;
use crate::instructions::WORDS;
use crate::line::Line;
use crate::quotes::{digits_and_letters, last_bytes, token};
use crate::tables::said_of;
use litmus_tokens::{Lexeme, Symbol, Token, is_symbol};
use tso_terms::names::is_location_name;

const ONE_NAME: &str = "{} can't stand in [ ]: a location's name stands there alone, as [x]";

const TWO_NAMES: &str =
    "{} and another word stand in [ ]: a location's name is one word, as [x] or [x_1]";

const NO_NUMBER: &str =
    "{} in [ ] is an address, and none is read: write a location's name there, as [x]";

/// Says of the brackets of a cell, which has these tokens: of the first end that is missing, or of what is one too many in them or beside
/// them. Whether something is.
pub fn says_of_brackets(line: &mut Line, cell: &[u8], tokens: &[Token<'_>]) -> bool {
    let (opened, closed) = (
        count(Symbol::OpenSquare, tokens),
        count(Symbol::CloseSquare, tokens),
    );
    if opened > closed {
        line.say("no ] closes the [ of a location: it is written [x]");
    } else if opened < closed {
        line.say("no [ stands before the ] of a location: it is written [x]");
    } else {
        return says_of_content(line, cell, tokens);
    }
    true
}

/// How many of these tokens are this symbol.
pub fn count(symbol: Symbol, tokens: &[Token<'_>]) -> usize {
    let mut count = 0usize;
    for token in tokens {
        if is_symbol(symbol, token) {
            count = count.saturating_add(1);
        }
    }
    count
}

fn says_of_content(line: &mut Line, cell: &[u8], tokens: &[Token<'_>]) -> bool {
    let mut is_open = false;
    for at in 1..tokens.len() {
        let (before, here) = (tokens[at - 1], tokens[at]);
        is_open = match before.lexeme {
            Lexeme::Symbol(Symbol::OpenSquare) => true,
            Lexeme::Symbol(Symbol::CloseSquare) => false,
            _ => is_open,
        };
        if let Some((said, named)) = misfit(is_open, before, here) {
            let text = last_bytes(cell, named.remaining);
            let name = digits_and_letters(text);
            line.say_of(said, if name.is_empty() { token(text) } else { name });
            return true;
        }
    }
    false
}

/// What is said of two tokens that are side by side, in brackets or not, and of which one.
fn misfit<'a>(
    is_open: bool,
    before: Token<'a>,
    here: Token<'a>,
) -> Option<(&'static str, Token<'a>)> {
    match (before.lexeme, here.lexeme) {
        (Lexeme::Symbol(Symbol::CloseSquare), Lexeme::Symbol(Symbol::OpenSquare)) => Some((
            NO_ARRAYS, here,
        )),
        (Lexeme::Name(name), Lexeme::Symbol(Symbol::OpenSquare)) if is_array(name) => Some((
            NO_ARRAYS, here,
        )),
        (Lexeme::Symbol(Symbol::OpenSquare), Lexeme::Symbol(Symbol::CloseSquare)) => {
            Some(("no name stands in [ ]: write a location's, as [x]", here))
        }
        (Lexeme::Symbol(Symbol::OpenSquare), Lexeme::Number(_)) => Some((NO_NUMBER, here)),
        (Lexeme::Name(_), Lexeme::Name(_)) if is_open => Some((TWO_NAMES, before)),
        (_, Lexeme::Symbol(Symbol::Comma | Symbol::Colon | Symbol::OpenRound | Symbol::OpenSquare))
            if is_open => Some((ONE_NAME, here)),
        _ => None,
    }
}

/// Whether a name before a bracket may be meant as that of an array.
fn is_array(name: &[u8]) -> bool {
    is_location_name(name) && said_of(&WORDS, name).is_none()
}
