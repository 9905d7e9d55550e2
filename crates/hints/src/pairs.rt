//! What is said of the operands of an instruction together: of how many there are, and of which kinds.

use crate::brackets::count;
use crate::line::Line;
use crate::words::name_of;
use litmus_tokens::{Lexeme, Symbol, Token, is_symbol};

/// Says of how many operands there are, and of which kinds. Whether it is known what was meant.
pub fn says_of_pair(line: &mut Line, operands: &[Token<'_>]) -> bool {
    if says_of_parts(line, operands) {
        return true;
    }
    match said_of_signs(operands) {
        Some(said) => line.say(said),
        None => return false,
    }
    true
}

/// Says of commas between operands and of `$` before numbers. Whether one is missing, or is too many.
pub fn says_of_parts(line: &mut Line, operands: &[Token<'_>]) -> bool {
    match said_of_commas(operands).or(said_of_dollars(operands)) {
        Some(said) => line.say(said),
        None => return false,
    }
    true
}

/// What is said of commas between operands, and of one that is missing.
fn said_of_commas(operands: &[Token<'_>]) -> Option<&'static str> {
    let commas = count(Symbol::Comma, operands);
    let locations = count(Symbol::OpenSquare, operands);
    if commas == 0 && locations > 0 && operands.len() > 3 {
        Some("no comma stands between the two operands, as in MOV [x],$1 and MOV EAX,[x]")
    } else if commas > 1 && has_long_number(operands) {
        Some("a number has digits alone: leave the comma in it out, as in MOV [x],$1000")
    } else if commas > 1 && ends_with(Symbol::Comma, operands) {
        Some(
            "a comma stands behind the second operand: leave it out: an instruction has two, as MOV [x],$1",
        )
    } else if commas > 1 {
        Some(
            "an instruction has two operands and one comma between them, as MOV [x],$1 and MOV EAX,[x]",
        )
    } else if commas == 1 && ends_with(Symbol::Comma, operands) {
        Some("no operand stands behind the comma: write one, as in MOV [x],$1 and MOV EAX,[x]")
    } else {
        None
    }
}

/// What is said of `$` twice, or behind a number.
fn said_of_dollars(operands: &[Token<'_>]) -> Option<&'static str> {
    if count(Symbol::Dollar, operands) > 1 {
        Some("$ stands twice: one $ stands before a number, as in MOV [x],$1")
    } else if !ends_with(Symbol::Dollar, operands) {
        None
    } else if has_number_before_last(operands) {
        Some("$ stands behind its number: write it before, as in MOV [x],$1")
    } else {
        Some("no number stands behind $, which stands before one, as in MOV [x],$1")
    }
}

/// What is said of one operand alone, and of signs that no operand has.
fn said_of_signs(operands: &[Token<'_>]) -> Option<&'static str> {
    let locations = count(Symbol::OpenSquare, operands);
    if is_name_alone(operands) {
        Some(
            "an operand is missing: with a register first write what goes to it, as in MOV EAX,[x] or XCHG EAX,[x]",
        )
    } else if operands.len() == 3 && locations == 1 {
        Some(
            "an operand is missing: with a location first write what goes to it, as in MOV [x],$1 or XCHG [x],EAX",
        )
    } else if count(Symbol::Tilde, operands) > 0 {
        Some("~: nothing is computed here: write the number that it comes to, as $4294967295")
    } else if count(Symbol::OpenRound, operands) > 0 && locations > 0 {
        Some("'(': leave the round brackets out: a number is written $1, a location [x]")
    } else {
        None
    }
}

/// Whether a number stands before the last of these tokens.
fn has_number_before_last(tokens: &[Token<'_>]) -> bool {
    match tokens {
        [.., before, _] => matches!(before.lexeme, Lexeme::Number(_)),
        _ => false,
    }
}

/// Whether these tokens are a name alone.
fn is_name_alone(tokens: &[Token<'_>]) -> bool {
    match tokens {
        [one] => !name_of(one).is_empty(),
        _ => false,
    }
}

/// Whether a number ends with a comma and three digits.
fn has_long_number(tokens: &[Token<'_>]) -> bool {
    match tokens {
        [.., before, comma, last] => {
            matches!(before.lexeme, Lexeme::Number(_))
                && is_symbol(Symbol::Comma, comma)
                && matches!(last.lexeme, Lexeme::Number(digits) if digits.len() == 3)
        }
        _ => false,
    }
}

/// Whether the last of these tokens is this symbol.
fn ends_with(symbol: Symbol, tokens: &[Token<'_>]) -> bool {
    match tokens.last() {
        Some(last) => is_symbol(symbol, last),
        None => false,
    }
}
