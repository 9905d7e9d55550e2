//! Hyphens that are no sign of a number. Where all instructions are asked for, a hyphen is a sign in any place, and a text is refused for
//! what comes of it; else it is refused for the hyphen itself, which says more.

use crate::place::Place;
use crate::quotes::{ends_with_name, first_bytes, up_to_any};
use litmus_reader::Why;
use litmus_tokens::{Instructions, Lexeme, Symbol, Token, is_symbol, tokens_of};
use std::alloc::Global;
use tso_terms::NoMemory;

/// How many bytes stand from the first hyphen on that is no sign, in what is at fault at a place. `None` where there is none.
///
/// Errors: out of memory only.
pub fn stray_hyphen(alloc: Global, place: &Place<'_>, why: Why) -> Result<Option<usize>, NoMemory> {
    let rest = place.rest;
    match why {
        Why::BadInit | Why::BadHeaderRow | Why::BadCondition | Why::Trailing | Why::Unclosed => {
            Ok(if rest.starts_with(b"-") {
                Some(rest.len())
            } else {
                None
            })
        }
        Why::BadToken if place.before.ends_with(b"-") => Ok(Some(rest.len().saturating_add(1))),
        Why::BadInstruction => stray_in(alloc, place, up_to_any(rest, b"|;")),
        Why::WrongCells => stray_in(alloc, place, up_to_any(rest, b";\n")),
        _ => Ok(None),
    }
}

/// How many bytes stand from the first hyphen on that is no sign, in this part at a place.
fn stray_in(alloc: Global, place: &Place<'_>, part: &[u8]) -> Result<Option<usize>, NoMemory> {
    let tokens = tokens_of(alloc, Instructions::All, part)?;
    for at in 0..tokens.items.len() {
        let token = tokens.items[at];
        let inside = part.len().saturating_sub(token.remaining);
        let is_in_name = ends_with_name(first_bytes(part, inside));
        if is_symbol(Symbol::Minus, &token)
            && (is_in_name || !is_number(tokens.items.get(at.saturating_add(1))))
        {
            return Ok(Some(place.rest.len().saturating_sub(inside)));
        }
    }
    Ok(None)
}

/// Whether a token is a number without a sign.
fn is_number(token: Option<&Token<'_>>) -> bool {
    match token {
        Some(token) => matches!(token.lexeme, Lexeme::Number(_) | Lexeme::Hexadecimal(_)),
        None => false,
    }
}
