//! What comes after the information lines of a test, and in its condition: a hint needs such parts of a text that was
//! refused, so they are found without a reader.

use crate::quotes::last_bytes;
use litmus_reader::{braces_at, header_at};
use litmus_tokens::{Instructions, Lexeme, Stop, Token, Tokens, after_gap, token_at};

/// What stands from the initial state of a test on, or nothing where none begins.
pub fn body_of(text: &[u8]) -> &[u8] {
    if let Ok((_, rest)) = header_at(text)
        && let Ok(body) = braces_at(rest)
    {
        return body;
    }
    &[]
}

/// What stands from the last `exists` or `forall` on, which begins the condition, or nothing where there is
/// none; `tokens` are those of the body. They end before it only where they stop in `locations [..]`, in which
/// any bytes may stand: then what comes after these brackets.
pub fn ending_of<'a>(body: &'a [u8], tokens: &Tokens<'a>) -> &'a [u8] {
    if let Stop::BadToken(remaining) = tokens.stop {
        return after_square(last_bytes(body, remaining));
    }
    let mut last = 0;
    for token in &tokens.items {
        if is_name(token, b"exists") || is_name(token, b"forall") {
            last = token.remaining;
        }
    }
    last_bytes(body, last)
}

/// The condition of the body of a test that has no fault, from its `exists` or `forall` on, or nothing where it has none.
/// But for `locations [..]`, no other part of such a test has these words.
pub fn condition_of(body: &[u8]) -> &[u8] {
    let mut rest = body;
    // Each token has a byte at least.
    for _ in 0..body.len() {
        let Ok((token, after)) = token_at(Instructions::All, rest) else {
            return &[];
        };
        if is_name(&token, b"exists") || is_name(&token, b"forall") {
            return rest;
        }
        rest = if is_name(&token, b"locations") {
            after_square(after)
        } else {
            after
        };
    }
    &[]
}

/// What comes after the next `]`, comments passed over, or nothing where there is none.
fn after_square(text: &[u8]) -> &[u8] {
    let mut rest = text;
    for _ in 0..text.len() {
        let Ok(at) = after_gap(rest) else {
            return &[];
        };
        match at.split_first() {
            Some((b']', after)) => return after,
            Some((_, after)) => rest = after,
            None => return &[],
        }
    }
    &[]
}

/// Whether a token is this name.
pub fn is_name(token: &Token<'_>, name: &[u8]) -> bool {
    match token.lexeme {
        Lexeme::Name(other) => other == name,
        _ => false,
    }
}
