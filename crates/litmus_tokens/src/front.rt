//! What is at the front of a list of tokens: a symbol, a name or a number with what is left after it, or nothing.

ghost use Rattle.std.specs.Prelude.{◌≡◌, ◌<◌, length, IfSome};
ghost use Rattle.std.specs.Option.{option_map};
ghost use Rattle.litmus_tokens.specs.inner.Pieces.{piece_of, pieces};
ghost use Rattle.litmus_tokens.specs.Front as front;

use crate::token::{Lexeme, Symbol, Token};

/// Whether the token is this symbol.
#[tactic(auto, using(crate::proofs::Symbols::same_spelling), unfolding(crate::specs::Front::is_symbol))]
pub fn is_symbol(symbol: Symbol, token: &Token<'_>) -> bool
    ensures { result ≡ front.is_symbol symbol (piece_of token.now) }
{
    match token.lexeme {
        Lexeme::Symbol(other) => symbol == other,
        _ => false,
    }
}

/// The tokens after this symbol, if it is at the front.
#[tactic(auto, unfolding(crate::specs::Front::symbol_at))]
pub fn after_symbol<'a, 'b>(symbol: Symbol, tokens: &'b [Token<'a>]) -> Option<&'b [Token<'a>]>
    ensures value { option_map (λ x. pieces x.now) result ≡ front.symbol_at symbol (pieces tokens.now) }
    ensures shorter { IfSome result (λ x. length x.now < length tokens.now) }
{
    let Some((first, rest)) = tokens.split_first() else {
        return None;
    };
    if is_symbol(symbol, first) {
        Some(rest)
    } else {
        None
    }
}

/// The name at the front, and the tokens after it.
#[tactic(auto, unfolding(crate::specs::Front::name_at))]
pub fn name_at<'a, 'b>(tokens: &'b [Token<'a>]) -> Option<(&'a [u8], &'b [Token<'a>])>
    ensures value { option_map (λ x. (x.0.now, pieces x.1.now)) result ≡ front.name_at (pieces tokens.now) }
    ensures shorter { IfSome result (λ x. length x.1.now < length tokens.now) }
{
    let Some((first, rest)) = tokens.split_first() else {
        return None;
    };
    match first.lexeme {
        Lexeme::Name(name) => Some((name, rest)),
        _ => None,
    }
}

/// The digits of the number at the front, without leading zeros, and the tokens after it.
#[tactic(auto, unfolding(crate::specs::Front::number_at))]
pub fn number_at<'a, 'b>(tokens: &'b [Token<'a>]) -> Option<(&'a [u8], &'b [Token<'a>])>
    ensures value { option_map (λ x. (x.0.now, pieces x.1.now)) result ≡ front.number_at (pieces tokens.now) }
    ensures shorter { IfSome result (λ x. length x.1.now < length tokens.now) }
{
    let Some((first, rest)) = tokens.split_first() else {
        return None;
    };
    match first.lexeme {
        Lexeme::Number(digits) => Some((digits, rest)),
        _ => None,
    }
}
