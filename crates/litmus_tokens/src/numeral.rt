//! Numbers as texts spell them: a sign, digits, and their base.

ghost use Rattle.std.specs.Prelude.{◌≡◌, ◌<◌, false, length, IfSome};
ghost use Rattle.std.specs.Option.{option_map};
ghost use Rattle.litmus_tokens.specs.inner.Pieces.{pieces};
ghost use Rattle.litmus_tokens.specs.inner.Numerals.{size_of, numeral_of};
ghost use Rattle.litmus_tokens.specs.Front as front;

use crate::front::after_symbol;
use crate::token::{Lexeme, Symbol, Token};

/// A number as a text spells it.
#[derive(Clone, Copy)]
pub struct Numeral<'a> {
    pub is_negative: bool,
    pub is_hexadecimal: bool,
    pub digits: &'a [u8],
}

/// The number without a sign at the front, and the tokens after it.
#[inline(always)]
#[tactic(auto, unfolding(crate::specs::Front::unsigned_at))]
fn unsigned_at<'a, 'b>(tokens: &'b [Token<'a>]) -> Option<(Numeral<'a>, &'b [Token<'a>])>
    ensures value { option_map (λ x. (size_of x.0, pieces x.1.now)) result ≡ front.unsigned_at (pieces tokens.now) }
    ensures unsigned { IfSome result (λ x. x.0.is_negative ≡ false) }
    ensures shorter { IfSome result (λ x. length x.1.now < length tokens.now) }
{
    let Some((first, rest)) = tokens.split_first() else {
        return None;
    };
    let (digits, is_hexadecimal) = match first.lexeme {
        Lexeme::Number(digits) => (digits, false),
        Lexeme::Hexadecimal(digits) => (digits, true),
        _ => return None,
    };
    let numeral = Numeral {
        is_negative: false,
        is_hexadecimal,
        digits,
    };
    Some((numeral, rest))
}

/// The number at the front, perhaps with a sign, and the tokens after it.
#[inline(always)]
#[tactic(auto, unfolding(crate::specs::Front::numeral_at))]
pub fn numeral_at<'a, 'b>(tokens: &'b [Token<'a>]) -> Option<(Numeral<'a>, &'b [Token<'a>])>
    ensures value { option_map (λ x. (numeral_of x.0, pieces x.1.now)) result ≡ front.numeral_at (pieces tokens.now) }
    ensures shorter { IfSome result (λ x. length x.1.now < length tokens.now) }
{
    if let Some((numeral, rest)) = unsigned_at(tokens) {
        return Some((numeral, rest));
    }
    if let Some(rest) = after_symbol(Symbol::Minus, tokens)
        && let Some((numeral, rest)) = unsigned_at(rest)
    {
        let negative = Numeral {
            is_negative: true,
            ..numeral
        };
        return Some((negative, rest));
    }
    None
}
