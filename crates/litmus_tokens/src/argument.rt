//! What an instruction works on, as a cell spells it: a register, a number after `$`, or a location in brackets.

ghost use Rattle.std.specs.Prelude.{◌≡◌};
ghost use Rattle.std.specs.Option.{option_map};
ghost use Rattle.litmus_tokens.specs.inner.Pieces.{pieces};
ghost use Rattle.litmus_tokens.specs.Arguments as spec;
ghost use Rattle.litmus_tokens.specs.inner.Arguments.{argument_of};

use crate::front::after_symbol;
use crate::names::{location_at, register_at};
use crate::numeral::{Numeral, numeral_at};
use crate::token::{Symbol, Token};
use tso_terms::Reg;

/// What an instruction works on.
#[derive(Clone, Copy)]
pub enum Argument<'a> {
    Location(&'a [u8]),
    Register(Reg),
    Number(Numeral<'a>),
}

/// The operand at the front, and the tokens after it.
#[tactic(auto, unfolding(crate::specs::Arguments::argument_at))]
pub fn argument_at<'a, 'b>(tokens: &'b [Token<'a>]) -> Option<(Argument<'a>, &'b [Token<'a>])>
    ensures { option_map (λ x. (argument_of x.0, pieces x.1.now)) result ≡ spec.argument_at (pieces tokens.now) }
{
    if let Some((numeral, rest)) = numeral_at(tokens) {
        return Some((Argument::Number(numeral), rest));
    }
    if let Some(rest) = after_symbol(Symbol::Dollar, tokens) {
        if let Some((numeral, rest)) = numeral_at(rest) {
            return Some((Argument::Number(numeral), rest));
        }
        return None;
    }
    if let Some(rest) = after_symbol(Symbol::OpenSquare, tokens) {
        if let Some((name, rest)) = location_at(rest)
            && let Some(rest) = after_symbol(Symbol::CloseSquare, rest)
        {
            return Some((Argument::Location(name), rest));
        }
        return None;
    }
    if let Some((reg, rest)) = register_at(tokens) {
        return Some((Argument::Register(reg), rest));
    }
    None
}

/// One operand, and nothing more.
#[tactic(auto, unfolding(crate::specs::Arguments::one_argument))]
pub fn one_argument<'a>(tokens: &[Token<'a>]) -> Option<Argument<'a>>
    ensures { option_map argument_of result ≡ spec.one_argument (pieces tokens.now) }
{
    if let Some((only, [])) = argument_at(tokens) {
        return Some(only);
    }
    None
}

/// Two operands with a comma between them, and nothing more.
#[tactic(auto, unfolding(crate::specs::Arguments::two_arguments))]
pub fn two_arguments<'a>(tokens: &[Token<'a>]) -> Option<(Argument<'a>, Argument<'a>)>
    ensures { option_map (λ x. (argument_of x.0, argument_of x.1)) result ≡ spec.two_arguments (pieces tokens.now) }
{
    if let Some((first, rest)) = argument_at(tokens)
        && let Some(rest) = after_symbol(Symbol::Comma, rest)
        && let Some((second, [])) = argument_at(rest)
    {
        return Some((first, second));
    }
    None
}
