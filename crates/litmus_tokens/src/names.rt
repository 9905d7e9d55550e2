//! Names of locations and registers, at the front of some tokens.

ghost use Rattle.std.specs.Prelude.{◌≡◌, ◌<◌, length, IfSome};
ghost use Rattle.std.specs.Option.{option_map};
ghost use Rattle.litmus_tokens.specs.inner.Pieces.{pieces};
ghost use Rattle.litmus_tokens.specs.Names as spec;

use crate::front::name_at;
use crate::token::Token;
use tso_terms::Reg;
use tso_terms::names::is_location_name;

/// The name of a location at the front, and the tokens after it.
#[tactic(auto, unfolding(crate::specs::Names::location_at))]
pub fn location_at<'a, 'b>(tokens: &'b [Token<'a>]) -> Option<(&'a [u8], &'b [Token<'a>])>
    ensures value { option_map (λ x. (x.0.now, pieces x.1.now)) result ≡ spec.location_at (pieces tokens.now) }
    ensures shorter { IfSome result (λ x. length x.1.now < length tokens.now) }
{
    if let Some((name, rest)) = name_at(tokens)
        && is_location_name(name)
    {
        return Some((name, rest));
    }
    None
}

/// The register whose name is at the front, and the tokens after it.
#[tactic(auto, unfolding(crate::specs::Names::register_at))]
pub fn register_at<'a, 'b>(tokens: &'b [Token<'a>]) -> Option<(Reg, &'b [Token<'a>])>
    ensures value { option_map (λ x. (x.0, pieces x.1.now)) result ≡ spec.register_at (pieces tokens.now) }
    ensures shorter { IfSome result (λ x. length x.1.now < length tokens.now) }
{
    if let Some((name, rest)) = name_at(tokens)
        && let Some(reg) = Reg::from_name(name)
    {
        return Some((reg, rest));
    }
    None
}
