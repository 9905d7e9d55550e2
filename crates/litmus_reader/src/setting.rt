//! Values of registers and locations, as the initial state and conditions spell them: one reading for both, so that both
//! refuse alike.

ghost use Rattle.std.specs.Prelude.{◌≡◌, ◌<◌, ◌≤◌, if◌then◌else◌, length, IfOk};
ghost use Rattle.tso_terms.specs.Limits.{most_cores};
ghost use Rattle.litmus_tokens.specs.inner.Numerals.{numeral_of};
ghost use Rattle.litmus_tokens.specs.inner.Pieces.{pieces};
ghost use Rattle.litmus_tokens.specs.inner.Mapped.{mapped};
ghost use Rattle.litmus_reader.specs.Settings as spec;
ghost use Rattle.litmus_reader.specs.inner.Settings.{setting_of};

use crate::fault::Part;
use litmus_cells::{Fault, Why, location_at, register_at};
use litmus_tokens::{Numeral, Symbol, Token, after_symbol, number_at, numeral_at, word};
use tso_terms::{Core, Reg};

/// A value of a register or a location, as the initial state and conditions spell it. Cores are
/// digits, of any length.
#[derive(Clone, Copy)]
pub enum SpelledSetting<'a> {
    Register(&'a [u8], Reg, Numeral<'a>),
    Location(&'a [u8], Numeral<'a>),
}

/// `=v`: the value, and the tokens after it.
#[inline(always)]
#[tactic(auto, unfolding(crate::specs::Settings::value_at))]
fn value_at<'a, 'b>(
    part: Part,
    tokens: &'b [Token<'a>],
) -> Result<(Numeral<'a>, &'b [Token<'a>]), Fault>
    ensures value { mapped (λ x. (numeral_of x.0, pieces x.1.now)) result ≡ spec.value_at part (pieces tokens.now) }
    ensures shorter { IfOk result (λ x. length x.1.now < length tokens.now) }
{
    let Some(rest) = after_symbol(Symbol::Equals, tokens) else {
        return Err(part.unfit(tokens));
    };
    let Some(found) = numeral_at(rest) else {
        return Err(part.unfit(rest));
    };
    Ok(found)
}

#[inline(always)]
#[tactic(auto, unfolding(crate::specs::Settings::register_setting))]
fn register_setting<'a, 'b>(
    part: Part,
    core: &'a [u8],
    tokens: &'b [Token<'a>],
) -> Result<(SpelledSetting<'a>, &'b [Token<'a>]), Fault>
    ensures value { mapped (λ x. (setting_of x.0, pieces x.1.now)) result ≡ spec.register_setting part core.now (pieces tokens.now) }
    ensures shorter { IfOk result (λ x. length x.1.now < length tokens.now) }
{
    let Some(rest) = after_symbol(Symbol::Colon, tokens) else {
        return Err(part.unfit(tokens));
    };
    let Some((reg, rest)) = register_at(rest) else {
        return Err(part.unfit(rest));
    };
    let (value, rest) = value_at(part, rest)?;
    Ok((SpelledSetting::Register(core, reg, value), rest))
}

/// `x]=v` after a bracket, or `x=v`.
#[inline(always)]
#[tactic(auto, unfolding(crate::specs::Settings::square_setting, crate::specs::Settings::plain_setting))]
fn location_setting<'a, 'b>(
    part: Part,
    is_bracketed: bool,
    tokens: &'b [Token<'a>],
) -> Result<(SpelledSetting<'a>, &'b [Token<'a>]), Fault>
    ensures value { mapped (λ x. (setting_of x.0, pieces x.1.now)) result
        ≡ (if is_bracketed
        then spec.square_setting part (pieces tokens.now)
        else spec.plain_setting part (pieces tokens.now)) }
    ensures shorter { IfOk result (λ x. length x.1.now < length tokens.now) }
{
    let Some((name, mut rest)) = location_at(tokens) else {
        return Err(part.unfit(tokens));
    };
    if is_bracketed {
        let Some(after) = after_symbol(Symbol::CloseSquare, rest) else {
            return Err(part.unfit(rest));
        };
        rest = after;
    }
    let (value, rest) = value_at(part, rest)?;
    Ok((SpelledSetting::Location(name, value), rest))
}

/// `c:REG=v`, `[x]=v` or `x=v` at the front, and the tokens after it.
///
/// What doesn't fit is refused as `part` says.
#[inline(always)]
#[tactic(auto, unfolding(crate::specs::Settings::setting_at))]
pub fn setting_at<'a, 'b>(
    part: Part,
    tokens: &'b [Token<'a>],
) -> Result<(SpelledSetting<'a>, &'b [Token<'a>]), Fault>
    ensures value { mapped (λ x. (setting_of x.0, pieces x.1.now)) result ≡ spec.setting_at part (pieces tokens.now) }
    ensures shorter { IfOk result (λ x. length x.1.now < length tokens.now) }
{
    if let Some((core, rest)) = number_at(tokens) {
        return register_setting(part, core, rest);
    }
    if let Some(rest) = after_symbol(Symbol::OpenSquare, tokens) {
        return location_setting(part, true, rest);
    }
    location_setting(part, false, tokens)
}

/// A core of the test; `NoSuchCore` at `remaining` for any other, of whatever size.
pub fn core_of(cores: usize, remaining: usize, digits: &[u8]) -> Result<Core, Fault>
    requires { cores ≤ most_cores }
    ensures { mapped (λ core. core.0) result ≡ spec.core_of cores remaining digits.now }
{
    match word(digits) {
        Some(core) if (core as usize) < cores => Ok(Core(core as u8)),
        _ => Err(Fault {
            why: Why::NoSuchCore,
            remaining,
        }),
    }
}
