//! Numbers, which a text may have of any size: a word has to have room for each.

ghost use Rattle.std.specs.Prelude.{◌≡◌, ◌≤◌};
ghost use Rattle.std.specs.Char.{digit_value};
ghost use Rattle.litmus_tokens.specs.Terms.{word_of};
ghost use Rattle.litmus_tokens.specs.Numbers as spec;
ghost use Rattle.litmus_tokens.specs.inner.Forms.{constant_of};
ghost use Rattle.litmus_tokens.specs.inner.Numerals.{size_of, numeral_of};

use crate::fault::{Fault, Why};
use crate::form::Constant;
use crate::lexing::word;
use crate::numeral::Numeral;

/// The value of a digit or a letter as a digit; 36 of all else.
fn value_of_digit(byte: u8) -> u32
    ensures value { result ≡ digit_value byte }
    ensures small { result ≤ 36 }
{
    match byte {
        b'0'..=b'9' => u32::from(byte - b'0'),
        b'A'..=b'Z' => u32::from(byte - b'A') + 10,
        b'a'..=b'z' => u32::from(byte - b'a') + 10,
        _ => 36,
    }
}

/// The number that hexadecimal digits say, if a word of 32 bits has room for it.
#[tactic(auto, using(crate::proofs::Hexadecimals::sixteen_by_sixteen))]
fn hexadecimal_word(digits: &[u8]) -> Option<u32>
    ensures { result ≡ word_of (spec.hexadecimal_value digits.now) }
{
    let mut value: u64 = 0;
    for digit in digits {
        value = value * 16 + u64::from(value_of_digit(*digit));
        if value > u64::from(u32::MAX) {
            return None;
        }
    }
    Some(value as u32)
}

/// The number that the digits say, without their sign.
fn unsigned_word(numeral: Numeral<'_>) -> Option<u32>
    ensures { result ≡ word_of (size_of numeral.entry) }
{
    if numeral.is_hexadecimal {
        hexadecimal_word(numeral.digits)
    } else {
        word(numeral.digits)
    }
}

/// The number that a numeral says, if a word of 32 bits has room for it.
fn numeral_word(numeral: Numeral<'_>) -> Option<u32>
    ensures { result ≡ word_of (numeral_of numeral.entry) }
{
    let size = unsigned_word(numeral)?;
    if !numeral.is_negative {
        Some(size)
    } else if size <= 2_147_483_648 {
        Some(0u32.wrapping_sub(size))
    } else {
        None
    }
}

/// The number that a numeral says; `BadNumber` at `remaining` where a word has no room for it.
pub fn word_at(remaining: usize, numeral: Numeral<'_>) -> Result<u32, Fault>
    ensures { result ≡ spec.word_at remaining (numeral_of numeral.entry) }
{
    match numeral_word(numeral) {
        Some(value) => Ok(value),
        None => Err(Fault {
            why: Why::BadNumber,
            remaining,
        }),
    }
}

/// The number of an instruction; `BadNumber` at `remaining` where a word has no room for it.
pub fn constant_at(remaining: usize, constant: Constant<'_>) -> Result<u32, Fault>
    ensures { result ≡ spec.word_at remaining (constant_of constant.entry) }
{
    match constant {
        Constant::Spelled(numeral) => word_at(remaining, numeral),
        Constant::Meant(value) => Ok(value),
    }
}
