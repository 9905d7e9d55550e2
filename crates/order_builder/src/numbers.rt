//! Numbers as an order is written with them: decimal, without leading zeros, and refused where they pass their limit.

ghost use Rattle.std.specs.Prelude.{◌≡◌, ◌≤◌, ◌==◌, ◌&&◌, IfSome};
ghost use Rattle.std.specs.List.{list_all};
ghost use Rattle.std.specs.Char.{is_ascii_digit};
ghost use Rattle.tso_terms.specs.Decimals.{decimal_value};
ghost use Rattle.order_builder.specs.Numbers.{is_number};
ghost use Rattle.order_builder.specs.inner.Numbers.{number_within};

use tso_terms::decimals::{all_digits, number_up_to};

/// Whether the text is a decimal number without leading zeros, of any size.
pub fn is_number(text: &[u8]) -> bool
    ensures { result ≡ is_number text.now }
{
    has_no_leading_zeros(text) && all_digits(text)
}

/// Whether the text has a byte, and begins with a zero only where that is all of it.
fn has_no_leading_zeros(text: &[u8]) -> bool
    ensures { is_number text.now ≡ result && list_all is_ascii_digit text.now }
{
    !text.is_empty() && (text[0] != b'0' || text.len() == 1)
}

/// Whether digits say this number.
#[tactic(auto, unfolding(tso_terms::specs::inner::Decimals::number_up_to))]
pub fn number_is(digits: &[u8], number: u64) -> bool
    ensures { result ≡ (decimal_value digits.now == number) }
{
    number_up_to(number, digits) == Some(number)
}

/// The number that a text is, if it is one and no greater than `most`.
#[tactic(auto, unfolding(crate::specs::inner::Numbers::number_within), using(crate::proofs::DigitLemmas::number_by_digit))]
pub fn number_within(text: &[u8], most: u32) -> Option<u32>
    ensures value { result ≡ number_within most text.now }
    ensures within { IfSome result (λ number. number ≤ most) }
{
    if !has_no_leading_zeros(text) {
        return None;
    }
    let mut value = 0;
    for byte in text {
        if !byte.is_ascii_digit() {
            return None;
        }
        value = value * 10 + u64::from(*byte - b'0');
        if value > u64::from(most) {
            return None;
        }
    }
    Some(value as u32)
}
