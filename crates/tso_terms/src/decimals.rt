//! Decimal numbers as texts have them: the number that digits say. Each reader says for itself which digits are a number,
//! and whether zeros may lead.
ghost use Rattle.std.specs.Prelude.{◌≡◌, ◌≤◌, IfSome};
ghost use Rattle.std.specs.List.{list_all};
ghost use Rattle.std.specs.Char.{is_ascii_digit};
ghost use Rattle.tso_terms.specs.inner.Decimals.{number_up_to};

/// Whether each byte is a digit, `0` to `9`.
pub fn all_digits(text: &[u8]) -> bool
    ensures { result ≡ list_all is_ascii_digit text.now }
{
    text.iter().all(|byte| byte.is_ascii_digit())
}

/// The number that digits say in base ten, if it is at most `most`. There may be any number of digits, and leading zeros;
/// without a digit it is 0.
#[tactic(auto, using(crate::proofs::Digits::digit_by_digit))]
pub fn number_up_to(most: u64, digits: &[u8]) -> Option<u64>
    ensures value { result ≡ number_up_to most digits.now }
    ensures within { IfSome result (λ n. n ≤ most) }
{
    let tenth = most / 10;
    let mut value = 0;
    for digit in digits {
        if value > tenth {
            return None;
        }
        let digit = u64::from(digit.saturating_sub(b'0'));
        if digit > most - value * 10 {
            return None;
        }
        value = value * 10 + digit;
    }
    Some(value)
}
