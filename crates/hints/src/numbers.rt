//! Numbers in the forms that other languages have; and what is said of one that is too great.

use crate::line::{Filling, Line};
use crate::quotes::{first_bytes, is_all_digits, last_bytes};
use crate::tables::is_one_of;
use litmus_tokens::{
    Instructions, Numeral, Symbol, is_symbol, numeral_at, tokens_of, word, word_at,
};
use std::alloc::Global;
use tso_terms::NoMemory;

/// Maximum value of a register or a location.
pub const GREATEST: usize = u32::MAX as usize;

/// Of an item with a value over the greatest.
///
/// Errors: out of memory only.
pub fn bad_number(alloc: Global, line: &mut Line, rest: &[u8]) -> Result<(), NoMemory> {
    let tokens = tokens_of(alloc, Instructions::All, rest)?;
    // The first number that a word has no room for and that names no core.
    let mut over = None;
    for at in 0..tokens.items.len() {
        if over.is_some() && !is_symbol(Symbol::Colon, &tokens.items[at]) {
            break;
        }
        let (_, from) = tokens.items.split_at(at);
        over = match numeral_at(from) {
            Some((numeral, _)) if matches!(word_at(0, numeral), Err(_)) => Some(numeral),
            _ => None,
        };
    }
    match over {
        Some(numeral) => say_over(line, numeral),
        None => line.say_number("a value is at most {}", GREATEST),
    }
    Ok(())
}

/// Says of a number that a word has no room for it.
pub fn say_over(line: &mut Line, numeral: Numeral<'_>) {
    let sentence = if numeral.is_negative {
        "{}{}{} is under -2147483648, the least value"
    } else {
        "{}{}{} is over {}, the greatest value: write that or a smaller one"
    };
    let [sign, base, digits] = spelled(numeral);
    line.say_with(sentence, &[sign, base, digits, Filling::Number(GREATEST)]);
}

/// A number as it is spelled: its sign, its base and its digits.
pub fn spelled<'a>(numeral: Numeral<'a>) -> [Filling<'a>; 3] {
    [
        Filling::Text(if numeral.is_negative { "-" } else { "" }),
        Filling::Text(if numeral.is_hexadecimal { "0x" } else { "" }),
        if numeral.digits.is_empty() {
            Filling::Number(0)
        } else {
            Filling::Shown(numeral.digits)
        },
    ]
}

/// The number that stands in an assembler's or in C's form: to base 10 or 16, perhaps with a sign, or a character between quotation marks.
/// One that is negative is the word of 32 bits that it has.
pub fn number_in(text: &[u8]) -> Option<u32> {
    match text {
        [b'-', digits @ ..] => match unsigned_in(digits) {
            Some(number) => Some(0u32.wrapping_sub(number)),
            None => None,
        },
        [b'\'', character, b'\''] => Some(u32::from(*character)),
        _ => unsigned_in(text),
    }
}

/// Whether a number without a sign is spelled as the larger set has numbers.
pub fn is_of_larger_set(text: &[u8]) -> bool {
    match text {
        [b'0', b'x' | b'X', digits @ ..] => { !digits.is_empty() && are_hexadecimal(digits) }
        _ => is_all_digits(text),
    }
}

/// Whether these are digits to base 16.
fn are_hexadecimal(digits: &[u8]) -> bool {
    for digit in digits {
        if !digit.is_ascii_hexdigit() {
            return false;
        }
    }
    true
}

fn unsigned_in(text: &[u8]) -> Option<u32> {
    let digits = without_suffix(text);
    if is_all_digits(digits) {
        return word(digits);
    }
    match text {
        [b'0', b'x' | b'X', ..] => digits_to(
            16,
            last_bytes(digits, digits.len().saturating_sub(2)),
        ),
        [b'0', b'b' | b'B', digits @ ..] => digits_to(2, digits),
        [b'0', b'o' | b'O' | b'q', digits @ ..] => digits_to(8, digits),
        [first, .., b'o' | b'O' | b'q' | b'Q'] if first.is_ascii_digit() => {
            digits_to(8, first_bytes(text, text.len().saturating_sub(1)))
        }
        [first, .., b'd' | b'D'] if first.is_ascii_digit() => {
            digits_to(10, first_bytes(text, text.len().saturating_sub(1)))
        }
        [first, .., b'h' | b'H'] if first.is_ascii_digit() => {
            digits_to(16, first_bytes(text, text.len().saturating_sub(1)))
        }
        [first, .., b'b' | b'B'] if first.is_ascii_digit() => {
            digits_to(2, first_bytes(text, text.len().saturating_sub(1)))
        }
        [first, ..] if first.is_ascii_digit() && text.contains(&b'_') => digits_to(10, text),
        _ if is_one_of("false null nullptr nil", text) => Some(0),
        _ if is_one_of("true", text) => Some(1),
        _ => None,
    }
}

/// A number without the letters that say its type in C.
fn without_suffix(text: &[u8]) -> &[u8] {
    let mut rest = text;
    for _ in 0..3 {
        rest = match rest {
            [digits @ .., b'u' | b'U' | b'l' | b'L'] => digits,
            _ => return rest,
        };
    }
    rest
}

/// The number that these digits to this base say, underscores between them aside, if it is a word of 32 bits.
pub fn digits_to(base: u32, digits: &[u8]) -> Option<u32> {
    let mut number = None;
    for digit in digits {
        if *digit != b'_' {
            let value = match value_of(*digit) {
                Some(value) if value < base => value,
                _ => return None,
            };
            let next = u64::from(number.unwrap_or(0u32))
                .wrapping_mul(u64::from(base))
                .wrapping_add(u64::from(value));
            if next > u64::from(u32::MAX) {
                return None;
            }
            number = Some(next as u32);
        }
    }
    number
}

/// The value of a digit to base 16.
fn value_of(digit: u8) -> Option<u32> {
    match digit {
        b'0'..=b'9' => Some(u32::from(digit.wrapping_sub(b'0'))),
        b'a'..=b'f' => Some(u32::from(digit.wrapping_sub(b'a')).wrapping_add(10)),
        b'A'..=b'F' => Some(u32::from(digit.wrapping_sub(b'A')).wrapping_add(10)),
        _ => None,
    }
}
