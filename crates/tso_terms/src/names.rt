//! The names that tests and locations may have. No location may be named as a register or a word of conditions: such an
//! atom of a condition could be read in two ways.
ghost use Rattle.std.specs.Prelude.{◌≡◌, nat_le, length};
ghost use Rattle.std.specs.List.{list_all};
ghost use Rattle.tso_terms.specs.Names as words;

use crate::limits::{MAX_NAME, MAX_TEST_NAME};
use crate::register::Reg;

/// Whether the bytes are a name: a letter or an underscore, then letters, digits and underscores,
/// `MAX_NAME` bytes at most.
pub fn is_name(text: &[u8]) -> bool
    ensures { result ≡ words.is_name text.now }
{
    match text.split_first() {
        None => false,
        Some((first, rest)) => begins_name(*first)
            && all_continue(rest)
            && has_at_most(text, MAX_NAME),
    }
}

/// Whether a name can begin with this byte.
pub fn begins_name(byte: u8) -> bool
    ensures { result ≡ words.begins_name byte }
{
    byte.is_ascii_alphabetic() || byte == b'_'
}

/// Whether a name can go on with this byte.
pub fn continues_name(byte: u8) -> bool
    ensures { result ≡ words.continues_name byte }
{
    byte.is_ascii_alphanumeric() || byte == b'_'
}

/// Whether the bytes are a name that a location may have: a name that is no register's, no stack
/// register's, in any case of letters, and no word of conditions.
pub fn is_location_name(text: &[u8]) -> bool
    ensures { result ≡ words.is_location_name text.now }
{
    is_name(text) && !is_register_word(text) && !is_keyword(text)
}

fn is_register_word(text: &[u8]) -> bool
    ensures { result ≡ words.is_register_word text.now }
{
    Reg::from_name(text).is_some()
        || text.eq_ignore_ascii_case(b"ESP")
        || text.eq_ignore_ascii_case(b"EBP")
}

fn is_keyword(text: &[u8]) -> bool
    ensures { result ≡ words.is_keyword text.now }
{
    text == b"true".as_slice()
        || text == b"false".as_slice()
        || text == b"not".as_slice()
        || text == b"exists".as_slice()
        || text == b"forall".as_slice()
        || text == b"locations".as_slice()
}

/// Whether the bytes are a name that a test may have: 1 to `MAX_TEST_NAME` bytes from space to `~`,
/// with no space at either end.
pub fn is_test_name(text: &[u8]) -> bool
    ensures { result ≡ words.is_test_name text.now }
{
    match text.split_first() {
        None => false,
        Some((first, rest)) => {
            *first != b' '
                && last_byte(*first, rest) != b' '
                && is_all_printable(text)
                && has_at_most(text, MAX_TEST_NAME)
        }
    }
}

fn last_byte(first: u8, rest: &[u8]) -> u8
    ensures { result ≡ words.last_byte first rest.now }
{
    let mut last = first;
    for byte in rest {
        last = *byte;
    }
    last
}

fn has_at_most(text: &[u8], limit: usize) -> bool
    ensures { result ≡ nat_le (length text.now) limit }
{
    text.len() <= limit
}

fn all_continue(text: &[u8]) -> bool
    ensures { result ≡ list_all words.continues_name text.now }
{
    for byte in text {
        if !continues_name(*byte) {
            return false;
        }
    }
    true
}

fn is_all_printable(text: &[u8]) -> bool
    ensures { result ≡ list_all words.is_printable text.now }
{
    for byte in text {
        if !(b' '..=b'~').contains(byte) {
            return false;
        }
    }
    true
}
