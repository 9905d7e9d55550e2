//! The words of a text, one after the other, borrowed from it: no text is copied to be read. A word is a number where
//! it is digits alone: a sign, a letter or nothing at all makes a word none.

ghost use Rattle.std.specs.Prelude.{◌≡◌, ◌<◌, ◌≤◌, ◌∷◌, [], if◌then◌else◌, not, length, drop, IfSome, true, false, min};
ghost use Rattle.std.specs.List.{prefix_len};
ghost use Rattle.std.specs.Option.{IfNone};
ghost use Rattle.scheduler.specs.Words.{is_space, words_of_text, is_numeral};
ghost use Rattle.tso_terms.specs.Decimals.{decimal_value};

use tso_terms::decimals::all_digits;

#[tactic(auto, unfolding(crate::specs::Words::is_space))]
fn is_space(byte: u8) -> bool
    ensures { result ≡ is_space byte }
{
    // Most bytes of a text are greater, and need no second look.
    byte <= b' ' && matches!(byte, b' ' | b'\t' | b'\r' | b'\n')
}

/// With how many bytes a text begins that are all white space, or all none.
fn prefix_length(text: &[u8], of_space: bool) -> usize
    ensures value { result ≡ prefix_len (λ byte. if of_space then is_space byte else not (is_space byte)) text.now }
    ensures within { result ≤ length text.now }
{
    for at in 0..text.len() {
        if is_space(text[at]) != of_space {
            return at;
        }
    }
    text.len()
}

/// What comes after the first byte of a text, if it has one.
fn after_first(text: &[u8]) -> &[u8]
    ensures { result.now ≡ drop 1 text.now }
{
    match text {
        [] => text,
        [_, rest @ ..] => rest,
    }
}

/// The first word of a text, and what comes after it and the white space that ends it.
pub fn first_word(text: &[u8]) -> Option<(&[u8], &[u8])>
    ensures none { IfNone result (words_of_text text.now ≡ []) }
    ensures some { IfSome result (λ r. words_of_text text.now ≡ r.0.now ∷ words_of_text r.1.now) }
    ensures shorter { IfSome result (λ r. length r.1.now < length text.now) }
{
    let (_, text) = text.split_at(prefix_length(text, true));
    if text.is_empty() {
        return None;
    }
    let (word, after) = text.split_at(prefix_length(text, false));
    Some((word, after_first(after)))
}

/// Whether a word is one digit or more, and nothing else.
#[tactic(auto, unfolding(crate::specs::Words::is_numeral))]
pub fn is_numeral(word: &[u8]) -> bool
    ensures { result ≡ is_numeral word.now }
{
    !word.is_empty() && all_digits(word)
}

/// The number that a word says, or `most` where it says more; `None` if the word isn't a number. It looks at each byte
/// once.
pub fn capped_number(most: u8, word: &[u8]) -> Option<u8>
    ensures none { IfNone result (is_numeral word.now ≡ false) }
    ensures some { IfSome result (λ n. (is_numeral word.now ≡ true) × (n ≡ min (decimal_value word.now) most)) }
{
    if word.is_empty() {
        return None;
    }
    let most = u32::from(most);
    let mut value = 0;
    for byte in word {
        if !byte.is_ascii_digit() {
            return None;
        }
        value = (value * 10 + u32::from(*byte - b'0')).min(most);
    }
    Some(value as u8)
}
