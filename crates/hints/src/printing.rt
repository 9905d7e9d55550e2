//! Hints as they are printed. What is quoted of an input is cut to a few bytes and made printable: a hint must stay one
//! short line, whatever was read.

ghost use Rattle.std.specs.Prelude.{◌≡◌, IfOk, map, take, string_bytes};
ghost use Rattle.std.specs.Str.{IsUtf8};
ghost use Rattle.hints.specs.Hint.{IsHint, longest_hint};
ghost use Rattle.hints.specs.inner.Hint.{most_hint_bytes, shown_byte};

use std::alloc::{AllocError, Global};
use tso_terms::NoMemory;

/// Maximum length of a hint with its line feed, in bytes.
pub const MAX_HINT: usize = 256;

/// The limit is the number that the definitions have: a law, with nothing to run.
pub fn limits_are_as_defined()
    ensures { MAX_HINT ≡ longest_hint }
{}

/// The hint of these words, of which those are left out for which there is no room.
///
/// Errors: out of memory only.
pub fn printed(alloc: Global, words: &[u8]) -> Result<String, NoMemory>
    ensures { IfOk result (λ text. IsHint (string_bytes text)) }
{
    let words = printable_words(alloc, words)?;
    let words = string_of(alloc, &words)?;
    Ok(format!(in alloc; "hint: {words}\n")?)
}

fn string_of(alloc: Global, bytes: &[u8]) -> Result<String, AllocError>
    requires { IsUtf8 bytes.now }
    ensures { IfOk result (λ text. string_bytes text ≡ bytes.now) }
{
    String::from_utf8_lossy(alloc, bytes)
}

#[tactic(auto, using(std::proofs::lemmas::List::map_push))]
fn printable_words(alloc: Global, words: &[u8]) -> Result<Vec<u8>, AllocError>
    ensures { IfOk result (λ v. v.items ≡ map shown_byte (take most_hint_bytes words.now)) }
{
    let count = words.len().min(249);
    let mut shown = Vec::with_capacity(alloc, count)?;
    for at in 0..count {
        shown.push(as_shown(words[at]))?;
    }
    Ok(shown)
}

/// The byte itself from space to tilde, a space for white space, and a question mark for any other.
#[tactic(auto, unfolding(crate::specs::inner::Hint::shown_byte))]
fn as_shown(byte: u8) -> u8
    ensures { result ≡ shown_byte byte }
{
    match byte {
        b' '..=b'~' => byte,
        b'\t' | b'\n' | b'\r' => b' ',
        _ => b'?',
    }
}
