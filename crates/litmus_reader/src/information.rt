//! Information lines: quoted text and keys, which are passed over. Anything may be in quotation marks, so these lines
//! are read as bytes, before there are tokens.

ghost use Rattle.std.specs.Prelude.{◌≡◌, ◌≤◌, ◌<◌, length, IfOk, IfSome};
ghost use Rattle.std.specs.Option.{option_map};
ghost use Rattle.std.specs.List.{prefix_len};
ghost use Rattle.litmus_tokens.specs.inner.Mapped.{mapped};
ghost use Rattle.litmus_reader.specs.Information as spec;
ghost use Rattle.litmus_reader.specs.GrammarText as grammar;

use crate::header::{first_line, past_gap};
use litmus_cells::{Fault, Why};

/// What comes after the next quotation mark.
#[tactic(auto, unfolding(crate::specs::Information::quotation_end))]
fn after_quotation(bytes: &[u8]) -> Option<&[u8]>
    ensures value { option_map (λ x. x.now) result ≡ spec.quotation_end bytes.now }
    ensures shorter { IfSome result (λ x. length x.now < length bytes.now) }
{
    let mut rest = bytes;
    while let Some((first, after)) = rest.split_first() {
        if *first == b'"' {
            return Some(after);
        }
        rest = after;
    }
    None
}

#[tactic(auto, unfolding(crate::specs::GrammarText::continues_key))]
fn continues_key(byte: u8) -> bool
    ensures { result ≡ grammar.continues_key byte }
{
    byte.is_ascii_alphanumeric() || matches!(byte, b'_' | b'-' | b' ' | b'\t')
}

/// What comes after the key line that begins here; `BadToken` at a key without its `=`.
fn after_key_line(bytes: &[u8]) -> Result<&[u8], Fault>
    ensures value { mapped (λ x. x.now) result ≡ spec.key_line_end bytes.now }
    ensures shorter { IfOk result (λ x. length x.now < length bytes.now) }
{
    let mut rest = bytes;
    'key: while let Some((first, after)) = rest.split_first() {
        if *first == b'=' {
            let (_, value_end) = first_line(after);
            return Ok(value_end);
        }
        if !continues_key(*first) {
            break;
        }
        rest = after;
    }
    Err(Fault {
        why: Why::BadToken,
        remaining: bytes.len(),
    })
}

/// What comes after the quotation or the key line at the front.
///
/// `Unclosed` at a quotation that doesn't end and at the end of the text, `BadToken` at a key
/// without its `=` and at anything else.
#[tactic(auto, unfolding(crate::specs::Information::information_end))]
fn after_information(bytes: &[u8]) -> Result<&[u8], Fault>
    ensures value { mapped (λ x. x.now) result ≡ spec.information_end bytes.now }
    ensures shorter { IfOk result (λ x. length x.now < length bytes.now) }
{
    let remaining = bytes.len();
    let Some((first, inside)) = bytes.split_first() else {
        return Err(Fault {
            why: Why::Unclosed,
            remaining: 0,
        });
    };
    if *first == b'"' {
        return match after_quotation(inside) {
            Some(rest) => Ok(rest),
            None => Err(Fault {
                why: Why::Unclosed,
                remaining,
            }),
        };
    }
    if first.is_ascii_alphabetic() {
        return after_key_line(bytes);
    }
    Err(Fault {
        why: Why::BadToken,
        remaining,
    })
}

#[tactic(auto, unfolding(crate::specs::Information::begins_initial))]
fn begins_initial(bytes: &[u8]) -> bool
    ensures { result ≡ spec.begins_initial bytes.now }
{
    match bytes.first() {
        Some(first) => *first == b'{',
        None => false,
    }
}

/// What stands from the `{` of the initial state on, after all information lines.
///
/// `Unclosed` where the text ends before it, `BadToken` at what is no information line; a comment
/// that doesn't end is `Unclosed` too.
#[tactic(auto, using(crate::proofs::Informed::braces_start, crate::proofs::Informed::braces_further))]
pub fn braces_at(bytes: &[u8]) -> Result<&[u8], Fault>
    ensures { mapped (λ x. x.now) result ≡ spec.braces_at bytes.now }
{
    let mut rest = bytes;
    loop {
        let at = past_gap(rest)?;
        if begins_initial(at) {
            return Ok(at);
        }
        rest = after_information(at)?;
    }
}
