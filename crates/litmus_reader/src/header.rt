//! The header line: `X86` and the name of the test.

ghost use Rattle.std.specs.Prelude.{◌≡◌, ◌≤◌, ◌==◌, ◌&&◌, nat_lt, length, position, None, IfOk};
ghost use Rattle.std.specs.Option.{option_map};
ghost use Rattle.std.specs.List.{prefix_len, suffix_len, list_all};
ghost use Rattle.tso_terms.specs.Limits.{longest_test_name};
ghost use Rattle.tso_terms.specs.Names as names;
ghost use Rattle.litmus_tokens.specs.Gap.{gap_end};
ghost use Rattle.litmus_reader.specs.Header as header;
ghost use Rattle.litmus_tokens.specs.inner.Mapped.{mapped};
ghost use Rattle.litmus_reader.specs.GrammarText as grammar;

use crate::fault::at_stop;
use crate::limits::MAX_TEST_NAME;
use litmus_cells::{Fault, Why};
use litmus_tokens::after_gap;
use tso_terms::names::is_test_name;

/// What comes after white space and comments; `Unclosed` at a comment that doesn't end.
pub fn past_gap(bytes: &[u8]) -> Result<&[u8], Fault>
    ensures value { mapped (λ x. x.now) result ≡ header.from_gap (gap_end None bytes.now) }
    ensures within { IfOk result (λ x. length x.now ≤ length bytes.now) }
{
    match after_gap(bytes) {
        Ok(rest) => Ok(rest),
        Err(stop) => Err(at_stop(
            Fault {
                why: Why::Unclosed,
                remaining: 0,
            },
            stop,
        )),
    }
}

fn is_blank(byte: u8) -> bool
    ensures { result ≡ grammar.is_blank byte }
{
    byte == b' ' || byte == b'\t'
}

fn is_margin(byte: u8) -> bool
    ensures { result ≡ grammar.is_margin byte }
{
    is_blank(byte) || byte == b'\r'
}

fn margin_in_front(bytes: &[u8]) -> usize
    ensures value { result ≡ prefix_len grammar.is_margin bytes.now }
    ensures within { result ≤ length bytes.now }
{
    for at in 0..bytes.len() {
        if !is_margin(bytes[at]) {
            return at;
        }
    }
    bytes.len()
}

fn margin_at_end(bytes: &[u8]) -> usize
    ensures value { result ≡ suffix_len grammar.is_margin bytes.now }
    ensures within { result ≤ length bytes.now }
{
    for at in 0..bytes.len() {
        if !is_margin(bytes[bytes.len() - 1 - at]) {
            return at;
        }
    }
    bytes.len()
}

/// The bytes without spaces, tabs and CRs at the two ends.
#[tactic(auto, unfolding(crate::specs::GrammarText::trimmed))]
fn trimmed(bytes: &[u8]) -> &[u8]
    ensures { result.now ≡ grammar.trimmed bytes.now }
{
    let (_, rest) = bytes.split_at(margin_in_front(bytes));
    let (front, _) = rest.split_at(rest.len() - margin_at_end(rest));
    front
}

/// The line at the front without its LF, and what comes after it.
pub fn first_line(bytes: &[u8]) -> (&[u8], &[u8])
    ensures value { (result.0.now, result.1.now) ≡ grammar.first_line bytes.now }
    ensures within { length result.1.now ≤ length bytes.now }
{
    for at in 0..bytes.len() {
        if bytes[at] == b'\n' {
            return (&bytes[..at], &bytes[at + 1..]);
        }
    }
    (bytes, &bytes[bytes.len()..])
}

/// The name that a header line gives, if it has the header's form.
#[tactic(auto, unfolding(crate::specs::GrammarText::name_in))]
fn name_in(line: &[u8]) -> Option<&[u8]>
    ensures { option_map (λ x. x.now) result ≡ grammar.name_in line.now }
{
    if !line.starts_with(b"X86") {
        return None;
    }
    let (_, rest) = line.split_at(3);
    match rest.first() {
        Some(first) if is_blank(*first) => Some(trimmed(rest)),
        _ => None,
    }
}

fn is_all_printable(bytes: &[u8]) -> bool
    ensures { result ≡ list_all names.is_printable bytes.now }
{
    for byte in bytes {
        if !(b' '..=b'~').contains(byte) {
            return false;
        }
    }
    true
}

#[tactic(auto, unfolding(crate::specs::Header::judged))]
fn judged<'a>(remaining: usize, name: Option<&'a [u8]>) -> Result<&'a [u8], Fault>
    ensures { mapped (λ x. x.now) result ≡ header.judged remaining (option_map (λ x. x.now) name.entry) }
{
    let Some(name) = name else {
        return Err(Fault {
            why: Why::NoHeader,
            remaining,
        });
    };
    if is_test_name(name) {
        Ok(name)
    } else if name.len() > MAX_TEST_NAME && is_all_printable(name) {
        Err(Fault {
            why: Why::TooLarge,
            remaining,
        })
    } else {
        Err(Fault {
            why: Why::NoHeader,
            remaining,
        })
    }
}

/// The name of the test, and what comes after the header line.
///
/// `NoHeader` and, for a name of more than 64 bytes, `TooLarge`, at the first byte that isn't white
/// space; `Unclosed` at a comment before it that doesn't end.
#[tactic(auto, unfolding(crate::specs::Header::header_at))]
pub fn header_at(text: &[u8]) -> Result<(&[u8], &[u8]), Fault>
    ensures { mapped (λ x. (x.0.now, x.1.now)) result ≡ header.header_at text.now }
{
    let at = past_gap(text)?;
    let (line, rest) = first_line(at);
    let name = judged(at.len(), name_in(line))?;
    Ok((name, rest))
}
