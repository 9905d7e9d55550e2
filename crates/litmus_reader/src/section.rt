//! Sections of a text: the tokens up to a symbol with which a part of it ends. A text is read section by section, so its
//! tokens are never all there at once.

ghost use Rattle.std.specs.Prelude.{◌≡◌, ◌<◌, length, IfOk};
ghost use Rattle.std.specs.List.{list_any};
ghost use Rattle.litmus_tokens.specs.inner.Pieces.{piece_of, pieces};
ghost use Rattle.litmus_reader.specs.inner.Sections as spec;
ghost use Rattle.litmus_reader.specs.inner.Sections.{IsSection, is_one_of, item_ends, row_ends, tokens_in, stop_of};
ghost use Rattle.litmus_tokens.specs.inner.Mapped.{mapped};
ghost use Rattle.litmus_reader.specs.Places as places;

use crate::fault::at_stop;
use litmus_cells::{Fault, Why};
use litmus_tokens::{Instructions, Stop, Symbol, Token, is_symbol, token_at};
use tso_terms::NoMemory;

/// What comes after a section.
#[derive(Clone, Copy)]
pub struct Onward<'a> {
    pub rest: &'a [u8],
    /// Why there are no more tokens, where none of the symbols ends the section; else the text's end.
    pub stop: Stop,
}

fn is_one_of(ends: &[Symbol], token: &Token<'_>) -> bool
    ensures { result ≡ is_one_of ends.now (piece_of token.now) }
{
    for end in ends {
        if is_symbol(*end, token) {
            return true;
        }
    }
    false
}

/// Puts the tokens of a text in place of those in `tokens`, up to the first of these symbols, or all where
/// none of them is there.
///
/// Errors: out of memory only.
#[inline(always)]
fn read_section<'a>(
    set: Instructions,
    tokens: &mut Vec<Token<'a>>,
    ends: &[Symbol],
    text: &'a [u8],
) -> Result<Onward<'a>, NoMemory>
    ensures value { IfOk result (λ x. IsSection set ends.now text.now (pieces tokens.new.items) x.rest.now x.stop) }
    ensures shorter { IfOk result (λ x. 0 < length tokens.new.items → length x.rest.now < length text.now) }
{
    tokens.clear();
    let mut rest = text;
    'tokens: loop {
        match token_at(set, rest) {
            Ok((token, after)) => {
                tokens.push(token)?;
                rest = after;
                if is_one_of(ends, &token) {
                    let stop = Stop::End;
                    return Ok(Onward { rest, stop });
                }
            }
            Err(stop) => return Ok(Onward { rest, stop }),
        }
    }
}

/// Puts the tokens up to the next `;` or `}` in place of those in `tokens`, or all where neither is there.
///
/// Errors: out of memory only.
pub fn read_item_tokens<'a>(
    set: Instructions,
    tokens: &mut Vec<Token<'a>>,
    text: &'a [u8],
) -> Result<Onward<'a>, NoMemory>
    ensures value { IfOk result (λ x. IsSection set item_ends text.now (pieces tokens.new.items) x.rest.now x.stop) }
    ensures shorter { IfOk result (λ x. 0 < length tokens.new.items → length x.rest.now < length text.now) }
{
    read_section(set, tokens, &[Symbol::Semicolon, Symbol::CloseCurly], text)
}

/// Puts the tokens up to the next `;` in place of those in `tokens`, or all where it isn't there.
///
/// Errors: out of memory only.
pub fn read_row_tokens<'a>(
    set: Instructions,
    tokens: &mut Vec<Token<'a>>,
    text: &'a [u8],
) -> Result<Onward<'a>, NoMemory>
    ensures value { IfOk result (λ x. IsSection set row_ends text.now (pieces tokens.new.items) x.rest.now x.stop) }
    ensures shorter { IfOk result (λ x. 0 < length tokens.new.items → length x.rest.now < length text.now) }
{
    read_section(set, tokens, &[Symbol::Semicolon], text)
}

/// The place of the symbol with which a text has to begin, and what comes after it.
///
/// `BadToken` at another token, and at the end of the text `end`.
pub fn after_opening(
    set: Instructions,
    symbol: Symbol,
    end: Why,
    text: &[u8],
) -> Result<(usize, &[u8]), Fault>
    ensures value { mapped (λ x. tokens_in set x.1.now) result ≡ spec.opened set symbol end text.now }
    ensures place { IfOk result (λ x. x.0 ≡ places.remaining_of (tokens_in set text.now)) }
    ensures stop { IfOk result (λ x. stop_of set x.1.now ≡ stop_of set text.now) }
{
    match token_at(set, text) {
        Ok((first, rest)) => {
            let remaining = first.remaining;
            if is_symbol(symbol, &first) {
                Ok((remaining, rest))
            } else {
                let why = Why::BadToken;
                Err(Fault { why, remaining })
            }
        }
        Err(stop) => Err(at_stop(
            Fault {
                why: end,
                remaining: 0,
            },
            stop,
        )),
    }
}
