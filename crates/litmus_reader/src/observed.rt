//! The locations between square brackets, which are passed over: they have no effect, and any bytes may be there. Tokens
//! begin anew after them.

ghost use Rattle.std.specs.Prelude.{◌≡◌, codes, IfSome};
ghost use Rattle.std.specs.Option.{option_map};
ghost use Rattle.litmus_tokens.specs.Pieces.{pieces_of};
ghost use Rattle.litmus_tokens.specs.inner.Mapped.{mapped};
ghost use Rattle.litmus_tokens.specs.inner.Terms.{term_of};
ghost use Rattle.litmus_reader.specs.Keywords as keywords;
ghost use Rattle.litmus_reader.specs.Observed as spec;
ghost use Rattle.litmus_reader.specs.inner.Sections.{tokens_in, stop_of};

use crate::header::past_gap;
use crate::section::after_opening;
use litmus_cells::{Fault, Why};
use litmus_tokens::{Instructions, Lexeme, Symbol, token_at};

/// What comes after the next `]`, comments passed over; without it, `Unclosed` at `remaining`.
#[tactic(auto, using(crate::proofs::Squares::square_start, crate::proofs::Squares::square_further))]
fn after_square(remaining: usize, bytes: &[u8]) -> Result<&[u8], Fault>
    ensures { mapped (λ x. x.now) result ≡ spec.square_end remaining bytes.now }
{
    let mut rest = bytes;
    loop {
        let at = past_gap(rest)?;
        let Some((first, after)) = at.split_first() else {
            return Err(Fault {
                why: Why::Unclosed,
                remaining,
            });
        };
        if *first == b']' {
            return Ok(after);
        }
        rest = after;
    }
}

/// What comes after the brackets with which `rest` has to begin.
#[tactic(auto, unfolding(crate::specs::Observed::brackets_end))]
fn after_brackets<'a>(set: Instructions, text: &'a [u8], rest: &[u8]) -> Result<&'a [u8], Fault>
    ensures { mapped (λ x. x.now) result ≡ spec.brackets_end text.now (stop_of set rest.now) (tokens_in set rest.now) }
{
    let (remaining, _) = after_opening(set, Symbol::OpenSquare, Why::BadToken, rest)?;
    let (_, from_square) = text.split_at(text.len().saturating_sub(remaining));
    after_square(remaining, from_square)
}

fn is_locations(lexeme: Lexeme<'_>) -> bool
    ensures { result ≡ keywords.is_word (codes "locations") (term_of lexeme.entry) }
{
    match lexeme {
        Lexeme::Name(name) => name == b"locations".as_slice(),
        _ => false,
    }
}

/// What comes after the word `locations`, if a text begins with it.
#[tactic(auto, using(crate::proofs::SectionSteps::word_missing, crate::proofs::SectionSteps::stop_there))]
fn after_locations(set: Instructions, text: &[u8]) -> Option<&[u8]>
    ensures value { option_map (λ x. tokens_in set x.now) result ≡ keywords.word_after (codes "locations") (tokens_in set text.now) }
    ensures stop { IfSome result (λ x. stop_of set x.now ≡ stop_of set text.now) }
{
    match token_at(set, text) {
        Ok((first, rest)) => {
            if is_locations(first.lexeme) {
                Some(rest)
            } else {
                None
            }
        }
        Err(_) => None,
    }
}

/// What comes after `locations [..]`, if `rest` begins with it, and else all of `rest`, which is an end of
/// the text.
///
/// `BadToken` where no `[` comes after the word, `Unclosed` at a `[` that doesn't end and at a
/// comment that doesn't.
#[tactic(auto, unfolding(crate::specs::Observed::ending_tokens))]
pub fn after_observed<'a>(
    set: Instructions,
    text: &'a [u8],
    rest: &'a [u8],
) -> Result<&'a [u8], Fault>
    ensures { mapped (λ x. pieces_of set x.now) result ≡ spec.ending_tokens set text.now (stop_of set rest.now) (tokens_in set rest.now) }
{
    match after_locations(set, rest) {
        Some(after) => after_brackets(set, text, after),
        None => Ok(rest),
    }
}
