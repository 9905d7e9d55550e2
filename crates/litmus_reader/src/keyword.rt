//! Words that stand for themselves. To the lexer they are names like any other.

ghost use Rattle.std.specs.Prelude.{◌≡◌, ◌<◌, length, IfSome};
ghost use Rattle.std.specs.Option.{option_map};
ghost use Rattle.litmus_tokens.specs.inner.Pieces.{pieces};
ghost use Rattle.litmus_reader.specs.Keywords as spec;

use litmus_tokens::{Token, name_at};

/// What comes after this word, if it is at the front.
#[tactic(auto, unfolding(crate::specs::Keywords::word_after))]
pub fn after_word<'a, 'b>(word: &[u8], tokens: &'b [Token<'a>]) -> Option<&'b [Token<'a>]>
    ensures value { option_map (λ x. pieces x.now) result ≡ spec.word_after word.now (pieces tokens.now) }
    ensures shorter { IfSome result (λ x. length x.now < length tokens.now) }
{
    match name_at(tokens) {
        Some((name, rest)) if name == word => Some(rest),
        _ => None,
    }
}
