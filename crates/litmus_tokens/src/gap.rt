//! White space and comments. A comment that doesn't end is told with the place where it begins, for its end is nowhere.

ghost use Rattle.std.specs.Prelude.{◌≡◌, ◌≤◌, ◌<◌, length, None, IfOk, IfSome};
ghost use Rattle.std.specs.Option.{option_map};
ghost use Rattle.litmus_tokens.specs.Gap as gap;
ghost use Rattle.litmus_tokens.specs.Gap.{gap_end};
ghost use Rattle.litmus_tokens.specs.inner.Gap.{comment_end, Steps};
ghost use Rattle.litmus_tokens.specs.inner.Mapped.{mapped};

use crate::token::Stop;

#[tactic(auto, unfolding(crate::specs::Gap::is_space))]
fn is_space(byte: u8) -> bool
    ensures { result ≡ gap.is_space byte }
{
    matches!(byte, b' ' | b'\t' | b'\n' | b'\r')
}

/// What comes after the first `*)`.
fn after_comment(bytes: &[u8]) -> Option<&[u8]>
    ensures value { option_map (λ x. x.now) result ≡ comment_end bytes.now }
    ensures shorter { IfSome result (λ x. length x.now < length bytes.now) }
{
    let mut rest = bytes;
    while let [first, second, past @ ..] = rest {
        if *first == b'*' && *second == b')' {
            return Some(past);
        }
        rest = &rest[1..];
    }
    None
}

/// What comes after one byte of white space or one comment; `None` where neither is there.
#[tactic(auto, using(crate::proofs::Gaps::gap_after_space), unfolding(crate::specs::Gap::gap_end))]
fn after_one(bytes: &[u8]) -> Result<Option<&[u8]>, Stop>
    ensures { Steps result bytes.now (gap_end None bytes.now) }
{
    let Some((first, after)) = bytes.split_first() else {
        return Ok(None);
    };
    // Most bytes of a text are greater than those that begin a gap, and need no second look.
    if *first > b'(' {
        return Ok(None);
    }
    if is_space(*first) {
        return Ok(Some(after));
    }
    let Some((second, inside)) = after.split_first() else {
        return Ok(None);
    };
    if *first != b'(' || *second != b'*' {
        return Ok(None);
    }
    match after_comment(inside) {
        Some(rest) => Ok(Some(rest)),
        None => Err(Stop::Unclosed(bytes.len())),
    }
}

/// What comes after white space and comments. The only stop is a comment that doesn't end.
pub fn after_gap(bytes: &[u8]) -> Result<&[u8], Stop>
    ensures value { mapped (λ x. x.now) result ≡ gap_end None bytes.now }
    ensures within { IfOk result (λ x. length x.now ≤ length bytes.now) }
{
    let mut rest = bytes;
    while let Some(after) = after_one(rest)? {
        rest = after;
    }
    Ok(rest)
}
