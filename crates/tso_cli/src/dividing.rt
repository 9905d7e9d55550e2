//! The two parts of an input, before and after the dividing line, borrowed from the one copy that was read.

ghost use Rattle.std.specs.Prelude.{◌≡◌, cond, None};
ghost use Rattle.std.specs.Option.{option_map};
ghost use Rattle.tso_cli.specs.Dividing as words;
ghost use Rattle.tso_cli.specs.inner.Dividing.{begins_line, signs};
ghost use Rattle.memchr.specs.Find.{FindsNeedle};

use memchr::memmem;

/// The two parts of an input: the text of a test, and choices or an order.
#[derive(Clone, Copy)]
pub struct Parts<'a> {
    pub test: &'a [u8],
    pub rest: &'a [u8],
}

/// Separates an input at its first line that is `====`; one carriage return before the line's end is
/// dropped. The line is in neither part. Where there is none, the second part is empty.
pub fn parts_of(input: &[u8]) -> Parts<'_>
    ensures test { result.test.now ≡ (words.parts_of input.now).test }
    ensures rest { result.rest.now ≡ (words.parts_of input.now).rest }
{
    // In most texts these signs are in the dividing line alone.
    let mut at = 0;
    while let Some(sign) = next_signs(&input[at..]) {
        let (test, lines) = input.split_at(at + sign);
        if let Some(rest) = divided_at(test, lines) {
            return Parts { test, rest };
        }
        at += sign + 1;
    }
    Parts {
        test: input,
        rest: &[],
    }
}

/// Where the signs of a dividing line are next.
fn next_signs(text: &[u8]) -> Option<usize>
    ensures { FindsNeedle text.now signs 0 result }
{
    memmem::find(text, b"====".as_slice())
}

/// What comes after the dividing line with which `lines` begin, where a line begins after `front`.
fn divided_at<'a>(front: &[u8], lines: &'a [u8]) -> Option<&'a [u8]>
    ensures { option_map (λ rest. rest.now) result ≡ cond (begins_line front.now) (words.after_divider lines.now) None }
{
    if begins_line(front) {
        after_divider(lines)
    } else {
        None
    }
}

/// Whether a line begins after these bytes.
fn begins_line(front: &[u8]) -> bool
    ensures { result ≡ begins_line front.now }
{
    match front.split_last() {
        None => true,
        Some((last, _)) => *last == b'\n',
    }
}

fn after_divider(text: &[u8]) -> Option<&[u8]>
    ensures { option_map (λ rest. rest.now) result ≡ words.after_divider text.now }
{
    if !text.starts_with(b"====".as_slice()) {
        return None;
    }
    let end = &text[4..];
    match end.split_first() {
        Some((b'\r', feed)) => after_feed(feed),
        _ => after_feed(end),
    }
}

fn after_feed(text: &[u8]) -> Option<&[u8]>
    ensures { option_map (λ rest. rest.now) result ≡ words.after_feed text.now }
{
    match text.split_first() {
        None => Some(text),
        Some((b'\n', rest)) => Some(rest),
        Some(_) => None,
    }
}
