//! The lines of a text, borrowed from it, with a carriage return at the end taken off.

ghost use Rattle.std.specs.Prelude.{◌≡◌, ◌<◌, ◌∷◌, [], length, count_by, IfSome, IfNone};
ghost use Rattle.std.specs.Option.{option_map};
ghost use Rattle.std.specs.Str.Lines.{strip_carriage_return};
ghost use Rattle.order_builder.specs.Lines.{lines_of, is_line_feed};
ghost use Rattle.order_builder.specs.inner.Reading.{split_once, starts_line, without_prefix};

/// What comes before the first such byte, and what after it; `None` where there is no such byte.
pub fn split_once(text: &[u8], byte: u8) -> Option<(&[u8], &[u8])>
    ensures value { option_map (λ halves. (halves.0.now, halves.1.now)) result ≡ split_once byte text.now }
    ensures shorter { IfSome result (λ halves. length halves.1.now < length text.now) }
{
    for at in 0..text.len() {
        if text[at] == byte {
            return Some((&text[..at], &text[at + 1..]));
        }
    }
    None
}

/// What comes after the prefix, where the text begins with it.
#[tactic(auto, unfolding(crate::specs::inner::Reading::without_prefix))]
pub fn without_prefix<'a>(text: &'a [u8], prefix: &[u8]) -> Option<&'a [u8]>
    ensures { option_map (λ rest. rest.now) result ≡ without_prefix prefix.now text.now }
{
    text.strip_prefix(prefix)
}

/// Whether a line of the text begins at this place.
#[tactic(auto, unfolding(crate::specs::inner::Reading::starts_line))]
pub fn starts_line(text: &[u8], at: usize) -> bool
    requires { at < length text.now }
    ensures { result ≡ starts_line text.now at }
{
    at == 0 || text[at - 1] == b'\n'
}

/// How many line feeds are in the text.
pub fn line_feeds_in(text: &[u8]) -> usize
    ensures { result ≡ count_by is_line_feed text.now }
{
    let mut count = 0;
    for at in 0..text.len() {
        if text[at] == b'\n' {
            count += 1;
        }
    }
    count
}

/// The first line of a text, without a carriage return at its end, and what comes after it;
/// `None` where the text is empty.
pub fn next_line(text: &[u8]) -> Option<(&[u8], &[u8])>
    ensures some { IfSome result (λ found. lines_of text.now ≡ found.0.now ∷ lines_of found.1.now) }
    ensures shorter { IfSome result (λ found. length found.1.now < length text.now) }
    ensures none { IfNone result (lines_of text.now ≡ []) }
{
    if text.is_empty() {
        return None;
    }
    match split_once(text, b'\n') {
        Some((line, rest)) => Some((without_return(line), rest)),
        None => Some((without_return(text), &[])),
    }
}

/// The line without a carriage return at its end, if it has one.
fn without_return(line: &[u8]) -> &[u8]
    ensures { result.now ≡ strip_carriage_return line.now }
{
    match line.split_last() {
        Some((last, front)) if *last == b'\r' => front,
        _ => line,
    }
}
