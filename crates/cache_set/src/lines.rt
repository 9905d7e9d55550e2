//! Memory as lines of words: caches hold whole lines, so memory hands them out and takes them back whole.

ghost use Rattle.std.specs.Prelude.{◌≡◌, ◌≤◌, IfOk, length};
ghost use Rattle.tso_terms.specs.Limits.{most_locations};
ghost use Rattle.std.specs.Int.{div_ceil};
ghost use Rattle.cache_set.specs.Limits.{most_words};
ghost use Rattle.cache_set.specs.Lines.{offset_of, line_of_words, lines_of_words};

use crate::MAX_WORDS;
use crate::shape::Shape;
use std::alloc::Global;
use tso_terms::NoMemory;

/// The lines of these words.
pub fn lines_of(
    alloc: Global,
    shape: Shape,
    words: &[u32],
) -> Result<Vec<[u32; MAX_WORDS]>, NoMemory>
    requires { length words.now ≤ most_locations }
    ensures value { IfOk result (λ lines. lines.items ≡ lines_of_words shape.words words.now (div_ceil (length words.now) shape.words)) }
    ensures size { (1 ≤ shape.words) × (shape.words ≤ most_words) }
{
    let count = words.len().div_ceil(usize::from(shape.words()));
    let mut lines = vec![in alloc; [0; MAX_WORDS]; count]?;
    put_lines(&mut lines, shape, words);
    Ok(lines)
}

/// The lines of these words come in the place of so many lines.
pub fn put_lines(lines: &mut [[u32; MAX_WORDS]], shape: Shape, words: &[u32])
    requires { length lines.old ≤ most_locations }
    ensures value { lines.new ≡ lines_of_words shape.words words.now (length lines.old) }
    ensures size { (1 ≤ shape.words) × (shape.words ≤ most_words) }
{
    let size = usize::from(shape.words());
    for line in 0..lines.len() {
        lines[line] = line_at(words, size, line);
    }
}

/// The line with this number of these words, where a line has so many; 0 is past its words.
fn line_at(words: &[u32], size: usize, line: usize) -> [u32; MAX_WORDS]
    requires size { size ≤ most_words }
    requires line { line ≤ most_locations }
    ensures { result ≡ line_of_words size words.now line }
{
    [
        word_at(words, size, line, 0),
        word_at(words, size, line, 1),
        word_at(words, size, line, 2),
        word_at(words, size, line, 3),
    ]
}

/// The word at this offset in a line of these words; 0 past the line's words, and past the last word.
fn word_at(words: &[u32], size: usize, line: usize, offset: usize) -> u32
    requires size { size ≤ most_words }
    requires line { line ≤ most_locations }
    ensures { result ≡ offset_of size words.now line offset }
{
    if offset < size {
        words.get(line * size + offset).copied().unwrap_or(0)
    } else {
        0
    }
}
