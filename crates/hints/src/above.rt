//! What is said of a text in which a test begins, but not with the first byte: of what stands above its first line, or beside it.

use crate::kinds::is_of_report;
use crate::line::Line;
use crate::quotes::{first_word, is_all_digits, up_to};
use crate::tables::is_exactly_one_of;

const ABOVE: &str =
    "the test begins on line {}, with X86: leave out what stands above it, or make a comment of it: (* .. *)";

const AROUND: &str =
    "the test begins on line {}, with X86, and ends with its condition: leave out what stands above it and below it";

const BESIDE: &str =
    "{} stands before X86: leave it out, here and in each line where it stands: a test begins with X86, a space and its name";

const IN_STRINGS: &str =
    "each line stands in a string of C: leave out its quotation marks and the \\n before the second one";

const NUMBERED: &str =
    "{} stands before X86, as the line's number: leave out the number of each line";

/// Says of a text whose first line is no header, by that line and those below it, where `number` is its number. Whether a test begins on
/// one of them.
pub fn says_above(line: &mut Line, rest: &[u8], number: usize) -> bool {
    let header = up_to(rest, b'\n');
    let lines = lines_above_header(rest);
    if begins_header(rest) {
        return false;
    }
    let before = before_header(header);
    if lines > 0 && !is_label(before) {
        line.say_number(
            if has_report_below(rest) {
                AROUND
            } else {
                ABOVE
            },
            number.saturating_add(lines),
        );
    } else if before.is_empty() {
        return false;
    } else if is_number(before) {
        line.say_of(NUMBERED, before);
    } else if before.starts_with(b"\"") && header.trim_ascii_end().ends_with(b"\\n\"") {
        line.say(IN_STRINGS);
    } else if is_label(before) || !before.contains(&b' ') {
        line.say_of(BESIDE, before);
    } else {
        return false;
    }
    true
}

/// Whether a report goes on below a condition.
fn has_report_below(text: &[u8]) -> bool {
    let mut has_condition = false;
    for row in text.split(|byte| *byte == b'\n') {
        let first = first_word(row);
        if is_exactly_one_of("exists ~exists forall", up_to(first, b'(')) {
            has_condition = true;
        } else if has_condition && (is_of_report(first) || ends_copy(first)) {
            return true;
        }
    }
    false
}

/// Whether a line that begins with this word ends what a test was copied from: a page, a text in Markdown or a terminal.
fn ends_copy(word: &[u8]) -> bool {
    word.starts_with(b"<") || word.starts_with(b"```") || is_exactly_one_of("EOF $ % #", word)
}

/// Whether a test begins on a line below the first.
pub fn begins_below(text: &[u8]) -> bool {
    lines_above_header(text) > 0
}

/// How many lines of a text stand above the first that begins a test, or 0 where none does, or where an initial state stands above it:
/// then it is a second test.
fn lines_above_header(text: &[u8]) -> usize {
    let mut lines = 0usize;
    let mut is_at_start = true;
    for at in 0..text.len() {
        if is_at_start && begins_header(&text[at..]) {
            return lines;
        }
        if is_at_start && text[at] == b'{' {
            return 0;
        }
        if text[at] == b'\n' {
            lines = lines.saturating_add(1);
            is_at_start = true;
        } else if !text[at].is_ascii_whitespace() {
            is_at_start = false;
        }
    }
    0
}

/// Whether a text begins as a test does.
fn begins_header(text: &[u8]) -> bool {
    text.starts_with(b"X86 ") || text.starts_with(b"X86\t")
}

/// What stands before `X86` and a name on a line, or no bytes.
fn before_header(line: &[u8]) -> &[u8] {
    for at in 1..line.len() {
        if begins_header(&line[at..]) && !line[at - 1].is_ascii_alphanumeric() {
            return line[..at].trim_ascii();
        }
    }
    &[]
}

/// Whether these bytes may stand before each line of a text: a number, a sign, or a tag.
fn is_label(before: &[u8]) -> bool {
    is_number(before)
        || is_exactly_one_of("> >> + - | * % $ \" ` ' ** # ## // /* ; ;; ( [ --", before)
        || (before.starts_with(b"<") && before.ends_with(b">"))
}

/// Whether these bytes number a line.
fn is_number(before: &[u8]) -> bool {
    let digits = before
        .strip_suffix(b":")
        .or(before.strip_suffix(b"|"))
        .or(before.strip_suffix(b"."))
        .or(before.strip_suffix(b")"))
        .unwrap_or(before);
    is_all_digits(digits.trim_ascii_end())
}
