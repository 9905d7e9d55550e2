//! What a text is that begins no test, by its first line alone.

use crate::markup::is_of_strokes;
use crate::quotes::{
    after_byte, begins_with_letter, first_word, has, is_all_digits, is_choice, last_bytes, up_to,
};
use crate::tables::{is_exactly_one_of, is_one_of};

/// Of a disassembly.
pub const DISASSEMBLY: &str =
    "this is a disassembly, and no test: write a line X86 NAME, a line { }, and each core's instructions, without addresses and bytes, into a column below P0 | P1 ;";

const TERMINAL: &str =
    "this is a copy of a terminal, and no test: give tso the text of a test, which begins with X86 and a name, as in: tso run < FILE";

const MESSAGE: &str =
    "this is a message of a program, and no test: mend what it names, and give tso the text of a test, which begins with X86 and a name";

const WRITTEN: &str =
    "this is what diy said, and no test: give tso one of the tests that it wrote, which begins with X86 and a name";

const HELP: &str =
    "this is the help of a program, and no test: give tso the text of a test, which begins with X86 and a name";

const TABLE: &str =
    "this is a table, and no test: give the test that it is about, which begins with X86 and a name; rows of a test have | between cells alone, and ; at the end";

const LIST: &str =
    "this is a list of tests, and no test: give tso one of them at a time; the tool campaign takes lists";

const VERDICTS: &str =
    "this is a list of verdicts, and no test: give tso one of the tests that it names, which begins with X86 and a name";

const KERNEL_LOG: &str =
    "this is a log of the kernel, and no test: give the test that it is about, as X86 instructions below a line X86 NAME";

const DIY: &str =
    "this is a command line, and no test: call it, and give tso a test that it writes; the tool cycles makes tests of cycles too";

const COMMAND: &str =
    "this is a command line, and no test: tso reads the text of a test, which begins with X86 and a name, as in: tso run < FILE";

const OPTIONS: &str =
    "this is a configuration of diy, and no test: call diy7 -conf FILE with it, and give tso a test that it writes, which begins with X86 and a name";

const PAGE: &str =
    "this is a page in HTML: give the test alone, as text, which begins with X86 and a name";

const CHOICES: &str = "these are choices, without the test that stands before them and a line ====";

/// What is said of a text by its first line, where that tells; the second one tells of a table.
pub fn said_of_line(text: &[u8], head: &[u8]) -> Option<&'static str> {
    let first = first_word(head);
    let second = up_to(after_byte(text, b'\n').trim_ascii_start(), b'\n');
    if is_choice(first) || is_exactly_one_of("seed", first) {
        Some(CHOICES)
    } else if is_of_command(head, first) {
        Some(said_of_command(head))
    } else if is_disassembly(head, first) || (is_prompt(head, first) && has(text, b"mov ")) {
        Some(DISASSEMBLY)
    } else if is_prompt(head, first) {
        Some(if has(head, b"diy") { DIY } else { TERMINAL })
    } else if head.starts_with(b"Generator produced") {
        Some(WRITTEN)
    } else if is_one_of("usage: usage", first) || is_exactly_one_of("SYNOPSIS NAME", first) {
        Some(HELP)
    } else if is_message(head) {
        Some(MESSAGE)
    } else if has(text, b"|Kind")
        || is_of_strokes(head)
        || (head.contains(&b'|') && (is_of_strokes(second) || is_one_word_of_hyphens(second)))
    {
        Some(TABLE)
    } else if is_list(head) {
        Some(LIST)
    } else if head.starts_with(b"-")
        && begins_with_letter(last_bytes(first, first.len().saturating_sub(1)))
    {
        Some(OPTIONS)
    } else if is_verdict(head) {
        Some(VERDICTS)
    } else if is_stamp(head) || has(text, b"Call Trace:") {
        Some(KERNEL_LOG)
    } else if first.starts_with(b"<") {
        Some(PAGE)
    } else {
        None
    }
}

/// Whether a line has hyphens alone, three or more.
fn is_one_word_of_hyphens(line: &[u8]) -> bool {
    let line = line.trim_ascii();
    for byte in line {
        if *byte != b'-' {
            return false;
        }
    }
    line.len() > 2
}

/// Whether a line calls a program.
fn is_of_command(head: &[u8], first: &[u8]) -> bool {
    let has_words = has(head, b" -") || has(head, b".") || has(head, b"/");
    is_exactly_one_of(
        "$ diy7 diyone7 diycross7 diyone herd7 litmus7 klitmus7 norm7 classify7 mcompare7 msum7",
        first,
    ) || first.starts_with(b"./")
        || first.starts_with(b"tools/")
        || first.starts_with(b"tso-")
        || (is_exactly_one_of(
            "diy herd litmus gcc g++ clang cc nasm yasm ld objdump gdb cat tso",
            first,
        ) && has_words)
}

/// Whether a line begins as a terminal does, and goes on with a command.
fn is_prompt(head: &[u8], first: &[u8]) -> bool {
    let after = last_bytes(head, head.len().saturating_sub(first.len())).trim_ascii_start();
    let second = first_word(after);
    let later = last_bytes(after, after.len().saturating_sub(second.len())).trim_ascii_start();
    if second.ends_with(b"$") && is_of_command(later, first_word(later)) {
        return true;
    }
    let goes_on = match after.first() {
        Some(next) => next.is_ascii_alphabetic() || b"./~".contains(next),
        None => false,
    };
    let ends_as_one = match first {
        [b'%' | b'>' | b'#'] => is_of_command(after, first_word(after)),
        [_, .., b'$' | b'>' | b'#' | b'%'] => !first.contains(&b'<') && !first.contains(&b'-'),
        _ => is_exactly_one_of("(gdb) (lldb) PS", first),
    };
    (goes_on && ends_as_one) || (first.starts_with(b"[") && has(head, b"]$ "))
}

/// Whether a line is a message of a compiler or another program.
fn is_message(head: &[u8]) -> bool {
    for part in [
        "Fatal error",
        "error:",
        "Error:",
        "warning:",
        "Warning:",
        "File \"",
        "Traceback (",
        "command not found",
        "No such file",
        "cannot find",
        "unexpected token",
        "Segmentation fault",
        "Permission denied",
    ] {
        if has(head, part.as_bytes()) {
            return true;
        }
    }
    false
}

fn said_of_command(head: &[u8]) -> &'static str {
    if has(head, b"diy") { DIY } else { COMMAND }
}

/// Whether a line names a file of a test, or begins with a list's name, as `@all`.
fn is_list(head: &[u8]) -> bool {
    let is_one_word = first_word(head).len() == head.len();
    is_one_word && (head.ends_with(b".litmus") || is_exactly_one_of("@all", head))
}

/// Whether a line is a name and a verdict.
fn is_verdict(head: &[u8]) -> bool {
    let first = first_word(head);
    let rest = last_bytes(head, head.len().saturating_sub(first.len())).trim_ascii();
    is_one_of(
        "Allow Allowed Forbid Forbidden Require Required Never Sometimes Always Ok No",
        rest,
    )
}

/// Whether a line begins with a time, as in the kernel's log: seconds in square brackets.
fn is_stamp(head: &[u8]) -> bool {
    match head.strip_prefix(b"[") {
        Some(after) => is_all_digits(up_to(after.trim_ascii_start(), b'.')),
        None => false,
    }
}

/// Whether a line is one of a disassembly: its title, a function's address, or an instruction's with its bytes.
fn is_disassembly(head: &[u8], first: &[u8]) -> bool {
    let after = last_bytes(head, head.len().saturating_sub(first.len())).trim_ascii_start();
    let address = first.strip_suffix(b":").unwrap_or(first);
    has(head, b"file format ")
        || has(head, b"& Disassembly")
        || has(head, b"Disassembly of")
        || (is_hexadecimal(address)
            && (after.starts_with(b"<")
                || (address.len() < first.len() && is_hexadecimal(first_word(after)))))
}

/// Whether these are digits to base 16, perhaps after `0x`.
fn is_hexadecimal(word: &[u8]) -> bool {
    let digits = word.strip_prefix(b"0x").unwrap_or(word);
    for digit in digits {
        if !digit.is_ascii_hexdigit() {
            return false;
        }
    }
    !digits.is_empty()
}
