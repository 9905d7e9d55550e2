//! What is said of a text whose first line is no header: of its encoding, of another processor or language that it names, and of what
//! else it is.

use crate::above::{begins_below, says_above};
use crate::characters::{COLOURS, says_foreign};
use crate::divider::Asked;
use crate::faults::MARKDOWN;
use crate::kinds::{KERNEL, has_instructions, has_kernel_words, is_model, says_kind};
use crate::line::{Filling, Line};
use crate::markup::says_of_conflict;
use crate::mnemonics::is_narrow_name;
use crate::place::Place;
use crate::quotes::{
    digits_and_letters, first_bytes, has, is_choice, is_row_of_cores, up_to, word,
};
use crate::registers::{NARROW, is_renamed};
use crate::tables::{Alike, is_exactly_one_of, is_one_of, said_of};
use tso_terms::names::continues_name;

/// Processors of other kinds.
const PROCESSORS: &str =
    "AArch64 ARM ARM64 ARMv8 ARMv7 PPC PPC64 Power PowerPC MIPS MIPS64 RISCV RISC-V RV64 S390 S390X \
     Alpha SPARC IA64 LOONGARCH BPF RISCV32 RISCV64 ARMv9 AArch32 Thumb";

/// Names of the processors of 64 bits.
const WIDE_NAMES: &str = "X86_64 x86-64 x8664 AMD64 x64 EM64T Intel64";

/// Languages that begin headers.
const LANGUAGES: &str = "C CPP C++ C11 LISA Bell LLVM JAVA ASL LK Rust";

/// Processors and languages for which other tests are.
static HEADERS: [Alike; 5] = [
    Alike(
        "X86 i386 i486 i586 i686 80386 8086 IA32 IA-32 x86-32 x86_32",
        "{}: write X86, in capitals",
    ),
    Alike(
        WIDE_NAMES,
        "{}: by the name X86_64 the tool import makes an X86 test of it, or says what has no form here; by hand, begin with X86 and a name, and use EAX, EBX, ECX, EDX, ESI, EDI",
    ),
    Alike(
        PROCESSORS,
        "{} is another processor: write its programs as X86 instructions, below a line X86 NAME: a store is MOV [x],$1, a load MOV EAX,[x], a fence MFENCE; the tool import takes X86 and X86_64 tests alone",
    ),
    Alike(
        "C",
        "C is a language: tools/compiled FILE reads such a test; tso reads programs of X86 instructions, below a line X86 NAME",
    ),
    Alike(
        LANGUAGES,
        "{} is a language: write its programs as X86 instructions, below a line X86 NAME: a store is MOV [x],$1, a load MOV EAX,[x], a fence MFENCE; tools/compiled reads tests in C",
    ),
];

const OTHER_NAME: &str = "{} isn't X86, and the cells below are X86's: write X86 in its place";

const CHOICES_FIRST: &str =
    "choices stand above the test: write the test first, then a line ====, and the choices below it";

const WIDE: &str =
    "X86_64 tests aren't read: the tool import makes X86 tests of them, or says what has no form here; if you do so by hand, begin with X86 and a name, and use EAX, EBX, ECX, EDX, ESI, EDI";

const NARROW_IN_WIDE: &str =
    "X86_64 isn't read, and {} has 8 or 16 bits, which the tool import refuses: begin with X86 and a name, and write whole words of 32 bits, as MOV [x],$1";

const NO_HEADER: &str = "no header: write a first line X86 NAME before it, as X86 SB";

const OTHER_HEADER: &str =
    "{} begins no test: write X86, a space and the test's name in place of this line, as X86 SB";

/// How many bytes of a file are looked through for a byte 0, which no text has.
const HEAD: usize = 512;

const OBJECT: &str =
    "this is a program or an object file, and no text: give tso the text of a test, which begins with X86 and a name; tools/compiled --object FILE P0 P1 reads functions of an object";

const COMPRESSED: &str =
    "this file is compressed by gzip: give tso the text in it, as in: gzip -dc FILE | tso run";

const PICTURE: &str =
    "this is a picture, and no text: give tso the text of a test, which begins with X86 and a name";

const NO_TEXT: &str =
    "this is no text, since a byte 0 is in it: give tso the text of a test, which begins with X86 and a name";

const NO_TEST: &str =
    "no line begins a test, as X86 SB does: give tso the text of a test: a line X86 NAME, { }, a row P0 | P1 ; and rows of instructions, as MOV [x],$1 | MOV [y],$1 ;";

/// Of a header line.
pub fn no_header(line: &mut Line, asked: Asked, place: &Place<'_>) {
    let rest = place.rest;
    let header = up_to(rest, b'\n');
    if rest.is_empty() {
        no_text(line, asked, place.before);
    } else if let Some(said) = said_of_encoding(rest) {
        line.say(said);
    } else if asked.is_divided && is_choice(word(rest)) {
        line.say(CHOICES_FIRST);
    } else if header.contains(&27) {
        line.say(COLOURS);
    } else if rest.starts_with(b"```") {
        line.say(MARKDOWN);
    } else if !(rest.starts_with(b"<<<<<<<") && says_of_conflict(line, place))
        && !says_other_kind(line, rest)
        && !says_above(line, rest, place.line())
        && !says_foreign_name(line, header)
    {
        no_test(line, rest, word(rest));
    }
}

/// Says of a text that is no test what it is, where its first words may be taken for a header. Whether that is known.
fn says_other_kind(line: &mut Line, text: &[u8]) -> bool {
    let is_none = is_model(text) || (!text.contains(&b'{') && !has_row_of_cores(text));
    is_none && !begins_below(text) && says_kind(line, text)
}

/// Of no text at all, or of comments alone.
fn no_text(line: &mut Line, asked: Asked, comments: &[u8]) {
    if !comments.trim_ascii().is_empty() {
        line.say(
            "all of this is a comment: a test has lines that stand in none, the first as X86 SB",
        );
    } else if asked.is_divided {
        line.say("no test stands before the line ====: write one above it");
    } else {
        line.say_with(
            "no test: give one on standard input, as in: tso {} < FILE",
            &[Filling::Text(asked.reader.name())],
        );
    }
}

/// What is said of a file that is no text, by its first bytes.
pub fn said_of_binary(text: &[u8]) -> Option<&'static str> {
    if text.starts_with(b"\x7fELF") {
        Some(OBJECT)
    } else if text.starts_with(b"\x1f\x8b") {
        Some(COMPRESSED)
    } else if text.starts_with(b"\x89PNG")
        || text.starts_with(b"GIF8")
        || text.starts_with(b"\xff\xd8\xff")
    {
        Some(PICTURE)
    } else {
        None
    }
}

/// What is said of a text that isn't in UTF-8, or whose lines end otherwise.
fn said_of_encoding(text: &[u8]) -> Option<&'static str> {
    let header = up_to(text, b'\n');
    if let Some(said) = said_of_binary(text) {
        Some(said)
    } else if is_utf_16(text) {
        Some(
            "the file is in UTF-16: save it as UTF-8, or convert it: iconv -f UTF-16 -t UTF-8 FILE",
        )
    } else if text.starts_with(b"\xef\xbb\xbf") {
        Some("a byte order mark stands before X86: save the file without it")
    } else if first_bytes(text, HEAD).contains(&0) {
        Some(NO_TEXT)
    } else if header
        .strip_suffix(b"\r")
        .unwrap_or(header)
        .contains(&b'\r')
    {
        Some("the lines end in CR alone: convert them: tr '\\r' '\\n' < FILE")
    } else {
        None
    }
}

/// Whether a text is in UTF-16: by its byte order mark, or by bytes 0 beside its first two characters of ASCII.
fn is_utf_16(text: &[u8]) -> bool {
    match text {
        [0xff, 0xfe, ..] | [0xfe, 0xff, ..] => true,
        [first, 0, second, 0, ..] | [0, first, 0, second, ..] => is_of_text(*first)
            && is_of_text(*second),
        _ => false,
    }
}

/// Whether a byte is a character of a text in ASCII.
fn is_of_text(byte: u8) -> bool {
    byte.is_ascii_graphic() || byte.is_ascii_whitespace()
}

/// Says of a character that isn't ASCII in a header line. Whether one stands in such a line.
fn says_foreign_name(line: &mut Line, header: &[u8]) -> bool {
    for at in 0..header.len() {
        if header[at..].starts_with(b"X86") {
            return says_foreign(line, header, "write the test's name in ASCII");
        }
    }
    false
}

/// Of a text that begins with this word and no header.
fn no_test(line: &mut Line, text: &[u8], first: &[u8]) {
    if is_exactly_one_of("X86", first) {
        line.say("write a space and the test's name after X86, in printable ASCII");
    } else if is_exactly_one_of("C", first) && has_kernel_words(text) {
        line.say(KERNEL);
    } else if is_exactly_one_of("X86_64", first) {
        wide_test(line, text);
    } else if (is_of_others(first) || (is_one_of(WIDE_NAMES, first) && has_narrow_cells(text)))
        && has_instructions(text)
        && has_row_of_cores(text)
    {
        line.say_of(OTHER_NAME, first);
    } else if let Some(said) = said_of(&HEADERS, first) {
        line.say_of(said, first);
    } else if has_row_of_cores(text) {
        line.say_of(said_before_test(text, first), first);
    } else if !says_kind(line, text) {
        line.say(NO_TEST);
    }
}

/// Whether a word that begins a header names another processor or a language.
fn is_of_others(word: &[u8]) -> bool {
    is_one_of(PROCESSORS, word) || is_exactly_one_of(LANGUAGES, word)
}

/// Of a test of `X86_64`.
fn wide_test(line: &mut Line, text: &[u8]) {
    match narrow_in(text) {
        Some(name) => line.say_of(NARROW_IN_WIDE, name),
        None if has(text, b"MOV [") && has_narrow_cells(text) => {
            line.say("the cells below are X86's: write X86 in place of X86_64");
        }
        None => line.say(WIDE),
    }
}

/// Whether a text has neither a register of 64 bits nor signs of AT&T's syntax.
fn has_narrow_cells(text: &[u8]) -> bool {
    !text.contains(&b'%') && !has_wide_register(text)
}

/// Whether a register of 64 bits stands in a text.
fn has_wide_register(text: &[u8]) -> bool {
    let mut is_at_start = true;
    for at in 0..text.len() {
        if is_at_start && is_renamed(digits_and_letters(&text[at..])) {
            return true;
        }
        is_at_start = !continues_name(text[at]);
    }
    false
}

/// The first word of a text that says a size of less than 32 bits: an instruction's or a register's name, or a type.
fn narrow_in(text: &[u8]) -> Option<&[u8]> {
    let mut is_at_start = true;
    for at in 0..text.len() {
        if is_at_start && is_narrow(digits_and_letters(&text[at..])) {
            return Some(digits_and_letters(&text[at..]));
        }
        is_at_start = !continues_name(text[at]);
    }
    None
}

fn is_narrow(name: &[u8]) -> bool {
    is_narrow_name(name)
        || is_one_of(NARROW, name)
        || is_one_of("uint8_t int8_t uint16_t int16_t", name)
}

/// Whether a row of cores stands somewhere in a text, and so a test but for what should stand above it.
pub fn has_row_of_cores(text: &[u8]) -> bool {
    for row in text.split(|byte| *byte == b'\n') {
        if is_row_of_cores(row) {
            return true;
        }
    }
    false
}

/// What is said of what stands at the beginning of a test in place of its header.
fn said_before_test(text: &[u8], first: &[u8]) -> &'static str {
    if first_bytes(first, 3).eq_ignore_ascii_case(b"X86") {
        "{}: write X86 alone, a space and the test's name"
    } else if text.starts_with(b"{")
        || text.starts_with(b"\"")
        || is_row_of_cores(up_to(text, b'\n'))
    {
        NO_HEADER
    } else {
        OTHER_HEADER
    }
}
