//! What is said of a cell that is no instruction in an assembler's language either: a directive, a location's data, or a line of a
//! disassembly.

use crate::instructions::LABEL;
use crate::keywords::{begins_instruction, is_instruction};
use crate::line::{Filling, Line};
use crate::mnemonics::larger_of;
use crate::numbers::number_in;
use crate::quotes::{digits_and_letters, is_all_digits, is_bare, last_bytes, up_to, word};
use crate::tables::is_one_of;
use tso_terms::names::is_location_name;

/// Words that lay out data.
const DATA: &str =
    "DD DQ DW DB RESD RESQ RESW RESB .long .int .quad .word .byte .zero .space .4byte .comm .skip";

/// Words that tell an assembler something.
const DIRECTIVES: &str =
    "align times extern global globl section segment bits org default use32 use64 equ public \
     end proc endp assume model text data bss p2align type size db dd dw dq";

const DATA_ITEM: &str =
    "{} lays out a location: write its first value into the initial state, as { {}={}; }, and leave it out here";

const NUMBERS: &str =
    "{}: numbers are no instruction: write the one that they stand for, as MFENCE, or leave data out";

const DISASSEMBLED: &str =
    "{} begins a line of a disassembly: leave its address and its bytes out, and write the instruction alone";

/// Says of a directive, of data or of a disassembly. Whether a cell is one.
pub fn says_directive(line: &mut Line, cell: &[u8]) -> bool {
    let cell = cell.trim_ascii();
    let first = word(cell);
    let rest = after(cell, first);
    if is_number_of_row(first) && is_instruction(digits_and_letters(rest)) {
        line.say_of("{} stands before the instruction: leave it out", first);
    } else if is_repetition(first, rest) {
        line.say_with(
            "{} is for an assembler: write the instruction {} times, each in a row of its own",
            &[Filling::Named(first), Filling::Shown(word(rest))],
        );
    } else if (is_address(first) && is_byte(word(rest))) || begins_with_bytes(cell) {
        line.say_of(DISASSEMBLED, first);
    } else if let Some(name) = data_in(first, word(rest)) {
        say_data(line, cell, name, word(after(rest, word(rest))));
    } else if is_label(first) {
        line.say_of(LABEL, up_to(first, b':'));
    } else if is_one_of(".byte .word .long .quad .4byte db dw dd dq", first) {
        line.say_of(NUMBERS, cell);
    } else if is_one_of("equ", word(rest)) || is_one_of("%define %assign equ", first) {
        line.say_of(
            "{} names a number: leave it out, and write the number wherever the name stands, as $1",
            cell,
        );
    } else if is_directive(first) || is_one_of("proc endp segment ends", word(rest)) {
        line.say_of(
            "{} is for an assembler, and no instruction: leave it out",
            cell,
        );
    } else {
        return false;
    }
    true
}

/// Whether an instruction stands behind a word that repeats it and a number.
fn is_repetition(first: &[u8], rest: &[u8]) -> bool {
    let number = word(rest);
    is_one_of("times", first)
        && is_all_digits(number)
        && begins_instruction(word(after(rest, number)))
}

/// Of a location that is laid out, with this value.
fn say_data(line: &mut Line, cell: &[u8], name: &[u8], value: &[u8]) {
    let value = if number_in(value).is_some() {
        value
    } else {
        b"0"
    };
    line.say_with(
        DATA_ITEM,
        &[
            Filling::Named(cell),
            Filling::Shown(name),
            Filling::Shown(value),
        ],
    );
}

/// Whether a word numbers an instruction, as `1.` or `(a)`.
fn is_number_of_row(word: &[u8]) -> bool {
    match word {
        [digits @ .., b'.' | b')'] if is_all_digits(digits) => true,
        [b'(' | b'[' | b'<', inside @ .., b')' | b']' | b'>'] => is_bare(inside),
        _ => is_all_digits(word),
    }
}

/// What stands after the word at the front.
fn after<'a>(text: &'a [u8], first: &[u8]) -> &'a [u8] {
    last_bytes(text, text.len().saturating_sub(first.len())).trim_ascii_start()
}

/// Whether a word is a label: a name or a number and a colon.
fn is_label(word: &[u8]) -> bool {
    match word.strip_suffix(b":") {
        Some(name) => {
            !begins_instruction(name)
                && larger_of(name).is_none()
                && is_bare(name.strip_prefix(b".").unwrap_or(name))
        }
        None => false,
    }
}

/// Whether a word is an address to base 16 and a colon.
fn is_address(word: &[u8]) -> bool {
    match word.strip_suffix(b":") {
        Some(digits) => !digits.is_empty() && are_hexadecimal(digits),
        None => false,
    }
}

/// Whether a word is a byte to base 16.
fn is_byte(word: &[u8]) -> bool {
    word.len() == 2 && are_hexadecimal(word)
}

/// Whether an instruction stands behind two numbers or more to base 16, of two digits or more: an address and bytes.
fn begins_with_bytes(cell: &[u8]) -> bool {
    let mut rest = cell;
    let mut count = 0usize;
    for _ in 0..cell.len() {
        let first = word(rest);
        if first.len() < 2 || !are_hexadecimal(first.strip_suffix(b":").unwrap_or(first)) {
            break;
        }
        count = count.saturating_add(1);
        rest = after(rest, first);
    }
    count >= 2 && is_instruction(digits_and_letters(rest))
}

fn are_hexadecimal(digits: &[u8]) -> bool {
    for digit in digits {
        if !digit.is_ascii_hexdigit() {
            return false;
        }
    }
    true
}

/// The location that these words lay out: its name, perhaps with a colon, and a word of data.
fn data_in<'a>(first: &'a [u8], second: &[u8]) -> Option<&'a [u8]> {
    let name = first.strip_suffix(b":").unwrap_or(first);
    if is_location_name(name) && is_one_of(DATA, second) {
        Some(name)
    } else {
        None
    }
}

fn is_directive(first: &[u8]) -> bool {
    match first.strip_prefix(b".").or(first.strip_prefix(b"%")) {
        Some(name) => !name.is_empty() && digits_and_letters(name).len() == name.len(),
        None => is_one_of(DIRECTIVES, first),
    }
}
