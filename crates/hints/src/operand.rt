//! Operands as assemblers write them, in AT&T's syntax or in Intel's: what each one is. A hint turns an instruction into its form here only
//! where all of its operands are known.

use crate::numbers::number_in;
use crate::quotes::{
    after_byte, begins_with_letter, digits_and_letters, first_bytes, last_bytes, up_to,
};
use crate::registers::{NARROW, is_near_register, is_register, is_special};
use crate::tables::is_one_of;
use tso_terms::names::is_location_name;

/// An operand.
#[derive(Clone, Copy)]
pub enum Operand<'a> {
    /// A register, by its name without `%`.
    Register(&'a [u8]),
    /// A number, which stands for itself.
    Number(u32),
    /// The word of the location with this name.
    Word(&'a [u8]),
    /// A location's name alone: its word in one language, and its address in another.
    Bare(&'a [u8]),
    /// The address of the location with this name.
    Address(&'a [u8]),
    /// The word whose address this register holds.
    Through(&'a [u8]),
    /// A word whose address is computed.
    Computed,
    /// None of these.
    Unknown,
}

/// Words that say the size of an operand in memory.
const SIZES: &str = "DWORD QWORD WORD BYTE PTR NEAR FAR STRICT";

/// Sizes of less than a word of 32 bits.
const NARROW_SIZES: &str = "WORD BYTE";

/// What an operand is.
pub fn operand_in(text: &[u8]) -> Operand<'_> {
    let text = text.trim_ascii();
    let after = after_sizes(text);
    let is_sized = after.len() < text.len();
    match immediate_in(after) {
        Operand::Bare(name) if is_sized => Operand::Word(name),
        Operand::Unknown => place_in(after),
        operand => operand,
    }
}

/// Whether an operand has less than 32 bits, as its size or its register says.
pub fn is_narrow(text: &[u8]) -> bool {
    let text = text.trim_ascii();
    is_one_of(NARROW_SIZES, digits_and_letters(text)) || is_one_of(NARROW, without_percent(text))
}

/// Whether an operand has 64 bits, as its size or its register says.
pub fn is_wide(text: &[u8]) -> bool {
    let text = text.trim_ascii();
    is_one_of("QWORD", digits_and_letters(text))
        || is_one_of("RAX RBX RCX RDX RSI RDI", without_percent(text))
}

/// What stands after the words that say an operand's size or its segment.
fn after_sizes(text: &[u8]) -> &[u8] {
    let mut rest = text;
    for _ in 0..2 {
        let first = digits_and_letters(rest);
        if is_one_of(SIZES, first) {
            rest = last_bytes(rest, rest.len().saturating_sub(first.len())).trim_ascii_start();
        }
    }
    after_segment(rest)
}

/// What stands after a segment of which all programs have the same.
fn after_segment(text: &[u8]) -> &[u8] {
    let segment = up_to(text, b':');
    if segment.len() < text.len() && is_one_of("DS SS ES CS", without_percent(segment)) {
        after_byte(text, b':').trim_ascii_start()
    } else {
        text
    }
}

fn without_percent(text: &[u8]) -> &[u8] {
    text.strip_prefix(b"%").unwrap_or(text)
}

/// The register, the number, the address or the name that an operand is; of any other that it is unknown.
fn immediate_in(text: &[u8]) -> Operand<'_> {
    if let Some(value) = text.strip_prefix(b"#") {
        return match number_in(value) {
            Some(number) => Operand::Number(number),
            None => Operand::Unknown,
        };
    }
    if let Some(value) = text.strip_prefix(b"$") {
        return match number_in(value) {
            Some(number) => Operand::Number(number),
            None if is_location(value) => Operand::Address(value),
            None => Operand::Unknown,
        };
    }
    if is_register(without_percent(text)) {
        return Operand::Register(without_percent(text));
    }
    if let Some(number) = number_in(text) {
        return Operand::Number(number);
    }
    if is_one_of("OFFSET", digits_and_letters(text)) {
        let name = last_bytes(text, text.len().saturating_sub(6)).trim_ascii_start();
        let name = name.strip_prefix(b"FLAT:").unwrap_or(name);
        return if is_location(name) {
            Operand::Address(name)
        } else {
            Operand::Unknown
        };
    }
    if is_location(text) && !is_near_register(text) {
        Operand::Bare(text)
    } else {
        Operand::Unknown
    }
}

/// Whether a word names a location, and no register.
fn is_location(word: &[u8]) -> bool {
    is_location_name(word) && !is_register(word) && !is_special(word)
}

/// The word in memory that an operand with brackets is, or with a sum.
fn place_in(text: &[u8]) -> Operand<'_> {
    match text {
        [b'[', inside @ .., b']'] => address_in(inside),
        [b'(', inside @ .., b')'] => address_in(inside),
        [b'{', inside @ .., b'}'] | [b'<', inside @ .., b'>'] | [b'"', inside @ .., b'"']
            if is_location(inside) => Operand::Word(inside),
        [b'*', name @ ..] if is_location(name) => Operand::Word(name),
        [b'&', name @ ..] if is_location(name) => Operand::Address(name),
        [.., b']'] | [.., b')'] => indexed_in(text),
        [first, ..] if first.is_ascii_alphabetic() && is_sum(text) => Operand::Computed,
        _ => Operand::Unknown,
    }
}

/// The word in memory at the address that stands in brackets.
fn address_in(inside: &[u8]) -> Operand<'_> {
    let inside = after_relative(after_sizes(inside.trim_ascii()));
    let inside = inside
        .strip_prefix(b"*")
        .or(inside.strip_prefix(b"&"))
        .unwrap_or(inside);
    let name = without_percent(inside);
    if is_location(inside) {
        Operand::Word(inside)
    } else if is_register(name) {
        Operand::Through(name)
    } else if is_sum(inside) {
        Operand::Computed
    } else {
        Operand::Unknown
    }
}

/// An address without the instruction pointer that it is counted from.
fn after_relative(address: &[u8]) -> &[u8] {
    let first = digits_and_letters(without_percent(address));
    let rest = last_bytes(address, address.len().saturating_sub(first.len())).trim_ascii_start();
    if is_one_of("REL ABS", first) {
        rest
    } else if is_one_of("RIP EIP", first) {
        rest.strip_prefix(b"+")
            .unwrap_or(address)
            .trim_ascii_start()
    } else {
        let sum = up_to(address, b'+');
        let last = after_byte(address, b'+').trim_ascii_start();
        if is_one_of("RIP EIP", last) {
            sum.trim_ascii_end()
        } else {
            address
        }
    }
}

/// The word in memory behind a name or a number, with an address in brackets after it.
fn indexed_in(text: &[u8]) -> Operand<'_> {
    let opening = if text.ends_with(b"]") { b'[' } else { b'(' };
    let before = up_to(text, opening).trim_ascii_end();
    let inside = after_byte(text, opening);
    let inside = without_percent(first_bytes(inside, inside.len().saturating_sub(1)));
    if is_location(before) && is_one_of("RIP EIP", inside) {
        Operand::Word(before)
    } else if before == b"0".as_slice() && is_location(inside) {
        Operand::Word(inside)
    } else if is_one_of("RIP EIP", inside) && is_location(up_to(before, b'@')) {
        linked_in(before)
    } else if !before.is_empty()
        && !before.ends_with(b"-")
        && !before.starts_with(b"%")
        && is_part_of_sum(before)
        && is_part_of_sum(inside)
    {
        Operand::Computed
    } else {
        Operand::Unknown
    }
}

/// What a name is with `@` and how it is linked: behind `GOTPCREL` an address is loaded.
fn linked_in(text: &[u8]) -> Operand<'_> {
    let name = up_to(text, b'@');
    if is_one_of("GOTPCREL", after_byte(text, b'@')) {
        Operand::Address(name)
    } else {
        Operand::Unknown
    }
}

/// Whether a text may be a part of an address that is computed: names, numbers and signs.
fn is_part_of_sum(text: &[u8]) -> bool {
    for byte in text {
        if !byte.is_ascii_alphanumeric() && !b"_+-*%, ".contains(byte) {
            return false;
        }
    }
    true
}

/// Whether a text is a sum of names and numbers, or AT&T's list of its parts.
fn is_sum(text: &[u8]) -> bool {
    // Between letters a hyphen may belong to a name.
    let has_minus = text.contains(&b'-') && !begins_with_letter(after_byte(text, b'-'));
    let has_sign = has_minus || text.contains(&b'+') || text.contains(&b'*');
    (has_sign || (text.contains(&b',') && text.contains(&b'%'))) && is_part_of_sum(text)
}
