//! What is said of registers that aren't read.

use crate::line::{Filling, Line};
use crate::near::near_word;
use crate::place::Place;
use crate::quotes::{
    after_byte, after_last, begins_with_letter, first_bytes, is_all_digits, last_bytes, token,
    up_to_any,
};
use crate::tables::{Alike, is_one_of, said_of};

const RENAMED_BY_IMPORT: &str =
    "{} is none of EAX, EBX, ECX, EDX, ESI, EDI: write one of these that the core doesn't use, as the tool import does";

const OTHER: &str =
    "{} is none of EAX, EBX, ECX, EDX, ESI, EDI: write one of these that the core doesn't use";

const OF_CORE: &str =
    "{} is none of EAX, EBX, ECX, EDX, ESI, EDI: write the register that stands for it in the core's rows, as EAX";

const NO_VECTORS: &str =
    "{}: there are no registers of vectors or of control: write one of EAX, EBX, ECX, EDX, ESI, EDI that the core doesn't use";

const PERCENT_AND_ADDRESS: &str =
    "%{}: a register is written without %, and it can hold no address here: leave the item out, and write the location's name in the instruction, as [x]";

/// The registers that are read.
const READ: &str = "EAX EBX ECX EDX ESI EDI";

/// Registers that the tool import renames.
const RENAMED: &str =
    "RAX RBX RCX RDX RSI RDI RBP EBP R8 R9 R10 R11 R12 R13 R14 R15 R8D R9D R10D R11D R12D R13D \
     R14D R15D";

/// Parts of registers, of 8 or 16 bits.
pub const NARROW: &str =
    "AL BL CL DL AH BH CH DH SIL DIL AX BX CX DX SI DI R8B R9B R10B R11B R8W R9W R10W R11W";

/// Whether a word is a register that the tool import renames, or has its location for it if it holds an address.
pub fn is_renamed(word: &[u8]) -> bool {
    is_one_of(RENAMED, word)
}

/// The registers that are read, by the names of all of each and of its parts.
static PARENTS: [Alike; 6] = [
    Alike("EAX RAX AX AL AH", "EAX"),
    Alike("EBX RBX BX BL BH", "EBX"),
    Alike("ECX RCX CX CL CH", "ECX"),
    Alike("EDX RDX DX DL DH", "EDX"),
    Alike("ESI RSI SI SIL", "ESI"),
    Alike("EDI RDI DI DIL", "EDI"),
];

/// The register that is read of which a word names all or a part.
pub fn parent_of(word: &[u8]) -> Option<&'static str> {
    said_of(&PARENTS, word)
}

/// Whether a word names a register, of those that are read or of others.
pub fn is_register(word: &[u8]) -> bool {
    parent_of(word).is_some()
        || is_renamed(word)
        || is_stack(word)
        || is_one_of(NARROW, word)
        || is_one_of("RIP EIP", word)
}

/// Whether a word names a register that no location is called by: of vectors, of segments or of control, or one of other processors.
pub fn is_special(word: &[u8]) -> bool {
    is_one_of("CS DS ES FS GS SS EFLAGS FLAGS", word) || is_numbered(word) || is_of_vectors(word)
}

/// Whether a word names a register of vectors or of control.
fn is_of_vectors(word: &[u8]) -> bool {
    let digits = after_front(word);
    digits.len() < word.len() && is_all_digits(digits)
}

/// Whether a word names a register by `r` and its number, as other processors and tests in C have them.
fn is_numbered(word: &[u8]) -> bool {
    match word {
        [b'r' | b'R', digits @ ..] => is_all_digits(digits),
        _ => false,
    }
}

/// What stands after the letters with which registers of vectors and of control begin, or all.
fn after_front(word: &[u8]) -> &[u8] {
    for letters in "XMM YMM ZMM MM CR DR ST".split(' ') {
        if first_bytes(word, letters.len()).eq_ignore_ascii_case(letters.as_bytes()) {
            return last_bytes(word, word.len().saturating_sub(letters.len()));
        }
    }
    word
}

/// Whether a word names a register whose address is one of the stack: its pointer, or where a function's part of it begins.
pub fn is_stack(word: &[u8]) -> bool {
    is_stack_pointer(word) || is_one_of("EBP RBP BP", word)
}

/// Whether a word names the stack's pointer.
pub fn is_stack_pointer(word: &[u8]) -> bool {
    is_one_of("ESP RSP SP", word)
}

/// The register that is read whose name these two words make together, if neither is empty.
pub fn register_of(first: &[u8], second: &[u8]) -> Option<&'static str> {
    for one in READ.split(' ') {
        let name = one.as_bytes();
        if !first.is_empty()
            && !second.is_empty()
            && first.len().saturating_add(second.len()) == name.len()
            && first_bytes(name, first.len()).eq_ignore_ascii_case(first)
            && last_bytes(name, second.len()).eq_ignore_ascii_case(second)
        {
            return Some(one);
        }
    }
    None
}

/// Whether a word is written almost as a register that is read.
pub fn is_near_register(word: &[u8]) -> bool {
    near_word(READ, word).is_some()
}

/// Says of a word that is written almost as a register that is read. Whether one is.
fn says_near(line: &mut Line, word: &[u8]) -> bool {
    let Some(meant) = near_word(READ, word) else {
        return false;
    };
    line.say_with(
        "{} is no register: write {}",
        &[Filling::Named(word), Filling::Text(meant)],
    );
    true
}

/// Says of a register behind `%` in the initial state or in a condition, where this stands after that sign. Whether one stands there.
pub fn says_percent(line: &mut Line, place: &Place<'_>, after: &[u8]) -> bool {
    let name = token(after);
    let Some(written) = parent_of(name) else {
        return false;
    };
    let value = after_byte(up_to_any(after, b";}/\\)\n"), b'=').trim_ascii();
    let has_core = after_last(place.before, b"{;(\n").contains(&b':');
    if begins_with_letter(value.strip_prefix(b"&").unwrap_or(value)) {
        line.say_of(PERCENT_AND_ADDRESS, name);
    } else {
        line.say_with(
            if has_core {
                "%{}: a register is written without %: {}"
            } else {
                "%{}: a register is written without %, after its core and a colon: 0:{}"
            },
            &[Filling::Shown(name), Filling::Text(written)],
        );
    }
    true
}

/// Says of a register in a row that isn't read. Whether a word is one.
pub fn says_register(line: &mut Line, word: &[u8]) -> bool {
    if says_part(line, word) {
        return true;
    }
    if is_of_vectors(word) {
        line.say_of(NO_VECTORS, word);
    } else if is_renamed(word) {
        line.say_of(RENAMED_BY_IMPORT, word);
    } else if is_stack(word) || is_other(word) || is_numbered(word) {
        line.say_of(OTHER, word);
    } else {
        return says_near(line, word);
    }
    true
}

/// Says of a register behind its core that isn't read: there other processors' registers and those of C may stand too, as `X0` and `r0`.
/// Whether a word is one.
pub fn says_register_of_core(line: &mut Line, word: &[u8]) -> bool {
    if says_part(line, word) {
        return true;
    }
    if is_one_of("EFLAGS FLAGS ZF CF SF OF PF", word) {
        line.say_of(
            "{}: there are no flags: leave it out, or take a register or a location, as 0:EAX=1 or x=1",
            word,
        );
    } else if is_of_vectors(word) {
        line.say_of(NO_VECTORS, word);
    } else if is_renamed(word) || is_stack(word) || is_other(word) || is_of_others(word) {
        line.say_of(OF_CORE, word);
    } else {
        return says_near(line, word);
    }
    true
}

/// Says of a register of which a word names a part of 8 or 16 bits, or which has 64. Whether it names one.
fn says_part(line: &mut Line, word: &[u8]) -> bool {
    let Some(parent) = parent_of(word) else {
        return false;
    };
    let sentence = if is_one_of(NARROW, word) {
        "{} is a part of {}: if the whole register will do, write {}"
    } else if is_one_of(parent, word) {
        return false;
    } else {
        "{} has 64 bits, and registers have 32 here: {} stands for it, write {}"
    };
    line.say_with(
        sentence,
        &[
            Filling::Named(word),
            Filling::Text(parent),
            Filling::Text(parent),
        ],
    );
    true
}

fn is_other(word: &[u8]) -> bool {
    is_one_of(NARROW, word) || is_one_of("RIP EIP EFLAGS FLAGS ZF CF SF", word)
}

/// Whether a word names a register by a letter and its number, or a variable, as other processors and tests in C have them.
pub fn is_of_others(word: &[u8]) -> bool {
    match word {
        [b'r' | b'R' | b'x' | b'X' | b'w' | b'W', digit, ..] => digit.is_ascii_digit(),
        _ => is_one_of("reg tmp ret", word),
    }
}
