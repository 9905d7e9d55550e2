//! What is said of C in the rows of a test: of types, and of accesses by functions, by methods and through pointers.

use crate::instructions::{
    ADDITION, COMPARE_AND_EXCHANGE, COMPARE_AND_EXCHANGE_OF_ALL, EXCHANGE, FORMS, LOAD, OTHERS,
    STORE,
};
use crate::line::Line;
use crate::place::Place;
use crate::quotes::{begins_with_letter, has, last_bytes, last_word, token};
use crate::tables::{Alike, is_exactly_one_of, is_one_of, said_of, said_of_front};
use tso_terms::names::is_location_name;

/// Types of variables, and what is with them.
const TYPES: &str =
    "int char short long unsigned signed volatile const struct static auto bool atomic_int \
     _Atomic";

/// By how its name begins, a function of C's that accesses a location.
static CALLS: [Alike; 6] = [
    Alike("atomic_store_explicit", STORE),
    Alike(
        "atomic_store __atomic_store smp_store_mb",
        "{} isn't read: a store is MOV [x],$1; where it is sequentially consistent, MFENCE stands in the next cell",
    ),
    Alike("WRITE_ONCE smp_store store_release", STORE),
    Alike(
        "atomic_load __atomic_load READ_ONCE smp_load load_acquire",
        LOAD,
    ),
    Alike(
        "atomic_exchange __atomic_exchange __sync_lock_test_and_set atomic_xchg",
        EXCHANGE,
    ),
    Alike(
        "atomic_fetch_add __atomic_fetch_add __sync_fetch_and_add atomic_add atomic_inc",
        ADDITION,
    ),
];

/// The methods of an atomic variable in C++.
static METHODS: [Alike; 4] = [
    Alike("store", STORE),
    Alike("load", LOAD),
    Alike("exchange", EXCHANGE),
    Alike("fetch_add", ADDITION),
];

/// What is said of what holds back the compiler alone.
pub const COMPILER: &str =
    "{}: leave it out: it holds back the compiler alone; the fence of the processor is MFENCE";

const ADDRESS_OF: &str =
    "&{}: a location is written [x] in an instruction: a store is MOV [x],$1, a load MOV EAX,[x]; no register can hold an address";

/// Whether a word is a type of C's, or is with one.
pub fn is_type(word: &[u8]) -> bool {
    is_one_of(TYPES, word) || (word.ends_with(b"_t") && is_location_name(word))
}

/// Whether a function of C's by this name accesses a location.
pub fn is_call(name: &[u8]) -> bool {
    said_of_front(&CALLS, name).is_some() || name.starts_with(b"std")
}

/// What is said of a word with which an access or a fence begins in another language, if it is one.
pub fn said_of_access(name: &[u8]) -> Option<&'static str> {
    said_of(&OTHERS, name).or(said_of_front(&CALLS, name))
}

/// The same for someone who asks for these instructions.
pub fn told_of_access(line: &Line, name: &[u8]) -> Option<&'static str> {
    if is_one_of("CAS compare_and_swap", name) {
        return Some(told_of_compare(line));
    }
    said_of_access(name)
}

/// What is said of a compare with an exchange.
pub fn told_of_compare(line: &Line) -> &'static str {
    line.choose(COMPARE_AND_EXCHANGE, COMPARE_AND_EXCHANGE_OF_ALL)
}

/// What is said of a function by its name, if it is an access or a fence. An instruction has the same form here.
pub fn said_of_function(name: &[u8]) -> Option<&'static str> {
    said_of_access(name).or(said_of(&FORMS, name))
}

/// Of assembly in a statement of C.
pub fn said_of_assembly(cell: &[u8]) -> &'static str {
    let is_fence = has(cell, b"\"mfence") || (has(cell, b"lock") && has(cell, b"sp)"));
    if cell.ends_with(b"lock") {
        "{}: LOCK and its instruction stand in one cell, without ; and quotation marks: LOCK XADD [x],EAX; what locks a word of the stack is a fence: MFENCE"
    } else if cell.contains(&b'{') {
        "{}: write each instruction in the braces into a cell of its own, as MOV [x],$1 or MOV EAX,[x]"
    } else if has(cell, b"mov") || has(cell, b"xchg") || has(cell, b"xadd") {
        "{}: write each instruction in the quotation marks into a cell of its own, as MOV [x],$1 or MOV EAX,[x]"
    } else if is_fence {
        "{}: write MFENCE"
    } else if has(cell, b"pause")
        || has(cell, b"nop")
        || has(cell, b"\"lfence")
        || has(cell, b"\"sfence")
    {
        "{}: leave it out: it changes no final state"
    } else if has(cell, b"\"\"") || has(cell, b"fence") {
        COMPILER
    } else {
        "{}: write the instruction in the quotation marks alone, as MOV [x],$1 or MOV EAX,[x]"
    }
}

/// Says of a method, at the point before its name. Whether one is there.
pub fn says_method(line: &mut Line, place: &Place<'_>) -> bool {
    let name = token(after_first(place.rest));
    let after = last_bytes(
        place.rest,
        place
            .rest
            .len()
            .saturating_sub(1)
            .saturating_sub(name.len()),
    );
    let said = match said_of(&METHODS, name) {
        Some(said) => said,
        None if after.trim_ascii_start().starts_with(b"(") => line.choose(
            "{} isn't read: a cell is a store MOV [x],$1, a load MOV EAX,[x], a fence MFENCE, XCHG [x],EAX or LOCK XADD [x],EAX",
            "{} isn't read: a cell is an instruction, as a store MOV [x],$1, a load MOV EAX,[x] or a fence MFENCE",
        ),
        None => return false,
    };
    line.say_of(said, name);
    true
}

/// Says of an address that is taken by `&`: of the function that gets it, where one does. Whether a location comes after the
/// sign, and what may come before an operand before it.
pub fn says_address_of(line: &mut Line, place: &Place<'_>) -> bool {
    let name = token(after_first(place.rest));
    if !begins_with_letter(name) || !may_begin_operand(place.last_word) {
        return false;
    }
    let function = match place.before.trim_ascii_end().strip_suffix(b"(") {
        Some(before) => last_word(before),
        None => b"".as_slice(),
    };
    match said_of_function(function) {
        Some(said) => line.say_of(said, function),
        None => line.say_of(ADDRESS_OF, name),
    }
    true
}

/// Whether an operand may come after a word or a sign.
fn may_begin_operand(last: &[u8]) -> bool {
    is_exactly_one_of("( , = [ | ;", last) || said_of(&FORMS, last).is_some()
}

/// All but the first byte.
fn after_first(text: &[u8]) -> &[u8] {
    last_bytes(text, text.len().saturating_sub(1))
}
