//! What is said of a fault in the initial state: forms of other programs have the form that stands for them here.

use crate::c_forms::is_type;
use crate::characters::says_foreign_in;
use crate::faults::{
    ADDRESS, NO_ARRAYS, NO_VALUE, WORD_OF_CONDITIONS, line_of_initial_state, says_digit_first,
};
use crate::keywords::is_instruction;
use crate::line::{Filling, Line};
use crate::place::Place;
use crate::points::{CORE_AND_REGISTER, is_of_core};
use crate::quotes::{
    after_byte, after_last, begins_with_letter, digits_and_letters, is_all_digits, is_bare,
    is_row_of_cores, token, up_to, up_to_any,
};
use crate::region::{Region, region_of};
use crate::registers::{is_of_others, is_register, is_renamed, says_register_of_core};
use crate::signs::is_core;
use crate::tables::{is_exactly_one_of, is_one_of};
use tso_terms::names::{is_location_name, is_name};

/// Keys of information as other programs write it above the initial state.
pub const KEYS: &str =
    "Cycle Generator Prefetch Com Orig Relax Safe Hash Align Unroll Timeout Variant Kind";

const ITEM: &str = "{} doesn't fit: an item is x=1, [x]=1 or 0:EAX=1, and ; stands between items";

const ADDRESS_ALONE: &str =
    "{}: no register can hold an address here: leave the item out, and write the location's name in the instruction, as [x]";

const LOCATION: &str =
    "{}: a location begins with a number, as x=1: it can hold no address, and not what another one has";

/// Of an item of the initial state.
pub fn bad_init(line: &mut Line, place: &Place<'_>) {
    let last = place.last_word;
    if is_in_row_of_cores(place) {
        return line.say_with(
            "no } closes the { of line {}",
            &[Filling::Number(line_of_initial_state(place.text))],
        );
    }
    if says_digit_first(line, place) {
        return;
    }
    if is_instruction(last) {
        return line.say_of(
            "{} begins an instruction: it stands in a row, below P0 | P1 ; and behind the } of the initial state",
            last,
        );
    }
    if is_type(last) && place.after_token().starts_with(b"[") {
        return line.say_of(NO_ARRAYS, b"[");
    }
    if is_type(last) {
        return line.say_of(
            "{} is a type, and items have no types here: leave it out; if the item has no value, leave out the whole item, since 0 is its value",
            last,
        );
    }
    if says_address_in_register(line, place) || says_foreign_register(line, place) {
        return;
    }
    if lacks_value(place) {
        line.say_of(
            "{} has no value: write x=1 or 0:EAX=1, or leave the item out, since 0 is its value",
            last,
        );
    } else if begins_name(place.token) {
        line.say_of(misplaced_name(place), place.token);
    } else {
        line.say_of(misfit(place), place.number_or_token());
    }
}

/// Says of a line of information that stands in the initial state. Whether a place stands in one.
pub fn says_information(line: &mut Line, place: &Place<'_>) -> bool {
    let row = place.whole_line();
    let key = up_to(row, b'=').trim_ascii();
    let is_inside = matches!(region_of(place), Region::Initial)
        && !row.contains(&b';')
        && key.len() < row.trim_ascii().len()
        && is_exactly_one_of(KEYS, key);
    if is_inside {
        line.say_of(
            "{}= begins a line of information: it stands above the {, or is left out",
            key,
        );
    }
    is_inside
}

/// Whether a token begins as names do.
fn begins_name(token: &[u8]) -> bool {
    begins_with_letter(token) || token.starts_with(b"_")
}

/// Whether an item ends at a place behind a name.
fn lacks_value(place: &Place<'_>) -> bool {
    let last = place.last_word;
    (place.rest.starts_with(b";") || place.rest.starts_with(b"}"))
        && (is_bare(last) || is_exactly_one_of("]", last))
}

/// Whether a place is in the row of cores, which the end of the initial state has to come before.
fn is_in_row_of_cores(place: &Place<'_>) -> bool {
    (place.rest.starts_with(b"|") && is_core(place.last_word))
        || is_row_of_cores(place.whole_line())
}

/// What is said of a token that doesn't fit, and is no name.
fn misfit(place: &Place<'_>) -> &'static str {
    let last = place.last_word;
    let after_equals = is_exactly_one_of("=", last);
    let is_digit = is_all_digits(place.token);
    let after_name = is_location_name(last) || is_exactly_one_of("]", last);
    match place.token.first() {
        Some(_) if is_of_core(place) => CORE_AND_REGISTER,
        Some(b'|') if is_all_digits(last) => "{}: write ; between items, as x=1; y=1",
        Some(b';' | b'}') if after_equals => {
            "no number stands before {}: write one, as x=1, or leave the item out, since 0 is its value"
        }
        Some(b'=') if after_equals => "{}: write one = between a name and its number, as x=1",
        Some(b':') if is_all_digits(last) => "{}: an item has one number behind =, as 0:EAX=1",
        Some(b':') if after_name => "{}: write = between a name and its number, as x=1",
        Some(_) if is_digit && after_name => "{}: write = between a name and its number, as x=1",
        Some(_) if is_digit && is_all_digits(last) => {
            "no ; stands before {}: write ; between items, as x=1; 0:EAX=1"
        }
        Some(b',') => "{}: write ; between items, as x=1; y=1",
        Some(b'$') if !begins_name(place.after_token()) => {
            "{}: a number stands without $ in the initial state, as x=1"
        }
        Some(b'$') if is_of_register(place) => {
            "{} begins an address: no register can hold one here: leave the item out, and write the location's name in the instruction, as [x]"
        }
        Some(b'[') if after_equals => ADDRESS,
        Some(b'[') if after_name => NO_ARRAYS,
        Some(b'{') if after_equals => NO_ARRAYS,
        Some(b'(') if is_one_of("PTE TLB", last) => {
            "{} stands behind a word for page tables, and there are none here: leave out the whole item"
        }
        Some(b'(' | b'{') => "{}: leave out the brackets: an item is x=1, [x]=1 or 0:EAX=1",
        _ => ITEM,
    }
}

/// What is said of a name that doesn't fit.
fn misplaced_name(place: &Place<'_>) -> &'static str {
    let (token, last) = (place.token, place.last_word);
    let is_register = is_register(token);
    if is_exactly_one_of("=", last) {
        if place.after_token().starts_with(b"=") {
            "{}: each name has an item of its own: write x=1; y=1"
        } else if is_register || is_no_number(token) {
            NO_VALUE
        } else {
            said_of_address(place)
        }
    } else if is_all_digits(last) && is_one_of("and", token) {
        "{}: write ; between items in its place, as x=1; y=1"
    } else if is_all_digits(last) && is_register && !has_value(place) {
        "no colon stands before {}: a register is written after its core and a colon, as 0:EAX=1"
    } else if is_all_digits(last) {
        "no ; stands before {}: write ; between items, as x=1; y=1"
    } else if is_one_of("let var mut", last) {
        "an item is its name, = and a number: leave out what stands before {}, as x=1"
    } else if is_one_of("dd dw db dq resd", token) {
        "{} is an assembler's word: an item is x=1"
    } else if is_register {
        "{}: a register is written after its core and a colon, as 0:EAX=1; a location needs another name"
    } else if is_name(token) && !is_location_name(token) {
        WORD_OF_CONDITIONS
    } else {
        ITEM
    }
}

/// Whether the number before a place is the value of an item.
fn has_value(place: &Place<'_>) -> bool {
    after_last(place.before, b"{;").contains(&b'=')
}

/// Whether a word stands for a value in other languages, and is no number.
pub fn is_no_number(word: &[u8]) -> bool {
    is_one_of("true false null nil none nullptr", word)
}

/// What is said of an address as the value of the item in which a place stands: in other programs a register may hold one.
fn said_of_address(place: &Place<'_>) -> &'static str {
    if is_of_register(place) {
        ADDRESS
    } else {
        LOCATION
    }
}

/// The name that is the value of the item in which a place stands, perhaps behind `&`; or no bytes.
fn name_as_value<'a>(place: &Place<'a>) -> &'a [u8] {
    let value = after_byte(up_to_any(place.rest, b";}\n"), b'=').trim_ascii_start();
    let name = digits_and_letters(value.strip_prefix(b"&").unwrap_or(value));
    if begins_name(name) { name } else { &[] }
}

/// Of `&` or `*` in an item.
pub fn bad_pointer(line: &mut Line, place: &Place<'_>) {
    let is_first = is_one_of("{ ;", place.last_word);
    let named = match place.rest.split_first() {
        Some((b'&', after)) if !is_first => digits_and_letters(after),
        _ => name_as_value(place),
    };
    if is_all_digits(place.last_word) {
        line.say_of("{}: write ; between items, as x=1; y=1", place.token);
    } else if named.is_empty() {
        line.say_of("{}: leave it out: an item is x=0", place.token);
    } else if is_of_register(place) {
        line.say_of(ADDRESS_ALONE, named);
    } else {
        line.say_of(LOCATION, named);
    }
}

/// Whether the item in which a place stands is of a register.
fn is_of_register(place: &Place<'_>) -> bool {
    after_last(place.before, b"{;").contains(&b':')
}

/// Says of a location's address in a register of another name. Whether one is there.
fn says_address_in_register(line: &mut Line, place: &Place<'_>) -> bool {
    let value = name_as_value(place);
    let is_known = is_renamed(place.token);
    let is_address = is_exactly_one_of(":", place.last_word)
        && (is_known || is_of_others(place.token))
        && is_location_name(value)
        && !is_no_number(value);
    if is_address {
        line.say_of(if is_known { ADDRESS } else { ADDRESS_ALONE }, value);
    }
    is_address
}

/// Says of a register of another form: of one that isn't read, of a location after a core, or of the `P` of its core. Whether one
/// is there.
pub fn says_foreign_register(line: &mut Line, place: &Place<'_>) -> bool {
    let last = place.last_word;
    let written = up_to_any(place.rest, b" =;)}\n");
    if is_exactly_one_of(":", last) && begins_with_letter(place.rest) {
        let is_said = says_foreign_in(line, place, written, "write the register's name in ASCII");
        if !is_said && !says_register_of_core(line, place.token) {
            line.say_of(
                "{} is none of EAX, EBX, ECX, EDX, ESI, EDI; a location stands without a core, as x=1",
                place.token,
            );
        }
        true
    } else if place.rest.starts_with(b":") && last.starts_with(b"P") {
        line.say_of("{}: a core is its number alone here, as in 0:EAX", last);
        true
    } else {
        false
    }
}
