//! What is said of an assignment in C, C++ or Rust that stands in a cell: the cells that do the same here.

use crate::c_forms::is_type;
use crate::faults::NO_ARRAYS;
use crate::line::{Filling, Line};
use crate::numbers::number_in;
use crate::quotes::{after_byte, first_word, is_all_digits, up_to, up_to_any};
use crate::statement::Statement;
use crate::tables::is_one_of;
use crate::target::{Target, say_copy, say_set, say_target};
use tso_terms::Reg;
use tso_terms::names::is_location_name;

const ADDRESS: &str =
    "{}: no register and no location can hold an address: leave the cell empty, and write [{}] in each instruction that uses it";

const COMPUTED: &str =
    "{}: write the number that it comes to, as MOV [x],$2 or MOV EAX,$2; or compute it in a register, as by ADD EAX,$1, with --instructions all";

const COMPUTED_OF_ALL: &str =
    "{}: write the number that it comes to, as MOV [x],$2 or MOV EAX,$2; or compute it in a register, as by ADD EAX,$1";

/// The location that an argument or a side of an assignment names, perhaps through a pointer.
pub fn location_in(text: &[u8]) -> Option<&[u8]> {
    let mut rest = text.trim_ascii();
    for _ in 0..4 {
        rest = rest
            .strip_prefix(b"*")
            .or(rest.strip_prefix(b"&"))
            .unwrap_or(without_brackets(rest))
            .trim_ascii();
    }
    let name = match rest {
        [b'[', inside @ .., b']'] => inside.trim_ascii(),
        _ => rest,
    };
    // What a local variable points to isn't known.
    if is_location_name(name) && !is_local(name) {
        Some(name)
    } else {
        None
    }
}

/// What stands in brackets, or behind a type in brackets.
fn without_brackets(text: &[u8]) -> &[u8] {
    let Some(after) = text.strip_prefix(b"(") else {
        return text;
    };
    if is_type(first_word(up_to_any(after, b")*"))) {
        after_byte(after, b')')
    } else {
        after.strip_suffix(b")").unwrap_or(text)
    }
}

/// Of an assignment without a call. Whether it is known what does the same.
pub fn says_assignment(line: &mut Line, statement: &Statement<'_>) -> bool {
    let (left, right) = (statement.left, statement.right);
    if let Some(target) = change_in(left, right) {
        say_change(line, statement.cell, target);
        return true;
    }
    if is_element(left) || is_element(right) {
        line.say_of(NO_ARRAYS, statement.cell);
        return true;
    }
    if let Some(name) = address_in(statement) {
        line.say_with(
            ADDRESS,
            &[Filling::Named(statement.cell), Filling::Shown(name)],
        );
        return true;
    }
    if says_event(line, statement) || says_pointed(line, statement) {
        return true;
    }
    let to = if statement.is_declared && is_location_name(left) {
        Side::Register(left)
    } else {
        place_in(left)
    };
    let target = match (to, place_in(right), number_in(value_in(right))) {
        (Side::Word(place), _, Some(number)) => Target::StoreNumber(place, number),
        (Side::Register(reg), _, Some(number)) => Target::SetNumber(reg, number),
        (Side::Word(place), Side::Register(reg), _) => Target::StoreRegister(place, reg),
        (Side::Register(reg), Side::Word(place), _) => Target::Load(reg, place),
        (Side::Register(reg), Side::Register(other), _) => Target::SetRegister(reg, other),
        (Side::Word(to), Side::Word(from), _) => {
            line.say_of("{}: write ", statement.cell);
            say_copy(line, to, from);
            return true;
        }
        _ => return says_computed(line, statement),
    };
    line.say_of("{}: write ", statement.cell);
    say_target(line, target);
    true
}

/// Of an access as papers write it, as `Wx=1` or `Rx=0`. Whether it is one.
fn says_event(line: &mut Line, statement: &Statement<'_>) -> bool {
    match (statement.left, number_in(statement.right)) {
        ([kind, name], Some(value)) => says_access(line, statement.cell, *kind, *name, value),
        _ => false,
    }
}

/// Of an access as papers write it without a sign, as `Wx1` or `Ry0`. Whether it is one.
pub fn says_short_event(line: &mut Line, cell: &[u8]) -> bool {
    match cell {
        [kind, name, digits @ ..] => match number_in(digits) {
            Some(value) => says_access(line, cell, *kind, *name, value),
            None => false,
        },
        _ => false,
    }
}

/// Of an access by its kind and the name of its location. Whether these are such.
fn says_access(line: &mut Line, cell: &[u8], kind: u8, name: u8, value: u32) -> bool {
    let name = [name];
    if !name[0].is_ascii_lowercase() || !b"WR".contains(&kind) {
        return false;
    }
    line.say_of("{}: write ", cell);
    if kind == b'W' {
        say_target(line, Target::StoreNumber(&name, value));
    } else {
        say_target(line, Target::Load(b"EAX", &name));
        line.say(", and ask for its value in the condition");
    }
    true
}

/// Of a word whose address a local variable holds. Whether one is.
fn says_pointed(line: &mut Line, statement: &Statement<'_>) -> bool {
    for side in [statement.left, statement.right] {
        if let Some(name) = side.strip_prefix(b"*")
            && is_local(name)
        {
            line.say_with(
                "{}: no register can hold an address: write the name of the location that {} points to, as MOV [x],$1 or MOV EAX,[x]",
                &[Filling::Named(statement.cell), Filling::Shown(name)],
            );
            return true;
        }
    }
    false
}

/// Whether a side of an assignment is an element of an array.
fn is_element(side: &[u8]) -> bool {
    side.ends_with(b"]") && is_location_name(up_to(side, b'['))
}

/// The location whose address a statement takes: by `&`, or by its name for a pointer that is declared.
fn address_in<'a>(statement: &Statement<'a>) -> Option<&'a [u8]> {
    let is_pointer = statement.is_declared && statement.left.starts_with(b"*");
    match statement.right.strip_prefix(b"&") {
        Some(name) if is_location_name(name) => Some(name),
        None if is_pointer && is_location_name(statement.right) => Some(statement.right),
        _ => None,
    }
}

/// Of an assignment of what names, numbers and signs come to. Whether it is one.
fn says_computed(line: &mut Line, statement: &Statement<'_>) -> bool {
    let is_known = !matches!(place_in(statement.left), Side::Other) && is_sum(statement.right);
    if is_known {
        let said = line.choose(COMPUTED, COMPUTED_OF_ALL);
        line.say_of(said, statement.cell);
    }
    is_known
}

/// Whether an expression has names, numbers and signs that compute.
fn is_sum(expression: &[u8]) -> bool {
    let mut has_sign = false;
    for byte in expression {
        if b"+-*/%^&|<>~!".contains(byte) {
            has_sign = true;
        } else if !byte.is_ascii_alphanumeric() && !b"_ ()".contains(byte) {
            return false;
        }
    }
    has_sign
}

/// The addition that an assignment as `x += 1` is, by what stands before `=` and behind it.
fn change_in<'a>(left: &'a [u8], right: &[u8]) -> Option<Target<'a>> {
    let (place, name) = match left {
        [place @ .., b'+'] => (place, "ADD"),
        [place @ .., b'-'] => (place, "SUB"),
        [place @ .., b'&'] => (place, "AND"),
        [place @ .., b'^'] => (place, "XOR"),
        _ => return None,
    };
    let Some(number) = number_in(right) else {
        return None;
    };
    match place_in(place.trim_ascii_end()) {
        Side::Register(reg) => Some(Target::CombineNumber(name, reg, number)),
        Side::Word(loc) if is_one_of("ADD", name.as_bytes()) => {
            Some(Target::AddNumber(loc, number))
        }
        Side::Word(loc) if is_one_of("SUB", name.as_bytes()) => Some(Target::AddNumber(
            loc,
            0u32.wrapping_sub(number),
        )),
        Side::Word(loc) => Some(Target::LockNumber(name, loc, number)),
        Side::Other => None,
    }
}

/// A side of an assignment.
#[derive(Clone, Copy)]
enum Side<'a> {
    Register(&'a [u8]),
    Word(&'a [u8]),
    Other,
}

/// What a side of an assignment is: names as `r0` are registers in tests in C.
fn place_in(side: &[u8]) -> Side<'_> {
    let name = side.strip_prefix(b"%").unwrap_or(side);
    if Reg::from_name(name).is_some() || is_local(name) {
        return Side::Register(name);
    }
    match location_in(side) {
        Some(name) => Side::Word(name),
        None => Side::Other,
    }
}

/// Whether a name is one of those that tests in C have for registers: `r` or `reg` and digits, or `tmp`.
fn is_local(name: &[u8]) -> bool {
    let digits = name
        .strip_prefix(b"reg")
        .or(name.strip_prefix(b"r"))
        .unwrap_or(name);
    (digits.len() < name.len() && is_all_digits(digits))
        || is_one_of("tmp temp ret res val old", name)
}

/// A value without the sign that stands before it in some languages.
fn value_in(text: &[u8]) -> &[u8] {
    text.strip_prefix(b"$")
        .or(text.strip_prefix(b"#"))
        .unwrap_or(text)
}

/// Says what a change is, as `x += 1`.
fn say_change(line: &mut Line, cell: &[u8], target: Target<'_>) {
    let is_in_register = matches!(target, Target::CombineNumber(..) | Target::Change(..));
    line.say_of(
        if is_in_register {
            "{}: write "
        } else {
            "{}: if it is one step, write "
        },
        cell,
    );
    say_target(line, target);
    say_set(line, target);
}

/// Of `x++` and of what is written like it. Whether a cell has that form.
pub fn says_step(line: &mut Line, cell: &[u8]) -> bool {
    let (place, is_less) = match cell {
        [place @ .., b'+', b'+'] => (place, false),
        [b'+', b'+', place @ ..] => (place, false),
        [place @ .., b'-', b'-'] => (place, true),
        [b'-', b'-', place @ ..] => (place, true),
        _ => return false,
    };
    let target = match place_in(place.trim_ascii()) {
        Side::Register(reg) => Target::Change(if is_less { "DEC" } else { "INC" }, reg),
        Side::Word(loc) => Target::AddNumber(loc, if is_less { u32::MAX } else { 1 }),
        Side::Other => return false,
    };
    say_change(line, cell, target);
    true
}
