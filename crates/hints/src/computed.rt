//! What is said of arithmetic and of a compare with an exchange in an assembler's language: the cells that do the same here.

use crate::assembled::{Order, Pair};
use crate::larger_set::{Source, say_lock_or_three};
use crate::line::Line;
use crate::mnemonics::larger_of;
use crate::moves::{
    Location, STACK, location_of, say_cell, say_cell_alone, says_locked_fence, says_no_place,
};
use crate::operand::Operand;
use crate::registers::{is_stack_pointer, parent_of};
use crate::tables::is_one_of;
use crate::target::{Target, say_set};

/// Of an instruction that combines two words, as ADD does. Whether it is known what does the same.
pub fn says_combined(line: &mut Line, pair: &Pair<'_>) -> bool {
    let Some(name) = larger_of(pair.name) else {
        return false;
    };
    if pair.is_locked && says_locked_fence(line, pair) {
        return true;
    }
    match location_of(pair.to) {
        Some(to) if pair.is_locked => says_locked(line, pair, name, to),
        Some(to) => says_apart(line, pair, name, to),
        None => says_in_register(line, pair, name),
    }
}

/// Of one that is locked. Whether it is known what does the same.
fn says_locked(line: &mut Line, pair: &Pair<'_>, name: &'static str, to: Location<'_>) -> bool {
    let target = match pair.from {
        Operand::Number(value) => Target::LockNumber(name, to.name, value),
        Operand::Register(reg) if !is_stack_pointer(reg) => {
            Target::LockRegister(name, to.name, reg)
        }
        Operand::Word(from) | Operand::Bare(from) => Target::LockLocation(name, to.name, from),
        _ => return false,
    };
    say_cell(line, pair, to.holder, target);
    true
}

/// Of one in a location that isn't locked. Whether all of it is known.
fn says_apart(line: &mut Line, pair: &Pair<'_>, name: &'static str, to: Location<'_>) -> bool {
    let source = match pair.from {
        Operand::Number(value) => Source::Number(value),
        Operand::Register(reg) => match parent_of(reg) {
            Some(parent) => Source::Register(parent),
            None => return false,
        },
        _ => return false,
    };
    let is_known = !matches!(pair.order, Order::Mixed) && is_of_words(pair, to);
    if is_known {
        say_lock_or_three(line, pair.cell, name, to.name, source);
    }
    is_known
}

/// Whether an instruction is of words of 32 bits, and its location's name is known.
fn is_of_words(pair: &Pair<'_>, to: Location<'_>) -> bool {
    !pair.is_narrow && !pair.is_wide && to.holder.is_empty()
}

/// Of one in a register, which may set it to 0 by itself. Whether it is known what does the same.
fn says_in_register(line: &mut Line, pair: &Pair<'_>, name: &'static str) -> bool {
    let Operand::Register(reg) = pair.to else {
        return says_no_place(line, pair);
    };
    let place = location_of(pair.from);
    let none = b"".as_slice();
    let (holder, target) = match (pair.from, place) {
        _ if is_stack_pointer(reg) => {
            line.say_of(STACK, pair.cell);
            return true;
        }
        (_, Some(from)) if !pair.is_locked && !matches!(pair.order, Order::Mixed) => {
            (from.holder, Target::CombineLocation(name, reg, from.name))
        }
        (Operand::Number(value), _) => (none, Target::CombineNumber(name, reg, value)),
        (Operand::Register(other), _) if is_zero(name, reg, other) => {
            (none, Target::SetNumber(reg, 0))
        }
        (Operand::Register(other), _) if !is_stack_pointer(other) => {
            (none, Target::CombineRegister(name, reg, other))
        }
        (_, Some(_)) => return false,
        _ => return says_no_place(line, pair),
    };
    say_without_lock(line, pair, holder, target);
    true
}

/// Says a cell with a register, before which no LOCK can stand.
fn say_without_lock(line: &mut Line, pair: &Pair<'_>, holder: &[u8], target: Target<'_>) {
    say_cell_alone(line, pair, holder, target);
    if pair.is_locked {
        line.say("; LOCK can't stand before it");
    }
    say_set(line, target);
}

/// Whether an instruction of this name sets a register to 0.
fn is_zero(name: &str, reg: &[u8], other: &[u8]) -> bool {
    reg.eq_ignore_ascii_case(other) && is_one_of("XOR SUB", name.as_bytes())
}

/// Of an instruction that changes one word, as INC does. Whether it is known what does the same.
pub fn says_changed(line: &mut Line, pair: &Pair<'_>) -> bool {
    let Some(name) = larger_of(pair.name) else {
        return false;
    };
    match (location_of(pair.to), pair.to) {
        (Some(to), _) if pair.is_locked => {
            say_cell(line, pair, to.holder, Target::LockAlone(name, to.name));
        }
        (Some(to), _) => {
            let is_known = is_of_words(pair, to);
            if is_known {
                say_lock_or_three(line, pair.cell, name, to.name, Source::None);
            }
            return is_known;
        }
        (None, Operand::Register(reg)) if !is_stack_pointer(reg) => {
            say_without_lock(line, pair, &[], Target::Change(name, reg));
        }
        _ => return says_no_place(line, pair),
    }
    true
}

/// Of a compare with an exchange. Whether it is known what does the same.
pub fn says_compare_exchange(line: &mut Line, pair: &Pair<'_>) -> bool {
    let (place, other) = match location_of(pair.to) {
        Some(to) => (Some(to), pair.from),
        None => (location_of(pair.from), pair.to),
    };
    let Some(place) = place else {
        return says_no_place(line, pair);
    };
    let target = match other {
        Operand::Register(reg) if !is_stack_pointer(reg) => {
            Target::CompareExchange(place.name, reg)
        }
        Operand::Number(value) => Target::CompareExchangeNumber(place.name, value),
        _ => return false,
    };
    say_cell_alone(line, pair, place.holder, target);
    if !pair.is_locked {
        line.say("; without LOCK it isn't read");
    }
    line.say_option();
    true
}
