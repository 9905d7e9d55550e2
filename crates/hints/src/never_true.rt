//! Two atoms of a condition, joined by `/\`, that ask one place for two values: no state makes both true, whatever the programs do.
//! Mostly one of two values is meant.

use crate::body::is_name;
use crate::cause::Cause;
use crate::line::{Filling, Line};
use crate::quotes::first_bytes;
use crate::unused::place_in;
use litmus_tokens::{Lexeme, Symbol, Token, word};
use tso_terms::{Core, Prop, Reg, Test};

const NEVER: &str = " is never true: two values of one place are joined by \\/";

/// Says that a place can't have both of these values: its name is so many bytes of an input, after so many others, and a
/// register's comes after its core.
pub fn never_both(
    line: &mut Line,
    input: &[u8],
    name: (usize, usize),
    register: Option<(Core, Reg)>,
    values: (u32, u32),
) {
    let (first, length) = name;
    let place = place_in(input, first);
    let name = first_bytes(place.rest, length);
    line.say_number("line {}: ", place.line());
    say_atom(line, register, name, values.0);
    line.say(" /\\ ");
    say_atom(line, register, name, values.1);
    line.say(NEVER);
}

/// A place and one of its values.
fn say_atom(line: &mut Line, register: Option<(Core, Reg)>, name: &[u8], value: u32) {
    match register {
        Some((core, reg)) => line.say_with(
            "{}:{}",
            &[
                Filling::Number(usize::from(core.0)),
                Filling::Text(reg.name()),
            ],
        ),
        None => line.say_with("{}", &[Filling::Shown(name)]),
    }
    line.say_number("={}", value as usize);
}

/// The first atom of a proposition that another one, joined to it by `/\`, contradicts, with that one's value.
pub fn contradicted(prop: &Prop) -> Option<(&Prop, u32)> {
    match prop {
        Prop::Truth(_) | Prop::RegIs(..) | Prop::LocIs(..) => None,
        Prop::Not(inner) => contradicted(inner),
        Prop::And(left, right) => contradicted_by(left, right)
            .or(contradicted(left))
            .or(contradicted(right)),
        Prop::Or(left, right) => contradicted(left).or(contradicted(right)),
    }
}

/// The first atom that a proposition asks for in any case, and that this one contradicts, with that one's value.
fn contradicted_by<'a>(prop: &'a Prop, other: &Prop) -> Option<(&'a Prop, u32)> {
    match prop {
        Prop::Truth(_) | Prop::Not(_) | Prop::Or(..) => None,
        Prop::RegIs(..) | Prop::LocIs(..) => match other_value(prop, other) {
            Some(value) => Some((prop, value)),
            None => None,
        },
        Prop::And(left, right) => contradicted_by(left, other).or(contradicted_by(right, other)),
    }
}

/// The first value that a proposition asks in any case for an atom's place, and that isn't the atom's.
fn other_value(atom: &Prop, prop: &Prop) -> Option<u32> {
    match prop {
        Prop::Truth(_) | Prop::Not(_) | Prop::Or(..) => None,
        Prop::RegIs(..) | Prop::LocIs(..) => value_beside(atom, prop),
        Prop::And(left, right) => other_value(atom, left).or(other_value(atom, right)),
    }
}

/// The value of the second of two atoms, where both have one place and different values.
fn value_beside(atom: &Prop, other: &Prop) -> Option<u32> {
    match (atom, other) {
        (Prop::RegIs(core, reg, one), Prop::RegIs(core_beside, reg_beside, two))
            if core.0 == core_beside.0 && reg.index() == reg_beside.index() && one != two => {
            Some(*two)
        }
        (Prop::LocIs(loc, one), Prop::LocIs(loc_beside, two))
            if loc.0 == loc_beside.0 && one != two => { Some(*two) }
        _ => None,
    }
}

/// That an atom of a condition is contradicted by one with this value, where these tokens of the test's text spell the condition.
pub fn cause_of(
    test: &Test,
    text: &[u8],
    condition: &[Token<'_>],
    atom: &Prop,
    other: u32,
) -> Option<Cause> {
    for at in 0..condition.len() {
        if let Some((register, one)) = asked_at(test, condition, at, atom)
            && let Lexeme::Name(name) = condition[at].lexeme
        {
            return Some(Cause::NeverTrue {
                first: text.len().saturating_sub(condition[at].remaining),
                length: name.len(),
                register,
                values: (one, other),
            });
        }
    }
    None
}

/// The register of an atom, if it has one, and its value, where this token names its place.
fn asked_at(
    test: &Test,
    tokens: &[Token<'_>],
    at: usize,
    atom: &Prop,
) -> Option<(Option<(Core, Reg)>, u32)> {
    match atom {
        Prop::RegIs(core, reg, value) if names_register(tokens, at, *core, *reg) => {
            Some((Some((*core, *reg)), *value))
        }
        Prop::LocIs(loc, value)
            if loc.0 < test.locations()
                && at < tokens.len()
                && is_name(&tokens[at], test.location_name(*loc).as_bytes()) => {
            Some((None, *value))
        }
        _ => None,
    }
}

/// Whether a core's number, a colon and a register's name end with this token.
fn names_register(tokens: &[Token<'_>], at: usize, core: Core, reg: Reg) -> bool {
    match tokens.split_at(at.saturating_add(1).min(tokens.len())).0 {
        [.., number, colon, name] => match (number.lexeme, colon.lexeme, name.lexeme) {
            (Lexeme::Number(digits), Lexeme::Symbol(Symbol::Colon), Lexeme::Name(name)) => {
                matches!(word(digits), Some(found) if found == u32::from(core.0))
                    && matches!(Reg::from_name(name), Some(found) if found.index() == reg.index())
            }
            _ => false,
        },
        _ => false,
    }
}
