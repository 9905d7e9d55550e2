//! A register or a location that a condition names, and that no instruction writes: it keeps its initial value, so what is
//! asked of it is settled before any run, and the answer says little. Probably another one is meant.

ghost use Rattle.std.specs.Prelude.{◌<◌, IfSome, length};

use crate::cause::Cause;
use crate::line::{Filling, Line};
use crate::quotes::first_bytes;
use crate::unused::{location_named, place_in};
use litmus_tokens::{
    Instructions, Lexeme, Symbol, Token, is_symbol, numeral_at, token_at, word, word_at,
};
use tso_terms::{Action, Change, Core, Loc, Prop, Reg, Test};

/// Says that a register, which comes after so many bytes of an input, keeps this value.
pub fn keeps_register(line: &mut Line, input: &[u8], first: usize, named: (Core, Reg), value: u32) {
    let (core, reg) = named;
    let core = Filling::Number(usize::from(core.0));
    line.say_with(
        "line {}: the condition names {}:{}, which no instruction of core {} writes: it stays {}",
        &[
            Filling::Number(place_in(input, first).line()),
            core,
            Filling::Text(reg.name()),
            core,
            Filling::Number(value as usize),
        ],
    );
}

/// Says that a location, whose name is so many bytes of an input, after so many others, keeps this value.
pub fn keeps_location(line: &mut Line, input: &[u8], first: usize, length: usize, value: u32) {
    let place = place_in(input, first);
    line.say_with(
        "line {}: the condition names {}, which no instruction writes: it stays {}",
        &[
            Filling::Number(place.line()),
            Filling::Named(first_bytes(place.rest, length)),
            Filling::Number(value as usize),
        ],
    );
}

/// Whether a proposition names a register or a location that no instruction writes.
pub fn names_unwritten(test: &Test, prop: &Prop) -> bool {
    match prop {
        Prop::Truth(_) => false,
        Prop::RegIs(core, reg, _) => {
            core.0 >= test.cores() || !writes_register(test, *core, *reg)
        }
        Prop::LocIs(loc, _) => !writes_location(test, *loc),
        Prop::Not(inner) => names_unwritten(test, inner),
        Prop::And(left, right) | Prop::Or(left, right) => {
            names_unwritten(test, left) || names_unwritten(test, right)
        }
    }
}

/// The first register that no instruction of its core writes, of the condition of a test, which is a part of this text and
/// has these tokens; else the first location that keeps another value than is asked.
pub fn first_unwritten(
    test: &Test,
    text: &[u8],
    condition: &[u8],
    tokens: &[Token<'_>],
) -> Option<Cause> {
    match first_register(test, text, condition) {
        Some(cause) => Some(cause),
        None => first_location(test, text, tokens),
    }
}

fn first_register(test: &Test, text: &[u8], condition: &[u8]) -> Option<Cause> {
    let mut rest = condition;
    'tokens: while let Ok((token, after)) = token_at(Instructions::All, rest) {
        if let Lexeme::Number(digits) = token.lexeme
            && let Some((core, reg)) = register_of(test, digits, after)
            && !writes_register(test, core, reg)
        {
            return Some(Cause::UnwrittenRegister {
                first: text.len().saturating_sub(token.remaining),
                core,
                reg,
                value: test.initial_register(core, reg),
            });
        }
        rest = after;
    }
    None
}

/// The register of the core of the test with this number, where a colon and its name come next.
fn register_of(test: &Test, digits: &[u8], rest: &[u8]) -> Option<(Core, Reg)>
    ensures { IfSome result (λ found. found.0.0 < length test.now.programs) }
{
    let Ok((colon, rest)) = token_at(Instructions::All, rest) else {
        return None;
    };
    let Ok((name, _)) = token_at(Instructions::All, rest) else {
        return None;
    };
    let (Lexeme::Symbol(Symbol::Colon), Lexeme::Name(name)) = (colon.lexeme, name.lexeme) else {
        return None;
    };
    match (word(digits), Reg::from_name(name)) {
        (Some(core), Some(reg)) if core < u32::from(test.cores()) => Some((Core(core as u8), reg)),
        _ => None,
    }
}

fn first_location(test: &Test, text: &[u8], condition: &[Token<'_>]) -> Option<Cause> {
    for at in 1..condition.len() {
        if is_symbol(Symbol::Equals, &condition[at])
            && let Some((name, remaining)) = name_ending_at(condition, at - 1)
            && let Some(loc) = location_named(test, name)
            && !is_asked(condition, at, test.initial_word(loc))
            && !writes_location(test, loc)
        {
            return Some(Cause::UnwrittenLocation {
                first: text.len().saturating_sub(remaining),
                length: name.len(),
                value: test.initial_word(loc),
            });
        }
    }
    None
}

/// The name that a location's form ends with there, as `x` or `[x]`, and how many bytes stand from it on.
fn name_ending_at<'a>(tokens: &[Token<'a>], at: usize) -> Option<(&'a [u8], usize)> {
    for back in 0..2 {
        match tokens.get(at.saturating_sub(back)) {
            Some(token) => match token.lexeme {
                Lexeme::Name(name) => return Some((name, token.remaining)),
                Lexeme::Symbol(Symbol::CloseSquare) => {}
                _ => return None,
            },
            None => return None,
        }
    }
    None
}

/// Whether the number after this token is this value.
fn is_asked(tokens: &[Token<'_>], at: usize, value: u32) -> bool {
    let (_, after) = tokens.split_at(at.saturating_add(1).min(tokens.len()));
    match numeral_at(after) {
        Some((numeral, _)) => matches!(word_at(0, numeral), Ok(asked) if asked == value),
        None => false,
    }
}

/// Whether an instruction of a core writes its register.
fn writes_register(test: &Test, core: Core, reg: Reg) -> bool
    requires { core.0 < length test.now.programs }
{
    for instr in test.program(core) {
        match instr.action() {
            Action::Load(other, _)
            | Action::Move(Change::Set(other, _))
            | Action::Lock(_, Some(other), _) => {
                if other.index() == reg.index() {
                    return true;
                }
            }
            Action::Move(Change::Swap(one, other)) => {
                if one.index() == reg.index() || other.index() == reg.index() {
                    return true;
                }
            }
            Action::Store(..)
            | Action::Move(Change::Keep)
            | Action::Fence
            | Action::Lock(_, None, _) => {}
        }
    }
    false
}

/// Whether an instruction writes a location.
fn writes_location(test: &Test, loc: Loc) -> bool {
    for core in 0..test.cores() {
        for instr in test.program(Core(core)) {
            match instr.action() {
                Action::Store(other, _) | Action::Lock(other, _, _) => {
                    if other == loc {
                        return true;
                    }
                }
                Action::Load(..) | Action::Move(..) | Action::Fence => {}
            }
        }
    }
    false
}
