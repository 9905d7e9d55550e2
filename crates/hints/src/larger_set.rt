//! Instructions that are read where all are asked for, and what is close to them.

use crate::line::{Filling, Line};
use crate::mnemonics::{is_narrow_name, larger_of};
use crate::numbers::{say_over, spelled};
use crate::quotes::{digits_and_letters, first_word, last_bytes};
use crate::tables::is_one_of;
use litmus_tokens::{
    Constant, Form, Instructions, Lexeme, Numeral, Stop, Token, Use, form_of, name_at, tokens_of,
    word_at,
};
use std::alloc::Global;
use tso_terms::NoMemory;

const LARGER_SET: &str = "{} is read where all instructions are asked for: add --instructions all";

const WITHOUT_LOCK: &str = "{} isn't read without LOCK, which makes it one step: ";

const NEEDLESS_LOCK: &str =
    "{}: LOCK stands before what changes a location in one step: leave it out here: {}";

const NARROW: &str = "{} isn't read: each access is to a whole word of 32 bits";

/// Maximum length of a location's name for which a hint has room for what is done with LOCK and for three instructions.
const MAX_NAME: usize = 10;

/// Says of a cell that it spells an instruction of the larger set, or would with LOCK or without it. Whether it does. Where that set is
/// asked for, no cell that is refused spells one.
///
/// Errors: out of memory only.
pub fn says_larger_set(alloc: Global, line: &mut Line, cell: &[u8]) -> Result<bool, NoMemory> {
    let tokens = tokens_of(alloc, Instructions::All, cell)?;
    if !matches!(tokens.stop, Stop::End) {
        return Ok(false);
    }
    if let Some(form) = form_of(Instructions::All, &tokens.items) {
        return Ok(says_read(line, cell, form));
    }
    match name_at(&tokens.items) {
        Some((first, rest)) if is_one_of("LOCK", first) => Ok(says_needless(line, cell, rest)),
        _ => {
            let mut locked = Vec::new(alloc);
            locked.push(Token {
                remaining: cell.len(),
                lexeme: Lexeme::Name(b"LOCK".as_slice()),
            })?;
            for token in &tokens.items {
                locked.push(*token)?;
            }
            Ok(says_lockless(line, cell, &locked))
        }
    }
}

/// Says of a cell that has this form in the larger set. Whether that set isn't asked for.
fn says_read(line: &mut Line, cell: &[u8], form: Form<'_>) -> bool {
    if line.has_all() {
        return false;
    }
    match (constant_in(form), form) {
        (Some(numeral), Form::StoreImm(..) | Form::SetImm(..)) => say_numeral(line, numeral),
        (Some(numeral), _) if matches!(word_at(0, numeral), Err(_)) => {
            say_over(line, numeral);
            line.say_option();
        }
        _ => line.say_of(LARGER_SET, cell),
    }
    true
}

/// The number that a cell of this form spells.
fn constant_in<'a>(form: Form<'a>) -> Option<Numeral<'a>> {
    match form {
        Form::StoreImm(_, Constant::Spelled(numeral))
        | Form::SetImm(_, Constant::Spelled(numeral))
        | Form::LockedImm(_, _, Constant::Spelled(numeral))
        | Form::CombineImm(_, _, Constant::Spelled(numeral)) => Some(numeral),
        _ => None,
    }
}

/// Says of a number of the larger set what it is as a decimal number without a sign.
pub fn say_numeral(line: &mut Line, numeral: Numeral<'_>) {
    let Ok(value) = word_at(0, numeral) else {
        return say_over(line, numeral);
    };
    let [sign, base, digits] = spelled(numeral);
    let sentence = match (numeral.is_negative, numeral.is_hexadecimal) {
        (true, true) => "a number is decimal and has no sign: write {}{}{} as {}",
        (true, false) => "a number has no sign: write {}{}{} as {}",
        _ => "{}{}{}: numbers are decimal: write {}",
    };
    line.say_with(
        sentence,
        &[sign, base, digits, Filling::Number(value as usize)],
    );
    line.say(", or add --instructions all");
}

/// Says of a cell that is an instruction of the larger set without its LOCK, before these tokens. Whether it is one.
fn says_needless(line: &mut Line, cell: &[u8], rest: &[Token<'_>]) -> bool {
    let form = form_of(Instructions::All, rest);
    let is_needless = matches!(
        form,
        Some(
            Form::CombineImm(..)
                | Form::CombineReg(..)
                | Form::Negate(_)
                | Form::Swap(..)
                | Form::Nothing
        )
    );
    if is_needless {
        let after = cell.len().saturating_sub(first_word(cell).len());
        let alone = last_bytes(cell, after).trim_ascii_start();
        line.say_with(
            NEEDLESS_LOCK,
            &[Filling::Named(cell), Filling::Shown(alone)],
        );
        line.say_option();
    }
    is_needless
}

/// Says of a cell that is an instruction of the larger set with LOCK before it, as these tokens have it. Whether it is one.
fn says_lockless(line: &mut Line, cell: &[u8], locked: &[Token<'_>]) -> bool {
    let (loc, source) = match form_of(Instructions::All, locked) {
        Some(Form::At(Use::CompareExchange, loc, reg)) => {
            line.say_of(WITHOUT_LOCK, cell);
            line.say_with(
                "LOCK CMPXCHG [{}],{}",
                &[Filling::Shown(loc), Filling::Text(reg.name())],
            );
            line.say_option();
            return true;
        }
        Some(Form::At(Use::Xadd, loc, reg)) => {
            line.say_of(WITHOUT_LOCK, cell);
            line.say_with(
                "LOCK XADD [{}],{}",
                &[Filling::Shown(loc), Filling::Text(reg.name())],
            );
            return true;
        }
        Some(Form::LockedImm(_, loc, Constant::Spelled(numeral))) => match word_at(0, numeral) {
            Ok(value) => (loc, Source::Number(value)),
            Err(_) => return false,
        },
        Some(Form::LockedReg(_, loc, reg)) => (loc, Source::Register(reg.name())),
        Some(Form::LockedImm(_, loc, Constant::Meant(_)) | Form::LockedNegate(loc)) => {
            (loc, Source::None)
        }
        _ => return false,
    };
    match larger_of(digits_and_letters(cell)) {
        Some(name) => say_lock_or_three(line, cell, name, loc, source),
        None => return false,
    }
    true
}

/// What an instruction has behind the word that it changes.
#[derive(Clone, Copy)]
pub enum Source {
    None,
    Number(u32),
    Register(&'static str),
}

fn say_load<'a>(line: &mut Line, reg: &'a str, loc: &'a [u8]) {
    line.say_with("MOV {},[{}]", &[Filling::Text(reg), Filling::Shown(loc)]);
}

fn say_store<'a>(line: &mut Line, loc: &'a [u8], reg: &'a str) {
    line.say_with("  MOV [{}],{}", &[Filling::Shown(loc), Filling::Text(reg)]);
}

/// What stands behind the word that is changed.
fn say_source(line: &mut Line, source: Source) {
    match source {
        Source::None => {}
        Source::Number(number) => line.say_number(",${}", number as usize),
        Source::Register(reg) => line.say_with(",{}", &[Filling::Text(reg)]),
    }
}

/// Says what an instruction that computes in this location is with LOCK, and what without it.
pub fn say_lock_or_three(
    line: &mut Line,
    cell: &[u8],
    name: &'static str,
    loc: &[u8],
    source: Source,
) {
    line.say_with(
        "{}: in one step it is LOCK {} [{}]",
        &[
            Filling::Named(cell),
            Filling::Text(name),
            Filling::Shown(loc),
        ],
    );
    say_source(line, source);
    if loc.len() > MAX_NAME {
        line.say("; without LOCK write a load, the same in a register, and a store");
    } else {
        say_three(line, name, loc, source);
    }
    line.say_option();
}

/// Says the three instructions that one is which computes in this location without LOCK.
fn say_three(line: &mut Line, name: &'static str, loc: &[u8], source: Source) {
    let free = match source {
        Source::Register(reg) if is_one_of("EAX", reg.as_bytes()) => "EBX",
        _ => "EAX",
    };
    line.say("; without LOCK write three cells: ");
    say_load(line, free, loc);
    line.say_with("  {} {}", &[Filling::Text(name), Filling::Text(free)]);
    say_source(line, source);
    say_store(line, loc, free);
    line.say_with(", with a free register for {}", &[Filling::Text(free)]);
}

/// Says of an instruction of the larger set, perhaps with the size of its operands, which forms it has. Whether a word names one.
pub fn says_forms(line: &mut Line, word: &[u8]) -> bool {
    let Some(name) = larger_of(word) else {
        return false;
    };
    if is_narrow_name(word) {
        line.say_of(NARROW, word);
        return true;
    }
    line.say_with(forms_of(name), &[Filling::Text(name); 5]);
    line.say_option();
    true
}

/// The forms of an instruction of the larger set.
fn forms_of(name: &str) -> &'static str {
    if is_one_of("INC DEC NEG NOT", name.as_bytes()) {
        "{} has the forms {} EAX and LOCK {} [x]"
    } else if is_one_of("CMPXCHG", name.as_bytes()) {
        "{} has the form LOCK {} [x],EBX: EAX has the word that the location's is compared with, and EBX here the one that is written"
    } else if is_one_of("NOP PAUSE LFENCE SFENCE", name.as_bytes()) {
        "{} stands alone in its cell"
    } else {
        "{} has the forms {} EAX,$1  {} EAX,EBX  LOCK {} [x],$1  LOCK {} [x],EAX"
    }
}
