//! What is said of a cell that spells no instruction: which form was meant, where that can be seen, and what in it differs.

use crate::brackets::count;
use crate::c_forms::{is_type, said_of_access, told_of_access};
use crate::cycles::says_edge;
use crate::faults::STORE_AND_LOAD;
use crate::instructions::{ALONE, FORMS, FORMS_OF_EXCHANGE, LABEL, LOCKED, SIZED, UNLOCKED};
use crate::keywords::{begins_instruction, is_instruction, near_instruction, near_larger};
use crate::larger_set::says_forms;
use crate::line::{Filling, Line};
use crate::mnemonics::{Kind, is_known_name, is_narrow_name, kind_of, larger_of};
use crate::pairs::{says_of_pair, says_of_parts};
use crate::prefixes::said_of_prefix;
use crate::quotes::{last_bytes, token, up_to, up_to_any};
use crate::tables::{Alike, begins_with_one_of, is_one_of, said_of, said_of_front};
use crate::words::{name_of, says_of_each};
use litmus_tokens::{Instructions, Symbol, Token, after_symbol, is_symbol, tokens_of};
use std::alloc::Global;
use tso_terms::{NoMemory, Reg};

const NO_INSTRUCTION: &str =
    "{} is not one of MOV, MFENCE, XCHG, LOCK XADD: a store is MOV [x],$1, a load MOV EAX,[x]";

const NO_INSTRUCTION_OF_ALL: &str =
    "{} is no instruction that is read: a store is MOV [x],$1, a load MOV EAX,[x], a fence MFENCE";

const LOCK_ALONE: &str =
    "LOCK may stand only before XCHG or XADD, in the same cell and without ;: LOCK XADD [x],EAX";

const LOCK_OF_ALL: &str =
    "LOCK stands before what changes a location in one step, in the same cell and without ;: LOCK XADD [x],EAX";

const BRACES: &str =
    "{}: { } can't stand in a row: leave both out, and write one instruction into each cell";

const DECLARATION: &str =
    "{} is a type: no register and no location is declared here, so leave the cell empty";

/// Of the cell at the front of a text.
///
/// Errors: out of memory only.
pub fn bad_instruction(alloc: Global, line: &mut Line, rest: &[u8]) -> Result<(), NoMemory> {
    let cell = up_to_any(rest, b"|;").trim_ascii_end();
    if cell.contains(&b'\n') {
        line.say_of(
            "no ; or | stands at the end of {}: cells are split by |, and a row ends with ;",
            up_to(cell, b'\n').trim_ascii_end(),
        );
        return Ok(());
    }
    if says_edge(line, cell) {
        return Ok(());
    }
    if has_operands_alone(cell) {
        line.say_of(
            "no instruction stands before {}: write one, as MOV [x],$1",
            cell,
        );
        return Ok(());
    }
    if let Some(said) = said_of_prefix(cell, rest) {
        line.say(said);
        return Ok(());
    }
    let tokens = tokens_of(alloc, Instructions::All, cell)?;
    if let Some(said) = said_of_cell(line, &tokens.items) {
        line.say_of(said, token(cell));
        return Ok(());
    }
    let (name, operands) = first_name(&tokens.items);
    if name.eq_ignore_ascii_case(b"LOCK") {
        let (name, operands) = first_name(operands);
        if !says_of_larger(line, cell, name, operands, true)
            && !says_of_instruction(line, &LOCKED, cell, name, operands)
            && !says_near_instruction(line, name, operands, true)
        {
            let said = line.choose(LOCK_ALONE, LOCK_OF_ALL);
            line.say(said);
        }
    } else if !says_of_larger(line, cell, name, operands, false)
        && !says_of_instruction(line, &UNLOCKED, cell, name, operands)
        && !says_near_instruction(line, name, operands, false)
    {
        let said = line.choose(NO_INSTRUCTION, NO_INSTRUCTION_OF_ALL);
        line.say_of(said, token(cell));
    }
    Ok(())
}

/// Says of an instruction of the larger set what is wrong with its operands, or which forms it has; or of a name that is almost one's.
/// Whether a name is that of one, or almost.
fn says_of_larger(
    line: &mut Line,
    cell: &[u8],
    name: &[u8],
    operands: &[Token<'_>],
    is_locked: bool,
) -> bool {
    if says_joined(line, name) || says_lock_joined(line, name) {
        return true;
    }
    let Some(plain) = larger_of(name) else {
        return says_near_larger(line, name, operands, is_locked);
    };
    let kind = kind_of(plain.as_bytes());
    let is_said = !is_narrow_name(name)
        && !matches!(kind, Kind::Nothing)
        && (says_of_each(line, cell, operands)
            || (!matches!(kind, Kind::Change) && says_of_parts(line, operands)));
    if is_said {
        line.say_option();
        return true;
    }
    says_forms(line, name)
}

/// Says of a name that is almost that of an instruction of the larger set, where what stands behind it may stand behind that one. Whether
/// it is.
fn says_near_larger(line: &mut Line, name: &[u8], operands: &[Token<'_>], is_locked: bool) -> bool {
    if is_known_name(name) || said_of_access(name).is_some() {
        return false;
    }
    let Some(meant) = near_larger(name) else {
        return false;
    };
    let commas = count(Symbol::Comma, operands);
    let fits = match kind_of(meant.as_bytes()) {
        Kind::Nothing => operands.is_empty() && !is_locked,
        Kind::Change => commas == 0 && !operands.is_empty(),
        _ => commas == 1,
    };
    if fits {
        let sentence = if is_one_of("CMPXCHG", meant.as_bytes()) && !is_locked {
            "{} is no instruction: write LOCK {}"
        } else {
            "{} is no instruction: write {}"
        };
        line.say_with(sentence, &[Filling::Named(name), Filling::Text(meant)]);
        line.say_option();
    }
    fits
}

/// Says of LOCK and an instruction of the larger set without a space between them. Whether a word has both.
fn says_lock_joined(line: &mut Line, word: &[u8]) -> bool {
    let rest = last_bytes(word, word.len().saturating_sub(4));
    let name = rest.strip_prefix(b"_").unwrap_or(rest);
    let is_joined = begins_with_one_of("LOCK", word) && larger_of(name).is_some();
    if is_joined {
        line.say_of("{}: write a space behind LOCK", word);
        line.say_option();
    }
    is_joined
}

/// Says of an instruction and a register without a space between them. Whether a word has both.
fn says_joined(line: &mut Line, word: &[u8]) -> bool {
    for name in "MOV XCHG XADD ADD SUB AND OR XOR INC DEC NEG NOT".split(' ') {
        let rest = last_bytes(word, word.len().saturating_sub(name.len()));
        if begins_with_one_of(name, word) && Reg::from_name(rest).is_some() {
            line.say_with(
                "{}: write a space behind {}",
                &[Filling::Named(word), Filling::Text(name)],
            );
            if larger_of(name.as_bytes()).is_some() {
                line.say_option();
            }
            return true;
        }
    }
    false
}

/// Says of a name that is almost an instruction's, where what stands behind it may stand behind that one, perhaps after LOCK. Whether
/// it is.
fn says_near_instruction(
    line: &mut Line,
    name: &[u8],
    operands: &[Token<'_>],
    is_locked: bool,
) -> bool {
    let Some(meant) = near_instruction(name) else {
        return false;
    };
    let fits = if meant == "MFENCE" {
        operands.is_empty() && !is_locked
    } else if meant == "LOCK" {
        let after = first_name(operands).0;
        is_one_of("XADD XCHG", after) || larger_of(after).is_some()
    } else {
        count(Symbol::Comma, operands) == 1
    };
    if fits {
        let sentence = if meant == "XADD" && !is_locked {
            "{} is no instruction: write LOCK {}"
        } else {
            "{} is no instruction: write {}"
        };
        line.say_with(sentence, &[Filling::Named(name), Filling::Text(meant)]);
    }
    fits
}

/// Whether a cell begins with an operand and a comma, without an instruction before it.
fn has_operands_alone(cell: &[u8]) -> bool {
    let first = up_to(cell, b',').trim_ascii_end();
    let is_place = first.starts_with(b"[") && first.ends_with(b"]");
    first.len() < cell.len() && (is_place || Reg::from_name(first).is_some())
}

/// What is said of a cell in a form of another language, of its first token: of a word that is no instruction, a label or an
/// assignment.
fn said_of_cell(line: &Line, tokens: &[Token<'_>]) -> Option<&'static str> {
    let (name, after) = first_name(tokens);
    if begins_with_brace(tokens) || (!name.is_empty() && begins_with_brace(after)) {
        return Some(BRACES);
    }
    if is_type(name) && !first_name(after).0.is_empty() {
        return Some(if count(Symbol::Equals, tokens) > 0 {
            STORE_AND_LOAD
        } else {
            DECLARATION
        });
    }
    if let Some(said) = told_of_access(line, name) {
        return Some(said);
    }
    if let Some(labelled) = after_symbol(Symbol::Colon, after)
        && after_symbol(Symbol::Equals, labelled).is_none()
    {
        return Some(if name.eq_ignore_ascii_case(b"LOCK") {
            line.choose(LOCK_ALONE, LOCK_OF_ALL)
        } else if begins_instruction(name)
            || (larger_of(name).is_some() && !is_instruction(first_name(labelled).0))
        {
            "{}: leave out the colon behind it: a space stands before the operands"
        } else {
            LABEL
        });
    }
    if count(Symbol::Equals, tokens) > 0 {
        Some(STORE_AND_LOAD)
    } else {
        None
    }
}

/// Whether a brace stands first.
fn begins_with_brace(tokens: &[Token<'_>]) -> bool {
    match tokens.first() {
        Some(first) => {
            is_symbol(Symbol::OpenCurly, first) || is_symbol(Symbol::CloseCurly, first)
        }
        None => false,
    }
}

/// The name that comes first, or no bytes, and what comes after it.
fn first_name<'a, 'b>(tokens: &'b [Token<'a>]) -> (&'a [u8], &'b [Token<'a>]) {
    match tokens.split_first() {
        Some((first, rest)) => (name_of(first), rest),
        None => (&[], tokens),
    }
}

/// Says of an instruction, by its name and what comes after it; this table has names that aren't read. Whether something is
/// known of it.
fn says_of_instruction(
    line: &mut Line,
    unread: &[Alike],
    cell: &[u8],
    name: &[u8],
    operands: &[Token<'_>],
) -> bool {
    if let Some(said) = said_of_front(unread, name)
        && (said != ALONE || is_one_of("MFENCE", name))
    {
        line.say_of(said, name);
        return true;
    }
    if let Some(said) = said_of(&SIZED, name) {
        line.say_of(said, name);
        return true;
    }
    let Some(forms) = said_of(&FORMS, name) else {
        return false;
    };
    if says_of_operands(line, cell, operands) {
        return true;
    }
    let is_exchange_of_all = line.has_all() && is_one_of("XCHG", name);
    line.say(if is_exchange_of_all {
        FORMS_OF_EXCHANGE
    } else {
        forms
    });
    true
}

/// Says of what is wrong with the operands of an instruction: of a word that is none, of a bracket, or of all of them together.
/// Whether that is known.
fn says_of_operands(line: &mut Line, cell: &[u8], operands: &[Token<'_>]) -> bool {
    says_of_each(line, cell, operands) || says_of_pair(line, operands)
}
