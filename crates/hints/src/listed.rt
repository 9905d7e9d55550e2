//! What a test lists in `locations [..]`. It is read and passed over, so a state may leave it out; then a hint tells how to
//! see it.

use crate::body::{body_of, is_name};
use crate::unused::location_named;
use litmus_tokens::{Instructions, Lexeme, Symbol, Token, is_symbol, tokens_of, word};
use std::alloc::Global;
use tso_terms::{Core, Loc, NoMemory, Reg, Test};

/// A register or a location that a test lists. Its name is so many bytes of the text, after so many others.
#[derive(Clone, Copy)]
pub struct Listed {
    pub first: usize,
    pub length: usize,
    pub what: ListedName,
}

/// What is listed.
#[derive(Clone, Copy)]
pub enum ListedName {
    /// A register of a core.
    Register(Core, Reg),
    /// A location.
    Location(Loc),
}

/// The registers and locations of a test that its text lists in `locations [..]`, in the order of the list.
///
/// Errors: out of memory only.
pub fn listed_in(alloc: Global, test: &Test, text: &[u8]) -> Result<Vec<Listed>, NoMemory> {
    let tokens = tokens_of(alloc, Instructions::All, body_of(text))?;
    let mut found = Vec::new(alloc);
    let mut core = None;
    for token in after_opening(&tokens.items) {
        if is_symbol(Symbol::CloseSquare, token) {
            break;
        }
        // The registers of a core follow its number.
        core = match token.lexeme {
            Lexeme::Symbol(Symbol::Semicolon) => None,
            Lexeme::Number(digits) => word(digits),
            _ => core,
        };
        if let Some(listed) = listed_at(test, text, core, token) {
            found.push(listed)?;
        }
    }
    Ok(found)
}

/// What comes after `locations [`, or nothing where the test has no list.
fn after_opening<'a, 'b>(tokens: &'b [Token<'a>]) -> &'b [Token<'a>] {
    for at in 1..tokens.len() {
        if is_name(&tokens[at - 1], b"locations") && is_symbol(Symbol::OpenSquare, &tokens[at]) {
            return &tokens[at + 1..];
        }
    }
    &[]
}

/// What a token of the list names in this text of a test, after the number of a core or after none.
fn listed_at(test: &Test, text: &[u8], core: Option<u32>, token: &Token<'_>) -> Option<Listed> {
    let Lexeme::Name(name) = token.lexeme else {
        return None;
    };
    let what = match core {
        None => match location_named(test, name) {
            Some(loc) => ListedName::Location(loc),
            None => return None,
        },
        Some(core) if core < u32::from(test.cores()) => match Reg::from_name(name) {
            Some(reg) => ListedName::Register(Core(core as u8), reg),
            None => return None,
        },
        Some(_) => return None,
    };
    Some(Listed {
        first: text.len().saturating_sub(token.remaining),
        length: name.len(),
        what,
    })
}
