//! Which limit a place of a test passes: of cores, of locations, of instructions or of atoms. The refusal has one name for
//! all of them, so what comes before the place is counted.

use crate::body::{body_of, ending_of, is_name};
use crate::place::Place;
use litmus_tokens::{Instructions, Symbol, Token, is_symbol, tokens_of};
use std::alloc::Global;
use tso_terms::NoMemory;
use tso_terms::limits::{MAX_ATOMS, MAX_INSTRUCTIONS};

/// A limit of which a test may have one thing too many.
#[derive(Clone, Copy)]
pub enum Limit {
    /// Of the cores of a test.
    Cores,
    /// Of the locations of a test.
    Locations,
    /// Of the instructions of a core.
    Instructions,
    /// Of the atoms of a condition.
    Atoms,
}

/// The limit that what is at a place passes, by what comes before it from the initial state on.
///
/// Errors: out of memory only.
pub fn limit_at(alloc: Global, place: &Place<'_>) -> Result<Limit, NoMemory> {
    let body = body_of(place.before);
    let tokens = tokens_of(alloc, Instructions::All, body)?;
    let ending = tokens_of(alloc, Instructions::All, ending_of(body, &tokens))?;
    let limit = if !ending.items.is_empty() {
        limit_in_condition(&ending.items)
    } else if let Some(rows) = after_curly(&tokens.items) {
        limit_in_rows(rows)
    } else {
        Limit::Locations
    };
    Ok(limit)
}

/// What comes after the initial state, where that ends.
pub fn after_curly<'a, 'b>(tokens: &'b [Token<'a>]) -> Option<&'b [Token<'a>]> {
    for at in 0..tokens.len() {
        if is_symbol(Symbol::CloseCurly, &tokens[at]) {
            return Some(&tokens[at + 1..]);
        }
    }
    None
}

fn limit_in_condition(tokens: &[Token<'_>]) -> Limit {
    let mut atoms = 0usize;
    for token in tokens {
        // An atom has one such token.
        if is_symbol(Symbol::Equals, token) || is_name(token, b"true") || is_name(token, b"false") {
            atoms = atoms.saturating_add(1);
        }
    }
    if atoms >= MAX_ATOMS {
        Limit::Atoms
    } else {
        Limit::Locations
    }
}

/// The limit that what comes after these tokens of rows passes; the first row is that of the cores. A core has as many
/// instructions as cells have something in them in the rows that end, in the column in which the last row stops, which doesn't end.
fn limit_in_rows(tokens: &[Token<'_>]) -> Limit {
    let mut has_row = false;
    let mut column = 0usize;
    for token in tokens {
        if is_symbol(Symbol::Semicolon, token) {
            has_row = true;
            column = 0;
        } else if is_symbol(Symbol::Bar, token) {
            column = column.saturating_add(1);
        }
    }
    if !has_row {
        return Limit::Cores;
    }
    let mut cells = 0usize;
    let mut is_first_row = true;
    let mut bars = 0usize;
    let mut is_filled = false;
    for token in tokens {
        if is_symbol(Symbol::Semicolon, token) {
            if is_filled && !is_first_row {
                cells = cells.saturating_add(1);
            }
            is_first_row = false;
            bars = 0;
            is_filled = false;
        } else if is_symbol(Symbol::Bar, token) {
            bars = bars.saturating_add(1);
        } else if bars == column {
            is_filled = true;
        }
    }
    if cells >= MAX_INSTRUCTIONS {
        Limit::Instructions
    } else {
        Limit::Locations
    }
}
