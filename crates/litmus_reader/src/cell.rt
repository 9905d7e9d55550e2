//! The cells of a row, cut at its bars and read from left to right: in this order locations get their numbers, and the first
//! fault is found.

ghost use Rattle.std.specs.Prelude.{◌≡◌, ◌<◌, ◌∷◌, length, position, IfSome};
ghost use Rattle.litmus_tokens.specs.inner.Pieces.{piece_of, pieces};
ghost use Rattle.litmus_tokens.specs.Front as front;
ghost use Rattle.litmus_cells.specs.inner.Returned.{GivesCells};
ghost use Rattle.litmus_reader.specs.inner.Cells as spec;
ghost use Rattle.litmus_reader.specs.inner.Cells.{cells_after};
ghost use Rattle.litmus_reader.specs.Cells.{cells_of};

use litmus_cells::{CoreInstr, ReadError, read_cell};
use litmus_tokens::{Instructions, Symbol, Token, is_symbol};

/// Where the first of this symbol stands, if it is there.
pub fn argument_of(symbol: Symbol, tokens: &[Token<'_>]) -> Option<usize>
    ensures { result ≡ position (λ t. front.is_symbol symbol (piece_of t)) tokens.now }
{
    for at in 0..tokens.len() {
        if is_symbol(symbol, &tokens[at]) {
            return Some(at);
        }
    }
    None
}

/// The first cell of a row, and what comes after its bar, if it has one.
fn first_cell<'a, 'b>(row: &'b [Token<'a>]) -> (&'b [Token<'a>], Option<&'b [Token<'a>]>)
    ensures cells { cells_of (pieces row.now) ≡ pieces result.0.now ∷ cells_after result.1 }
    ensures shorter { IfSome result.1 (λ after. length after.now < length row.now) }
{
    match argument_of(Symbol::Bar, row) {
        Some(bar) => (&row[..bar], Some(&row[bar + 1..])),
        None => (row, None),
    }
}

/// Reads the cells of a row from left to right.
pub fn read_cells<'a>(
    set: Instructions,
    instrs: &mut Vec<CoreInstr>,
    names: &mut Vec<&'a [u8]>,
    row: &[Token<'a>],
) -> Result<(), ReadError>
    ensures { GivesCells (spec.row_cells set) instrs.old.items names.old.items row.now result instrs.new.items names.new.items }
{
    let mut core = 0;
    let mut remaining = Some(row);
    'cells: while let Some(cells) = remaining {
        let (cell, after) = first_cell(cells);
        read_cell(set, core, instrs, names, cell)?;
        core += 1;
        remaining = after;
    }
    Ok(())
}
