//! The rows of the table, and the instructions of all cells. A row without one cell for each core is refused as a whole,
//! for nobody knows whose cell is missing.

ghost use Rattle.std.specs.Prelude.{◌≡◌, ◌<◌, ◌≤◌, [], length, map, IfOk, OnOk};
ghost use Rattle.tso_terms.specs.Limits.{most_cores};
ghost use Rattle.litmus_tokens.specs.inner.Pieces.{pieces};
ghost use Rattle.litmus_tokens.specs.inner.Terms.{term_of};
ghost use Rattle.litmus_tokens.specs.inner.Mapped.{mapped};
ghost use Rattle.litmus_tokens.specs.Locations.{texts};
ghost use Rattle.litmus_reader.specs.inner.Initial.{given_of};
ghost use Rattle.litmus_reader.specs.Rows as spec;
ghost use Rattle.litmus_reader.specs.inner.Sections.{tokens_in, stop_of};
ghost use Rattle.litmus_cells.specs.inner.Returned.{GivesCells};
ghost use Rattle.litmus_reader.specs.inner.Returned.{GivesTable};
ghost use Rattle.litmus_reader.specs.Places.{remaining_of};
ghost use Rattle.litmus_reader.specs.Cells.{cells_of};
ghost use Rattle.litmus_reader.specs.GrammarTable as grammar;

use crate::cell::{argument_of, read_cells};
use crate::columns::columns_at;
use crate::fault::{at_stop, remaining_of};
use crate::initial::{RegisterWord, registers_of};
use crate::section::read_row_tokens;
use litmus_cells::{CoreInstr, Fault, ReadError, Why};
use litmus_tokens::{Instructions, Lexeme, Stop, Symbol, Token, is_symbol, token_at};
use std::alloc::Global;

/// A row without its `;`.
#[tactic(auto, using(crate::proofs::RowEnds::row_open, crate::proofs::RowEnds::row_closed))]
fn row_at<'a, 'b>(stop: Stop, tokens: &'b [Token<'a>]) -> Result<&'b [Token<'a>], Fault>
    ensures { mapped (λ row. pieces row.now) result ≡ spec.row_at stop (pieces tokens.now) }
{
    match argument_of(Symbol::Semicolon, tokens) {
        Some(end) => Ok(&tokens[..end]),
        None => Err(at_stop(
            Fault {
                why: Why::Unclosed,
                remaining: remaining_of(tokens),
            },
            stop,
        )),
    }
}

/// How many cells a row has: one more than bars.
fn cell_count(row: &[Token<'_>]) -> usize
    ensures { result ≡ length (cells_of (pieces row.now)) }
{
    let mut bars = 0usize;
    for token in row {
        if is_symbol(Symbol::Bar, token) {
            bars += 1;
        }
    }
    bars + 1
}

/// Reads the row of these tokens.
///
/// `Unclosed` where it has no `;`, `WrongCells` where it hasn't a cell for each core, both at its first token,
/// and then what its cells refuse.
#[tactic(auto, unfolding(crate::specs::Rows::row_in))]
fn read_row<'a>(
    set: Instructions,
    cores: usize,
    stop: Stop,
    instrs: &mut Vec<CoreInstr>,
    names: &mut Vec<&'a [u8]>,
    tokens: &[Token<'a>],
) -> Result<(), ReadError>
    ensures { GivesCells (spec.row_in set cores stop) instrs.old.items names.old.items tokens.now result instrs.new.items names.new.items }
{
    let row = row_at(stop, tokens)?;
    if cell_count(row) != cores {
        return Err(ReadError::Fault(Fault {
            why: Why::WrongCells,
            remaining: remaining_of(tokens),
        }));
    }
    read_cells(set, instrs, names, row)
}

fn ends_rows_term(lexeme: Lexeme<'_>) -> bool
    ensures { result ≡ grammar.ends_rows_term (term_of lexeme.entry) }
{
    match lexeme {
        Lexeme::Name(name) => {
            name == b"locations".as_slice()
                || name == b"exists".as_slice()
                || name == b"forall".as_slice()
        }
        _ => false,
    }
}

/// Whether a text begins with a token with which no row begins, or has no token.
#[tactic(auto, using(crate::proofs::SectionSteps::ends_rows_there, crate::proofs::SectionSteps::ends_rows_missing))]
fn ends_rows(set: Instructions, text: &[u8]) -> bool
    ensures { result ≡ grammar.ends_rows (tokens_in set text.now) }
{
    match token_at(set, text) {
        Ok((first, _)) => ends_rows_term(first.lexeme) || is_symbol(Symbol::Tilde, &first),
        Err(_) => true,
    }
}

/// What the header row and the rows give.
#[derive(Drop)]
pub struct Table {
    pub cores: usize,
    /// The first registers of each core.
    pub registers: Vec<[u32; 6]>,
    /// The instructions of all rows, in the order of the text.
    pub instrs: Vec<CoreInstr>,
}

/// Reads the header row and all rows with which a text begins, puts what they give where nothing is yet, and answers what
/// comes after them. `tokens` has room for those of a row.
///
/// As the header row ends, `NoSuchCore` at the first item of the initial state whose core isn't
/// there. A row is first taken to its `;` (`Unclosed` at its first token where the text ends), then
/// its cells are counted, then they are read.
pub fn read_table<'a>(
    alloc: Global,
    set: Instructions,
    tokens: &mut Vec<Token<'a>>,
    given: &[RegisterWord<'a>],
    names: &mut Vec<&'a [u8]>,
    table: &mut Table,
    text: &'a [u8],
) -> Result<&'a [u8], ReadError>
    requires { table.old.instrs.items ≡ [] }
    ensures value { GivesTable set
        (spec.table_at set (stop_of set text.now) (map given_of given.now)) names.old.items text.now result names.new.items
        table.new }
    ensures cores { OnOk result (table.new.cores ≤ most_cores) }
    ensures stop { IfOk result (λ x. stop_of set x.now ≡ stop_of set text.now) }
{
    let header = read_row_tokens(set, tokens, text)?;
    let cores = columns_at(header.stop, tokens.as_slice())?;
    let registers = registers_of(alloc, cores, given)?;
    table.cores = cores;
    table.registers = registers;
    let mut rest = header.rest;
    'rows: while !ends_rows(set, rest) {
        let onward = read_row_tokens(set, tokens, rest)?;
        read_row(
            set,
            cores,
            onward.stop,
            &mut table.instrs,
            names,
            tokens.as_slice(),
        )?;
        rest = onward.rest;
    }
    Ok(rest)
}
