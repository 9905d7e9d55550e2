//! The header row: the names of the cores, and how many there are. Every core that is named anywhere else is judged by this
//! number.

ghost use Rattle.std.specs.Prelude.{◌≡◌, ◌≤◌, IfOk};
ghost use Rattle.std.specs.Option.{option_map};
ghost use Rattle.tso_terms.specs.Limits.{most_cores};
ghost use Rattle.litmus_tokens.specs.inner.Pieces.{pieces};
ghost use Rattle.litmus_reader.specs.Columns as spec;
ghost use Rattle.litmus_reader.specs.GrammarColumns.{core_name};
ghost use Rattle.litmus_reader.specs.Keywords.{word_after};

use crate::fault::{part_of, remaining_of};
use crate::keyword::after_word;
use litmus_cells::{Fault, Why};
use litmus_tokens::{Stop, Symbol, Token, after_symbol};
use tso_terms::limits::MAX_CORES;

/// How many cores the header row of these tokens has.
///
/// `TooLarge` at the name of a core too many, and `BadHeaderRow` at anything else that doesn't fit.
#[tactic(auto, using(crate::proofs::ColumnSteps::columns_next, crate::proofs::ColumnSteps::columns_last))]
pub fn columns_at<'a, 'b>(stop: Stop, tokens: &'b [Token<'a>]) -> Result<usize, Fault>
    ensures value { result ≡ spec.columns stop most_cores 0 (pieces tokens.now) }
    ensures cores { IfOk result (λ cores. cores ≤ most_cores) }
{
    let part = part_of(Why::BadHeaderRow, stop);
    let mut core = 0;
    // The columns that are read, none yet, and what comes after them.
    let (_, mut rest) = tokens.split_at(0);
    'columns: loop {
        let name = [b'P', b'0' + core as u8];
        let Some(after) = after_word(&name, rest) else {
            return Err(part.unfit(rest));
        };
        if core >= MAX_CORES {
            return Err(Fault {
                why: Why::TooLarge,
                remaining: remaining_of(rest),
            });
        }
        core += 1;
        if let Some(next) = after_symbol(Symbol::Bar, after) {
            rest = next;
        } else if after_symbol(Symbol::Semicolon, after).is_some() {
            return Ok(core);
        } else {
            return Err(part.unfit(after));
        }
    }
}
