//! The text of a tally: the line of the sweep, a line for each list of values in ascending order, and the observation. In
//! which order the runs were counted has no part in it.

ghost use Rattle.std.specs.Prelude.{◌≡◌, ◌+◌, ◌<◌, ◌^◌, ◌++◌, OnOk, string_bytes};
ghost use Rattle.tso_report.specs.Tally.{looked_at, counted_state_lines, sweep_line, observation};
ghost use Rattle.tso_report.specs.inner.Counted.{counted_states};

use crate::counters::Counters;
use crate::named::Named;
use crate::observation::write_observed;
use crate::pieces::{Piece, write_characters, write_pieces};
use crate::printed_values::write_values;
use tso_terms::{NoMemory, Test};

/// `Sweep from=F seeds=N length=L ended=E unfinished=U`. Errors: out of memory only.
pub fn write_sweep(
    text: &mut String,
    ended: u32,
    unfinished: u32,
    from: u32,
    length: u32,
) -> Result<(), NoMemory>
    requires { ended + unfinished < 2 ^ 32 }
    ensures { OnOk result (string_bytes text.new ≡ string_bytes text.old ++ sweep_line ended unfinished from length) }
{
    let runs = ended + unfinished;
    let pieces = [
        Piece::Text("Sweep from="),
        Piece::Number(from as u64),
        Piece::Text(" seeds="),
        Piece::Number(runs as u64),
        Piece::Text(" length="),
        Piece::Number(length as u64),
        Piece::Text(" ended="),
        Piece::Number(ended as u64),
        Piece::Text(" unfinished="),
        Piece::Number(unfinished as u64),
        Piece::Text("\n"),
    ];
    write_pieces(text, &pieces)
}

/// A line for each list of values, `State COUNT 0:EAX=v x=v ..`. Errors: out of memory only.
pub fn write_states(
    text: &mut String,
    test: &Test,
    names: &[Named],
    counters: &Counters,
) -> Result<(), NoMemory>
    requires { names.now ≡ looked_at test.now }
    ensures { OnOk result (string_bytes text.new ≡ string_bytes text.old ++ counted_state_lines test.now (counted_states counters.now.states.entries)) }
{
    for (values, count) in counters.states.iter() {
        write_pieces(text, &[Piece::Text("State "), Piece::Number(*count as u64)])?;
        write_values(text, test, names, values)?;
        write_characters(text, "\n")?;
    }
    Ok(())
}

/// `Observation NAME Sometimes P Q`, where the test has a condition. Errors: out of memory only.
pub fn write_observation(
    text: &mut String,
    test: &Test,
    counters: &Counters,
) -> Result<(), NoMemory>
    ensures { OnOk result (string_bytes text.new ≡ string_bytes text.old
        ++ observation test.now.name test.now.condition counters.now.held counters.now.failed) }
{
    match test.cond() {
        None => Ok(()),
        Some(_) => {
            let (held, failed) = (counters.held as usize, counters.failed as usize);
            write_observed(text, test.name(), held, failed)
        },
    }
}
