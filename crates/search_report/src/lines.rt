//! A refutation as it is printed, line by line.

ghost use Rattle.std.specs.Prelude.{◌≡◌, ◌+◌, IfOk, map};
ghost use Rattle.search_report.specs.Lines as spec;
ghost use Rattle.search_report.specs.inner.LineViews.{reason_line_of};

use crate::shown::{Closing, ShownFact};
use tso_terms::NoMemory;

/// Answers to a question, and what closes them, if something does.
#[derive(Drop)]
pub struct Answered {
    /// The word that tells the question from others, or nothing.
    pub question: &'static str,
    pub answers: Vec<Vec<ShownFact>>,
    pub closing: Option<Closing>,
}

/// A line, with how many steps it stands deeper than the first one.
#[derive(Drop)]
pub enum Line {
    /// What the claim gives.
    Given(Vec<ShownFact>),
    /// The lemma of this number: never all of these. Its part follows, one step deeper.
    Never(usize, Vec<ShownFact>),
    /// Answers. What isn't closed follows, one step deeper.
    Case(usize, Answered),
    /// What is left. If it isn't closed, its part follows at the same depth.
    So(usize, Answered),
    /// This closes all that there is.
    Leaf(usize, Closing),
    /// The cases of a question end here, and none is left.
    Endcases(usize),
}

/// The number after this one.
///
/// Errors: out of memory, which holds no list that is so long.
pub fn next_number(number: usize) -> Result<usize, NoMemory>
    ensures { IfOk result (λ next. next ≡ number + 1) }
{
    match number.checked_add(1) {
        Some(next) => Ok(next),
        None => Err(NoMemory),
    }
}

/// The same line, one step deeper.
///
/// Errors: out of memory, which holds no lines that are so deep.
pub fn deeper(line: Line) -> Result<Line, NoMemory>
    ensures { IfOk result (λ deep. reason_line_of deep ≡ spec.deeper (reason_line_of line)) }
{
    let deep = match line {
        Line::Given(facts) => Line::Given(facts),
        Line::Never(number, facts) => Line::Never(number, facts),
        Line::Case(depth, answered) => Line::Case(next_number(depth)?, answered),
        Line::So(depth, answered) => Line::So(next_number(depth)?, answered),
        Line::Leaf(depth, closing) => Line::Leaf(next_number(depth)?, closing),
        Line::Endcases(depth) => Line::Endcases(next_number(depth)?),
    };
    Ok(deep)
}

fn is_closing(line: &Line) -> bool
    ensures { result ≡ spec.is_closing (reason_line_of line.now) }
{
    match line {
        Line::Case(_, answered) | Line::So(_, answered) => answered.closing.is_some(),
        Line::Leaf(..) => true,
        _ => false,
    }
}

/// How many of these lines close a case.
pub fn leaves_in(lines: &[Line]) -> usize
    ensures { result ≡ spec.leaves_in (map reason_line_of lines.now) }
{
    let mut leaves = 0;
    for line in lines {
        if is_closing(line) {
            leaves += 1;
        }
    }
    leaves
}
