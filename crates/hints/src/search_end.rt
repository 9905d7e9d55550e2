//! What is said of a search that ended at its limit: how many final states it had met, and what to ask for instead. What was met is
//! a part of all that there is, but one state that decides the condition may be all that people want to know.

ghost use Rattle.std.specs.Prelude.{◌≡◌, ◌⊎◌, [], IfOk, string_bytes};
ghost use Rattle.hints.specs.Hint.{IsRunsLine, longest_runs_line};

use crate::cause::Cause;
use crate::line::{Filling, Line};
use scheduler::choices_text;
use std::alloc::Global;
use tso_terms::{Choice, NoMemory};

/// Maximum length of a line that says choices to run, with its line feed, in bytes.
pub const MAX_RUNS_LINE: usize = 2048;

/// The limit is the number that the definitions have: a law, with nothing to run.
pub fn limit_of_runs_lines_is_as_defined()
    ensures { MAX_RUNS_LINE ≡ longest_runs_line }
{}

/// Whether a state was met that decides the condition: one in which its proposition has this truth.
#[derive(Drop)]
pub enum Sighting {
    /// The test has no condition.
    NoCondition,
    /// None was met.
    None(bool),
    /// One was met at least, to the first of which these choices lead.
    Met(bool, Vec<Choice>),
}

/// What is known of a search that ended at its limit.
#[derive(Drop)]
pub struct SearchEnd {
    /// How many states it may keep.
    pub most: u32,
    /// Whether it may be asked to keep more.
    pub is_raisable: bool,
    /// Whether the machine has store buffers, which may be less deep.
    pub is_buffered: bool,
    /// How many final states it had met that look different.
    pub finals: usize,
    /// Whether one of them decides the condition.
    pub sighting: Sighting,
}

/// Of a search that ended at its limit.
pub fn search_ends(line: &mut Line, end: &SearchEnd) {
    let met = match end.finals {
        0 => Filling::Text("none"),
        finals => Filling::Number(finals),
    };
    let limit = match (end.is_raisable, end.is_buffered) {
        (true, true) => "the limit of --states: raise it, lower --depth, or ",
        (true, false) => "the limit of --states: raise it, or ",
        (false, true) => "the most that --states allows: lower --depth, or ",
        (false, false) => "the most that --states allows: ",
    };
    let condition = match end.sighting {
        Sighting::NoCondition => "give a condition, so that only its atoms tell states apart",
        _ => "name fewer atoms in the condition; tso why needs no states",
    };
    let met_words = match (end.finals, &end.sighting) {
        (0, _) | (1, Sighting::NoCondition) => "was met",
        (1, Sighting::None(true) | Sighting::Met(false, _)) => {
            "was met, which makes the proposition false"
        }
        (1, Sighting::None(false) | Sighting::Met(true, _)) => {
            "was met, which makes the proposition true"
        }
        (_, Sighting::NoCondition) => "were met",
        (_, Sighting::None(true)) => "were met, none of which makes the proposition true",
        (_, Sighting::None(false)) => "were met, none of which makes the proposition false",
        (_, Sighting::Met(true, _)) => "were met; the proposition is true in one at least",
        (_, Sighting::Met(false, _)) => "were met; the proposition is false in one at least",
    };
    line.say_with(
        "the machine can reach more than {} states, {}{}; {} of the final states {}",
        &[
            Filling::Number(end.most as usize),
            Filling::Text(limit),
            Filling::Text(condition),
            met,
            Filling::Text(met_words),
        ],
    );
}

/// The line with choices that lead to a state that decides the condition, where a search ended at its limit and had met one. The
/// empty text where there is none, and where the choices don't fit.
///
/// Errors: out of memory only.
pub fn runs_line(alloc: Global, cause: &Cause) -> Result<String, NoMemory>
    ensures { IfOk result (λ text. (string_bytes text ≡ []) ⊎ IsRunsLine (string_bytes text)) }
{
    let Cause::TooManyStates(
        SearchEnd {
            sighting: Sighting::Met(_, choices),
            ..
        },
    ) = cause
    else {
        return Ok(String::new(alloc));
    };
    let choices = choices_text(alloc, choices)?;
    if choices.len() > MAX_RUNS_LINE - 18 {
        return Ok(String::new(alloc));
    }
    Ok(format!(in alloc; "hint: run these: {choices}\n")?)
}
