//! The final states that a search had met when it came to its limit, as they are printed: lines of text, or a JSON value on one
//! line. They are some of those that there are. So nothing is said of the condition but what one of them decides.

ghost use Rattle.std.specs.Prelude.{◌≡◌, ◌++◌, ℕ, IfOk, OnOk, string_bytes};
ghost use Rattle.std.specs.Map.{values_of};
ghost use Rattle.serde_json.specs.View.{view};
ghost use Rattle.explorer.specs.FinalStates.{AreReached};
ghost use Rattle.tso_report.specs.ShownNames as shown;
ghost use Rattle.search_report.specs.Outcomes.{is_met_in};
ghost use Rattle.search_report.specs.MetOutcomes.{unfinished_outcomes_line, met_line, decided_line, decided_value, met_text, met_json};
ghost use Rattle.search_report.specs.MetOutcomes.{unfinished_search_in, PrintsMet};
ghost use Rattle.search_report.specs.inner.ShownOutcomes.{AreNamesOf, AreShown, kept_of};

use crate::outcomes::{Outcomes, outcomes_of};
use crate::outcomes_as_json::states_value;
use crate::outcomes_as_text::write_states;
use crate::verdict::{is_met_in, outcomes_verdict_value, write_verdict};
use explorer::FinalState;
use serde_json::Value;
use std::alloc::Global;
use tso_laws::ended_runs_are_executions;
use tso_report::members::{Datum, object_of, word_value};
use tso_report::named::Named;
use tso_report::objects::Object;
use tso_report::pieces::{Piece, write_pieces};
use tso_report::{Show, names_shown};
use tso_terms::{NoMemory, Test};

/// What is printed of the final states that were met, and whether they decide the condition.
#[derive(Drop)]
pub struct PrintedMet {
    /// What is printed.
    pub text: String,
    /// How many of the final states look different.
    pub count: usize,
    /// Whether what the test's condition asks for is so in one of them: of `exists` and `~exists` that its proposition is true, of
    /// `forall` that it is false. Without a condition it isn't.
    pub is_met: bool,
}

/// What is printed where a search of the test met its limit, `limit` states of the machine, and had met these final states: the
/// limit; how many of them look different; each of these once, in ascending order of the values of what is shown, with choices that
/// lead there; and whether the condition is as it claims, where one of them decides that. Lines of text, or with `json` a JSON
/// value on one line.
///
/// Errors: out of memory only.
pub fn unfinished_report(
    alloc: Global,
    test: &Test,
    limit: usize,
    finals: &[FinalState],
    show: Show,
    json: bool,
) -> Result<PrintedMet, NoMemory>
    requires { (depth : ℕ) × AreReached test.now depth finals.now }
    ensures { IfOk result (λ printed. PrintsMet test.now (shown.names_shown show test.now) limit json finals.now (string_bytes printed.text) printed.is_met) }
{
    ended_runs_are_executions();
    test.know_limits();
    let names = names_shown(alloc, test, show)?;
    let outcomes = outcomes_of(alloc, test, &names, finals)?;
    let is_met = is_met_in(test, &names, &outcomes);
    Ok(PrintedMet {
        text: text_of(alloc, test, limit, &names, &outcomes, is_met, json)?,
        count: outcomes.len(),
        is_met,
    })
}

fn text_of(
    alloc: Global,
    test: &Test,
    limit: usize,
    names: &[Named],
    outcomes: &Outcomes,
    is_met: bool,
    json: bool,
) -> Result<String, NoMemory>
    requires names { AreNamesOf test.now names.now }
    requires shown { AreShown test.now names.now (kept_of outcomes.now.entries) }
    requires met { is_met ≡ is_met_in test.now.condition (values_of (kept_of outcomes.now.entries)) }
    ensures { IfOk result (λ text. string_bytes text ≡ unfinished_search_in json test.now names.now limit (values_of (kept_of outcomes.now.entries))) }
{
    if json {
        met_json(alloc, test, limit, names, outcomes, is_met)
    } else {
        met_text(alloc, test, limit, names, outcomes, is_met)
    }
}

/// The final states as lines: the limit; how many states there are; two lines for each; and the verdict, where it is decided.
///
/// Errors: out of memory only.
fn met_text(
    alloc: Global,
    test: &Test,
    limit: usize,
    names: &[Named],
    outcomes: &Outcomes,
    is_met: bool,
) -> Result<String, NoMemory>
    requires names { AreNamesOf test.now names.now }
    requires shown { AreShown test.now names.now (kept_of outcomes.now.entries) }
    requires met { is_met ≡ is_met_in test.now.condition (values_of (kept_of outcomes.now.entries)) }
    ensures { IfOk result (λ text. string_bytes text ≡ met_text test.now names.now limit (values_of (kept_of outcomes.now.entries))) }
{
    let mut text = String::new(alloc);
    write_limit(&mut text, limit)?;
    write_met(&mut text, outcomes.len())?;
    write_states(&mut text, test, names, outcomes)?;
    write_decided(&mut text, test, is_met)?;
    Ok(text)
}

/// `Unfinished states=N`.
fn write_limit(text: &mut String, limit: usize) -> Result<(), NoMemory>
    ensures { OnOk result (string_bytes text.new ≡ string_bytes text.old ++ unfinished_outcomes_line limit) }
{
    let pieces = [
        Piece::Text("Unfinished states="),
        Piece::Number(limit as u64),
        Piece::Text("\n"),
    ];
    write_pieces(text, &pieces)
}

/// `Met N`.
fn write_met(text: &mut String, count: usize) -> Result<(), NoMemory>
    ensures { OnOk result (string_bytes text.new ≡ string_bytes text.old ++ met_line count) }
{
    let pieces = [
        Piece::Text("Met "),
        Piece::Number(count as u64),
        Piece::Text("\n"),
    ];
    write_pieces(text, &pieces)
}

/// `Verdict Ok`, where it is decided.
fn write_decided(text: &mut String, test: &Test, is_met: bool) -> Result<(), NoMemory>
    ensures { OnOk result (string_bytes text.new ≡ string_bytes text.old ++ decided_line test.now.condition is_met) }
{
    if is_met {
        write_verdict(text, test, true)
    } else {
        Ok(())
    }
}

/// The final states as JSON: an object of the states, the test, the limit and the verdict, printed compact, and a line feed.
///
/// Errors: out of memory only.
fn met_json(
    alloc: Global,
    test: &Test,
    limit: usize,
    names: &[Named],
    outcomes: &Outcomes,
    is_met: bool,
) -> Result<String, NoMemory>
    requires names { AreNamesOf test.now names.now }
    requires shown { AreShown test.now names.now (kept_of outcomes.now.entries) }
    requires met { is_met ≡ is_met_in test.now.condition (values_of (kept_of outcomes.now.entries)) }
    ensures { IfOk result (λ text. string_bytes text ≡ met_json test.now names.now limit (values_of (kept_of outcomes.now.entries))) }
{
    let fields = [("states", Datum::Number(limit as u64))];
    Object::new(alloc)
        .member("met", states_value(alloc, test, names, outcomes))
        .member("test", word_value(alloc, test.name()))
        .member("unfinished", object_of(alloc, &fields))
        .member("verdict", decided_value(alloc, test, is_met))
        .line()
}

/// `Ok` or `No` where it is decided, else `null`.
fn decided_value(alloc: Global, test: &Test, is_met: bool) -> Result<Value, NoMemory>
    ensures { IfOk result (λ value. view value ≡ decided_value test.now.condition is_met) }
{
    if is_met {
        outcomes_verdict_value(alloc, test, true)
    } else {
        Ok(Value::Null)
    }
}
