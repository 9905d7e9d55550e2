//! The cases of a question: those that are closed, together where they are closed for the same reason, and those whose parts follow.

ghost use Rattle.std.specs.Prelude.{◌≡◌, [], IfOk, OnOk, map, take, drop};
ghost use Rattle.search_report.specs.Lines as spec;
ghost use Rattle.search_report.specs.inner.LineViews.{shown_facts_of};
ghost use Rattle.search_report.specs.inner.ShownViews.{shown_closing_of};
ghost use Rattle.search_report.specs.inner.LineParts.{HaveTheirTexts, closed_of, open_of, stacked_parts, place_with_text};

use crate::lines::Line;
use crate::shown::{Closing, ShownFact};
use crate::shown_text::text_of;
use std::alloc::Global;
use tso_terms::{NoMemory, Test};

/// A part that isn't closed: the answer that leads to it, and its lines, the last one first.
#[derive(Drop)]
pub struct Open {
    pub answer: Vec<ShownFact>,
    pub lines: Vec<Line>,
}

/// A node with all below it, which this answer leads to.
#[derive(Drop)]
pub enum Part {
    /// It closes its branch.
    Closed(Vec<ShownFact>, Closing),
    /// It has lines.
    Open(Open),
}

/// Answers that are closed for the same reason, with the text of it.
#[derive(Drop)]
pub struct Closed {
    pub answers: Vec<Vec<ShownFact>>,
    pub closing: Closing,
    pub text: String,
}

/// The cases of a question.
#[derive(Drop)]
pub struct Cases {
    pub closed: Vec<Closed>,
    pub left: Vec<Open>,
}

/// The place of the first of these that are closed for this reason, or else the place behind the last.
fn place_of(closed: &[Closed], text: &str) -> usize
    ensures { result ≡ place_with_text closed.now text.now }
{
    let mut at = 0;
    for c in closed {
        if c.text.as_str() == text {
            return at;
        }
        at += 1;
    }
    at
}

/// Adds one more answer that is closed: to those that are closed for the same reason, or by itself.
///
/// Errors: out of memory only.
fn add_closed(
    alloc: Global,
    test: &Test,
    closed: &mut Vec<Closed>,
    answer: Vec<ShownFact>,
    closing: Closing,
) -> Result<(), NoMemory>
    requires { HaveTheirTexts test.now closed.old.items }
    ensures told { OnOk result (HaveTheirTexts test.now closed.new.items) }
    ensures closed { OnOk result (map closed_of closed.new.items
        ≡ spec.with_closed test.now (shown_facts_of answer) (shown_closing_of closing) (map closed_of closed.old.items)) }
{
    let text = text_of(alloc, test, &closing)?;
    let at = place_of(closed, &text);
    if at < closed.len() {
        closed[at].answers.push(answer)?;
        return Ok(());
    }
    let mut answers = Vec::new(alloc);
    answers.push(answer)?;
    closed.push(Closed {
        answers,
        closing,
        text,
    })?;
    Ok(())
}

/// Takes so many parts, the first ones, as the cases of a question.
///
/// Errors: out of memory only.
pub fn take_cases(
    alloc: Global,
    test: &Test,
    parts: &mut Vec<Part>,
    count: usize,
) -> Result<Cases, NoMemory>
    ensures closed { IfOk result (λ cases. map closed_of cases.closed.items ≡ spec.closed_among test.now [] (take count (stacked_parts parts.old.items))) }
    ensures left { IfOk result (λ cases. map open_of cases.left.items ≡ spec.open_among (take count (stacked_parts parts.old.items))) }
    ensures rest { OnOk result (stacked_parts parts.new.items ≡ drop count (stacked_parts parts.old.items)) }
{
    let mut closed = Vec::new(alloc);
    let mut left = Vec::new(alloc);
    for _branch in 0..count {
        match parts.pop() {
            None => {}
            Some(Part::Closed(answer, closing)) => {
                add_closed(alloc, test, &mut closed, answer, closing)?;
            }
            Some(Part::Open(part)) => left.push(part)?,
        }
    }
    Ok(Cases { closed, left })
}
