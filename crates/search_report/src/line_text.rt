//! A refutation as lines of text.

ghost use Rattle.std.specs.Prelude.{◌≡◌, ◌++◌, ◌∷◌, [], IfOk, OnOk, map, string_bytes};
ghost use Rattle.search_report.specs.LineText as spec;
ghost use Rattle.search_report.specs.inner.LineViews.{reason_line_of, shown_facts_of};
ghost use Rattle.std.specs.Option.{option_map};
ghost use Rattle.search_report.specs.inner.ShownViews.{shown_closing_of};

use crate::asked::{model_name, write_asked};
use crate::contents::Content;
use crate::contents_as_text::write_shown;
use crate::items::{Written, write_each, write_separated};
use crate::lines::{Answered, Line, leaves_in};
use crate::verdict::write_verdict;
use refutation_laws::Model;
use std::alloc::Global;
use tso_report::pieces::{Piece, write_characters, write_pieces};
use tso_terms::{NoMemory, Test};

/// The word of a question, if it has one.
fn write_question(text: &mut String, question: &str) -> Result<(), NoMemory>
    ensures { OnOk result (string_bytes text.new ≡ string_bytes text.old ++ spec.question_text question.now) }
{
    if question.is_empty() {
        return Ok(());
    }
    write_pieces(text, &[Piece::Text(question), Piece::Text(" ")])
}

/// `P0:1 R x=0 from initial: Cycle ..`
impl Written for Answered {
    ghost written = { λ t a. spec.case_text t a.question.now (map shown_facts_of a.answers.items) (option_map shown_closing_of a.closing) };

    fn write(&self, text: &mut String, test: &Test) -> Result<(), NoMemory> {
        write_question(text, self.question)?;
        write_separated(text, test, " or ", &self.answers)?;
        match &self.closing {
            None => Ok(()),
            Some(closing) => {
                write_characters(text, ": ")?;
                closing.write(text, test)
            }
        }
    }
}

/// What stands in a line before its end.
fn write_content(text: &mut String, test: &Test, line: &Line) -> Result<(), NoMemory>
    ensures { OnOk result (string_bytes text.new ++ (10 ∷ []) ≡ string_bytes text.old ++ spec.line_text test.now (reason_line_of line.now)) }
{
    match line {
        Line::Given(facts) => {
            write_characters(text, "Given ")?;
            facts.write(text, test)
        }
        Line::Never(number, facts) => {
            let head = [
                Piece::Text("Lemma "),
                Piece::Number(*number as u64),
                Piece::Text(" "),
            ];
            write_pieces(text, &head)?;
            facts.write(text, test)
        }
        Line::Case(depth, answered) => {
            write_shown(text, test, Content::Depth(*depth))?;
            write_characters(text, "Case ")?;
            answered.write(text, test)
        }
        Line::So(depth, answered) => {
            write_shown(text, test, Content::Depth(*depth))?;
            write_characters(text, "So ")?;
            answered.write(text, test)
        }
        Line::Leaf(depth, closing) => {
            write_shown(text, test, Content::Depth(*depth))?;
            closing.write(text, test)
        }
        Line::Endcases(depth) => {
            write_shown(text, test, Content::Depth(*depth))?;
            write_characters(text, "Endcases")
        }
    }
}

impl Written for Line {
    ghost written = { λ t line. spec.line_text t (reason_line_of line) };

    fn write(&self, text: &mut String, test: &Test) -> Result<(), NoMemory> {
        write_content(text, test, self)?;
        write_characters(text, "\n")
    }
}

/// A refutation of what the test asks, as lines of text: the test; that it is refuted, and in how many leaves; what is asked; the
/// lines; and herd's verdict.
///
/// Errors: out of memory only.
pub fn never_text(
    alloc: Global,
    test: &Test,
    model: Model,
    lines: &[Line],
) -> Result<String, NoMemory>
    ensures { IfOk result (λ text. string_bytes text ≡ spec.never_lines model test.now (map reason_line_of lines.now)) }
{
    let head = [
        Piece::Text("Test "),
        Piece::Text(test.name()),
        Piece::Text("\nNever "),
        Piece::Text(model_name(model)),
        Piece::Text(" leaves="),
        Piece::Number(leaves_in(lines) as u64),
        Piece::Text("\n"),
    ];
    let mut text = String::new(alloc);
    write_pieces(&mut text, &head)?;
    write_asked(&mut text, test)?;
    write_each(&mut text, test, "", lines)?;
    write_verdict(&mut text, test, false)?;
    Ok(text)
}
