//! What is printed of a refutation by lemmas: lines of text, or a JSON value on one line.

ghost use Rattle.std.specs.Prelude.{◌≡◌, IfOk, map, string_bytes, true};
ghost use Rattle.tso_terms.specs.Condition.{TruthClaim, claim_of};
ghost use Rattle.refutation_checker.specs.Trees.{lemma_of, node_of};
ghost use Rattle.refutation_laws.specs.Refutations.{asked_claim};
ghost use Rattle.search_report.specs.Lines.{refutation_lines};
ghost use Rattle.search_report.specs.inner.LineViews.{reason_line_of};
ghost use Rattle.search_report.specs.RefutationReports.{refutation_in};

use crate::line_json::never_json;
use crate::line_layout::{add_given, add_lemmas, add_tree};
use crate::line_text::never_text;
use crate::lines::Line;
use reading_tables::tables::make_problem;
use refutation_checker::checking::asked_facts;
use refutation_checker::{Lemma, Node};
use refutation_laws::Model;
use std::alloc::Global;
use tso_terms::{NoMemory, Prop, Test};

/// The lines of a refutation of what the test asks. Without a condition it asks what is always true.
///
/// Errors: out of memory only.
fn lines_of<'t>(
    alloc: Global,
    test: &'t Test,
    always: &'t Prop,
    model: Model,
    lemmas: &[Lemma<'t>],
    tree: &[Node<'t>],
) -> Result<Vec<Line>, NoMemory>
    requires { claim_of always.now ≡ TruthClaim true }
    ensures { IfOk result (λ lines. map reason_line_of lines.items
        ≡ refutation_lines model test.now (asked_claim test.now.condition) (map lemma_of lemmas.now) (map node_of tree.now)) }
{
    let problem = make_problem(alloc, test)?;
    let given = asked_facts(alloc, &problem, always)?;
    let mut lines = Vec::new(alloc);
    add_given(alloc, &mut lines, &problem, &given)?;
    add_lemmas(alloc, &mut lines, &problem, model, &given, lemmas)?;
    add_tree(alloc, &mut lines, &problem, model, &given, tree)?;
    Ok(lines)
}

/// What is printed of a refutation of what the test asks, as lines of text or with `json` as a JSON value: what the claim gives,
/// lemmas, and cases, each with what closes it. Without a condition the test asks what is always true.
///
/// Errors: out of memory only.
pub fn refutation_report<'t>(
    alloc: Global,
    test: &'t Test,
    always: &'t Prop,
    model: Model,
    lemmas: &[Lemma<'t>],
    tree: &[Node<'t>],
    json: bool,
) -> Result<String, NoMemory>
    requires { claim_of always.now ≡ TruthClaim true }
    ensures { IfOk result (λ text. string_bytes text
        ≡ refutation_in json model test.now (map lemma_of lemmas.now) (map node_of tree.now)) }
{
    let lines = lines_of(alloc, test, always, model, lemmas, tree)?;
    if json {
        never_json(alloc, test, model, &lines)
    } else {
        never_text(alloc, test, model, &lines)
    }
}
