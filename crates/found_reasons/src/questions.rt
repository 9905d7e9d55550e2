//! Which question of a case is still open.
ghost use Rattle.std.specs.Prelude.{◌≡◌, true, false};
ghost use Rattle.refutation_laws.specs.Known.{events_of};
ghost use Rattle.refutation_laws.specs.inner.FullCases.{has_source, are_ordered, may_ask, is_answered};
ghost use Rattle.refutations.specs.inner.Trees.{node_of, known_of};
ghost use Rattle.found_reasons.specs.inner.Questions as spec;

use refutations::answers::comes_before;
use refutations::events::{is_event, is_read, is_write, may_come_first, same_event, writes_to};
use refutations::{Answers, Node};
use tso_terms::{Entry, Test};

/// Whether an answer says what the read reads from.
pub fn is_read_known(answers: &Answers, r: &Entry) -> bool
    ensures { result ≡ has_source (known_of answers.now) r.now }
{
    for s in &answers.sources {
        if same_event(&s.read, r) {
            return true;
        }
    }
    false
}

/// Whether an answer says which of two writes comes first.
pub fn is_order_known(answers: &Answers, w: &Entry, v: &Entry) -> bool
    ensures { result ≡ are_ordered (known_of answers.now) w.now v.now }
{
    comes_before(answers, w, v) || comes_before(answers, v, w)
}

fn is_unordered(answers: &Answers, w: &Entry, v: &Entry) -> bool
    ensures { result ≡ spec.is_unordered (known_of answers.now) w.now v.now }
{
    is_write(w) && writes_to(w.loc.0, v) && !same_event(w, v) && !is_order_known(answers, w, v)
}

/// The first question that no answer settles: what a read reads from, or which of two writes comes
/// first.
pub fn next_question(events: &[Entry], answers: &Answers) -> Option<Node>
    ensures { result ≡ spec.next_question (known_of answers.now) events.now }
{
    for r in events {
        if is_read(r) && !is_read_known(answers, r) {
            return Some(Node::ReadsFrom(*r));
        }
    }
    for w in events {
        for v in events {
            if is_unordered(answers, w, v) {
                return Some(Node::ComesFirst(*w, *v));
            }
        }
    }
    None
}

/// Whether a node is a question that may be asked, and that no answer settles.
pub fn is_open_question(test: &Test, events: &[Entry], answers: &Answers, node: &Node) -> bool
    requires { events.now ≡ events_of test.now }
    ensures { result ≡ true → (may_ask test.now (node_of node.now) ≡ true) × (is_answered (known_of answers.now) (node_of node.now) ≡ false) }
{
    match node {
        Node::ReadsFrom(r) => {
            is_event(test, events, r) && is_read(r) && !is_read_known(answers, r)
        }
        Node::ComesFirst(w, v) => {
            may_come_first(test, events, w, v) && !is_order_known(answers, w, v)
        }
        _ => false,
    }
}
