//! What a branch of a refutation knows: the answers on the way to it. Reads-from, coherence and from-reads follow from these
//! alone. (Herding Cats, section 4: rf, co and fr.)
ghost use Rattle.std.specs.Prelude.{◌≡◌};
ghost use Rattle.refutation_laws.specs.Known as spec;
ghost use Rattle.refutations.specs.inner.Trees.{known_of};

use crate::events::{same_event, writes_to};
use refutation_laws::{Pair, Source};
use tso_terms::{Entry, Test};

/// The answers of a branch, the last one first.
pub struct Answers {
    /// Reads, each with the write that it reads from.
    pub sources: Vec<Source>,
    /// Writes to a location, two by two in their coherence order.
    pub order: Vec<Pair>,
}

// Said by hand, so that who lets it go makes one call, and not one for each part.
impl Drop for Answers {
    fn drop(self) {
        let Answers {
            sources: _sources,
            order: _order,
        } = self;
    }
}

/// A branch of a refutation: a test with its events, and the answers on the way to the branch.
#[derive(Clone, Copy)]
pub struct Branch<'t> {
    pub test: &'t Test,
    pub events: &'t [Entry],
    pub answers: &'t Answers,
}

/// Whether it is an answer that r reads from w.
pub fn reads_from(answers: &Answers, w: &Entry, r: &Entry) -> bool
    ensures { result ≡ spec.reads_from (known_of answers.now) w.now r.now }
{
    for s in &answers.sources {
        match &s.write {
            Some(v) if same_event(&s.read, r) && same_event(v, w) => return true,
            _ => {}
        }
    }
    false
}

/// Whether it is an answer that w comes before v in coherence.
pub fn comes_before(answers: &Answers, w: &Entry, v: &Entry) -> bool
    ensures { result ≡ spec.comes_before (known_of answers.now) w.now v.now }
{
    for p in &answers.order {
        if same_event(&p.first, w) && same_event(&p.second, v) {
            return true;
        }
    }
    false
}

/// Whether v comes after what r reads from, by the answers.
pub fn from_reads(answers: &Answers, r: &Entry, v: &Entry) -> bool
    ensures { result ≡ spec.from_reads (known_of answers.now) r.now v.now }
{
    for s in &answers.sources {
        if !same_event(&s.read, r) {
            continue;
        }
        let is_overwritten = match &s.write {
            None => writes_to(r.loc.0, v),
            Some(w) => comes_before(answers, w, v),
        };
        if is_overwritten {
            return true;
        }
    }
    false
}
