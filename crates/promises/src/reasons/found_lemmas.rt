//! What a search for a refutation by lemmas answers, said again in plain terms.

ghost use Rattle.std.specs.Prelude.{◌≡◌, true, List, IfOk};
ghost use Rattle.refutation_laws.specs.Refutations.{asked_claim};
ghost use Rattle.lemma_refutations.specs.Refutations.{Lemma, Node, refutes};

use found_reasons::{Reason, explain};
use refutation_laws::Model;
use std::alloc::Global;
use tso_terms::{NoMemory, Test};

/// Whether a search finds that what the test asks never is. Then lemmas and a tree refute it.
pub fn never_is_said_of_what_is_refuted(
    alloc: Global,
    test: &Test,
    model: Model,
    limit: usize,
) -> Result<bool, NoMemory>
    ensures { IfOk result (λ b. b ≡ true
        → (lemmas : List Lemma) × (tree : List Node) × (refutes model test.now (asked_claim test.now.condition) lemmas tree ≡ true)) }
{
    match explain(alloc, test, model, limit)? {
        Reason::Never(_lemmas, _tree) => Ok(true),
        Reason::Allowed(_execution) => Ok(false),
        Reason::TooMany => Ok(false),
    }
}
