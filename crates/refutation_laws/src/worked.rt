//! Worked refutations, on which the definition can be held against the eye.

ghost use Rattle.std.specs.Prelude.{◌≡◌, true, false, List};
ghost use Rattle.tso_terms.specs.Examples.{sb, n6};
ghost use Rattle.relational_model.specs.WorkedCandidates.{passing, fenced, independent, between, unseen};
ghost use Rattle.refutation_laws.specs.Refutations.{Node, refutes};
ghost use Rattle.refutation_laws.specs.Worked.{both_zero, sb_refuted, fenced_refuted, passed, passing_refuted};
ghost use Rattle.refutation_laws.specs.Worked.{opposite, independent_refuted, other_first, n6_refuted, own_last};
ghost use Rattle.refutation_laws.specs.Worked.{lost, between_refuted, not_seen, unseen_refuted, unwritten, unwritten_refuted};
ghost use Rattle.refutation_laws.specs.declared.model.Model.TheVariants.{Tso, Sequential};

use crate::refuted_claims::refuted_claims_are_false;
use relational_model::worked_candidates;

/// These trees refute: store buffering under sequential consistency, and with fences under x86-TSO;
/// message passing; the independent reads of independent writes; what n6 doesn't allow; a store between
/// the parts of a locked addition; a load that doesn't see its own core's store, by uniproc alone; a
/// value that nothing writes, by values alone. No tree refutes what x86-TSO allows of store buffering
/// and of n6.
pub fn worked_refutations()
    ensures sb_is_refuted { refutes Sequential sb both_zero sb_refuted ≡ true }
    ensures fenced_is_refuted { refutes Tso fenced both_zero fenced_refuted ≡ true }
    ensures passing_is_refuted { refutes Tso passing passed passing_refuted ≡ true }
    ensures independent_is_refuted { refutes Tso independent opposite independent_refuted ≡ true }
    ensures n6_is_refuted { refutes Tso n6 other_first n6_refuted ≡ true }
    ensures between_is_refuted { refutes Tso between lost between_refuted ≡ true }
    ensures unseen_is_refuted { refutes Tso unseen not_seen unseen_refuted ≡ true }
    ensures unwritten_is_refuted { refutes Tso unseen unwritten unwritten_refuted ≡ true }
    ensures sb_has_none { (nodes : List Node) → refutes Tso sb both_zero nodes ≡ false }
    ensures n6_has_none { (nodes : List Node) → refutes Tso n6 own_last nodes ≡ false }
{
    refuted_claims_are_false();
    worked_candidates();
}
