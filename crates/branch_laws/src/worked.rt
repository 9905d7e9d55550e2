//! Branching tests worked out by hand: what they may leave, and that they meet the premises of the laws.

ghost use Rattle.std.specs.Prelude.{ℕ, ◌≡◌, [], ◌∷◌, codes};
ghost use Rattle.branch_laws.specs.Branching.{IsBranchOutcome};
ghost use Rattle.branch_laws.specs.TreeMachine.{IsTreeEnd};
ghost use Rattle.branch_laws.specs.Rounds.{round, EachPathIsTest, AreEnough};
ghost use Rattle.branch_laws.specs.SamePaths.{HasTheSamePaths};
ghost use Rattle.branch_laws.specs.Shown.{AllCanShow, AreOwn};
ghost use Rattle.branch_laws.specs.WorkedTests.{try_lock, compare_and_exchange, counter, message, spin, message_keeps};

use crate::tree_ends_are_the_outcomes;

/// What worked tests may leave: of two cores that try a lock, the one that comes second doesn't get it;
/// of two compare-and-exchange from 0 the second fails; two additions are both counted; and who sees
/// the flag of a message reads the message.
pub fn worked_branches()
    ensures lock_is_reached { IsTreeEnd try_lock 32 ((1 ∷ []) ∷ ((0 ∷ []) ∷ [])) (1 ∷ (2 ∷ [])) }
    ensures lock { IsBranchOutcome try_lock ((1 ∷ []) ∷ ((0 ∷ []) ∷ [])) (1 ∷ (2 ∷ [])) }
    ensures exchange { IsBranchOutcome compare_and_exchange ((0 ∷ []) ∷ ((1 ∷ []) ∷ [])) (1 ∷ (0 ∷ [])) }
    ensures counted { IsBranchOutcome counter ((0 ∷ []) ∷ ((1 ∷ []) ∷ [])) (2 ∷ (0 ∷ [])) }
    ensures message_is_read { IsBranchOutcome message ([] ∷ ((1 ∷ (1 ∷ [])) ∷ [])) (1 ∷ (1 ∷ [])) }
{
    tree_ends_are_the_outcomes();
}

/// The premises of the laws are met: each path is a test; rounds are enough, and what some of them
/// have; a loop that waits for a flag has the paths of its last round; keepings serve a message.
pub fn branch_premises_are_met()
    ensures lock_tests { EachPathIsTest try_lock }
    ensures exchange_tests { EachPathIsTest compare_and_exchange }
    ensures counter_tests { EachPathIsTest counter }
    ensures message_tests { EachPathIsTest message }
    ensures lock_round_of_y { round try_lock 1 1 ≡ 0 ∷ (2 ∷ []) }
    ensures counter_round_of_x { round counter 1 0 ≡ 0 ∷ (1 ∷ (1 ∷ [])) }
    ensures counter_rounds { AreEnough counter 4 }
    ensures last_round { (n : ℕ) → HasTheSamePaths 2 (spin n) (spin 1) }
    ensures keeps_show { AllCanShow message.trees ([] ∷ ((1 ∷ (1 ∷ [])) ∷ [])) message_keeps }
    ensures keeps_are_own { AreOwn message (codes "z" ∷ []) message_keeps }
{}
