//! What `Verdict` and `True` mean, said again in the words of TSO executions and sequentially consistent ones; and that `why`, the status
//! and the states agree with them.

ghost use Rattle.std.specs.Prelude.{◌+◌, ◌<◌, ◌≡◌, ◌≤◌, ◌↔◌, ◌++◌, Bool, Contains, List, Some, codes, false, length, slice_get, true, ℕ};
ghost use Rattle.litmus_tokens.specs.declared.instructions.Instructions.{Instructions};
ghost use Rattle.command_line.specs.Explanation.{Explanation};
ghost use Rattle.command_line.specs.Search.{Search};
ghost use Rattle.command_line.specs.declared.settings.Settings.{Settings};
ghost use Rattle.tso_cli.specs.Dividing.{parts_of};
ghost use Rattle.tso_cli.specs.declared.answer.Status.{Status};
ghost use Rattle.tso_cli.specs.declared.answer.Status.TheVariants.{Good, NotAsClaimed};
ghost use Rattle.litmus_reader.specs.Spelling.{SpellsTest};
ghost use Rattle.tso_laws.specs.Outcomes.{IsSequentiallyConsistent};
ghost use Rattle.search_report.specs.Outcomes.{Outcome, printed_numbers, shown_values};
ghost use Rattle.search_report.specs.OutcomesJson.{holds_in};
ghost use Rattle.search_report.specs.Verdict.{verdict_word};
ghost use Rattle.printed_laws.specs.Observed.{truth_after};
ghost use Rattle.printed_laws.specs.Verdicts.{IsAsClaimed, IsNotAsClaimed, NamesTrueStates, NumbersOfTrueStates};
ghost use Rattle.printed_laws.specs.Verdicts.{EndsInNumbers, EndsInVerdict, EndsInVerdictMember, PrintsVerdict, StatusTells};
ghost use Rattle.printed_laws.specs.Verdicts.{StatusTellsNoVerdict, VerdictMeans, VerdictsAgree};
ghost use Rattle.tso_report.specs.ShownNames.{names_shown, values_at};
ghost use Rattle.tso_cli.specs.OutcomesHeadline.{PrintsAllOutcomes};
ghost use Rattle.tso_terms.specs.Axioms.{IsTsoExecution};
ghost use Rattle.tso_terms.specs.Condition.{Claim, Condition, truth_of};
ghost use Rattle.tso_terms.specs.Litmus.{IsTest, Litmus};
ghost use Rattle.basic_laws.specs.Types.{Exists, Forall, NotExists, Entry};
ghost use Rattle.tso_report.specs.Report.{line};
ghost use Rattle.tso_report.specs.declared.named.Named.{Named};

use printed_laws::{
    both_commands_print_one_verdict, statuses_tell_the_verdict, true_names_the_true_states,
    verdicts_mean_what_they_say,
};

/// `Ok` is so of a condition that is as it claims, and `No` of one that isn't.
pub fn a_verdict_means_what_it_says()
    ensures ok { VerdictMeans (codes "Ok") IsAsClaimed }
    ensures no { VerdictMeans (codes "No") IsNotAsClaimed }
{
    verdicts_mean_what_they_say();
}

/// At depth 32, where a condition is as it claims: of `exists` a TSO execution makes the proposition true, of `~exists` none does, and
/// of `forall` each does.
pub fn what_is_as_claimed_by_tso()
    ensures exists { (t : Litmus) (claim : Claim) → IsAsClaimed Exists t 32 claim
        → (order : List Entry) × IsTsoExecution t order × (truth_after t claim order ≡ true) }
    ensures not_exists { (t : Litmus) (claim : Claim) → IsAsClaimed NotExists t 32 claim
        → (order : List Entry) → IsTsoExecution t order → truth_after t claim order ≡ false }
    ensures forall_each { (t : Litmus) (claim : Claim) → IsAsClaimed Forall t 32 claim
        → (order : List Entry) → IsTsoExecution t order → truth_after t claim order ≡ true }
{}

/// At depth 32, where it isn't: of `exists` no TSO execution makes the proposition true, of `~exists` one does, and of `forall` one makes
/// it false.
pub fn what_is_not_as_claimed_by_tso()
    ensures exists { (t : Litmus) (claim : Claim) → IsNotAsClaimed Exists t 32 claim
        → (order : List Entry) → IsTsoExecution t order → truth_after t claim order ≡ false }
    ensures not_exists { (t : Litmus) (claim : Claim) → IsNotAsClaimed NotExists t 32 claim
        → (order : List Entry) × IsTsoExecution t order × (truth_after t claim order ≡ true) }
    ensures forall_each { (t : Litmus) (claim : Claim) → IsNotAsClaimed Forall t 32 claim
        → (order : List Entry) × IsTsoExecution t order × (truth_after t claim order ≡ false) }
{}

/// At depth 0 both are so of sequentially consistent executions.
pub fn what_is_as_claimed_sequentially()
    ensures exists { (t : Litmus) (claim : Claim) → IsAsClaimed Exists t 0 claim
        → (order : List Entry) × IsSequentiallyConsistent t order × (truth_after t claim order ≡ true) }
    ensures not_exists { (t : Litmus) (claim : Claim) → IsAsClaimed NotExists t 0 claim
        → (order : List Entry) → IsSequentiallyConsistent t order → truth_after t claim order ≡ false }
    ensures forall_each { (t : Litmus) (claim : Claim) → IsAsClaimed Forall t 0 claim
        → (order : List Entry) → IsSequentiallyConsistent t order → truth_after t claim order ≡ true }
    ensures exists_not { (t : Litmus) (claim : Claim) → IsNotAsClaimed Exists t 0 claim
        → (order : List Entry) → IsSequentiallyConsistent t order → truth_after t claim order ≡ false }
    ensures not_exists_not { (t : Litmus) (claim : Claim) → IsNotAsClaimed NotExists t 0 claim
        → (order : List Entry) × IsSequentiallyConsistent t order × (truth_after t claim order ≡ true) }
    ensures forall_not { (t : Litmus) (claim : Claim) → IsNotAsClaimed Forall t 0 claim
        → (order : List Entry) × IsSequentiallyConsistent t order × (truth_after t claim order ≡ false) }
{}

/// A text ends in its verdict as a line, and an object as its last member.
pub fn a_verdict_stands_at_the_end()
    ensures line { (word out : List ℕ) → EndsInVerdict word out → (front : List ℕ) × (out ≡ front ++ (codes "\nVerdict " ++ line word)) }
    ensures member { (word out : List ℕ) → EndsInVerdictMember word out
        → (front : List ℕ) × (out ≡ front ++ (codes ",\"verdict\":\"" ++ (word ++ codes "\"}\n"))) }
{}

/// Of one input both commands print one verdict: `why` and, at its model's depth, `outcomes`.
pub fn why_and_outcomes_agree()
    ensures { VerdictsAgree }
{
    both_commands_print_one_verdict();
}

/// With `Verdict No` the status is 4 where that is asserted, and with `Verdict Ok` 0; where nothing is asserted it is 0, or 3 of a search
/// that met its limit.
pub fn a_status_tells_the_verdict()
    ensures outcomes_no { (search : Search) (set : Instructions) (json : Bool)
        → StatusTells (Settings.Outcomes search set json true) json (codes "No") NotAsClaimed }
    ensures outcomes_ok { (search : Search) (set : Instructions) (json : Bool) → StatusTells (Settings.Outcomes search set json true) json (codes "Ok") Good }
    ensures outcomes_unasserted { (search : Search) (set : Instructions) (json verdict : Bool)
        → StatusTellsNoVerdict (Settings.Outcomes search set json false) json (verdict_word verdict) }
    ensures why_no { (plan : Explanation) (set : Instructions) (json : Bool) → StatusTells (Settings.Why plan set json true) json (codes "No") NotAsClaimed }
    ensures why_ok { (plan : Explanation) (set : Instructions) (json assert : Bool) → StatusTells (Settings.Why plan set json assert) json (codes "Ok") Good }
    ensures why_unasserted { (plan : Explanation) (set : Instructions) (json : Bool) → StatusTells (Settings.Why plan set json false) json (codes "No") Good }
{
    statuses_tell_the_verdict();
}

/// Where states are printed as lines, `True` names those in which the proposition is true; as JSON `holds` tells of each.
pub fn the_true_states_are_named()
    ensures lines { (t : Litmus) (search : Search) (out : List ℕ) (condition : Condition) → IsTest t → t.condition ≡ Some condition
        → (said : PrintsAllOutcomes t search false out) → NamesTrueStates t search condition.claim said.outcomes out }
    ensures json { (t : Litmus) (search : Search) (out : List ℕ) (condition : Condition) → IsTest t → t.condition ≡ Some condition
        → (said : PrintsAllOutcomes t search true out) (o : Outcome) (registers : List (List ℕ)) (memory : List ℕ) → Contains said.outcomes o
        → values_at (names_shown search.show t) registers memory ≡ shown_values (names_shown search.show t) o
        → holds_in t.condition o ≡ Some (truth_of registers memory condition.claim) }
{
    true_names_the_true_states();
}

/// The last line but one is `True` with the numbers, from 1, of the lines whose values make the proposition true.
pub fn numbers_name_the_true_states()
    ensures last { (t : Litmus) (search : Search) (claim : Claim) (outcomes : List Outcome) (out : List ℕ)
        (said : NamesTrueStates t search claim outcomes out) → (front : List ℕ) × (verdict : Bool)
        × (out ≡ front ++ (codes "\nTrue" ++ (line (printed_numbers said.numbers) ++ (codes "Verdict " ++ line (verdict_word verdict))))) }
    ensures named { (t : Litmus) (search : Search) (claim : Claim) (outcomes : List Outcome) (out : List ℕ)
        (said : NamesTrueStates t search claim outcomes out)
        (i : ℕ) (o : Outcome) (registers : List (List ℕ)) (memory : List ℕ) → slice_get outcomes i ≡ Some o
        → values_at (names_shown search.show t) registers memory ≡ shown_values (names_shown search.show t) o
        → Contains said.numbers (i + 1) ↔ (truth_of registers memory claim ≡ true) }
    ensures within { (t : Litmus) (search : Search) (claim : Claim) (outcomes : List Outcome) (out : List ℕ)
        (said : NamesTrueStates t search claim outcomes out) (n : ℕ) → Contains said.numbers n → (0 < n) × (n ≤ length outcomes) }
{}
