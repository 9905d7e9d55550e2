//! What `outcomes` prints tells the final states and in which of them the condition's proposition is true; and its word and its
//! verdict mean what they say.

ghost use Rattle.std.specs.Prelude.{Bool, true, false, codes};
ghost use Rattle.litmus_tokens.specs.declared.instructions.Instructions.{Instructions};
ghost use Rattle.printed_laws.specs.Observed.{WordMeans, IsSoNowhere, IsAlwaysSo, IsSometimesSo};
ghost use Rattle.printed_laws.specs.Outcomes.{OutcomesTellTheirStates, OutcomesTellTheirTests, PrintedStatesFit};
ghost use Rattle.printed_laws.specs.Verdicts.{VerdictMeans, IsAsClaimed, IsNotAsClaimed, VerdictsAgree, StatusTells, StatusTellsNoVerdict};
ghost use Rattle.printed_laws.specs.Verdicts.{TrueNamesTrueStates, HoldsTellsTrueStates};
ghost use Rattle.command_line.specs.Explanation.{Explanation};
ghost use Rattle.command_line.specs.Search.{Search};
ghost use Rattle.search_report.specs.Verdict.{verdict_word};
ghost use Rattle.command_line.specs.declared.settings.Settings.{Settings};
ghost use Rattle.tso_cli.specs.declared.answer.Status.TheVariants.{Good, NotAsClaimed};

use litmus_reader::test_texts::test_is_spelled_once;
use search_report::alike_outcomes::truth_is_shown;
use tso_laws::{ends_are_what_tso_allows, values_are_words};

/// `Never`, plain or as JSON, means that no run at that depth makes the proposition true, and at depth 32 no TSO execution;
/// `Always` that each does; `Sometimes` that one does and another doesn't.
pub fn words_mean_what_they_say()
    ensures never { WordMeans (codes "Never") IsSoNowhere }
    ensures always { WordMeans (codes "Always") IsAlwaysSo }
    ensures sometimes { WordMeans (codes "Sometimes") IsSometimesSo }
{
    test_is_spelled_once();
    ends_are_what_tso_allows();
    truth_is_shown();
}

/// `Verdict Ok`, plain or as JSON, means of `exists` that a run at that depth makes the proposition true, of `~exists` that none
/// does, and of `forall` that each does; so it is at depth 32 of TSO executions, and at depth 0 of sequentially consistent ones.
/// `Verdict No` means the converse.
pub fn verdicts_mean_what_they_say()
    ensures ok { VerdictMeans (codes "Ok") IsAsClaimed }
    ensures no { VerdictMeans (codes "No") IsNotAsClaimed }
{
    test_is_spelled_once();
    ends_are_what_tso_allows();
    truth_is_shown();
}

/// Of one input `why` prints the verdict that `outcomes` prints at depth 32, and for sequential consistency the one at depth 0.
pub fn both_commands_print_one_verdict()
    ensures { VerdictsAgree }
{
    test_is_spelled_once();
    truth_is_shown();
}

/// Where it is asserted that the condition is as it claims, the status of an answer with `Verdict No` tells that it isn't, and with
/// `Verdict Ok` it is that of success. Where nothing is asserted, it is that of success too, unless a search met its limit.
pub fn statuses_tell_the_verdict()
    ensures outcomes_no { (search : Search) (set : Instructions) (json : Bool)
        → StatusTells (Settings.Outcomes search set json true) json (codes "No") NotAsClaimed }
    ensures outcomes_ok { (search : Search) (set : Instructions) (json : Bool) → StatusTells (Settings.Outcomes search set json true) json (codes "Ok") Good }
    ensures outcomes_unasserted { (search : Search) (set : Instructions) (json verdict : Bool)
        → StatusTellsNoVerdict (Settings.Outcomes search set json false) json (verdict_word verdict) }
    ensures why_no { (plan : Explanation) (set : Instructions) (json : Bool) → StatusTells (Settings.Why plan set json true) json (codes "No") NotAsClaimed }
    ensures why_ok { (plan : Explanation) (set : Instructions) (json assert : Bool) → StatusTells (Settings.Why plan set json assert) json (codes "Ok") Good }
    ensures why_unasserted { (plan : Explanation) (set : Instructions) (json : Bool) → StatusTells (Settings.Why plan set json false) json (codes "No") Good }
{
    test_is_spelled_once();
}

/// `True` names exactly the states in which the condition's proposition is true, and `holds` of a state as JSON tells whether it is
/// true there.
pub fn true_names_the_true_states()
    ensures lines { TrueNamesTrueStates }
    ensures json { HoldsTellsTrueStates }
{
    truth_is_shown();
}

/// What `outcomes` prints of a test, as lines or as JSON, tells the depth, the values of each state and the choices that lead
/// there, and in how many states, and in which, the condition's proposition is true.
pub fn outcomes_tell_their_states()
    ensures lines { OutcomesTellTheirStates false }
    ensures json { OutcomesTellTheirStates true }
{}

/// What `outcomes` prints, as lines or as JSON, tells the test's name and the depth.
pub fn outcomes_tell_their_tests()
    ensures lines { OutcomesTellTheirTests false }
    ensures json { OutcomesTellTheirTests true }
{}

/// What `outcomes` shows of each state is a word for each register and location that is shown.
pub fn printed_states_fit_their_test()
    ensures { PrintedStatesFit }
{
    values_are_words();
}
