//! Laws of answers: there is one to an input, it meets the headline, and what it shows fits its test. Each is the contract of a
//! function that does nothing: who calls it knows it.

ghost use Rattle.std.specs.Prelude.{◌≡◌, ◌⊎◌, ℕ, Bool, List, Option, Some};
ghost use Rattle.tso_terms.specs.Runs.{run};
ghost use Rattle.tso_cli.specs.Answers.{IsAnswer, IsPrinted};
ghost use Rattle.tso_cli.specs.Fitting.{ChoicesAreCounted, EndedRunsFit, SweptCountsFit};
ghost use Rattle.tso_cli.specs.Headline.{Headline};
ghost use Rattle.tso_cli.specs.inner.ReadOneWay.{AreReadOneWay};
ghost use Rattle.command_line.specs.Limits.{IsWithinLimits};
ghost use Rattle.tso_cli.specs.OneText.{GivesOneAnswer, ShowTheSameStates, ShowsPart};
ghost use Rattle.command_line.specs.Search.{Search};
ghost use Rattle.litmus_tokens.specs.declared.instructions.Instructions.{Instructions};
ghost use Rattle.tso_cli.specs.declared.answer.Status.{Status};
ghost use Rattle.command_line.specs.declared.settings.Settings.{Settings};

use axiom_checker::first_breaches::{first_breach_is_one, first_breach_is_real};
use lemma_refutations::{no_run_meets_what_is_refuted, refutations_by_lemmas_are_sound};
use litmus_reader::test_texts::test_is_spelled_once;
use machine_runs::ended_runs_of_machines_are_executions;
use order_builder::order_texts::{order_can_be_printed, order_is_spelled_once};
use refutation_laws::refuted_questions_are_answered;
use scheduler::{printed_choices_are_spelled, texts_are_decided};
use search_report::alike_outcomes::outcomes_of_the_same_values_are_alike;
use tso_laws::{
    atomic_runs_are_flat_runs, choices_to_an_end_are_counted, ends_are_what_tso_allows,
    every_execution_is_reached, runs_are_counted, runs_on_either_bus_stop_where_they_end,
    smaller_depths_never_reach, whole_orders_have_each_entry_once,
};
use tso_report::report_texts::report_spells_its_order;

/// The runs of a machine fit their test: what is shown of a run that ended, and what is counted of a sweep, is as many
/// registers, words and counts as the test has, each one that a run can leave. Of the choices that a run was given each was
/// used or is left over.
pub fn runs_fit_their_tests()
    ensures ended { EndedRunsFit }
    ensures choices { ChoicesAreCounted }
    ensures swept { SweptCountsFit }
{
    ended_runs_of_machines_are_executions();
    whole_orders_have_each_entry_once();
    report_spells_its_order();
    atomic_runs_are_flat_runs();
    runs_on_either_bus_stop_where_they_end();
    order_can_be_printed();
}

/// What the crates below say of texts and orders: each is read in one way.
pub(crate) fn texts_are_read_one_way()
    ensures { AreReadOneWay }
{
    test_is_spelled_once();
    texts_are_decided();
    order_is_spelled_once();
    first_breach_is_one();
    first_breach_is_real();
}

/// There is one answer to an input: the same bytes, and the same status. Of `outcomes` it isn't said which of the choices that
/// lead to a state are printed; nor, where the machine can reach more states than may be kept, whether some states are printed or
/// all. Where both print all, the states are the same, in the same order, and so are the counts, the verdict and the status. Of
/// `why` it isn't said which refutation or which execution is printed.
pub fn inputs_have_one_answer()
    ensures commands { (s : Settings) (input out other : List ℕ) (status again : Status)
        → GivesOneAnswer s → IsAnswer s (Some input) out status → IsAnswer s (Some input) other again → (out ≡ other) × (status ≡ again) }
    ensures searches { (search : Search) (set : Instructions) (json assert : Bool) (input out other : List ℕ) (status again : Status)
        → IsPrinted status → IsPrinted again
        → IsAnswer (Settings.Outcomes search set json assert) (Some input) out status
        → IsAnswer (Settings.Outcomes search set json assert) (Some input) other again
        → (ShowTheSameStates search json out other × (status ≡ again)) ⊎ (ShowsPart search json out ⊎ ShowsPart search json other) }
{
    texts_are_read_one_way();
    outcomes_of_the_same_values_are_alike();
}

/// The headline holds of each answer that is made within the limits.
pub fn answers_meet_the_headline()
    ensures { (s : Settings) (known : Option (List ℕ)) (out : List ℕ) (status : Status)
        → IsWithinLimits s → IsAnswer s known out status → Headline s known out }
{
    texts_are_read_one_way();
    ended_runs_of_machines_are_executions();
    whole_orders_have_each_entry_once();
    report_spells_its_order();
    every_execution_is_reached();
    smaller_depths_never_reach();
    runs_are_counted();
    printed_choices_are_spelled();
    ends_are_what_tso_allows();
    choices_to_an_end_are_counted();
    refuted_questions_are_answered();
    refutations_by_lemmas_are_sound();
    no_run_meets_what_is_refuted();
}
