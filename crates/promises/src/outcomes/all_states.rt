//! All final states: what a search finds, and what is printed of it: no state is missed, and none is printed that can't be
//! reached.

ghost use Rattle.std.specs.Prelude.{◌≡◌, ◌↔◌, ◌⊎◌, ℕ, Bool, true, IfErr, IfOk, List, [], Some, slice_get};
ghost use Rattle.litmus_tokens.specs.declared.instructions.Instructions.{Instructions};
ghost use Rattle.tso_terms.specs.Condition.{Condition, truth_of};
ghost use Rattle.tso_terms.specs.Litmus.{Litmus, IsTest};
ghost use Rattle.basic_laws.specs.Types.{Atomic, Choice};
ghost use Rattle.tso_laws.specs.Outcomes.{IsAllowedByTso, IsAllowedSequentially};
ghost use Rattle.tso_terms.specs.FlatMachine.{State};
ghost use Rattle.tso_terms.specs.Runs.{run};
ghost use Rattle.tso_laws.specs.Closed.{AreClosed, IsAlikeOneOf};
ghost use Rattle.tso_laws.specs.WellFormed.{IsWellFormed};
ghost use Rattle.tso_laws.specs.Dead as dead;
ghost use Rattle.tso_laws.specs.Exchanged.{AreAllAlike};
ghost use Rattle.explorer.specs.Settled.{LeadsToForgotten, LeadsBy};
ghost use Rattle.explorer.specs.FinalStates.{AreReached, HaveEveryEnd, HasMoreStates, AreDistinct, AreWhatTsoAllows};
ghost use Rattle.explorer.specs.FinalStates.{AreWhatSequentialConsistencyAllows, AreAmong, Have};
ghost use Rattle.search_report.specs.Hidden.{AreNotShown};
ghost use Rattle.explorer.specs.declared.fault.ExploreFault.{ExploreFault};
ghost use Rattle.explorer.specs.declared.final_states.FinalState.{FinalState};
ghost use Rattle.protocol_tables.specs.declared.kind.ProtocolKind.{ProtocolKind};
ghost use Rattle.multiprocessor.specs.Configuration.{Configuration};
ghost use Rattle.search_report.specs.Outcomes.{Outcome, ArePrinted, shown_values};
ghost use Rattle.search_report.specs.Laws.{OutcomesAreAlike};
ghost use Rattle.command_line.specs.Limits.{IsWithinLimits};
ghost use Rattle.command_line.specs.Search.{Search};
ghost use Rattle.command_line.specs.declared.settings.Settings.{Settings};
ghost use Rattle.tso_cli.specs.Answers.{IsAnswer, IsPrinted};
ghost use Rattle.tso_cli.specs.OneText.{ShowTheSameStates, ShowsPart};
ghost use Rattle.tso_cli.specs.Dividing.{parts_of, IsJoinable};
ghost use Rattle.tso_cli.specs.Revisited.{AreRevisited};
ghost use Rattle.tso_cli.specs.declared.answer.Status.{Status};
ghost use Rattle.tso_cli.specs.declared.answer.Status.TheVariants.{Refused};
ghost use Rattle.tso_report.specs.ShownNames.{names_shown};
ghost use Rattle.tso_report.specs.declared.show.Show.{Show};

use explorer::{Exploration, ExploreFault, explore};
use search_report::alike_outcomes::{outcomes_are_one_but_for_choices, truth_is_shown};
use std::alloc::Global;
use tso_cli::answers::inputs_have_one_answer;
use tso_cli::round_trips::searches_reach_their_states;
use tso_laws::{closed_states_miss_none, dead_registers_change_nothing};
use tso_terms::Test;

/// Each state that a search finds is reached, and none that runs end in is missed; or the machine can reach more than may be kept.
/// With buffers of 32 stores it finds what TSO allows, without buffers what sequential consistency allows, each once, but
/// for registers that nobody looks at.
pub fn a_search_finds_what_is_allowed(
    alloc: Global,
    test: &Test,
    depth: u8,
    limit: usize,
    hidden: &[[bool; 6]],
) -> Result<Exploration, ExploreFault>
    ensures reached { IfOk result (λ x. AreReached test.now depth x.final_states.items) }
    ensures complete { IfOk result (λ x. HaveEveryEnd test.now depth hidden.now x.final_states.items) }
    ensures too_many { IfErr result (λ fault. fault ≡ ExploreFault.TooMany → HasMoreStates test.now depth limit) }
    ensures tso { IfOk result (λ x. depth ≡ 32 → AreWhatTsoAllows test.now hidden.now x.final_states.items) }
    ensures sequential { IfOk result (λ x. depth ≡ 0 → AreWhatSequentialConsistencyAllows test.now hidden.now x.final_states.items) }
    ensures once { IfOk result (λ x. AreDistinct hidden.now x.final_states.items) }
{
    explore(alloc, test, depth, limit, hidden)
}

/// Where no register is hidden, they are exactly the final states that are allowed.
pub fn where_no_register_is_hidden_they_are_exactly_those()
    ensures tso { (t : Litmus) (finals : List FinalState) (registers : List (List ℕ)) (memory : List ℕ) → AreWhatTsoAllows t [] finals
        → AreAmong finals registers memory ↔ IsAllowedByTso t registers memory }
    ensures sequential { (t : Litmus) (finals : List FinalState) (registers : List (List ℕ)) (memory : List ℕ)
        → AreWhatSequentialConsistencyAllows t [] finals → AreAmong finals registers memory ↔ IsAllowedSequentially t registers memory }
    ensures once { (finals : List FinalState) (i j : ℕ) (f g : FinalState) → AreDistinct [] finals → slice_get finals i ≡ Some f
        → slice_get finals j ≡ Some g → f.registers.items ≡ g.registers.items → f.memory.items ≡ g.memory.items → i ≡ j }
{
    dead_registers_change_nothing();
}

/// Choices that lead to a state which a search keeps lead to one that differs from it in dead registers alone.
pub fn what_is_kept_is_reached_but_for_dead_registers()
    ensures { (depth : ℕ) (t : Litmus) (hidden : List (List Bool)) (state kept : State) (choices : List Choice)
        → LeadsToForgotten depth t hidden state choices kept → (last : State) × LeadsBy depth t state choices last × dead.AreAlike t hidden kept last }
{
    dead_registers_change_nothing();
}

/// Of states that are closed under choices one is what a run that ends leaves, but for dead registers and swapped identical cores.
pub fn closed_states_have_each_end()
    ensures { (depth : ℕ) (t : Litmus) (hidden : List (List Bool)) (pairs : List (ℕ × ℕ)) (states : List State) (choices : List Choice)
        → IsWellFormed t → AreAllAlike t hidden pairs → AreClosed depth t hidden pairs states → (run t depth choices).ended ≡ true
        → IsAlikeOneOf t hidden pairs states (run t depth choices).state }
{
    closed_states_miss_none();
}

/// Of two states that look alike the condition's proposition is true in both, or in none.
pub fn states_that_look_alike_have_one_truth()
    ensures { (show : Show) (t : Litmus) (condition : Condition) (o p : Outcome) → IsTest t → t.condition ≡ Some condition
        → shown_values (names_shown show t) o ≡ shown_values (names_shown show t) p
        → truth_of o.registers o.memory condition.claim ≡ truth_of p.registers p.memory condition.claim }
{
    truth_is_shown();
}

/// Of final states that are the same but for registers that no value shows the same is printed, but for the choices.
pub fn the_same_states_are_printed_alike()
    ensures { (show : Show) (t : Litmus) (hidden : List (List Bool)) (finals others : List FinalState) (outcomes again : List Outcome)
        → IsTest t → AreNotShown (names_shown show t) hidden
        → ((registers : List (List ℕ)) (memory : List ℕ) → Have hidden finals registers memory ↔ Have hidden others registers memory)
        → ArePrinted (names_shown show t) finals outcomes → ArePrinted (names_shown show t) others again
        → OutcomesAreAlike t (names_shown show t) outcomes again }
{
    outcomes_are_one_but_for_choices();
}

/// Two answers of `outcomes` that print states print the same ones, with one status; or one of them says that it prints some.
pub fn two_answers_show_the_same_states()
    ensures { (search : Search) (set : Instructions) (json assert : Bool) (input out other : List ℕ) (status again : Status)
        → IsPrinted status
        → IsPrinted again
        → IsAnswer (Settings.Outcomes search set json assert) (Some input) out status
        → IsAnswer (Settings.Outcomes search set json assert) (Some input) other again
        → (ShowTheSameStates search json out other × (status ≡ again)) ⊎ (ShowsPart search json out ⊎ ShowsPart search json other) }
{
    inputs_have_one_answer();
}

/// The choices of each printed state, handed to `run`, end there.
pub fn printed_choices_end_in_their_states()
    ensures { (kind : ProtocolKind) (c : Configuration) (set : Instructions) (search : Search) (json told assert : Bool) (input out : List ℕ) (status : Status)
        → c.bus ≡ Atomic → search.depth ≡ c.depth → IsWithinLimits (Settings.Run kind c set json) → IsJoinable (parts_of input).test
        → ¬ (status ≡ Refused) → IsAnswer (Settings.Outcomes search set told assert) (Some input) out status
        → AreRevisited kind c set search json told (parts_of input).test out }
{
    searches_reach_their_states();
}
