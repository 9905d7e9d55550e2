//! Which final states are found and shown: what needs no deeper buffers is found, registers that nobody looks at are hidden, and each
//! line `By` of a text leads to the line above it.

ghost use Rattle.std.specs.Prelude.{◌≡◌, ◌<◌, ◌≤◌, ℕ, All, Bool, true, false, IfOk, List, length, Some, None};
ghost use Rattle.litmus_tokens.specs.declared.instructions.Instructions.{Instructions};
ghost use Rattle.tso_terms.specs.Condition.{Condition};
ghost use Rattle.basic_laws.specs.Types.{Atomic, Reg};
ghost use Rattle.tso_laws.specs.Outcomes.{IsAllowedAtDepth};
ghost use Rattle.explorer.specs.FinalStates.{AreDistinct, AreReached, AreWhat, HaveEveryEnd, HasMoreStates};
ghost use Rattle.explorer.specs.declared.search.Extent.{Extent};
ghost use Rattle.protocol_tables.specs.declared.kind.ProtocolKind.{ProtocolKind};
ghost use Rattle.multiprocessor.specs.Configuration.{Configuration};
ghost use Rattle.tso_report.specs.Tally.{claim_names_register, named_register};
ghost use Rattle.tso_report.specs.inner.Tally.{NameExists};
ghost use Rattle.tso_report.specs.ShownNames as shown;
ghost use Rattle.tso_report.specs.ShownNames.{is_shown};
ghost use Rattle.search_report.specs.Hidden.{AreNotShown, IsHidden};
ghost use Rattle.command_line.specs.Limits.{IsWithinLimits};
ghost use Rattle.command_line.specs.Search.{Search};
ghost use Rattle.command_line.specs.declared.settings.Settings.{Settings};
ghost use Rattle.tso_cli.specs.Dividing.{parts_of, IsJoinable};
ghost use Rattle.tso_cli.specs.declared.answer.Status.{Status};
ghost use Rattle.tso_cli.specs.declared.answer.Status.TheVariants.{Refused};
ghost use Rattle.tso_cli.specs.Answers.{IsAnswer};
ghost use Rattle.tso_cli.specs.OneSearch.{AreOneSearch};
ghost use Rattle.promises.specs.Searched.{LinesAreRunAgain};

use explorer::{Exploration, ExploreFault, Met, Watcher, explore, explore_watched};
use search_report::hidden_registers;
use std::alloc::Global;
use tso_cli::answers::answers_meet_the_headline;
use tso_cli::headline_laws::headlines_leave_one_text;
use tso_cli::round_trips::searches_reach_their_states;
use tso_laws::ends_are_what_tso_allows;
use tso_report::named::Named;
use tso_report::{Show, names_shown};
use tso_terms::{NoMemory, Test};

/// With store buffers a search finds the final states of the TSO executions that need no deeper ones, but for registers that nobody
/// looks at.
pub fn a_search_finds_what_needs_no_more(
    alloc: Global,
    test: &Test,
    depth: u8,
    limit: usize,
    hidden: &[[bool; 6]],
) -> Result<Exploration, ExploreFault>
    ensures { IfOk result (λ x. 0 < depth → AreWhat (IsAllowedAtDepth test.now depth) hidden.now x.final_states.items) }
{
    ends_are_what_tso_allows();
    test.know_limits();
    explore(alloc, test, depth, limit, hidden)
}

/// Whoever watches, a search that comes to its end keeps no more states than it was to keep, and one that ends at its limit has kept
/// more, as many as the machine can reach at least. Either way the final states that it met are reached, and none comes twice.
pub fn a_search_ends_at_its_limit<W: Watcher>(
    alloc: Global,
    test: &Test,
    depth: u8,
    limit: usize,
    hidden: &[[bool; 6]],
    watcher: &mut W,
) -> Result<Met, NoMemory>
    ensures reached { IfOk result (λ m. AreReached test.now depth m.final_states.items) }
    ensures once { IfOk result (λ m. AreDistinct hidden.now m.final_states.items) }
    ensures complete { IfOk result (λ m. m.extent ≡ Extent.Whole → HaveEveryEnd test.now depth hidden.now m.final_states.items) }
    ensures within { IfOk result (λ m. m.extent ≡ Extent.Whole → m.kept ≤ limit) }
    ensures more { IfOk result (λ m. m.extent ≡ Extent.Cut → limit < m.kept) }
    ensures kept { IfOk result (λ m. (fewer : ℕ) → fewer < m.kept → HasMoreStates test.now depth fewer) }
{
    explore_watched(alloc, test, depth, limit, hidden, watcher)
}

/// Where nothing more is shown, a register that no atom of the condition names is hidden; without a condition each register is.
pub fn what_nobody_looks_at_is_hidden(
    alloc: Global,
    test: &Test,
) -> Result<Vec<[bool; 6]>, NoMemory>
    ensures unnamed { IfOk result (λ hidden. (c : Condition) (core : ℕ) (reg : Reg) → test.now.condition ≡ Some c
        → core < length test.now.programs → claim_names_register c.claim core reg ≡ false → IsHidden hidden.items core reg) }
    ensures without { IfOk result (λ hidden. (core : ℕ) (reg : Reg) → test.now.condition ≡ None
        → core < length test.now.programs → IsHidden hidden.items core reg) }
{
    hidden_registers(alloc, test, Show::Condition)
}

/// What is shown is what was asked for, and each of it is a core's or a location of the test.
pub fn what_is_shown_is_of_the_test(
    alloc: Global,
    test: &Test,
    show: Show,
) -> Result<Vec<Named>, NoMemory>
    ensures list { IfOk result (λ list. list.items ≡ shown.names_shown show test.now) }
    ensures known { IfOk result (λ list. All (NameExists (length test.now.programs) (length test.now.locations)) list.items) }
{
    names_shown(alloc, test, show)
}

/// However much is shown, a register that isn't shown is hidden, and final states that differ in hidden registers alone look
/// alike.
pub fn what_is_not_shown_is_hidden(
    alloc: Global,
    test: &Test,
    show: Show,
) -> Result<Vec<[bool; 6]>, NoMemory>
    ensures hidden { IfOk result (λ hidden. (core : ℕ) (reg : Reg) → core < length test.now.programs
        → is_shown show test.now (named_register core reg) ≡ false → IsHidden hidden.items core reg) }
    ensures not_shown { IfOk result (λ hidden. AreNotShown (shown.names_shown show test.now) hidden.items) }
{
    hidden_registers(alloc, test, show)
}

/// What comes after `By` in the text of `outcomes`, handed to `run` at the same depth on the atomic bus with the same test, ends
/// with the values of the line above.
pub fn each_line_by_leads_to_the_line_above()
    ensures { (kind : ProtocolKind) (c : Configuration) (set : Instructions) (search : Search) (json assert : Bool) (input out : List ℕ) (status : Status)
        → c.bus ≡ Atomic → search.depth ≡ c.depth → IsWithinLimits (Settings.Run kind c set json) → IsJoinable (parts_of input).test
        → ¬ (status ≡ Refused) → IsAnswer (Settings.Outcomes search set false assert) (Some input) out status
        → LinesAreRunAgain kind c set search json (parts_of input).test out }
{
    searches_reach_their_states();
}

/// Lines and JSON of one input show one search: the same states, the same of them in which the condition's proposition is true, and
/// the same counts, of the test that was given.
pub fn both_forms_show_one_search()
    ensures { (search : Search) (set : Instructions) (assert asserted : Bool) (input out object : List ℕ) (status again : Status)
        → IsWithinLimits (Settings.Outcomes search set false assert) → IsWithinLimits (Settings.Outcomes search set true asserted)
        → IsAnswer (Settings.Outcomes search set false assert) (Some input) out status
        → IsAnswer (Settings.Outcomes search set true asserted) (Some input) object again
        → AreOneSearch set (parts_of input).test search false true out object }
{
    answers_meet_the_headline();
    headlines_leave_one_text();
}
