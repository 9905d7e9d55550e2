//! Clauses of single calls about runs, each said again of one call.

ghost use Rattle.std.specs.Prelude.{◌-◌, ◌<◌, ◌^◌, ◌≡◌, ◌≤◌, ◌⊎◌, All, IfOk, IsTrue, None, OnErr, OnOk, is_some, length, string_bytes};
ghost use Rattle.command_line.specs.Limits.{HasDepth, IsWithinLimits};
ghost use Rattle.machine_core.specs.inner.Running.{is_ended};
ghost use Rattle.order_builder.specs.PrintedOrder.{HasWord};
ghost use Rattle.protocol_tables.specs.Names.{protocol_name};
ghost use Rattle.protocol_tables.specs.PrintedTable.{printed_table};
ghost use Rattle.protocol_tables.specs.Tables.{by_kind, table_of};
ghost use Rattle.trace_report.specs.TracedRun.{most_steps};
ghost use Rattle.tso_terms.specs.Runs.{CoresExist};
ghost use Rattle.tso_terms.specs.Together.{put_together};
ghost use Rattle.tso_report.specs.Shown.{IsRunOf, shown_run};
ghost use Rattle.tso_report.specs.Tally.{runs_in};
ghost use Rattle.tso_report.specs.inner.Tally.{with_run};

use command_line::{SearchPlan, Settings, Show, settings_of};
use flat_machine::{Snapshot, drive};
use machine_core::{Config, Final, Machine};
use protocol_tables::{Mesi, Moesi, Mosi, Msi, Protocol, ProtocolKind, table_text};
use scheduler::Choices;
use std::alloc::Global;
use trace_report::word_beyond;
use tso_cli::LineFault;
use tso_report::{Run, Tally, report_text};
use tso_terms::{NoMemory, Test};

/// Whatever the words are, what comes of them is within the limits.
pub fn settings_are_within_limits(alloc: Global, words: &[&str]) -> Result<Settings, LineFault>
    ensures within { IfOk result IsWithinLimits }
    ensures depth { IfOk result HasDepth }
{
    settings_of(alloc, words)
}

/// A search has the depth that it was made with.
pub fn a_search_has_its_depth(plan: SearchPlan) -> u8
    ensures value { result ≡ plan.depth }
{
    plan.depth()
}

/// A search shows what it was made to show.
pub fn a_search_shows_what_was_asked_for(plan: SearchPlan) -> Show
    ensures value { result ≡ plan.show }
{
    plan.show()
}

/// A configuration has at least one set, and no more than the limit.
pub fn sets_are_within_limits(config: &Config) -> u8
    ensures within { (1 ≤ result) × (result ≤ 8) }
{
    config.sets()
}

/// A configuration has at least one way, and no more than the limit.
pub fn ways_are_within_limits(config: &Config) -> u8
    ensures within { (1 ≤ result) × (result ≤ 8) }
{
    config.ways()
}

/// A line of a configuration has 1, 2 or 4 words.
pub fn words_of_a_line_are_within_limits(config: &Config) -> u8
    ensures within { (result ≡ 1) ⊎ (result ≡ 2) ⊎ (result ≡ 4) }
{
    config.words()
}

/// The text of a table is the stated one, and its rows are what the protocol's functions answer.
pub fn a_table_is_that_of_its_protocol(
    alloc: Global,
    kind: ProtocolKind,
) -> Result<String, NoMemory>
    ensures table { IfOk result (λ text. string_bytes text ≡ printed_table (protocol_name kind) (table_of kind)) }
    ensures shown_run { IfOk result (λ text. string_bytes text ≡ by_kind kind
        (printed_table (⟦<Msi as Protocol>⟧.called record {}) (⟦<Msi as Protocol>⟧.table record {}))
        (printed_table (⟦<Mesi as Protocol>⟧.called record {}) (⟦<Mesi as Protocol>⟧.table record {}))
        (printed_table (⟦<Moesi as Protocol>⟧.called record {}) (⟦<Moesi as Protocol>⟧.table record {}))
        (printed_table (⟦<Mosi as Protocol>⟧.called record {}) (⟦<Mosi as Protocol>⟧.table record {}))) }
{
    table_text(alloc, kind)
}

/// Each value of a report's order is a word.
pub fn reported_values_are_words(
    alloc: Global,
    test: &Test,
    protocol: ProtocolKind,
    config: Config,
    run: &Run,
) -> Result<String, NoMemory>
    requires { IsRunOf test.now (shown_run run.now) }
    ensures words { OnOk result (All HasWord run.now.left.execution.order.items) }
{
    report_text(alloc, test, protocol, config, run)
}

/// A run is counted once, or nothing has changed.
pub fn a_run_is_counted(tally: &mut Tally<'_>, run: &Run) -> Result<(), NoMemory>
    requires registers { length (shown_run run.now).registers ≡ length tally.old.test.programs }
    requires memory { length (shown_run run.now).memory ≡ length tally.old.test.locations }
    requires verdict { is_some (shown_run run.now).holds ≡ is_some tally.old.test.condition }
    requires room { runs_in tally.old.counts < 2 ^ 32 - 1 }
    ensures counts { OnOk result (tally.new.counts ≡ with_run tally.old.test (shown_run run.now) tally.old.counts) }
    ensures test { tally.new.test ≡ tally.old.test }
    ensures refused { OnErr result (tally.new ≡ tally.old) }
{
    tally.add(run)
}

/// Where memory is refused to a state nothing has changed.
pub fn a_state_is_counted_or_nothing_changes(
    tally: &mut Tally<'_>,
    registers: &[[u32; 6]],
    memory: &[u32],
    holds: Option<bool>,
) -> Result<(), NoMemory>
    requires registers { length registers.now ≡ length tally.old.test.programs }
    requires memory { length memory.now ≡ length tally.old.test.locations }
    requires verdict { is_some holds ≡ is_some tally.old.test.condition }
    requires room { runs_in tally.old.counts < 2 ^ 32 - 1 }
    ensures refused { OnErr result (tally.new ≡ tally.old) }
{
    tally.add_state(registers, memory, holds)
}

/// A run that didn't end leaves the tally's test.
pub fn an_unfinished_run_leaves_the_test(tally: &mut Tally<'_>)
    requires { runs_in tally.old.counts < 2 ^ 32 - 1 }
    ensures test { tally.new.test ≡ tally.old.test }
{
    tally.add_unfinished();
}

/// A finished machine hands on its order and its counts.
pub fn a_finished_machine_hands_on_its_order<P: Protocol>(
    machine: Machine<'_, P>,
    alloc: Global,
) -> Result<Final, NoMemory>
    requires { IsTrue (is_ended machine) }
    ensures order { IfOk result (λ f. f.execution.order.items ≡ put_together machine.entry.commits) }
    ensures counts { IfOk result (λ f. f.counts.items ≡ machine.entry.statistics.counts) }
{
    machine.finish(alloc)
}

/// Of a run of at most 1,000 choices no word is beyond.
pub fn a_short_run_has_no_word_beyond(cores: u8, used: usize, text: &[u8]) -> Option<usize>
    requires { 0 < cores }
    ensures short { used ≤ most_steps → result ≡ None }
{
    word_beyond(cores, used, text)
}

/// A machine that is driven keeps its locations.
pub fn a_driven_machine_keeps_its_locations<C: Choices>(
    state: &mut Snapshot,
    test: &Test,
    depth: u8,
    choices: &mut C,
) -> Result<bool, NoMemory>
    requires cores { length state.old.cores.items ≡ length test.now.programs }
    requires chosen { CoresExist (length test.now.programs) (C.coming choices.old) }
    ensures words { OnOk result (length state.new.memory.items ≡ length state.old.memory.items) }
{
    drive(state, test, depth, choices)
}
