//! What a step tells of its core, of a stall, of the other caches and of the line that gave way, each said again.

ghost use Rattle.std.specs.Prelude.{◌/◌, ◌<◌, ◌≡◌, ◌≢◌, List, None, Some, length, true, ℕ};
ghost use Rattle.multiprocessor.specs.Caches.{at_access};
ghost use Rattle.multiprocessor.specs.Configuration.{Configuration};
ghost use Rattle.machine_core.specs.Running.{Running, machine_after, new_machine, table_in};
ghost use Rattle.protocol_tables.specs.Tables.{Table};
ghost use Rattle.snoop_bus.specs.Asks.{tag_at};
ghost use Rattle.cache_set.specs.CacheTags.{sets_of, tags_at};
ghost use Rattle.cache_set.specs.Tags.{leaving};
ghost use Rattle.tso_terms.specs.FlatMachine.{after_choice, chosen, core_of};
ghost use Rattle.tso_terms.specs.Litmus.{IsTest, Litmus};
ghost use Rattle.tso_terms.specs.MemoryAccess.{access_of};
ghost use Rattle.basic_laws.specs.Types.{Atomic, Choice, Moved, Stalled, Stall};
ghost use Rattle.trace_report.specs.Lines.{stall_name};
ghost use Rattle.trace_report.specs.StepLaws.{GaveWay, IsWordOfStallOn, after_choices, pending_told, with_moved, with_seen};
ghost use Rattle.trace_report.specs.Steps.{trace_step_of};
ghost use Rattle.trace_report.specs.TraceLaws.{KeepsNoCopyInI};

use trace_report::told_runs::steps_are_told;

/// The register and the pending stores that a step tells are those of its core, on the atomic bus of the flat machine's.
pub fn a_step_tells_its_core()
    ensures moved { (m : Running) (choice : Choice) → (trace_step_of m choice).outcome ≡ Moved
        → (core_of (machine_after m choice).state.flat (chosen choice)).registers
        ≡ with_moved (trace_step_of m choice).moved (core_of m.state.flat (chosen choice)).registers }
    ensures unmoved { (m : Running) (choice : Choice) → (trace_step_of m choice).outcome ≢ Moved → (trace_step_of m choice).moved ≡ None }
    ensures pending { (m : Running) (choice : Choice) → (core_of (machine_after m choice).state.flat (chosen choice)).pending
        ≡ pending_told (trace_step_of m choice).buffer (core_of m.state.flat (chosen choice)).pending }
    ensures flat { (m : Running) (choice : Choice) → m.bus ≡ Atomic
        → (machine_after m choice).state.flat ≡ after_choice m.test m.depth m.state.flat choice }
{
    steps_are_told();
}

/// The word of a stall is its reason.
pub fn a_stall_tells_its_reason()
    ensures reason { (m : Running) (choice : Choice) (why : Stall) → (trace_step_of m choice).outcome ≡ Stalled why
        → IsWordOfStallOn m choice (stall_name why) }
{
    steps_are_told();
}

/// The copies of another core change as it sees the request that is told, and the line of a write-back is the one that gave way.
pub fn a_step_tells_the_caches()
    ensures others { (table : Table) (c : Configuration) (t : Litmus) (choices : List Choice) (choice : Choice) (core : ℕ)
        → core ≢ chosen choice
        → sets_of (machine_after (after_choices (new_machine table c t) choices) choice).statistics.caches.contents core
        ≡ with_seen (table_in (after_choices (new_machine table c t) choices))
        (trace_step_of (after_choices (new_machine table c t) choices) choice).request
        (sets_of (after_choices (new_machine table c t) choices).statistics.caches.contents core) }
    ensures gave_way { (table : Table) (c : Configuration) (t : Litmus) (choices : List Choice) (choice : Choice) (line : ℕ)
        → IsTest t → 0 < c.shape.words → KeepsNoCopyInI table → chosen choice < length t.programs
        → (trace_step_of (after_choices (new_machine table c t) choices) choice).wrote_back ≡ Some line
        → GaveWay (after_choices (new_machine table c t) choices) choice line }
{
    steps_are_told();
}

/// A line that gave way was the last of its set when another came in, and dirty.
pub fn a_line_gives_way()
    ensures accessed { (m : Running) (choice : Choice) (line : ℕ) (gave : GaveWay m choice line)
        → at_access None (λ loc write. Some (loc.0 / m.statistics.caches.shape.words)) (access_of m.test m.depth m.state.flat choice)
        ≡ Some gave.came }
    ensures absent { (m : Running) (choice : Choice) (line : ℕ) (gave : GaveWay m choice line)
        → tag_at (chosen choice) gave.came m.statistics.caches.contents ≡ None }
    ensures last { (m : Running) (choice : Choice) (line : ℕ) (gave : GaveWay m choice line)
        → leaving (tags_at (sets_of m.statistics.caches.contents (chosen choice)) gave.came) ≡ Some (line, gave.state) }
    ensures dirty { (m : Running) (choice : Choice) (line : ℕ) (gave : GaveWay m choice line)
        → (table_in m).evicts_dirty gave.state ≡ true }
{}
