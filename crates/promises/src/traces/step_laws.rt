//! What the laws of traces say, field by field.

ghost use Rattle.std.specs.Prelude.{◌<◌, ◌≡◌, ◌≢◌, All, Bool, List, Some, length, slice_index_or, true, ℕ};
ghost use Rattle.multiprocessor.specs.Configuration.{Configuration};
ghost use Rattle.machine_core.specs.Running.{Running, machine_after};
ghost use Rattle.multiprocessor.specs.Statistics.{counts_of, no_counts};
ghost use Rattle.protocol_tables.specs.Tables.{Table, table_of};
ghost use Rattle.protocol_tables.specs.declared.kind.ProtocolKind.{ProtocolKind};
ghost use Rattle.protocol_tables.specs.declared.state.State.{State};
ghost use Rattle.protocol_tables.specs.declared.state.State.TheVariants.{I};
ghost use Rattle.snoop_bus.specs.declared.access.AccessKind.{AccessKind};
ghost use Rattle.trace_report.specs.Steps.{states_of, trace_step_of, trace_of};
ghost use Rattle.trace_report.specs.TraceLaws.{ChangesOne, KeepsNoCopyInI, TellsRun, count_of_accesses, run_traced, steps_that};
ghost use Rattle.trace_report.specs.TraceLaws.{tells_access, tells_flush, tells_forward, tells_write_back, with_changes};
ghost use Rattle.tso_terms.specs.Litmus.{IsTest, Litmus};
ghost use Rattle.tso_terms.specs.Runs.{CoresExist, run};
ghost use Rattle.basic_laws.specs.Types.{Atomic, Choice};

use trace_report::told_runs::{
    accesses_are_told, changes_lead_from_states_to_states, traces_tell_their_runs,
};

/// The order, the choices used and those that stalled are told by the steps.
pub fn a_trace_tells_its_run()
    ensures either { (table : Table) (c : Configuration) (t : Litmus) (choices : List Choice)
        → TellsRun (trace_of table c t choices) (run_traced table c t choices) }
    ensures atomic { (table : Table) (c : Configuration) (t : Litmus) (choices : List Choice) → c.bus ≡ Atomic
        → TellsRun (trace_of table c t choices) (run t c.depth choices) }
{
    traces_tell_their_runs();
}

/// Changes lead from states to states, and each is one.
pub fn told_changes_lead_on()
    ensures lead { (m : Running) (choice : Choice)
        → with_changes (trace_step_of m choice).changes (states_of m) ≡ states_of (machine_after m choice) }
    ensures real { (m : Running) (choice : Choice) → All (ChangesOne (states_of m)) (trace_step_of m choice).changes }
{
    changes_lead_from_states_to_states();
}

/// What is told of accesses is what is counted.
pub fn told_accesses_are_counted()
    ensures accesses { (table : Table) (c : Configuration) (t : Litmus) (choices : List Choice) (core : ℕ)
        → CoresExist (length t.programs) choices → (kind : AccessKind) → steps_that (tells_access kind core)
        (trace_of table c t choices)
        ≡ count_of_accesses kind (slice_index_or (counts_of c.bus table c.shape t c.depth choices) core no_counts) }
    ensures forwards { (table : Table) (c : Configuration) (t : Litmus) (choices : List Choice) (core : ℕ)
        → CoresExist (length t.programs) choices → steps_that (tells_forward core)
        (trace_of table c t choices) ≡ (slice_index_or (counts_of c.bus table c.shape t c.depth choices) core no_counts).forwards }
    ensures write_backs { (table : Table) (c : Configuration) (t : Litmus) (choices : List Choice) (core : ℕ)
        → CoresExist (length t.programs) choices → IsTest t → 0 < c.shape.words → KeepsNoCopyInI table
        → steps_that (tells_write_back core)
        (trace_of table c t choices) ≡ (slice_index_or (counts_of c.bus table c.shape t c.depth choices) core no_counts).write_backs }
    ensures flushes { (table : Table) (c : Configuration) (t : Litmus) (choices : List Choice) (core : ℕ)
        → CoresExist (length t.programs) choices → (run_traced table c t choices).ended ≡ true → steps_that (tells_flush core)
        (trace_of table c t choices) ≡ (slice_index_or (counts_of c.bus table c.shape t c.depth choices) core no_counts).flushes }
    ensures filled { (kind : ProtocolKind) → (shared : Bool) → (table_of kind).filled shared ≢ I }
    ensures written { (kind : ProtocolKind) → (state : State) → (table_of kind).written state ≢ Some I }
{
    accesses_are_told();
}
