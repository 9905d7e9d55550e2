//! What an ended run of a machine leaves: the contract of a function that does nothing, so who calls it knows it.

ghost use Rattle.std.specs.Prelude.{◌≡◌, List};
ghost use Rattle.tso_terms.specs.Litmus.{Litmus, IsTest};
ghost use Rattle.tso_terms.specs.SequentialConsistency.{KeepsAllOrder};
ghost use Rattle.tso_terms.specs.declared.choice.Bus.TheVariants.{Atomic};
ghost use Rattle.tso_terms.specs.declared.choice.Choice.{Choice};
ghost use Rattle.tso_laws.specs.EndedRuns.{IsExecution};
ghost use Rattle.tso_laws.specs.Words.{HoldsWords};
ghost use Rattle.protocol_tables.specs.Tables.{Table};
ghost use Rattle.multiprocessor.specs.Configuration.{Configuration};
ghost use Rattle.machine_runs.specs.Runs.{run_by, AnswersFitBy};
ghost use Rattle.machine_runs.specs.inner.Runs.{EndsBy};

use tso_laws::{
    atomic_runs_are_flat_runs, ended_runs_are_executions, no_buffer_no_reordering_on_either_bus,
    runs_on_either_bus_are_flat_runs, runs_on_either_bus_stop_where_they_end, values_are_words,
};

/// What an ended run on either bus leaves: its order is a TSO execution of the test, its registers and
/// memory are the final state of that order, and all values in them are words. At depth 0, where no
/// core has a store buffer, the order keeps program order without exception. On the atomic bus the
/// answers of all caches fit.
pub fn ended_runs_of_machines_are_executions()
    ensures executions { (table : Table) (c : Configuration) (t : Litmus) (choices : List Choice)
        → IsTest t → AnswersFitBy table c t choices → EndsBy table c t choices → IsExecution t (run_by c.bus table c t choices) }
    ensures words { (table : Table) (c : Configuration) (t : Litmus) (choices : List Choice)
        → IsTest t → AnswersFitBy table c t choices → EndsBy table c t choices
        → HoldsWords (run_by c.bus table c t choices).commits (run_by c.bus table c t choices).state }
    ensures unbuffered { (table : Table) (c : Configuration) (t : Litmus) (choices : List Choice)
        → c.depth ≡ 0 → IsTest t → AnswersFitBy table c t choices → EndsBy table c t choices
        → KeepsAllOrder (run_by c.bus table c t choices).commits }
    ensures atomic { (table : Table) (c : Configuration) (t : Litmus) (choices : List Choice)
        → c.bus ≡ Atomic → AnswersFitBy table c t choices }
{
    atomic_runs_are_flat_runs();
    runs_on_either_bus_are_flat_runs();
    runs_on_either_bus_stop_where_they_end();
    ended_runs_are_executions();
    no_buffer_no_reordering_on_either_bus();
    values_are_words();
}
