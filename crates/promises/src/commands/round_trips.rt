//! What one command prints and another takes, said again in numbers: a printed report is short, and `run` follows the choices that
//! `witness` and `why` print.

ghost use Rattle.std.specs.Prelude.{◌≡◌, ◌≤◌, ℕ, Bool, false, List, Some, length};
ghost use Rattle.litmus_tokens.specs.declared.instructions.Instructions.{Instructions};
ghost use Rattle.tso_terms.specs.Axioms.{IsTsoExecution};
ghost use Rattle.tso_terms.specs.Litmus.{Litmus, IsTest};
ghost use Rattle.tso_terms.specs.declared.execution.Entry.{Entry};
ghost use Rattle.basic_laws.specs.Types.{Atomic};
ghost use Rattle.tso_laws.specs.Along.{choices_along};
ghost use Rattle.refutation_laws.specs.Models.{depth_of};
ghost use Rattle.protocol_tables.specs.declared.kind.ProtocolKind.{ProtocolKind};
ghost use Rattle.multiprocessor.specs.Configuration.{Configuration};
ghost use Rattle.command_line.specs.Explanation.{Explanation};
ghost use Rattle.command_line.specs.Limits.{IsWithinLimits};
ghost use Rattle.command_line.specs.declared.settings.Settings.{Settings};
ghost use Rattle.tso_cli.specs.Answers.{IsAnswer, IsPrinted};
ghost use Rattle.tso_cli.specs.Dividing.{parts_of, joined_parts, IsJoinable};
ghost use Rattle.tso_cli.specs.Explained.{IsExplained};
ghost use Rattle.tso_cli.specs.Witness.{witness_line, IsWitness, ReportsOrder};
ghost use Rattle.tso_cli.specs.declared.answer.Status.{Status};
ghost use Rattle.tso_cli.specs.declared.answer.Status.TheVariants.{Good};

use tso_cli::round_trips::{
    greatest_depth_is_enough, printed_runs_are_short, reasons_reach_their_executions,
    witnesses_reach_their_orders,
};

/// What is printed of a run that ended has at most 32,768 bytes.
pub fn a_printed_run_is_short()
    ensures { (kind : ProtocolKind) (c : Configuration) (set : Instructions) (input out : List ℕ)
        → IsWithinLimits (Settings.Run kind c set false) → IsAnswer (Settings.Run kind c set false) (Some input) out Good → length out ≤ 32768 }
{
    printed_runs_are_short();
}

/// At depth 32 `witness` prints the choices along each execution, with success.
pub fn a_depth_of_32_is_enough_for_each_execution()
    ensures { (t : Litmus) (order : List Entry) (out : List ℕ) (status : Status)
        → IsTest t → IsTsoExecution t order → IsWitness t 32 order out status
        → (out ≡ witness_line (choices_along t order)) × (status ≡ Good) }
{
    greatest_depth_is_enough();
}

/// The choices that `witness` prints, handed to `run` at its depth, end with the very order that it was asked for.
pub fn choices_of_a_witness_end_with_its_order()
    ensures { (kind : ProtocolKind) (c : Configuration) (set : Instructions) (json : Bool) (input out answer : List ℕ) (status : Status)
        → c.bus ≡ Atomic → IsWithinLimits (Settings.Run kind c set json) → IsJoinable (parts_of input).test
        → IsAnswer (Settings.Witness c.depth set) (Some input) out Good
        → IsAnswer (Settings.Run kind c set json) (Some (joined_parts (parts_of input).test out)) answer status
        → ReportsOrder kind c set json (parts_of input) answer × (status ≡ Good) }
{
    witnesses_reach_their_orders();
}

/// The choices that `why` prints beside an execution, handed to `run` at the depth of its model, end with the execution's order.
pub fn choices_beside_an_execution_end_with_its_order()
    ensures { (kind : ProtocolKind) (c : Configuration) (set : Instructions) (plan : Explanation)
        (json told assert : Bool) (input out : List ℕ) (status : Status)
        → c.bus ≡ Atomic → c.depth ≡ depth_of plan.model → IsWithinLimits (Settings.Run kind c set json) → IsJoinable (parts_of input).test
        → IsPrinted status → IsAnswer (Settings.Why plan set told assert) (Some input) out status
        → IsExplained kind c set json plan.model told (parts_of input).test out }
{
    reasons_reach_their_executions();
}
