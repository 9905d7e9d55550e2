//! What the protocol and the shape of the caches change in an answer. Each law is the contract of a function that does
//! nothing: who calls it knows it.

ghost use Rattle.std.specs.Prelude.{ℕ, Bool, List, Some};
ghost use Rattle.protocol_tables.specs.declared.kind.ProtocolKind.{ProtocolKind};
ghost use Rattle.multiprocessor.specs.Configuration.{Configuration};
ghost use Rattle.litmus_tokens.specs.declared.instructions.Instructions.{Instructions};
ghost use Rattle.scheduler.specs.Plan.{Plan};
ghost use Rattle.command_line.specs.declared.settings.Settings.{Settings};
ghost use Rattle.tso_cli.specs.Answers.{IsAnswer};
ghost use Rattle.tso_cli.specs.Machines.{AreAtomicAtOneDepth, RunsAnswerAlike, TracesAnswerAlike, SweepsAnswerAlike};
ghost use Rattle.tso_cli.specs.declared.answer.Status.{Status};

use crate::answers::texts_are_read_one_way;

/// On the atomic bus two protocols, shapes and line sizes give answers to one input that differ in the
/// `Machine` line and the `Cache` lines alone: as JSON in the members `machine` and `cache`, of a sweep
/// in the `Machine` line, of a trace also in the trace's lines, or its member `trace`. Refusals, and unfinished runs without
/// a trace, are answered with the same bytes, and the status is always the same. The buffers have one depth in both.
pub fn machines_on_the_atomic_bus_answer_alike()
    ensures runs { (kind other : ProtocolKind) (c d : Configuration) (set : Instructions) (json : Bool) (input out again : List ℕ) (status too : Status)
        → AreAtomicAtOneDepth c d
        → IsAnswer (Settings.Run kind c set json) (Some input) out status → IsAnswer (Settings.Run other d set json) (Some input) again too
        → RunsAnswerAlike json kind other c d out again status too }
    ensures traces { (kind other : ProtocolKind) (c d : Configuration) (set : Instructions) (json : Bool) (input out again : List ℕ) (status too : Status)
        → AreAtomicAtOneDepth c d
        → IsAnswer (Settings.Trace kind c set json) (Some input) out status → IsAnswer (Settings.Trace other d set json) (Some input) again too
        → TracesAnswerAlike json kind other c d out again status too }
    ensures sweeps { (kind other : ProtocolKind) (c d : Configuration) (set : Instructions) (plan : Plan) (input out again : List ℕ) (status too : Status)
        → AreAtomicAtOneDepth c d
        → IsAnswer (Settings.Sweep kind c set plan) (Some input) out status → IsAnswer (Settings.Sweep other d set plan) (Some input) again too
        → SweepsAnswerAlike kind other c d out again status too }
{
    texts_are_read_one_way();
}
