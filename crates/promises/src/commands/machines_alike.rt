//! What two machines on the atomic bus answer alike, field by field: one text, into which each puts its own `Machine` and `Cache`
//! lines, or members.

ghost use Rattle.std.specs.Prelude.{◌++◌, ◌≡◌, ◌≢◌, Bool, List, Some, length, ℕ};
ghost use Rattle.litmus_tokens.specs.declared.instructions.Instructions.{Instructions};
ghost use Rattle.scheduler.specs.Plan.{Plan};
ghost use Rattle.command_line.specs.declared.settings.Settings.{Settings};
ghost use Rattle.tso_cli.specs.Dividing.{EndsInFeed};
ghost use Rattle.tso_cli.specs.declared.answer.Status.{Status};
ghost use Rattle.tso_cli.specs.declared.answer.Status.TheVariants.{Good, Refused};
ghost use Rattle.multiprocessor.specs.Configuration.{Configuration};
ghost use Rattle.protocol_tables.specs.declared.kind.ProtocolKind.{ProtocolKind};
ghost use Rattle.trace_report.specs.TracedRun.{json_ended, json_unended};
ghost use Rattle.trace_report.specs.Lines.{trace_text};
ghost use Rattle.tso_cli.specs.Answers.{IsAnswer};
ghost use Rattle.tso_cli.specs.Machines.{AreAtomicAtOneDepth, DifferInLines, DifferInMembers, EndedObjectsDiffer, ReportsDiffer};
ghost use Rattle.tso_cli.specs.Machines.{SweepsDiffer, TracesDiffer, TracesDifferIn, UnendedObjectsDiffer};
ghost use Rattle.tso_report.specs.Json.{cache_value, json_report, machine_value};
ghost use Rattle.tso_report.specs.JsonFrame.{json_with};
ghost use Rattle.tso_report.specs.Report.{cache_lines, head, machine_line};

use tso_cli::machine_laws::machines_on_the_atomic_bus_answer_alike;

/// Two answers of `run` have one status; where the test ended the reports differ in those lines alone, and all else is the same.
pub fn runs_answer_alike()
    ensures status { (kind other : ProtocolKind) (c d : Configuration) (set : Instructions) (json : Bool) (input out again : List ℕ) (status too : Status)
        → AreAtomicAtOneDepth c d → IsAnswer (Settings.Run kind c set json) (Some input) out status
        → IsAnswer (Settings.Run other d set json) (Some input) again too → status ≡ too }
    ensures ended { (kind other : ProtocolKind) (c d : Configuration) (set : Instructions) (json : Bool) (input out again : List ℕ) (status too : Status)
        → AreAtomicAtOneDepth c d → IsAnswer (Settings.Run kind c set json) (Some input) out status
        → IsAnswer (Settings.Run other d set json) (Some input) again too → status ≡ Good
        → ReportsDiffer json kind other c d out again }
    ensures otherwise { (kind other : ProtocolKind) (c d : Configuration) (set : Instructions) (json : Bool) (input out again : List ℕ) (status too : Status)
        → AreAtomicAtOneDepth c d → IsAnswer (Settings.Run kind c set json) (Some input) out status
        → IsAnswer (Settings.Run other d set json) (Some input) again too → status ≢ Good → out ≡ again }
{
    machines_on_the_atomic_bus_answer_alike();
}

/// So do two answers of `trace`.
pub fn traces_answer_alike()
    ensures status { (kind other : ProtocolKind) (c d : Configuration) (set : Instructions) (json : Bool) (input out again : List ℕ) (status too : Status)
        → AreAtomicAtOneDepth c d → IsAnswer (Settings.Trace kind c set json) (Some input) out status
        → IsAnswer (Settings.Trace other d set json) (Some input) again too → status ≡ too }
    ensures traced { (kind other : ProtocolKind) (c d : Configuration) (set : Instructions) (json : Bool) (input out again : List ℕ) (status too : Status)
        → AreAtomicAtOneDepth c d → IsAnswer (Settings.Trace kind c set json) (Some input) out status
        → IsAnswer (Settings.Trace other d set json) (Some input) again too → status ≢ Refused
        → TracesDifferIn json kind other c d out again }
    ensures refused { (kind other : ProtocolKind) (c d : Configuration) (set : Instructions) (json : Bool) (input out again : List ℕ) (status too : Status)
        → AreAtomicAtOneDepth c d → IsAnswer (Settings.Trace kind c set json) (Some input) out status
        → IsAnswer (Settings.Trace other d set json) (Some input) again too → status ≡ Refused → out ≡ again }
{
    machines_on_the_atomic_bus_answer_alike();
}

/// And two of `sweep`.
pub fn sweeps_answer_alike()
    ensures status { (kind other : ProtocolKind) (c d : Configuration) (set : Instructions) (plan : Plan) (input out again : List ℕ) (status too : Status)
        → AreAtomicAtOneDepth c d → IsAnswer (Settings.Sweep kind c set plan) (Some input) out status
        → IsAnswer (Settings.Sweep other d set plan) (Some input) again too → status ≡ too }
    ensures swept { (kind other : ProtocolKind) (c d : Configuration) (set : Instructions) (plan : Plan) (input out again : List ℕ) (status too : Status)
        → AreAtomicAtOneDepth c d → IsAnswer (Settings.Sweep kind c set plan) (Some input) out status
        → IsAnswer (Settings.Sweep other d set plan) (Some input) again too → status ≢ Refused
        → SweepsDiffer kind other c d out again }
    ensures refused { (kind other : ProtocolKind) (c d : Configuration) (set : Instructions) (plan : Plan) (input out again : List ℕ) (status too : Status)
        → AreAtomicAtOneDepth c d → IsAnswer (Settings.Sweep kind c set plan) (Some input) out status
        → IsAnswer (Settings.Sweep other d set plan) (Some input) again too → status ≡ Refused → out ≡ again }
{
    machines_on_the_atomic_bus_answer_alike();
}

/// Two such reports are one text but for the line `Machine` and the lines `Cache`.
pub fn reports_differ_in_lines()
    ensures whole_lines { (kind other : ProtocolKind) (c d : Configuration) (out again : List ℕ) (said : DifferInLines kind other c d out again)
        → EndsInFeed said.front × EndsInFeed said.middle }
    ensures cores { (kind other : ProtocolKind) (c d : Configuration) (out again : List ℕ) (said : DifferInLines kind other c d out again)
        → length said.counts ≡ length said.others }
    ensures first { (kind other : ProtocolKind) (c d : Configuration) (out again : List ℕ) (said : DifferInLines kind other c d out again)
        → out ≡ said.front ++ (machine_line kind c ++ (said.middle ++ cache_lines 0 said.counts)) }
    ensures second { (kind other : ProtocolKind) (c d : Configuration) (out again : List ℕ) (said : DifferInLines kind other c d out again)
        → again ≡ said.front ++ (machine_line other d ++ (said.middle ++ cache_lines 0 said.others)) }
{}

/// As JSON they are one line but for two members.
pub fn objects_differ_in_members()
    ensures cores { (kind other : ProtocolKind) (c d : Configuration) (out again : List ℕ) (said : DifferInMembers kind other c d out again)
        → length said.counts ≡ length said.others }
    ensures first { (kind other : ProtocolKind) (c d : Configuration) (out again : List ℕ) (said : DifferInMembers kind other c d out again)
        → out ≡ json_with said.rest (cache_value said.counts) (machine_value kind c) }
    ensures second { (kind other : ProtocolKind) (c d : Configuration) (out again : List ℕ) (said : DifferInMembers kind other c d out again)
        → again ≡ json_with said.rest (cache_value said.others) (machine_value other d) }
{}

/// Two such traces have the same lines but for those and the lines of the trace.
pub fn traces_differ_in_lines()
    ensures whole_lines { (kind other : ProtocolKind) (c d : Configuration) (out again : List ℕ) (said : TracesDiffer kind other c d out again)
        → EndsInFeed said.rest }
    ensures cores { (kind other : ProtocolKind) (c d : Configuration) (out again : List ℕ) (said : TracesDiffer kind other c d out again)
        → length said.counts ≡ length said.others }
    ensures first { (kind other : ProtocolKind) (c d : Configuration) (out again : List ℕ) (said : TracesDiffer kind other c d out again)
        → out ≡ head said.t kind c ++ (trace_text said.t c.shape.words said.steps ++ (said.rest ++ cache_lines 0 said.counts)) }
    ensures second { (kind other : ProtocolKind) (c d : Configuration) (out again : List ℕ) (said : TracesDiffer kind other c d out again)
        → again
        ≡ head said.t other d ++ (trace_text said.t d.shape.words said.other_steps ++ (said.rest ++ cache_lines 0 said.others)) }
{}

/// As JSON, of runs that ended, they are the objects of two such reports.
pub fn ended_objects_differ_in_members()
    ensures reports { (kind other : ProtocolKind) (c d : Configuration) (out again : List ℕ)
        (said : EndedObjectsDiffer kind other c d out again)
        → DifferInMembers kind other c d (json_report said.t kind c said.shown) (json_report said.t other d said.other_shown) }
    ensures first { (kind other : ProtocolKind) (c d : Configuration) (out again : List ℕ)
        (said : EndedObjectsDiffer kind other c d out again) → out ≡ json_ended said.t kind c said.choices said.shown }
    ensures second { (kind other : ProtocolKind) (c d : Configuration) (out again : List ℕ)
        (said : EndedObjectsDiffer kind other c d out again) → again ≡ json_ended said.t other d said.choices said.other_shown }
{}

/// Of runs that didn't end they tell the same numbers.
pub fn unended_objects_tell_the_same()
    ensures first { (kind other : ProtocolKind) (c d : Configuration) (out again : List ℕ)
        (said : UnendedObjectsDiffer kind other c d out again)
        → out ≡ json_unended said.t kind c said.choices said.used said.stalled }
    ensures second { (kind other : ProtocolKind) (c d : Configuration) (out again : List ℕ)
        (said : UnendedObjectsDiffer kind other c d out again)
        → again ≡ json_unended said.t other d said.choices said.used said.stalled }
{}

/// Two sweeps are one text but for the line `Machine`.
pub fn sweeps_differ_in_a_line()
    ensures whole_lines { (kind other : ProtocolKind) (c d : Configuration) (out again : List ℕ) (said : SweepsDiffer kind other c d out again)
        → EndsInFeed said.front }
    ensures first { (kind other : ProtocolKind) (c d : Configuration) (out again : List ℕ) (said : SweepsDiffer kind other c d out again)
        → out ≡ said.front ++ (machine_line kind c ++ said.back) }
    ensures second { (kind other : ProtocolKind) (c d : Configuration) (out again : List ℕ) (said : SweepsDiffer kind other c d out again)
        → again ≡ said.front ++ (machine_line other d ++ said.back) }
{}
