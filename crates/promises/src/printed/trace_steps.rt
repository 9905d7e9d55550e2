//! What a printed trace tells of each step, field by field.

ghost use Rattle.std.specs.Prelude.{◌≡◌, ◌≤◌, ◌++◌, All, IfSome, List, Option, false, length, map, true, ℕ};
ghost use Rattle.std.specs.Option.{option_map};
ghost use Rattle.tso_cli.specs.Trace.{traced_in};
ghost use Rattle.multiprocessor.specs.Configuration.{Configuration, IsConfigurationWithinLimits};
ghost use Rattle.printed_laws.specs.OfRuns.{RunsLeaveTheSame};
ghost use Rattle.printed_laws.specs.Telling.{NameTheSame};
ghost use Rattle.printed_laws.specs.Traces.{IsReadable, IsTraceable, SourceFits, TraceStepFits, bare_store, told_by_line, told_by_object};
ghost use Rattle.protocol_tables.specs.declared.kind.ProtocolKind.{ProtocolKind};
ghost use Rattle.serde_json.specs.Data.{Data};
ghost use Rattle.serde_json.specs.Written.{compact_text, outline};
ghost use Rattle.machine_runs.specs.Runs.{AnswersFit, run_under};
ghost use Rattle.trace_report.specs.StepJson.{step_json};
ghost use Rattle.trace_report.specs.TraceJson.{trace_json};
ghost use Rattle.trace_report.specs.declared.supplied.Source.{Source};
ghost use Rattle.trace_report.specs.Lines.{trace_text};
ghost use Rattle.trace_report.specs.Shown.{ShownStep};
ghost use Rattle.trace_report.specs.Steps.{trace_under};
ghost use Rattle.tso_terms.specs.Litmus.{IsTest, Litmus};
ghost use Rattle.tso_terms.specs.Runs.{CoresExist};
ghost use Rattle.basic_laws.specs.Types.{Choice, Entry};

use printed_laws::{
    printed_traces_are_told, printed_traces_tell_their_machines, traced_steps_fit_their_test,
    traces_tell_their_steps,
};

/// Lines that are the same tell the same steps, and the same comes after them; so do objects, and with them where the words were
/// found and the machines after the steps; and so do values of whole traces.
pub fn steps_are_told_apart()
    ensures lines { (t : Litmus) (words : ℕ) (steps others : List ShownStep) (rest other_rest : List ℕ)
        → IsTest t → All (TraceStepFits t words) steps → All (TraceStepFits t words) others
        → trace_text t words steps ++ rest ≡ trace_text t words others ++ other_rest
        → map told_by_line steps ≡ map told_by_line others }
    ensures behind { (t : Litmus) (words : ℕ) (steps others : List ShownStep) (rest other_rest : List ℕ)
        → IsTest t → All (TraceStepFits t words) steps → All (TraceStepFits t words) others
        → trace_text t words steps ++ rest ≡ trace_text t words others ++ other_rest → rest ≡ other_rest }
    ensures object { (t : Litmus) (words : ℕ) (s other : ShownStep) (supplied other_supplied : Option Source) (after other_after : Data)
        → IsTest t → TraceStepFits t words s → TraceStepFits t words other → IfSome supplied SourceFits → IfSome other_supplied SourceFits
        → IsReadable 100 after → IsReadable 100 other_after
        → compact_text (step_json t words s supplied after) ≡ compact_text (step_json t words other other_supplied other_after)
        → told_by_object s ≡ told_by_object other }
    ensures supplied { (t : Litmus) (words : ℕ) (s other : ShownStep) (supplied other_supplied : Option Source) (after other_after : Data)
        → IsTest t → TraceStepFits t words s → TraceStepFits t words other → IfSome supplied SourceFits → IfSome other_supplied SourceFits
        → IsReadable 100 after → IsReadable 100 other_after
        → compact_text (step_json t words s supplied after) ≡ compact_text (step_json t words other other_supplied other_after)
        → supplied ≡ other_supplied }
    ensures after { (t : Litmus) (words : ℕ) (s other : ShownStep) (supplied other_supplied : Option Source) (after other_after : Data)
        → IsTest t → TraceStepFits t words s → TraceStepFits t words other → IfSome supplied SourceFits → IfSome other_supplied SourceFits
        → IsReadable 100 after → IsReadable 100 other_after
        → compact_text (step_json t words s supplied after) ≡ compact_text (step_json t words other other_supplied other_after)
        → outline after ≡ outline other_after }
    ensures value { (t : Litmus) (kind other_kind : ProtocolKind) (c d : Configuration) (choices other : List Choice)
        → IsTest t → IsConfigurationWithinLimits c → IsConfigurationWithinLimits d → c.shape.words ≡ d.shape.words
        → CoresExist (length t.programs) choices → CoresExist (length t.programs) other
        → compact_text (trace_json t kind c choices) ≡ compact_text (trace_json t other_kind d other)
        → map told_by_object (trace_under t kind c choices) ≡ map told_by_object (trace_under t other_kind d other) }
{
    traces_tell_their_steps();
}

/// What a line tells of a step: each field, and of the stores that are pending the location and the value.
pub fn a_line_tells_each_field()
    ensures choice { (s other : ShownStep) → told_by_line s ≡ told_by_line other → s.choice ≡ other.choice }
    ensures outcome { (s other : ShownStep) → told_by_line s ≡ told_by_line other → s.outcome ≡ other.outcome }
    ensures entries { (s other : ShownStep) → told_by_line s ≡ told_by_line other → s.entries ≡ other.entries }
    ensures moved { (s other : ShownStep) → told_by_line s ≡ told_by_line other → s.moved ≡ other.moved }
    ensures forwarded { (s other : ShownStep) → told_by_line s ≡ told_by_line other → s.forwarded ≡ other.forwarded }
    ensures access { (s other : ShownStep) → told_by_line s ≡ told_by_line other → s.access ≡ other.access }
    ensures request { (s other : ShownStep) → told_by_line s ≡ told_by_line other → s.request ≡ other.request }
    ensures flushed { (s other : ShownStep) → told_by_line s ≡ told_by_line other → s.flushed ≡ other.flushed }
    ensures wrote_back { (s other : ShownStep) → told_by_line s ≡ told_by_line other → s.wrote_back ≡ other.wrote_back }
    ensures changes { (s other : ShownStep) → told_by_line s ≡ told_by_line other → s.changes ≡ other.changes }
    ensures buffer { (s other : ShownStep) → told_by_line s ≡ told_by_line other
        → option_map (map bare_store) s.buffer ≡ option_map (map bare_store) other.buffer }
    ensures location { (e other : Entry) → bare_store e ≡ bare_store other → e.loc ≡ other.loc }
    ensures value { (e other : Entry) → bare_store e ≡ bare_store other → e.value ≡ other.value }
{}

/// What the members of an object tell of a step: each field but the stores that are pending.
pub fn an_object_tells_each_field()
    ensures choice { (s other : ShownStep) → told_by_object s ≡ told_by_object other → s.choice ≡ other.choice }
    ensures outcome { (s other : ShownStep) → told_by_object s ≡ told_by_object other → s.outcome ≡ other.outcome }
    ensures entries { (s other : ShownStep) → told_by_object s ≡ told_by_object other → s.entries ≡ other.entries }
    ensures moved { (s other : ShownStep) → told_by_object s ≡ told_by_object other → s.moved ≡ other.moved }
    ensures forwarded { (s other : ShownStep) → told_by_object s ≡ told_by_object other → s.forwarded ≡ other.forwarded }
    ensures access { (s other : ShownStep) → told_by_object s ≡ told_by_object other → s.access ≡ other.access }
    ensures request { (s other : ShownStep) → told_by_object s ≡ told_by_object other → s.request ≡ other.request }
    ensures flushed { (s other : ShownStep) → told_by_object s ≡ told_by_object other → s.flushed ≡ other.flushed }
    ensures wrote_back { (s other : ShownStep) → told_by_object s ≡ told_by_object other → s.wrote_back ≡ other.wrote_back }
    ensures changes { (s other : ShownStep) → told_by_object s ≡ told_by_object other → s.changes ≡ other.changes }
{}

/// The steps of a trace fit its test, so what is printed of any two traces is told apart by the lines alone.
pub fn traces_are_told_apart()
    ensures fit { (t : Litmus) (kind : ProtocolKind) (c : Configuration) (choices : List Choice)
        → IsTest t → IsConfigurationWithinLimits c → CoresExist (length t.programs) choices
        → All (TraceStepFits t c.shape.words) (trace_under t kind c choices) }
    ensures told { (t : Litmus) (kind other_kind : ProtocolKind) (c d : Configuration) (choices other : List Choice)
        (rest other_rest : List ℕ) → IsTest t → IsConfigurationWithinLimits c → IsConfigurationWithinLimits d
        → c.shape.words ≡ d.shape.words → CoresExist (length t.programs) choices → CoresExist (length t.programs) other
        → trace_text t c.shape.words (trace_under t kind c choices) ++ rest
        ≡ trace_text t c.shape.words (trace_under t other_kind d other) ++ other_rest
        → map told_by_line (trace_under t kind c choices) ≡ map told_by_line (trace_under t other_kind d other) }
{
    traced_steps_fit_their_test();
    traces_tell_their_steps();
}

/// Runs of which `trace` prints the same took the same steps, and left the same.
pub fn traced_runs_are_told_apart()
    ensures line_steps { (t : Litmus) (kind : ProtocolKind) (c : Configuration) (choices other : List Choice)
        → IsTest t → IsConfigurationWithinLimits c → IsTraceable t kind c choices → IsTraceable t kind c other
        → traced_in false t kind c choices ≡ traced_in false t kind c other
        → trace_under t kind c choices ≡ trace_under t kind c other }
    ensures line_run { (t : Litmus) (kind : ProtocolKind) (c : Configuration) (choices other : List Choice)
        → IsTest t → IsConfigurationWithinLimits c → IsTraceable t kind c choices → IsTraceable t kind c other
        → traced_in false t kind c choices ≡ traced_in false t kind c other → RunsLeaveTheSame t kind c choices other }
    ensures json_steps { (t : Litmus) (kind : ProtocolKind) (c : Configuration) (choices other : List Choice)
        → IsTest t → IsConfigurationWithinLimits c → IsTraceable t kind c choices → IsTraceable t kind c other
        → traced_in true t kind c choices ≡ traced_in true t kind c other
        → trace_under t kind c choices ≡ trace_under t kind c other }
    ensures json_run { (t : Litmus) (kind : ProtocolKind) (c : Configuration) (choices other : List Choice)
        → IsTest t → IsConfigurationWithinLimits c → IsTraceable t kind c choices → IsTraceable t kind c other
        → traced_in true t kind c choices ≡ traced_in true t kind c other → RunsLeaveTheSame t kind c choices other }
{
    printed_traces_are_told();
}

/// What `trace` prints names the test, the protocol and the configuration; as JSON where both runs ended.
pub fn a_trace_names_its_machine()
    ensures lines { (t u : Litmus) (kind other_kind : ProtocolKind) (c d : Configuration) (choices other : List Choice)
        → IsTest t → IsTest u → IsConfigurationWithinLimits c → IsConfigurationWithinLimits d
        → IsTraceable t kind c choices → IsTraceable u other_kind d other
        → traced_in false t kind c choices ≡ traced_in false u other_kind d other → NameTheSame t u kind other_kind c d }
    ensures json { (t u : Litmus) (kind other_kind : ProtocolKind) (c d : Configuration) (choices other : List Choice)
        → IsTest t → IsTest u → IsConfigurationWithinLimits c → IsConfigurationWithinLimits d
        → IsTraceable t kind c choices → IsTraceable u other_kind d other
        → (run_under t kind c choices).ended ≡ true → (run_under u other_kind d other).ended ≡ true
        → traced_in true t kind c choices ≡ traced_in true u other_kind d other → NameTheSame t u kind other_kind c d }
{
    printed_traces_tell_their_machines();
}

/// What is asked of choices: cores of the test, at most 100,000, and answers such as caches may give.
pub fn what_is_traceable()
    ensures exist { (t : Litmus) (kind : ProtocolKind) (c : Configuration) (choices : List Choice)
        → IsTraceable t kind c choices → CoresExist (length t.programs) choices }
    ensures few { (t : Litmus) (kind : ProtocolKind) (c : Configuration) (choices : List Choice)
        → IsTraceable t kind c choices → length choices ≤ 100000 }
    ensures answers { (t : Litmus) (kind : ProtocolKind) (c : Configuration) (choices : List Choice)
        → IsTraceable t kind c choices → AnswersFit t kind c choices }
{}
