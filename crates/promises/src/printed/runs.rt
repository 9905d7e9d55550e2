//! What is printed of runs, field by field.

ghost use Rattle.std.specs.Prelude.{◌≡◌, ◌≤◌, Bool, List, false, length, true};
ghost use Rattle.tso_cli.specs.CommandAnswers.{text_under};
ghost use Rattle.tso_cli.specs.RunTexts.{report_in};
ghost use Rattle.multiprocessor.specs.Configuration.{Configuration, IsConfigurationWithinLimits};
ghost use Rattle.protocol_tables.specs.declared.kind.ProtocolKind.{ProtocolKind};
ghost use Rattle.scheduler.specs.Limits.{most_choices};
ghost use Rattle.machine_runs.specs.Runs.{AnswersFit, run_under};
ghost use Rattle.tso_cli.specs.Fitting.{RunFitsTest, shown_under};
ghost use Rattle.tso_terms.specs.Litmus.{IsTest, Litmus};
ghost use Rattle.tso_terms.specs.declared.choice.Choice.{Choice};
ghost use Rattle.tso_report.specs.Shown.{ShownRun};

use printed_laws::{printed_runs_are_told, reports_tell_their_machines};

/// Runs of which the same is printed ended both, and the same is shown of them, or neither did.
pub fn two_runs_are_told_apart()
    ensures ended { (t : Litmus) (kind : ProtocolKind) (c : Configuration) (json : Bool) (choices other : List Choice)
        → IsTest t → IsConfigurationWithinLimits c → length choices ≤ most_choices → length other ≤ most_choices
        → AnswersFit t kind c choices → AnswersFit t kind c other
        → text_under t kind c json choices ≡ text_under t kind c json other
        → (run_under t kind c choices).ended ≡ (run_under t kind c other).ended }
    ensures shown { (t : Litmus) (kind : ProtocolKind) (c : Configuration) (json : Bool) (choices other : List Choice)
        → IsTest t → IsConfigurationWithinLimits c → length choices ≤ most_choices → length other ≤ most_choices
        → AnswersFit t kind c choices → AnswersFit t kind c other
        → text_under t kind c json choices ≡ text_under t kind c json other → (run_under t kind c choices).ended ≡ true
        → shown_under t kind c choices ≡ shown_under t kind c other }
    ensures used { (t : Litmus) (kind : ProtocolKind) (c : Configuration) (json : Bool) (choices other : List Choice)
        → IsTest t → IsConfigurationWithinLimits c → length choices ≤ most_choices → length other ≤ most_choices
        → AnswersFit t kind c choices → AnswersFit t kind c other
        → text_under t kind c json choices ≡ text_under t kind c json other → (run_under t kind c choices).ended ≡ false
        → (run_under t kind c choices).used ≡ (run_under t kind c other).used }
    ensures stalled { (t : Litmus) (kind : ProtocolKind) (c : Configuration) (json : Bool) (choices other : List Choice)
        → IsTest t → IsConfigurationWithinLimits c → length choices ≤ most_choices → length other ≤ most_choices
        → AnswersFit t kind c choices → AnswersFit t kind c other
        → text_under t kind c json choices ≡ text_under t kind c json other → (run_under t kind c choices).ended ≡ false
        → (run_under t kind c choices).stalled ≡ (run_under t kind c other).stalled }
{
    printed_runs_are_told();
}

/// Two reports, or two objects, that are the same name the same test, protocol and configuration.
pub fn a_report_names_its_machine()
    ensures line_test { (t u : Litmus) (kind other_kind : ProtocolKind) (c d : Configuration) (s other : ShownRun) → IsTest t
        → IsTest u → IsConfigurationWithinLimits c → IsConfigurationWithinLimits d → RunFitsTest t s → RunFitsTest u other
        → report_in false t kind c s ≡ report_in false u other_kind d other → t.name ≡ u.name }
    ensures line_protocol { (t u : Litmus) (kind other_kind : ProtocolKind) (c d : Configuration) (s other : ShownRun) → IsTest t
        → IsTest u → IsConfigurationWithinLimits c → IsConfigurationWithinLimits d → RunFitsTest t s → RunFitsTest u other
        → report_in false t kind c s ≡ report_in false u other_kind d other → kind ≡ other_kind }
    ensures line_configuration { (t u : Litmus) (kind other_kind : ProtocolKind) (c d : Configuration) (s other : ShownRun) → IsTest t
        → IsTest u → IsConfigurationWithinLimits c → IsConfigurationWithinLimits d → RunFitsTest t s → RunFitsTest u other
        → report_in false t kind c s ≡ report_in false u other_kind d other → c ≡ d }
    ensures json_test { (t u : Litmus) (kind other_kind : ProtocolKind) (c d : Configuration) (s other : ShownRun) → IsTest t
        → IsTest u → IsConfigurationWithinLimits c → IsConfigurationWithinLimits d → RunFitsTest t s → RunFitsTest u other
        → report_in true t kind c s ≡ report_in true u other_kind d other → t.name ≡ u.name }
    ensures json_protocol { (t u : Litmus) (kind other_kind : ProtocolKind) (c d : Configuration) (s other : ShownRun) → IsTest t
        → IsTest u → IsConfigurationWithinLimits c → IsConfigurationWithinLimits d → RunFitsTest t s → RunFitsTest u other
        → report_in true t kind c s ≡ report_in true u other_kind d other → kind ≡ other_kind }
    ensures json_configuration { (t u : Litmus) (kind other_kind : ProtocolKind) (c d : Configuration) (s other : ShownRun) → IsTest t
        → IsTest u → IsConfigurationWithinLimits c → IsConfigurationWithinLimits d → RunFitsTest t s → RunFitsTest u other
        → report_in true t kind c s ≡ report_in true u other_kind d other → c ≡ d }
{
    reports_tell_their_machines();
}
