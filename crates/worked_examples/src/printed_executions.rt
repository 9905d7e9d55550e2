//! A worked execution: what is printed of it, on which the definitions can be held against the eye.

ghost use Rattle.std.specs.Prelude.{◌≡◌};
ghost use Rattle.relational_model.specs.WorkedCandidates.{sb_candidate};
ghost use Rattle.refutation_laws.specs.declared.model.Model.TheVariants.{Tso};
ghost use Rattle.search_report.specs.ReasonText.{allowed_text};
ghost use Rattle.search_report.specs.ReasonJson.{allowed_json};
ghost use Rattle.worked_examples.specs.PrintedExecutions.{sb_asked, sb_choices, sb_text, sb_json};

/// What is printed of store buffering, which happens, byte for byte, and as JSON.
pub fn worked_reasons()
    ensures sb { allowed_text Tso sb_asked sb_candidate sb_choices ≡ sb_text }
    ensures sb_json { allowed_json Tso sb_asked sb_candidate sb_choices ≡ sb_json }
{}
