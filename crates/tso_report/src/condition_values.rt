//! What is shown where nothing more is asked for. It is the contract of a function that does nothing: who calls it knows it.

ghost use Rattle.std.specs.Prelude.{◌≡◌};
ghost use Rattle.tso_terms.specs.Litmus.{Litmus};
ghost use Rattle.tso_report.specs.Tally.{looked_at};
ghost use Rattle.tso_report.specs.ShownNames.{names_shown};
ghost use Rattle.tso_report.specs.declared.show.Show.{Show};

/// Where what the condition names is asked for, the states name that and nothing else, as those of a sweep do.
pub fn condition_shows_what_is_looked_at()
    ensures { (t : Litmus) → names_shown Show.Condition t ≡ looked_at t }
{}
