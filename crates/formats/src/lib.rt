//! Formats: what a printed text is made of, as data, and one law for all of them.
//!
//! Nothing here computes. A format is a value: words, numbers, fixed texts, one thing after another,
//! one or another, or many of them. Its values, their texts and how those begin are computed from it.
//! Where ways to begin tell what comes next, each text tells its value.
#![tactic(auto)]

ghost use Rattle.formats.specs.Laws.{DataHasNoFloat, TextsTellTheirValues};

/// Where ways to begin tell what comes next, a text of a format tells its value and what comes after it.
pub fn texts_tell_their_values()
    ensures { TextsTellTheirValues }
{}

/// As JSON data a value of a format has no float, so that its text is known.
pub fn data_has_no_float()
    ensures { DataHasNoFloat }
{}
