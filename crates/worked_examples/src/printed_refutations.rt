//! Worked refutations: what is printed of them, on which the definitions can be held against the eye.

ghost use Rattle.std.specs.Prelude.{◌≡◌, []};
ghost use Rattle.refutation_laws.specs.declared.model.Model.TheVariants.{Tso};
ghost use Rattle.lemma_refutations.specs.Worked.{passing_refuted, lost_refuted, two_refuted, first_two, two_refuted_by_lemma, none_refuted};
ghost use Rattle.lemma_refutations.specs.Worked.{counts_two_refuted, turns_refuted};
ghost use Rattle.search_report.specs.LineText.{never_text};
ghost use Rattle.search_report.specs.LineJson.{never_json};
ghost use Rattle.worked_examples.specs.PrintedExecutions.{passing_asked, between_asked, n6_asked};
ghost use Rattle.worked_examples.specs.PrintedRefutations.{passing_lines, passing_value, lost_lines, two_asked, two_lines, lemma_lines};
ghost use Rattle.worked_examples.specs.PrintedRefutations.{none_asked, none_lines, count_asked, count_lines, turns_asked, turns_lines};
ghost use Rattle.worked_examples.specs.PrintedRefutations.{words_asked, words_lines, found_asked, found_lines, found_value, false_alone};
ghost use Rattle.worked_examples.specs.PrintedRefutations.{n6_tree, n6_lines};

/// What is printed of these, byte for byte: message passing, as JSON too; a locked addition; a lock that two of three cores have, once
/// more with a lemma, and one that none has; a counter of three that counts two; a location with two words that are left; what one core
/// finds of that counter, to which no value is left, as JSON too; a word of an exchange that nobody reads; what n6 doesn't allow, behind a
/// question that isn't needed.
pub fn worked_printed_refutations()
    ensures passing { never_text Tso passing_asked [] passing_refuted ≡ passing_lines }
    ensures passing_json { never_json Tso passing_asked [] passing_refuted ≡ passing_value }
    ensures lost { never_text Tso between_asked [] lost_refuted ≡ lost_lines }
    ensures two { never_text Tso two_asked [] two_refuted ≡ two_lines }
    ensures by_lemma { never_text Tso two_asked first_two two_refuted_by_lemma ≡ lemma_lines }
    ensures none { never_text Tso none_asked [] none_refuted ≡ none_lines }
    ensures count { never_text Tso count_asked [] counts_two_refuted ≡ count_lines }
    ensures words { never_text Tso words_asked [] false_alone ≡ words_lines }
    ensures no_value { never_text Tso found_asked [] false_alone ≡ found_lines }
    ensures no_value_json { never_json Tso found_asked [] false_alone ≡ found_value }
    ensures turns { never_text Tso turns_asked [] turns_refuted ≡ turns_lines }
    ensures n6 { never_text Tso n6_asked [] n6_tree ≡ n6_lines }
{}
