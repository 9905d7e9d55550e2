//! What a person who reads a printed refutation by hand can rely on, said again in plain terms.

ghost use Rattle.std.specs.List.{AllByRecursion, list_any};
ghost use Rattle.std.specs.Prelude.{◌+◌, ◌<◌, ◌≡◌, ◌⊎◌, ◌++◌, ◌∷◌, All, Contains, List, None, Some, [], false, filter, length, map, true, ℕ};
ghost use Rattle.tso_terms.specs.Condition.{Claim, NamesExist, truth_of};
ghost use Rattle.tso_terms.specs.FinalState.{final_registers, final_words};
ghost use Rattle.tso_terms.specs.Litmus.{IsTest, Litmus};
ghost use Rattle.tso_terms.specs.ProgramOrder.{is_read};
ghost use Rattle.basic_laws.specs.Types.{Entry};
ghost use Rattle.relational_model.specs.Candidates.{Candidate};
ghost use Rattle.relational_model.specs.Model.{IsAllowed};
ghost use Rattle.refutation_laws.specs.Agreement.{Stands};
ghost use Rattle.refutation_laws.specs.Models.{IsExecutionOf};
ghost use Rattle.refutation_laws.specs.Refutations.{asked_claim};
ghost use Rattle.refutation_laws.specs.declared.model.Model.{Model};
ghost use Rattle.possible_reads.specs.Facts.{Fact, given_by};
ghost use Rattle.possible_reads.specs.Laws.{AreMet, ReadIsPossible};
ghost use Rattle.possible_reads.specs.Possible.{is_among, last_words, readings};
ghost use Rattle.lemma_refutations.specs.Refutations.{Lemma, Node, answers, is_impossible, is_node, known_from, refutes};
ghost use Rattle.tso_report.specs.Tally.{shown_value};
ghost use Rattle.tso_report.specs.declared.named.Named.{Named};
ghost use Rattle.search_report.specs.FalseLines.{IsAsGiven};
ghost use Rattle.search_report.specs.LineJson.{line_value, never_json, never_json_line};
ghost use Rattle.search_report.specs.LineText.{line_text, never_lines, never_text};
ghost use Rattle.search_report.specs.Lines.{Case, Leaf, Line, So, deeper, given_lines, leaves_in, question_word};
ghost use Rattle.search_report.specs.Shown.{Closing, False, closing_at, is_on_events, places_false};
ghost use Rattle.search_report.specs.ShownText.{closing_text};
ghost use Rattle.printed_laws.specs.ByHand.{AreCasesOf, ClosesBranch, HasClosedCase, HasLemmaFirst, HasOpenCase, HaveCases, IsLeafLine};
ghost use Rattle.printed_laws.specs.ByHand.{LinesRefute, LinesRefuteInTurn, LinesRefuteWithin, ListHas, RefuteByHand};
ghost use Rattle.printed_laws.specs.ByHand.{answer_shown, lemma_line};
ghost use Rattle.serde_json.specs.Written.{has_float};
ghost use Rattle.formats.specs.Beginnings.{First, begins_so, is_clear};
ghost use Rattle.formats.specs.Formats.{FitsFormat, Format, Value, text};
ghost use Rattle.formats.specs.JsonData.{data_of};
ghost use Rattle.told_reasons.specs.ListedValues.{value_left};
ghost use Rattle.told_reasons.specs.ReasonFormats.{line_format};
ghost use Rattle.told_reasons.specs.ShownLines.{IsKey, LineFits, LineIsChained, shown_asked, shown_line};

use formats::{data_has_no_float, texts_tell_their_values};
use lemma_refutations::refutations_by_lemmas_are_sound;
use printed_laws::{printed_lines_refute, reasons_tell_their_tests};
use search_report::false_lines_are_so;
use told_reasons::{lines_are_of_one_format, listed_values_are_all_left, printed_reasons_are_told};

/// What is printed of a refutation, as lines or as JSON, is made of lines that refute; and what lines refute is true of no execution.
pub fn a_reason_is_read_by_hand()
    ensures text { (model : Model) (t : Litmus) (lemmas : List Lemma) (tree : List Node) → refutes model t (asked_claim t.condition) lemmas tree ≡ true
        → (lines : List Line) × RefuteByHand model t (asked_claim t.condition) lines × (never_text model t lemmas tree ≡ never_lines model t lines) }
    ensures object { (model : Model) (t : Litmus) (lemmas : List Lemma) (tree : List Node) → refutes model t (asked_claim t.condition) lemmas tree ≡ true
        → (lines : List Line) × RefuteByHand model t (asked_claim t.condition) lines × (never_json model t lemmas tree ≡ never_json_line model t lines) }
    ensures executions { (model : Model) (t : Litmus) (claim : Claim) (lines : List Line) (order : List Entry)
        → NamesExist (length t.programs) (length t.words) claim → RefuteByHand model t claim lines → IsExecutionOf model t order
        → truth_of (final_registers t order) (final_words t order) claim ≡ false }
{
    printed_lines_refute();
    refutations_by_lemmas_are_sound();
}

/// What the claim gives comes first, and each lemma's line before its part.
pub fn what_is_given_comes_first()
    ensures given { (model : Model) (t : Litmus) (claim : Claim) (lines : List Line) (read : RefuteByHand model t claim lines)
        → lines ≡ given_lines t (given_by t claim true) ++ read.rest }
    ensures lemmas { (model : Model) (t : Litmus) (given : List Fact) (shown left : List Lemma) (number : ℕ) (lemma : Lemma) (lines : List Line)
        (read : HasLemmaFirst (LinesRefuteInTurn model t given (shown ++ (lemma ∷ [])) (number + 1) left) model t given shown number lemma lines)
        → lines ≡ lemma_line t given number lemma ∷ (map deeper read.part ++ read.rest) }
    ensures refute { (model : Model) (t : Litmus) (given : List Fact) (shown left : List Lemma) (number : ℕ) (lemma : Lemma) (lines : List Line)
        (read : HasLemmaFirst (LinesRefuteInTurn model t given (shown ++ (lemma ∷ [])) (number + 1) left) model t given shown number lemma lines)
        → LinesRefute model t shown (lemma.facts ++ given) read.part }
    ensures others { (model : Model) (t : Litmus) (given : List Fact) (shown left : List Lemma) (number : ℕ) (lemma : Lemma) (lines : List Line)
        (read : HasLemmaFirst (LinesRefuteInTurn model t given (shown ++ (lemma ∷ [])) (number + 1) left) model t given shown number lemma lines)
        → LinesRefuteInTurn model t given (shown ++ (lemma ∷ [])) (number + 1) left read.rest }
    ensures turns { (model : Model) (t : Litmus) (claim : Claim) (lines : List Line) (read : RefuteByHand model t claim lines)
        → LinesRefuteInTurn model t (given_by t claim true) [] 1 read.lemmas read.rest }
{}

/// A line that closes a case has its answer, and says why in the words for a node that may stand there and has no branches.
pub fn a_closed_case_has_its_line()
    ensures answer { (model : Model) (t : Litmus) (lemmas : List Lemma) (facts : List Fact) (question : List ℕ) (lines : List Line) (answer : List Fact)
        (read : HasClosedCase model t lemmas facts question lines answer) → ListHas read.beside (answer_shown t facts answer) }
    ensures line { (model : Model) (t : Litmus) (lemmas : List Lemma) (facts : List Fact) (question : List ℕ) (lines : List Line) (answer : List Fact)
        (read : HasClosedCase model t lemmas facts question lines answer)
        → ListHas lines (Case 0 question read.beside (Some read.closing)) ⊎ ListHas lines (So 0 question read.beside (Some read.closing)) }
    ensures case_closes { (model : Model) (t : Litmus) (lemmas : List Lemma) (facts : List Fact) (question : List ℕ) (lines : List Line) (answer : List Fact)
        (read : HasClosedCase model t lemmas facts question lines answer) → ClosesBranch model t lemmas (answer ++ facts) read.closing }
    ensures leaf_closes { (model : Model) (t : Litmus) (lemmas : List Lemma) (facts : List Fact) (lines : List Line)
        (read : IsLeafLine model t lemmas facts lines) → ClosesBranch model t lemmas facts read.closing }
    ensures leaf { (model : Model) (t : Litmus) (lemmas : List Lemma) (facts : List Fact) (lines : List Line)
        (read : IsLeafLine model t lemmas facts lines) → lines ≡ Leaf 0 read.closing ∷ [] }
    ensures words { (model : Model) (t : Litmus) (lemmas : List Lemma) (facts : List Fact) (closing : Closing)
        (read : ClosesBranch model t lemmas facts closing)
        → closing_text t closing ≡ closing_text t (closing_at model t (known_from t facts) read.node) }
    ensures stands { (model : Model) (t : Litmus) (lemmas : List Lemma) (facts : List Fact) (closing : Closing)
        (read : ClosesBranch model t lemmas facts closing)
        → is_node model t lemmas (known_from t facts) read.node ≡ true }
    ensures unanswered { (model : Model) (t : Litmus) (lemmas : List Lemma) (facts : List Fact) (closing : Closing)
        (read : ClosesBranch model t lemmas facts closing)
        → answers t (known_from t facts) read.node ≡ [] }
{}

/// A question may be asked and has answers, and each has its case: a line with what closes it, or with its part behind it.
pub fn a_question_has_its_cases()
    ensures stands { (n : ℕ) (model : Model) (t : Litmus) (lemmas : List Lemma) (facts : List Fact) (lines : List Line)
        (read : AreCasesOf (LinesRefuteWithin model t lemmas n) model t lemmas facts lines) → is_node model t lemmas (known_from t facts) read.question ≡ true }
    ensures answered { (n : ℕ) (model : Model) (t : Litmus) (lemmas : List Lemma) (facts : List Fact) (lines : List Line)
        (read : AreCasesOf (LinesRefuteWithin model t lemmas n) model t lemmas facts lines) → 0 < length (answers t (known_from t facts) read.question) }
    ensures cases { (n : ℕ) (model : Model) (t : Litmus) (lemmas : List Lemma) (facts : List Fact) (lines : List Line)
        (read : AreCasesOf (LinesRefuteWithin model t lemmas n) model t lemmas facts lines)
        → HaveCases (LinesRefuteWithin model t lemmas n) model t lemmas facts (question_word read.question) lines
        (answers t (known_from t facts) read.question) }
    ensures line { (n : ℕ) (model : Model) (t : Litmus) (lemmas : List Lemma) (facts : List Fact) (question : List ℕ) (lines : List Line) (answer : List Fact)
        (read : HasOpenCase (LinesRefuteWithin model t lemmas n) t facts question lines answer)
        → (lines ≡ read.before ++ (Case 0 question (answer_shown t facts answer ∷ []) None ∷ (map deeper read.part ++ read.after)))
        ⊎ (lines ≡ read.before ++ (So 0 question (answer_shown t facts answer ∷ []) None ∷ read.part)) }
    ensures part { (n : ℕ) (model : Model) (t : Litmus) (lemmas : List Lemma) (facts : List Fact) (question : List ℕ) (lines : List Line) (answer : List Fact)
        (read : HasOpenCase (LinesRefuteWithin model t lemmas n) t facts question lines answer)
        → LinesRefuteWithin model t lemmas n (answer ++ facts) read.part }
{}

/// Where at the end each place that a line `False` names has one of the values beside it, the propositions that are given in its branch
/// aren't all as they are given.
pub fn a_printed_false_line_is_so()
    ensures { (t : Litmus) (facts : List Fact) (registers : List (List ℕ)) (memory : List ℕ)
        → list_any (is_impossible t (known_from t facts)) facts ≡ true
        → All (λ p. Contains p.values (shown_value registers memory p.named)) (places_false t (known_from t facts) facts)
        → All (IsAsGiven registers memory) facts → ⊥ }
{
    false_lines_are_so();
}

/// What stands beside a place of a line `False` is all that is left there: take an allowed candidate that meets the facts on events of the
/// line's case, and whose reads read from and return what is left to them. At its end the place has one of the values that are listed.
/// (Where these facts leave a location any value, it has to be as asked too.)
pub fn a_false_line_lists_all_that_is_left()
    ensures { (t : Litmus) (c : Candidate) (facts : List Fact) → IsAllowed t c → AreMet t c (filter is_on_events facts)
        → ((read r : Entry) → Stands t c read r → is_read r ≡ true → ReadIsPossible t c (readings t facts) read r)
        → ((loc : ℕ) → last_words t (filter is_on_events facts) (readings t facts) loc ≡ None → AreMet t c facts)
        → AllByRecursion (λ p. is_among p.values (value_left t c p.named) ≡ true) (places_false t (known_from t facts) facts) }
{
    listed_values_are_all_left();
}

/// Printed lines that are the same are of tests of one name, of one model, and close as many cases, where these are fewer than 2^64.
pub fn reasons_are_told_apart()
    ensures tests { (model other : Model) (t u : Litmus) (lines others : List Line)
        → IsTest t → IsTest u → never_lines model t lines ≡ never_lines other u others → t.name ≡ u.name }
    ensures models { (model other : Model) (t u : Litmus) (lines others : List Line)
        → IsTest t → IsTest u → never_lines model t lines ≡ never_lines other u others → model ≡ other }
    ensures leaves { (model other : Model) (t u : Litmus) (lines others : List Line)
        → IsTest t → IsTest u → leaves_in lines < 18446744073709551616 → leaves_in others < 18446744073709551616
        → never_lines model t lines ≡ never_lines other u others → leaves_in lines ≡ leaves_in others }
{
    reasons_tell_their_tests();
}

/// What is printed the same of two refutations shows the same lines, and asks the same, whichever tests and models they are of. Each fact,
/// event and place is told as it is printed.
pub fn printed_reasons_are_told_apart()
    ensures lines { (model other : Model) (t u : Litmus) (lines others : List Line) → IsTest t → IsTest u
        → AllByRecursion (LineFits t) lines → AllByRecursion (LineFits u) others
        → leaves_in lines < 18446744073709551616 → leaves_in others < 18446744073709551616
        → never_lines model t lines ≡ never_lines other u others → map (shown_line t) lines ≡ map (shown_line u) others }
    ensures asked { (model other : Model) (t u : Litmus) (lines others : List Line) → IsTest t → IsTest u
        → AllByRecursion (LineFits t) lines → AllByRecursion (LineFits u) others
        → leaves_in lines < 18446744073709551616 → leaves_in others < 18446744073709551616
        → never_lines model t lines ≡ never_lines other u others → shown_asked t.condition ≡ shown_asked u.condition }
{
    printed_reasons_are_told();
}

/// A line `False` may have a place without a value, and fits its test all the same. So it is told as each other line is.
pub fn a_place_may_have_no_value()
    ensures { (t : Litmus) (depth : ℕ) (named : Named) → IsKey t named
        → LineFits t (Leaf depth (False (record { named = named; values = [] } ∷ []))) }
{}

/// The text of a line, and its JSON where the edges of a cycle follow one another, are those of one value of one format.
pub fn a_line_is_of_one_format()
    ensures texts { (t : Litmus) (l : Line) → text line_format (shown_line t l) ≡ line_text t l }
    ensures objects { (t : Litmus) (l : Line) → LineIsChained t l → data_of line_format (shown_line t l) ≡ line_value t l }
{
    lines_are_of_one_format();
}

/// Where the next words tell which part of a format comes, a text of the format tells its value and what is behind it. As JSON a value
/// has no float.
pub fn a_text_of_a_format_tells_its_value()
    ensures value { (f : Format) (ways : List (List First)) (x y : Value f) (rest other : List ℕ) → is_clear f ways ≡ true
        → FitsFormat f x → FitsFormat f y → begins_so ways rest ≡ true → begins_so ways other ≡ true
        → text f x ++ rest ≡ text f y ++ other → x ≡ y }
    ensures behind { (f : Format) (ways : List (List First)) (x y : Value f) (rest other : List ℕ) → is_clear f ways ≡ true
        → FitsFormat f x → FitsFormat f y → begins_so ways rest ≡ true → begins_so ways other ≡ true
        → text f x ++ rest ≡ text f y ++ other → rest ≡ other }
    ensures floats { (f : Format) (x : Value f) → has_float (data_of f x) ≡ false }
{
    texts_tell_their_values();
    data_has_no_float();
}
