//! What is printed of final states: in which of them a proposition is true, whether a condition is as it claims, and which values are
//! shown. (litmus7 and herd, for the words.)

ghost use Rattle.std.specs.Prelude.{◌≡◌, ◌++◌, [], ◌∷◌, codes};
ghost use Rattle.tso_report.specs.ShownNames.{names_shown};
ghost use Rattle.tso_report.specs.declared.show.Show.TheVariants.{Condition, Registers, All};
ghost use Rattle.tso_terms.specs.Condition.{NotClaim};
ghost use Rattle.basic_laws.specs.Types.{Exists, NotExists, Forall, Ebx};
ghost use Rattle.worked_examples.specs.PrintedOutcomes.{both_zero, one_is_two, said_of, three_lines, register};
ghost use Rattle.worked_examples.specs.PrintedOutcomes.{printed, printed_lines_of_it, printed_json, printed_object};
ghost use Rattle.worked_examples.specs.PrintedOutcomes.{met, met_lines_of_it, met_as_json, met_object, none_met, none_as_json, decided_of};
ghost use Rattle.worked_examples.specs.PrintedOutcomes.{all_kinds, without_condition, written_registers, both_locations};

/// What is printed of the four final states of store buffering, byte for byte.
pub fn worked_printed_states()
    ensures lines { printed ≡ printed_lines_of_it }
    ensures object { printed_json ≡ printed_object }
{}

/// Each quantifier, of what is so in one state, in none and in all: the numbers begin at 1.
pub fn worked_verdicts()
    ensures exists_one { said_of Exists both_zero ≡ three_lines (codes "Observation SB Sometimes 1 3") (codes "True 1") (codes "Verdict Ok") }
    ensures exists_none { said_of Exists one_is_two ≡ three_lines (codes "Observation SB Never 0 4") (codes "True") (codes "Verdict No") }
    ensures not_one { said_of NotExists both_zero ≡ three_lines (codes "Observation SB Sometimes 1 3") (codes "True 1") (codes "Verdict No") }
    ensures not_none { said_of NotExists one_is_two ≡ three_lines (codes "Observation SB Never 0 4") (codes "True") (codes "Verdict Ok") }
    ensures forall_three { said_of Forall (NotClaim both_zero)
        ≡ three_lines (codes "Observation SB Sometimes 3 1") (codes "True 2 3 4") (codes "Verdict No") }
    ensures forall_four { said_of Forall (NotClaim one_is_two)
        ≡ three_lines (codes "Observation SB Always 4 0") (codes "True 1 2 3 4") (codes "Verdict Ok") }
{}

/// What is printed of two of them, where the search met its limit; and where it had met none.
pub fn worked_met_states()
    ensures lines { met ≡ met_lines_of_it }
    ensures object { met_as_json ≡ met_object }
    ensures no_lines { none_met ≡ codes "Unfinished states=6\nMet 0\n" }
    ensures no_object { none_as_json ≡ codes "{\"met\":[],\"test\":\"SB\",\"unfinished\":{\"states\":6},\"verdict\":null}\n" }
{}

/// Each quantifier, of what is so in one of two states that were met, in none and in both: a verdict is there only where no further
/// state can change it.
pub fn worked_decided_verdicts()
    ensures exists_one { decided_of Exists both_zero ≡ codes "Verdict Ok\n" }
    ensures exists_none { decided_of Exists one_is_two ≡ [] }
    ensures not_one { decided_of NotExists both_zero ≡ codes "Verdict No\n" }
    ensures not_none { decided_of NotExists one_is_two ≡ [] }
    ensures forall_one { decided_of Forall both_zero ≡ codes "Verdict No\n" }
    ensures forall_both { decided_of Forall (NotClaim one_is_two) ≡ [] }
{}

/// What is shown: what the condition names, also what instructions of its core write, also all locations. A store and a fence write no
/// register. Without a condition all locations are shown in any case.
pub fn worked_shown_values()
    ensures condition { names_shown Condition all_kinds ≡ register 1 Ebx ∷ [] }
    ensures registers { names_shown Registers all_kinds ≡ written_registers }
    ensures all { names_shown All all_kinds ≡ written_registers ++ both_locations }
    ensures none_condition { names_shown Condition without_condition ≡ both_locations }
    ensures none_registers { names_shown Registers without_condition ≡ written_registers ++ both_locations }
    ensures none_all { names_shown All without_condition ≡ written_registers ++ both_locations }
{}
