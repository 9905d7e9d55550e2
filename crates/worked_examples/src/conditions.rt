//! The truth of propositions in one final state, and how they are counted. All values there differ, so that no atom is true
//! by chance.

ghost use Rattle.std.specs.Prelude.{◌≡◌, true, false};
ghost use Rattle.tso_terms.specs.Condition.{RegClaim, LocClaim, NotClaim, AndClaim, OrClaim, atoms_in, negations_in};
ghost use Rattle.tso_terms.specs.declared.register.Reg.TheVariants.{Eax, Ebx, Ecx, Edx, Esi, Edi};
ghost use Rattle.worked_examples.specs.inner.Claims.{holds, true_atom, false_atom, nested};

/// Atoms: each register of a core and each location, by its value.
pub fn worked_atoms()
    ensures eax { holds (RegClaim 1 Eax 21) ≡ true }
    ensures ebx { holds (RegClaim 1 Ebx 22) ≡ true }
    ensures ecx { holds (RegClaim 1 Ecx 23) ≡ true }
    ensures edx { holds (RegClaim 1 Edx 24) ≡ true }
    ensures esi { holds (RegClaim 1 Esi 25) ≡ true }
    ensures edi { holds (RegClaim 1 Edi 26) ≡ true }
    ensures another_core { holds (RegClaim 0 Eax 21) ≡ false }
    ensures location { holds (LocClaim 1 4) ≡ true }
    ensures another_location { holds (LocClaim 0 4) ≡ false }
    ensures true_itself { holds true_atom ≡ true }
    ensures false_itself { holds false_atom ≡ false }
{}

/// Negation, conjunction and disjunction; and how many atoms a proposition has, and negations on one path.
pub fn worked_propositions()
    ensures not_true { holds (NotClaim true_atom) ≡ false }
    ensures not_false { holds (NotClaim false_atom) ≡ true }
    ensures true_and_true { holds (AndClaim true_atom true_atom) ≡ true }
    ensures true_and_false { holds (AndClaim true_atom false_atom) ≡ false }
    ensures false_and_true { holds (AndClaim false_atom true_atom) ≡ false }
    ensures false_and_false { holds (AndClaim false_atom false_atom) ≡ false }
    ensures true_or_true { holds (OrClaim true_atom true_atom) ≡ true }
    ensures true_or_false { holds (OrClaim true_atom false_atom) ≡ true }
    ensures false_or_true { holds (OrClaim false_atom true_atom) ≡ true }
    ensures false_or_false { holds (OrClaim false_atom false_atom) ≡ false }
    ensures nested_is_true { holds nested ≡ true }
    ensures nested_atoms { atoms_in nested ≡ 4 }
    ensures nested_negations { negations_in nested ≡ 2 }
{}
