//! Which names a test and a location may have, and which a register has: names that keep the rules, and one that breaks
//! each of them.

ghost use Rattle.std.specs.Prelude.{◌≡◌, true, false, codes, replicate, Some, None, [], ◌∷◌};
ghost use Rattle.tso_terms.specs.Names.{is_test_name, is_location_name, is_among};
ghost use Rattle.tso_terms.specs.Registers.{register_named, name_of};
ghost use Rattle.tso_terms.specs.declared.register.Reg.TheVariants.{Eax, Ebx, Ecx, Edx, Esi, Edi};

/// Locations: a letter or an underscore first, then letters, digits and underscores, 32 bytes at most; and no word that means
/// something else.
pub fn worked_location_names()
    ensures letters { is_location_name (codes "x") ≡ true }
    ensures underscore_first { is_location_name (codes "_x1") ≡ true }
    ensures digit_first { is_location_name (codes "1x") ≡ false }
    ensures hyphen { is_location_name (codes "x-y") ≡ false }
    ensures empty { is_location_name [] ≡ false }
    ensures of_32_bytes { is_location_name (replicate 32 97) ≡ true }
    ensures of_33_bytes { is_location_name (replicate 33 97) ≡ false }
    ensures register_name { is_location_name (codes "eax") ≡ false }
    ensures stack_register { is_location_name (codes "ESP") ≡ false }
    ensures frame_register { is_location_name (codes "Ebp") ≡ false }
    ensures no_such_register { is_location_name (codes "EIP") ≡ true }
    ensures word_true { is_location_name (codes "true") ≡ false }
    ensures word_false { is_location_name (codes "false") ≡ false }
    ensures word_not { is_location_name (codes "not") ≡ false }
    ensures word_exists { is_location_name (codes "exists") ≡ false }
    ensures word_forall { is_location_name (codes "forall") ≡ false }
    ensures word_locations { is_location_name (codes "locations") ≡ false }
    ensures word_in_capitals { is_location_name (codes "EXISTS") ≡ true }
    ensures name_among { is_among (codes "y") (codes "x" ∷ codes "y" ∷ []) ≡ true }
    ensures name_not_among { is_among (codes "Y") (codes "x" ∷ codes "y" ∷ []) ≡ false }
{}

/// Tests: printable bytes, one to 64, and no space at either end.
pub fn worked_test_names()
    ensures printable { is_test_name (codes "SB+mfence po") ≡ true }
    ensures space_first { is_test_name (codes " SB") ≡ false }
    ensures space_last { is_test_name (codes "SB ") ≡ false }
    ensures no_bytes { is_test_name [] ≡ false }
    ensures tilde { is_test_name (83 ∷ 126 ∷ []) ≡ true }
    ensures delete { is_test_name (83 ∷ 127 ∷ []) ≡ false }
    ensures tab { is_test_name (83 ∷ 9 ∷ 66 ∷ []) ≡ false }
    ensures of_64_bytes { is_test_name (replicate 64 83) ≡ true }
    ensures of_65_bytes { is_test_name (replicate 65 83) ≡ false }
{}

/// Registers, in any case of letters, and as they are printed.
pub fn worked_register_names()
    ensures named_eax { register_named (codes "EAX") ≡ Some Eax }
    ensures named_ebx { register_named (codes "ebx") ≡ Some Ebx }
    ensures named_ecx { register_named (codes "eCx") ≡ Some Ecx }
    ensures named_edx { register_named (codes "EdX") ≡ Some Edx }
    ensures named_esi { register_named (codes "ESi") ≡ Some Esi }
    ensures named_edi { register_named (codes "edI") ≡ Some Edi }
    ensures named_none { register_named (codes "ESP") ≡ None }
    ensures printed_eax { name_of Eax ≡ 69 ∷ 65 ∷ 88 ∷ [] }
    ensures printed_ebx { name_of Ebx ≡ 69 ∷ 66 ∷ 88 ∷ [] }
    ensures printed_ecx { name_of Ecx ≡ 69 ∷ 67 ∷ 88 ∷ [] }
    ensures printed_edx { name_of Edx ≡ 69 ∷ 68 ∷ 88 ∷ [] }
    ensures printed_esi { name_of Esi ≡ 69 ∷ 83 ∷ 73 ∷ [] }
    ensures printed_edi { name_of Edi ≡ 69 ∷ 68 ∷ 73 ∷ [] }
{}
