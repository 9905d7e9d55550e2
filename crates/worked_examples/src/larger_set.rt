//! What the instructions of the larger set do: each operator, update and move by an example that tells its operands apart.

ghost use Rattle.std.specs.Prelude.{◌≡◌, [], ◌∷◌, Some, None};
ghost use Rattle.tso_terms.specs.Actions.{action_of};
ghost use Rattle.tso_terms.specs.Thread.{entry, combined, updated, changed, entries_by, registers_by};
ghost use Rattle.basic_laws.specs.Types.{Eax, Ebx, Ecx, Number, Held, Add, Subtract, And, Or, Xor, Replace, Negate, CompareExchange, Keep, Set, Swap, LR, LW};
ghost use Rattle.tso_terms.specs.declared.action.Update.TheVariants.{Combine};
ghost use Rattle.tso_terms.specs.declared.instruction.Instr.TheVariants as instr;
ghost use Rattle.tso_terms.specs.declared.action.Action.TheVariants.{Move, Lock};
ghost use Rattle.worked_examples.specs.Written.{loc_x, six};
ghost use Rattle.worked_examples.specs.SmallPrograms.{first};

/// Operators: sums and differences modulo 2^32, the others bit by bit.
pub fn worked_operators()
    ensures add { (combined Add 5 3 ≡ 8) × (combined Add 4294967295 3 ≡ 2) }
    ensures subtract { (combined Subtract 5 3 ≡ 2) × (combined Subtract 3 5 ≡ 4294967294) }
    ensures and { combined And 12 10 ≡ 8 }
    ensures or { combined Or 12 10 ≡ 14 }
    ensures xor { (combined Xor 12 10 ≡ 6) × (combined Xor 12 4294967295 ≡ 4294967283) }
{}

/// Updates of a word, where EAX has 11, EBX 12 and ECX 13.
pub fn worked_updates()
    ensures replace { updated (Replace (Held Ebx)) first 5 ≡ 12 }
    ensures combine { (updated (Combine Subtract (Held Ebx)) first 15 ≡ 3) × (updated (Combine Add (Number 7)) first 15 ≡ 22) }
    ensures negate { (updated Negate first 5 ≡ 4294967291) × (updated Negate first 0 ≡ 0) }

    // where the word is EAX's it becomes the register's, else it stays
    ensures equal { updated (CompareExchange Ebx) first 11 ≡ 12 }
    ensures other { updated (CompareExchange Ebx) first 10 ≡ 10 }
{}

/// Moves of the same registers.
pub fn worked_changes()
    ensures keep { changed Keep first ≡ first }
    ensures set { changed (Set Ecx (Combine Subtract (Held Ebx))) first ≡ six 11 12 1 14 15 16 }
    ensures itself { changed (Set Eax (Combine Xor (Held Eax))) first ≡ six 0 12 13 14 15 16 }
    ensures swap { changed (Swap Eax Ebx) first ≡ six 12 11 13 14 15 16 }
{}

/// What each instruction of the larger set does.
pub fn worked_larger_actions()
    // LOCK CMPXCHG [x],EBX
    ensures compare_exchange { action_of (instr.CompareExchange loc_x Ebx) ≡ Lock loc_x (Some Eax) (CompareExchange Ebx) }

    // LOCK SUB [x],$7, and LOCK NEG [x]
    ensures locked_combine { action_of (instr.LockedCombine loc_x Subtract (Number 7)) ≡ Lock loc_x None (Combine Subtract (Number 7)) }
    ensures locked_negate { action_of (instr.LockedNegate loc_x) ≡ Lock loc_x None Negate }

    // OR ECX,EBX, and NEG ECX
    ensures combine { action_of (instr.Combine Ecx Or (Held Ebx)) ≡ Move (Set Ecx (Combine Or (Held Ebx))) }
    ensures negate { action_of (instr.Negate Ecx) ≡ Move (Set Ecx Negate) }

    // XCHG EAX,EBX, and NOP
    ensures swap { action_of (instr.Swap Eax Ebx) ≡ Move (Swap Eax Ebx) }
    ensures nop { action_of instr.Nop ≡ Move Keep }
{}

/// LOCK CMPXCHG [x],EBX, where x has 11 and where it has 10: it writes in both cases, and EAX has the old word.
pub fn worked_compare_exchange()
    ensures equal { entries_by 0 2 (action_of (instr.CompareExchange loc_x Ebx)) first 11
        ≡ entry 0 2 LR loc_x 11 ∷ (entry 0 2 LW loc_x 12 ∷ []) }
    ensures other { entries_by 0 2 (action_of (instr.CompareExchange loc_x Ebx)) first 10
        ≡ entry 0 2 LR loc_x 10 ∷ (entry 0 2 LW loc_x 10 ∷ []) }
    ensures eax { registers_by (action_of (instr.CompareExchange loc_x Ebx)) first 10 ≡ six 10 12 13 14 15 16 }

    // LOCK ADD [x],EBX takes nothing into a register
    ensures locked_add { registers_by (action_of (instr.LockedCombine loc_x Add (Held Ebx))) first 10 ≡ first }
{}
