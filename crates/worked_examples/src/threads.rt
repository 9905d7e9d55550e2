//! A thread of all eight instructions, each with a register, a location and values of its own: what each instruction does, which
//! entries the thread makes, and what it leaves.

ghost use Rattle.std.specs.Prelude.{◌≡◌, true};
ghost use Rattle.tso_terms.specs.Litmus.{IsTest};
ghost use Rattle.tso_terms.specs.Actions.{action_of};
ghost use Rattle.tso_terms.specs.Thread.{entries_with, registers_with, reads_in};
ghost use Rattle.tso_terms.specs.FinalState.{final_words, final_registers};
ghost use Rattle.tso_terms.specs.FlatMachine.{registers_in};
ghost use Rattle.tso_terms.specs.Runs.{run};
ghost use Rattle.basic_laws.specs.Types.{Eax, Ebx, Ecx, Edx, Esi, Edi, Number, Held, Replace, Add, Set};
ghost use Rattle.std.specs.Prelude.{Some};
ghost use Rattle.tso_terms.specs.declared.action.Update.TheVariants.{Combine};
ghost use Rattle.tso_terms.specs.declared.instruction.Instr.TheVariants as instr;
ghost use Rattle.tso_terms.specs.declared.action.Action.TheVariants.{Store, Load, Move, Fence, Lock};
ghost use Rattle.worked_examples.specs.Written.{loc_x, loc_y, loc_z, six};
ghost use Rattle.worked_examples.specs.EightInstructions.{eight, eight_program, eight_read, eight_entries};
ghost use Rattle.worked_examples.specs.EightInstructions.{eight_order, eight_registers, eight_memory};
ghost use Rattle.worked_examples.specs.inner.EightInstructions.{eight_choices};

/// What each of the eight instructions does.
pub fn worked_actions()
    // MOV [x],$21, and MOV [y],EBX
    ensures number_is_stored { action_of (instr.StoreImm loc_x 21) ≡ Store loc_x (Number 21) }
    ensures register_is_stored { action_of (instr.StoreReg loc_y Ebx) ≡ Store loc_y (Held Ebx) }

    // MOV ECX,[z]
    ensures word_is_loaded { action_of (instr.Load Ecx loc_z) ≡ Load Ecx loc_z }

    // MOV EDX,$22, and MOV ESI,EDI
    ensures number_is_moved { action_of (instr.SetImm Edx 22) ≡ Move (Set Edx (Replace (Number 22))) }
    ensures register_is_moved { action_of (instr.SetReg Esi Edi) ≡ Move (Set Esi (Replace (Held Edi))) }

    // MFENCE
    ensures fence_is_one { action_of instr.Fence ≡ Fence }

    // XCHG [x],EAX, and LOCK XADD [y],EDI
    ensures exchange_locks { action_of (instr.Xchg loc_x Eax) ≡ Lock loc_x (Some Eax) (Replace (Held Eax)) }
    ensures addition_locks { action_of (instr.Xadd loc_y Edi) ≡ Lock loc_y (Some Edi) (Combine Add (Held Edi)) }
{}

/// The thread of these eight, by the values that its three reads return, and by an order that has them.
pub fn worked_thread()
    ensures is_a_test { IsTest eight }
    ensures three_reads { reads_in eight_program ≡ 3 }
    ensures entries { entries_with eight 1 eight_read ≡ eight_entries }
    ensures registers { registers_with eight 1 eight_read ≡ six 32 12 31 22 16 4294967290 }
    ensures registers_by_an_order { final_registers eight eight_order ≡ eight_registers }
    ensures memory_by_an_order { final_words eight eight_order ≡ eight_memory }
{}

/// The run of these eight on the flat machine.
pub fn worked_run()
    ensures commits { (run eight 2 eight_choices).commits ≡ eight_order }
    ensures registers { registers_in (run eight 2 eight_choices).state ≡ eight_registers }
    ensures memory { (run eight 2 eight_choices).state.memory ≡ eight_memory }
    ensures ended { (run eight 2 eight_choices).ended ≡ true }
    ensures used { (run eight 2 eight_choices).used ≡ 12 }
    ensures stalled { (run eight 2 eight_choices).stalled ≡ 0 }
    ensures unused { (run eight 2 eight_choices).unused ≡ 0 }
{}
