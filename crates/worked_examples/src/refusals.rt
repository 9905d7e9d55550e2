//! What texts are told that spell no test: for each kind of slip a text as a user could write it, its refusal with the line, and what
//! stands from the place of the fault on.

ghost use Rattle.std.specs.Prelude.{◌≡◌, ◌≤◌, ◌<◌, ◌++◌, ℕ, List, [], length, codes, None, Ok};
ghost use Rattle.litmus_tokens.specs.declared.fault.Why.TheVariants.{NoHeader, Unclosed, BadToken, BadInit, BadHeaderRow, WrongCells};
ghost use Rattle.litmus_tokens.specs.declared.fault.Why.TheVariants.{BadInstruction, BadNumber, TwiceInit, NoSuchCore, TooLarge};
ghost use Rattle.litmus_tokens.specs.declared.fault.Why.TheVariants.{BadCondition, Trailing};
ghost use Rattle.litmus_reader.specs.Header.{sized};
ghost use Rattle.litmus_tokens.specs.declared.instructions.Instructions.TheVariants.{Basic, All};
ghost use Rattle.worked_examples.specs.RefusedTexts.{told, told_in, refused, times, one_core, sixteen, long_test_name, long_name};

/// Refusals before the initial state.
pub fn worked_header_refusals()
    // the header line
    ensures comment_before_header { told (codes "\n(* X86 T") ≡ refused 2 Unclosed (codes "(* X86 T") }
    ensures long_name_in_header { told (codes "\n X86 " ++ long_test_name) ≡ refused 2 TooLarge (codes "X86 " ++ long_test_name) }
    ensures long_name_with_tab_in_it { told (codes "X86 \t." ++ long_test_name ++ codes "\t.")
        ≡ refused 1 NoHeader (codes "X86 \t." ++ long_test_name ++ codes "\t.") }
    ensures other_machine { told (codes "\nPPC T\n{}") ≡ refused 2 NoHeader (codes "PPC T\n{}") }
    ensures no_name { told (codes "X86\n{}") ≡ refused 1 NoHeader (codes "X86\n{}") }
    ensures empty { told [] ≡ refused 1 NoHeader [] }

    // information lines
    ensures comment_in_information { told (codes "X86 T\n\n(* {}") ≡ refused 3 Unclosed (codes "(* {}") }
    ensures no_initial_state { told (codes "X86 T\nCom=Rf\n") ≡ refused 3 Unclosed [] }
    ensures open_quotation { told (codes "X86 T\n\"Rfe\n{}") ≡ refused 2 Unclosed (codes "\"Rfe\n{}") }
    ensures no_equals { told (codes "X86 T\nCom\n{}") ≡ refused 2 BadToken (codes "Com\n{}") }
    ensures no_key { told (codes "X86 T\n\n(x=1)") ≡ refused 3 BadToken (codes "(x=1)") }
{}

/// Refusals of the initial state.
pub fn worked_initial_refusals()
    ensures no_end { told (codes "X86 T\n{ x=1\ny=2; }") ≡ refused 3 BadInit (codes "y=2; }") }
    ensures no_value { told (codes "X86 T\n{ x=1;\ny }") ≡ refused 3 BadInit (codes "}") }
    ensures no_register { told (codes "X86 T\n{ 0:\nx=1 }") ≡ refused 3 BadInit (codes "x=1 }") }
    ensures open_state { told (codes "X86 T\n{ x=1;\n") ≡ refused 2 Unclosed (codes "{ x=1;\n") }
    ensures large_value { told (codes "X86 T\n{ x=1;\ny=4294967296 }") ≡ refused 3 BadNumber (codes "y=4294967296 }") }
    ensures large_value_goes_on { told (codes "X86 T\n{ x=4294967296\ny }") ≡ refused 3 BadInit (codes "y }") }
    ensures seventeenth { told (sixteen ++ codes "\nq=0}") ≡ refused 3 TooLarge (codes "q=0}") }
    ensures large_seventeenth { told (sixteen ++ codes "\nq=4294967296}") ≡ refused 3 BadNumber (codes "q=4294967296}") }
    ensures location_twice { told (codes "X86 T\n{ x=1;\n[x]=1 }") ≡ refused 3 TwiceInit (codes "[x]=1 }") }
    ensures register_twice { told (codes "X86 T\n{ 1:EAX=1;\n01:eax=1 }") ≡ refused 3 TwiceInit (codes "01:eax=1 }") }
    ensures bad_byte { told (codes "X86 T\n{\nx=-1 }") ≡ refused 3 BadToken (codes "-1 }") }
    ensures long_name_in_item { told (codes "X86 T\n{\n" ++ long_name) ≡ refused 3 BadToken long_name }
    ensures open_comment { told (codes "X86 T\n{ x=1\n(* }") ≡ refused 3 Unclosed (codes "(* }") }
{}

/// Refusals of the header row and of rows.
pub fn worked_table_refusals()
    // the header row
    ensures not_p0 { told (codes "X86 T\n{}\nP1;") ≡ refused 3 BadHeaderRow (codes "P1;") }
    ensures no_bar { told (codes "X86 T\n{}\nP0\nP1;") ≡ refused 4 BadHeaderRow (codes "P1;") }
    ensures open_header_row { told (codes "X86 T\n{}\nP0|") ≡ refused 3 BadHeaderRow [] }
    ensures ninth_core { told (codes "X86 T\n{}\nP0|P1|P2|P3|P4|P5|P6|P7|\nP8;") ≡ refused 4 TooLarge (codes "P8;") }
    ensures core_of_item { told (codes "X86 T\n{ 0:EAX=1;\n2:EAX=1; 1:EAX=1 }\nP0;") ≡ refused 3 NoSuchCore (codes "2:EAX=1; 1:EAX=1 }\nP0;") }
    ensures core_of_item_before_row_ends { told (codes "X86 T\n{ 2:EAX=1 }\nP0\n") ≡ refused 4 BadHeaderRow [] }
    ensures bad_byte_in_header_row { told (codes "X86 T\n{}\n#P0;") ≡ refused 3 BadToken (codes "#P0;") }

    // rows
    ensures open_row { told (one_core ++ codes "MFENCE\n") ≡ refused 4 Unclosed (codes "MFENCE\n") }
    ensures bad_byte_in_row { told (one_core ++ codes "MFENCE\n#;") ≡ refused 5 BadToken (codes "#;") }
    ensures too_few_cells { told (codes "X86 T\n{}\nP0|P1;\nMOVE\nEAX;") ≡ refused 4 WrongCells (codes "MOVE\nEAX;") }
    ensures too_many_cells { told (one_core ++ codes "MFENCE\n|;") ≡ refused 4 WrongCells (codes "MFENCE\n|;") }
    ensures no_instruction { told (codes "X86 T\n{}\nP0|P1;\nMFENCE|\nMOV [x];") ≡ refused 5 BadInstruction (codes "MOV [x];") }
    ensures no_such_register { told (one_core ++ codes "MOV RAX,$1;") ≡ refused 4 BadInstruction (codes "MOV RAX,$1;") }
    ensures large_number { told (one_core ++ codes "MFENCE;\nMOV [x],$4294967296;") ≡ refused 5 BadNumber (codes "MOV [x],$4294967296;") }
    ensures large_number_of_seventeenth { told (sixteen ++ codes "} P0;\nMOV [q],$4294967296;") ≡ refused 3 BadNumber (codes "MOV [q],$4294967296;") }
    ensures seventeenth_in_row { told (sixteen ++ codes "}P0;\nMOV EAX,[q];") ≡ refused 3 TooLarge (codes "MOV EAX,[q];") }
    ensures thirty_third { told (one_core ++ times 33 (codes "MFENCE;\n")) ≡ refused 36 TooLarge (codes "MFENCE;\n") }
{}

/// Refusals after the rows.
pub fn worked_ending_refusals()
    // `locations`
    ensures no_bracket { told (one_core ++ codes "locations\nx]") ≡ refused 5 BadToken (codes "x]") }
    ensures nothing_after_locations { told (one_core ++ codes "locations\n") ≡ refused 5 BadToken [] }
    ensures bad_byte_after_locations { told (one_core ++ codes "locations\n#[]") ≡ refused 5 BadToken (codes "#[]") }
    ensures comment_in_brackets { told (one_core ++ codes "locations [\n(* x]") ≡ refused 5 Unclosed (codes "(* x]") }
    ensures open_brackets { told (one_core ++ codes "locations\n[ (* ] *)") ≡ refused 5 Unclosed (codes "[ (* ] *)") }

    // the condition
    ensures no_proposition { told (one_core ++ codes "exists\n") ≡ refused 5 BadCondition [] }
    ensures no_number { told (one_core ++ codes "exists x=\nEAX") ≡ refused 5 BadCondition (codes "EAX") }
    ensures open_bracket { told (one_core ++ codes "exists (x=1\ny=2)") ≡ refused 5 BadCondition (codes "y=2)") }
    ensures not_forall { told (one_core ++ codes "~\nforall x=1") ≡ refused 5 BadCondition (codes "forall x=1") }
    ensures core_of_atom { told (one_core ++ codes "exists (0:EAX=1 /\\\n1:EAX=4294967296)") ≡ refused 5 NoSuchCore (codes "1:EAX=4294967296)") }
    ensures large_value { told (one_core ++ codes "exists x=1 \\/\ny=4294967296") ≡ refused 5 BadNumber (codes "y=4294967296") }
    ensures seventeenth_in_condition { told (sixteen ++ codes "}P0;exists\nq=0") ≡ refused 3 TooLarge (codes "q=0") }
    ensures bad_byte_in_condition { told (one_core ++ codes "exists x\n==1") ≡ refused 5 BadCondition (codes "=1") }

    // the end
    ensures after_condition { told (one_core ++ codes "exists x=1\n;") ≡ refused 5 Trailing (codes ";") }
    ensures after_locations { told (one_core ++ codes "locations [x;]\nMFENCE;") ≡ refused 5 Trailing (codes "MFENCE;") }
    ensures bad_byte_at_end { told (one_core ++ codes "exists x=1\n#") ≡ refused 5 BadToken (codes "#") }
    ensures long_name_after_condition { told (one_core ++ codes "exists x=1\n" ++ long_name) ≡ refused 5 BadToken long_name }
    ensures open_comment_at_end { told (one_core ++ codes "exists x=1\n(* x") ≡ refused 5 Unclosed (codes "(* x") }
{}

/// Texts at each limit, which are told nothing, and texts over it where no other example is.
pub fn worked_limits_of_texts()
    ensures longest_text_is_read_on { (text : List ℕ) → length text ≤ 65536 → sized text ≡ Ok text }
    ensures longer_text { (text : List ℕ) → 65536 < length text → told text ≡ refused 1 TooLarge text }
    ensures longest_test_name { told (codes "X86 " ++ times 64 (codes "T") ++ codes "\n{} P0;") ≡ None }
    ensures longest_name { told (codes "X86 T\n{ " ++ times 32 (codes "x") ++ codes "=0 } P0;") ≡ None }
    ensures sixteen_locations { told (sixteen ++ codes "} P0;") ≡ None }
    ensures eight_cores { told (codes "X86 T\n{} P0|P1|P2|P3|P4|P5|P6|P7;") ≡ None }
    ensures thirty_two_instructions { told (one_core ++ times 32 (codes "MFENCE;")) ≡ None }
    ensures greatest_word_of_item { told (codes "X86 T\n{ x=4294967295 } P0;") ≡ None }
    ensures greatest_word_of_cell { told (one_core ++ codes "MOV EAX,4294967295;") ≡ None }
    ensures greatest_word_of_atom { told (one_core ++ codes "exists x=4294967295") ≡ None }
    ensures sixty_four_open { told (one_core ++ codes "exists " ++ times 32 (codes "(~") ++ codes "x=1" ++ times 32 (codes ")")) ≡ None }
    ensures sixty_fifth_bracket { told (one_core ++ codes "exists " ++ times 32 (codes "~(") ++ codes "\n(x=1") ≡ refused 5 TooLarge (codes "(x=1") }
    ensures sixty_fifth_negation { told (one_core ++ codes "exists " ++ times 32 (codes "~(") ++ codes "\nnot x=1") ≡ refused 5 TooLarge (codes "not x=1") }
    ensures atoms_256 { told (one_core ++ codes "exists x=1" ++ times 255 (codes "/\\true")) ≡ None }
    ensures atom_257 { told (one_core ++ codes "exists false" ++ times 255 (codes "\\/true") ++ codes "/\\\nx=1") ≡ refused 5 TooLarge (codes "x=1") }
{}

/// The larger set: what the basic one refuses of it, and what it refuses itself.
pub fn worked_larger_refusals()
    // each is read in the larger set alone
    ensures hexadecimal { told_in Basic (one_core ++ codes "MOV [x],$0x1;") ≡ refused 4 BadInstruction (codes "MOV [x],$0x1;") }
    ensures hexadecimal_is_read { told_in All (one_core ++ codes "MOV [x],$0x1;") ≡ None }
    ensures negative { told_in Basic (one_core ++ codes "MOV [x],\n-1;") ≡ refused 5 BadToken (codes "-1;") }
    ensures negative_is_read { told_in All (one_core ++ codes "MOV [x],\n-1;") ≡ None }
    ensures locked { told_in Basic (one_core ++ codes "LOCK INC [x];") ≡ refused 4 BadInstruction (codes "LOCK INC [x];") }
    ensures locked_is_read { told_in All (one_core ++ codes "LOCK INC [x];") ≡ None }
    ensures swap { told_in Basic (one_core ++ codes "XCHG EAX,EBX;") ≡ refused 4 BadInstruction (codes "XCHG EAX,EBX;") }
    ensures swap_is_read { told_in All (one_core ++ codes "XCHG EAX,EBX;") ≡ None }

    // numbers: the least and the greatest, and one beyond each; a digit after `0x`, and one sign
    ensures least { told_in All (one_core ++ codes "MOV [x],$-2147483648;") ≡ None }
    ensures less { told_in All (one_core ++ codes "MOV [x],$-2147483649;") ≡ refused 4 BadNumber (codes "MOV [x],$-2147483649;") }
    ensures greatest { told_in All (one_core ++ codes "MOV [x],$0xffffffff;") ≡ None }
    ensures greater { told_in All (one_core ++ codes "MOV [x],$0x100000000;") ≡ refused 4 BadNumber (codes "MOV [x],$0x100000000;") }
    ensures no_digit { told_in All (one_core ++ codes "MOV [x],$0x;") ≡ refused 4 BadInstruction (codes "MOV [x],$0x;") }
    ensures two_signs { told_in All (one_core ++ codes "MOV [x],$--1;") ≡ refused 4 BadInstruction (codes "MOV [x],$--1;") }
    ensures hexadecimal_core { told_in All (codes "X86 T\n{\n0x0:EAX=1 }") ≡ refused 3 BadInit (codes "0x0:EAX=1 }") }

    // a change of memory that isn't locked, and `LOCK` before what changes no memory
    ensures not_locked { told_in All (one_core ++ codes "INC [x];") ≡ refused 4 BadInstruction (codes "INC [x];") }
    ensures compare_not_locked { told_in All (one_core ++ codes "CMPXCHG [x],EBX;") ≡ refused 4 BadInstruction (codes "CMPXCHG [x],EBX;") }
    ensures register_locked { told_in All (one_core ++ codes "LOCK INC EAX;") ≡ refused 4 BadInstruction (codes "LOCK INC EAX;") }
    ensures swap_locked { told_in All (one_core ++ codes "LOCK XCHG EAX,EBX;") ≡ refused 4 BadInstruction (codes "LOCK XCHG EAX,EBX;") }

    // operands that don't fit
    ensures number_compared { told_in All (one_core ++ codes "LOCK CMPXCHG [x],$1;") ≡ refused 4 BadInstruction (codes "LOCK CMPXCHG [x],$1;") }
    ensures from_memory { told_in All (one_core ++ codes "ADD EAX,[x];") ≡ refused 4 BadInstruction (codes "ADD EAX,[x];") }
    ensures one_too_many { told_in All (one_core ++ codes "LOCK NEG [x],EAX;") ≡ refused 4 BadInstruction (codes "LOCK NEG [x],EAX;") }
    ensures one_for_none { told_in All (one_core ++ codes "NOP EAX;") ≡ refused 4 BadInstruction (codes "NOP EAX;") }
{}
