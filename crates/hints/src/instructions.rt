//! What is said of instructions that aren't read, and of operands that say their size, by their names.

use crate::tables::Alike;

/// Of what isn't done one instruction after the other.
pub const STRAIGHT: &str =
    "{} isn't read: a program has no branches: write the way that is taken, and join what leads there: 0:EAX=1 /\\ .. in exists and ~exists, ~(0:EAX=1) \\/ .. in forall; tools/compiled FILE.c reads C";

/// Of what is done again and again.
pub const LOOP: &str =
    "{} isn't read: a program has no loops: write one round, with a load where it waits, and join what ends it: 0:EAX=1 /\\ .. in exists and ~exists, ~(0:EAX=1) \\/ .. in forall; tools/compiled FILE.c reads C";

const JUMP: &str =
    "{} isn't read: a program has no jumps: leave it out, and join what leads on here: 0:EAX=1 /\\ .. in exists and ~exists, ~(0:EAX=1) \\/ .. in forall; tools/compiled --object FILE.s P0 P1 reads jumps and loops";

/// Of a sum of two registers.
pub const SUM_OF_REGISTERS: &str =
    "LOCK XADD adds a register to a location, as LOCK XADD [x],EAX; a register is added to another one by ADD EAX,EBX";

/// Of a compare with an exchange in another language.
pub const COMPARE_AND_EXCHANGE: &str =
    "{} isn't read: with --instructions all write LOCK CMPXCHG [x],EBX, with the expected word in EAX, which gets the old one, and the new word in EBX";

/// The same where all instructions are asked for.
pub const COMPARE_AND_EXCHANGE_OF_ALL: &str =
    "{} isn't read: write LOCK CMPXCHG [x],EBX, with the expected word in EAX, which gets the old one, and the new word in EBX";

const PAIR_OF_WORDS: &str =
    "{} isn't read: it compares and writes more than 32 bits, and words have only 32 here: where these will do write LOCK CMPXCHG [x],EBX; tools/compiled --object FILE.s P0 P1 reads it";

const COMPARE: &str =
    "{} isn't read: a program has no compares: leave it out, and join what it finds: 0:EAX=1 /\\ .. in exists and ~exists, ~(0:EAX=1) \\/ .. in forall; tools/compiled --object FILE.s P0 P1 reads compares";

/// Of a label.
pub const LABEL: &str =
    "{} is a label, and a program has no jumps: leave it out, and join what leads on here: 0:EAX=1 /\\ .. in exists and ~exists, ~(0:EAX=1) \\/ .. in forall; tools/compiled --object FILE.s P0 P1 reads jumps and loops";

const ARITHMETIC: &str =
    "{} isn't read: for a location write a load, as MOV EAX,[x], and a store of the result, as MOV [x],$1; for a register MOV EAX,$1";

/// Of what may store.
pub const STORE: &str = "{} isn't read: a store is MOV [x],$1 or MOV [x],EAX";

/// Of what may load.
pub const LOAD: &str = "{} isn't read: a load is MOV EAX,[x]";

/// Of an exchange.
pub const EXCHANGE: &str = "{} isn't read: an exchange in one step is XCHG [x],EAX";

/// Of an addition.
pub const ADDITION: &str = "{} isn't read: an addition in one step is LOCK XADD [x],EAX";

const FENCE: &str =
    "{} isn't read: the fence is MFENCE; leave out one that keeps only loads or only stores in order";

/// Instructions and words of other processors and languages, by their whole names.
pub static OTHERS: [Alike; 27] = [
    Alike(
        "STORE ST STR STRB STRH STP STLR STW STD SW SB SD WRITE W PUT SET ASSIGN let var",
        STORE,
    ),
    Alike(
        "LOAD LD LDR LDRB LDRH LDP LDAR LDAPR LWZ LW LB READ R GET FETCH",
        LOAD,
    ),
    Alike(
        "FENCE MF MB SYNC DMB DSB ISB BARRIER MEMBAR HWSYNC LWSYNC F smp_mb rmb wmb \
         memory_barrier thread_fence atomic_thread_fence __sync_synchronize _mm_mfence",
        FENCE,
    ),
    Alike("TAS TSL SWAP SWP EXCHANGE EXCH RMW test_and_set", EXCHANGE),
    Alike(
        "LDXR LDAXR STXR STLXR LWARX STWCX LDREX STREX LR SC AMOSWAP AMOADD LDADDAL SWPAL",
        "{} isn't read: to load and store in one step write XCHG [x],EAX or LOCK XADD [x],EAX",
    ),
    Alike(
        "LI LIS ORI ADDI XORI LUI MV MR",
        "{} isn't read: a register is set by MOV EAX,$1",
    ),
    Alike(
        "UNLOCK",
        "{} isn't read: a lock is given back by a store of 0, as MOV [x],$0",
    ),
    Alike("XCHAN XCHANGE", "{} is no instruction: write XCHG"),
    Alike("FAA FADD LDADD FETCH_ADD fetch_and_add INCREMENT", ADDITION),
    Alike(
        "LOCKXADD LOCK_XADD LOCKXCHG LOCK_XCHG",
        "{}: write a space after LOCK: LOCK XADD [x],EAX",
    ),
    Alike(
        "if else goto switch break continue endif then BNE BEQ CBZ CBNZ B",
        STRAIGHT,
    ),
    Alike("while for do until repeat spin wait await", LOOP),
    Alike(
        "LEA LA ADRP ADR",
        "{} isn't read: no register can hold an address here: write the location's name in the instruction, as [x]",
    ),
    Alike(
        "PUSH POP PUSHA PUSHAD PUSHF PUSHFD PUSHFQ POPA POPAD POPF POPFD POPFQ ENTER",
        "{} isn't read: there is no stack: a store is MOV [x],EAX, a load MOV EAX,[x]",
    ),
    Alike(
        "MOVZX MOVSX MOVSXD MOVABS",
        "{} isn't read: write MOV, which moves a word of 32 bits",
    ),
    Alike(
        "MOVD MOVAPS MOVUPS MOVDQA MOVDQU MOVSS MOVSD VMOVAPS VMOVUPS VMOVDQA VMOVDQU VMOVSS VMOVSD",
        "{} isn't read: there are no vectors: for each word of 32 bits write a store MOV [x],EAX or a load MOV EAX,[x]",
    ),
    Alike(
        "MOVNTI MOVNTDQ MOVNTQ MOVNTPS MOVNTPD MASKMOVDQU MOVDIRI MOVDIR64B",
        "{} isn't read: its store may pass other stores, and under TSO none does; a store in order is MOV [x],EAX",
    ),
    Alike(
        "MUL IMUL DIV IDIV SAL SAR ROL ROR ADC SBB BSWAP EOR BSF BSR LZCNT TZCNT POPCNT XLAT",
        ARITHMETIC,
    ),
    Alike("MOVBE", "{} isn't read: write MOV"),
    Alike(
        "FLD FST FSTP FILD FIST FISTP",
        "{} isn't read: there are no floating numbers: a store of a word of 32 bits is MOV [x],EAX, a load MOV EAX,[x]",
    ),
    Alike(
        "INT3 MONITOR MWAIT INVLPG IN OUT RDFSBASE WRFSBASE RDRAND RDSEED LGDT LIDT STD CLD LAHF SAHF STC CLC",
        "{} isn't read: leave it out",
    ),
    Alike(
        "XBEGIN XEND XABORT XTEST",
        "{} isn't read: there are no transactions: to load and store in one step write XCHG [x],EAX or LOCK XADD [x],EAX",
    ),
    Alike("CAS compare_and_swap", COMPARE_AND_EXCHANGE),
    Alike(
        "BT BTS BTR BTC",
        "{} isn't read: a lock is taken by XCHG [x],EAX, with 1 in EAX",
    ),
    Alike(
        "CPUID RDTSC RDTSCP HLT INT SERIALIZE WBINVD INVD CLI STI SYSCALL \
         UD2 print printf",
        "{} isn't read: leave it out; if it stands for a fence, write MFENCE",
    ),
    Alike(
        "CLTQ CDQE CQTO CQO CDQ CLTD CWDE CWTL",
        "{} isn't read: registers have 32 bits here: leave it out",
    ),
    Alike(
        "_ skip empty nothing none pass noop begin done fi esac exit",
        "{} is no instruction: an empty cell is left empty",
    ),
];

/// Of what has no operands.
pub const ALONE: &str = "{} stands alone in its cell";

/// By how its name begins, an instruction that isn't read without LOCK.
pub static UNLOCKED: [Alike; 11] = [
    Alike("MFENCE", ALONE),
    Alike(
        "XADD",
        "{} isn't read without LOCK, which makes it one step: LOCK XADD [x],EAX",
    ),
    Alike(
        "NOP PAUSE",
        "{} isn't read: it changes no final state, so leave it out",
    ),
    Alike(
        "CLFLUSH CLWB PREFETCH",
        "{} isn't read: leave it out: it changes no final state; what counts tells is without it",
    ),
    Alike("CMPXCHG8B CMPXCHG16B", PAIR_OF_WORDS),
    Alike("J LOOP", JUMP),
    Alike(
        "CMOV",
        "{} isn't read: write MOV in a test where it moves, and leave it out in one where it doesn't; the condition asks for the value that decides; tools/compiled --object FILE.s P0 P1 reads it",
    ),
    Alike("CMP TEST SETE SETNE SETZ SETNZ", COMPARE),
    Alike(
        "CALL",
        "{} isn't read: write the instructions of what it calls in its place",
    ),
    Alike(
        "RET LEAVE IRET",
        "{} isn't read: leave it out: a program ends with its last instruction",
    ),
    Alike("ADD INC SUB DEC AND OR XOR NOT NEG SHL SHR", ARITHMETIC),
];

/// By how its name begins, an instruction that isn't read after LOCK.
pub static LOCKED: [Alike; 6] = [
    Alike(
        "SHL SHR SAL SAR ROL ROR ADC SBB MUL IMUL DIV IDIV",
        "{} isn't read after LOCK: to write a location in one step XCHG [x],EAX, with the word that it comes to in EAX",
    ),
    Alike("CMPXCHG8B CMPXCHG16B", PAIR_OF_WORDS),
    Alike("CMP TEST", COMPARE),
    Alike(
        "BT",
        "{} isn't read: a lock is taken by MOV EAX,$1, and in the next cell XCHG [x],EAX",
    ),
    Alike(
        "MOV",
        "LOCK doesn't go with {}: leave it out; a store that is a fence too is XCHG [x],EAX",
    ),
    Alike(
        "MFENCE",
        "{} takes no LOCK: the fence is MFENCE alone in its cell",
    ),
];

/// The name of an instruction with the size of its operands.
pub static SIZED: [Alike; 5] = [
    Alike("MOVL MOVQ", "{}: write MOV, for words of 32 bits"),
    Alike("XCHGL XCHGQ", "{}: write XCHG, for words of 32 bits"),
    Alike("XADDL", "{}: write XADD, for words of 32 bits"),
    Alike(
        "XADDQ",
        "{} isn't read: it adds 64 bits, and words have only 32 here",
    ),
    Alike(
        "MOVB MOVW XCHGB XCHGW XADDB XADDW",
        "{} isn't read: each access is to a whole word of 32 bits",
    ),
];

/// Words about an operand: its size, its segment or its address.
pub static WORDS: [Alike; 5] = [
    Alike(
        "TO INTO FROM",
        "{}: a comma stands between two operands, the destination first, as in MOV [x],$1 and MOV EAX,[x]",
    ),
    Alike("DWORD PTR", "{}: leave DWORD PTR out, words have 32 bits"),
    Alike(
        "QWORD WORD BYTE",
        "{} isn't read: each access is to a whole word of 32 bits",
    ),
    Alike(
        "CS DS ES FS GS SS",
        "{}: there are no segments: leave it out; a location is written [x]",
    ),
    Alike(
        "OFFSET REL ABS",
        "{}: no address is read: write the location's name alone, as [x]",
    ),
];

/// The forms of an instruction.
pub static FORMS: [Alike; 3] = [
    Alike(
        "MOV",
        "MOV has the forms MOV [x],$1  MOV [x],EAX  MOV EAX,[x]  MOV EAX,$1  MOV EAX,EBX; from [y] to [x] go through a register: MOV EAX,[y], and in the next cell MOV [x],EAX",
    ),
    Alike(
        "XCHG",
        "XCHG has the forms XCHG [x],EAX  XCHG EAX,[x]: put a number into a register in a cell before it, as MOV EAX,$1",
    ),
    Alike(
        "XADD",
        "LOCK XADD has the form LOCK XADD [x],EAX, the location first: put a number into a register in a cell before it, as MOV EAX,$1",
    ),
];

/// The forms of XCHG where all instructions are asked for.
pub const FORMS_OF_EXCHANGE: &str =
    "XCHG has the forms XCHG [x],EAX  XCHG EAX,[x]  XCHG EAX,EBX: put a number into a register in a cell before it, as MOV EAX,$1";
