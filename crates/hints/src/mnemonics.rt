//! Names of instructions in assemblers' languages, by what they do.

use crate::tables::{Alike, is_one_of, said_of};

/// What an instruction does, by its name.
#[derive(Clone, Copy)]
pub enum Kind {
    Move,
    Exchange,
    Add,
    Address,
    CompareExchange,
    /// It combines two words, as ADD does.
    Combine,
    /// It changes one word, as INC does.
    Change,
    /// Other arithmetic.
    Compute,
    Compare,
    Push,
    /// It works on strings.
    Strings,
    /// It changes nothing that is seen.
    Nothing,
    Other,
}

/// Names of instructions of one kind.
struct Named(&'static str, Kind);

/// The instructions of the larger set, by their names, also with the sizes of their operands.
static LARGER: [Alike; 14] = [
    Alike("ADD ADDL ADDQ ADDB ADDW", "ADD"),
    Alike("SUB SUBL SUBQ SUBB SUBW", "SUB"),
    Alike("AND ANDL ANDQ ANDB ANDW", "AND"),
    Alike("OR ORL ORQ ORB ORW", "OR"),
    Alike("XOR XORL XORQ XORB XORW", "XOR"),
    Alike("INC INCL INCQ INCB INCW", "INC"),
    Alike("DEC DECL DECQ DECB DECW", "DEC"),
    Alike("NEG NEGL NEGQ NEGB NEGW", "NEG"),
    Alike("NOT NOTL NOTQ NOTB NOTW", "NOT"),
    Alike("CMPXCHG CMPXCHGL CMPXCHGQ CMPXCHGB CMPXCHGW", "CMPXCHG"),
    Alike("NOP", "NOP"),
    Alike("PAUSE", "PAUSE"),
    Alike("LFENCE", "LFENCE"),
    Alike("SFENCE", "SFENCE"),
];

/// Instructions by their kinds, also with the sizes of their operands.
static KINDS: [Named; 12] = [
    Named("ADD SUB AND OR XOR", Kind::Combine),
    Named("INC DEC NEG NOT", Kind::Change),
    Named("CMPXCHG", Kind::CompareExchange),
    Named("PUSH PUSHL PUSHQ POP POPL POPQ", Kind::Push),
    Named(
        "STOS STOSB STOSW STOSD STOSL STOSQ MOVS MOVSB MOVSL MOVSQ LODS LODSB LODSD LODSL SCAS \
         SCASB SCASD CMPS CMPSB CMPSD",
        Kind::Strings,
    ),
    Named(
        "NOP PAUSE LFENCE SFENCE NOPL NOPW RET RETQ LEAVE ENDBR64 ENDBR32",
        Kind::Nothing,
    ),
    Named(
        "MOV MOVL MOVQ MOVB MOVW MOVD MOVABS MOVABSQ MOVZX MOVSX MOVZBL MOVZWL MOVSBL MOVSWL \
         MOVZBQ MOVZWQ MOVSLQ MOVSXD",
        Kind::Move,
    ),
    Named("XCHG XCHGL XCHGQ XCHGB XCHGW", Kind::Exchange),
    Named("XADD XADDL XADDB XADDW", Kind::Add),
    Named("LEA LEAL LEAQ", Kind::Address),
    Named(
        "CMP CMPL CMPQ CMPB CMPW TEST TESTL TESTQ TESTB",
        Kind::Compare,
    ),
    Named(
        "SHL SHLL SHLQ SHR SHRL SHRQ SAL SALL SAR SARL ROL ROLL ROR RORL MUL MULL IMUL IMULL IMULQ \
         DIV DIVL IDIV IDIVL ADC ADCL SBB SBBL BSWAP BSWAPL",
        Kind::Compute,
    ),
];

/// What an instruction with this name does.
pub fn kind_of(name: &[u8]) -> Kind {
    let plain = match larger_of(name) {
        Some(plain) => plain.as_bytes(),
        None => name,
    };
    for named in &KINDS {
        if is_one_of(named.0, plain) {
            return named.1;
        }
    }
    Kind::Other
}

/// The instruction of the larger set that has this name, perhaps with the size of its operands.
pub fn larger_of(name: &[u8]) -> Option<&'static str> {
    said_of(&LARGER, name)
}

/// Whether a name of the larger set says a size by one of these letters.
fn has_size(letters: &[u8], name: &[u8]) -> bool {
    match (larger_of(name), name.last()) {
        (Some(plain), Some(last)) => plain.len() < name.len() && letters.contains(last),
        _ => false,
    }
}

/// Whether a name says a size of 64 bits.
pub fn is_wide_name(name: &[u8]) -> bool {
    is_one_of("MOVQ MOVABS MOVABSQ XCHGQ", name) || has_size(b"Qq", name)
}

/// Whether an instruction of an assembler's language has this name, of those that are told.
pub fn is_known_name(name: &[u8]) -> bool {
    !matches!(kind_of(name), Kind::Other)
}

/// Whether a name says a size of less than 32 bits.
pub fn is_narrow_name(name: &[u8]) -> bool {
    is_one_of(
        "MOVB MOVW MOVZX MOVSX MOVZBL MOVZWL MOVSBL MOVSWL MOVZBQ MOVZWQ XCHGB XCHGW XADDB XADDW",
        name,
    ) || has_size(b"BbWw", name)
}
