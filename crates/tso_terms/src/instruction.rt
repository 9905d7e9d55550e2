//! Cores, locations and instructions of a litmus test: straight-line programs of x86. (Intel's manual: MOV, MFENCE, XCHG,
//! LOCK XADD.)

use crate::action::{Operand, Operator};
use crate::register::Reg;

/// A core, by its number from 0.
#[derive(Clone, Copy, PartialEq, Eq)]
pub struct Core(pub u8);

/// A location in memory, a word of 32 bits, by its number from 0 in the order of first appearance.
#[derive(Clone, Copy, PartialEq, Eq)]
pub struct Loc(pub u8);

/// An instruction of a core's straight-line program.
#[derive(Clone, Copy)]
pub enum Instr {
    /// `MOV [x],$v`: a plain store of a number.
    StoreImm(Loc, u32),
    /// `MOV [x],REG`: a plain store of a register's value.
    StoreReg(Loc, Reg),
    /// `MOV REG,[x]`: a plain load.
    Load(Reg, Loc),
    /// `MOV REG,$v`: a register move, which is no memory action.
    SetImm(Reg, u32),
    /// `MOV REG,REG`: the first register gets the second's value; no memory action.
    SetReg(Reg, Reg),
    /// `MFENCE`.
    Fence,
    /// `XCHG [x],REG`: a locked exchange of the word and the register.
    Xchg(Loc, Reg),
    /// `LOCK XADD [x],REG`: the word gets the sum modulo 2^32, the register the old word.
    Xadd(Loc, Reg),
    /// `LOCK CMPXCHG [x],REG`: where the word is EAX's it gets the register's value, else it is written
    /// back unchanged; EAX gets the old word.
    CompareExchange(Loc, Reg),
    /// `LOCK ADD [x],REG` and the like: the word gets what the operator makes of it and the operand.
    LockedCombine(Loc, Operator, Operand),
    /// `LOCK NEG [x]`: the word gets zero without it, modulo 2^32.
    LockedNegate(Loc),
    /// `ADD REG,$v` and the like: the register gets what the operator makes of its value and the operand.
    Combine(Reg, Operator, Operand),
    /// `NEG REG`: the register gets zero without its value, modulo 2^32.
    Negate(Reg),
    /// `XCHG REG,REG`: the two registers exchange their values.
    Swap(Reg, Reg),
    /// `NOP`, `PAUSE`, `LFENCE`, `SFENCE`: nothing. On write-back memory these fences order nothing that TSO doesn't order
    /// already. (x86-TSO, section 2.)
    Nop,
}
