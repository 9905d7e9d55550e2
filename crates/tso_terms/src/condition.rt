//! Conditions on final states, and their truth in one state. The quantifier plays no part in that truth: one run is one
//! state.
ghost use Rattle.std.specs.Prelude.{◌≡◌, length};
ghost use Rattle.tso_terms.specs.Condition.{truth_of, NamesExist, claim_of};

use crate::instruction::{Core, Loc};
use crate::register::Reg;

/// How a condition speaks of the final states. The truth of a proposition in one state doesn't
/// depend on it.
#[derive(Clone, Copy)]
pub enum Quantifier {
    /// `exists`.
    Exists,
    /// `~exists`.
    NotExists,
    /// `forall`.
    Forall,
}

/// A proposition on a final state.
#[derive(Drop)]
pub enum Prop {
    /// `true` or `false`.
    Truth(bool),
    /// The core's register has this value.
    RegIs(Core, Reg, u32),
    /// The location has this value.
    LocIs(Loc, u32),
    Not(Box<Prop>),
    And(Box<Prop>, Box<Prop>),
    Or(Box<Prop>, Box<Prop>),
}

/// The condition of a test.
#[derive(Drop)]
pub struct Cond {
    pub quantifier: Quantifier,
    pub prop: Prop,
}

fn prop_holds(prop: &Prop, registers: &[[u32; 6]], memory: &[u32]) -> bool
    requires { NamesExist (length registers.now) (length memory.now) (claim_of prop.now) }
    ensures { result ≡ truth_of registers.now memory.now (claim_of prop.now) }
{
    match prop {
        Prop::Truth(truth) => *truth,
        Prop::RegIs(core, reg, value) => registers[core.0 as usize][reg.index()] == *value,
        Prop::LocIs(loc, value) => memory[loc.0 as usize] == *value,
        Prop::Not(inner) => !prop_holds(inner, registers, memory),
        Prop::And(left, right) => {
            prop_holds(left, registers, memory) && prop_holds(right, registers, memory)
        }
        Prop::Or(left, right) => {
            prop_holds(left, registers, memory) || prop_holds(right, registers, memory)
        }
    }
}

/// The truth of the condition's proposition in one state, given by each core's registers and each
/// location's word. The quantifier plays no part.
pub fn cond_holds(cond: &Cond, registers: &[[u32; 6]], memory: &[u32]) -> bool
    requires { NamesExist (length registers.now) (length memory.now) (claim_of cond.now.prop) }
    ensures { result ≡ truth_of registers.now memory.now (claim_of cond.now.prop) }
{
    prop_holds(&cond.prop, registers, memory)
}
