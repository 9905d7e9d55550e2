//! What final states are told apart by: the values of the registers and locations that the test's
//! condition names, or of all locations where there is no condition.

ghost use Rattle.std.specs.Prelude.{◌≡◌, ◌<◌, ◌∷◌, [], IfOk, OnOk, All, length, map};
ghost use Rattle.tso_terms.specs.Condition.{claim_of};
ghost use Rattle.tso_report.specs.Tally.{is_looked_at};
ghost use Rattle.tso_report.specs.inner.Tally.{AreNoted, NameExists, claim_names};
ghost use Rattle.tso_report.specs.Tally.{named_registers, looked_at, shown_value};

use std::alloc::Global;
use tso_terms::{Core, Loc, NoMemory, Prop, Reg, Test};

/// What an atom of a condition names in a final state.
#[derive(Clone, Copy)]
pub enum Named {
    /// A register of a core.
    Register(Core, Reg),
    /// A location.
    Location(Loc),
}

/// What is looked at of the test's final states: registers by core and then in their order, and then
/// locations by number. All of them are cores and locations of the test.
///
/// Errors: out of memory only.
pub fn looked_at(alloc: Global, test: &Test) -> Result<Vec<Named>, NoMemory>
    ensures known { IfOk result (λ list. All (NameExists (length test.now.programs) (length test.now.locations)) list.items) }
    ensures list { IfOk result (λ list. list.items ≡ looked_at test.now) }
{
    let mut list = Vec::new(alloc);
    note_registers(&mut list, test)?;
    for loc in 0..test.locations() {
        note(&mut list, test, Named::Location(Loc(loc)))?;
    }
    Ok(list)
}

fn note_registers(list: &mut Vec<Named>, test: &Test) -> Result<(), NoMemory>
    ensures { OnOk result (AreNoted test.now.condition (named_registers 0 (length test.now.programs)) list.old.items list.new.items) }
{
    for core in 0..test.cores() {
        for reg in &Reg::ALL {
            note(list, test, Named::Register(Core(core), *reg))?;
        }
    }
    Ok(())
}

fn note(list: &mut Vec<Named>, test: &Test, named: Named) -> Result<(), NoMemory>
    ensures { OnOk result (AreNoted test.now.condition (named ∷ []) list.old.items list.new.items) }
{
    if is_looked_at(test, named) {
        list.push(named)?;
    }
    Ok(())
}

/// Whether it is looked at: the test's condition names it; without a condition all locations are, and no register.
pub fn is_looked_at(test: &Test, named: Named) -> bool
    ensures { result ≡ is_looked_at test.now.condition named }
{
    match (test.cond(), named) {
        (Some(cond), _) => claim_names(&cond.prop, named),
        (None, Named::Register(..)) => false,
        (None, Named::Location(_)) => true,
    }
}

fn claim_names(prop: &Prop, named: Named) -> bool
    ensures { result ≡ claim_names (claim_of prop.now) named }
{
    match (prop, named) {
        (Prop::RegIs(other, other_reg, _), Named::Register(core, reg)) => {
            other.0 == core.0 && other_reg.index() == reg.index()
        }
        (Prop::LocIs(other, _), Named::Location(loc)) => other.0 == loc.0,
        (Prop::Truth(_) | Prop::RegIs(..) | Prop::LocIs(..), _) => false,
        (Prop::Not(inner), _) => claim_names(inner, named),
        (Prop::And(left, right) | Prop::Or(left, right), _) => {
            claim_names(left, named) || claim_names(right, named)
        }
    }
}

/// The values that a final state has at these, in their order.
///
/// Errors: out of memory only.
pub fn values_at(
    alloc: Global,
    list: &[Named],
    registers: &[[u32; 6]],
    memory: &[u32],
) -> Result<Vec<u32>, NoMemory>
    requires { All (NameExists (length registers.now) (length memory.now)) list.now }
    ensures { IfOk result (λ values. values.items ≡ map (shown_value registers.now memory.now) list.now) }
{
    let mut values = Vec::new(alloc);
    for named in list {
        let value = match *named {
            Named::Register(core, reg) => registers[core.0 as usize][reg.index()],
            Named::Location(loc) => memory[loc.0 as usize],
        };
        values.push(value)?;
    }
    Ok(values)
}
