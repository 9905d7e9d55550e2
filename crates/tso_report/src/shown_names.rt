//! The registers and locations whose values a final state shows.

ghost use Rattle.std.specs.Prelude.{◌≡◌, ◌<◌, ◌∷◌, [], IfOk, OnOk, All, length};
ghost use Rattle.tso_terms.specs.Actions.{action_of};
ghost use Rattle.tso_report.specs.Tally.{named_registers};
ghost use Rattle.tso_report.specs.inner.Tally.{NameExists};
ghost use Rattle.tso_report.specs.ShownNames.{changes_register, takes_into, writes, writes_one, is_written, is_added, is_shown, names_shown};
ghost use Rattle.tso_report.specs.inner.ShownNames.{ShownAreNoted};

use crate::named::{Named, is_looked_at};
use crate::show::Show;
use std::alloc::Global;
use tso_terms::{Action, Change, Core, Instr, Loc, NoMemory, Reg, Test};

/// What the test's final states show: registers by core and then in their order, and then locations by
/// number. All of them are cores and locations of the test.
///
/// Errors: out of memory only.
pub fn names_shown(alloc: Global, test: &Test, show: Show) -> Result<Vec<Named>, NoMemory>
    ensures known { IfOk result (λ list. All (NameExists (length test.now.programs) (length test.now.locations)) list.items) }
    ensures list { IfOk result (λ list. list.items ≡ names_shown show test.now) }
{
    let mut list = Vec::new(alloc);
    note_registers(&mut list, test, show)?;
    for loc in 0..test.locations() {
        note(&mut list, test, show, Named::Location(Loc(loc)))?;
    }
    Ok(list)
}

fn note_registers(list: &mut Vec<Named>, test: &Test, show: Show) -> Result<(), NoMemory>
    ensures { OnOk result (ShownAreNoted show test.now (named_registers 0 (length test.now.programs)) list.old.items list.new.items) }
{
    for core in 0..test.cores() {
        for reg in &Reg::ALL {
            note(list, test, show, Named::Register(Core(core), *reg))?;
        }
    }
    Ok(())
}

fn note(list: &mut Vec<Named>, test: &Test, show: Show, named: Named) -> Result<(), NoMemory>
    requires { NameExists (length test.now.programs) (length test.now.locations) named }
    ensures { OnOk result (ShownAreNoted show test.now (named ∷ []) list.old.items list.new.items) }
{
    if is_shown(test, show, named) {
        list.push(named)?;
    }
    Ok(())
}

fn is_shown(test: &Test, show: Show, named: Named) -> bool
    requires { NameExists (length test.now.programs) (length test.now.locations) named }
    ensures { result ≡ is_shown show test.now named }
{
    is_looked_at(test, named) || is_added(test, show, named)
}

/// Whether it is shown even where nobody looks at it.
fn is_added(test: &Test, show: Show, named: Named) -> bool
    requires { NameExists (length test.now.programs) (length test.now.locations) named }
    ensures { result ≡ is_added show test.now named }
{
    match show {
        Show::Condition => false,
        Show::Registers => is_written(test, named),
        Show::All => is_written(test, named) || matches!(named, Named::Location(_)),
    }
}

/// Whether it is a register that an instruction of its core writes.
fn is_written(test: &Test, named: Named) -> bool
    requires { NameExists (length test.now.programs) (length test.now.locations) named }
    ensures { result ≡ is_written test.now named }
{
    match named {
        Named::Register(core, reg) => writes_one(test.program(core), reg),
        Named::Location(_) => false,
    }
}

/// Whether an instruction of the program writes the register.
fn writes_one(program: &[Instr], reg: Reg) -> bool
    ensures { result ≡ writes_one program.now reg }
{
    for instr in program {
        if writes(*instr, reg) {
            return true;
        }
    }
    false
}

fn changes_register(change: Change, reg: Reg) -> bool
    ensures { result ≡ changes_register change reg }
{
    match change {
        Change::Keep => false,
        Change::Set(written, _) => written.index() == reg.index(),
        Change::Swap(written, other) => {
            written.index() == reg.index() || other.index() == reg.index()
        }
    }
}

fn takes_into(target: Option<Reg>, reg: Reg) -> bool
    ensures { result ≡ takes_into target reg }
{
    match target {
        None => false,
        Some(written) => written.index() == reg.index(),
    }
}

fn writes(instr: Instr, reg: Reg) -> bool
    ensures { result ≡ writes (action_of instr) reg }
{
    match instr.action() {
        Action::Load(written, _) => written.index() == reg.index(),
        Action::Move(change) => changes_register(change, reg),
        Action::Lock(_, target, _) => takes_into(target, reg),
        Action::Store(..) | Action::Fence => false,
    }
}
