//! Registers that no printed value shows. Of final states that differ in these alone one is enough, so a search need not
//! tell them apart; a register that is shown must not be among them.

ghost use Rattle.std.specs.Prelude.{◌≡◌, ◌<◌, IfOk, length};
ghost use Rattle.search_report.specs.Hidden.{IsHidden, AreNotShown, AreAllNotShown};
ghost use Rattle.search_report.specs.inner.Hidden.{IsNotHidden};
ghost use Rattle.tso_terms.specs.declared.instruction.Core.{Core};
ghost use Rattle.tso_terms.specs.declared.register.Reg.{Reg};
ghost use Rattle.tso_report.specs.declared.named.Named.{Named};
ghost use Rattle.tso_report.specs.ShownNames as shown;

use std::alloc::Global;
use tso_report::named::Named;
use tso_report::{Show, names_shown};
use tso_terms::{NoMemory, Test};

/// What is named is shown: a register of a core isn't hidden then, and every other one stays hidden that was.
fn reveal(hidden: &mut [[bool; 6]], named: Named)
    requires { (core : Core) (reg : Reg) → named ≡ Named.Register core reg → core.0 < length hidden.old }
    ensures shown { IsNotHidden hidden.new named }
    ensures others { (other : Named) → IsNotHidden hidden.old other → IsNotHidden hidden.new other }
    ensures hidden { (core : Core) (reg : Reg) → (named ≡ Named.Register core reg → ⊥)
        → IsHidden hidden.old core.0 reg → IsHidden hidden.new core.0 reg }
    ensures count { length hidden.new ≡ length hidden.old }
{
    match named {
        Named::Register(core, reg) => hidden[usize::from(core.0)][reg.index()] = false,
        Named::Location(_) => {}
    }
}

/// Of each core which registers no printed value shows, in the order of `Reg::ALL`: all but those that are shown.
///
/// Errors: out of memory only.
pub fn hidden_registers(alloc: Global, test: &Test, show: Show) -> Result<Vec<[bool; 6]>, NoMemory>
    ensures not_shown { IfOk result (λ hidden. AreNotShown (shown.names_shown show test.now) hidden.items) }
    ensures all { IfOk result (λ hidden. AreAllNotShown show test.now hidden.items) }
{
    let names = names_shown(alloc, test, show)?;
    let mut hidden = Vec::new(alloc);
    hidden.resize(usize::from(test.cores()), [true; 6])?;
    for named in &names {
        reveal(&mut hidden, *named);
    }
    Ok(hidden)
}
