//! How commits become an order: each load part of a locked instruction is put directly before its store part, where the
//! axioms want it. On a split bus others may commit between the two. (Primer, chapter 4.)
ghost use Rattle.std.specs.Prelude.{◌≡◌, IfOk};
ghost use Rattle.tso_terms.specs.Axioms.{IsAdjacent};
ghost use Rattle.tso_terms.specs.ProgramOrder.{same_kind};
ghost use Rattle.tso_terms.specs.Together.{put_together};
ghost use Rattle.tso_terms.specs.declared.execution.Kind.TheVariants.{LR};
ghost use Rattle.commit_order.specs.Pairs.{IsPaired};
ghost use Rattle.commit_order.specs.inner.Waiting.{first_of_core, others_of};

use crate::commits::Commits;
use std::alloc::Global;
use tso_terms::{Core, Entry, Execution, Kind, NoMemory};

/// The order that the commits make: the entries as they were noted, but for each load part of a
/// locked instruction, which comes directly before its store part.
///
/// Errors: out of memory only.
pub fn build(alloc: Global, commits: &Commits) -> Result<Execution, NoMemory>
    requires { IsPaired commits.now.entries }
    ensures order { IfOk result (λ e. e.order.items ≡ put_together commits.now.entries) }
    ensures pairs { IfOk result (λ e. IsAdjacent e.order.items) }
{
    let mut order = Vec::new(alloc);
    // At most one load part for each core: after it nothing of its core comes but its store part.
    let mut waiting = Vec::new(alloc);
    for entry in commits.entries() {
        if is_load_part(*entry) {
            waiting.push(*entry)?;
        } else {
            if let Some(load_part) = take_of(&mut waiting, entry.core) {
                order.push(load_part)?;
            }
            order.push(*entry)?;
        }
    }
    Ok(Execution { order })
}

/// Whether this is the load part of a locked instruction.
fn is_load_part(entry: Entry) -> bool
    ensures { result ≡ same_kind entry.kind LR }
{
    entry.kind == Kind::LR
}

/// Takes the first entry of the core, if there is one.
fn take_of(entries: &mut Vec<Entry>, core: Core) -> Option<Entry>
    ensures first { result ≡ first_of_core core.0 entries.old.items }
    ensures others { entries.new.items ≡ others_of core.0 entries.old.items }
{
    for i in 0..entries.len() {
        if entries[i].core == core {
            return Some(entries.remove(i));
        }
    }
    None
}
