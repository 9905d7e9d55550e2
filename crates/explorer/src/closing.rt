//! What exchanges of alike cores make of the states in which the test has ended. A search keeps one of the states that
//! differ by such exchanges; all of those that have ended are added to it at its end, each with choices that lead there.
ghost use Rattle.std.specs.Prelude.{◌≡◌, ◌<◌, ◌≤◌, true, OnOk, length, slice_get, Some};
ghost use Rattle.tso_terms.specs.Runs.{has_ended};
ghost use Rattle.explorer.specs.inner.Packed.{state_of_packed};
ghost use Rattle.explorer.specs.inner.Settled.{Grows, IsInOrder};
ghost use Rattle.explorer.specs.inner.Arranged.{HasExchanged, AreExchanged};
ghost use Rattle.explorer.specs.inner.Planned.{IsPlan};
ghost use Rattle.explorer.specs.declared.packed.Packed.{Packed};

use crate::exchange::exchange;
use crate::found::{Found, keep};
use crate::plan::Plan;
use crate::unpacking::unpack;
use flat_machine::{has_ended, overwrite};
use std::alloc::Global;
use tso_laws::{alike_cores_are_exchangeable, dead_registers_change_nothing};
use tso_terms::NoMemory;

/// Adds what each exchange of two alike cores makes of a state, if the test has ended in it, and what isn't there yet.
///
/// Errors: out of memory only.
fn add_all_exchanged(
    alloc: Global,
    plan: &Plan,
    found: &mut Found,
    from: usize,
) -> Result<(), NoMemory>
    requires plan { IsPlan plan.now }
    requires from { from < length found.old.states.keys }
    requires found { IsInOrder plan.now found.old }
    ensures grows { OnOk result (Grows found.old.states.keys found.new.states.keys) }
    ensures found { OnOk result (IsInOrder plan.now found.new) }
    ensures exchanged { OnOk result ((s : Packed) → slice_get found.old.states.keys from ≡ Some s
        → has_ended plan.now.test.now (state_of_packed s) ≡ true → HasExchanged plan.now.alike.items found.new.states.keys (state_of_packed s)) }
{
    alike_cores_are_exchangeable();
    dead_registers_change_nothing();
    unpack(&found.states[from], &mut found.current)?;
    if !has_ended(plan.test, &found.current) {
        return Ok(());
    }
    for at in 0..plan.alike.len() {
        let pair = plan.alike[at];
        overwrite(&mut found.reached.state, &found.current)?;
        exchange(&mut found.reached.state, pair);
        found.reached.choices.clear();
        found.reached.exchanges.clear();
        found.reached.exchanges.push(pair)?;
        keep(alloc, found, from)?;
    }
    Ok(())
}

/// Adds what exchanges of alike cores make of the states in which the test has ended, until
/// nothing is new, as long as no more than `limit` are kept. Where they are more, it ends there.
///
/// Errors: out of memory only.
pub fn close(alloc: Global, plan: &Plan, found: &mut Found, limit: usize) -> Result<(), NoMemory>
    requires plan { IsPlan plan.now }
    requires found { IsInOrder plan.now found.old }
    ensures grows { OnOk result (Grows found.old.states.keys found.new.states.keys) }
    ensures found { OnOk result (IsInOrder plan.now found.new) }
    ensures exchanged { OnOk result (length found.new.states.keys ≤ limit → AreExchanged plan.now.test.now plan.now.alike.items
        found.new.states.keys (length found.new.states.keys)) }
{
    if plan.alike.is_empty() {
        return Ok(());
    }
    for at in 0..limit {
        if at >= found.states.len() || found.states.len() > limit {
            break;
        }
        add_all_exchanged(alloc, plan, found, at)?;
    }
    Ok(())
}
