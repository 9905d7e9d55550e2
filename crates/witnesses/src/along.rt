//! The choices along an order: each entry steps its core only as far as that entry needs. A core that steps further than it
//! must may fill its store buffer, and then needs a deeper one than the order does.

ghost use Rattle.std.specs.Prelude.{◌≡◌, ◌<◌, ◌++◌, IfOk, OnOk, All, length};
ghost use Rattle.tso_laws.specs.Along.{steps, choices_for, places_after, last_steps, choices_along};

use std::alloc::Global;
use tso_terms::limits::MAX_CORES;
use tso_terms::{Choice, Core, Entry, Kind, NoMemory, Test};

/// The choices along an order: for each entry the steps of its core up to and over its instruction, as far as they aren't
/// done yet, and for a plain store its drain; at the end the steps that are left, core by core.
///
/// Errors: out of memory only.
pub fn choices_along(alloc: Global, test: &Test, order: &[Entry]) -> Result<Vec<Choice>, NoMemory>
    requires { All (λ x. x.core.0 < length test.now.programs) order.now }
    ensures { IfOk result (λ v. v.items ≡ choices_along test.now order.now) }
{
    let mut choices = Vec::new(alloc);
    push_choices_along(&mut choices, test, order)?;
    Ok(choices)
}

/// Appends the choices along an order.
///
/// Errors: out of memory only; the choices may have grown then.
fn push_choices_along(
    choices: &mut Vec<Choice>,
    test: &Test,
    order: &[Entry],
) -> Result<(), NoMemory>
    requires { All (λ x. x.core.0 < length test.now.programs) order.now }
    ensures { OnOk result (choices.new.items ≡ choices.old.items ++ choices_along test.now order.now) }
{
    test.know_limits();
    let mut places = [0; MAX_CORES];
    let places = &mut places[..usize::from(test.cores())];
    for entry in order {
        push_choices_for(choices, places, entry)?;
    }
    push_last_steps(choices, test, places)
}

/// Appends what an entry needs where the cores are at these places, and moves its core on.
///
/// Errors: out of memory only; the choices may have grown then.
fn push_choices_for(
    choices: &mut Vec<Choice>,
    places: &mut [usize],
    entry: &Entry,
) -> Result<(), NoMemory>
    requires { entry.now.core.0 < length places.old }
    ensures choices { OnOk result (choices.new.items ≡ choices.old.items ++ choices_for places.old entry.now) }
    ensures places { OnOk result (places.new ≡ places_after places.old entry.now) }
{
    let place = &mut places[usize::from(entry.core.0)];
    let after = usize::from(entry.place) + 1;
    push_steps(choices, entry.core, after.saturating_sub(*place))?;
    *place = after.max(*place);
    if entry.kind == Kind::W {
        choices.push(Choice::Drain(entry.core))?;
    }
    Ok(())
}

/// Appends so many steps of a core.
fn push_steps(choices: &mut Vec<Choice>, core: Core, count: usize) -> Result<(), NoMemory>
    ensures { OnOk result (choices.new.items ≡ choices.old.items ++ steps core.0 count) }
{
    for _step in 0..count {
        choices.push(Choice::Step(core))?;
    }
    Ok(())
}

/// Appends the steps that each core has still to do from these places on, core by core.
fn push_last_steps(choices: &mut Vec<Choice>, test: &Test, places: &[usize]) -> Result<(), NoMemory>
    requires { length places.now ≡ length test.now.programs }
    ensures { OnOk result (choices.new.items ≡ choices.old.items ++ last_steps 0 test.now.programs places.now) }
{
    for core in 0..test.cores() {
        let left = test.program(Core(core)).len();
        let left = left.saturating_sub(places[usize::from(core)]);
        push_steps(choices, Core(core), left)?;
    }
    Ok(())
}
