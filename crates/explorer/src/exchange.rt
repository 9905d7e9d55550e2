//! Two cores exchanged: each has the other's state, and what the one has pending or chooses is the other's.
ghost use Rattle.std.specs.Prelude.{◌≡◌, ◌<◌, length, map};
ghost use Rattle.tso_laws.specs.Exchanged.{exchanged_core, exchanged_choice, exchanged};
ghost use Rattle.flat_machine.specs.State.{state_of_snapshot};

use flat_machine::Snapshot;
use tso_terms::{Choice, Core};

/// The core that stands for this one where two are exchanged.
fn exchanged_core(core: Core, pair: (u8, u8)) -> Core
    ensures { result.0 ≡ Rattle.tso_laws.specs.Exchanged.exchanged_core pair core.0 }
{
    if core.0 == pair.0 {
        Core(pair.1)
    } else if core.0 == pair.1 {
        Core(pair.0)
    } else {
        core
    }
}

/// Exchanges two cores of a state, and whose the pending stores are.
pub fn exchange(state: &mut Snapshot, pair: (u8, u8))
    requires first { pair.0 < length state.old.cores.items }
    requires second { pair.1 < length state.old.cores.items }
    ensures value { state_of_snapshot state.new ≡ exchanged pair (state_of_snapshot state.old) }
    ensures cores { length state.new.cores.items ≡ length state.old.cores.items }
{
    for core in 0..state.cores.len() {
        let pending = &mut state.cores[core].pending;
        for at in 0..pending.len() {
            pending[at].core = exchanged_core(pending[at].core, pair);
        }
    }
    state.cores.swap(usize::from(pair.0), usize::from(pair.1));
}

/// Exchanges two cores in each of the choices.
pub fn exchange_choices(choices: &mut Vec<Choice>, pair: (u8, u8))
    ensures { choices.new.items ≡ map (exchanged_choice pair) choices.old.items }
{
    for at in 0..choices.len() {
        choices[at] = match choices[at] {
            Choice::Step(core) => Choice::Step(exchanged_core(core, pair)),
            Choice::Drain(core) => Choice::Drain(exchanged_core(core, pair)),
        };
    }
}
