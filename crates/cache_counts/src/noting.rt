//! Who looks at a run and notes what each choice had to do with the caches. What is counted of that is counted after the run:
//! a run of which nothing is counted pays nothing.

ghost use Rattle.std.specs.Prelude.{◌≡◌, ◌++◌, ◌∷◌, []};
ghost use Rattle.cache_counts.specs.Uses.{core_use_at};

use machine_core::{CacheUse, Choice, Machine, Outcome};
use machine_runs::Observer;
use multiprocessor::turn::core_of;
use protocol_tables::Protocol;
use std::alloc::Global;
use tso_terms::{Core, NoMemory};

/// What a choice of this core had to do with the caches.
#[derive(Clone, Copy)]
pub struct CoreUse {
    /// The core.
    pub core: Core,
    /// What its choice had to do with the caches.
    pub how: CacheUse,
}

/// Notes what each choice of a run has to do with the caches.
#[derive(Drop)]
pub(crate) struct Noter {
    /// One for each choice so far.
    pub(crate) uses: Vec<CoreUse>,
}

impl Noter {
    /// Nothing is noted yet.
    pub(crate) fn new(alloc: Global) -> Self
        ensures { result.uses.items ≡ [] }
    {
        Noter {
            uses: Vec::new(alloc),
        }
    }
}

impl Observer for Noter {
    ghost begins = { λ _ _. Unit {0} };

    ghost opens = { λ o _ n. n.uses.items ≡ o.uses.items };

    ghost watches = { λ _ _. Unit {0} };

    ghost makes = { λ o m _ choice n. n.uses.items ≡ o.uses.items ++ core_use_at m choice ∷ [] };

    ghost ends = { λ o _ n. n.uses.items ≡ o.uses.items };

    fn begin<P: Protocol>(&mut self, _machine: &Machine<'_, P>) -> Result<(), NoMemory> {
        Ok(())
    }

    fn choose<P: Protocol>(
        &mut self,
        machine: &mut Machine<'_, P>,
        _number: usize,
        choice: Choice,
    ) -> Result<Outcome, NoMemory> {
        let (outcome, how) = machine.choose_telling(choice)?;
        let core = core_of(choice);
        self.uses.push(CoreUse { core, how })?;
        Ok(outcome)
    }

    fn end<P: Protocol>(&mut self, _machine: &Machine<'_, P>) -> Result<(), NoMemory> {
        Ok(())
    }
}
