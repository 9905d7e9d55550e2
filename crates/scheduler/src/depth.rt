//! How deep a store buffer an order needs: it must have room for all plain stores that one load has passed. At a smaller
//! depth no choices reach the order.

ghost use Rattle.std.specs.Prelude.{◌≡◌, ◌<◌, ◌^◌, ℕ, IfOk, All, Some, [], length, sum};
ghost use Rattle.tso_terms.specs.Limits.{most_instructions};
ghost use Rattle.tso_laws.specs.Depth.{needed};
ghost use Rattle.scheduler.specs.inner.Passed.{HaveCounted};

use std::alloc::Global;
use tso_laws::needed_is_the_most_that_is_asked;
use tso_terms::{Entry, Kind, NoMemory};

/// Maximum number of places of a program.
const PLACES: usize = tso_terms::limits::MAX_INSTRUCTIONS;

/// The depth that an order needs: the greatest number of plain stores that come before one load in its program and
/// after it in the order, and 1 where there is a plain store at all. The order is gone through once, from its end on.
///
/// Errors: out of memory only.
pub fn needed(alloc: Global, cores: u8, order: &[Entry]) -> Result<usize, NoMemory>
    requires cores { All (λ x. x.core.0 < cores) order.now }
    requires places { All (λ x. x.place < most_instructions) order.now }
    ensures { IfOk result (λ n. n ≡ needed order.now) }
{
    needed_is_the_most_that_is_asked();
    let mut stores = no_stores(alloc, cores)?;
    let mut most = 0;
    let count = order.len();
    for passed in 0..count {
        let entry = order[count - 1 - passed];
        let core = usize::from(entry.core.0);
        let place = usize::from(entry.place);
        match entry.kind {
            Kind::R => most = most.max(sum_of(&stores[core][..place])),
            Kind::W => {
                most = most.max(1);
                stores[core][place] += 1;
            }
            Kind::F | Kind::LR | Kind::LW => {}
        }
    }
    Ok(most)
}

/// For each core and each place of its program how many plain stores are there: none so far.
fn no_stores(alloc: Global, cores: u8) -> Result<Vec<[usize; PLACES]>, NoMemory>
    ensures { IfOk result (λ v. HaveCounted cores v.items []) }
{
    let mut stores = Vec::new(alloc);
    for _core in 0..cores {
        stores.push([0; PLACES])?;
    }
    Ok(stores)
}

fn sum_of(counts: &[usize]) -> usize
    requires { sum counts.now < 2 ^ 64 }
    ensures { result ≡ sum counts.now }
{
    let mut total = 0;
    for count in counts {
        total += *count;
    }
    total
}
