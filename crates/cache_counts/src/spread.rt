//! A number of several runs: its sum, the least and the greatest. No run is kept: each number is laid in as its run ends.

ghost use Rattle.std.specs.Prelude.{◌≡◌, ◌<◌, ◌*◌, ◌^◌, ◌+◌, IfOk, All, IfSome, slice_get};
ghost use Rattle.cache_counts.specs.Counted.{spread_with, spreads_with};
ghost use Rattle.cache_counts.specs.inner.Bounds.{IsSumOf};

use std::alloc::Global;
use tso_terms::NoMemory;

/// What one number was over several runs, of one run at least.
#[derive(Clone, Copy)]
pub struct Spread {
    /// The sum over the runs.
    pub sum: u64,
    /// The least of them.
    pub least: u32,
    /// The greatest of them.
    pub greatest: u32,
}

/// What the numbers of several runs come to once one more run gave these, each at its place; `runs` gave one so far.
///
/// Errors: out of memory only.
pub fn spreads_with(
    alloc: Global,
    runs: u32,
    spreads: &[Spread],
    numbers: &[u32],
) -> Result<Vec<Spread>, NoMemory>
    requires { All (IsSumOf runs) spreads.now }
    ensures value { IfOk result (λ next. next.items ≡ spreads_with spreads.now numbers.now) }
    ensures few { IfOk result (λ next. All (IsSumOf (runs + 1)) next.items) }
{
    let mut next = Vec::new(alloc);
    for (place, number) in numbers.iter().enumerate() {
        next.push(spread_with(runs, spread_at(spreads, place), *number))?;
    }
    Ok(next)
}

/// What stands at this place; `None` where no run gave a number there.
fn spread_at(spreads: &[Spread], place: usize) -> Option<Spread>
    ensures { result ≡ slice_get spreads.now place }
{
    spreads.get(place).copied()
}

/// What a number comes to once one more run gave this one.
fn spread_with(runs: u32, spread: Option<Spread>, number: u32) -> Spread
    requires { IfSome spread (IsSumOf runs) }
    ensures value { result ≡ spread_with spread number }
    ensures few { IsSumOf (runs + 1) result }
{
    match spread {
        None => Spread {
            sum: u64::from(number),
            least: number,
            greatest: number,
        },
        Some(spread) => Spread {
            sum: spread.sum + u64::from(number),
            least: spread.least.min(number),
            greatest: spread.greatest.max(number),
        },
    }
}
