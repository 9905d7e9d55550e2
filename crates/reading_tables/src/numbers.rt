//! Where a write stands among the writes of all programs: they are in the order of the cores, so the search begins with its own core's.
ghost use Rattle.std.specs.Prelude.{◌≡◌, ◌≤◌, IfOk, length, slice_index_or};
ghost use Rattle.reading_tables.specs.inner.Numbers as spec;

use crate::expressions::Written;
use refutations::events::same_event;
use std::alloc::Global;
use tso_terms::limits::MAX_CORES;
use tso_terms::{Entry, NoMemory};

/// How many of the first writes are of other cores.
fn others_before(written: &[Written], core: usize) -> usize
    ensures { result ≡ spec.others_before written.now core }
{
    for number in 0..written.len() {
        if usize::from(written[number].write.core.0) == core {
            return number;
        }
    }
    written.len()
}

/// For each core, how many of the first writes are of other cores.
///
/// Errors: out of memory only.
pub fn others_first(alloc: Global, written: &[Written]) -> Result<Vec<usize>, NoMemory>
    ensures { IfOk result (λ counts. spec.AreOthersFirst written.now counts.items) }
{
    let mut counts = Vec::new(alloc);
    for core in 0..MAX_CORES {
        counts.push(others_before(written, core))?;
    }
    Ok(counts)
}

fn first_of_core(counts: &[usize], core: u8) -> usize
    ensures { result ≡ slice_index_or counts.now core 0 }
{
    match counts.get(usize::from(core)) {
        Some(count) => *count,
        None => 0,
    }
}

/// How many writes come before this one; how many there are, where it isn't one of them.
pub fn number_among(written: &[Written], others_first: &[usize], write: &Entry) -> usize
    requires { spec.AreOthersFirst written.now others_first.now }
    ensures number { result ≡ spec.number_among written.now write.now }
    ensures within { result ≤ length written.now }
{
    for number in first_of_core(others_first, write.core.0)..written.len() {
        if same_event(&written[number].write, write) {
            return number;
        }
    }
    written.len()
}
