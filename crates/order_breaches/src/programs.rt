//! What the programs make for given read values. Which entries there are doesn't depend on the values; so the order can be
//! held against what they make with any, before its reads are believed.
ghost use Rattle.std.specs.Prelude.{◌≡◌, ◌≤◌, length, IfOk};
ghost use Rattle.order_breaches.specs.inner.Programs.{reads_that_came, reads_of_all, made_reading};

use crate::entries::is_read;
use crate::index::kept;
use std::alloc::Global;
use tso_model::{read_count, thread_entries};
use tso_terms::{Core, Entry, NoMemory, Test};

/// The values with which the reads among the programs' entries came, in the order of these entries.
///
/// Errors: out of memory only.
pub fn reads_in_order(
    alloc: Global,
    shape: &[Entry],
    came: &[Option<u32>],
) -> Result<Vec<u32>, NoMemory>
    ensures { IfOk result (λ values. values.items ≡ reads_that_came 0 came.now shape.now) }
{
    let mut values = Vec::new(alloc);
    for (i, e) in shape.iter().enumerate() {
        if is_read(e) {
            values.push(kept(came, i).unwrap_or(0))?;
        }
    }
    Ok(values)
}

/// What the programs make where their reads, core by core and in program order, return these values.
///
/// Errors: out of memory only.
pub fn made_entries(alloc: Global, test: &Test, reads: &[u32]) -> Result<Vec<Entry>, NoMemory>
    requires { reads_of_all test.now.programs ≤ length reads.now }
    ensures { IfOk result (λ es. es.items ≡ made_reading 0 test.now.programs test.now.registers reads.now) }
{
    let mut entries = Vec::new(alloc);
    let mut left = reads;
    for number in 0..test.cores() {
        let core = Core(number);
        let count = read_count(test, core);
        let (own, rest) = left.split_at(count);
        let thread = thread_entries(alloc, test, core, own)?;
        entries.extend_from_slice(&thread.entries)?;
        left = rest;
    }
    Ok(entries)
}
