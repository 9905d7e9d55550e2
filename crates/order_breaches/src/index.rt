//! The table by which an order's entries are found among the programs': with it no pair of entries has to be compared, and
//! time grows with the order's length alone.
ghost use Rattle.std.specs.Prelude.{◌≡◌, ◌*◌, ◌≤◌, length, IfOk, IfSome, IsNone, ℕ, slice_get, Some, true};
ghost use Rattle.order_breaches.specs.inner.Programs.{kept_in};
ghost use Rattle.order_breaches.specs.Entries.{same_but_value, IsExtra};
ghost use Rattle.order_breaches.specs.inner.Slots.{slot_of, Ascends, EntriesAreWithin, IsIndex};
ghost use Rattle.tso_terms.specs.declared.execution.Entry.{Entry};

use crate::entries::{is_same_but_value, rank};
use std::alloc::Global;
use tso_terms::{Entry, NoMemory};

/// How many slots a core has: two for each place that a program may have.
const SLOTS_OF_A_CORE: usize = 2 * tso_terms::limits::MAX_INSTRUCTIONS;

/// The slot of an entry. No two entries that the programs make have the same one.
fn slot(x: &Entry) -> usize
    ensures { result ≡ slot_of x.now }
{
    usize::from(x.core.0) * SLOTS_OF_A_CORE + rank(x) as usize
}

/// What a table keeps at a place, if anything.
pub fn kept<T: Copy>(table: &[Option<T>], at: usize) -> Option<T>
    ensures { result ≡ kept_in table.now at }
{
    if at < table.len() { table[at] } else { None }
}

/// Where in the list the entry of each slot stands.
///
/// Errors: out of memory only.
pub fn index_of(alloc: Global, cores: u8, list: &[Entry]) -> Result<Vec<Option<usize>>, NoMemory>
    requires ascends { Ascends list.now }
    requires within { (locations : ℕ) × EntriesAreWithin cores locations list.now }
    ensures { IfOk result (λ slots. IsIndex list.now slots.items) }
{
    let mut slots = vec![in alloc; None; usize::from(cores) * SLOTS_OF_A_CORE]?;
    for (i, e) in list.iter().enumerate() {
        slots[slot(e)] = Some(i);
    }
    Ok(slots)
}

/// Where in the list the entry stands that x is, but for its value.
pub fn find(list: &[Entry], slots: &[Option<usize>], x: &Entry) -> Option<usize>
    requires { IsIndex list.now slots.now }
    ensures found { IfSome result (λ i. (e : Entry) × (slice_get list.now i ≡ Some e) × (same_but_value e x.now ≡ true)) }
    ensures none { IsNone result → IsExtra list.now x.now }
{
    match kept(slots, slot(x)) {
        Some(i) if is_same_but_value(&list[i], x) => Some(i),
        _ => None,
    }
}
