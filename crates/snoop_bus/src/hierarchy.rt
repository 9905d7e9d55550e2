//! The memory hierarchy: the caches of all cores, and memory after them.

use cache_set::MAX_WORDS;
use cache_set::cache::Cache;

/// The caches of all cores, and memory after them as lines. It knows neither the protocol nor who holds the bus:
/// whoever makes an access says so.
#[derive(Drop)]
pub struct Hierarchy {
    pub caches: Vec<Cache>,
    pub memory: Vec<[u32; MAX_WORDS]>,
}
