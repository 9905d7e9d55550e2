//! The names of a core's numbers, and where they stand. Lines and JSON have the same names.

ghost use Rattle.std.specs.Prelude.{◌≡◌, ◌<◌, [], slice_index_or};
ghost use Rattle.counts_report.specs.Printed.{count_names, no_spread};

use cache_counts::Spread;

/// What the number at this place of a core is called; empty past the last one.
#[tactic(auto, unfolding(crate::specs::Printed::count_names))]
pub fn name_at<'a>(place: usize) -> &'a str
    ensures { result.now ≡ slice_index_or count_names place [] }
{
    match place {
        0 => "hits",
        1 => "misses",
        2 => "upgrades",
        3 => "forwards",
        4 => "write_backs",
        5 => "flushes",
        6 => "get_s",
        7 => "get_m",
        8 => "invalidations",
        9 => "from_caches",
        10 => "from_memory",
        11 => "to_memory",
        _ => "",
    }
}

/// The number at this place of all cores, over several runs; nothing past the last one.
pub fn spread_at(spreads: &[Spread], place: usize) -> Spread
    ensures { result ≡ slice_index_or spreads.now place no_spread }
{
    match spreads.get(place) {
        Some(spread) => *spread,
        None => Spread {
            sum: 0,
            least: 0,
            greatest: 0,
        },
    }
}
