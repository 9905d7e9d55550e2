//! Clauses of single calls of a cache's set and of the caches' bus, each said again of one call.

ghost use Rattle.std.specs.Prelude.{◌<◌, ◌≡◌, IsSome, None, Some, length, option_map, ℕ};
ghost use Rattle.cache_set.specs.Contents.{copy_of};
ghost use Rattle.cache_set.specs.Limits.{most_words};
ghost use Rattle.cache_set.specs.inner.Contents.{ChangesLine, IsCacheSet};
ghost use Rattle.cache_set.specs.inner.Copy.{with_word};
ghost use Rattle.snoop_bus.specs.Accesses.{IsCurrentWord, contents_of, line_of_location};
ghost use Rattle.snoop_bus.specs.Bus.{IsFree, holder_of, words_of};
ghost use Rattle.snoop_bus.specs.inner.Accesses.{IsClean};

use cache_set::{CacheSet, Line};
use protocol_tables::Protocol;
use snoop_bus::{BusAction, SnoopBus};
use tso_terms::Loc;

/// A word that is written changes its line alone.
pub fn a_written_word_changes_its_line_alone(set: &mut CacheSet, line: u8, place: u8, value: u32)
    requires present { IsSome (copy_of set.old line) }
    requires place { place < most_words }
    ensures valid { IsCacheSet set.new }
    ensures copies { ChangesLine line (option_map (with_word place value)) set.old set.new }
{
    set.write_word(line, place, value);
}

/// What is dropped is handed back, its state and its words: for its words may be the only ones.
pub fn a_dropped_line_is_handed_back(set: &mut CacheSet, line: u8, copy: Line) -> Line
    requires { copy_of set.old line ≡ Some copy }
    ensures content { Some result ≡ copy_of set.old line }
    ensures state { result.state ≡ copy.state }
    ensures words { result.words ≡ copy.words }
    ensures valid { IsCacheSet set.new }
{
    set.drop_line(line)
}

/// A cleared set has no line.
pub fn a_cleared_set_has_no_line(set: &mut CacheSet)
    ensures valid { IsCacheSet set.new }
    ensures copies { (k : ℕ) → copy_of set.new k ≡ None }
{
    set.clear();
}

/// Who holds the bus is told.
pub fn the_holder_is_told<P: Protocol>(bus: &SnoopBus<P>) -> Option<BusAction>
    ensures value { result ≡ holder_of bus.now }
{
    bus.who_holds()
}

/// The words of a line that no core has changed are in memory.
pub fn a_clean_line_is_in_memory<P: Protocol>(bus: &SnoopBus<P>, loc: Loc) -> u32
    requires { loc.0 < length (words_of bus.now) }
    ensures clean { IsFree bus.now → IsClean (contents_of bus.now) (line_of_location bus.now loc.0) → IsCurrentWord bus.now loc.0 result }
{
    bus.memory_word(loc)
}
