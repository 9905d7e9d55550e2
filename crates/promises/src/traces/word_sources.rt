//! Where a trace tells that a word was found, held against the protocol's table, the copies, who holds the bus, and memory's own words.

ghost use Rattle.std.specs.Prelude.{◌≡◌, ◌≢◌, ◌<◌, List, None, Some, is_some, length, true, ℕ};
ghost use Rattle.cache_set.specs.CacheTags.{first_supplier};
ghost use Rattle.cache_set.specs.Requests.{snoop_column};
ghost use Rattle.machine_core.specs.Running.{Running, machine_use};
ghost use Rattle.multiprocessor.specs.Configuration.{Configuration};
ghost use Rattle.protocol_tables.specs.Tables.{Table, table_of};
ghost use Rattle.protocol_tables.specs.declared.kind.ProtocolKind.{ProtocolKind};
ghost use Rattle.snoop_bus.specs.Asks.{tag_at};
ghost use Rattle.snoop_bus.specs.Rows.{table_of_rows};
ghost use Rattle.snoop_bus.specs.declared.access.BusRequest.{BusRequest};
ghost use Rattle.trace_report.specs.Supplied.{supplied_by};
ghost use Rattle.trace_report.specs.SupplyLaws.{IsFoundAt, MemoryIsSeen, line_accessed, machine_by, request_made};
ghost use Rattle.trace_report.specs.TraceLaws.{KeepsNoCopyInI};
ghost use Rattle.trace_report.specs.declared.supplied.Source.{Source};
ghost use Rattle.trace_report.specs.declared.supplied.Source.TheVariants.{Bus, Cache, Memory, Other};
ghost use Rattle.basic_laws.specs.Types.{Choice, Core, Loc};
ghost use Rattle.tso_terms.specs.FlatMachine.{chosen};
ghost use Rattle.tso_terms.specs.Litmus.{IsTest, Litmus};
ghost use Rattle.tso_terms.specs.MemoryAccess.{Writes, access_of};
ghost use Rattle.tso_terms.specs.SplitMachine.{Free, HeldBy};

use trace_report::memory_words::sources_are_told;

/// A word is found where it is told: among the core's own stores, in its own cache, on the bus that the choice holds, with the first core
/// whose copy supplies the line by the protocol's own table, or in memory where none does. A core that is told is another one, and the
/// words that a trace tells of memory are those that are seen.
pub fn words_are_found_where_it_is_told()
    ensures found { (table : Table) (c : Configuration) (t : Litmus) (choices : List Choice) (choice : Choice) (source : Source)
        → IsTest t → 0 < c.shape.words → KeepsNoCopyInI table
        → supplied_by (machine_by table c t choices) choice ≡ Some source → IsFoundAt (machine_by table c t choices) choice source }
    ensures apart { (table : Table) (c : Configuration) (t : Litmus) (choices : List Choice) (choice : Choice) (other : Core)
        → IsTest t → 0 < c.shape.words → KeepsNoCopyInI table
        → supplied_by (machine_by table c t choices) choice ≡ Some (Other other) → other.0 ≢ chosen choice }
    ensures there { (table : Table) (c : Configuration) (t : Litmus) (choices : List Choice) (choice : Choice) (other : Core)
        → IsTest t → 0 < c.shape.words → KeepsNoCopyInI table
        → supplied_by (machine_by table c t choices) choice ≡ Some (Other other) → other.0 < length t.programs }
    ensures words { (kind : ProtocolKind) (c : Configuration) (t : Litmus) (choices : List Choice) (choice : Choice)
        → MemoryIsSeen (machine_by (table_of kind) c t choices) choice }
{
    sources_are_told();
}

/// Where a word is found is told of a choice that reads one: of none that writes a word without reading it.
pub fn a_word_is_found_by_a_choice_that_reads()
    ensures { (m : Running) (choice : Choice) (source : Source) (loc : Loc)
        → supplied_by m choice ≡ Some source → access_of m.test m.depth m.state.flat choice ≢ Writes loc }
{
    sources_are_told();
}

/// What a place that is told says of the machine before the choice. Its core has the line; or the choice holds the bus, which keeps the
/// words for it; or nobody holds the bus, and the first core whose copy supplies what is asked for is the one that is told. There is none
/// where memory is told.
pub fn a_told_place_is_where_the_line_is()
    ensures own { (m : Running) (choice : Choice) (line : ℕ) → IsFoundAt m choice Cache
        → line_accessed m.statistics.caches (access_of m.test m.depth m.state.flat choice) ≡ Some line
        → is_some (tag_at (chosen choice) line m.statistics.caches.contents) ≡ true }
    ensures held { (m : Running) (choice : Choice) → IsFoundAt m choice Bus → m.state.holder ≡ HeldBy choice }
    ensures awaited { (m : Running) (choice : Choice) → IsFoundAt m choice Bus → is_some m.statistics.caches.awaited ≡ true }
    ensures absent { (m : Running) (choice : Choice) (line : ℕ) → IsFoundAt m choice Bus
        → line_accessed m.statistics.caches (access_of m.test m.depth m.state.flat choice) ≡ Some line
        → tag_at (chosen choice) line m.statistics.caches.contents ≡ None }
    ensures free { (m : Running) (choice : Choice) (other : Core) → IsFoundAt m choice (Other other) → m.state.holder ≡ Free }
    ensures asked { (m : Running) (choice : Choice) (other : Core) (line : ℕ) → IsFoundAt m choice (Other other)
        → line_accessed m.statistics.caches (access_of m.test m.depth m.state.flat choice) ≡ Some line
        → tag_at (chosen choice) line m.statistics.caches.contents ≡ None }
    ensures first { (m : Running) (choice : Choice) (other : Core) (request : BusRequest) → IsFoundAt m choice (Other other)
        → request_made (machine_use m choice).how ≡ Some request
        → first_supplier 0 (snoop_column (table_of_rows m.statistics.caches.rows) request.request) request.line m.statistics.caches.contents ≡ Some other }
    ensures none { (m : Running) (choice : Choice) (request : BusRequest) → IsFoundAt m choice Memory
        → request_made (machine_use m choice).how ≡ Some request
        → first_supplier 0 (snoop_column (table_of_rows m.statistics.caches.rows) request.request) request.line m.statistics.caches.contents ≡ None }
{}
