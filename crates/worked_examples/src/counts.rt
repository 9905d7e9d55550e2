//! Worked runs, for what their accesses come to. The body is empty: the clauses are what is stated. They are small enough
//! to be counted by hand from the protocols' tables; code and definitions that are wrong in the same way would show here.
ghost use Rattle.std.specs.Prelude.{◌≡◌, [], ◌∷◌};
ghost use Rattle.tso_terms.specs.Examples.{sb, sb_choices, n6};
ghost use Rattle.tso_terms.specs.declared.choice.Bus.TheVariants.{Atomic, Split};
ghost use Rattle.protocol_tables.specs.Tables.{msi, mesi, moesi};
ghost use Rattle.multiprocessor.specs.Statistics.{counts, counts_of};
ghost use Rattle.worked_examples.specs.CountedRuns.{two_lines, one_line, missed, in_turn, sb_steps, own_store_first};
ghost use Rattle.worked_examples.specs.CountedRuns.{load_store, load_store_choices, load_store_steps, two_stores, between};
ghost use Rattle.worked_examples.specs.CountedRuns.{five_loads, five_loads_choices, sb_asks, sb_waits};
ghost use Rattle.worked_examples.specs.CountedRuns.{beside_load, load_waits, beside_two_loads, load_between};
ghost use Rattle.worked_examples.specs.CountedRuns.{store_exchange, store_exchange_choices};

/// Counts of worked runs: hits, misses, upgrades, forwards, write-backs and flushes, in this order.
#[tactic(auto, unfolding(snoop_bus::specs::Asks::awaiting))]
pub fn worked_counts()
    // Store buffering: each core misses at its load and at its store.
    ensures each_misses_twice { counts_of Atomic msi two_lines sb 4 sb_choices ≡ missed 2 ∷ (missed 2 ∷ []) }

    // The second core's load finds the first core's modified copy, which is sent to memory.
    ensures a_modified_copy_is_flushed { counts_of Atomic msi two_lines sb 4 in_turn ≡ counts 0 2 0 0 0 1 ∷ (missed 2 ∷ []) }

    // A load of what the own core has just stored is no access.
    ensures a_load_is_forwarded { counts_of Atomic msi two_lines n6 4 own_store_first ≡ counts 0 2 0 1 0 0 ∷ (missed 2 ∷ []) }

    // A store to a line that was loaded alone: MSI filled it in shared, MESI exclusive.
    ensures a_shared_copy_is_upgraded { counts_of Atomic msi two_lines load_store 4 load_store_choices ≡ counts 0 1 1 0 0 0 ∷ [] }
    ensures an_exclusive_copy_is_hit { counts_of Atomic mesi two_lines load_store 4 load_store_choices ≡ counts 1 1 0 0 0 0 ∷ [] }

    // A modified copy that another core loads and that then gives way: MOESI keeps it owned and writes it back, MESI
    // has sent it to memory at the load.
    ensures an_owned_victim_is_written_back { counts_of Atomic moesi one_line two_stores 4 between ≡ counts 0 2 0 0 1 0 ∷ (missed 1 ∷ []) }
    ensures a_shared_victim_is_not { counts_of Atomic mesi one_line two_stores 4 between ≡ counts 0 2 0 0 0 1 ∷ (missed 1 ∷ []) }

    // The line that was used longest ago gives way: a hit keeps its line.
    ensures a_touched_line_stays { counts_of Atomic msi two_lines five_loads 4 five_loads_choices ≡ counts 2 3 0 0 0 0 ∷ [] }

    // Without buffers each core misses at its store, and at its load of what the other core has stored.
    ensures unbuffered_stores_are_flushed { counts_of Atomic msi two_lines sb 0 sb_steps ≡ counts 0 2 0 0 0 1 ∷ (counts 0 2 0 0 0 1 ∷ []) }
    ensures an_unbuffered_store_asks { counts_of Split msi two_lines load_store 0 load_store_steps ≡ counts 0 1 1 0 0 0 ∷ [] }

    // On a split bus an access is counted when it is completed, and not when it is asked for.
    ensures each_misses_twice_on_a_split_bus { counts_of Split msi two_lines sb 4 sb_asks ≡ missed 2 ∷ (missed 2 ∷ []) }
    ensures an_ask_is_not_counted { counts_of Split msi two_lines sb 4 sb_waits ≡ missed 0 ∷ (missed 0 ∷ []) }
    ensures a_waiting_load_flushes { counts_of Split msi two_lines beside_load 4 load_waits ≡ counts 0 1 0 0 0 1 ∷ (missed 1 ∷ []) }
    ensures a_load_hits_between { counts_of Split msi two_lines beside_two_loads 4 load_between ≡ missed 1 ∷ (counts 1 1 0 0 0 0 ∷ []) }

    // A locked instruction on a line that its core may write counts one hit.
    ensures an_exchange_hits_once { counts_of Split msi two_lines store_exchange 4 store_exchange_choices ≡ counts 1 1 0 0 0 0 ∷ [] }
{}
