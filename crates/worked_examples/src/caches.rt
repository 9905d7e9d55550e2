//! Where a location lies in lines and sets, the words of a line, and which line is at the front of a set after each kind of
//! access and of its two halves.

ghost use Rattle.std.specs.Prelude.{◌≡◌, true, false, [], ◌∷◌, Some, None};
ghost use Rattle.protocol_tables.specs.declared.state.State.TheVariants.{I, S, E, O, M};
ghost use Rattle.protocol_tables.specs.declared.requests.Request.TheVariants.{GetS, GetM};
ghost use Rattle.protocol_tables.specs.declared.requests.Transient.TheVariants.{IsD, ImD, SmD};
ghost use Rattle.protocol_tables.specs.Tables.{msi, mesi, moesi};
ghost use Rattle.snoop_bus.specs.declared.access.AccessKind.TheVariants.{Hit, Upgrade, Miss};
ghost use Rattle.snoop_bus.specs.declared.access.Supplier.TheVariants.{Cache, Memory};
ghost use Rattle.protocol_tables.specs.Laws.{is_dirty, in_place};
ghost use Rattle.snoop_bus.specs.Coherent.{may_share};
ghost use Rattle.cache_set.specs.Lines.{line_of_words, lines_of_words};
ghost use Rattle.snoop_bus.specs.inner.CacheContents.{settled};
ghost use Rattle.snoop_bus.specs.Asks.{hits, asking, completed, whole_access};
ghost use Rattle.snoop_bus.specs.Bus.{words_of};
ghost use Rattle.snoop_bus.specs.Accesses.{line_of_location, lines_with, load_of, memory_after_load, memory_after_write};
ghost use Rattle.snoop_bus.specs.inner.Accesses.{memory_words_of};
ghost use Rattle.worked_examples.specs.LinesInSets.{set_for, outcome_of, was, p1};
ghost use Rattle.worked_examples.specs.inner.LinesInSets.{requested, departed, by_state, under_way};
ghost use Rattle.worked_examples.specs.inner.LinesInSets.{shape, words, awaits, asked, ask_leaves, eight_words, five_words};
ghost use Rattle.worked_examples.specs.LinesInSets.{alone};
ghost use Rattle.worked_examples.specs.inner.LinesInSets.{eight_locations, none, stale, eight_in_memory, fresh_in_memory};
ghost use Rattle.worked_examples.specs.LinesInSets.{two_sets, four_second, four_first, full, dirty_last};
ghost use Rattle.worked_examples.specs.LinesInSets.{shares_both, shares_seven, has_five, three_sets};

/// In which line and which set a location lies: where P1 loads it, that set of P1 has that line.
#[tactic(auto, unfolding(snoop_bus::specs::Asks::awaiting))]
pub fn worked_places()
    // Lines of two words, in two sets: the third line lies in the first set again.
    ensures line_of_location_5 { line_of_location (eight_locations (shape 2 3 2)) 5 ≡ 2 }
    ensures set_of_location_1 { (load_of (eight_locations (shape 2 3 2)) 1 1).caches ≡ (none ∷ none ∷ []) ∷ (alone 0 ∷ none ∷ []) ∷ [] }
    ensures set_of_location_2 { (load_of (eight_locations (shape 2 3 2)) 1 2).caches ≡ (none ∷ none ∷ []) ∷ (none ∷ alone 1 ∷ []) ∷ [] }
    ensures set_of_location_5 { (load_of (eight_locations (shape 2 3 2)) 1 5).caches ≡ (none ∷ none ∷ []) ∷ (alone 2 ∷ none ∷ []) ∷ [] }
    ensures set_of_location_6 { (load_of (eight_locations (shape 2 3 2)) 1 6).caches ≡ (none ∷ none ∷ []) ∷ (none ∷ alone 3 ∷ []) ∷ [] }

    // In three sets: the third line lies in the third, and the fourth in the first.
    ensures third_of_three_sets { (load_of (eight_locations (shape 3 3 2)) 1 5).caches
        ≡ (none ∷ none ∷ none ∷ []) ∷ (none ∷ none ∷ alone 2 ∷ []) ∷ [] }
    ensures first_of_three_sets { (load_of (eight_locations (shape 3 3 2)) 1 6).caches
        ≡ (none ∷ none ∷ none ∷ []) ∷ (alone 3 ∷ none ∷ none ∷ []) ∷ [] }

    // Lines of four words, in two sets.
    ensures line_of_four_words { line_of_location (eight_locations (shape 2 3 4)) 5 ≡ 1 }
    ensures set_of_four_words { (load_of (eight_locations (shape 2 3 4)) 1 5).caches ≡ (none ∷ none ∷ []) ∷ (none ∷ alone 1 ∷ []) ∷ [] }
{}

/// The words of lines, place by place: those that a line hasn't, and those past the last location, are 0.
pub fn worked_lines()
    ensures three_by_one { lines_with (shape 1 1 1) (10 ∷ 11 ∷ 12 ∷ []) ≡ words 10 0 0 0 ∷ words 11 0 0 0 ∷ words 12 0 0 0 ∷ [] }
    ensures eight_by_two { lines_with (shape 1 1 2) eight_words ≡ eight_in_memory }
    ensures eight_by_four { lines_with (shape 1 1 4) eight_words ≡ words 10 11 12 13 ∷ words 14 15 16 17 ∷ [] }
    ensures five_by_two { lines_with (shape 1 1 2) five_words ≡ words 10 11 0 0 ∷ words 12 13 0 0 ∷ words 14 0 0 0 ∷ [] }
    ensures five_by_four { lines_with (shape 1 1 4) five_words ≡ words 10 11 12 13 ∷ words 14 0 0 0 ∷ [] }
    ensures past_the_last_location { line_of_words 4 five_words 1 ≡ words 14 0 0 0 }
    ensures past_the_last_line { line_of_words 2 five_words 3 ≡ words 0 0 0 0 }
    ensures as_many_lines { lines_of_words 2 five_words 2 ≡ words 10 11 0 0 ∷ words 12 13 0 0 ∷ [] }
{}

/// The words that are seen where P1 has modified a line, memory's own, and what accesses make of memory.
#[tactic(auto, unfolding(snoop_bus::specs::Asks::awaiting))]
pub fn worked_words()
    ensures seen { words_of (stale msi) ≡ 10 ∷ 11 ∷ 12 ∷ 13 ∷ 54 ∷ 55 ∷ 16 ∷ 17 ∷ [] }
    ensures own_of_memory { memory_words_of (stale msi) ≡ 10 ∷ 11 ∷ 12 ∷ 13 ∷ 14 ∷ 15 ∷ 16 ∷ 17 ∷ [] }

    // While P0's write holds the bus, the words that the bus keeps for it.
    ensures seen_meanwhile { words_of under_way ≡ 10 ∷ 11 ∷ 12 ∷ 13 ∷ 54 ∷ 55 ∷ 16 ∷ 17 ∷ [] }

    // P0 loads location 4: MSI sends P1's copy to memory, and MOESI doesn't.
    ensures sent_by_msi { memory_after_load (stale msi) 0 4 ≡ fresh_in_memory }
    ensures kept_by_moesi { memory_after_load (stale moesi) 0 4 ≡ eight_in_memory }

    // P1 loads location 0, which takes the place of its modified line; or writes there.
    ensures written_back_at_a_load { memory_after_load (stale msi) 1 0 ≡ fresh_in_memory }
    ensures written_back_at_a_write { memory_after_write (stale msi) 1 0 ≡ fresh_in_memory }

    // P0 writes location 4: P1's copy goes to P0, and not to memory.
    ensures handed_over { memory_after_write (stale msi) 0 4 ≡ eight_in_memory }
{}

/// Which line is at the front after a whole access, and what the other core's set is left with.
#[tactic(auto, unfolding(snoop_bus::specs::Asks::awaiting))]
pub fn worked_fronts()
    // A load that hits, and writes that hit, on M and on E.
    ensures load_hit { outcome_of (whole_access msi false 0 4 (two_sets (four_second S) shares_both))
        ≡ was Hit false None (two_sets (four_first S) shares_both) }
    ensures write_hit_on_modified { outcome_of (whole_access msi true 0 4 (two_sets (four_second M) shares_seven))
        ≡ was Hit false None (two_sets (four_first M) shares_seven) }
    ensures write_hit_on_exclusive { outcome_of (whole_access mesi true 0 4 (two_sets (four_second E) shares_seven))
        ≡ was Hit false None (two_sets (four_first M) shares_seven) }

    // Upgrades, of S and of O: the other copy is gone.
    ensures upgrade_of_shared { outcome_of (whole_access msi true 0 4 (two_sets (four_second S) shares_both))
        ≡ was Upgrade false None (two_sets (four_first M) shares_seven) }
    ensures upgrade_of_owned { outcome_of (whole_access moesi true 0 4 (two_sets (four_second O) shares_both))
        ≡ was Upgrade false None (two_sets (four_first M) shares_seven) }

    // Misses of a line that P1 has modified: P1's copy changes where it stands.
    ensures load_miss { outcome_of (whole_access msi false 0 5 (two_sets (four_second S) (has_five M)))
        ≡ was Miss false (Some p1) (two_sets ((5, S) ∷ four_second S) (has_five S)) }
    ensures load_miss_in_moesi { outcome_of (whole_access moesi false 0 5 (two_sets (four_second S) (has_five M)))
        ≡ was Miss false None (two_sets ((5, S) ∷ four_second S) (has_five O)) }
    ensures write_miss { outcome_of (whole_access msi true 0 5 (two_sets (four_second S) (has_five M)))
        ≡ was Miss false None (two_sets ((5, M) ∷ four_second S) shares_seven) }

    // P1 has the line alone, and clean: it is filled in S beside it.
    ensures load_miss_in_mesi { outcome_of (whole_access mesi false 0 5 (two_sets (four_second S) (has_five E)))
        ≡ was Miss false None (two_sets ((5, S) ∷ four_second S) (has_five S)) }

    // P1 writes: the copies of P0 and P2 are gone.
    ensures upgrade_among_three { outcome_of (whole_access msi true 1 4 (three_sets shares_both (four_second S) shares_both))
        ≡ was Upgrade false None (three_sets shares_seven (four_first M) shares_seven) }

    // A miss where the set is full: the line used longest ago leaves, and is written back.
    ensures load_miss_alone { outcome_of (whole_access mesi false 0 5 (full dirty_last)) ≡ was Miss true None (full ((5, E) ∷ (7, S) ∷ (4, S) ∷ [])) }
    ensures write_miss_alone { outcome_of (whole_access mesi true 0 5 (full dirty_last)) ≡ was Miss true None (full ((5, M) ∷ (7, S) ∷ (4, S) ∷ [])) }
{}

/// What accesses say beside that: what went on the bus, who supplied the words, the copies that were there, and the line that left.
#[tactic(auto, unfolding(snoop_bus::specs::Asks::awaiting, snoop_bus::specs::Asks::requesting))]
pub fn worked_reports()
    // A hit asks nothing, and an upgrade for no words.
    ensures a_hit_asks_nothing { (whole_access msi false 0 4 (two_sets (four_second S) shares_both)).report.request ≡ None }
    ensures an_upgrade_moves_no_words { (whole_access msi true 0 4 (two_sets (four_second S) shares_both)).report.request
        ≡ requested GetM 4 None None (Some S) (Some S) }

    // P1 has modified the line: in MSI its copy is sent to memory too.
    ensures a_modified_copy_supplies { (whole_access msi false 0 5 (two_sets (four_second S) (has_five M))).report.request
        ≡ requested GetS 5 (Some (Cache p1)) (Some p1) None (Some M) }
    ensures an_owner_supplies { (whole_access moesi false 0 5 (two_sets (four_second S) (has_five M))).report.request
        ≡ requested GetS 5 (Some (Cache p1)) None None (Some M) }
    ensures a_shared_copy_does_not { (whole_access msi false 0 7 (two_sets [] shares_seven)).report.request
        ≡ requested GetS 7 (Some Memory) None None (Some S) }

    // The line that was used longest ago leaves: it is written to memory where it is dirty.
    ensures a_dirty_line_is_written { (whole_access mesi false 0 5 (full dirty_last)).report.left ≡ departed 2 true }
    ensures a_clean_line_is_not { (whole_access mesi false 0 5 (full (four_first S))).report.left ≡ departed 2 false }
    ensures none_leaves_where_there_is_room { (whole_access mesi false 0 5 (two_sets (four_second S) [])).report.left ≡ None }

    // In halves the ask tells the request, and the completion the line that left.
    ensures an_ask_tells_its_request { (asking msi GetS 0 5 (two_sets (four_second S) (has_five M))).request
        ≡ requested GetS 5 (Some (Cache p1)) (Some p1) None (Some M) }
    ensures a_hit_asks_for_nothing { (asking msi GetM 0 4 (two_sets (four_second M) shares_seven)).request ≡ None }
    ensures a_completion_tells_no_request { (completed mesi 0 5 (Some (awaits IsD E None)) (full dirty_last)).report.request ≡ None }
    ensures a_completion_tells_what_left { (completed mesi 0 5 (Some (awaits IsD E None)) (full dirty_last)).report.left ≡ departed 2 true }
{}

/// Which accesses hit, by the state of the line.
pub fn worked_hits()
    ensures write_on_modified { hits moesi 0 4 true (two_sets (four_second M) []) ≡ true }
    ensures write_on_owned { hits moesi 0 4 true (two_sets (four_second O) []) ≡ false }
    ensures write_on_exclusive { hits moesi 0 4 true (two_sets (four_second E) []) ≡ true }
    ensures write_on_shared { hits moesi 0 4 true (two_sets (four_second S) []) ≡ false }
    ensures write_on_none { hits moesi 0 5 true (two_sets (four_second M) (has_five M)) ≡ false }
    ensures load_of_shared { hits moesi 0 4 false (two_sets (four_second S) []) ≡ true }
    ensures load_of_none { hits moesi 0 5 false (two_sets (four_second M) (has_five M)) ≡ false }
{}

/// An access in its two halves: what the ask leaves and awaits, and which line is at the front after the completion.
#[tactic(auto, unfolding(snoop_bus::specs::Asks::awaiting))]
pub fn worked_halves()
    // For an upgrade: the own line stays where it stands until the completion.
    ensures upgrade_is_asked { ask_leaves (asking msi GetM 0 4 (two_sets (four_second S) shares_both))
        ≡ asked (Some (awaits SmD M None)) (two_sets (four_second S) shares_seven) }
    ensures upgrade_is_completed { outcome_of (completed msi 0 4 (Some (awaits SmD M None)) (two_sets (four_second S) shares_seven))
        ≡ was Upgrade false None (two_sets (four_first M) shares_seven) }

    // For a load, and for a write, of a line that P1 has modified.
    ensures load_is_asked { ask_leaves (asking msi GetS 0 5 (two_sets (four_second S) (has_five M)))
        ≡ asked (Some (awaits IsD S (Some p1))) (two_sets (four_second S) (has_five S)) }
    ensures load_is_completed { outcome_of (completed msi 0 5 (Some (awaits IsD S (Some p1))) (two_sets (four_second S) (has_five S)))
        ≡ was Miss false (Some p1) (two_sets ((5, S) ∷ four_second S) (has_five S)) }
    ensures write_is_asked { ask_leaves (asking msi GetM 0 5 (two_sets (four_second S) (has_five M)))
        ≡ asked (Some (awaits ImD M None)) (two_sets (four_second S) shares_seven) }
    ensures write_is_completed { outcome_of (completed msi 0 5 (Some (awaits ImD M None)) (two_sets (four_second S) shares_seven))
        ≡ was Miss false None (two_sets ((5, M) ∷ four_second S) shares_seven) }

    // In MESI a load is to be filled in E where no other core has the line, and in S where one has.
    ensures exclusive_is_asked { ask_leaves (asking mesi GetS 0 5 (full dirty_last)) ≡ asked (Some (awaits IsD E None)) (full dirty_last) }
    ensures shared_is_asked { ask_leaves (asking mesi GetS 0 5 (two_sets (four_second S) (has_five E)))
        ≡ asked (Some (awaits IsD S None)) (two_sets (four_second S) (has_five S)) }

    // Where the set is full, another line leaves at the completion.
    ensures full_set_is_left { outcome_of (completed mesi 0 5 (Some (awaits IsD E None)) (full dirty_last))
        ≡ was Miss true None (full ((5, E) ∷ (7, S) ∷ (4, S) ∷ [])) }

    // A write access that hits awaits nothing: its line goes to the front at the completion.
    ensures hit_is_asked { ask_leaves (asking msi GetM 0 4 (two_sets (four_second M) shares_seven))
        ≡ asked None (two_sets (four_second M) shares_seven) }
    ensures hit_is_completed { outcome_of (completed msi 0 4 None (two_sets (four_second M) shares_seven))
        ≡ was Hit false None (two_sets (four_first M) shares_seven) }
{}

/// Which states two cores may have one line in, by the first core's, for M, O, E, S and I of the second; which of these are dirty,
/// and which are written in place.
pub fn worked_sharing()
    ensures beside_modified { by_state (may_share M) ≡ false ∷ false ∷ false ∷ false ∷ true ∷ [] }
    ensures beside_owned { by_state (may_share O) ≡ false ∷ false ∷ false ∷ true ∷ true ∷ [] }
    ensures beside_exclusive { by_state (may_share E) ≡ false ∷ false ∷ false ∷ false ∷ true ∷ [] }
    ensures beside_shared { by_state (may_share S) ≡ false ∷ true ∷ false ∷ true ∷ true ∷ [] }
    ensures beside_none { by_state (may_share I) ≡ true ∷ true ∷ true ∷ true ∷ true ∷ [] }
    ensures dirty { by_state is_dirty ≡ true ∷ true ∷ false ∷ false ∷ false ∷ [] }
    ensures written_in_place { by_state in_place ≡ Some M ∷ None ∷ Some M ∷ None ∷ None ∷ [] }
{}

/// The states once all is settled.
pub fn worked_settling()
    ensures { settled ((set_for 4 ((7, M) ∷ (4, O) ∷ (3, E) ∷ (2, S) ∷ []) ∷ []) ∷ [])
        ≡ (set_for 4 ((7, S) ∷ (4, S) ∷ (3, E) ∷ (2, S) ∷ []) ∷ []) ∷ [] }
{}
