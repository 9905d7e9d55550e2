//! Writes on the split bus that hit: on a line in E and on one in M, each is committed at once.

ghost use Rattle.std.specs.Prelude.{◌≡◌, true, [], ◌∷◌};
ghost use Rattle.tso_terms.specs.EitherBus.{run_on};
ghost use Rattle.tso_terms.specs.declared.choice.Bus.TheVariants.{Split};
ghost use Rattle.protocol_tables.specs.Tables.{msi, mesi};
ghost use Rattle.multiprocessor.specs.Statistics.{counts_of};
ghost use Rattle.multiprocessor.specs.Answered.{answered};
ghost use Rattle.worked_examples.specs.WriteHits.{outcomes, two_lines, these, twice, drains, drains_hit, drains_come_to, drains_order};
ghost use Rattle.worked_examples.specs.WriteHits.{steps, steps_hit, steps_come_to, first_asks, first_comes_to};

/// Two writes of a word that was loaded alone: what the caches answer, what each choice comes to, and what was counted.
#[tactic(auto, unfolding(snoop_bus::specs::Asks::awaiting))]
pub fn worked_write_hits()
    // Drains, while another core's load holds the bus.
    ensures drains_are_answered { answered Split mesi two_lines twice 2 drains ≡ drains_hit }
    ensures drains_are_committed { outcomes Split twice 2 drains_hit ≡ drains_come_to }
    ensures drains_in_order { (run_on Split twice 2 drains_hit).run.commits ≡ drains_order }
    ensures drains_memory { (run_on Split twice 2 drains_hit).run.state.memory ≡ 8 ∷ 4 ∷ [] }
    ensures drains_end { (run_on Split twice 2 drains_hit).run.ended ≡ true }
    ensures drains_stall_nowhere { (run_on Split twice 2 drains_hit).run.stalled ≡ 0 }
    ensures drains_are_counted { counts_of Split mesi two_lines twice 2 drains ≡ these 2 1 0 0 0 0 ∷ these 0 1 0 0 0 0 ∷ [] }

    // Stores without a buffer.
    ensures steps_are_answered { answered Split mesi two_lines twice 0 steps ≡ steps_hit }
    ensures steps_are_committed { outcomes Split twice 0 steps_hit ≡ steps_come_to }
    ensures steps_are_counted { counts_of Split mesi two_lines twice 0 steps ≡ these 2 1 0 0 0 0 ∷ these 0 0 0 0 0 0 ∷ [] }

    // The same in MSI, where the line that was loaded is in S.
    ensures first_is_answered { answered Split msi two_lines twice 0 steps ≡ first_asks }
    ensures first_is_asked { outcomes Split twice 0 first_asks ≡ first_comes_to }
    ensures first_is_counted { counts_of Split msi two_lines twice 0 steps ≡ these 0 1 1 0 0 0 ∷ these 0 0 0 0 0 0 ∷ [] }
{}
