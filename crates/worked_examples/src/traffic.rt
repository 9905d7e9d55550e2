//! Worked runs, for what their accesses move. The body is empty: the clauses are what is stated. They are small enough to be counted
//! by hand from the protocol's table; code and definitions that are wrong in the same way would show here.

ghost use Rattle.std.specs.Prelude.{◌≡◌};
ghost use Rattle.tso_terms.specs.Examples.{sb, sb_choices};
ghost use Rattle.tso_terms.specs.declared.choice.Bus.TheVariants.{Atomic};
ghost use Rattle.protocol_tables.specs.Tables.{msi};
ghost use Rattle.worked_examples.specs.CountedRuns.{two_lines, in_turn};
ghost use Rattle.cache_counts.specs.Traffic.{traffic, traffic_of};
ghost use Rattle.cache_counts.specs.Uses.{uses_of};

/// Traffic of worked runs: requests to read and to write, invalidations, lines from caches and from memory, and lines to memory, in
/// this order.
#[tactic(auto, unfolding(snoop_bus::specs::Asks::awaiting, snoop_bus::specs::Asks::requesting))]
pub fn worked_traffic()
    // Store buffering: each core reads the line that the other one writes later, and so loses its copy of it.
    ensures each_takes_one_copy { traffic_of msi 0 (uses_of msi (record { depth = 4; shape = two_lines; bus = Atomic }) sb sb_choices) ≡ traffic 1 1 1 0 2 0 }
    ensures and_so_does_the_other { traffic_of msi 1 (uses_of msi (record { depth = 4; shape = two_lines; bus = Atomic }) sb sb_choices) ≡ traffic 1 1 1 0 2 0 }

    // One core after the other: the second core's load finds the first core's modified copy, which supplies and is sent to memory.
    ensures the_first_asks_memory { traffic_of msi 0 (uses_of msi (record { depth = 4; shape = two_lines; bus = Atomic }) sb in_turn) ≡ traffic 1 1 0 0 2 0 }
    ensures the_second_asks_the_first { traffic_of msi 1 (uses_of msi (record { depth = 4; shape = two_lines; bus = Atomic }) sb in_turn)
        ≡ traffic 1 1 1 1 1 1 }
{}
