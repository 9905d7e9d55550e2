//! That a whole access is its two halves: laws. So a machine on the atomic bus and one on a split bus differ in when things
//! happen, and not in what an access does.

ghost use Rattle.protocol_tables.specs.Laws.{WritesInPlace};
ghost use Rattle.protocol_tables.specs.Tables.{Table};
ghost use Rattle.snoop_bus.specs.Asks.{LoadsAreHalves, WritesAreHalves};
ghost use Rattle.snoop_bus.specs.WholeAccesses.{LoadsAgreeWithHalves, WritesAgreeWithHalves};

/// An access that is whole when its call returns leaves the lines and states that its ask and its completion
/// leave, one after the other, and is the same access.
pub fn whole_accesses_are_two_halves()
    ensures loads { (t : Table) → LoadsAreHalves t }
    ensures writes { (t : Table) → WritesInPlace t.written → WritesAreHalves t }
{}

/// What the calls for a whole access leave is what those for its two halves leave, one after the other, from
/// the same bus on: the words that are seen, memory, and the lines and states; and a load answers the same word.
pub fn halves_leave_what_whole_accesses_do()
    ensures loads { LoadsAgreeWithHalves }
    ensures writes { WritesAgreeWithHalves }
{}
