//! Small laws on lists, tests and numbers, program order as an order of numbers, and what waits until nothing is pending: a
//! library of lemmas for the crates above it, so that each comes once.
//!
//! Nothing here computes. The one public function has an empty body, and its contract is a law on the definitions; the
//! lemmas in `proofs/` are cited by the crates above.
#![tactic(auto)]

ghost use Rattle.basic_laws.specs.Ranks.{ProgramOrderGoesByRank};

/// An entry is before another in program order where both are of one core, and the rank of the first is the smaller: its
/// instruction comes earlier, or the two are the load and the store of one locked instruction.
///
/// Source: the Primer, chapter "Total Store Order", for program order; the rank is this project's.
pub fn program_order_goes_by_rank()
    ensures { ProgramOrderGoesByRank }
{}
