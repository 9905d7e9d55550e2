//! What the order of a run's commits keeps: the two parts of each locked instruction are adjacent. And which numbers program order
//! goes by. (Primer, chapter 4.)

ghost use Rattle.std.specs.Prelude.{◌≡◌, ◌==◌, ◌&&◌, ℕ, ◌+◌, ◌++◌, nat_lt, Some, IfOk, OnOk, All, slice_get, string_bytes};
ghost use Rattle.tso_terms.specs.ProgramOrder.{IsStorePart, is_before};
ghost use Rattle.basic_laws.specs.Ranks.{rank};
ghost use Rattle.basic_laws.specs.Types.{Entry, LR};
ghost use Rattle.commit_order.specs.Pairs.{IsPaired};
ghost use Rattle.order_builder.specs.PrintedOrder.{printed_order, HasLocation, HasWord};

use basic_laws::program_order_goes_by_rank;
use order_builder::{Commits, build, order_text};
use std::alloc::Global;
use tso_terms::{Execution, NoMemory, Test};

/// In an order that was built, the load part of a locked instruction is followed at once by its store part.
pub fn a_built_order_keeps_pairs(alloc: Global, commits: &Commits) -> Result<Execution, NoMemory>
    requires { IsPaired commits.now.entries }
    ensures { IfOk result (λ e. (i : ℕ) (x : Entry) → slice_get e.order.items i ≡ Some x → x.kind ≡ LR
        → (y : Entry) × (slice_get e.order.items (i + 1) ≡ Some y) × IsStorePart x y) }
{
    build(alloc, commits)
}

/// The text of an order is what is printed of it, and each value in it is a word.
pub fn an_order_is_printed(
    alloc: Global,
    test: &Test,
    execution: &Execution,
) -> Result<String, NoMemory>
    requires { All (HasLocation test.now) execution.now.order.items }
    ensures text { IfOk result (λ text. string_bytes text ≡ printed_order test.now execution.now.order.items) }
    ensures words { OnOk result (All HasWord execution.now.order.items) }
{
    order_text(alloc, test, execution)
}

/// Of two entries of one core the one before the other in program order has the smaller rank.
pub fn program_order_is_an_order_of_numbers()
    ensures { (x y : Entry) → is_before x y ≡ ((x.core.0 == y.core.0) && nat_lt (rank x) (rank y)) }
{
    program_order_goes_by_rank();
}
