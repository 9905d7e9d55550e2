//! Of which parts a test is made, what it begins with, and what its programs leave by the values that their reads return.

ghost use Rattle.std.specs.Prelude.{◌≡◌, ◌<◌, ◌↔◌, [], IfOk, IfSome, IsSome, length, slice_index, slice_index_or};
ghost use Rattle.tso_terms.specs.Litmus.{IsTest};
ghost use Rattle.tso_terms.specs.LitmusParts.{litmus_of};
ghost use Rattle.tso_terms.specs.Registers.{index_of};
ghost use Rattle.tso_terms.specs.Thread.{reads_in, registers_with};

use std::alloc::Global;
use tso_model::{Thread, thread_entries};
use tso_terms::{Core, Loc, NoMemory, Reg, Test, TestParts};

/// A test is made of exactly those parts that keep each limit, and is what they say.
pub fn a_test_within_limits_is_made(parts: TestParts) -> Option<Test>
    ensures made { IsSome result ↔ IsTest (litmus_of parts) }
    ensures test { IfSome result (λ t. t ≡ litmus_of parts) }
{
    Test::new(parts)
}

/// A location's first word is the test's.
pub fn a_first_word(test: &Test, loc: Loc) -> u32
    requires { loc.0 < length test.now.locations }
    ensures { result ≡ slice_index test.now.words loc.0 }
{
    test.initial_word(loc)
}

/// A register's first value in a core is the test's.
pub fn a_first_value(test: &Test, core: Core, reg: Reg) -> u32
    requires { core.0 < length test.now.programs }
    ensures { result ≡ slice_index (slice_index_or test.now.registers core.0 []) (index_of reg) }
{
    test.initial_register(core, reg)
}

/// A program's registers at its end are those that the values of its reads give.
pub fn the_registers_of_a_thread(
    alloc: Global,
    test: &Test,
    core: Core,
    reads: &[u32],
) -> Result<Thread, NoMemory>
    requires known { core.0 < length test.now.programs }
    requires reads { length reads.now ≡ reads_in (slice_index_or test.now.programs core.0 []) }
    ensures { IfOk result (λ t. t.registers ≡ registers_with test.now core.0 reads.now) }
{
    thread_entries(alloc, test, core, reads)
}
