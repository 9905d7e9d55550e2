//! Cores and locations by the names that the text of a test gives them, and such a test: so a test here reads as one in a
//! text.

ghost use Rattle.std.specs.Prelude.{◌≡◌, true};

use litmus_reader::read_test;
use std::alloc::Global;
use std::process::Abort;
use tso_terms::{Core, Loc, Test};

/// What a test takes for granted.
pub const MEMORY: &str = "memory is ample";

pub const P0: Core = Core(0);

pub const P1: Core = Core(1);

pub const X: Loc = Loc(0);

pub const Y: Loc = Loc(1);

/// Message passing, with a fence behind the loads.
pub const MESSAGE_PASSING: &[u8] = b"\
X86 MP\n\
{ }\n\
\x20P0         | P1          ;\n\
\x20MOV [x],$1 | MOV EAX,[y] ;\n\
\x20MOV [y],$1 | MOV EBX,[x] ;\n\
\x20           | MFENCE      ;\n\
exists (1:EAX=1 /\\ 1:EBX=0)\n";

/// Ends the test where this isn't so. The panic is here alone, since each one makes the proof of its function longer.
pub fn holds(rt: &impl Abort, fact: bool)
    ensures { fact ≡ true }
{
    assert!(rt; fact);
}

/// The test that a text spells.
pub fn test_of(rt: &impl Abort, alloc: Global, text: &[u8]) -> Test {
    read_test(alloc, text).expect(rt, "a test")
}

/// Ends the test where a text says something else.
pub fn says(rt: &impl Abort, text: String, wanted: &str) {
    holds(rt, text.as_str() == wanted);
}
