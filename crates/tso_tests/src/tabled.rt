//! What reads can return, of a counter to which three cores add 1.

use crate::named::{MEMORY, P0, X, holds, test_of};
use reading_tables::rounds::make_table;
use reading_tables::tables::{make_problem, reading_for};
use std::alloc::Global;
use std::process::Abort;
use tso_terms::{Entry, Kind};

const COUNTER: &[u8] = b"\
X86 counter\n\
{ x=0; 0:EAX=1; 1:EAX=1; 2:EAX=1; }\n\
\x20P0                | P1                | P2                ;\n\
\x20LOCK XADD [x],EAX | LOCK XADD [x],EAX | LOCK XADD [x],EAX ;\n\
exists (x=3)\n";

const LOAD_PART: Entry = Entry {
    core: P0,
    place: 0,
    kind: Kind::LR,
    loc: X,
    value: 0,
};

/// What the first core's addition can find; nothing where it can be any word.
fn found(rt: &impl Abort, alloc: Global) -> Vec<u32> {
    let test = test_of(rt, alloc, COUNTER);
    let problem = make_problem(alloc, &test).expect(rt, MEMORY);
    let table = make_table(alloc, &problem, &[]).expect(rt, MEMORY);
    let Some(reading) = reading_for(&table.readings, &LOAD_PART) else {
        return Vec::new(alloc);
    };
    match &reading.values {
        Some(values) => Vec::from_slice(alloc, values).expect(rt, MEMORY),
        None => Vec::new(alloc),
    }
}

#[test]
fn each_of_three_additions_finds_at_most_two(rt: HostRuntime) {
    let values = found(&rt, rt.alloc());
    holds(&rt, values.as_slice() == [0, 1, 2].as_slice());
}
