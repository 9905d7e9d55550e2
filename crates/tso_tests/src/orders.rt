//! Orders that no text can spell, what a breach says of itself, and the text of an order alone: no row of the program can
//! show one of them.

use crate::named::{MEMORY, MESSAGE_PASSING, P0, P1, X, Y, holds, says, test_of};
use axiom_checker::{Breach, check_order};
use order_builder::order_text;
use std::alloc::Global;
use std::process::Abort;
use tso_terms::{Entry, Execution, Kind, Test};

/// The fence of message passing.
const FENCE: Entry = Entry {
    core: P1,
    place: 2,
    kind: Kind::F,
    loc: X,
    value: 0,
};

fn is_extra(rt: &impl Abort, alloc: Global, test: &Test, fence: Entry) {
    let order = vec![in alloc; fence].expect(rt, MEMORY);
    let judged = check_order(alloc, test, &Execution { order });
    holds(
        rt,
        matches!(judged, Err(Breach::Extra(entry)) if entry == fence),
    );
}

/// The text of an order that is one fence.
fn text_of_a_fence(rt: &impl Abort, alloc: Global, test: &Test) -> String {
    let order = vec![in alloc; FENCE].expect(rt, MEMORY);
    order_text(alloc, test, &Execution { order }).expect(rt, MEMORY)
}

/// Not where an order is judged, and not where it is printed.
#[test]
fn a_fence_has_neither_location_nor_value(rt: HostRuntime) {
    let alloc = rt.alloc();
    let test = test_of(&rt, alloc, MESSAGE_PASSING);
    is_extra(&rt, alloc, &test, Entry { loc: Y, ..FENCE });
    is_extra(&rt, alloc, &test, Entry { value: 7, ..FENCE });
    let text = text_of_a_fence(&rt, alloc, &test);
    says(&rt, text, "Order\nP1:2 F\nEndorder 1\n");
}

#[test]
fn a_breach_prints_what_is_wrong(rt: HostRuntime) {
    let breach = Breach::Missing(P0, 0, Kind::W, Y);
    let text = format!(in rt.alloc(); "{breach}");
    says(&rt, text.expect(&rt, MEMORY), "an entry is missing");
}
