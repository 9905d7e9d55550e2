//! Cycles of the edges that the facts of a branch tell: the shortest one.

use crate::leaves::Leaf;
use crate::lists::{List, NONE};
use crate::rows::Rows;
use crate::setting::Setting;
use crate::state::{Group, State};

/// Which relations are acyclic together.
#[derive(Clone, Copy)]
pub enum Acyclic {
    OnLocation,
    Globally,
}

/// The edges of a branch that are told by no others.
fn direct_edges(setting: &Setting<'_>, state: &State, acyclic: Acyclic) -> Rows {
    let mut edges = Rows::new(setting.alloc, setting.size, setting.size);
    let is_global = matches!(acyclic, Acyclic::Globally);
    let program = if is_global { setting.size } else { 0 };
    for a in setting.locations..setting.size {
        edges.join(a, &setting.program, program.wrapping_add(a));
        edges.join(a, &state.rows, Group::Later.row(setting, a));
        edges.join(a, &state.rows, Group::FromReads.row(setting, a));
        let read = setting.events.at(a);
        if !read.reads || state.count_sources(setting, a) != 1 {
            continue;
        }
        let s = state.first_source(setting, a);
        let is_own = setting.events.at(s).core == read.core;
        if (s >= setting.locations) & !(is_global & is_own & !setting.is_sequential) {
            edges.add(s, a);
        }
    }
    edges
}

/// What a search for a shortest path keeps: for each event the one before it, and the events in the order in which they are reached.
#[derive(Drop)]
struct Walk {
    before: List<usize>,
    reached: List<usize>,
}

/// Notes the events that an edge reaches from this one, but for the start.
fn reach(setting: &Setting<'_>, edges: &Rows, walk: &mut Walk, a: usize, start: usize) {
    let mut b = edges.next(a, 0);
    for _event in 0..setting.size {
        if b == NONE {
            break;
        }
        if (walk.before.at(b) == NONE) & (b != start) {
            walk.before.put(b, a);
            walk.reached.push(b);
        }
        b = edges.next(a, b.wrapping_add(1));
    }
}

/// Goes from an event along edges until it comes back: the last event of the way, and `NONE` where it is longer than so many.
fn walk_back(
    setting: &Setting<'_>,
    edges: &Rows,
    walk: &mut Walk,
    start: usize,
    most: usize,
) -> usize {
    walk.before.items.fill(NONE);
    walk.reached.cut(0);
    walk.reached.push(start);
    let mut end = 1;
    let mut length = 1usize;
    for i in 0..setting.size {
        if i == walk.reached.len() {
            return NONE;
        }
        if i == end {
            end = walk.reached.len();
            length = length.wrapping_add(1);
        }
        if length >= most {
            return NONE;
        }
        let a = walk.reached.at(i);
        if edges.has(a, start) {
            return a;
        }
        reach(setting, edges, walk, a, start);
    }
    NONE
}

/// Adds the events of a way, from its start on, and answers how many they are.
fn add_way(events: &mut List<usize>, walk: &Walk, last: usize) -> usize {
    let start = events.len();
    let mut a = last;
    for _event in 0..walk.before.len() {
        if a == NONE {
            break;
        }
        events.push(a);
        a = walk.before.at(a);
    }
    let length = events.len().wrapping_sub(start);
    for i in 0..length / 2 {
        let (low, high) = (
            start.wrapping_add(i),
            start.wrapping_add(length).wrapping_sub(i).wrapping_sub(1),
        );
        let (first, second) = (events.at(low), events.at(high));
        events.put(low, second);
        events.put(high, first);
    }
    length
}

/// Finds the shortest cycle of fewer events than so many.
fn find_shortest(
    setting: &Setting<'_>,
    state: &State,
    acyclic: Acyclic,
    most: usize,
    events: &mut List<usize>,
) -> Leaf {
    let edges = direct_edges(setting, state, acyclic);
    let mut walk = Walk {
        before: List::new(setting.alloc, setting.size, NONE),
        reached: List::new(setting.alloc, 0, NONE),
    };
    let begin = events.len();
    let mut leaf = Leaf::Nothing;
    let mut shortest = most;
    for start in setting.locations..setting.size {
        let last = walk_back(setting, &edges, &mut walk, start, shortest);
        if last != NONE {
            events.cut(begin);
            shortest = add_way(events, &walk, last);
            leaf = Leaf::Cycle(acyclic, begin, shortest);
        }
    }
    events.is_refused |= edges.words.is_refused | walk.before.is_refused | walk.reached.is_refused;
    leaf
}

/// A shortest cycle of a branch, if it has one.
pub fn find_cycle(setting: &Setting<'_>, state: &State, events: &mut List<usize>) -> Leaf {
    let leaf = find_shortest(setting, state, Acyclic::OnLocation, NONE, events);
    let most = match leaf {
        Leaf::Cycle(_, _, length) => length,
        _ => NONE,
    };
    match find_shortest(setting, state, Acyclic::Globally, most, events) {
        Leaf::Nothing => leaf,
        other => other,
    }
}
