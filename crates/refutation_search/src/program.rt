//! The edges that program order alone tells. (herd's `x86tso.cat`; for sequential consistency Herding Cats, section 4.)

use crate::setting::{Event, Setting};
use refutations::events::is_before;

/// Whether x86-TSO keeps the order of two accesses of one core, which stand in this order in its program.
fn keeps(x: Event, y: Event, is_fenced: bool) -> bool {
    let both_write = x.writes & y.writes;
    let is_implied = x.writes & y.reads & (x.is_locked | y.is_locked);
    is_fenced | both_write | x.reads | is_implied
}

fn add_edge(setting: &mut Setting<'_>, a: usize, b: usize, is_fenced: bool) {
    let x = setting.events.at(a);
    let y = setting.events.at(b);
    if x.location == y.location {
        setting.program.add(a, b);
    }
    if setting.is_sequential || keeps(x, y, is_fenced) {
        setting.program.add(setting.size.wrapping_add(a), b);
    }
}

/// Notes the edges from an event to later accesses of its core.
fn add_edges(setting: &mut Setting<'_>, a: usize) {
    let x = setting.events.at(a);
    let mut is_fenced = false;
    for b in a..setting.size {
        let y = setting.events.at(b);
        if y.core != x.core {
            break;
        }
        if !is_before(&x.entry, &y.entry) {
            continue;
        }
        if y.reads | y.writes {
            add_edge(setting, a, b, is_fenced);
        }
        is_fenced |= y.is_fence;
    }
}

/// Notes the edges that program order alone tells.
pub fn add_program(setting: &mut Setting<'_>) {
    for a in setting.locations..setting.size {
        let x = setting.events.at(a);
        if x.reads | x.writes {
            add_edges(setting, a);
        }
    }
}
