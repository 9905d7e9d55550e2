//! How many lines a refutation has when it is printed.

use crate::leaves::{Leaf, same_leaf};
use crate::lists::List;
use crate::replay::{Node, Sheet};
use std::alloc::Global;

/// A part that is counted: its lines, and its leaf, where it is one alone.
#[derive(Clone, Copy)]
struct Counted {
    lines: usize,
    leaf: Leaf,
}

const NOTHING: Counted = Counted {
    lines: 0,
    leaf: Leaf::Nothing,
};

/// Whether one of the last parts but those behind it has the same leaf.
fn is_said(sheet: &Sheet, parts: &List<Counted>, from: usize, to: usize, leaf: Leaf) -> bool {
    for i in from..to {
        if same_leaf(&sheet.events, parts.at(i).leaf, leaf) {
            return true;
        }
    }
    false
}

/// The lines of a question, whose branches are the last parts.
fn question_lines(sheet: &Sheet, parts: &List<Counted>, branches: usize) -> usize {
    let end = parts.len();
    let start = end.saturating_sub(branches);
    let mut lines = 0usize;
    let mut open = 0usize;
    for i in start..end {
        let part = parts.at(i);
        if matches!(part.leaf, Leaf::Nothing) {
            open = open.wrapping_add(1);
            lines = lines.wrapping_add(part.lines).wrapping_add(1);
        } else if !is_said(sheet, parts, start, i, part.leaf) {
            lines = lines.wrapping_add(1);
        }
    }
    if open > 1 {
        lines.wrapping_add(1)
    } else {
        lines
    }
}

/// How many lines the nodes from this one on, up to another one, have, which are one part.
pub fn count_lines(alloc: Global, sheet: &Sheet, from: usize, to: usize) -> usize {
    let mut parts = List::new(alloc, 0, NOTHING);
    for i in (from..to).rev() {
        match sheet.nodes.at(i) {
            Node::Ends(leaf) => parts.push(Counted { lines: 1, leaf }),
            Node::Asks(_, branches, _) => {
                let lines = question_lines(sheet, &parts, branches);
                let rest = parts.len().saturating_sub(branches);
                parts.cut(rest);
                parts.push(Counted {
                    lines,
                    leaf: Leaf::Nothing,
                });
            }
        }
    }
    parts.at(0).lines
}
