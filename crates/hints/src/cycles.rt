//! What is said of a text that has cycles of edges, from which diy makes tests.

use crate::line::{Filling, Line};
use crate::quotes::{after_byte, first_word, last_bytes, up_to, up_to_any, word};
use crate::tables::is_one_of;

/// Maximum length of the edges that a hint repeats, in bytes.
const MAX_EDGES: usize = 32;

/// Names with which edges begin that the tool cycles knows too.
const KNOWN: &str = "Pod Pos MFenced Dpd Rfe Rfi Fre Fri Coe Coi Wse Wsi Rmw";

/// Names with which further edges of diy begin.
const OTHERS: &str = "DpAddrd DpDatad DpCtrld DpAddrs DpDatas DpCtrls Fenced Rf Fr Co Ws Hat";

/// Says of a line of edges, perhaps behind a name, which tool makes a test of them. Whether it is one.
pub fn says_cycle(line: &mut Line, head: &[u8]) -> bool {
    let edges = edges_in(head);
    if edges.is_empty() {
        return false;
    }
    if first_word(edges).len() == edges.len() && !edges.contains(&b';') {
        line.say(
            "an edge is no test, nor a cycle: the tool cycles makes a test of a whole cycle of edges, as cycles PodWR Fre PodWR Fre",
        );
        return true;
    }
    let has_choices = edges.contains(&b',') || edges.contains(&b';');
    if !has_choices && !are_known(edges) {
        line.say(
            "a cycle of edges is no test, and the tool cycles, which makes tests of cycles, doesn't know all of these edges: give tso a test, which begins with X86 and a name",
        );
    } else if edges.len() <= MAX_EDGES && !has_choices {
        line.say_with(
            "a cycle of edges is no test: the tool cycles makes a test of each: cycles {}",
            &[Filling::Shown(edges)],
        );
    } else if edges.contains(&b'[') {
        line.say(
            "cycles of edges are no test: the tool cycles makes a test of each: write one for each choice in [ ], as cycles PodWR Fre PodWR Fre",
        );
    } else {
        line.say(
            "a cycle of edges is no test: the tool cycles makes a test of each, with spaces between edges: cycles PodWR Fre PodWR Fre",
        );
    }
    true
}

/// Whether a word is an edge of diy.
pub fn is_edge_name(word: &[u8]) -> bool {
    is_edge(word, KNOWN) || is_edge(word, OTHERS)
}

/// A word without a square bracket before it and behind it.
fn without_bracket(word: &[u8]) -> &[u8] {
    let word = word.strip_prefix(b"[").unwrap_or(word);
    word.strip_suffix(b"]").unwrap_or(word)
}

/// Says of an edge in a cell what stands for it. Whether a cell is one.
pub fn says_edge(line: &mut Line, cell: &[u8]) -> bool {
    let is_in_brackets = cell.starts_with(b"[") && cell.ends_with(b"]");
    let name = up_to(without_bracket(cell), b',').trim_ascii_end();
    let is_fence = name.starts_with(b"MFenced") || (is_in_brackets && is_one_of("MFENCE", name));
    let is_one = is_fence || is_edge_name(name);
    if is_one {
        line.say_of(
            if is_fence {
                "{} is an edge, and no instruction: write MFENCE"
            } else {
                "{} is an edge, and no instruction: the tool cycles makes tests of edges, as cycles PodWR Fre PodWR Fre; a store is MOV [x],$1, a load MOV EAX,[x]"
            },
            cell,
        );
    }
    is_one
}

/// Whether a word is an edge, by one of these names and letters that say its ends.
fn is_edge(word: &[u8], names: &str) -> bool {
    for name in names.split(' ') {
        if let Some(ends) = word.strip_prefix(name.as_bytes())
            && are_ends(ends)
        {
            return true;
        }
    }
    false
}

/// Whether these bytes say the ends of an edge: capitals, or stars for any.
fn are_ends(bytes: &[u8]) -> bool {
    for byte in bytes {
        if !byte.is_ascii_uppercase() && *byte != b'*' {
            return false;
        }
    }
    true
}

/// Whether all words are edges that the tool cycles knows.
fn are_known(edges: &[u8]) -> bool {
    let mut rest = edges;
    for _ in 0..edges.len() {
        let edge = word(rest);
        if edge.is_empty() {
            break;
        }
        if !is_edge(edge, KNOWN) {
            return false;
        }
        rest = last_bytes(rest, rest.len().saturating_sub(edge.len())).trim_ascii_start();
    }
    true
}

/// The edges of a line, from the first one on that stands behind no more than a name, a key or a sign, without the verdict behind them and
/// quotation marks. Where none stands there, no bytes.
fn edges_in(line: &[u8]) -> &[u8] {
    let mut rest = after_name(after_name(line.trim_ascii(), b':'), b'=');
    for _ in 0..3 {
        let first = first_word(rest);
        let after = last_bytes(rest, rest.len().saturating_sub(first.len())).trim_ascii_start();
        if begins_with_edge(first)
            && (rest.len() == line.len() || begins_with_edge(first_word(after)))
        {
            let edges = up_to(rest, b':').trim_ascii();
            let edges = edges.strip_prefix(b"\"").unwrap_or(edges);
            return edges.strip_suffix(b"\"").unwrap_or(edges).trim_ascii();
        }
        rest = after;
    }
    &[]
}

/// Whether a word is an edge, or begins with one, perhaps behind a bracket or a quotation mark.
fn begins_with_edge(word: &[u8]) -> bool {
    let word = word.strip_prefix(b"\"").unwrap_or(word);
    is_edge_name(without_bracket(up_to_any(word, b",;\"")))
}

/// What stands after the name and the sign that a line may begin with.
fn after_name(line: &[u8], sign: u8) -> &[u8] {
    let name = up_to(line, sign);
    if first_word(line).len() > name.len() {
        after_byte(line, sign).trim_ascii_start()
    } else {
        line
    }
}
