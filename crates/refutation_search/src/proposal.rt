//! What a search proposes: lemmas and a tree, as the checker has them.

use crate::facts::{Fact, NO_FACT};
use crate::hunt::Hunt;
use crate::lines::count_lines;
use crate::lists::{List, NONE};
use crate::replay::{Sheet, print_part};
use crate::setting::Setting;
use crate::told::{add_told, told_nodes};
use reading_tables::tables::Problem;
use refutation_checker::{Lemma, Node as Checked};
use std::alloc::Global;
use tso_terms::NoMemory;

/// What is proposed.
#[derive(Drop)]
pub struct Proposal<'t> {
    pub lemmas: Vec<Lemma<'t>>,
    pub tree: Vec<Checked<'t>>,
    /// How many lines it has when it is printed.
    pub lines: usize,
}

/// A part on a sheet: where it begins and ends, and the lemma that it shows; `NONE` for the tree.
#[derive(Clone, Copy)]
struct Section {
    lemma: usize,
    from: usize,
    to: usize,
}

const NO_SECTION: Section = Section {
    lemma: NONE,
    from: 0,
    to: 0,
};

fn facts_of(hunt: &Hunt, lemma: usize, facts: &mut List<Fact>) {
    facts.cut(0);
    let of = hunt.lemmas.lemmas.at(lemma);
    for i in 0..of.count {
        facts.push(hunt.lemmas.facts.at(of.start.wrapping_add(i)));
    }
}

fn print_section(
    setting: &Setting<'_>,
    problem: &Problem<'_>,
    hunt: &Hunt,
    sheet: &mut Sheet,
    sections: &mut List<Section>,
    lemma: usize,
    node: usize,
) -> bool {
    let mut facts = List::new(setting.alloc, 0, NO_FACT);
    facts_of(hunt, lemma, &mut facts);
    let from = sheet.nodes.len();
    let is_printed = print_part(setting, problem, hunt, sheet, node, &facts, lemma);
    sheet.nodes.is_refused |= facts.is_refused;
    sections.push(Section {
        lemma,
        from,
        to: sheet.nodes.len(),
    });
    is_printed
}

/// Prints the tree of a node, and each lemma that is used and isn't put where it is used: whether all could be closed.
fn print_all(
    setting: &Setting<'_>,
    problem: &Problem<'_>,
    hunt: &Hunt,
    sheet: &mut Sheet,
    sections: &mut List<Section>,
    node: usize,
) -> bool {
    sheet.nodes.cut(0);
    sheet.events.cut(0);
    sections.cut(0);
    sheet.uses.items.fill(0);
    if !print_section(setting, problem, hunt, sheet, sections, NONE, node) {
        return false;
    }
    for lemma in (0..hunt.lemmas.lemmas.len()).rev() {
        let is_apart = (sheet.uses.at(lemma) > 0) & !sheet.is_inside.at(lemma);
        let shown = hunt.lemmas.lemmas.at(lemma).node;
        if is_apart && !print_section(setting, problem, hunt, sheet, sections, lemma, shown) {
            return false;
        }
    }
    true
}

/// Puts each lemma that is used once where it is used.
fn put_inside(sheet: &mut Sheet) -> bool {
    let mut is_changed = false;
    for lemma in 0..sheet.uses.len() {
        if (sheet.uses.at(lemma) == 1) & !sheet.is_inside.at(lemma) {
            sheet.is_inside.put(lemma, true);
            is_changed = true;
        }
    }
    is_changed
}

/// How many lines all sections have, each lemma one more than its part.
fn all_lines(setting: &Setting<'_>, sheet: &Sheet, sections: &List<Section>) -> usize {
    let mut lines = 0usize;
    for i in 0..sections.len() {
        let section = sections.at(i);
        let part = count_lines(setting.alloc, sheet, section.from, section.to);
        lines = lines.wrapping_add(part).wrapping_add(1);
    }
    lines.wrapping_sub(1)
}

/// The lemmas and the tree on a sheet.
fn tell<'t>(
    alloc: Global,
    setting: &Setting<'t>,
    hunt: &Hunt,
    sheet: &Sheet,
    sections: &List<Section>,
) -> Result<Proposal<'t>, NoMemory> {
    let count = sections.len();
    let mut numbers = List::new(alloc, hunt.lemmas.lemmas.len(), NONE);
    let mut facts = List::new(alloc, 0, NO_FACT);
    let mut lemmas = Vec::new(alloc);
    for i in (1..count).rev() {
        let section = sections.at(i);
        facts_of(hunt, section.lemma, &mut facts);
        let mut told = Vec::new(alloc);
        add_told(setting, &facts, &mut told)?;
        let tree = told_nodes(alloc, setting, sheet, &numbers, section.from, section.to)?;
        numbers.put(section.lemma, lemmas.len());
        lemmas.push(Lemma { facts: told, tree })?;
    }
    let section = sections.at(0);
    let tree = told_nodes(alloc, setting, sheet, &numbers, section.from, section.to)?;
    if numbers.is_refused | facts.is_refused {
        return Err(NoMemory);
    }
    Ok(Proposal {
        lemmas,
        tree,
        lines: all_lines(setting, sheet, sections),
    })
}

/// How many nodes are many: then questions of what a read reads from are made shorter.
const MANY_NODES: usize = 2_000;

/// Has questions made shorter, where there are many nodes, or more than there may be.
fn ask_on(sheet: &mut Sheet) -> bool {
    let are_many = (sheet.nodes.len() > MANY_NODES) | (sheet.nodes.len() > sheet.most);
    let is_changed = are_many & !sheet.asks_on;
    sheet.asks_on |= is_changed;
    is_changed
}

/// How often lemmas are put where they are used.
const MOST_PRINTS: usize = 4;

/// What a search proposes that found this node, if its tree can be printed.
///
/// Errors: out of memory only.
pub fn propose<'t>(
    alloc: Global,
    setting: &Setting<'t>,
    problem: &Problem<'t>,
    hunt: &Hunt,
    node: usize,
) -> Result<Option<Proposal<'t>>, NoMemory> {
    let mut sheet = Sheet::new(alloc, setting, hunt.lemmas.lemmas.len());
    let mut sections = List::new(alloc, 0, NO_SECTION);
    let mut best = None;
    for _print in 0..MOST_PRINTS {
        let is_printed = print_all(setting, problem, hunt, &mut sheet, &mut sections, node);
        let is_other = if is_printed {
            best = Some(tell(alloc, setting, hunt, &sheet, &sections)?);
            put_inside(&mut sheet)
        } else {
            false
        };
        if !(is_other | ask_on(&mut sheet)) {
            break;
        }
    }
    if sheet.is_refused() | sections.is_refused {
        return Err(NoMemory);
    }
    Ok(best)
}
