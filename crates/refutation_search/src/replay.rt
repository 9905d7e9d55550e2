//! Goes along the tree of a refutation once more, with the facts of each branch: so its nodes come in the order in which a refutation
//! lists them, and a branch that is closed at once by now ends there.

use crate::facts::{Fact, NO_FACT, Question, opposite};
use crate::hunt::{Hunt, keep_level};
use crate::leaves::{Leaf, find_leaf};
use crate::lemmas::{Lemmas, is_known};
use crate::lists::{List, NONE};
use crate::questions::add_answers;
use crate::setting::Setting;
use crate::settle::settle;
use crate::state::{Group, State, add_all, add_fact, empty_state};
use crate::told::told_answers;
use crate::trees::Trees;
use reading_tables::tables::Problem;
use std::alloc::Global;

/// What stands at a node of a refutation that is printed.
#[derive(Clone, Copy)]
pub enum Node {
    /// A question, and how many branches it has; for a case the number of its fact.
    Asks(Question, usize, usize),
    Ends(Leaf),
}

/// A branch that isn't printed yet: the node that closes it, the last answer, and how deep it stands.
#[derive(Clone, Copy)]
struct Branch {
    node: usize,
    answer: Fact,
    depth: usize,
    /// The lemma before which it stands.
    limit: usize,
}

const NO_BRANCH: Branch = Branch {
    node: NONE,
    answer: NO_FACT,
    depth: 0,
    limit: 0,
};

/// How much work it may be to check and print what is found; and how many nodes there may be however great a test is, and however small.
const MOST_CHECKING: usize = 130_000_000;

const FEW_NODES: usize = 20;

const MOST_NODES: usize = 20_000;

/// How many nodes there may be, where each costs as much as all reads have sources, times the number of events.
fn most_nodes(setting: &Setting<'_>) -> usize {
    let mut sources = 0usize;
    for x in 0..setting.locations {
        let writes = setting.writes_to.count(x).wrapping_add(1);
        let all = setting.readers_of.count(x).wrapping_mul(writes);
        sources = sources.wrapping_add(all);
    }
    let cost = sources.wrapping_mul(setting.size);
    (MOST_CHECKING / cost.max(1)).max(FEW_NODES).min(MOST_NODES)
}

/// What is printed: nodes, the events of their cycles; and how often each lemma is used.
#[derive(Drop)]
pub struct Sheet {
    pub nodes: List<Node>,
    pub events: List<usize>,
    pub uses: List<usize>,
    /// Whether a lemma is put where it is used.
    pub is_inside: List<bool>,
    /// Whether questions of what a read reads from are made shorter.
    pub asks_on: bool,
    /// How many nodes there may be.
    pub most: usize,
    open: List<Branch>,
    levels: Vec<State>,
    trial: State,
    answers: List<Fact>,
    before: Leaf,
}

impl Sheet {
    /// Nothing, where there are so many lemmas.
    pub fn new(alloc: Global, setting: &Setting<'_>, count: usize) -> Sheet {
        Sheet {
            nodes: List::new(alloc, 0, Node::Ends(Leaf::Nothing)),
            events: List::new(alloc, 0, NONE),
            uses: List::new(alloc, count, 0),
            is_inside: List::new(alloc, count, false),
            asks_on: false,
            most: most_nodes(setting),
            open: List::new(alloc, 0, NO_BRANCH),
            levels: Vec::new(alloc),
            trial: empty_state(alloc, setting),
            answers: List::new(alloc, 0, NO_FACT),
            before: Leaf::Nothing,
        }
    }

    /// Whether memory was refused.
    pub fn is_refused(&self) -> bool {
        self.nodes.is_refused
            | self.events.is_refused
            | self.uses.is_refused
            | self.is_inside.is_refused
            | self.open.is_refused
            | self.trial.is_refused()
            | self.answers.is_refused
    }
}

/// What is replayed: the tree and its lemmas, and before which lemma the branch in hand stands.
#[derive(Clone, Copy)]
pub struct Source<'a> {
    pub trees: &'a Trees,
    pub lemmas: &'a Lemmas,
    pub limit: usize,
}

/// Where the fact of which a case is asked stands, from the last one on.
fn case_number(state: &State, question: Question) -> usize {
    let Question::HasCase(part, truth) = question else {
        return 0;
    };
    let count = state.facts.len();
    for back in 0..count {
        let fact = state.facts.at(count.wrapping_sub(back).wrapping_sub(1));
        if let Fact::Holds(other, value) = fact {
            if (other == part) & (value == truth) {
                return back;
            }
        }
    }
    NONE
}

/// The answer to a question that the branch which is tried knows; `NO_FACT` where it knows none.
fn known_answer(setting: &Setting<'_>, sheet: &mut Sheet, question: Question) -> Fact {
    sheet.answers.cut(0);
    add_answers(setting, &sheet.trial, question, &mut sheet.answers);
    for i in 0..sheet.answers.len() {
        let answer = sheet.answers.at(i);
        if is_known(setting, &sheet.trial, answer) {
            return answer;
        }
    }
    NO_FACT
}

/// The first question of a tree that needs to be asked: one that shows no lemma, and whose answer is known, doesn't.
fn skip_known(setting: &Setting<'_>, sheet: &mut Sheet, source: Source<'_>, node: usize) -> usize {
    let mut at = node;
    for _question in 0..source.trees.twigs.len() {
        let twig = source.trees.twigs.at(at);
        if (at == NONE) | (twig.lemma != NONE) {
            break;
        }
        let answer = known_answer(setting, sheet, twig.question);
        let below = source.trees.node_for(at, answer);
        if below == NONE {
            break;
        }
        at = below;
    }
    at
}

/// The node that closes a branch that isn't closed at once: the one that is linked, else that of a lemma. Or the lemma itself, where it
/// is printed apart.
fn resolve(
    setting: &Setting<'_>,
    sheet: &mut Sheet,
    source: Source<'_>,
    node: usize,
) -> (usize, usize) {
    let linked = source.trees.twigs.at(node).lemma;
    let lemma = if node == NONE {
        source.lemmas.find(setting, &sheet.trial, source.limit)
    } else {
        linked
    };
    if lemma == NONE {
        return (node, NONE);
    }
    let is_apart = !sheet.is_inside.at(lemma)
        && (lemma < source.limit)
        && source.lemmas.applies(setting, &sheet.trial, lemma);
    let uses = sheet.uses.at(lemma);
    sheet.uses.put(lemma, uses.wrapping_add(1));
    if is_apart {
        (NONE, lemma)
    } else {
        (source.lemmas.lemmas.at(lemma).node, NONE)
    }
}

/// Adds to the branch that is tried that a read doesn't read from sources for which a node is linked, or that can write any value: the first
/// one of them, where the others are more, and `NONE` where there is none, or they are few.
fn leave_out(
    setting: &Setting<'_>,
    sheet: &mut Sheet,
    source: Source<'_>,
    node: usize,
    r: usize,
) -> usize {
    let count = sheet.trial.count_sources(setting, r);
    let mut first = NONE;
    let mut open = 0usize;
    for s in 0..setting.size {
        let fact = Fact::From(r, s, true);
        let is_open = sheet.trial.values.is_any(s) || source.trees.node_for(node, fact) != NONE;
        if is_open && sheet.trial.has(setting, Group::Sources, r, s) {
            open = open.wrapping_add(1);
            first = first.min(s);
            add_fact(setting, &mut sheet.trial, opposite(fact));
        }
    }
    if open.saturating_mul(2) < count {
        first
    } else {
        NONE
    }
}

/// The question of a node of the branch that was kept. Where it asks what a read reads from, and all sources together are closed at once
/// for which no node is linked, it is enough to ask whether the read reads from one of the others, and then from the next one.
fn shorter_question(
    setting: &Setting<'_>,
    sheet: &mut Sheet,
    source: Source<'_>,
    node: usize,
    depth: usize,
) -> Question {
    let twig = source.trees.twigs.at(node);
    let Question::ReadsFrom(r) = twig.question else {
        return twig.question;
    };
    if (twig.lemma != NONE) | !sheet.asks_on {
        return twig.question;
    }
    let s = leave_out(setting, sheet, source, node, r);
    settle(setting, &mut sheet.trial);
    let is_enough = (s != NONE) & sheet.trial.is_closed;
    if let Some(state) = sheet.levels.get(depth) {
        sheet.trial.copy_from(state);
    }
    if is_enough {
        Question::IsSo(Fact::From(r, s, true))
    } else {
        twig.question
    }
}

/// The node that closes the branch of an answer: where the question is a shorter one, its own node asks on where the fact isn't so.
fn node_below(source: Source<'_>, node: usize, question: Question, answer: Fact) -> usize {
    let is_shorter = matches!(question, Question::IsSo(Fact::From(..)))
        && matches!(source.trees.twigs.at(node).question, Question::ReadsFrom(_));
    if is_shorter && matches!(answer, Fact::From(_, _, false)) {
        node
    } else {
        source.trees.node_for(node, answer)
    }
}

/// Prints a question and opens its branches.
fn print_question(
    setting: &Setting<'_>,
    problem: &Problem<'_>,
    sheet: &mut Sheet,
    source: Source<'_>,
    node: usize,
    depth: usize,
) -> bool {
    if !keep_level(setting, &mut sheet.levels, depth, &sheet.trial) {
        sheet.nodes.is_refused = true;
        return false;
    }
    let question = shorter_question(setting, sheet, source, node, depth);
    let number = case_number(&sheet.trial, question);
    let limit = source.limit.min(source.trees.twigs.at(node).lemma);
    sheet.answers.cut(0);
    match question {
        Question::ReadsValue(r) => {
            told_answers(setting, problem, &sheet.trial, r, &mut sheet.answers)
        }
        _ => add_answers(setting, &sheet.trial, question, &mut sheet.answers),
    }
    let count = sheet.answers.len();
    sheet.nodes.push(Node::Asks(question, count, number));
    if number == NONE {
        return false;
    }
    for i in (0..count).rev() {
        let answer = sheet.answers.at(i);
        sheet.open.push(Branch {
            node: node_below(source, node, question, answer),
            answer,
            depth: depth.wrapping_add(1),
            limit,
        });
    }
    true
}

/// Prints the branch that is tried: whether it could be closed.
fn print_branch(
    setting: &Setting<'_>,
    problem: &Problem<'_>,
    sheet: &mut Sheet,
    source: Source<'_>,
    node: usize,
    depth: usize,
) -> bool {
    sheet.trial.is_thorough = true;
    settle(setting, &mut sheet.trial);
    let leaf = find_leaf(setting, &sheet.trial, sheet.before, &mut sheet.events);
    if !matches!(leaf, Leaf::Nothing) {
        sheet.before = leaf;
        sheet.nodes.push(Node::Ends(leaf));
        return true;
    }
    let (below, lemma) = resolve(setting, sheet, source, node);
    if lemma != NONE {
        sheet.nodes.push(Node::Ends(Leaf::ByLemma(lemma)));
        return true;
    }
    let asked = skip_known(setting, sheet, source, below);
    (asked != NONE) && print_question(setting, problem, sheet, source, asked, depth)
}

/// Prints the part of a node, or a leaf where it is `NONE`, where these facts are given: whether it could be closed.
pub fn print_part(
    setting: &Setting<'_>,
    problem: &Problem<'_>,
    hunt: &Hunt,
    sheet: &mut Sheet,
    node: usize,
    facts: &List<Fact>,
    limit: usize,
) -> bool {
    let source = Source {
        trees: &hunt.trees,
        lemmas: &hunt.lemmas,
        limit,
    };
    sheet.open.cut(0);
    sheet.before = Leaf::Nothing;
    sheet.trial.copy_from(&hunt.root);
    add_all(setting, &mut sheet.trial, facts);
    let mut is_printed = print_first(setting, problem, sheet, source, node);
    for _branch in 0..u64::MAX {
        if !is_printed | (sheet.nodes.len() > sheet.most) {
            return false;
        }
        let branch = sheet.open.pop();
        if branch.depth == 0 {
            return true;
        }
        if let Some(state) = sheet.levels.get(branch.depth.wrapping_sub(1)) {
            sheet.trial.copy_from(state);
        }
        add_fact(setting, &mut sheet.trial, branch.answer);
        is_printed = print_branch(
            setting,
            problem,
            sheet,
            Source {
                limit: branch.limit,
                ..source
            },
            branch.node,
            branch.depth,
        );
    }
    false
}

/// Prints the first node of a part, which is a lemma's own.
fn print_first(
    setting: &Setting<'_>,
    problem: &Problem<'_>,
    sheet: &mut Sheet,
    source: Source<'_>,
    node: usize,
) -> bool {
    sheet.trial.is_thorough = true;
    settle(setting, &mut sheet.trial);
    let leaf = find_leaf(setting, &sheet.trial, Leaf::Nothing, &mut sheet.events);
    if !matches!(leaf, Leaf::Nothing) {
        sheet.nodes.push(Node::Ends(leaf));
        return true;
    }
    let asked = skip_known(setting, sheet, source, node);
    (asked != NONE) && print_question(setting, problem, sheet, source, asked, 0)
}
