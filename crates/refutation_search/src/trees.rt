//! The tree of a refutation while it grows: questions, and for each answer whose branch isn't closed at once the node that closes it.

use crate::facts::{Fact, NO_FACT, Question, same_fact};
use crate::lists::{List, NONE};
use std::alloc::Global;

/// A question with its branches.
#[derive(Clone, Copy)]
pub struct Twig {
    pub question: Question,
    /// Its last link.
    pub link: usize,
    /// The lemma that it shows.
    pub lemma: usize,
}

/// An answer, and the node that closes its branch.
#[derive(Clone, Copy)]
pub struct Link {
    pub answer: Fact,
    pub node: usize,
    pub beside: usize,
}

const NO_TWIG: Twig = Twig {
    question: Question::Nothing,
    link: NONE,
    lemma: NONE,
};

const NO_LINK: Link = Link {
    answer: NO_FACT,
    node: NONE,
    beside: NONE,
};

/// Questions and links.
#[derive(Drop)]
pub struct Trees {
    pub twigs: List<Twig>,
    pub links: List<Link>,
}

impl Trees {
    /// No nodes.
    pub fn none(alloc: Global) -> Trees {
        Trees {
            twigs: List::new(alloc, 0, NO_TWIG),
            links: List::new(alloc, 0, NO_LINK),
        }
    }

    /// Whether memory was refused.
    pub fn is_refused(&self) -> bool {
        self.twigs.is_refused | self.links.is_refused
    }

    /// Adds a question with no links yet.
    pub fn add_question(&mut self, question: Question) -> usize {
        let node = self.twigs.len();
        self.twigs.push(Twig {
            question,
            ..NO_TWIG
        });
        node
    }

    /// Links the node that closes the branch of an answer.
    pub fn add_link(&mut self, node: usize, answer: Fact, below: usize) {
        let twig = self.twigs.at(node);
        let link = self.links.len();
        self.links.push(Link {
            answer,
            node: below,
            beside: twig.link,
        });
        self.twigs.put(node, Twig { link, ..twig });
    }

    /// The node that closes the branch of an answer, and `NONE` where none is linked.
    pub fn node_for(&self, node: usize, answer: Fact) -> usize {
        let mut number = self.twigs.at(node).link;
        for _link in 0..self.links.len() {
            let link = self.links.at(number);
            if (number == NONE) || same_fact(link.answer, answer) {
                return link.node;
            }
            number = link.beside;
        }
        NONE
    }
}
