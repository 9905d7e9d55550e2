//! What is asked of the final state, as a list of parts: each stands before the parts that it is made of, the first one right behind it.

use crate::facts::Fact;
use crate::lists::{List, NONE};
use crate::makings::Term;
use crate::setting::{NAMED, Setting};
use reading_tables::tables::Problem;
use tso_terms::Prop;

/// What a part says.
#[derive(Clone, Copy)]
pub enum PartKind {
    Truth(bool),
    /// A register has this value at the end.
    Register(Term, u32),
    /// A location has this value at the end.
    Word(usize, u32),
    /// The next part isn't so.
    Not,
    /// The next part is so, and the second one.
    Both,
    /// The next part is so, or the second one.
    Either,
}

/// A part of what is asked.
#[derive(Clone, Copy)]
pub struct Part<'t> {
    pub prop: Option<&'t Prop>,
    pub kind: PartKind,
    /// The second part that it is made of.
    pub second: usize,
}

/// What stands where there is no part.
pub const NO_PART: Part<'static> = Part {
    prop: None,
    kind: PartKind::Truth(true),
    second: NONE,
};

fn push_part<'t>(setting: &mut Setting<'t>, prop: &'t Prop, kind: PartKind) -> usize {
    let place = setting.parts.len();
    setting.parts.push(Part {
        prop: Some(prop),
        kind,
        second: NONE,
    });
    place
}

/// Adds a proposition's parts.
pub fn add_parts<'t>(setting: &mut Setting<'t>, problem: &Problem<'t>, prop: &'t Prop) {
    match prop {
        Prop::Truth(value) => {
            push_part(setting, prop, PartKind::Truth(*value));
        }
        Prop::RegIs(core, reg, value) => {
            let term = setting.register_left(problem, *core, *reg);
            push_part(setting, prop, PartKind::Register(term, *value));
        }
        Prop::LocIs(loc, value) => {
            let location = usize::from(loc.0);
            setting.sets.add(NAMED, location);
            push_part(setting, prop, PartKind::Word(location, *value));
        }
        Prop::Not(inner) => {
            push_part(setting, prop, PartKind::Not);
            add_parts(setting, problem, inner);
        }
        Prop::And(left, right) | Prop::Or(left, right) => {
            let kind = if matches!(prop, Prop::And(..)) {
                PartKind::Both
            } else {
                PartKind::Either
            };
            let place = push_part(setting, prop, kind);
            add_parts(setting, problem, left);
            let second = setting.parts.len();
            add_parts(setting, problem, right);
            let part = setting.parts.at(place);
            setting.parts.put(place, Part { second, ..part });
        }
    }
}

/// A part, and its truth.
#[derive(Clone, Copy)]
pub struct Claim {
    pub part: usize,
    pub truth: bool,
}

/// What stands where there is no claim.
pub const NO_CLAIM: Claim = Claim {
    part: NONE,
    truth: false,
};

/// Adds both parts that a part is made of, with this truth, the first one last.
fn open_both(open: &mut List<Claim>, claim: Claim, second: usize) {
    let truth = claim.truth;
    open.push(Claim {
        part: second,
        truth,
    });
    open.push(Claim {
        part: claim.part.wrapping_add(1),
        truth,
    });
}

/// Adds the facts that it gives that a part is so, or isn't.
pub fn add_given(setting: &Setting<'_>, facts: &mut List<Fact>, part: usize, truth: bool) {
    let mut open = List::new(setting.alloc, 0, NO_CLAIM);
    open.push(Claim { part, truth });
    for _step in 0..setting.parts.len() {
        let claim = open.pop();
        if claim.part == NONE {
            break;
        }
        let part = setting.parts.at(claim.part);
        match part.kind {
            PartKind::Not => open.push(Claim {
                part: claim.part.wrapping_add(1),
                truth: !claim.truth,
            }),
            PartKind::Both if claim.truth => open_both(&mut open, claim, part.second),
            PartKind::Either if !claim.truth => open_both(&mut open, claim, part.second),
            PartKind::Register(term, value) => {
                facts.push(Fact::Holds(claim.part, claim.truth));
                if let Term::Returned(r) = term {
                    facts.push(Fact::Returns(r, value, claim.truth));
                }
            }
            _ => facts.push(Fact::Holds(claim.part, claim.truth)),
        }
    }
    facts.is_refused |= open.is_refused;
}

/// Adds the cases in which a part is so, or isn't.
pub fn add_cases(setting: &Setting<'_>, cases: &mut List<Fact>, part: usize, truth: bool) {
    let mut open = List::new(setting.alloc, 0, NO_CLAIM);
    open.push(Claim { part, truth });
    for _step in 0..setting.parts.len() {
        let claim = open.pop();
        if claim.part == NONE {
            break;
        }
        let part = setting.parts.at(claim.part);
        match part.kind {
            PartKind::Not => open.push(Claim {
                part: claim.part.wrapping_add(1),
                truth: !claim.truth,
            }),
            PartKind::Either if claim.truth => open_both(&mut open, claim, part.second),
            PartKind::Both if !claim.truth => open_both(&mut open, claim, part.second),
            _ => cases.push(Fact::Given(claim.part, claim.truth)),
        }
    }
    cases.is_refused |= open.is_refused;
}
