//! What is shown of executions and of branches of refutations: events, and of a branch its facts, and why it is closed.

use refutation_laws::Relation;
use tso_report::named::Named;
use tso_terms::{Entry, Loc};

/// An event as it is printed: an entry, whose own value doesn't count.
#[derive(Clone, Copy)]
pub struct Event {
    pub entry: Entry,
    /// Its value, where the facts tell it.
    pub value: Option<u32>,
}

/// An edge of a cycle.
#[derive(Clone, Copy)]
pub struct Edge {
    pub source: Event,
    /// The relation that it is of. An edge of a refutation has one.
    pub relation: Option<Relation>,
    pub target: Event,
}

/// A fact, with its events as they are shown.
#[derive(Drop)]
pub enum ShownFact {
    /// The read reads from this write, none being the initial one; or it doesn't.
    From(Event, Option<Event>, bool),
    /// Of two writes to a location the first comes before the second.
    Before(Event, Event),
    /// The write is the last one to its location, or it isn't.
    Last(Event, bool),
    /// The read returns this value, or another one.
    Returns(Event, u32, bool),
    /// What this text says is so at the end.
    Holds(String),
}

/// What a question asks of.
#[derive(Clone, Copy)]
pub enum Subject {
    /// An event.
    OfEvent(Event),
    /// The initial word of a location.
    OfInitial(Loc),
    /// A location.
    OfLocation(Loc),
}

/// A register or a location, and the values that it may have.
pub struct Place {
    pub named: Named,
    pub values: Vec<u32>,
}

// Said by hand, so that who lets it go makes one call, and not one for each part.
impl Drop for Place {
    fn drop(self) {
        let Place {
            values: _values,
            named: _,
        } = self;
    }
}

/// Why a branch is closed.
pub enum Closing {
    /// A cycle of uniproc.
    Uniproc(Vec<Edge>),
    /// A cycle of the model's global relation.
    Cycle(Vec<Edge>),
    /// The second, a write, comes between what the first, a load part, reads from and its store part.
    Between(Event, Event, Event),
    /// A part of what is asked is false by what stands in these places.
    False(Vec<Place>),
    /// A question of this kind has no answer.
    NoAnswer(&'static str, Subject),
    /// The facts of the lemma with this number, from 1, are met.
    ByLemma(usize),
}

// Said by hand, so that who lets it go makes one call, and not one for each part.
impl Drop for Closing {
    fn drop(self) {
        match self {
            Closing::Uniproc(_edges) => {}
            Closing::Cycle(_edges) => {}
            Closing::Between(_, _, _) => {}
            Closing::False(_places) => {}
            Closing::NoAnswer(_, _) => {}
            Closing::ByLemma(_) => {}
        }
    }
}
