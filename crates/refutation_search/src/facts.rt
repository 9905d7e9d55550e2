//! Facts, answers and questions by number: events, reads, writes and parts of what is asked.

use crate::lists::NONE;

/// A fact, by the numbers of its events or of its part of what is asked.
#[derive(Clone, Copy)]
pub enum Fact {
    /// The read reads from this write, or doesn't.
    From(usize, usize, bool),
    /// Of two writes to a location the first comes before the second.
    Before(usize, usize),
    /// The write is the last one to its location, or it isn't.
    Last(usize, bool),
    /// The read returns this value, or another one.
    Returns(usize, u32, bool),
    /// This part of what is asked is true at the end, or false.
    Holds(usize, bool),
    /// All that it gives that this part of what is asked is true, or false. It stands for several facts.
    Given(usize, bool),
}

/// What stands where there is no fact.
pub const NO_FACT: Fact = Fact::Given(NONE, false);

/// Whether both are one fact.
pub fn same_fact(a: Fact, b: Fact) -> bool {
    match (a, b) {
        (Fact::From(r, s, truth), Fact::From(q, t, other)) => {
            (r == q) & (s == t) & (truth == other)
        }
        (Fact::Before(w, v), Fact::Before(x, y)) => (w == x) & (v == y),
        (Fact::Last(w, truth), Fact::Last(v, other)) => (w == v) & (truth == other),
        (Fact::Returns(r, value, truth), Fact::Returns(q, number, other)) => {
            (r == q) & (value == number) & (truth == other)
        }
        (Fact::Holds(i, truth), Fact::Holds(j, other)) => (i == j) & (truth == other),
        (Fact::Given(i, truth), Fact::Given(j, other)) => (i == j) & (truth == other),
        _ => false,
    }
}

/// What is so where the fact isn't.
pub fn opposite(fact: Fact) -> Fact {
    match fact {
        Fact::From(r, s, truth) => Fact::From(r, s, !truth),
        Fact::Before(w, v) => Fact::Before(v, w),
        Fact::Last(w, truth) => Fact::Last(w, !truth),
        Fact::Returns(r, value, truth) => Fact::Returns(r, value, !truth),
        Fact::Holds(part, truth) => Fact::Holds(part, !truth),
        Fact::Given(part, truth) => Fact::Given(part, !truth),
    }
}

/// A question.
#[derive(Clone, Copy)]
pub enum Question {
    /// What does this read read from?
    ReadsFrom(usize),
    /// What does this read return?
    ReadsValue(usize),
    /// Which of two writes comes first?
    ComesFirst(usize, usize),
    /// Which load part reads from this source of the location, or is it the last write?
    IsReadBy(usize, usize),
    /// Which write to this location is the last?
    ComesLast(usize),
    /// Which case of this part of what is asked, which is true or false, is met?
    HasCase(usize, bool),
    /// Is this fact so, or its opposite?
    IsSo(Fact),
    /// None.
    Nothing,
}

/// Whether both are one question.
pub fn same_question(a: Question, b: Question) -> bool {
    match (a, b) {
        (Question::ReadsFrom(r), Question::ReadsFrom(q)) => r == q,
        (Question::ReadsValue(r), Question::ReadsValue(q)) => r == q,
        (Question::ComesFirst(w, v), Question::ComesFirst(x, y)) => (w == x) & (v == y),
        (Question::IsReadBy(x, s), Question::IsReadBy(y, t)) => (x == y) & (s == t),
        (Question::ComesLast(x), Question::ComesLast(y)) => x == y,
        (Question::HasCase(i, truth), Question::HasCase(j, other)) => (i == j) & (truth == other),
        (Question::IsSo(fact), Question::IsSo(other)) => same_fact(fact, other),
        _ => false,
    }
}
