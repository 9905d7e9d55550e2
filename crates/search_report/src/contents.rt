//! What a line or a reading shows: each thing once, for lines of text and for JSON objects.

use crate::shown::{Edge, Event, Place};

/// What a line has behind the words before it, and an object under a key.
#[derive(Clone, Copy)]
pub enum Content<'a> {
    /// A word, as a line has it and as an object has it.
    Word(&'a str, &'a str),
    /// How deep a step stands: so many blanks in a line.
    Depth(usize),
    /// An event.
    Event(&'a Event),
    /// What a read reads from; none is the initial write.
    Source(&'a Option<Event>),
    /// The edges of a cycle.
    Cycle(&'a [Edge]),
    /// Places, with what is there.
    Places(&'a [Place]),
}

/// What comes before it in a line, its key in an object, and what is shown.
pub type Field<'a> = (&'a str, &'a str, Content<'a>);
