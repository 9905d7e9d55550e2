//! Requests on the bus (GetS to read, GetM to write), and the transient states of a line while its words are under way. On
//! a split bus other accesses go on in that time, so the line needs a state of its own. (Primer, chapter 7.)

/// A core's request for a line, which every other cache sees on the bus.
#[derive(Clone, Copy)]
pub enum Request {
    /// To read the line.
    GetS,
    /// To write the line.
    GetM,
}

/// The state of a line between its core's request and the words' coming in.
///
/// (Primer on Memory Consistency and Cache Coherence, chapter 7.)
#[derive(Clone, Copy)]
pub enum Transient {
    /// There was no copy, and GetS was asked for.
    IsD,
    /// There was no copy, and GetM was asked for.
    ImD,
    /// The copy was in S or O, and GetM was asked for. Its own core may still read it.
    SmD,
}
