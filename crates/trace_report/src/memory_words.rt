//! What a trace as JSON says of memory, and of where a word is found. Each law is the contract of a function that does
//! nothing: who calls it knows it.

ghost use Rattle.trace_report.specs.SupplyLaws.{SourcesAreTold};
ghost use Rattle.trace_report.specs.inner.BusMemory.{ToldMemoryIsTheBuses};

/// Memory's own words, which a trace follows from step to step, are those of the memory on the bus: whatever call of the
/// bus a choice makes, and on each of the protocols.
pub fn told_memory_is_the_buses()
    ensures { ToldMemoryIsTheBuses }
{}

/// Where a word is found, as a trace tells it: the core whose cache is told is the first whose copy supplies the line by the protocol's
/// own table; where memory is told no copy does, and memory's own words are those that are seen; and the bus is told to the core
/// alone that holds it and awaits its line.
pub fn sources_are_told()
    ensures { SourcesAreTold }
{}
