//! Tests, of what neither a clause nor a row of the program says: outside vectors, calls that the program doesn't make
//! with ample memory, and inputs and outputs over a device that fails or moves little at a time. A test is proved like any
//! function, and many calls on one value in one function cost minutes: each is in a helper of its own, which promises
//! little, and a test lists the helper's calls.
#![tactic(auto)]

#[cfg(test)]
mod bus;
#[cfg(test)]
mod choices;
#[cfg(test)]
mod named;
#[cfg(test)]
mod orders;
#[cfg(test)]
#[cfg(test)]
mod streams;
#[cfg(test)]
mod tabled;
#[cfg(test)]
mod tally;
