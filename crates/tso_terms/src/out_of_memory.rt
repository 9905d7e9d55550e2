//! The error of a call whose growth the allocator refused. It has a type of its own, so that a call that can fail in no
//! other way says so by its signature.

use std::alloc::{AllocError, AllocFailed};
use std::error::Error;
use std::fmt;

/// The allocator refused a growth. It is answered for no other reason.
#[derive(Clone, Copy, Debug, PartialEq, Eq)]
pub struct NoMemory;

impl fmt::Display for NoMemory {
    fn fmt<W: fmt::Write>(&self, f: &mut fmt::Formatter<W>) -> fmt::Result {
        f.write_str("out of memory")
    }
}

impl Error for NoMemory {}

impl From<AllocError> for NoMemory {
    fn from(_: AllocError) -> NoMemory {
        NoMemory
    }
}

impl<T: Drop> From<AllocFailed<T>> for NoMemory {
    fn from(_: AllocFailed<T>) -> NoMemory {
        NoMemory
    }
}
