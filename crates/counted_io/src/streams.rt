//! Reading an input. No call is tried again after it failed, and at most one byte more than an input may have is read: that
//! tells one that is too large.

ghost use Rattle.std.specs.Prelude.{◌≡◌, ◌+◌, ◌-◌, ◌^◌, ◌<◌, ◌≤◌, length, IfOk};
ghost use Rattle.std.specs.Io.KnownBytes.{Consumes, IsAtEnd};
ghost use Rattle.counted_io.specs.Limits.{longest_input};
ghost use Rattle.counted_io.specs.Streams.{ConsumesAtMost};
ghost use Rattle.counted_io.specs.inner.Streams.{CountsReadFaults};

use crate::counted::Counted;
use std::alloc::{AllocError, Global};
use std::io::Read;
use thiserror::Error;
use tso_terms::NoMemory;

/// Maximum length of an input, in bytes.
pub const MAX_INPUT: usize = 1_048_576;

/// Maximum number of bytes that are read: one more than an input may have shows that it has too many.
pub const READ_LIMIT: usize = MAX_INPUT + 1;

/// The limit of inputs is the number that the definitions have: a law, with nothing to run.
pub fn limits_are_as_defined()
    ensures input { MAX_INPUT ≡ longest_input }
    ensures read { READ_LIMIT ≡ longest_input + 1 }
{}

/// Why a command came to no answer.
#[derive(Clone, Copy, Debug, PartialEq, Eq, Error)]
pub enum RunFault {
    /// A call of the reader or the writer failed.
    #[error("a device failed")]
    Device,
    /// The allocator refused a growth.
    #[error("out of memory")]
    NoMemory,
}

impl From<AllocError> for RunFault {
    ghost use Rattle.std.specs.Prelude.{◌≡◌};
    ghost use Rattle.counted_io.specs.declared.streams.RunFault.TheVariants as faults;

    ghost from_gives = { λ _ fault. fault ≡ faults.NoMemory };

    fn from(_: AllocError) -> RunFault {
        RunFault::NoMemory
    }
}

impl From<NoMemory> for RunFault {
    ghost use Rattle.std.specs.Prelude.{◌≡◌};
    ghost use Rattle.counted_io.specs.declared.streams.RunFault.TheVariants as faults;

    ghost from_gives = { λ _ fault. fault ≡ faults.NoMemory };

    fn from(_: NoMemory) -> RunFault {
        RunFault::NoMemory
    }
}

/// All bytes of the reader, or so many first ones of them. No call is tried again.
pub fn read_input<R: Read>(
    alloc: Global,
    reader: &mut Counted<R>,
    most: usize,
) -> Result<Vec<u8>, RunFault>
    requires { reader.old.1 < 2 ^ 32 - 1 }

    ensures bytes { IfOk result (λ v. Consumes (R.remaining reader.old.0) (R.remaining reader.new.0) v.items) }
    ensures size { IfOk result (λ v. length v.items ≤ most) }
    ensures end { IfOk result (λ v. length v.items < most → IsAtEnd (R.remaining reader.new.0)) }
    ensures most { ConsumesAtMost (R.remaining reader.old.0) (R.remaining reader.new.0) most }

    ensures faults { CountsReadFaults result reader.old.1 reader.new.1 }
{
    let mut input = Vec::new(alloc);
    let mut chunk = [0u8; 2048];
    while input.len() < most {
        let room = (most - input.len()).min(2048);
        match reader.read(&mut chunk[..room]) {
            Ok(0) => return Ok(input),
            Ok(n) => input.extend_from_slice(&chunk[..n])?,
            Err(_) => return Err(RunFault::Device),
        }
    }
    Ok(input)
}
