//! Writing an answer. No call is tried again after it failed.

ghost use Rattle.std.specs.Prelude.{◌≡◌, ◌-◌, ◌^◌, ◌<◌, OnOk};
ghost use Rattle.std.specs.Io.KnownBytes.{Appends};
ghost use Rattle.tso_io.specs.Streams.{AppendsBeginning};
ghost use Rattle.tso_io.specs.inner.Streams.{CountsWriteFaults};

use counted_io::{Counted, RunFault};
use std::io::Write;

/// Writes these bytes once. No call is tried again.
pub fn write_output<W: Write>(writer: &mut Counted<W>, bytes: &[u8]) -> Result<(), RunFault>
    requires { writer.old.1 < 2 ^ 32 - 1 }

    ensures ok { OnOk result (Appends (W.contents writer.old.0) (W.contents writer.new.0) bytes.now) }
    ensures beginning { AppendsBeginning (W.contents writer.old.0) (W.contents writer.new.0) bytes.now }

    ensures faults { CountsWriteFaults result writer.old.1 writer.new.1 }
{
    let mut at = 0;
    while at < bytes.len() {
        match writer.write(&bytes[at..]) {
            Ok(0) => return Err(RunFault::Device),
            Ok(n) => at += n,
            Err(_) => return Err(RunFault::Device),
        }
    }
    Ok(())
}
