//! Inputs and outputs over a device that fails or moves little at a time.

use crate::named::holds;
use std::alloc::Global;
use std::io;
use std::io::{Read, Write};
use std::process::Abort;
use tso_io::{Counted, read_input, write_output};

const INPUT: &[u8] = b"X86 t\n{ }\n P0 ;\n MFENCE ;\n";

const REPORT: &[u8] = b"Test t\nMachine msi depth=4 sets=1 ways=2 words=1\n";

/// A device that gives these bytes, or takes these alone. Each call moves at most so many; at `None` it fails. It would work
/// after the last of them, so a call that comes again shows.
#[derive(Clone, Copy)]
struct Device {
    left: &'static [u8],
    calls: &'static [Option<usize>],
}

impl Device {
    /// How many bytes the next call moves at most.
    fn next(&mut self) -> Option<usize> {
        match self.calls.split_first() {
            Some((first, later)) => {
                self.calls = later;
                *first
            }
            None => Some(self.left.len()),
        }
    }
}

impl Read for Device {
    fn read(&mut self, buf: &mut [u8]) -> io::Result<usize> {
        match self.next() {
            Some(most) => {
                let n = most.min(buf.len());
                self.left.read(&mut buf[..n])
            }
            None => Err(io::Error::from(io::ErrorKind::Other)),
        }
    }
}

impl Write for Device {
    fn write(&mut self, buf: &[u8]) -> io::Result<usize> {
        match self.next() {
            Some(most) if buf == self.left => {
                let n = most.min(buf.len());
                self.left = &self.left[n..];
                Ok(n)
            }
            _ => Err(io::Error::from(io::ErrorKind::Other)),
        }
    }

    fn flush(&mut self) -> io::Result<()> {
        Err(io::Error::from(io::ErrorKind::Other))
    }
}

/// Whether so many calls failed, none is still to come, and so many bytes are left.
fn ended(device: Counted<Device>, failures: u32, left: usize) -> bool {
    let failed = device.failures();
    let device = device.into_inner();
    failed == failures && device.calls.is_empty() && device.left.len() == left
}

/// Reads the input from a device with these calls: all of it, unless one fails.
fn is_read(
    rt: &impl Abort,
    alloc: Global,
    calls: &'static [Option<usize>],
    failures: u32,
    left: usize,
) {
    let mut reader = Counted::new(Device { left: INPUT, calls });
    match read_input(alloc, &mut reader, 100) {
        Ok(bytes) => holds(rt, failures == 0 && bytes.as_slice() == INPUT),
        Err(_) => holds(rt, failures == 1),
    }
    holds(rt, ended(reader, failures, left));
}

/// A reader's fault is told, and one byte a call is enough.
#[test]
fn an_input_is_read_once(rt: HostRuntime) {
    let alloc = rt.alloc();
    is_read(&rt, alloc, &[Some(10), None], 1, INPUT.len() - 10);
    is_read(&rt, alloc, &[Some(1); 27], 0, 0);
}

/// Writes the report to a device with these calls: all of it, unless one fails or takes none.
fn is_written(rt: &impl Abort, calls: &'static [Option<usize>], failures: u32, left: usize) {
    let mut writer = Counted::new(Device {
        left: REPORT,
        calls,
    });
    let written = write_output(&mut writer, REPORT);
    holds(rt, written.is_ok() == (failures == 0));
    holds(rt, ended(writer, failures, left));
}

/// A writer's fault leaves a beginning, a write of no byte is a fault, and one byte a call is enough.
#[test]
fn a_report_is_written_once(rt: HostRuntime) {
    is_written(&rt, &[Some(10), None], 1, REPORT.len() - 10);
    is_written(&rt, &[Some(0)], 1, REPORT.len());
    is_written(&rt, &[Some(1); 49], 0, 0);
}
