//! Streams that count which of their calls failed. By the counts a contract can say that a fault is told exactly where a
//! device had one.

ghost use Rattle.std.specs.Prelude.{◌≡◌, ℕ, ◌-◌, ◌<◌};
ghost use Rattle.std.specs.Io.KnownBytes.{ReadConsumes, WriteAppends, Keeps};
ghost use Rattle.std.specs.Io.{ReadsAtMost, WritesAtMost};
ghost use Rattle.counted_io.specs.inner.Streams.{counts_error, CountsWrite};

use std::io;
use std::io::{Read, Write};
use std::marker::Model;

/// A reader or a writer, and how many of its calls failed: those that answered an error, and each
/// write that took no byte of some. Calls and answers are handed on unchanged. The count stays at
/// its greatest value.
#[derive(Drop)]
pub struct Counted<T> {
    inner: T,
    failures: u32,
}

impl<T> Model for Counted<T> {
    ghost Value = { T × ℕ };

    ghost view = { λ c. (c.inner, c.failures) };
}

impl<T> Counted<T> {
    /// Wraps a reader or a writer none of whose calls has failed so far.
    pub fn new(inner: T) -> Self
        ensures inner { result.0 ≡ inner }
        ensures failures { result.1 ≡ 0 }
    {
        Counted { inner, failures: 0 }
    }

    /// The reader or writer itself.
    pub fn into_inner(self) -> T
        ensures { result ≡ self.0 }
    {
        self.inner
    }

    /// How many calls failed.
    pub fn failures(&self) -> u32
        ensures { result ≡ self.now.1 }
    {
        self.failures
    }
}

impl<R: Read> Read for Counted<R> {
    ghost remaining = { λ c. R.remaining c.0 };

    fn read(&mut self, buf: &mut [u8]) -> io::Result<usize>
        ensures bound { ReadsAtMost result buf.new }
        ensures bytes { ReadConsumes (R.remaining self.old.0) (R.remaining self.new.0) result buf.new }
        ensures failures { self.new.1 ≡ counts_error result self.old.1 }
    {
        let result = self.inner.read(buf);
        if result.is_err() {
            self.failures = self.failures.saturating_add(1);
        }
        result
    }
}

impl<W: Write> Write for Counted<W> {
    ghost contents = { λ c. W.contents c.0 };

    fn write(&mut self, buf: &[u8]) -> io::Result<usize>
        ensures bound { WritesAtMost result buf.now }
        ensures bytes { WriteAppends (W.contents self.old.0) (W.contents self.new.0) result buf.now }
        ensures failures { CountsWrite result buf.now self.old.1 self.new.1 }
    {
        let result = self.inner.write(buf);
        match &result {
            Ok(0) if !buf.is_empty() => self.failures = self.failures.saturating_add(1),
            Ok(_) => {}
            Err(_) => self.failures = self.failures.saturating_add(1),
        }
        result
    }

    fn flush(&mut self) -> io::Result<()>
        ensures bytes { Keeps (W.contents self.old.0) (W.contents self.new.0) }
        ensures failures { self.new.1 ≡ counts_error result self.old.1 }
    {
        let result = self.inner.flush();
        if result.is_err() {
            self.failures = self.failures.saturating_add(1);
        }
        result
    }
}
