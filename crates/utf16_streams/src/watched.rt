//! Readers and writers whose I/O errors are counted.

ghost use Rattle.std.specs.Prelude.{◌≡◌, ◌<◌, ◌≤◌, Some, IfOk, OnErr, OnOk, codes, length};
ghost use Rattle.std.specs.Io.KnownBytes.{Appends, Keeps, ReadConsumes, WriteAppends};
ghost use Rattle.utf16_streams.specs.Filter.{AppendsPrefix};
ghost use Rattle.utf16_streams.specs.Watched.{Counts, CountsFaults, watched_faults, watched_inner};

use std::error::Error;
use std::fmt;
use std::io::{Read, Write};

/// An I/O error: a read, a write or a flush that failed.
#[derive(Clone, Copy, Debug, PartialEq, Eq)]
pub struct DeviceFault;

impl fmt::Display for DeviceFault {
    ghost output = { λ _. Some (codes "I/O error of the inner reader or writer") };

    // Width, fill and precision are ignored.
    ghost styled_output = { λ _ _. Some (codes "I/O error of the inner reader or writer") };

    fn fmt<W: fmt::Write>(&self, f: &mut fmt::Formatter<W>) -> fmt::Result {
        f.write_str("I/O error of the inner reader or writer")
    }
}

impl Error for DeviceFault {}

/// A reader or a writer, and a count of its I/O errors, which stops at `u64::MAX`. Each call except
/// `write_all` uses the reader or writer once.
#[derive(Drop)]
pub struct Watched<T> {
    inner: T,
    faults: u64,
}

impl<T> Watched<T> {
    /// Wraps a reader or a writer. The error count is 0.
    #[inline]
    pub fn new(inner: T) -> Self
        ensures inner { watched_inner result ≡ inner }
        ensures faults { watched_faults result ≡ 0 }
    {
        Watched { inner, faults: 0 }
    }

    /// Returns a reference to the reader or the writer.
    #[inline]
    pub fn inner(&self) -> &T
        ensures { result.now ≡ watched_inner self.now }
    {
        &self.inner
    }

    /// Returns the reader or the writer.
    #[inline]
    pub fn into_inner(self) -> T
        ensures { result ≡ watched_inner self }
    {
        let Watched { inner, faults: _ } = self;
        inner
    }

    /// Returns the number of its I/O errors.
    #[inline]
    pub fn faults(&self) -> u64
        ensures { result ≡ watched_faults self.now }
    {
        self.faults
    }

    // Counts an I/O error.
    #[inline]
    fn fault(&mut self) -> DeviceFault
        ensures inner { watched_inner self.new ≡ watched_inner self.old }
        ensures faults { Counts self.old self.new 1 }
    {
        self.faults = self.faults.saturating_add(1);
        DeviceFault
    }
}

impl<R: Read> Watched<R> {
    /// Reads once, into the start of a buffer, and returns the number of bytes read. It is 0 only
    /// at the end of input or for an empty buffer.
    ///
    /// # Errors
    ///
    /// If the reader fails; an interrupted call is also an error. The error count goes up by one.
    pub fn read(&mut self, buf: &mut [u8]) -> Result<usize, DeviceFault>
        ensures within { IfOk result (λ n. n ≤ length buf.new) }
        ensures transfers { ReadConsumes (R.remaining (watched_inner self.old))
            (R.remaining (watched_inner self.new)) result buf.new }
        ensures faults { CountsFaults self.old self.new result }
    {
        match self.inner.read(buf) {
            Ok(count) => Ok(count),
            Err(_) => Err(self.fault()),
        }
    }
}

impl<W: Write> Watched<W> {
    /// Writes once, from the start of the bytes, and returns the number of bytes written. It is at
    /// least one if there are any bytes.
    ///
    /// # Errors
    ///
    /// If the writer fails or writes none of the bytes; an interrupted call is also an error. The
    /// error count goes up by one.
    pub fn write(&mut self, buf: &[u8]) -> Result<usize, DeviceFault>
        ensures within { IfOk result (λ n. n ≤ length buf.now) }
        ensures advances { 0 < length buf.now → IfOk result (λ n. 0 < n) }
        ensures transfers { WriteAppends (W.contents (watched_inner self.old))
            (W.contents (watched_inner self.new)) result buf.now }
        ensures faults { CountsFaults self.old self.new result }
    {
        match self.inner.write(buf) {
            Ok(0) if !buf.is_empty() => Err(self.fault()),
            Ok(count) => Ok(count),
            Err(_) => Err(self.fault()),
        }
    }

    /// Writes all of the bytes, by as many calls of `write` as it takes.
    ///
    /// # Errors
    ///
    /// If a write fails; the writer is not called again after that. A prefix of the bytes is
    /// written.
    pub fn write_all(&mut self, bytes: &[u8]) -> Result<(), DeviceFault>
        ensures appended { OnOk result (Appends (W.contents (watched_inner self.old))
            (W.contents (watched_inner self.new)) bytes.now) }
        ensures err { OnErr result (AppendsPrefix (W.contents (watched_inner self.old))
            (W.contents (watched_inner self.new)) bytes.now) }
        ensures faults { CountsFaults self.old self.new result }
    {
        let mut written = 0;
        while written < bytes.len() {
            written += self.write(&bytes[written..])?;
        }
        Ok(())
    }

    /// Flushes once.
    ///
    /// # Errors
    ///
    /// If the writer fails; an interrupted call is also an error. The error count goes up by one.
    pub fn flush(&mut self) -> Result<(), DeviceFault>
        ensures transfers { Keeps (W.contents (watched_inner self.old))
            (W.contents (watched_inner self.new)) }
        ensures faults { CountsFaults self.old self.new result }
    {
        match self.inner.flush() {
            Ok(()) => Ok(()),
            Err(_) => Err(self.fault()),
        }
    }
}
