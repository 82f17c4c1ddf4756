//! A reader and a writer for tests. At each call they move as many bytes as a list says, over and
//! over. They misbehave at one call, would continue after it, and count their calls.

ghost use Rattle.std.specs.Prelude.{◌≤◌, IfOk};

use std::alloc::Global;
use std::io::{self, Error, ErrorKind, Read, Write};

/// What a reader or a writer does in the one call in which it does not move bytes as its list says.
#[derive(Clone, Copy)]
pub enum Oddity {
    Fails,
    IsInterrupted,
    /// The call succeeds, and moves nothing.
    MovesNothing,
}

/// How a reader or a writer behaves at its calls, which are counted from 1.
#[derive(Clone, Copy)]
pub struct Manner<'a> {
    /// The most bytes that it moves, call by call, over and over. With an empty list it moves all.
    pub sizes: &'a [usize],
    /// The call in which it misbehaves, or 0 for none.
    pub odd_at: usize,
    /// What it does at that call.
    pub oddity: Oddity,
}

impl<'a> Manner<'a> {
    /// Returns how many of `offered` bytes a call moves.
    fn moved(&self, call: usize, offered: usize) -> io::Result<usize>
        ensures { IfOk result (λ n. n ≤ offered) }
    {
        if call == self.odd_at {
            return match self.oddity {
                Oddity::Fails => Err(Error::from(ErrorKind::Other)),
                Oddity::IsInterrupted => Err(Error::from(ErrorKind::Interrupted)),
                Oddity::MovesNothing => Ok(0),
            };
        }
        let Some(at) = call.wrapping_sub(1).checked_rem(self.sizes.len()) else {
            return Ok(offered);
        };
        let most = self.sizes.get(at).copied().unwrap_or(offered);
        Ok(most.min(offered))
    }
}

/// A reader of bytes.
#[derive(Drop)]
pub struct Giver<'a> {
    manner: Manner<'a>,
    /// The remaining bytes.
    pub left: &'a [u8],
    /// The number of bytes that the last read returned.
    pub last: usize,
    /// The number of reads.
    pub calls: usize,
}

impl<'a> Giver<'a> {
    /// Returns a reader of these bytes with this behavior, before its first call.
    pub fn new(bytes: &'a [u8], manner: Manner<'a>) -> Giver<'a> {
        Giver {
            manner,
            left: bytes,
            last: 0,
            calls: 0,
        }
    }
}

impl<'a> Read for Giver<'a> {
    fn read(&mut self, buf: &mut [u8]) -> io::Result<usize> {
        self.calls = self.calls.saturating_add(1);
        let offered = self.left.len().min(buf.len());
        let count = self.manner.moved(self.calls, offered)?;
        let (given, left) = self.left.split_at(count);
        buf[..count].copy_from_slice(given);
        self.left = left;
        self.last = count;
        Ok(count)
    }
}

/// A writer that stores what is written. A flush is one of its calls.
#[derive(Drop)]
pub struct Taker<'a> {
    manner: Manner<'a>,
    /// The bytes written.
    pub taken: Vec<u8>,
    /// The number of writes and flushes.
    pub calls: usize,
    /// The number of flushes.
    pub flushes: usize,
}

impl<'a> Taker<'a> {
    /// Returns a writer with this behavior, in memory of the allocator, before its first call.
    pub fn new(alloc: Global, manner: Manner<'a>) -> Taker<'a> {
        Taker {
            manner,
            taken: Vec::new(alloc),
            calls: 0,
            flushes: 0,
        }
    }
}

impl<'a> Write for Taker<'a> {
    fn write(&mut self, buf: &[u8]) -> io::Result<usize> {
        self.calls = self.calls.saturating_add(1);
        let count = self.manner.moved(self.calls, buf.len())?;
        self.taken.extend_from_slice(&buf[..count])?;
        Ok(count)
    }

    fn flush(&mut self) -> io::Result<()> {
        self.calls = self.calls.saturating_add(1);
        self.flushes = self.flushes.saturating_add(1);
        self.manner.moved(self.calls, 0)?;
        Ok(())
    }
}
