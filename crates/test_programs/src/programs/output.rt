//! The output of a call.
use crate::programs::counts::Counts;
use std::alloc::Global;
use std::io;
use std::io::{ErrorKind, Write};

/// The most bytes that an output takes at a time.
const PIECE: usize = 1000;

/// An output that takes some bytes in some writes, and fails from then on.
pub(crate) struct Output<'c> {
    /// The number of writes that it still takes.
    writes: usize,
    /// The number of bytes that it still takes.
    room: usize,
    taken: Vec<u8>,
    /// The number of bytes that had been taken at the last flush.
    flushed: usize,
    failures: usize,
    /// How often the disk is asked.
    counts: &'c Counts,
    /// The number of questions before the last failure.
    asked: usize,
}

impl<'c> Drop for Output<'c> {
    fn drop(self) {
        let Output {
            writes: _,
            room: _,
            taken: _,
            flushed: _,
            failures: _,
            counts: _,
            asked: _,
        } = self;
    }
}

impl<'c> Output<'c> {
    /// Returns an output that takes this many bytes in this many writes.
    pub(crate) fn taking(alloc: Global, writes: usize, room: usize, counts: &'c Counts) -> Self {
        Output {
            writes,
            room,
            taken: Vec::new(alloc),
            flushed: 0,
            failures: 0,
            counts,
            asked: 0,
        }
    }

    /// Returns the bytes that it took.
    pub(crate) fn taken(&self) -> &[u8] {
        self.taken.as_slice()
    }

    /// Returns whether it was flushed after its last byte, or failed once.
    pub(crate) fn is_ended(&self) -> bool {
        match self.failures {
            0 => self.flushed == self.taken.len(),
            failures => failures == 1,
        }
    }

    /// Returns whether the disk was asked after the output failed.
    pub(crate) fn is_passed(&self) -> bool {
        self.failures > 0 && self.asked < self.counts.sum()
    }

    /// Fails if it takes nothing more.
    fn ask(&mut self) -> io::Result<()> {
        if self.writes > 0 && self.room > 0 {
            return Ok(());
        }
        self.failures = self.failures.saturating_add(1);
        self.asked = self.counts.sum();
        Err(io::Error::from(ErrorKind::BrokenPipe))
    }
}

impl<'c> Write for Output<'c> {
    fn write(&mut self, buf: &[u8]) -> io::Result<usize> {
        self.ask()?;
        let len = buf.len().min(PIECE).min(self.room);
        self.taken.extend_from_slice(&buf[..len])?;
        self.room -= len;
        self.writes = self.writes.saturating_sub(1);
        Ok(len)
    }

    fn flush(&mut self) -> io::Result<()> {
        self.ask()?;
        self.flushed = self.taken.len();
        Ok(())
    }
}
