//! Readers and writers of bytes in memory, a few bytes a call, with interruptions.

ghost use Rattle.std.specs.Prelude.{◌≤◌, IfOk};

use std::io::{self, ErrorKind, Read, Write};

/// How reads or writes go: each succeeds for at most `most` bytes, after this many interrupted calls.
#[derive(Clone, Copy)]
pub(super) struct Pace {
    most: usize,
    interruptions: usize,
    interrupted: usize,
}

impl Pace {
    pub(super) fn new(most: usize, interruptions: usize) -> Pace {
        Pace {
            most,
            interruptions,
            interrupted: 0,
        }
    }

    /// How many of these bytes the next call reads or writes.
    fn next(&mut self, count: usize) -> io::Result<usize>
        ensures { IfOk result (λ next. next ≤ count) }
    {
        if self.interrupted < self.interruptions {
            self.interrupted += 1;
            return Err(io::Error::from(ErrorKind::Interrupted));
        }
        self.interrupted = 0;
        Ok(count.min(self.most))
    }
}

/// Bytes that are read at this pace.
#[derive(Drop)]
pub(super) struct Source<'a> {
    pub(super) bytes: &'a [u8],
    pub(super) pace: Pace,
}

impl Read for Source<'_> {
    fn read(&mut self, buf: &mut [u8]) -> io::Result<usize> {
        let count = self.pace.next(buf.len())?;
        Read::read(&mut self.bytes, &mut buf[..count])
    }
}

/// Bytes that are written at this pace, at most `room` of them. A write to a full sink writes none.
#[derive(Drop)]
pub(super) struct Sink {
    pub(super) bytes: Vec<u8>,
    pub(super) room: usize,
    pub(super) pace: Pace,
}

impl Write for Sink {
    fn write(&mut self, buf: &[u8]) -> io::Result<usize> {
        let room = self.room.saturating_sub(self.bytes.len());
        let count = self.pace.next(buf.len().min(room))?;
        self.bytes.extend_from_slice(&buf[..count])?;
        Ok(count)
    }

    fn flush(&mut self) -> io::Result<()> {
        Ok(())
    }
}
