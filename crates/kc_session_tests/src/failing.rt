//! Readers and writers that fail at a given call.
ghost use Rattle.std.specs.Prelude.{◌≡◌, IfOk};

use std::alloc::Global;
use std::io::{self, Error, ErrorKind, Read, Write};

/// The number of a call that is never made.
pub(crate) const NEVER: u64 = u64::MAX;

/// How a call fails.
#[derive(Clone, Copy, Debug)]
pub(crate) enum Failure {
    /// It is interrupted.
    Interrupted,
    /// It has another error.
    Other,
    /// A write takes no byte. A read or a flush has an error.
    NoByte,
}

impl Failure {
    /// The error of a read or a flush.
    fn error(self) -> Error {
        match self {
            Failure::Interrupted => Error::from(ErrorKind::Interrupted),
            Failure::Other | Failure::NoByte => Error::from(ErrorKind::Other),
        }
    }

    /// What a write answers.
    fn of_write(self) -> io::Result<usize>
        ensures { IfOk result (λ count. count ≡ 0) }
    {
        match self {
            Failure::Interrupted | Failure::Other => Err(self.error()),
            Failure::NoByte => Ok(0),
        }
    }
}

/// Gives its bytes in pieces, and fails at one call.
#[derive(Drop)]
pub(crate) struct FailingReader<'a> {
    /// What was not read yet.
    rest: &'a [u8],
    /// The most bytes that a call gives.
    piece: usize,
    /// The calls that were made.
    pub(crate) calls: u64,
    /// The number of the call that fails, from 0.
    fails_at: u64,
    /// How it fails.
    failure: Failure,
}

impl<'a> FailingReader<'a> {
    pub(crate) fn new(bytes: &'a [u8], piece: usize, fails_at: u64) -> Self {
        FailingReader {
            rest: bytes,
            piece,
            calls: 0,
            fails_at,
            failure: Failure::Interrupted,
        }
    }

    /// The same with another failure.
    pub(crate) fn with(mut self, failure: Failure) -> Self {
        self.failure = failure;
        self
    }
}

impl Read for FailingReader<'_> {
    fn read(&mut self, buf: &mut [u8]) -> io::Result<usize> {
        let call = self.calls;
        self.calls = call.saturating_add(1);
        if call == self.fails_at {
            return Err(self.failure.error());
        }
        let count = self.piece.min(self.rest.len()).min(buf.len());
        let (now, later) = self.rest.split_at(count);
        buf[..count].copy_from_slice(now);
        self.rest = later;
        Ok(count)
    }
}

/// Takes bytes in pieces, and fails at one write or at one flush.
#[derive(Drop)]
pub(crate) struct FailingWriter {
    /// What was taken.
    pub(crate) taken: Vec<u8>,
    /// The most bytes that a call takes.
    piece: usize,
    /// The writes that were made.
    writes: u64,
    /// The flushes that were made.
    flushes: u64,
    /// The number of the write that fails, from 0.
    write_fails_at: u64,
    /// The number of the flush that fails, from 0.
    flush_fails_at: u64,
    /// How they fail.
    failure: Failure,
}

impl FailingWriter {
    pub(crate) fn new(
        alloc: Global,
        piece: usize,
        write_fails_at: u64,
        flush_fails_at: u64,
    ) -> Self {
        FailingWriter {
            taken: Vec::new(alloc),
            piece,
            writes: 0,
            flushes: 0,
            write_fails_at,
            flush_fails_at,
            failure: Failure::Interrupted,
        }
    }

    /// The same with another failure.
    pub(crate) fn with(mut self, failure: Failure) -> Self {
        self.failure = failure;
        self
    }
}

impl Write for FailingWriter {
    fn write(&mut self, buf: &[u8]) -> io::Result<usize> {
        let call = self.writes;
        self.writes = call.saturating_add(1);
        if call == self.write_fails_at {
            return self.failure.of_write();
        }
        let count = self.piece.min(buf.len());
        self.taken.extend_from_slice(&buf[..count])?;
        Ok(count)
    }

    fn flush(&mut self) -> io::Result<()> {
        let call = self.flushes;
        self.flushes = call.saturating_add(1);
        if call == self.flush_fails_at {
            return Err(self.failure.error());
        }
        Ok(())
    }
}
