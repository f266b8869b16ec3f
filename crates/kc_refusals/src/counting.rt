//! A reader and a writer that count their calls.

use std::io::{self, Read, Write};

/// The most bytes that a read gives.
const PIECE: usize = 7;

/// Gives its bytes in pieces.
#[derive(Drop)]
pub(crate) struct CountingReader<'a> {
    /// What was not read yet.
    pub(crate) rest: &'a [u8],
    /// How many reads were made.
    pub(crate) calls: u64,
}

impl Read for CountingReader<'_> {
    fn read(&mut self, buf: &mut [u8]) -> io::Result<usize> {
        self.calls = self.calls.saturating_add(1);
        let count = PIECE.min(self.rest.len()).min(buf.len());
        let (now, later) = self.rest.split_at(count);
        buf[..count].copy_from_slice(now);
        self.rest = later;
        Ok(count)
    }
}

/// Takes all bytes. With room for them from the start it takes no memory later.
#[derive(Drop)]
pub(crate) struct CountingWriter {
    /// What was written.
    pub(crate) taken: Vec<u8>,
    /// How many writes and flushes were made.
    pub(crate) calls: u64,
}

impl Write for CountingWriter {
    fn write(&mut self, buf: &[u8]) -> io::Result<usize> {
        self.calls = self.calls.saturating_add(1);
        self.taken.extend_from_slice(buf)?;
        Ok(buf.len())
    }

    fn flush(&mut self) -> io::Result<()> {
        self.calls = self.calls.saturating_add(1);
        Ok(())
    }
}
