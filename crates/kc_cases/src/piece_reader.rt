//! A stream that comes in pieces.

use std::io::{self, Read};

/// Gives its bytes in pieces.
#[derive(Drop)]
pub(crate) struct PieceReader<'a> {
    /// What was not read yet.
    rest: &'a [u8],
    /// The most bytes that a call gives.
    piece: usize,
}

impl<'a> PieceReader<'a> {
    pub(crate) fn new(bytes: &'a [u8], piece: usize) -> PieceReader<'a> {
        PieceReader { rest: bytes, piece }
    }
}

impl Read for PieceReader<'_> {
    fn read(&mut self, buf: &mut [u8]) -> io::Result<usize> {
        let count = self.piece.min(self.rest.len()).min(buf.len());
        let (now, later) = self.rest.split_at(count);
        buf[..count].copy_from_slice(now);
        self.rest = later;
        Ok(count)
    }
}
