//! The bytes of a stream, read in chunks.
ghost use Rattle.kc_session.specs.Input.{read_limit};
ghost use Rattle.std.specs.Prelude.{◌≡◌, ◌⊎◌, ◌+◌, ◌<◌, ◌≤◌, [], ◌++◌, true, false, length, take, IfOk, IfErr, OnErr, OnOk};
ghost use Rattle.std.specs.Io.KnownBytes.{prepend_known, Consumes, IsAtEnd};

use crate::fault::IoFault;
use std::io::Read;
use std::marker::Model;

/// The most reads that are made from one stream.
pub(crate) const READ_LIMIT: u64 = 1 << 63;

/// The bytes that one read may give.
pub(crate) const CHUNK_LENGTH: usize = 4096;

/// The bytes that were read from a stream and not yet taken.
///
/// To contracts it is those bytes, a number that falls with each byte that is taken, and how many reads were made.
#[derive(Drop)]
pub(crate) struct Input {
    chunk: [u8; CHUNK_LENGTH],
    start: usize,
    end: usize,
    reads: u64,
}

impl Model for Input {
    ghost use Rattle.std.specs.Prelude.{◌-◌, ◌≤◌, slice_range};
    ghost use Rattle.kc_session.specs.Input.{Unread, budget_of, chunk_length, read_limit};

    ghost Value = { Unread };

    ghost view = { λ input. record {
      bytes = slice_range input.chunk input.start input.end;
      budget = budget_of input.reads (input.end - input.start);
      reads = input.reads;
    } };

    ghost invariant = { λ input. (input.start ≤ input.end) × (input.end ≤ chunk_length) × (input.reads ≤ read_limit) };
}

impl Input {
    /// An input from which nothing was read yet.
    pub(crate) fn new() -> Self
        ensures { result.bytes ≡ [] }
    {
        Input {
            chunk: [0; CHUNK_LENGTH],
            start: 0,
            end: 0,
            reads: 0,
        }
    }

    /// Whether the stream has a byte more, which is then among the unread ones: the next chunk is read where none is.
    ///
    /// # Errors
    ///
    /// `IoFault::Read` where the next chunk was wanted and could not be read, or would be past the last of 2^63 reads.
    pub(crate) fn fill<R: Read>(&mut self, reader: &mut R) -> Result<bool, IoFault>
        ensures kept { Consumes
            (prepend_known self.old.bytes (R.remaining reader.old))
            (prepend_known self.new.bytes (R.remaining reader.new))
            [] }
        ensures more { IfOk result (λ more. more ≡ true → 0 < length self.new.bytes) }
        ensures end { IfOk result (λ more. more ≡ false → IsAtEnd (prepend_known self.new.bytes (R.remaining reader.new))) }
        ensures used_up { OnErr result (self.new.bytes ≡ []) }
        ensures fault { IfErr result (λ fault. fault ≡ IoFault.Read) }
        ensures budget { self.new.budget ≤ self.old.budget }
    {
        self.refill(reader)?;
        Ok(self.start < self.end)
    }

    /// The bytes that were read and not yet taken.
    pub(crate) fn unread(&self) -> &[u8]
        ensures { result.now ≡ self.now.bytes }
    {
        &self.chunk[self.start..self.end]
    }

    /// Takes the first of the unread bytes, as many as this.
    pub(crate) fn take(&mut self, count: usize)
        requires { count ≤ length self.old.bytes }
        ensures taken { self.old.bytes ≡ take count self.old.bytes ++ self.new.bytes }
        ensures budget { self.new.budget + count ≡ self.old.budget }
    {
        self.start += count;
    }

    // Reads the next chunk where the last one is used up. The error comes after a read, which is counted, or where as
    // many were counted as there may be.
    fn refill<R: Read>(&mut self, reader: &mut R) -> Result<(), IoFault>
        ensures kept { Consumes
            (prepend_known self.old.bytes (R.remaining reader.old))
            (prepend_known self.new.bytes (R.remaining reader.new))
            [] }
        ensures end { OnOk result (self.new.bytes ≡ [] → IsAtEnd (R.remaining reader.new)) }
        ensures used_up { OnErr result (self.new.bytes ≡ []) }
        ensures fault { IfErr result (λ fault. fault ≡ IoFault.Read) }
        ensures budget { self.new.budget ≤ self.old.budget }
        ensures counted { OnErr result ((self.old.reads ≡ read_limit) ⊎ (self.new.reads ≡ self.old.reads + 1)) }
    {
        if self.start < self.end {
            return Ok(());
        }
        if self.reads == READ_LIMIT {
            return Err(IoFault::Read);
        }
        self.reads += 1;
        self.start = 0;
        self.end = 0;
        match reader.read(&mut self.chunk) {
            Ok(count) => {
                self.end = count;
                Ok(())
            }
            Err(_) => Err(IoFault::Read),
        }
    }
}
