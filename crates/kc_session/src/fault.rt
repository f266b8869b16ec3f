//! Why the serving of a command stream ended early.

/// Why a stream of commands was not served to its end.
///
/// None of these is an answer to a command: a command that is refused has a reply, and the stream goes on.
#[derive(Clone, Copy, PartialEq, Eq, Debug)]
pub enum IoFault {
    /// A read failed, or 2^63 reads were made. A read that was interrupted counts as failed.
    Read,
    /// A write or a flush failed, or a write took no byte. A write that was interrupted counts as failed.
    Write,
    /// The line buffer was refused its memory. Nothing was read or written before.
    Memory,
}
