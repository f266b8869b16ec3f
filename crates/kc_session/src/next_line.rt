//! The next line of a command stream.
ghost use Rattle.std.specs.Prelude.{◌≡◌, ◌<◌, ◌≤◌, [], IfOk, IfErr, OnErr, IsTrue};
ghost use Rattle.std.specs.Io.KnownBytes.{prepend_known};
ghost use Rattle.kc_session.specs.NextLine.{TakesLine, StopsInLine, is_line};

use crate::body::line_len;
use crate::fault::IoFault;
use crate::input::Input;
use crate::line::LineBuffer;
use std::io::Read;

/// What `read_line` found where the stream stood.
#[derive(Clone, Copy, PartialEq, Eq)]
pub(crate) enum LineRead {
    /// A line with its line feed, after which more may come.
    Ended,
    /// The last line, which has no line feed. Nothing more is to be read.
    Unended,
    /// No line, since the stream has ended. Nothing more is to be read.
    Nothing,
}

/// Reads the next line of the stream into `line`, as a whole also where it is too long to be kept.
///
/// A line goes up to its line feed, or to the end of the stream. An empty rest after the last line feed is no line.
/// After an answer other than `LineRead::Ended` a read gave no byte, and the caller is not to read on: a reader such
/// as a terminal could give more.
///
/// # Errors
///
/// `IoFault::Read` where a read failed, or would be past the last of 2^63 reads. The bytes that were taken then are a
/// beginning of a line, without a line feed, and no byte that the reader gave is left in `input`.
pub(crate) fn read_line<R: Read>(
    reader: &mut R,
    input: &mut Input,
    line: &mut LineBuffer,
) -> Result<LineRead, IoFault>
    ensures ok { IfOk result (λ found. TakesLine found
        (prepend_known input.old.bytes (R.remaining reader.old))
        (prepend_known input.new.bytes (R.remaining reader.new))
        line.new) }
    ensures err { OnErr result (StopsInLine
        (prepend_known input.old.bytes (R.remaining reader.old))
        (prepend_known input.new.bytes (R.remaining reader.new))) }
    ensures used_up { OnErr result (input.new.bytes ≡ []) }
    ensures fault { IfErr result (λ fault. fault ≡ IoFault.Read) }
    ensures budget { input.new.budget ≤ input.old.budget }
    ensures progress { IfOk result (λ found. IsTrue (is_line found) → input.new.budget < input.old.budget) }
{
    line.clear();
    while input.fill(reader)? {
        let unread = input.unread();
        let len = line_len(unread);
        if len < unread.len() {
            line.push(&unread[..len + 1]);
            input.take(len + 1);
            return Ok(LineRead::Ended);
        }
        line.push(unread);
        input.take(len);
    }
    if line.is_empty() {
        Ok(LineRead::Nothing)
    } else {
        Ok(LineRead::Unended)
    }
}
