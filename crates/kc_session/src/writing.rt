//! The writing of one reply.
ghost use Rattle.std.specs.Prelude.{◌≡◌, OnOk, OnErr, IfErr};
ghost use Rattle.std.specs.Io.KnownBytes.{Appends};
ghost use Rattle.kc_session.specs.Output.{WritesPart};

use crate::fault::IoFault;
use std::io::Write;

/// Writes all the bytes, however many a write takes, and flushes the writer.
///
/// # Errors
///
/// `IoFault::Write` where a write or the flush failed, or a write took no byte. The writer has taken a beginning of
/// the bytes then, all of them where the flush failed. A write that was interrupted is not tried again.
pub(crate) fn write_all_of<W: Write>(writer: &mut W, bytes: &[u8]) -> Result<(), IoFault>
    ensures ok { OnOk result (Appends (W.contents writer.old) (W.contents writer.new) bytes.now) }
    ensures err { OnErr result (WritesPart (W.contents writer.old) (W.contents writer.new) bytes.now) }
    ensures fault { IfErr result (λ fault. fault ≡ IoFault.Write) }
{
    append_all(writer, bytes)?;
    match writer.flush() {
        Ok(()) => Ok(()),
        Err(_) => Err(IoFault::Write),
    }
}

/// Writes all the bytes, and does not flush.
pub(crate) fn append_all<W: Write>(writer: &mut W, bytes: &[u8]) -> Result<(), IoFault>
    ensures ok { OnOk result (Appends (W.contents writer.old) (W.contents writer.new) bytes.now) }
    ensures err { OnErr result (WritesPart (W.contents writer.old) (W.contents writer.new) bytes.now) }
    ensures fault { IfErr result (λ fault. fault ≡ IoFault.Write) }
{
    let mut rest = bytes;
    while !rest.is_empty() {
        match writer.write(rest) {
            Ok(0) => return Err(IoFault::Write),
            Ok(count) => rest = &rest[count..],
            Err(_) => return Err(IoFault::Write),
        }
    }
    Ok(())
}
