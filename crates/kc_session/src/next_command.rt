//! The rest of the next command of a stream, whose line was read: of a load its body.
ghost use Rattle.std.specs.Prelude.{◌≡◌, ◌<◌, ◌≤◌, ℕ, List, [], ◌∷◌, ◌++◌, Err, IfOk, IfErr, Option, OnErr, IsTrue};
ghost use Rattle.std.specs.Io.KnownBytes.{prepend_known};
ghost use Rattle.kc_session.specs.declared.command.Refusal.TheVariants.{BadLineCount};
ghost use Rattle.kc_session.specs.Commands.{lines_asked, request_of_text};
ghost use Rattle.kc_session.specs.Held.{HeldLine, held_of, text_held};
ghost use Rattle.kc_session.specs.HeldBody.{GivesBody, HoldsLines, body_held};
ghost use Rattle.kc_session.specs.NextCommand.{TakesCommand, StopsInCommand, TakesBody, StopsInBody, may_go_on};
ghost use Rattle.kc_session.specs.NextLine.{TakesLine, is_line};

use crate::body_buffer::BodyBuffer;
use crate::fault::IoFault;
use crate::input::Input;
use crate::line::LineBuffer;
use crate::next_line::{LineRead, read_line};
use std::io::Read;

/// What was read of a command.
#[derive(Clone, Copy, PartialEq, Eq)]
pub(crate) enum CommandRead {
    /// A command, after which more may come.
    Whole,
    /// The last command. Nothing more is to be read.
    Last,
    /// No command, since the stream has ended. Nothing more is to be read.
    Nothing,
}

/// Reads the lines of a body, each through `next`. It answers `Whole` where more may come after them, else `Last`.
///
/// # Errors
///
/// `IoFault::Read` where a read failed, or would be past the last of 2^63 reads.
fn read_lines<R: Read>(
    reader: &mut R,
    input: &mut Input,
    count: u64,
    next: &mut LineBuffer,
    body: &mut BodyBuffer,
) -> Result<CommandRead, IoFault>
    ensures ok { IfOk result (λ found. TakesBody found count
        (prepend_known input.old.bytes (R.remaining reader.old))
        (prepend_known input.new.bytes (R.remaining reader.new))
        body.new) }
    ensures err { OnErr result (StopsInBody count
        (prepend_known input.old.bytes (R.remaining reader.old))
        (prepend_known input.new.bytes (R.remaining reader.new))) }
    ensures used_up { OnErr result (input.new.bytes ≡ []) }
    ensures fault { IfErr result (λ fault. fault ≡ IoFault.Read) }
    ensures budget { input.new.budget ≤ input.old.budget }
{
    body.clear();
    let mut left = count;
    while left > 0 {
        match read_line(reader, input, next)? {
            LineRead::Ended => body.push_line(next),
            LineRead::Unended => {
                push_last(next, left, body);
                return Ok(CommandRead::Last);
            }
            LineRead::Nothing => {
                body.end_early();
                return Ok(CommandRead::Last);
            }
        }
        left -= 1;
    }
    Ok(CommandRead::Whole)
}

/// Puts the last line of the stream after those of a body. `left` says how many lines of it were still to come.
fn push_last(line: &LineBuffer, left: u64, body: &mut BodyBuffer)
    requires { 0 < left }
    ensures all { left ≡ 1 → (lines : List (List ℕ)) (bytes : List ℕ) → HoldsLines body.old lines → line.now ≡ held_of bytes
        → HoldsLines body.new (lines ++ bytes ∷ []) }
    ensures few { 1 < left → body_held body.new ≡ Err BadLineCount }
{
    if left > 1 {
        body.end_early();
    } else {
        body.push_line(line);
    }
}

/// Reads the body of a command whose line was read, as a whole also where it is too long to be kept: as many lines
/// as the line asks for, each through `next`, or all that are left where these are too few.
///
/// After an answer other than `CommandRead::Whole` a read gave no byte, and the caller is not to read on.
///
/// # Errors
///
/// `IoFault::Read` where a read failed, or would be past the last of 2^63 reads. The bytes that were taken then are a
/// beginning of a command, and no byte that the reader gave is left in `input`.
pub(crate) fn read_body<R: Read>(
    reader: &mut R,
    input: &mut Input,
    found: LineRead,
    count: u64,
    next: &mut LineBuffer,
    body: &mut BodyBuffer,
) -> Result<CommandRead, IoFault>
    ensures ok { IfOk result (λ read. (left : Option (List ℕ)) (line : HeldLine)
        → TakesLine found left (prepend_known input.old.bytes (R.remaining reader.old)) line
        → count ≡ lines_asked (request_of_text (text_held line))
        → TakesCommand read left (prepend_known input.new.bytes (R.remaining reader.new)) line body.new) }
    ensures err { OnErr result ((left : Option (List ℕ)) (line : HeldLine)
        → TakesLine found left (prepend_known input.old.bytes (R.remaining reader.old)) line
        → count ≡ lines_asked (request_of_text (text_held line))
        → StopsInCommand left (prepend_known input.new.bytes (R.remaining reader.new))) }
    ensures used_up { OnErr result (input.new.bytes ≡ []) }
    ensures fault { IfErr result (λ fault. fault ≡ IoFault.Read) }
    ensures budget { input.new.budget ≤ input.old.budget }
    ensures found { IfOk result (λ read. IsTrue (may_go_on read) → IsTrue (is_line found)) }
{
    match found {
        LineRead::Ended => read_lines(reader, input, count, next, body),
        LineRead::Unended => {
            no_body(count, body);
            Ok(CommandRead::Last)
        }
        LineRead::Nothing => Ok(CommandRead::Nothing),
    }
}

/// The body of a load after which the stream has ended.
#[tactic(auto, using(crate::proofs::BodyHolding::empty_body, crate::proofs::BodyHolding::missing_body))]
fn no_body(count: u64, body: &mut BodyBuffer)
    ensures { GivesBody (body_held body.new) count [] }
{
    body.clear();
    if count > 0 {
        body.end_early();
    }
}
