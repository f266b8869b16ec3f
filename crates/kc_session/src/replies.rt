//! The reply to one command: how it is made, and how it is written.
ghost use Rattle.std.specs.Prelude.{◌≡◌, ℕ, false, List, ◌++◌, OnOk, OnErr, IfErr};
ghost use Rattle.std.specs.Io.KnownBytes.{Appends};
ghost use Rattle.kc_files.specs.DefaultLoading.{HasNoFeeds};
ghost use Rattle.kc_session.specs.Output.{WritesPart};
ghost use Rattle.kc_value.specs.KeptLaws.{KeptLaws};
ghost use Rattle.kc_session.specs.declared.command.Reply.TheVariants.{Done};
ghost use Rattle.kc_session.specs.Effect.{IsOutcome};
ghost use Rattle.kc_session.specs.Commands.{request_of_text};
ghost use Rattle.kc_session.specs.DefaultReply.{IsUnfedRequest};
ghost use Rattle.kc_session.specs.Held.{HeldLine, text_held};
ghost use Rattle.kc_session.specs.HeldBody.{GivesBody, body_held, joined};
ghost use Rattle.kc_session.specs.Keeping.{EditsKept, KeepsRight};
ghost use Rattle.kc_session.specs.NextCommand.{HoldsCommand};
ghost use Rattle.kc_session.specs.Replies.{body_outcome, outcome, reply_bytes};
ghost use Rattle.kc_session.specs.Serving.{AnswersCommand, StopsInReply};
ghost use Rattle.kc_session.specs.Steps.{KeepsRequest};
ghost use Rattle.kc_session.specs.Stream.{has_feed, lines_of, text_of_line};
ghost use Rattle.kc_session.specs.StreamCommands.{StreamCommand, lines_taken, request_of_line};

use crate::body_buffer::BodyBuffer;
use crate::command::{Refusal, Reply};
use crate::command_line::{Request, load_command};
use crate::fault::IoFault;
use crate::session::Session;
use crate::writing::{append_all, write_all_of};
use kc_files::Load;
use kc_text::Text;
use std::io::Write;

/// Does a command of the stream, by what its line asks for, and from its body.
#[tactic(auto, using(crate::proofs::Replying::refused_reply, crate::proofs::Replying::whole_reply, crate::proofs::Replying::load_reply, crate::proofs::KeepingRequests::refused_keeps, crate::proofs::KeepingRequests::whole_keeps, crate::proofs::KeepingRequests::load_keeps, crate::proofs::UnfedRequests::asked_unfed))]
fn reply_to(
    request: Result<Request<'_>, Refusal>,
    body: &BodyBuffer,
    session: &mut Session,
) -> Reply
    ensures outcome { (c : StreamCommand) → request.entry ≡ request_of_line c.line → GivesBody (body_held body.now) (lines_taken c.line) c.body
        → lines_of (joined c.body) ≡ c.body → IsOutcome session.old.session (outcome session.old.session c) result session.new.session }
    ensures keeps { KeepsRequest session.old request.entry result session.new }
    ensures laws { KeptLaws session.old.session.tree }
    ensures right_before { KeepsRight session.old }
    ensures right { KeepsRight session.new }
    ensures unfed { IsUnfedRequest request.entry → HasNoFeeds session.old.session.user → HasNoFeeds session.new.session.user }
{
    session.facts();
    match request {
        Ok(Request::Whole(command)) => session.apply(command),
        Ok(Request::WithBody(load, _)) => reply_to_load(load, body, session),
        Err(refusal) => Reply::Refused(refusal),
    }
}

/// Loads a body, if it can be.
#[tactic(auto, using(crate::proofs::Replying::load_refused_reply, crate::proofs::Replying::load_done_reply, crate::proofs::KeepingRequests::unchanged_keeps, crate::proofs::KeepingRequests::load_edits, crate::proofs::UnfedRequests::load_unfed))]
fn reply_to_load(load: Load, body: &BodyBuffer, session: &mut Session) -> Reply
    ensures outcome { (k : ℕ) (lines : List (List ℕ)) → GivesBody (body_held body.now) k lines → lines_of (joined lines) ≡ lines
        → IsOutcome session.old.session (body_outcome session.old.session load k lines) result session.new.session }
    ensures edits { EditsKept session.old session.new }
    ensures right { KeepsRight session.new }
    ensures unfed { HasNoFeeds session.old.session.user → HasNoFeeds session.new.session.user }
{
    session.facts();
    match body.content() {
        Ok(bytes) => session.apply(load_command(load, bytes)),
        Err(refusal) => Reply::Refused(refusal),
    }
}

/// Writes a reply and flushes the writer. The whole reply is there before its first byte is written.
///
/// # Errors
///
/// `IoFault::Write` where a write or the flush failed, or a write took no byte. A beginning of the reply is
/// written then.
#[tactic(auto, unfolding(crate::specs::Replies::reply_bytes))]
fn write_reply<W: Write>(writer: &mut W, reply: Reply) -> Result<(), IoFault>
    ensures ok { OnOk result (Appends (W.contents writer.old) (W.contents writer.new) (reply_bytes reply)) }
    ensures err { OnErr result (WritesPart (W.contents writer.old) (W.contents writer.new) (reply_bytes reply)) }
    ensures fault { IfErr result (λ fault. fault ≡ IoFault.Write) }
{
    match reply {
        Reply::Done(text) => write_done(writer, text),
        Reply::Refused(refusal) => write_two(
            writer,
            b"refused ",
            &[b'0' + refusal.number(), b'\n'],
        ),
    }
}

/// The most bytes of a text that is put into one piece with the line after it.
const MOST_IN_ONE_PIECE: usize = 512;

/// Writes a text with the line `ok` after it, and flushes the writer. A short text takes one write, since who reads
/// replies from a pipe wakes for each; where memory for that is refused it takes two, as a longer one does.
#[tactic(auto, unfolding(crate::specs::Replies::reply_bytes))]
fn write_done<W: Write>(writer: &mut W, text: Text) -> Result<(), IoFault>
    ensures ok { OnOk result (Appends (W.contents writer.old) (W.contents writer.new) (reply_bytes (Done text))) }
    ensures err { OnErr result (WritesPart (W.contents writer.old) (W.contents writer.new) (reply_bytes (Done text))) }
    ensures fault { IfErr result (λ fault. fault ≡ IoFault.Write) }
{
    let mut whole = text.into_string();
    if whole.len() > MOST_IN_ONE_PIECE {
        return write_two(writer, whole.as_str().as_bytes(), b"ok\n");
    }
    match whole.push_str("ok\n") {
        Ok(()) => write_all_of(writer, whole.as_str().as_bytes()),
        Err(_) => write_two(writer, whole.as_str().as_bytes(), b"ok\n"),
    }
}

/// Writes two pieces, one after the other, and flushes the writer.
fn write_two<W: Write>(writer: &mut W, first: &[u8], second: &[u8]) -> Result<(), IoFault>
    ensures ok { OnOk result (Appends (W.contents writer.old) (W.contents writer.new) (first.now ++ second.now)) }
    ensures err { OnErr result (WritesPart (W.contents writer.old) (W.contents writer.new) (first.now ++ second.now)) }
    ensures fault { IfErr result (λ fault. fault ≡ IoFault.Write) }
{
    append_all(writer, first)?;
    write_all_of(writer, second)
}

/// Does a command of the stream, by what its line asks for, and from its body, and writes its reply.
pub(crate) fn answer<W: Write>(
    request: Result<Request<'_>, Refusal>,
    body: &BodyBuffer,
    writer: &mut W,
    session: &mut Session,
) -> Result<(), IoFault>
    ensures ok { OnOk result ((line : HeldLine) (c : StreamCommand) → request.entry ≡ request_of_text (text_held line) → HoldsCommand line body.now c
        → AnswersCommand c (W.contents writer.old) (W.contents writer.new) session.old session.new) }
    ensures err { OnErr result ((line : HeldLine) (c : StreamCommand) → request.entry ≡ request_of_text (text_held line) → HoldsCommand line body.now c
        → StopsInReply c (W.contents writer.old) (W.contents writer.new) session.old session.new) }
    ensures fault { IfErr result (λ fault. fault ≡ IoFault.Write) }
    ensures unfed { (line : HeldLine) (c : StreamCommand) → request.entry ≡ request_of_text (text_held line) → HoldsCommand line body.now c
        → has_feed (text_of_line c.line) ≡ false → HasNoFeeds session.old.session.user → HasNoFeeds session.new.session.user }
{
    let reply = reply_to(request, body, session);
    write_reply(writer, reply)
}
