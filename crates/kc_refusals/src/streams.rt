//! A stream of commands, each of which can be refused memory.

use crate::counting::{CountingReader, CountingWriter};
use crate::finding::{Call, Stop, Wrong, made, want};
use crate::sessions::{Held, held_by, want_held};
use crate::texts::{BODY, REFUSED_REPLIES, REPLIES, USER_LOADED};
use crate::tree_calls::want_user;
use kc_session::{IoFault, Session, run};
use kc_value::Resolver;
use std::alloc::Global;

/// The room for the replies.
const ROOM: usize = 1000;

/// Checks `run` of `set S x`, a load of the body, and commands after it: it is refused before it has read or written, or
/// one command is. The same stream is answered the next time.
pub(crate) fn check_run(alloc: Global, session: &mut Session) -> Result<Call, Stop> {
    let stream = format!(in alloc; "set S x\nload 8\n{BODY}show S\nfrob\n")?;
    let before = held_by(alloc, session)?;
    made(|_time| serve(alloc, session, stream.as_bytes(), &before))
}

/// Serves the stream.
fn serve(alloc: Global, session: &mut Session, stream: &[u8], before: &Held) -> Result<(), Stop> {
    let mut reader = CountingReader {
        rest: stream,
        calls: 0,
    };
    let mut writer = CountingWriter {
        taken: Vec::with_capacity(alloc, ROOM)?,
        calls: 0,
    };
    match run(alloc, &mut reader, &mut writer, session) {
        Ok(()) => want_replies(alloc, session, writer.taken.as_slice()),
        Err(IoFault::Memory) => {
            let is_unused = reader.calls == 0 && writer.calls == 0;
            want_nothing_done(alloc, session, before, is_unused)
        }
        Err(IoFault::Read | IoFault::Write) => Err(Stop::Wrong(Wrong::Stream)),
    }
}

/// Wants a stream that was refused memory to be unused, and the session to hold what it held.
fn want_nothing_done(
    alloc: Global,
    session: &Session,
    before: &Held,
    is_unused: bool,
) -> Result<(), Stop> {
    want(is_unused, Wrong::Stream)?;
    want_held(alloc, session, before, false)?;
    Err(Stop::Refused)
}

/// Wants replies with one refusal at most, and the user values that they leave.
fn want_replies(alloc: Global, session: &Session, replies: &[u8]) -> Result<(), Stop> {
    if replies == REPLIES.as_bytes() {
        return want_user(alloc, session.tree(), session.user(), USER_LOADED);
    }
    for (refused, user) in REFUSED_REPLIES {
        if replies == refused.as_bytes() {
            want_user(alloc, session.tree(), session.user(), user)?;
            return Err(Stop::Refused);
        }
    }
    Err(Stop::Wrong(Wrong::Reply))
}
