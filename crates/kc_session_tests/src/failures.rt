//! A whole stream of commands, where each call of its reader and of its writer fails in turn: what is written, and
//! the user values that the session is left with.
use crate::failing::{FailingReader, FailingWriter, Failure, NEVER};
use crate::serving::{Served, in_session, serve};
use crate::table::{rows, three_fields};
use kc_session::{IoFault, Session};
use std::alloc::Global;
use std::test::Fail;

/// A symbol, and one that depends on it.
const TWO_BOOLS: &str = r#"
config A
    bool "a"
    default y
config B
    bool "b"
    depends on A
"#;

/// Commands with their replies, and the user values after each.
const COMMANDS: &str = r#"
set A n\n | ok\n | A=n,
config\n | # CONFIG_A is not set\nok\n | A=n,
set B y\n | ok\n | A=n,B=y,
load 3\nCONFIG_B=n\nCONFIG_U=y\nCONFIG_A=y\n | warning 2 1\nok\n | A=y,B=n,
unset A\n | ok\n | B=n,
merge 1\nCONFIG_A=n\n | ok\n | A=n,B=n,
frob\n | refused 1\n | A=n,B=n,
reset\n | ok\n | -
"#;

/// The calls of a stream that can fail.
#[derive(Clone, Copy, Debug)]
enum Calls {
    /// Reads, each of one byte.
    Reads,
    /// Writes, each of one byte.
    Writes,
    /// Flushes.
    Flushes,
}

/// All commands joined, and all replies.
#[derive(Drop)]
struct Script {
    stream: String,
    replies: String,
    /// After each command.
    places: Vec<Place>,
}

/// A place after a command and its reply.
#[derive(Drop)]
struct Place {
    /// How many bytes the commands have up to here.
    read: usize,
    /// How many bytes the replies have up to here.
    written: usize,
    /// The user values here.
    user: String,
}

/// The script of the table.
fn read_script(alloc: Global) -> Result<Script, Fail> {
    let mut script = Script {
        stream: String::new(alloc),
        replies: String::new(alloc),
        places: Vec::new(alloc),
    };
    for row in rows(alloc, COMMANDS)? {
        let (command, reply, user) = three_fields(alloc, row)?;
        script.stream.push_str(command.as_str())?;
        script.replies.push_str(reply.as_str())?;
        let (read, written) = (script.stream.len(), script.replies.len());
        script.places.push(Place {
            read,
            written,
            user,
        })?;
    }
    Ok(script)
}

impl Script {
    /// How many calls there are.
    fn count(&self, calls: Calls) -> usize {
        match calls {
            Calls::Reads => self.stream.len(),
            Calls::Writes => self.replies.len(),
            Calls::Flushes => self.places.len(),
        }
    }

    /// How many commands were done where the call of this number fails: those that were read completely, up to that
    /// whose reply failed.
    fn done(&self, calls: Calls, call: usize) -> usize {
        let places = self.places.iter();
        match calls {
            Calls::Reads => places.filter(|place| place.read <= call).count(),
            Calls::Writes => places.filter(|place| place.written <= call).count() + 1,
            Calls::Flushes => call.saturating_add(1),
        }
    }

    /// How many bytes of the replies were written, and the user values, where the call of this number fails.
    fn left(&self, calls: Calls, call: usize) -> (usize, &str) {
        let (written, user) = match self.places.get(self.done(calls, call).wrapping_sub(1)) {
            Some(place) => (place.written, place.user.as_str()),
            None => (0, "-"),
        };
        match calls {
            Calls::Reads | Calls::Flushes => (written, user),
            Calls::Writes => (call, user),
        }
    }
}

/// Serves the stream of a script, in which a call fails.
fn serve_failing(
    alloc: Global,
    session: &mut Session,
    stream: &str,
    calls: Calls,
    call: u64,
    failure: Failure,
) -> Result<Served, Fail> {
    let (read, write, flush) = match calls {
        Calls::Reads => (call, NEVER, NEVER),
        Calls::Writes => (NEVER, call, NEVER),
        Calls::Flushes => (NEVER, NEVER, call),
    };
    let reader = FailingReader::new(stream.as_bytes(), 1, read).with(failure);
    let writer = FailingWriter::new(alloc, 1, write, flush).with(failure);
    serve(alloc, session, reader, writer)
}

/// Fails the call of a number in a session of its own, and wants what that leaves.
fn fail_call(
    alloc: Global,
    script: &Script,
    calls: Calls,
    call: usize,
    failure: Failure,
) -> Result<(), Fail> {
    let stream = script.stream.as_str();
    let served = in_session(alloc, TWO_BOOLS, |alloc, session| {
        serve_failing(alloc, session, stream, calls, call as u64, failure)
    })?;
    let (written, user) = script.left(calls, call);
    let end = match calls {
        Calls::Reads => IoFault::Read,
        Calls::Writes | Calls::Flushes => IoFault::Write,
    };
    let replies = script.replies.as_str().as_bytes().get(..written);
    let is_left = served.end == Err(end) && served.user.as_str() == user;
    if is_left && replies == Some(served.taken.as_slice()) {
        return Ok(());
    }
    let found = String::from_utf8_lossy(alloc, served.taken.as_slice())?;
    let (end, found_user) = (&served.end, served.user.as_str());
    Err(Fail::new(format!(in alloc;
        "{calls:?} {call} {failure:?}: {end:?} after {found:?}, with {found_user}, not {user}"
    )?))
}

#[test]
fn each_call_that_fails_leaves_the_commands_before_it(rt: HostRuntime) -> Result<(), Fail> {
    let script = read_script(rt.alloc())?;
    for (calls, failure) in [
        (Calls::Reads, Failure::Interrupted),
        (Calls::Reads, Failure::Other),
        (Calls::Writes, Failure::Interrupted),
        (Calls::Writes, Failure::Other),
        (Calls::Writes, Failure::NoByte),
        (Calls::Flushes, Failure::Interrupted),
        (Calls::Flushes, Failure::Other),
    ] {
        for call in 0..script.count(calls) {
            fail_call(rt.alloc(), &script, calls, call, failure)?;
        }
    }
    Ok(())
}

/// Wants so many reads of a stream, each of one byte: one for each byte, and the one that gives none.
fn count_reads(alloc: Global, stream: &str, reads: u64) -> Result<(), Fail> {
    let served = in_session(alloc, TWO_BOOLS, |alloc, session| {
        serve_failing(alloc, session, stream, Calls::Reads, NEVER, Failure::Other)
    })?;
    if served.end == Ok(()) && served.reads == reads {
        return Ok(());
    }
    let (end, found) = (&served.end, served.reads);
    Err(Fail::new(format!(in alloc; "{end:?} after {found} reads, not {reads}")?))
}

#[test]
fn nothing_is_read_after_the_end(rt: HostRuntime) -> Result<(), Fail> {
    let alloc = rt.alloc();
    count_reads(alloc, "", 1)?;
    count_reads(alloc, "set A n", 8)?;
    count_reads(alloc, "set A n\n", 9)?;
    count_reads(alloc, "reset\n".repeat(alloc, 12_000)?.as_str(), 72_001)
}
