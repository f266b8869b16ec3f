//! The serving of a whole stream of commands.
ghost use Rattle.std.specs.Prelude.{◌≡◌, ℕ, List, [], OnOk, IsErrOf};
ghost use Rattle.kc_files.specs.DefaultLoading.{HasNoFeeds};
ghost use Rattle.kc_files.specs.OneReading.{IsReadAs};
ghost use Rattle.kc_value.specs.Solution.{solution, IsOnlySolution};
ghost use Rattle.kc_value.specs.UserValues.{UserValues};
ghost use Rattle.kc_session.specs.Serving.{Serves, ServesAll, StopsReading, StopsWriting};

use crate::body_buffer::BodyBuffer;
use crate::command_line::{body_lines, read_request};
use crate::fault::IoFault;
use crate::input::Input;
use crate::line::LineBuffer;
use crate::next_command::{CommandRead, read_body};
use crate::next_line::read_line;
use crate::replies::answer;
use crate::session::Session;
use std::alloc::Global;
use std::io::{Read, Write};

/// Serves a stream of commands, each a line and, of a load, the lines of its body, until the stream ends. Each reply is written and flushed before
/// the next line is read. After a read of no bytes nothing more is read.
///
/// # Errors
///
/// - `IoFault::Memory` where the line buffers were refused their memory. Nothing was read, written or done.
/// - `IoFault::Read` where a read failed, or after 2^63 reads. All commands that were read completely were done,
///   and their replies are written; a line that was cut is not run.
/// - `IoFault::Write` where a write or flush failed, or a write took no byte. The commands up to and including
///   that of the failed reply were done, and the replies before it and a beginning of its own are written.
pub fn run<R: Read, W: Write>(
    alloc: Global,
    reader: &mut R,
    writer: &mut W,
    session: &mut Session,
) -> Result<(), IoFault>
    ensures ok { OnOk result (ServesAll (R.remaining reader.old) (R.remaining reader.new)
        (W.contents writer.old) (W.contents writer.new) session.old session.new) }
    ensures read { IsErrOf result IoFault.Read → StopsReading (R.remaining reader.old) (R.remaining reader.new)
        (W.contents writer.old) (W.contents writer.new) session.old session.new }
    ensures write { IsErrOf result IoFault.Write → StopsWriting (R.remaining reader.old)
        (W.contents writer.old) (W.contents writer.new) session.old session.new }
    ensures memory { IsErrOf result IoFault.Memory →
        (reader.new ≡ reader.old) × (writer.new ≡ writer.old) × (session.new ≡ session.old) }
    ensures solved { (u : UserValues) → IsOnlySolution session.old.session.tree u (solution session.old.session.tree u) }
    ensures bodies { (body : List ℕ) → IsReadAs session.old.session.tree session.old.session.prefix body }
    ensures unfed { HasNoFeeds session.old.session.user → HasNoFeeds session.new.session.user }
{
    session.facts();
    let mut buffers = Buffers {
        line: LineBuffer::new(alloc)?,
        next: LineBuffer::new(alloc)?,
        body: BodyBuffer::new(alloc),
        input: Input::new(),
    };
    serve(reader, writer, session, &mut buffers)
}

/// What is read of a stream: the line of a command, the next line of its body, the body, and what was read and not yet taken.
#[derive(Drop)]
struct Buffers {
    line: LineBuffer,
    next: LineBuffer,
    body: BodyBuffer,
    input: Input,
}

/// Serves a stream with its buffers. Nothing of the input is unread.
fn serve<R: Read, W: Write>(
    reader: &mut R,
    writer: &mut W,
    session: &mut Session,
    buffers: &mut Buffers,
) -> Result<(), IoFault>
    requires { buffers.old.input.bytes ≡ [] }
    ensures served { Serves result (R.remaining reader.old) (R.remaining reader.new)
        (W.contents writer.old) (W.contents writer.new) session.old session.new }
    ensures unfed { HasNoFeeds session.old.session.user → HasNoFeeds session.new.session.user }
{
    session.facts();
    loop {
        let found = read_line(reader, &mut buffers.input, &mut buffers.line)?;
        let request = read_request(buffers.line.text());
        let count = body_lines(&request);
        let read = read_body(
            reader,
            &mut buffers.input,
            found,
            count,
            &mut buffers.next,
            &mut buffers.body,
        )?;
        match read {
            CommandRead::Whole => answer(request, &buffers.body, writer, session)?,
            CommandRead::Last => return answer(request, &buffers.body, writer, session),
            CommandRead::Nothing => return Ok(()),
        }
    }
}
