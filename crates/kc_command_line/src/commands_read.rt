//! The commands of a session as they are read, so that the words of a refusal can show its command.

use memchr::memchr;
use std::cell::Cell;
use std::io::{self, BufRead, BufReader, Read};
use std::str::from_utf8;

/// The most bytes of a command that is shown.
const MOST_SHOWN: usize = 160;

/// How many bytes of a line are kept: a command that is shown, and its line end.
const MOST_KEPT: usize = MOST_SHOWN + 2;

/// The line of a command, as far as it was read.
#[derive(Clone, Copy)]
pub struct CommandLine {
    bytes: [u8; MOST_KEPT],
    /// How many bytes were read.
    len: usize,
    /// Whether its end was read.
    is_ended: bool,
}

impl CommandLine {
    /// No line yet.
    pub fn unread() -> CommandLine {
        CommandLine {
            bytes: [0; MOST_KEPT],
            len: 0,
            is_ended: false,
        }
    }

    /// The line with bytes that were read after it. After its end they are those of other lines.
    fn followed_by(mut self, bytes: &[u8]) -> CommandLine {
        if self.is_ended {
            return self;
        }
        let kept = self.len;
        for (place, byte) in self.bytes.iter_mut().skip(kept).zip(bytes) {
            *place = *byte;
        }
        self.len = kept.saturating_add(bytes.len());
        self.is_ended = bytes.ends_with(b"\n");
        self
    }

    /// Whether it is UTF-8, as far as that is known: a long line is not kept.
    pub fn is_utf8(&self) -> bool {
        match self.bytes.get(..self.len) {
            Some(line) => from_utf8(line).is_ok(),
            None => true,
        }
    }

    /// The text without its line end, if it can be shown: it is short, and UTF-8 without control characters.
    pub fn text(&self) -> Option<&str> {
        let line = self.bytes.get(..self.len)?;
        let line = line.strip_suffix(b"\n").unwrap_or(line);
        let text = from_utf8(line.strip_suffix(b"\r").unwrap_or(line)).ok()?;
        let is_seen = !text.chars().any(|character| character.is_control());
        (is_seen && text.len() <= MOST_SHOWN).then_some(text)
    }
}

/// An input of commands that gives at most one line at a time. Those who share its cell find there the first line that was
/// read since they emptied it: of a load, the command and not its body.
#[derive(Drop)]
pub struct CommandsRead<'c, R> {
    pub input: BufReader<R>,
    pub line: &'c Cell<CommandLine>,
}

impl<R: Read + Drop> Read for CommandsRead<'_, R> {
    fn read(&mut self, buf: &mut [u8]) -> io::Result<usize> {
        let unread = self.input.fill_buf()?;
        let len = match memchr(b'\n', unread) {
            Some(end) => end.saturating_add(1),
            None => unread.len(),
        };
        let mut line = unread.get(..len).unwrap_or(unread);
        let count = line.read(buf)?;
        self.input.consume(count);
        let read = buf.get(..count).unwrap_or(&[]);
        self.line.set(self.line.get().followed_by(read));
        Ok(count)
    }
}
