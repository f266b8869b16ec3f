//! The words of a session's refusals, which are written to standard error while the replies go to standard output.

ghost use Rattle.std.specs.Prelude.{◌≡◌, OnSome};

use kc_command_line::CommandLine;
use kc_explain::{RefusalWords, refusal_meaning};
use std::alloc::Global;
use std::cell::Cell;
use std::io::{self, Write};

/// What is said of a command that is not UTF-8.
const NOT_UTF8: &str = "the command is not UTF-8";

/// How many bytes the line of a refusal has: `refused N` and a line feed.
const REFUSAL_LEN: usize = 10;

/// An output of replies. After each reply that refuses a command, the number of the command, the words of the refusal and
/// the command are written to `errors`. The bytes of the output are those of the replies.
///
/// A reply ends where it is flushed, as the serving of a session flushes after each.
#[derive(Drop)]
pub struct ExplainedReplies<'w, 'r, 'n, W, E> {
    alloc: Global,
    words: &'r RefusalWords<'n>,
    output: &'w mut W,
    errors: &'w mut E,
    /// The line of the command, as far as it was read.
    line: &'w Cell<CommandLine>,
    /// How many replies were flushed.
    commands: u64,
    /// How many bytes the reply has so far, and the first of them.
    len: usize,
    first: [u8; REFUSAL_LEN],
}

impl<'w, 'r, 'n, W: Write, E: Write> ExplainedReplies<'w, 'r, 'n, W, E> {
    /// An output to which nothing is written yet.
    pub fn new(
        alloc: Global,
        words: &'r RefusalWords<'n>,
        output: &'w mut W,
        errors: &'w mut E,
        line: &'w Cell<CommandLine>,
    ) -> ExplainedReplies<'w, 'r, 'n, W, E> {
        ExplainedReplies {
            alloc,
            words,
            output,
            errors,
            line,
            commands: 0,
            len: 0,
            first: [0; REFUSAL_LEN],
        }
    }

    /// Takes over bytes of the reply.
    fn note(&mut self, bytes: &[u8]) {
        let free = self.first.iter_mut().skip(self.len);
        for (place, byte) in free.zip(bytes) {
            *place = *byte;
        }
        self.len = self.len.saturating_add(bytes.len());
    }

    /// Ends the reply, and writes the words of a refusal.
    fn end_reply(&mut self) {
        if self.len == 0 {
            return;
        }
        self.commands = self.commands.saturating_add(1);
        let refusal = refusal_of(self.first, self.len);
        self.len = 0;
        let line = self.line.replace(CommandLine::unread());
        if let Some(number) = refusal {
            // What is not written changes no reply.
            let _ = self.explain(number, &line);
        }
    }

    /// Writes the words of a refusal, and the command, if it can be shown.
    fn explain(&mut self, number: u8, line: &CommandLine) -> io::Result<()> {
        let command = self.commands;
        write!(self.errors, "kconf: command {command}: refused {number}: ")?;
        let Some(text) = line.text() else {
            return writeln!(self.errors, "{}", words_without_text(number, line));
        };
        match self.words.words(self.alloc, number, text) {
            Ok(Some(words)) => writeln!(self.errors, "{words}: `{text}`"),
            _ => writeln!(
                self.errors,
                "{}: `{text}`",
                refusal_meaning(number).unwrap_or("")
            ),
        }
    }
}

/// The words of a refusal of a command that can't be shown.
fn words_without_text(number: u8, line: &CommandLine) -> &'static str {
    match number {
        1 if !line.is_utf8() => NOT_UTF8,
        _ => refusal_meaning(number).unwrap_or(""),
    }
}

/// The number of the refusal that a reply is, by its first bytes and how many it has: a reply with more is none.
fn refusal_of(first: [u8; REFUSAL_LEN], len: usize) -> Option<u8>
    ensures { OnSome result (len ≡ 10) }
{
    if len != REFUSAL_LEN {
        return None;
    }
    match first {
        [b'r', b'e', b'f', b'u', b's', b'e', b'd', b' ', digit, b'\n'] => digit.checked_sub(b'0'),
        _ => None,
    }
}

impl<W: Write, E: Write> Write for ExplainedReplies<'_, '_, '_, W, E> {
    fn write(&mut self, bytes: &[u8]) -> io::Result<usize> {
        let count = self.output.write(bytes)?;
        self.note(bytes.get(..count).unwrap_or(bytes));
        Ok(count)
    }

    fn flush(&mut self) -> io::Result<()> {
        self.output.flush()?;
        self.end_reply();
        Ok(())
    }
}
