//! Texts that are cut off: each beginning of a Kconfig, of a `.config` or of commands, and what it gives.

use crate::fault_text::fault_text;
use crate::header::Subject;
use crate::malformed::{CaseFault, Problem};
use crate::outcome::{Difference, Texts, replies_to};
use crate::parts::Part;
use kc_files::{Prefix, Warning};
use kc_session::{Session, open};
use std::alloc::{AllocError, Global};

/// The pieces in which the commands are read.
const PIECE: usize = 4096;

/// A row of a cut: what is wanted of the beginnings that end in a piece of the text.
#[derive(Clone, Copy)]
struct Row<'a> {
    /// What is wanted of those that end within a character.
    inside: &'a str,
    /// What is wanted of all others.
    behind: &'a str,
    piece: &'a str,
}

impl<'a> Row<'a> {
    /// The row that a line spells: `WANTED [PIECE]`, or `INSIDE | BEHIND [PIECE]`.
    fn parse(line: &'a str) -> Option<Row<'a>> {
        let (wanted, piece) = line.split_once('[')?;
        let piece = piece.strip_suffix("]")?;
        let wanted = wanted.trim_end_matches(' ');
        let (inside, behind) = match wanted.split_once(" | ") {
            Some(both) => both,
            None => (wanted, wanted),
        };
        Some(Row {
            inside,
            behind,
            piece,
        })
    }
}

/// A text as far as its rows have come.
#[derive(Drop)]
struct Beginning {
    subject: Subject,
    /// Whether a row was seen.
    has_row: bool,
    bytes: Vec<u8>,
    /// What the lines give that are whole.
    kept: String,
    /// What the last row adds to it where its line is whole.
    last: String,
}

impl Beginning {
    /// Keeps what the line gives that ends here.
    fn keep(&mut self) -> Result<(), AllocError> {
        self.kept.push_str(self.last.as_str())?;
        self.last.clear();
        Ok(())
    }

    /// What a row wants of this beginning.
    fn wanted(&mut self, alloc: Global, wanted: &str) -> Result<String, AllocError> {
        let (stays, goes) = match self.subject {
            Subject::Kconfig => ("", wanted),
            Subject::Commands => (wanted, ""),
            Subject::Config => match wanted.split_once("; ") {
                Some((values, warning)) => (warning, values),
                None => ("", wanted),
            },
        };
        self.last = lines_of(alloc, stays)?;
        let goes = lines_of(alloc, goes)?;
        format!(in alloc; "{}{}{}", self.kept, self.last, goes)
    }
}

/// The lines that a text with ` / ` between them spells.
fn lines_of(alloc: Global, text: &str) -> Result<String, AllocError> {
    if text.is_empty() {
        return Ok(String::new(alloc));
    }
    let mut lines = text.replace(alloc, " / ", "\n")?;
    lines.push('\n')?;
    Ok(lines)
}

/// Opens each beginning of the text that the rows of a part spell, and compares what it gives. It gives the first
/// difference.
///
/// # Errors
///
/// `CaseFault::Malformed` at a line that is no row.
pub(crate) fn cut_outcome(
    alloc: Global,
    texts: &mut Texts,
    prefix: &Prefix,
    part: &Part<'_>,
    subject: Subject,
) -> Result<Option<Difference>, CaseFault> {
    let mut beginning = Beginning {
        subject,
        has_row: false,
        bytes: Vec::new(alloc),
        kept: String::new(alloc),
        last: String::new(alloc),
    };
    let mut number = part.line;
    for line in part.text().split_terminator('\n') {
        number = number.saturating_add(1);
        if line.is_empty() {
            beginning.keep()?;
            continue;
        }
        let Some(row) = Row::parse(line) else {
            return Err(CaseFault::Malformed(number, Problem::NoRow));
        };
        if let Some(found) = row_outcome(alloc, texts, prefix, &mut beginning, &row, number)? {
            return Ok(Some(found));
        }
    }
    Ok(None)
}

/// Compares the beginnings that end in the piece of a row; with the first row also the empty one.
fn row_outcome(
    alloc: Global,
    texts: &mut Texts,
    prefix: &Prefix,
    beginning: &mut Beginning,
    row: &Row<'_>,
    line: usize,
) -> Result<Option<Difference>, AllocError> {
    if !beginning.has_row {
        beginning.has_row = true;
        let difference = difference_of(alloc, texts, prefix, beginning, row, line)?;
        if difference.is_some() {
            return Ok(difference);
        }
    }
    let piece = row.piece.replace(alloc, "\\n", "\n")?;
    let piece = piece.as_str().replace(alloc, "\\r", "\r")?;
    for byte in piece.as_bytes() {
        beginning.bytes.push(*byte)?;
        let difference = difference_of(alloc, texts, prefix, beginning, row, line)?;
        if difference.is_some() {
            return Ok(difference);
        }
    }
    Ok(None)
}

/// Compares a beginning with what its row wants.
fn difference_of(
    alloc: Global,
    texts: &mut Texts,
    prefix: &Prefix,
    beginning: &mut Beginning,
    row: &Row<'_>,
    line: usize,
) -> Result<Option<Difference>, AllocError> {
    let wanted = match str::from_utf8(beginning.bytes.as_slice()) {
        Ok(text) => {
            if let Subject::Kconfig = beginning.subject
                && let Err(_) = texts.sources.add("Kconfig", text)
            {
                return Err(AllocError);
            }
            row.behind
        }
        // The text of a Kconfig has no half characters.
        Err(_) => match beginning.subject {
            Subject::Kconfig => return Ok(None),
            Subject::Config | Subject::Commands => row.inside,
        },
    };
    let wanted = beginning.wanted(alloc, wanted)?;
    let found = found_text(alloc, texts, prefix, beginning)?;
    if found.as_str() == wanted.as_str() {
        return Ok(None);
    }
    let length = beginning.bytes.len();
    let wanted = format!(in alloc; "at {length} bytes\n{wanted}")?;
    Ok(Some(Difference {
        line,
        wanted,
        found,
    }))
}

/// What a beginning gives: the fault of its Kconfig, or `accepted`; the warnings of a `.config` and a line with the user
/// values that it leaves; the replies to commands.
fn found_text(
    alloc: Global,
    texts: &Texts,
    prefix: &Prefix,
    beginning: &Beginning,
) -> Result<String, AllocError> {
    let bytes = beginning.bytes.as_slice();
    let (config, commands) = match beginning.subject {
        Subject::Kconfig => (b"".as_slice(), b"".as_slice()),
        Subject::Config => (bytes, b"list\n".as_slice()),
        Subject::Commands => (b"".as_slice(), bytes),
    };
    match open(
        alloc,
        &texts.sources,
        &texts.vars,
        "Kconfig",
        prefix,
        config,
    ) {
        Ok((mut session, warnings)) => {
            let subject = beginning.subject;
            session_text(alloc, &mut session, warnings.as_slice(), subject, commands)
        }
        Err(fault) => fault_text(alloc, &fault),
    }
}

/// What a beginning gives whose Kconfig has no fault.
fn session_text(
    alloc: Global,
    session: &mut Session,
    warnings: &[Warning],
    subject: Subject,
    commands: &[u8],
) -> Result<String, AllocError> {
    let replies = replies_to(alloc, commands, PIECE, session)?;
    let replies = String::from_utf8_lossy(alloc, replies.as_slice())?;
    match subject {
        Subject::Kconfig => String::from_str(alloc, "accepted\n"),
        Subject::Config => config_text(alloc, warnings, replies.as_str()),
        Subject::Commands => Ok(replies),
    }
}

/// A line for each warning, and a line `NAME=USER` for each user value of a list.
fn config_text(alloc: Global, warnings: &[Warning], list: &str) -> Result<String, AllocError> {
    let mut text = String::new(alloc);
    for warning in warnings {
        let line = warning.line;
        let number = warning.kind.number();
        text.push_str(format!(in alloc; "warning {line} {number}\n")?.as_str())?;
    }
    push_user_values(alloc, &mut text, list)?;
    Ok(text)
}

/// Adds a line for each user value of a list.
fn push_user_values(alloc: Global, text: &mut String, list: &str) -> Result<(), AllocError> {
    for line in list.lines() {
        if let Some((name, rest)) = line.split_once(' ')
            && let Some((_shown, user)) = rest.split_once(" user=")
            && user != "-"
        {
            let value = format!(in alloc; "{name}={user}\n")?;
            text.push_str(value.as_str())?;
        }
    }
    Ok(())
}
