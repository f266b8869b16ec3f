//! How the program ended, and what it says of warnings and faults on standard error.
ghost use Rattle.std.specs.Prelude.{◌≡◌};
ghost use Rattle.kc_program.specs.Endings.{code_of};
ghost use Rattle.kc_program.specs.FaultNumbers.{fault_number};

use crate::explanations::{after_fault, after_warning};
use crate::notes::Note;
use kc_command_line::Wording;
use kc_files::Warning;
use kc_session::IoFault;
use kc_text::{Text, TextFault};
use kc_tree::TreeFault;
use std::alloc::{AllocError, AllocFailed, Global};
use std::io::{self, BufWriter, Write};

/// How the program ended.
#[derive(Clone, Copy, Debug, PartialEq, Eq)]
pub enum Status {
    /// What was asked for was done, with warnings or without.
    Done = 0,
    /// A fault stopped the program.
    Fault = 1,
    /// The words of the command line were no command line.
    Usage = 2,
}

impl Status {
    /// The exit status of the process.
    pub fn code(self) -> u8
        ensures { result ≡ code_of self }
    {
        self as u8
    }
}

/// Why what the command line asked for was not done.
#[derive(Drop)]
pub enum Fault {
    /// The file of a path cannot be read.
    CannotRead(Text),
    /// The file of a path is not UTF-8.
    NotUtf8(Text),
    /// The `.config` of a path is too long, or a line of it.
    Limit(Text),
    /// A fault of the variables or of the texts.
    Text(TextFault),
    /// A fault of the lines or of the tree.
    Tree(TreeFault),
    /// The input was not read to its end, or the output not written.
    Stream(IoFault),
    /// Memory was refused.
    NoMemory,
}

/// A fault, and what is reported of it.
#[derive(Drop)]
pub struct Report {
    pub fault: Fault,
    pub wording: Wording,
    /// What its files say of it, where that is wanted and known.
    pub note: Option<Note>,
}

impl Report {
    /// The report of a fault where no more is known.
    pub fn of(fault: Fault, wording: Wording) -> Report {
        Report {
            fault,
            wording,
            note: None,
        }
    }

    /// What is written after a fault that has no number.
    fn note_words(&self) -> Option<&str> {
        let note = self.note.as_ref()?;
        Some(note.words.as_str())
    }

    /// What is written after the number of the fault.
    fn words(&self, number: u8) -> Option<&str> {
        match &self.note {
            Some(note) => Some(note.words.as_str()),
            None => after_fault(self.wording, number),
        }
    }
}

impl From<AllocError> for Fault {
    fn from(_refused: AllocError) -> Self {
        Fault::NoMemory
    }
}

impl<T: Drop> From<AllocFailed<T>> for Fault {
    fn from(_refused: AllocFailed<T>) -> Self {
        Fault::NoMemory
    }
}

impl From<TextFault> for Fault {
    fn from(fault: TextFault) -> Self {
        match fault {
            TextFault::NoMemory => Fault::NoMemory,
            fault => Fault::Text(fault),
        }
    }
}

impl From<IoFault> for Fault {
    fn from(fault: IoFault) -> Self {
        Fault::Stream(fault)
    }
}

/// Writes a line for each warning of the `.config` of a path, in their order, with what is said of each where that is
/// known. The lines are written in pieces, and where memory for a piece is refused, each as it comes.
pub fn write_warnings<E: Write>(
    alloc: Global,
    errors: &mut E,
    path: &str,
    warnings: &[Warning],
    wording: Wording,
    words: Option<&[String]>,
) -> io::Result<()> {
    if warnings.is_empty() {
        return Ok(());
    }
    if let Ok(mut pieces) = BufWriter::new(alloc, &mut *errors) {
        let written = write_warning_lines(&mut pieces, path, warnings, wording, words);
        return end_pieces(pieces, written);
    }
    write_warning_lines(errors, path, warnings, wording, words)
}

/// Writes what is left of the last piece. Where a piece was not written, nothing more is.
fn end_pieces<E: Write + Drop>(
    mut pieces: BufWriter<E>,
    written: io::Result<()>,
) -> io::Result<()> {
    match written {
        Ok(()) => pieces.flush(),
        Err(error) => {
            let _ = pieces.into_parts();
            Err(error)
        }
    }
}

fn write_warning_lines<E: Write>(
    errors: &mut E,
    path: &str,
    warnings: &[Warning],
    wording: Wording,
    words: Option<&[String]>,
) -> io::Result<()> {
    for (index, warning) in warnings.iter().enumerate() {
        let number = warning.kind.number();
        write!(errors, "kconf: {path}:{}: warning {number}", warning.line)?;
        match words.and_then(|words| words.get(index)) {
            Some(words) => end_line(errors, Some(words.as_str()))?,
            None => end_line(errors, after_warning(wording, number))?,
        }
    }
    Ok(())
}

/// Writes the report of a fault, as `write_report` does, in pieces.
pub fn write_report_in_pieces<E: Write>(
    alloc: Global,
    errors: &mut E,
    report: &Report,
) -> io::Result<()> {
    if let Ok(mut pieces) = BufWriter::new(alloc, &mut *errors) {
        let written = write_report(&mut pieces, report);
        return end_pieces(pieces, written);
    }
    write_report(errors, report)
}

/// Writes a fault as lines that each begin with `kconf: `, and the lines that explain it. A line of a file is named as
/// `PATH:LINE`.
pub fn write_report<E: Write>(errors: &mut E, report: &Report) -> io::Result<()> {
    write_fault(errors, report)?;
    match &report.note {
        Some(note) => errors.write_all(note.lines.as_str().as_bytes()),
        None => Ok(()),
    }
}

fn write_fault<E: Write>(errors: &mut E, report: &Report) -> io::Result<()> {
    match &report.fault {
        Fault::CannotRead(path) => write_file_fault(errors, path, "cannot read", report),
        Fault::NotUtf8(path) => write_file_fault(errors, path, "not UTF-8", report),
        Fault::Limit(path) => write_file_fault(errors, path, "limit", report),
        Fault::Text(fault) => write_text_fault(errors, fault, report),
        Fault::Tree(fault) => write_tree_fault(errors, fault, report),
        Fault::Stream(IoFault::Read) => writeln!(errors, "kconf: cannot read"),
        Fault::Stream(IoFault::Write) => writeln!(errors, "kconf: cannot write"),
        Fault::Stream(IoFault::Memory) | Fault::NoMemory => writeln!(errors, "kconf: memory"),
    }
}

fn write_file_fault<E: Write>(
    errors: &mut E,
    path: &Text,
    fault: &str,
    report: &Report,
) -> io::Result<()> {
    write!(errors, "kconf: {path}: {fault}")?;
    end_line(errors, report.note_words())
}

fn write_text_fault<E: Write>(
    errors: &mut E,
    fault: &TextFault,
    report: &Report,
) -> io::Result<()> {
    match fault {
        TextFault::At(problem, path, line) => {
            let number = problem.number();
            write!(errors, "kconf: {path}:{line}: K{number:02}")?;
            end_line(errors, report.words(number))
        }
        TextFault::NoMemory => writeln!(errors, "kconf: memory"),
    }
}

fn write_tree_fault<E: Write>(
    errors: &mut E,
    fault: &TreeFault,
    report: &Report,
) -> io::Result<()> {
    write!(errors, "kconf: {fault}")?;
    let words = number_of(fault).and_then(|number| report.words(number));
    end_line(errors, words)?;
    if let TreeFault::Loop(nodes) = fault {
        for node in nodes {
            writeln!(errors, "kconf: on {}", node.name)?;
        }
    }
    Ok(())
}

/// The number of a fault of the lines or of the tree.
fn number_of(fault: &TreeFault) -> Option<u8>
    ensures { result ≡ fault_number fault.now }
{
    let problem = fault.problem()?;
    Some(problem.number())
}

/// Ends a line, with the words that explain it, if there are some.
fn end_line<E: Write>(errors: &mut E, words: Option<&str>) -> io::Result<()> {
    match words {
        Some(words) => writeln!(errors, ": {words}"),
        None => writeln!(errors),
    }
}
