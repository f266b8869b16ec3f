//! Which parts make a case, and in which order.

use crate::header::{Kind, Subject};
use crate::malformed::{CaseFault, Problem};
use crate::parts::Part;
use std::str::from_utf8;

/// What was seen of the parts of a case.
#[derive(Drop)]
struct Seen {
    has_kconfig: bool,
    /// Whether there are commands whose replies have not come yet.
    is_waiting: bool,
    has_replies: bool,
    has_fault: bool,
    has_loop: bool,
    has_cut: bool,
}

impl Seen {
    /// Adds a part, and gives what is wrong with it in its place.
    fn add(&mut self, part: &Part<'_>) -> Option<Problem> {
        match part.kind {
            Kind::File(path) => return self.add_file(part, path),
            Kind::Variables => {}
            Kind::Commands => self.is_waiting = true,
            Kind::Replies => return self.add_replies(),
            Kind::Fault => return self.add_fault(part),
            Kind::Loop | Kind::LoopInOrder => return self.add_loop(part),
            Kind::Cut(subject) => return self.add_cut(part, subject),
            Kind::Input
            | Kind::Run(_)
            | Kind::LastLines
            | Kind::Errors
            | Kind::Explained
            | Kind::Status(_) => return Some(Problem::NoRun),
        }
        None
    }

    /// Adds lines of a file, which have to be a text.
    fn add_file(&mut self, part: &Part<'_>, path: &str) -> Option<Problem> {
        self.has_kconfig = self.has_kconfig || path == "Kconfig";
        if from_utf8(part.bytes.as_slice()).is_err() {
            return Some(Problem::NoText);
        }
        None
    }

    fn add_replies(&mut self) -> Option<Problem> {
        if !self.is_waiting {
            return Some(Problem::RepliesWithoutCommands);
        }
        self.is_waiting = false;
        self.has_replies = true;
        None
    }

    /// Adds the one fault of a case.
    fn add_fault(&mut self, part: &Part<'_>) -> Option<Problem> {
        if self.has_fault || self.has_loop {
            return Some(Problem::SecondFault);
        }
        self.has_fault = true;
        empty_problem(part)
    }

    /// Adds one of the loops that may be reported.
    fn add_loop(&mut self, part: &Part<'_>) -> Option<Problem> {
        if self.has_fault {
            return Some(Problem::SecondFault);
        }
        self.has_loop = true;
        empty_problem(part)
    }

    /// Adds a text whose beginnings are wanted. It may be the Kconfig itself.
    fn add_cut(&mut self, part: &Part<'_>, subject: Subject) -> Option<Problem> {
        if let Subject::Kconfig = subject {
            self.has_kconfig = true;
        }
        self.has_cut = true;
        empty_problem(part)
    }

    /// What is wrong with a case that has no further parts.
    fn ending_problem(&self) -> Option<Problem> {
        let wants_fault = self.has_fault || self.has_loop;
        if !self.has_kconfig {
            Some(Problem::NoKconfig)
        } else if self.is_waiting {
            Some(Problem::CommandsWithoutReplies)
        } else if self.has_replies && wants_fault {
            Some(Problem::RepliesAndFault)
        } else if self.has_cut && (self.has_replies || wants_fault) {
            Some(Problem::CutAndOther)
        } else if !self.has_replies && !wants_fault && !self.has_cut {
            Some(Problem::NothingWanted)
        } else {
            None
        }
    }
}

fn empty_problem(part: &Part<'_>) -> Option<Problem> {
    if part.bytes.is_empty() {
        Some(Problem::EmptySection)
    } else {
        None
    }
}

/// Checks that parts make a case, which begins at this line: one or more files with a Kconfig among them, and then
/// commands with replies, or one fault, or loops, or cuts.
///
/// # Errors
///
/// `CaseFault::Malformed` with the line of the first part that may not stand where it does, or with that of the case
/// where a part is missing.
pub(crate) fn check_sequence(parts: &[Part<'_>], line: usize) -> Result<(), CaseFault> {
    let mut seen = Seen {
        has_kconfig: false,
        is_waiting: false,
        has_replies: false,
        has_fault: false,
        has_loop: false,
        has_cut: false,
    };
    for part in parts {
        if let Some(problem) = seen.add(part) {
            return Err(CaseFault::Malformed(part.line, problem));
        }
    }
    match seen.ending_problem() {
        Some(problem) => Err(CaseFault::Malformed(line, problem)),
        None => Ok(()),
    }
}
