//! Files of cases: each is read, its cases are run, and what does not pass is reported.

use crate::blocks::{Block, cases_of, check_text, marked_text};
use crate::malformed::CaseFault;
use crate::outcome::{Difference, outcome_of};
use std::alloc::{AllocError, Global};
use std::fs;
use std::io::{self, Error, Write};
use std::rt::Files;

/// What the name of a file of cases ends with.
const ENDING: &str = ".cases";

/// What the cases of files come to.
#[derive(Clone, Copy)]
struct Tally {
    /// How many cases there are.
    cases: usize,
    /// How many reports there are: cases that do not pass, and files at fault.
    reports: usize,
}

impl Tally {
    fn add(&mut self, other: Tally) {
        self.cases = self.cases.saturating_add(other.cases);
        self.reports = self.reports.saturating_add(other.reports);
    }
}

/// Runs the cases of the files of these paths, and writes a line for each file with the number of its cases, and a last
/// one with the sum. Before the line of a file is what does not pass of it.
///
/// It gives whether there are cases and all passed. It is a fault, too, where the working directory has files of cases
/// that are not named.
pub(crate) fn run_files<R: Files + AllocGlobal + Clone + Drop, W: Write>(
    rt: &R,
    paths: &[String],
    out: &mut W,
) -> io::Result<bool> {
    let mut all = Tally {
        cases: 0,
        reports: report_unnamed(rt, paths, out)?,
    };
    for path in paths {
        let tally = run_path(rt, path.as_str(), out)?;
        let cases = tally.cases;
        writeln!(out, "{path}: {cases}")?;
        all.add(tally);
    }
    let cases = all.cases;
    writeln!(out, "all: {cases}")?;
    out.flush()?;
    Ok(all.reports == 0 && all.cases != 0)
}

/// Reports each file of cases of the working directory that is not among the paths, and gives how many there are.
fn report_unnamed<R: Files + AllocGlobal + Clone + Drop, W: Write>(
    rt: &R,
    paths: &[String],
    out: &mut W,
) -> io::Result<usize> {
    let mut count = 0usize;
    for entry in fs::read_dir(rt, ".")? {
        let entry = entry?;
        let name = entry.file_name();
        if name.ends_with(ENDING) && !paths.iter().any(|path| path.as_str() == name) {
            writeln!(out, "{name}: not named")?;
            count = count.saturating_add(1);
        }
    }
    Ok(count)
}

/// Runs the cases of the file of a path. One that can't be read is reported.
fn run_path<R: Files + AllocGlobal, W: Write>(
    rt: &R,
    path: &str,
    out: &mut W,
) -> io::Result<Tally> {
    match fs::read_to_string(rt, path) {
        Ok(text) => run_file(rt.alloc(), path, text.as_str(), out),
        Err(error) => {
            writeln!(out, "{path}: {error}")?;
            Ok(Tally {
                cases: 0,
                reports: 1,
            })
        }
    }
}

/// Runs the cases of a file. One without cases is reported.
fn run_file<W: Write>(alloc: Global, path: &str, text: &str, out: &mut W) -> io::Result<Tally> {
    let text = marked_text(alloc, text)?;
    let mut tally = Tally {
        cases: 0,
        reports: 0,
    };
    if let Err(fault) = check_text(text.as_str()) {
        report_fault(path, &fault, out)?;
        tally.reports = 1;
    }
    for case in cases_of(alloc, text.as_str())?.iter() {
        tally.add(run_case(alloc, path, case, out)?);
    }
    if tally.cases == 0 {
        writeln!(out, "{path}: no cases")?;
        tally.reports = tally.reports.saturating_add(1);
    }
    Ok(tally)
}

/// Runs a case, and reports it where it does not pass.
fn run_case<W: Write>(
    alloc: Global,
    path: &str,
    case: &Block<'_>,
    out: &mut W,
) -> io::Result<Tally> {
    let reports = match outcome_of(alloc, case) {
        Ok(None) => 0,
        Ok(Some(difference)) => {
            report_difference(path, case.head(), &difference, out)?;
            1
        }
        Err(fault) => {
            report_fault(path, &fault, out)?;
            1
        }
    };
    Ok(Tally { cases: 1, reports })
}

/// Reports a case that can't be read: `PATH:LINE: ..`. Where memory is refused there is no report but the error.
fn report_fault<W: Write>(path: &str, fault: &CaseFault, out: &mut W) -> io::Result<()> {
    match fault {
        CaseFault::Malformed(line, problem) => writeln!(out, "{path}:{line}: {problem}"),
        CaseFault::NoMemory => Err(Error::from(AllocError)),
    }
}

/// Reports a difference by the file, the line and the title of its case, and by both texts.
fn report_difference<W: Write>(
    path: &str,
    title: &str,
    difference: &Difference,
    out: &mut W,
) -> io::Result<()> {
    let Difference {
        line,
        wanted,
        found,
    } = difference;
    writeln!(out, "{path}:{line}: {title}")?;
    write!(out, "--- wanted\n{wanted}")?;
    write!(out, "--- found\n{found}")
}
