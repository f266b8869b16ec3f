//! Cases of the whole program: the words of a command line, over files and an input in memory, and what the run is wanted
//! to write.

use crate::escapes::push_unescaped;
use crate::header::Kind;
use crate::malformed::{CaseFault, Problem};
use crate::outcome::Difference;
use crate::parts::{Part, file_bytes, has_directory};
use crate::run_results::{Results, difference_of};
use kc_program::{Folder, FolderFault, program};
use std::alloc::{AllocError, Global};

/// The word that asks for explanations.
const EXPLAIN: &str = "--explain";

/// A run of the program, and what it is wanted to give.
#[derive(Drop)]
struct Run<'a> {
    /// The line of its header.
    line: usize,
    /// The words of its command line, with the name of the program.
    words: Vec<String>,
    input: Vec<u8>,
    output: &'a str,
    /// What the output ends with, where that is all that is wanted of it.
    last_lines: Option<&'a str>,
    errors: Option<&'a str>,
    explained: Option<&'a str>,
    status: Option<u8>,
}

/// The files of a case.
#[derive(Drop)]
struct CaseFolder<'a> {
    parts: &'a [Part<'a>],
}

impl Folder for CaseFolder<'_> {
    fn read_bytes(&self, alloc: Global, path: &str) -> Result<Vec<u8>, FolderFault> {
        match file_bytes(alloc, self.parts, path) {
            Ok(Some(bytes)) => Ok(bytes),
            Ok(None) => Err(FolderFault::CannotRead),
            Err(_) => Err(FolderFault::NoMemory),
        }
    }

    fn read_plain(&self, alloc: Global, path: &str) -> Result<Vec<u8>, FolderFault> {
        self.read_bytes(alloc, path)
    }

    fn why_unread(&self, alloc: Global, _path: &str) -> Result<String, AllocError> {
        String::from_str(alloc, "no such file")
    }

    fn lacks_directory(&self, path: &str) -> bool {
        !has_directory(self.parts, path)
    }
}

/// Whether a case has runs of the program.
pub(crate) fn has_runs(parts: &[Part<'_>]) -> bool {
    parts.iter().any(|part| matches!(part.kind, Kind::Run(_)))
}

/// Runs the program as a case says. It gives the first difference.
///
/// # Errors
///
/// `CaseFault::Malformed` with the line of the first part that may not be where it is.
pub(crate) fn runs_outcome<'a>(
    alloc: Global,
    parts: &'a [Part<'a>],
) -> Result<Option<Difference>, CaseFault> {
    let folder = CaseFolder { parts };
    for run in runs_of(alloc, parts)?.iter() {
        let difference = run_outcome(alloc, &folder, run)?;
        if difference.is_some() {
            return Ok(difference);
        }
    }
    Ok(None)
}

/// The runs of a case. Inputs that follow each other are one, and it is that of all runs up to the next one.
fn runs_of<'a>(alloc: Global, parts: &'a [Part<'a>]) -> Result<Vec<Run<'a>>, CaseFault> {
    let mut runs = Vec::new(alloc);
    let mut input = Vec::new(alloc);
    let mut is_open = true;
    for part in parts {
        match part.kind {
            Kind::File(_) => {}
            Kind::Input => {
                if !is_open {
                    input.clear();
                }
                input.extend_from_slice(part.bytes.as_slice())?;
                is_open = true;
            }
            Kind::Run(words) => {
                runs.push(new_run(alloc, part, words, input.as_slice())?)?;
                is_open = false;
            }
            _ => match runs.last_mut() {
                Some(run) => add_result(run, part)?,
                None => return Err(CaseFault::Malformed(part.line, Problem::NoRun)),
            },
        }
    }
    Ok(runs)
}

/// The run of a part with these words. It wants nothing but its output yet.
fn new_run<'a>(
    alloc: Global,
    part: &'a Part<'a>,
    words: &str,
    input: &[u8],
) -> Result<Run<'a>, CaseFault> {
    Ok(Run {
        line: part.line,
        words: words_of(alloc, part, words)?,
        input: input.to_vec(alloc)?,
        output: part.text(),
        last_lines: None,
        errors: None,
        explained: None,
        status: None,
    })
}

/// The words of a command line, with the name of the program before them.
fn words_of(alloc: Global, part: &Part<'_>, line: &str) -> Result<Vec<String>, CaseFault> {
    let mut words = Vec::new(alloc);
    words.push(String::from_str(alloc, "kconf")?)?;
    for word in line.split_whitespace() {
        words.push(word_of(alloc, part, word)?)?;
    }
    Ok(words)
}

/// A word, in which escapes are what they are in the text of its part.
fn word_of(alloc: Global, part: &Part<'_>, word: &str) -> Result<String, CaseFault> {
    if !part.is_escaped {
        return Ok(String::from_str(alloc, word)?);
    }
    let mut bytes = Vec::new(alloc);
    let _ = push_unescaped(&mut bytes, word, part.line)?;
    match String::from_utf8(bytes) {
        Ok(word) => Ok(word),
        Err(_) => Err(CaseFault::Malformed(part.line, Problem::NoText)),
    }
}

/// Adds what is wanted of a run.
fn add_result<'a>(run: &mut Run<'a>, part: &'a Part<'a>) -> Result<(), CaseFault> {
    let is_second = match part.kind {
        Kind::LastLines => run.last_lines.replace(part.text()).is_some(),
        Kind::Errors => run.errors.replace(part.text()).is_some(),
        Kind::Explained => run.explained.replace(part.text()).is_some(),
        Kind::Status(status) => run.status.replace(status).is_some(),
        _ => return Err(CaseFault::Malformed(part.line, Problem::RunAndOther)),
    };
    if is_second {
        return Err(CaseFault::Malformed(part.line, Problem::SecondResult));
    }
    if let Kind::Status(_) = part.kind
        && !part.bytes.is_empty()
    {
        return Err(CaseFault::Malformed(part.line, Problem::StatusWithText));
    }
    Ok(())
}

/// Runs the program, and once more with `--explain` where a text is wanted of that.
fn run_outcome(
    alloc: Global,
    folder: &CaseFolder<'_>,
    run: &Run<'_>,
) -> Result<Option<Difference>, AllocError> {
    let mut words = Vec::new(alloc);
    words.extend(run.words.iter().map(|word| word.as_str()))?;
    let first = outcome_of(alloc, folder, run, words.as_slice(), run.errors)?;
    if first.is_some() || run.explained.is_none() {
        return Ok(first);
    }
    words.push(EXPLAIN)?;
    outcome_of(alloc, folder, run, words.as_slice(), run.explained)
}

/// Runs the program on words, and compares what it gives with what a run wants, and with these errors.
fn outcome_of(
    alloc: Global,
    folder: &CaseFolder<'_>,
    run: &Run<'_>,
    words: &[&str],
    errors: Option<&str>,
) -> Result<Option<Difference>, AllocError> {
    let mut input = run.input.as_slice();
    let mut output = Vec::new(alloc);
    let mut written = Vec::new(alloc);
    let status = program(alloc, words, folder, &mut input, &mut output, &mut written);
    let found = Results {
        output: String::from_utf8_lossy(alloc, output.as_slice())?,
        errors: String::from_utf8_lossy(alloc, written.as_slice())?,
        status,
    };
    let wanted = wanted_of(alloc, run, &found, errors)?;
    difference_of(alloc, run.line, &wanted, &found)
}

/// What a run wants.
fn wanted_of(
    alloc: Global,
    run: &Run<'_>,
    found: &Results,
    errors: Option<&str>,
) -> Result<Results, AllocError> {
    let status = run.status.unwrap_or(0);
    let output = match run.last_lines {
        Some(end) => wanted_end(end, found.output.as_str()),
        None => run.output,
    };
    let errors = match errors {
        Some(errors) => errors,
        None => wanted_errors(status, found.errors.as_str()),
    };
    Ok(Results {
        output: String::from_str(alloc, output)?,
        errors: String::from_str(alloc, errors)?,
        status,
    })
}

/// The output that is wanted where it is to end so: what is found, if that ends so.
fn wanted_end<'a>(end: &'a str, found: &'a str) -> &'a str {
    if found.ends_with(end) { found } else { end }
}

/// The errors that are wanted where a run names none. With the status 2 any are right, but not none.
fn wanted_errors(status: u8, found: &str) -> &str {
    if status == 2 && !found.is_empty() {
        found
    } else {
        ""
    }
}
