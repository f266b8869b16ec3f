//! Variables that are missing and files that are included twice, in words.

use crate::said::Said;
use kc_line_facts::{EarlierFault, EarlierFinding, VariableFile, use_in};
use kc_text::{Line, LineKind};
use std::alloc::{AllocError, Global};
use std::collections::BTreeMap;

/// What is said of what is found before lines.
#[derive(Drop)]
pub(crate) struct EarlierWords<'l> {
    /// Of each inclusion of a file, by its number, the path of the file.
    paths: BTreeMap<usize, &'l str>,
}

impl<'l> EarlierWords<'l> {
    /// What is said of the files of lines.
    ///
    /// # Errors
    ///
    /// `AllocError` where memory is refused.
    pub fn of(alloc: Global, lines: &'l [Line<'_>]) -> Result<EarlierWords<'l>, AllocError> {
        Ok(EarlierWords {
            paths: paths_by_run(alloc, lines)?,
        })
    }

    /// What is said of one finding in files.
    ///
    /// # Errors
    ///
    /// `AllocError` where memory is refused.
    pub fn said(
        &self,
        alloc: Global,
        files: &[VariableFile<'_>],
        earlier: &EarlierFinding,
    ) -> Result<Said, AllocError> {
        match earlier.fault {
            EarlierFault::Missing(number) => said_of_missing(alloc, files, earlier.file, number),
            EarlierFault::SourcedAgain {
                run,
                first_file,
                first_line,
                ..
            } => {
                let path = self.paths.get(&run).copied().unwrap_or("");
                let before = path_of(files, first_file);
                let words = format!(in alloc; "{path} is sourced in {before}:{first_line}, too")?;
                Said::of(alloc, "", words)
            }
        }
    }
}

/// That the variable of the use of a number in the file of a number is missing.
fn said_of_missing(
    alloc: Global,
    files: &[VariableFile<'_>],
    file: usize,
    number: usize,
) -> Result<Said, AllocError> {
    let words = String::from_str(alloc, "not given, and no line defines it")?;
    match use_in(files, file, number) {
        Some(variable) => Said::of(alloc, variable.name.as_str(), words),
        None => Said::of(alloc, "", words),
    }
}

/// The path of the file of a number.
fn path_of<'v>(files: &'v [VariableFile<'_>], file: usize) -> &'v str {
    match files.get(file) {
        Some(file) => file.path,
        None => "",
    }
}

/// Of each inclusion of a file, by its number, the path of the file.
fn paths_by_run<'l>(
    alloc: Global,
    lines: &'l [Line<'_>],
) -> Result<BTreeMap<usize, &'l str>, AllocError> {
    let mut paths = BTreeMap::new(alloc);
    for line in lines {
        if line.kind() == LineKind::EndOfFile {
            paths.insert(line.run(), line.path())?;
        }
    }
    Ok(paths)
}
