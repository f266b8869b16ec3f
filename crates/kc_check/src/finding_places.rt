//! The lines of files in which findings are.

ghost use Rattle.std.specs.Prelude.{◌≡◌, IfOk};
ghost use Rattle.kc_check.specs.FindingPlaces.{earlier_number, earlier_place, fault_line, line_place, nth_earlier_place, place_of, use_line};

use crate::finding::FoundAt;
use kc_facts::{FoundInTree, TreeFinding};
use kc_line_facts::{EarlierFault, EarlierFinding, VariableFile, use_in};
use kc_text::Line;
use std::alloc::{AllocError, Global};

/// Where findings are: the logical lines of the tree, the files of the Kconfig, and what is found before lines.
#[derive(Clone, Copy)]
pub(crate) struct FindingPlaces<'l, 'a, 'v, 'i, 'e> {
    pub lines: &'l [Line<'a>],
    pub files: &'v [VariableFile<'i>],
    pub earlier: &'e [EarlierFinding],
}

/// The number of what comes before a line.
fn earlier_number(finding: &TreeFinding) -> Option<usize>
    ensures { result ≡ earlier_number finding.now }
{
    match finding {
        TreeFinding::Earlier(number) => Some(*number),
        _ => None,
    }
}

/// The number of the line of the use of a number in the file of a number.
fn use_line(files: &[VariableFile<'_>], file: usize, number: usize) -> usize
    ensures { result ≡ use_line files.now file number }
{
    match use_in(files, file, number) {
        Some(variable) => variable.line,
        None => 0,
    }
}

/// The number of the line of a fault in the file of a number.
fn fault_line(files: &[VariableFile<'_>], file: usize, fault: EarlierFault) -> usize
    ensures { result ≡ fault_line files.now file fault }
{
    match fault {
        EarlierFault::Missing(number) => use_line(files, file, number),
        EarlierFault::SourcedAgain { line, .. } => line,
    }
}

/// The line of what is found before others.
fn earlier_place(
    alloc: Global,
    files: &[VariableFile<'_>],
    earlier: &EarlierFinding,
) -> Result<Option<FoundAt>, AllocError>
    ensures { IfOk result (λ at. at ≡ earlier_place files.now earlier.now) }
{
    let Some(file) = files.get(earlier.file) else {
        return Ok(None);
    };
    let line = fault_line(files, earlier.file, earlier.fault);
    Ok(Some(FoundAt::new(alloc, file.path, line)?))
}

impl FindingPlaces<'_, '_, '_, '_, '_> {
    /// The line of what is found before others, by its number.
    fn of_earlier(&self, alloc: Global, number: usize) -> Result<Option<FoundAt>, AllocError>
        ensures { IfOk result (λ at. at ≡ nth_earlier_place self.now.files.now self.now.earlier.now number) }
    {
        match self.earlier.get(number) {
            Some(earlier) => earlier_place(alloc, self.files, earlier),
            None => Ok(None),
        }
    }

    /// The logical line of a number.
    fn of_line(&self, alloc: Global, number: usize) -> Result<Option<FoundAt>, AllocError>
        ensures { IfOk result (λ at. at ≡ line_place self.now.lines.now number) }
    {
        match self.lines.get(number) {
            Some(line) => Ok(Some(FoundAt::new(alloc, line.path(), line.number())?)),
            None => Ok(None),
        }
    }

    /// The line in which a finding is.
    ///
    /// # Errors
    ///
    /// `AllocError` where memory is refused.
    pub fn of(&self, alloc: Global, found: &FoundInTree) -> Result<Option<FoundAt>, AllocError>
        ensures { IfOk result (λ at. at ≡ place_of self.now.lines.now self.now.files.now self.now.earlier.now found.now) }
    {
        match earlier_number(&found.finding) {
            Some(number) => self.of_earlier(alloc, number),
            None => self.of_line(alloc, found.line),
        }
    }
}
