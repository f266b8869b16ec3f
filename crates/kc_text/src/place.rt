ghost use Rattle.kc_text.specs.declared.fault.TextProblem.TheVariants.{MissingSource};
ghost use Rattle.kc_text.specs.Faults.{IsFaultAt};
ghost use Rattle.kc_text.specs.Scanning.{place_of, IsPlacedFault};

use crate::fault::{LineFault, TextFault, TextProblem};
use crate::line::PlacedFile;
use crate::text::Text;
use std::alloc::Global;

/// A line's inclusion of a file, and its number there.
#[derive(Clone, Copy)]
pub(crate) struct Place<'a> {
    pub(crate) file: &'a PlacedFile<'a>,
    pub(crate) number: usize,
}

impl<'a> Place<'a> {
    /// The fault of what could not be read at the place.
    pub(crate) fn fault(self, alloc: Global, fault: LineFault) -> TextFault
        ensures { IsPlacedFault result (place_of self.entry) fault }
    {
        match fault {
            LineFault::Problem(problem) => self.problem(alloc, problem),
            LineFault::NoMemory => TextFault::NoMemory,
        }
    }

    /// The fault of a problem at the place.
    pub(crate) fn problem(self, alloc: Global, problem: TextProblem) -> TextFault
        ensures { IsFaultAt result problem self.entry.file.now.path self.entry.number }
    {
        TextFault::at(alloc, problem, self.file.path.as_str(), self.number)
    }

    /// The fault that the file of a path, which the line wants, is not among the sources.
    pub(crate) fn missing_source(self, alloc: Global, wanted: &str) -> TextFault
        ensures { IsFaultAt result (MissingSource wanted.now) self.entry.file.now.path self.entry.number }
    {
        match Text::copy_of(alloc, wanted) {
            Ok(wanted) => self.problem(alloc, TextProblem::MissingSource(wanted)),
            Err(_) => TextFault::NoMemory,
        }
    }
}
