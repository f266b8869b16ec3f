use crate::text::Text;
use std::alloc::{AllocError, AllocFailed, Global};

/// What is wrong with a text.
#[derive(Debug, Drop)]
pub enum TextProblem {
    /// A limit is passed (K01).
    Limit,
    /// A character that is not allowed where it is (K02).
    BadCharacter,
    /// A quote that its line does not close (K03).
    UnclosedQuote,
    /// A file that is not among the sources (K08), by its path.
    MissingSource(Text),
    /// A file within itself (K09).
    RecursiveSource,
    /// A dollar that begins no reference to a variable, or a function (K10).
    BadReference,
    /// A variable that its own expansion needs (K11).
    RecursiveVariable,
}

/// Why a part of a line could not be read. The line adds its path and number.
#[derive(Drop)]
pub(crate) enum LineFault {
    Problem(TextProblem),
    NoMemory,
}

impl From<TextProblem> for LineFault {
    ghost use Rattle.std.specs.Prelude.{◌≡◌};
    ghost use Rattle.kc_text.specs.declared.fault.LineFault.TheVariants.{Problem};

    ghost from_gives = { λ problem fault. fault ≡ Problem problem };

    fn from(problem: TextProblem) -> LineFault {
        LineFault::Problem(problem)
    }
}

impl From<AllocError> for LineFault {
    ghost use Rattle.std.specs.Prelude.{◌≡◌};
    ghost use Rattle.kc_text.specs.declared.fault.LineFault.TheVariants.{NoMemory};

    ghost from_gives = { λ _ fault. fault ≡ NoMemory };

    fn from(_refused: AllocError) -> LineFault {
        LineFault::NoMemory
    }
}

impl<T: Drop> From<AllocFailed<T>> for LineFault {
    ghost use Rattle.std.specs.Prelude.{◌≡◌};
    ghost use Rattle.kc_text.specs.declared.fault.LineFault.TheVariants.{NoMemory};

    ghost from_gives = { λ _ fault. fault ≡ NoMemory };

    fn from(_refused: AllocFailed<T>) -> LineFault {
        LineFault::NoMemory
    }
}

/// Why texts have no logical lines, or could not be added.
#[derive(Debug, Drop)]
pub enum TextFault {
    /// The first problem, with the path of its file and its line, 0 where no line is at fault.
    At(TextProblem, Text, usize),
    /// Memory was refused.
    NoMemory,
}

impl TextProblem {
    ghost use Rattle.std.specs.Prelude.{◌≡◌};
    ghost use Rattle.kc_text.specs.Faults.{number_of};

    /// The number that is printed, as 3 in `K03`.
    pub fn number(&self) -> u8
        ensures { result ≡ number_of self.now }
    {
        match self {
            TextProblem::Limit => 1,
            TextProblem::BadCharacter => 2,
            TextProblem::UnclosedQuote => 3,
            TextProblem::MissingSource(_) => 8,
            TextProblem::RecursiveSource => 9,
            TextProblem::BadReference => 10,
            TextProblem::RecursiveVariable => 11,
        }
    }
}

impl TextFault {
    ghost use Rattle.std.specs.Prelude.{◌≡◌};
    ghost use Rattle.kc_text.specs.Faults.{IsFaultAt};

    /// A problem at a line of a file, with a copy of the file's path: `NoMemory` where that is refused.
    pub(crate) fn at(alloc: Global, problem: TextProblem, path: &str, line: usize) -> TextFault
        ensures { IsFaultAt result problem path.now line }
    {
        match Text::copy_of(alloc, path) {
            Ok(path) => TextFault::At(problem, path, line),
            Err(_) => TextFault::NoMemory,
        }
    }
}

impl From<AllocError> for TextFault {
    ghost use Rattle.std.specs.Prelude.{◌≡◌};
    ghost use Rattle.kc_text.specs.declared.fault.TextFault.TheVariants.{NoMemory};

    ghost from_gives = { λ _ fault. fault ≡ NoMemory };

    fn from(_refused: AllocError) -> TextFault {
        TextFault::NoMemory
    }
}

impl<T: Drop> From<AllocFailed<T>> for TextFault {
    ghost use Rattle.std.specs.Prelude.{◌≡◌};
    ghost use Rattle.kc_text.specs.declared.fault.TextFault.TheVariants.{NoMemory};

    ghost from_gives = { λ _ fault. fault ≡ NoMemory };

    fn from(_refused: AllocFailed<T>) -> TextFault {
        TextFault::NoMemory
    }
}

/// Why the text of a file that is asked for is not there.
#[derive(Drop)]
pub enum FileFault<E> {
    /// There is no room for it among the files that were read, or memory was refused.
    Files(TextFault),
    /// The folder does not give it.
    Folder(E),
}

/// Why files that are read as they are asked for have no logical lines.
#[derive(Drop)]
pub enum LinesFault<E> {
    /// The first fault of the lines.
    Text(TextFault),
    /// The text of a file that is wanted is not there, with the fault that it is missing: K08, with its path, at the
    /// line that wants it, or `NoMemory` where memory was refused for that fault.
    Stopped(FileFault<E>, TextFault),
}

impl<E: Drop> From<TextFault> for LinesFault<E> {
    ghost use Rattle.std.specs.Prelude.{◌≡◌};
    ghost use Rattle.kc_text.specs.declared.fault.LinesFault.TheVariants.{Text};

    ghost from_gives = { λ fault wide. wide ≡ Text fault };

    fn from(fault: TextFault) -> LinesFault<E> {
        LinesFault::Text(fault)
    }
}

impl<E: Drop> From<AllocError> for LinesFault<E> {
    ghost use Rattle.std.specs.Prelude.{◌≡◌};
    ghost use Rattle.kc_text.specs.declared.fault.LinesFault.TheVariants.{Text};
    ghost use Rattle.kc_text.specs.declared.fault.TextFault.TheVariants.{NoMemory};

    ghost from_gives = { λ _ fault. fault ≡ Text NoMemory };

    fn from(_refused: AllocError) -> LinesFault<E> {
        LinesFault::Text(TextFault::NoMemory)
    }
}

impl<E: Drop, T: Drop> From<AllocFailed<T>> for LinesFault<E> {
    ghost use Rattle.std.specs.Prelude.{◌≡◌};
    ghost use Rattle.kc_text.specs.declared.fault.LinesFault.TheVariants.{Text};
    ghost use Rattle.kc_text.specs.declared.fault.TextFault.TheVariants.{NoMemory};

    ghost from_gives = { λ _ fault. fault ≡ Text NoMemory };

    fn from(_refused: AllocFailed<T>) -> LinesFault<E> {
        LinesFault::Text(TextFault::NoMemory)
    }
}
