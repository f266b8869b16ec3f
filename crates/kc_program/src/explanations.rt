//! What is said of a fault in words: these, and the lines that show it.

use crate::files::Files;
use crate::messages::{Fault, Report};
use crate::notes::Note;
use crate::opening::{ConfigFile, Kconfig};
use crate::sourcing::{
    explain_recursion, explain_unread, explain_untrue, why_unread, words_of_bytes,
};
use kc_command_line::Wording;
use kc_explain::{
    Explanation, Naming, WarnedFile, explain_choice, explain_line, explain_loop, explain_symbol,
    explain_text, explain_warnings, fault_meaning, warning_meaning,
};
use kc_files::Warning;
use kc_folder::Folder;
use kc_text::{Text, TextFault, TextProblem};
use kc_tree::TreeFault;
use std::alloc::{AllocError, Global};

/// What is written after the number of a fault where no more is known.
pub fn after_fault(wording: Wording, number: u8) -> Option<&'static str> {
    match wording {
        Wording::Number => None,
        Wording::Explained => fault_meaning(number),
    }
}

/// What is written after the number of a warning where no more is known.
pub fn after_warning(wording: Wording, number: u8) -> Option<&'static str> {
    match wording {
        Wording::Number => None,
        Wording::Explained => warning_meaning(number),
    }
}

/// The report of a fault that reading a Kconfig came to, with what its files say of it where that is wanted.
pub fn report_of<F: Folder>(
    alloc: Global,
    fault: Fault,
    wording: Wording,
    files: &Files<'_>,
    kconfig: &Kconfig<'_, F>,
) -> Report {
    let note = match wording {
        Wording::Number => None,
        Wording::Explained => note_of(alloc, &fault, files, kconfig),
    };
    Report {
        fault,
        wording,
        note,
    }
}

/// What the command line names that is read before the Kconfig.
#[derive(Clone, Copy, PartialEq, Eq)]
pub enum Input {
    /// The file of `--variables`.
    Variables,
    /// The variables, and CONFIG.
    Config,
    /// A fragment.
    Fragment,
}

impl Input {
    /// What is said of a file that can't be read, after why.
    fn advice(self, path: &str) -> &'static str {
        match self {
            Input::Variables => OF_VARIABLES,
            Input::Config => "; write - in its place for none",
            Input::Fragment if path == "-" => "; only CONFIG can be - for none: leave this one out",
            Input::Fragment => "",
        }
    }
}

/// What is said of each fault of the file of variables.
const OF_VARIABLES: &str = " (--variables)";

/// The report of a fault of what is read before the Kconfig.
pub fn report_of_inputs<F: Folder>(
    alloc: Global,
    fault: Fault,
    wording: Wording,
    input: Input,
    folder: &F,
) -> Report {
    let words = match wording {
        Wording::Number => None,
        Wording::Explained => words_of_input(alloc, &fault, input, folder),
    };
    Report {
        fault,
        wording,
        note: words.map(|words| Note::of_words(alloc, words)),
    }
}

/// What is said of a fault of what is read before the Kconfig: nothing where memory is refused.
fn words_of_input<F: Folder>(
    alloc: Global,
    fault: &Fault,
    input: Input,
    folder: &F,
) -> Option<String> {
    match fault {
        Fault::CannotRead(path) => {
            let path = path.as_str();
            why_unread(alloc, folder, path, input.advice(path)).ok()
        }
        Fault::NotUtf8(path) => {
            let words = words_of_bytes(alloc, folder, path.as_str()).ok()?;
            format!(in alloc; "{words}{OF_VARIABLES}").ok()
        }
        Fault::Limit(_) => {
            format!(in alloc; "it has more than 16,777,216 bytes{OF_VARIABLES}").ok()
        }
        Fault::Text(TextFault::At(TextProblem::BadCharacter, ..)) => {
            let words = "its value has a line feed, a carriage return or a NUL";
            String::from_str(alloc, words).ok()
        }
        Fault::Text(TextFault::At(TextProblem::Limit, ..)) => {
            String::from_str(alloc, "its value has more than 65,536 bytes").ok()
        }
        _ => None,
    }
}

/// The report of a `.config` that is too long.
pub fn report_of_long_config(alloc: Global, config: &ConfigFile, wording: Wording) -> Report {
    let Ok(path) = Text::copy_of(alloc, config.path()) else {
        return Report::of(Fault::NoMemory, wording);
    };
    let words = match wording {
        Wording::Number => None,
        Wording::Explained => words_of_long_config(alloc, config).ok(),
    };
    Report {
        fault: Fault::Limit(path),
        wording,
        note: words.map(|words| Note::of_words(alloc, words)),
    }
}

/// What the files of a Kconfig say of its fault: nothing where memory is refused.
fn note_of<F: Folder>(
    alloc: Global,
    fault: &Fault,
    files: &Files<'_>,
    kconfig: &Kconfig<'_, F>,
) -> Option<Note> {
    let explanation = explain_fault(alloc, fault, files, kconfig).ok()??;
    Note::of(alloc, &explanation, files).ok()
}

/// What the files of a Kconfig say of its fault.
fn explain_fault<F: Folder>(
    alloc: Global,
    fault: &Fault,
    files: &Files<'_>,
    kconfig: &Kconfig<'_, F>,
) -> Result<Option<Explanation>, AllocError> {
    match fault {
        Fault::CannotRead(path) => Ok(Some(explain_unread(alloc, files, kconfig, path.as_str())?)),
        Fault::NotUtf8(path) => Ok(Some(explain_untrue(alloc, files, kconfig, path.as_str())?)),
        Fault::Limit(_) => {
            let words = words_of_long_config(alloc, kconfig.config)?;
            Ok(Some(Explanation::new(alloc, words)))
        }
        Fault::Text(fault) => explain_texts(alloc, fault, files, kconfig),
        Fault::Tree(fault) => explain_tree(alloc, fault, files),
        Fault::Stream(_) | Fault::NoMemory => Ok(None),
    }
}

/// What is said of a fault of a text.
fn explain_texts<F: Folder>(
    alloc: Global,
    fault: &TextFault,
    files: &Files<'_>,
    kconfig: &Kconfig<'_, F>,
) -> Result<Option<Explanation>, AllocError> {
    let TextFault::At(problem, path, line) = fault else {
        return Ok(None);
    };
    let path = path.as_str();
    let explanation = match problem {
        TextProblem::RecursiveSource => explain_recursion(alloc, files, kconfig, path, *line)?,
        _ => {
            let text = files.text(path).unwrap_or("");
            explain_text(alloc, text, problem, path, *line)?
        }
    };
    Ok(Some(explanation))
}

/// What the lines of a Kconfig say of a fault of its lines or of its tree.
fn explain_tree(
    alloc: Global,
    fault: &TreeFault,
    files: &Files<'_>,
) -> Result<Option<Explanation>, AllocError> {
    let lines = files.lines();
    let explanation = match fault {
        TreeFault::NoMemory => return Ok(None),
        TreeFault::Line {
            problem,
            path,
            line,
        } => {
            let path = path.as_str();
            let text = files.text(path).unwrap_or("");
            explain_line(alloc, lines, text, *problem, path, *line)?
        }
        TreeFault::Symbol { problem, name } => {
            explain_symbol(alloc, files.seed(), lines, *problem, name.as_str())?
        }
        TreeFault::Choice {
            problem,
            path,
            line,
        } => explain_choice(alloc, files.seed(), lines, *problem, path.as_str(), *line)?,
        TreeFault::Loop(nodes) => explain_loop(alloc, files.seed(), lines, nodes.as_slice())?,
    };
    Ok(Some(explanation))
}

/// What is said of a `.config` that is too long.
fn words_of_long_config(alloc: Global, config: &ConfigFile) -> Result<String, AllocError> {
    match config.long_line() {
        Some(number) => format!(in alloc; "line {number} has more than 65,536 bytes"),
        None => String::from_str(alloc, "it has more than 16,777,216 bytes"),
    }
}

/// What is written after the number of each warning of a `.config`, where that is wanted and can be had.
pub fn words_of_warnings<F: Folder>(
    alloc: Global,
    wording: Wording,
    files: &Files<'_>,
    kconfig: &Kconfig<'_, F>,
    warnings: &[Warning],
) -> Option<Vec<String>> {
    if wording == Wording::Number || warnings.is_empty() {
        return None;
    }
    let prefix = kconfig.prefix.as_str();
    let config = WarnedFile {
        bytes: kconfig.config.bytes(),
        warnings,
    };
    explain_warnings(alloc, files.lines(), prefix, &[config], Naming::Named).ok()
}
