//! The target `files`: the paths of the files that a Kconfig is read from.

use crate::exchanged::ask_of_exchange;
use crate::explanations::report_of;
use crate::files::Files;
use crate::messages::{Fault, Report, Status};
use crate::opening::{Kconfig, open_kconfig};
use bumpalo::Bump;
use kc_command_line::Wording;
use kc_folder::{Folder, paths_read};
use kc_session::IoFault;
use kc_value::Resolver;
use std::alloc::Global;
use std::io::Write;
use std::mem;

/// Writes the paths of the files of a Kconfig, one on each line, each once, in the order in which they are first read.
///
/// # Errors
///
/// The fault of the Kconfig, with no path written, and one of the output or of memory.
pub(crate) fn list_files<F: Folder, W: Write, E: Write>(
    alloc: Global,
    kconfig: &Kconfig<'_, F>,
    wording: Wording,
    output: &mut W,
    errors: &mut E,
) -> Result<Status, Report> {
    let arena = Bump::new(alloc);
    list_those_read(alloc, &arena, kconfig, wording, output, errors)
}

/// Reads the files of a Kconfig, which the arena keeps, and writes their paths.
fn list_those_read<'a, 'k: 'a, F: Folder, W: Write, E: Write>(
    alloc: Global,
    arena: &'a Bump,
    kconfig: &Kconfig<'k, F>,
    wording: Wording,
    output: &mut W,
    errors: &mut E,
) -> Result<Status, Report> {
    let mut files = Files::read(alloc, arena, kconfig);
    match open_kconfig(&mut files, kconfig) {
        Ok((session, _)) => {
            let symbols = session.tree().symbols().len();
            ask_of_exchange(symbols, &files, kconfig, wording, errors);
            // The program ends soon, so the memory need not be given back piece by piece.
            mem::forget(session);
        }
        Err(fault) => return Err(report_of(alloc, fault, wording, &files, kconfig)),
    }
    match write_paths(alloc, &files, output) {
        Ok(()) => Ok(Status::Done),
        Err(fault) => Err(Report::of(fault, wording)),
    }
}

/// Writes the paths of files without a fault.
fn write_paths<W: Write>(alloc: Global, files: &Files<'_>, output: &mut W) -> Result<(), Fault> {
    let mut text = String::new(alloc);
    for path in paths_read(alloc, files.lines())? {
        text.push_str(path)?;
        text.push_str("\n")?;
    }
    if output.write_all(text.as_str().as_bytes()).is_err() || output.flush().is_err() {
        return Err(Fault::Stream(IoFault::Write));
    }
    Ok(())
}
