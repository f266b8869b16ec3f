//! The fragments of `merge` and `how`.

use crate::explanations::{Input, report_of_inputs, report_of_long_config};
use crate::messages::{Fault, Report};
use crate::opening::{ConfigFile, read_config_file};
use kc_command_line::{Arguments, Target};
use kc_folder::Folder;
use std::alloc::Global;

/// The fragments of a command line. Each has to be short enough for a `.config`.
pub(crate) fn read_fragments<F: Folder>(
    alloc: Global,
    arguments: &Arguments<'_>,
    folder: &F,
) -> Result<Vec<ConfigFile>, Report> {
    let mut fragments = Vec::new(alloc);
    if !matches!(arguments.target, Target::Merge | Target::How) {
        return Ok(fragments);
    }
    for path in arguments.operands.as_slice() {
        let fragment = read_fragment(alloc, arguments, folder, path)?;
        if fragments.push(fragment).is_err() {
            return Err(Report::of(Fault::NoMemory, arguments.wording));
        }
    }
    Ok(fragments)
}

/// The fragment of a path.
fn read_fragment<F: Folder>(
    alloc: Global,
    arguments: &Arguments<'_>,
    folder: &F,
    path: &str,
) -> Result<ConfigFile, Report> {
    let wording = arguments.wording;
    let fragment = match read_config_file(alloc, folder, path) {
        Ok(fragment) => fragment,
        Err(fault) => {
            return Err(report_of_inputs(alloc, fault, wording, Input::Fragment, folder));
        }
    };
    if fragment.is_too_long() {
        return Err(report_of_long_config(alloc, &fragment, wording));
    }
    Ok(fragment)
}
