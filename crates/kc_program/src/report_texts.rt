//! The texts of the targets that report, each from the lines of a Kconfig and a session of it.

use crate::messages::Status;
use crate::opening::ConfigFile;
use crate::reports::{Outcome, ReportInputs};
use kc_check::{CheckInputs, Judged, SourceText, check};
use kc_explain::{Naming, WarnedFile, explain_warnings};
use kc_facts::View;
use kc_files::{ConfigLine, Input, LineSays, ReadFault, Warning, WarningKind, read_config_lines};
use kc_folder::paths_read;
use kc_line_facts::symbol_names;
use kc_lines::LineIndex;
use kc_menu::{Help, menu_text};
use kc_merge_report::{effects_before, merge_report};
use kc_names::{MeantNames, push_meant};
use kc_report::{Extent, why_text};
use kc_session::{Body, MergeFault, Session, merged};
use kc_tree::{SymId, Tree};
use kc_value::Resolver;
use std::alloc::{AllocError, Global};

/// What is said of a name that is no symbol's.
const NO_SYMBOL: &str = "no such symbol";

/// The report of `why`: of each symbol that is named. Where a name is no symbol's, that is reported, and nothing else.
pub(crate) fn why_outcome(
    alloc: Global,
    inputs: &ReportInputs<'_, '_>,
    session: &mut Session,
    warnings: Vec<Warning>,
) -> Result<Outcome, AllocError> {
    let names = inputs.arguments.operands.as_slice();
    let prefix = inputs.arguments.prefix.as_str();
    let errors = unknown_names(alloc, session.tree(), prefix, names)?;
    if !errors.is_empty() {
        return Ok(Outcome {
            output: String::new(alloc),
            errors,
            warnings,
            status: Status::Fault,
        });
    }
    session.fill_all()?;
    let view = View::new(session.solved());
    let index = LineIndex::of(alloc, inputs.lines)?;
    let output = why_texts(alloc, inputs, &view, &index)?;
    Ok(Outcome::of_output(alloc, output, warnings))
}

/// The texts of the symbols that are named, with an empty line between two.
fn why_texts(
    alloc: Global,
    inputs: &ReportInputs<'_, '_>,
    view: &View<'_>,
    index: &LineIndex<'_, '_>,
) -> Result<String, AllocError> {
    let extent = if inputs.arguments.is_all {
        Extent::All
    } else {
        Extent::Short
    };
    let mut texts = String::new(alloc);
    for name in inputs.arguments.operands.as_slice() {
        let Some(symbol) = symbol_of(view.tree(), inputs.arguments.prefix.as_str(), name) else {
            continue;
        };
        if !texts.is_empty() {
            texts.push('\n')?;
        }
        let text = why_text(alloc, view, index, symbol, extent)?;
        texts.push_str(text.as_str())?;
    }
    Ok(texts)
}

/// The symbol of a name, with the prefix or without it.
fn symbol_of(tree: &Tree, prefix: &str, name: &str) -> Option<SymId> {
    match tree.find(name) {
        Some(symbol) => Some(symbol),
        None => tree.find(name.strip_prefix(prefix)?),
    }
}

/// A line for each name that is no symbol's, with the symbol that it may have been meant as.
fn unknown_names(
    alloc: Global,
    tree: &Tree,
    prefix: &str,
    names: &[&str],
) -> Result<String, AllocError> {
    let mut errors = String::new(alloc);
    if names
        .iter()
        .all(|name| symbol_of(tree, prefix, name).is_some())
    {
        return Ok(errors);
    }
    let meant = MeantNames::of(alloc, symbol_names(alloc, tree)?, names.len())?;
    for name in names {
        if symbol_of(tree, prefix, name).is_none() {
            write!(errors, "kconf: {name}: {NO_SYMBOL}")?;
            push_meant(&mut errors, meant.meant(prefix, name))?;
            errors.push('\n')?;
        }
    }
    Ok(errors)
}

/// The report of `check`: the findings, also those of the lines of CONFIG that others warn of.
pub(crate) fn check_outcome(
    alloc: Global,
    inputs: &ReportInputs<'_, '_>,
    session: &mut Session,
    warnings: &[Warning],
) -> Result<Outcome, AllocError> {
    session.fill_all()?;
    let view = View::new(session.solved());
    let index = LineIndex::of(alloc, inputs.lines)?;
    let unusable = unusable_words(alloc, inputs, warnings)?;
    let given = names_of(alloc, inputs.variables)?;
    let sources = source_texts(alloc, inputs)?;
    let checked = CheckInputs {
        lines: inputs.lines,
        prefix: &inputs.arguments.prefix,
        config: inputs.arguments.config.map(|_| input_of(inputs.config)),
        unusable: unusable.as_slice(),
        given: given.as_slice(),
        sources: sources.as_slice(),
    };
    let extent = if inputs.arguments.is_all {
        kc_line_facts::Extent::All
    } else {
        kc_line_facts::Extent::Near
    };
    let findings = read_again(check(alloc, &view, &index, &checked, extent))?;
    let output = findings.to_text(alloc)?;
    let judged = if inputs.arguments.judges_tree {
        Judged::All
    } else {
        Judged::Config
    };
    let is_at_fault = inputs.arguments.is_strict && findings.has_any(judged);
    Ok(Outcome {
        output,
        errors: String::new(alloc),
        warnings: Vec::new(alloc),
        status: status_of(is_at_fault),
    })
}

/// What is said of each line of CONFIG that can't be used, in their order.
fn unusable_words(
    alloc: Global,
    inputs: &ReportInputs<'_, '_>,
    warnings: &[Warning],
) -> Result<Vec<String>, AllocError> {
    let unusable: Vec<Warning> = warnings
        .iter()
        .copied()
        .filter(|warning| warning.kind != WarningKind::Repeated)
        .collect(alloc)?;
    let config = WarnedFile {
        bytes: inputs.config.bytes(),
        warnings: unusable.as_slice(),
    };
    let prefix = inputs.arguments.prefix.as_str();
    explain_warnings(alloc, inputs.lines, prefix, &[config], Naming::NamedBefore)
}

/// What is said of each line of the fragments that can't be used, in their order.
pub(crate) fn unusable_words_of_files(
    alloc: Global,
    inputs: &ReportInputs<'_, '_>,
    tree: &Tree,
    fragments: &[Input<'_>],
) -> Result<Vec<String>, AllocError> {
    let prefix = &inputs.arguments.prefix;
    let mut warnings = Vec::new(alloc);
    for fragment in fragments {
        let lines = read_again(read_config_lines(alloc, tree, prefix, fragment.bytes))?;
        warnings.push(warnings_of(alloc, lines.as_slice())?)?;
    }
    let mut files = Vec::new(alloc);
    for (fragment, warnings) in fragments.iter().zip(warnings.as_slice()) {
        files.push(WarnedFile {
            bytes: fragment.bytes,
            warnings: warnings.as_slice(),
        })?;
    }
    let files = files.as_slice();
    explain_warnings(
        alloc,
        inputs.lines,
        prefix.as_str(),
        files,
        Naming::NamedBefore,
    )
}

/// The warnings of lines, in their order.
fn warnings_of(alloc: Global, lines: &[ConfigLine]) -> Result<Vec<Warning>, AllocError> {
    let mut warnings = Vec::new(alloc);
    for line in lines {
        if let LineSays::Warned(kind) = &line.says {
            warnings.push(Warning {
                line: line.number,
                kind: *kind,
            })?;
        }
    }
    Ok(warnings)
}

/// The status of a report, by whether what it found makes it 1.
pub(crate) fn status_of(is_at_fault: bool) -> Status {
    if is_at_fault {
        Status::Fault
    } else {
        Status::Done
    }
}

/// What reading a `.config` or a fragment again gives: both were found short enough before, so only memory can be refused.
pub(crate) fn read_again<T>(read: Result<T, ReadFault>) -> Result<T, AllocError> {
    match read {
        Ok(found) => Ok(found),
        Err(ReadFault::Limit | ReadFault::NoMemory) => Err(AllocError),
    }
}

pub(crate) fn input_of(config: &ConfigFile) -> Input<'_> {
    Input {
        path: config.path(),
        bytes: config.bytes(),
    }
}

/// The names of variables.
fn names_of<'a>(
    alloc: Global,
    variables: &[(&'a str, &'a str)],
) -> Result<Vec<&'a str>, AllocError> {
    variables.iter().map(|variable| variable.0).collect(alloc)
}

/// The texts of the files that the lines were read from.
fn source_texts<'a>(
    alloc: Global,
    inputs: &ReportInputs<'a, '_>,
) -> Result<Vec<SourceText<'a>>, AllocError> {
    let mut texts = Vec::new(alloc);
    for path in paths_read(alloc, inputs.lines)? {
        let text = match inputs.sources.file(path) {
            Some((_, text)) => text,
            None => "",
        };
        texts.push(SourceText { path, text })?;
    }
    Ok(texts)
}

/// The report of `merge`: the `.config` of CONFIG and the fragments, and what became of their lines.
pub(crate) fn merge_outcome(
    alloc: Global,
    inputs: &ReportInputs<'_, '_>,
    session: &mut Session,
) -> Result<Outcome, AllocError> {
    let prefix = &inputs.arguments.prefix;
    let config = input_of(inputs.config);
    session.fill_all()?;
    let view = View::new(session.solved());
    let before = read_again(effects_before(alloc, &view, prefix, &config))?;
    let output = merged_text(alloc, inputs.fragments, session)?;
    session.fill_all()?;
    let view = View::new(session.solved());
    let fragments = inputs_of(alloc, inputs.fragments)?;
    let unusable = unusable_words_of_files(alloc, inputs, view.tree(), fragments.as_slice())?;
    let report = read_again(merge_report(
        alloc,
        &view,
        prefix,
        &before,
        fragments.as_slice(),
        unusable.as_slice(),
    ))?;
    let is_at_fault = inputs.arguments.is_strict && report.counts.has_unmet();
    Ok(Outcome {
        output,
        errors: report.text,
        warnings: Vec::new(alloc),
        status: status_of(is_at_fault),
    })
}

fn inputs_of<'a>(alloc: Global, files: &'a [ConfigFile]) -> Result<Vec<Input<'a>>, AllocError> {
    files.iter().map(input_of).collect(alloc)
}

/// The report of `menu`: an object for each entry of the menu tree.
pub(crate) fn menu_outcome(
    alloc: Global,
    inputs: &ReportInputs<'_, '_>,
    session: &mut Session,
    warnings: Vec<Warning>,
) -> Result<Outcome, AllocError> {
    session.fill_all()?;
    let view = View::new(session.solved());
    let index = LineIndex::of(alloc, inputs.lines)?;
    let help = if inputs.arguments.has_help {
        Help::With
    } else {
        Help::Without
    };
    let output = menu_text(alloc, &view, &index, help)?;
    Ok(Outcome::of_output(alloc, output, warnings))
}

/// The `.config` of a session after the merges of fragments. None of these is too long, so only memory can be refused.
fn merged_text(
    alloc: Global,
    fragments: &[ConfigFile],
    session: &mut Session,
) -> Result<String, AllocError> {
    let bodies: Vec<Body<'_>> = fragments
        .iter()
        .map(|fragment| Body::new(fragment.bytes()))
        .collect(alloc)?;
    match merged(session, bodies.as_slice()) {
        Ok(text) => Ok(text.into_string()),
        Err(MergeFault::Body(..) | MergeFault::NoMemory) => Err(AllocError),
    }
}
