//! The program over a folder of files and three streams, which a test gives in memory.
ghost use Rattle.std.specs.Prelude.{◌≡◌, ◌≤◌};
ghost use Rattle.clap.specs.Words.{kind_of};
ghost use Rattle.kc_program.specs.Endings.{ending_of};

use crate::exchanged::ask_of_exchange;
use crate::explanations::{Input, report_of, report_of_inputs, words_of_warnings};
use crate::files::Files;
use crate::fragments::read_fragments;
use crate::listing::list_files;
use crate::messages::{Fault, Report, Status, write_report_in_pieces, write_warnings};
use crate::opening::{ConfigFile, Kconfig, open_files, open_kconfig, read_config_file};
use crate::refusals::ExplainedReplies;
use crate::reports::{Outcome, ReportOpening};
use crate::variables_file::{VariablesFileFault, read_variables, with_words};
use bumpalo::Bump;
use clap::Error;
use clap::error::ErrorKind;
use kc_command_line::{Arguments, BadWords, CommandLine, CommandsRead, Target, Wording, make_text};
use kc_explain::{RefusalWords, SymbolNames};
use kc_files::Warning;
use kc_folder::{Folder, FolderFrom};
use kc_session::{IoFault, Reply, Session, run};
use kc_text::{Text, Vars};
use kc_tree::TreeFault;
use kc_value::Resolver;
use std::alloc::Global;
use std::cell::Cell;
use std::convert::AsStr;
use std::io::{self, BufReader, Read, Write};
use std::mem;

/// The most faults of a Kconfig that are shown with lines.
const MOST_EXPLAINED: usize = 16;

/// What is said of a malformed line of a file of variables.
const MALFORMED_LINE: &str =
    "not NAME=VALUE, with ASCII letters, digits, '_' and '-' in NAME, and '-' not first";

/// Does what the words of a command line ask for, and gives the exit status: 0 where it was done, with warnings or
/// without, 1 after a fault, which `errors` reports, and 2 where the words are no command line. The first word is the
/// program's name.
///
/// The first fault is reported: of the words, then of the file of variables, then of the variables, then of the reading of
/// CONFIG, then of the files and their texts as they are read, then of the lines and the symbols, then of CONFIG's length,
/// and last of the input and the output. Nothing is written to `output` before all of these but the last are known to be
/// none. Where `errors` cannot be written, what it lacks changes nothing else.
pub fn program<S: AsStr, F: Folder, R: Read, W: Write, E: Write>(
    alloc: Global,
    words: &[S],
    folder: &F,
    input: &mut R,
    output: &mut W,
    errors: &mut E,
) -> u8
    ensures { result ≤ 2 }
{
    let status = match Arguments::parse(alloc, words) {
        Ok(arguments) => {
            let folder = FolderFrom::new(folder, arguments.folder);
            answer(alloc, &arguments, &folder, input, output, errors)
        }
        Err(words) => answer_words(alloc, &words, output, errors),
    };
    status.code()
}

/// Reads the file of variables, does what the target asks for, and reports what went wrong.
fn answer<F: Folder, R: Read, W: Write, E: Write>(
    alloc: Global,
    arguments: &Arguments<'_>,
    folder: &F,
    input: &mut R,
    output: &mut W,
    errors: &mut E,
) -> Status {
    let text = match read_variables(alloc, folder, arguments.variables_file) {
        Ok(text) => text,
        Err(fault) => return answer_variables(alloc, fault, arguments, folder, errors),
    };
    let served = match with_words(alloc, text.as_str(), arguments.variables.as_slice()) {
        Ok(variables) => serve(
            alloc,
            arguments,
            variables.as_slice(),
            folder,
            input,
            output,
            errors,
        ),
        Err(_) => Err(Report::of(Fault::NoMemory, arguments.wording)),
    };
    match served {
        Ok(status) => status,
        Err(fault) => report(alloc, &fault, errors),
    }
}

/// Reports why the file of variables gives none. A malformed line is a mistake of usage.
fn answer_variables<F: Folder, E: Write>(
    alloc: Global,
    fault: VariablesFileFault,
    arguments: &Arguments<'_>,
    folder: &F,
    errors: &mut E,
) -> Status {
    match fault {
        VariablesFileFault::Unread(fault) => {
            let wording = arguments.wording;
            let fault = report_of_inputs(alloc, fault, wording, Input::Variables, folder);
            report(alloc, &fault, errors)
        }
        VariablesFileFault::Malformed(line) => {
            let path = arguments.variables_file.unwrap_or("");
            let _ = writeln!(errors, "error: {path}:{line}: {MALFORMED_LINE}");
            Status::Usage
        }
    }
}

/// Reads CONFIG, and does what the target asks for.
fn serve<F: Folder, R: Read, W: Write, E: Write>(
    alloc: Global,
    arguments: &Arguments<'_>,
    variables: &[(&str, &str)],
    folder: &F,
    input: &mut R,
    output: &mut W,
    errors: &mut E,
) -> Result<Status, Report> {
    let wording = arguments.wording;
    let (vars, config) = match read_inputs(alloc, arguments.config, variables, folder) {
        Ok(inputs) => inputs,
        Err(fault) => {
            return Err(report_of_inputs(alloc, fault, wording, Input::Config, folder));
        }
    };
    let kconfig = Kconfig {
        folder,
        variables,
        vars: &vars,
        top: arguments.kconfig,
        prefix: &arguments.prefix,
        config: &config,
    };
    match arguments.target {
        Target::Files => list_files(alloc, &kconfig, wording, output, errors),
        Target::Why | Target::Check | Target::Merge | Target::How | Target::Menu => {
            serve_report(alloc, arguments, &kconfig, output, errors)
        }
        target => serve_session(alloc, target, &kconfig, wording, input, output, errors),
    }
}

/// Writes what a target asks of a session.
fn serve_session<F: Folder, R: Read, W: Write, E: Write>(
    alloc: Global,
    target: Target,
    kconfig: &Kconfig<'_, F>,
    wording: Wording,
    input: &mut R,
    output: &mut W,
    errors: &mut E,
) -> Result<Status, Report> {
    let mut session = open_session(alloc, kconfig, wording, errors)?;
    let served = match (target, wording) {
        (Target::Session, Wording::Explained) => {
            let prefix = kconfig.prefix.as_str();
            serve_explained(alloc, prefix, &mut session, input, output, errors)
        }
        (target, _) => write_target(alloc, target, &mut session, input, output),
    };
    // The program ends here, so its memory need not be given back piece by piece.
    mem::forget(session);
    match served {
        Ok(()) => Ok(Status::Done),
        Err(fault) => Err(Report::of(fault, wording)),
    }
}

/// Serves a session whose refusals are explained.
fn serve_explained<R: Read, W: Write, E: Write>(
    alloc: Global,
    prefix: &str,
    session: &mut Session,
    input: &mut R,
    output: &mut W,
    errors: &mut E,
) -> Result<(), Fault> {
    let names = SymbolNames::of(alloc, session.tree())?;
    let words = RefusalWords::of(alloc, &names, prefix)?;
    serve_with_words(alloc, &words, session, input, output, errors)
}

/// Serves a session whose refusals these words explain.
fn serve_with_words<R: Read, W: Write, E: Write>(
    alloc: Global,
    words: &RefusalWords<'_>,
    session: &mut Session,
    input: &mut R,
    output: &mut W,
    errors: &mut E,
) -> Result<(), Fault> {
    let line = Cell::new(CommandLine::unread());
    let Ok(input) = BufReader::new(alloc, &mut *input) else {
        return Err(Fault::NoMemory);
    };
    let mut commands = CommandsRead { input, line: &line };
    let mut replies = ExplainedReplies::new(alloc, words, output, errors, &line);
    write_target(alloc, Target::Session, session, &mut commands, &mut replies)
}

/// Writes a report on a Kconfig and its values.
fn serve_report<F: Folder, W: Write, E: Write>(
    alloc: Global,
    arguments: &Arguments<'_>,
    kconfig: &Kconfig<'_, F>,
    output: &mut W,
    errors: &mut E,
) -> Result<Status, Report> {
    let fragments = read_fragments(alloc, arguments, kconfig.folder)?;
    let opening = ReportOpening {
        arguments: &*arguments,
        fragments: fragments.as_slice(),
    };
    let arena = Bump::new(alloc);
    report_on_files(alloc, &arena, &opening, kconfig, output, errors)
}

/// Writes a report on the files of a Kconfig, which the arena keeps, and its values.
fn report_on_files<'a, 'k: 'a, F: Folder, W: Write, E: Write>(
    alloc: Global,
    arena: &'a Bump,
    opening: &ReportOpening<'_>,
    kconfig: &Kconfig<'k, F>,
    output: &mut W,
    errors: &mut E,
) -> Result<Status, Report> {
    let (target, wording) = (opening.arguments.target, opening.arguments.wording);
    let mut files = Files::read(alloc, arena, kconfig);
    match open_files(&mut files, kconfig, opening) {
        Ok((outcome, symbols)) => {
            // `check` has it among its findings.
            if target != Target::Check {
                ask_of_exchange(symbols, &files, kconfig, wording, errors);
            }
            let warnings = outcome.warnings.as_slice();
            warn(alloc, &files, kconfig, wording, warnings, errors);
            write_outcome(&outcome, wording, output, errors)
        }
        Err(Fault::Tree(fault)) if target == Target::Check => {
            report_all(alloc, fault, wording, &files, kconfig, errors)
        }
        Err(fault) => Err(report_of(alloc, fault, wording, &files, kconfig)),
    }
}

/// Writes what a report gives. What cannot be written to `errors` changes nothing else.
fn write_outcome<W: Write, E: Write>(
    outcome: &Outcome,
    wording: Wording,
    output: &mut W,
    errors: &mut E,
) -> Result<Status, Report> {
    let _ = errors.write_all(outcome.errors.as_str().as_bytes());
    let written = match write_bytes(outcome.output.as_str().as_bytes(), output) {
        Ok(()) => flush(output),
        Err(fault) => Err(fault),
    };
    match written {
        Ok(()) => Ok(outcome.status),
        Err(fault) => Err(Report::of(fault, wording)),
    }
}

/// Reports all faults of the lines, the symbols and the choices of a Kconfig, with the one that is reported by other targets
/// first.
fn report_all<F: Folder, E: Write>(
    alloc: Global,
    first: TreeFault,
    wording: Wording,
    files: &Files<'_>,
    kconfig: &Kconfig<'_, F>,
    errors: &mut E,
) -> Result<Status, Report> {
    let Ok(faults) = files.faults() else {
        return Err(report_of(alloc, Fault::Tree(first), wording, files, kconfig));
    };
    for (index, fault) in faults.into_iter().enumerate() {
        let fault = Fault::Tree(fault);
        let fault = if index < MOST_EXPLAINED {
            report_of(alloc, fault, wording, files, kconfig)
        } else {
            Report::of(fault, wording)
        };
        report(alloc, &fault, errors);
    }
    Ok(Status::Fault)
}

/// The variables that are given, and the CONFIG of a path.
fn read_inputs<F: Folder>(
    alloc: Global,
    path: Option<&str>,
    variables: &[(&str, &str)],
    folder: &F,
) -> Result<(Vars, ConfigFile), Fault> {
    let vars = Vars::from_pairs(alloc, variables)?;
    let config = match path {
        Some(path) => read_config_file(alloc, folder, path)?,
        None => ConfigFile::none(alloc),
    };
    Ok((vars, config))
}

/// The session of a Kconfig, which sees the variables that are given alone, with the values of CONFIG. The warnings of its
/// lines are written.
fn open_session<F: Folder, E: Write>(
    alloc: Global,
    kconfig: &Kconfig<'_, F>,
    wording: Wording,
    errors: &mut E,
) -> Result<Session, Report> {
    let arena = Bump::new(alloc);
    session_of_files(alloc, &arena, kconfig, wording, errors)
}

/// The session of the files of a Kconfig, which the arena keeps. The warnings of the lines of CONFIG are written.
fn session_of_files<'a, 'k: 'a, F: Folder, E: Write>(
    alloc: Global,
    arena: &'a Bump,
    kconfig: &Kconfig<'k, F>,
    wording: Wording,
    errors: &mut E,
) -> Result<Session, Report> {
    let mut files = Files::read(alloc, arena, kconfig);
    match open_kconfig(&mut files, kconfig) {
        Ok((session, warnings)) => {
            let symbols = session.tree().symbols().len();
            ask_of_exchange(symbols, &files, kconfig, wording, errors);
            warn(alloc, &files, kconfig, wording, warnings.as_slice(), errors);
            Ok(session)
        }
        Err(fault) => Err(report_of(alloc, fault, wording, &files, kconfig)),
    }
}

/// Writes the warnings of CONFIG. One that cannot be written is no fault: the status says whether the output is there.
fn warn<F: Folder, E: Write>(
    alloc: Global,
    files: &Files<'_>,
    kconfig: &Kconfig<'_, F>,
    wording: Wording,
    warnings: &[Warning],
    errors: &mut E,
) {
    let words = words_of_warnings(alloc, wording, files, kconfig, warnings);
    let words = words.as_ref().map(|words| words.as_slice());
    let path = kconfig.config.path();
    let _ = write_warnings(alloc, errors, path, warnings, wording, words);
}

/// Writes the output of a target: the text of its query after its edit, or the replies to the commands of the input.
fn write_target<R: Read, W: Write>(
    alloc: Global,
    target: Target,
    session: &mut Session,
    input: &mut R,
    output: &mut W,
) -> Result<(), Fault> {
    let Some(query) = target.query() else {
        return Ok(run(alloc, input, output, session)?);
    };
    if let Some(edit) = target.edit() {
        text_of_reply(session.apply(edit))?;
    }
    let text = text_of_reply(session.apply(query))?;
    match target {
        Target::Genmake => write_bytes(make_text(alloc, text.as_str())?.as_slice(), output)?,
        _ => write_bytes(text.as_str().as_bytes(), output)?,
    }
    flush(output)
}

/// The text of a reply. The commands of targets are refused only where memory is.
fn text_of_reply(reply: Reply) -> Result<Text, Fault> {
    match reply {
        Reply::Done(text) => Ok(text),
        Reply::Refused(_) => Err(Fault::NoMemory),
    }
}

fn write_bytes<W: Write>(bytes: &[u8], output: &mut W) -> Result<(), Fault> {
    match output.write_all(bytes) {
        Ok(()) => Ok(()),
        Err(_) => Err(Fault::Stream(IoFault::Write)),
    }
}

fn flush<W: Write>(output: &mut W) -> Result<(), Fault> {
    match output.flush() {
        Ok(()) => Ok(()),
        Err(_) => Err(Fault::Stream(IoFault::Write)),
    }
}

/// Shows what a parse of the words gave in place of arguments: help or the version on `output`, and else the mistake on
/// `errors`.
fn answer_words<W: Write, E: Write>(
    alloc: Global,
    words: &BadWords<'_>,
    output: &mut W,
    errors: &mut E,
) -> Status {
    let error = &words.error;
    match ending_of(error) {
        Status::Done => match show_help(error, output) {
            Ok(()) => Status::Done,
            Err(_) => report(
                alloc,
                &Report::of(Fault::Stream(IoFault::Write), Wording::Number),
                errors,
            ),
        },
        Status::Fault => report(alloc, &Report::of(Fault::NoMemory, Wording::Number), errors),
        Status::Usage => {
            let _ = write!(errors, "{error}");
            if let Some(hint) = &words.hint {
                let _ = write!(errors, "{hint}");
            }
            Status::Usage
        }
    }
}

fn show_help<W: Write>(help: &Error, output: &mut W) -> io::Result<()> {
    write!(output, "{help}")?;
    output.flush()
}

/// How the program ends where the words gave no arguments.
fn ending_of(error: &Error) -> Status
    ensures { result ≡ ending_of (kind_of error.now) }
{
    match error.kind() {
        ErrorKind::DisplayHelp | ErrorKind::DisplayVersion => Status::Done,
        ErrorKind::OutOfMemory => Status::Fault,
        _ => Status::Usage,
    }
}

/// Reports a fault.
fn report<E: Write>(alloc: Global, report: &Report, errors: &mut E) -> Status {
    let _ = write_report_in_pieces(alloc, errors, report);
    Status::Fault
}
