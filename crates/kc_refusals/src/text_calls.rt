//! The calls on texts: what sources, variables and lines are where memory is refused, and what `open` gives.

use crate::finding::{Call, Stop, Time, Wrong, made, own, want};
use crate::opening::want_open;
use crate::showing::lines_text;
use crate::texts::{FILES, PAIRS};
use bumpalo::Bump;
use kc_files::Prefix;
use kc_text::{
    FileFault, Folder, Library, Line, LinesFault, ReadFiles, Sources, TextFault, TextProblem, Vars,
    lines_from, logical_lines,
};
use std::alloc::{AllocError, Global};

/// What the calls are made on.
#[derive(Drop)]
pub(crate) struct Texts {
    pub(crate) alloc: Global,
    pub(crate) sources: Sources,
    pub(crate) vars: Vars,
    pub(crate) prefix: Prefix,
}

impl Texts {
    /// The files, the variables and the prefix of the checks.
    pub(crate) fn new(alloc: Global) -> Result<Texts, Stop> {
        let vars = Vars::from_pairs(alloc, PAIRS.as_slice())?;
        let prefix = Prefix::new(alloc, "CONFIG_")?;
        Ok(Texts {
            alloc,
            sources: files(alloc)?,
            vars,
            prefix,
        })
    }
}

/// The files of the checks.
fn files(alloc: Global) -> Result<Sources, TextFault> {
    let mut sources = Sources::new(alloc);
    for (path, text) in FILES {
        sources.add(path, text)?;
    }
    Ok(sources)
}

/// Top files, each with its lines or its fault.
pub(crate) type Tops = &'static [(&'static str, &'static str)];

/// A call on texts.
#[derive(Clone, Copy)]
pub(crate) enum TextCall {
    /// `Sources::add` of a path and a text. Where it is refused, the top files are as they were.
    Add(&'static str, &'static str, Tops),
    /// `Vars::from_pairs`.
    FromPairs(&'static [(&'static str, &'static str)]),
    /// `logical_lines` of a top file.
    LogicalLines(&'static str),
    /// `lines_from` of a top file, over a folder that is asked for its files.
    LinesFrom(&'static str),
    /// `open` of a top file, with a `.config`.
    Open(&'static str, &'static str),
}

/// Checks calls, each with what it comes to: the lines that there are then, the `.config` of the session that is
/// opened, or the fault. Where one is refused, the texts still give that.
pub(crate) fn check_texts(
    texts: &mut Texts,
    calls: &[(TextCall, &'static str)],
) -> Result<Call, Stop> {
    let mut call = Call::Answered;
    for (text_call, wanted) in calls {
        call = call.and(made(|time| make_text_call(texts, *text_call, wanted, time))?);
    }
    Ok(call)
}

/// Makes a call on texts.
fn make_text_call(texts: &mut Texts, call: TextCall, wanted: &str, time: Time) -> Result<(), Stop> {
    match call {
        TextCall::Add(path, text, tops) => {
            if let Time::Second = time {
                want_tops(texts, tops)?;
            }
            texts.sources.add(path, text)?;
            own(want_lines(texts, &texts.vars, path, wanted))
        }
        TextCall::FromPairs(pairs) => match Vars::from_pairs(texts.alloc, pairs) {
            Ok(vars) => own(want_lines(texts, &vars, "Kconfig", wanted)),
            Err(fault) => want_text_fault(texts.alloc, &fault, wanted),
        },
        TextCall::LogicalLines(top) => want_lines(texts, &texts.vars, top, wanted),
        TextCall::LinesFrom(top) => want_lines_from(texts, top, wanted),
        TextCall::Open(top, config) => want_open(texts, top, config, wanted),
    }
}

/// Wants the lines or the faults of top files.
fn want_tops(texts: &Texts, tops: Tops) -> Result<(), Stop> {
    for (top, wanted) in tops {
        want_lines(texts, &texts.vars, top, wanted)?;
    }
    Ok(())
}

/// Wants the lines or the fault of a top file, with these variables in place of those of the texts.
fn want_lines(texts: &Texts, vars: &Vars, top: &str, wanted: &str) -> Result<(), Stop> {
    let arena = Bump::new(texts.alloc);
    match logical_lines(texts.alloc, &arena, &texts.sources, vars, top) {
        Ok(lines) => want_shown(texts.alloc, lines.as_slice(), wanted),
        Err(fault) => want_text_fault(texts.alloc, &fault, wanted),
    }
}

/// The files of the checks, which the arena keeps as they are asked for.
#[derive(Drop)]
struct AskedFiles;

impl Folder for AskedFiles {
    type Fault = AllocError;

    ghost reads = { λ _ _ _ _. Unit {0} };

    fn read<'a>(
        &mut self,
        arena: &'a Bump,
        path: &str,
        _room: usize,
    ) -> Result<Option<&'a str>, AllocError> {
        for (name, text) in FILES {
            if name == path {
                return Ok(Some(arena.try_alloc_str(text)?));
            }
        }
        Ok(None)
    }
}

/// Wants the lines or the fault of a top file whose files are asked for. Where memory is refused, the files that were read
/// are there, and the same library gives the lines or the fault the next time.
fn want_lines_from(texts: &Texts, top: &str, wanted: &str) -> Result<(), Stop> {
    let arena = Bump::new(texts.alloc);
    let mut library = kc_text::Texts::Read(Library {
        files: ReadFiles::new(texts.alloc, &arena),
        folder: AskedFiles,
    });
    let first = want_asked(texts, &arena, &mut library, top, wanted);
    if let Err(Stop::Refused) = first {
        own(want_asked(texts, &arena, &mut library, top, wanted))?;
    }
    first
}

/// Wants the lines or the fault of a top file over a library.
fn want_asked<'a>(
    texts: &'a Texts,
    arena: &'a Bump,
    library: &mut kc_text::Texts<'a, AskedFiles>,
    top: &str,
    wanted: &str,
) -> Result<(), Stop> {
    match lines_from(texts.alloc, arena, library, &texts.vars, top) {
        Ok(lines) => want_shown(texts.alloc, lines.as_slice(), wanted),
        Err(fault) => want_lines_fault(texts.alloc, &fault, wanted),
    }
}

/// Wants the fault that lines have whose files are asked for. What the folder refuses is memory.
fn want_lines_fault(
    alloc: Global,
    fault: &LinesFault<AllocError>,
    wanted: &str,
) -> Result<(), Stop> {
    match fault {
        LinesFault::Text(fault) => want_text_fault(alloc, fault, wanted),
        LinesFault::Stopped(FileFault::Files(fault), _) => want_text_fault(alloc, fault, wanted),
        LinesFault::Stopped(FileFault::Folder(_), _) => Err(Stop::Refused),
    }
}

/// Wants these lines.
fn want_shown(alloc: Global, lines: &[Line<'_>], wanted: &str) -> Result<(), Stop> {
    let found = lines_text(alloc, lines)?;
    want(found.as_str() == wanted, Wrong::Lines)
}

/// Wants a fault of a text: its number, its place, and the path of a file that is missing.
pub(crate) fn want_text_fault(alloc: Global, fault: &TextFault, wanted: &str) -> Result<(), Stop> {
    let TextFault::At(problem, path, line) = fault else {
        return Err(Stop::Refused);
    };
    let missing = match problem {
        TextProblem::MissingSource(missing) => missing.as_str(),
        _ => "-",
    };
    let (number, path) = (problem.number(), path.as_str());
    let found = format!(in alloc; "{number} {path}:{line} {missing}")?;
    want(found.as_str() == wanted, Wrong::Fault)
}
