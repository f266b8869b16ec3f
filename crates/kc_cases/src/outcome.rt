//! What a case comes to: it passes, or what is wanted is not what is found.

use crate::blocks::Block;
use crate::cuts::cut_outcome;
use crate::fault_text::{fault_text, is_wanted, loop_names};
use crate::header::Kind;
use crate::malformed::CaseFault;
use crate::parts::{Part, file_bytes, parts_of, variables_of};
use crate::piece_reader::PieceReader;
use crate::runs::{has_runs, runs_outcome};
use crate::sequence::check_sequence;
use kc_files::Prefix;
use kc_session::{OpenFault, Session, open, run};
use kc_text::{Sources, TextFault, Vars};
use std::alloc::{AllocError, Global};
use std::str::from_utf8;

/// The sizes of the pieces in which the commands of a case are read: each time in the same session, and then it is reset.
const PIECES: [usize; 2] = [4096, 1];

/// What is wanted and is not found.
#[derive(Drop)]
pub(crate) struct Difference {
    /// The line of the part that wants it.
    pub(crate) line: usize,
    pub(crate) wanted: String,
    pub(crate) found: String,
}

/// The texts and the variables of a Kconfig.
#[derive(Drop)]
pub(crate) struct Texts {
    pub(crate) sources: Sources,
    pub(crate) vars: Vars,
}

/// Runs a case as it is in its file. It gives the first difference, `None` where the case passes.
///
/// # Errors
///
/// `CaseFault::Malformed` where the block is no case.
pub(crate) fn outcome_of(alloc: Global, case: &Block<'_>) -> Result<Option<Difference>, CaseFault> {
    let parts = parts_of(alloc, case)?;
    if has_runs(parts.as_slice()) {
        return runs_outcome(alloc, parts.as_slice());
    }
    check_sequence(parts.as_slice(), case.line)?;
    let pairs = variables_of(alloc, parts.as_slice())?;
    let Ok(prefix) = Prefix::new(alloc, "CONFIG_") else {
        return Err(CaseFault::NoMemory);
    };
    let outcome = match texts_of(alloc, parts.as_slice(), pairs.as_slice()) {
        Ok(mut texts) => texts_outcome(alloc, &mut texts, &prefix, parts.as_slice())?,
        Err(fault) => fault_outcome(alloc, &OpenFault::Text(fault), parts.as_slice())?,
    };
    Ok(outcome)
}

/// The texts and the variables of a case, or the first fault of them.
fn texts_of(alloc: Global, parts: &[Part<'_>], pairs: &[(&str, &str)]) -> Result<Texts, TextFault> {
    let vars = Vars::from_pairs(alloc, pairs)?;
    let mut sources = Sources::new(alloc);
    for part in parts {
        if let Kind::File(path) = part.kind {
            let bytes = file_bytes(alloc, parts, path)?;
            sources.add(path, text_of(bytes.as_ref()))?;
        }
    }
    Ok(Texts { sources, vars })
}

/// The text that the bytes of a file are, which were checked.
fn text_of(bytes: Option<&Vec<u8>>) -> &str {
    match bytes {
        Some(bytes) => from_utf8(bytes.as_slice()).unwrap_or(""),
        None => "",
    }
}

/// Compares what a case wants of its texts: what each beginning of its cuts gives, or the replies or the fault.
fn texts_outcome(
    alloc: Global,
    texts: &mut Texts,
    prefix: &Prefix,
    parts: &[Part<'_>],
) -> Result<Option<Difference>, CaseFault> {
    if !parts.iter().any(|part| matches!(part.kind, Kind::Cut(_))) {
        return Ok(opened_outcome(alloc, texts, prefix, parts)?);
    }
    for part in parts {
        if let Kind::Cut(subject) = part.kind {
            let outcome = cut_outcome(alloc, texts, prefix, part, subject)?;
            if outcome.is_some() {
                return Ok(outcome);
            }
        }
    }
    Ok(None)
}

/// Opens a Kconfig, and compares its replies or its fault.
fn opened_outcome(
    alloc: Global,
    texts: &Texts,
    prefix: &Prefix,
    parts: &[Part<'_>],
) -> Result<Option<Difference>, AllocError> {
    match open(alloc, &texts.sources, &texts.vars, "Kconfig", prefix, b"") {
        Ok((mut session, _)) => session_outcome(alloc, &mut session, parts),
        Err(fault) => fault_outcome(alloc, &fault, parts),
    }
}

/// Compares the fault of a Kconfig.
fn fault_outcome(
    alloc: Global,
    fault: &OpenFault,
    parts: &[Part<'_>],
) -> Result<Option<Difference>, AllocError> {
    let found = fault_text(alloc, fault)?;
    let names = loop_names(alloc, fault)?;
    for part in parts {
        if is_wanted(alloc, part, found.as_str(), names.as_str())? {
            return Ok(None);
        }
    }
    all_wanted(alloc, parts, found)
}

/// Compares the replies of a session, or reports that there is one where a fault is wanted.
fn session_outcome(
    alloc: Global,
    session: &mut Session,
    parts: &[Part<'_>],
) -> Result<Option<Difference>, AllocError> {
    if !parts.iter().any(|part| matches!(part.kind, Kind::Replies)) {
        let no_fault = String::from_str(alloc, "no fault\n")?;
        return all_wanted(alloc, parts, no_fault);
    }
    for piece in PIECES {
        let outcome = replies_outcome(alloc, session, parts, piece)?;
        if outcome.is_some() {
            return Ok(outcome);
        }
        let _ok = replies_to(alloc, b"reset\n", piece, session)?;
    }
    Ok(None)
}

/// Serves the commands of a case in turn, and compares the replies to each part of them.
fn replies_outcome(
    alloc: Global,
    session: &mut Session,
    parts: &[Part<'_>],
    piece: usize,
) -> Result<Option<Difference>, AllocError> {
    let mut commands = Vec::new(alloc);
    for part in parts {
        if let Kind::Commands = part.kind {
            commands.extend_from_slice(part.bytes.as_slice())?;
        }
        if let Kind::Replies = part.kind {
            let found = replies_to(alloc, commands.as_slice(), piece, session)?;
            if found.as_slice() != part.bytes.as_slice() {
                return Ok(Some(reply_difference(alloc, part, found.as_slice())?));
            }
            commands = Vec::new(alloc);
        }
    }
    Ok(None)
}

/// The replies of a session to commands. Over memory a stream fails only where memory is refused.
pub(crate) fn replies_to(
    alloc: Global,
    commands: &[u8],
    piece: usize,
    session: &mut Session,
) -> Result<Vec<u8>, AllocError> {
    let mut reader = PieceReader::new(commands, piece);
    let mut replies = Vec::new(alloc);
    match run(alloc, &mut reader, &mut replies, session) {
        Ok(()) => Ok(replies),
        Err(_) => Err(AllocError),
    }
}

/// The difference of replies from those that a part wants.
fn reply_difference(
    alloc: Global,
    part: &Part<'_>,
    found: &[u8],
) -> Result<Difference, AllocError> {
    Ok(Difference {
        line: part.line,
        wanted: String::from_str(alloc, part.text())?,
        found: String::from_utf8_lossy(alloc, found)?,
    })
}

/// The difference of what is found from all that the parts want.
fn all_wanted(
    alloc: Global,
    parts: &[Part<'_>],
    found: String,
) -> Result<Option<Difference>, AllocError> {
    let mut wanted = String::new(alloc);
    let mut line = 0;
    for part in parts {
        if let Kind::Replies | Kind::Fault | Kind::Loop | Kind::LoopInOrder = part.kind {
            line = part.line;
            wanted.push_str(part.text())?;
        }
    }
    Ok(Some(Difference {
        line,
        wanted,
        found,
    }))
}
