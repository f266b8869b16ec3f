//! `open`, and the sessions that it gives.

use crate::finding::{Stop, Wrong, own, want};
use crate::sessions::want_reply;
use crate::showing::warnings_text;
use crate::text_calls::{Texts, want_text_fault};
use crate::texts::{USER, WARNINGS};
use crate::tree_calls::{want_loop, want_user};
use kc_files::Warning;
use kc_session::{Command, OpenFault, Session, open};
use kc_value::Resolver;
use std::alloc::Global;

/// Opens a top file of the texts, with a `.config`.
pub(crate) fn open_top(
    texts: &Texts,
    top: &str,
    config: &str,
) -> Result<(Session, Vec<Warning>), OpenFault> {
    open(
        texts.alloc,
        &texts.sources,
        &texts.vars,
        top,
        &texts.prefix,
        config.as_bytes(),
    )
}

/// Opens a top file, and wants the user values of the checks and this text of the `.config`, or this fault.
pub(crate) fn want_open(texts: &Texts, top: &str, config: &str, wanted: &str) -> Result<(), Stop> {
    match open_top(texts, top, config) {
        Ok((mut session, warnings)) => own(want_opened(
            texts.alloc,
            &mut session,
            warnings.as_slice(),
            wanted,
        )),
        Err(fault) => want_open_fault(texts.alloc, &fault, wanted),
    }
}

/// Wants this fault of a text, or a loop of these names.
fn want_open_fault(alloc: Global, fault: &OpenFault, wanted: &str) -> Result<(), Stop> {
    match fault {
        OpenFault::NoMemory => Err(Stop::Refused),
        OpenFault::Text(fault) => own(want_text_fault(alloc, fault, wanted)),
        OpenFault::Tree(fault) => own(want_loop(fault, wanted)),
        OpenFault::Limit => Err(Stop::Wrong(Wrong::Fault)),
    }
}

/// Why a check ends whose session was not opened: it was refused memory of its own, or there is another fault.
pub(crate) fn stop_of(fault: &OpenFault) -> Stop {
    match fault {
        OpenFault::NoMemory => Stop::Unprepared,
        _ => Stop::Wrong(Wrong::Fault),
    }
}

/// Wants a session as it is opened with the user values of the checks, and the warnings of their `.config`.
fn want_opened(
    alloc: Global,
    session: &mut Session,
    warnings: &[Warning],
    config_text: &str,
) -> Result<(), Stop> {
    let found = warnings_text(alloc, warnings)?;
    want(found.as_str() == WARNINGS, Wrong::Warnings)?;
    want_unasked(alloc, session, USER, config_text)
}

/// Wants a session whose nodes were not asked yet, with these user values and this text of the `.config`.
pub(crate) fn want_unasked(
    alloc: Global,
    session: &mut Session,
    user: &str,
    config_text: &str,
) -> Result<(), Stop> {
    want_user(alloc, session.tree(), session.user(), user)?;
    want(session.evals() == 0, Wrong::Evaluations)?;
    want_reply(session, Command::Config, config_text)
}
