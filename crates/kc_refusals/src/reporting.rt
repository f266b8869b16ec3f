//! The calls for who reports on a `.config`: its lines and what becomes of them, the values of all nodes of a session, and
//! merges in turn.
use crate::finding::{Call, Stop, Time, Wrong, made, want};
use crate::sessions::{Held, held_by, want_held};
use crate::showing::said_text;
use crate::text_calls::Texts;
use crate::texts::{BODY, CONFIG, CONFIG_LINES, CONFIG_TEXT, USER, USER_MERGED, USER_MERGED_BACK};
use crate::tree_calls::want_user;
use kc_files::{ConfigLines, Fate, read_config_lines, read_lines};
use kc_session::{Body, MergeFault, Refusal, Session, merged};
use kc_tree::Tree;
use kc_value::Resolver;
use std::alloc::Global;

/// Checks `read_config_lines` and `read_lines`.
pub(crate) fn check_lines(texts: &Texts, tree: &Tree) -> Result<Call, Stop> {
    made(|_time| {
        let lines = read_config_lines(texts.alloc, tree, &texts.prefix, CONFIG.as_bytes())?;
        let found = said_text(texts.alloc, tree, lines.as_slice())?;
        want(found.as_str() == CONFIG_LINES, Wrong::Lines)?;
        let read = read_lines(texts.alloc, tree, &texts.prefix, CONFIG.as_bytes())?;
        want(has_fates(&read), Wrong::Lines)
    })
}

/// Whether the third of the lines takes the place of the first, and the second can't be used.
fn has_fates(read: &ConfigLines) -> bool {
    read.lines().len() == 5
        && read.fate(0) == Some(Fate::Replaced(2))
        && read.fate(1) == Some(Fate::Unusable)
        && read.fate(2) == Some(Fate::Counts)
        && read.fate(5).is_none()
}

/// Checks `fill_all`: where it is refused, what was kept stays.
pub(crate) fn check_fill(alloc: Global, session: &mut Session) -> Result<Call, Stop> {
    let before = held_by(alloc, session)?;
    made(|time| fill(alloc, session, &before, time))
}

/// Fills a session.
fn fill(alloc: Global, session: &mut Session, before: &Held, time: Time) -> Result<(), Stop> {
    if let Time::Second = time {
        want_held(alloc, session, before, true)?;
    }
    match session.fill_all() {
        Ok(()) => want_held(alloc, session, before, true),
        Err(_) => Err(Stop::Refused),
    }
}

/// Checks `merged` of the body and of the `.config` with which the session was opened.
pub(crate) fn check_merged(alloc: Global, session: &mut Session) -> Result<Call, Stop> {
    made(|_time| merge_both(alloc, session))
}

/// Merges both. Where one is refused, those before it are merged.
fn merge_both(alloc: Global, session: &mut Session) -> Result<(), Stop> {
    let bodies = [Body::new(BODY.as_bytes()), Body::new(CONFIG.as_bytes())];
    let (found, user) = match merged(session, &bodies) {
        Ok(text) => (
            want(text.as_str() == CONFIG_TEXT, Wrong::Reply),
            USER_MERGED_BACK,
        ),
        Err(MergeFault::Body(0, Refusal::NoMemory)) => (Err(Stop::Refused), USER),
        Err(MergeFault::Body(1, Refusal::NoMemory)) => (Err(Stop::Refused), USER_MERGED),
        Err(MergeFault::NoMemory) => (Err(Stop::Refused), USER_MERGED_BACK),
        Err(MergeFault::Body(_, _)) => return Err(Stop::Wrong(Wrong::Refusal)),
    };
    want_user(alloc, session.tree(), session.user(), user)?;
    found
}
