//! The calls on sessions: commands, and what a session holds where one is refused.

use crate::asking::want_nodes;
use crate::finding::{Call, Stop, Time, Wrong, made, want};
use crate::opening::{open_top, stop_of};
use crate::reporting::{check_fill, check_merged};
use crate::showing::user_text;
use crate::streams::check_run;
use crate::text_calls::Texts;
use crate::texts::{
    BODY, BODY_WARNINGS, CHOICES, CONFIG, CONFIG_TEXT, DEFCONFIG, HEADER, LIST, NEW, USER,
    USER_LOADED, USER_MERGED, USER_SET,
};
use crate::tree_calls::want_user;
use kc_session::{Body, Command, Refusal, Reply, Session};
use kc_text::TextRef;
use kc_value::Resolver;
use std::alloc::{AllocError, Global};

/// What a session held: its user values, which nodes were kept, and the count of evaluations.
#[derive(Drop)]
pub(crate) struct Held {
    user: String,
    kept: Vec<bool>,
    evals: u64,
}

/// What a session holds.
pub(crate) fn held_by(alloc: Global, session: &Session) -> Result<Held, AllocError> {
    let mut kept = Vec::new(alloc);
    for node in session.tree().nodes() {
        kept.push(session.is_kept(node))?;
    }
    Ok(Held {
        user: user_text(alloc, session.tree(), session.user())?,
        kept,
        evals: session.evals(),
    })
}

/// Wants a session to hold what it held before. Where more nodes may be kept than before, each of these was counted.
pub(crate) fn want_held(
    alloc: Global,
    session: &Session,
    before: &Held,
    may_keep_more: bool,
) -> Result<(), Stop> {
    let now = held_by(alloc, session)?;
    let is_same = now.user.as_str() == before.user.as_str();
    want(is_same, Wrong::UserValues)?;
    want(now.kept.len() == before.kept.len(), Wrong::Kept)?;
    let mut added: u64 = 0;
    for (was_kept, is_kept) in before.kept.iter().zip(now.kept.iter()) {
        want(*is_kept || !*was_kept, Wrong::Kept)?;
        if *is_kept && !*was_kept {
            added = added.saturating_add(1);
        }
    }
    want(may_keep_more || added == 0, Wrong::Kept)?;
    let evals = before.evals.saturating_add(added);
    want(now.evals == evals, Wrong::Evaluations)
}

/// Wants this reply to a command.
pub(crate) fn want_reply(
    session: &mut Session,
    command: Command<'_>,
    wanted: &str,
) -> Result<(), Stop> {
    match session.apply(command) {
        Reply::Done(text) => want(text.as_str() == wanted, Wrong::Reply),
        Reply::Refused(Refusal::NoMemory) => Err(Stop::Refused),
        Reply::Refused(_) => Err(Stop::Wrong(Wrong::Refusal)),
    }
}

/// The word of a command that can be refused memory.
#[derive(Clone, Copy)]
pub(crate) enum Word {
    Set,
    Load,
    Merge,
    List,
    Choices,
    Config,
    Header,
    Defconfig,
    New,
}

/// A command, and what it comes to in the session of the Kconfig.
#[derive(Drop)]
struct CommandRow {
    command: Command<'static>,
    reply: &'static str,
    /// The user values after it.
    user: &'static str,
    /// Whether it is a query, after which more nodes may be kept, also where it is refused.
    is_query: bool,
}

impl Word {
    fn row(self) -> CommandRow {
        let body = Body::new(BODY.as_bytes());
        let (command, reply, user) = match self {
            Word::Set => (
                Command::Set(TextRef::new("S"), TextRef::new("x")),
                "",
                USER_SET,
            ),
            Word::Load => (Command::Load(body), BODY_WARNINGS, USER_LOADED),
            Word::Merge => (Command::Merge(body), BODY_WARNINGS, USER_MERGED),
            Word::List => (Command::List, LIST, USER),
            Word::Choices => (Command::Choices, CHOICES, USER),
            Word::Config => (Command::Config, CONFIG_TEXT, USER),
            Word::Header => (Command::Header, HEADER, USER),
            Word::Defconfig => (Command::Defconfig, DEFCONFIG, USER),
            Word::New => (Command::New, NEW, USER),
        };
        CommandRow {
            command,
            reply,
            user,
            is_query: !matches!(self, Word::Set | Word::Load | Word::Merge),
        }
    }
}

/// A call on a session.
#[derive(Clone, Copy)]
pub(crate) enum SessionCall {
    /// `apply` of the command of a word.
    Apply(Word),
    /// `run`.
    Run,
    /// `fill_all`.
    Fill,
    /// `merged`.
    Merged,
    /// `set S x` after `list`.
    SetAfterList,
    /// The same, with calls of `node` for S between the two.
    SetAfterNodes,
}

/// Checks a call on a session.
pub(crate) fn check_session(texts: &Texts, call: SessionCall) -> Result<Call, Stop> {
    let (top, config) = match call {
        SessionCall::SetAfterList | SessionCall::SetAfterNodes => ("string", ""),
        _ => ("Kconfig", CONFIG),
    };
    match open_top(texts, top, config) {
        Ok((mut session, _)) => check_opened(texts.alloc, &mut session, call),
        Err(fault) => Err(stop_of(&fault)),
    }
}

/// Checks a call on a session that was opened for it.
fn check_opened(alloc: Global, session: &mut Session, call: SessionCall) -> Result<Call, Stop> {
    match call {
        SessionCall::Apply(word) => check_command(alloc, session, word),
        SessionCall::Run => check_run(alloc, session),
        SessionCall::Fill => check_fill(alloc, session),
        SessionCall::Merged => check_merged(alloc, session),
        SessionCall::SetAfterList => check_set_after_list(session, false),
        SessionCall::SetAfterNodes => check_set_after_list(session, true),
    }
}

/// Checks a command in a session that keeps some nodes.
fn check_command(alloc: Global, session: &mut Session, word: Word) -> Result<Call, Stop> {
    want_reply(
        session,
        Command::Show(TextRef::new("S")),
        "S type=string value=\"u\" vis=y can=- user=\"u\"\n",
    )?;
    let before = held_by(alloc, session)?;
    made(|time| make_command(alloc, session, word, &before, time))
}

/// Makes a command. Where an edit is refused, nothing has changed; where a query is, what was kept stays, and so do the
/// user values.
fn make_command(
    alloc: Global,
    session: &mut Session,
    word: Word,
    before: &Held,
    time: Time,
) -> Result<(), Stop> {
    let row = word.row();
    if let Time::Second = time {
        want_held(alloc, session, before, row.is_query)?;
    }
    want_reply(session, row.command, row.reply)?;
    if row.is_query {
        want_held(alloc, session, before, true)?;
    }
    want_user(alloc, session.tree(), session.user(), row.user)
}

/// Checks `set S x` after `list`. Where the nodes of S, which are kept then, are asked between these two, that takes no
/// memory: the edit is refused at the same request.
fn check_set_after_list(session: &mut Session, asks_nodes: bool) -> Result<Call, Stop> {
    want_reply(
        session,
        Command::List,
        "S type=string value=\"d\" vis=y can=- user=-\n",
    )?;
    let before = session.evals();
    if asks_nodes {
        want_nodes(session, "S", "y", "d")?;
    }
    want(session.evals() == before, Wrong::Evaluations)?;
    made(|_time| want_reply(session, Word::Set.row().command, ""))
}
