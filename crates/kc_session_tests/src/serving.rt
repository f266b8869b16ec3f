//! Sessions that serve streams of commands, over readers and writers that fail at a given call.
use crate::failing::{FailingReader, FailingWriter, NEVER};
use kc_files::Prefix;
use kc_session::{IoFault, OpenFault, Session, open, run};
use kc_text::{Sources, Vars};
use kc_tree::{Node, SymId, UserVal};
use kc_value::Resolver;
use std::alloc::{AllocError, Global};
use std::test::Fail;

/// What became of a stream.
#[derive(Drop)]
pub(crate) struct Served {
    /// How its serving ended.
    pub(crate) end: Result<(), IoFault>,
    /// What was written.
    pub(crate) taken: Vec<u8>,
    /// How many reads were made.
    pub(crate) reads: u64,
    /// The user values that it left in its session.
    pub(crate) user: String,
}

/// The prefix of the names in all files here.
pub(crate) fn prefix(alloc: Global) -> Result<Prefix, Fail> {
    Ok(Prefix::new(alloc, "CONFIG_")?)
}

/// The session of a Kconfig, without user values.
fn new_session(alloc: Global, sources: &Sources, prefix: &Prefix) -> Result<Session, OpenFault> {
    let vars = Vars::none(alloc);
    match open(alloc, sources, &vars, "Kconfig", prefix, b"") {
        Ok((session, _)) => Ok(session),
        Err(fault) => Err(fault),
    }
}

/// What a function does in the session of a Kconfig, without user values. No other function here owns a session: each
/// way out of an owner drops it, which costs its proof most.
pub(crate) fn in_session<T: Drop, F: FnOnce(Global, &mut Session) -> Result<T, Fail> + Drop>(
    alloc: Global,
    kconfig: &str,
    visit: F,
) -> Result<T, Fail>
    requires { F.IsAlwaysCallable visit }
{
    let mut sources = Sources::new(alloc);
    sources.add("Kconfig", kconfig)?;
    let prefix = prefix(alloc)?;
    match new_session(alloc, &sources, &prefix) {
        Ok(mut session) => visit(alloc, &mut session),
        Err(fault) => Err(Fail::from(fault)),
    }
}

/// The replies of a session to a stream that is read and written without a failure.
pub(crate) fn replies_in(
    alloc: Global,
    session: &mut Session,
    stream: &str,
) -> Result<String, Fail> {
    let mut reader = FailingReader::new(stream.as_bytes(), 3, NEVER);
    let mut writer = FailingWriter::new(alloc, 5, NEVER, NEVER);
    run(alloc, &mut reader, &mut writer, session)?;
    let FailingWriter { taken, .. } = writer;
    Ok(String::from_utf8(taken)?)
}

/// The user value of a symbol as it is spelt, `None` where there is none.
fn value_text<'a>(session: &'a Session, symbol: SymId) -> Option<&'a str> {
    match session.user().get(symbol) {
        Some(UserVal::Tri(tri)) => Some(tri.letter()),
        Some(UserVal::Text(text)) => Some(text.as_str()),
        None => None,
    }
}

/// The user values of the symbols of a session, as `A=n,B=y,`, and as `-` where there are none.
fn user_text(alloc: Global, session: &Session) -> Result<String, AllocError> {
    let mut out = String::new(alloc);
    for node in session.tree().nodes() {
        if let Node::Val(symbol) = node
            && let Some(value) = value_text(session, symbol)
        {
            let name = session.tree().name(symbol);
            out.push_str(format!(in alloc; "{name}={value},")?.as_str())?;
        }
    }
    if out.is_empty() {
        out.push('-')?;
    }
    Ok(out)
}

/// Serves a stream in a session.
pub(crate) fn serve(
    alloc: Global,
    session: &mut Session,
    mut reader: FailingReader<'_>,
    mut writer: FailingWriter,
) -> Result<Served, Fail> {
    let end = run(alloc, &mut reader, &mut writer, session);
    let user = user_text(alloc, session)?;
    let FailingWriter { taken, .. } = writer;
    Ok(Served {
        end,
        taken,
        reads: reader.calls,
        user,
    })
}
