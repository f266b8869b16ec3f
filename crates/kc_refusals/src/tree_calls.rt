//! The calls on trees: what a tree, user values, a `.config` and a session are where memory is refused.
ghost use Rattle.kc_value.specs.UserValues.{IsUserFor};

use crate::asking::want_nodes;
use crate::finding::{Call, Stop, Wrong, made, own, want};
use crate::opening::want_unasked;
use crate::reporting::check_lines;
use crate::showing::{assigns_text, user_text, warnings_text};
use crate::text_calls::Texts;
use crate::texts::{
    ASSIGNS, CONFIG, CONFIG_TEXT, DEFAULT_CONFIG_TEXT, LOOP_NODES, NODE_VALUES, USER, WARNINGS,
};
use bumpalo::Bump;
use kc_files::{Load, Prefix, apply, config_text, read_config};
use kc_session::Session;
use kc_text::{Line, MOST_LINES, logical_lines};
use kc_tree::{NamedNode, Tree, TreeFault};
use kc_value::{Fresh, User};
use std::alloc::Global;

/// Checks `Tree::parse`: where it is refused, its lines still give the tree. Also of lines with a loop, which is K19.
pub(crate) fn check_parse(texts: &Texts) -> Result<Call, Stop> {
    let tree = parse_top(texts, "Kconfig", CONFIG_TEXT)?;
    Ok(tree.and(parse_top(texts, "loop", LOOP_NODES)?))
}

/// Parses the lines of a top file.
fn parse_top(texts: &Texts, top: &str, wanted: &str) -> Result<Call, Stop> {
    let arena = Bump::new(texts.alloc);
    let lines = logical_lines(texts.alloc, &arena, &texts.sources, &texts.vars, top)?;
    made(|_time| parse(texts, lines.as_slice(), wanted))
}

/// Parses lines, and wants the tree of this `.config` or the loop of these names. `logical_lines` gives no more lines
/// than the limit.
fn parse(texts: &Texts, lines: &[Line<'_>], wanted: &str) -> Result<(), Stop> {
    if lines.len() > MOST_LINES {
        return want(false, Wrong::Tree);
    }
    match Tree::parse(texts.alloc, lines) {
        Ok(tree) => own(want_tree(texts, &tree, wanted)),
        Err(fault) => want_loop(&fault, wanted),
    }
}

/// Gives the user values of the checks.
fn give_values(texts: &Texts, tree: &Tree, user: &mut User) -> Result<(), Stop>
    requires { IsUserFor tree.now user.old }
    ensures { IsUserFor tree.now user.new }
{
    let (assigns, _) = read_config(texts.alloc, tree, &texts.prefix, CONFIG.as_bytes())?;
    apply(tree, user, assigns, Load::Replace);
    Ok(())
}

/// Wants a tree that has this `.config` with the user values of the checks.
fn want_tree(texts: &Texts, tree: &Tree, wanted: &str) -> Result<(), Stop> {
    let mut user = User::empty(texts.alloc, tree)?;
    want_config(texts, tree, &mut user, wanted)
}

/// Wants the `.config` of a tree with the user values of the checks.
fn want_config(texts: &Texts, tree: &Tree, user: &mut User, wanted: &str) -> Result<(), Stop>
    requires { IsUserFor tree.now user.old }
{
    give_values(texts, tree, user)?;
    let mut fresh = Fresh::new(texts.alloc, tree, user);
    let text = config_text(texts.alloc, &mut fresh, &texts.prefix, "")?;
    want(text.as_str() == wanted, Wrong::Tree)
}

/// Wants a loop in which these names are.
pub(crate) fn want_loop(fault: &TreeFault, names: &str) -> Result<(), Stop> {
    match fault {
        TreeFault::Loop(nodes) => want_names(nodes.as_slice(), names),
        TreeFault::NoMemory => Err(Stop::Refused),
        _ => Err(Stop::Wrong(Wrong::Fault)),
    }
}

/// Wants each of these names, with a space between them, to be that of a node.
fn want_names(nodes: &[NamedNode], names: &str) -> Result<(), Stop> {
    for name in names.split(' ') {
        let has_name = nodes.iter().any(|node| node.name.as_str() == name);
        want(has_name, Wrong::Fault)?;
    }
    Ok(())
}

/// A call on a tree.
#[derive(Clone, Copy)]
pub(crate) enum TreeCall {
    /// `User::empty`.
    Empty,
    /// `Fresh::node`, of each symbol in turn.
    Node,
    /// `read_config`.
    ReadConfig,
    /// `read_config_lines`.
    ReadConfigLines,
}

/// Checks a call on the tree of the Kconfig.
pub(crate) fn check_tree(texts: &Texts, call: TreeCall) -> Result<Call, Stop> {
    match parsed(texts) {
        Ok(tree) => check_call(texts, &tree, call),
        Err(stop) => Err(stop),
    }
}

/// The tree of the Kconfig.
fn parsed(texts: &Texts) -> Result<Tree, Stop> {
    let arena = Bump::new(texts.alloc);
    let lines = logical_lines(texts.alloc, &arena, &texts.sources, &texts.vars, "Kconfig")?;
    match Tree::parse(texts.alloc, lines.as_slice()) {
        Ok(tree) => Ok(tree),
        Err(fault) => Err(stop_of_tree(&fault)),
    }
}

/// Why a check ends that has no tree.
fn stop_of_tree(fault: &TreeFault) -> Stop {
    match fault {
        TreeFault::NoMemory => Stop::Unprepared,
        _ => Stop::Wrong(Wrong::Fault),
    }
}

/// Checks a call on this tree.
fn check_call(texts: &Texts, tree: &Tree, call: TreeCall) -> Result<Call, Stop> {
    match call {
        TreeCall::Empty => check_user(texts, tree),
        TreeCall::Node => check_nodes(texts, tree),
        TreeCall::ReadConfig => check_reading(texts, tree),
        TreeCall::ReadConfigLines => check_lines(texts, tree),
    }
}

/// Checks `User::empty`.
fn check_user(texts: &Texts, tree: &Tree) -> Result<Call, Stop> {
    made(|_time| match User::empty(texts.alloc, tree) {
        Ok(mut user) => own(want_empty(texts, tree, &mut user)),
        Err(_) => Err(Stop::Refused),
    })
}

/// Wants user values without any, and room for those of the checks.
fn want_empty(texts: &Texts, tree: &Tree, user: &mut User) -> Result<(), Stop>
    requires { IsUserFor tree.now user.old }
{
    want_user(texts.alloc, tree, user, "")?;
    give_values(texts, tree, user)?;
    want_user(texts.alloc, tree, user, USER)
}

/// Wants these user values.
pub(crate) fn want_user(alloc: Global, tree: &Tree, user: &User, wanted: &str) -> Result<(), Stop> {
    let found = user_text(alloc, tree, user)?;
    want(found.as_str() == wanted, Wrong::UserValues)
}

/// Checks `Fresh::node`, of the nodes of each symbol in turn: where it is refused, it answers the next time.
fn check_nodes(texts: &Texts, tree: &Tree) -> Result<Call, Stop> {
    let mut user = User::empty(texts.alloc, tree)?;
    check_nodes_with(texts, tree, &mut user)
}

/// Checks it with the user values of the checks, which stay.
fn check_nodes_with(texts: &Texts, tree: &Tree, user: &mut User) -> Result<Call, Stop>
    requires { IsUserFor tree.now user.old }
{
    give_values(texts, tree, user)?;
    let call = ask_nodes(&mut Fresh::new(texts.alloc, tree, user))?;
    want_user(texts.alloc, tree, user, USER)?;
    Ok(call)
}

/// Asks for the nodes of each symbol.
fn ask_nodes(fresh: &mut Fresh<'_>) -> Result<Call, Stop> {
    let mut call = Call::Answered;
    for (name, visibility, value) in NODE_VALUES {
        call = call.and(made(|_time| want_nodes(fresh, name, visibility, value))?);
    }
    Ok(call)
}

/// Checks `read_config`.
fn check_reading(texts: &Texts, tree: &Tree) -> Result<Call, Stop> {
    made(|_time| {
        let (assigns, warnings) = read_config(texts.alloc, tree, &texts.prefix, CONFIG.as_bytes())?;
        let found = assigns_text(texts.alloc, tree, assigns.as_slice())?;
        want(found.as_str() == ASSIGNS, Wrong::Reading)?;
        let found = warnings_text(texts.alloc, warnings.as_slice())?;
        want(found.as_str() == WARNINGS, Wrong::Warnings)
    })
}

/// Checks `Session::new`: where it is refused, the tree and the prefix that it gives back make a session.
pub(crate) fn check_new(texts: &Texts) -> Result<Call, Stop> {
    let prefix = texts.prefix.copy(texts.alloc)?;
    let mut parts = Some((parsed(texts)?, prefix));
    made(|_time| make_session(texts.alloc, &mut parts))
}

/// Makes a session of a tree and a prefix, and puts them back where it is refused.
fn make_session(alloc: Global, parts: &mut Option<(Tree, Prefix)>) -> Result<(), Stop> {
    let Some((tree, prefix)) = parts.take() else {
        return Err(Stop::Wrong(Wrong::NothingBack));
    };
    match Session::new(alloc, tree, prefix) {
        Ok(mut session) => own(want_unasked(alloc, &mut session, "", DEFAULT_CONFIG_TEXT)),
        Err((tree, prefix, _)) => {
            *parts = Some((tree, prefix));
            Err(Stop::Refused)
        }
    }
}
