//! From the texts of a Kconfig to a session.
ghost use Rattle.std.specs.Prelude.{◌≡◌, ◌≤◌, ℕ, List, length, All, IfOk, IfErr, OnOk, Ok, Err, true};
ghost use Rattle.kc_text.specs.declared.reading.TheConstants.{MOST_LINES};
ghost use Rattle.kc_text.specs.Entries.{AreLines, HasOneReading};
ghost use Rattle.kc_text.specs.Names.{texts_in};
ghost use Rattle.kc_tree.specs.Parsed.{IsTreeOf, IsFaultOf, IsOnlyTree};
ghost use Rattle.kc_value.specs.Solution.{solution, IsOnlySolution};
ghost use Rattle.kc_value.specs.Kept.{nothing_kept};
ghost use Rattle.kc_value.specs.UserValues.{UserValues, IsUserFor};
ghost use Rattle.kc_files.specs.DefaultLoading.{HasNoFeeds};
ghost use Rattle.kc_files.specs.LineReading.{IsAssignFor, IsUnfed};
ghost use Rattle.kc_files.specs.OneReading.{assigns_in, warnings_in, IsReadAs};
ghost use Rattle.kc_session.specs.Bodies.{fits_body};
ghost use Rattle.kc_session.specs.Keeping.{KeepsRight, KeepsUsed};
ghost use Rattle.kc_session.specs.Opened.{AreEnclosed, AreTextsEnclosed, IsOpened, IsOpenedFrom, IsOpenFault, IsFaultFrom, IsTextFaultOf, IsTreeFaultOf, IsConfigFault, IsOnlySession, IsOnlySessionFrom, IsOnlyTreeFault, IsFirstOpenFault, IsFirstFaultFrom, user_of_config};

use crate::command::Refusal;
use crate::load::read_body;
use crate::session::Session;
use bumpalo::Bump;
use kc_files::{Assign, Load, Prefix, Warning, apply};
use kc_text::{Line, Sources, TextFault, Vars, logical_lines};
use kc_tree::{Seed, Tree, TreeFault};
use kc_value::User;
use std::alloc::Global;

/// Why texts give no session.
#[derive(Debug, Drop)]
pub enum OpenFault {
    /// A fault of a text, with its number.
    Text(TextFault),
    /// A fault of the lines or of the tree, with its number.
    Tree(TreeFault),
    /// The `.config` is too long, or one of its lines.
    Limit,
    /// Memory was refused.
    NoMemory,
}

/// The texts of a Kconfig: its files, the variables that its lines name, and the path of the top file.
#[derive(Clone, Copy)]
pub struct KconfigTexts<'a> {
    pub sources: &'a Sources,
    pub vars: &'a Vars,
    pub top: &'a str,
}

/// The logical lines of the top file, whose tokens the arena keeps.
fn read_lines<'a>(
    alloc: Global,
    arena: &'a Bump,
    sources: &'a Sources,
    vars: &'a Vars,
    top: &str,
) -> Result<Vec<Line<'a>>, OpenFault>
    ensures few { IfOk result (λ lines. length lines.items ≤ MOST_LINES) }
    ensures lines { IfOk result (λ lines. AreLines sources.now (texts_in vars.now) top.now lines.items) }
    ensures fault { IfErr result (IsTextFaultOf sources.now vars.now top.now) }
    ensures one { HasOneReading sources.now (texts_in vars.now) top.now }
{
    match logical_lines(alloc, arena, sources, vars, top) {
        Ok(lines) => Ok(lines),
        Err(TextFault::NoMemory) => Err(OpenFault::NoMemory),
        Err(fault) => Err(OpenFault::Text(fault)),
    }
}

/// The tree of logical lines, whose names are kept under the hash of a seed.
fn read_tree(alloc: Global, seed: Seed, lines: &[Line<'_>]) -> Result<Tree, OpenFault>
    requires { length lines.now ≤ MOST_LINES }
    ensures tree { IfOk result (IsTreeOf lines.now) }
    ensures only { IfOk result (IsOnlyTree lines.now) }
    ensures enclosed { IfOk result (AreEnclosed lines.now) }
    ensures fault { IfErr result (IsTreeFaultOf lines.now) }
    ensures first { IfErr result (IsOnlyTreeFault lines.now) }
{
    match Tree::parse_seeded(alloc, seed, lines) {
        Ok(tree) => Ok(tree),
        Err(TreeFault::NoMemory) => Err(OpenFault::NoMemory),
        Err(fault) => Err(OpenFault::Tree(fault)),
    }
}

/// The assignments of a `.config` that count, and its warnings.
fn read_assigns(
    alloc: Global,
    tree: &Tree,
    prefix: &Prefix,
    config: &[u8],
) -> Result<(Vec<Assign>, Vec<Warning>), OpenFault>
    ensures fits { OnOk result (fits_body config.now ≡ true) }
    ensures assigns { IfOk result (λ r. r.0.items ≡ assigns_in tree.now prefix.now config.now) }
    ensures fitting { IfOk result (λ r. All (IsAssignFor tree.now) r.0.items) }
    ensures unfed { IfOk result (λ r. All IsUnfed r.0.items) }
    ensures warnings { IfOk result (λ r. r.1.items ≡ warnings_in tree.now prefix.now config.now) }
    ensures fault { IfErr result (IsConfigFault config.now) }
{
    match read_body(alloc, tree, prefix, config) {
        Ok(reading) => Ok(reading),
        Err(Refusal::TooLong) => Err(OpenFault::Limit),
        Err(_) => Err(OpenFault::NoMemory),
    }
}

/// The user values that a `.config` gives a tree, and its warnings.
fn read_user(
    alloc: Global,
    tree: &Tree,
    prefix: &Prefix,
    config: &[u8],
) -> Result<(User, Vec<Warning>), OpenFault>
    ensures fits { OnOk result (fits_body config.now ≡ true) }
    ensures values { IfOk result (λ r. r.0 ≡ user_of_config tree.now prefix.now config.now) }
    ensures user { IfOk result (λ r. IsUserFor tree.now r.0) }
    ensures unfed { IfOk result (λ r. HasNoFeeds r.0) }
    ensures warnings { IfOk result (λ r. r.1.items ≡ warnings_in tree.now prefix.now config.now) }
    ensures fault { IfErr result (IsConfigFault config.now) }
{
    let (assigns, warnings) = read_assigns(alloc, tree, prefix, config)?;
    let Ok(mut user) = User::empty(alloc, tree) else {
        return Err(OpenFault::NoMemory);
    };
    apply(tree, &mut user, assigns, Load::Replace);
    Ok((user, warnings))
}

/// The session of the Kconfig that begins with the top file, with the user values of a `.config`, and its warnings in
/// the order of its lines: as after a `load` of it, and without any where it is empty. The session's values are those of
/// the only solution, also where its user values become others. No text of the user has a line feed. It keeps a copy of
/// the prefix.
///
/// # Errors
///
/// - `OpenFault::Text` with the first fault of the texts.
/// - `OpenFault::Tree` where the texts have none, with the first fault of their lines, symbols and nodes.
/// - `OpenFault::Limit` where these have none either, and the `.config` has more than 16,777,216 bytes, or a line of more
///   than 65,536.
/// - `OpenFault::NoMemory` where memory was refused.
pub fn open(
    alloc: Global,
    sources: &Sources,
    vars: &Vars,
    top: &str,
    prefix: &Prefix,
    config: &[u8],
) -> Result<(Session, Vec<Warning>), OpenFault>
    ensures opened { IfOk result (λ r. IsOpened sources.now vars.now top.now prefix.now config.now r.0.session) }
    ensures warnings { IfOk result (λ r. r.1.items ≡ warnings_in r.0.session.tree prefix.now config.now) }
    ensures unfed { IfOk result (λ r. HasNoFeeds r.0.session.user) }
    ensures bodies { IfOk result (λ r. (body : List ℕ) → IsReadAs r.0.session.tree r.0.session.prefix body) }
    ensures nothing_kept { IfOk result (λ r. r.0.kept ≡ nothing_kept r.0.session.tree) }
    ensures right { IfOk result (λ r. KeepsRight r.0) }
    ensures used { IfOk result (λ r. KeepsUsed r.0) }
    ensures solved { IfOk result (λ r. (u : UserValues) → IsOnlySolution r.0.session.tree u (solution r.0.session.tree u)) }
    ensures only { IfOk result (λ r. IsOnlySession sources.now vars.now top.now prefix.now config.now r.0.session) }
    ensures enclosed { IfOk result (λ r. AreTextsEnclosed sources.now vars.now top.now r.0.session.tree) }
    ensures fault { IfErr result (IsOpenFault sources.now vars.now top.now config.now) }
    ensures first { IfErr result (IsFirstOpenFault sources.now vars.now top.now prefix.now config.now) }
{
    let texts = KconfigTexts { sources, vars, top };
    open_seeded(alloc, Seed::fixed(), &texts, prefix, config)
}

/// The session of logical lines that were read before, for a caller who needs them afterwards, as for the places of faults
/// or for help texts: otherwise as `open_seeded`, which reads the lines first and then does this.
///
/// # Errors
///
/// Those of `open`, but for `OpenFault::Text`.
#[tactic(auto, using(crate::proofs::OpenLaws::tree_fault_from, crate::proofs::OpenLaws::config_fault_from, crate::proofs::OneOpening::first_tree_fault, crate::proofs::OneOpening::first_config_fault))]
pub fn open_lines(
    alloc: Global,
    seed: Seed,
    lines: &[Line<'_>],
    prefix: &Prefix,
    config: &[u8],
) -> Result<(Session, Vec<Warning>), OpenFault>
    requires { length lines.now ≤ MOST_LINES }
    ensures opened { IfOk result (λ r. IsOpenedFrom lines.now prefix.now config.now r.0.session) }
    ensures warnings { IfOk result (λ r. r.1.items ≡ warnings_in r.0.session.tree prefix.now config.now) }
    ensures unfed { IfOk result (λ r. HasNoFeeds r.0.session.user) }
    ensures bodies { IfOk result (λ r. (body : List ℕ) → IsReadAs r.0.session.tree r.0.session.prefix body) }
    ensures nothing_kept { IfOk result (λ r. r.0.kept ≡ nothing_kept r.0.session.tree) }
    ensures right { IfOk result (λ r. KeepsRight r.0) }
    ensures used { IfOk result (λ r. KeepsUsed r.0) }
    ensures solved { IfOk result (λ r. (u : UserValues) → IsOnlySolution r.0.session.tree u (solution r.0.session.tree u)) }
    ensures only { IfOk result (λ r. IsOnlySessionFrom lines.now prefix.now config.now r.0.session) }
    ensures enclosed { IfOk result (λ r. AreEnclosed lines.now r.0.session.tree) }
    ensures fault { IfErr result (IsFaultFrom lines.now config.now) }
    ensures first { IfErr result (IsFirstFaultFrom lines.now prefix.now config.now) }
{
    let tree = read_tree(alloc, seed, lines)?;
    let (user, warnings) = read_user(alloc, &tree, prefix, config)?;
    let Ok(prefix) = prefix.copy(alloc) else {
        return Err(OpenFault::NoMemory);
    };
    match Session::with_user(alloc, tree, user, prefix) {
        Ok(session) => Ok((session, warnings)),
        Err(_) => Err(OpenFault::NoMemory),
    }
}

/// The same for untrusted texts: the names of symbols are kept under the hash of a seed, so that they can't be chosen
/// to be slow to find. The session or the fault is that of `open`.
///
/// # Errors
///
/// Those of `open`.
#[tactic(auto, using(crate::proofs::OpenLaws::text_fault, crate::proofs::OpenLaws::opened_of, crate::proofs::OpenLaws::fault_of, crate::proofs::OneOpening::first_text_fault))]
pub fn open_seeded(
    alloc: Global,
    seed: Seed,
    texts: &KconfigTexts<'_>,
    prefix: &Prefix,
    config: &[u8],
) -> Result<(Session, Vec<Warning>), OpenFault>
    ensures opened { IfOk result (λ r. IsOpened texts.now.sources.now texts.now.vars.now texts.now.top.now prefix.now config.now r.0.session) }
    ensures warnings { IfOk result (λ r. r.1.items ≡ warnings_in r.0.session.tree prefix.now config.now) }
    ensures unfed { IfOk result (λ r. HasNoFeeds r.0.session.user) }
    ensures bodies { IfOk result (λ r. (body : List ℕ) → IsReadAs r.0.session.tree r.0.session.prefix body) }
    ensures nothing_kept { IfOk result (λ r. r.0.kept ≡ nothing_kept r.0.session.tree) }
    ensures right { IfOk result (λ r. KeepsRight r.0) }
    ensures used { IfOk result (λ r. KeepsUsed r.0) }
    ensures solved { IfOk result (λ r. (u : UserValues) → IsOnlySolution r.0.session.tree u (solution r.0.session.tree u)) }
    ensures only { IfOk result (λ r. IsOnlySession texts.now.sources.now texts.now.vars.now texts.now.top.now prefix.now config.now r.0.session) }
    ensures enclosed { IfOk result (λ r. AreTextsEnclosed texts.now.sources.now texts.now.vars.now texts.now.top.now r.0.session.tree) }
    ensures fault { IfErr result (IsOpenFault texts.now.sources.now texts.now.vars.now texts.now.top.now config.now) }
    ensures first { IfErr result (IsFirstOpenFault texts.now.sources.now texts.now.vars.now texts.now.top.now prefix.now config.now) }
{
    let arena = Bump::new(alloc);
    let lines = read_lines(alloc, &arena, texts.sources, texts.vars, texts.top)?;
    let opened = open_lines(alloc, seed, lines.as_slice(), prefix, config)?;
    Ok(opened)
}
