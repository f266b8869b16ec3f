//! The target `how` with `--keep`: the values of CONFIG that are lost are wanted, too.

use crate::how::{Before, Found, WantedAnswer, WantedTexts, answer_in_session};
use crate::reports::ReportInputs;
use kc_merge_report::LostLine;
use kc_session::{Body, Command, Reply, Session};
use kc_tree::{SymId, Tree};
use kc_value::Resolver;
use std::alloc::{AllocError, Global};
use std::collections::BTreeSet;

/// The most times that values which are lost are wanted, too.
const MOST_TRIES: usize = 4;

/// The lines that give what is wanted and cost the fewest lines of CONFIG: those that are lost are wanted, too, as long as
/// fewer are lost then.
pub(crate) fn with_values_kept(
    alloc: Global,
    inputs: &ReportInputs<'_, '_>,
    session: &mut Session,
    before: &Before,
    first: Found,
) -> Result<Found, AllocError> {
    let mut best = first;
    for _ in 0..MOST_TRIES {
        let config = inputs.config.bytes();
        let Some(wanted) = with_lost(alloc, session.tree(), config, &best)? else {
            break;
        };
        load(session, config)?;
        let answer = answer_in_session(alloc, inputs, session, before, wanted)?;
        let WantedAnswer::Found(next) = answer else {
            break;
        };
        if next.lost.len() >= best.lost.len() {
            break;
        }
        best = next;
    }
    Ok(best)
}

/// What lines give, and the lines of CONFIG that they cost; nothing where they cost none that could be kept.
fn with_lost(
    alloc: Global,
    tree: &Tree,
    config: &[u8],
    found: &Found,
) -> Result<Option<WantedTexts>, AllocError> {
    let settled = Settled::by(alloc, tree, found.asked.as_slice())?;
    let lost = found.lost.iter().copied();
    let lost: Vec<LostLine> = lost
        .filter(|line| !settled.has(tree, line.symbol))
        .collect(alloc)?;
    if lost.is_empty() {
        return Ok(None);
    }
    let mut kept = Vec::new(alloc);
    kept.extend_from_slice(found.wanted.kept.as_slice())?;
    add_lines(&mut kept, config, lost.as_slice())?;
    let mut asked = Vec::new(alloc);
    asked.extend_from_slice(found.wanted.asked.as_slice())?;
    Ok(Some(WantedTexts {
        kept,
        kept_count: found.wanted.kept_count.saturating_add(lost.len()),
        asked,
    }))
}

/// Adds lines of a `.config`, by their numbers, which ascend.
fn add_lines(text: &mut Vec<u8>, config: &[u8], lines: &[LostLine]) -> Result<(), AllocError> {
    let mut rest = lines;
    for (before, line) in config.split(|byte| *byte == b'\n').enumerate() {
        let Some((first, later)) = rest.split_first() else {
            break;
        };
        if first.number == before.saturating_add(1) {
            text.extend_from_slice(line)?;
            text.push(b'\n')?;
            rest = later;
        }
    }
    Ok(())
}

/// The symbols and choices that what is asked for settles, so that no line of CONFIG can be kept against it.
#[derive(Drop)]
struct Settled {
    symbols: BTreeSet<u32>,
    choices: BTreeSet<u32>,
}

impl Settled {
    /// By the symbols that values are asked for of.
    fn by(alloc: Global, tree: &Tree, asked: &[SymId]) -> Result<Settled, AllocError> {
        let mut settled = Settled {
            symbols: BTreeSet::new(alloc),
            choices: BTreeSet::new(alloc),
        };
        for symbol in asked {
            settled.symbols.insert(symbol.0)?;
            if let Some(choice) = tree.choice_of(*symbol) {
                settled.choices.insert(choice.0)?;
            }
        }
        Ok(settled)
    }

    /// Whether a symbol is one of them, or a member of such a choice.
    fn has(&self, tree: &Tree, symbol: SymId) -> bool {
        match tree.choice_of(symbol) {
            Some(choice) if self.choices.contains(&choice.0) => true,
            _ => self.symbols.contains(&symbol.0),
        }
    }
}

/// Loads CONFIG again, which is not too long, so that only memory can be refused.
fn load(session: &mut Session, config: &[u8]) -> Result<(), AllocError> {
    match session.apply(Command::Load(Body::new(config))) {
        Reply::Done(_text) => Ok(()),
        Reply::Refused(_) => Err(AllocError),
    }
}
