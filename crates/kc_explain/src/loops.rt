//! What is said of a dependency loop.

ghost use Rattle.std.specs.Prelude.{IfOk};
ghost use Rattle.kc_lines.specs.declared.shown.Fault.TheVariants.{Loop};
ghost use Rattle.kc_lines.specs.Named.{AreRemarksOf};

use crate::meanings::fault_meaning;
use crate::messages::{node_pieces, way_pieces};
use crate::outlines::{name_of, outline_of, owner_of};
use crate::piece::{texts, words_of};
use crate::spelling::repeated;
use kc_lines::{
    Explanation, Family, Fault, LineIndex, Part, Step, Way, WordedPart, explain_worded_parts,
    step_between,
};
use kc_outline::{BlockKind, Outline};
use kc_statement::Seed;
use kc_text::Line;
use kc_tree::NamedNode;
use std::alloc::{AllocError, Global};

/// What is said of a loop of nodes, each of which uses the next and the last the first, by the lines of its Kconfig:
/// for each step the line that makes it, and for a `select` or an `imply` the symbol in which it is (this project's own
/// words). Names are kept under the hash of a seed.
///
/// # Errors
///
/// `AllocError` where memory is refused.
pub fn explain_loop(
    alloc: Global,
    seed: Seed,
    lines: &[Line<'_>],
    nodes: &[NamedNode],
) -> Result<Explanation, AllocError>
    ensures { IfOk result (λ e. AreRemarksOf Loop lines.now e.remarks.items) }
{
    let index = LineIndex::of(alloc, lines)?;
    let parts = match outline_of(alloc, seed, lines)? {
        Some(outline) => parts_of(alloc, &index, &outline, nodes)?,
        None => Vec::new(alloc),
    };
    let words = String::from_str(alloc, fault_meaning(19).unwrap_or(""))?;
    explain_worded_parts(alloc, Fault::Loop, words, &index, parts.as_slice())
}

/// The parts that make the steps of a loop.
fn parts_of(
    alloc: Global,
    index: &LineIndex<'_, '_>,
    outline: &Outline,
    nodes: &[NamedNode],
) -> Result<Vec<WordedPart>, AllocError> {
    let mut parts = Vec::new(alloc);
    for (place, node) in nodes.iter().enumerate() {
        let Some(next) = nodes.get(place + 1).or(nodes.first()) else {
            break;
        };
        if let Some(step) = step_between(index, outline, node.node, next.node) {
            add_step(alloc, &mut parts, outline, node, step)?;
        }
    }
    Ok(parts)
}

/// Adds the part by which a node uses the next, after the line that selects or implies its symbol, if it is by that.
fn add_step(
    alloc: Global,
    parts: &mut Vec<WordedPart>,
    outline: &Outline,
    node: &NamedNode,
    step: Step,
) -> Result<(), AllocError> {
    let Step { part, way } = step;
    let words = match way {
        Way::OfSelecting(selecting) | Way::AroundSelecting(selecting) => {
            add_selecting(alloc, parts, outline, node, selecting)?;
            way_words(alloc, outline, node, step)?
        }
        _ => node_words(alloc, outline, node, step)?,
    };
    parts.push(WordedPart { words, part })?;
    Ok(())
}

/// Adds the line that selects or implies the symbol of a node.
fn add_selecting(
    alloc: Global,
    parts: &mut Vec<WordedPart>,
    outline: &Outline,
    node: &NamedNode,
    part: Part,
) -> Result<(), AllocError> {
    let way = Way::Selected;
    let words = node_words(alloc, outline, node, Step { part, way })?;
    parts.push(WordedPart { words, part })?;
    Ok(())
}

/// The words before the part by which a node uses the next: what the node has, and by what.
fn node_words(
    alloc: Global,
    outline: &Outline,
    node: &NamedNode,
    step: Step,
) -> Result<String, AllocError> {
    let by = way_words(alloc, outline, node, step)?;
    let texts = texts!(name: repeated(node.name.as_str()), text: by.as_str());
    words_of(alloc, node_pieces(node.node), &texts)
}

/// The words for by what a node uses the next.
fn way_words(
    alloc: Global,
    outline: &Outline,
    node: &NamedNode,
    step: Step,
) -> Result<String, AllocError> {
    let selecting = match step.way {
        Way::OfSelecting(part) | Way::AroundSelecting(part) => part,
        _ => step.part,
    };
    let other = match owner_of(outline, selecting) {
        Ok(symbol) => name_of(outline, symbol),
        Err(_) => "",
    };
    let texts = texts!(kind: block_word(outline, step.part), other: other);
    words_of(alloc, way_pieces(step.way, node.node), &texts)
}

/// The word for the block that a part is, or belongs to.
fn block_word(outline: &Outline, part: Part) -> &'static str {
    let (Part::Owner(Family::Block, number) | Part::Said(Family::Block, number, _, _)) = part else {
        return "block";
    };
    match outline.blocks().get(number) {
        Some(block) => match block.kind() {
            BlockKind::Menu(_) => "menu",
            BlockKind::Choice => "choice",
            BlockKind::If => "`if`",
        },
        None => "block",
    }
}
