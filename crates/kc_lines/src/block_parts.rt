//! The line that says what all inside a block depends on.

ghost use Rattle.std.specs.Prelude.{◌≡◌};
ghost use Rattle.kc_lines.specs.BlockParts.{block_part, is_if, is_if_kind};

use crate::parts::{Attribute, Family, Part};
use kc_tree::{BlockId, BlockKind, Tree};

/// Whether a block of a kind is an `if`.
pub fn is_if_kind(kind: &BlockKind) -> bool
    ensures { result ≡ is_if_kind kind.now }
{
    match kind {
        BlockKind::If => true,
        BlockKind::Menu(_) | BlockKind::Choice => false,
    }
}

/// Whether a block is an `if`, whose expression is on its own line.
pub fn is_if(tree: &Tree, block: BlockId) -> bool
    ensures { result ≡ is_if tree.now block }
{
    match tree.blocks().get(block.0) {
        Some(block) => is_if_kind(block.kind()),
        None => false,
    }
}

/// The part that says what all inside a block depends on, by the place of an expression among those of the block.
pub fn block_part(is_if: bool, block: BlockId, place: usize) -> Part
    ensures { result ≡ block_part is_if block place }
{
    if is_if {
        Part::Owner(Family::Block, block.0)
    } else {
        Part::Said(Family::Block, block.0, Attribute::Depends, place)
    }
}
