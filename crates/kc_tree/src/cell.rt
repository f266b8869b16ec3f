ghost use Rattle.std.specs.Prelude.{◌≡◌, ◌<◌, ◌≤◌, ◌*◌, ◌^◌, length};
ghost use Rattle.kc_tree.specs.Cells.{IsCellOf, cell_at, cell_count, cell_number, condition_in};
ghost use Rattle.kc_tree.specs.Nodes.{node_count};
ghost use Rattle.kc_statement.specs.declared.limits.TheConstants.{MOST_SYMBOLS};

use crate::node::Node;
use kc_outline::{BlockId, Outline};

/// What is evaluated once and kept: a node, or a condition that many nodes read.
#[derive(Clone, Copy, Debug, PartialEq, Eq)]
pub enum Cell {
    /// A node of the tree.
    Node(Node),
    /// What the definition of a number depends on: its own `depends on` lines and the blocks around it.
    Definition(usize),
    /// What all inside a block depends on: the lines of the block and of those around it.
    Depends(BlockId),
    /// What the prompts inside a block depend on besides: the `visible if` lines of the block and of those around it.
    Visible(BlockId),
}

/// How many nodes there are of what lines define: two for each symbol, and two for each choice.
pub(crate) fn node_count(outline: &Outline) -> usize
    requires { cell_count outline.now < 2 ^ 32 }
    ensures { result ≡ node_count outline.now }
{
    2 * (outline.symbols().len() + outline.choices().len())
}

/// How many cells there are: the nodes, two for each block, and one for each definition.
pub(crate) fn cell_count(outline: &Outline) -> usize
    requires { cell_count outline.now < 2 ^ 32 }
    ensures { result ≡ cell_count outline.now }
{
    node_count(outline) + (2 * outline.blocks().len() + outline.definitions().len())
}

/// The condition of a number among those of conditions, in a tree with this number of blocks.
fn condition_in(blocks: usize, number: usize) -> Cell
    requires { blocks < 2 ^ 32 }
    ensures { result ≡ condition_in blocks number }
{
    if number < blocks {
        Cell::Depends(BlockId(number))
    } else if number < 2 * blocks {
        Cell::Visible(BlockId(number - blocks))
    } else {
        Cell::Definition(number - 2 * blocks)
    }
}

impl Cell {
    /// The number of the cell: the nodes have theirs, and those of the blocks and of the definitions follow.
    pub(crate) fn number_in(self, outline: &Outline) -> usize
        requires few { length outline.now.symbols ≤ MOST_SYMBOLS }
        requires few_cells { cell_count outline.now < 2 ^ 32 }
        requires inside { IsCellOf outline.now self }
        ensures { result ≡ cell_number outline.now self }
    {
        let blocks = outline.blocks().len();
        match self {
            Cell::Node(node) => node.number_in(outline.symbols().len()),
            Cell::Depends(block) => node_count(outline) + block.0,
            Cell::Visible(block) => node_count(outline) + (blocks + block.0),
            Cell::Definition(definition) => node_count(outline) + (2 * blocks + definition),
        }
    }

    /// The cell of a number.
    pub(crate) fn in_outline(outline: &Outline, number: usize) -> Cell
        requires few { length outline.now.symbols ≤ MOST_SYMBOLS }
        requires few_cells { cell_count outline.now < 2 ^ 32 }
        ensures { result ≡ cell_at outline.now number }
    {
        let nodes = node_count(outline);
        if number < nodes {
            Cell::Node(Node::in_tree(outline.symbols().len(), number))
        } else {
            condition_in(outline.blocks().len(), number - nodes)
        }
    }
}
