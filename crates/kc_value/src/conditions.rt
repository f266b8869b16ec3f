//! The conditions of definitions, blocks, menus and comments.

ghost use Rattle.std.specs.Prelude.{◌≡◌, Some, option_and_then, slice_get};
ghost use Rattle.std.specs.Option.{option_copied, option_map_or};
ghost use Rattle.kc_statement.specs.declared.tri.Tri.TheVariants.{No};
ghost use Rattle.kc_statement.specs.Tristate.{least};
ghost use Rattle.kc_outline.specs.TreeValue.{blocks_from, blocks_around};
ghost use Rattle.kc_tree.specs.Cells.{IsCellOf, IsCondition, condition_of};
ghost use Rattle.kc_tree.specs.Nodes.{IsNodeOf};
ghost use Rattle.kc_tree.specs.declared.node.Node.{Node};
ghost use Rattle.kc_value.specs.Assignment.{Assignment};
ghost use Rattle.kc_value.specs.Known.{given};
ghost use Rattle.kc_value.specs.Conditions.{blocks_depend, blocks_visible, condition_value, dependency, prompt_value, mode_around, choice_prompt_value, menu_value, comment_value, menu_condition, comment_condition};

use crate::expr_value::{conditions_tri, own_condition_tri};
use crate::known::Known;
use kc_outline::MOST_OPEN_BLOCKS;
use kc_tree::{Block, BlockId, Cell, Choice, ChoiceId, Comment, CommentId, Definition, Node, Tri};

/// What all inside some blocks depends on by their lines: those from one outwards, as many as the limit at most.
fn depends_within(known: &Known<'_>, limit: usize, innermost: Option<BlockId>) -> Tri
    ensures { result ≡ blocks_depend known.now.tree (given known.now) (blocks_from known.now.tree.blocks limit innermost) }
{
    let mut least = Tri::Yes;
    let mut next = innermost;
    for _ in 0..limit {
        let Some(block) = block_at(known, next) else {
            return least;
        };
        if least.is_no() {
            return Tri::No;
        }
        least = least.and(conditions_tri(known, block.depends()));
        next = block.parent();
    }
    least
}

/// What the prompts inside some blocks depend on by their `visible if` lines: those from one outwards, as many as the
/// limit at most.
fn visible_within(known: &Known<'_>, limit: usize, innermost: Option<BlockId>) -> Tri
    ensures { result ≡ blocks_visible known.now.tree (given known.now) (blocks_from known.now.tree.blocks limit innermost) }
{
    let mut least = Tri::Yes;
    let mut next = innermost;
    for _ in 0..limit {
        let Some(block) = block_at(known, next) else {
            return least;
        };
        if least.is_no() {
            return Tri::No;
        }
        least = least.and(conditions_tri(known, block.visible()));
        next = block.parent();
    }
    least
}

/// The innermost block around something, if it is in one.
pub(crate) fn block_at<'a>(known: &Known<'a>, id: Option<BlockId>) -> Option<&'a Block>
    ensures { option_copied result ≡ option_and_then (λ i. slice_get known.now.tree.blocks i.0) id }
{
    let id = id?;
    known.block(id)
}

/// What all inside the blocks around a place depends on.
pub(crate) fn depends_around(known: &Known<'_>, innermost: Option<BlockId>) -> Tri
    ensures { result ≡ blocks_depend known.now.tree (given known.now) (blocks_around known.now.tree innermost) }
{
    if let Some(block) = innermost
        && block.0 < known.tree().blocks().len()
        && let Some(value) = known.condition(Cell::Depends(block))
    {
        return value;
    }
    depends_within(known, MOST_OPEN_BLOCKS, innermost)
}

/// What the prompts inside the blocks around a place depend on besides.
fn visible_around(known: &Known<'_>, innermost: Option<BlockId>) -> Tri
    ensures { result ≡ blocks_visible known.now.tree (given known.now) (blocks_around known.now.tree innermost) }
{
    if let Some(block) = innermost
        && block.0 < known.tree().blocks().len()
        && let Some(value) = known.condition(Cell::Visible(block))
    {
        return value;
    }
    visible_within(known, MOST_OPEN_BLOCKS, innermost)
}

/// The dependencies of a definition by its lines and the blocks around it.
fn lines_tri(known: &Known<'_>, definition: &Definition) -> Tri
    ensures { result ≡ dependency known.now.tree (given known.now) definition.now }
{
    let lines = conditions_tri(known, definition.depends());
    if lines.is_no() {
        return Tri::No;
    }
    lines.and(depends_around(known, definition.block()))
}

/// What the dependencies of the definition of a number are worth (kconfig-language.rst, "Menu dependencies"): its own
/// `depends on` lines, and those of all blocks around it; n where there is no such definition.
pub fn dependency_tri(known: &Known<'_>, number: usize) -> Tri
    ensures { result
        ≡ option_map_or (dependency known.now.tree (given known.now)) (slice_get known.now.tree.definitions number) No }
{
    let Some(definition) = known.definition(number) else {
        return Tri::No;
    };
    match known.condition(Cell::Definition(number)) {
        Some(value) => value,
        None => lines_tri(known, definition),
    }
}

/// What all inside a block depends on, by its lines and the block around it; y for a number that the tree doesn't have.
fn block_depends(known: &Known<'_>, id: BlockId) -> Tri
    ensures { result ≡ blocks_depend known.now.tree (given known.now) (blocks_around known.now.tree (Some id)) }
{
    let Some(block) = known.block(id) else {
        return Tri::Yes;
    };
    let lines = conditions_tri(known, block.depends());
    lines.and(depends_around(known, block.parent()))
}

/// What the prompts inside a block depend on besides, by its lines and the block around it; y for a number that the tree
/// doesn't have.
fn block_visible(known: &Known<'_>, id: BlockId) -> Tri
    ensures { result ≡ blocks_visible known.now.tree (given known.now) (blocks_around known.now.tree (Some id)) }
{
    let Some(block) = known.block(id) else {
        return Tri::Yes;
    };
    let lines = conditions_tri(known, block.visible());
    lines.and(visible_around(known, block.parent()))
}

/// What a condition is worth, by its own lines and the condition around it.
pub(crate) fn condition_tri(known: &Known<'_>, cell: Cell) -> Tri
    requires inside { IsCellOf known.now.tree cell }
    requires condition { IsCondition cell }
    ensures { result ≡ condition_value known.now.tree (given known.now) (condition_of known.now.tree cell) }
{
    match cell {
        Cell::Node(_) => unreachable!(),
        Cell::Definition(number) => match known.definition(number) {
            Some(definition) => lines_tri(known, definition),
            None => Tri::No,
        },
        Cell::Depends(block) => block_depends(known, block),
        Cell::Visible(block) => block_visible(known, block),
    }
}

/// The condition of the prompt of the definition of a number, n without a prompt and where there is no definition.
pub(crate) fn prompt_tri(known: &Known<'_>, number: usize) -> Tri
    ensures { result
        ≡ option_map_or (prompt_value known.now.tree (given known.now)) (slice_get known.now.tree.definitions number) No }
{
    let Some(definition) = known.definition(number) else {
        return Tri::No;
    };
    let Some(prompt) = definition.prompt() else {
        return Tri::No;
    };
    let depends = dependency_tri(known, number);
    if depends.is_no() {
        return Tri::No;
    }
    let own = own_condition_tri(known, prompt.condition.as_ref());
    own.and(depends.and(visible_around(known, definition.block())))
}

/// The condition of a menu.
fn menu_tri(known: &Known<'_>, menu: &Block) -> Tri
    ensures { result ≡ menu_value known.now.tree (given known.now) menu.now }
{
    let visible = conditions_tri(known, menu.visible());
    let own = conditions_tri(known, menu.depends());
    own.and(depends_around(known, menu.parent()).and(visible))
}

/// The condition of a comment.
fn comment_tri(known: &Known<'_>, comment: &Comment) -> Tri
    ensures { result ≡ comment_value known.now.tree (given known.now) comment.now }
{
    let own = conditions_tri(known, comment.depends());
    let around = depends_around(known, comment.block());
    own.and(around.and(mode_tri(known, comment.choice())))
}

/// The mode of the choice that something is in, y outside of choices.
pub(crate) fn mode_tri(known: &Known<'_>, choice: Option<ChoiceId>) -> Tri
    ensures { result ≡ mode_around known.now.tree (given known.now) choice }
{
    let Some(choice) = choice else {
        return Tri::Yes;
    };
    match known.choice(choice) {
        Some(_) => known.tri(Node::Mode(choice)),
        None => Tri::Yes,
    }
}

/// The condition of a choice's prompt, n without one: what a definition's is, by the block of the choice.
pub(crate) fn choice_prompt_tri(known: &Known<'_>, choice: &Choice) -> Tri
    ensures { result ≡ choice_prompt_value known.now.tree (given known.now) choice.now }
{
    let Some(prompt) = choice.prompt() else {
        return Tri::No;
    };
    let own = own_condition_tri(known, prompt.condition.as_ref());
    let block = Some(choice.block());
    own.and(depends_around(known, block).and(visible_around(known, block)))
}

/// The condition of a menu: its own `depends on` and `visible if` lines, and what the blocks around it depend on, but
/// not their `visible if` lines. It is n for a number that the tree doesn't have. `known` has the values of all nodes.
pub fn menu_condition(known: &Known<'_>, menu: BlockId) -> Tri
    ensures { (a : Assignment) → ((n : Node) → IsNodeOf known.now.tree n → given known.now n ≡ a n)
        → result ≡ menu_condition known.now.tree a menu }
{
    match known.block(menu) {
        Some(block) => menu_tri(known, block),
        None => Tri::No,
    }
}

/// The condition of a comment: its own `depends on` lines, what the blocks around it depend on, and inside a choice its
/// mode. It is n for a number that the tree doesn't have. `known` has the values of all nodes.
pub fn comment_condition(known: &Known<'_>, comment: CommentId) -> Tri
    ensures { (a : Assignment) → ((n : Node) → IsNodeOf known.now.tree n → given known.now n ≡ a n)
        → result ≡ comment_condition known.now.tree a comment }
{
    match known.comment(comment) {
        Some(comment) => comment_tri(known, comment),
        None => Tri::No,
    }
}
