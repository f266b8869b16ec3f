//! Which values conditions may have: of definitions, blocks and choices.

ghost use Rattle.std.specs.Prelude.{◌≡◌, Some, slice_get};
ghost use Rattle.std.specs.Option.{option_map_or};
ghost use Rattle.kc_statement.specs.declared.tri.Tri.TheVariants.{No};
ghost use Rattle.kc_outline.specs.TreeValue.{blocks_around};
ghost use Rattle.kc_tree.specs.Cells.{IsCellOf};
ghost use Rattle.kc_value.specs.Assignment.{as_tri};
ghost use Rattle.kc_value.specs.Conditions.{blocks_depend, blocks_visible, choice_prompt_value, dependency, mode_around, prompt_value};
ghost use Rattle.kc_bounds.specs.Bounds.{CoversIn};

use crate::expressions::{conditions_set, own_condition_set};
use crate::table::ScopedBounds;
use crate::tri_set::TriSet;
use kc_tree::{BlockId, Cell, Choice, ChoiceId, Node, Tri};

/// Which values there may be of what all inside the blocks around a place depends on.
pub(crate) fn depends_around(bounds: &ScopedBounds<'_>, innermost: Option<BlockId>) -> TriSet
    ensures { CoversIn bounds.now.tree bounds.now.modules result (λ a. blocks_depend bounds.now.tree a (blocks_around bounds.now.tree innermost)) }
{
    match innermost {
        Some(block) if block.0 < bounds.tree().blocks().len() => bounds.cell(Cell::Depends(block)),
        Some(_) => TriSet::any(),
        None => TriSet::only(Tri::Yes),
    }
}

/// Which values there may be of what the prompts inside the blocks around a place depend on besides.
pub(crate) fn visible_around(bounds: &ScopedBounds<'_>, innermost: Option<BlockId>) -> TriSet
    ensures { CoversIn bounds.now.tree bounds.now.modules result (λ a. blocks_visible bounds.now.tree a (blocks_around bounds.now.tree innermost)) }
{
    match innermost {
        Some(block) if block.0 < bounds.tree().blocks().len() => bounds.cell(Cell::Visible(block)),
        Some(_) => TriSet::any(),
        None => TriSet::only(Tri::Yes),
    }
}

/// Which values there may be of what all inside a block depends on, by its lines and the block around it.
pub(crate) fn block_depends(bounds: &ScopedBounds<'_>, id: BlockId) -> TriSet
    ensures { CoversIn bounds.now.tree bounds.now.modules result (λ a. blocks_depend bounds.now.tree a (blocks_around bounds.now.tree (Some id))) }
{
    let Some(block) = bounds.block(id) else {
        return TriSet::any();
    };
    let lines = conditions_set(bounds, block.depends());
    lines.and(depends_around(bounds, block.parent()))
}

/// Which values there may be of what the prompts inside a block depend on besides, by its lines and the block around it.
pub(crate) fn block_visible(bounds: &ScopedBounds<'_>, id: BlockId) -> TriSet
    ensures { CoversIn bounds.now.tree bounds.now.modules result (λ a. blocks_visible bounds.now.tree a (blocks_around bounds.now.tree (Some id))) }
{
    let Some(block) = bounds.block(id) else {
        return TriSet::any();
    };
    let lines = conditions_set(bounds, block.visible());
    lines.and(visible_around(bounds, block.parent()))
}

/// Which values the dependencies of the definition of a number may have, by its lines and the blocks around it; n where
/// there is no such definition.
pub(crate) fn definition_lines(bounds: &ScopedBounds<'_>, number: usize) -> TriSet
    ensures { CoversIn bounds.now.tree bounds.now.modules result
        (λ a. option_map_or (dependency bounds.now.tree a) (slice_get bounds.now.tree.definitions number) No) }
{
    let Some(definition) = bounds.definition(number) else {
        return TriSet::only(Tri::No);
    };
    let lines = conditions_set(bounds, definition.depends());
    lines.and(depends_around(bounds, definition.block()))
}

/// Which values the dependencies of the definition of a number may have; n where there is no such definition.
pub(crate) fn dependency_set(bounds: &ScopedBounds<'_>, number: usize) -> TriSet
    ensures { CoversIn bounds.now.tree bounds.now.modules result
        (λ a. option_map_or (dependency bounds.now.tree a) (slice_get bounds.now.tree.definitions number) No) }
{
    if number < bounds.tree().definitions().len() {
        bounds.cell(Cell::Definition(number))
    } else {
        TriSet::only(Tri::No)
    }
}

/// Which values the condition of the prompt of the definition of a number may have, n without a prompt and where there is
/// no definition.
pub(crate) fn prompt_set(bounds: &ScopedBounds<'_>, number: usize) -> TriSet
    ensures { CoversIn bounds.now.tree bounds.now.modules result
        (λ a. option_map_or (prompt_value bounds.now.tree a) (slice_get bounds.now.tree.definitions number) No) }
{
    let Some(definition) = bounds.definition(number) else {
        return TriSet::only(Tri::No);
    };
    let Some(prompt) = definition.prompt() else {
        return TriSet::only(Tri::No);
    };
    let own = own_condition_set(bounds, prompt.condition.as_ref());
    let depends = dependency_set(bounds, number);
    own.and(depends.and(visible_around(bounds, definition.block())))
}

/// Which values the mode of the choice that something is in may have, y outside of choices.
pub(crate) fn mode_around(bounds: &ScopedBounds<'_>, choice: Option<ChoiceId>) -> TriSet
    ensures { CoversIn bounds.now.tree bounds.now.modules result (λ a. mode_around bounds.now.tree a choice) }
{
    let Some(choice) = choice else {
        return TriSet::only(Tri::Yes);
    };
    match bounds.choice(choice) {
        Some(_) => bounds.node(Node::Mode(choice)),
        None => TriSet::only(Tri::Yes),
    }
}

/// Which values the condition of a choice's prompt may have, n without one.
pub(crate) fn choice_prompt_set(bounds: &ScopedBounds<'_>, choice: &Choice) -> TriSet
    ensures { CoversIn bounds.now.tree bounds.now.modules result (λ a. choice_prompt_value bounds.now.tree a choice.now) }
{
    let Some(prompt) = choice.prompt() else {
        return TriSet::only(Tri::No);
    };
    let own = own_condition_set(bounds, prompt.condition.as_ref());
    let block = Some(choice.block());
    own.and(depends_around(bounds, block).and(visible_around(bounds, block)))
}
