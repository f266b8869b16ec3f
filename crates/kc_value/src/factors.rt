//! The factors of conditions, one by one, each with where it is and its value (kconfig-language.rst, "Menu dependencies").

ghost use Rattle.std.specs.Prelude.{◌≡◌, IfOk, OnOk, Option, Some, None, [], ◌∷◌, ◌++◌, map, slice_get};
ghost use Rattle.std.specs.Option.{option_copied, option_map_or};
ghost use Rattle.kc_statement.specs.declared.expr.Expr.{Expr};
ghost use Rattle.kc_statement.specs.Tristate.{least_of};
ghost use Rattle.kc_outline.specs.TreeValue.{blocks_around, choice_of};
ghost use Rattle.kc_tree.specs.ConditionTable.{also, own_if, own_lines, mode_of, dependencies_in, dependencies, of_prompt, of_reverse, of_menu, of_comment, of_choice_prompt};
ghost use Rattle.kc_value.specs.declared.factors.Origin.TheVariants.{Missing};
ghost use Rattle.kc_value.specs.Conditions.{condition_value};
ghost use Rattle.kc_value.specs.Known.{given};
ghost use Rattle.kc_value.specs.Factors.{judged, judged_factors, judged_of, judged_expression, worth_of, lines_of, of_blocks, origin_in, lines_at, around_at, if_at, mode_at, dependencies_at, origins, origins_of, definition_block, comment_block, choice_block, menu_origins, menu_origins_at, prompt_condition, menu_condition_at, comment_condition_at, choice_condition_at};

use crate::conditions::{block_at, mode_tri};
use crate::expr_value::tri;
use crate::known::Known;
use kc_outline::MOST_OPEN_BLOCKS;
use kc_tree::{
    Block, BlockId, Choice, ChoiceId, Comment, CommentId, Definition, Expr, Prompt, Reverse, Tri,
};
use std::alloc::{AllocError, Global};

/// What a factor is.
#[derive(Clone, Copy, Debug, Drop)]
pub enum FactorPart<'t> {
    /// An expression of a line.
    Expression(&'t Expr),
    /// The mode of a choice.
    Mode(ChoiceId),
    /// That there is no such definition; it counts as n.
    Missing,
}

/// Where a factor comes from.
#[derive(Clone, Copy, Debug, PartialEq, Eq)]
pub enum Origin {
    /// The own `depends on` line of this place.
    Own(usize),
    /// The own `if`.
    Condition,
    /// The line of this place of a block: the expression of an `if`, a `depends on` line of a menu or a choice.
    Block(BlockId, usize),
    /// The `visible if` line of this place of a menu.
    Visible(BlockId, usize),
    /// The choice that it is in.
    Mode,
    /// A definition that is not there.
    Missing,
}

/// One factor of a condition, which holds as far as all of its factors do.
#[derive(Clone, Copy, Debug, Drop)]
pub struct Factor<'t> {
    pub part: FactorPart<'t>,
    pub origin: Origin,
    pub value: Tri,
}

/// Which lines of a block.
#[derive(Clone, Copy)]
enum BlockLines {
    /// What all inside depends on.
    Depends,
    /// The `visible if` lines.
    Visible,
}

impl BlockLines {
    /// These lines of a block.
    fn of(self, block: &Block) -> &[Expr]
        ensures { result.now ≡ lines_of self block.now }
    {
        match self {
            BlockLines::Depends => block.depends(),
            BlockLines::Visible => block.visible(),
        }
    }
}

/// Lines that `&&` joins, by where they are.
#[derive(Clone, Copy)]
enum Lines {
    /// The own `depends on` lines.
    Own,
    /// Lines of a block.
    Block(BlockId, BlockLines),
}

impl Lines {
    /// Where the line of a place is.
    fn origin(self, place: usize) -> Origin
        ensures { result ≡ origin_in self place }
    {
        match self {
            Lines::Own => Origin::Own(place),
            Lines::Block(block, BlockLines::Depends) => Origin::Block(block, place),
            Lines::Block(block, BlockLines::Visible) => Origin::Visible(block, place),
        }
    }
}

/// A line as a factor.
fn line_factor<'t>(known: &Known<'_>, line: &'t Expr, origin: Origin) -> Factor<'t>
    ensures judged { judged result ≡ judged_expression known.now.tree (given known.now) line.now }
    ensures origin { result.origin ≡ origin }
{
    Factor {
        part: FactorPart::Expression(line),
        origin,
        value: tri(known, line),
    }
}

/// Adds lines that `&&` joins, in their order. The error comes where memory is refused.
fn add_lines<'t>(
    known: &Known<'_>,
    factors: &mut Vec<Factor<'t>>,
    lines: &'t [Expr],
    from: Lines,
) -> Result<(), AllocError>
    ensures judged { OnOk result (map judged factors.new.items ≡ map judged factors.old.items
        ++ judged_factors known.now.tree (given known.now) (own_lines lines.now)) }
    ensures origins { OnOk result (map (λ f. f.origin) factors.new.items ≡ map (λ f. f.origin) factors.old.items
        ++ lines_at from lines.now) }
{
    for (place, line) in lines.iter().enumerate() {
        factors.push(line_factor(known, line, from.origin(place)))?;
    }
    Ok(())
}

/// Adds the condition after an `if`, where there is one. The error comes where memory is refused.
fn add_condition<'t>(
    known: &Known<'_>,
    factors: &mut Vec<Factor<'t>>,
    condition: Option<&'t Expr>,
) -> Result<(), AllocError>
    ensures judged { OnOk result (map judged factors.new.items ≡ map judged factors.old.items
        ++ judged_factors known.now.tree (given known.now) (own_if (option_copied condition.entry))) }
    ensures origins { OnOk result (map (λ f. f.origin) factors.new.items ≡ map (λ f. f.origin) factors.old.items
        ++ if_at (option_copied condition.entry)) }
{
    if let Some(line) = condition {
        factors.push(line_factor(known, line, Origin::Condition))?;
    }
    Ok(())
}

/// Adds the mode of the choice that something is in, where it is in one. The error comes where memory is refused.
fn add_mode(
    known: &Known<'_>,
    factors: &mut Vec<Factor<'_>>,
    choice: Option<ChoiceId>,
) -> Result<(), AllocError>
    ensures judged { OnOk result (map judged factors.new.items ≡ map judged factors.old.items
        ++ judged_factors known.now.tree (given known.now) (mode_of choice)) }
    ensures origins { OnOk result (map (λ f. f.origin) factors.new.items ≡ map (λ f. f.origin) factors.old.items
        ++ mode_at choice) }
{
    if let Some(id) = choice {
        factors.push(Factor {
            part: FactorPart::Mode(id),
            origin: Origin::Mode,
            value: mode_tri(known, choice),
        })?;
    }
    Ok(())
}

/// Adds lines of the blocks around a place, from the innermost outwards. The error comes where memory is refused.
fn add_around<'t>(
    known: &Known<'t>,
    factors: &mut Vec<Factor<'t>>,
    innermost: Option<BlockId>,
    lines: BlockLines,
) -> Result<(), AllocError>
    ensures judged { OnOk result (map judged factors.new.items ≡ map judged factors.old.items
        ++ judged_factors known.now.tree (given known.now) (of_blocks lines (blocks_around known.now.tree innermost))) }
    ensures origins { OnOk result (map (λ f. f.origin) factors.new.items ≡ map (λ f. f.origin) factors.old.items
        ++ around_at known.now.tree lines innermost) }
{
    let mut next = innermost;
    for _ in 0..MOST_OPEN_BLOCKS {
        let Some(id) = next else {
            return Ok(());
        };
        let Some(block) = block_at(known, next) else {
            return Ok(());
        };
        add_lines(known, factors, lines.of(block), Lines::Block(id, lines))?;
        next = block.parent();
    }
    Ok(())
}

/// Adds the dependencies of a definition: its own `depends on` lines, and those of the blocks around it. The error comes
/// where memory is refused.
fn add_dependencies<'t>(
    known: &Known<'t>,
    factors: &mut Vec<Factor<'t>>,
    definition: &'t Definition,
) -> Result<(), AllocError>
    ensures judged { OnOk result (map judged factors.new.items ≡ map judged factors.old.items
        ++ judged_factors known.now.tree (given known.now) (dependencies known.now.tree definition.now)) }
    ensures origins { OnOk result (map (λ f. f.origin) factors.new.items ≡ map (λ f. f.origin) factors.old.items
        ++ dependencies_at known.now.tree definition.now) }
{
    add_lines(known, factors, definition.depends(), Lines::Own)?;
    add_around(known, factors, definition.block(), BlockLines::Depends)
}

/// Adds the dependencies of the definition of a number; without one, that there is none. The error comes where memory is
/// refused.
fn add_numbered<'t>(
    known: &Known<'t>,
    factors: &mut Vec<Factor<'t>>,
    number: usize,
) -> Result<(), AllocError>
    ensures judged { OnOk result (map judged factors.new.items ≡ map judged factors.old.items
        ++ judged_factors known.now.tree (given known.now) (dependencies_in (slice_get known.now.tree.definitions number))) }
    ensures origins { OnOk result (map (λ f. f.origin) factors.new.items ≡ map (λ f. f.origin) factors.old.items
        ++ option_map_or (dependencies_at known.now.tree) (slice_get known.now.tree.definitions number) (Missing ∷ [])) }
{
    match known.definition(number) {
        Some(definition) => add_dependencies(known, factors, definition),
        None => {
            factors.push(Factor {
                part: FactorPart::Missing,
                origin: Origin::Missing,
                value: Tri::No,
            })?;
            Ok(())
        }
    }
}

/// Adds the condition of the prompt of a definition. The error comes where memory is refused.
fn add_prompt<'t>(
    known: &Known<'t>,
    factors: &mut Vec<Factor<'t>>,
    definition: &'t Definition,
    prompt: &'t Prompt,
) -> Result<(), AllocError>
    ensures judged { OnOk result (map judged factors.new.items ≡ map judged factors.old.items
        ++ judged_factors known.now.tree (given known.now) (of_prompt known.now.tree definition.now prompt.now)) }
    ensures origins { OnOk result (map (λ f. f.origin) factors.new.items ≡ map (λ f. f.origin) factors.old.items
        ++ origins known.now.tree definition.now.block (of_prompt known.now.tree definition.now prompt.now)) }
{
    add_condition(known, factors, prompt.condition.as_ref())?;
    add_dependencies(known, factors, definition)?;
    add_around(known, factors, definition.block(), BlockLines::Visible)
}

/// Adds the condition of the prompt of a definition, and of a member of a choice the mode of the choice. The error comes
/// where memory is refused.
fn add_whole_prompt<'t>(
    known: &Known<'t>,
    factors: &mut Vec<Factor<'t>>,
    definition: &'t Definition,
    prompt: &'t Prompt,
) -> Result<(), AllocError>
    ensures judged { OnOk result (map judged factors.new.items ≡ map judged factors.old.items
        ++ judged_factors known.now.tree (given known.now) (also (of_prompt known.now.tree definition.now prompt.now) (mode_of (choice_of known.now.tree definition.now.symbol)))) }
    ensures origins { OnOk result (map (λ f. f.origin) factors.new.items ≡ map (λ f. f.origin) factors.old.items
        ++ origins known.now.tree definition.now.block (also (of_prompt known.now.tree definition.now prompt.now) (mode_of (choice_of known.now.tree definition.now.symbol)))) }
{
    add_prompt(known, factors, definition, prompt)?;
    add_mode(known, factors, known.tree().choice_of(definition.symbol()))
}

/// Adds the condition of a menu, which has this number. The error comes where memory is refused.
fn add_menu<'t>(
    known: &Known<'t>,
    factors: &mut Vec<Factor<'t>>,
    menu: BlockId,
    block: &'t Block,
) -> Result<(), AllocError>
    ensures judged { OnOk result (map judged factors.new.items ≡ map judged factors.old.items
        ++ judged_factors known.now.tree (given known.now) (of_menu known.now.tree block.now)) }
    ensures origins { OnOk result (map (λ f. f.origin) factors.new.items ≡ map (λ f. f.origin) factors.old.items
        ++ menu_origins known.now.tree menu block.now) }
{
    add_lines(known, factors, block.depends(), Lines::Own)?;
    add_around(known, factors, block.parent(), BlockLines::Depends)?;
    add_lines(
        known,
        factors,
        block.visible(),
        Lines::Block(menu, BlockLines::Visible),
    )
}

/// Adds the condition of a comment. The error comes where memory is refused.
fn add_comment<'t>(
    known: &Known<'t>,
    factors: &mut Vec<Factor<'t>>,
    comment: &'t Comment,
) -> Result<(), AllocError>
    ensures judged { OnOk result (map judged factors.new.items ≡ map judged factors.old.items
        ++ judged_factors known.now.tree (given known.now) (of_comment known.now.tree comment.now)) }
    ensures origins { OnOk result (map (λ f. f.origin) factors.new.items ≡ map (λ f. f.origin) factors.old.items
        ++ origins known.now.tree comment.now.block (of_comment known.now.tree comment.now)) }
{
    add_lines(known, factors, comment.depends(), Lines::Own)?;
    add_around(known, factors, comment.block(), BlockLines::Depends)?;
    add_mode(known, factors, comment.choice())
}

/// Adds the condition of the prompt of a choice. The error comes where memory is refused.
fn add_choice_prompt<'t>(
    known: &Known<'t>,
    factors: &mut Vec<Factor<'t>>,
    choice: &'t Choice,
    prompt: &'t Prompt,
) -> Result<(), AllocError>
    ensures judged { OnOk result (map judged factors.new.items ≡ map judged factors.old.items
        ++ judged_factors known.now.tree (given known.now) (of_choice_prompt known.now.tree choice.now prompt.now)) }
    ensures origins { OnOk result (map (λ f. f.origin) factors.new.items ≡ map (λ f. f.origin) factors.old.items
        ++ origins known.now.tree (Some choice.now.block) (of_choice_prompt known.now.tree choice.now prompt.now)) }
{
    add_condition(known, factors, prompt.condition.as_ref())?;
    add_around(known, factors, Some(choice.block()), BlockLines::Depends)?;
    add_around(known, factors, Some(choice.block()), BlockLines::Visible)
}

/// Each factor of the dependencies of the definition of a number, in the order of docs/VALUES.md, "Conditions", with its
/// value.
///
/// # Errors
///
/// The error comes where memory is refused.
pub fn dependency_factors<'t>(
    alloc: Global,
    known: &Known<'t>,
    definition: usize,
) -> Result<Vec<Factor<'t>>, AllocError>
    ensures factors { IfOk result (λ v. map judged v.items
        ≡ judged_factors known.now.tree (given known.now) (dependencies_in (slice_get known.now.tree.definitions definition))) }
    ensures origins { IfOk result (λ v. map (λ f. f.origin) v.items
        ≡ origins known.now.tree None (dependencies_in (slice_get known.now.tree.definitions definition))) }
    ensures value { IfOk result (λ v. least_of (map (λ f. f.value) v.items)
        ≡ condition_value known.now.tree (given known.now) (dependencies_in (slice_get known.now.tree.definitions definition))) }
{
    let mut factors = Vec::new(alloc);
    add_numbered(known, &mut factors, definition)?;
    Ok(factors)
}

/// Each factor of the condition of the prompt of a definition by number, and of a member of a choice the mode of the
/// choice; none of a definition without a prompt, as its prompt is never shown.
///
/// # Errors
///
/// The error comes where memory is refused.
pub fn prompt_factors<'t>(
    alloc: Global,
    known: &Known<'t>,
    number: usize,
) -> Result<Vec<Factor<'t>>, AllocError>
    ensures factors { IfOk result (λ v. map judged v.items
        ≡ judged_of known.now.tree (given known.now) (prompt_condition known.now.tree number)) }
    ensures origins { IfOk result (λ v. map (λ f. f.origin) v.items
        ≡ origins_of known.now.tree (definition_block known.now.tree number) (prompt_condition known.now.tree number)) }
    ensures value { IfOk result (λ v. least_of (map (λ f. f.value) v.items)
        ≡ worth_of known.now.tree (given known.now) (prompt_condition known.now.tree number)) }
{
    let mut factors = Vec::new(alloc);
    let Some(definition) = known.definition(number) else {
        return Ok(factors);
    };
    let Some(prompt) = definition.prompt() else {
        return Ok(factors);
    };
    add_whole_prompt(known, &mut factors, definition, prompt)?;
    Ok(factors)
}

/// Each factor of the condition of a `select` or `imply` line: its own `if`, and the dependencies of the definition that
/// has it.
///
/// # Errors
///
/// The error comes where memory is refused.
pub fn reverse_factors<'t>(
    alloc: Global,
    known: &Known<'t>,
    reverse: &'t Reverse,
) -> Result<Vec<Factor<'t>>, AllocError>
    ensures factors { IfOk result (λ v. map judged v.items
        ≡ judged_factors known.now.tree (given known.now) (of_reverse known.now.tree reverse.now)) }
    ensures origins { IfOk result (λ v. map (λ f. f.origin) v.items
        ≡ origins known.now.tree None (of_reverse known.now.tree reverse.now)) }
    ensures value { IfOk result (λ v. least_of (map (λ f. f.value) v.items)
        ≡ condition_value known.now.tree (given known.now) (of_reverse known.now.tree reverse.now)) }
{
    let mut factors = Vec::new(alloc);
    add_condition(known, &mut factors, reverse.condition.as_ref())?;
    add_numbered(known, &mut factors, reverse.definition)?;
    Ok(factors)
}

/// Each factor of the condition of a menu; none of a number that the tree doesn't have.
///
/// # Errors
///
/// The error comes where memory is refused.
pub fn menu_factors<'t>(
    alloc: Global,
    known: &Known<'t>,
    menu: BlockId,
) -> Result<Vec<Factor<'t>>, AllocError>
    ensures factors { IfOk result (λ v. map judged v.items
        ≡ judged_of known.now.tree (given known.now) (menu_condition_at known.now.tree menu)) }
    ensures origins { IfOk result (λ v. map (λ f. f.origin) v.items
        ≡ menu_origins_at known.now.tree menu) }
    ensures value { IfOk result (λ v. least_of (map (λ f. f.value) v.items)
        ≡ worth_of known.now.tree (given known.now) (menu_condition_at known.now.tree menu)) }
{
    let mut factors = Vec::new(alloc);
    let Some(block) = known.block(menu) else {
        return Ok(factors);
    };
    add_menu(known, &mut factors, menu, block)?;
    Ok(factors)
}

/// Each factor of the condition of a comment; none of a number that the tree doesn't have.
///
/// # Errors
///
/// The error comes where memory is refused.
pub fn comment_factors<'t>(
    alloc: Global,
    known: &Known<'t>,
    comment: CommentId,
) -> Result<Vec<Factor<'t>>, AllocError>
    ensures factors { IfOk result (λ v. map judged v.items
        ≡ judged_of known.now.tree (given known.now) (comment_condition_at known.now.tree comment)) }
    ensures origins { IfOk result (λ v. map (λ f. f.origin) v.items
        ≡ origins_of known.now.tree (comment_block known.now.tree comment) (comment_condition_at known.now.tree comment)) }
    ensures value { IfOk result (λ v. least_of (map (λ f. f.value) v.items)
        ≡ worth_of known.now.tree (given known.now) (comment_condition_at known.now.tree comment)) }
{
    let mut factors = Vec::new(alloc);
    let Some(comment) = known.comment(comment) else {
        return Ok(factors);
    };
    add_comment(known, &mut factors, comment)?;
    Ok(factors)
}

/// Each factor of the condition of a choice's prompt; none of a choice without one.
///
/// # Errors
///
/// The error comes where memory is refused.
pub fn choice_factors<'t>(
    alloc: Global,
    known: &Known<'t>,
    choice: ChoiceId,
) -> Result<Vec<Factor<'t>>, AllocError>
    ensures factors { IfOk result (λ v. map judged v.items
        ≡ judged_of known.now.tree (given known.now) (choice_condition_at known.now.tree choice)) }
    ensures origins { IfOk result (λ v. map (λ f. f.origin) v.items
        ≡ origins_of known.now.tree (choice_block known.now.tree choice) (choice_condition_at known.now.tree choice)) }
    ensures value { IfOk result (λ v. least_of (map (λ f. f.value) v.items)
        ≡ worth_of known.now.tree (given known.now) (choice_condition_at known.now.tree choice)) }
{
    let mut factors = Vec::new(alloc);
    let Some(choice) = known.choice(choice) else {
        return Ok(factors);
    };
    let Some(prompt) = choice.prompt() else {
        return Ok(factors);
    };
    add_choice_prompt(known, &mut factors, choice, prompt)?;
    Ok(factors)
}
