//! What is in the way in the lines of symbols that never have a value which is needed.

ghost use Rattle.std.specs.Prelude.{IfSome};
ghost use Rattle.kc_how.specs.InTheWay.{IsInTheWay};

use crate::conditions_in_way::{
    Lines, first_lacking, in_blocks, in_modules, in_own_condition, is_constant,
};
use crate::obstacle::{
    Cause, LackingSymbol, MODULE, NO, ON, Obstacle, lacking_condition, lacking_symbol, turned,
};
use kc_bounds::{Bounds, TriSet, symbol_set};
use kc_outline::MOST_OPEN_BLOCKS;
use kc_tree::{
    BlockId, ChoiceId, DefaultValue, Definition, Expr, Reverse, SymId, Symbol, SymbolType, Tree,
};

/// What is in the way of a value of a symbol: a condition or another symbol, or why it never has the value by itself; none
/// where nothing more is found, or the cause is there.
pub(crate) fn in_symbol<'t>(
    tree: &'t Tree,
    limits: &Bounds<'_>,
    found: LackingSymbol,
) -> Option<Obstacle<'t>>
    ensures { IfSome result (IsInTheWay limits.now.tree) }
{
    let symbol = tree.symbols().get(found.symbol.0 as usize)?;
    if !matches!(found.cause, Cause::Unknown) {
        return None;
    }
    let (id, needed) = (found.symbol, found.needed);
    match symbol.kind() {
        SymbolType::String | SymbolType::Int | SymbolType::Hex => {
            lacking_symbol(limits, id, needed, Cause::IsText)
        }
        SymbolType::Bool if needed == MODULE => lacking_symbol(limits, id, needed, Cause::IsBool),
        SymbolType::Bool => in_tristate(tree, limits, id, symbol, needed),
        SymbolType::Tristate if needed == MODULE => in_tristate_of_module(tree, limits, id, symbol),
        SymbolType::Tristate => in_tristate(tree, limits, id, symbol, needed),
    }
}

/// What is in the way of a value of a bool or a tristate: m or y, or y alone, or n.
fn in_tristate<'t>(
    tree: &'t Tree,
    limits: &Bounds<'_>,
    id: SymId,
    symbol: &'t Symbol,
    needed: TriSet,
) -> Option<Obstacle<'t>>
    ensures { IfSome result (IsInTheWay limits.now.tree) }
{
    if !needed.yes {
        return in_the_way_of_no(tree, limits, id, symbol, needed);
    }
    if let Some(choice) = symbol.choice() {
        return in_member(tree, limits, id, symbol, choice);
    }
    if is_folded(tree, limits, symbol) {
        in_lines(tree, limits, id, symbol, ON)
    } else {
        in_lines(tree, limits, id, symbol, needed)
    }
}

/// Whether m of a symbol may be y: of a bool, and of a tristate where MODULES may be n.
fn is_folded(tree: &Tree, limits: &Bounds<'_>, symbol: &Symbol) -> bool {
    match tree.modules() {
        Some(modules) => {
            matches!(symbol.kind(), SymbolType::Bool) || symbol_set(limits, modules).no
        }
        None => true,
    }
}

/// What is in the way of m of a tristate.
fn in_tristate_of_module<'t>(
    tree: &'t Tree,
    limits: &Bounds<'_>,
    id: SymId,
    symbol: &'t Symbol,
) -> Option<Obstacle<'t>>
    ensures { IfSome result (IsInTheWay limits.now.tree) }
{
    if let Some(found) = in_modules(tree, limits, ON) {
        return Some(found);
    }
    if let Some(found) = first_selecting(tree, limits, id, symbol.selected(), turned(ON)) {
        return Some(found);
    }
    in_lines(tree, limits, id, symbol, MODULE)
}

/// What is in the way of n: what selects a symbol, or what it is where it can't be set.
fn in_the_way_of_no<'t>(
    tree: &Tree,
    limits: &Bounds<'_>,
    id: SymId,
    symbol: &'t Symbol,
    needed: TriSet,
) -> Option<Obstacle<'t>>
    ensures { IfSome result (IsInTheWay limits.now.tree) }
{
    if !is_folded(tree, limits, symbol)
        && let Some(found) = first_selecting(tree, limits, id, symbol.selected(), needed)
    {
        return Some(found);
    }
    if let Some(found) = first_selecting(tree, limits, id, symbol.selected(), NO) {
        return Some(found);
    }
    lacking_symbol(limits, id, needed, Cause::CannotBeSet)
}

/// The first symbol that always selects another one, and never has a value that would leave it the one that is needed.
fn first_selecting<'t>(
    tree: &Tree,
    limits: &Bounds<'_>,
    selected: SymId,
    reverses: &[Reverse],
    needed: TriSet,
) -> Option<Obstacle<'t>>
    ensures { IfSome result (IsInTheWay limits.now.tree) }
{
    for reverse in reverses {
        let cause = Cause::Selects(selected);
        if let Some(found) = lacking_symbol(limits, reverse.by, needed, cause)
            && is_always_on(tree, limits, reverse, needed)
        {
            return Some(found);
        }
    }
    None
}

/// Whether no condition of a `select` line ever has one of some values.
fn is_always_on(tree: &Tree, limits: &Bounds<'_>, reverse: &Reverse, values: TriSet) -> bool {
    let by = reverse.by;
    let condition = reverse.condition.as_ref();
    if condition.is_some() && in_own_condition(limits, by, condition, values).is_none() {
        return false;
    }
    match tree.definitions().get(reverse.definition) {
        Some(definition) => {
            all_lack(limits, by, definition.depends(), values)
                && blocks_lack(tree, limits, by, definition.block(), values)
        }
        None => false,
    }
}

/// Whether no condition ever has one of some values.
fn all_lack(limits: &Bounds<'_>, of: SymId, conditions: &[Expr], values: TriSet) -> bool {
    conditions.iter().all(|condition| lacking_condition(limits, of, condition, values).is_some())
}

/// Whether no condition of the blocks around a place ever has one of some values.
fn blocks_lack(
    tree: &Tree,
    limits: &Bounds<'_>,
    of: SymId,
    innermost: Option<BlockId>,
    values: TriSet,
) -> bool {
    let mut next = innermost;
    for _ in 0..MOST_OPEN_BLOCKS {
        let Some(block) = next.and_then(|id| tree.blocks().get(id.0)) else {
            break;
        };
        if !all_lack(limits, of, block.depends(), values) {
            return false;
        }
        next = block.parent();
    }
    true
}

/// What is in the way of a member of a choice: that it is never shown.
fn in_member<'t>(
    tree: &'t Tree,
    limits: &Bounds<'_>,
    id: SymId,
    symbol: &'t Symbol,
    choice: ChoiceId,
) -> Option<Obstacle<'t>>
    ensures { IfSome result (IsInTheWay limits.now.tree) }
{
    if let Some(definition) = prompted(tree, symbol)
        && let Some(found) = in_prompt(tree, limits, id, definition, ON)
    {
        return Some(found);
    }
    let choice = tree.choices().get(choice.0 as usize)?;
    let condition = choice.prompt()?.condition.as_ref();
    if let Some(found) = in_own_condition(limits, id, condition, ON) {
        return Some(found);
    }
    let block = Some(choice.block());
    in_blocks(tree, limits, id, block, Lines::DependsAndVisible, ON)
}

/// The first definition of a symbol with a prompt.
fn prompted<'t>(tree: &'t Tree, symbol: &Symbol) -> Option<&'t Definition> {
    for number in symbol.definitions() {
        if let Some(definition) = tree.definitions().get(*number)
            && definition.prompt().is_some()
        {
            return Some(definition);
        }
    }
    None
}

/// What is in the way of a prompt, in all that its definition needs.
fn in_prompt<'t>(
    tree: &'t Tree,
    limits: &Bounds<'_>,
    id: SymId,
    definition: &'t Definition,
    needed: TriSet,
) -> Option<Obstacle<'t>>
    ensures { IfSome result (IsInTheWay limits.now.tree) }
{
    let condition = definition.prompt()?.condition.as_ref();
    if let Some(found) = in_own_condition(limits, id, condition, needed) {
        return Some(found);
    }
    in_definition(
        tree,
        limits,
        id,
        definition,
        Lines::DependsAndVisible,
        needed,
    )
}

/// What is in the way in what a definition depends on.
fn in_definition<'t>(
    tree: &'t Tree,
    limits: &Bounds<'_>,
    id: SymId,
    definition: &'t Definition,
    lines: Lines,
    needed: TriSet,
) -> Option<Obstacle<'t>>
    ensures { IfSome result (IsInTheWay limits.now.tree) }
{
    if let Some(found) = first_lacking(limits, id, definition.depends(), needed) {
        return Some(found);
    }
    in_blocks(tree, limits, id, definition.block(), lines, needed)
}

/// What is in the way in the lines of a symbol: of its first prompt, or, without one, of its only other line; else that it has
/// no lines, or that none gives such a value.
fn in_lines<'t>(
    tree: &'t Tree,
    limits: &Bounds<'_>,
    id: SymId,
    symbol: &'t Symbol,
    needed: TriSet,
) -> Option<Obstacle<'t>>
    ensures { IfSome result (IsInTheWay limits.now.tree) }
{
    if let Some(definition) = prompted(tree, symbol) {
        let needed = if needed == MODULE { ON } else { needed };
        return in_prompt(tree, limits, id, definition, needed);
    }
    if let Some(found) = in_only_line(tree, limits, id, symbol, needed) {
        return Some(found);
    }
    let cause = if count_lines(tree, symbol) == 0 {
        Cause::NoLines
    } else {
        Cause::NoSuchLine
    };
    lacking_symbol(limits, id, needed, cause)
}

/// How many defaults a symbol has, and lines that select or imply it.
fn count_lines(tree: &Tree, symbol: &Symbol) -> usize {
    let reverses = symbol
        .selected()
        .len()
        .saturating_add(symbol.implied().len());
    symbol.definitions().iter().fold(reverses, |count, number| {
        let definition = tree.definitions().get(*number);
        count.saturating_add(definition.map_or(0, |one| one.defaults().len()))
    })
}

/// What is in the way in the only line of a symbol that could give it a value, where there is just one.
fn in_only_line<'t>(
    tree: &'t Tree,
    limits: &Bounds<'_>,
    id: SymId,
    symbol: &'t Symbol,
    needed: TriSet,
) -> Option<Obstacle<'t>>
    ensures { IfSome result (IsInTheWay limits.now.tree) }
{
    if count_lines(tree, symbol) != 1 {
        return None;
    }
    match (symbol.selected().first(), symbol.implied().first()) {
        (Some(reverse), _) => in_reverse(tree, limits, reverse, needed),
        (None, Some(reverse)) => in_implied(tree, limits, id, symbol, reverse, needed),
        (None, None) => in_default(tree, limits, id, symbol, needed),
    }
}

/// What is in the way in a `select` or an `imply` line: the symbol that has it, its condition, or what its definition
/// depends on.
fn in_reverse<'t>(
    tree: &'t Tree,
    limits: &Bounds<'_>,
    reverse: &'t Reverse,
    needed: TriSet,
) -> Option<Obstacle<'t>>
    ensures { IfSome result (IsInTheWay limits.now.tree) }
{
    let by = reverse.by;
    if let Some(found) = lacking_symbol(limits, by, needed, Cause::Unknown) {
        return Some(found);
    }
    if let Some(found) = in_own_condition(limits, by, reverse.condition.as_ref(), needed) {
        return Some(found);
    }
    let definition = tree.definitions().get(reverse.definition)?;
    in_definition(tree, limits, by, definition, Lines::Depends, needed)
}

/// What is in the way in an `imply` line, or in what the symbol depends on that it names.
fn in_implied<'t>(
    tree: &'t Tree,
    limits: &Bounds<'_>,
    id: SymId,
    symbol: &Symbol,
    reverse: &'t Reverse,
    needed: TriSet,
) -> Option<Obstacle<'t>>
    ensures { IfSome result (IsInTheWay limits.now.tree) }
{
    if let Some(found) = in_reverse(tree, limits, reverse, needed) {
        return Some(found);
    }
    let definition = tree.definitions().get(*symbol.definitions().first()?)?;
    in_definition(tree, limits, id, definition, Lines::Depends, needed)
}

/// The first definition of a symbol with a default.
fn defaulted<'t>(tree: &'t Tree, symbol: &Symbol) -> Option<&'t Definition> {
    for number in symbol.definitions() {
        if let Some(definition) = tree.definitions().get(*number)
            && !definition.defaults().is_empty()
        {
            return Some(definition);
        }
    }
    None
}

/// What is in the way in the first default of a symbol: what its definition depends on, its condition, or its value.
fn in_default<'t>(
    tree: &'t Tree,
    limits: &Bounds<'_>,
    id: SymId,
    symbol: &Symbol,
    needed: TriSet,
) -> Option<Obstacle<'t>>
    ensures { IfSome result (IsInTheWay limits.now.tree) }
{
    let definition = defaulted(tree, symbol)?;
    if let Some(found) = in_definition(tree, limits, id, definition, Lines::Depends, needed) {
        return Some(found);
    }
    let default = definition.defaults().first()?;
    if let Some(found) = in_own_condition(limits, id, default.condition.as_ref(), needed) {
        return Some(found);
    }
    in_default_value(limits, id, default, needed)
}

/// What is in the way in the value of a default, none where that is a constant.
fn in_default_value<'t>(
    limits: &Bounds<'_>,
    id: SymId,
    default: &'t DefaultValue,
    needed: TriSet,
) -> Option<Obstacle<'t>>
    ensures { IfSome result (IsInTheWay limits.now.tree) }
{
    if is_constant(&default.value) {
        return None;
    }
    lacking_condition(limits, id, &default.value, needed)
}
