//! What a user can assign to a symbol.

ghost use Rattle.kc_tree.specs.declared.node.Node.TheVariants.{Vis};
ghost use Rattle.kc_tree.specs.Nodes.{IsNodeOf};

use kc_facts::{View, has_prompt, push_bounds, push_user};
use kc_tree::{Node, SymId, SymbolType, Tri};
use kc_value::{active_range, assignable_among};
use std::alloc::{AllocError, Global};

/// Adds the values that a user can give a bool or a tristate with an effect.
fn push_tristates(
    alloc: Global,
    text: &mut String,
    view: &View<'_>,
    symbol: SymId,
) -> Result<(), AllocError>
    requires { IsNodeOf view.now.tree (Vis symbol) }
{
    let values = assignable_among(alloc, view.known(), symbol)?;
    if values.is_empty() {
        return Ok(());
    }
    text.push_str("  can be set to")?;
    for value in values.as_slice() {
        text.push(' ')?;
        text.push_str(value.letter())?;
    }
    text.push('\n')
}

/// Adds the numbers that a user can give a visible int or hex.
fn push_numbers(
    alloc: Global,
    text: &mut String,
    view: &View<'_>,
    symbol: SymId,
) -> Result<(), AllocError> {
    let Some(range) = active_range(view.known(), symbol) else {
        return text.push_str("  can be set to a number\n");
    };
    let is_empty = range.low > range.high;
    text.push_str(if is_empty {
        "  can be set to no number: its range is "
    } else {
        "  can be set to a number of the range "
    })?;
    push_bounds(alloc, text, view, symbol)?;
    text.push('\n')
}

/// Adds what a user can give a symbol with an effect: `can be set to n m y`, or the user value that waits; and the
/// target that finds what makes a symbol y which is n, where no user value of its own does.
pub(crate) fn push_settable(
    alloc: Global,
    text: &mut String,
    view: &View<'_>,
    symbol: SymId,
) -> Result<(), AllocError> {
    let Some(_found) = view.tree().symbols().get(symbol.0 as usize) else {
        return Ok(());
    };
    if view.known().tri(Node::Vis(symbol)).is_no() {
        push_waiting(text, view, symbol)?;
    } else {
        push_values(alloc, text, view, symbol)?;
    }
    push_hint(alloc, text, view, symbol)
}

/// Adds what a user can give a symbol that is visible.
fn push_values(
    alloc: Global,
    text: &mut String,
    view: &View<'_>,
    symbol: SymId,
) -> Result<(), AllocError>
    requires { IsNodeOf view.now.tree (Vis symbol) }
{
    match view.tree().symbol_type(symbol) {
        SymbolType::Bool | SymbolType::Tristate => push_tristates(alloc, text, view, symbol),
        SymbolType::Int | SymbolType::Hex => push_numbers(alloc, text, view, symbol),
        SymbolType::String => text.push_str("  can be set to a text\n"),
    }
}

/// Adds the target that finds what makes a symbol y which is n, where no user value of its own does.
fn push_hint(
    alloc: Global,
    text: &mut String,
    view: &View<'_>,
    symbol: SymId,
) -> Result<(), AllocError>
    requires { IsNodeOf view.now.tree (Vis symbol) }
{
    let is_switch = view.tree().symbol_type(symbol).is_tri();
    if !is_switch || !view.known().tri(Node::Val(symbol)).is_no() {
        return Ok(());
    }
    let values = assignable_among(alloc, view.known(), symbol)?;
    if let Some(Tri::Yes) = values.as_slice().last() {
        return Ok(());
    }
    text.push_str("  what to set so that it is y: see kconf how\n")
}

/// Whether a symbol has a prompt.
fn has_any_prompt(view: &View<'_>, symbol: SymId) -> bool {
    match view.tree().symbols().get(symbol.0 as usize) {
        Some(found) => has_prompt(view, found),
        None => false,
    }
}

/// Adds the user value of a symbol that is not visible, or that the user chose it.
fn push_waiting(text: &mut String, view: &View<'_>, symbol: SymId) -> Result<(), AllocError> {
    if let Some(value) = view.user().get(symbol) {
        text.push_str("  a user value ")?;
        push_user(text, view.tree().symbol_type(symbol), value)?;
        return text.push_str(if has_any_prompt(view, symbol) {
            " waits until it is visible\n"
        } else {
            " has no effect, as it has no prompt\n"
        });
    }
    match view.tree().choice_of(symbol) {
        Some(choice) if view.user().chosen(choice) == Some(symbol) => {
            text.push_str("  the user chose it, which waits until it is visible\n")
        }
        _ => Ok(()),
    }
}
