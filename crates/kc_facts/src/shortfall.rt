//! Why a symbol has not the value that was asked for, in short.

use crate::low_parts::{is_below, is_unchosen};
use crate::low_values::LowPart;
use crate::modules::{YES_WITHOUT_MODULES, lacks_modules, takes_module};
use crate::needs::{Wanted, has_prompt, push_needs};
use crate::reason_words::{push_bounds, push_reason_words};
use crate::reverse_row::{ReverseKind, push_reverse_row};
use crate::view::View;
use kc_statement::numeral;
use kc_tree::{ChoiceId, Node, SymId, SymbolType, Tri, UserVal};
use kc_value::{Reason, active_range};
use std::alloc::{AllocError, Global};

/// What every prompt has to be so that its symbol is visible.
const VISIBLE: Wanted = Wanted {
    level: Tri::Module,
    modules: false,
    is_yes: false,
};

/// Adds why a symbol has not the value that was asked for, in short, as it comes after `asked y, got n: ` (this project's
/// own words), with `; ` between what applies of these:
///
/// - `needs BRIDGE, which is n`, `needs BRIDGE (n), !SLOB (SLOB is y)`: the factors of its prompt's condition that are
///   below what was asked, of several prompts those of the one that comes nearest, and `MODULES`, for m of a tristate;
///   `m at most`, where `m` alone is a factor;
/// - `has no prompt; selected by PROVE_LOCKING=n, LOCK_STAT=n, and 5 more`, at most three;
/// - `selected by X=y`, where less was asked;
/// - `outside the range 12 25`;
/// - `its choice selects X`; of a member that is not visible `X is chosen`;
/// - `m is y without MODULES`, for m of a tristate that is y;
/// - else the reason of its value.
///
/// # Errors
///
/// `AllocError` where memory is refused.
pub fn push_shortfall(
    alloc: Global,
    text: &mut String,
    view: &View<'_>,
    symbol: SymId,
    asked: &UserVal,
) -> Result<(), AllocError> {
    let Some(reason) = view.reason(symbol) else {
        return Ok(());
    };
    let words = shortfall_words(alloc, view, symbol, asked, reason)?;
    if words.is_empty() {
        return push_reason_words(alloc, text, view, symbol, reason);
    }
    text.push_str(words.as_str())
}

/// Why a symbol has not the value that was asked for, in short; empty where the reason of its value says it.
pub(crate) fn shortfall_words(
    alloc: Global,
    view: &View<'_>,
    symbol: SymId,
    asked: &UserVal,
    reason: Reason,
) -> Result<String, AllocError> {
    let mut words = String::new(alloc);
    let Some(found) = view.tree().symbols().get(symbol.0 as usize) else {
        return Ok(words);
    };
    match (found.choice(), asked) {
        (Some(choice), _) => push_member(alloc, &mut words, view, symbol, choice)?,
        (None, UserVal::Tri(asked)) => {
            push_tristate(alloc, &mut words, view, symbol, *asked, reason)?;
        }
        (None, UserVal::Text(asked)) => {
            push_text(alloc, &mut words, view, symbol, asked.as_str())?;
        }
    }
    Ok(words)
}

/// Adds `; ` where there are words before.
fn push_between(words: &mut String) -> Result<(), AllocError> {
    words.push_str(if words.is_empty() { "" } else { "; " })
}

/// Adds why a member of a choice has not the value that was asked for: nothing where it is visible, or where no member is
/// chosen of a choice that is optional.
fn push_member(
    alloc: Global,
    words: &mut String,
    view: &View<'_>,
    symbol: SymId,
    choice: ChoiceId,
) -> Result<(), AllocError> {
    if is_visible(view, symbol) || is_unchosen(view, choice) {
        return Ok(());
    }
    push_prompt(alloc, words, view, symbol, VISIBLE)?;
    match view.user().chosen(choice) {
        Some(chosen) if chosen != symbol => {
            push_between(words)?;
            words.push_str(view.tree().name(chosen))?;
            words.push_str(" is chosen")
        }
        _ => Ok(()),
    }
}

/// Whether a symbol is visible.
fn is_visible(view: &View<'_>, symbol: SymId) -> bool {
    !view.known().tri(Node::Vis(symbol)).is_no()
}

/// What the prompt of a bool or a tristate is to have, so that the user can give it a value: where it does not take m, m is
/// enough.
fn wanted_of(view: &View<'_>, symbol: SymId, asked: Tri) -> Wanted {
    let is_tristate = view.tree().symbol_type(symbol) == SymbolType::Tristate;
    Wanted {
        level: if takes_module(view, symbol) {
            asked
        } else {
            Tri::Module
        },
        modules: lacks_modules(view, symbol, asked),
        is_yes: is_tristate && asked == Tri::Yes,
    }
}

/// Adds why a bool or a tristate has not the value that was asked for.
fn push_tristate(
    alloc: Global,
    words: &mut String,
    view: &View<'_>,
    symbol: SymId,
    asked: Tri,
    reason: Reason,
) -> Result<(), AllocError> {
    let value = view.known().tri(Node::Val(symbol));
    if is_below(asked, value) {
        return push_too_much(alloc, words, view, symbol, asked, reason);
    }
    let wanted = wanted_of(view, symbol, asked);
    push_prompt(alloc, words, view, symbol, wanted)?;
    push_without_prompt(alloc, words, view, symbol)?;
    if wanted.modules && !has_any_prompt(view, symbol) {
        push_between(words)?;
        words.push_str("needs ")?;
        LowPart::of_modules(alloc, view.known())?.push_alone(words)?;
    }
    Ok(())
}

/// Adds why a bool or a tristate has more than was asked for. Where it would have n if nothing selected it, and n was
/// asked, it needs no prompt.
fn push_too_much(
    alloc: Global,
    words: &mut String,
    view: &View<'_>,
    symbol: SymId,
    asked: Tri,
    reason: Reason,
) -> Result<(), AllocError> {
    if lacks_modules(view, symbol, asked) {
        words.push_str(YES_WITHOUT_MODULES)?;
    }
    let mut row = String::new(alloc);
    let kind = ReverseKind::Select;
    let is_selected = push_reverse_row(alloc, &mut row, view, kind, symbol, Some(asked))?;
    let is_enough = asked.is_no() && matches!(reason, Reason::Selected(_));
    if !is_selected || !is_enough {
        push_prompt(alloc, words, view, symbol, VISIBLE)?;
    }
    if !is_selected {
        return push_without_prompt(alloc, words, view, symbol);
    }
    push_between(words)?;
    words.push_str(row.as_str())
}

/// Adds why a string, an int or a hex has not the value that was asked for.
fn push_text(
    alloc: Global,
    words: &mut String,
    view: &View<'_>,
    symbol: SymId,
    asked: &str,
) -> Result<(), AllocError> {
    push_prompt(alloc, words, view, symbol, VISIBLE)?;
    push_without_prompt(alloc, words, view, symbol)?;
    if has_any_prompt(view, symbol) && is_outside(view, symbol, asked) {
        push_between(words)?;
        words.push_str("outside the range ")?;
        push_bounds(alloc, words, view, symbol)?;
    }
    Ok(())
}

/// Whether a number is outside the range of its symbol that counts.
fn is_outside(view: &View<'_>, symbol: SymId, spelt: &str) -> bool {
    let kind = view.tree().symbol_type(symbol);
    match (active_range(view.known(), symbol), numeral(kind, spelt)) {
        (Some(range), Some(number)) => number < range.low || number > range.high,
        (None, _) | (_, None) => false,
    }
}

/// Whether a symbol has a prompt.
fn has_any_prompt(view: &View<'_>, symbol: SymId) -> bool {
    match view.tree().symbols().get(symbol.0 as usize) {
        Some(found) => has_prompt(view, found),
        None => false,
    }
}

/// Adds what a value needs of the prompts of a symbol, or that it has none.
fn push_prompt(
    alloc: Global,
    words: &mut String,
    view: &View<'_>,
    symbol: SymId,
    wanted: Wanted,
) -> Result<(), AllocError> {
    let Some(found) = view.tree().symbols().get(symbol.0 as usize) else {
        return Ok(());
    };
    let mut part = String::new(alloc);
    if !has_prompt(view, found) {
        part.push_str("has no prompt")?;
    } else if !push_needs(alloc, &mut part, view, found, wanted)? {
        return Ok(());
    }
    push_between(words)?;
    words.push_str(part.as_str())
}

/// Adds who selects a symbol without prompt.
fn push_without_prompt(
    alloc: Global,
    words: &mut String,
    view: &View<'_>,
    symbol: SymId,
) -> Result<(), AllocError> {
    if has_any_prompt(view, symbol) {
        return Ok(());
    }
    let mut row = String::new(alloc);
    if push_reverse_row(alloc, &mut row, view, ReverseKind::Select, symbol, None)? {
        push_between(words)?;
        words.push_str(row.as_str())?;
    }
    Ok(())
}
