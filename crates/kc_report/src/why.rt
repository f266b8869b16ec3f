//! Why a symbol has its value: the text of `kconf why`.

use crate::definitions_in_words::push_definitions;
use crate::extent::Extent;
use crate::promptless::push_promptless;
use crate::reasons_in_words::{push_choice_of_member, push_reason};
use crate::reverses::{ReverseList, push_reverses};
use crate::settable::push_settable;
use crate::users::push_users;
use kc_facts::{ReverseKind, View, push_user, push_value};
use kc_lines::{LineIndex, type_name};
use kc_tree::{Node, SymId};
use kc_value::Reason;
use std::alloc::{AllocError, Global};

/// Adds the first line: the symbol with its value, its type, its visibility and its user value.
fn push_head(text: &mut String, view: &View<'_>, symbol: SymId) -> Result<(), AllocError> {
    let tree = view.tree();
    let kind = tree.symbol_type(symbol);
    text.push_str(tree.name(symbol))?;
    text.push_str(" = ")?;
    push_value(text, view.known(), symbol)?;
    let name = type_name(kind);
    let visible = view.known().tri(Node::Vis(symbol)).letter();
    write!(text, " ({name}, visible {visible}, user ")?;
    match view.user().get(symbol) {
        Some(value) => push_user(text, kind, value)?,
        None => text.push_str(chosen_word(view, symbol))?,
    }
    text.push_str(")\n")
}

/// What the user gave a symbol without user value: of a choice's member, whether he chose it.
fn chosen_word(view: &View<'_>, symbol: SymId) -> &'static str {
    match view.tree().choice_of(symbol) {
        Some(choice) if view.user().chosen(choice) == Some(symbol) => "y",
        _ => "-",
    }
}

/// The member that the choice of a symbol selects, by the reason of its value.
fn selected_member(symbol: SymId, reason: Reason) -> Option<SymId> {
    match reason {
        Reason::Chosen => Some(symbol),
        Reason::OtherChosen(other) => Some(other),
        _ => None,
    }
}

/// Why a symbol has its value, as lines of text (this project's own form): its value; the reason, with the lines that it
/// comes from; each definition with the factors of what it depends on; who selects and implies it; the symbols without
/// prompt that it depends on; what uses it; what a user can assign; and of a member its choice. Nothing for a symbol that
/// the tree doesn't have.
///
/// # Errors
///
/// `AllocError` where memory is refused.
pub fn why_text(
    alloc: Global,
    view: &View<'_>,
    index: &LineIndex<'_, '_>,
    symbol: SymId,
    extent: Extent,
) -> Result<String, AllocError> {
    let mut text = String::new(alloc);
    push_why(alloc, &mut text, view, index, symbol, extent)?;
    Ok(text)
}

/// Adds why a symbol has its value.
fn push_why(
    alloc: Global,
    text: &mut String,
    view: &View<'_>,
    index: &LineIndex<'_, '_>,
    symbol: SymId,
    extent: Extent,
) -> Result<(), AllocError> {
    let Some(found) = view.tree().symbols().get(symbol.0 as usize) else {
        return Ok(());
    };
    let Some(reason) = view.reason(symbol) else {
        return Ok(());
    };
    push_head(text, view, symbol)?;
    push_reason(alloc, text, view, index, symbol, reason)?;
    push_definitions(alloc, text, view, index, found, extent)?;
    for kind in [ReverseKind::Select, ReverseKind::Imply] {
        push_reverses(
            alloc,
            text,
            view,
            index,
            ReverseList { kind, symbol },
            extent,
        )?;
    }
    push_promptless(alloc, text, view, found)?;
    push_users(alloc, text, view, symbol, extent)?;
    push_settable(alloc, text, view, symbol)?;
    push_choice_of_member(text, view, index, symbol, selected_member(symbol, reason))
}
