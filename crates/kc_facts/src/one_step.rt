//! Why a symbol is n that makes a condition n.

ghost use Rattle.kc_tree.specs.declared.node.Node.TheVariants.{Vis};
ghost use Rattle.kc_tree.specs.Nodes.{IsNodeOf};

use crate::low_parts::parts_below;
use crate::needs::has_prompt;
use crate::shortfall::shortfall_words;
use crate::view::View;
use kc_statement::{ExprNode, Term};
use kc_tree::{Node, SymId, Symbol, Tri, UserVal};
use kc_value::{Factor, FactorPart, Reason, assignable_among};
use std::alloc::{AllocError, Global};

/// The bool or tristate that alone makes a factor n: of the parts of its expression that `&&` joins it is the only one
/// that is n.
///
/// # Errors
///
/// `AllocError` where memory is refused.
pub fn symbol_below(
    alloc: Global,
    view: &View<'_>,
    factor: &Factor<'_>,
) -> Result<Option<SymId>, AllocError> {
    if !matches!(factor.part, FactorPart::Expression(_)) {
        return Ok(None);
    }
    let parts = parts_below(alloc, view, &[*factor], Tri::Module)?;
    let [part] = parts.as_slice() else {
        return Ok(None);
    };
    match part.node() {
        ExprNode::Term(Term::Symbol(symbol)) if view.tree().symbol_type(*symbol).is_tri() => {
            Ok(Some(*symbol))
        }
        _ => Ok(None),
    }
}

/// Adds why a bool or a tristate is n, in short, where its lines say it (this project's own words): that it can be set,
/// or else what it needs, or what gives it n where it has no prompt. Of one without a prompt that others select nothing
/// is added. Gives whether there is anything.
///
/// # Errors
///
/// `AllocError` where memory is refused.
pub fn push_why_no(
    alloc: Global,
    text: &mut String,
    view: &View<'_>,
    symbol: SymId,
) -> Result<bool, AllocError> {
    let (Some(found), Some(reason)) = (
        view.tree().symbols().get(symbol.0 as usize),
        view.reason(symbol),
    ) else {
        return Ok(false);
    };
    if let Some(value) = greatest_to_set(alloc, view, symbol)? {
        text.push_str(view.tree().name(symbol))?;
        text.push_str(" can be set to ")?;
        text.push_str(value.letter())?;
        return Ok(true);
    }
    let words = if has_prompt(view, found) {
        let yes = UserVal::Tri(Tri::Yes);
        shortfall_words(alloc, view, symbol, &yes, reason)?
    } else {
        String::from_str(alloc, words_without_prompt(found, reason))?
    };
    push_being_no(text, view, symbol, words.as_str())
}

/// The greatest value that a user can give a bool or a tristate with an effect, if it is not n.
fn greatest_to_set(
    alloc: Global,
    view: &View<'_>,
    symbol: SymId,
) -> Result<Option<Tri>, AllocError> {
    let Some(_found) = view.tree().symbols().get(symbol.0 as usize) else {
        return Ok(None);
    };
    let values = assignable_among(alloc, view.known(), symbol)?;
    let greatest = values.as_slice().last().copied();
    Ok(greatest.filter(|value| !value.is_no()))
}

/// Why a symbol without prompt is n; nothing where others select it.
fn words_without_prompt(found: &Symbol, reason: Reason) -> &'static str {
    if !found.selected().is_empty() {
        return "";
    }
    match reason {
        Reason::Default(_) => "has no prompt; its default is n",
        Reason::NoDependencies => "has no prompt; its dependencies are n",
        Reason::Nothing => "has no prompt; nothing gives it a value",
        _ => "",
    }
}

/// Adds that a symbol is n, and why, if there are words for it. Gives whether there are.
fn push_being_no(
    text: &mut String,
    view: &View<'_>,
    symbol: SymId,
    words: &str,
) -> Result<bool, AllocError> {
    if words.is_empty() {
        return Ok(false);
    }
    text.push_str(view.tree().name(symbol))?;
    text.push_str(" is n: ")?;
    text.push_str(words)?;
    Ok(true)
}
