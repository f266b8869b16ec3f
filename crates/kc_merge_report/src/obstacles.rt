//! What is in the way of a value that no user values give.

use kc_bounds::{Bounds, TriSet};
use kc_facts::{View, push_asked, push_expr};
use kc_files::Assign;
use kc_how::{Cause, LackingCondition, LackingSymbol, Obstacle, obstacle_to};
use kc_lines::type_words;
use kc_tree::{ExprNode, SymbolType, Term, Tree, Tri};
use std::alloc::AllocError;

/// Adds that no user values give a symbol a wanted value, and what is in the way, if that is found (this project's own
/// words).
///
/// # Errors
///
/// `AllocError` where memory is refused.
pub fn push_impossible(
    text: &mut String,
    view: &View<'_>,
    limits: &Bounds<'_>,
    wanted: &Assign,
) -> Result<(), AllocError> {
    text.push_str("impossible: no user values give ")?;
    text.push_str(view.tree().name(wanted.symbol))?;
    text.push('=')?;
    push_asked(text, view, wanted.symbol, &wanted.value)?;
    if let Some(obstacle) = obstacle_to(view.tree(), limits, wanted)
        && !is_said(obstacle, wanted)
    {
        text.push_str(": ")?;
        push_obstacle(text, view.tree(), obstacle)?;
    }
    text.push('\n')?;
    Ok(())
}

/// Whether what is in the way is the wanted symbol, without a cause, which is said already.
fn is_said(obstacle: Obstacle<'_>, wanted: &Assign) -> bool {
    match obstacle {
        Obstacle::Symbol(found) => {
            found.symbol == wanted.symbol && matches!(found.cause, Cause::Unknown)
        }
        Obstacle::Undefined(_) | Obstacle::NoModules | Obstacle::Condition(_) => false,
    }
}

/// Adds what is in the way.
fn push_obstacle(text: &mut String, tree: &Tree, found: Obstacle<'_>) -> Result<(), AllocError> {
    match found {
        Obstacle::Undefined(word) => {
            text.push_str(word)?;
            text.push_str(" is not defined")
        }
        Obstacle::NoModules => text.push_str("no line defines MODULES"),
        Obstacle::Condition(condition) => push_condition(text, tree, condition),
        Obstacle::Symbol(symbol) => push_symbol(text, tree, symbol),
    }
}

/// Adds a condition that is in the way: of a constant n or m, which symbol needs it.
fn push_condition(
    text: &mut String,
    tree: &Tree,
    found: LackingCondition<'_>,
) -> Result<(), AllocError> {
    match found.condition.node() {
        ExprNode::Term(Term::Tri(Tri::No)) => {
            text.push_str(tree.name(found.of))?;
            text.push_str(" needs n")
        }
        ExprNode::BareModule(_) => {
            text.push_str(tree.name(found.of))?;
            text.push_str(" needs m, which")?;
            text.push_str(lack_words(found.needed))
        }
        _ => {
            push_expr(text, tree, found.condition)?;
            text.push_str(lack_words(found.needed))
        }
    }
}

/// The words on what never has a value of a set.
fn lack_words(needed: TriSet) -> &'static str {
    match (needed.no, needed.module, needed.yes) {
        (false, true, true) => " is always n",
        (true, false, true) => " is always m",
        (true, true, false) => " is always y",
        (true, false, false) => " is never n",
        (false, true, false) => " is never m",
        _ => " is never y",
    }
}

/// Adds a symbol that is in the way, and why it is.
fn push_symbol(text: &mut String, tree: &Tree, found: LackingSymbol) -> Result<(), AllocError> {
    text.push_str(tree.name(found.symbol))?;
    match found.cause {
        Cause::Unknown => text.push_str(lack_words(found.needed)),
        Cause::IsText => {
            text.push_str(" is ")?;
            text.push_str(type_words(tree.symbol_type(found.symbol)))?;
            text.push_str(", which counts as n")
        }
        Cause::IsBool => text.push_str(" is a bool, which is never m"),
        Cause::NoLines => { text.push_str(" has no prompt and no default, and nothing selects it") }
        Cause::NoSuchLine => {
            text.push_str(" has no prompt, and no default, select or imply line gives it ")?;
            let kind = tree.symbol_type(found.symbol);
            text.push_str(needed_letters(kind, found.needed))
        }
        Cause::CannotBeSet => {
            text.push_str(" cannot be set, and")?;
            text.push_str(lack_words(found.needed))?;
            text.push_str(" by default")
        }
        Cause::Selects(selected) => {
            text.push_str(" selects ")?;
            text.push_str(tree.name(selected))?;
            text.push_str(", and")?;
            text.push_str(lack_words(found.needed))
        }
    }
}

/// The letters of m and y in a set, of a bool y alone.
fn needed_letters(kind: SymbolType, needed: TriSet) -> &'static str {
    match (needed.module, needed.yes) {
        (true, true) if !matches!(kind, SymbolType::Bool) => "m or y",
        (true, false) => "m",
        _ => "y",
    }
}
