//! The symbols without prompt that a definition depends on, and who would select them.

use kc_facts::{
    ReverseKind, View, choice_condition, definition_factors, has_prompt, push_reverse_row,
};
use kc_lines::leaves_of;
use kc_statement::{ExprNode, Operands, Term};
use kc_tree::{Expr, Node, SymId, Symbol};
use kc_value::{Factor, FactorPart};
use std::alloc::{AllocError, Global};
use std::collections::BTreeSet;

/// The most symbols without prompt whose selecting symbols are named.
const MOST_SHOWN: usize = 3;

/// The most definitions whose factors are looked through.
const MOST_DEFINITIONS: usize = 8;

/// Whether a symbol is n, has no prompt, and is selected by a line.
fn is_wanted(view: &View<'_>, symbol: SymId) -> bool {
    let tree = view.tree();
    let Some(found) = tree.symbols().get(symbol.0 as usize) else {
        return false;
    };
    view.known().tri(Node::Val(symbol)).is_no()
        && !found.selected().is_empty()
        && !has_prompt(view, found)
}

/// The symbols that are wanted, and the numbers of all that were looked at. Each is looked at once, however often
/// conditions name it.
#[derive(Drop)]
struct Wanted {
    found: Vec<SymId>,
    seen: BTreeSet<u32>,
}

/// Adds the symbol of a term, if it is wanted.
fn add_term(wanted: &mut Wanted, view: &View<'_>, term: &Term) -> Result<(), AllocError> {
    let Term::Symbol(symbol) = term else {
        return Ok(());
    };
    let is_full = wanted.found.len() >= MOST_SHOWN;
    if is_full || !wanted.seen.insert(symbol.0)? || !is_wanted(view, *symbol) {
        return Ok(());
    }
    wanted.found.push(*symbol)?;
    Ok(())
}

/// Adds the symbols of a comparison that are wanted.
fn add_operands(
    wanted: &mut Wanted,
    view: &View<'_>,
    operands: &Operands,
) -> Result<(), AllocError> {
    add_term(wanted, view, &operands.left)?;
    add_term(wanted, view, &operands.right)
}

/// Adds the symbols of an expression that are wanted.
fn add_expr(
    alloc: Global,
    wanted: &mut Wanted,
    view: &View<'_>,
    expr: &Expr,
) -> Result<(), AllocError> {
    let leaves = leaves_of(alloc, expr)?;
    for leaf in leaves {
        match leaf.node() {
            ExprNode::Term(term) => add_term(wanted, view, term)?,
            ExprNode::Compare(_, operands) => add_operands(wanted, view, operands)?,
            _ => {}
        }
    }
    Ok(())
}

/// Adds the symbols of a factor that is n: of the mode of a choice those of the condition of its prompt.
fn add_factor(
    alloc: Global,
    wanted: &mut Wanted,
    view: &View<'_>,
    factor: &Factor<'_>,
) -> Result<(), AllocError> {
    let deciding = match factor.part {
        FactorPart::Mode(choice) => choice_condition(view, choice),
        FactorPart::Expression(_) | FactorPart::Missing => Some(*factor),
    };
    let Some(deciding) = deciding else {
        return Ok(());
    };
    match deciding.part {
        FactorPart::Expression(expr) if deciding.value.is_no() => {
            add_expr(alloc, wanted, view, expr)
        }
        _ => Ok(()),
    }
}

/// Adds the symbols of the factors of a definition that are n.
fn add_definition(
    alloc: Global,
    wanted: &mut Wanted,
    view: &View<'_>,
    number: usize,
) -> Result<(), AllocError> {
    let factors = definition_factors(alloc, view, number)?;
    for factor in &factors {
        add_factor(alloc, wanted, view, factor)?;
    }
    Ok(())
}

/// Adds for the first symbols without prompt that are n, and that a factor with value n has, who selects them:
/// `X has no prompt: selected by A=n, B=n`.
pub(crate) fn push_promptless(
    alloc: Global,
    text: &mut String,
    view: &View<'_>,
    symbol: &Symbol,
) -> Result<(), AllocError> {
    let mut wanted = Wanted {
        found: Vec::new(alloc),
        seen: BTreeSet::new(alloc),
    };
    for number in symbol.definitions().iter().take(MOST_DEFINITIONS) {
        add_definition(alloc, &mut wanted, view, *number)?;
    }
    for other in &wanted.found {
        text.push_str("  ")?;
        text.push_str(view.tree().name(*other))?;
        text.push_str(" has no prompt: ")?;
        let _ = push_reverse_row(alloc, text, view, ReverseKind::Select, *other, None)?;
        text.push('\n')?;
    }
    Ok(())
}
