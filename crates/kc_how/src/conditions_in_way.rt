//! What is in the way in conditions that never have a value which is needed.

ghost use Rattle.std.specs.Prelude.{IfSome};
ghost use Rattle.kc_how.specs.InTheWay.{IsInTheWay};

use crate::obstacle::{
    Cause, LackingCondition, MODULE, NO, ON, Obstacle, YES, lacking_condition, lacking_symbol,
    turned,
};
use kc_bounds::{Bounds, TriSet};
use kc_outline::MOST_OPEN_BLOCKS;
use kc_tree::{Block, BlockId, Comparison, Expr, ExprNode, Operands, SymId, Term, Tree, Tri};

/// No value.
const NONE: TriSet = TriSet {
    no: false,
    module: false,
    yes: false,
};

/// Which lines of a block count.
#[derive(Clone, Copy, Debug, PartialEq, Eq)]
pub(crate) enum Lines {
    /// What all inside depends on.
    Depends,
    /// That, and what the prompts inside depend on besides.
    DependsAndVisible,
}

/// What is in the way in a condition: the part of it, or the symbol or word in that, none where the condition is all that
/// can be named.
pub(crate) fn in_condition<'t>(
    tree: &'t Tree,
    limits: &Bounds<'_>,
    found: LackingCondition<'t>,
) -> Option<Obstacle<'t>>
    ensures { IfSome result (IsInTheWay limits.now.tree) }
{
    let LackingCondition {
        of,
        condition,
        needed,
    } = found;
    match condition.node() {
        ExprNode::Term(term) => in_term(limits, term, needed),
        ExprNode::BareModule(_) => in_module(tree, limits, needed),
        ExprNode::Compare(comparison, operands) => {
            in_comparison(limits, *comparison, operands, needed)
        }
        ExprNode::Not(count, inner) if count % 2 == 1 => {
            lacking_condition(limits, of, inner, turned(needed))
        }
        ExprNode::Not(_, inner) | ExprNode::Group(inner) => {
            lacking_condition(limits, of, inner, needed)
        }
        ExprNode::All(parts) => first_lacking(limits, of, parts.as_slice(), needed),
        ExprNode::Any(parts) => in_alternatives(limits, of, parts.as_slice(), needed),
    }
}

/// The first of some conditions that never has a value that is needed of each.
pub(crate) fn first_lacking<'t>(
    limits: &Bounds<'_>,
    of: SymId,
    conditions: &'t [Expr],
    needed: TriSet,
) -> Option<Obstacle<'t>>
    ensures { IfSome result (IsInTheWay limits.now.tree) }
{
    for condition in conditions {
        if let Some(found) = lacking_condition(limits, of, condition, needed) {
            return Some(found);
        }
    }
    None
}

/// Of parts that `||` joins the first that never has a value that is needed: one that is no constant, if there is one.
fn in_alternatives<'t>(
    limits: &Bounds<'_>,
    of: SymId,
    parts: &'t [Expr],
    needed: TriSet,
) -> Option<Obstacle<'t>>
    ensures { IfSome result (IsInTheWay limits.now.tree) }
{
    for part in parts {
        if is_constant(part) {
            continue;
        }
        if let Some(found) = lacking_condition(limits, of, part, needed) {
            return Some(found);
        }
    }
    None
}

/// Whether an expression is a constant.
pub(crate) fn is_constant(expr: &Expr) -> bool {
    matches!(expr.node(), ExprNode::Term(Term::Tri(_) | Term::Text(_)))
}

/// The symbol or the word that a term is, where it never has a value that is needed.
fn in_term<'t>(limits: &Bounds<'_>, term: &'t Term, needed: TriSet) -> Option<Obstacle<'t>>
    ensures { IfSome result (IsInTheWay limits.now.tree) }
{
    match term {
        Term::Symbol(symbol) => lacking_symbol(limits, *symbol, needed, Cause::Unknown),
        Term::Undefined(word) if !needed.no => Some(Obstacle::Undefined(word.as_str())),
        Term::Undefined(_) | Term::Tri(_) | Term::Text(_) => None,
    }
}

/// What is in the way of an m alone: that MODULES is not defined, or its value.
fn in_module<'t>(tree: &Tree, limits: &Bounds<'_>, needed: TriSet) -> Option<Obstacle<'t>>
    ensures { IfSome result (IsInTheWay limits.now.tree) }
{
    if needed.module {
        in_modules(tree, limits, ON)
    } else if needed.no {
        in_modules(tree, limits, NO)
    } else {
        None
    }
}

/// What is in the way of a value of MODULES.
pub(crate) fn in_modules<'t>(
    tree: &Tree,
    limits: &Bounds<'_>,
    needed: TriSet,
) -> Option<Obstacle<'t>>
    ensures { IfSome result (IsInTheWay limits.now.tree) }
{
    match tree.modules() {
        Some(modules) => lacking_symbol(limits, modules, needed, Cause::Unknown),
        None if needed.no => None,
        None => Some(Obstacle::NoModules),
    }
}

/// The symbol or the word that is compared with n, m or y, where it never has a value for which the comparison has one that
/// is needed.
fn in_comparison<'t>(
    limits: &Bounds<'_>,
    comparison: Comparison,
    operands: &'t Operands,
    needed: TriSet,
) -> Option<Obstacle<'t>>
    ensures { IfSome result (IsInTheWay limits.now.tree) }
{
    match (constant_in(&operands.left), constant_in(&operands.right)) {
        (None, Some(right)) => {
            let values = values_that_hold(comparison, right);
            in_side(limits, &operands.left, wanted_of(values, needed))
        }
        (Some(left), None) => {
            let values = values_that_hold(mirrored(comparison), left);
            in_side(limits, &operands.right, wanted_of(values, needed))
        }
        _ => None,
    }
}

/// n, m or y, where a term is one of these.
fn constant_in(term: &Term) -> Option<Tri> {
    match term {
        Term::Tri(value) => Some(*value),
        Term::Text(text) => match text.as_str() {
            "n" => Some(Tri::No),
            "m" => Some(Tri::Module),
            "y" => Some(Tri::Yes),
            _ => None,
        },
        Term::Symbol(_) | Term::Undefined(_) => None,
    }
}

/// The comparison with its sides exchanged.
fn mirrored(comparison: Comparison) -> Comparison {
    match comparison {
        Comparison::Equal => Comparison::Equal,
        Comparison::NotEqual => Comparison::NotEqual,
        Comparison::Less => Comparison::Greater,
        Comparison::LessOrEqual => Comparison::GreaterOrEqual,
        Comparison::Greater => Comparison::Less,
        Comparison::GreaterOrEqual => Comparison::LessOrEqual,
    }
}

/// The values that are so compared with a value.
fn values_that_hold(comparison: Comparison, value: Tri) -> TriSet {
    let (below, equal, above) = match value {
        Tri::No => (NONE, NO, ON),
        Tri::Module => (NO, MODULE, YES),
        Tri::Yes => (others(YES), YES, NONE),
    };
    match comparison {
        Comparison::Equal => equal,
        Comparison::NotEqual => others(equal),
        Comparison::Less => below,
        Comparison::LessOrEqual => others(above),
        Comparison::Greater => above,
        Comparison::GreaterOrEqual => others(below),
    }
}

/// The values that a set does not have.
fn others(set: TriSet) -> TriSet {
    TriSet {
        no: !set.no,
        module: !set.module,
        yes: !set.yes,
    }
}

/// The values for which a comparison is what is needed, by those for which it holds.
fn wanted_of(values: TriSet, needed: TriSet) -> TriSet {
    if needed.yes {
        values
    } else if needed.no {
        others(values)
    } else {
        NONE
    }
}

/// The side of a comparison, where it never has one of some values; none where there are no values.
fn in_side<'t>(limits: &Bounds<'_>, side: &'t Term, needed: TriSet) -> Option<Obstacle<'t>>
    ensures { IfSome result (IsInTheWay limits.now.tree) }
{
    if needed.no || needed.has_more() {
        in_term(limits, side, needed)
    } else {
        None
    }
}

/// What is in the way in the condition after an `if`, where there is one.
pub(crate) fn in_own_condition<'t>(
    limits: &Bounds<'_>,
    of: SymId,
    condition: Option<&'t Expr>,
    needed: TriSet,
) -> Option<Obstacle<'t>>
    ensures { IfSome result (IsInTheWay limits.now.tree) }
{
    lacking_condition(limits, of, condition?, needed)
}

/// What is in the way in the lines of the blocks around a place, of the innermost first.
pub(crate) fn in_blocks<'t>(
    tree: &'t Tree,
    limits: &Bounds<'_>,
    of: SymId,
    innermost: Option<BlockId>,
    lines: Lines,
    needed: TriSet,
) -> Option<Obstacle<'t>>
    ensures { IfSome result (IsInTheWay limits.now.tree) }
{
    let mut next = innermost;
    for _ in 0..MOST_OPEN_BLOCKS {
        let block = tree.blocks().get(next?.0)?;
        if let Some(found) = in_block(limits, of, block, lines, needed) {
            return Some(found);
        }
        next = block.parent();
    }
    None
}

/// What is in the way in the lines of a block.
fn in_block<'t>(
    limits: &Bounds<'_>,
    of: SymId,
    block: &'t Block,
    lines: Lines,
    needed: TriSet,
) -> Option<Obstacle<'t>>
    ensures { IfSome result (IsInTheWay limits.now.tree) }
{
    if let Some(found) = first_lacking(limits, of, block.depends(), needed) {
        return Some(found);
    }
    match lines {
        Lines::Depends => None,
        Lines::DependsAndVisible => first_lacking(limits, of, block.visible(), needed),
    }
}
