//! What is in the way of a value: a symbol or a condition that never has a value which is needed.

ghost use Rattle.std.specs.Prelude.{◌≡◌, IfSome, true};
ghost use Rattle.kc_bounds.specs.TriSets.{IsIn};
ghost use Rattle.kc_statement.specs.declared.tri.Tri.{Tri};
ghost use Rattle.kc_how.specs.InTheWay.{IsInTheWay};

use kc_bounds::{Bounds, TriSet, expr_set, symbol_set};
use kc_tree::{Expr, SymId};

/// The values of what is not n.
pub(crate) const ON: TriSet = TriSet {
    no: false,
    module: true,
    yes: true,
};

/// n alone.
pub(crate) const NO: TriSet = TriSet {
    no: true,
    module: false,
    yes: false,
};

/// m alone.
pub(crate) const MODULE: TriSet = TriSet {
    no: false,
    module: true,
    yes: false,
};

/// y alone.
pub(crate) const YES: TriSet = TriSet {
    no: false,
    module: false,
    yes: true,
};

/// What is in the way of a value.
#[derive(Clone, Copy, Debug, Drop)]
pub enum Obstacle<'t> {
    /// A word that no line defines, so that it is n.
    Undefined(&'t str),
    /// No line defines MODULES, so that nothing is m.
    NoModules,
    /// A condition never has one of the values that are needed of it.
    Condition(LackingCondition<'t>),
    /// A symbol never has one of the values that are needed of it.
    Symbol(LackingSymbol),
}

/// A condition that never has one of some values.
#[derive(Clone, Copy, Debug, Drop)]
pub struct LackingCondition<'t> {
    /// The symbol that needs the condition.
    pub of: SymId,
    pub condition: &'t Expr,
    /// The values that it never has.
    pub needed: TriSet,
}

/// A symbol that never has one of some values.
#[derive(Clone, Copy, Debug)]
pub struct LackingSymbol {
    pub symbol: SymId,
    /// The values that it never has.
    pub needed: TriSet,
    pub cause: Cause,
}

/// Why a symbol never has one of some values.
#[derive(Clone, Copy, Debug, PartialEq, Eq)]
pub enum Cause {
    /// It is not known.
    Unknown,
    /// It is a string, an int or a hex, which counts as n.
    IsText,
    /// It is a bool, which is never m.
    IsBool,
    /// It has no prompt, no default, and no `select` or `imply` line names it.
    NoLines,
    /// It has no prompt, and none of its defaults and of the lines that select or imply it gives such a value.
    NoSuchLine,
    /// No prompt of it can be shown, and what it is without a user value is never such a value.
    CannotBeSet,
    /// It selects this one, which therefore never has such a value either.
    Selects(SymId),
}

/// Whether two sets have a value in common.
fn overlap(left: TriSet, right: TriSet) -> bool
    ensures { (v : Tri) → IsIn left v → IsIn right v → result ≡ true }
{
    (left.no && right.no) || (left.module && right.module) || (left.yes && right.yes)
}

/// The values that `!` makes values of a set.
pub(crate) fn turned(set: TriSet) -> TriSet {
    TriSet {
        no: set.yes,
        module: set.module,
        yes: set.no,
    }
}

/// A symbol, where it never has a value that is needed.
pub(crate) fn lacking_symbol<'t>(
    limits: &Bounds<'_>,
    symbol: SymId,
    needed: TriSet,
    cause: Cause,
) -> Option<Obstacle<'t>>
    ensures { IfSome result (IsInTheWay limits.now.tree) }
{
    if overlap(needed, symbol_set(limits, symbol)) {
        return None;
    }
    Some(Obstacle::Symbol(LackingSymbol {
        symbol,
        needed,
        cause,
    }))
}

/// A condition that a symbol needs, where it never has a value that is needed.
pub(crate) fn lacking_condition<'t>(
    limits: &Bounds<'_>,
    of: SymId,
    condition: &'t Expr,
    needed: TriSet,
) -> Option<Obstacle<'t>>
    ensures { IfSome result (IsInTheWay limits.now.tree) }
{
    if overlap(needed, expr_set(limits, condition)) {
        return None;
    }
    Some(Obstacle::Condition(LackingCondition {
        of,
        condition,
        needed,
    }))
}
