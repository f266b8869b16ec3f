//! Which values the nodes of a tree may have: `MODULES` is n, or it is not.

ghost use Rattle.std.specs.Prelude.{◌≡◌, Bool, false};
ghost use Rattle.kc_tree.specs.declared.node.Node.TheVariants.{Val};
ghost use Rattle.kc_value.specs.ExprValue.{expr_value, symbol_tri};
ghost use Rattle.kc_value.specs.Solution.{solution};
ghost use Rattle.kc_value.specs.UserValues.{IsUserFor, UserValues};
ghost use Rattle.kc_value.specs.declared.value.Value.TheVariants.{Shown};
ghost use Rattle.kc_bounds.specs.Bounds.{AreBoth, Covers};

use crate::expressions;
use crate::table::ScopedBounds;
use crate::tri_set::TriSet;
use kc_tree::{Expr, SymId, UserVal};
use std::marker::Model;

/// For each cell of a tree the sets of what it is worth, whatever the user gives and chooses: one where `MODULES` is n, and
/// one where it is m or y. Contracts see the tree, and the sets by number.
#[derive(Drop)]
pub struct Bounds<'a> {
    off: ScopedBounds<'a>,
    on: ScopedBounds<'a>,
}

impl<'a> Model for Bounds<'a> {
    ghost use Rattle.std.specs.Coded.{codes};
    ghost use Rattle.kc_statement.specs.contracts.expr.Expr as expr;
    ghost use Rattle.kc_bounds.specs.Bounds.{AreBoth, BoundsValue};

    ghost Value = { BoundsValue };

    ghost coded = { Prim.hlevel (codes, expr.the_row.coded) };

    ghost view = { λ b. record { tree = b.off.tree; off = b.off.sets; on = b.on.sets } };

    ghost invariant = { λ b. AreBoth b.off b.on };
}

impl<'a> Bounds<'a> {
    /// Those of a tree where `MODULES` is n, and where it is m or y.
    pub(crate) fn of(off: ScopedBounds<'a>, on: ScopedBounds<'a>) -> Bounds<'a>
        requires { AreBoth off on }
        ensures { result.tree ≡ off.entry.tree }
    {
        Bounds { off, on }
    }

    /// Whether a symbol may have a value. Where it may not, no user values give it that value.
    pub fn can_be(&self, symbol: SymId, value: &UserVal) -> bool
        ensures { result ≡ false → (w : UserValues) → IsUserFor self.now.tree w → (written : Bool)
            → solution self.now.tree w (Val symbol) ≡ Shown value.now written → ⊥ }
    {
        self.off.can_be(symbol, value) || self.on.can_be(symbol, value)
    }

    /// Which values a symbol may have, where `MODULES` is n and where it is not.
    fn symbol(&self, symbol: SymId) -> TriSet
        ensures { Covers self.now.tree result (λ a. symbol_tri self.now.tree a symbol) }
    {
        let off = expressions::symbol_set(&self.off, symbol);
        off.joined(expressions::symbol_set(&self.on, symbol))
    }

    /// Which values an expression may have, where `MODULES` is n and where it is not.
    fn expr(&self, expr: &Expr) -> TriSet
        ensures { Covers self.now.tree result (λ a. expr_value self.now.tree a expr.now) }
    {
        let off = expressions::expr_set(&self.off, expr);
        off.joined(expressions::expr_set(&self.on, expr))
    }
}

/// Which values a symbol may have; a number that the tree doesn't have is n.
pub fn symbol_set(bounds: &Bounds<'_>, symbol: SymId) -> TriSet
    ensures { Covers bounds.now.tree result (λ a. symbol_tri bounds.now.tree a symbol) }
{
    bounds.symbol(symbol)
}

/// Which values an expression may have: those that its parts give, each of them by itself.
pub fn expr_set(bounds: &Bounds<'_>, expr: &Expr) -> TriSet
    ensures { Covers bounds.now.tree result (λ a. expr_value bounds.now.tree a expr.now) }
{
    bounds.expr(expr)
}
