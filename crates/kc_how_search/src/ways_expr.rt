//! The ways to raise or lower the value of an expression.

use crate::finder::Finder;
use crate::goals::{Deed, Goal, Way, expr_goal};
use kc_tree::{Expr, ExprNode, Tri};
use std::alloc::AllocError;

impl<'t> Finder<'t> {
    /// The way by which all parts are at least, or at most, a value. The error comes where memory is refused.
    fn add_whole(
        &self,
        ways: &mut Vec<Way<'t>>,
        parts: &'t [Expr],
        is_least: bool,
        bound: Tri,
    ) -> Result<(), AllocError> {
        let mut goals = Vec::new(self.alloc);
        for part in parts {
            goals.push(expr_goal(part, is_least, bound))?;
        }
        self.add_way(ways, goals, Deed::Nothing, 0)
    }

    /// The ways by each of which one part is at least, or at most, a value. The error comes where memory is refused.
    fn add_each(
        &self,
        ways: &mut Vec<Way<'t>>,
        parts: &'t [Expr],
        is_least: bool,
        bound: Tri,
    ) -> Result<(), AllocError> {
        for part in parts {
            self.add_one(ways, expr_goal(part, is_least, bound), 0)?;
        }
        Ok(())
    }

    /// Adds the way by one goal, and what it costs besides. The error comes where memory is refused.
    pub fn add_one(
        &self,
        ways: &mut Vec<Way<'t>>,
        goal: Goal<'t>,
        own: u32,
    ) -> Result<(), AllocError> {
        let mut goals = Vec::new(self.alloc);
        goals.push(goal)?;
        self.add_way(ways, goals, Deed::Nothing, own)
    }

    /// Adds the way by MODULES, where an m alone is to be m or n. The error comes where memory is refused.
    fn add_bare(
        &self,
        ways: &mut Vec<Way<'t>>,
        is_least: bool,
        bound: Tri,
    ) -> Result<(), AllocError> {
        let Some(modules) = self.tree.modules() else {
            return Ok(());
        };
        match (is_least, bound) {
            (true, Tri::Module) => self.add_one(ways, Goal::AtLeast(modules, Tri::Module), 0),
            (false, Tri::No) => self.add_one(ways, Goal::AtMost(modules, Tri::No), 0),
            _ => Ok(()),
        }
    }

    /// The ways by which an expression is at least, or at most, a value. The error comes where memory is refused.
    pub fn ways_expr(
        &mut self,
        expr: &'t Expr,
        is_least: bool,
        bound: Tri,
    ) -> Result<Vec<Way<'t>>, AllocError> {
        let mut ways = Vec::new(self.alloc);
        match expr.node() {
            ExprNode::Term(_) => {}
            ExprNode::BareModule(_) => self.add_bare(&mut ways, is_least, bound)?,
            ExprNode::Compare(comparison, operands) => {
                self.add_comparison(&mut ways, *comparison, operands, is_least)?;
            }
            ExprNode::Not(_, _) | ExprNode::Group(_) => {
                self.add_one(&mut ways, expr_goal(expr, is_least, bound), 0)?;
            }
            ExprNode::All(parts) => {
                let parts = parts.as_slice();
                if is_least {
                    self.add_whole(&mut ways, parts, true, bound)?;
                } else {
                    self.add_each(&mut ways, parts, false, bound)?;
                }
            }
            ExprNode::Any(parts) => {
                let parts = parts.as_slice();
                if is_least {
                    self.add_each(&mut ways, parts, true, bound)?;
                } else {
                    self.add_whole(&mut ways, parts, false, bound)?;
                }
            }
        }
        Ok(ways)
    }
}
