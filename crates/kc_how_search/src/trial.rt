//! A tree whose user values are tried out: edits of them, and the values afterwards.

ghost use Rattle.kc_value.specs.UserValues.{IsUserFor};

use kc_tree::{ChoiceId, Expr, ExprNode, Node, SymId, Term, Tree, Tri, UserVal};
use kc_value::{Change, KeptValues, Known, User, Value, is_same_user_value, tri};
use std::alloc::{AllocError, Global};
use std::marker::Model;

/// Whether a symbol has what user values give it, and they give it something. What has no value has nothing.
pub(crate) fn has_given(known: &Known<'_>, user: &User, symbol: SymId) -> bool {
    let Some(Value::Shown(value, _)) = known.get(Node::Val(symbol)) else {
        return false;
    };
    if let Some(choice) = known.tree().choice_of(symbol) {
        return user.chosen(choice) == Some(symbol) && matches!(value, UserVal::Tri(Tri::Yes));
    }
    match user.get(symbol) {
        Some(given) => is_same_user_value(value, given),
        None => false,
    }
}

/// A tree with user values that are tried out, and the values that were evaluated for them. Contracts see the record of
/// these.
#[derive(Drop)]
pub(crate) struct Trial<'t> {
    alloc: Global,
    tree: &'t Tree,
    /// The user values that it begins with.
    given: &'t User,
    user: User,
    kept: KeptValues,
}

impl<'t> Model for Trial<'t> {
    ghost use Rattle.kc_how_search.specs.Trial.{TrialValue, IsSound};
    ghost use Rattle.kc_statement.specs.contracts.expr.Expr as expr;
    ghost use Rattle.std.specs.Coded.{codes};

    ghost Value = { TrialValue };

    ghost coded = { Prim.hlevel (codes, expr.the_row.coded) };

    ghost view = { λ t. record { tree = t.tree.now; given = t.given.now; user = t.user; values = t.kept.values } };

    ghost invariant = { λ t. IsSound (record { tree = t.tree.now; given = t.given.now; user = t.user; values = t.kept.values }) };
}

impl<'t> Trial<'t> {
    /// A tree with the user values of a user of it. The error comes where memory is refused.
    pub fn new(alloc: Global, tree: &'t Tree, given: &'t User) -> Result<Trial<'t>, AllocError>
        requires { IsUserFor tree.now given.now }
    {
        let kept = KeptValues::new(alloc, tree)?;
        Ok(Trial {
            alloc,
            tree,
            given,
            user: given.copy(alloc)?,
            kept,
        })
    }

    /// The values that were evaluated.
    pub fn known(&self) -> Known<'_> {
        Known::of_nodes(self.tree, self.kept.values())
    }

    /// The user values.
    pub fn user(&self) -> &User {
        &self.user
    }

    /// Evaluates the value of a symbol, and all that it is computed from; nothing of a symbol that the tree doesn't have.
    /// The error comes where memory is refused.
    pub fn fill_symbol(&mut self, symbol: SymId) -> Result<(), AllocError> {
        if (symbol.0 as usize) >= self.tree.symbols().len() {
            return Ok(());
        }
        self.kept
            .fill(self.alloc, self.tree, &self.user, Node::Val(symbol))
    }

    /// Whether a symbol has what the user values that it began with give it. The error comes where memory is refused.
    pub fn has_given(&mut self, symbol: SymId) -> Result<bool, AllocError> {
        self.fill_symbol(symbol)?;
        Ok(has_given(&self.known(), self.given, symbol))
    }

    /// The tristate value of a symbol. The error comes where memory is refused.
    pub fn value(&mut self, symbol: SymId) -> Result<Tri, AllocError> {
        self.fill_symbol(symbol)?;
        Ok(self.known().tri(Node::Val(symbol)))
    }

    /// The visibility of a symbol. The error comes where memory is refused.
    pub fn visibility(&mut self, symbol: SymId) -> Result<Tri, AllocError> {
        if (symbol.0 as usize) >= self.tree.symbols().len() {
            return Ok(Tri::No);
        }
        self.kept
            .fill(self.alloc, self.tree, &self.user, Node::Vis(symbol))?;
        Ok(self.known().tri(Node::Vis(symbol)))
    }

    /// Whether a symbol is shown, and has a user value. The error comes where memory is refused.
    pub fn is_given(&mut self, symbol: SymId) -> Result<bool, AllocError> {
        let is_shown = !self.visibility(symbol)?.is_no();
        Ok(is_shown && self.user.get(symbol).is_some())
    }

    /// The mode of a choice. The error comes where memory is refused.
    pub fn mode(&mut self, choice: ChoiceId) -> Result<Tri, AllocError> {
        if (choice.0 as usize) >= self.tree.choices().len() {
            return Ok(Tri::No);
        }
        self.kept
            .fill(self.alloc, self.tree, &self.user, Node::Mode(choice))?;
        Ok(self.known().tri(Node::Mode(choice)))
    }

    /// The value of `MODULES`, n where it is not defined. The error comes where memory is refused.
    pub fn modules(&mut self) -> Result<Tri, AllocError> {
        match self.tree.modules() {
            Some(symbol) => self.value(symbol),
            None => Ok(Tri::No),
        }
    }

    /// Whether the text of a symbol's value is this one. The error comes where memory is refused.
    pub fn has_text(&mut self, symbol: SymId, text: &str) -> Result<bool, AllocError> {
        self.fill_symbol(symbol)?;
        match self.known().get(Node::Val(symbol)) {
            Some(value) => Ok(value.as_text() == text),
            None => Ok(false),
        }
    }

    /// Evaluates the symbol of a term. The error comes where memory is refused.
    fn fill_term(&mut self, term: &Term) -> Result<(), AllocError> {
        match term {
            Term::Symbol(symbol) => self.fill_symbol(*symbol),
            Term::Tri(_) | Term::Text(_) | Term::Undefined(_) => Ok(()),
        }
    }

    /// Evaluates the symbols of an expression. The error comes where memory is refused.
    #[cycle(fill)]
    pub fn fill_expr(&mut self, expr: &Expr) -> Result<(), AllocError> {
        match expr.node() {
            ExprNode::Term(term) => self.fill_term(term),
            ExprNode::BareModule(_) => {
                self.modules()?;
                Ok(())
            }
            ExprNode::Compare(_, operands) => {
                self.fill_term(&operands.left)?;
                self.fill_term(&operands.right)
            }
            ExprNode::Not(_, inner) => self.fill_expr(inner),
            ExprNode::Group(inner) => self.fill_expr(inner),
            ExprNode::All(parts) => self.fill_parts(parts.as_slice()),
            ExprNode::Any(parts) => self.fill_parts(parts.as_slice()),
        }
    }

    /// Evaluates the symbols of expressions. The error comes where memory is refused.
    #[cycle(fill)]
    fn fill_parts(&mut self, parts: &[Expr]) -> Result<(), AllocError> {
        for part in parts {
            self.fill_expr(part)?;
        }
        Ok(())
    }

    /// The value of an expression. The error comes where memory is refused.
    pub fn expr(&mut self, expr: &Expr) -> Result<Tri, AllocError> {
        self.fill_expr(expr)?;
        Ok(tri(&self.known(), expr))
    }

    /// Gives a symbol that is no member of a choice a value, if it takes it.
    pub fn give(&mut self, symbol: SymId, value: UserVal) {
        let is_inside = (symbol.0 as usize) < self.tree.symbols().len();
        if is_inside && self.tree.fits(symbol, &value) {
            self.kept.edit(
                self.tree,
                &mut self.user,
                Change::Value(symbol, Some(value)),
            );
        }
    }

    /// Makes a member of a choice the chosen one, or none.
    pub fn choose(&mut self, choice: ChoiceId, member: Option<SymId>) {
        if (choice.0 as usize) < self.tree.choices().len() {
            self.kept
                .edit(self.tree, &mut self.user, Change::Chosen(choice, member));
        }
    }

    /// Removes the user value of a symbol.
    fn unset(&mut self, symbol: SymId) {
        if (symbol.0 as usize) < self.tree.symbols().len() {
            self.kept
                .edit(self.tree, &mut self.user, Change::Value(symbol, None));
        }
    }

    /// Gives a symbol back the user value that it began with, or none. The error comes where memory is refused.
    pub fn restore(&mut self, symbol: SymId) -> Result<(), AllocError> {
        match self.given.get(symbol) {
            Some(UserVal::Tri(value)) => self.give(symbol, UserVal::Tri(*value)),
            Some(UserVal::Text(text)) => self.give(symbol, UserVal::Text(text.share()?)),
            None => self.unset(symbol),
        }
        Ok(())
    }

    /// Gives a choice back the chosen member that it began with, or none.
    pub fn restore_choice(&mut self, choice: ChoiceId) {
        let member = self.given.chosen(choice);
        self.choose(choice, member);
    }
}
