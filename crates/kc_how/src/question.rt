//! What is asked of a tree, and whether lines are enough for it: each list of lines is merged into the user values, and
//! what is wanted is evaluated. The values that are computed from nothing that changes are kept from one list to the next.

ghost use Rattle.std.specs.Prelude.{◌≡◌, ◌↔◌, true, All, IfOk};
ghost use Rattle.kc_tree.specs.declared.node.Node.TheVariants.{Val};
ghost use Rattle.kc_value.specs.Kept.{AreKept};
ghost use Rattle.kc_value.specs.Solution.{solution, IsOnlySolution};
ghost use Rattle.kc_value.specs.UserValues.{UserValues, IsUserFor};
ghost use Rattle.kc_files.specs.Effects.{HasEffect};
ghost use Rattle.kc_files.specs.LineReading.{IsAssignFor};
ghost use Rattle.kc_how.specs.Question.{AreEnough, IsFirstLacking, IsLacking};

use kc_files::{Assign, Load, apply, has_effect};
use kc_tree::{Node, Tree};
use kc_value::{Change, KeptValues, NewUser, Solved, User};
use std::alloc::{AllocError, Global};
use std::marker::Model;

/// Whether a wanted symbol has just the wanted value.
///
/// The error comes where memory is refused.
fn has_wanted(
    alloc: Global,
    tree: &Tree,
    user: &User,
    kept: &mut KeptValues,
    wanted: &Assign,
) -> Result<bool, AllocError>
    requires user { IsUserFor tree.now user.now }
    requires wanted { IsAssignFor tree.now wanted.now }
    requires kept { AreKept tree.now user.now kept.old.values }
    ensures kept { AreKept tree.now user.now kept.new.values }
    ensures given { IfOk result (λ b. (b ≡ true) ↔ HasEffect (solution tree.now user.now) wanted.now) }
{
    kept.fill(alloc, tree, user, Node::Val(wanted.symbol))?;
    let solved = Solved::of_kept(tree, user, kept.values());
    Ok(has_effect(tree, solved.values(), wanted))
}

/// The index of the first wanted symbol that has another value than the wanted one.
///
/// The error comes where memory is refused.
fn first_lacking(
    alloc: Global,
    tree: &Tree,
    user: &User,
    kept: &mut KeptValues,
    wanted: &[Assign],
) -> Result<Option<usize>, AllocError>
    requires user { IsUserFor tree.now user.now }
    requires wanted { All (IsAssignFor tree.now) wanted.now }
    requires kept { AreKept tree.now user.now kept.old.values }
    ensures kept { AreKept tree.now user.now kept.new.values }
    ensures lacking { IfOk result (IsFirstLacking (solution tree.now user.now) wanted.now) }
{
    for index in 0..wanted.len() {
        if !has_wanted(alloc, tree, user, kept, &wanted[index])? {
            return Ok(Some(index));
        }
    }
    Ok(None)
}

/// What is asked, with the user values that were tried last and what is kept for them. Contracts see the record of these.
#[derive(Drop)]
pub(crate) struct Question<'a> {
    alloc: Global,
    tree: &'a Tree,
    user: &'a User,
    wanted: &'a [Assign],
    tried: User,
    kept: KeptValues,
}

impl<'a> Model for Question<'a> {
    ghost use Rattle.std.specs.Coded.{codes};
    ghost use Rattle.kc_statement.specs.contracts.expr.Expr as expr;
    ghost use Rattle.kc_how.specs.Question.{QuestionValue, IsSound};

    ghost Value = { QuestionValue };

    ghost coded = { Prim.hlevel (codes, expr.the_row.coded) };

    ghost view = { λ q. record { asked = record { tree = q.tree.now; user = q.user.now; wanted = q.wanted.now }; tried = q.tried; kept = q.kept } };

    ghost invariant = { λ q. IsSound (record { asked = record { tree = q.tree.now; user = q.user.now; wanted = q.wanted.now }; tried = q.tried; kept = q.kept }) };
}

impl<'a> Question<'a> {
    /// Of a tree with what the user gave, and the wanted values. That the tree has one solution, and no other, for any
    /// user values holds whatever the call returns.
    ///
    /// The error comes where memory is refused.
    pub(crate) fn new(
        alloc: Global,
        solved: &Solved<'a>,
        wanted: &'a [Assign],
    ) -> Result<Question<'a>, AllocError>
        requires { All (IsAssignFor solved.now.tree) wanted.now }
        ensures asked { IfOk result (λ q. q.asked ≡ record { tree = solved.now.tree; user = solved.now.user; wanted = wanted.entry.now }) }
        ensures solved { (u : UserValues) → IsOnlySolution solved.now.tree u (solution solved.now.tree u) }
    {
        let tree = solved.tree();
        let user = solved.user();
        let kept = KeptValues::new(alloc, tree)?;
        Ok(Question {
            alloc,
            tree,
            user,
            wanted,
            tried: user.copy(alloc)?,
            kept,
        })
    }

    /// The tree that is asked about.
    pub(crate) fn tree(&self) -> &'a Tree
        ensures { result.now ≡ self.now.asked.tree }
    {
        self.tree
    }

    /// The index of the first wanted symbol that has another value than the wanted one, once lines were merged into what
    /// the user gave.
    ///
    /// The error comes where memory is refused.
    pub(crate) fn lacking(&mut self, lines: Vec<Assign>) -> Result<Option<usize>, AllocError>
        requires { All (IsAssignFor self.old.asked.tree) lines.items }
        ensures asked { self.new.asked ≡ self.old.asked }
        ensures lacking { IfOk result (IsLacking self.old.asked lines.items) }
    {
        let mut next = self.user.copy(self.alloc)?;
        apply(self.tree, &mut next, lines, Load::Merge);
        self.kept.edit(
            self.tree,
            &mut self.tried,
            Change::All(NewUser::Other(next)),
        );
        first_lacking(
            self.alloc,
            self.tree,
            &self.tried,
            &mut self.kept,
            self.wanted,
        )
    }

    /// Whether lines are enough: merged into what the user gave, they give each wanted symbol its value.
    ///
    /// The error comes where memory is refused.
    pub(crate) fn is_enough(&mut self, lines: Vec<Assign>) -> Result<bool, AllocError>
        requires { All (IsAssignFor self.old.asked.tree) lines.items }
        ensures asked { self.new.asked ≡ self.old.asked }
        ensures enough { IfOk result (λ b. (b ≡ true) ↔ AreEnough self.old.asked lines.items) }
    {
        let lacking = self.lacking(lines)?;
        Ok(lacking.is_none())
    }
}
