//! Dropping what an edit of the user values can change, before the edit: exactly what is computed from a node that changes.

ghost use Rattle.std.specs.Prelude.{◌≡◌, ◌&&◌, ◌+◌, ◌≤◌, is_some, length, not, vec_capacity};
ghost use Rattle.std.specs.Option.{option_copied};
ghost use Rattle.kc_outline.specs.TreeValue.{TreeValue, choice_of};
ghost use Rattle.kc_tree.specs.declared.node.Node.TheVariants.{Val, Sel};
ghost use Rattle.kc_tree.specs.Cells.{cell_count};
ghost use Rattle.kc_tree.specs.Nodes.{IsNodeOf};
ghost use Rattle.kc_value.specs.ChangedValue.{same_mark, same_member};
ghost use Rattle.kc_value.specs.Changes.{changed, new_user, IsChangeFor};
ghost use Rattle.kc_value.specs.Dirty.{is_changed, same_given, Edits};
ghost use Rattle.kc_value.specs.DropWalk.{DropsAll, IsChangedChoice, IsChangedNumber, IsChangedValue};
ghost use Rattle.kc_value.specs.Kept.{AreKept, value_count};
ghost use Rattle.kc_value.specs.Solution.{solution, IsOnlySolution};
ghost use Rattle.kc_value.specs.UserValues.{UserValues, IsUserFor, chosen_in, with_value, with_chosen};
ghost use Rattle.kc_value.specs.Without.{is_optional_choice};

use crate::all_values::value_given;
use crate::change::{Change, NewUser};
use crate::changed::is_same_user_value;
use crate::dropping::{drop_if, walk};
use crate::kept_values::KeptValues;
use crate::node_values::NodeValues;
use crate::user::User;
use kc_tree::{ChoiceId, Node, SymId, Tree, UserVal};

/// Whether a user value, or none, is the same as another; texts are so as they are spelt.
fn is_same_given(left: Option<&UserVal>, right: Option<&UserVal>) -> bool
    ensures { result ≡ same_given (option_copied left.entry) (option_copied right.entry) }
{
    match (left, right) {
        (None, None) => true,
        (Some(left), Some(right)) => is_same_user_value(left, right),
        (None, Some(_)) | (Some(_), None) => false,
    }
}

/// Whether the value of a symbol changes where its user value becomes another: that of a member of a choice does not.
fn is_value_changed(
    tree: &Tree,
    symbol: SymId,
    from: Option<&UserVal>,
    to: Option<&UserVal>,
) -> bool
    ensures { result ≡ (not (is_some (choice_of tree.now symbol))
        && not (same_given (option_copied from.entry) (option_copied to.entry))) }
{
    !is_same_given(from, to) && tree.choice_of(symbol).is_none()
}

/// Whether the mode of a choice changes where its chosen member becomes another: only an optional choice reads whether
/// there is one.
fn is_mode_changed(tree: &Tree, choice: ChoiceId, from: Option<SymId>, to: Option<SymId>) -> bool
    ensures { result ≡ (is_optional_choice tree.now choice && not (same_mark (is_some from) (is_some to))) }
{
    let is_optional = match tree.choices().get(choice.0 as usize) {
        Some(found) => found.is_optional(),
        None => false,
    };
    is_optional && from.is_some() != to.is_some()
}

/// Whether the selection of a choice changes where its chosen member becomes another.
fn is_selection_changed(from: Option<SymId>, to: Option<SymId>) -> bool
    ensures { result ≡ not (same_member from to) }
{
    from != to
}

/// Whether the value of a symbol changes where all user values become others.
#[tactic(auto, using(crate::proofs::AllValueLaws::given_there, crate::proofs::UserLemmas::none_in))]
fn is_value_renewed(tree: &Tree, user: &User, next: &NewUser, symbol: SymId) -> bool
    requires inside { IsNodeOf tree.now (Val symbol) }
    ensures { result ≡ is_changed tree.now user.now (new_user tree.now next.now) (Val symbol) }
{
    let from = user.get(symbol);
    match next {
        NewUser::Nothing => is_value_changed(tree, symbol, from, None),
        NewUser::EachTri(all) => {
            let to = value_given(tree, *all, symbol);
            is_value_changed(tree, symbol, from, to.as_ref())
        }
        NewUser::Other(next) => is_value_changed(tree, symbol, from, next.get(symbol)),
    }
}

/// The member of a choice that is chosen where all user values become others.
#[tactic(auto, using(crate::proofs::AllValueLaws::none_there, crate::proofs::UserLemmas::none_in))]
fn next_chosen(next: &NewUser, choice: ChoiceId) -> Option<SymId>
    ensures { (t : TreeValue) → result ≡ chosen_in (new_user t next.now) choice }
{
    match next {
        NewUser::Nothing | NewUser::EachTri(_) => None,
        NewUser::Other(next) => next.chosen(choice),
    }
}

/// Drops the values of all symbols that change where all user values become others, but not of what is computed from them,
/// and lists those that had one.
fn drop_values(
    tree: &Tree,
    values: &mut NodeValues,
    list: &mut Vec<u32>,
    user: &User,
    next: &NewUser,
)
    requires whole { length values.old ≡ cell_count tree.now }
    requires room { length list.old.items + value_count values.old ≤ vec_capacity list.old }
    ensures drops { DropsAll (IsChangedValue tree.now user.now (new_user tree.now next.now) (length tree.now.symbols))
        values.old values.new list.old.items list.new.items }
    ensures capacity { vec_capacity list.old ≤ vec_capacity list.new }
{
    for number in 0..tree.symbols().len() {
        let symbol = SymId(number as u32);
        let changes = is_value_renewed(tree, user, next, symbol);
        drop_if(values, list, changes, tree.number(Node::Val(symbol)));
    }
}

/// The same of the modes and selections of all choices.
fn drop_choices(
    tree: &Tree,
    values: &mut NodeValues,
    list: &mut Vec<u32>,
    user: &User,
    next: &NewUser,
)
    requires whole { length values.old ≡ cell_count tree.now }
    requires room { length list.old.items + value_count values.old ≤ vec_capacity list.old }
    ensures drops { DropsAll (IsChangedChoice tree.now user.now (new_user tree.now next.now) (length tree.now.choices))
        values.old values.new list.old.items list.new.items }
    ensures capacity { vec_capacity list.old ≤ vec_capacity list.new }
{
    for number in 0..tree.choices().len() {
        let choice = ChoiceId(number as u32);
        let (from, to) = (user.chosen(choice), next_chosen(next, choice));
        let mode_changes = is_mode_changed(tree, choice, from, to);
        drop_if(values, list, mode_changes, tree.number(Node::Mode(choice)));
        let selection_changes = is_selection_changed(from, to);
        drop_if(
            values,
            list,
            selection_changes,
            tree.number(Node::Sel(choice)),
        );
    }
}

/// The same of the mode and the selection of one choice whose chosen member becomes another, or none.
fn drop_chosen(
    tree: &Tree,
    values: &mut NodeValues,
    list: &mut Vec<u32>,
    user: &User,
    choice: ChoiceId,
    member: Option<SymId>,
)
    requires inside { IsNodeOf tree.now (Sel choice) }
    requires user { IsUserFor tree.now user.now }
    requires whole { length values.old ≡ cell_count tree.now }
    requires room { length list.old.items + value_count values.old ≤ vec_capacity list.old }
    ensures drops { DropsAll (IsChangedNumber tree.now user.now (with_chosen user.now choice member)) values.old values.new list.old.items list.new.items }
    ensures capacity { vec_capacity list.old ≤ vec_capacity list.new }
{
    let chosen = user.chosen(choice);
    let mode_changes = is_mode_changed(tree, choice, chosen, member);
    drop_if(values, list, mode_changes, tree.number(Node::Mode(choice)));
    let selection_changes = is_selection_changed(chosen, member);
    drop_if(
        values,
        list,
        selection_changes,
        tree.number(Node::Sel(choice)),
    );
}

/// The same of all nodes that an edit changes.
fn drop_changed(
    tree: &Tree,
    values: &mut NodeValues,
    list: &mut Vec<u32>,
    user: &User,
    change: &Change,
)
    requires user { IsUserFor tree.now user.now }
    requires change { IsChangeFor tree.now change.now }
    requires whole { length values.old ≡ cell_count tree.now }
    requires room { length list.old.items + value_count values.old ≤ vec_capacity list.old }
    ensures drops { DropsAll (IsChangedNumber tree.now user.now (changed tree.now user.now change.now)) values.old values.new list.old.items list.new.items }
    ensures capacity { vec_capacity list.old ≤ vec_capacity list.new }
{
    match change {
        Change::Value(symbol, value) => {
            let changes = is_value_changed(tree, *symbol, user.get(*symbol), value.as_ref());
            drop_if(values, list, changes, tree.number(Node::Val(*symbol)));
        }
        Change::Chosen(choice, member) => {
            drop_chosen(tree, values, list, user, *choice, *member);
        }
        Change::All(next) => {
            drop_values(tree, values, list, user, next);
            drop_choices(tree, values, list, user, next);
        }
    }
}

impl KeptValues {
    /// Makes an edit of the user values, and drops exactly what it can change. This takes no memory. The tree has one
    /// solution, and no other, for the user values before and for those afterwards.
    pub fn edit(&mut self, tree: &Tree, user: &mut User, change: Change)
        requires user { IsUserFor tree.now user.old }
        requires change { IsChangeFor tree.now change }
        requires kept { AreKept tree.now user.old self.old.values }
        ensures values { user.new ≡ changed tree.now user.old change }
        ensures user { IsUserFor tree.now user.new }
        ensures kept { AreKept tree.now user.new self.new.values }
        ensures edits { Edits tree.now user.old user.new self.old self.new }
        ensures solved { (u : UserValues) → IsOnlySolution tree.now u (solution tree.now u) }
    {
        self.dropped.clear();
        drop_changed(tree, &mut self.values, &mut self.dropped, user, &change);
        walk(tree, &mut self.values, &mut self.dropped);
        user.make(tree, change);
    }
}
