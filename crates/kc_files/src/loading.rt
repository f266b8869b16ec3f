//! The assignments of a `.config` become user values.

ghost use Rattle.std.specs.Prelude.{◌≡◌, All};
ghost use Rattle.kc_outline.specs.TreeValue.{TreeValue};
ghost use Rattle.kc_value.specs.UserValues.{IsUserFor, UserValues, with_chosen};
ghost use Rattle.kc_files.specs.DefaultLoading.{HasNoFeeds};
ghost use Rattle.kc_files.specs.LineReading.{IsAssignFor, IsUnfed};
ghost use Rattle.kc_files.specs.Loading.{is_yes, user_after};
ghost use Rattle.kc_files.specs.LoadingSteps.{with_loaded, left_by};

use crate::assign::Assign;
use kc_tree::{ChoiceId, SymId, Tree, Tri, UserVal};
use kc_value::User;

/// What becomes of the user values that were there before.
#[derive(Clone, Copy, Debug, PartialEq, Eq)]
pub enum Load {
    /// They are removed, and so are chosen members.
    Replace,
    /// They are kept where nothing is assigned.
    Merge,
}

/// Whether a value is y.
pub(crate) fn is_yes(value: &UserVal) -> bool
    ensures { result ≡ is_yes value.now }
{
    matches!(value, UserVal::Tri(Tri::Yes))
}

/// Chooses a member of a choice, or none; nothing changes for a choice that the tree doesn't have.
#[tactic(auto, using(crate::proofs::LoadingLaws::chosen_outside))]
fn choose(tree: &Tree, user: &mut User, choice: ChoiceId, member: Option<SymId>)
    requires user { IsUserFor tree.now user.old }
    ensures values { user.new ≡ with_chosen user.old choice member }
    ensures user { IsUserFor tree.now user.new }
{
    if (choice.0 as usize) < tree.choices().len() {
        user.choose(choice, member);
    }
}

/// Applies one assignment: a member of a choice that is y is chosen, one that is n changes nothing, and any other symbol
/// has the value.
#[tactic(auto, using(crate::proofs::LoadingLaws::assign_fits))]
fn apply_one(tree: &Tree, user: &mut User, assign: Assign)
    requires user { IsUserFor tree.now user.old }
    requires assign { IsAssignFor tree.now assign }
    ensures values { user.new ≡ with_loaded tree.now user.old assign }
    ensures user { IsUserFor tree.now user.new }
{
    match tree.choice_of(assign.symbol) {
        Some(choice) => {
            if is_yes(&assign.value) {
                choose(tree, user, choice, Some(assign.symbol));
            }
        }
        None => user.set(assign.symbol, assign.value),
    }
}

/// Removes what the load does not keep.
fn begin(user: &mut User, load: Load)
    ensures values { user.new ≡ left_by load user.old }
    ensures user { (t : TreeValue) → IsUserFor t user.old → IsUserFor t user.new }
{
    match load {
        Load::Replace => user.reset(),
        Load::Merge => {}
    }
}

/// Makes assignments the user values of a tree, in their order, which takes no memory: a symbol has the value of the last
/// one to it, and a choice the member that the last one sets to y among its members. A member that is set to n leaves its
/// choice as it is. Where no text of the user has a line feed, none has one after assignments without.
pub fn apply(tree: &Tree, user: &mut User, assigns: Vec<Assign>, load: Load)
    requires user { IsUserFor tree.now user.old }
    requires assigns { All (IsAssignFor tree.now) assigns.items }
    ensures values { user.new ≡ user_after tree.now user.old load assigns.items }
    ensures user { IsUserFor tree.now user.new }
    ensures unfed { HasNoFeeds user.old → All IsUnfed assigns.items → HasNoFeeds user.new }
    ensures any_unfed { (u : UserValues) → HasNoFeeds u → All IsUnfed assigns.items
        → HasNoFeeds (user_after tree.now u load assigns.items) }
{
    begin(user, load);
    for assign in assigns {
        apply_one(tree, user, assign);
    }
}
