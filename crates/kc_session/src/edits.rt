//! Edits of the user values. Before each, exactly what it can change is dropped of what is kept.
ghost use Rattle.std.specs.Prelude.{◌≡◌, All, OnOk, OnErr};
ghost use Rattle.std.specs.List.{list_any};
ghost use Rattle.kc_files.specs.DefaultLoading.{HasNoFeeds};
ghost use Rattle.kc_files.specs.LineReading.{IsAssignFor, IsUnfed};
ghost use Rattle.kc_files.specs.Loading.{is_yes, user_after};
ghost use Rattle.kc_session.specs.Keeping.{EditsKept};
ghost use Rattle.kc_session.specs.Merging.{is_assign_to, is_choosing, merged_one};
ghost use Rattle.kc_session.specs.Session.{with_user};
ghost use Rattle.kc_value.specs.Changes.{changed, IsChangeFor};
ghost use Rattle.kc_value.specs.UserValues.{with_chosen};

use crate::session::Session;
use kc_files::{Assign, Load, apply};
use kc_tree::{ChoiceId, SymId, Tree, Tri, UserVal};
use kc_value::{Change, NewUser, User};
use std::alloc::AllocError;

/// The most assignments that a merge makes one after the other. Each is an edit with a walk of its own over what is
/// computed from it, and these come to the same nodes again; more are compared on the whole, with one walk for all.
const MOST_SINGLE_EDITS: usize = 64;

impl Session {
    /// Makes an edit of the user values, and drops exactly what it can change. This takes no memory.
    pub(crate) fn edit(&mut self, change: Change)
        requires { IsChangeFor self.old.session.tree change }
        ensures session { self.new.session ≡ with_user self.old.session (changed self.old.session.tree self.old.session.user change) }
        ensures edits { EditsKept self.old self.new }
    {
        self.kept.edit(&self.tree, &mut self.user, change);
    }

    /// Chooses a member of a choice, or none; nothing changes for a choice that the tree doesn't have.
    #[tactic(auto, using(crate::proofs::Outcomes::chosen_past))]
    pub(crate) fn choose(&mut self, choice: ChoiceId, member: Option<SymId>)
        ensures session { self.new.session ≡ with_user self.old.session (with_chosen self.old.session.user choice member) }
        ensures edits { EditsKept self.old self.new }
    {
        self.facts();
        if (choice.0 as usize) < self.tree.choices().len() {
            self.edit(Change::Chosen(choice, member));
        }
    }

    /// Applies the assignments of a `.config`.
    ///
    /// The error comes where memory is refused; nothing changes then.
    pub(crate) fn load_assigns(
        &mut self,
        load: Load,
        assigns: Vec<Assign>,
    ) -> Result<(), AllocError>
        requires { All (IsAssignFor self.old.session.tree) assigns.items }
        ensures ok { OnOk result (self.new.session
            ≡ with_user self.old.session (user_after self.old.session.tree self.old.session.user load assigns.items)) }
        ensures err { OnErr result (self.new ≡ self.old) }
        ensures edits { EditsKept self.old self.new }
        ensures unfed { All IsUnfed assigns.items → HasNoFeeds self.old.session.user → HasNoFeeds self.new.session.user }
    {
        self.facts();
        match load {
            Load::Replace => self.replace(assigns),
            Load::Merge if assigns.len() > MOST_SINGLE_EDITS => self.merge_many(assigns),
            Load::Merge => {
                self.merge_few(assigns);
                Ok(())
            }
        }
    }

    /// Makes assignments the only user values.
    ///
    /// The error comes where memory is refused for the new user values; nothing changes then.
    fn replace(&mut self, assigns: Vec<Assign>) -> Result<(), AllocError>
        requires { All (IsAssignFor self.old.session.tree) assigns.items }
        ensures ok { OnOk result (self.new.session
            ≡ with_user self.old.session (user_after self.old.session.tree self.old.session.user Load.Replace assigns.items)) }
        ensures err { OnErr result (self.new ≡ self.old) }
        ensures edits { EditsKept self.old self.new }
        ensures unfed { All IsUnfed assigns.items → HasNoFeeds self.old.session.user → HasNoFeeds self.new.session.user }
    {
        self.facts();
        let mut next = User::empty(self.alloc, &self.tree)?;
        apply(&self.tree, &mut next, assigns, Load::Replace);
        self.edit(Change::All(NewUser::Other(next)));
        Ok(())
    }

    /// Adds assignments to a copy of the user values, with which these are compared.
    ///
    /// The error comes where memory is refused for the copy; nothing changes then.
    fn merge_many(&mut self, assigns: Vec<Assign>) -> Result<(), AllocError>
        requires { All (IsAssignFor self.old.session.tree) assigns.items }
        ensures ok { OnOk result (self.new.session
            ≡ with_user self.old.session (user_after self.old.session.tree self.old.session.user Load.Merge assigns.items)) }
        ensures err { OnErr result (self.new ≡ self.old) }
        ensures edits { EditsKept self.old self.new }
        ensures unfed { All IsUnfed assigns.items → HasNoFeeds self.old.session.user → HasNoFeeds self.new.session.user }
    {
        self.facts();
        let mut next = self.user.copy(self.alloc)?;
        apply(&self.tree, &mut next, assigns, Load::Merge);
        self.edit(Change::All(NewUser::Other(next)));
        Ok(())
    }

    /// Adds assignments to the user values: each is an edit of its own, but for those whose place a later one gives. So each
    /// place becomes another at most once, and exactly what changes on the whole is dropped. This takes no memory.
    #[tactic(auto, using(crate::proofs::MergeLaws::merging_first, crate::proofs::MergeLaws::merging_done))]
    fn merge_few(&mut self, mut assigns: Vec<Assign>)
        requires { All (IsAssignFor self.old.session.tree) assigns.items }
        ensures session { self.new.session
            ≡ with_user self.old.session (user_after self.old.session.tree self.old.session.user Load.Merge assigns.items) }
        ensures edits { EditsKept self.old self.new }
        ensures unfed { All IsUnfed assigns.items → HasNoFeeds self.old.session.user → HasNoFeeds self.new.session.user }
    {
        self.facts();
        assigns.reverse();
        while let Some(assign) = assigns.pop() {
            self.merge_one(assign, assigns.as_slice());
        }
    }

    /// Makes one assignment, unless one of the later ones gives its symbol a value, or chooses a member of its choice.
    #[tactic(auto, using(crate::proofs::MergeLaws::assign_fits))]
    fn merge_one(&mut self, assign: Assign, later: &[Assign])
        requires { IsAssignFor self.old.session.tree assign }
        ensures session { self.new.session
            ≡ with_user self.old.session (merged_one self.old.session.tree self.old.session.user assign later.now) }
        ensures edits { EditsKept self.old self.new }
    {
        self.facts();
        match self.tree.choice_of(assign.symbol) {
            Some(choice) => {
                if is_yes(&assign.value) && !is_chosen_in(&self.tree, choice, later) {
                    self.choose(choice, Some(assign.symbol));
                }
            }
            None => {
                if !is_assigned(assign.symbol, later) {
                    self.edit(Change::Value(assign.symbol, Some(assign.value)));
                }
            }
        }
    }
}

/// Whether a value is y.
fn is_yes(value: &UserVal) -> bool
    ensures { result ≡ is_yes value.now }
{
    matches!(value, UserVal::Tri(Tri::Yes))
}

/// Whether one of some assignments gives a symbol a value.
fn is_assigned(symbol: SymId, assigns: &[Assign]) -> bool
    ensures { result ≡ list_any (is_assign_to symbol) assigns.now }
{
    assigns.iter().any(|assign| assign.symbol == symbol)
}

/// Whether an assignment chooses a member of a choice.
fn is_choosing(tree: &Tree, choice: ChoiceId, assign: &Assign) -> bool
    ensures { result ≡ is_choosing tree.now choice assign.now }
{
    match tree.choice_of(assign.symbol) {
        Some(other) => other == choice && is_yes(&assign.value),
        None => false,
    }
}

/// Whether one of some assignments chooses a member of a choice.
fn is_chosen_in(tree: &Tree, choice: ChoiceId, assigns: &[Assign]) -> bool
    ensures { result ≡ list_any (is_choosing tree.now choice) assigns.now }
{
    assigns
        .iter()
        .any(|assign| is_choosing(tree, choice, assign))
}
