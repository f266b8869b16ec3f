//! What a user gave and chose.
ghost use Rattle.std.specs.Prelude.{◌≡◌, ◌<◌, length, replicate, None, Some, true, IfOk};
ghost use Rattle.std.specs.Option.{option_copied};
ghost use Rattle.kc_outline.specs.TreeValue.{TreeValue};
ghost use Rattle.kc_tree.specs.Fits.{fits};
ghost use Rattle.kc_value.specs.UserValues.{UserValues, IsUserFor, no_values, with_value, with_chosen, user_value, chosen_in};
ghost use Rattle.kc_value.specs.Solution.{solution, IsOnlySolution};

use crate::given_values::GivenValues;
use kc_tree::{ChoiceId, SymId, Tree, UserVal};
use std::alloc::{AllocError, Global};
use std::marker::Model;

/// The values that a user gave to the symbols of a tree, and the members that he chose. Contracts see a value or none
/// for each symbol, and a member or none for each choice.
///
/// The values belong to a tree: each symbol of it has a place, and takes the value that it was given, as `Tree::fits`
/// says.
#[derive(Debug, Drop)]
pub struct User {
    values: GivenValues,
    chosen: Vec<Option<SymId>>,
}

impl Model for User {
    ghost use Rattle.kc_value.specs.UserValues.{UserValues};

    ghost Value = { UserValues };

    ghost view = { λ u. record { values = u.values; chosen = u.chosen.items } };
}

impl User {
    /// No values and no chosen members, with room for one of each, so that setting one takes no memory. Whatever is set
    /// later, the tree has one solution, and no other.
    ///
    /// The error comes where memory is refused for that room.
    pub fn empty(alloc: Global, tree: &Tree) -> Result<User, AllocError>
        ensures values { IfOk result (λ u. u ≡ no_values tree.now) }
        ensures user { IfOk result (IsUserFor tree.now) }
        ensures solved { (u : UserValues) → IsOnlySolution tree.now u (solution tree.now u) }
    {
        Ok(User {
            values: GivenValues::empty(alloc, tree.symbols().len())?,
            chosen: vec![in alloc; None; tree.choices().len()]?,
        })
    }

    /// Gives a symbol of the tree a value that it takes, in place of the one that it has; those of all others stay. It
    /// is kept, whether the symbol is visible or not, until it is set again or removed.
    #[tactic(auto, using(crate::proofs::UserLemmas::value_room))]
    pub fn set(&mut self, symbol: SymId, value: UserVal)
        requires fits { (t : TreeValue) × IsUserFor t self.old × (fits t symbol value ≡ true) }
        ensures values { self.new ≡ with_value self.old symbol (Some value) }
        ensures user { (t : TreeValue) → IsUserFor t self.old → fits t symbol value ≡ true → IsUserFor t self.new }
    {
        self.values.set(symbol.0 as usize, Some(value));
    }

    /// Takes the value of a symbol of the tree away, if it has one; those of all others stay.
    #[tactic(auto, using(crate::proofs::UserLemmas::none_kept))]
    pub fn unset(&mut self, symbol: SymId)
        requires { symbol.0 < length self.old.values }
        ensures values { self.new ≡ with_value self.old symbol None }
        ensures user { (t : TreeValue) → IsUserFor t self.old → IsUserFor t self.new }
    {
        self.values.set(symbol.0 as usize, None);
    }

    /// Takes all values and chosen members away.
    #[tactic(auto, using(crate::proofs::UserLemmas::all_removed, crate::proofs::UserLemmas::empty_fits))]
    pub fn reset(&mut self)
        ensures values { self.new.values ≡ replicate (length self.old.values) None }
        ensures chosen { self.new.chosen ≡ replicate (length self.old.chosen) None }
        ensures none { (t : TreeValue) → IsUserFor t self.old → self.new ≡ no_values t }
        ensures user { (t : TreeValue) → IsUserFor t self.old → IsUserFor t self.new }
    {
        self.values.clear();
        self.chosen.fill(None);
    }

    /// Chooses a member of a choice of the tree, or none, in place of the one that was chosen; all else stays.
    #[tactic(auto, using(crate::proofs::UserLemmas::member_kept))]
    pub fn choose(&mut self, choice: ChoiceId, member: Option<SymId>)
        requires { choice.0 < length self.old.chosen }
        ensures values { self.new ≡ with_chosen self.old choice member }
        ensures user { (t : TreeValue) → IsUserFor t self.old → IsUserFor t self.new }
    {
        self.chosen[choice.0 as usize] = member;
    }

    /// The member that the user chose, none for a choice that the tree doesn't have.
    pub fn chosen(&self, choice: ChoiceId) -> Option<SymId>
        ensures { result ≡ chosen_in self.now choice }
    {
        match self.chosen.get(choice.0 as usize) {
            Some(Some(member)) => Some(*member),
            Some(None) | None => None,
        }
    }

    /// The value that the user gave to a symbol, none for one that the tree doesn't have.
    pub fn get(&self, symbol: SymId) -> Option<&UserVal>
        ensures { option_copied result ≡ user_value self.now symbol }
    {
        self.values.get(symbol.0 as usize)
    }

    /// A copy. The error comes where memory is refused.
    pub fn copy(&self, alloc: Global) -> Result<User, AllocError>
        ensures { IfOk result (λ u. u ≡ self.now) }
    {
        Ok(User {
            values: self.values.copy(alloc)?,
            chosen: Vec::from_slice(alloc, self.chosen.as_slice())?,
        })
    }
}
