//! One edit of the user values.
ghost use Rattle.std.specs.Prelude.{◌≡◌, Some, true};
ghost use Rattle.kc_tree.specs.declared.node.Node.TheVariants.{Val};
ghost use Rattle.kc_tree.specs.Fits.{fits};
ghost use Rattle.kc_tree.specs.Nodes.{IsNodeOf};
ghost use Rattle.kc_value.specs.AllValues.{all_given};
ghost use Rattle.kc_value.specs.Changes.{changed, IsChangeFor};
ghost use Rattle.kc_value.specs.UserValues.{IsUserFor, with_value};

use crate::all_values::{AllValue, value_given};
use crate::user::User;
use kc_tree::{ChoiceId, SymId, Tree, UserVal};

/// An edit of the user values: what it makes another, and what that is afterwards. All else stays.
#[derive(Debug, Drop)]
pub enum Change {
    /// A symbol that is no member of a choice has this user value, or none.
    Value(SymId, Option<UserVal>),
    /// This member of a choice is chosen, or none.
    Chosen(ChoiceId, Option<SymId>),
    /// All user values and chosen members are others.
    All(NewUser),
}

/// What all user values and chosen members become.
#[derive(Debug, Drop)]
pub enum NewUser {
    /// There are none.
    Nothing,
    /// Each bool and each tristate that is no member of a choice is given a value, and nothing else.
    EachTri(AllValue),
    /// They are those of this user.
    Other(User),
}

impl User {
    /// Gives a symbol a value that it takes, or none.
    fn give(&mut self, tree: &Tree, symbol: SymId, value: Option<UserVal>)
        requires user { IsUserFor tree.now self.old }
        requires inside { IsNodeOf tree.now (Val symbol) }
        requires fits { (v : UserVal) → value ≡ Some v → fits tree.now symbol v ≡ true }
        ensures values { self.new ≡ with_value self.old symbol value }
        ensures user { IsUserFor tree.now self.new }
    {
        match value {
            Some(value) => self.set(symbol, value),
            None => self.unset(symbol),
        }
    }

    /// Gives each bool and each tristate a value that is no member of a choice, and removes all other values and all
    /// chosen members.
    #[tactic(auto, using(crate::proofs::AllValueLaws::given_none, crate::proofs::AllValueLaws::given_more, crate::proofs::AllValueLaws::given_all))]
    fn give_each(&mut self, tree: &Tree, all: AllValue)
        requires user { IsUserFor tree.now self.old }
        ensures values { self.new ≡ all_given tree.now all }
        ensures user { IsUserFor tree.now self.new }
    {
        self.reset();
        for number in 0..tree.symbols().len() {
            let symbol = SymId(number as u32);
            self.give(tree, symbol, value_given(tree, all, symbol));
        }
    }

    /// Makes an edit. This takes no memory.
    pub(crate) fn make(&mut self, tree: &Tree, change: Change)
        requires user { IsUserFor tree.now self.old }
        requires change { IsChangeFor tree.now change }
        ensures values { self.new ≡ changed tree.now self.old change }
        ensures user { IsUserFor tree.now self.new }
    {
        match change {
            Change::Value(symbol, value) => self.give(tree, symbol, value),
            Change::Chosen(choice, member) => self.choose(choice, member),
            Change::All(NewUser::Nothing) => self.reset(),
            Change::All(NewUser::EachTri(all)) => self.give_each(tree, all),
            Change::All(NewUser::Other(user)) => *self = user,
        }
    }
}
