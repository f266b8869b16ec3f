//! Tristate values that may be lacking.

ghost use Rattle.std.specs.Prelude.{◌≡◌, Option, None, unwrap_or};
ghost use Rattle.std.specs.Option.{option_or};
ghost use Rattle.kc_statement.specs.declared.tri.Tri.{Tri};
ghost use Rattle.kc_tree.specs.declared.user_value.UserVal.{UserVal};
ghost use Rattle.kc_value.specs.Rule.{user_part};
ghost use Rattle.kc_bounds.specs.Given.{given};
ghost use Rattle.kc_bounds.specs.TriSets.{IsAmong, IsIn};

use crate::tri_set::TriSet;

/// Which values there may be, and whether there may be none.
#[derive(Clone, Copy, Debug, PartialEq, Eq)]
pub(crate) struct TriChoice {
    /// The values.
    pub values: TriSet,
    /// There may be none.
    pub may_lack: bool,
}

impl TriChoice {
    /// There is none.
    pub(crate) fn nothing() -> TriChoice
        ensures { IsAmong result None }
    {
        TriChoice {
            values: TriSet::empty(),
            may_lack: true,
        }
    }

    /// What a default gives whose condition and value have values of these sets.
    pub(crate) fn given(condition: TriSet, value: TriSet) -> TriChoice
        ensures { (c v : Tri) → IsIn condition c → IsIn value v → IsAmong result (given c v) }
    {
        let active = value.and(condition.without_no());
        TriChoice {
            values: active.only_if(condition.has_more()),
            may_lack: condition.no,
        }
    }

    /// What a user may give a symbol, as far as a visibility of this set allows: any value up to it, or none.
    pub(crate) fn of_user(visibility: TriSet) -> TriChoice
        ensures { (v : Tri) (u : Option UserVal) → IsIn visibility v → IsAmong result (user_part v u) }
    {
        TriChoice {
            values: TriSet {
                no: visibility.has_more(),
                module: visibility.has_more(),
                yes: visibility.yes,
            },
            may_lack: true,
        }
    }

    /// The first of two that is there.
    pub(crate) fn or(self, other: TriChoice) -> TriChoice
        ensures { (x y : Option Tri) → IsAmong self x → IsAmong other y → IsAmong result (option_or x y) }
    {
        TriChoice {
            values: self.values.joined(other.values.only_if(self.may_lack)),
            may_lack: self.may_lack && other.may_lack,
        }
    }

    /// The value, or one of a set where there is none.
    pub(crate) fn unwrap_or(self, other: TriSet) -> TriSet
        ensures { (x : Option Tri) (v : Tri) → IsAmong self x → IsIn other v → IsIn result (unwrap_or x v) }
    {
        self.values.joined(other.only_if(self.may_lack))
    }
}
