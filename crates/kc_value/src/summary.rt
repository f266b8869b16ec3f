//! What is said of a node's value.

ghost use Rattle.std.specs.Prelude.{◌≡◌};
ghost use Rattle.kc_value.specs.Summaries.{is_present};

use crate::value::Value;
use kc_tree::{Tri, UserVal};
use std::marker::Model;

/// What is said of a node: that it has no value, which tristate value it has, or that its value is stored beside. It
/// takes two bytes, since no variant has more than one field.
#[derive(Clone, Copy)]
pub(crate) enum Summary {
    /// There is no value.
    Absent,
    /// The value of a visibility, a mode or a condition.
    Level(Tri),
    /// The value of a bool or tristate symbol for which the `.config` has no line.
    Unwritten(Tri),
    /// The value of one for which the `.config` has a line.
    Written(Tri),
    /// A value that is stored beside: a text, or a selection.
    Stored,
}

impl Summary {
    /// Whether there is a value.
    pub(crate) fn is_present(self) -> bool
        ensures { result ≡ is_present self }
    {
        !matches!(self, Summary::Absent)
    }
}

/// The values that a summary can say with one tristate value. Contracts see that one.
#[derive(Drop)]
pub(crate) struct TriValues {
    pub(crate) level: Value,
    pub(crate) unwritten: Value,
    pub(crate) written: Value,
}

impl Model for TriValues {
    ghost use Rattle.std.specs.Prelude.{◌≡◌, true, false};
    ghost use Rattle.kc_statement.specs.declared.tri.Tri.{Tri};
    ghost use Rattle.kc_tree.specs.declared.user_value.UserVal.TheVariants.{Tri as TriVal};
    ghost use Rattle.kc_value.specs.declared.value.Value.TheVariants.{Tri as Level, Shown};
    ghost use Rattle.kc_value.specs.Assignment.{as_tri};

    ghost Value = { Tri };

    ghost view = { λ s. as_tri s.level };

    ghost invariant = { λ s. (s.level ≡ Level (as_tri s.level)) × (s.unwritten ≡ Shown (TriVal (as_tri s.level)) false) × (s.written ≡ Shown (TriVal (as_tri s.level)) true) };
}

impl TriValues {
    /// Those of a tristate value.
    fn of(tri: Tri) -> TriValues
        ensures { result ≡ tri }
    {
        TriValues {
            level: Value::Tri(tri),
            unwritten: Value::Shown(UserVal::Tri(tri), false),
            written: Value::Shown(UserVal::Tri(tri), true),
        }
    }
}

/// The values that a summary can say, for who wants a value and not a summary. Contracts see nothing of them.
#[derive(Drop)]
pub(crate) struct SaidValues {
    of_no: TriValues,
    of_module: TriValues,
    of_yes: TriValues,
}

impl Model for SaidValues {
    ghost use Rattle.std.specs.Prelude.{◌≡◌, ⊤};
    ghost use Rattle.kc_statement.specs.declared.tri.Tri.TheVariants.{No, Module, Yes};

    ghost Value = { ⊤ };

    ghost view = { λ _. tt };

    ghost invariant = { λ s. (s.of_no ≡ No) × (s.of_module ≡ Module) × (s.of_yes ≡ Yes) };
}

impl SaidValues {
    /// Those of each tristate value.
    pub(crate) fn new() -> SaidValues {
        SaidValues {
            of_no: TriValues::of(Tri::No),
            of_module: TriValues::of(Tri::Module),
            of_yes: TriValues::of(Tri::Yes),
        }
    }

    /// Those of one.
    pub(crate) fn of(&self, tri: Tri) -> &TriValues
        ensures { result.now ≡ tri }
    {
        match tri {
            Tri::No => &self.of_no,
            Tri::Module => &self.of_module,
            Tri::Yes => &self.of_yes,
        }
    }
}
