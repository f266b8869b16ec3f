//! What the objects of the menu tree are made from.

ghost use Rattle.std.specs.Prelude.{◌≡◌};

use crate::help::Help;
use kc_facts::View;
use kc_lines::LineIndex;
use std::marker::Model;

/// What the objects of the menu tree are made from: a tree with its values, which line each part comes from,
/// and whether help texts are wanted. Contracts see the record of them.
#[derive(Drop)]
pub(crate) struct MenuInputs<'m> {
    view: &'m View<'m>,
    index: &'m LineIndex<'m, 'm>,
    help: Help,
}

impl<'m> Model for MenuInputs<'m> {
    ghost use Rattle.kc_menu.specs.Inputs.{InputsValue};
    ghost use Rattle.kc_statement.specs.contracts.expr.Expr as expr;
    ghost use Rattle.std.specs.Coded.{codes};

    ghost Value = { InputsValue };

    ghost coded = { Prim.hlevel (codes, expr.the_row.coded) };

    ghost view = { λ m. record { view = m.view.now; lines = m.index.now; help = m.help } };
}

impl<'m> MenuInputs<'m> {
    /// Of these.
    pub(crate) fn new(
        view: &'m View<'m>,
        index: &'m LineIndex<'m, 'm>,
        help: Help,
    ) -> MenuInputs<'m>
        ensures { result ≡ record { view = view.entry.now; lines = index.entry.now; help = help } }
    {
        MenuInputs { view, index, help }
    }

    /// The tree with its values.
    pub(crate) fn view(&self) -> &'m View<'m>
        ensures { result.now ≡ self.now.view }
    {
        self.view
    }

    /// Which line each part of the tree comes from.
    pub(crate) fn index(&self) -> &'m LineIndex<'m, 'm>
        ensures { result.now ≡ self.now.lines }
    {
        self.index
    }

    /// Whether help texts are wanted.
    pub(crate) fn help(&self) -> Help
        ensures { result ≡ self.now.help }
    {
        self.help
    }
}
