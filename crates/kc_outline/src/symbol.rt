ghost use Rattle.std.specs.Prelude.{◌≡◌, is_some, OnOk, slice_get};
ghost use Rattle.kc_outline.specs.TreeValue.{kind_of};
ghost use Rattle.kc_outline.specs.Adding.{new_symbol, symbol_that_selects, symbol_with_modules, symbol_with_type, symbol_yes_in_allnoconfig, standing_in, with_definition, with_selection, with_implication};

use crate::id::ChoiceId;
use crate::room::push_one;
use kc_statement::{Expr, SymId, SymbolType};
use smallvec::SmallVec;
use std::alloc::{AllocError, Global};
use std::marker::Model;

/// A `select` or `imply` of a symbol. It is kept at the symbol that it names.
#[derive(Debug, Drop)]
pub struct Reverse {
    /// The symbol whose definition has the line.
    pub by: SymId,
    /// The number of that definition, whose dependencies are part of the condition.
    pub definition: usize,
    /// The number of the line, from 0, among the `select` lines of that definition, or among its `imply` lines, whether
    /// what they name is defined or not.
    pub number: usize,
    /// The condition after `if`.
    pub condition: Option<Expr>,
}

/// A symbol without its name: its types, the choice that it is a member of, its definitions, and the `select` and
/// `imply` lines that name it. Most have one definition, whose number takes no memory of its own. Contracts see the
/// record of its parts.
#[derive(Debug, Drop)]
pub struct Symbol {
    pub(crate) types: SmallVec<SymbolType, 2>,
    pub(crate) choice: Option<ChoiceId>,
    pub(crate) definitions: SmallVec<usize, 2>,
    pub(crate) selected: Vec<Reverse>,
    pub(crate) implied: Vec<Reverse>,
    pub(crate) has_selections: bool,
    pub(crate) has_modules: bool,
    pub(crate) is_yes_in_allnoconfig: bool,
}

impl Model for Symbol {
    ghost use Rattle.kc_outline.specs.TreeValue.{SymbolValue};
    ghost use Rattle.kc_statement.specs.contracts.expr.Expr as expr;
    ghost use Rattle.std.specs.Coded.{codes};

    ghost Value = { SymbolValue };

    ghost coded = { Prim.hlevel (codes, expr.the_row.coded) };

    ghost view = { λ s. record { types = s.types.items; choice = s.choice; definitions = s.definitions.items; selected = s.selected.items; implied = s.implied.items; has_selections = s.has_selections; has_modules = s.has_modules; is_yes_in_allnoconfig = s.is_yes_in_allnoconfig } };
}

impl Symbol {
    /// A symbol before any line says something of it.
    pub(crate) fn new(alloc: Global) -> Symbol
        ensures { result ≡ new_symbol }
    {
        Symbol {
            types: SmallVec::new(alloc),
            choice: None,
            definitions: SmallVec::new(alloc),
            selected: Vec::new(alloc),
            implied: Vec::new(alloc),
            has_selections: false,
            has_modules: false,
            is_yes_in_allnoconfig: false,
        }
    }

    /// Adds a type that a line gives it.
    pub(crate) fn add_type(&mut self, kind: SymbolType) -> Result<(), AllocError>
        ensures { OnOk result (self.new ≡ symbol_with_type kind self.old) }
    {
        self.types.push(kind)?;
        Ok(())
    }

    /// Adds the choice that a definition is in: the first one stays.
    pub(crate) fn add_choice(&mut self, choice: Option<ChoiceId>)
        ensures { self.new ≡ standing_in choice self.old }
    {
        self.choice = self.choice.or(choice);
    }

    /// Adds the number of a definition.
    pub(crate) fn add_definition(&mut self, number: usize) -> Result<(), AllocError>
        ensures { OnOk result (self.new ≡ with_definition number self.old) }
    {
        self.definitions.push(number)?;
        Ok(())
    }

    /// Adds a `select` line that names it.
    pub(crate) fn add_selection(&mut self, line: Reverse) -> Result<(), AllocError>
        ensures { OnOk result (self.new ≡ with_selection line self.old) }
    {
        push_one(&mut self.selected, line)
    }

    /// Adds an `imply` line that names it.
    pub(crate) fn add_implication(&mut self, line: Reverse) -> Result<(), AllocError>
        ensures { OnOk result (self.new ≡ with_implication line self.old) }
    {
        push_one(&mut self.implied, line)
    }

    /// Adds a `select` or an `imply` line of its own.
    pub(crate) fn add_own_selection(&mut self)
        ensures { self.new ≡ symbol_that_selects self.old }
    {
        self.has_selections = true;
    }

    /// Adds a `modules` line.
    pub(crate) fn add_modules(&mut self)
        ensures { self.new ≡ symbol_with_modules self.old }
    {
        self.has_modules = true;
    }

    /// Adds an `option allnoconfig_y` line.
    pub(crate) fn add_yes_in_allnoconfig(&mut self)
        ensures { self.new ≡ symbol_yes_in_allnoconfig self.old }
    {
        self.is_yes_in_allnoconfig = true;
    }

    /// The type: the first that a line gives it.
    pub fn kind(&self) -> SymbolType
        ensures { result ≡ kind_of self.now }
    {
        match self.types.as_slice().first() {
            Some(kind) => *kind,
            None => SymbolType::Bool,
        }
    }

    /// Whether a line gives it a type.
    pub fn has_type(&self) -> bool
        ensures { result ≡ is_some (slice_get self.now.types 0) }
    {
        !self.types.is_empty()
    }

    /// The types that lines give it, in the order of the lines.
    pub fn types(&self) -> &[SymbolType]
        ensures { result.now ≡ self.now.types }
    {
        self.types.as_slice()
    }

    /// Whether it has `select` or `imply` lines of its own.
    pub fn has_selections(&self) -> bool
        ensures { result ≡ self.now.has_selections }
    {
        self.has_selections
    }

    /// Whether it has a `modules` line.
    pub fn has_modules(&self) -> bool
        ensures { result ≡ self.now.has_modules }
    {
        self.has_modules
    }

    /// The choice that it is a member of: the first that a definition of it is in.
    pub fn choice(&self) -> Option<ChoiceId>
        ensures { result ≡ self.now.choice }
    {
        self.choice
    }

    /// The numbers of its definitions, in the order of their lines.
    pub fn definitions(&self) -> &[usize]
        ensures { result.now ≡ self.now.definitions }
    {
        self.definitions.as_slice()
    }

    /// The `select` lines that name it, in their order.
    pub fn selected(&self) -> &[Reverse]
        ensures { result.now ≡ self.now.selected }
    {
        self.selected.as_slice()
    }

    /// The `imply` lines that name it, in their order.
    pub fn implied(&self) -> &[Reverse]
        ensures { result.now ≡ self.now.implied }
    {
        self.implied.as_slice()
    }

    /// Whether a line `option allnoconfig_y` names it.
    pub fn is_yes_in_allnoconfig(&self) -> bool
        ensures { result ≡ self.now.is_yes_in_allnoconfig }
    {
        self.is_yes_in_allnoconfig
    }
}
