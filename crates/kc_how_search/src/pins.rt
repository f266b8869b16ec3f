//! The goals that are not to be undone.

use crate::goals::{Goal, is_less};
use kc_tree::{ChoiceId, SymId, Tree, Tri};
use std::alloc::{AllocError, Global};
use std::collections::BTreeMap;

/// What is pinned of a symbol.
#[derive(Clone, Copy)]
struct SymbolPins {
    /// The value is at least this.
    least: Tri,
    /// It is at most this.
    most: Tri,
    /// It is the text of this place.
    text: Option<usize>,
}

impl SymbolPins {
    /// Nothing.
    fn none() -> SymbolPins {
        SymbolPins {
            least: Tri::No,
            most: Tri::Yes,
            text: None,
        }
    }

    /// The same with a value that it is at least.
    fn at_least(self, bound: Tri) -> SymbolPins {
        SymbolPins {
            least: self.least.or(bound),
            ..self
        }
    }

    /// The same with a value that it is at most.
    fn at_most(self, bound: Tri) -> SymbolPins {
        SymbolPins {
            most: self.most.and(bound),
            ..self
        }
    }

    /// The same with the place of a text.
    fn with_text(self, place: usize) -> SymbolPins {
        SymbolPins {
            text: Some(place),
            ..self
        }
    }
}

/// What is pinned of a choice.
#[derive(Clone, Copy)]
struct ChoicePins {
    is_open: bool,
    is_closed: bool,
    /// The member that is to be y.
    member: Option<SymId>,
}

impl ChoicePins {
    /// Nothing.
    fn none() -> ChoicePins {
        ChoicePins {
            is_open: false,
            is_closed: false,
            member: None,
        }
    }
}

/// The goals that are not to be undone, by symbols and by choices.
#[derive(Drop)]
pub(crate) struct Pins {
    symbols: BTreeMap<u32, SymbolPins>,
    choices: BTreeMap<u32, ChoicePins>,
}

impl Pins {
    /// None.
    pub fn new(alloc: Global) -> Pins {
        Pins {
            symbols: BTreeMap::new(alloc),
            choices: BTreeMap::new(alloc),
        }
    }

    /// Removes all.
    pub fn clear(&mut self) {
        self.symbols.clear();
        self.choices.clear();
    }

    /// Those of a symbol.
    fn of_symbol(&self, symbol: SymId) -> SymbolPins {
        match self.symbols.get(&symbol.0) {
            Some(pins) => *pins,
            None => SymbolPins::none(),
        }
    }

    /// Those of a choice.
    fn of_choice(&self, choice: ChoiceId) -> ChoicePins {
        match self.choices.get(&choice.0) {
            Some(pins) => *pins,
            None => ChoicePins::none(),
        }
    }

    /// Whether a goal is against one of them.
    pub fn exclude(&self, tree: &Tree, goal: Goal<'_>) -> bool {
        match goal {
            Goal::AtLeast(symbol, bound) => {
                is_less(self.of_symbol(symbol).most, bound)
                    || !bound.is_no() && self.has_other_member(tree, symbol)
            }
            Goal::AtMost(symbol, bound) => is_less(bound, self.of_symbol(symbol).least),
            Goal::Text(symbol, place) => match self.of_symbol(symbol).text {
                Some(other) => other != place,
                None => false,
            },
            Goal::Open(choice) => self.of_choice(choice).is_closed,
            Goal::Closed(choice) => self.of_choice(choice).is_open,
            Goal::ExprAtLeast(_, _) | Goal::ExprAtMost(_, _) | Goal::ReverseAtMost(_, _) => false,
        }
    }

    /// Whether a symbol is a member of a choice with another member that is pinned to be y.
    fn has_other_member(&self, tree: &Tree, symbol: SymId) -> bool {
        match tree.choice_of(symbol) {
            Some(choice) => match self.of_choice(choice).member {
                Some(member) => member != symbol,
                None => false,
            },
            None => false,
        }
    }

    /// Pins a goal, of those that are about a symbol or a choice. The error comes where memory is refused.
    pub fn add(&mut self, tree: &Tree, goal: Goal<'_>) -> Result<(), AllocError> {
        match goal {
            Goal::AtLeast(symbol, bound) => {
                let pins = self.of_symbol(symbol).at_least(bound);
                self.symbols.insert(symbol.0, pins)?;
                self.add_member(tree, symbol, bound)
            }
            Goal::AtMost(symbol, bound) => {
                let pins = self.of_symbol(symbol).at_most(bound);
                self.symbols.insert(symbol.0, pins)?;
                Ok(())
            }
            Goal::Text(symbol, place) => {
                let pins = self.of_symbol(symbol).with_text(place);
                self.symbols.insert(symbol.0, pins)?;
                Ok(())
            }
            Goal::Open(choice) => self.add_mode(choice, true),
            Goal::Closed(choice) => self.add_mode(choice, false),
            Goal::ExprAtLeast(_, _) | Goal::ExprAtMost(_, _) | Goal::ReverseAtMost(_, _) => Ok(()),
        }
    }

    /// Pins a member of a choice that is to be y. The error comes where memory is refused.
    fn add_member(&mut self, tree: &Tree, symbol: SymId, bound: Tri) -> Result<(), AllocError> {
        if bound.is_no() {
            return Ok(());
        }
        if let Some(choice) = tree.choice_of(symbol) {
            let pins = ChoicePins {
                member: Some(symbol),
                ..self.of_choice(choice)
            };
            self.choices.insert(choice.0, pins)?;
        }
        Ok(())
    }

    /// Pins that a choice can be made, or can't be. The error comes where memory is refused.
    fn add_mode(&mut self, choice: ChoiceId, is_open: bool) -> Result<(), AllocError> {
        let pins = self.of_choice(choice);
        let pins = ChoicePins {
            is_open: pins.is_open || is_open,
            is_closed: pins.is_closed || !is_open,
            ..pins
        };
        self.choices.insert(choice.0, pins)?;
        Ok(())
    }
}
