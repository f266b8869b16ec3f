//! The ways to make a comparison hold, or not.

use crate::finder::Finder;
use crate::goals::{Deed, Goal, Way};
use kc_tree::{
    Comparison, Definition, Node, Operands, SymId, SymbolType, Term, Tri, lone_term, numeral,
};
use std::alloc::AllocError;
use std::cmp::Ordering;

/// A comparison that is to hold, or not, by changing the symbol on one side.
#[derive(Clone, Copy)]
struct Wanted {
    comparison: Comparison,
    /// Whether the symbol that changes is on the left.
    is_left: bool,
    is_true: bool,
}

/// A side of a comparison: its text, and the number that it counts, if it counts.
#[derive(Drop)]
struct Side {
    text: String,
    number: Option<i128>,
}

/// The number that a text without a type counts in a comparison, if it counts.
fn number_of(text: &str) -> Option<i128> {
    match text {
        "n" => Some(0),
        "m" => Some(1),
        "y" => Some(2),
        _ => match numeral(SymbolType::Int, text) {
            Some(number) => Some(number),
            None if text.starts_with("0x") => numeral(SymbolType::Hex, text),
            None => None,
        },
    }
}

/// The number that a text of a type counts in a comparison, if it counts.
fn number_in(kind: SymbolType, text: &str) -> Option<i128> {
    match kind {
        SymbolType::Int | SymbolType::Hex => numeral(kind, text),
        SymbolType::Bool | SymbolType::Tristate | SymbolType::String => number_of(text),
    }
}

/// How two texts are ordered, by the numbers that they count: as numbers where both count.
fn order_of(
    left: &str,
    left_number: Option<i128>,
    right: &str,
    right_number: Option<i128>,
) -> Ordering {
    match (left_number, right_number) {
        (Some(first), Some(second)) => first.cmp(&second),
        _ => left.cmp(right),
    }
}

impl Wanted {
    /// Whether it is as wanted, where the side that changes has this text of a type.
    fn is_met(self, kind: SymbolType, own: &str, other: &Side) -> bool {
        let number = number_in(kind, own);
        let order = if self.is_left {
            order_of(own, number, other.text.as_str(), other.number)
        } else {
            order_of(other.text.as_str(), other.number, own, number)
        };
        let is_true = match self.comparison {
            Comparison::Equal => order.is_eq(),
            Comparison::NotEqual => order.is_ne(),
            Comparison::Less => order.is_lt(),
            Comparison::LessOrEqual => order.is_le(),
            Comparison::Greater => order.is_gt(),
            Comparison::GreaterOrEqual => order.is_ge(),
        };
        is_true == self.is_true
    }
}

impl<'t> Finder<'t> {
    /// The text of a term now. The error comes where memory is refused.
    pub fn term_text(&mut self, term: &Term) -> Result<String, AllocError> {
        match term {
            Term::Tri(tri) => String::from_str(self.alloc, tri.letter()),
            Term::Text(text) | Term::Undefined(text) => {
                String::from_str(self.alloc, text.as_str())
            }
            Term::Symbol(symbol) => {
                self.trial.fill_symbol(*symbol)?;
                match self.trial.known().get(Node::Val(*symbol)) {
                    Some(value) => String::from_str(self.alloc, value.as_text()),
                    None => Ok(String::new(self.alloc)),
                }
            }
        }
    }

    /// A side of a comparison now. The error comes where memory is refused.
    fn side_of(&mut self, term: &Term) -> Result<Side, AllocError> {
        let text = self.term_text(term)?;
        let number = match term {
            Term::Symbol(symbol) => number_in(self.tree.symbol_type(*symbol), text.as_str()),
            Term::Tri(_) | Term::Text(_) | Term::Undefined(_) => number_of(text.as_str()),
        };
        Ok(Side { text, number })
    }

    /// Adds the ways by which a comparison holds, or not. The error comes where memory is refused.
    pub fn add_comparison(
        &mut self,
        ways: &mut Vec<Way<'t>>,
        comparison: Comparison,
        operands: &'t Operands,
        is_true: bool,
    ) -> Result<(), AllocError> {
        let left = self.side_of(&operands.left)?;
        let right = self.side_of(&operands.right)?;
        let wanted = Wanted {
            comparison,
            is_left: true,
            is_true,
        };
        self.add_side(ways, wanted, &operands.left, &right)?;
        let wanted = Wanted {
            comparison,
            is_left: false,
            is_true,
        };
        self.add_side(ways, wanted, &operands.right, &left)
    }

    /// Adds the ways by which one side changes, where it is a symbol. The error comes where memory is refused.
    fn add_side(
        &mut self,
        ways: &mut Vec<Way<'t>>,
        wanted: Wanted,
        term: &Term,
        other: &Side,
    ) -> Result<(), AllocError> {
        let Term::Symbol(symbol) = term else {
            return Ok(());
        };
        match self.tree.symbol_type(*symbol) {
            SymbolType::Bool => self.add_letters(
                ways,
                wanted,
                *symbol,
                &[Tri::No, Tri::Yes],
                other,
            ),
            SymbolType::Tristate => {
                let all = [Tri::No, Tri::Module, Tri::Yes];
                self.add_letters(ways, wanted, *symbol, &all, other)
            }
            SymbolType::String | SymbolType::Int | SymbolType::Hex => {
                self.add_texts(ways, wanted, *symbol, other)
            }
        }
    }

    /// Adds a way for each of some values of a bool or a tristate that is as wanted. The error comes where memory is
    /// refused.
    fn add_letters(
        &self,
        ways: &mut Vec<Way<'t>>,
        wanted: Wanted,
        symbol: SymId,
        values: &[Tri],
        other: &Side,
    ) -> Result<(), AllocError> {
        for value in values {
            if wanted.is_met(SymbolType::Bool, value.letter(), other) {
                let mut goals = Vec::new(self.alloc);
                self.add_exactly(&mut goals, symbol, *value)?;
                self.add_way(ways, goals, Deed::Nothing, 0)?;
            }
        }
        Ok(())
    }

    /// Adds a way for each of some texts that is as wanted. The error comes where memory is refused.
    fn add_texts(
        &mut self,
        ways: &mut Vec<Way<'t>>,
        wanted: Wanted,
        symbol: SymId,
        other: &Side,
    ) -> Result<(), AllocError> {
        self.add_text(ways, wanted, symbol, other.text.as_str(), other)?;
        if let Some(number) = other.number {
            let next = self.spelled(symbol, number.saturating_add(1))?;
            self.add_text(ways, wanted, symbol, next.as_str(), other)?;
            let last = self.spelled(symbol, number.saturating_sub(1))?;
            self.add_text(ways, wanted, symbol, last.as_str(), other)?;
        }
        for text in ["", "0", "1"] {
            self.add_text(ways, wanted, symbol, text, other)?;
        }
        self.add_default_texts(ways, wanted, symbol, other)
    }

    /// A number as a symbol spells it. The error comes where memory is refused.
    pub fn spelled(&self, symbol: SymId, number: i128) -> Result<String, AllocError> {
        match (self.tree.symbol_type(symbol), u64::try_from(number)) {
            (SymbolType::Hex, Ok(number)) => format!(in self.alloc; "0x{number:x}"),
            _ => format!(in self.alloc; "{number}"),
        }
    }

    /// Adds a way for each text of a symbol's own defaults that is as wanted. The error comes where memory is refused.
    fn add_default_texts(
        &mut self,
        ways: &mut Vec<Way<'t>>,
        wanted: Wanted,
        symbol: SymId,
        other: &Side,
    ) -> Result<(), AllocError> {
        let Some(found) = self.symbol(symbol) else {
            return Ok(());
        };
        let tree = self.tree;
        for number in found.definitions() {
            if let Some(definition) = tree.definitions().get(*number) {
                self.add_texts_in(ways, wanted, symbol, definition, other)?;
            }
        }
        Ok(())
    }

    /// Adds a way for each text of a default of a symbol's definition that is as wanted. The error comes where memory is
    /// refused.
    fn add_texts_in(
        &mut self,
        ways: &mut Vec<Way<'t>>,
        wanted: Wanted,
        symbol: SymId,
        definition: &Definition,
        other: &Side,
    ) -> Result<(), AllocError> {
        for default in definition.defaults() {
            if let Some(term) = lone_term(&default.value) {
                let text = self.term_text(term)?;
                self.add_text(ways, wanted, symbol, text.as_str(), other)?;
            }
        }
        Ok(())
    }

    /// Adds the way by a text, if it is one of the symbol's type and as wanted. The error comes where memory is refused.
    fn add_text(
        &mut self,
        ways: &mut Vec<Way<'t>>,
        wanted: Wanted,
        symbol: SymId,
        text: &str,
        other: &Side,
    ) -> Result<(), AllocError> {
        let kind = self.tree.symbol_type(symbol);
        if !matches!(kind, SymbolType::String)
            && !text.is_empty()
            && numeral(kind, text).is_none()
        {
            return Ok(());
        }
        if !self.has_room() || !wanted.is_met(kind, text, other) {
            return Ok(());
        }
        let place = self.place_of(text)?;
        let mut goals = Vec::new(self.alloc);
        goals.push(Goal::Text(symbol, place))?;
        self.add_way(ways, goals, Deed::Nothing, 0)
    }
}
