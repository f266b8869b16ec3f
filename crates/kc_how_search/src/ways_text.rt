//! The ways to give a string, an int or a hex a text.

use crate::finder::Finder;
use crate::goals::{Deed, Goal, Way};
use crate::weights::{DEFAULT_FOR_PROMPT, LOW_DEPENDENCY, TEXT_LINE};
use kc_tree::{DefaultValue, Definition, SymId, Symbol, SymbolType, Term, Tri, lone_term, numeral};
use kc_value::{active_range, dependency_factors};
use std::alloc::AllocError;

impl<'t> Finder<'t> {
    /// The text of a place. The error comes where memory is refused.
    fn text_at(&self, place: usize) -> Result<String, AllocError> {
        match self.texts.get(place) {
            Some(text) => String::from_str(self.alloc, text.as_str()),
            None => Ok(String::new(self.alloc)),
        }
    }

    /// The ways by which a symbol has the text of a place. The error comes where memory is refused.
    pub fn ways_text(&mut self, id: SymId, place: usize) -> Result<Vec<Way<'t>>, AllocError> {
        let mut ways = Vec::new(self.alloc);
        let Some(symbol) = self.symbol(id) else {
            return Ok(ways);
        };
        if !self.has_room() {
            return Ok(ways);
        }
        self.trial.fill_symbol(id)?;
        let text = self.text_at(place)?;
        let ranges = self.ranges_for(id, symbol, text.as_str())?;
        for number in symbol.definitions() {
            self.add_text_lines(&mut ways, id, place, *number, ranges.as_slice())?;
        }
        if !self.trial.is_given(id)? {
            self.add_text_defaults(&mut ways, symbol, text.as_str(), ranges.as_slice())?;
            self.add_clamps(&mut ways, id, symbol, text.as_str())?;
            if text.is_empty() {
                self.add_empty_ways(&mut ways, symbol)?;
            }
        }
        Ok(ways)
    }

    /// Adds the ways by a line, where a definition has a prompt: one for each list of goals with which the text is in the
    /// range that counts. The error comes where memory is refused.
    fn add_text_lines(
        &self,
        ways: &mut Vec<Way<'t>>,
        id: SymId,
        place: usize,
        number: usize,
        ranges: &[Vec<Goal<'t>>],
    ) -> Result<(), AllocError> {
        for range in ranges {
            if let Some(mut goals) = self.prompt_goals(number, Tri::Module)? {
                goals.extend_from_slice(range.as_slice())?;
                self.add_way(ways, goals, Deed::GiveText(id, place), TEXT_LINE)?;
            }
        }
        Ok(())
    }

    /// Lists of goals: with those of one of them a text is in the range that counts. The error comes where memory is
    /// refused.
    fn ranges_for(
        &mut self,
        id: SymId,
        symbol: &'t Symbol,
        text: &str,
    ) -> Result<Vec<Vec<Goal<'t>>>, AllocError> {
        let mut lists = Vec::new(self.alloc);
        let kind = symbol.kind();
        let Some(number) = numeral(kind, text) else {
            lists.push(Vec::new(self.alloc))?;
            return Ok(lists);
        };
        self.trial.fill_symbol(id)?;
        match active_range(&self.trial.known(), id) {
            Some(range) if number < range.low || number > range.high => {}
            Some(_) | None => {
                lists.push(Vec::new(self.alloc))?;
                return Ok(lists);
            }
        }
        let mut before = Vec::new(self.alloc);
        let tree = self.tree;
        for place in symbol.definitions() {
            if let Some(definition) = tree.definitions().get(*place) {
                self.add_ranges(&mut lists, &mut before, kind, *place, definition, number)?;
            }
        }
        lists.push(before)?;
        Ok(lists)
    }

    /// Adds the lists by the ranges of a definition. Before each of them those before it do not count. The error comes
    /// where memory is refused.
    fn add_ranges(
        &mut self,
        lists: &mut Vec<Vec<Goal<'t>>>,
        before: &mut Vec<Goal<'t>>,
        kind: SymbolType,
        place: usize,
        definition: &'t Definition,
        number: i128,
    ) -> Result<(), AllocError> {
        for range in definition.ranges() {
            let mut goals = Vec::from_slice(self.alloc, before.as_slice())?;
            self.add_condition(&mut goals, range.condition.as_ref(), Tri::Module)?;
            self.add_dependencies(&mut goals, place, Tri::Module)?;
            let lows = self.side_goals(kind, &range.low, number, true)?;
            let highs = self.side_goals(kind, &range.high, number, false)?;
            self.add_sides(lists, goals.as_slice(), lows.as_slice(), highs.as_slice())?;
            if !self.add_before(before, range.condition.as_ref())? {
                break;
            }
        }
        Ok(())
    }

    /// Adds a list for each pair of ways of the two sides of a range. The error comes where memory is refused.
    fn add_sides(
        &self,
        lists: &mut Vec<Vec<Goal<'t>>>,
        goals: &[Goal<'t>],
        lows: &[Option<Goal<'t>>],
        highs: &[Option<Goal<'t>>],
    ) -> Result<(), AllocError> {
        for low in lows {
            self.add_highs(lists, goals, *low, highs)?;
        }
        Ok(())
    }

    /// Adds a list for each way of the upper side of a range, by a way of the lower side. The error comes where memory is
    /// refused.
    fn add_highs(
        &self,
        lists: &mut Vec<Vec<Goal<'t>>>,
        goals: &[Goal<'t>],
        low: Option<Goal<'t>>,
        highs: &[Option<Goal<'t>>],
    ) -> Result<(), AllocError> {
        for high in highs {
            let mut list = Vec::from_slice(self.alloc, goals)?;
            if let Some(goal) = low {
                list.push(goal)?;
            }
            if let Some(goal) = high {
                list.push(*goal)?;
            }
            lists.push(list)?;
        }
        Ok(())
    }

    /// What is to be so that a side of a range lets a number in: nothing, or that the symbol that it is has one of the
    /// texts of its defaults, or the number itself. Without any there is no way. The error comes where memory is refused.
    fn side_goals(
        &mut self,
        kind: SymbolType,
        side: &'t Term,
        number: i128,
        is_low: bool,
    ) -> Result<Vec<Option<Goal<'t>>>, AllocError> {
        let mut goals = Vec::new(self.alloc);
        let text = self.term_text(side)?;
        if lets_in(kind, text.as_str(), number, is_low) {
            goals.push(None)?;
            return Ok(goals);
        }
        let Term::Symbol(symbol) = side else {
            return Ok(goals);
        };
        let Some(found) = self.symbol(*symbol) else {
            return Ok(goals);
        };
        let tree = self.tree;
        let own = self.spelled(*symbol, number)?;
        let place = self.place_of(own.as_str())?;
        goals.push(Some(Goal::Text(*symbol, place)))?;
        if lets_in(kind, "", number, is_low) {
            let place = self.place_of("")?;
            goals.push(Some(Goal::Text(*symbol, place)))?;
        }
        for place in found.definitions() {
            if let Some(definition) = tree.definitions().get(*place) {
                self.add_side_defaults(&mut goals, *symbol, definition, number, is_low)?;
            }
        }
        Ok(goals)
    }

    /// Adds the goals that a side of a range has a text of a default of a definition that lets a number in. The error
    /// comes where memory is refused.
    fn add_side_defaults(
        &mut self,
        goals: &mut Vec<Option<Goal<'t>>>,
        symbol: SymId,
        definition: &'t Definition,
        number: i128,
        is_low: bool,
    ) -> Result<(), AllocError> {
        let kind = self.tree.symbol_type(symbol);
        for default in definition.defaults() {
            let Some(term) = lone_term(&default.value) else {
                continue;
            };
            let text = self.term_text(term)?;
            if self.has_room() && lets_in(kind, text.as_str(), number, is_low) {
                let place = self.place_of(text.as_str())?;
                goals.push(Some(Goal::Text(symbol, place)))?;
            }
        }
        Ok(())
    }

    /// Adds the ways by the defaults of a symbol. The error comes where memory is refused.
    fn add_text_defaults(
        &mut self,
        ways: &mut Vec<Way<'t>>,
        symbol: &'t Symbol,
        text: &str,
        ranges: &[Vec<Goal<'t>>],
    ) -> Result<(), AllocError> {
        let tree = self.tree;
        for number in symbol.definitions() {
            if let Some(definition) = tree.definitions().get(*number) {
                self.add_default_lines(ways, *number, definition, text, ranges)?;
            }
        }
        Ok(())
    }

    /// Adds the ways by the defaults of a definition whose text is this one, or can be. The error comes where memory is
    /// refused.
    fn add_default_lines(
        &mut self,
        ways: &mut Vec<Way<'t>>,
        number: usize,
        definition: &'t Definition,
        text: &str,
        ranges: &[Vec<Goal<'t>>],
    ) -> Result<(), AllocError> {
        let mut before = Vec::new(self.alloc);
        for default in definition.defaults() {
            if let Some(value) = self.value_goals(default, text)? {
                let before = before.as_slice();
                let mut goals = self.default_goals(number, default, before, Tri::Module)?;
                goals.extend_from_slice(value.as_slice())?;
                self.add_in_ranges(ways, goals.as_slice(), ranges)?;
            }
            if !self.add_before(&mut before, default.condition.as_ref())? {
                break;
            }
        }
        Ok(())
    }

    /// The goals that the value of a default has a text: none are needed where it has. There is no list where it can't
    /// have. The error comes where memory is refused.
    fn value_goals(
        &mut self,
        default: &'t DefaultValue,
        text: &str,
    ) -> Result<Option<Vec<Goal<'t>>>, AllocError> {
        let mut goals = Vec::new(self.alloc);
        let Some(term) = lone_term(&default.value) else {
            return Ok(None);
        };
        if self.term_text(term)?.as_str() == text {
            return Ok(Some(goals));
        }
        match term {
            Term::Symbol(other) if !self.tree.symbol_type(*other).is_tri() => {
                let place = self.place_of(text)?;
                goals.push(Goal::Text(*other, place))?;
                Ok(Some(goals))
            }
            _ => Ok(None),
        }
    }

    /// Adds the ways by a default, one for each list of goals with which its text is in the range that counts. The error
    /// comes where memory is refused.
    fn add_in_ranges(
        &self,
        ways: &mut Vec<Way<'t>>,
        goals: &[Goal<'t>],
        ranges: &[Vec<Goal<'t>>],
    ) -> Result<(), AllocError> {
        for range in ranges {
            let mut goals = Vec::from_slice(self.alloc, goals)?;
            goals.extend_from_slice(range.as_slice())?;
            self.add_way(ways, goals, Deed::Nothing, DEFAULT_FOR_PROMPT)?;
        }
        Ok(())
    }

    /// Adds the ways by which a symbol has no text, since what a definition of it depends on is n. The error comes where
    /// memory is refused.
    fn add_empty_ways(&self, ways: &mut Vec<Way<'t>>, symbol: &Symbol) -> Result<(), AllocError> {
        for number in symbol.definitions() {
            let factors = dependency_factors(self.alloc, self.start, *number)?;
            self.add_low_factors(ways, factors, Tri::No, LOW_DEPENDENCY)?;
        }
        Ok(())
    }

    /// Adds the ways by which a text is a side of the range that counts: what is past it becomes that. The error comes
    /// where memory is refused.
    fn add_clamps(
        &mut self,
        ways: &mut Vec<Way<'t>>,
        id: SymId,
        symbol: &'t Symbol,
        text: &str,
    ) -> Result<(), AllocError> {
        let mut before = Vec::new(self.alloc);
        let tree = self.tree;
        for place in symbol.definitions() {
            if let Some(definition) = tree.definitions().get(*place) {
                self.add_range_clamps(ways, &mut before, id, *place, definition, text)?;
            }
        }
        Ok(())
    }

    /// Adds the ways by the ranges of a definition. Before each of them those before it do not count. The error comes
    /// where memory is refused.
    fn add_range_clamps(
        &mut self,
        ways: &mut Vec<Way<'t>>,
        before: &mut Vec<Goal<'t>>,
        id: SymId,
        place: usize,
        definition: &'t Definition,
        text: &str,
    ) -> Result<(), AllocError> {
        for range in definition.ranges() {
            let mut goals = Vec::from_slice(self.alloc, before.as_slice())?;
            self.add_condition(&mut goals, range.condition.as_ref(), Tri::Module)?;
            self.add_dependencies(&mut goals, place, Tri::Module)?;
            self.add_clamp(ways, id, goals.as_slice(), &range.low, text)?;
            self.add_clamp(ways, id, goals.as_slice(), &range.high, text)?;
            if !self.add_before(before, range.condition.as_ref())? {
                break;
            }
        }
        Ok(())
    }

    /// Adds the way by one side of a range that counts with these goals. The error comes where memory is refused.
    fn add_clamp(
        &mut self,
        ways: &mut Vec<Way<'t>>,
        id: SymId,
        goals: &[Goal<'t>],
        side: &Term,
        text: &str,
    ) -> Result<(), AllocError> {
        let mut goals = Vec::from_slice(self.alloc, goals)?;
        let kind = self.tree.symbol_type(id);
        let now = self.term_text(side)?;
        let bound = numeral(kind, now.as_str()).unwrap_or(0);
        if self.spelled(id, bound)?.as_str() != text {
            let Term::Symbol(symbol) = side else {
                return Ok(());
            };
            let place = self.place_of(text)?;
            goals.push(Goal::Text(*symbol, place))?;
        }
        self.add_way(ways, goals, Deed::Nothing, DEFAULT_FOR_PROMPT)
    }
}

/// Whether a side of a range, with this text, lets a number in.
fn lets_in(kind: SymbolType, side: &str, number: i128, is_low: bool) -> bool {
    let bound = numeral(kind, side).unwrap_or(0);
    if is_low {
        bound <= number
    } else {
        number <= bound
    }
}
