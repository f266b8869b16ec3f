//! The ways to lower a bool or a tristate, and to close a choice.

use crate::costs::plus;
use crate::finder::Finder;
use crate::goals::{Deed, Goal, Way, expr_goal, is_less};
use crate::weights::{LINE, LOW_DEPENDENCY, LOW_LINE, MEMBER_LINE, ROUNDABOUT};
use kc_tree::{ChoiceId, Definition, Reverse, SymId, Symbol, SymbolType, Tri};
use kc_value::{
    Factor, FactorPart, choice_factors, dependency_factors, prompt_factors, reverse_factors,
};
use std::alloc::AllocError;

/// How many definitions of a symbol are to be made low at once.
const MOST_DEFINITIONS: usize = 16;

impl<'t> Finder<'t> {
    /// The goals that each `select` or `imply` that gives a symbol more than a value gives no more. The error comes where
    /// memory is refused.
    fn reverses_below(
        &mut self,
        reverses: &'t [Reverse],
        bound: Tri,
    ) -> Result<Vec<Goal<'t>>, AllocError> {
        let mut goals = Vec::new(self.alloc);
        for reverse in reverses {
            if !self.holds(Goal::ReverseAtMost(reverse, bound))? {
                goals.push(Goal::ReverseAtMost(reverse, bound))?;
            }
        }
        Ok(goals)
    }

    /// The ways to lower a symbol to a value. The error comes where memory is refused.
    pub fn ways_down(&mut self, id: SymId, bound: Tri) -> Result<Vec<Way<'t>>, AllocError> {
        let mut ways = Vec::new(self.alloc);
        let Some(symbol) = self.symbol(id) else {
            return Ok(ways);
        };
        if let Some(choice) = symbol.choice() {
            self.add_other_members(&mut ways, id, choice)?;
            return Ok(ways);
        }
        let takes_module = self.takes_module(symbol)?;
        if !takes_module && matches!(bound, Tri::Module) {
            self.add_modules_way(&mut ways, symbol)?;
        }
        let bound = if takes_module { bound } else { Tri::No };
        let first = self.reverses_below(symbol.selected(), bound)?;
        self.add_low_ways(&mut ways, id, symbol, first.as_slice(), bound)?;
        Ok(ways)
    }

    /// Adds the way by which a tristate can be m. The error comes where memory is refused.
    fn add_modules_way(&self, ways: &mut Vec<Way<'t>>, symbol: &Symbol) -> Result<(), AllocError> {
        let Some(modules) = self.tree.modules() else {
            return Ok(());
        };
        if !matches!(symbol.kind(), SymbolType::Tristate) {
            return Ok(());
        }
        self.add_one(ways, Goal::AtLeast(modules, Tri::Module), LINE)
    }

    /// Adds the ways to lower a symbol that is no member, once what selects it is low. The error comes where memory is
    /// refused.
    fn add_low_ways(
        &mut self,
        ways: &mut Vec<Way<'t>>,
        id: SymId,
        symbol: &'t Symbol,
        first: &[Goal<'t>],
        bound: Tri,
    ) -> Result<(), AllocError> {
        let is_shown = !self.trial.visibility(id)?.is_no();
        self.add_line_ways(ways, id, symbol, first, bound)?;
        if is_shown {
            return Ok(());
        }
        self.add_dependency_ways(ways, symbol, first, bound)?;
        self.add_default_ways_down(ways, symbol, first, bound)
    }

    /// Adds the ways by a line. The error comes where memory is refused.
    fn add_line_ways(
        &self,
        ways: &mut Vec<Way<'t>>,
        id: SymId,
        symbol: &Symbol,
        first: &[Goal<'t>],
        bound: Tri,
    ) -> Result<(), AllocError> {
        for number in symbol.definitions() {
            if let Some(mut goals) = self.prompt_goals(*number, Tri::Module)? {
                goals.extend_from_slice(first)?;
                self.add_way(ways, goals, Deed::Give(id, bound), LOW_LINE)?;
            }
        }
        Ok(())
    }

    /// The goals that each of some factors is at most a value. The error comes where memory is refused.
    pub fn low_factors(
        &self,
        factors: Vec<Factor<'t>>,
        bound: Tri,
    ) -> Result<Vec<Goal<'t>>, AllocError> {
        let mut goals = Vec::new(self.alloc);
        for factor in factors.as_slice() {
            match factor.part {
                FactorPart::Expression(expr) => goals.push(expr_goal(expr, false, bound))?,
                FactorPart::Mode(choice) => goals.push(Goal::Closed(choice))?,
                FactorPart::Missing => {}
            }
        }
        Ok(goals)
    }

    /// Adds the ways by each of which one factor is at most a value. The error comes where memory is refused.
    pub fn add_low_factors(
        &self,
        ways: &mut Vec<Way<'t>>,
        factors: Vec<Factor<'t>>,
        bound: Tri,
        own: u32,
    ) -> Result<(), AllocError> {
        for goal in self.low_factors(factors, bound)? {
            self.add_one(ways, goal, own)?;
        }
        Ok(())
    }

    /// The goals by each of which what a definition depends on is at most a value: an empty list where it is already, or
    /// where there are none. The error comes where memory is refused.
    fn low_goals(&mut self, number: usize, bound: Tri) -> Result<Vec<Goal<'t>>, AllocError> {
        let factors = dependency_factors(self.alloc, self.start, number)?;
        let goals = self.low_factors(factors, bound)?;
        for goal in goals.as_slice() {
            if self.holds(*goal)? {
                return Ok(Vec::new(self.alloc));
            }
        }
        Ok(goals)
    }

    /// For each definition of a symbol whose dependencies are more than a value now, the goals by each of which they are
    /// not. The error comes where memory is refused.
    fn low_definitions(
        &mut self,
        symbol: &Symbol,
        bound: Tri,
    ) -> Result<Vec<Vec<Goal<'t>>>, AllocError> {
        let mut definitions = Vec::new(self.alloc);
        for number in symbol.definitions() {
            let goals = self.low_goals(*number, bound)?;
            if !goals.is_empty() {
                definitions.push(goals)?;
            }
        }
        Ok(definitions)
    }

    /// Adds the ways by which one factor of what a definition depends on is low, and the other definitions are, too. The
    /// error comes where memory is refused.
    fn add_dependency_ways(
        &mut self,
        ways: &mut Vec<Way<'t>>,
        symbol: &Symbol,
        first: &[Goal<'t>],
        bound: Tri,
    ) -> Result<(), AllocError> {
        let definitions = self.low_definitions(symbol, bound)?;
        if definitions.len() > MOST_DEFINITIONS {
            return Ok(());
        }
        for (place, goals) in definitions.iter().enumerate() {
            let mut others = Vec::from_slice(self.alloc, first)?;
            self.add_others(&mut others, definitions.as_slice(), place)?;
            self.add_each_low(ways, goals.as_slice(), others.as_slice())?;
        }
        Ok(())
    }

    /// Adds the first goal of each definition but that of a place. The error comes where memory is refused.
    fn add_others(
        &self,
        goals: &mut Vec<Goal<'t>>,
        definitions: &[Vec<Goal<'t>>],
        place: usize,
    ) -> Result<(), AllocError> {
        for (other, lows) in definitions.iter().enumerate() {
            if other != place
                && let Some(low) = lows.as_slice().first()
            {
                goals.push(*low)?;
            }
        }
        Ok(())
    }

    /// Adds a way for each of some goals, with others. The error comes where memory is refused.
    fn add_each_low(
        &self,
        ways: &mut Vec<Way<'t>>,
        lows: &[Goal<'t>],
        others: &[Goal<'t>],
    ) -> Result<(), AllocError> {
        for low in lows {
            let mut goals = Vec::from_slice(self.alloc, others)?;
            goals.push(*low)?;
            self.add_way(ways, goals, Deed::Nothing, LOW_DEPENDENCY)?;
        }
        Ok(())
    }

    /// Adds the ways by which each default that gives more than a value does not count or gives less. The error comes
    /// where memory is refused.
    fn add_default_ways_down(
        &mut self,
        ways: &mut Vec<Way<'t>>,
        symbol: &'t Symbol,
        first: &[Goal<'t>],
        bound: Tri,
    ) -> Result<(), AllocError> {
        let mut reverses = self.reverses_below(symbol.implied(), bound)?;
        reverses.extend_from_slice(first)?;
        let mut by_condition = Vec::from_slice(self.alloc, reverses.as_slice())?;
        let mut by_value = Vec::from_slice(self.alloc, reverses.as_slice())?;
        let tree = self.tree;
        for number in symbol.definitions() {
            let Some(definition) = tree.definitions().get(*number) else {
                continue;
            };
            self.add_low_defaults(&mut by_condition, &mut by_value, definition, bound)?;
            self.add_earlier_defaults(ways, *number, definition, reverses.as_slice(), bound)?;
        }
        self.add_way(ways, by_condition, Deed::Nothing, ROUNDABOUT)?;
        self.add_way(ways, by_value, Deed::Nothing, ROUNDABOUT)
    }

    /// Adds for each default of a definition that gives more than a value the goal that its condition is low, and besides
    /// the goal that its value is. The error comes where memory is refused.
    fn add_low_defaults(
        &mut self,
        by_condition: &mut Vec<Goal<'t>>,
        by_value: &mut Vec<Goal<'t>>,
        definition: &'t Definition,
        bound: Tri,
    ) -> Result<(), AllocError> {
        for default in definition.defaults() {
            let value = self.trial.expr(&default.value)?;
            if !is_less(bound, value) {
                continue;
            }
            by_value.push(expr_goal(&default.value, false, bound))?;
            match &default.condition {
                Some(condition) => by_condition.push(expr_goal(condition, false, bound))?,
                None => by_condition.push(expr_goal(&default.value, false, bound))?,
            }
        }
        Ok(())
    }

    /// Adds the ways by which a default that gives no more than a value is the first that counts. The error comes where
    /// memory is refused.
    fn add_earlier_defaults(
        &mut self,
        ways: &mut Vec<Way<'t>>,
        number: usize,
        definition: &'t Definition,
        first: &[Goal<'t>],
        bound: Tri,
    ) -> Result<(), AllocError> {
        let mut before = Vec::new(self.alloc);
        for default in definition.defaults() {
            if !is_less(bound, self.trial.expr(&default.value)?) && default.condition.is_some() {
                let before = before.as_slice();
                let mut goals = self.default_goals(number, default, before, Tri::Module)?;
                goals.extend_from_slice(first)?;
                self.add_way(ways, goals, Deed::Nothing, ROUNDABOUT)?;
            }
            if !self.add_before(&mut before, default.condition.as_ref())? {
                break;
            }
        }
        Ok(())
    }

    /// Adds the ways by which another member of a choice is chosen, or the choice is closed. The error comes where memory
    /// is refused.
    fn add_other_members(
        &self,
        ways: &mut Vec<Way<'t>>,
        id: SymId,
        choice: ChoiceId,
    ) -> Result<(), AllocError> {
        let tree = self.tree;
        let Some(found) = tree.choices().get(choice.0 as usize) else {
            return Ok(());
        };
        for member in found.members() {
            if *member != id {
                self.add_other_member(ways, *member, choice)?;
            }
        }
        self.add_hiding_ways(ways, id)?;
        self.add_one(ways, Goal::Closed(choice), LOW_DEPENDENCY)
    }

    /// Adds the ways by which a member is not shown. The error comes where memory is refused.
    fn add_hiding_ways(&self, ways: &mut Vec<Way<'t>>, id: SymId) -> Result<(), AllocError> {
        let Some(symbol) = self.symbol(id) else {
            return Ok(());
        };
        for number in symbol.definitions() {
            let factors = prompt_factors(self.alloc, self.start, *number)?;
            self.add_low_factors(ways, factors, Tri::No, LOW_DEPENDENCY)?;
        }
        Ok(())
    }

    /// Adds the ways by which a member is chosen in place of another one. The error comes where memory is refused.
    fn add_other_member(
        &self,
        ways: &mut Vec<Way<'t>>,
        member: SymId,
        choice: ChoiceId,
    ) -> Result<(), AllocError> {
        let Some(symbol) = self.symbol(member) else {
            return Ok(());
        };
        let cost = plus(MEMBER_LINE, self.prices().rise_of(member));
        for number in symbol.definitions() {
            if let Some(goals) = self.prompt_goals(*number, Tri::Module)? {
                self.add_way(ways, goals, Deed::Choose(choice, member), cost)?;
            }
        }
        Ok(())
    }

    /// The ways to close a choice. The error comes where memory is refused.
    pub fn ways_closed(&mut self, id: ChoiceId) -> Result<Vec<Way<'t>>, AllocError> {
        let mut ways = Vec::new(self.alloc);
        let factors = choice_factors(self.alloc, self.start, id)?;
        self.add_low_factors(&mut ways, factors, Tri::No, 0)?;
        Ok(ways)
    }

    /// The ways by which a `select` or an `imply` gives at most a value. The error comes where memory is refused.
    pub fn ways_reverse(
        &mut self,
        reverse: &'t Reverse,
        bound: Tri,
    ) -> Result<Vec<Way<'t>>, AllocError> {
        let mut ways = Vec::new(self.alloc);
        self.add_one(&mut ways, Goal::AtMost(reverse.by, bound), 0)?;
        let factors = reverse_factors(self.alloc, self.start, reverse)?;
        self.add_low_factors(&mut ways, factors, bound, 0)?;
        Ok(ways)
    }
}
