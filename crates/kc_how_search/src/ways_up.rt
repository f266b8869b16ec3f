//! The ways to raise a bool or a tristate, and to open a choice.

use crate::costs::plus;
use crate::finder::Finder;
use crate::goals::{Deed, Goal, Way, expr_goal};
use crate::weights::{
    DEFAULT, DEFAULT_FOR_PROMPT, LINE, MEMBER_LINE, MODULES_OFF, SELECT, SELECT_FOR_PROMPT,
};
use kc_tree::{ChoiceId, DefaultValue, Expr, Node, Reverse, SymId, Symbol, Tri};
use kc_value::{choice_factors, dependency_factors, prompt_factors, reverse_factors};
use std::alloc::AllocError;

/// How many defaults or ranges that count now are to be got out of the way of a later one.
const MOST_BEFORE: usize = 16;

/// A symbol that is to rise: to what, what its conditions need for that, and what any way costs.
#[derive(Clone, Copy)]
pub(crate) struct Rise {
    pub id: SymId,
    pub need: Tri,
    /// The value that a line gives.
    pub line: Tri,
    pub cost: u32,
    pub has_prompt: bool,
}

/// The definitions of a symbol have a prompt, or none has.
fn has_prompt(finder: &Finder<'_>, symbol: &Symbol) -> bool {
    for number in symbol.definitions() {
        if let Some(definition) = finder.tree.definitions().get(*number)
            && definition.prompt().is_some()
        {
            return true;
        }
    }
    false
}

impl<'t> Finder<'t> {
    /// The goals that the prompt of a definition is shown, at least as this value; none without a prompt. The error comes
    /// where memory is refused.
    pub fn prompt_goals(
        &self,
        number: usize,
        bound: Tri,
    ) -> Result<Option<Vec<Goal<'t>>>, AllocError> {
        let Some(definition) = self.tree.definitions().get(number) else {
            return Ok(None);
        };
        if definition.prompt().is_none() {
            return Ok(None);
        }
        let mut goals = Vec::new(self.alloc);
        let factors = prompt_factors(self.alloc, self.start, number)?;
        self.add_factors(&mut goals, factors, bound)?;
        Ok(Some(goals))
    }

    /// Adds the goals that what a definition depends on is at least a value. The error comes where memory is refused.
    pub fn add_dependencies(
        &self,
        goals: &mut Vec<Goal<'t>>,
        number: usize,
        bound: Tri,
    ) -> Result<(), AllocError> {
        let factors = dependency_factors(self.alloc, self.start, number)?;
        self.add_factors(goals, factors, bound)
    }

    /// The ways to raise a symbol to a value. The error comes where memory is refused.
    pub fn ways_up(&mut self, id: SymId, bound: Tri) -> Result<Vec<Way<'t>>, AllocError> {
        let mut ways = Vec::new(self.alloc);
        let Some(symbol) = self.symbol(id) else {
            return Ok(ways);
        };
        if let Some(choice) = symbol.choice() {
            self.add_member_ways(&mut ways, id, symbol, choice)?;
            return Ok(ways);
        }
        let takes_module = self.takes_module(symbol)?;
        let rise = Rise {
            id,
            need: if takes_module { bound } else { Tri::Module },
            line: if takes_module { bound } else { Tri::Yes },
            cost: self.prices().rise_of(id),
            has_prompt: has_prompt(self, symbol),
        };
        self.add_prompt_ways(&mut ways, symbol, rise)?;
        self.add_select_ways(&mut ways, symbol, rise)?;
        self.add_own_ways(&mut ways, symbol, rise)?;
        if takes_module && matches!(bound, Tri::Yes) {
            self.add_fold_way(&mut ways)?;
        }
        Ok(ways)
    }

    /// Adds the way by which each m becomes y. The error comes where memory is refused.
    fn add_fold_way(&self, ways: &mut Vec<Way<'t>>) -> Result<(), AllocError> {
        let Some(modules) = self.tree.modules() else {
            return Ok(());
        };
        self.add_one(ways, Goal::AtMost(modules, Tri::No), MODULES_OFF)
    }

    /// Adds the ways to choose a member of a choice. The error comes where memory is refused.
    fn add_member_ways(
        &self,
        ways: &mut Vec<Way<'t>>,
        id: SymId,
        symbol: &Symbol,
        choice: ChoiceId,
    ) -> Result<(), AllocError> {
        let cost = plus(MEMBER_LINE, self.prices().rise_of(id));
        for number in symbol.definitions() {
            if let Some(goals) = self.prompt_goals(*number, Tri::Module)? {
                self.add_way(ways, goals, Deed::Choose(choice, id), cost)?;
            }
        }
        Ok(())
    }

    /// Adds the ways by a line. The error comes where memory is refused.
    fn add_prompt_ways(
        &self,
        ways: &mut Vec<Way<'t>>,
        symbol: &Symbol,
        rise: Rise,
    ) -> Result<(), AllocError> {
        let cost = plus(rise.cost, self.prices().line_of(rise.id));
        for number in symbol.definitions() {
            if let Some(goals) = self.prompt_goals(*number, rise.need)? {
                self.add_way(ways, goals, Deed::Give(rise.id, rise.line), cost)?;
            }
        }
        Ok(())
    }

    /// The goals that a `select` or an `imply` gives at least a value. The error comes where memory is refused.
    fn reverse_goals(&self, reverse: &'t Reverse, bound: Tri) -> Result<Vec<Goal<'t>>, AllocError> {
        let mut goals = Vec::new(self.alloc);
        goals.push(Goal::AtLeast(reverse.by, bound))?;
        let factors = reverse_factors(self.alloc, self.start, reverse)?;
        self.add_factors(&mut goals, factors, bound)?;
        Ok(goals)
    }

    /// Adds the ways by a `select`. The error comes where memory is refused.
    fn add_select_ways(
        &self,
        ways: &mut Vec<Way<'t>>,
        symbol: &'t Symbol,
        rise: Rise,
    ) -> Result<(), AllocError> {
        let own = if rise.has_prompt {
            SELECT_FOR_PROMPT
        } else {
            SELECT
        };
        for reverse in symbol.selected() {
            let goals = self.reverse_goals(reverse, rise.need)?;
            self.add_way(ways, goals, Deed::Nothing, plus(rise.cost, own))?;
        }
        Ok(())
    }

    /// Adds the ways by a default or an `imply`, where no user value counts. The error comes where memory is refused.
    fn add_own_ways(
        &mut self,
        ways: &mut Vec<Way<'t>>,
        symbol: &'t Symbol,
        rise: Rise,
    ) -> Result<(), AllocError> {
        if self.trial.is_given(rise.id)? {
            return Ok(());
        }
        let own = if rise.has_prompt {
            DEFAULT_FOR_PROMPT
        } else {
            DEFAULT
        };
        let cost = plus(rise.cost, own);
        for number in symbol.definitions() {
            self.add_default_ways(ways, *number, rise.need, cost)?;
        }
        self.add_imply_ways(ways, symbol, rise.need, cost)
    }

    /// Adds the ways by an `imply`, with the dependencies of the definition of which these cost least. The error comes where
    /// memory is refused.
    fn add_imply_ways(
        &self,
        ways: &mut Vec<Way<'t>>,
        symbol: &'t Symbol,
        bound: Tri,
        cost: u32,
    ) -> Result<(), AllocError> {
        let prices = self.prices();
        let numbers = symbol.definitions().iter().copied();
        let cheapest = numbers.min_by_key(|number| prices.definition(*number).at_least(bound));
        let Some(number) = cheapest else {
            return Ok(());
        };
        for reverse in symbol.implied() {
            let mut goals = self.reverse_goals(reverse, bound)?;
            self.add_dependencies(&mut goals, number, bound)?;
            self.add_way(ways, goals, Deed::Nothing, cost)?;
        }
        Ok(())
    }

    /// Adds the ways by the defaults of a definition. The error comes where memory is refused.
    fn add_default_ways(
        &mut self,
        ways: &mut Vec<Way<'t>>,
        number: usize,
        bound: Tri,
        cost: u32,
    ) -> Result<(), AllocError> {
        let tree = self.tree;
        let Some(definition) = tree.definitions().get(number) else {
            return Ok(());
        };
        let mut before = Vec::new(self.alloc);
        for default in definition.defaults() {
            let mut goals = self.default_goals(number, default, before.as_slice(), bound)?;
            goals.push(expr_goal(&default.value, true, bound))?;
            self.add_way(ways, goals, Deed::Nothing, cost)?;
            if !self.add_before(&mut before, default.condition.as_ref())? {
                break;
            }
        }
        Ok(())
    }

    /// The goals that a default of a definition counts, at least as a value, and those that the ones before it do not. The
    /// error comes where memory is refused.
    pub fn default_goals(
        &self,
        number: usize,
        default: &'t DefaultValue,
        before: &[Goal<'t>],
        bound: Tri,
    ) -> Result<Vec<Goal<'t>>, AllocError> {
        let mut goals = Vec::new(self.alloc);
        self.add_dependencies(&mut goals, number, bound)?;
        self.add_condition(&mut goals, default.condition.as_ref(), bound)?;
        goals.extend_from_slice(before)?;
        Ok(goals)
    }

    /// Adds the goal that the condition of a default or a range is n, where it is not; false where no later one is looked
    /// at, since there is no condition or too many are not n. The error comes where memory is refused.
    pub fn add_before(
        &mut self,
        before: &mut Vec<Goal<'t>>,
        condition: Option<&'t Expr>,
    ) -> Result<bool, AllocError> {
        let Some(condition) = condition else {
            return Ok(false);
        };
        let goal = expr_goal(condition, false, Tri::No);
        if !self.holds(goal)? {
            before.push(goal)?;
        }
        Ok(before.len() <= MOST_BEFORE)
    }

    /// The ways to open a choice. The error comes where memory is refused.
    pub fn ways_open(&mut self, id: ChoiceId) -> Result<Vec<Way<'t>>, AllocError> {
        let mut ways = Vec::new(self.alloc);
        let tree = self.tree;
        let Some(choice) = tree.choices().get(id.0 as usize) else {
            return Ok(ways);
        };
        if choice.prompt().is_none() {
            return Ok(ways);
        }
        let is_unchosen = choice.is_optional() && self.trial.user().chosen(id).is_none();
        if !is_unchosen {
            let goals = self.choice_goals(id)?;
            self.add_way(&mut ways, goals, Deed::Nothing, 0)?;
            return Ok(ways);
        }
        for member in choice.members() {
            let goals = self.choice_goals(id)?;
            let own = self.prices().node(Node::Vis(*member)).module;
            let cost = plus(plus(LINE, MEMBER_LINE), own);
            self.add_way(&mut ways, goals, Deed::Choose(id, *member), cost)?;
        }
        Ok(ways)
    }

    /// The goals that the prompt of a choice is shown. The error comes where memory is refused.
    fn choice_goals(&self, id: ChoiceId) -> Result<Vec<Goal<'t>>, AllocError> {
        let mut goals = Vec::new(self.alloc);
        let factors = choice_factors(self.alloc, self.start, id)?;
        self.add_factors(&mut goals, factors, Tri::Module)?;
        Ok(goals)
    }
}
