//! The state of the search: what was tried out, and what is still to be done.

ghost use Rattle.kc_value.specs.UserValues.{IsUserFor};

use crate::cell_prices::cell_costs;
use crate::costs::{Costs, NEVER, plus};
use crate::goals::{Deed, Goal, Task, Way, expr_goal, is_less};
use crate::pins::Pins;
use crate::prices::{MOST_TO_SHOW, Prices};
use crate::trial::{Trial, has_given};
use crate::weights::TEXT_LINE;
use kc_files::Assign;
use kc_tree::{Expr, Node, Reverse, SharedText, SymId, Symbol, SymbolType, Tree, Tri, UserVal};
use kc_value::{Factor, FactorPart, Known, User, reverse_value};
use std::alloc::{AllocError, Global};

/// The symbols that have what the user gave them. The error comes where memory is refused.
fn given_symbols(alloc: Global, start: &Known<'_>, user: &User) -> Result<Vec<SymId>, AllocError> {
    let mut symbols = Vec::new(alloc);
    for number in 0..start.tree().symbols().len() {
        let symbol = SymId(number as u32);
        if has_given(start, user, symbol) {
            symbols.push(symbol)?;
        }
    }
    Ok(symbols)
}

/// How many texts the search has at most: it makes no ways to other ones.
const MOST_TEXTS: usize = 200;

/// The search for lines that give what is wanted.
#[derive(Drop)]
pub(crate) struct Finder<'t> {
    pub alloc: Global,
    pub tree: &'t Tree,
    /// The values of all nodes that it begins with, and the user values.
    pub start: &'t Known<'t>,
    pub user: &'t User,
    pub trial: Trial<'t>,
    pub costs: Vec<Costs>,
    /// The texts that goals and deeds name.
    pub texts: Vec<SharedText>,
    /// What is still to be done, the next at the end.
    pub agenda: Vec<Task<'t>>,
    /// The goals that are not to be undone.
    pub pins: Pins,
    /// How many more links of long chains count as no steps.
    pub links: usize,
    /// What was done.
    pub deeds: Vec<Deed>,
    /// The symbols that have what the user gave them.
    pub given: Vec<SymId>,
}

impl<'t> Finder<'t> {
    /// The search in a tree with user values, and the values of all nodes for these. The error comes where memory is
    /// refused.
    pub fn new(
        alloc: Global,
        tree: &'t Tree,
        start: &'t Known<'t>,
        user: &'t User,
    ) -> Result<Finder<'t>, AllocError>
        requires { IsUserFor tree.now user.now }
    {
        let costs = cell_costs(alloc, tree, start, user)?;
        let given = given_symbols(alloc, start, user)?;
        Ok(Finder {
            alloc,
            tree,
            start,
            user,
            trial: Trial::new(alloc, tree, user)?,
            costs,
            texts: Vec::new(alloc),
            agenda: Vec::new(alloc),
            pins: Pins::new(alloc),
            links: tree.cell_count(),
            deeds: Vec::new(alloc),
            given,
        })
    }

    /// A symbol by number, if there is one.
    pub fn symbol(&self, id: SymId) -> Option<&'t Symbol> {
        let tree: &'t Tree = self.tree;
        tree.symbols().get(id.0 as usize)
    }

    /// What costs are computed from.
    pub fn prices(&self) -> Prices<'_, '_> {
        Prices::new(self.tree, self.start, self.user, self.costs.as_slice())
    }

    /// Whether there is room for more texts.
    pub fn has_room(&self) -> bool {
        self.texts.len() <= MOST_TEXTS
    }

    /// The place of a text, which is added where it is new. The error comes where memory is refused.
    pub fn place_of(&mut self, text: &str) -> Result<usize, AllocError> {
        for (place, other) in self.texts.iter().enumerate() {
            if other.as_str() == text {
                return Ok(place);
            }
        }
        let place = self.texts.len();
        self.texts.push(SharedText::copy_of(self.alloc, text)?)?;
        Ok(place)
    }

    /// Whether the value of a symbol is the text of a place. The error comes where memory is refused.
    fn has_text(&mut self, symbol: SymId, place: usize) -> Result<bool, AllocError> {
        match self.texts.get(place) {
            Some(text) => self.trial.has_text(symbol, text.as_str()),
            None => Ok(false),
        }
    }

    /// What a `select` or an `imply` gives. The error comes where memory is refused.
    fn reverse(&mut self, reverse: &Reverse) -> Result<Tri, AllocError> {
        self.trial.fill_symbol(reverse.by)?;
        if let Some(condition) = &reverse.condition {
            self.trial.fill_expr(condition)?;
        }
        Ok(reverse_value(&self.trial.known(), reverse))
    }

    /// Whether a goal holds now. The error comes where memory is refused.
    pub fn holds(&mut self, goal: Goal<'t>) -> Result<bool, AllocError> {
        match goal {
            Goal::AtLeast(symbol, bound) => Ok(!is_less(self.trial.value(symbol)?, bound)),
            Goal::AtMost(symbol, bound) => Ok(!is_less(bound, self.trial.value(symbol)?)),
            Goal::Text(symbol, place) => self.has_text(symbol, place),
            Goal::ExprAtLeast(expr, bound) => Ok(!is_less(self.trial.expr(expr)?, bound)),
            Goal::ExprAtMost(expr, bound) => Ok(!is_less(bound, self.trial.expr(expr)?)),
            Goal::Open(choice) => Ok(!self.trial.mode(choice)?.is_no()),
            Goal::Closed(choice) => Ok(self.trial.mode(choice)?.is_no()),
            Goal::ReverseAtMost(reverse, bound) => Ok(!is_less(bound, self.reverse(reverse)?)),
        }
    }

    /// What a goal costs. The least that a text costs is what it takes to show its symbol.
    pub fn cost_of(&self, goal: Goal<'t>) -> u32 {
        let prices = self.prices();
        match goal {
            Goal::AtLeast(symbol, bound) => prices.symbol(symbol).at_least(bound),
            Goal::AtMost(symbol, bound) => prices.symbol(symbol).at_most(bound),
            Goal::Text(symbol, _) => plus(
                prices.node(Node::Vis(symbol)).module.min(MOST_TO_SHOW),
                TEXT_LINE,
            ),
            Goal::ExprAtLeast(expr, bound) => prices.expr(expr).at_least(bound),
            Goal::ExprAtMost(expr, bound) => prices.expr(expr).at_most(bound),
            Goal::Open(choice) => prices.node(Node::Mode(choice)).module,
            Goal::Closed(choice) => prices.node(Node::Mode(choice)).no,
            Goal::ReverseAtMost(reverse, bound) => prices.reverse(reverse).at_most(bound),
        }
    }

    /// Whether a goal is against one that is pinned.
    fn is_against_pins(&self, goal: Goal<'t>) -> bool {
        self.pins.exclude(self.tree, goal)
    }

    /// Whether a deed is against what is pinned.
    fn is_refused_deed(&self, deed: Deed) -> bool {
        match deed {
            Deed::Nothing => false,
            Deed::Give(symbol, value) => {
                self.is_against_pins(Goal::AtLeast(symbol, value))
                    || self.is_against_pins(Goal::AtMost(symbol, value))
            }
            Deed::GiveText(symbol, place) => self.is_against_pins(Goal::Text(symbol, place)),
            Deed::Choose(_, member) => self.is_against_pins(Goal::AtLeast(member, Tri::Yes)),
        }
    }

    /// Whether a way is against what is pinned, or can't be.
    pub fn is_refused(&self, way: &Way<'t>) -> bool {
        way.cost >= NEVER
            || self.is_refused_deed(way.deed)
            || way.goals.iter().any(|goal| self.is_against_pins(*goal))
    }

    /// Pins a goal, unless it is against one that is pinned: then the answer is false. The error comes where memory is
    /// refused.
    pub fn pin(&mut self, goal: Goal<'t>) -> Result<bool, AllocError> {
        if self.is_against_pins(goal) {
            return Ok(false);
        }
        self.pins.add(self.tree, goal)?;
        Ok(true)
    }

    /// Does a deed, unless it is against what is pinned: then the answer is false. The error comes where memory is refused.
    pub fn make(&mut self, deed: Deed) -> Result<bool, AllocError> {
        if self.is_refused_deed(deed) {
            return Ok(false);
        }
        match deed {
            Deed::Nothing => return Ok(true),
            Deed::Give(symbol, value) => self.trial.give(symbol, UserVal::Tri(value)),
            Deed::GiveText(symbol, place) => {
                if let Some(text) = self.texts.get(place) {
                    self.trial.give(symbol, UserVal::Text(text.share()?));
                }
            }
            Deed::Choose(choice, member) => self.trial.choose(choice, Some(member)),
        }
        self.deeds.push(deed)?;
        Ok(true)
    }

    /// Undoes all that was done. The error comes where memory is refused.
    pub fn undo(&mut self) -> Result<(), AllocError> {
        for deed in self.deeds.iter().rev() {
            match deed {
                Deed::Nothing => {}
                Deed::Give(symbol, _) | Deed::GiveText(symbol, _) => self.trial.restore(*symbol)?,
                Deed::Choose(choice, _) => self.trial.restore_choice(*choice),
            }
        }
        self.deeds.clear();
        Ok(())
    }

    /// A way with what its goals cost. The error comes where memory is refused.
    pub fn add_way(
        &self,
        ways: &mut Vec<Way<'t>>,
        goals: Vec<Goal<'t>>,
        deed: Deed,
        own: u32,
    ) -> Result<(), AllocError> {
        let mut cost = own;
        for goal in goals.as_slice() {
            cost = plus(cost, self.cost_of(*goal));
        }
        let way = Way { cost, goals, deed };
        if !self.is_refused(&way) {
            ways.push(way)?;
        }
        Ok(())
    }

    /// Adds the goals that factors are at least a value. The error comes where memory is refused.
    pub fn add_factors(
        &self,
        goals: &mut Vec<Goal<'t>>,
        factors: Vec<Factor<'t>>,
        bound: Tri,
    ) -> Result<(), AllocError> {
        for factor in factors.as_slice() {
            match factor.part {
                FactorPart::Expression(expr) => goals.push(expr_goal(expr, true, bound))?,
                FactorPart::Mode(choice) => goals.push(Goal::Open(choice))?,
                FactorPart::Missing => {}
            }
        }
        Ok(())
    }

    /// Whether a symbol takes m now. The error comes where memory is refused.
    pub fn takes_module(&mut self, symbol: &Symbol) -> Result<bool, AllocError> {
        if !matches!(symbol.kind(), SymbolType::Tristate) {
            return Ok(false);
        }
        Ok(!self.trial.modules()?.is_no())
    }

    /// The goals that a symbol is just this tristate value. The error comes where memory is refused.
    pub fn add_exactly(
        &self,
        goals: &mut Vec<Goal<'t>>,
        symbol: SymId,
        value: Tri,
    ) -> Result<(), AllocError> {
        if matches!(value, Tri::Module)
            && let Some(modules) = self.tree.modules()
        {
            goals.push(Goal::AtLeast(modules, Tri::Module))?;
        }
        if !matches!(value, Tri::Yes) {
            goals.push(Goal::AtMost(symbol, value))?;
        }
        if !matches!(value, Tri::No) {
            goals.push(Goal::AtLeast(symbol, value))?;
        }
        Ok(())
    }

    /// The goals that an assignment has its effect. The error comes where memory is refused.
    pub fn goals_of(&mut self, assign: &Assign) -> Result<Vec<Goal<'t>>, AllocError> {
        let mut goals = Vec::new(self.alloc);
        match &assign.value {
            UserVal::Tri(value) => self.add_exactly(&mut goals, assign.symbol, *value)?,
            UserVal::Text(text) => {
                let place = self.place_of(text.as_str())?;
                goals.push(Goal::Text(assign.symbol, place))?;
            }
        }
        Ok(goals)
    }

    /// Adds an expression as a goal, if there is one.
    pub fn add_condition(
        &self,
        goals: &mut Vec<Goal<'t>>,
        condition: Option<&'t Expr>,
        bound: Tri,
    ) -> Result<(), AllocError> {
        if let Some(expr) = condition {
            goals.push(expr_goal(expr, true, bound))?;
        }
        Ok(())
    }
}
