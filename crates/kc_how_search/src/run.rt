//! One run of the search: from the given user values on, each goal is taken apart by one of its ways, the cheapest but
//! for the turns of the run.

use crate::costs::plus;
use crate::finder::Finder;
use crate::goals::{Deed, Goal, Task, Way};
use crate::reached::Reached;
use crate::weights::{LOST, MEMBER_LINE, TEXT_LINE};
use kc_files::Assign;
use kc_tree::{ChoiceId, ExprNode, SymId, Tri, UserVal};
use std::alloc::AllocError;

/// How many steps a run has at most.
const MOST_STEPS: usize = 2000;
/// How often what is wanted is looked at again.
const MOST_ROUNDS: usize = 3;
/// How often a goal is tried.
const MOST_TRIES: u32 = 2;
/// How many ways to a goal are looked at.
const MOST_WAYS: usize = 10;

/// How many lines that are looked at for ways count as a step.
const WEIGHT: usize = 32;

/// How many links of a chain count as steps, one after another. The others are free, as far as the search has free links.
const COUNTED_LINKS: usize = 64;

/// What came of a task.
#[derive(Clone, Copy, Debug, PartialEq, Eq)]
enum Done {
    /// It can't be done.
    Nothing,
    /// Its goal holds already, or has one way, without a deed: a link of a chain.
    Link,
    /// A deed was done, or a way was taken of several, or one with a deed.
    Step,
}

/// A way that is taken in place of the cheapest one: at which goal of the run, and which.
#[derive(Clone, Copy, Debug)]
pub(crate) struct Turn {
    pub point: usize,
    pub way: usize,
}

/// A turn that could be taken, and what it costs more.
#[derive(Clone, Copy, Debug)]
pub(crate) struct Branch {
    pub turn: Turn,
    pub more: u32,
}

/// How the run goes on.
#[derive(Drop)]
pub(crate) struct Course {
    /// The turns that are taken, by their points.
    pub turns: Vec<Turn>,
    /// How many goals were taken apart.
    pub points: usize,
    /// The turns that could be taken after these.
    pub branches: Vec<Branch>,
    pub steps: usize,
    /// How many links came one after another up to now.
    pub row: usize,
    /// Whether it ended since it had too many steps.
    pub is_spent: bool,
}

impl Course {
    /// The way that is taken at the next goal.
    fn next_way(&self) -> usize {
        for turn in self.turns.as_slice() {
            if turn.point == self.points {
                return turn.way;
            }
        }
        0
    }

    /// Whether all turns were taken.
    fn is_past_turns(&self) -> bool {
        match self.turns.as_slice().last() {
            Some(turn) => turn.point < self.points,
            None => true,
        }
    }

    /// Lists the turns that could be taken at the next goal. The error comes where memory is refused.
    fn add_branches(&mut self, ways: &[Way<'_>]) -> Result<(), AllocError> {
        let Some(first) = ways.first() else {
            return Ok(());
        };
        for (number, way) in ways.iter().take(MOST_WAYS).enumerate().skip(1) {
            let turn = Turn {
                point: self.points,
                way: number,
            };
            let more = way.cost.saturating_sub(first.cost);
            self.branches.push(Branch { turn, more })?;
        }
        Ok(())
    }

    /// The way that is taken of some, by their costs; none where there are too few. The error comes where memory is
    /// refused.
    fn take<'t>(&mut self, mut ways: Vec<Way<'t>>) -> Result<Option<Way<'t>>, AllocError> {
        ways.sort_by_key(|way| way.cost)?;
        let number = self.next_way();
        if self.is_past_turns() {
            self.add_branches(ways.as_slice())?;
        }
        self.points = self.points.saturating_add(1);
        let mut taken = None;
        for (place, way) in ways.into_iter().enumerate() {
            if place == number {
                taken = Some(way);
            }
        }
        Ok(taken)
    }
}

impl<'t> Finder<'t> {
    /// The ways to a goal. The error comes where memory is refused.
    fn ways(&mut self, goal: Goal<'t>) -> Result<Vec<Way<'t>>, AllocError> {
        match goal {
            Goal::AtLeast(symbol, bound) => self.ways_up(symbol, bound),
            Goal::AtMost(symbol, bound) => self.ways_down(symbol, bound),
            Goal::Text(symbol, place) => self.ways_text(symbol, place),
            Goal::ExprAtLeast(expr, bound) => self.ways_expr(expr, true, bound),
            Goal::ExprAtMost(expr, bound) => self.ways_expr(expr, false, bound),
            Goal::Open(choice) => self.ways_open(choice),
            Goal::Closed(choice) => self.ways_closed(choice),
            Goal::ReverseAtMost(reverse, bound) => self.ways_reverse(reverse, bound),
        }
    }

    /// How many members a choice has.
    fn members_of(&self, choice: ChoiceId) -> usize {
        match self.tree.choices().get(choice.0 as usize) {
            Some(choice) => choice.members().len(),
            None => 0,
        }
    }

    /// How many lines of a symbol, and members of its choice, are looked at for the ways to a goal of it.
    fn lines_of_symbol(&self, id: SymId) -> usize {
        let Some(symbol) = self.symbol(id) else {
            return 0;
        };
        let mut count = symbol
            .selected()
            .len()
            .saturating_add(symbol.implied().len());
        if let Some(choice) = symbol.choice() {
            count = count.saturating_add(self.members_of(choice));
        }
        for number in symbol.definitions() {
            if let Some(definition) = self.tree.definitions().get(*number) {
                let lines = definition
                    .defaults()
                    .len()
                    .saturating_add(definition.ranges().len());
                count = count.saturating_add(lines).saturating_add(1);
            }
        }
        count
    }

    /// How many lines are looked at for the ways to a goal.
    fn weight_of(&self, goal: Goal<'t>) -> usize {
        match goal {
            Goal::AtLeast(id, _) | Goal::AtMost(id, _) | Goal::Text(id, _) => {
                self.lines_of_symbol(id)
            }
            Goal::Open(choice) => self.members_of(choice),
            Goal::ExprAtLeast(expr, _) | Goal::ExprAtMost(expr, _) => match expr.node() {
                ExprNode::All(parts) => parts.len(),
                ExprNode::Any(parts) => parts.len(),
                _ => 0,
            },
            _ => 0,
        }
    }

    /// Takes a goal apart, unless it holds. The error comes where memory is refused.
    fn take_apart(
        &mut self,
        course: &mut Course,
        goal: Goal<'t>,
        tries: u32,
    ) -> Result<Done, AllocError> {
        if self.holds(goal)? {
            return Ok(Done::Link);
        }
        if tries >= MOST_TRIES || !self.pin(goal)? {
            return Ok(Done::Nothing);
        }
        let ways = self.ways(goal)?;
        course.steps = course.steps.saturating_add(self.weight_of(goal) / WEIGHT);
        let is_only = ways.len() == 1;
        let Some(way) = course.take(ways)? else {
            return Ok(Done::Nothing);
        };
        self.agenda.push(Task::Goal(goal, tries.saturating_add(1)))?;
        let has_deed = !matches!(&way.deed, Deed::Nothing);
        if has_deed {
            self.agenda.push(Task::Deed(way.deed, goal))?;
        }
        self.add_goals(way.goals.as_slice())?;
        Ok(if is_only && !has_deed {
            Done::Link
        } else {
            Done::Step
        })
    }

    /// Adds goals to what is to be done, the first on top. The error comes where memory is refused.
    fn add_goals(&mut self, goals: &[Goal<'t>]) -> Result<(), AllocError> {
        for goal in goals.iter().rev() {
            self.agenda.push(Task::Goal(*goal, 0))?;
        }
        Ok(())
    }

    /// Does a deed, unless its goal holds. The error comes where memory is refused.
    fn make_for(&mut self, deed: Deed, goal: Goal<'t>) -> Result<Done, AllocError> {
        if self.holds(goal)? || self.make(deed)? {
            Ok(Done::Step)
        } else {
            Ok(Done::Nothing)
        }
    }

    /// Whether a task counts as no step: it was a link in a long chain, and there are free links.
    fn is_free(&mut self, course: &mut Course, done: Done) -> bool {
        if done != Done::Link {
            course.row = 0;
            return false;
        }
        course.row = course.row.saturating_add(1);
        if course.row <= COUNTED_LINKS || self.links == 0 {
            return false;
        }
        self.links -= 1;
        true
    }

    /// Does all that is to be done; false where it can't be. The error comes where memory is refused.
    fn work_off(&mut self, course: &mut Course) -> Result<bool, AllocError> {
        let mut left = MOST_STEPS;
        for _ in 0..MOST_STEPS.saturating_add(self.links) {
            let Some(task) = self.agenda.pop() else {
                return Ok(true);
            };
            let done = match task {
                Task::Goal(goal, tries) => self.take_apart(course, goal, tries)?,
                Task::Deed(deed, goal) => self.make_for(deed, goal)?,
            };
            if done == Done::Nothing {
                return Ok(false);
            }
            if self.is_free(course, done) {
                continue;
            }
            course.steps = course.steps.saturating_add(1);
            left = left.saturating_sub(1);
            if left == 0 {
                break;
            }
        }
        course.is_spent = true;
        Ok(false)
    }

    /// Lists the goals of a wanted value that do not hold; false where all do. The error comes where memory is refused.
    fn add_missed(
        &mut self,
        missed: &mut Vec<Goal<'t>>,
        assign: &Assign,
    ) -> Result<bool, AllocError> {
        let mut is_missed = false;
        for goal in self.goals_of(assign)? {
            if !self.holds(goal)? {
                missed.push(goal)?;
                is_missed = true;
            }
        }
        Ok(is_missed)
    }

    /// Adds the goals that what is wanted holds, of what does not, the first on top; the place of the first that does
    /// not. The error comes where memory is refused.
    fn add_wanted(&mut self, wanted: &[Assign]) -> Result<Option<usize>, AllocError> {
        let mut missed = Vec::new(self.alloc);
        let mut first = None;
        for (place, assign) in wanted.iter().enumerate() {
            if self.add_missed(&mut missed, assign)? {
                first = first.or(Some(place));
            }
        }
        self.add_goals(missed.as_slice())?;
        Ok(first)
    }

    /// Pins the goals of a wanted value; false where one is against what is pinned. The error comes where memory is
    /// refused.
    fn pin_value(&mut self, assign: &Assign) -> Result<bool, AllocError> {
        for goal in self.goals_of(assign)? {
            if !self.pin(goal)? {
                return Ok(false);
            }
        }
        Ok(true)
    }

    /// Pins what is wanted; false where some of it is against other. The error comes where memory is refused.
    fn pin_wanted(&mut self, wanted: &[Assign]) -> Result<bool, AllocError> {
        for assign in wanted {
            if !self.pin_value(assign)? {
                return Ok(false);
            }
        }
        Ok(true)
    }

    /// Runs from the given user values on. The place of the first wanted value that does not hold at the end, and none
    /// where all do. The error comes where memory is refused.
    pub fn run(
        &mut self,
        course: &mut Course,
        wanted: &[Assign],
    ) -> Result<Option<usize>, AllocError> {
        self.undo()?;
        self.agenda.clear();
        self.pins.clear();
        let mut is_open = self.pin_wanted(wanted)?;
        let mut missed = self.add_wanted(wanted)?;
        for _ in 0..MOST_ROUNDS {
            if missed.is_none() || !is_open {
                return Ok(missed);
            }
            is_open = self.work_off(course)?;
            self.agenda.clear();
            missed = self.add_wanted(wanted)?;
        }
        Ok(missed)
    }

    /// Whether a line names a symbol, or another member of its choice.
    fn is_named(&self, lines: &[Assign], symbol: SymId) -> bool {
        let choice = self.tree.choice_of(symbol);
        lines.iter().any(|line| {
            line.symbol == symbol
                || (choice.is_some() && self.tree.choice_of(line.symbol) == choice)
        })
    }

    /// The line of a deed, none for the deed that is none. The error comes where memory is refused.
    fn line_of(&self, deed: Deed) -> Result<Option<Assign>, AllocError> {
        match deed {
            Deed::Nothing => Ok(None),
            Deed::Give(symbol, value) => Ok(Some(Assign {
                symbol,
                value: UserVal::Tri(value),
            })),
            Deed::GiveText(symbol, place) => match self.texts.get(place) {
                Some(text) => Ok(Some(Assign {
                    symbol,
                    value: UserVal::Text(text.share()?),
                })),
                None => Ok(None),
            },
            Deed::Choose(_, symbol) => Ok(Some(Assign {
                symbol,
                value: UserVal::Tri(Tri::Yes),
            })),
        }
    }

    /// How many symbols no longer have what the user gave them. The error comes where memory is refused.
    fn lost(&mut self) -> Result<u32, AllocError> {
        let reached = Reached::by(self.alloc, self.tree, self.deeds.as_slice())?;
        let mut count: u32 = 0;
        for symbol in self.given.as_slice() {
            if reached.has(self.tree, *symbol) && !self.trial.has_given(*symbol)? {
                count = count.saturating_add(1);
            }
        }
        Ok(count)
    }

    /// What the lines of what was done cost, and besides each symbol that no longer has what the user gave it. The error
    /// comes where memory is refused.
    pub fn score(&mut self) -> Result<u32, AllocError> {
        let mut score = self.lost()?.saturating_mul(LOST);
        for deed in self.deeds.as_slice() {
            let cost = match deed {
                Deed::Nothing => 0,
                Deed::Give(symbol, _) => self.prices().line_of(*symbol),
                Deed::GiveText(_, _) => TEXT_LINE,
                Deed::Choose(_, _) => MEMBER_LINE,
            };
            score = plus(score, cost);
        }
        Ok(score)
    }

    /// The lines of what was done: of each symbol and each choice the last. The error comes where memory is refused.
    pub fn lines(&self) -> Result<Vec<Assign>, AllocError> {
        let mut lines = Vec::new(self.alloc);
        for deed in self.deeds.iter().rev() {
            if let Some(line) = self.line_of(*deed)?
                && !self.is_named(lines.as_slice(), line.symbol)
            {
                lines.push(line)?;
            }
        }
        Ok(lines)
    }
}
