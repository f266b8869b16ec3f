//! The search: runs with few turns off the cheapest ways first.

use crate::finder::Finder;
use crate::run::{Branch, Course, Turn};
use kc_files::Assign;
use kc_value::{Known, Solved};
use std::alloc::{AllocError, Global};

/// How many runs and steps there are at most, after the first find fewer, and how many turns are kept to be tried.
const MOST_RUNS: usize = 600;

const MOST_STEPS: usize = 3000;

const MOST_STEPS_AFTER_FIND: usize = 250;

const MOST_WAITING: usize = 1000;
/// How many lists of lines are found at most.
const MOST_FOUND: usize = 3;
/// A list with this score is not bettered: two lines, and nothing is lost.
const GOOD_SCORE: u32 = 52;
/// What a turn costs besides what its way costs more.
const TURN: u32 = 10;

/// What the search finds.
#[derive(Debug, Drop)]
pub enum Search {
    /// Lists of lines to try, the best first. Each gave what is wanted when it was tried, and may have lines too many.
    Candidates(Vec<Vec<Assign>>),
    /// Nothing was found, and all that the search looks at was tried: with the place of the wanted value at which most
    /// runs ended.
    NotFound(usize),
    /// Nothing was found within the steps of the search: with the same place.
    GaveUp(usize),
}

/// A run that is to be tried: its turns, and what they cost.
#[derive(Drop)]
struct Path {
    turns: Vec<Turn>,
    cost: u32,
}

/// A list of lines that was found.
#[derive(Drop)]
struct Found {
    lines: Vec<Assign>,
    score: u32,
}

/// The runs that are to be tried, and what was found.
#[derive(Drop)]
struct Paths {
    alloc: Global,
    waiting: Vec<Path>,
    found: Vec<Found>,
    /// At which wanted value runs ended.
    missed: Vec<usize>,
    steps: usize,
    /// The steps at which the first list was found.
    first: Option<usize>,
    /// Whether a list was found after which nothing else is looked for.
    is_good: bool,
    /// Whether a run ended, or was left out, since there were too many steps or runs.
    is_spent: bool,
}

impl Paths {
    /// The run without turns, which is the first to be tried. The error comes where memory is refused.
    fn new(alloc: Global) -> Result<Paths, AllocError> {
        let mut waiting = Vec::new(alloc);
        waiting.push(Path {
            turns: Vec::new(alloc),
            cost: 0,
        })?;
        Ok(Paths {
            alloc,
            waiting,
            found: Vec::new(alloc),
            missed: Vec::new(alloc),
            steps: 0,
            first: None,
            is_good: false,
            is_spent: false,
        })
    }

    /// The cheapest run that is to be tried.
    fn next(&mut self) -> Option<Path> {
        let mut cheapest: Option<(usize, u32)> = None;
        for (place, path) in self.waiting.iter().enumerate() {
            cheapest = match cheapest {
                Some((other, cost)) if cost <= path.cost => Some((other, cost)),
                _ => Some((place, path.cost)),
            };
        }
        let (place, _) = cheapest?;
        if place < self.waiting.len() {
            Some(self.waiting.remove(place))
        } else {
            None
        }
    }

    /// Adds the runs with one more turn. The error comes where memory is refused.
    fn add_branches(
        &mut self,
        turns: &[Turn],
        cost: u32,
        branches: &[Branch],
    ) -> Result<(), AllocError> {
        for branch in branches {
            if self.waiting.len() >= MOST_WAITING {
                self.is_spent = true;
                return Ok(());
            }
            let mut turns = Vec::from_slice(self.alloc, turns)?;
            turns.push(branch.turn)?;
            let cost = cost.saturating_add(branch.more).saturating_add(TURN);
            self.waiting.push(Path { turns, cost })?;
        }
        Ok(())
    }

    /// Whether no more runs are to be tried.
    fn is_over(&self) -> bool {
        let steps_after = match self.first {
            Some(first) => self.steps.saturating_sub(first),
            None => 0,
        };
        self.steps > MOST_STEPS
            || steps_after > MOST_STEPS_AFTER_FIND
            || self.found.len() >= MOST_FOUND
            || self.is_good
    }

    /// The place at which most runs ended.
    fn most_missed(&self) -> usize {
        let mut most = (0, 0);
        for place in self.missed.as_slice() {
            let count = self.missed.iter().filter(|other| *other == place).count();
            if count > most.1 {
                most = (*place, count);
            }
        }
        most.0
    }

    /// Tries a run. The error comes where memory is refused.
    fn try_path(
        &mut self,
        finder: &mut Finder<'_>,
        path: Path,
        wanted: &[Assign],
    ) -> Result<(), AllocError> {
        let cost = path.cost;
        let mut course = Course {
            turns: path.turns,
            points: 0,
            branches: Vec::new(self.alloc),
            steps: 0,
            row: 0,
            is_spent: false,
        };
        match finder.run(&mut course, wanted)? {
            Some(place) => self.missed.push(place)?,
            None => {
                let lines = finder.lines()?;
                let score = finder.score()?;
                self.is_good = self.is_good || score <= GOOD_SCORE;
                self.found.push(Found { lines, score })?;
                self.first = self.first.or(Some(self.steps));
            }
        }
        self.steps = self.steps.saturating_add(course.steps);
        self.is_spent = self.is_spent || course.is_spent;
        self.add_branches(course.turns.as_slice(), cost, course.branches.as_slice())
    }

    /// Tries runs until it is over or none is left. The error comes where memory is refused.
    fn try_all(&mut self, finder: &mut Finder<'_>, wanted: &[Assign]) -> Result<(), AllocError> {
        for _ in 0..MOST_RUNS {
            if self.is_over() {
                return Ok(());
            }
            let Some(path) = self.next() else {
                return Ok(());
            };
            self.try_path(finder, path, wanted)?;
        }
        Ok(())
    }

    /// Takes what the runs came to. The error comes where memory is refused.
    fn take_search(&mut self) -> Result<Search, AllocError> {
        let missed = self.most_missed();
        if self.found.is_empty() {
            let is_all = self.waiting.is_empty() && !self.is_spent;
            return Ok(if is_all {
                Search::NotFound(missed)
            } else {
                Search::GaveUp(missed)
            });
        }
        let found = std::mem::replace(&mut self.found, Vec::new(self.alloc));
        Ok(Search::Candidates(lists_of(self.alloc, found)?))
    }
}

/// The lists of lines, the best first. The error comes where memory is refused.
fn lists_of(alloc: Global, mut found: Vec<Found>) -> Result<Vec<Vec<Assign>>, AllocError> {
    found.sort_by_key(|one| one.score)?;
    let mut lists = Vec::new(alloc);
    for one in found {
        lists.push(one.lines)?;
    }
    Ok(lists)
}

/// Looks for lines of a `.config` that give what is wanted, in a tree with user values, where all nodes have their values.
/// What it finds was tried; the other answers say what the search came to, and promise nothing.
///
/// # Errors
///
/// `AllocError` where memory is refused.
pub fn candidates(
    alloc: Global,
    solved: &Solved<'_>,
    wanted: &[Assign],
) -> Result<Search, AllocError> {
    let start = Known::of_nodes(solved.tree(), solved.values());
    let mut finder = Finder::new(alloc, solved.tree(), &start, solved.user())?;
    let mut paths = Paths::new(alloc)?;
    paths.try_all(&mut finder, wanted)?;
    paths.take_search()
}
