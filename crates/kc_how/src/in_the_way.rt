//! What is in the way of a wanted value that no user values give, from what it needs to what that needs.

ghost use Rattle.std.specs.Prelude.{IfSome};
ghost use Rattle.kc_how.specs.InTheWay.{IsInTheWay};

use crate::conditions_in_way::in_condition;
use crate::obstacle::{Cause, MODULE, NO, Obstacle, YES, lacking_symbol};
use crate::symbols_in_way::in_symbol;
use kc_bounds::{Bounds, TriSet};
use kc_files::Assign;
use kc_tree::{Tree, Tri, UserVal};

/// The most symbols, conditions and parts of conditions that are followed from one to the next.
const MOST_FOLLOWED: usize = 256;

/// What is in the way of a wanted value that the bounds of a tree exclude: the symbol, followed to what it needs and never
/// has, and on to what that needs. What is found never has a value that is needed of it, whatever the user gives.
pub fn obstacle_to<'t>(tree: &'t Tree, limits: &Bounds<'_>, wanted: &Assign) -> Option<Obstacle<'t>>
    ensures { IfSome result (IsInTheWay limits.now.tree) }
{
    let needed = needed_of(&wanted.value)?;
    let mut found = lacking_symbol(limits, wanted.symbol, needed, Cause::Unknown)?;
    for _step in 0..MOST_FOLLOWED {
        match in_obstacle(tree, limits, found) {
            Some(next) => found = next,
            None => return Some(found),
        }
    }
    Some(found)
}

/// The set of a wanted value, none of a text.
fn needed_of(value: &UserVal) -> Option<TriSet> {
    match value {
        UserVal::Tri(Tri::No) => Some(NO),
        UserVal::Tri(Tri::Module) => Some(MODULE),
        UserVal::Tri(Tri::Yes) => Some(YES),
        UserVal::Text(_) => None,
    }
}

/// What is in the way of what is in the way; none where nothing more is found.
fn in_obstacle<'t>(tree: &'t Tree, limits: &Bounds<'_>, found: Obstacle<'t>) -> Option<Obstacle<'t>>
    ensures { IfSome result (IsInTheWay limits.now.tree) }
{
    match found {
        Obstacle::Undefined(_) | Obstacle::NoModules => None,
        Obstacle::Condition(condition) => in_condition(tree, limits, condition),
        Obstacle::Symbol(symbol) => in_symbol(tree, limits, symbol),
    }
}
