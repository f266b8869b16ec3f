//! Wanted values that no user values give.

ghost use Rattle.std.specs.Prelude.{◌≡◌, IfSome, false};
ghost use Rattle.kc_how.specs.Impossible.{IsImpossible, IsNever};

use kc_bounds::Bounds;
use kc_files::Assign;

/// Whether some user values may give a wanted value. Where they may not, none do.
fn may_have(limits: &Bounds<'_>, wanted: &Assign) -> bool
    ensures { result ≡ false → IsNever limits.now.tree wanted.now }
{
    limits.can_be(wanted.symbol, &wanted.value)
}

/// The index of the first wanted value that the bounds of a tree exclude: no user values give it. That there is none
/// shows nothing.
pub fn first_impossible(limits: &Bounds<'_>, wanted: &[Assign]) -> Option<usize>
    ensures { IfSome result (IsImpossible limits.now.tree wanted.now) }
{
    for index in 0..wanted.len() {
        if !may_have(limits, &wanted[index]) {
            return Some(index);
        }
    }
    None
}
