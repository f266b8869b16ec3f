//! Whether lines are apart, so that their order does not matter.

ghost use Rattle.std.specs.Prelude.{◌≡◌, ◌↔◌, true, All};
ghost use Rattle.kc_how.specs.Apart.{AreApart, AreTested, IsBeforeFirst, OfOtherChoice};

use kc_files::Assign;
use kc_tree::Tree;

/// Whether a line names a symbol before that of the first of others, in the order of the tree.
fn is_before_first(line: &Assign, later: &[Assign]) -> bool
    ensures { (result ≡ true) ↔ IsBeforeFirst line.now later.now }
{
    match later.first() {
        Some(first) => line.symbol.0 < first.symbol.0,
        None => true,
    }
}

/// Whether the symbol of a line is no member of a choice that one of a later line is a member of.
fn is_of_other_choice(tree: &Tree, line: &Assign, later: &[Assign]) -> bool
    ensures { (result ≡ true) ↔ All (OfOtherChoice tree.now line.now) later.now }
{
    let Some(choice) = tree.choice_of(line.symbol) else {
        return true;
    };
    for other in later {
        if tree.choice_of(other.symbol) == Some(choice) {
            return false;
        }
    }
    true
}

/// Whether each line comes before the next, and is of another choice than each later one. Only for a member of a choice
/// are the later lines gone over.
fn are_tested(tree: &Tree, lines: &[Assign]) -> bool
    ensures { (result ≡ true) ↔ AreTested tree.now lines.now }
{
    let mut rest = lines;
    while let Some((line, later)) = rest.split_first() {
        if !is_before_first(line, later) {
            return false;
        }
        if !is_of_other_choice(tree, line, later) {
            return false;
        }
        rest = later;
    }
    true
}

/// Whether lines are in the order of the tree and name different symbols, of which no two are members of one choice.
#[tactic(auto, using(crate::proofs::ApartLaws::apart_is))]
pub(crate) fn are_apart(tree: &Tree, lines: &[Assign]) -> bool
    ensures { (result ≡ true) ↔ AreApart tree.now lines.now }
{
    are_tested(tree, lines)
}
