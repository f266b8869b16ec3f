//! Which of the attribute lines of a definition, a choice or a block says what.

ghost use Rattle.std.specs.Prelude.{◌≡◌, filter, slice_get};
ghost use Rattle.std.specs.Option.{option_copied};
ghost use Rattle.kc_lines.specs.Attributes.{last_help, says};

use crate::parts::{Attribute, says};
use kc_text::{HelpText, Line};

/// The line of a number, from 0, among those that say an attribute.
#[tactic(auto, using(crate::proofs::NthLaws::passed_over, crate::proofs::NthLaws::found_first, crate::proofs::NthLaws::counted_down))]
pub(crate) fn nth_saying<'l, 'a>(
    attributes: &'l [Line<'a>],
    attribute: Attribute,
    number: usize,
) -> Option<&'l Line<'a>>
    ensures { option_copied result ≡ slice_get (filter (says attribute) attributes.entry.now) number }
{
    let mut left = number;
    for line in attributes {
        if !says(attribute, line) {
            continue;
        }
        if left == 0 {
            return Some(line);
        }
        left -= 1;
    }
    None
}

/// The help text: of several the last, which is the one that counts (Kconfiglib, "help").
#[tactic(auto, using(crate::proofs::HelpLaws::help_begun, crate::proofs::HelpLaws::help_after))]
pub fn help_of<'l, 'a>(attributes: &'l [Line<'a>]) -> Option<&'l HelpText<'a>>
    ensures { option_copied result ≡ last_help attributes.entry.now }
{
    let mut last = None;
    for line in attributes {
        last = line.help().or(last);
    }
    last
}
