//! The text of an answer.

ghost use Rattle.std.specs.Prelude.{[], All, IfOk};
ghost use Rattle.std.specs.String.{string_bytes};
ghost use Rattle.kc_files.specs.ConfigReading.{IsConfigReading};
ghost use Rattle.kc_how.specs.Answer.{IsLine};
ghost use Rattle.kc_how.specs.Apart.{AreApart};

use kc_files::{Assign, Prefix, assigns_text};
use kc_tree::Tree;
use std::alloc::{AllocError, Global};

/// The text of lines that are apart, as a fragment: it is read back as just these lines, in their order, without a warning.
///
/// # Errors
///
/// The error comes where memory is refused.
#[tactic(auto, using(crate::proofs::FragmentLaws::are_assigns))]
pub fn fragment_text(
    alloc: Global,
    tree: &Tree,
    prefix: &Prefix,
    lines: &[Assign],
) -> Result<String, AllocError>
    requires lines { All (IsLine tree.now) lines.now }
    requires apart { AreApart tree.now lines.now }
    ensures { IfOk result (λ text. IsConfigReading tree.now prefix.now (string_bytes text) lines.now []) }
{
    assigns_text(alloc, tree, prefix, lines)
}
