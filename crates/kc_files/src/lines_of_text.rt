//! The lines of a text.

ghost use Rattle.std.specs.Prelude.{◌≡◌, IfOk, map};
ghost use Rattle.std.specs.List.{slice_split};
ghost use Rattle.kc_files.specs.ConfigLines.{is_feed};

use std::alloc::{AllocError, Global};

/// The lines of a text, each without its line feed. After the last line feed there is one more, which may be empty.
///
/// # Errors
///
/// `AllocError` where memory is refused.
pub fn text_lines<'c>(alloc: Global, text: &'c [u8]) -> Result<Vec<&'c [u8]>, AllocError>
    ensures { IfOk result (λ lines. map (λ line. line.now) lines.items ≡ slice_split is_feed text.now) }
{
    text.split(|byte| *byte == b'\n').collect(alloc)
}
