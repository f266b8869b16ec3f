//! Lines of files that were included before.

ghost use Rattle.std.specs.Prelude.{◌≡◌, IfOk, map};
ghost use Rattle.std.specs.List.{filter, list_any};
ghost use Rattle.kc_line_facts.specs.UnusedDefaults.{ends_before, is_defined_again, is_end};

use kc_lines::{Family, LineIndex, Part};
use kc_text::{Line, LineKind};
use std::alloc::{AllocError, Global};

/// Whether a line is the end of a file.
pub(crate) fn is_end(line: &Line<'_>) -> bool
    ensures { result ≡ is_end line.now }
{
    line.kind() == LineKind::EndOfFile
}

/// The ends of files among lines.
pub(crate) fn ends_of<'l, 'a>(
    alloc: Global,
    lines: &'l [Line<'a>],
) -> Result<Vec<&'l Line<'a>>, AllocError>
    ensures { IfOk result (λ ends. map (λ e. e.now) ends.items ≡ filter is_end lines.entry.now) }
{
    lines.iter().filter(|line| is_end(line)).collect(alloc)
}

/// Whether the end of a file is that of an earlier inclusion of the file of a line.
fn ends_before(line: &Line<'_>, end: &Line<'_>) -> bool
    ensures { result ≡ ends_before line.now end.now }
{
    end.run() < line.run() && end.path() == line.path()
}

/// Whether the file of a line was included before, by the ends of files.
fn is_read_again(ends: &[&Line<'_>], line: &Line<'_>) -> bool
    ensures { result ≡ list_any (λ e. ends_before line.now e.now) ends.now }
{
    ends.iter().any(|end| ends_before(line, end))
}

/// Whether the file of the line that begins the definition of a number was included before, by the ends of files.
pub(crate) fn is_defined_again(index: &LineIndex<'_, '_>, ends: &[&Line<'_>], number: usize) -> bool
    requires { map (λ e. e.now) ends.now ≡ filter is_end index.now }
    ensures { result ≡ is_defined_again index.now number }
{
    match index.line(Part::Owner(Family::Definition, number)) {
        Some(line) => is_read_again(ends, line),
        None => false,
    }
}
