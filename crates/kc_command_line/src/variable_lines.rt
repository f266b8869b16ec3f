//! The variables that lines give, for `--variables`.

ghost use Rattle.std.specs.Prelude.{◌≡◌, option_map, map, IfOk};
ghost use Rattle.std.specs.List.{position, filter_map};
ghost use Rattle.std.specs.Str.Lines.{lines};
ghost use Rattle.kc_command_line.specs.VariableLines.{is_blank, is_comment, is_malformed, is_passed_over, line_variable};

use crate::variables::{is_variable, variable};
use std::alloc::{AllocError, Global};

/// The variables of the lines of a text, each as its name and its text, in their order. A line ends at a line feed, and one
/// carriage return directly before that is dropped. Blank lines, those that begin with `#`, and malformed ones give none.
///
/// # Errors
///
/// `AllocError` where memory is refused.
pub fn variables_in<'a>(alloc: Global, text: &'a str) -> Result<Vec<(&'a str, &'a str)>, AllocError>
    ensures { IfOk result (λ found. map (λ v. (v.0.now, v.1.now)) found.items ≡ filter_map line_variable (lines text.now)) }
{
    let mut variables = Vec::new(alloc);
    for line in text.lines() {
        if let Some(variable) = line_variable(line) {
            variables.push(variable)?;
        }
    }
    Ok(variables)
}

/// How many lines come before the first malformed one, if there is one.
pub fn lines_before_malformed(text: &str) -> Option<usize>
    ensures { result ≡ position is_malformed (lines text.now) }
{
    text.lines().position(is_malformed)
}

/// The name and the text of a line that is `NAME=VALUE`, and neither blank nor a comment.
fn line_variable(line: &str) -> Option<(&str, &str)>
    ensures { option_map (λ v. (v.0.now, v.1.now)) result ≡ line_variable line.now }
{
    if is_passed_over(line) {
        return None;
    }
    variable(line)
}

/// Whether a line is neither blank nor a comment nor `NAME=VALUE`.
fn is_malformed(line: &str) -> bool
    ensures { result ≡ is_malformed line.now }
{
    !is_passed_over(line) && !is_variable(line)
}

/// Whether a line is blank, or a comment: it begins with `#`.
fn is_passed_over(line: &str) -> bool
    ensures { result ≡ is_passed_over line.now }
{
    line.starts_with('#') || is_blank(line)
}

/// Whether a line has spaces and tabs alone, or nothing.
fn is_blank(line: &str) -> bool
    ensures { result ≡ is_blank line.now }
{
    line.as_bytes()
        .iter()
        .all(|byte| *byte == b' ' || *byte == b'\t')
}
