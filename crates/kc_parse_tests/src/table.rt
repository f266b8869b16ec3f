//! Tables of many rows, each in one text: a row a line, its fields parted by ` | `. An array of tuples would be proved
//! field by field.
//!
//! In a field `\n`, `\r`, `\t`, `\0` and `\\` are what they are in Rust, and `\|` is a bar. Empty lines are no rows,
//! and neither are those that begin with `//`: they say something of the rows below.
use crate::fitting::show_taken;
use crate::line_showing::{lines_of_files, lines_of_pairs, lines_with_pairs};
use crate::nodes::show_all_uses;
use crate::parsing::{fault_of_cut, faults_of, shown};
use crate::reverses::show_reverses;
use crate::sharing::show_size;
use std::alloc::Global;
use std::test::Fail;

/// What the rows of a table have of a text.
#[derive(Clone, Copy)]
pub(crate) enum Shown {
    /// The lines of files, or the first fault. A file is `PATH: TEXT`, with ` & ` between two, and K is the top one.
    Files,
    /// The same of one file K.
    Lines,
    /// The same of one file K with variables before it, each as `NAME=VALUE & `.
    Pairs,
    /// All faults of a file K; the first is that of `Tree::parse`.
    Faults,
    /// The fault of the lines without the end of the file, or that they have a tree.
    Cut,
    /// The user values that the symbols of a file K take.
    Taken,
    /// What its nodes use, and what uses them.
    Uses,
    /// By which `select` and `imply` lines its symbols are named.
    Reverses,
    /// Whether the tables of its tree are small.
    Size,
}

impl Shown {
    /// What is shown of a text.
    fn of(self, alloc: Global, text: &str) -> Result<String, Fail> {
        match self {
            Shown::Files => lines_of_files(alloc, text),
            Shown::Lines => lines_of_pairs(alloc, &[], text),
            Shown::Pairs => lines_with_pairs(alloc, text),
            Shown::Faults => faults_of(alloc, text),
            Shown::Cut => fault_of_cut(alloc, text),
            Shown::Taken => shown(alloc, text, show_taken),
            Shown::Uses => shown(alloc, text, show_all_uses),
            Shown::Reverses => shown(alloc, text, show_reverses),
            Shown::Size => shown(alloc, text, show_size),
        }
    }
}

/// Wants of a text what is shown of it.
pub(crate) fn compare(alloc: Global, shown: Shown, text: &str, want: &str) -> Result<(), Fail> {
    let found = shown.of(alloc, text)?;
    if found.as_str() == want {
        return Ok(());
    }
    Err(Fail::new(format!(in alloc; "{found} at {text:?}, not {want}")?))
}

/// Wants of the text of a row what the row has after it.
fn compare_row(alloc: Global, shown: Shown, row: &str) -> Result<(), Fail> {
    let (text, want) = row.split_once(" | ").ok_or("a row of one field")?;
    let text = unescaped(alloc, text)?;
    let want = unescaped(alloc, want)?;
    compare(alloc, shown, text.as_str(), want.as_str())
}

/// Wants of the text of each row of a table what the row has after it.
pub(crate) fn compare_rows(alloc: Global, shown: Shown, table: &str) -> Result<(), Fail> {
    for row in table.lines() {
        if !row.is_empty() && !row.starts_with("//") {
            compare_row(alloc, shown, row)?;
        }
    }
    Ok(())
}

/// The text of a field.
fn unescaped(alloc: Global, field: &str) -> Result<String, Fail> {
    let mut text = String::new(alloc);
    let mut is_escape = false;
    for character in field.chars() {
        if is_escape {
            text.push(escaped(character).ok_or("an unknown escape")?)?;
            is_escape = false;
        } else if character == '\\' {
            is_escape = true;
        } else {
            text.push(character)?;
        }
    }
    Ok(text)
}

/// The character that a backslash and this one mean.
fn escaped(character: char) -> Option<char> {
    match character {
        'n' => Some('\n'),
        'r' => Some('\r'),
        't' => Some('\t'),
        '0' => Some('\0'),
        '\\' | '|' => Some(character),
        _ => None,
    }
}
