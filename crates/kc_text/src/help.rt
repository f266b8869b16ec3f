//! Help texts, and the lines that begin them.

ghost use Rattle.std.specs.Prelude.{◌≡◌, ◌+◌, ◌^◌, ◌<◌, ◌≤◌, ◌==◌, ◌||◌, drop, length, slice_index, ◌++◌, string_bytes, take, IfOk, OnOk, ◌∷◌, [], codes, true, None, Ok};
ghost use Rattle.std.specs.Str.Lines.{lines};
ghost use Rattle.kc_text.specs.Bytes.{behind_blanks};
ghost use Rattle.kc_text.specs.Help.{before_comment, begins_with_end, column_after, first_indentation, first_of, help_len, indentation, is_blank_line, is_help, is_inside, len_inside, passed_lines, help_line, help_text};
ghost use Rattle.std.specs.List.{suffix_len};
ghost use Rattle.kc_text.specs.Scanning.{texts_of};
ghost use Rattle.kc_text.specs.Definitions.{definition_of};
ghost use Rattle.kc_text.specs.Expansion.{Environment, Names};
ghost use Rattle.kc_text.specs.Reading.{source_path};
ghost use Rattle.kc_text.specs.Tokens.{line_tokens};
ghost use Rattle.kc_text.specs.declared.line.Token.TheVariants.{Word};

use crate::bytes::{before_blanks, behind_blanks, blank_len, is_blank, trimmed};
use crate::items::first_line;
use crate::line::{LineTokens, Token};
use crate::text::{Text, TextRef};
use bumpalo::Bump;
use bumpalo::collections::into_bump_slice;
use std::alloc::{AllocError, Global};
use std::marker::Model;

/// The columns from one tab stop to the next.
const TAB: u128 = 8;

/// The text before its first number sign.
fn before_comment(text: &str) -> &str
    ensures { result.now ≡ before_comment text.now }
{
    let len = text
        .as_bytes()
        .iter()
        .take_while(|byte| **byte != b'#')
        .count();
    let (before, _) = text.split_at(len);
    before
}

/// Whether the first byte of a line that is no blank is one of those of `help` and `---help---`.
fn begins_help(line: &str) -> bool
    ensures { result ≡ (slice_index (behind_blanks line.now) 0 == 104 || slice_index (behind_blanks line.now) 0 == 45) }
{
    match behind_blanks(line).as_bytes() {
        [] => false,
        [first, ..] => *first == b'h' || *first == b'-',
    }
}

/// Whether the first byte of a line that is no blank is a dash.
pub(crate) fn begins_dash(line: &str) -> bool
    ensures { result ≡ (slice_index (behind_blanks line.now) 0 == 45) }
{
    match behind_blanks(line).as_bytes() {
        [] => false,
        [first, ..] => *first == b'-',
    }
}

/// Whether `help` or `---help---` is the only token of a line.
pub(crate) fn is_help(line: &str) -> bool
    ensures { result ≡ is_help line.now }
{
    if !begins_help(line) {
        return false;
    }
    let only = trimmed(before_comment(line));
    only == "help" || only == "---help---"
}

/// Whether a line has blanks alone.
pub(crate) fn is_blank_line(line: &str) -> bool
    ensures { result ≡ is_blank_line line.now }
{
    blank_len(line) == line.len()
}

/// The column after a blank at a column: a tab goes to the next multiple of 8.
fn column_after(column: u128, blank: u8) -> u128
    requires { column + 8 < 2 ^ 128 }
    ensures { result ≡ column_after column blank }
{
    if blank == b'\t' {
        (column / TAB + 1) * TAB
    } else {
        column + 1
    }
}

/// The column of the first byte of a line that is no blank.
pub(crate) fn indentation(line: &str) -> u128
    ensures { result ≡ indentation line.now }
{
    let (blanks, _) = line.split_at(blank_len(line));
    let mut column = 0;
    for byte in blanks.as_bytes() {
        column = column_after(column, *byte);
    }
    column
}

/// Whether a text begins with the end of a line, or is empty.
fn begins_with_end(text: &str) -> bool
    ensures { result ≡ begins_with_end text.now }
{
    matches!(text.as_bytes(), [] | [b'\n', ..] | [b'\r', b'\n', ..])
}

/// Whether the first line of a text has blanks alone.
fn begins_blank_line(text: &str) -> bool
    ensures { result ≡ is_blank_line (first_of text.now) }
{
    begins_with_end(behind_blanks(text))
}

/// The number of lines of blanks that a text begins with, and the text after them.
pub(crate) fn skip_blank_lines(text: &str) -> (usize, &str)
    ensures count { result.0 ≡ passed_lines (lines text.now) }
    ensures rest { lines result.1.now ≡ drop result.0 (lines text.now) }
    ensures within { result.0 + length result.1.now ≤ length text.now }
{
    let mut count = 0;
    let mut rest = text;
    while !rest.is_empty() {
        if !begins_blank_line(rest) {
            return (count, rest);
        }
        let (_, after) = first_line(rest);
        count += 1;
        rest = after;
    }
    (count, rest)
}

/// The indentation of the first line of a text, 0 without lines.
pub(crate) fn first_indentation(text: &str) -> u128
    ensures { result ≡ first_indentation (lines text.now) }
{
    // the blanks before it are in that line
    indentation(text)
}

/// Whether the first line of a text belongs to a help text of an indentation.
fn is_inside(column: u128, text: &str) -> bool
    ensures { result ≡ is_inside column (first_of text.now) }
{
    let mut reached = 0;
    for byte in text.as_bytes() {
        if !is_blank(*byte) {
            return column <= reached || begins_with_end(behind_blanks(text));
        }
        reached = column_after(reached, *byte);
    }
    true
}

/// The number of lines of a help text of an indentation that a text begins with, and the text after them: none where
/// the help text is not indented.
pub(crate) fn skip_inside(column: u128, text: &str) -> (usize, &str)
    ensures count { result.0 ≡ len_inside column (lines text.now) }
    ensures rest { lines result.1.now ≡ drop result.0 (lines text.now) }
    ensures within { result.0 + length result.1.now ≤ length text.now }
{
    if column == 0 {
        return (0, text);
    }
    let mut count = 0;
    let mut rest = text;
    while !rest.is_empty() {
        if !is_inside(column, rest) {
            return (count, rest);
        }
        let (_, after) = first_line(rest);
        count += 1;
        rest = after;
    }
    (count, rest)
}

/// The number of lines of the help text whose `help` is before a text, and the text after them: lines of blanks alone
/// first, and then those that are indented as far as the first other one. Where that one is not indented the help text
/// is empty.
pub(crate) fn skip_help(text: &str) -> (usize, &str)
    ensures count { result.0 ≡ help_len (lines text.now) }
    ensures rest { lines result.1.now ≡ drop result.0 (lines text.now) }
    ensures within { result.0 + length result.1.now ≤ length text.now }
{
    let (passed, after) = skip_blank_lines(text);
    let (len, rest) = skip_inside(first_indentation(after), after);
    (passed + len, rest)
}

/// A help text, lent, which is looked up in the file after its `help` line. Contracts see the bytes of the text.
#[derive(Debug, Drop)]
pub struct HelpText<'a> {
    rest: &'a str,
}

impl<'a> Model for HelpText<'a> {
    ghost use Rattle.std.specs.Prelude.{List, ℕ};
    ghost use Rattle.std.specs.Str.Lines.{lines};
    ghost use Rattle.kc_text.specs.Help.{help_text};

    ghost Value = { List ℕ };

    ghost view = { λ h. help_text (lines h.rest.now) };
}

impl<'a> HelpText<'a> {
    /// The help text of the `help` line that is before a text.
    pub(crate) fn new(rest: &'a str) -> HelpText<'a>
        ensures { result ≡ help_text (lines rest.entry.now) }
    {
        HelpText { rest }
    }

    /// The text, each of its lines with a line feed.
    pub fn to_text(&self, alloc: Global) -> Result<Text, AllocError>
        ensures { IfOk result (λ t. t ≡ self.now) }
    {
        let (_, after) = skip_blank_lines(self.rest);
        let column = first_indentation(after);
        let (len, _) = skip_inside(column, after);
        let taken = first_lines(alloc, len, after)?;
        let taken = taken.as_slice();
        let (lines, _) = taken.split_at(taken.len() - blank_lines_at_end(taken));
        let mut out = String::with_capacity(alloc, room_for(lines))?;
        for line in lines {
            push_help_line(&mut out, column, line)?;
        }
        Ok(Text::new(out))
    }
}

/// The first `count` lines of a text.
fn first_lines<'a>(alloc: Global, count: usize, text: &'a str) -> Result<Vec<&'a str>, AllocError>
    ensures { IfOk result (λ v. texts_of v.items ≡ take count (lines text.now)) }
{
    let mut taken = Vec::with_capacity(alloc, count)?;
    taken.extend(text.lines().take(count))?;
    Ok(taken)
}

/// The number of lines of blanks at the end.
fn blank_lines_at_end(lines: &[&str]) -> usize
    ensures count { result ≡ suffix_len is_blank_line (texts_of lines.now) }
    ensures within { result ≤ length lines.now }
{
    lines
        .iter()
        .rev()
        .take_while(|line| is_blank_line(line))
        .count()
}

/// Appends a line to a help text of an indentation: its own indentation becomes spaces, and blanks at its end are
/// dropped.
fn push_help_line(out: &mut String, column: u128, line: &str) -> Result<(), AllocError>
    ensures { OnOk result (string_bytes out.new ≡ string_bytes out.old ++ help_line column line.now) }
{
    if is_blank_line(line) {
        return out.push('\n');
    }
    for _ in column..indentation(line) {
        out.push(' ')?;
    }
    out.push_str(before_blanks(behind_blanks(line)))?;
    out.push('\n')
}

/// The number of bytes of lines with their ends. Their help text has more only where tabs are in it.
fn room_for(lines: &[&str]) -> usize {
    let mut total: usize = 0;
    for line in lines {
        total = total.saturating_add(line.len()).saturating_add(1);
    }
    total
}

/// The tokens of the lines `help` and `---help---`, which the arena keeps once for all of them.
#[derive(Drop)]
pub(crate) struct HelpTokens<'a> {
    help: &'a [Token<'a>],
    dashed: &'a [Token<'a>],
}

impl<'a> Model for HelpTokens<'a> {
    ghost use Rattle.std.specs.Prelude.{◌≡◌, ◌∷◌, [], codes, ⊤};
    ghost use Rattle.kc_text.specs.declared.line.Token.TheVariants.{Word};

    ghost Value = { ⊤ };

    ghost view = { λ _. tt };

    ghost invariant = { λ h. (h.help.now ≡ Word (codes "help") ∷ []) × (h.dashed.now ≡ Word (codes "---help---") ∷ []) };
}

/// The token of a word, which the arena keeps.
fn kept_word<'a>(arena: &'a Bump, word: &'a str) -> Result<&'a [Token<'a>], AllocError>
    ensures { IfOk result (λ tokens. tokens.now ≡ Word word.entry.now ∷ []) }
{
    let mut tokens = Vec::with_capacity(arena, 1)?;
    tokens.push(Token::Word(TextRef::new(word)))?;
    Ok(into_bump_slice(tokens))
}

impl<'a> HelpTokens<'a> {
    /// The tokens of both lines, which the arena keeps.
    pub(crate) fn new(arena: &'a Bump) -> Result<HelpTokens<'a>, AllocError> {
        Ok(HelpTokens {
            help: kept_word(arena, "help")?,
            dashed: kept_word(arena, "---help---")?,
        })
    }

    /// The tokens of a `help` line, which is no definition and names no file.
    pub(crate) fn of(&self, line: &str) -> LineTokens<'a>
        requires help { is_help line.now ≡ true }
        ensures statement { definition_of line.now ≡ None }
        ensures tokens { (names : Names) (outside : Environment) → line_tokens names outside line.now ≡ Ok result }
        ensures no_source { source_path result ≡ None }
    {
        if begins_dash(line) {
            LineTokens::new(self.dashed)
        } else {
            LineTokens::new(self.help)
        }
    }
}
