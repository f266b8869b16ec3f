//! The lines of a file, and which of them are taken together.

ghost use Rattle.std.specs.Prelude.{◌≡◌, ◌<◌, ◌∷◌, length, false, slice_index, ◌+◌, drop, true, IfOk, IfSome, [], IfNone, MatchOption, None, Some};
ghost use Rattle.std.specs.List.{position_or_len};
ghost use Rattle.std.specs.Str.Lines.{lines, strip_carriage_return};
ghost use Rattle.kc_text.specs.Bytes.{is_feed, behind_blanks};
ghost use Rattle.kc_text.specs.Help.{is_help};
ghost use Rattle.kc_text.specs.declared.items.Start.TheVariants.{Silent, Other};
ghost use Rattle.kc_text.specs.Items.{before_backslash, behind_joined, ends_in_backslash, first_item, joined, joined_more};
ghost use Rattle.kc_text.specs.Scanning.{item_of, joined_text};
ghost use Rattle.kc_text.specs.Defining.{definition_of};
ghost use Rattle.kc_text.specs.LeadingItem.{BeginsWith};

use crate::bytes::{behind_blanks, text_after};
use crate::help::{HelpText, is_help, skip_help};
use crate::text::Text;
use crate::variables::{Definition, definition_of};
use memchr::memchr;
use std::alloc::{AllocError, Global};
use std::marker::Model;

/// A line without the carriage return at its end.
fn before_return(line: &str) -> &str
    ensures { result.now ≡ strip_carriage_return line.now }
{
    if line.as_bytes().last() == Some(&b'\r') {
        &line[..line.len() - 1]
    } else {
        line
    }
}

/// The length of the first line of a text, without its line feed.
fn line_len(text: &str) -> usize
    ensures { result ≡ position_or_len is_feed text.now }
{
    match memchr(b'\n', text.as_bytes()) {
        Some(len) => len,
        None => text.len(),
    }
}

/// The first line of a text, without its end, and the text after it.
pub(crate) fn first_line(text: &str) -> (&str, &str)
    requires some { 0 < length text.now }
    ensures lines { lines text.now ≡ result.0.now ∷ lines result.1.now }
    ensures shorter { length result.1.now < length text.now }
{
    if let [b'\n', ..] = text.as_bytes() {
        return ("", text_after(text, 0));
    }
    let len = line_len(text);
    if len == text.len() {
        // the last line, where no line feed ends it, keeps its carriage return
        return (text, "");
    }
    let (line, end) = text.split_at(len);
    (before_return(line), text_after(end, 0))
}

/// What a line may be, by its first byte that is no blank.
#[derive(Clone, Copy)]
pub(crate) enum Start {
    /// A line of blanks, or a comment.
    Silent,
    /// A line that may be `help` or `---help---`.
    MaybeHelp,
    /// Any other line.
    Other,
}

/// The first line of a file.
#[derive(Clone, Copy)]
pub(crate) struct Front<'a> {
    /// The line without its end.
    pub(crate) line: &'a str,
    pub(crate) start: Start,
    /// The file after the line.
    pub(crate) rest: &'a str,
}

/// What a line may be, by its first byte that is no blank.
fn start_of(line: &str) -> Start
    ensures silent { result ≡ Silent → 0 < length (behind_blanks line.now) → slice_index (behind_blanks line.now) 0 ≡ 35 }
    ensures other { result ≡ Other → is_help line.now ≡ false }
{
    let [first, ..] = behind_blanks(line).as_bytes() else {
        return Start::Silent;
    };
    if *first == b'#' {
        return Start::Silent;
    }
    if *first == b'h' || *first == b'-' {
        return Start::MaybeHelp;
    }
    Start::Other
}

impl<'a> Front<'a> {
    /// The first line of a file.
    pub(crate) fn of(file: &'a str) -> Front<'a>
        requires some { 0 < length file.now }
        ensures lines { lines file.now ≡ result.line.now ∷ lines result.rest.now }
        ensures shorter { length result.rest.now < length file.now }
        ensures silent { result.start ≡ Silent → 0 < length (behind_blanks result.line.now) → slice_index (behind_blanks result.line.now) 0 ≡ 35 }
        ensures other { result.start ≡ Other → is_help result.line.now ≡ false }
    {
        let (line, rest) = first_line(file);
        Front {
            line,
            start: start_of(line),
            rest,
        }
    }
}

/// The text of lines that are joined.
#[derive(Drop)]
pub(crate) enum Joined<'a> {
    /// One line as it is.
    One(&'a str),
    /// More than one, or one that ends in a backslash.
    Many(Text),
}

impl<'a> Joined<'a> {
    /// The text, lent.
    pub(crate) fn as_str(&self) -> &str
        ensures { result.now ≡ joined_text self.now }
    {
        match self {
            Joined::One(text) => text,
            Joined::Many(text) => text.as_str(),
        }
    }
}

/// Lines of a file that are taken together.
#[derive(Drop)]
pub(crate) struct Item<'a> {
    pub(crate) text: Joined<'a>,
    /// The help text, where the text is `help`.
    pub(crate) help: Option<HelpText<'a>>,
    /// The number of lines after the first.
    pub(crate) more: usize,
    /// The file after these lines.
    pub(crate) rest: &'a str,
}

/// Whether a line is joined with the next one.
pub(crate) fn ends_in_backslash(line: &str) -> bool
    ensures { result ≡ ends_in_backslash line.now }
{
    line.as_bytes().last() == Some(&b'\\')
}

/// A line without the backslash at its end.
fn before_backslash(line: &str) -> &str
    ensures { result.now ≡ before_backslash line.now }
{
    if ends_in_backslash(line) {
        &line[..line.len() - 1]
    } else {
        line
    }
}

/// The text of the first line of a file and those that are joined to it, the number of these, and the file after them.
fn join_lines<'a>(alloc: Global, file: &'a str) -> Result<(Text, usize, &'a str), AllocError>
    requires some { 0 < length file.now }
    ensures text { IfOk result (λ r. r.0 ≡ joined (lines file.now)) }
    ensures more { IfOk result (λ r. r.1 ≡ joined_more (lines file.now)) }
    ensures rest { IfOk result (λ r. lines r.2.now ≡ behind_joined (lines file.now)) }
    ensures within { IfOk result (λ r. r.1 + length r.2.now < length file.now) }
{
    let mut out = String::new(alloc);
    let mut more = 0;
    let (mut line, mut rest) = first_line(file);
    while ends_in_backslash(line) && !rest.is_empty() {
        out.push_str(before_backslash(line))?;
        more += 1;
        let (next, after) = first_line(rest);
        line = next;
        rest = after;
    }
    out.push_str(before_backslash(line))?;
    Ok((Text::new(out), more, rest))
}

/// What `join_lines` gives, with the text of a line lent that is joined to none.
fn join_first<'a>(
    alloc: Global,
    file: &'a str,
    front: Front<'a>,
) -> Result<(Joined<'a>, usize, &'a str), AllocError>
    requires cut { lines file.now ≡ front.line.now ∷ lines front.rest.now }
    requires shorter { length front.rest.now < length file.now }
    ensures text { IfOk result (λ r. joined_text r.0 ≡ joined (lines file.now)) }
    ensures more { IfOk result (λ r. r.1 ≡ joined_more (lines file.now)) }
    ensures rest { IfOk result (λ r. lines r.2.now ≡ behind_joined (lines file.now)) }
    ensures within { IfOk result (λ r. r.1 + length r.2.now < length file.now) }
{
    if !ends_in_backslash(front.line) {
        return Ok((Joined::One(front.line), 0, front.rest));
    }
    let (text, more, rest) = join_lines(alloc, file)?;
    Ok((Joined::Many(text), more, rest))
}

/// The item that a file begins with.
pub(crate) fn first_item<'a>(
    alloc: Global,
    file: &'a str,
    front: Front<'a>,
) -> Result<Item<'a>, AllocError>
    requires cut { lines file.now ≡ front.line.now ∷ lines front.rest.now }
    requires shorter { length front.rest.now < length file.now }
    requires other { front.start ≡ Other → is_help front.line.now ≡ false }
    ensures item { IfOk result (λ i. item_of i ≡ first_item (lines file.now)) }
    ensures help { IfOk result (λ i. IfSome i.help (λ _. is_help (joined_text i.text) ≡ true)) }
    ensures rest { IfOk result (λ i. lines i.rest.now ≡ drop (i.more + 1) (lines file.now)) }
    ensures within { IfOk result (λ i. i.more + length i.rest.now < length file.now) }
{
    if matches!(front.start, Start::Other) && !ends_in_backslash(front.line) {
        return Ok(Item {
            text: Joined::One(front.line),
            help: None,
            more: 0,
            rest: front.rest,
        });
    }
    let (text, more, after) = join_first(alloc, file, front)?;
    if !is_help(text.as_str()) {
        return Ok(Item {
            text,
            help: None,
            more,
            rest: after,
        });
    }
    let (taken, rest) = skip_help(after);
    Ok(Item {
        text,
        help: Some(HelpText::new(after)),
        more: more + taken,
        rest,
    })
}

/// Lines of a file that are taken together: a line with those that are joined to it, and where it is `help` the lines of
/// its help text. Contracts see the record of its text, its help text and the number of its further lines.
#[derive(Drop)]
pub struct FileItem<'a> {
    item: Item<'a>,
}

impl<'a> Model for FileItem<'a> {
    ghost use Rattle.kc_text.specs.ItemLists.{ItemValue};
    ghost use Rattle.kc_text.specs.ItemContent.{item_of};

    ghost Value = { ItemValue };

    ghost view = { λ i. item_of i.item };
}

impl<'a> FileItem<'a> {
    /// The text of the joined lines, each without the backslash at its end.
    pub fn text(&self) -> &str
        ensures { result.now ≡ self.now.text }
    {
        self.item.text.as_str()
    }

    /// The definition of a variable that the text is, which has a value up to its end, `#` and backslashes included.
    pub fn definition(&self) -> Option<Definition<'_>>
        ensures { result ≡ definition_of self.now.text }
    {
        definition_of(self.item.text.as_str())
    }

    /// The help text, where the text is `help` or `---help---`.
    pub fn help(&self) -> Option<&HelpText<'a>>
        ensures { MatchOption result (self.now.help ≡ None) (λ text. self.now.help ≡ Some text.now) }
    {
        self.item.help.as_ref()
    }

    /// The number of lines after the first.
    pub fn more(&self) -> usize
        ensures { result ≡ self.now.more }
    {
        self.item.more
    }
}

/// What a text of a Kconfig file begins with, as its reader takes the lines together, and the text after it. There is
/// nothing in an empty text.
///
/// # Errors
///
/// `AllocError` where memory is refused.
#[tactic(auto, using(crate::proofs::LeadingItems::begins))]
pub fn leading_item<'a>(
    alloc: Global,
    text: &'a str,
) -> Result<Option<(FileItem<'a>, &'a str)>, AllocError>
    ensures none { IfOk result (λ found. IfNone found (text.now ≡ [])) }
    ensures begins { IfOk result (λ found. IfSome found (λ i. BeginsWith (lines text.now) i.0 (lines i.1.now))) }
    ensures shorter { IfOk result (λ found. IfSome found (λ i. length i.1.now < length text.now)) }
    ensures within { IfOk result (λ found. IfSome found (λ i. i.0.more + length i.1.now < length text.now)) }
{
    if text.is_empty() {
        return Ok(None);
    }
    let item = first_item(alloc, text, Front::of(text))?;
    let rest = item.rest;
    Ok(Some((FileItem { item }, rest)))
}
