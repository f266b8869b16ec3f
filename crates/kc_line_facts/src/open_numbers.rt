//! The blocks that are open at a line, by their numbers.

ghost use Rattle.std.specs.Prelude.{◌≡◌, ◌≤◌, ◌<◌, ◌+◌, ◌^◌, [], ◌==◌, IfOk, OnOk, if◌then◌else◌, count_by, false, length, reverse};
ghost use Rattle.std.specs.List.{find, list_any};
ghost use Rattle.std.specs.Option.{option_map_or};
ghost use Rattle.kc_statement.specs.Keywords.{is_opener, is_opener_word};
ghost use Rattle.kc_outline.specs.Enclosing.{before};
ghost use Rattle.kc_line_facts.specs.SourcedFiles.{has_condition, is_choice_kind, is_conditional, numbers_after, open_numbers};

use kc_outline::{Block, BlockKind};
use kc_statement::{Keyword, read_keyword};
use kc_text::Line;
use kc_tree::Tree;
use std::alloc::{AllocError, Global};
use std::marker::Model;

/// Whether a block is that of a choice.
fn is_choice_kind(kind: &BlockKind) -> bool
    ensures { result ≡ is_choice_kind kind.now }
{
    match kind {
        BlockKind::Menu(_) => false,
        BlockKind::If => false,
        BlockKind::Choice => true,
    }
}

/// Whether what is in a block depends on something, or is in a choice.
fn has_condition(block: &Block) -> bool
    ensures { result ≡ has_condition block.now }
{
    is_choice_kind(block.kind()) || !block.depends().is_empty() || !block.visible().is_empty()
}

/// The same of the block of a number.
fn is_conditional(tree: &Tree, number: usize) -> bool
    ensures { result ≡ is_conditional tree.now number }
{
    match tree.blocks().get(number) {
        Some(block) => has_condition(block),
        None => false,
    }
}

/// The last block with a condition among these.
fn last_conditional(tree: &Tree, numbers: &[usize]) -> Option<usize>
    ensures { result ≡ find (is_conditional tree.now) (reverse numbers.now) }
{
    let mut left = numbers.len();
    while left > 0 {
        left -= 1;
        if is_conditional(tree, numbers[left]) {
            return Some(numbers[left]);
        }
    }
    None
}

/// Whether a number is one of these.
fn is_among(numbers: &[usize], number: usize) -> bool
    ensures { result ≡ list_any (λ k. k == number) numbers.now }
{
    numbers.iter().any(|other| *other == number)
}

/// The blocks that are open at a line. Contracts see their numbers, the innermost first.
#[derive(Drop)]
pub(crate) struct OpenNumbers {
    /// The innermost is last.
    numbers: Vec<usize>,
}

impl Model for OpenNumbers {
    ghost use Rattle.std.specs.Prelude.{ℕ, List, reverse};

    ghost Value = { List ℕ };

    ghost view = { λ o. reverse o.numbers.items };
}

impl OpenNumbers {
    /// None.
    pub fn new(alloc: Global) -> OpenNumbers
        ensures { result ≡ [] }
    {
        OpenNumbers {
            numbers: Vec::new(alloc),
        }
    }

    /// The innermost one with a condition.
    pub fn condition(&self, tree: &Tree) -> Option<usize>
        ensures { result ≡ find (is_conditional tree.now) self.now }
    {
        last_conditional(tree, self.numbers.as_slice())
    }

    /// Whether the one of a number is open.
    pub fn has(&self, number: usize) -> bool
        ensures { result ≡ list_any (λ k. k == number) self.now }
    {
        is_among(self.numbers.as_slice(), number)
    }

    /// Passes a line of a keyword, which may open the block of a number.
    fn pass(&mut self, keyword: Option<Keyword>, number: usize) -> Result<(), AllocError>
        ensures { OnOk result (self.new ≡ numbers_after keyword number self.old) }
    {
        let Some(word) = keyword else {
            return Ok(());
        };
        if word.opens() {
            self.numbers.push(number)?;
        } else if word.closes() {
            self.numbers.pop();
        }
        Ok(())
    }
}

/// Whether a word opens a block.
fn opens(word: Option<Keyword>) -> bool
    ensures { result ≡ option_map_or is_opener_word word false }
{
    match word {
        Some(word) => word.opens(),
        None => false,
    }
}

/// A count with one more, if there is one.
fn counted(count: usize, is_more: bool) -> usize
    requires { count < 2 ^ 63 }
    ensures { result ≡ (if is_more then count + 1 else count) }
{
    if is_more {
        return count + 1;
    }
    count
}

/// Passes lines from one on up to another, before which so many blocks were opened, and gives how many are then.
pub(crate) fn pass_lines(
    around: &mut OpenNumbers,
    begun: usize,
    lines: &[Line<'_>],
    from: usize,
    to: usize,
) -> Result<usize, AllocError>
    requires forward { from ≤ to }
    requires inside { to ≤ length lines.now }
    requires few { begun ≤ from }
    requires open_before { around.old ≡ open_numbers lines.now from }
    requires counted { begun ≡ count_by is_opener (before lines.now from) }
    ensures around { OnOk result (around.new ≡ open_numbers lines.now to) }
    ensures begun { IfOk result (λ n. n ≡ count_by is_opener (before lines.now to)) }
    ensures within { IfOk result (λ n. n ≤ to) }
{
    let mut count = begun;
    for place in from..to {
        let word = read_keyword(&lines[place]);
        around.pass(word, count)?;
        let next = counted(count, opens(word));
        count = next;
    }
    Ok(count)
}
