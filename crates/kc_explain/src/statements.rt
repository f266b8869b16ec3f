//! The lines of a Kconfig, by what they define, and by what is around them.

ghost use Rattle.std.specs.Prelude.{◌≡◌, option_map};
ghost use Rattle.kc_statement.specs.Names.{token_word};

use crate::said::Unsaid;
use kc_lines::{Family, LineIndex, is_attribute};
use kc_statement::{Keyword, SymbolType, read_keyword};
use kc_text::{Line, LineKind, Token};
use std::alloc::{AllocError, Global};

/// A definition of a symbol, with the numbers of its first and its last line.
#[derive(Clone, Copy)]
pub(crate) struct Definition<'l> {
    pub name: &'l str,
    pub line: usize,
    pub end: usize,
}

/// A block that is opened by the line of the same number in the list of those that open blocks.
#[derive(Clone, Copy)]
struct Block {
    /// The line that closes it.
    end: Option<usize>,
    /// The block around it, by its number.
    outer: Option<usize>,
}

/// The lines of a Kconfig. They are named by their numbers among all lines, from 0.
#[derive(Drop)]
pub(crate) struct Statements<'l, 'a> {
    pub alloc: Global,
    pub lines: &'l [Line<'a>],
    pub definitions: Vec<Definition<'l>>,
    index: LineIndex<'l, 'a>,
    blocks: Vec<Block>,
}

impl<'l, 'a> Statements<'l, 'a> {
    /// Of lines, which may be at fault.
    pub fn read(alloc: Global, lines: &'l [Line<'a>]) -> Result<Statements<'l, 'a>, AllocError> {
        let index = LineIndex::of(alloc, lines)?;
        let definitions = read_definitions(alloc, lines, &index)?;
        let blocks = read_blocks(alloc, lines)?;
        Ok(Statements {
            alloc,
            lines,
            definitions,
            index,
            blocks,
        })
    }

    /// The line of a number.
    pub fn get(&self, line: usize) -> Result<&'l Line<'a>, Unsaid> {
        self.lines.get(line).ok_or(Unsaid::Nothing)
    }

    /// The first word of a line.
    pub fn keyword(&self, line: usize) -> Option<Keyword> {
        read_keyword(self.lines.get(line)?)
    }

    /// The type that a line gives its symbol or its choice.
    fn kind(&self, line: usize) -> Option<SymbolType> {
        type_of(self.keyword(line)?)
    }

    /// The first type that a line of a definition gives its symbol.
    pub fn first_type(&self, definition: &Definition<'_>) -> Option<SymbolType> {
        for line in definition.line..=definition.end {
            if let Some(kind) = self.kind(line) {
                return Some(kind);
            }
        }
        None
    }

    /// The definition that a line belongs to.
    pub fn definition(&self, line: usize) -> Option<Definition<'l>> {
        let count = self
            .definitions
            .partition_point(|definition| definition.line <= line);
        let definition = self.definitions.get(count.checked_sub(1)?)?;
        (line <= definition.end).then_some(*definition)
    }

    /// The nearest line before a line that is no attribute, which may be the end of a file.
    pub fn statement_before(&self, line: usize) -> Option<usize> {
        let before = self.lines.get(..line)?;
        before.iter().rposition(|line| !is_attribute(line))
    }

    /// The line of the choice around a line.
    pub fn choice(&self, line: usize) -> Option<usize> {
        let choices = self.index.starts(Family::Choice);
        let choice = last_up_to(choices, line.checked_sub(1)?)?;
        let block = self.index.starts(Family::Block).binary_search(&choice);
        let end = self.blocks.get(block.ok()?)?.end;
        end.is_none_or(|end| line < end).then_some(choice)
    }

    /// The lines of the blocks that are open before a line, the innermost first.
    pub fn open_before(&self, line: usize) -> Result<Vec<usize>, AllocError> {
        let starts = self.index.starts(Family::Block);
        let mut open = Vec::new(self.alloc);
        let mut next = starts.partition_point(|start| *start < line).checked_sub(1);
        for _ in starts {
            let Some(number) = next else {
                break;
            };
            let (Some(start), Some(block)) = (starts.get(number), self.blocks.get(number)) else {
                break;
            };
            if block.end.is_none_or(|end| end >= line) {
                open.push(*start)?;
            }
            next = block.outer;
        }
        Ok(open)
    }
}

/// The definitions of symbols.
fn read_definitions<'l>(
    alloc: Global,
    lines: &'l [Line<'_>],
    index: &LineIndex<'_, '_>,
) -> Result<Vec<Definition<'l>>, AllocError> {
    let mut definitions = Vec::new(alloc);
    for (number, line) in index.starts(Family::Definition).iter().enumerate() {
        let attributes = index.attributes(Family::Definition, number).len();
        let Some(statement) = lines.get(*line) else {
            continue;
        };
        if let Some(name) = second_word_of(statement) {
            let end = line.saturating_add(attributes);
            let line = *line;
            definitions.push(Definition { name, line, end })?;
        }
    }
    Ok(definitions)
}

/// The blocks, in the order of the lines that open them.
fn read_blocks(alloc: Global, lines: &[Line<'_>]) -> Result<Vec<Block>, AllocError> {
    let mut blocks: Vec<Block> = Vec::new(alloc);
    let mut innermost = None;
    for (number, line) in lines.iter().enumerate() {
        let keyword = read_keyword(line);
        if keyword.is_some_and(|keyword| keyword.opens()) {
            blocks.push(Block {
                end: None,
                outer: innermost,
            })?;
            innermost = blocks.len().checked_sub(1);
        }
        if keyword.is_some_and(|keyword| keyword.closes()) {
            innermost = close(blocks.as_mut_slice(), innermost, number);
        }
    }
    Ok(blocks)
}

/// Closes a block, by its number, and gives the one around it.
fn close(blocks: &mut [Block], block: Option<usize>, line: usize) -> Option<usize> {
    let block = blocks.get_mut(block?)?;
    block.end = Some(line);
    block.outer
}

/// The last of numbers, which rise, that is not more than another.
fn last_up_to(numbers: &[usize], most: usize) -> Option<usize> {
    let count = numbers.partition_point(|number| *number <= most);
    numbers.get(count.checked_sub(1)?).copied()
}

/// Whether a line is the end of its file.
pub(crate) fn is_end(line: &Line<'_>) -> bool {
    line.kind() == LineKind::EndOfFile
}

/// The type that a line of this first word gives its symbol or its choice.
pub(crate) fn type_of(word: Keyword) -> Option<SymbolType> {
    match word {
        Keyword::Bool | Keyword::DefBool => Some(SymbolType::Bool),
        Keyword::Tristate | Keyword::DefTristate => Some(SymbolType::Tristate),
        Keyword::String => Some(SymbolType::String),
        Keyword::Int => Some(SymbolType::Int),
        Keyword::Hex => Some(SymbolType::Hex),
        _ => None,
    }
}

/// The second word of a line.
pub(crate) fn second_word_of<'l>(line: &'l Line<'_>) -> Option<&'l str> {
    word_of(line.tokens().get(1)?)
}

/// The word that a token is, also one that holds a reference.
fn word_of<'t>(token: &'t Token<'_>) -> Option<&'t str>
    ensures { option_map (λ word. word.now) result ≡ token_word token.now }
{
    match token {
        Token::Word(word) => Some(word.as_str()),
        Token::Expanded(word) => Some(word.as_str()),
        Token::Quoted(_) | Token::Operator(_) => None,
    }
}
