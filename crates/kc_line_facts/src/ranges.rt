//! Ranges whose sides are exchanged, and defaults outside a range.

ghost use Rattle.std.specs.Prelude.{◌≡◌, option_and_then, position, slice_get};
ghost use Rattle.std.specs.List.{list_all};
ghost use Rattle.std.specs.Option.{option_copied};
ghost use Rattle.kc_outline.specs.TreeValue.{blocks_from};
ghost use Rattle.kc_line_facts.specs.Ranges.{constant_number, is_above, has_exchanged_sides, is_outside, certain_range, first_range, first_with_range, has_range, if_certain, is_certain, is_free, is_free_block};

use kc_outline::MOST_OPEN_BLOCKS;
use kc_statement::{Range, SymbolType, Term, numeral};
use kc_tree::{Block, BlockId, Tree};

/// The number that a term is by the type of a symbol, whatever the values of symbols are.
fn constant_number(kind: SymbolType, term: &Term) -> Option<i128>
    ensures { result ≡ constant_number kind term.now }
{
    match term {
        Term::Text(text) => numeral(kind, text.as_str()),
        Term::Undefined(word) => numeral(kind, word.as_str()),
        Term::Tri(_) => None,
        Term::Symbol(_) => None,
    }
}

/// Whether both are numbers, and the first is the greater.
fn is_above(number: Option<i128>, other: Option<i128>) -> bool
    ensures { result ≡ is_above number other }
{
    match (number, other) {
        (Some(number), Some(other)) => number > other,
        (Some(_), None) => false,
        (None, _) => false,
    }
}

/// Whether the low bound of a range is above its high bound, so that no value is inside (kconfig-language.rst, "numerical
/// ranges"). It is not where a bound is a symbol.
pub fn has_exchanged_sides(kind: SymbolType, range: &Range) -> bool
    ensures { result ≡ has_exchanged_sides kind range.now }
{
    is_above(
        constant_number(kind, &range.low),
        constant_number(kind, &range.high),
    )
}

/// Whether a term is a number outside a range (kconfig-language.rst, "numerical ranges"). It is not where the term or the
/// bound that it is past is a symbol.
pub(crate) fn is_outside(kind: SymbolType, range: &Range, term: &Term) -> bool
    ensures { result ≡ is_outside kind range.now term.now }
{
    let number = constant_number(kind, term);
    is_above(constant_number(kind, &range.low), number)
        || is_above(number, constant_number(kind, &range.high))
}

/// The first range of a definition, by number.
fn first_range(tree: &Tree, number: usize) -> Option<&Range>
    ensures { option_copied result ≡ first_range tree.now number }
{
    tree.definitions().get(number)?.ranges().first()
}

/// A block by number, if there is one.
fn block_at(tree: &Tree, id: Option<BlockId>) -> Option<&Block>
    ensures { option_copied result ≡ option_and_then (λ i. slice_get tree.now.blocks i.0) id }
{
    tree.blocks().get(id?.0 as usize)
}

/// Whether no block around a place has dependencies: those from one outwards, as many as the limit at most.
fn are_blocks_free(tree: &Tree, limit: usize, innermost: Option<BlockId>) -> bool
    ensures { result ≡ list_all is_free_block (blocks_from tree.now.blocks limit innermost) }
{
    let mut next = innermost;
    for _ in 0..limit {
        let Some(block) = block_at(tree, next) else {
            return true;
        };
        if !block.depends().is_empty() {
            return false;
        }
        next = block.parent();
    }
    true
}

/// Whether neither the definition of a number nor a block around it has dependencies.
pub fn is_free(tree: &Tree, number: usize) -> bool
    ensures { result ≡ is_free tree.now number }
{
    match tree.definitions().get(number) {
        Some(definition) => {
            definition.depends().is_empty()
                && are_blocks_free(tree, MOST_OPEN_BLOCKS, definition.block())
        }
        None => false,
    }
}

/// Whether the definition of a number has a range.
fn has_range(tree: &Tree, number: usize) -> bool
    ensures { result ≡ has_range tree.now number }
{
    first_range(tree, number).is_some()
}

/// Whether the first range of the definition of a number is active wherever another one, or the same, gives a value.
fn is_certain(tree: &Tree, giving: usize, number: usize, range: &Range) -> bool
    ensures { result ≡ is_certain tree.now giving number range.now }
{
    range.condition.is_none() && (number == giving || is_free(tree, number))
}

/// The first range of the definition of a number, if it is active wherever another one, or the same, gives a value.
fn if_certain(tree: &Tree, giving: usize, number: usize) -> Option<&Range>
    ensures { option_copied result ≡ if_certain tree.now giving number }
{
    let range = first_range(tree, number)?;
    if is_certain(tree, giving, number, range) {
        Some(range)
    } else {
        None
    }
}

/// The place of the first definition with a range, of those of a symbol.
fn place_with_range(tree: &Tree, numbers: &[usize]) -> Option<usize>
    ensures { result ≡ position (has_range tree.now) numbers.now }
{
    numbers.iter().position(|number| has_range(tree, *number))
}

/// The number of the first definition with a range, of those of a symbol.
fn first_with_range(tree: &Tree, numbers: &[usize]) -> Option<usize>
    ensures { result ≡ first_with_range tree.now numbers.now }
{
    let place = place_with_range(tree, numbers)?;
    numbers.get(place).copied()
}

/// The range that bounds the values that a definition of a symbol gives whenever it gives one: the first range of the
/// symbol, which has definitions of these numbers (kconfig-language.rst, "numerical ranges"). There is none where that
/// range has a condition, or where it is in another definition, which depends on something.
pub(crate) fn certain_range<'a>(
    tree: &'a Tree,
    numbers: &[usize],
    giving: usize,
) -> Option<&'a Range>
    ensures { option_copied result ≡ certain_range tree.now numbers.now giving }
{
    let number = first_with_range(tree, numbers)?;
    if_certain(tree, giving, number)
}
