//! Names in lines that no line defines, and those of strings, ints and hexes that are conditions.

ghost use Rattle.std.specs.Prelude.{◌≡◌, ◌<◌, ◌++◌, IfOk, OnOk, if◌then◌else◌, length, option_map};
ghost use Rattle.kc_statement.specs.Keywords.{is_attribute};
ghost use Rattle.kc_statement.specs.Names.{is_reserved};
ghost use Rattle.kc_tree.specs.Fits.{type_of};
ghost use Rattle.kc_line_facts.specs.DoubtfulUses.{defined_symbol, has_hex_sign, is_condition, is_hex, is_meant_constant, is_no_name, is_numeral, is_text, use_if, uses_in, uses_of_line, read_at, doubtful_uses, read_symbol, read_undefined, read_word, context_of};

use crate::default_faults::is_digits;
use crate::member_selections::token_word;
use crate::name_readings::{LineContext, NameReading, is_place, lone_len};
use kc_lines::{Family, begins, is_attribute, meant_tri};
use kc_statement::{Keyword, SymbolType, is_name, numeral, read_keyword};
use kc_text::{Line, Token};
use kc_tree::{SymId, Tree};
use std::alloc::{AllocError, Global};

/// A name that is read as something other than the value of its symbol: the index of its line, and its place among the
/// tokens of that (this project's own).
#[derive(Clone, Copy, Debug, PartialEq, Eq)]
pub struct DoubtfulUse {
    pub line: usize,
    /// The symbol that the line belongs to.
    pub owner: Option<SymId>,
    pub token: usize,
    pub reading: NameReading,
}

/// The symbol that a line defines.
fn defined_symbol(tree: &Tree, line: &Line<'_>) -> Option<SymId>
    ensures { result ≡ defined_symbol tree.now line.now }
{
    let [_, name] = line.tokens() else {
        return None;
    };
    if !begins(Family::Definition, read_keyword(line)) {
        return None;
    }
    let word = token_word(name)?;
    if !is_name(word) {
        return None;
    }
    tree.find(word)
}

/// The symbol that a line belongs to: the one that it defines, or the one that the attributes before it belong to.
fn owner_of(tree: &Tree, line: &Line<'_>, earlier: Option<SymId>) -> Option<SymId>
    ensures { result ≡ (if is_attribute line.now then earlier else defined_symbol tree.now line.now) }
{
    if is_attribute(line) {
        earlier
    } else {
        defined_symbol(tree, line)
    }
}

/// What the readings of the words in a line of this keyword depend on, by the symbol that the line belongs to.
fn context_of(tree: &Tree, owner: Option<SymId>, word: Keyword, tokens: &[Token<'_>]) -> LineContext
    ensures { result ≡ context_of tree.now owner word tokens.now }
{
    LineContext {
        owner,
        keyword: word,
        kind: kind_of(tree, owner),
        lone_len: lone_len(word, tokens),
    }
}

/// The type of a symbol, if there is one.
fn kind_of(tree: &Tree, symbol: Option<SymId>) -> Option<SymbolType>
    ensures { result ≡ option_map (type_of tree.now) symbol }
{
    match symbol {
        Some(symbol) => Some(tree.symbol_type(symbol)),
        None => None,
    }
}

/// Whether a word is n, m, y or `if`.
fn is_reserved(word: &str) -> bool
    ensures { result ≡ is_reserved word.now }
{
    word == "n" || word == "m" || word == "y" || word == "if"
}

/// Whether a word begins with `0x` or `0X`.
fn has_hex_sign(word: &str) -> bool
    ensures { result ≡ has_hex_sign word.now }
{
    match word.as_bytes() {
        [first, second, ..] => *first == b'0' && (*second == b'x' || *second == b'X'),
        _ => false,
    }
}

/// Whether a type is that of a hex.
fn is_hex(kind: Option<SymbolType>) -> bool
    ensures { result ≡ is_hex kind }
{
    matches!(kind, Some(SymbolType::Hex))
}

/// Whether a word is a numeral, also by the type of the symbol that its line belongs to.
fn is_numeral(line: &LineContext, word: &str) -> bool
    ensures { result ≡ is_numeral line.now word.now }
{
    is_digits(word)
        || (has_hex_sign(word) || is_hex(line.kind)) && numeral(SymbolType::Hex, word).is_some()
}

/// Whether the word at a place is the whole default of a bool or a tristate and meant as a constant.
fn is_meant_constant(line: &LineContext, place: usize, word: &str) -> bool
    ensures { result ≡ is_meant_constant line.now place word.now }
{
    line.is_of_tri() && line.is_whole_value(place) && meant_tri(word).is_some()
}

/// Whether the word at a place is no name: n, m, y or `if`, a numeral, or what is meant as a constant.
fn is_no_name(line: &LineContext, place: usize, word: &str) -> bool
    ensures { result ≡ is_no_name line.now place word.now }
{
    is_reserved(word) || is_numeral(line, word) || is_meant_constant(line, place, word)
}

/// Whether a name is read as a text.
fn is_text(reading: NameReading) -> bool
    ensures { result ≡ is_text reading }
{
    matches!(reading, NameReading::Text | NameReading::Default)
}

/// Whether a name is read as a condition.
fn is_condition(reading: NameReading) -> bool
    ensures { result ≡ is_condition reading }
{
    matches!(reading, NameReading::No)
}

/// How a word that no line defines is read, which may be no name; none where it is a text that can't be a name.
fn read_undefined(is_no_name: bool, word: &str, reading: NameReading) -> Option<NameReading>
    ensures { result ≡ read_undefined is_no_name word.now reading }
{
    if is_no_name || is_text(reading) && !is_name(word) {
        return None;
    }
    Some(reading)
}

/// How a symbol of a type is read, if it is a condition and always n as that.
fn read_symbol(kind: SymbolType, reading: NameReading) -> Option<NameReading>
    ensures { result ≡ read_symbol kind reading }
{
    if is_condition(reading) && !kind.is_tri() {
        return Some(NameReading::Condition(kind));
    }
    None
}

/// How the word at a place is read, if it is a name and not read as the value of a symbol.
fn read_word(
    tree: &Tree,
    line: &LineContext,
    tokens: &[Token<'_>],
    place: usize,
    word: &str,
) -> Option<NameReading>
    requires { place < length tokens.now }
    ensures { result ≡ read_word tree.now line.now tokens.now place word.now }
{
    let reading = line.reading_at(tokens, place);
    match tree.find(word) {
        Some(symbol) => read_symbol(tree.symbol_type(symbol), reading),
        None => read_undefined(is_no_name(line, place, word), word, reading),
    }
}

/// How the token at a place is read, if it is a name and not read as the value of a symbol.
fn read_at(
    tree: &Tree,
    line: &LineContext,
    tokens: &[Token<'_>],
    place: usize,
) -> Option<NameReading>
    requires { place < length tokens.now }
    ensures { result ≡ read_at tree.now line.now tokens.now place }
{
    if !is_place(line.keyword, place) {
        return None;
    }
    let word = token_word(tokens.get(place)?)?;
    read_word(tree, line, tokens, place, word)
}

/// Adds the name at a place of the line of an index, which belongs to a symbol, if it is read as this.
fn add_use(
    found: &mut Vec<DoubtfulUse>,
    line: usize,
    owner: Option<SymId>,
    token: usize,
    reading: Option<NameReading>,
) -> Result<(), AllocError>
    ensures { OnOk result (found.new.items ≡ found.old.items ++ use_if line owner token reading) }
{
    if let Some(reading) = reading {
        found.push(DoubtfulUse {
            line,
            owner,
            token,
            reading,
        })?;
    }
    Ok(())
}

/// Adds the names in the tokens of the line of an index.
fn add_uses(
    found: &mut Vec<DoubtfulUse>,
    tree: &Tree,
    index: usize,
    line: &LineContext,
    tokens: &[Token<'_>],
) -> Result<(), AllocError>
    ensures { OnOk result (found.new.items ≡ found.old.items ++ uses_in tree.now index line.now tokens.now) }
{
    for place in 0..tokens.len() {
        let reading = read_at(tree, line, tokens, place);
        add_use(found, index, line.owner, place, reading)?;
    }
    Ok(())
}

/// Adds the names in the line of an index, which belongs to a symbol.
fn add_line(
    found: &mut Vec<DoubtfulUse>,
    tree: &Tree,
    index: usize,
    owner: Option<SymId>,
    line: &Line<'_>,
) -> Result<(), AllocError>
    ensures { OnOk result (found.new.items ≡ found.old.items ++ uses_of_line tree.now index owner line.now) }
{
    let Some(word) = read_keyword(line) else {
        return Ok(());
    };
    let tokens = line.tokens();
    let context = context_of(tree, owner, word, tokens);
    add_uses(found, tree, index, &context, tokens)
}

/// The names in lines that are read as something other than the value of a symbol, in the order of the lines and of their
/// tokens: those that no line defines, and those of strings, ints and hexes that are conditions (this project's own).
///
/// # Errors
///
/// `AllocError` where memory is refused.
pub(crate) fn doubtful_uses(
    alloc: Global,
    tree: &Tree,
    lines: &[Line<'_>],
) -> Result<Vec<DoubtfulUse>, AllocError>
    ensures { IfOk result (λ r. r.items ≡ doubtful_uses lines.now tree.now) }
{
    let mut found = Vec::new(alloc);
    let mut owner = None;
    for index in 0..lines.len() {
        let line = &lines[index];
        let own = owner_of(tree, line, owner);
        add_line(&mut found, tree, index, own, line)?;
        owner = own;
    }
    Ok(found)
}
