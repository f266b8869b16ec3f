//! Names of symbols, and what a word of an expression means.

ghost use Rattle.std.specs.Prelude.{◌≡◌, ◌≤◌, length, IfOk, OnOk};
ghost use Rattle.std.specs.List.{list_all};
ghost use Rattle.std.specs.Option.{option_map_or};
ghost use Rattle.kc_statement.specs.declared.limits.TheConstants.{MOST_SYMBOLS};
ghost use Rattle.kc_statement.specs.Names.{is_name, is_name_byte, is_reserved, name_word, token_word, word_term, quoted_term, defined_name, names_of, with_name};

use crate::expr::Term;
use crate::keyword::is_config;
use crate::limits::MOST_SYMBOLS;
use crate::names::Names;
use crate::seed::Seed;
use crate::tri::Tri;
use kc_text::{Line, TextRef, Token};
use std::alloc::{AllocError, Global};

/// The number of lines that most definitions have at least, by which room for names is made at once.
const USUAL_LINES: usize = 4;

/// The length of the longest word that could name a symbol and means something else: `if`.
const LONGEST_RESERVED: usize = 2;

/// The class of each byte: `n` of those of a name, `,` of any other byte.
static CLASSES: [u8; 256] = *b"\
    ,,,,,,,,,,,,,,,,,,,,,,,,,,,,,,,,\
    ,,,,,,,,,,,,,,,,nnnnnnnnnn,,,,,,\
    ,nnnnnnnnnnnnnnnnnnnnnnnnnn,,,,n\
    ,nnnnnnnnnnnnnnnnnnnnnnnnnn,,,,,\
    ,,,,,,,,,,,,,,,,,,,,,,,,,,,,,,,,\
    ,,,,,,,,,,,,,,,,,,,,,,,,,,,,,,,,\
    ,,,,,,,,,,,,,,,,,,,,,,,,,,,,,,,,\
    ,,,,,,,,,,,,,,,,,,,,,,,,,,,,,,,,";

/// Whether a word names a symbol: one or more ASCII letters, digits and `_`, and not n, m, y or if
/// (kconfig-language.rst, "Menu entries" and "Menu dependencies").
pub fn is_name(word: &str) -> bool
    ensures { result ≡ is_name word.now }
{
    word != "" && are_name_bytes(word.as_bytes()) && !is_reserved(word)
}

/// Whether a byte may be in a name.
fn is_name_byte(byte: u8) -> bool
    ensures { result ≡ is_name_byte byte }
{
    CLASSES[byte as usize] == b'n'
}

/// Whether each byte may be in a name. It is kept out of line: where it is a part of the reader of a line, each byte
/// clears the room of what that reader has.
#[inline(never)]
fn are_name_bytes(bytes: &[u8]) -> bool
    ensures { result ≡ list_all is_name_byte bytes.now }
{
    bytes.iter().all(|byte| is_name_byte(*byte))
}

/// Whether a word that could name a symbol means something else.
#[tactic(auto, using(crate::proofs::ReservedLaws::long_not_reserved))]
fn is_reserved(word: &str) -> bool
    ensures { result ≡ is_reserved word.now }
{
    word.len() <= LONGEST_RESERVED && (word == "n" || word == "m" || word == "y" || word == "if")
}

/// The word of a token, also one that has a reference.
fn token_word<'a>(token: &'a Token<'_>) -> Option<TextRef<'a>>
    ensures { result ≡ token_word token.now }
{
    match token {
        Token::Word(word) => Some(TextRef::new(word.as_str())),
        Token::Expanded(word) => Some(TextRef::new(word.as_str())),
        Token::Quoted(_) => None,
        Token::Operator(_) => None,
    }
}

/// The name that a token is.
pub(crate) fn name_word<'a>(token: &'a Token<'_>) -> Option<TextRef<'a>>
    ensures { result ≡ name_word token.now }
{
    let word = token_word(token)?;
    if is_name(word.as_str()) {
        Some(word)
    } else {
        None
    }
}

/// The term of a word: a constant, the symbol that it names, or a word that names none.
pub(crate) fn word_term(alloc: Global, names: &Names, word: &str) -> Result<Term, AllocError>
    ensures { IfOk result (λ t. t ≡ word_term names.now word.now) }
{
    match word {
        "n" => Ok(Term::Tri(Tri::No)),
        "m" => Ok(Term::Tri(Tri::Module)),
        "y" => Ok(Term::Tri(Tri::Yes)),
        _ => match names.symbol(word) {
            Some(symbol) => Ok(Term::Symbol(symbol)),
            None => Ok(Term::Undefined(names.shared_text(alloc, word)?)),
        },
    }
}

/// The term of a text in quotes.
pub(crate) fn quoted_term(alloc: Global, names: &Names, text: &str) -> Result<Term, AllocError>
    ensures { IfOk result (λ t. t ≡ quoted_term text.now) }
{
    Ok(Term::Text(names.shared_text(alloc, text)?))
}

/// The name that a line defines: the line is its keyword and the name alone.
fn defined_name<'a>(line: &'a Line<'_>) -> Option<TextRef<'a>>
    ensures { result ≡ defined_name line.now }
{
    let [_, name] = line.tokens() else {
        return None;
    };
    if is_config(line) {
        name_word(name)
    } else {
        None
    }
}

/// Adds the name that a line defines, where it is new and there is room for it.
fn add_defined(alloc: Global, line: &Line<'_>, names: &mut Names) -> Result<(), AllocError>
    ensures { OnOk result (names.new ≡ option_map_or (with_name names.old) (defined_name line.now) names.old) }
{
    if let Some(name) = defined_name(line) {
        names.add(alloc, name.as_str())?;
    }
    Ok(())
}

/// Keeps the long texts among tokens.
fn keep_texts(alloc: Global, tokens: &[Token<'_>], names: &mut Names) -> Result<(), AllocError>
    ensures { OnOk result (names.new ≡ names.old) }
{
    for token in tokens {
        match token {
            Token::Expanded(text) | Token::Quoted(text) => names.keep_text(alloc, text.as_str())?,
            Token::Word(_) | Token::Operator(_) => {}
        }
    }
    Ok(())
}

/// The names that lines define (kconfig-language.rst, "Menu entries"), in the order of their first definitions, as many
/// as a tree may have, kept under the hash of a seed; or `AllocError` where there is no memory for them.
#[tactic(auto, using(crate::proofs::NamesLemmas::few_names))]
pub fn read_names(alloc: Global, seed: Seed, lines: &[Line<'_>]) -> Result<Names, AllocError>
    ensures names { IfOk result (λ names. names ≡ names_of lines.now) }
    ensures few { IfOk result (λ names. length names ≤ MOST_SYMBOLS) }
{
    let room = (lines.len() / USUAL_LINES).min(MOST_SYMBOLS);
    let mut names = Names::with_capacity(alloc, seed, room)?;
    for line in lines {
        add_defined(alloc, line, &mut names)?;
        keep_texts(alloc, line.tokens(), &mut names)?;
    }
    Ok(names)
}
