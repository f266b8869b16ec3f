//! What is said of the refusals of a session.

use crate::messages::{ConfigMessage, RefusalMessage};
use crate::piece::{texts, words_of};
use crate::warnings::values_of;
use kc_lines::type_words;
use kc_names::{MeantNames, is_alike, is_near, push_meant};
use kc_statement::SymbolType;
use kc_tree::{SymId, Tree};
use std::alloc::{AllocError, Global};
use std::collections::BTreeMap;

/// The most digits of a count of lines.
const MOST_DIGITS: usize = 7;

/// The commands of a session, how each is written, and how many arguments it has (docs/PROTOCOL.md).
static COMMANDS: [(&str, &str, usize); 14] = [
    ("set", "set NAME VALUE", 2),
    ("unset", "unset NAME", 1),
    ("reset", "reset", 0),
    ("load", "load K", 1),
    ("merge", "merge K", 1),
    ("allno", "allno", 0),
    ("allyes", "allyes", 0),
    ("show", "show NAME", 1),
    ("list", "list", 0),
    ("choices", "choices", 0),
    ("config", "config", 0),
    ("header", "header", 0),
    ("defconfig", "defconfig", 0),
    ("new", "new", 0),
];

/// The name and the type of a symbol.
#[derive(Drop)]
struct TypedName {
    name: String,
    kind: SymbolType,
}

/// The names and the types of the symbols of a tree, apart from the tree.
#[derive(Drop)]
pub struct SymbolNames {
    symbols: Vec<TypedName>,
}

impl SymbolNames {
    /// Those of a tree, in the order of its symbols.
    ///
    /// # Errors
    ///
    /// `AllocError` where memory is refused.
    pub fn of(alloc: Global, tree: &Tree) -> Result<SymbolNames, AllocError> {
        let mut symbols = Vec::with_capacity(alloc, tree.symbols().len())?;
        let mut number = 0u32;
        for _ in tree.symbols() {
            let symbol = SymId(number);
            symbols.push(TypedName {
                name: String::from_str(alloc, tree.name(symbol))?,
                kind: tree.symbol_type(symbol),
            })?;
            number = number.saturating_add(1);
        }
        Ok(SymbolNames { symbols })
    }
}

/// What the words on refusals are made from: symbols by their names, and the prefix that the names have in files.
#[derive(Drop)]
pub struct RefusalWords<'n> {
    prefix: &'n str,
    types: BTreeMap<&'n str, SymbolType>,
    meant: MeantNames<'n>,
}

impl<'n> RefusalWords<'n> {
    /// Of symbols, whose names have a prefix in files.
    ///
    /// # Errors
    ///
    /// `AllocError` where memory is refused.
    pub fn of(
        alloc: Global,
        names: &'n SymbolNames,
        prefix: &'n str,
    ) -> Result<RefusalWords<'n>, AllocError> {
        let mut types = BTreeMap::new(alloc);
        let mut all = Vec::new(alloc);
        for symbol in names.symbols.as_slice() {
            types.insert(symbol.name.as_str(), symbol.kind)?;
            all.push(symbol.name.as_str())?;
        }
        let meant = MeantNames::of(alloc, all, usize::MAX)?;
        Ok(RefusalWords {
            prefix,
            types,
            meant,
        })
    }

    /// What is said of the refusal of a number, by the command: nothing where its number says all.
    ///
    /// # Errors
    ///
    /// `AllocError` where memory is refused.
    pub fn words(
        &self,
        alloc: Global,
        number: u8,
        command: &str,
    ) -> Result<Option<String>, AllocError> {
        let (word, rest) = command.split_once(' ').unwrap_or((command, ""));
        let (name, _) = rest.split_once(' ').unwrap_or((rest, ""));
        let words = match number {
            1 => unread_words(alloc, command, word)?,
            2 if name.is_empty() => unread_words(alloc, word, word)?,
            2 => self.undefined_words(alloc, name)?,
            3 => return self.unfit_words(alloc, name),
            5 => count_words(alloc, rest)?,
            _ => return Ok(None),
        };
        Ok(Some(words))
    }

    /// What is said of a name that is no symbol's.
    fn undefined_words(&self, alloc: Global, name: &str) -> Result<String, AllocError> {
        let texts = texts!(name: name, prefix: self.prefix);
        let mut words = words_of(alloc, ConfigMessage::UndefinedName.row(), &texts)?;
        let meant = self.meant.meant(self.prefix, name);
        push_meant(&mut words, meant)?;
        if meant.is_none() && !self.prefix.is_empty() && name.starts_with(self.prefix) {
            let added = words_of(alloc, RefusalMessage::WithoutPrefix.row(), &texts)?;
            words.push_str(added.as_str())?;
        }
        Ok(words)
    }

    /// What is said of a value that the symbol of a name does not take. A string takes each text.
    fn unfit_words(&self, alloc: Global, name: &str) -> Result<Option<String>, AllocError> {
        match self.types.get(name).copied() {
            None | Some(SymbolType::String) => Ok(None),
            Some(kind) => {
                let texts = texts!(name: name, kind: type_words(kind), list: values_of(kind));
                Ok(Some(words_of(alloc, RefusalMessage::Unfit.row(), &texts)?))
            }
        }
    }
}

/// What is said of a line that is no command, which begins with a word.
fn unread_words(alloc: Global, command: &str, word: &str) -> Result<String, AllocError> {
    let Some((_, form, wanted)) = COMMANDS.iter().find(|row| row.0 == word) else {
        return unknown_words(alloc, word);
    };
    let given = command.split(' ').count().saturating_sub(1);
    let message = if given < *wanted {
        RefusalMessage::Missing
    } else {
        RefusalMessage::Spare
    };
    words_of(alloc, message.row(), &texts!(form: *form))
}

/// What is said of a word that is no command's.
fn unknown_words(alloc: Global, word: &str) -> Result<String, AllocError> {
    if word.is_empty() {
        return words_of(alloc, RefusalMessage::Empty.row(), &texts!());
    }
    let texts = texts!(word: word);
    let mut words = words_of(alloc, RefusalMessage::Unknown.row(), &texts)?;
    match COMMANDS
        .iter()
        .find(|row| is_alike(word, row.0) || is_near(word, row.0))
    {
        Some((name, _, _)) => push_meant(&mut words, Some(*name))?,
        None => words.push_str(words_of(alloc, RefusalMessage::Listed.row(), &texts)?.as_str())?,
    }
    Ok(words)
}

/// What is said of a count of lines that is not a number, or is greater than the number of lines that the input has.
fn count_words(alloc: Global, count: &str) -> Result<String, AllocError> {
    let is_count = !count.is_empty()
        && count.len() <= MOST_DIGITS
        && count.bytes().all(|byte| byte.is_ascii_digit());
    let message = if is_count {
        RefusalMessage::Ended
    } else {
        RefusalMessage::NoCount
    };
    words_of(alloc, message.row(), &texts!(word: count))
}
