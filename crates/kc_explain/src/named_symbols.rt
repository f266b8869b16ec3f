//! What a Kconfig says of the symbols that lines of `.config` files name, or may be meant to name. Its lines are gone over
//! once.

use crate::sought_names::SoughtNames;
use crate::statements::{second_word_of, type_of};
use kc_statement::{Keyword, SymbolType, read_keyword};
use kc_text::Line;
use std::alloc::{AllocError, Global};
use std::collections::BTreeMap;

/// The type of a symbol and the first line, by its number among all lines, that gives it; where none does, as in a member
/// of a choice, its first line.
#[derive(Clone, Copy)]
pub(crate) struct Typed {
    given: Option<SymbolType>,
    pub line: usize,
}

impl Typed {
    /// The type: bool where no line gives one.
    pub fn kind(&self) -> SymbolType {
        self.given.unwrap_or(SymbolType::Bool)
    }
}

/// The types of symbols by their names, and the names of symbols that others may be meant as.
#[derive(Drop)]
pub(crate) struct NamedSymbols<'l> {
    /// None where no symbol has the name.
    types: BTreeMap<String, Option<Typed>>,
    sought: SoughtNames,
    found: Vec<&'l str>,
}

impl<'l> NamedSymbols<'l> {
    /// Of lines of a Kconfig: the types of the symbols of these names, and the names that those may be meant as that are
    /// sought.
    pub fn of(
        alloc: Global,
        lines: &'l [Line<'_>],
        names: &[&str],
        sought: SoughtNames,
    ) -> Result<NamedSymbols<'l>, AllocError> {
        let mut types: BTreeMap<String, Option<Typed>> = BTreeMap::new(alloc);
        for name in names {
            types.insert(String::from_str(alloc, name)?, None)?;
        }
        let found = Vec::new(alloc);
        let mut symbols = NamedSymbols {
            types,
            sought,
            found,
        };
        symbols.read(lines)?;
        Ok(symbols)
    }

    /// The type of the symbol of a name, if there is one.
    pub fn get(&self, name: &str) -> Option<Typed> {
        self.types.get(name).copied().flatten()
    }

    /// The names that those that are sought may be meant as.
    pub fn found(&self, alloc: Global) -> Result<Vec<&'l str>, AllocError> {
        self.found.iter().copied().collect(alloc)
    }

    /// Goes over the lines.
    fn read(&mut self, lines: &'l [Line<'_>]) -> Result<(), AllocError> {
        let mut defined = None;
        for (number, line) in lines.iter().enumerate() {
            defined = match read_keyword(line) {
                Some(Keyword::Config) => self.begin(number, line)?,
                Some(word) if word.is_attribute() => {
                    self.give_type(defined, number, type_of(word));
                    defined
                }
                _ => None,
            };
        }
        Ok(())
    }

    /// Takes over the line that begins a definition, and gives its symbol.
    fn begin(&mut self, number: usize, line: &'l Line<'_>) -> Result<Option<&'l str>, AllocError> {
        let Some(name) = second_word_of(line) else {
            return Ok(None);
        };
        if self.sought.has(name) {
            self.found.push(name)?;
        }
        let Some(typed) = self.types.get_mut(name) else {
            return Ok(None);
        };
        if typed.is_none() {
            *typed = Some(Typed {
                given: None,
                line: number,
            });
        }
        Ok(Some(name))
    }

    /// Takes over the type that a line gives a symbol, which has the first.
    fn give_type(&mut self, name: Option<&str>, line: usize, given: Option<SymbolType>) {
        let (Some(name), Some(_)) = (name, given) else {
            return;
        };
        if let Some(typed) = self.types.get_mut(name) {
            if typed.is_none_or(|typed| typed.given.is_none()) {
                *typed = Some(Typed { given, line });
            }
        }
    }
}
