//! What is said of the warnings of `.config` files and fragments.

use crate::malformed::{malformed_words, named_symbols};
use crate::meant_lines::{before_comment, is_taken, meant_line, push_meant_line};
use crate::messages::ConfigMessage;
use crate::named_symbols::NamedSymbols;
use crate::piece::{Texts, texts, words_of};
use crate::sought_names::SoughtNames;
use crate::spelling::beginning;
use kc_files::{NamedLine, Warning, WarningKind, name_in};
use kc_lines::type_words;
use kc_names::{MeantNames, push_meant};
use kc_statement::SymbolType;
use kc_text::Line;
use std::alloc::{AllocError, Global};
use std::collections::BTreeMap;

/// A `.config` or a fragment, and the warnings of its lines, in the order of their numbers.
#[derive(Clone, Copy)]
pub struct WarnedFile<'f> {
    pub bytes: &'f [u8],
    pub warnings: &'f [Warning],
}

/// A line of such a file with its warning.
#[derive(Clone, Copy)]
struct Warned<'c> {
    kind: WarningKind,
    line: NamedLine<'c>,
    /// The last usable line before it that has the same name, where it repeats one.
    before: usize,
}

/// How words name the symbol of a line.
#[derive(Clone, Copy, PartialEq, Eq)]
pub enum Naming {
    /// By its name.
    Named,
    /// Not at all, since its name comes before the words.
    NamedBefore,
}

/// What is written after the number of each warning of files, in their order, by the lines of the Kconfig and the prefix of
/// names. The lines of the Kconfig are read once, however many files and warnings there are, and not where there are none.
///
/// # Errors
///
/// `AllocError` where memory is refused.
pub fn explain_warnings(
    alloc: Global,
    lines: &[Line<'_>],
    prefix: &str,
    files: &[WarnedFile<'_>],
    naming: Naming,
) -> Result<Vec<String>, AllocError> {
    let warned = warned_lines(alloc, prefix, files)?;
    let warned = warned.as_slice();
    if warned.is_empty() {
        return Ok(Vec::new(alloc));
    }
    let symbols = named_symbols_of(alloc, lines, prefix, warned)?;
    let meant = MeantNames::of(alloc, symbols.found(alloc)?, warned.len())?;
    let mut all = Vec::new(alloc);
    for warned in warned {
        let mut words = warning_words(alloc, lines, prefix, warned, &symbols, naming)?;
        if warned.kind == WarningKind::UndefinedSymbol {
            push_meant(&mut words, meant.meant(prefix, warned.line.name))?;
        }
        all.push(words)?;
    }
    Ok(all)
}

/// The lines of files that warnings name.
fn warned_lines<'c>(
    alloc: Global,
    prefix: &str,
    files: &[WarnedFile<'c>],
) -> Result<Vec<Warned<'c>>, AllocError> {
    let mut warned = Vec::new(alloc);
    for file in files {
        if !file.warnings.is_empty() {
            add_warned_lines(alloc, &mut warned, prefix, *file)?;
        }
    }
    Ok(warned)
}

/// Adds the lines of a file that warnings name.
fn add_warned_lines<'c>(
    alloc: Global,
    warned: &mut Vec<Warned<'c>>,
    prefix: &str,
    file: WarnedFile<'c>,
) -> Result<(), AllocError> {
    let mut last = BTreeMap::new(alloc);
    let mut left = file.warnings.iter().copied();
    let mut next = left.next();
    for (index, line) in file.bytes.split(|byte| *byte == b'\n').enumerate() {
        let number = index.saturating_add(1);
        let line = name_in(prefix, line);
        let warning = next.filter(|warning| warning.line == number);
        if let Some(Warning { kind, .. }) = warning {
            let before = last.get(line.name).copied().unwrap_or(0);
            warned.push(Warned { kind, line, before })?;
            next = left.next();
        }
        if warning.is_none_or(|warning| warning.kind == WarningKind::Repeated) {
            last.insert(line.name, number)?;
        }
    }
    Ok(())
}

/// The symbols that lines of `.config` files name, or may be meant to name.
fn named_symbols_of<'l>(
    alloc: Global,
    lines: &'l [Line<'_>],
    prefix: &str,
    warned: &[Warned<'_>],
) -> Result<NamedSymbols<'l>, AllocError> {
    let mut names = Vec::new(alloc);
    let mut sought = SoughtNames::none(alloc);
    for warned in warned {
        let name = warned.line.name;
        names.push(name)?;
        match (warned.kind, warned.line.text) {
            (WarningKind::UndefinedSymbol, _) => {
                sought.add(name.strip_prefix(prefix).unwrap_or(name))?;
            }
            (WarningKind::Malformed, Some(text)) => {
                let (name, _) = text.split_once('=').unwrap_or(("", ""));
                names.extend_from_slice(&named_symbols(prefix, name))?;
            }
            _ => {}
        }
    }
    NamedSymbols::of(alloc, lines, names.as_slice(), sought)
}

/// What is written after the number of the warning of a line: which symbol it is about, and which line before it.
fn warning_words(
    alloc: Global,
    lines: &[Line<'_>],
    prefix: &str,
    warned: &Warned<'_>,
    symbols: &NamedSymbols<'_>,
    naming: Naming,
) -> Result<String, AllocError> {
    let name = match naming {
        Naming::Named => warned.line.name,
        Naming::NamedBefore => "it",
    };
    let texts = texts!(name: name, line: warned.before);
    match warned.kind {
        WarningKind::UndefinedSymbol => {
            let message = match naming {
                Naming::Named => ConfigMessage::UndefinedName,
                Naming::NamedBefore => ConfigMessage::Undefined,
            };
            words_of(alloc, message.row(), &texts)
        }
        WarningKind::Repeated => words_of(alloc, ConfigMessage::Repeated.row(), &texts),
        WarningKind::Malformed => malformed_words(alloc, prefix, warned.line.text, symbols),
        WarningKind::BadValue | WarningKind::BadString => {
            let typed = symbols.get(warned.line.name);
            let (Some(typed), Some(line)) = (typed, typed.and_then(|typed| lines.get(typed.line)))
            else {
                return malformed_words(alloc, prefix, warned.line.text, symbols);
            };
            let texts = texts!(path: line.path(), line: line.number(), ..texts);
            value_words(alloc, prefix, warned, typed.kind(), texts)
        }
    }
}

/// What is said of a value that its symbol does not take, and the line that is meant.
fn value_words(
    alloc: Global,
    prefix: &str,
    warned: &Warned<'_>,
    kind: SymbolType,
    texts: Texts<'_>,
) -> Result<String, AllocError> {
    let texts = texts!(kind: type_words(kind), list: values_of(kind), ..texts);
    let Some(spelt) = warned.line.value else {
        return words_of(alloc, ConfigMessage::NotSet.row(), &texts);
    };
    let value = spelt.trim_start_matches([' ', '\t']);
    let line = meant_line(alloc, prefix, warned.line.name, kind, spelt)?;
    let message = match kind {
        _ if value.len() < spelt.len() && is_taken(kind, value) => ConfigMessage::BlanksAfter,
        SymbolType::String if value.starts_with('"') => ConfigMessage::UnclosedString,
        SymbolType::String if line.is_none() => ConfigMessage::LongString,
        SymbolType::String => ConfigMessage::BareString,
        _ if value.is_empty() => ConfigMessage::EmptyValue,
        _ if line.is_some() && before_comment(value).is_some() => ConfigMessage::CommentAfter,
        _ => ConfigMessage::UnfitValue,
    };
    let texts = texts!(value: beginning(value), ..texts);
    let mut words = words_of(alloc, message.row(), &texts)?;
    push_meant_line(alloc, &mut words, line)?;
    Ok(words)
}

/// The values that a type takes.
pub(crate) fn values_of(kind: SymbolType) -> &'static str {
    match kind {
        SymbolType::Bool => "n and y",
        SymbolType::Tristate => "n, m and y",
        SymbolType::String => "a text in quotes",
        SymbolType::Int => "a decimal number of 64 bits",
        SymbolType::Hex => "a hexadecimal number of 64 bits",
    }
}
