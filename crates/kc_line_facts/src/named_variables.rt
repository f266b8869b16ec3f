//! The variables to which the lines of a Kconfig file refer, those that they define, and its `source` lines.

ghost use Rattle.std.specs.Prelude.{◌≡◌, ◌≤◌, ◌++◌, ◌∷◌, [], ℕ, List, length, if◌then◌else◌, IfOk, OnOk};
ghost use Rattle.std.specs.List.{prefix_len};
ghost use Rattle.std.specs.Str.Lines.{lines};
ghost use Rattle.kc_text.specs.Bytes.{is_blank};
ghost use Rattle.kc_text.specs.LineReferences.{lent_names};
ghost use Rattle.kc_line_facts.specs.FileVariables.{AreUsedIn, HaveVariables, begins_source, definitions_in, ends_word, is_source, named_in, sources_in, uses_at};

use kc_text::{FileItem, Text, leading_item, references_in, value_references_in};
use std::alloc::{AllocError, Global};

/// A variable in a line of a file, which refers to it or defines it.
#[derive(Debug, Drop)]
pub struct NamedVariable {
    /// The number of the line, counted from 1; of joined lines it is that of the first.
    pub line: usize,
    pub name: Text,
}

/// The variables in a file, and the numbers of its `source` lines, in the order of the lines.
#[derive(Debug, Drop)]
pub struct FileVariables {
    pub uses: Vec<NamedVariable>,
    pub definitions: Vec<NamedVariable>,
    pub sources: Vec<usize>,
}

/// Adds a variable in the line of a number.
fn push_name(
    alloc: Global,
    found: &mut Vec<NamedVariable>,
    line: usize,
    name: &str,
) -> Result<(), AllocError>
    ensures { OnOk result (found.new.items ≡ found.old.items ++ named_in line name.now ∷ []) }
{
    let name = Text::copy_of(alloc, name)?;
    found.push(NamedVariable { line, name })?;
    Ok(())
}

/// Adds variables in the line of a number.
fn push_names(
    alloc: Global,
    found: &mut Vec<NamedVariable>,
    line: usize,
    names: &[&str],
) -> Result<(), AllocError>
    ensures { OnOk result (found.new.items ≡ found.old.items ++ uses_at line (lent_names names.now)) }
{
    for place in 0..names.len() {
        push_name(alloc, found, line, names[place])?;
    }
    Ok(())
}

/// Whether a text begins with a blank or a quote.
fn ends_word(text: &[u8]) -> bool
    ensures { result ≡ ends_word text.now }
{
    matches!(text, [b' ' | b'\t' | b'"' | b'\'', ..])
}

/// How many blanks a text begins with.
fn blank_count(text: &[u8]) -> usize
    ensures count { result ≡ prefix_len is_blank text.now }
    ensures within { result ≤ length text.now }
{
    text.iter()
        .take_while(|byte| **byte == b' ' || **byte == b'\t')
        .count()
}

/// Whether a text begins with the word `source`, with a blank or a quote after it.
fn begins_source(text: &[u8]) -> bool
    ensures { result ≡ begins_source text.now }
{
    text.starts_with(b"source") && ends_word(&text[6..])
}

/// Whether the first word of a line is `source`, with a blank or a quote after it.
fn is_source(text: &str) -> bool
    ensures { result ≡ is_source text.now }
{
    let bytes = text.as_bytes();
    begins_source(&bytes[blank_count(bytes)..])
}

/// Adds the number of a line, if it is a `source` line.
fn push_source(sources: &mut Vec<usize>, line: usize, text: &str) -> Result<(), AllocError>
    ensures { OnOk result (sources.new.items ≡ sources.old.items ++ (if is_source text.now then line ∷ [] else [])) }
{
    if is_source(text) {
        sources.push(line)?;
    }
    Ok(())
}

/// Adds the variables in lines that are taken together, the first of which has a number.
fn push_item(
    alloc: Global,
    found: &mut FileVariables,
    line: usize,
    item: &FileItem<'_>,
) -> Result<(), AllocError>
    ensures uses { OnOk result ((names : List (List ℕ)) × AreUsedIn item.now names × (found.new.uses.items ≡ found.old.uses.items ++ uses_at line names)) }
    ensures definitions { OnOk result (found.new.definitions.items ≡ found.old.definitions.items ++ definitions_in line item.now) }
    ensures sources { OnOk result (found.new.sources.items ≡ found.old.sources.items ++ sources_in line item.now) }
{
    match item.definition() {
        Some(definition) => {
            push_name(
                alloc,
                &mut found.definitions,
                line,
                definition.name.as_str(),
            )?;
            let names = value_references_in(alloc, definition.value.as_str())?;
            push_names(alloc, &mut found.uses, line, names.as_slice())
        }
        None => {
            let names = references_in(alloc, item.text())?;
            push_names(alloc, &mut found.uses, line, names.as_slice())?;
            push_source(&mut found.sources, line, item.text())
        }
    }
}

/// The variables to which the lines of a Kconfig file refer, and those that they define (kconfig-macro-language.rst,
/// "Variables"). The text is taken
/// apart as its reader does: what a comment or a help text says is neither.
///
/// # Errors
///
/// `AllocError` where memory is refused.
pub fn file_variables(alloc: Global, text: &str) -> Result<FileVariables, AllocError>
    ensures { IfOk result (λ found. HaveVariables 0 (lines text.now) found.uses.items found.definitions.items found.sources.items) }
{
    let mut found = FileVariables {
        uses: Vec::new(alloc),
        definitions: Vec::new(alloc),
        sources: Vec::new(alloc),
    };
    let mut before = 0;
    let mut rest = text;
    while let Some((item, after)) = leading_item(alloc, rest)? {
        push_item(alloc, &mut found, before + 1, &item)?;
        before += item.more() + 1;
        rest = after;
    }
    Ok(found)
}
