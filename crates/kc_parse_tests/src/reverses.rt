//! By which `select` and `imply` lines the symbols of a tree are named.
use crate::table::{Shown, compare};
use kc_tree::{Reverse, SymId, Tree};
use std::alloc::{AllocError, Global};
use std::test::Fail;

/// A symbol of two definitions, with `select` and `imply` lines in turn, some of one symbol and one of a symbol that is
/// not defined.
const LINES: &str = r#"
config A
    bool
    imply T
    select MISSING
    select T
    imply U
    select U if A
    select T
    imply T
config A
    select T
config T
    tristate
config U
    tristate
"#;

/// The lines that name each symbol: the number of the definition, and after it that of the line among those of the
/// definition which select, or imply, whatever they name.
const NUMBERS: &str = r#"
A selected implied
T selected 0:1 0:3 1:0 implied 0:0 0:2
U selected 0:2 implied 0:1
"#;

/// Adds a word, and the numbers of lines.
fn show_numbers(out: &mut String, word: &str, lines: &[Reverse]) -> Result<(), AllocError> {
    out.push_str(word)?;
    for line in lines {
        let (definition, number) = (line.definition, line.number);
        write!(out, " {definition}:{number}")?;
    }
    Ok(())
}

/// The first three symbols of a tree, each with the numbers of the lines that name it.
pub(crate) fn show_reverses(alloc: Global, tree: &Tree) -> Result<String, AllocError> {
    let mut out = String::from_str(alloc, "\n")?;
    for number in 0..3 {
        let Some(symbol) = tree.symbols().get(number as usize) else {
            return Ok(out);
        };
        out.push_str(tree.name(SymId(number)))?;
        show_numbers(&mut out, " selected", symbol.selected())?;
        show_numbers(&mut out, " implied", symbol.implied())?;
        out.push('\n')?;
    }
    Ok(out)
}

#[test]
fn select_and_imply_lines_are_numbered_in_their_definitions(rt: HostRuntime) -> Result<(), Fail> {
    compare(rt.alloc(), Shown::Reverses, LINES, NUMBERS)
}
