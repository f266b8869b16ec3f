//! Which user values symbols take.
use crate::table::{Shown, compare};
use kc_statement::SharedText;
use kc_tree::{SymId, Tree, Tri, UserVal};
use std::alloc::{AllocError, Global};
use std::test::Fail;

/// A symbol of each type, and a member of a choice.
const SYMBOLS: &str = r#"
config B
    bool
config T
    tristate
config S
    string
config I
    int
config H
    hex
choice
    prompt "c"
config M
    bool "m"
endchoice
"#;

/// What each takes of the values n, m and y and of the texts 1f, 07 and none. What comes after them is no symbol of
/// the tree.
const TAKEN: &str = r#"
B: n y
T: n m y
S: '1f' '07' ''
I: '07'
H: '1f' '07'
M:
:
"#;

/// The tristate values that a symbol takes.
fn show_tris(out: &mut String, tree: &Tree, symbol: SymId) -> Result<(), AllocError> {
    for (tri, word) in [(Tri::No, " n"), (Tri::Module, " m"), (Tri::Yes, " y")] {
        if tree.fits(symbol, &UserVal::Tri(tri)) {
            out.push_str(word)?;
        }
    }
    Ok(())
}

/// The texts that a symbol takes.
fn show_texts(
    alloc: Global,
    out: &mut String,
    tree: &Tree,
    symbol: SymId,
) -> Result<(), AllocError> {
    for text in ["1f", "07", ""] {
        let value = UserVal::Text(SharedText::copy_of(alloc, text)?);
        if tree.fits(symbol, &value) {
            out.push_str(format!(in alloc; " '{text}'")?.as_str())?;
        }
    }
    Ok(())
}

/// The symbols of a tree and one more, each with the values that it takes.
pub(crate) fn show_taken(alloc: Global, tree: &Tree) -> Result<String, AllocError> {
    let mut out = String::from_str(alloc, "\n")?;
    for number in 0..7 {
        let symbol = SymId(number);
        out.push_str(tree.name(symbol))?;
        out.push(':')?;
        show_tris(&mut out, tree, symbol)?;
        show_texts(alloc, &mut out, tree, symbol)?;
        out.push('\n')?;
    }
    Ok(out)
}

#[test]
fn symbols_take_the_values_of_their_types(rt: HostRuntime) -> Result<(), Fail> {
    compare(rt.alloc(), Shown::Taken, SYMBOLS, TAKEN)
}
