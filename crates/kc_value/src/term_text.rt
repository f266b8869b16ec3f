//! The texts of terms.

ghost use Rattle.std.specs.Prelude.{◌≡◌};
ghost use Rattle.kc_statement.specs.LentText.{lent_bytes};
ghost use Rattle.kc_value.specs.Known.{given};
ghost use Rattle.kc_value.specs.ExprValue.{symbol_text, term_text};

use crate::known::Known;
use kc_tree::{LentText, Node, SymId, Term, Tri};

/// The text of the value of a symbol, n where it has none.
fn symbol_text<'a>(known: &Known<'a>, symbol: SymId) -> LentText<'a>
    ensures { lent_bytes result ≡ symbol_text known.now.tree (given known.now) symbol }
{
    if known.symbol(symbol).is_none() {
        return LentText::Plain(Tri::No.letter());
    }
    match known.get(Node::Val(symbol)) {
        Some(value) => value.lent_text(),
        None => LentText::Plain(Tri::No.letter()),
    }
}

/// The text of a term: that of a symbol is its value, that of a word that names none the word.
pub(crate) fn term_text<'a>(known: &Known<'a>, term: &'a Term) -> LentText<'a>
    ensures { lent_bytes result ≡ term_text known.now.tree (given known.now) term.now }
{
    match term {
        Term::Tri(tri) => LentText::Plain(tri.letter()),
        Term::Text(text) | Term::Undefined(text) => LentText::Shared(text),
        Term::Symbol(symbol) => symbol_text(known, *symbol),
    }
}
