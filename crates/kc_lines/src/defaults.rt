//! Defaults that can't be meant as they are written.

ghost use Rattle.std.specs.Prelude.{◌≡◌, position, take};
ghost use Rattle.kc_lines.specs.Defaults.{is_constant, is_free, is_unread_text, meant_tri};

use kc_statement::{DefaultValue, SymbolType, Term};
use kc_tree::Tri;

/// The first default before that of a number which has no condition, so that this one is never used (kconfig-language.rst,
/// "default value": of several defaults the first active one counts).
pub fn free_default_before(defaults: &[DefaultValue], number: usize) -> Option<usize>
    ensures { result ≡ position is_free (take number defaults.now) }
{
    defaults
        .iter()
        .take(number)
        .position(|default| default.condition.is_none())
}

/// Whether a text is one of the constants n, m and y.
fn is_constant(text: &str) -> bool
    ensures { result ≡ is_constant text.now }
{
    text == "n" || text == "m" || text == "y"
}

/// Whether the default of a bool or a tristate is a text in quotes other than n, m and y, which counts n.
pub fn is_unread_text(kind: SymbolType, term: &Term) -> bool
    ensures { result ≡ is_unread_text kind term.now }
{
    match (kind, term) {
        (SymbolType::Bool | SymbolType::Tristate, Term::Text(text)) => !is_constant(text.as_str()),
        _ => false,
    }
}

/// The tristate value that a word other than the constants n, m and y may be meant as.
pub fn meant_tri(word: &str) -> Option<Tri>
    ensures { result ≡ meant_tri word.now }
{
    match word {
        "Y" | "yes" | "Yes" | "YES" | "true" | "True" | "TRUE" | "1" => Some(Tri::Yes),
        "N" | "no" | "No" | "NO" | "false" | "False" | "FALSE" | "0" => Some(Tri::No),
        "M" => Some(Tri::Module),
        _ => None,
    }
}
