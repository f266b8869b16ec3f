//! Words that a form fixes.

ghost use Rattle.std.specs.Prelude.{◌≡◌};
ghost use Rattle.kc_statement.specs.Forms.{is_word};

use kc_text::Token;

/// Whether a token is this word, unquoted and without reference, as a word has to be that a form fixes, as `if` or `on`
/// (kconfig-language.rst, "Menu attributes").
pub fn is_word(token: &Token<'_>, word: &str) -> bool
    ensures { result ≡ is_word word.now token.now }
{
    match token {
        Token::Word(text) => text.as_str() == word,
        Token::Expanded(_) => false,
        Token::Quoted(_) => false,
        Token::Operator(_) => false,
    }
}
