//! Titles and prompts.

ghost use Rattle.std.specs.Prelude.{◌≡◌, IfOk, IfErr};
ghost use Rattle.kc_statement.specs.Forms.{quoted_text};
ghost use Rattle.kc_statement.specs.Mistakes.{IsMistake};
ghost use Rattle.kc_statement.specs.Places.{IsPlaced};
ghost use Rattle.kc_statement.specs.Statements.{IsPrompt, IsQuoted};

use crate::attribute::Prompt;
use crate::mistake::{Unread, Wanted, wants};
use crate::parser::Parser;
use kc_text::{Text, TextRef, Token};

/// The text of a token in quotes.
pub(crate) fn quoted_text<'a>(token: &'a Token<'_>) -> Option<TextRef<'a>>
    ensures { result ≡ quoted_text token.now }
{
    match token {
        Token::Quoted(text) => Some(TextRef::new(text.as_str())),
        Token::Word(_) => None,
        Token::Expanded(_) => None,
        Token::Operator(_) => None,
    }
}

impl Parser<'_> {
    /// A title in quotes, alone.
    pub(crate) fn title(&self, tokens: &[Token<'_>]) -> Result<Text, Unread>
        ensures read { IfOk result (IsQuoted tokens.now) }
        ensures mistake { IfErr result (IsMistake (IsQuoted tokens.now)) }
        ensures place { IfErr result (IsPlaced (IsQuoted) tokens.now) }
    {
        let Some((first, rest)) = tokens.split_first() else {
            return Err(wants(Wanted::Title, 0));
        };
        let Some(text) = quoted_text(first) else {
            return Err(wants(Wanted::Title, tokens.len()));
        };
        if !rest.is_empty() {
            return Err(wants(Wanted::Nothing, rest.len()));
        }
        Ok(Text::copy_of(self.alloc, text.as_str())?)
    }

    /// A text in quotes, and its condition.
    pub(crate) fn prompt(&self, tokens: &[Token<'_>]) -> Result<Prompt, Unread>
        ensures read { IfOk result (IsPrompt self.now.names.now tokens.now) }
        ensures mistake { IfErr result (IsMistake (IsPrompt self.now.names.now tokens.now)) }
        ensures place { IfErr result (IsPlaced (IsPrompt self.now.names.now) tokens.now) }
    {
        let Some((first, rest)) = tokens.split_first() else {
            return Err(wants(Wanted::Prompt, 0));
        };
        let Some(text) = quoted_text(first) else {
            return Err(wants(Wanted::Prompt, tokens.len()));
        };
        let condition = self.condition(rest)?;
        let text = self.names.prompt_text(self.alloc, text.as_str())?;
        Ok(Prompt { text, condition })
    }
}
