//! Default values.

ghost use Rattle.std.specs.Prelude.{◌≡◌, ◌≤◌, length, position, codes, IfOk, IfErr};
ghost use Rattle.kc_statement.specs.Forms.{condition_start, is_word};
ghost use Rattle.kc_statement.specs.Mistakes.{IsMistake};
ghost use Rattle.kc_statement.specs.Places.{IsPlaced};
ghost use Rattle.kc_statement.specs.Statements.{IsDefault};

use crate::attribute::DefaultValue;
use crate::expr::ExprKind;
use crate::mistake::Unread;
use crate::parser::Parser;
use crate::word::is_word;
use kc_text::Token;

/// Where the first `if` is.
fn find_condition(tokens: &[Token<'_>]) -> Option<usize>
    ensures { result ≡ position (is_word (codes "if")) tokens.now }
{
    tokens.iter().position(|token| is_word(token, "if"))
}

/// Where the first `if` is, or the end.
fn condition_start(tokens: &[Token<'_>]) -> usize
    ensures start { result ≡ condition_start tokens.now }
    ensures within { result ≤ length tokens.now }
{
    find_condition(tokens).unwrap_or(tokens.len())
}

impl Parser<'_> {
    /// A value, and its condition.
    pub(crate) fn default_value(&self, tokens: &[Token<'_>]) -> Result<DefaultValue, Unread>
        ensures read { IfOk result (IsDefault self.now.names.now tokens.now) }
        ensures mistake { IfErr result (IsMistake (IsDefault self.now.names.now tokens.now)) }
        ensures place { IfErr result (IsPlaced (IsDefault self.now.names.now) tokens.now) }
    {
        let (front, rest) = tokens.split_at(condition_start(tokens));
        let value = match self.expression(ExprKind::Value, front) {
            Ok(value) => value,
            Err(unread) => return Err(unread.of_front(front.len(), tokens.len())),
        };
        let condition = self.condition(rest)?;
        Ok(DefaultValue { value, condition })
    }
}
