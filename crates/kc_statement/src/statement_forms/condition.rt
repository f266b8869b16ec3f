//! Conditions, and what comes after a word of its own.

ghost use Rattle.std.specs.Prelude.{IfOk, IfErr};
ghost use Rattle.kc_statement.specs.Mistakes.{IsMistake};
ghost use Rattle.kc_statement.specs.Places.{IsPlaced};
ghost use Rattle.kc_statement.specs.Statements.{IsCondition, IsWordAndCondition};

use crate::expr::{Expr, ExprKind};
use crate::mistake::{Unread, Wanted, wants};
use crate::parser::Parser;
use crate::word::is_word;
use kc_text::Token;

impl Parser<'_> {
    /// The condition after a word, which is wanted as this.
    pub(crate) fn after_word(
        &self,
        word: &str,
        wanted: Wanted,
        tokens: &[Token<'_>],
    ) -> Result<Expr, Unread>
        ensures read { IfOk result (IsWordAndCondition self.now.names.now word.now tokens.now) }
        ensures mistake { IfErr result (IsMistake (IsWordAndCondition self.now.names.now word.now tokens.now)) }
        ensures place { IfErr result (IsPlaced (IsWordAndCondition self.now.names.now word.now) tokens.now) }
    {
        let Some((first, rest)) = tokens.split_first() else {
            return Err(wants(wanted, 0));
        };
        if !is_word(first, word) {
            return Err(wants(wanted, tokens.len()));
        }
        self.expression(ExprKind::Condition, rest)
    }

    /// The expression after `if`, none where nothing is there. Where something else is there, the line is to end.
    pub(crate) fn condition(&self, tokens: &[Token<'_>]) -> Result<Option<Expr>, Unread>
        ensures read { IfOk result (IsCondition self.now.names.now tokens.now) }
        ensures mistake { IfErr result (IsMistake (IsCondition self.now.names.now tokens.now)) }
        ensures place { IfErr result (IsPlaced (IsCondition self.now.names.now) tokens.now) }
    {
        if tokens.is_empty() {
            return Ok(None);
        }
        let condition = self.after_word("if", Wanted::Nothing, tokens)?;
        Ok(Some(condition))
    }
}
