//! Ranges.

ghost use Rattle.std.specs.Prelude.{IfOk, IfErr};
ghost use Rattle.kc_statement.specs.Mistakes.{IsMistake};
ghost use Rattle.kc_statement.specs.Places.{IsPlaced};
ghost use Rattle.kc_statement.specs.Statements.{IsRange};

use crate::attribute::Range;
use crate::expression::term_of;
use crate::mistake::{Unread, Wanted, wants};
use crate::parser::Parser;
use kc_text::Token;

impl Parser<'_> {
    /// Two terms, and their condition.
    pub(crate) fn range(&self, tokens: &[Token<'_>]) -> Result<Range, Unread>
        ensures read { IfOk result (IsRange self.now.names.now tokens.now) }
        ensures mistake { IfErr result (IsMistake (IsRange self.now.names.now tokens.now)) }
        ensures place { IfErr result (IsPlaced (IsRange self.now.names.now) tokens.now) }
    {
        let Some((first, after_first)) = tokens.split_first() else {
            return Err(wants(Wanted::Term, 0));
        };
        let Some(low) = term_of(self.alloc, self.names, first)? else {
            return Err(wants(Wanted::Term, tokens.len()));
        };
        let Some((second, rest)) = after_first.split_first() else {
            return Err(wants(Wanted::Term, 0));
        };
        let Some(high) = term_of(self.alloc, self.names, second)? else {
            return Err(wants(Wanted::Term, after_first.len()));
        };
        let condition = self.condition(rest)?;
        Ok(Range {
            low,
            high,
            condition,
        })
    }
}
