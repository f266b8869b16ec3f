//! What `select` and `imply` name.

ghost use Rattle.std.specs.Prelude.{Option, IfOk, IfErr};
ghost use Rattle.kc_statement.specs.Formula.{Formula};
ghost use Rattle.kc_statement.specs.Mistakes.{IsMistake};
ghost use Rattle.kc_statement.specs.Places.{IsPlaced};
ghost use Rattle.kc_statement.specs.Statements.{IsSelection};

use crate::expr::Expr;
use crate::id::SymId;
use crate::mistake::{Unread, Wanted, wants};
use crate::name::name_word;
use crate::parser::Parser;
use kc_text::Token;

impl Parser<'_> {
    /// A name and its condition.
    pub(crate) fn selection(
        &self,
        tokens: &[Token<'_>],
    ) -> Result<(Option<SymId>, Option<Expr>), Unread>
        ensures read { IfOk result (λ x. IsSelection self.now.names.now tokens.now x.0 x.1) }
        ensures mistake { IfErr result (IsMistake (λ (x : Option SymId × Option Formula). IsSelection self.now.names.now tokens.now x.0 x.1)) }
        ensures place { IfErr result (IsPlaced (λ ts (x : Option SymId × Option Formula). IsSelection self.now.names.now ts x.0 x.1) tokens.now) }
    {
        let Some((first, rest)) = tokens.split_first() else {
            return Err(wants(Wanted::Name, 0));
        };
        let Some(name) = name_word(first) else {
            return Err(wants(Wanted::Name, tokens.len()));
        };
        let condition = self.condition(rest)?;
        Ok((self.names.symbol(name.as_str()), condition))
    }
}
