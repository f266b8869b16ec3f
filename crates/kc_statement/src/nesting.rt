//! How deep the parentheses and the `!` of a line nest.

ghost use Rattle.std.specs.Prelude.{◌≡◌, ◌+◌, ◌<◌, ◌^◌};
ghost use Rattle.kc_statement.specs.declared.limits.TheConstants.{MOST_NESTED};
ghost use Rattle.kc_statement.specs.NestingDepth.{nests_too_deep};
ghost use Rattle.kc_statement.specs.Nesting.{depth_after, is_too_deep};

use crate::limits::MOST_NESTED;
use kc_text::{Operator, Token};

/// How deep the tokens so far nest.
#[derive(Drop)]
struct Depth {
    /// The parentheses that were opened.
    opened: usize,
    /// The parentheses that were closed.
    closed: usize,
    /// The number of `!` in a row at the end.
    nots: usize,
}

impl Depth {
    /// Goes past a token.
    fn count_token(&mut self, token: &Token<'_>)
        requires opened { self.old.opened + 1 < 2 ^ 64 }
        requires closed { self.old.closed + 1 < 2 ^ 64 }
        requires nots { self.old.nots + 1 < 2 ^ 64 }
        ensures { self.new ≡ depth_after self.old token.now }
    {
        match token {
            Token::Operator(Operator::Not) => self.nots += 1,
            Token::Operator(Operator::Open) => {
                self.opened += 1;
                self.nots = 0;
            }
            Token::Operator(Operator::Close) => {
                self.closed += 1;
                self.nots = 0;
            }
            _ => self.nots = 0,
        }
    }

    /// Whether more is open, or more `!` are in a row, than may be.
    fn is_too_deep(&self) -> bool
        requires { self.now.closed + MOST_NESTED + 1 < 2 ^ 64 }
        ensures { result ≡ is_too_deep self.now }
    {
        self.opened > self.closed + MOST_NESTED || self.nots > MOST_NESTED
    }
}

/// Whether tokens nest deeper than an expression may (this project's own limit, [`MOST_NESTED`]). Few tokens can't, so
/// that most lines cost nothing.
pub fn nests_too_deep(tokens: &[Token<'_>]) -> bool
    ensures { result ≡ nests_too_deep tokens.now }
{
    if tokens.len() <= MOST_NESTED {
        return false;
    }
    let mut depth = Depth {
        opened: 0,
        closed: 0,
        nots: 0,
    };
    for token in tokens {
        depth.count_token(token);
        if depth.is_too_deep() {
            return true;
        }
    }
    false
}
