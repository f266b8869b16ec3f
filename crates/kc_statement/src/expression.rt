//! Expressions, read from the tokens of a line.

ghost use Rattle.std.specs.Prelude.{◌≡◌, ◌∷◌, [], ◌++◌, ◌+◌, ◌-◌, ◌<◌, ◌≤◌, ◌↔◌, ℕ, true, List, length, map, replicate, IsTrue, IfOk, IfErr, IfSome, MatchOption};
ghost use Rattle.std.specs.List.{list_all};
ghost use Rattle.kc_statement.specs.Grammar.{Derives, IsNoExpression, is_module_term, is_bare_in, factor, part, expression, all_joined, any_joined, is_plain, term, compares, bang, opening, sign_symbol, symbol_of, negations};
ghost use Rattle.kc_statement.specs.Fronts.{Begins, IsUnreadable, DoesNotBegin, BeginsWithNoTerm, BeginsWithNoComparison, alone_in, stands_at};
ghost use Rattle.kc_statement.specs.Mistakes.{WhereMistaken, WherePlaced, CanGoOn};
ghost use Rattle.kc_statement.specs.Places.{IsPlaced, left_at};
ghost use Rattle.kc_statement.specs.TokenFronts.{symbols_at, IsReadAt};

use crate::expr::{Comparison, Expr, ExprKind, ExprNode, Operands, Term};
use crate::mistake::{Unread, Wanted, wants};
use crate::name::{quoted_term, word_term};
use crate::names::Names;
use crate::parser::Parser;
use crate::tri::Tri;
use crate::word::is_word;
use kc_text::{Operator, Token};
use std::alloc::{AllocError, Global};

impl Parser<'_> {
    /// The expression of a kind that tokens are (kconfig-language.rst, "Menu dependencies"), or the first mistake where
    /// they are none. Words are terms by the names of the defined symbols. Most expressions are one token, which is a
    /// term or nothing.
    pub(crate) fn expression(&self, kind: ExprKind, tokens: &[Token<'_>]) -> Result<Expr, Unread>
        ensures read { IfOk result (Derives kind self.now.names.now tokens.now) }
        ensures mistake { IfErr result (λ e. WhereMistaken e (IsNoExpression kind self.now.names.now tokens.now)) }
        ensures place { IfErr result (IsPlaced (Derives kind self.now.names.now) tokens.now) }
    {
        if let [token] = tokens {
            return self.lone_expression(kind, token);
        }
        let parser = ExprParser {
            alloc: self.alloc,
            names: self.names,
            kind,
            tokens,
        };
        let (expr, end) = parser.read_any(0)?;
        if end < tokens.len() {
            return Err(wants(wanted_after(tokens, end), parser.left(end)));
        }
        Ok(expr)
    }

    /// The expression that one token is.
    fn lone_expression(&self, kind: ExprKind, token: &Token<'_>) -> Result<Expr, Unread>
        ensures read { IfOk result (Derives kind self.now.names.now (token.now ∷ [])) }
        ensures mistake { IfErr result (λ e. WhereMistaken e (IsNoExpression kind self.now.names.now (token.now ∷ []))) }
        ensures place { IfErr result (IsPlaced (Derives kind self.now.names.now) (token.now ∷ [])) }
    {
        let Some(term) = term_of(self.alloc, self.names, token)? else {
            return Err(wants(Wanted::Operand, left_at(token)));
        };
        Ok(alone(kind, term))
    }
}

/// How many tokens are left where one token alone is wrong: none after a sign that an expression may begin with.
#[cold]
#[inline(never)]
fn left_at(token: &Token<'_>) -> usize
    ensures { result ≡ left_at token.now }
{
    match token {
        Token::Operator(Operator::Not | Operator::Open) => 0,
        Token::Operator(_) | Token::Word(_) | Token::Expanded(_) | Token::Quoted(_) => 1,
    }
}

/// What is wanted where an expression ends before its tokens do: an `if` there is another part of the line.
#[cold]
#[inline(never)]
fn wanted_after(tokens: &[Token<'_>], end: usize) -> Wanted {
    if tokens.get(end).is_some_and(|token| is_word(token, "if")) {
        return Wanted::Nothing;
    }
    let is_closed = is_sign_at(tokens, end.saturating_sub(1));
    let is_compared = end > 1 && tokens.get(end - 2).and_then(comparison_of).is_some();
    if is_closed || is_compared {
        Wanted::Joint
    } else {
        Wanted::Operator
    }
}

/// Whether a term is the constant m.
fn is_module(term: &Term) -> bool
    ensures { result ≡ is_module_term term.now }
{
    match term {
        Term::Tri(Tri::Module) => true,
        Term::Text(text) => text.as_str() == "m",
        Term::Tri(Tri::No | Tri::Yes) | Term::Symbol(_) | Term::Undefined(_) => false,
    }
}

/// Whether a term is a bare m where it is alone.
fn is_bare(kind: ExprKind, term: &Term) -> bool
    ensures { result ≡ is_bare_in kind term.now }
{
    match kind {
        ExprKind::Condition => is_module(term),
        ExprKind::Value => false,
    }
}

/// The expression of a term that is alone.
fn alone(kind: ExprKind, term: Term) -> Expr
    ensures formula { result ≡ alone_in kind term }
    ensures shape { is_plain result ≡ true }
{
    if is_bare(kind, &term) {
        Expr::of(ExprNode::BareModule(term))
    } else {
        Expr::of(ExprNode::Term(term))
    }
}

/// Reads an expression of a kind from tokens. A method that reads a part of it is given the position of the token where
/// that part begins, and returns the position after it.
#[derive(Clone, Copy)]
struct ExprParser<'a> {
    alloc: Global,
    names: &'a Names,
    kind: ExprKind,
    tokens: &'a [Token<'a>],
}

impl ExprParser<'_> {
    /// The expression that begins at a position: parts joined by `||`.
    #[cycle(expression)]
    fn read_any(&self, start: usize) -> Result<(Expr, usize), Unread>
        ensures front { IfOk result (IsReadAt self.now expression start) }
        ensures mistake { IfErr result (λ e. WhereMistaken e (IsUnreadable self.now.kind expression (symbols_at self.now start))) }
        ensures place { IfErr result (λ e. WherePlaced e (CanGoOn self.now.names.now self.now.kind expression (symbols_at self.now start))) }
        ensures shape { IfOk result (λ p. stands_at expression p.0 ≡ true) }
        ensures further { IfOk result (λ p. start < p.1) }
        ensures within { IfOk result (λ p. p.1 ≤ length self.now.tokens.now) }
    {
        let mut parts = Vec::new(self.alloc);
        let mut position = start;
        'parts: loop {
            let (part, end) = self.read_all(position)?;
            let Some(next) = self.after(end, Operator::Or) else {
                return Ok((any_of(parts, part)?, end));
            };
            parts.push(part)?;
            position = next;
        }
    }

    /// The part that begins at a position: factors joined by `&&`.
    #[cycle(expression)]
    fn read_all(&self, start: usize) -> Result<(Expr, usize), Unread>
        ensures front { IfOk result (IsReadAt self.now part start) }
        ensures mistake { IfErr result (λ e. WhereMistaken e (IsUnreadable self.now.kind part (symbols_at self.now start))) }
        ensures place { IfErr result (λ e. WherePlaced e (CanGoOn self.now.names.now self.now.kind part (symbols_at self.now start))) }
        ensures shape { IfOk result (λ p. stands_at part p.0 ≡ true) }
        ensures further { IfOk result (λ p. start < p.1) }
        ensures within { IfOk result (λ p. p.1 ≤ length self.now.tokens.now) }
    {
        let mut factors = Vec::new(self.alloc);
        let mut position = start;
        'factors: loop {
            let (factor, end) = self.read_factor(position)?;
            let Some(next) = self.after(end, Operator::And) else {
                return Ok((all_of(factors, factor)?, end));
            };
            factors.push(factor)?;
            position = next;
        }
    }

    /// The factor that begins at a position. A run of `!` takes no deeper calls, however long it is.
    #[cycle(expression)]
    fn read_factor(&self, start: usize) -> Result<(Expr, usize), Unread>
        ensures front { IfOk result (IsReadAt self.now factor start) }
        ensures mistake { IfErr result (λ e. WhereMistaken e (IsUnreadable self.now.kind factor (symbols_at self.now start))) }
        ensures place { IfErr result (λ e. WherePlaced e (CanGoOn self.now.names.now self.now.kind factor (symbols_at self.now start))) }
        ensures shape { IfOk result (λ p. stands_at factor p.0 ≡ true) }
        ensures further { IfOk result (λ p. start < p.1) }
        ensures within { IfOk result (λ p. p.1 ≤ length self.now.tokens.now) }
    {
        let plain = self.after_bangs(start);
        let (expr, end) = self.read_plain(plain)?;
        Ok((negated(self.alloc, expr, plain - start)?, end))
    }

    /// The factor that begins at a position with no `!`.
    #[cycle(expression)]
    fn read_plain(&self, start: usize) -> Result<(Expr, usize), Unread>
        requires plain { DoesNotBegin bang (symbols_at self.now start) }
        ensures front { IfOk result (IsReadAt self.now factor start) }
        ensures mistake { IfErr result (λ e. WhereMistaken e (IsUnreadable self.now.kind factor (symbols_at self.now start))) }
        ensures place { IfErr result (λ e. WherePlaced e (CanGoOn self.now.names.now self.now.kind factor (symbols_at self.now start))) }
        ensures shape { IfOk result (λ p. is_plain p.0 ≡ true) }
        ensures further { IfOk result (λ p. start < p.1) }
        ensures within { IfOk result (λ p. p.1 ≤ length self.now.tokens.now) }
    {
        let Some(inner) = self.after(start, Operator::Open) else {
            return self.read_comparison(start);
        };
        let (expr, closing) = self.read_any(inner)?;
        let Some(end) = self.after(closing, Operator::Close) else {
            return Err(wants(Wanted::Close, self.left(closing)));
        };
        Ok((Expr::of(ExprNode::Group(Box::new(self.alloc, expr)?)), end))
    }

    /// The term or the comparison that begins at a position, with neither `!` nor `(`.
    fn read_comparison(&self, start: usize) -> Result<(Expr, usize), Unread>
        requires plain { DoesNotBegin bang (symbols_at self.now start) }
        requires unopened { DoesNotBegin opening (symbols_at self.now start) }
        ensures front { IfOk result (IsReadAt self.now factor start) }
        ensures mistake { IfErr result (λ e. WhereMistaken e (IsUnreadable self.now.kind factor (symbols_at self.now start))) }
        ensures place { IfErr result (λ e. WherePlaced e (CanGoOn self.now.names.now self.now.kind factor (symbols_at self.now start))) }
        ensures shape { IfOk result (λ p. is_plain p.0 ≡ true) }
        ensures further { IfOk result (λ p. start < p.1) }
        ensures within { IfOk result (λ p. p.1 ≤ length self.now.tokens.now) }
    {
        let (left, end) = self.read_term(start, Wanted::Operand)?;
        let Some((comparison, next)) = self.after_comparison(end) else {
            return Ok((alone(self.kind, left), end));
        };
        let (right, end) = self.read_term(next, Wanted::Term)?;
        let operands = Box::new(self.alloc, Operands { left, right })?;
        Ok((Expr::of(ExprNode::Compare(comparison, operands)), end))
    }

    /// The term at a position, which is wanted as this.
    fn read_term(&self, start: usize, wanted: Wanted) -> Result<(Term, usize), Unread>
        ensures front { IfOk result (λ p. symbols_at self.now start ≡ term p.0 ∷ symbols_at self.now p.1) }
        ensures mistake { IfErr result (λ e. WhereMistaken e (BeginsWithNoTerm (symbols_at self.now start))) }
        ensures place { IfErr result (λ e. WherePlaced e (λ left. left ≡ length (symbols_at self.now start))) }
        ensures further { IfOk result (λ p. start < p.1) }
        ensures within { IfOk result (λ p. p.1 ≤ length self.now.tokens.now) }
    {
        let Some(token) = self.tokens.get(start) else {
            return Err(wants(wanted, 0));
        };
        match term_of(self.alloc, self.names, token)? {
            Some(term) => Ok((term, start + 1)),
            None => Err(wants(wanted, self.left(start))),
        }
    }

    /// The comparison whose sign is at a position, and the position after it.
    fn after_comparison(&self, start: usize) -> Option<(Comparison, usize)>
        ensures front { MatchOption result (BeginsWithNoComparison (symbols_at self.now start)) (λ p. symbols_at self.now start ≡ compares p.0 ∷ symbols_at self.now p.1) }
        ensures further { IfSome result (λ p. start < p.1) }
        ensures within { IfSome result (λ p. p.1 ≤ length self.now.tokens.now) }
    {
        let token = self.tokens.get(start)?;
        match comparison_of(token) {
            Some(comparison) => Some((comparison, start + 1)),
            None => None,
        }
    }

    /// The position after the run of `!` that begins at a position.
    fn after_bangs(&self, start: usize) -> usize
        ensures run { symbols_at self.now start ≡ replicate (result - start) bang ++ symbols_at self.now result }
        ensures plain { DoesNotBegin bang (symbols_at self.now result) }
        ensures from { start ≤ result }
    {
        let mut position = start;
        while let Some(next) = self.after(position, Operator::Not) {
            position = next;
        }
        position
    }

    /// How many tokens there are from a position on.
    fn left(&self, start: usize) -> usize
        ensures { result ≡ length (symbols_at self.now start) }
    {
        self.tokens.len().saturating_sub(start)
    }

    /// The position after a sign at a position.
    fn after(&self, start: usize, sign: Operator) -> Option<usize>
        ensures front { MatchOption result (DoesNotBegin (sign_symbol sign) (symbols_at self.now start)) (λ next. symbols_at self.now start ≡ sign_symbol sign ∷ symbols_at self.now next) }
        ensures next { IfSome result (λ next. next ≡ start + 1) }
        ensures within { IfSome result (λ next. next ≤ length self.now.tokens.now) }
    {
        let token = self.tokens.get(start)?;
        if is_sign(token, sign) {
            Some(start + 1)
        } else {
            None
        }
    }
}

/// The term that a token is. The word `if` is none, but where it comes from a reference.
pub(crate) fn term_of(
    alloc: Global,
    names: &Names,
    token: &Token<'_>,
) -> Result<Option<Term>, AllocError>
    ensures { IfOk result (λ r. MatchOption r ((x : Term) → symbol_of names.now token.now ≡ term x → ⊥) (λ x. symbol_of names.now token.now ≡ term x)) }
{
    match token {
        Token::Word(word) => {
            if word.as_str() == "if" {
                Ok(None)
            } else {
                Ok(Some(word_term(alloc, names, word.as_str())?))
            }
        }
        Token::Expanded(word) => Ok(Some(word_term(alloc, names, word.as_str())?)),
        Token::Quoted(text) => Ok(Some(quoted_term(alloc, names, text.as_str())?)),
        Token::Operator(_) => Ok(None),
    }
}

/// The comparison that a token is the sign of.
fn comparison_of(token: &Token<'_>) -> Option<Comparison>
    ensures { (names : List (List ℕ)) → MatchOption result ((c : Comparison) → symbol_of names token.now ≡ compares c → ⊥) (λ c. symbol_of names token.now ≡ compares c) }
{
    match token {
        Token::Operator(operator) => match operator {
            Operator::Equal => Some(Comparison::Equal),
            Operator::NotEqual => Some(Comparison::NotEqual),
            Operator::Less => Some(Comparison::Less),
            Operator::LessOrEqual => Some(Comparison::LessOrEqual),
            Operator::Greater => Some(Comparison::Greater),
            Operator::GreaterOrEqual => Some(Comparison::GreaterOrEqual),
            Operator::And => None,
            Operator::Or => None,
            Operator::Not => None,
            Operator::Open => None,
            Operator::Close => None,
        },
        Token::Word(_) => None,
        Token::Expanded(_) => None,
        Token::Quoted(_) => None,
    }
}

/// Whether a token is a sign.
fn is_sign(token: &Token<'_>, sign: Operator) -> bool
    ensures { (names : List (List ℕ)) → IsTrue result ↔ (symbol_of names token.now ≡ sign_symbol sign) }
{
    match token {
        Token::Operator(operator) => *operator == sign,
        Token::Word(_) => false,
        Token::Expanded(_) => false,
        Token::Quoted(_) => false,
    }
}

/// Whether the token at a position is a sign.
fn is_sign_at(tokens: &[Token<'_>], position: usize) -> bool {
    matches!(tokens.get(position), Some(Token::Operator(_)))
}

/// Parts and the last of them as one expression: the last alone, or all joined by `||`.
fn any_of(mut parts: Vec<Expr>, last: Expr) -> Result<Expr, AllocError>
    requires parts { list_all (λ e. stands_at part e) parts.items ≡ true }
    requires last { stands_at part last ≡ true }
    ensures joined { IfOk result (λ e. e ≡ any_joined (parts.items ++ last ∷ [])) }
    ensures shape { IfOk result (λ e. stands_at expression e ≡ true) }
{
    if parts.is_empty() {
        return Ok(last);
    }
    parts.push(last)?;
    Ok(Expr::of(ExprNode::Any(parts)))
}

/// Factors and the last of them as one expression: the last alone, or all joined by `&&`.
fn all_of(mut factors: Vec<Expr>, last: Expr) -> Result<Expr, AllocError>
    requires factors { list_all (λ e. stands_at factor e) factors.items ≡ true }
    requires last { stands_at factor last ≡ true }
    ensures joined { IfOk result (λ e. e ≡ all_joined (factors.items ++ last ∷ [])) }
    ensures shape { IfOk result (λ e. stands_at part e ≡ true) }
{
    if factors.is_empty() {
        return Ok(last);
    }
    factors.push(last)?;
    Ok(Expr::of(ExprNode::All(factors)))
}

/// An expression that begins with no `!`, after a run of `!`, which may be empty.
fn negated(alloc: Global, expr: Expr, count: usize) -> Result<Expr, AllocError>
    requires { is_plain expr ≡ true }
    ensures run { IfOk result (λ e. e ≡ negations count expr) }
    ensures shape { IfOk result (λ e. stands_at factor e ≡ true) }
{
    if count == 0 {
        return Ok(expr);
    }
    let operand = Box::new(alloc, expr)?;
    Ok(Expr::of(ExprNode::Not(count, operand)))
}
