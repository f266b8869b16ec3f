//! What is wrong with a line.

ghost use Rattle.std.specs.Prelude.{◌≡◌, Some, List, drop};
ghost use Rattle.std.specs.List.{list_any};
ghost use Rattle.std.specs.Option.{option_copied};
ghost use Rattle.kc_text.specs.LineValue.{LineValue};
ghost use Rattle.kc_statement.specs.Forms.{is_word};
ghost use Rattle.kc_statement.specs.Keywords.{keyword_of};
ghost use Rattle.kc_outline.specs.LineFaults.{block_problem, closes_wrongly, early_problem, end_problem, is_unsupported, is_name_term, is_of_choice, is_stray, is_unquoted, opens_too_deep, starts_with, word_problem};
ghost use Rattle.kc_outline.specs.Enclosing.{open_blocks, nearest_statement};

use crate::context::{Context, OpenBlocks};
use crate::fault::LineProblem;
use crate::limits::MOST_OPEN_BLOCKS;
use kc_statement::{Keyword, Term, is_name, is_word, nests_too_deep};
use kc_text::{Line, LineKind, Token};

/// Whether tokens begin with this word, unquoted and without reference.
fn starts_with_word(tokens: &[Token<'_>], word: &str) -> bool
    ensures { result ≡ starts_with (is_word word.now) tokens.now }
{
    tokens.first().is_some_and(|token| is_word(token, word))
}

/// Whether this word is among tokens, unquoted and without reference.
fn has_word(tokens: &[Token<'_>], word: &str) -> bool
    ensures { result ≡ list_any (is_word word.now) tokens.now }
{
    tokens.iter().any(|token| is_word(token, word))
}

/// Whether tokens begin with an unquoted word.
fn starts_unquoted(tokens: &[Token<'_>]) -> bool
    ensures { result ≡ starts_with is_unquoted tokens.now }
{
    match tokens.first() {
        Some(Token::Word(_)) => true,
        Some(Token::Expanded(_)) => true,
        Some(Token::Quoted(_)) => false,
        Some(Token::Operator(_)) => false,
        None => false,
    }
}

/// The tokens after the first.
fn after_first<'a, 'b>(tokens: &'a [Token<'b>]) -> &'a [Token<'b>]
    ensures { result.now ≡ drop 1 tokens.now }
{
    let Some((_, rest)) = tokens.split_first() else {
        return tokens;
    };
    rest
}

/// Whether the nearest statement is a `choice`.
pub(crate) fn is_of_choice(nearest: Option<Keyword>) -> bool
    ensures { result ≡ is_of_choice nearest }
{
    nearest.is_some_and(|statement| statement == Keyword::Choice)
}

/// Whether a form is unsupported, by where it is, its keyword and the tokens after that.
fn is_unsupported(context: &Context, keyword: Keyword, tokens: &[Token<'_>]) -> bool
    ensures { result ≡ is_unsupported context.now.stack context.now.statement keyword tokens.now }
{
    match keyword {
        Keyword::Unsupported => true,
        Keyword::Choice => !tokens.is_empty() || context.choice().is_some(),
        Keyword::Menu => starts_unquoted(tokens) || context.choice().is_some(),
        Keyword::Tristate => starts_unquoted(tokens) || is_of_choice(context.statement()),
        Keyword::Option => {
            starts_with_word(tokens, "env") || starts_with_word(tokens, "defconfig_list")
        }
        Keyword::Depends => starts_with_word(tokens, "on") && has_word(after_first(tokens), "if"),
        _ => keyword.wants_quotes() && starts_unquoted(tokens),
    }
}

/// Whether a keyword is an attribute that the nearest statement doesn't take.
fn is_stray(context: &Context, keyword: Keyword) -> bool
    ensures { result ≡ is_stray context.now.statement keyword }
{
    keyword.is_attribute()
        && !context
            .statement()
            .is_some_and(|statement| statement.takes(keyword))
}

/// Whether a closer closes no block, or one that is not of its kind or of its inclusion of a file.
fn closes_wrongly(blocks: &OpenBlocks, keyword: Keyword, run: usize) -> bool
    ensures { result ≡ closes_wrongly blocks.now keyword run }
{
    keyword.closes()
        && !blocks.innermost().is_some_and(|block| keyword.is_end_of(block.keyword)
            && block.run == run)
}

/// Whether a line of this keyword closes a block wrongly, or is the last and leaves one open.
fn block_problem(context: &Context, line: &Line<'_>, keyword: Keyword, is_last: bool) -> bool
    requires { keyword_of line.now ≡ Some keyword }
    ensures { (earlier : List LineValue) → context.now.stack ≡ open_blocks earlier
        → result ≡ block_problem earlier is_last keyword line.now }
{
    let blocks = context.open_blocks();
    closes_wrongly(blocks, keyword, line.run()) || is_last && blocks.stays_open(keyword)
}

/// The problem of a line of a keyword, before its form is tested.
fn word_problem(
    context: &Context,
    line: &Line<'_>,
    keyword: Keyword,
    is_last: bool,
) -> Option<LineProblem>
    requires { keyword_of line.now ≡ Some keyword }
    ensures { (earlier : List LineValue) → context.now.stack ≡ open_blocks earlier
        → context.now.statement ≡ nearest_statement earlier
        → result ≡ word_problem earlier is_last keyword line.now }
{
    if is_unsupported(context, keyword, after_first(line.tokens())) {
        Some(LineProblem::Unsupported)
    } else if is_stray(context, keyword) {
        Some(LineProblem::StrayAttribute)
    } else if block_problem(context, line, keyword, is_last) {
        Some(LineProblem::UnbalancedBlock)
    } else if nests_too_deep(line.tokens()) {
        Some(LineProblem::Limit)
    } else {
        None
    }
}

/// The problem of an end of file: a block that its inclusion of the file opened is open, or any block where no line
/// follows.
fn end_problem(context: &Context, line: &Line<'_>, is_last: bool) -> Option<LineProblem>
    ensures { result ≡ end_problem context.now.stack is_last line.now }
{
    let blocks = context.open_blocks();
    if blocks.has_run(line.run()) || is_last && blocks.len() > 0 {
        Some(LineProblem::UnbalancedBlock)
    } else {
        None
    }
}

/// The problem of a line of this keyword, before its form is tested. The context is that of the lines before it;
/// `is_last` says that no line follows.
pub(crate) fn early_problem(
    context: &Context,
    line: &Line<'_>,
    keyword: Option<Keyword>,
    is_last: bool,
) -> Option<LineProblem>
    requires { keyword ≡ keyword_of line.now }
    ensures { (earlier : List LineValue) → context.now.stack ≡ open_blocks earlier
        → context.now.statement ≡ nearest_statement earlier
        → result ≡ early_problem earlier is_last line.now }
{
    match line.kind() {
        LineKind::Statement => match keyword {
            Some(word) => word_problem(context, line, word, is_last),
            None => Some(LineProblem::UnknownStatement),
        },
        LineKind::EndOfFile => end_problem(context, line, is_last),
    }
}

/// Whether a line opens one block more than may be open.
pub(crate) fn opens_too_deep(context: &Context, line: &Line<'_>, keyword: Option<Keyword>) -> bool
    requires { keyword ≡ keyword_of line.now }
    ensures { result ≡ opens_too_deep context.now.stack line.now }
{
    match keyword {
        Some(word) => word.opens() && context.open_blocks().len() >= MOST_OPEN_BLOCKS,
        None => false,
    }
}

/// Whether a term is a name, of a symbol or of none.
pub(crate) fn is_name_term(term: Option<&Term>) -> bool
    ensures { result ≡ is_name_term (option_copied term.entry) }
{
    match term {
        Some(Term::Symbol(_)) => true,
        Some(Term::Undefined(word)) => is_name(word.as_str()),
        Some(Term::Tri(_) | Term::Text(_)) | None => false,
    }
}
