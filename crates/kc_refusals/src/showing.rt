//! Lines, readings and user values as short texts, which are compared with those of `texts.rt`.

use kc_files::{Assign, ConfigLine, LineSays, Warning};
use kc_text::{Line, LineKind, Operator, Token};
use kc_tree::{Node, Tree, UserVal};
use kc_value::User;
use std::alloc::{AllocError, Global};

/// How an operator is written.
fn sign_of(operator: Operator) -> &'static str {
    match operator {
        Operator::And => "&&",
        Operator::Or => "||",
        Operator::Equal => "=",
        Operator::NotEqual => "!=",
        Operator::Less => "<",
        Operator::LessOrEqual => "<=",
        Operator::Greater => ">",
        Operator::GreaterOrEqual => ">=",
        Operator::Not => "!",
        Operator::Open => "(",
        Operator::Close => ")",
    }
}

/// Appends a token: a word as it is, one with a reference as `<text>`, a quoted one as `"text"`.
fn push_token(out: &mut String, token: &Token<'_>) -> Result<(), AllocError> {
    let (before, text, after) = match token {
        Token::Word(text) => ("", text.as_str(), ""),
        Token::Expanded(text) => ("<", text.as_str(), ">"),
        Token::Quoted(text) => ("\"", text.as_str(), "\""),
        Token::Operator(operator) => ("", sign_of(*operator), ""),
    };
    out.push_str(" ")?;
    out.push_str(before)?;
    out.push_str(text)?;
    out.push_str(after)
}

/// Appends a line, as `texts::LINES` has it: with its help text, where it has one.
fn push_line(alloc: Global, out: &mut String, line: &Line<'_>) -> Result<(), AllocError> {
    let (path, number) = (line.path(), line.number());
    out.push_str(format!(in alloc; "{path}:{number}")?.as_str())?;
    for token in line.tokens() {
        push_token(out, token)?;
    }
    if let Some(help) = line.help() {
        let help = help.to_text(alloc)?;
        out.push_str(format!(in alloc; " {{{help}}}")?.as_str())?;
    }
    if line.kind() == LineKind::EndOfFile {
        out.push_str(" end")?;
    }
    out.push_str("\n")
}

/// Logical lines, a line each.
pub(crate) fn lines_text(alloc: Global, lines: &[Line<'_>]) -> Result<String, AllocError> {
    let mut out = String::new(alloc);
    for line in lines {
        push_line(alloc, &mut out, line)?;
    }
    Ok(out)
}

/// Appends a line with a user value after the name of its symbol.
fn push_value(
    alloc: Global,
    out: &mut String,
    name: &str,
    value: &UserVal,
) -> Result<(), AllocError> {
    let value = match value {
        UserVal::Tri(tri) => tri.letter(),
        UserVal::Text(text) => text.as_str(),
    };
    out.push_str(format!(in alloc; "{name}={value}\n")?.as_str())
}

/// What the lines of a `.config` say, as `texts::CONFIG_LINES` has it.
pub(crate) fn said_text(
    alloc: Global,
    tree: &Tree,
    lines: &[ConfigLine],
) -> Result<String, AllocError> {
    let mut out = String::new(alloc);
    for line in lines {
        let number = line.number;
        out.push_str(format!(in alloc; "{number} ")?.as_str())?;
        match &line.says {
            LineSays::Usable(assign) => {
                push_value(alloc, &mut out, tree.name(assign.symbol), &assign.value)?;
            }
            LineSays::Warned(kind) => {
                let warning = kind.number();
                out.push_str(format!(in alloc; "{warning}\n")?.as_str())?;
            }
        }
    }
    Ok(out)
}

/// The values that were read of a `.config`, as `texts::ASSIGNS` has them.
pub(crate) fn assigns_text(
    alloc: Global,
    tree: &Tree,
    assigns: &[Assign],
) -> Result<String, AllocError> {
    let mut out = String::new(alloc);
    for assign in assigns {
        push_value(alloc, &mut out, tree.name(assign.symbol), &assign.value)?;
    }
    Ok(out)
}

/// Warnings, as `texts::WARNINGS` has them.
pub(crate) fn warnings_text(alloc: Global, warnings: &[Warning]) -> Result<String, AllocError> {
    let mut out = String::new(alloc);
    for warning in warnings {
        let (line, number) = (warning.line, warning.kind.number());
        out.push_str(format!(in alloc; "{line}:{number}\n")?.as_str())?;
    }
    Ok(out)
}

/// Appends a line with what the user gave of a node: the value of its symbol, or the chosen member of its choice.
fn push_given(
    alloc: Global,
    out: &mut String,
    tree: &Tree,
    user: &User,
    node: Node,
) -> Result<(), AllocError> {
    match node {
        Node::Val(symbol) => match user.get(symbol) {
            Some(value) => push_value(alloc, out, tree.name(symbol), value),
            None => Ok(()),
        },
        Node::Sel(choice) => match user.chosen(choice) {
            Some(member) => {
                let (number, name) = (choice.0, tree.name(member));
                out.push_str(format!(in alloc; "{number}={name}\n")?.as_str())
            }
            None => Ok(()),
        },
        Node::Vis(_) | Node::Mode(_) => Ok(()),
    }
}

/// The user values and the chosen members, as `texts::USER` has them.
pub(crate) fn user_text(alloc: Global, tree: &Tree, user: &User) -> Result<String, AllocError> {
    let mut out = String::new(alloc);
    for node in tree.nodes() {
        push_given(alloc, &mut out, tree, user, node)?;
    }
    Ok(out)
}
