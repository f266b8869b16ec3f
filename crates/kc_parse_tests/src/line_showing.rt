//! Lines of texts, faults, and what was added, as short texts.
use bumpalo::Bump;
use kc_text::{
    Line, LineKind, Operator, Sources, TextFault, TextProblem, Token, Vars, logical_lines,
};
use std::alloc::{AllocError, Global};
use std::test::Fail;

fn sign_of(operator: Operator) -> &'static str {
    match operator {
        Operator::And => "&&",
        Operator::Or => "||",
        Operator::Equal => "=",
        Operator::NotEqual => "!=",
        Operator::Less => "<",
        Operator::LessOrEqual => "<=",
        Operator::Greater => ">",
        Operator::GreaterOrEqual => ">=",
        Operator::Not => "!",
        Operator::Open => "(",
        Operator::Close => ")",
    }
}

/// A token: a word as it is, one with a reference as `<text>`, a quoted one as `"text"`.
fn show_token(out: &mut String, token: &Token<'_>) -> Result<(), AllocError> {
    let (before, text, after) = match token {
        Token::Word(text) => ("", text.as_str(), ""),
        Token::Expanded(text) => ("<", text.as_str(), ">"),
        Token::Quoted(text) => ("\"", text.as_str(), "\""),
        Token::Operator(operator) => ("", sign_of(*operator), ""),
    };
    out.push_str(before)?;
    out.push_str(text)?;
    out.push_str(after)
}

/// The place of a line: its number, in a sourced file after the path and the run.
fn show_place(alloc: Global, out: &mut String, line: &Line<'_>) -> Result<(), AllocError> {
    let number = line.number();
    let run = line.run();
    if run == 0 {
        return out.push_str(format!(in alloc; "{number}")?.as_str());
    }
    let path = line.path();
    out.push_str(format!(in alloc; "{path}#{run} {number}")?.as_str())
}

/// The help text of a line that has one.
fn show_help(alloc: Global, out: &mut String, line: &Line<'_>) -> Result<(), AllocError> {
    let Some(help) = line.help() else {
        return Ok(());
    };
    let help = help.to_text(alloc)?;
    out.push_str(format!(in alloc; " {{{help}}}")?.as_str())
}

/// A line as `[2 bool "a"]`, an end of file as `[3 end]`, a help text as `[2 help {text}]`. A line of a sourced
/// file has its path and run, as `[b#1 2 bool "a"]`.
fn show_line(alloc: Global, out: &mut String, line: &Line<'_>) -> Result<(), AllocError> {
    out.push('[')?;
    show_place(alloc, out, line)?;
    for token in line.tokens() {
        out.push(' ')?;
        show_token(out, token)?;
    }
    show_help(alloc, out, line)?;
    if line.kind() == LineKind::EndOfFile {
        out.push_str(" end")?;
    }
    out.push(']')
}

/// A fault as `K02 K:1`, and a missing file as `K08 K:1 b`.
fn show_fault(alloc: Global, fault: &TextFault) -> Result<String, AllocError> {
    let TextFault::At(problem, path, line) = fault else {
        return String::from_str(alloc, "no memory");
    };
    let number = problem.number();
    match problem {
        TextProblem::MissingSource(wanted) => {
            format!(in alloc; "K{number:02} {path}:{line} {wanted}")
        }
        _ => format!(in alloc; "K{number:02} {path}:{line}"),
    }
}

/// Lines, one after the other.
fn show_lines(alloc: Global, lines: &[Line<'_>]) -> Result<String, AllocError> {
    let mut out = String::new(alloc);
    for line in lines {
        show_line(alloc, &mut out, line)?;
    }
    Ok(out)
}

/// The lines of a path, or the fault.
pub(crate) fn lines_of(
    alloc: Global,
    sources: &Sources,
    vars: &Vars,
    path: &str,
) -> Result<String, AllocError> {
    match logical_lines(alloc, &Bump::new(alloc), sources, vars, path) {
        Ok(lines) => show_lines(alloc, lines.as_slice()),
        Err(fault) => show_fault(alloc, &fault),
    }
}

/// Adds files, each as `PATH: TEXT`, with ` & ` between two.
fn add_files(sources: &mut Sources, files: &str) -> Result<(), Fail> {
    for file in files.split(" & ") {
        let (path, text) = file.split_once(": ").ok_or("no path")?;
        sources.add(path, text)?;
    }
    Ok(())
}

/// The lines of K among such files, or the fault.
pub(crate) fn lines_of_files(alloc: Global, files: &str) -> Result<String, Fail> {
    let mut sources = Sources::new(alloc);
    add_files(&mut sources, files)?;
    Ok(lines_of(alloc, &sources, &Vars::none(alloc), "K")?)
}

/// The lines of a file K of this text with the variables of pairs, or the fault of the pairs or of the text.
pub(crate) fn lines_of_pairs(
    alloc: Global,
    pairs: &[(&str, &str)],
    text: &str,
) -> Result<String, Fail> {
    let vars = match Vars::from_pairs(alloc, pairs) {
        Ok(vars) => vars,
        Err(fault) => return Ok(show_fault(alloc, &fault)?),
    };
    let mut sources = Sources::new(alloc);
    sources.add("K", text)?;
    Ok(lines_of(alloc, &sources, &vars, "K")?)
}

/// The same of a text with the pairs before it, each as `NAME=VALUE & `.
pub(crate) fn lines_with_pairs(alloc: Global, text: &str) -> Result<String, Fail> {
    let (before, text) = text.rsplit_once(" & ").ok_or("no pairs")?;
    let mut pairs = Vec::new(alloc);
    for pair in before.split(" & ") {
        pairs.push(pair.split_once('=').ok_or("no pair")?)?;
    }
    lines_of_pairs(alloc, pairs.as_slice(), text)
}
