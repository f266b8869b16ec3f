//! Variables: those that are passed in, the lines that define others, and what these do.

ghost use Rattle.std.specs.Prelude.{◌≡◌, [], None, Some, map, MatchOption, OnOk, ◌++◌, ◌∷◌, IfOk, Ok};
ghost use Rattle.kc_text.specs.Bytes.{behind_blanks};
ghost use Rattle.kc_text.specs.Definitions.{assignment_in, definition_of, may_assign, with, assigned, appended, defined, text_behind, text_meant, text_with, value_with};
ghost use Rattle.kc_text.specs.Faults.{GivesBy, ReadsAfter, ReadsBy};
ghost use Rattle.kc_text.specs.Names.{texts_in};
ghost use Rattle.kc_text.specs.Vars.{text_problem, vars_of};
ghost use Rattle.kc_text.specs.declared.variables.Value.{Value as NameValue};
ghost use Rattle.kc_text.specs.Expansion.{names_in, expansion, then_on};
ghost use Rattle.std.specs.String.{string_bytes};
ghost use Rattle.kc_text.specs.declared.variables.Assignment.TheVariants.{AtOnce};
ghost use Rattle.kc_text.specs.References.{value_pieces};
ghost use Rattle.kc_text.specs.Scanning.{progress_of};

use crate::bytes::{behind_blanks, name_len, text_after, trimmed};
use crate::expansion::{Expansion, Scope, expand, value_pieces};
use crate::fault::{LineFault, TextFault, TextProblem};
use crate::text::{Text, TextRef};
use std::alloc::{AllocError, Global};
use std::collections::BTreeMap;
use std::marker::Model;

/// How a line gives a variable its text.
#[derive(Clone, Copy, PartialEq, Eq)]
pub enum Assignment {
    /// `=`: the text is expanded at each use.
    Later,
    /// `:=`: the text is expanded at the line.
    AtOnce,
    /// `+=`: the text is appended to the one so far.
    Append,
}

/// What a line gives a variable.
#[derive(Drop)]
pub struct Definition<'a> {
    pub name: TextRef<'a>,
    pub assignment: Assignment,
    pub value: TextRef<'a>,
}

/// Whether a text after a name may give the name a value: after blanks it begins as one of `=`, `:=` and `+=`.
pub(crate) fn may_assign(text: &str) -> bool
    ensures { result ≡ may_assign (behind_blanks text.now) }
{
    matches!(behind_blanks(text).as_bytes(), [b'=' | b':' | b'+', ..])
}

/// The definition that a line makes: blanks, a name, blanks, one of `=`, `:=` and `+=`, and the value, which has
/// no blanks at its ends.
pub(crate) fn definition_of(line: &str) -> Option<Definition<'_>>
    ensures { result ≡ definition_of line.now }
{
    let line = behind_blanks(line);
    let len = name_len(line);
    if len == 0 {
        return None;
    }
    let (name, rest) = line.split_at(len);
    assignment_in(name, behind_blanks(rest))
}

/// The definition of a name, from the text after it and its blanks.
fn assignment_in<'a>(name: &'a str, text: &'a str) -> Option<Definition<'a>>
    ensures { result ≡ assignment_in name.now text.now }
{
    let (assignment, value) = match text.as_bytes() {
        [b'=', ..] => (Assignment::Later, text_after(text, 0)),
        [b':', b'=', ..] => (Assignment::AtOnce, text_after(text, 1)),
        [b'+', b'=', ..] => (Assignment::Append, text_after(text, 1)),
        _ => return None,
    };
    Some(Definition {
        name: TextRef::new(name),
        assignment,
        value: TextRef::new(trimmed(value)),
    })
}

/// The largest number of bytes of a variable's text.
const MAX_TEXT_BYTES: usize = 65_536;

/// The texts of variables that are passed in, by their names. Contracts see the list of the names in
/// the order of their bytes, each with its text.
#[derive(Drop)]
pub struct Vars {
    texts: BTreeMap<String, String>,
}

impl Model for Vars {
    ghost use Rattle.std.specs.Prelude.{List, ℕ};
    ghost use Rattle.kc_text.specs.FileList.{file_list};

    ghost Value = { List (List ℕ × List ℕ) };

    ghost view = { λ v. file_list v.texts };
}

impl Vars {
    /// No variables.
    pub fn none(alloc: Global) -> Vars
        ensures { result ≡ [] }
    {
        Vars {
            texts: BTreeMap::new(alloc),
        }
    }

    /// The variables of pairs of a name and a text. Of pairs with one name the last counts.
    ///
    /// The first pair at fault decides, also one that a later pair replaces: a text with a line feed, a
    /// carriage return or a NUL is K02, and one of more than 65,536 bytes K01, both with the name for a path, at
    /// line 0. `NoMemory` comes where memory is refused.
    pub fn from_pairs(alloc: Global, pairs: &[(&str, &str)]) -> Result<Vars, TextFault>
        ensures { GivesBy texts_in result (vars_of (map (λ p. (p.0.now, p.1.now)) pairs.now)) }
    {
        let mut texts = BTreeMap::new(alloc);
        for (name, text) in pairs {
            if let Some(problem) = text_problem(text) {
                return Err(TextFault::at(alloc, problem, name, 0));
            }
            let key = String::from_str(alloc, name)?;
            let content = String::from_str(alloc, text)?;
            texts.insert(key, content)?;
        }
        Ok(Vars { texts })
    }

    /// The text of a name.
    pub(crate) fn get(&self, name: &str) -> Option<&str>
        ensures { MatchOption result (texts_in self.now name.now ≡ None) (λ text. texts_in self.now name.now ≡ Some text.now) }
    {
        let text = self.texts.get(name)?;
        Some(text.as_str())
    }
}

/// What is wrong with the text of a variable.
fn text_problem(text: &str) -> Option<TextProblem>
    ensures { result ≡ text_problem text.now }
{
    let bytes = text.as_bytes();
    if bytes
        .iter()
        .any(|byte| *byte == b'\n' || *byte == b'\r' || *byte == 0)
    {
        return Some(TextProblem::BadCharacter);
    }
    if bytes.len() > MAX_TEXT_BYTES {
        return Some(TextProblem::Limit);
    }
    None
}

/// The value of a variable.
#[derive(Drop)]
pub(crate) enum Value {
    /// A text that is expanded at each use.
    Recursive(Text),
    /// A text as it is.
    Simple(Text),
}

/// The variables that lines have defined so far. Contracts see the list of their names in the order of the bytes, each
/// with its value.
#[derive(Drop)]
pub(crate) struct Variables {
    values: BTreeMap<String, Value>,
    alloc: Global,
}

impl Model for Variables {
    ghost use Rattle.std.specs.Prelude.{List, ℕ};
    ghost use Rattle.kc_text.specs.VariableList.{variable_list};
    ghost use Rattle.kc_text.specs.declared.variables.Value.{Value as NameValue};

    ghost Value = { List (List ℕ × NameValue) };

    ghost view = { λ v. variable_list v.values };
}

impl Variables {
    /// No variables.
    pub(crate) fn new(alloc: Global) -> Variables
        ensures { result ≡ [] }
    {
        Variables {
            values: BTreeMap::new(alloc),
            alloc,
        }
    }

    /// The value of a variable.
    pub(crate) fn get(&self, name: &str) -> Option<&Value>
        ensures { MatchOption result (names_in self.now name.now ≡ None) (λ value. names_in self.now name.now ≡ Some value.now) }
    {
        self.values.get(name)
    }

    /// Removes the value of a name, so that it can be changed without a copy.
    pub(crate) fn take(&mut self, name: &str) -> Option<Value>
        ensures value { result ≡ names_in self.old name.now }
        ensures others { (v : NameValue) → with name.now v (names_in self.new) ≡ with name.now v (names_in self.old) }
    {
        self.values.remove(name)
    }

    /// Gives a name a value, which replaces the one that it had.
    pub(crate) fn define(&mut self, name: &str, value: Value) -> Result<(), AllocError>
        ensures { OnOk result (names_in self.new ≡ with name.now value (names_in self.old)) }
    {
        let key = String::from_str(self.alloc, name)?;
        self.values.insert(key, value)?;
        Ok(())
    }
}

/// Gives the name of a definition its value.
pub(crate) fn define(
    alloc: Global,
    outside: &Vars,
    variables: &mut Variables,
    definition: &Definition<'_>,
) -> Result<(), LineFault>
    ensures { ReadsAfter result (names_in variables.new) (defined (texts_in outside.now) (names_in variables.old) definition.now) }
{
    let name = definition.name.as_str();
    let value = definition.value.as_str();
    match definition.assignment {
        Assignment::Later => {
            let text = Text::copy_of(alloc, value)?;
            variables.define(name, Value::Recursive(text))?;
            Ok(())
        }
        Assignment::AtOnce => define_at_once(alloc, outside, variables, name, value),
        Assignment::Append => append(alloc, outside, variables, name, value),
    }
}

/// Gives a name the expanded text of a value.
fn define_at_once(
    alloc: Global,
    outside: &Vars,
    variables: &mut Variables,
    name: &str,
    value: &str,
) -> Result<(), LineFault>
    ensures { ReadsAfter result (names_in variables.new) (assigned (texts_in outside.now) (names_in variables.old) AtOnce name.now value.now) }
{
    let mut out = Expansion::after(alloc, "");
    expand_value(alloc, outside, variables, value, &mut out)?;
    variables.define(name, Value::Simple(Text::new(out.text)))?;
    Ok(())
}

/// Appends the expanded text of a value.
fn expand_value(
    alloc: Global,
    outside: &Vars,
    variables: &Variables,
    value: &str,
    out: &mut Expansion<'_>,
) -> Result<(), LineFault>
    ensures expands { ReadsAfter result (progress_of out.new) (expansion (names_in variables.now) (texts_in outside.now) (value_pieces value.now) (progress_of out.old)) }
    ensures before { OnOk result (out.new.before.now ≡ out.old.before.now) }
{
    let scope = Scope {
        alloc,
        variables,
        outside,
    };
    let pieces = value_pieces(alloc, value)?;
    expand(scope, pieces.as_slice(), out)
}

/// Appends a value to the text of a name: after one space, and expanded at once where that text was. A name without
/// definition gets the value alone.
fn append(
    alloc: Global,
    outside: &Vars,
    variables: &mut Variables,
    name: &str,
    value: &str,
) -> Result<(), LineFault>
    ensures { ReadsAfter result (names_in variables.new) (appended (texts_in outside.now) (names_in variables.old) name.now value.now) }
{
    let addition = addition_to(alloc, outside, variables, name, value)?;
    let meant = variables.take(name);
    let value = value_with(meant, addition)?;
    variables.define(name, value)?;
    Ok(())
}

/// The value of a name with bytes appended to its text; a name without definition has the bytes for a text that each use
/// expands.
fn value_with(meant: Option<Value>, addition: String) -> Result<Value, AllocError>
    ensures { IfOk result (λ v. v ≡ value_with meant (text_meant meant ++ string_bytes addition)) }
{
    match meant {
        Some(Value::Recursive(text)) => Ok(Value::Recursive(joined(text, addition.as_str())?)),
        Some(Value::Simple(text)) => Ok(Value::Simple(joined(text, addition.as_str())?)),
        None => Ok(Value::Recursive(Text::new(addition))),
    }
}

/// A text with bytes appended, without a copy of it.
fn joined(text: Text, bytes: &str) -> Result<Text, AllocError>
    ensures { IfOk result (λ t. t ≡ text ++ bytes.now) }
{
    let mut joined = text.into_string();
    joined.push_str(bytes)?;
    Ok(Text::new(joined))
}

/// The bytes that are appended to the text of a name: one space and a value, which is expanded where the text was. A
/// name without definition gets the value alone.
fn addition_to(
    alloc: Global,
    outside: &Vars,
    variables: &Variables,
    name: &str,
    value: &str,
) -> Result<String, LineFault>
    ensures { ReadsBy (λ s. text_meant (names_in variables.now name.now) ++ string_bytes s) result (text_with (texts_in outside.now) (names_in variables.now) (names_in variables.now name.now) value.now) }
{
    match variables.get(name) {
        Some(Value::Simple(text)) => {
            expanded_addition(alloc, outside, variables, text.as_str(), value)
        }
        Some(Value::Recursive(_)) => Ok(spaced(alloc, value)?),
        None => Ok(String::from_str(alloc, value)?),
    }
}

/// One space and a value.
fn spaced(alloc: Global, value: &str) -> Result<String, AllocError>
    ensures { IfOk result (λ s. string_bytes s ≡ 32 ∷ value.now) }
{
    let mut out = String::from_str(alloc, " ")?;
    out.push_str(value)?;
    Ok(out)
}

/// One space and the expanded text of a value. The text before them is not copied.
fn expanded_addition(
    alloc: Global,
    outside: &Vars,
    variables: &Variables,
    text: &str,
    value: &str,
) -> Result<String, LineFault>
    ensures { ReadsBy (λ s. text.now ++ string_bytes s) result (then_on (text_behind (texts_in outside.now) (names_in variables.now) text.now value.now) (λ p. Ok p.text)) }
{
    let mut out = Expansion::after(alloc, text);
    out.put(" ")?;
    expand_value(alloc, outside, variables, value, &mut out)?;
    Ok(out.text)
}
