ghost use Rattle.std.specs.Prelude.{◌≡◌, IfOk};
ghost use Rattle.kc_statement.specs.LentText.{lent_bytes};
ghost use Rattle.kc_value.specs.Assignment.{as_tri, as_text, as_member, is_written};

use kc_tree::{LentText, SymId, Tri, UserVal};
use std::alloc::AllocError;

/// The value of a node, as its rule gives it.
#[derive(Debug, Drop)]
pub enum Value {
    /// That of a visibility or a mode.
    Tri(Tri),
    /// That of a symbol, and whether the `.config` has a line for it.
    Shown(UserVal, bool),
    /// That of a selection: the member, if one is selected.
    Member(Option<SymId>),
}

impl Value {
    /// The tristate value, n for a symbol whose value is a text and for a selection.
    pub fn as_tri(&self) -> Tri
        ensures { result ≡ as_tri self.now }
    {
        match self {
            Value::Tri(tri) => *tri,
            Value::Shown(UserVal::Tri(tri), _) => *tri,
            Value::Shown(UserVal::Text(_), _) => Tri::No,
            Value::Member(_) => Tri::No,
        }
    }

    /// The text: the letter of a tristate value, nothing for a selection.
    pub fn as_text(&self) -> &str
        ensures { result.now ≡ as_text self.now }
    {
        match self {
            Value::Tri(tri) => tri.letter(),
            Value::Shown(UserVal::Tri(tri), _) => tri.letter(),
            Value::Shown(UserVal::Text(text), _) => text.as_str(),
            Value::Member(_) => "",
        }
    }

    /// The text, which is shared where it is kept.
    pub(crate) fn lent_text(&self) -> LentText<'_>
        ensures { lent_bytes result ≡ as_text self.now }
    {
        match self {
            Value::Shown(UserVal::Text(text), _) => LentText::Shared(text),
            _ => LentText::Plain(self.as_text()),
        }
    }

    /// The member that is selected, none for the value of another node.
    pub fn as_member(&self) -> Option<SymId>
        ensures { result ≡ as_member self.now }
    {
        match self {
            Value::Tri(_) => None,
            Value::Shown(_, _) => None,
            Value::Member(member) => *member,
        }
    }

    /// Whether the `.config` has a line for the symbol; the other nodes have none.
    pub fn is_written(&self) -> bool
        ensures { result ≡ is_written self.now }
    {
        match self {
            Value::Tri(_) => false,
            Value::Shown(_, written) => *written,
            Value::Member(_) => false,
        }
    }
}

/// A copy of a value, which shares its text. The error comes where the owners of that can't be counted.
pub(crate) fn copy_of(value: &Value) -> Result<Value, AllocError>
    ensures { IfOk result (λ v. v ≡ value.now) }
{
    match value {
        Value::Tri(tri) => Ok(Value::Tri(*tri)),
        Value::Shown(UserVal::Tri(tri), written) => Ok(Value::Shown(UserVal::Tri(*tri), *written)),
        Value::Shown(UserVal::Text(text), written) => {
            Ok(Value::Shown(UserVal::Text(text.share()?), *written))
        }
        Value::Member(member) => Ok(Value::Member(*member)),
    }
}
