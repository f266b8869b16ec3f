//! Copies of lines.

ghost use Rattle.std.specs.Prelude.{◌≡◌, IfOk};

use kc_files::Assign;
use kc_tree::UserVal;
use std::alloc::{AllocError, Global};

/// A copy of a value, which shares its text. The error comes where the owners of that can't be counted.
pub(crate) fn value_copy(value: &UserVal) -> Result<UserVal, AllocError>
    ensures { IfOk result (λ copy. copy ≡ value.now) }
{
    match value {
        UserVal::Tri(tri) => Ok(UserVal::Tri(*tri)),
        UserVal::Text(text) => Ok(UserVal::Text(text.share()?)),
    }
}

/// A copy of a line, which shares its text. The error comes where the owners of that can't be counted.
fn copy_of(line: &Assign) -> Result<Assign, AllocError>
    ensures { IfOk result (λ a. a ≡ line.now) }
{
    Ok(Assign {
        symbol: line.symbol,
        value: value_copy(&line.value)?,
    })
}

/// Copies of lines. The error comes where memory is refused.
pub(crate) fn copies(alloc: Global, lines: &[Assign]) -> Result<Vec<Assign>, AllocError>
    ensures { IfOk result (λ v. v.items ≡ lines.now) }
{
    let mut copies = Vec::new(alloc);
    for line in lines {
        copies.push(copy_of(line)?)?;
    }
    Ok(copies)
}
