//! The lists of lines that need no search.

ghost use Rattle.std.specs.Prelude.{◌≡◌, [], ◌∷◌, IfOk, map};

use crate::copies::copies;
use kc_files::Assign;
use std::alloc::{AllocError, Global};

/// The lists of lines that are tried before any search: no line, which is enough where each wanted value is there already,
/// and the wanted values themselves.
///
/// # Errors
///
/// The error comes where memory is refused.
pub fn plain_candidates(alloc: Global, wanted: &[Assign]) -> Result<Vec<Vec<Assign>>, AllocError>
    ensures { IfOk result (λ lists. map (λ list. list.items) lists.items ≡ [] ∷ wanted.now ∷ []) }
{
    let mut lists = Vec::new(alloc);
    lists.push(Vec::new(alloc))?;
    lists.push(copies(alloc, wanted)?)?;
    Ok(lists)
}
