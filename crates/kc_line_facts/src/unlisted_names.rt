//! Which names that no line defines are not listed.

ghost use Rattle.std.specs.Prelude.{◌≡◌, ◌==◌, ◌&&◌, ◌||◌, ℕ, IfOk, OnOk, not};
ghost use Rattle.std.specs.BTreeSet.{contains};
ghost use Rattle.std.specs.Ordering.{nat_cmp};
ghost use Rattle.kc_line_facts.specs.ListedNames.{is_listed_first, is_unknown, is_unknown_first, is_unlisted};

use crate::listed_names::ListedName;
use crate::meant_symbols::is_undefined;
use crate::named_uses::name_of;
use crate::undefined_names::DoubtfulName;
use kc_statement::is_name;
use kc_text::Line;
use std::alloc::{AllocError, Global};
use std::collections::BTreeSet;

/// Whether a name is one that a symbol can have, and that no line defines.
fn is_unknown(lines: &[Line<'_>], doubtful: &DoubtfulName) -> bool
    ensures { result ≡ is_unknown lines.now doubtful.now }
{
    is_undefined(doubtful.used.reading) && is_name(name_of(lines, doubtful.used))
}

/// Adds a number, if it is one of them.
fn add_first(firsts: &mut BTreeSet<usize>, first: usize, is_one: bool) -> Result<(), AllocError>
    ensures { OnOk result ((f : ℕ) → contains nat_cmp firsts.new f ≡ (contains nat_cmp firsts.old f || ((first == f) && is_one))) }
{
    if is_one {
        firsts.insert(first)?;
    }
    Ok(())
}

/// The names that no line defines, by the number that all uses of one have.
fn unknown_firsts(
    alloc: Global,
    lines: &[Line<'_>],
    doubtful: &[DoubtfulName],
) -> Result<BTreeSet<usize>, AllocError>
    ensures { IfOk result (λ r. (f : ℕ) → contains nat_cmp r f ≡ is_unknown_first lines.now doubtful.now f) }
{
    let mut firsts = BTreeSet::new(alloc);
    for place in 0..doubtful.len() {
        let name = &doubtful[place];
        add_first(&mut firsts, name.first, is_unknown(lines, name))?;
    }
    Ok(firsts)
}

/// Drops a number.
fn drop_first(firsts: &mut BTreeSet<usize>, first: usize)
    ensures { (f : ℕ) → contains nat_cmp firsts.new f ≡ (contains nat_cmp firsts.old f && not (first == f)) }
{
    firsts.remove(&first);
}

/// Drops the names that are listed.
fn drop_listed(firsts: &mut BTreeSet<usize>, listed: &[ListedName])
    ensures { (f : ℕ) → contains nat_cmp firsts.new f ≡ (contains nat_cmp firsts.old f && not (is_listed_first listed.now f)) }
{
    for place in 0..listed.len() {
        drop_first(firsts, listed[place].doubtful.first);
    }
}

/// Of the names that no line defines, those that are listed nowhere, by the number that all uses of one have.
///
/// # Errors
///
/// `AllocError` where memory is refused.
pub(crate) fn unlisted_firsts(
    alloc: Global,
    lines: &[Line<'_>],
    doubtful: &[DoubtfulName],
    listed: &[ListedName],
) -> Result<BTreeSet<usize>, AllocError>
    ensures { IfOk result (λ r. (f : ℕ) → contains nat_cmp r f ≡ is_unlisted lines.now doubtful.now listed.now f) }
{
    let mut firsts = unknown_firsts(alloc, lines, doubtful)?;
    drop_listed(&mut firsts, listed);
    Ok(firsts)
}
