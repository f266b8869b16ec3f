//! Which doubtful uses are of one name.

ghost use Rattle.std.specs.Prelude.{◌≡◌, ℕ, List, Some, IfOk, OnOk, if◌then◌else◌, option_map, unwrap_or};
ghost use Rattle.std.specs.BTreeMap.{get_by};
ghost use Rattle.std.specs.Cmp.Lexicographic.{slice_cmp};
ghost use Rattle.std.specs.Ordering.{nat_cmp};
ghost use Rattle.std.specs.Str.{bytes_eq};
ghost use Rattle.kc_line_facts.specs.DoubtfulNames.{name_of, named_uses, passed_after, word_at};

use crate::doubtful_uses::DoubtfulUse;
use crate::member_selections::token_word;
use kc_text::Line;
use std::alloc::{AllocError, Global};
use std::collections::BTreeMap;

/// A doubtful use, with those of the same name, by their places among all doubtful uses.
#[derive(Clone, Copy)]
pub(crate) struct NamedUse {
    pub used: DoubtfulUse,
    /// The first one, which may be this one.
    pub first: usize,
    /// The last one before this one.
    pub before: Option<usize>,
}

/// The uses of a name that were passed, by their places.
#[derive(Clone, Copy)]
struct Passed {
    first: usize,
    last: usize,
}

/// The word of a token of the line of an index.
fn word_at<'l>(lines: &'l [Line<'_>], line: usize, token: usize) -> Option<&'l str>
    ensures { option_map (λ word. word.now) result ≡ word_at lines.entry.now line token }
{
    token_word(lines.get(line)?.tokens().get(token)?)
}

/// The name that a line uses.
pub fn name_of<'l>(lines: &'l [Line<'_>], used: DoubtfulUse) -> &'l str
    ensures { result.now ≡ name_of lines.entry.now used }
{
    match word_at(lines, used.line, used.token) {
        Some(word) => word,
        None => "",
    }
}

/// What is known of a name after one more use of it, at a place, by what was known before.
fn passed_after(earlier: Option<Passed>, place: usize) -> Passed
    ensures { result ≡ passed_after earlier place }
{
    match earlier {
        Some(passed) => Passed {
            first: passed.first,
            last: place,
        },
        None => Passed {
            first: place,
            last: place,
        },
    }
}

/// Notes a use of a name, at a place among all, and gives those of the same name that were passed before.
fn pass<'l>(
    names: &mut BTreeMap<&'l str, Passed>,
    name: &'l str,
    place: usize,
) -> Result<Option<Passed>, AllocError>
    ensures earlier { IfOk result (λ earlier. earlier ≡ get_by (λ k. slice_cmp nat_cmp name.entry.now k.now) names.old) }
    ensures passed { OnOk result ((q : List ℕ) → get_by (λ k. slice_cmp nat_cmp q k.now) names.new
        ≡ (if bytes_eq name.entry.now q then Some (passed_after (get_by (λ k. slice_cmp nat_cmp name.entry.now k.now) names.old) place)
        else get_by (λ k. slice_cmp nat_cmp q k.now) names.old)) }
{
    let earlier = names.get(name).copied();
    names.insert(name, passed_after(earlier, place))?;
    Ok(earlier)
}

/// A use at a place, by those of the same name that were passed before.
fn named(used: DoubtfulUse, place: usize, earlier: Option<Passed>) -> NamedUse
    ensures { result ≡ record { used = used; first = unwrap_or (option_map (λ p. p.first) earlier) place; before = option_map (λ p. p.last) earlier } }
{
    match earlier {
        Some(passed) => NamedUse {
            used,
            first: passed.first,
            before: Some(passed.last),
        },
        None => NamedUse {
            used,
            first: place,
            before: None,
        },
    }
}

/// Uses with those of the same name, in their order.
pub(crate) fn named_uses(
    alloc: Global,
    lines: &[Line<'_>],
    uses: &[DoubtfulUse],
) -> Result<Vec<NamedUse>, AllocError>
    ensures { IfOk result (λ r. r.items ≡ named_uses lines.now uses.now) }
{
    let mut names = BTreeMap::new(alloc);
    let mut found = Vec::new(alloc);
    for place in 0..uses.len() {
        let used = uses[place];
        let earlier = pass(&mut names, name_of(lines, used), place)?;
        found.push(named(used, place, earlier))?;
    }
    Ok(found)
}
