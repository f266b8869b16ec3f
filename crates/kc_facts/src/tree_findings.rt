//! What is found in the lines of a tree, in their order.

ghost use Rattle.std.specs.Prelude.{◌≡◌, ◌++◌, IfOk, OnOk, flat_map, length, slice_get};
ghost use Rattle.std.specs.List.{range_with_len};
ghost use Rattle.kc_value.specs.Assignment.{assignment_of};
ghost use Rattle.kc_facts.specs.HiddenChoices.{hidden_choices};
ghost use Rattle.kc_facts.specs.Unset.{unset_definitions};
ghost use Rattle.kc_facts.specs.TreeFindings.{AreByLine, earlier_found, faulty_found, forced_found, found_at, found_by_kind, found_in, hidden_found, if_all, member_found, name_found, never_found, range_found, unset_found, unused_found};

use crate::definition_lines::DefinitionLines;
use crate::forced_definitions::{Forced, forced_symbols};
use crate::range_faults::exchanged_ranges;
use crate::tristates_without_modules::never_modules;
use crate::unseen_choices::hidden_choices;
use crate::unset_symbols::unset_definitions;
use crate::view::View;
use kc_line_facts::{
    AttributePlace, Extent, FaultyDefault, UnusedDefault, faulty_defaults, selected_members,
    unused_defaults,
};
use kc_lines::{Attribute, Family, LineIndex};
use kc_value::RangePlace;
use std::alloc::{AllocError, Global};

/// What is found in a line of a tree (this project's own).
#[derive(Clone, Copy, Debug, PartialEq, Eq)]
pub enum TreeFinding {
    /// What comes before the line, by its number in a list.
    Earlier(usize),
    /// The symbol that the line defines is selected for more than its dependencies are worth.
    Forced(Forced),
    /// No line gives the symbol a value that the line defines: the number of its first definition.
    Unset(usize),
    /// The default of the line is likely a mistake.
    FaultyDefault(FaultyDefault),
    /// The line says that a symbol is a tristate, which is never m: the number of the definition.
    NeverModules(usize),
    /// The default of the line is never used, since one before it always counts.
    UnusedDefault(UnusedDefault),
    /// The low bound of the range of the line is above its high bound.
    ExchangedRange(RangePlace),
    /// The line selects or implies a member of a choice: the number of the definition that it belongs to.
    SelectedMember(usize),
    /// The default of the line is never used, since its choice is never visible.
    HiddenDefault,
    /// A name in the line, by its number in a list.
    Name(usize),
}

/// What is found in the line of a number, among all lines from 0.
#[derive(Clone, Copy, Debug, PartialEq, Eq)]
pub struct FoundInTree {
    pub line: usize,
    pub finding: TreeFinding,
}

/// What is found in a tree otherwise: of each the number of its line, among all lines from 0.
#[derive(Clone, Copy)]
pub struct FoundLines<'f> {
    /// What comes before a line.
    pub earlier: &'f [usize],
    /// Names that are likely mistakes.
    pub names: &'f [usize],
}

/// Adds what is found in the line of a number, if there is one.
fn add_at(
    found: &mut Vec<FoundInTree>,
    line: Option<usize>,
    finding: TreeFinding,
) -> Result<(), AllocError>
    ensures { OnOk result (found.new.items ≡ found.old.items ++ found_at line finding) }
{
    if let Some(line) = line {
        found.push(FoundInTree { line, finding })?;
    }
    Ok(())
}

/// Adds what is found in each line of these numbers.
fn add_in(
    found: &mut Vec<FoundInTree>,
    lines: &[usize],
    finding: TreeFinding,
) -> Result<(), AllocError>
    ensures { OnOk result (found.new.items ≡ found.old.items ++ found_in lines.now finding) }
{
    for one in lines {
        found.push(FoundInTree {
            line: *one,
            finding,
        })?;
    }
    Ok(())
}

/// The line of a number among these.
fn line_at(lines: &[usize], number: usize) -> Option<usize>
    ensures { result ≡ slice_get lines.now number }
{
    lines.get(number).copied()
}

/// Adds what comes before lines, which have these numbers.
fn add_earlier(found: &mut Vec<FoundInTree>, earlier: &[usize]) -> Result<(), AllocError>
    ensures { OnOk result (found.new.items
        ≡ found.old.items ++ flat_map (earlier_found earlier.now) (range_with_len 0 (length earlier.now))) }
{
    for number in 0..earlier.len() {
        let line = line_at(earlier, number);
        add_at(found, line, TreeFinding::Earlier(number))?;
    }
    Ok(())
}

/// Adds names in lines, which have these numbers.
fn add_names(found: &mut Vec<FoundInTree>, names: &[usize]) -> Result<(), AllocError>
    ensures { OnOk result (found.new.items
        ≡ found.old.items ++ flat_map (name_found names.now) (range_with_len 0 (length names.now))) }
{
    for number in 0..names.len() {
        let line = line_at(names, number);
        add_at(found, line, TreeFinding::Name(number))?;
    }
    Ok(())
}

/// Adds symbols that are selected for more than their dependencies are worth.
fn add_forced(
    found: &mut Vec<FoundInTree>,
    index: &LineIndex<'_, '_>,
    forced: &[Forced],
) -> Result<(), AllocError>
    ensures { OnOk result (found.new.items ≡ found.old.items ++ flat_map (forced_found index.now) forced.now) }
{
    for one in forced {
        let line = index.start(Family::Definition, one.definition);
        add_at(found, line, TreeFinding::Forced(*one))?;
    }
    Ok(())
}

/// Adds symbols to which no line gives a value, by their first definitions.
fn add_unset(
    found: &mut Vec<FoundInTree>,
    index: &LineIndex<'_, '_>,
    unset: &[usize],
) -> Result<(), AllocError>
    ensures { OnOk result (found.new.items ≡ found.old.items ++ flat_map (unset_found index.now) unset.now) }
{
    for one in unset {
        let line = index.start(Family::Definition, *one);
        add_at(found, line, TreeFinding::Unset(*one))?;
    }
    Ok(())
}

/// Adds defaults that are likely mistakes.
fn add_faulty(
    alloc: Global,
    found: &mut Vec<FoundInTree>,
    index: &LineIndex<'_, '_>,
    faulty: &[FaultyDefault],
) -> Result<(), AllocError>
    ensures { OnOk result (found.new.items ≡ found.old.items ++ flat_map (faulty_found index.now) faulty.now) }
{
    let mut lines = DefinitionLines::of(alloc, index, Attribute::Default)?;
    for one in faulty {
        let line = lines.number(alloc, one.definition, one.place)?;
        add_at(found, line, TreeFinding::FaultyDefault(*one))?;
    }
    Ok(())
}

/// Adds defaults that are never used.
fn add_unused(
    alloc: Global,
    found: &mut Vec<FoundInTree>,
    index: &LineIndex<'_, '_>,
    unused: &[UnusedDefault],
) -> Result<(), AllocError>
    ensures { OnOk result (found.new.items ≡ found.old.items ++ flat_map (unused_found index.now) unused.now) }
{
    let mut lines = DefinitionLines::of(alloc, index, Attribute::Default)?;
    for one in unused {
        let line = lines.number(alloc, one.definition, one.place)?;
        add_at(found, line, TreeFinding::UnusedDefault(*one))?;
    }
    Ok(())
}

/// Adds ranges whose sides are exchanged.
fn add_ranges(
    alloc: Global,
    found: &mut Vec<FoundInTree>,
    index: &LineIndex<'_, '_>,
    ranges: &[RangePlace],
) -> Result<(), AllocError>
    ensures { OnOk result (found.new.items ≡ found.old.items ++ flat_map (range_found index.now) ranges.now) }
{
    let mut lines = DefinitionLines::of(alloc, index, Attribute::Range)?;
    for one in ranges {
        let line = lines.number(alloc, one.definition, one.range)?;
        add_at(found, line, TreeFinding::ExchangedRange(*one))?;
    }
    Ok(())
}

/// Adds lines that select or imply a member of a choice.
fn add_members(
    found: &mut Vec<FoundInTree>,
    index: &LineIndex<'_, '_>,
    members: &[AttributePlace],
) -> Result<(), AllocError>
    ensures { OnOk result (found.new.items ≡ found.old.items ++ flat_map (member_found index.now) members.now) }
{
    for one in members {
        let line = index.attribute_number(Family::Definition, one.definition, one.attribute);
        add_at(found, line, TreeFinding::SelectedMember(one.definition))?;
    }
    Ok(())
}

/// Adds the defaults of choices that are never visible.
fn add_hidden(
    alloc: Global,
    found: &mut Vec<FoundInTree>,
    index: &LineIndex<'_, '_>,
    hidden: &[usize],
) -> Result<(), AllocError>
    ensures { OnOk result (found.new.items ≡ found.old.items ++ flat_map (hidden_found index.now) hidden.now) }
{
    for one in hidden {
        let lines = index.numbers_saying(alloc, Family::Choice, *one, Attribute::Default)?;
        add_in(found, lines.as_slice(), TreeFinding::HiddenDefault)?;
    }
    Ok(())
}

/// Adds that a tristate is never m, of the first of these definitions.
fn add_never(
    alloc: Global,
    found: &mut Vec<FoundInTree>,
    index: &LineIndex<'_, '_>,
    never: &[usize],
) -> Result<(), AllocError>
    ensures { OnOk result (found.new.items ≡ found.old.items ++ never_found index.now never.now) }
{
    let Some(number) = never.first() else {
        return Ok(());
    };
    let mut lines = DefinitionLines::of(alloc, index, Attribute::Type)?;
    let line = lines.number(alloc, *number, 0)?;
    add_at(found, line, TreeFinding::NeverModules(*number))
}

/// Symbols to which no line gives a value, where all is listed.
fn unset_if_all(alloc: Global, view: &View<'_>, extent: Extent) -> Result<Vec<usize>, AllocError>
    ensures { IfOk result (λ r. r.items ≡ if_all extent (unset_definitions view.now.tree)) }
{
    match extent {
        Extent::All => unset_definitions(alloc, view.tree()),
        Extent::Near => Ok(Vec::new(alloc)),
    }
}

/// Choices that are never visible, where all is listed.
fn hidden_if_all(alloc: Global, view: &View<'_>, extent: Extent) -> Result<Vec<usize>, AllocError>
    ensures { IfOk result (λ r. r.items ≡ if_all extent (hidden_choices view.now.tree)) }
{
    match extent {
        Extent::All => hidden_choices(alloc, view),
        Extent::Near => Ok(Vec::new(alloc)),
    }
}

/// What is found in a tree, kind after kind.
fn found_by_kind(
    alloc: Global,
    view: &View<'_>,
    index: &LineIndex<'_, '_>,
    lines: FoundLines<'_>,
    extent: Extent,
) -> Result<Vec<FoundInTree>, AllocError>
    ensures { IfOk result (λ r. r.items ≡ found_by_kind lines.entry.earlier.now lines.entry.names.now extent index.now
        view.now.tree (assignment_of view.now.tree view.now.values)) }
{
    let tree = view.tree();
    let forced = forced_symbols(alloc, view)?;
    let unset = unset_if_all(alloc, view, extent)?;
    let faulty = faulty_defaults(alloc, tree)?;
    let never = never_modules(alloc, index, tree)?;
    let unused = unused_defaults(alloc, index, tree)?;
    let ranges = exchanged_ranges(alloc, tree)?;
    let members = selected_members(alloc, index, tree)?;
    let hidden = hidden_if_all(alloc, view, extent)?;
    let mut found = Vec::new(alloc);
    add_earlier(&mut found, lines.earlier)?;
    add_forced(&mut found, index, forced.as_slice())?;
    add_unset(&mut found, index, unset.as_slice())?;
    add_faulty(alloc, &mut found, index, faulty.as_slice())?;
    add_never(alloc, &mut found, index, never.as_slice())?;
    add_unused(alloc, &mut found, index, unused.as_slice())?;
    add_ranges(alloc, &mut found, index, ranges.as_slice())?;
    add_members(&mut found, index, members.as_slice())?;
    add_hidden(alloc, &mut found, index, hidden.as_slice())?;
    add_names(&mut found, lines.names)?;
    Ok(found)
}

/// What is found in the lines of a tree, in their order, and in one line in this order: what comes before it, that its
/// symbol is selected for more than its dependencies are worth, or is never set, a default that is likely a mistake, a
/// tristate that is never m, a default that is never used, a range whose sides are exchanged, a member of a choice that is
/// selected, a default of a choice that is never visible, and names. Symbols that are never set, and choices that are never
/// visible, are looked for where all is listed (this project's own).
///
/// # Errors
///
/// `AllocError` where memory is refused.
pub fn findings_by_line(
    alloc: Global,
    view: &View<'_>,
    index: &LineIndex<'_, '_>,
    lines: FoundLines<'_>,
    extent: Extent,
) -> Result<Vec<FoundInTree>, AllocError>
    ensures { IfOk result (λ r. AreByLine (found_by_kind lines.entry.earlier.now lines.entry.names.now extent index.now
        view.now.tree (assignment_of view.now.tree view.now.values)) r.items) }
{
    let mut found = found_by_kind(alloc, view, index, lines, extent)?;
    found.sort_by_key(|one| one.line)?;
    Ok(found)
}
