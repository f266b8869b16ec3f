//! Which default and which range of a symbol count, and where they are.

ghost use Rattle.std.specs.Prelude.{◌≡◌, Some, option_map, find};
ghost use Rattle.std.specs.List.{position_or_len};
ghost use Rattle.kc_outline.specs.TreeValue.{kind_of};
ghost use Rattle.kc_value.specs.Conditions.{dependency};
ghost use Rattle.kc_value.specs.Known.{given};
ghost use Rattle.kc_value.specs.Reasons.{default_in, active_default, range_at, range_in, active_range_of, active_range, type_of, IsSmallRange};
ghost use Rattle.kc_value.specs.TextRule.{is_range_active};

use crate::conditions::dependency_tri;
use crate::known::Known;
use crate::symbol_value::first_active_default;
use crate::text_value::{bounds_in, is_range_active};
use itertools::Itertools;
use kc_tree::{Definition, Range, SymId, Symbol, SymbolType, Tri};

/// Where a default of a symbol is: the number of its definition in the tree, and its place among the defaults there.
#[derive(Clone, Copy, Debug, PartialEq, Eq)]
pub struct DefaultPlace {
    pub definition: usize,
    pub default: usize,
}

/// Where a range of a symbol is: the number of its definition in the tree, and its place among the ranges there.
#[derive(Clone, Copy, Debug, PartialEq, Eq)]
pub struct RangePlace {
    pub definition: usize,
    pub range: usize,
}

/// The range of a symbol that counts, with its bounds as numbers.
#[derive(Clone, Copy, Debug, PartialEq, Eq)]
pub struct ActiveRange {
    pub place: RangePlace,
    pub low: i128,
    pub high: i128,
}

/// The first active default of a definition by number.
fn numbered_default(known: &Known<'_>, number: usize) -> Option<DefaultPlace>
    ensures { result ≡ option_map (λ f. f.place) (default_in known.now.tree (given known.now) number) }
{
    let definition = known.definition(number)?;
    let depends = dependency_tri(known, number);
    let (default, _) = first_active_default(known, definition, depends)?;
    Some(DefaultPlace {
        definition: number,
        default,
    })
}

/// The first active default of a symbol.
pub(crate) fn default_place(known: &Known<'_>, symbol: &Symbol) -> Option<DefaultPlace>
    ensures { result
        ≡ option_map (λ f. f.place) (active_default known.now.tree (given known.now) symbol.now) }
{
    for number in symbol.definitions() {
        if let Some(place) = numbered_default(known, *number) {
            return Some(place);
        }
    }
    None
}

/// The first range of a definition whose condition is not n, with its place.
fn first_active_range<'a>(
    known: &Known<'_>,
    definition: &'a Definition,
    depends: Tri,
) -> Option<(usize, &'a Range)>
    requires { depends ≡ dependency known.now.tree (given known.now) definition.now }
    ensures range { option_map (λ q. q.1.now) result
        ≡ find (is_range_active known.now.tree (given known.now) definition.now) definition.now.ranges }
    ensures place { let p = is_range_active known.now.tree (given known.now) definition.now in
        option_map (λ q. q.0) result
        ≡ option_map (λ r. position_or_len p definition.now.ranges) (find p definition.now.ranges) }
{
    definition
        .ranges()
        .iter()
        .find_position(|range| is_range_active(known, range, depends))
}

/// A range of a definition, by the type of its symbol.
fn range_at(known: &Known<'_>, kind: SymbolType, place: RangePlace, range: &Range) -> ActiveRange
    ensures range { result
        ≡ range_at known.now.tree (given known.now) kind place.definition place.range range.now }
    ensures small { IsSmallRange kind (Some result) }
{
    let bounds = bounds_in(known, kind, range);
    ActiveRange {
        place,
        low: bounds.low,
        high: bounds.high,
    }
}

/// The first active range of a definition by number.
fn numbered_range(known: &Known<'_>, kind: SymbolType, number: usize) -> Option<ActiveRange>
    ensures range { result ≡ range_in known.now.tree (given known.now) kind number }
    ensures small { IsSmallRange kind result }
{
    let definition = known.definition(number)?;
    let depends = dependency_tri(known, number);
    let (place, range) = first_active_range(known, definition, depends)?;
    let place = RangePlace {
        definition: number,
        range: place,
    };
    Some(range_at(known, kind, place, range))
}

/// The first active range of a symbol, if it is an int or a hex.
pub(crate) fn active_range_of(known: &Known<'_>, symbol: &Symbol) -> Option<ActiveRange>
    ensures range { result ≡ active_range_of known.now.tree (given known.now) symbol.now }
    ensures small { IsSmallRange (kind_of symbol.now) result }
{
    let kind = symbol.kind();
    if !matches!(kind, SymbolType::Int | SymbolType::Hex) {
        return None;
    }
    for number in symbol.definitions() {
        if let Some(range) = numbered_range(known, kind, *number) {
            return Some(range);
        }
    }
    None
}

/// The range of a symbol that counts (kconfig-language.rst, "range"): of an int or a hex the first whose condition is
/// not n, with its bounds as numbers, which `spelled` writes.
pub fn active_range(known: &Known<'_>, symbol: SymId) -> Option<ActiveRange>
    ensures range { result ≡ active_range known.now.tree (given known.now) symbol }
    ensures small { IsSmallRange (type_of known.now.tree symbol) result }
{
    let symbol = known.symbol(symbol)?;
    active_range_of(known, symbol)
}
