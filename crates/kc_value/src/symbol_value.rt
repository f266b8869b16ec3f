//! The visibility and the value of a symbol.

ghost use Rattle.std.specs.Prelude.{◌≡◌, IfOk, not, slice_get, option_and_then, option_map, find, filter_map};
ghost use Rattle.std.specs.List.{position_or_len};
ghost use Rattle.std.specs.Option.{option_copied, option_map_or, option_or};
ghost use Rattle.kc_statement.specs.declared.tri.Tri.TheVariants.{No};
ghost use Rattle.kc_statement.specs.Tristate.{least, greatest, is_no};
ghost use Rattle.kc_outline.specs.TreeValue.{definitions_of};
ghost use Rattle.kc_value.specs.Conditions.{dependency};
ghost use Rattle.kc_value.specs.ExprValue.{own_condition};
ghost use Rattle.kc_value.specs.Known.{given};
ghost use Rattle.kc_value.specs.LineValues.{has_line_by, otherwise, shown_by};
ghost use Rattle.kc_value.specs.Defaults.{is_active};
ghost use Rattle.kc_value.specs.Rule.{in_bool, has_modules, in_type, visibility, definition_default, default_value, reverse_value, reverse_values, direct, user_part, tri_rule, symbol_rule};

use crate::choice_value::member_value;
use crate::conditions::{dependency_tri, mode_tri, prompt_tri};
use crate::expr_value::{modules_tri, own_condition_tri, symbol_tri, tri};
use crate::known::Known;
use crate::text_value::text_value;
use crate::value::Value;
use itertools::Itertools;
use kc_tree::{DefaultValue, Definition, Reverse, SymId, Symbol, SymbolType, Tri, UserVal};
use std::alloc::{AllocError, Global};

/// A bool knows no m: it is y there.
fn bool_value(value: Tri) -> Tri
    ensures { result ≡ in_bool value }
{
    match value {
        Tri::No => Tri::No,
        Tri::Module | Tri::Yes => Tri::Yes,
    }
}

/// Whether a symbol takes m: a tristate acts as bool where `MODULES` is n.
fn has_modules(known: &Known<'_>, symbol: &Symbol) -> bool
    ensures { result ≡ has_modules known.now.tree (given known.now) symbol.now }
{
    match symbol.kind() {
        SymbolType::Bool | SymbolType::String | SymbolType::Int | SymbolType::Hex => false,
        SymbolType::Tristate => !modules_tri(known).is_no(),
    }
}

/// A value as a symbol that takes m, or doesn't, can have it.
pub(crate) fn in_type(has_modules: bool, value: Tri) -> Tri
    ensures { result ≡ in_type has_modules value }
{
    if has_modules {
        value
    } else {
        bool_value(value)
    }
}

/// The visibility of a symbol: the greatest condition of its prompts, with m as y unless it is a tristate and `MODULES`
/// is not n.
pub(crate) fn symbol_visibility(known: &Known<'_>, symbol: &Symbol) -> Tri
    ensures { result ≡ visibility known.now.tree (given known.now) symbol.now }
{
    let mut greatest = Tri::No;
    for number in symbol.definitions() {
        greatest = greatest.or(prompt_tri(known, *number));
    }
    let within = greatest.and(mode_tri(known, symbol.choice()));
    in_type(has_modules(known, symbol), within)
}

/// The condition of a default in a definition with these dependencies.
fn default_condition_tri(known: &Known<'_>, default: &DefaultValue, depends: Tri) -> Tri
    ensures { result ≡ least (own_condition known.now.tree (given known.now) default.now.condition) depends }
{
    own_condition_tri(known, default.condition.as_ref()).and(depends)
}

/// Whether the condition of a default is not n.
fn is_active(known: &Known<'_>, default: &DefaultValue, depends: Tri) -> bool
    ensures { result
        ≡ not (is_no (least (own_condition known.now.tree (given known.now) default.now.condition) depends)) }
{
    !default_condition_tri(known, default, depends).is_no()
}

/// The first default of a definition whose condition is not n, with its place.
pub(crate) fn first_active_default<'a>(
    known: &Known<'_>,
    definition: &'a Definition,
    depends: Tri,
) -> Option<(usize, &'a DefaultValue)>
    requires { depends ≡ dependency known.now.tree (given known.now) definition.now }
    ensures default { option_map (λ q. q.1.now) result
        ≡ find (is_active known.now.tree (given known.now) definition.now) definition.now.defaults }
    ensures place { let p = is_active known.now.tree (given known.now) definition.now in
        option_map (λ q. q.0) result
        ≡ option_map (λ v. position_or_len p definition.now.defaults) (find p definition.now.defaults) }
{
    definition
        .defaults()
        .iter()
        .find_position(|default| is_active(known, default, depends))
}

/// The least of the first active default of a definition and its condition.
fn definition_default_tri(known: &Known<'_>, definition: &Definition, depends: Tri) -> Option<Tri>
    requires { depends ≡ dependency known.now.tree (given known.now) definition.now }
    ensures { result ≡ definition_default known.now.tree (given known.now) definition.now }
{
    if depends.is_no() {
        return None;
    }
    let (_, default) = first_active_default(known, definition, depends)?;
    let condition = default_condition_tri(known, default, depends);
    Some(tri(known, &default.value).and(condition))
}

/// What the definitions of a symbol give it.
#[derive(Clone, Copy)]
struct Defined {
    /// That of the first definition with an active default.
    default: Option<Tri>,
    /// The greatest of their dependencies.
    direct: Tri,
}

/// The same with one more definition, by number; a number without definition gives nothing.
fn with_definition(known: &Known<'_>, defined: Defined, number: usize) -> Defined
    ensures default { result.default ≡ option_or defined.default
        (option_and_then (definition_default known.now.tree (given known.now))
        (slice_get known.now.tree.definitions number)) }
    ensures direct { result.direct ≡ greatest defined.direct
        (option_map_or (dependency known.now.tree (given known.now)) (slice_get known.now.tree.definitions number) No) }
{
    let Some(definition) = known.definition(number) else {
        return defined;
    };
    let depends = dependency_tri(known, number);
    let default = match defined.default {
        Some(value) => Some(value),
        None => definition_default_tri(known, definition, depends),
    };
    Defined {
        default,
        direct: defined.direct.or(depends),
    }
}

/// What all definitions of a symbol give it.
fn definitions_of(known: &Known<'_>, symbol: &Symbol) -> Defined
    ensures default { result.default
        ≡ slice_get
        (filter_map (definition_default known.now.tree (given known.now)) (definitions_of known.now.tree symbol.now)) 0 }
    ensures direct { result.direct ≡ direct known.now.tree (given known.now) symbol.now }
{
    let mut defined = Defined {
        default: None,
        direct: Tri::No,
    };
    for number in symbol.definitions() {
        defined = with_definition(known, defined, *number);
    }
    defined
}

/// What a `select` or `imply` gives: the least of the value of its symbol and its condition.
pub fn reverse_value(known: &Known<'_>, reverse: &Reverse) -> Tri
    ensures { result ≡ reverse_value known.now.tree (given known.now) reverse.now }
{
    let value = symbol_tri(known, reverse.by);
    if value.is_no() {
        return Tri::No;
    }
    let own = own_condition_tri(known, reverse.condition.as_ref());
    value.and(own.and(dependency_tri(known, reverse.definition)))
}

/// The greatest that some `select` or `imply` lines give.
fn reverses_tri(known: &Known<'_>, reverses: &[Reverse]) -> Tri
    ensures { result ≡ reverse_values known.now.tree (given known.now) reverses.now }
{
    let mut greatest = Tri::No;
    for reverse in reverses {
        if matches!(greatest, Tri::Yes) {
            return Tri::Yes;
        }
        greatest = greatest.or(reverse_value(known, reverse));
    }
    greatest
}

/// What the user chose, as far as the visibility allows: nothing for an invisible symbol, and nothing for a text, which
/// no bool or tristate takes.
pub(crate) fn user_tri(visibility: Tri, user: Option<&UserVal>) -> Option<Tri>
    ensures { result ≡ user_part visibility (option_copied user.entry) }
{
    match (visibility, user) {
        (Tri::No, _) => None,
        (Tri::Module | Tri::Yes, Some(UserVal::Tri(value))) => Some(value.and(visibility)),
        (Tri::Module | Tri::Yes, Some(UserVal::Text(_)) | None) => None,
    }
}

/// What the lines of a bool or tristate symbol give it, whatever its visibility is and the user chose.
#[derive(Clone, Copy)]
pub(crate) struct LineValues {
    /// The value of the first active default, n without.
    pub default: Tri,
    /// What `imply` lines give.
    pub implied: Tri,
    /// What `select` lines give.
    pub selected: Tri,
    /// The greatest of the dependencies of its definitions.
    pub direct: Tri,
    /// Whether the symbol takes m.
    pub has_modules: bool,
}

/// What the lines of a symbol give it.
pub(crate) fn line_values(known: &Known<'_>, symbol: &Symbol) -> LineValues
    ensures default { result.default ≡ default_value known.now.tree (given known.now) symbol.now }
    ensures implied { result.implied ≡ reverse_values known.now.tree (given known.now) symbol.now.implied }
    ensures selected { result.selected ≡ reverse_values known.now.tree (given known.now) symbol.now.selected }
    ensures direct { result.direct ≡ direct known.now.tree (given known.now) symbol.now }
    ensures modules { result.has_modules ≡ has_modules known.now.tree (given known.now) symbol.now }
{
    let defined = definitions_of(known, symbol);
    LineValues {
        default: defined.default.unwrap_or(Tri::No),
        implied: reverses_tri(known, symbol.implied()),
        selected: reverses_tri(known, symbol.selected()),
        direct: defined.direct,
        has_modules: has_modules(known, symbol),
    }
}

impl LineValues {
    /// What counts where no user value does: the default or what is implied, within the dependencies.
    pub(crate) fn otherwise(self) -> Tri
        ensures { result ≡ otherwise self }
    {
        self.default.or(self.implied).and(self.direct)
    }

    /// What the symbol shows: what the user chose where it is visible, else what counts otherwise, and at least what is
    /// selected.
    pub(crate) fn shown(self, visibility: Tri, user: Option<&UserVal>) -> Tri
        ensures { result ≡ shown_by self visibility (option_copied user.entry) }
    {
        let base = user_tri(visibility, user).unwrap_or(self.otherwise());
        in_type(self.has_modules, base.or(self.selected))
    }

    /// Whether the `.config` has a line of the symbol.
    fn has_line(self, visibility: Tri) -> bool
        ensures { result ≡ has_line_by self visibility }
    {
        !visibility.is_no()
            || !self.default.is_no()
            || (!self.implied.is_no() && !self.direct.is_no())
            || !self.selected.is_no()
    }
}

/// The value of a bool or tristate symbol (kconfig-language.rst, "Menu attributes", and Kconfiglib, "tri_value"), and
/// whether the `.config` has its line.
fn tri_value(known: &Known<'_>, symbol: &Symbol, visibility: Tri, user: Option<&UserVal>) -> Value
    ensures { result ≡ tri_rule known.now.tree (given known.now) symbol.now visibility (option_copied user.entry) }
{
    let lines = line_values(known, symbol);
    let shown = lines.shown(visibility, user);
    Value::Shown(UserVal::Tri(shown), lines.has_line(visibility))
}

/// The value of a symbol of this number: of a member of a choice whether it is selected, else by its type. The error is
/// refused memory for a text.
pub(crate) fn symbol_value(
    alloc: Global,
    known: &Known<'_>,
    id: SymId,
    symbol: &Symbol,
    visibility: Tri,
    user: Option<&UserVal>,
) -> Result<Value, AllocError>
    ensures { IfOk result (λ v. v
        ≡ symbol_rule known.now.tree (given known.now) id symbol.now visibility (option_copied user.entry)) }
{
    if let Some(choice) = symbol.choice() {
        return Ok(member_value(known, choice, id, visibility));
    }
    match symbol.kind() {
        SymbolType::Bool | SymbolType::Tristate => {
            Ok(tri_value(known, symbol, visibility, user))
        }
        SymbolType::String | SymbolType::Int | SymbolType::Hex => {
            text_value(alloc, known, symbol, visibility, user)
        }
    }
}
