//! What users can give symbols, and the bounds of their values.

ghost use Rattle.kc_value.specs.BoundsRange.{IsSmall};

use kc_tree::{SymId, SymbolType, Tree, Tri};
use kc_value::{ActiveRange, Known, active_range, assignable_among, spelled};
use std::alloc::{AllocError, Global};
use std::collections::BTreeMap;

/// What a user can give a symbol, and the bounds of its values.
#[derive(Drop)]
pub(crate) struct Setting {
    /// The letters of the values that a user can give a bool or a tristate with an effect.
    pub can: Option<&'static [&'static str]>,
    /// The bounds of the active range of an int or a hex.
    pub range: Option<(String, String)>,
}

impl Setting {
    /// That of a symbol.
    fn of(alloc: Global, known: &Known<'_>, symbol: SymId) -> Result<Setting, AllocError> {
        Ok(Setting {
            can: assignable_letters(alloc, known, symbol)?,
            range: range_texts(alloc, known, symbol)?,
        })
    }

    /// The same again.
    fn copied(&self, alloc: Global) -> Result<Setting, AllocError> {
        let range = match &self.range {
            Some((low, high)) => Some((
                String::from_str(alloc, low.as_str())?,
                String::from_str(alloc, high.as_str())?,
            )),
            None => None,
        };
        Ok(Setting {
            can: self.can,
            range,
        })
    }
}

/// The settings of symbols. That of a symbol with several definitions is looked for once, since it is computed from all
/// of them.
#[derive(Drop)]
pub(crate) struct Settings {
    /// By the number of a symbol with several definitions.
    kept: BTreeMap<u32, Setting>,
}

impl Settings {
    /// Before the first symbol.
    pub fn new(alloc: Global) -> Settings {
        Settings {
            kept: BTreeMap::new(alloc),
        }
    }

    /// That of a symbol.
    ///
    /// # Errors
    ///
    /// `AllocError` where memory is refused.
    pub fn of(
        &mut self,
        alloc: Global,
        known: &Known<'_>,
        symbol: SymId,
    ) -> Result<Setting, AllocError> {
        if !has_several(known.tree(), symbol) {
            return Setting::of(alloc, known, symbol);
        }
        if !self.kept.contains_key(&symbol.0) {
            let setting = Setting::of(alloc, known, symbol)?;
            self.kept.insert(symbol.0, setting)?;
        }
        match self.kept.get(&symbol.0) {
            Some(setting) => setting.copied(alloc),
            None => Setting::of(alloc, known, symbol),
        }
    }
}

/// Whether a symbol has several definitions.
fn has_several(tree: &Tree, symbol: SymId) -> bool {
    match tree.symbols().get(symbol.0 as usize) {
        Some(symbol) => symbol.definitions().len() > 1,
        None => false,
    }
}

/// The letters of the values that a user can give a bool or a tristate with an effect.
fn assignable_letters(
    alloc: Global,
    known: &Known<'_>,
    symbol: SymId,
) -> Result<Option<&'static [&'static str]>, AllocError> {
    let tree = known.tree();
    let is_inside = (symbol.0 as usize) < tree.symbols().len();
    if !is_inside || !tree.symbol_type(symbol).is_tri() {
        return Ok(None);
    }
    let values = assignable_among(alloc, known, symbol)?;
    Ok(Some(letters(values.as_slice())))
}

/// The letters of some values, from n to y.
fn letters(values: &[Tri]) -> &'static [&'static str] {
    let has = |wanted: Tri| values.iter().any(|value| *value == wanted);
    match (has(Tri::No), has(Tri::Module), has(Tri::Yes)) {
        (false, false, false) => &[],
        (false, false, true) => &["y"],
        (false, true, false) => &["m"],
        (false, true, true) => &["m", "y"],
        (true, false, false) => &["n"],
        (true, false, true) => &["n", "y"],
        (true, true, false) => &["n", "m"],
        (true, true, true) => &["n", "m", "y"],
    }
}

/// The bounds of the active range of an int or a hex. Other types have none.
fn range_texts(
    alloc: Global,
    known: &Known<'_>,
    symbol: SymId,
) -> Result<Option<(String, String)>, AllocError> {
    match active_range(known, symbol) {
        Some(range) => bounds(alloc, known.tree().symbol_type(symbol), range),
        None => Ok(None),
    }
}

/// The bounds of a range as they are spelled by a type.
fn bounds(
    alloc: Global,
    kind: SymbolType,
    range: ActiveRange,
) -> Result<Option<(String, String)>, AllocError>
    requires low { IsSmall kind range.low }
    requires high { IsSmall kind range.high }
{
    let low = spelled(alloc, kind, range.low)?;
    let high = spelled(alloc, kind, range.high)?;
    Ok(Some((low, high)))
}
