//! Whether modules are built, where it decides a value.

use crate::view::View;
use crate::words::push_valued;
use kc_tree::{Node, SymId, SymbolType, Tri};
use kc_value::Known;
use std::alloc::AllocError;

/// What is said of an m that makes its symbol y.
pub(crate) const YES_WITHOUT_MODULES: &str = "m is y without MODULES";

/// The value of MODULES, n where it is not defined.
pub(crate) fn modules_value(known: &Known<'_>) -> Tri {
    match known.tree().modules() {
        Some(modules) => known.tri(Node::Val(modules)),
        None => Tri::No,
    }
}

/// Whether a symbol takes m: it is a tristate, and modules are built.
pub(crate) fn takes_module(view: &View<'_>, symbol: SymId) -> bool {
    view.tree().symbol_type(symbol) == SymbolType::Tristate && !modules_value(view.known()).is_no()
}

/// Whether m was asked of a tristate, and modules are not built.
pub(crate) fn lacks_modules(view: &View<'_>, symbol: SymId, asked: Tri) -> bool {
    asked == Tri::Module
        && view.tree().symbol_type(symbol) == SymbolType::Tristate
        && modules_value(view.known()).is_no()
}

/// Adds the name of the symbol that switches modules, `MODULES` where no symbol does.
pub(crate) fn push_modules_name(text: &mut String, known: &Known<'_>) -> Result<(), AllocError> {
    match known.tree().modules() {
        Some(modules) => text.push_str(known.tree().name(modules)),
        None => text.push_str("MODULES"),
    }
}

/// Adds MODULES with its value.
pub(crate) fn push_modules(text: &mut String, known: &Known<'_>) -> Result<(), AllocError> {
    match known.tree().modules() {
        Some(modules) => push_valued(text, known, modules),
        None => text.push_str("MODULES=undefined"),
    }
}
