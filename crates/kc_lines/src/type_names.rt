//! Types in words.

use kc_statement::SymbolType;

/// The name of a type.
pub fn type_name(kind: SymbolType) -> &'static str {
    match kind {
        SymbolType::Bool => "bool",
        SymbolType::Tristate => "tristate",
        SymbolType::String => "string",
        SymbolType::Int => "int",
        SymbolType::Hex => "hex",
    }
}

/// The name of a type after its article.
pub fn type_words(kind: SymbolType) -> &'static str {
    match kind {
        SymbolType::Bool => "a bool",
        SymbolType::Tristate => "a tristate",
        SymbolType::String => "a string",
        SymbolType::Int => "an int",
        SymbolType::Hex => "a hex",
    }
}
