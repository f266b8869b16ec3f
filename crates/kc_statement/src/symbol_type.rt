//! The types of symbols.

ghost use Rattle.std.specs.Prelude.{◌≡◌};
ghost use Rattle.kc_statement.specs.SymbolTypes.{is_tri_type};

/// The type of a symbol (kconfig-language.rst, "Menu attributes"). One that no line gives a type counts as a bool.
#[derive(Clone, Copy, Debug, Default, PartialEq, Eq)]
pub enum SymbolType {
    /// `bool`: n or y.
    #[default]
    Bool,
    /// `tristate`: n, m or y.
    Tristate,
    /// `string`: a text.
    String,
    /// `int`: a decimal number of 64 bits with a sign, as it is spelt.
    Int,
    /// `hex`: a hexadecimal number of 64 bits, as it is spelt.
    Hex,
}

impl SymbolType {
    /// Whether n, m and y are its values (kconfig-language.rst, "Menu attributes").
    pub fn is_tri(self) -> bool
        ensures { result ≡ is_tri_type self }
    {
        matches!(self, SymbolType::Bool | SymbolType::Tristate)
    }
}
