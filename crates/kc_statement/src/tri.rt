ghost use Rattle.std.specs.Prelude.{◌≡◌};
ghost use Rattle.kc_statement.specs.Tristate.{least, greatest, complement, is_no, letter};

/// A tristate value, in the order n, m, y (kconfig-language.rst, "Menu dependencies").
#[derive(Clone, Copy, Debug, PartialEq, Eq)]
pub enum Tri {
    /// `n`
    No,
    /// `m`
    Module,
    /// `y`
    Yes,
}

impl Tri {
    /// The lesser of two, which `&&` gives.
    pub fn and(self, other: Tri) -> Tri
        ensures { result ≡ least self other }
    {
        match (self, other) {
            (Tri::No, _) | (_, Tri::No) => Tri::No,
            (Tri::Module, _) | (_, Tri::Module) => Tri::Module,
            (Tri::Yes, Tri::Yes) => Tri::Yes,
        }
    }

    /// The greater of two, which `||` gives.
    pub fn or(self, other: Tri) -> Tri
        ensures { result ≡ greatest self other }
    {
        match (self, other) {
            (Tri::Yes, _) | (_, Tri::Yes) => Tri::Yes,
            (Tri::Module, _) | (_, Tri::Module) => Tri::Module,
            (Tri::No, Tri::No) => Tri::No,
        }
    }

    /// What `!` gives: n for y, y for n, and m for itself.
    pub fn complement(self) -> Tri
        ensures { result ≡ complement self }
    {
        match self {
            Tri::No => Tri::Yes,
            Tri::Module => Tri::Module,
            Tri::Yes => Tri::No,
        }
    }

    /// Whether the value is n.
    pub fn is_no(self) -> bool
        ensures { result ≡ is_no self }
    {
        match self {
            Tri::No => true,
            Tri::Module | Tri::Yes => false,
        }
    }

    /// The letter that it is written as: n, m or y.
    pub fn letter(self) -> &'static str
        ensures { result.now ≡ letter self }
    {
        match self {
            Tri::No => "n",
            Tri::Module => "m",
            Tri::Yes => "y",
        }
    }
}
