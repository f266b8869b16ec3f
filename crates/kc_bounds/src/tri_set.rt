//! Sets of tristate values.

ghost use Rattle.std.specs.Prelude.{◌≡◌, Bool, false, not, true};
ghost use Rattle.kc_statement.specs.declared.tri.Tri.{Tri};
ghost use Rattle.kc_statement.specs.Tristate.{least, greatest, complement, is_no};
ghost use Rattle.kc_value.specs.ExprValue.{yes_if};
ghost use Rattle.kc_value.specs.Rule.{in_bool, in_type};
ghost use Rattle.kc_bounds.specs.TriSets.{IsIn, any_tri, has};
ghost use Rattle.kc_bounds.specs.Bounds.{with_modules, without_modules};

use kc_tree::Tri;

/// Which of n, m and y a value may be.
#[derive(Clone, Copy, Debug, PartialEq, Eq)]
pub struct TriSet {
    /// It may be n.
    pub no: bool,
    /// It may be m.
    pub module: bool,
    /// It may be y.
    pub yes: bool,
}

impl TriSet {
    /// All three.
    pub(crate) fn any() -> TriSet
        ensures set { result ≡ any_tri }
        ensures all { (v : Tri) → IsIn result v }
    {
        TriSet {
            no: true,
            module: true,
            yes: true,
        }
    }

    /// None of the three.
    pub(crate) fn empty() -> TriSet {
        TriSet {
            no: false,
            module: false,
            yes: false,
        }
    }

    /// n and y, which a test may give.
    pub(crate) fn of_test() -> TriSet
        ensures { (is_so : Bool) → IsIn result (yes_if is_so) }
    {
        TriSet {
            no: true,
            module: false,
            yes: true,
        }
    }

    /// One value.
    pub(crate) fn only(tri: Tri) -> TriSet
        ensures { IsIn result tri }
    {
        TriSet {
            no: matches!(tri, Tri::No),
            module: matches!(tri, Tri::Module),
            yes: matches!(tri, Tri::Yes),
        }
    }

    /// Whether the set has a value.
    pub fn has(self, tri: Tri) -> bool
        ensures { result ≡ has self tri }
    {
        match tri {
            Tri::No => self.no,
            Tri::Module => self.module,
            Tri::Yes => self.yes,
        }
    }

    /// Whether a value of the set is not n.
    pub fn has_more(self) -> bool
        ensures { (v : Tri) → IsIn self v → is_no v ≡ false → result ≡ true }
    {
        self.module || self.yes
    }

    /// The values of either set.
    pub(crate) fn joined(self, other: TriSet) -> TriSet
        ensures left { (v : Tri) → IsIn self v → IsIn result v }
        ensures right { (v : Tri) → IsIn other v → IsIn result v }
    {
        TriSet {
            no: self.no || other.no,
            module: self.module || other.module,
            yes: self.yes || other.yes,
        }
    }

    /// The values that both sets have.
    pub(crate) fn both(self, other: TriSet) -> TriSet
        ensures { (v : Tri) → IsIn self v → IsIn other v → IsIn result v }
    {
        TriSet {
            no: self.no && other.no,
            module: self.module && other.module,
            yes: self.yes && other.yes,
        }
    }

    /// n alone.
    pub(crate) fn without_modules() -> TriSet
        ensures { result ≡ without_modules }
    {
        TriSet {
            no: true,
            module: false,
            yes: false,
        }
    }

    /// m and y.
    pub(crate) fn with_modules() -> TriSet
        ensures { result ≡ with_modules }
    {
        TriSet {
            no: false,
            module: true,
            yes: true,
        }
    }

    /// The values of the set where it counts, else none.
    pub(crate) fn only_if(self, counts: bool) -> TriSet
        ensures { (v : Tri) → counts ≡ true → IsIn self v → IsIn result v }
    {
        if counts { self } else { TriSet::empty() }
    }

    /// What `&&` gives of one value of each set.
    pub(crate) fn and(self, other: TriSet) -> TriSet
        ensures { (v w : Tri) → IsIn self v → IsIn other w → IsIn result (least v w) }
    {
        TriSet {
            no: self.no || other.no,
            module: (self.module && other.has_more()) || (self.yes && other.module),
            yes: self.yes && other.yes,
        }
    }

    /// What `||` gives of one value of each set.
    pub(crate) fn or(self, other: TriSet) -> TriSet
        ensures { (v w : Tri) → IsIn self v → IsIn other w → IsIn result (greatest v w) }
    {
        TriSet {
            no: self.no && other.no,
            module: (self.module && (other.no || other.module)) || (self.no && other.module),
            yes: self.yes || other.yes,
        }
    }

    /// What `!` gives of a value of the set.
    pub(crate) fn complement(self) -> TriSet
        ensures { (v : Tri) → IsIn self v → IsIn result (complement v) }
    {
        TriSet {
            no: self.yes,
            module: self.module,
            yes: self.no,
        }
    }

    /// The values of the set but n.
    pub(crate) fn without_no(self) -> TriSet
        ensures { (v : Tri) → IsIn self v → is_no v ≡ false → IsIn result v }
    {
        TriSet {
            no: false,
            module: self.module,
            yes: self.yes,
        }
    }

    /// The values of the set as a bool has them: m is y.
    pub(crate) fn in_bool(self) -> TriSet
        ensures { (v : Tri) → IsIn self v → IsIn result (in_bool v) }
    {
        TriSet {
            no: self.no,
            module: false,
            yes: self.has_more(),
        }
    }

    /// The values of the set as a tristate has them: m is y where `MODULES` is n.
    pub(crate) fn in_tristate(self, modules: TriSet) -> TriSet
        ensures { (v w : Tri) → IsIn self v → IsIn modules w → IsIn result (in_type (not (is_no w)) v) }
    {
        let kept = self.only_if(modules.has_more());
        kept.joined(self.in_bool().only_if(modules.no))
    }
}
