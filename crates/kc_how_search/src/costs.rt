//! What it costs to change the value of a tristate, counted as lines that one would rather not write.

use kc_tree::Tri;

/// Costs from here on are of what can't be.
pub(crate) const NEVER: u32 = 1 << 30;

/// What it costs to bring a tristate value at least to m, at least to y, at most to m, and at most to n: nothing for what
/// it is already.
#[derive(Clone, Copy, Debug)]
pub(crate) struct Costs {
    pub module: u32,
    pub yes: u32,
    pub below_yes: u32,
    pub no: u32,
}

/// Two costs together: never, where one is of what can't be, and else less than that.
pub(crate) fn plus(left: u32, right: u32) -> u32 {
    if left >= NEVER || right >= NEVER {
        return NEVER;
    }
    left.saturating_add(right).min(NEVER - 1)
}

/// Nothing for what is so, and never for what is not.
fn never_unless(is_so: bool) -> u32 {
    if is_so { 0 } else { NEVER }
}

impl Costs {
    /// Of a value that never changes.
    pub fn of_constant(tri: Tri) -> Costs {
        Costs {
            module: never_unless(!matches!(tri, Tri::No)),
            yes: never_unless(matches!(tri, Tri::Yes)),
            below_yes: never_unless(!matches!(tri, Tri::Yes)),
            no: never_unless(matches!(tri, Tri::No)),
        }
    }

    /// What it costs to bring the value to at least another one.
    pub fn at_least(self, bound: Tri) -> u32 {
        match bound {
            Tri::No => 0,
            Tri::Module => self.module,
            Tri::Yes => self.yes,
        }
    }

    /// What it costs to bring the value to at most another one.
    pub fn at_most(self, bound: Tri) -> u32 {
        match bound {
            Tri::No => self.no,
            Tri::Module => self.below_yes,
            Tri::Yes => 0,
        }
    }

    /// Of the least of two values.
    pub fn and(self, other: Costs) -> Costs {
        Costs {
            module: plus(self.module, other.module),
            yes: plus(self.yes, other.yes),
            below_yes: self.below_yes.min(other.below_yes),
            no: self.no.min(other.no),
        }
    }

    /// Of the greatest of two values.
    pub fn or(self, other: Costs) -> Costs {
        Costs {
            module: self.module.min(other.module),
            yes: self.yes.min(other.yes),
            below_yes: plus(self.below_yes, other.below_yes),
            no: plus(self.no, other.no),
        }
    }

    /// Of what `!` gives.
    pub fn complement(self) -> Costs {
        Costs {
            module: self.below_yes,
            yes: self.no,
            below_yes: self.module,
            no: self.yes,
        }
    }

    /// Of a value whose m is y.
    pub fn folded(self) -> Costs {
        Costs {
            module: self.module,
            yes: self.module,
            below_yes: self.no,
            no: self.no,
        }
    }

    /// With a cost added to rising, and another to falling; what is already so costs nothing still.
    pub fn dearer(self, rise: u32, fall: u32) -> Costs {
        Costs {
            module: added(self.module, rise),
            yes: added(self.yes, rise),
            below_yes: added(self.below_yes, fall),
            no: added(self.no, fall),
        }
    }

    /// Of a value that is this one now: what is already so costs nothing.
    pub fn at(self, now: Tri) -> Costs {
        let constant = Costs::of_constant(now);
        Costs {
            module: constant.module.min(self.module),
            yes: constant.yes.min(self.yes),
            below_yes: constant.below_yes.min(self.below_yes),
            no: constant.no.min(self.no),
        }
    }

    /// Of what a count of `!` gives.
    pub fn negated(self, count: usize) -> Costs {
        if count % 2 == 0 {
            self
        } else {
            self.complement()
        }
    }

    /// Of whether the value is another one: y where it is, else n.
    pub fn equal_to(self, value: Tri) -> Costs {
        let (rise, fall) = match value {
            Tri::No => (self.no, self.module),
            Tri::Module => (plus(self.module, self.below_yes), self.yes.min(self.no)),
            Tri::Yes => (self.yes, self.below_yes),
        };
        Costs {
            module: rise,
            yes: rise,
            below_yes: fall,
            no: fall,
        }
    }
}

/// A cost with another one, but nothing where it is nothing.
fn added(cost: u32, more: u32) -> u32 {
    if cost == 0 { 0 } else { plus(cost, more) }
}

/// A cost of a change: what costs nothing is no change.
pub(crate) fn change_of(cost: u32) -> u32 {
    if cost == 0 { NEVER } else { cost }
}
