//! The operator `|` on rights, and the values that represent their sets.

ghost use Rattle.std.specs.Prelude.{◌≡◌};
ghost use Rattle.enumset.specs.Sets as set;

use crate::rights::Right;
use enumset::{EnumSet, EnumSetType, EnumSetTypeWithRepr};
use std::ops::BitOr;

impl EnumSetTypeWithRepr for Right {
    ghost use Rattle.std.proofs.Common.{rules};

    ghost narrow = { Prim.search rules };
}

/// The set of the two rights.
impl BitOr for Right {
    type Output = EnumSet<Right>;

    ghost bitor_gives = { λ a b r. r ≡ set.union
        (set.only (⟦<Right as EnumSetType>⟧.elements.bit a))
        (set.only (⟦<Right as EnumSetType>⟧.elements.bit b)) };

    fn bitor(self, rhs: Right) -> EnumSet<Right> {
        EnumSet::only(self) | EnumSet::only(rhs)
    }
}

/// The set with the right added.
impl BitOr<EnumSet<Right>> for Right {
    type Output = EnumSet<Right>;

    ghost bitor_gives = { λ a b r. r ≡ set.union
        (set.only (⟦<Right as EnumSetType>⟧.elements.bit a)) b };

    fn bitor(self, rhs: EnumSet<Right>) -> EnumSet<Right> {
        EnumSet::only(self) | rhs
    }
}
