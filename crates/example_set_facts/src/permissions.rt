// Written by enumset_derive example_set_facts permissions from Permission: change the source, and write this again.

use enumset::{EnumSet, EnumSetType, EnumSetTypeWithRepr};

/// What a user may do with a document.
#[derive(Clone, Copy, PartialEq, Eq, Debug)]
pub enum Permission {
    Read,
    Comment,
    Write,
    Share,
    Delete,
}

impl EnumSetType for Permission {
    ghost use Rattle.enumset.specs.Sets.{in_place, lawful_in_integer, lawful_in_place};
    ghost use Rattle.example_set_facts.specs.contracts.permissions.Permission.{the_type};

    type Repr = u8;

    ghost elements = { in_place the_type };

    ghost ALL_BITS = { 31 };

    const ALL_BITS: u8 = 0x1F;

    ghost BIT_WIDTH = { 5 };

    const BIT_WIDTH: u32 = 5;

    ghost VARIANT_COUNT = { 5 };

    const VARIANT_COUNT: u32 = 5;

    fn enum_into_u32(self) -> u32 {
        self as u32
    }

    fn enum_from_u32(val: u32) -> Self {
        match val {
            0 => Self::Read,
            1 => Self::Comment,
            2 => Self::Write,
            3 => Self::Share,
            4 => Self::Delete,
            _ => unreachable!(),
        }
    }

    ghost lawful = { lawful_in_place the_type (lawful_in_integer the_type _ tt) };
}

impl EnumSetTypeWithRepr for Permission {
    ghost use Rattle.std.proofs.Common.{rules};

    ghost narrow = { Prim.search rules };
}

/// The intersection of `{self}` and the set that `rhs` becomes.
impl<O: std::convert::Into<EnumSet<Permission>>> std::ops::BitAnd<O> for Permission {
    ghost use Rattle.std.specs.Prelude.{◌≡◌};
    ghost use Rattle.enumset.specs.Sets as set;

    type Output = EnumSet<Permission>;

    ghost bitand_gives = { λ a b r. (s t : set.BitSet)
        × (s ≡ set.only (⟦<Permission as EnumSetType>⟧.elements.bit a))
        × O.converts b t × (r ≡ set.intersection s t) };

    fn bitand(self, rhs: O) -> EnumSet<Self> {
        EnumSet::only(self).intersection(rhs.into())
    }
}

/// The union of `{self}` and the set that `rhs` becomes.
impl<O: std::convert::Into<EnumSet<Permission>>> std::ops::BitOr<O> for Permission {
    ghost use Rattle.std.specs.Prelude.{◌≡◌};
    ghost use Rattle.enumset.specs.Sets as set;

    type Output = EnumSet<Permission>;

    ghost bitor_gives = { λ a b r. (s t : set.BitSet)
        × (s ≡ set.only (⟦<Permission as EnumSetType>⟧.elements.bit a))
        × O.converts b t × (r ≡ set.union s t) };

    fn bitor(self, rhs: O) -> EnumSet<Self> {
        EnumSet::only(self).union(rhs.into())
    }
}

/// The symmetric difference of `{self}` and the set that `rhs` becomes.
impl<O: std::convert::Into<EnumSet<Permission>>> std::ops::BitXor<O> for Permission {
    ghost use Rattle.std.specs.Prelude.{◌≡◌};
    ghost use Rattle.enumset.specs.Sets as set;

    type Output = EnumSet<Permission>;

    ghost bitxor_gives = { λ a b r. (s t : set.BitSet)
        × (s ≡ set.only (⟦<Permission as EnumSetType>⟧.elements.bit a))
        × O.converts b t × (r ≡ set.symmetric_difference s t) };

    fn bitxor(self, rhs: O) -> EnumSet<Self> {
        EnumSet::only(self).symmetric_difference(rhs.into())
    }
}

/// The difference of `{self}` and the set that `rhs` becomes.
impl<O: std::convert::Into<EnumSet<Permission>>> std::ops::Sub<O> for Permission {
    ghost use Rattle.std.specs.Prelude.{◌≡◌};
    ghost use Rattle.enumset.specs.Sets as set;

    type Output = EnumSet<Permission>;

    ghost sub_gives = { λ a b r. (s t : set.BitSet)
        × (s ≡ set.only (⟦<Permission as EnumSetType>⟧.elements.bit a))
        × O.converts b t × (r ≡ set.difference s t) };

    fn sub(self, rhs: O) -> EnumSet<Self> {
        EnumSet::only(self).difference(rhs.into())
    }
}

/// The set of all other elements.
impl std::ops::Not for Permission {
    ghost use Rattle.std.specs.Prelude.{◌≡◌};
    ghost use Rattle.enumset.specs.Sets as set;
    ghost use Rattle.enumset.specs.Sets.{valid_bits};

    type Output = EnumSet<Permission>;

    ghost not_gives = { λ a r. r ≡ set.difference
        (valid_bits ⟦<Permission as EnumSetType>⟧.elements)
        (set.only (⟦<Permission as EnumSetType>⟧.elements.bit a)) };

    fn not(self) -> EnumSet<Self> {
        !EnumSet::only(self)
    }
}
