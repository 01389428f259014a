// Written by enumset_derive example_months months from Month: change the source, and write this again.

use enumset::{EnumSet, EnumSetType, EnumSetTypeWithRepr};

#[derive(Clone, Copy, PartialEq, Eq, Debug)]
pub enum Month {
    January,
    February,
    March,
    April,
    May,
    June,
    July,
    August,
    September,
    October,
    November,
    December,
}

impl EnumSetType for Month {
    ghost use Rattle.enumset.specs.Sets.{in_place, lawful_in_integer, lawful_in_place};
    ghost use Rattle.example_months.specs.contracts.months.Month.{the_type};

    type Repr = u16;

    ghost elements = { in_place the_type };

    ghost ALL_BITS = { 4095 };

    const ALL_BITS: u16 = 0xFFF;

    ghost BIT_WIDTH = { 12 };

    const BIT_WIDTH: u32 = 12;

    ghost VARIANT_COUNT = { 12 };

    const VARIANT_COUNT: u32 = 12;

    fn enum_into_u32(self) -> u32 {
        self as u32
    }

    fn enum_from_u32(val: u32) -> Self {
        match val {
            0 => Self::January,
            1 => Self::February,
            2 => Self::March,
            3 => Self::April,
            4 => Self::May,
            5 => Self::June,
            6 => Self::July,
            7 => Self::August,
            8 => Self::September,
            9 => Self::October,
            10 => Self::November,
            11 => Self::December,
            _ => unreachable!(),
        }
    }

    ghost lawful = { lawful_in_place the_type (lawful_in_integer the_type _ tt) };
}

impl EnumSetTypeWithRepr for Month {
    ghost use Rattle.std.proofs.Common.{rules};

    ghost narrow = { Prim.search rules };
}

/// The intersection of `{self}` and the set that `rhs` becomes.
impl<O: std::convert::Into<EnumSet<Month>>> std::ops::BitAnd<O> for Month {
    ghost use Rattle.std.specs.Prelude.{◌≡◌};
    ghost use Rattle.enumset.specs.Sets as set;

    type Output = EnumSet<Month>;

    ghost bitand_gives = { λ a b r. (s t : set.BitSet)
        × (s ≡ set.only (⟦<Month as EnumSetType>⟧.elements.bit a))
        × O.converts b t × (r ≡ set.intersection s t) };

    fn bitand(self, rhs: O) -> EnumSet<Self> {
        EnumSet::only(self).intersection(rhs.into())
    }
}

/// The union of `{self}` and the set that `rhs` becomes.
impl<O: std::convert::Into<EnumSet<Month>>> std::ops::BitOr<O> for Month {
    ghost use Rattle.std.specs.Prelude.{◌≡◌};
    ghost use Rattle.enumset.specs.Sets as set;

    type Output = EnumSet<Month>;

    ghost bitor_gives = { λ a b r. (s t : set.BitSet)
        × (s ≡ set.only (⟦<Month as EnumSetType>⟧.elements.bit a))
        × O.converts b t × (r ≡ set.union s t) };

    fn bitor(self, rhs: O) -> EnumSet<Self> {
        EnumSet::only(self).union(rhs.into())
    }
}

/// The symmetric difference of `{self}` and the set that `rhs` becomes.
impl<O: std::convert::Into<EnumSet<Month>>> std::ops::BitXor<O> for Month {
    ghost use Rattle.std.specs.Prelude.{◌≡◌};
    ghost use Rattle.enumset.specs.Sets as set;

    type Output = EnumSet<Month>;

    ghost bitxor_gives = { λ a b r. (s t : set.BitSet)
        × (s ≡ set.only (⟦<Month as EnumSetType>⟧.elements.bit a))
        × O.converts b t × (r ≡ set.symmetric_difference s t) };

    fn bitxor(self, rhs: O) -> EnumSet<Self> {
        EnumSet::only(self).symmetric_difference(rhs.into())
    }
}

/// The difference of `{self}` and the set that `rhs` becomes.
impl<O: std::convert::Into<EnumSet<Month>>> std::ops::Sub<O> for Month {
    ghost use Rattle.std.specs.Prelude.{◌≡◌};
    ghost use Rattle.enumset.specs.Sets as set;

    type Output = EnumSet<Month>;

    ghost sub_gives = { λ a b r. (s t : set.BitSet)
        × (s ≡ set.only (⟦<Month as EnumSetType>⟧.elements.bit a))
        × O.converts b t × (r ≡ set.difference s t) };

    fn sub(self, rhs: O) -> EnumSet<Self> {
        EnumSet::only(self).difference(rhs.into())
    }
}

/// The set of all other elements.
impl std::ops::Not for Month {
    ghost use Rattle.std.specs.Prelude.{◌≡◌};
    ghost use Rattle.enumset.specs.Sets as set;
    ghost use Rattle.enumset.specs.Sets.{valid_bits};

    type Output = EnumSet<Month>;

    ghost not_gives = { λ a r. r ≡ set.difference
        (valid_bits ⟦<Month as EnumSetType>⟧.elements)
        (set.only (⟦<Month as EnumSetType>⟧.elements.bit a)) };

    fn not(self) -> EnumSet<Self> {
        !EnumSet::only(self)
    }
}
