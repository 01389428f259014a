// Written by enumset_derive example_set_facts weekdays from Weekday: change the source, and write this again.

use enumset::{EnumSet, EnumSetType, EnumSetTypeWithRepr};

/// A day of the week.
#[derive(Clone, Copy, PartialEq, Eq, Debug)]
pub enum Weekday {
    Monday,
    Tuesday,
    Wednesday,
    Thursday,
    Friday,
    Saturday,
    Sunday,
}

impl EnumSetType for Weekday {
    ghost use Rattle.enumset.specs.Sets.{in_place, lawful_in_integer, lawful_in_place};
    ghost use Rattle.example_set_facts.specs.contracts.weekdays.Weekday.{the_type};

    type Repr = u8;

    ghost elements = { in_place the_type };

    ghost ALL_BITS = { 127 };

    const ALL_BITS: u8 = 0x7F;

    ghost BIT_WIDTH = { 7 };

    const BIT_WIDTH: u32 = 7;

    ghost VARIANT_COUNT = { 7 };

    const VARIANT_COUNT: u32 = 7;

    fn enum_into_u32(self) -> u32 {
        self as u32
    }

    fn enum_from_u32(val: u32) -> Self {
        match val {
            0 => Self::Monday,
            1 => Self::Tuesday,
            2 => Self::Wednesday,
            3 => Self::Thursday,
            4 => Self::Friday,
            5 => Self::Saturday,
            6 => Self::Sunday,
            _ => unreachable!(),
        }
    }

    ghost lawful = { lawful_in_place the_type (lawful_in_integer the_type _ tt) };
}

impl EnumSetTypeWithRepr for Weekday {
    ghost use Rattle.std.proofs.Common.{rules};

    ghost narrow = { Prim.search rules };
}

/// The intersection of `{self}` and the set that `rhs` becomes.
impl<O: std::convert::Into<EnumSet<Weekday>>> std::ops::BitAnd<O> for Weekday {
    ghost use Rattle.std.specs.Prelude.{◌≡◌};
    ghost use Rattle.enumset.specs.Sets as set;

    type Output = EnumSet<Weekday>;

    ghost bitand_gives = { λ a b r. (s t : set.BitSet)
        × (s ≡ set.only (⟦<Weekday as EnumSetType>⟧.elements.bit a))
        × O.converts b t × (r ≡ set.intersection s t) };

    fn bitand(self, rhs: O) -> EnumSet<Self> {
        EnumSet::only(self).intersection(rhs.into())
    }
}

/// The union of `{self}` and the set that `rhs` becomes.
impl<O: std::convert::Into<EnumSet<Weekday>>> std::ops::BitOr<O> for Weekday {
    ghost use Rattle.std.specs.Prelude.{◌≡◌};
    ghost use Rattle.enumset.specs.Sets as set;

    type Output = EnumSet<Weekday>;

    ghost bitor_gives = { λ a b r. (s t : set.BitSet)
        × (s ≡ set.only (⟦<Weekday as EnumSetType>⟧.elements.bit a))
        × O.converts b t × (r ≡ set.union s t) };

    fn bitor(self, rhs: O) -> EnumSet<Self> {
        EnumSet::only(self).union(rhs.into())
    }
}

/// The symmetric difference of `{self}` and the set that `rhs` becomes.
impl<O: std::convert::Into<EnumSet<Weekday>>> std::ops::BitXor<O> for Weekday {
    ghost use Rattle.std.specs.Prelude.{◌≡◌};
    ghost use Rattle.enumset.specs.Sets as set;

    type Output = EnumSet<Weekday>;

    ghost bitxor_gives = { λ a b r. (s t : set.BitSet)
        × (s ≡ set.only (⟦<Weekday as EnumSetType>⟧.elements.bit a))
        × O.converts b t × (r ≡ set.symmetric_difference s t) };

    fn bitxor(self, rhs: O) -> EnumSet<Self> {
        EnumSet::only(self).symmetric_difference(rhs.into())
    }
}

/// The difference of `{self}` and the set that `rhs` becomes.
impl<O: std::convert::Into<EnumSet<Weekday>>> std::ops::Sub<O> for Weekday {
    ghost use Rattle.std.specs.Prelude.{◌≡◌};
    ghost use Rattle.enumset.specs.Sets as set;

    type Output = EnumSet<Weekday>;

    ghost sub_gives = { λ a b r. (s t : set.BitSet)
        × (s ≡ set.only (⟦<Weekday as EnumSetType>⟧.elements.bit a))
        × O.converts b t × (r ≡ set.difference s t) };

    fn sub(self, rhs: O) -> EnumSet<Self> {
        EnumSet::only(self).difference(rhs.into())
    }
}

/// The set of all other elements.
impl std::ops::Not for Weekday {
    ghost use Rattle.std.specs.Prelude.{◌≡◌};
    ghost use Rattle.enumset.specs.Sets as set;
    ghost use Rattle.enumset.specs.Sets.{valid_bits};

    type Output = EnumSet<Weekday>;

    ghost not_gives = { λ a r. r ≡ set.difference
        (valid_bits ⟦<Weekday as EnumSetType>⟧.elements)
        (set.only (⟦<Weekday as EnumSetType>⟧.elements.bit a)) };

    fn not(self) -> EnumSet<Self> {
        !EnumSet::only(self)
    }
}
