// Written by enumset_derive enumset_worked letters from Letters: change the source, and write this again.

//! The worked type `letters`.

use enumset_sets::{EnumSet, EnumSetType, EnumSetTypeWithRepr};

/// Seven variants, on bits 0 to 6.
#[derive(Clone, Copy, PartialEq, Eq, Debug, PartialOrd, Ord, Hash)]
pub enum Letters {
    A,
    B,
    C,
    D,
    E,
    F,
    G,
}

impl EnumSetType for Letters {
    ghost use Rattle.std.specs.Prelude.{◌∷◌, []};
    ghost use Rattle.enumset_sets.specs.Sets.{in_place, lawful_in_integer, lawful_in_place};
    ghost use Rattle.enumset_worked.specs.contracts.letters.Letters.{the_type};
    ghost use Rattle.enumset_worked.specs.declared.letters.Letters.TheVariants as variant;

    type Repr = u8;

    ghost elements = { in_place the_type };

    ghost values = { variant.A ∷ variant.B ∷ variant.C ∷ variant.D ∷ variant.E ∷
        variant.F ∷ variant.G ∷ [] };

    ghost ALL_BITS = { 127 };

    const ALL_BITS: u8 = 0x7F;

    ghost BIT_WIDTH = { 7 };

    const BIT_WIDTH: u32 = 7;

    ghost VARIANT_COUNT = { 7 };

    const VARIANT_COUNT: u32 = 7;

    fn enum_into_u32(self) -> u32 {
        self as u32
    }

    fn enum_from_u32(val: u32) -> Self {
        match val {
            0 => Self::A,
            1 => Self::B,
            2 => Self::C,
            3 => Self::D,
            4 => Self::E,
            5 => Self::F,
            6 => Self::G,
            _ => unreachable!(),
        }
    }

    ghost lawful = { lawful_in_place the_type (lawful_in_integer the_type _ tt) };
}

impl EnumSetTypeWithRepr for Letters {
    ghost use Rattle.std.proofs.Common.{rules};

    ghost narrow = { Prim.search rules };
}

/// The name of the variant.
impl std::fmt::Display for Letters {
    ghost use Rattle.std.specs.Prelude.{Some, ◌∷◌, [], codes};
    ghost use Rattle.std.specs.List.{slice_index_or};
    ghost use denote.Enum.Declared.{tag_of};
    ghost use Rattle.enumset_worked.specs.contracts.letters.Letters.{the_type};

    ghost output = { λ v. Some (slice_index_or
        (codes "A" ∷ codes "B" ∷ codes "C" ∷ codes "D" ∷ codes "E" ∷ codes "F" ∷
        codes "G" ∷ [])
        (tag_of the_type v) []) };

    fn fmt<W: std::fmt::Write>(&self, f: &mut std::fmt::Formatter<W>) -> std::fmt::Result {
        match self {
            Self::A => f.write_str("A"),
            Self::B => f.write_str("B"),
            Self::C => f.write_str("C"),
            Self::D => f.write_str("D"),
            Self::E => f.write_str("E"),
            Self::F => f.write_str("F"),
            Self::G => f.write_str("G"),
        }
    }
}

/// The intersection of `{self}` and the set that `rhs` becomes.
impl<O: std::convert::Into<EnumSet<Letters>>> std::ops::BitAnd<O> for Letters {
    ghost use Rattle.std.specs.Prelude.{◌≡◌};
    ghost use Rattle.enumset_sets.specs.Sets as set;

    type Output = EnumSet<Letters>;

    ghost bitand_gives = { λ a b r. (s t : set.BitSet)
        × (s ≡ set.only (⟦<Letters as EnumSetType>⟧.elements.bit a))
        × O.converts b t × (r ≡ set.intersection s t) };

    fn bitand(self, rhs: O) -> EnumSet<Self> {
        EnumSet::only(self).intersection(rhs.into())
    }
}

/// The union of `{self}` and the set that `rhs` becomes.
impl<O: std::convert::Into<EnumSet<Letters>>> std::ops::BitOr<O> for Letters {
    ghost use Rattle.std.specs.Prelude.{◌≡◌};
    ghost use Rattle.enumset_sets.specs.Sets as set;

    type Output = EnumSet<Letters>;

    ghost bitor_gives = { λ a b r. (s t : set.BitSet)
        × (s ≡ set.only (⟦<Letters as EnumSetType>⟧.elements.bit a))
        × O.converts b t × (r ≡ set.union s t) };

    fn bitor(self, rhs: O) -> EnumSet<Self> {
        EnumSet::only(self).union(rhs.into())
    }
}

/// The symmetric difference of `{self}` and the set that `rhs` becomes.
impl<O: std::convert::Into<EnumSet<Letters>>> std::ops::BitXor<O> for Letters {
    ghost use Rattle.std.specs.Prelude.{◌≡◌};
    ghost use Rattle.enumset_sets.specs.Sets as set;

    type Output = EnumSet<Letters>;

    ghost bitxor_gives = { λ a b r. (s t : set.BitSet)
        × (s ≡ set.only (⟦<Letters as EnumSetType>⟧.elements.bit a))
        × O.converts b t × (r ≡ set.symmetric_difference s t) };

    fn bitxor(self, rhs: O) -> EnumSet<Self> {
        EnumSet::only(self).symmetric_difference(rhs.into())
    }
}

/// The difference of `{self}` and the set that `rhs` becomes.
impl<O: std::convert::Into<EnumSet<Letters>>> std::ops::Sub<O> for Letters {
    ghost use Rattle.std.specs.Prelude.{◌≡◌};
    ghost use Rattle.enumset_sets.specs.Sets as set;

    type Output = EnumSet<Letters>;

    ghost sub_gives = { λ a b r. (s t : set.BitSet)
        × (s ≡ set.only (⟦<Letters as EnumSetType>⟧.elements.bit a))
        × O.converts b t × (r ≡ set.difference s t) };

    fn sub(self, rhs: O) -> EnumSet<Self> {
        EnumSet::only(self).difference(rhs.into())
    }
}

/// The set of all other elements.
impl std::ops::Not for Letters {
    ghost use Rattle.std.specs.Prelude.{◌≡◌};
    ghost use Rattle.enumset_sets.specs.Sets as set;
    ghost use Rattle.enumset_sets.specs.Sets.{valid_bits};

    type Output = EnumSet<Letters>;

    ghost not_gives = { λ a r. r ≡ set.difference
        (valid_bits ⟦<Letters as EnumSetType>⟧.elements)
        (set.only (⟦<Letters as EnumSetType>⟧.elements.bit a)) };

    fn not(self) -> EnumSet<Self> {
        !EnumSet::only(self)
    }
}
