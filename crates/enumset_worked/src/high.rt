// Written by enumset_derive enumset_worked high from High: change the source, and write this again.

//! The worked type `high`.

use enumset_sets::{EnumSetType, EnumSetTypeWithRepr};

/// Three variants, on bits 7, 6 and 5: a discriminant counts down from the highest bit of the representation.
#[derive(Clone, Copy, PartialEq, Eq, Debug, PartialOrd, Ord, Hash)]
pub enum High {
    A,
    B,
    C,
}

impl EnumSetType for High {
    ghost use Rattle.std.specs.Prelude.{◌∷◌, []};
    ghost use Rattle.enumset_sets.specs.Sets.{with_bits, lawful_in_integer};
    ghost use Rattle.enumset_worked.specs.contracts.high.High.{the_type};
    ghost use Rattle.enumset_worked.specs.declared.high.High.TheVariants as variant;

    type Repr = u8;

    ghost elements = { with_bits the_type (7 ∷ 6 ∷ 5 ∷ []) };

    ghost values = { variant.A ∷ variant.B ∷ variant.C ∷ [] };

    ghost ALL_BITS = { 224 };

    const ALL_BITS: u8 = 0xE0;

    ghost BIT_WIDTH = { 8 };

    const BIT_WIDTH: u32 = 8;

    ghost VARIANT_COUNT = { 3 };

    const VARIANT_COUNT: u32 = 3;

    fn enum_into_u32(self) -> u32 {
        match self {
            Self::A => 7,
            Self::B => 6,
            Self::C => 5,
        }
    }

    fn enum_from_u32(val: u32) -> Self {
        match val {
            7 => Self::A,
            6 => Self::B,
            5 => Self::C,
            _ => unreachable!(),
        }
    }

    ghost lawful = { lawful_in_integer the_type _ tt };
}

impl EnumSetTypeWithRepr for High {
    ghost use Rattle.std.proofs.Common.{rules};

    ghost narrow = { Prim.search rules };
}

/// The name of the variant.
impl std::fmt::Display for High {
    ghost use Rattle.std.specs.Prelude.{Some, ◌∷◌, [], codes};
    ghost use Rattle.std.specs.List.{slice_index_or};
    ghost use denote.Enum.Declared.{tag_of};
    ghost use Rattle.enumset_worked.specs.contracts.high.High.{the_type};

    ghost output = { λ v. Some (slice_index_or
        (codes "A" ∷ codes "B" ∷ codes "C" ∷ [])
        (tag_of the_type v) []) };

    fn fmt<W: std::fmt::Write>(&self, f: &mut std::fmt::Formatter<W>) -> std::fmt::Result {
        match self {
            Self::A => f.write_str("A"),
            Self::B => f.write_str("B"),
            Self::C => f.write_str("C"),
        }
    }
}
