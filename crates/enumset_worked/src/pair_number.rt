// Written by enumset_derive enumset_worked pair_number from PairNumber: change the source, and write this again.

//! The worked type `pair-number`.

use enumset_sets::{EnumSetType, EnumSetTypeWithRepr};

/// Two variants, on bits 0 and 64 of one integer: the bits of [`PairWords`](crate::pair_words::PairWords).
#[derive(Clone, Copy, PartialEq, Eq, Debug, PartialOrd, Ord, Hash)]
pub enum PairNumber {
    A = 0,
    B = 64,
}

impl EnumSetType for PairNumber {
    ghost use Rattle.std.specs.Prelude.{◌∷◌, []};
    ghost use Rattle.enumset_sets.specs.Sets.{with_bits, lawful_in_integer};
    ghost use Rattle.enumset_worked.specs.contracts.pair_number.PairNumber.{the_type};
    ghost use Rattle.enumset_worked.specs.declared.pair_number.PairNumber.TheVariants as variant;

    type Repr = u128;

    ghost elements = { with_bits the_type (0 ∷ 64 ∷ []) };

    ghost values = { variant.A ∷ variant.B ∷ [] };

    ghost ALL_BITS = { 18446744073709551617 };

    const ALL_BITS: u128 = 0x10000000000000001;

    ghost BIT_WIDTH = { 65 };

    const BIT_WIDTH: u32 = 65;

    ghost VARIANT_COUNT = { 2 };

    const VARIANT_COUNT: u32 = 2;

    fn enum_into_u32(self) -> u32 {
        self as u32
    }

    fn enum_from_u32(val: u32) -> Self {
        match val {
            0 => Self::A,
            64 => Self::B,
            _ => unreachable!(),
        }
    }

    ghost lawful = { lawful_in_integer the_type _ tt };
}

impl EnumSetTypeWithRepr for PairNumber {
    ghost use Rattle.std.proofs.Common.{rules};

    ghost narrow = { Prim.search rules };
}

/// The name of the variant.
impl std::fmt::Display for PairNumber {
    ghost use Rattle.std.specs.Prelude.{Some, ◌∷◌, [], codes};
    ghost use Rattle.std.specs.List.{slice_index_or};
    ghost use denote.Enum.Declared.{tag_of};
    ghost use Rattle.enumset_worked.specs.contracts.pair_number.PairNumber.{the_type};

    ghost output = { λ v. Some (slice_index_or
        (codes "A" ∷ codes "B" ∷ [])
        (tag_of the_type v) []) };

    fn fmt<W: std::fmt::Write>(&self, f: &mut std::fmt::Formatter<W>) -> std::fmt::Result {
        match self {
            Self::A => f.write_str("A"),
            Self::B => f.write_str("B"),
        }
    }
}
