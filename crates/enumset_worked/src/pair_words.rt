// Written by enumset_derive enumset_worked pair_words from PairWords: change the source, and write this again.

//! The worked type `pair-words`.

use enumset_array::ArrayRepr;
use enumset_sets::{EnumSetType, EnumSetTypeWithRepr};

/// Two variants, on bits 0 and 64, each in its own word: the bits of [`PairNumber`](crate::pair_number::PairNumber).
#[derive(Clone, Copy, PartialEq, Eq, Debug, PartialOrd, Ord, Hash)]
pub enum PairWords {
    A = 0,
    B = 64,
}

impl EnumSetType for PairWords {
    ghost use Rattle.std.specs.Prelude.{◌∷◌, []};
    ghost use Rattle.enumset_sets.specs.Sets.{with_bits, lawful_in_words};
    ghost use Rattle.enumset_worked.specs.contracts.pair_words.PairWords.{the_type};
    ghost use Rattle.enumset_worked.specs.declared.pair_words.PairWords.TheVariants as variant;

    type Repr = ArrayRepr<2>;

    ghost elements = { with_bits the_type (0 ∷ 64 ∷ []) };

    ghost values = { variant.A ∷ variant.B ∷ [] };

    ghost ALL_BITS = { 1 ∷ 1 ∷ [] };

    const ALL_BITS: ArrayRepr<2> = ArrayRepr([0x1, 0x1]);

    ghost BIT_WIDTH = { 65 };

    const BIT_WIDTH: u32 = 65;

    ghost VARIANT_COUNT = { 2 };

    const VARIANT_COUNT: u32 = 2;

    fn enum_into_u32(self) -> u32 {
        self as u32
    }

    fn enum_from_u32(val: u32) -> Self {
        match val {
            0 => Self::A,
            64 => Self::B,
            _ => unreachable!(),
        }
    }

    ghost lawful = { lawful_in_words the_type _ tt };
}

impl EnumSetTypeWithRepr for PairWords {
    ghost use Rattle.std.proofs.Common.{rules};

    ghost narrow = { Prim.search rules };
}

/// The name of the variant.
impl std::fmt::Display for PairWords {
    ghost use Rattle.std.specs.Prelude.{Some, ◌∷◌, [], codes};
    ghost use Rattle.std.specs.List.{slice_index_or};
    ghost use denote.Enum.Declared.{tag_of};
    ghost use Rattle.enumset_worked.specs.contracts.pair_words.PairWords.{the_type};

    ghost output = { λ v. Some (slice_index_or
        (codes "A" ∷ codes "B" ∷ [])
        (tag_of the_type v) []) };

    fn fmt<W: std::fmt::Write>(&self, f: &mut std::fmt::Formatter<W>) -> std::fmt::Result {
        match self {
            Self::A => f.write_str("A"),
            Self::B => f.write_str("B"),
        }
    }
}
