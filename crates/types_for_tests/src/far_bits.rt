// Written by enumset_derive types_for_tests far_bits from In17Words: change the source, and write this again.

//! An enum of two variants, one in the first word and one in the last of more words than the other types have.

use enumset::EnumSetType;
use enumset::internal::ArrayRepr;

/// Two variants, on bits 3 and 1087, in seventeen words.
#[derive(Clone, Copy, PartialEq, Eq, Debug)]
pub enum In17Words {
    A = 3,
    B = 1087,
}

impl EnumSetType for In17Words {
    ghost use Rattle.std.specs.Prelude.{◌∷◌, []};
    ghost use Rattle.enumset.specs.Sets.{with_bits, lawful_in_words};
    ghost use Rattle.types_for_tests.specs.contracts.far_bits.In17Words.{the_type};

    type Repr = ArrayRepr<17>;

    ghost elements = { with_bits the_type (3 ∷ 1087 ∷ []) };

    ghost ALL_BITS = { 8 ∷ 0 ∷ 0 ∷ 0 ∷ 0 ∷ 0 ∷ 0 ∷ 0 ∷ 0 ∷ 0 ∷ 0 ∷ 0 ∷ 0 ∷
        0 ∷ 0 ∷ 0 ∷ 9223372036854775808 ∷ [] };

    const ALL_BITS: ArrayRepr<17> = ArrayRepr([
        0x8,
        0x0,
        0x0,
        0x0,
        0x0,
        0x0,
        0x0,
        0x0,
        0x0,
        0x0,
        0x0,
        0x0,
        0x0,
        0x0,
        0x0,
        0x0,
        0x8000000000000000,
    ]);

    ghost BIT_WIDTH = { 1088 };

    const BIT_WIDTH: u32 = 1088;

    ghost VARIANT_COUNT = { 2 };

    const VARIANT_COUNT: u32 = 2;

    fn enum_into_u32(self) -> u32 {
        self as u32
    }

    fn enum_from_u32(val: u32) -> Self {
        match val {
            3 => Self::A,
            1087 => Self::B,
            _ => unreachable!(),
        }
    }

    ghost lawful = { lawful_in_words the_type _ tt };
}
