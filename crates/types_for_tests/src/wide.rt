// Written by enumset_derive types_for_tests wide from NamedWide: change the source, and write this again.

//! An element type whose values get their names by hand, in the module `wide_names`.

use enumset::EnumSetType;
use enumset::internal::ArrayRepr;

/// Three variants, on bits 3, 64 and 130, each in a word of its own.
#[derive(Clone, Copy, PartialEq, Eq, Debug)]
pub enum NamedWide {
    P = 3,
    Q = 64,
    R = 130,
}

impl EnumSetType for NamedWide {
    ghost use Rattle.std.specs.Prelude.{◌∷◌, []};
    ghost use Rattle.enumset.specs.Sets.{with_bits, lawful_in_words};
    ghost use Rattle.types_for_tests.specs.contracts.wide.NamedWide.{the_type};

    type Repr = ArrayRepr<3>;

    ghost elements = { with_bits the_type (3 ∷ 64 ∷ 130 ∷ []) };

    ghost ALL_BITS = { 8 ∷ 1 ∷ 4 ∷ [] };

    const ALL_BITS: ArrayRepr<3> = ArrayRepr([0x8, 0x1, 0x4]);

    ghost BIT_WIDTH = { 131 };

    const BIT_WIDTH: u32 = 131;

    ghost VARIANT_COUNT = { 3 };

    const VARIANT_COUNT: u32 = 3;

    fn enum_into_u32(self) -> u32 {
        self as u32
    }

    fn enum_from_u32(val: u32) -> Self {
        match val {
            3 => Self::P,
            64 => Self::Q,
            130 => Self::R,
            _ => unreachable!(),
        }
    }

    ghost lawful = { lawful_in_words the_type _ tt };
}
