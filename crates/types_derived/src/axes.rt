// Written by enumset_derive types_derived axes from Axis: change the source, and write this again.

use enumset::{EnumSetType, EnumSetTypeWithRepr};

/// Axes of space.
#[derive(Clone, Copy, PartialEq, Eq, Debug)]
pub enum Axis {
    X = 1,
    Y = 2,
    Z = 4,
}

impl EnumSetType for Axis {
    ghost use Rattle.std.specs.Prelude.{◌∷◌, []};
    ghost use Rattle.enumset.specs.Sets.{with_bits, lawful_in_integer};
    ghost use Rattle.types_derived.specs.contracts.axes.Axis.{the_type};

    type Repr = u8;

    ghost elements = { with_bits the_type (0 ∷ 1 ∷ 2 ∷ []) };

    ghost ALL_BITS = { 7 };

    const ALL_BITS: u8 = 0x7;

    ghost BIT_WIDTH = { 3 };

    const BIT_WIDTH: u32 = 3;

    ghost VARIANT_COUNT = { 3 };

    const VARIANT_COUNT: u32 = 3;

    fn enum_into_u32(self) -> u32 {
        match self {
            Self::X => 0,
            Self::Y => 1,
            Self::Z => 2,
        }
    }

    fn enum_from_u32(val: u32) -> Self {
        match val {
            0 => Self::X,
            1 => Self::Y,
            2 => Self::Z,
            _ => unreachable!(),
        }
    }

    ghost lawful = { lawful_in_integer the_type _ tt };
}

impl EnumSetTypeWithRepr for Axis {
    ghost use Rattle.std.proofs.Common.{rules};

    ghost narrow = { Prim.search rules };
}
