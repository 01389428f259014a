// Written by enumset_derive types_derived days from Day: change the source, and write this again.

use enumset::{EnumSetType, EnumSetTypeWithRepr};

/// Days of a week.
#[derive(Clone, Copy, PartialEq, Eq, Debug)]
pub enum Day {
    /// The first day of a week.
    Monday = 1,
    Tuesday,
    Wednesday,
}

impl EnumSetType for Day {
    ghost use Rattle.std.specs.Prelude.{◌∷◌, []};
    ghost use Rattle.enumset.specs.Sets.{with_bits, lawful_in_integer};
    ghost use Rattle.types_derived.specs.contracts.days.Day.{the_type};

    type Repr = u8;

    ghost elements = { with_bits the_type (1 ∷ 2 ∷ 3 ∷ []) };

    ghost ALL_BITS = { 14 };

    const ALL_BITS: u8 = 0xE;

    ghost BIT_WIDTH = { 4 };

    const BIT_WIDTH: u32 = 4;

    ghost VARIANT_COUNT = { 3 };

    const VARIANT_COUNT: u32 = 3;

    fn enum_into_u32(self) -> u32 {
        self as u32
    }

    fn enum_from_u32(val: u32) -> Self {
        match val {
            1 => Self::Monday,
            2 => Self::Tuesday,
            3 => Self::Wednesday,
            _ => unreachable!(),
        }
    }

    ghost lawful = { lawful_in_integer the_type _ tt };
}

impl EnumSetTypeWithRepr for Day {
    ghost use Rattle.std.proofs.Common.{rules};

    ghost narrow = { Prim.search rules };
}
