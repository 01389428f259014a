// Written by enumset_derive example_set_facts flags from Flag: change the source, and write this again.

use enumset::{EnumSetType, EnumSetTypeWithRepr};

/// A flag of a message, on its bit of the first byte. Bits 3, 4 and 6 are reserved for later versions.
#[derive(Clone, Copy, PartialEq, Eq, Debug)]
pub enum Flag {
    Urgent = 0,
    Encrypted = 1,
    Compressed = 2,
    Signed = 5,
    ReplyWanted = 7,
}

impl EnumSetType for Flag {
    ghost use Rattle.std.specs.Prelude.{◌∷◌, []};
    ghost use Rattle.enumset.specs.Sets.{with_bits, lawful_in_integer};
    ghost use Rattle.example_set_facts.specs.contracts.flags.Flag.{the_type};

    type Repr = u8;

    ghost elements = { with_bits the_type (0 ∷ 1 ∷ 2 ∷ 5 ∷ 7 ∷ []) };

    ghost ALL_BITS = { 167 };

    const ALL_BITS: u8 = 0xA7;

    ghost BIT_WIDTH = { 8 };

    const BIT_WIDTH: u32 = 8;

    ghost VARIANT_COUNT = { 5 };

    const VARIANT_COUNT: u32 = 5;

    fn enum_into_u32(self) -> u32 {
        self as u32
    }

    fn enum_from_u32(val: u32) -> Self {
        match val {
            0 => Self::Urgent,
            1 => Self::Encrypted,
            2 => Self::Compressed,
            5 => Self::Signed,
            7 => Self::ReplyWanted,
            _ => unreachable!(),
        }
    }

    ghost lawful = { lawful_in_integer the_type _ tt };
}

impl EnumSetTypeWithRepr for Flag {
    ghost use Rattle.std.proofs.Common.{rules};

    ghost narrow = { Prim.search rules };
}
