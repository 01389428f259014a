// Written by enumset_derive example_wrong_bodies permissions from Permission: change the source, and write this again.

use enumset::{EnumSetType, EnumSetTypeWithRepr};

/// What a user may do with a document.
#[derive(Clone, Copy, PartialEq, Eq, Debug)]
pub enum Permission {
    Read,
    Comment,
    Write,
}

impl EnumSetType for Permission {
    ghost use Rattle.enumset.specs.Sets.{in_place, lawful_in_integer, lawful_in_place};
    ghost use Rattle.example_wrong_bodies.specs.contracts.permissions.Permission.{the_type};

    type Repr = u8;

    ghost elements = { in_place the_type };

    ghost ALL_BITS = { 7 };

    const ALL_BITS: u8 = 0x7;

    ghost BIT_WIDTH = { 3 };

    const BIT_WIDTH: u32 = 3;

    ghost VARIANT_COUNT = { 3 };

    const VARIANT_COUNT: u32 = 3;

    fn enum_into_u32(self) -> u32 {
        self as u32
    }

    fn enum_from_u32(val: u32) -> Self {
        match val {
            0 => Self::Read,
            1 => Self::Comment,
            2 => Self::Write,
            _ => unreachable!(),
        }
    }

    ghost lawful = { lawful_in_place the_type (lawful_in_integer the_type _ tt) };
}

impl EnumSetTypeWithRepr for Permission {
    ghost use Rattle.std.proofs.Common.{rules};

    ghost narrow = { Prim.search rules };
}
