//! What a reader of a page may do.

use enumset::{EnumSetType, variant_of};

/// A right, on bit 0, 1 or 2.
#[derive(Clone, Copy, Debug, PartialEq, Eq, PartialOrd, Ord, Hash)]
pub enum Right {
    Read,
    Write,
    Share,
}

impl EnumSetType for Right {
    ghost use Rattle.enumset.specs.Sets.{in_place, lawful_in_integer, lawful_in_place};
    ghost use Rattle.example_rights.specs.contracts.rights.Right.{the_type};

    type Repr = u8;

    ghost elements = { in_place the_type };

    ghost ALL_BITS = { 7 };

    const ALL_BITS: u8 = 7;

    ghost BIT_WIDTH = { 3 };

    const BIT_WIDTH: u32 = 3;

    ghost VARIANT_COUNT = { 3 };

    const VARIANT_COUNT: u32 = 3;

    fn enum_into_u32(self) -> u32 {
        self as u32
    }

    fn enum_from_u32(val: u32) -> Right {
        variant_of!(val, Right: Read Write Share)
    }

    ghost lawful = { lawful_in_place the_type (lawful_in_integer the_type _ tt) };
}
