// Written by enumset_derive types_derived verbs from Verb: change the source, and write this again.

use enumset::{EnumSetType, EnumSetTypeWithRepr};

/// What to do.
#[derive(Clone, Copy, PartialEq, Eq, Debug)]
pub enum Verb {
    Add,
    Remove,
}

impl EnumSetType for Verb {
    ghost use Rattle.enumset.specs.Sets.{in_place, lawful_in_integer, lawful_in_place};
    ghost use Rattle.types_derived.specs.contracts.verbs.Verb.{the_type};

    type Repr = u8;

    ghost elements = { in_place the_type };

    ghost ALL_BITS = { 3 };

    const ALL_BITS: u8 = 0x3;

    ghost BIT_WIDTH = { 2 };

    const BIT_WIDTH: u32 = 2;

    ghost VARIANT_COUNT = { 2 };

    const VARIANT_COUNT: u32 = 2;

    fn enum_into_u32(self) -> u32 {
        self as u32
    }

    fn enum_from_u32(val: u32) -> Self {
        match val {
            0 => Self::Add,
            1 => Self::Remove,
            _ => unreachable!(),
        }
    }

    ghost lawful = { lawful_in_place the_type (lawful_in_integer the_type _ tt) };
}

impl EnumSetTypeWithRepr for Verb {
    ghost use Rattle.std.proofs.Common.{rules};

    ghost narrow = { Prim.search rules };
}
