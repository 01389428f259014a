// Written by enumset_derive types_derived cards from Suit: change the source, and write this again.

use enumset::{EnumSetType, EnumSetTypeWithRepr};

/// Suits of cards.
#[derive(Clone, Copy, PartialEq, Eq, PartialOrd, Ord, Debug, Hash)]
pub enum Suit {
    Clubs,
    Diamonds,
    Hearts,
    Spades,
}

impl EnumSetType for Suit {
    ghost use Rattle.enumset.specs.Sets.{in_place, lawful_in_integer, lawful_in_place};
    ghost use Rattle.types_derived.specs.contracts.cards.Suit.{the_type};

    type Repr = u8;

    ghost elements = { in_place the_type };

    ghost ALL_BITS = { 15 };

    const ALL_BITS: u8 = 0xF;

    ghost BIT_WIDTH = { 4 };

    const BIT_WIDTH: u32 = 4;

    ghost VARIANT_COUNT = { 4 };

    const VARIANT_COUNT: u32 = 4;

    fn enum_into_u32(self) -> u32 {
        self as u32
    }

    fn enum_from_u32(val: u32) -> Self {
        match val {
            0 => Self::Clubs,
            1 => Self::Diamonds,
            2 => Self::Hearts,
            3 => Self::Spades,
            _ => unreachable!(),
        }
    }

    ghost lawful = { lawful_in_place the_type (lawful_in_integer the_type _ tt) };
}

impl EnumSetTypeWithRepr for Suit {
    ghost use Rattle.std.proofs.Common.{rules};

    ghost narrow = { Prim.search rules };
}
