// Written by enumset_derive example_expressions kind from Kind: change the source, and write this again.

//! The kinds of tokens.

use enumset::{EnumSetType, EnumSetTypeWithRepr};

/// A kind of token.
#[derive(Clone, Copy, PartialEq, Eq, Debug)]
pub enum Kind {
    Number,
    Open,
    Minus,
    Plus,
    Times,
    Divide,
    Close,
    /// The end of the input, which is the last token.
    End,
}

impl EnumSetType for Kind {
    ghost use Rattle.enumset.specs.Sets.{in_place, lawful_in_integer, lawful_in_place};
    ghost use Rattle.example_expressions.specs.contracts.kind.Kind.{the_type};

    type Repr = u8;

    ghost elements = { in_place the_type };

    ghost ALL_BITS = { 255 };

    const ALL_BITS: u8 = 0xFF;

    ghost BIT_WIDTH = { 8 };

    const BIT_WIDTH: u32 = 8;

    ghost VARIANT_COUNT = { 8 };

    const VARIANT_COUNT: u32 = 8;

    fn enum_into_u32(self) -> u32 {
        self as u32
    }

    fn enum_from_u32(val: u32) -> Self {
        match val {
            0 => Self::Number,
            1 => Self::Open,
            2 => Self::Minus,
            3 => Self::Plus,
            4 => Self::Times,
            5 => Self::Divide,
            6 => Self::Close,
            7 => Self::End,
            _ => unreachable!(),
        }
    }

    ghost lawful = { lawful_in_place the_type (lawful_in_integer the_type _ tt) };
}

impl EnumSetTypeWithRepr for Kind {
    ghost use Rattle.std.proofs.Common.{rules};

    ghost narrow = { Prim.search rules };
}
