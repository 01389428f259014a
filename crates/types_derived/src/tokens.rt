// Written by enumset_derive types_derived tokens from TokenKind: change the source, and write this again.

use enumset::{EnumSetType, EnumSetTypeWithRepr};

#[allow(clippy::upper_case_acronyms)]
#[derive(Clone, Copy, PartialEq, Eq, Debug, PartialOrd, Ord)]
pub(crate) enum TokenKind {
    Identifier, // a name
    Number,
    // ---- operators
    Plus,
    Minus,
    Star,
    Slash,
    /* brackets */
    LeftParen,
    RightParen,
    EOF,
}

impl EnumSetType for TokenKind {
    ghost use Rattle.enumset.specs.Sets.{in_place, lawful_in_integer, lawful_in_place};
    ghost use Rattle.types_derived.specs.contracts.tokens.TokenKind.{the_type};

    type Repr = u16;

    ghost elements = { in_place the_type };

    ghost ALL_BITS = { 511 };

    const ALL_BITS: u16 = 0x1FF;

    ghost BIT_WIDTH = { 9 };

    const BIT_WIDTH: u32 = 9;

    ghost VARIANT_COUNT = { 9 };

    const VARIANT_COUNT: u32 = 9;

    fn enum_into_u32(self) -> u32 {
        self as u32
    }

    fn enum_from_u32(val: u32) -> Self {
        match val {
            0 => Self::Identifier,
            1 => Self::Number,
            2 => Self::Plus,
            3 => Self::Minus,
            4 => Self::Star,
            5 => Self::Slash,
            6 => Self::LeftParen,
            7 => Self::RightParen,
            8 => Self::EOF,
            _ => unreachable!(),
        }
    }

    ghost lawful = { lawful_in_place the_type (lawful_in_integer the_type _ tt) };
}

impl EnumSetTypeWithRepr for TokenKind {
    ghost use Rattle.std.proofs.Common.{rules};

    ghost narrow = { Prim.search rules };
}
