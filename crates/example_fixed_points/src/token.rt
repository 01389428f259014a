//! The tokens of a grammar.

use enumset::EnumSetType;

/// A token of the grammar in `grammar`.
#[derive(Clone, Copy, PartialEq, Eq, Debug)]
pub enum Token {
    Let,
    Name,
    Assign,
    Semicolon,
    If,
    Else,
    While,
    OpenBrace,
    CloseBrace,
    Less,
    Plus,
    Minus,
    Number,
    OpenParen,
    CloseParen,
    End,
}

impl EnumSetType for Token {
    ghost use Rattle.enumset.specs.Sets.{in_place, lawful_in_integer, lawful_in_place};
    ghost use Rattle.example_fixed_points.specs.contracts.token.Token.{the_type};

    type Repr = u16;

    ghost elements = { in_place the_type };

    ghost ALL_BITS = { 65535 };

    const ALL_BITS: u16 = 65535;

    ghost BIT_WIDTH = { 16 };

    const BIT_WIDTH: u32 = 16;

    ghost VARIANT_COUNT = { 16 };

    const VARIANT_COUNT: u32 = 16;

    fn enum_into_u32(self) -> u32 {
        self as u32
    }

    fn enum_from_u32(val: u32) -> Self {
        match val {
            0 => Self::Let,
            1 => Self::Name,
            2 => Self::Assign,
            3 => Self::Semicolon,
            4 => Self::If,
            5 => Self::Else,
            6 => Self::While,
            7 => Self::OpenBrace,
            8 => Self::CloseBrace,
            9 => Self::Less,
            10 => Self::Plus,
            11 => Self::Minus,
            12 => Self::Number,
            13 => Self::OpenParen,
            14 => Self::CloseParen,
            15 => Self::End,
            _ => unreachable!(),
        }
    }

    ghost lawful = { lawful_in_place the_type (lawful_in_integer the_type _ tt) };
}
