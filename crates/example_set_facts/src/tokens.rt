// Written by enumset_derive example_set_facts tokens from Token: change the source, and write this again.

use enumset::{EnumSetType, EnumSetTypeWithRepr};

/// A token of a small language.
#[derive(Clone, Copy, PartialEq, Eq, Debug)]
pub enum Token {
    /// Stands for an empty phrase in a set of first tokens.
    Nothing,
    /// The end of the text.
    End,
    Name,
    Number,
    Text,
    Comment,
    LetWord,
    ConstWord,
    FunctionWord,
    ReturnWord,
    IfWord,
    ElseWord,
    WhileWord,
    ForWord,
    InWord,
    BreakWord,
    ContinueWord,
    MatchWord,
    TrueWord,
    FalseWord,
    ImportWord,
    Plus,
    Minus,
    Star,
    Slash,
    Percent,
    Bang,
    And,
    Or,
    Assign,
    Equals,
    Differs,
    Below,
    AtMost,
    Above,
    AtLeast,
    LeftParenthesis,
    RightParenthesis,
    LeftBracket,
    RightBracket,
    LeftBrace,
    RightBrace,
    Comma,
    Colon,
    Semicolon,
    Dot,
    Arrow,
    Question,
}

impl EnumSetType for Token {
    ghost use Rattle.enumset.specs.Sets.{in_place, lawful_in_integer, lawful_in_place};
    ghost use Rattle.example_set_facts.specs.contracts.tokens.Token.{the_type};

    type Repr = u64;

    ghost elements = { in_place the_type };

    ghost ALL_BITS = { 281474976710655 };

    const ALL_BITS: u64 = 0xFFFFFFFFFFFF;

    ghost BIT_WIDTH = { 48 };

    const BIT_WIDTH: u32 = 48;

    ghost VARIANT_COUNT = { 48 };

    const VARIANT_COUNT: u32 = 48;

    fn enum_into_u32(self) -> u32 {
        self as u32
    }

    fn enum_from_u32(val: u32) -> Self {
        match val {
            0 => Self::Nothing,
            1 => Self::End,
            2 => Self::Name,
            3 => Self::Number,
            4 => Self::Text,
            5 => Self::Comment,
            6 => Self::LetWord,
            7 => Self::ConstWord,
            8 => Self::FunctionWord,
            9 => Self::ReturnWord,
            10 => Self::IfWord,
            11 => Self::ElseWord,
            12 => Self::WhileWord,
            13 => Self::ForWord,
            14 => Self::InWord,
            15 => Self::BreakWord,
            16 => Self::ContinueWord,
            17 => Self::MatchWord,
            18 => Self::TrueWord,
            19 => Self::FalseWord,
            20 => Self::ImportWord,
            21 => Self::Plus,
            22 => Self::Minus,
            23 => Self::Star,
            24 => Self::Slash,
            25 => Self::Percent,
            26 => Self::Bang,
            27 => Self::And,
            28 => Self::Or,
            29 => Self::Assign,
            30 => Self::Equals,
            31 => Self::Differs,
            32 => Self::Below,
            33 => Self::AtMost,
            34 => Self::Above,
            35 => Self::AtLeast,
            36 => Self::LeftParenthesis,
            37 => Self::RightParenthesis,
            38 => Self::LeftBracket,
            39 => Self::RightBracket,
            40 => Self::LeftBrace,
            41 => Self::RightBrace,
            42 => Self::Comma,
            43 => Self::Colon,
            44 => Self::Semicolon,
            45 => Self::Dot,
            46 => Self::Arrow,
            47 => Self::Question,
            _ => {
                enumset::variants::is_below(val, 48);
                unreachable!()
            }
        }
    }

    ghost lawful = { lawful_in_place the_type (lawful_in_integer the_type _ tt) };
}

impl EnumSetTypeWithRepr for Token {
    ghost use Rattle.std.proofs.Common.{rules};

    ghost narrow = { Prim.search rules };
}
