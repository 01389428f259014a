//! The nonterminals of a grammar.

use enumset::EnumSetType;

/// A nonterminal of the grammar in `grammar`.
#[derive(Clone, Copy, PartialEq, Eq, Debug)]
pub enum Nonterminal {
    Program,
    Statements,
    Statement,
    Binding,
    Assignment,
    Choice,
    Otherwise,
    Loop,
    Block,
    Expression,
    Comparison,
    Sum,
    MoreProducts,
    Product,
    Operand,
}

impl EnumSetType for Nonterminal {
    ghost use Rattle.enumset.specs.Sets.{in_place, lawful_in_integer, lawful_in_place};
    ghost use Rattle.example_fixed_points.specs.contracts.nonterminal.Nonterminal.{the_type};

    type Repr = u16;

    ghost elements = { in_place the_type };

    ghost ALL_BITS = { 32767 };

    const ALL_BITS: u16 = 32767;

    ghost BIT_WIDTH = { 15 };

    const BIT_WIDTH: u32 = 15;

    ghost VARIANT_COUNT = { 15 };

    const VARIANT_COUNT: u32 = 15;

    fn enum_into_u32(self) -> u32 {
        self as u32
    }

    fn enum_from_u32(val: u32) -> Self {
        match val {
            0 => Self::Program,
            1 => Self::Statements,
            2 => Self::Statement,
            3 => Self::Binding,
            4 => Self::Assignment,
            5 => Self::Choice,
            6 => Self::Otherwise,
            7 => Self::Loop,
            8 => Self::Block,
            9 => Self::Expression,
            10 => Self::Comparison,
            11 => Self::Sum,
            12 => Self::MoreProducts,
            13 => Self::Product,
            14 => Self::Operand,
            _ => unreachable!(),
        }
    }

    ghost lawful = { lawful_in_place the_type (lawful_in_integer the_type _ tt) };
}
