// Written by enumset_derive example_expressions part from Part: change the source, and write this again.

//! The parts of expressions.

use enumset::{EnumSetType, EnumSetTypeWithRepr};

/// A part of an expression.
#[derive(Clone, Copy, PartialEq, Eq, Debug)]
pub enum Part {
    /// Products, with `+` or `-` between them.
    Sum,
    /// Operands, with `*` or `/` between them.
    Product,
    /// A number, an operand after a minus, or a sum in parentheses.
    Operand,
}

impl EnumSetType for Part {
    ghost use Rattle.enumset.specs.Sets.{in_place, lawful_in_integer, lawful_in_place};
    ghost use Rattle.example_expressions.specs.contracts.part.Part.{the_type};

    type Repr = u8;

    ghost elements = { in_place the_type };

    ghost ALL_BITS = { 7 };

    const ALL_BITS: u8 = 0x7;

    ghost BIT_WIDTH = { 3 };

    const BIT_WIDTH: u32 = 3;

    ghost VARIANT_COUNT = { 3 };

    const VARIANT_COUNT: u32 = 3;

    fn enum_into_u32(self) -> u32 {
        self as u32
    }

    fn enum_from_u32(val: u32) -> Self {
        match val {
            0 => Self::Sum,
            1 => Self::Product,
            2 => Self::Operand,
            _ => unreachable!(),
        }
    }

    ghost lawful = { lawful_in_place the_type (lawful_in_integer the_type _ tt) };
}

impl EnumSetTypeWithRepr for Part {
    ghost use Rattle.std.proofs.Common.{rules};

    ghost narrow = { Prim.search rules };
}
