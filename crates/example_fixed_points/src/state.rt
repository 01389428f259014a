//! The states of an article.

use enumset::EnumSetType;

/// A state of an article.
#[derive(Clone, Copy, PartialEq, Eq, Debug)]
pub enum State {
    Draft,
    Review,
    Approved,
    Rejected,
    Published,
    Withdrawn,
    Archived,
}

impl EnumSetType for State {
    ghost use Rattle.enumset.specs.Sets.{in_place, lawful_in_integer, lawful_in_place};
    ghost use Rattle.example_fixed_points.specs.contracts.state.State.{the_type};

    type Repr = u8;

    ghost elements = { in_place the_type };

    ghost ALL_BITS = { 127 };

    const ALL_BITS: u8 = 127;

    ghost BIT_WIDTH = { 7 };

    const BIT_WIDTH: u32 = 7;

    ghost VARIANT_COUNT = { 7 };

    const VARIANT_COUNT: u32 = 7;

    fn enum_into_u32(self) -> u32 {
        self as u32
    }

    fn enum_from_u32(val: u32) -> Self {
        match val {
            0 => Self::Draft,
            1 => Self::Review,
            2 => Self::Approved,
            3 => Self::Rejected,
            4 => Self::Published,
            5 => Self::Withdrawn,
            6 => Self::Archived,
            _ => unreachable!(),
        }
    }

    ghost lawful = { lawful_in_place the_type (lawful_in_integer the_type _ tt) };
}
