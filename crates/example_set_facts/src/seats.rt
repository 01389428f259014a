// Written by enumset_derive example_set_facts seats from Seat: change the source, and write this again.

use enumset::{EnumSetType, EnumSetTypeWithRepr};

/// A seat of a town council.
#[derive(Clone, Copy, PartialEq, Eq, Debug)]
pub enum Seat {
    Chair,
    Deputy,
    Secretary,
    Treasurer,
    Schools,
    Housing,
    Health,
    Roads,
    Parks,
    Libraries,
    Water,
    Markets,
}

impl EnumSetType for Seat {
    ghost use Rattle.enumset.specs.Sets.{in_place, lawful_in_integer, lawful_in_place};
    ghost use Rattle.example_set_facts.specs.contracts.seats.Seat.{the_type};

    type Repr = u16;

    ghost elements = { in_place the_type };

    ghost ALL_BITS = { 4095 };

    const ALL_BITS: u16 = 0xFFF;

    ghost BIT_WIDTH = { 12 };

    const BIT_WIDTH: u32 = 12;

    ghost VARIANT_COUNT = { 12 };

    const VARIANT_COUNT: u32 = 12;

    fn enum_into_u32(self) -> u32 {
        self as u32
    }

    fn enum_from_u32(val: u32) -> Self {
        match val {
            0 => Self::Chair,
            1 => Self::Deputy,
            2 => Self::Secretary,
            3 => Self::Treasurer,
            4 => Self::Schools,
            5 => Self::Housing,
            6 => Self::Health,
            7 => Self::Roads,
            8 => Self::Parks,
            9 => Self::Libraries,
            10 => Self::Water,
            11 => Self::Markets,
            _ => unreachable!(),
        }
    }

    ghost lawful = { lawful_in_place the_type (lawful_in_integer the_type _ tt) };
}

impl EnumSetTypeWithRepr for Seat {
    ghost use Rattle.std.proofs.Common.{rules};

    ghost narrow = { Prim.search rules };
}
