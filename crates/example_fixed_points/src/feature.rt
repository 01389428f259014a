//! The features of a library.

use enumset::EnumSetType;

/// A feature of a library, which may be enabled or not.
#[derive(Clone, Copy, PartialEq, Eq, Debug)]
pub enum Feature {
    Core,
    Net,
    Tls,
    Http,
    Json,
    Api,
    Metrics,
}

impl EnumSetType for Feature {
    ghost use Rattle.enumset.specs.Sets.{in_place, lawful_in_integer, lawful_in_place};
    ghost use Rattle.example_fixed_points.specs.contracts.feature.Feature.{the_type};

    type Repr = u8;

    ghost elements = { in_place the_type };

    ghost ALL_BITS = { 127 };

    const ALL_BITS: u8 = 127;

    ghost BIT_WIDTH = { 7 };

    const BIT_WIDTH: u32 = 7;

    ghost VARIANT_COUNT = { 7 };

    const VARIANT_COUNT: u32 = 7;

    fn enum_into_u32(self) -> u32 {
        self as u32
    }

    fn enum_from_u32(val: u32) -> Self {
        match val {
            0 => Self::Core,
            1 => Self::Net,
            2 => Self::Tls,
            3 => Self::Http,
            4 => Self::Json,
            5 => Self::Api,
            6 => Self::Metrics,
            _ => unreachable!(),
        }
    }

    ghost lawful = { lawful_in_place the_type (lawful_in_integer the_type _ tt) };
}
