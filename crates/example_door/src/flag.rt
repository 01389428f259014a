// Written by enumset_derive example_door flag from Flag: change the source, and write this again.

//! What may be true of a door.

use enumset_sets::{EnumSetType, EnumSetTypeWithRepr};

/// A flag of a door with a magnetic lock.
#[derive(Clone, Copy, PartialEq, Eq, Debug)]
pub enum Flag {
    Open,
    Locked,
    Alarmed,
    Powered,
}

impl EnumSetType for Flag {
    ghost use Rattle.std.specs.Prelude.{◌∷◌, []};
    ghost use Rattle.enumset_sets.specs.Sets.{in_place, lawful_in_integer, lawful_in_place};
    ghost use Rattle.example_door.specs.contracts.flag.Flag.{the_type};
    ghost use Rattle.example_door.specs.declared.flag.Flag.TheVariants as variant;

    type Repr = u8;

    ghost elements = { in_place the_type };

    ghost values = { variant.Open ∷ variant.Locked ∷ variant.Alarmed ∷ variant.Powered ∷ [] };

    ghost ALL_BITS = { 15 };

    const ALL_BITS: u8 = 0xF;

    ghost BIT_WIDTH = { 4 };

    const BIT_WIDTH: u32 = 4;

    ghost VARIANT_COUNT = { 4 };

    const VARIANT_COUNT: u32 = 4;

    fn enum_into_u32(self) -> u32 {
        self as u32
    }

    fn enum_from_u32(val: u32) -> Self {
        match val {
            0 => Self::Open,
            1 => Self::Locked,
            2 => Self::Alarmed,
            3 => Self::Powered,
            _ => unreachable!(),
        }
    }

    ghost lawful = { lawful_in_place the_type (lawful_in_integer the_type _ tt) };
}

impl EnumSetTypeWithRepr for Flag {
    ghost use Rattle.std.proofs.Common.{rules};

    ghost narrow = { Prim.search rules };
}

/// The name of the variant.
impl std::fmt::Display for Flag {
    ghost use Rattle.std.specs.Prelude.{Some, ◌∷◌, [], codes};
    ghost use Rattle.std.specs.List.{slice_index_or};
    ghost use denote.Enum.Declared.{tag_of};
    ghost use Rattle.example_door.specs.contracts.flag.Flag.{the_type};

    ghost output = { λ v. Some (slice_index_or
        (codes "Open" ∷ codes "Locked" ∷ codes "Alarmed" ∷ codes "Powered" ∷ [])
        (tag_of the_type v) []) };

    fn fmt<W: std::fmt::Write>(&self, f: &mut std::fmt::Formatter<W>) -> std::fmt::Result {
        match self {
            Self::Open => f.write_str("Open"),
            Self::Locked => f.write_str("Locked"),
            Self::Alarmed => f.write_str("Alarmed"),
            Self::Powered => f.write_str("Powered"),
        }
    }
}
