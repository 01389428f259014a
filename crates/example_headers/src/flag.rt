// Written by enumset_derive example_headers flag from Flag: change the source, and write this again.

//! The flags of a frame that this version knows.

use enumset::{EnumSetType, EnumSetTypeWithRepr};

/// A flag of version 1. Bits 3 to 7 are reserved for later versions.
#[derive(Clone, Copy, PartialEq, Eq, Debug)]
pub enum Flag {
    Urgent,
    WantsReceipt,
    Relayed,
}

impl EnumSetType for Flag {
    ghost use Rattle.std.specs.Prelude.{◌∷◌, []};
    ghost use Rattle.enumset.specs.Sets.{in_place, lawful_in_integer, lawful_in_place};
    ghost use Rattle.example_headers.specs.contracts.flag.Flag.{the_type};
    ghost use Rattle.example_headers.specs.declared.flag.Flag.TheVariants as variant;

    type Repr = u8;

    ghost elements = { in_place the_type };

    ghost values = { variant.Urgent ∷ variant.WantsReceipt ∷ variant.Relayed ∷ [] };

    ghost ALL_BITS = { 7 };

    const ALL_BITS: u8 = 0x7;

    ghost BIT_WIDTH = { 3 };

    const BIT_WIDTH: u32 = 3;

    ghost VARIANT_COUNT = { 3 };

    const VARIANT_COUNT: u32 = 3;

    fn enum_into_u32(self) -> u32 {
        self as u32
    }

    fn enum_from_u32(val: u32) -> Self {
        match val {
            0 => Self::Urgent,
            1 => Self::WantsReceipt,
            2 => Self::Relayed,
            _ => unreachable!(),
        }
    }

    ghost lawful = { lawful_in_place the_type (lawful_in_integer the_type _ tt) };
}

impl EnumSetTypeWithRepr for Flag {
    ghost use Rattle.std.proofs.Common.{rules};

    ghost narrow = { Prim.search rules };
}

/// The name of the variant.
impl std::fmt::Display for Flag {
    ghost use Rattle.std.specs.Prelude.{Some, ◌∷◌, [], codes};
    ghost use Rattle.std.specs.List.{slice_index_or};
    ghost use denote.Enum.Declared.{tag_of};
    ghost use Rattle.example_headers.specs.contracts.flag.Flag.{the_type};

    ghost output = { λ v. Some (slice_index_or
        (codes "Urgent" ∷ codes "WantsReceipt" ∷ codes "Relayed" ∷ [])
        (tag_of the_type v) []) };

    fn fmt<W: std::fmt::Write>(&self, f: &mut std::fmt::Formatter<W>) -> std::fmt::Result {
        match self {
            Self::Urgent => f.write_str("Urgent"),
            Self::WantsReceipt => f.write_str("WantsReceipt"),
            Self::Relayed => f.write_str("Relayed"),
        }
    }
}
