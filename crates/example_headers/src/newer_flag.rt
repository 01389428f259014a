// Written by enumset_derive example_headers newer_flag from NewerFlag: change the source, and write this again.

//! The flags of a frame that version 2 knows.

use enumset::{EnumSetType, EnumSetTypeWithRepr};

/// A flag of version 2: the flags of version 1, on the same bits, and two more.
#[derive(Clone, Copy, PartialEq, Eq, Debug)]
pub enum NewerFlag {
    Urgent,
    WantsReceipt,
    Relayed,
    Encrypted,
    Traced = 6,
}

impl EnumSetType for NewerFlag {
    ghost use Rattle.std.specs.Prelude.{◌∷◌, []};
    ghost use Rattle.enumset.specs.Sets.{with_bits, lawful_in_integer};
    ghost use Rattle.example_headers.specs.contracts.newer_flag.NewerFlag.{the_type};
    ghost use Rattle.example_headers.specs.declared.newer_flag.NewerFlag.TheVariants as variant;

    type Repr = u8;

    ghost elements = { with_bits the_type (0 ∷ 1 ∷ 2 ∷ 3 ∷ 6 ∷ []) };

    ghost values = { variant.Urgent ∷ variant.WantsReceipt ∷ variant.Relayed ∷
        variant.Encrypted ∷ variant.Traced ∷ [] };

    ghost ALL_BITS = { 79 };

    const ALL_BITS: u8 = 0x4F;

    ghost BIT_WIDTH = { 7 };

    const BIT_WIDTH: u32 = 7;

    ghost VARIANT_COUNT = { 5 };

    const VARIANT_COUNT: u32 = 5;

    fn enum_into_u32(self) -> u32 {
        self as u32
    }

    fn enum_from_u32(val: u32) -> Self {
        match val {
            0 => Self::Urgent,
            1 => Self::WantsReceipt,
            2 => Self::Relayed,
            3 => Self::Encrypted,
            6 => Self::Traced,
            _ => unreachable!(),
        }
    }

    ghost lawful = { lawful_in_integer the_type _ tt };
}

impl EnumSetTypeWithRepr for NewerFlag {
    ghost use Rattle.std.proofs.Common.{rules};

    ghost narrow = { Prim.search rules };
}

/// The name of the variant.
impl std::fmt::Display for NewerFlag {
    ghost use Rattle.std.specs.Prelude.{Some, ◌∷◌, [], codes};
    ghost use Rattle.std.specs.List.{slice_index_or};
    ghost use denote.Enum.Declared.{tag_of};
    ghost use Rattle.example_headers.specs.contracts.newer_flag.NewerFlag.{the_type};

    ghost output = { λ v. Some (slice_index_or
        (codes "Urgent" ∷ codes "WantsReceipt" ∷ codes "Relayed" ∷ codes "Encrypted" ∷
        codes "Traced" ∷ [])
        (tag_of the_type v) []) };

    fn fmt<W: std::fmt::Write>(&self, f: &mut std::fmt::Formatter<W>) -> std::fmt::Result {
        match self {
            Self::Urgent => f.write_str("Urgent"),
            Self::WantsReceipt => f.write_str("WantsReceipt"),
            Self::Relayed => f.write_str("Relayed"),
            Self::Encrypted => f.write_str("Encrypted"),
            Self::Traced => f.write_str("Traced"),
        }
    }
}
