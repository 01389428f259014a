// Written by enumset_derive enumset_worked masks from Masks: change the source, and write this again.

//! The worked type `masks`.

use enumset_sets::{EnumSetType, EnumSetTypeWithRepr};

/// Three variants, on bits 0, 4 and 6: each discriminant is the mask of its bit.
#[derive(Clone, Copy, PartialEq, Eq, Debug, PartialOrd, Ord, Hash)]
pub enum Masks {
    P = 1,
    Q = 16,
    R = 64,
}

impl EnumSetType for Masks {
    ghost use Rattle.std.specs.Prelude.{◌∷◌, []};
    ghost use Rattle.enumset_sets.specs.Sets.{with_bits, lawful_in_integer};
    ghost use Rattle.enumset_worked.specs.contracts.masks.Masks.{the_type};
    ghost use Rattle.enumset_worked.specs.declared.masks.Masks.TheVariants as variant;

    type Repr = u8;

    ghost elements = { with_bits the_type (0 ∷ 4 ∷ 6 ∷ []) };

    ghost values = { variant.P ∷ variant.Q ∷ variant.R ∷ [] };

    ghost ALL_BITS = { 81 };

    const ALL_BITS: u8 = 0x51;

    ghost BIT_WIDTH = { 7 };

    const BIT_WIDTH: u32 = 7;

    ghost VARIANT_COUNT = { 3 };

    const VARIANT_COUNT: u32 = 3;

    fn enum_into_u32(self) -> u32 {
        match self {
            Self::P => 0,
            Self::Q => 4,
            Self::R => 6,
        }
    }

    fn enum_from_u32(val: u32) -> Self {
        match val {
            0 => Self::P,
            4 => Self::Q,
            6 => Self::R,
            _ => unreachable!(),
        }
    }

    ghost lawful = { lawful_in_integer the_type _ tt };
}

impl EnumSetTypeWithRepr for Masks {
    ghost use Rattle.std.proofs.Common.{rules};

    ghost narrow = { Prim.search rules };
}

/// The name of the variant.
impl std::fmt::Display for Masks {
    ghost use Rattle.std.specs.Prelude.{Some, ◌∷◌, [], codes};
    ghost use Rattle.std.specs.List.{slice_index_or};
    ghost use denote.Enum.Declared.{tag_of};
    ghost use Rattle.enumset_worked.specs.contracts.masks.Masks.{the_type};

    ghost output = { λ v. Some (slice_index_or
        (codes "P" ∷ codes "Q" ∷ codes "R" ∷ [])
        (tag_of the_type v) []) };

    fn fmt<W: std::fmt::Write>(&self, f: &mut std::fmt::Formatter<W>) -> std::fmt::Result {
        match self {
            Self::P => f.write_str("P"),
            Self::Q => f.write_str("Q"),
            Self::R => f.write_str("R"),
        }
    }
}
