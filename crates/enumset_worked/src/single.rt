// Written by enumset_derive enumset_worked single from Single: change the source, and write this again.

//! The worked type `single`.

use enumset_sets::{EnumSetType, EnumSetTypeWithRepr};

/// One variant, on bit 0.
#[derive(Clone, Copy, PartialEq, Eq, Debug, PartialOrd, Ord, Hash)]
pub enum Single {
    A,
}

impl EnumSetType for Single {
    ghost use Rattle.std.specs.Prelude.{◌∷◌, []};
    ghost use Rattle.enumset_sets.specs.Sets.{in_place, lawful_in_integer, lawful_in_place};
    ghost use Rattle.enumset_worked.specs.contracts.single.Single.{the_type};
    ghost use Rattle.enumset_worked.specs.declared.single.Single.TheVariants as variant;

    type Repr = u8;

    ghost elements = { in_place the_type };

    ghost values = { variant.A ∷ [] };

    ghost ALL_BITS = { 1 };

    const ALL_BITS: u8 = 0x1;

    ghost BIT_WIDTH = { 1 };

    const BIT_WIDTH: u32 = 1;

    ghost VARIANT_COUNT = { 1 };

    const VARIANT_COUNT: u32 = 1;

    fn enum_into_u32(self) -> u32 {
        self as u32
    }

    fn enum_from_u32(val: u32) -> Self {
        match val {
            0 => Self::A,
            _ => unreachable!(),
        }
    }

    ghost lawful = { lawful_in_place the_type (lawful_in_integer the_type _ tt) };
}

impl EnumSetTypeWithRepr for Single {
    ghost use Rattle.std.proofs.Common.{rules};

    ghost narrow = { Prim.search rules };
}

/// The name of the variant.
impl std::fmt::Display for Single {
    ghost use Rattle.std.specs.Prelude.{Some, ◌∷◌, [], codes};
    ghost use Rattle.std.specs.List.{slice_index_or};
    ghost use denote.Enum.Declared.{tag_of};
    ghost use Rattle.enumset_worked.specs.contracts.single.Single.{the_type};

    ghost output = { λ v. Some (slice_index_or
        (codes "A" ∷ [])
        (tag_of the_type v) []) };

    fn fmt<W: std::fmt::Write>(&self, f: &mut std::fmt::Formatter<W>) -> std::fmt::Result {
        match self {
            Self::A => f.write_str("A"),
        }
    }
}
