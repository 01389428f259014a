// Written by enumset_derive enumset_worked sparse from Sparse: change the source, and write this again.

//! The worked type `sparse`.

use enumset_sets::{EnumSetType, EnumSetTypeWithRepr};

/// Four variants, on bits 10, 20, 30 and 127.
#[derive(Clone, Copy, PartialEq, Eq, Debug, PartialOrd, Ord, Hash)]
pub enum Sparse {
    A = 10,
    B = 20,
    C = 30,
    D = 127,
}

impl EnumSetType for Sparse {
    ghost use Rattle.std.specs.Prelude.{◌∷◌, []};
    ghost use Rattle.enumset_sets.specs.Sets.{with_bits, lawful_in_integer};
    ghost use Rattle.enumset_worked.specs.contracts.sparse.Sparse.{the_type};
    ghost use Rattle.enumset_worked.specs.declared.sparse.Sparse.TheVariants as variant;

    type Repr = u128;

    ghost elements = { with_bits the_type (10 ∷ 20 ∷ 30 ∷ 127 ∷ []) };

    ghost values = { variant.A ∷ variant.B ∷ variant.C ∷ variant.D ∷ [] };

    ghost ALL_BITS = { 170141183460469231731687303716958897152 };

    const ALL_BITS: u128 = 0x80000000000000000000000040100400;

    ghost BIT_WIDTH = { 128 };

    const BIT_WIDTH: u32 = 128;

    ghost VARIANT_COUNT = { 4 };

    const VARIANT_COUNT: u32 = 4;

    fn enum_into_u32(self) -> u32 {
        self as u32
    }

    fn enum_from_u32(val: u32) -> Self {
        match val {
            10 => Self::A,
            20 => Self::B,
            30 => Self::C,
            127 => Self::D,
            _ => unreachable!(),
        }
    }

    ghost lawful = { lawful_in_integer the_type _ tt };
}

impl EnumSetTypeWithRepr for Sparse {
    ghost use Rattle.std.proofs.Common.{rules};

    ghost narrow = { Prim.search rules };
}

/// The name of the variant.
impl std::fmt::Display for Sparse {
    ghost use Rattle.std.specs.Prelude.{Some, ◌∷◌, [], codes};
    ghost use Rattle.std.specs.List.{slice_index_or};
    ghost use denote.Enum.Declared.{tag_of};
    ghost use Rattle.enumset_worked.specs.contracts.sparse.Sparse.{the_type};

    ghost output = { λ v. Some (slice_index_or
        (codes "A" ∷ codes "B" ∷ codes "C" ∷ codes "D" ∷ [])
        (tag_of the_type v) []) };

    fn fmt<W: std::fmt::Write>(&self, f: &mut std::fmt::Formatter<W>) -> std::fmt::Result {
        match self {
            Self::A => f.write_str("A"),
            Self::B => f.write_str("B"),
            Self::C => f.write_str("C"),
            Self::D => f.write_str("D"),
        }
    }
}
