// Written by enumset_derive enumset_worked wide from Wide: change the source, and write this again.

//! The worked type `wide`.

use enumset_array::ArrayRepr;
use enumset_sets::EnumSetType;

/// Three variants, on bits 3, 64 and 130, each in a word of its own.
#[derive(Clone, Copy, PartialEq, Eq, Debug, PartialOrd, Ord, Hash)]
pub enum Wide {
    P = 3,
    Q = 64,
    R = 130,
}

impl EnumSetType for Wide {
    ghost use Rattle.std.specs.Prelude.{◌∷◌, []};
    ghost use Rattle.enumset_sets.specs.Sets.{with_bits, lawful_in_words};
    ghost use Rattle.enumset_worked.specs.contracts.wide.Wide.{the_type};
    ghost use Rattle.enumset_worked.specs.declared.wide.Wide.TheVariants as variant;

    type Repr = ArrayRepr<3>;

    ghost elements = { with_bits the_type (3 ∷ 64 ∷ 130 ∷ []) };

    ghost values = { variant.P ∷ variant.Q ∷ variant.R ∷ [] };

    ghost ALL_BITS = { 8 ∷ 1 ∷ 4 ∷ [] };

    const ALL_BITS: ArrayRepr<3> = ArrayRepr([0x8, 0x1, 0x4]);

    ghost BIT_WIDTH = { 131 };

    const BIT_WIDTH: u32 = 131;

    ghost VARIANT_COUNT = { 3 };

    const VARIANT_COUNT: u32 = 3;

    fn enum_into_u32(self) -> u32 {
        self as u32
    }

    fn enum_from_u32(val: u32) -> Self {
        match val {
            3 => Self::P,
            64 => Self::Q,
            130 => Self::R,
            _ => unreachable!(),
        }
    }

    ghost lawful = { lawful_in_words the_type _ tt };
}

/// The name of the variant.
impl std::fmt::Display for Wide {
    ghost use Rattle.std.specs.Prelude.{Some, ◌∷◌, [], codes};
    ghost use Rattle.std.specs.List.{slice_index_or};
    ghost use denote.Enum.Declared.{tag_of};
    ghost use Rattle.enumset_worked.specs.contracts.wide.Wide.{the_type};

    ghost output = { λ v. Some (slice_index_or
        (codes "P" ∷ codes "Q" ∷ codes "R" ∷ [])
        (tag_of the_type v) []) };

    fn fmt<W: std::fmt::Write>(&self, f: &mut std::fmt::Formatter<W>) -> std::fmt::Result {
        match self {
            Self::P => f.write_str("P"),
            Self::Q => f.write_str("Q"),
            Self::R => f.write_str("R"),
        }
    }
}
