//! An enum whose sets are kept in seven bits.

ghost use Rattle.std.specs.Prelude.{◌≡◌};
ghost use Rattle.enumset_repr.specs.BitSet as set;
ghost use Rattle.enumset_sets.specs.Elements.{valid_bits};

use crate::Low7;
use enumset_sets::{EnumSet, EnumSetType};

/// A bar of a digit on a display, on bit 0, 3 or 6.
#[derive(Clone, Copy, Debug, PartialEq, Eq)]
pub enum Segment {
    Top = 0,
    Middle = 3,
    Bottom = 6,
}

impl EnumSetType for Segment {
    ghost use Rattle.std.specs.Prelude.{◌∷◌, [], refl};
    ghost use Rattle.enumset_repr.specs.Laws.BitLists.{bits_listed};
    ghost use Rattle.enumset_sets.specs.Laws.Elements.{with_bits, lawful_in};
    ghost use Rattle.example_seven_bits.specs.contracts.segment.Segment.{the_type};

    type Repr = Low7;

    ghost elements = { with_bits the_type (0 ∷ 3 ∷ 6 ∷ []) };

    ghost ALL_BITS = { 73 };

    const ALL_BITS: Low7 = Low7(73);

    ghost BIT_WIDTH = { 7 };

    const BIT_WIDTH: u32 = 7;

    ghost VARIANT_COUNT = { 3 };

    const VARIANT_COUNT: u32 = 3;

    fn enum_into_u32(self) -> u32 {
        self as u32
    }

    fn enum_from_u32(val: u32) -> Segment {
        match val {
            0 => Segment::Top,
            3 => Segment::Middle,
            6 => Segment::Bottom,
            _ => unreachable!(),
        }
    }

    ghost lawful = { lawful_in the_type (bits_listed (0 ∷ 3 ∷ 6 ∷ []) 73 refl) tt };
}

/// The bars that are dark.
pub fn dark(lit: EnumSet<Segment>) -> EnumSet<Segment>
    ensures { result ≡ set.difference (valid_bits ⟦<Segment as EnumSetType>⟧.elements) lit }
{
    !lit
}
