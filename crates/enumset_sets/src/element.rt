//! The trait of element types.

ghost use Rattle.std.specs.Prelude.{◌≡◌, ℕ, IsTrue, List, []};
ghost use Rattle.enumset_repr.specs.BitSet.{is_in};
ghost use Rattle.enumset_sets.specs.Elements.{Elements, IsElementType};

use enumset_repr::EnumSetTypeRepr;

/// An enum whose variants are the elements of an `EnumSet`. Each variant has a bit of its own.
///
/// The trait mirrors `EnumSetType` and `EnumSetTypePrivate` of Rust's `enumset`. There a derive implements them; here
/// the program `enumset_derive` or an author writes the `impl`, and its laws are proved.
pub trait EnumSetType: Copy + Eq {
    /// The representation of the sets of these elements.
    type Repr: EnumSetTypeRepr;

    // The bit of each value, and the list of the valid bits, one for each variant.
    ghost elements: { Elements Self };

    // The values, in any order. If the values are listed and their texts are known, contracts know the texts of sets.
    // Without the list they only know the text of the empty set.
    ghost values: { List Self } = { [] };

    ghost ALL_BITS: { Self.Repr };

    /// The value that represents the set of the valid bits.
    const ALL_BITS: Self::Repr;

    ghost BIT_WIDTH: { ℕ };

    /// One past the greatest valid bit, or 0 if no bit is valid.
    const BIT_WIDTH: u32;

    ghost VARIANT_COUNT: { ℕ };

    /// The number of valid bits.
    const VARIANT_COUNT: u32;

    /// Returns the bit of the value.
    fn enum_into_u32(self) -> u32
        ensures { result ≡ elements.bit self };

    /// Returns the value that has a bit. The bit must be valid. [`EnumSet::is_bit_valid`](crate::EnumSet::is_bit_valid)
    /// tests this.
    fn enum_from_u32(val: u32) -> Self
        requires { IsTrue (is_in val elements.bit_list) }
        ensures { elements.bit result ≡ val };

    // The laws, which `specs/Elements.antt` lists.
    ghost lawful: { IsElementType elements Self.PartialEq.eq
        (Self.Repr.members ALL_BITS) BIT_WIDTH VARIANT_COUNT };
}
