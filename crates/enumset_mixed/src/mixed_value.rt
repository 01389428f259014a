//! The items of the iterator over a mixed set.

ghost use Rattle.std.specs.Prelude.{◌≡◌};
ghost use Rattle.enumset_repr.specs.BitSet.{contains};
ghost use Rattle.enumset_mixed.specs.Mixed.{bit_with_validity};
ghost use Rattle.enumset_sets.specs.Elements.{valid_bits};

use enumset_sets::{EnumSet, EnumSetType};
use std::fmt;

/// A member of a mixed set: an element, or a bit that no variant has.
///
/// The enum mirrors `MixedValue` of Rust's `enumset`. Every `Valid` is less than every `Invalid`, whatever their bits,
/// while an iterator yields both kinds ascending by bit.
#[derive(Clone, Copy, PartialEq, Eq, PartialOrd, Ord, Hash)]
pub enum MixedValue<T: EnumSetType> {
    /// The element of a valid bit.
    Valid(T),
    /// An unknown bit, which no variant has.
    Invalid(u32),
}

/// `{:?}` writes the `{:?}` text of the element, or the number of the bit in brackets, such as `[3]`. No contract says
/// so; tests do.
impl<T: EnumSetType + fmt::Debug> fmt::Debug for MixedValue<T> {
    fn fmt<W: fmt::Write>(&self, f: &mut fmt::Formatter<W>) -> fmt::Result {
        match self {
            MixedValue::Valid(value) => value.fmt(f),
            MixedValue::Invalid(bit) => write!(f, "[{}]", bit),
        }
    }
}

/// Returns the member with a bit: `Valid` of its element if the bit is valid, else `Invalid` of the bit.
pub(crate) fn value_of<T: EnumSetType>(bit: u32) -> MixedValue<T>
    ensures { bit_with_validity T.elements.bit result
        ≡ (bit, contains (valid_bits T.elements) bit) }
{
    if EnumSet::<T>::is_bit_valid(bit) {
        MixedValue::Valid(T::enum_from_u32(bit))
    } else {
        MixedValue::Invalid(bit)
    }
}
