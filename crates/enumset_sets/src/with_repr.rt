//! Element types whose representation has at most 128 bits, and the conversions between their sets and its values.

ghost use Rattle.std.specs.Prelude.{◌≡◌, ◌≤◌, ◌↔◌, IsTrue, IsSome, IfSome};
ghost use Rattle.enumset_repr.specs.BitSet as set;
ghost use Rattle.enumset_sets.specs.Elements.{valid_bits};

use crate::element::EnumSetType;
use crate::enum_set::EnumSet;
use crate::raw::{truncated, validated};

/// An element type whose sets each fit a `u128`: its representation has at most 128 bits.
///
/// The trait mirrors `EnumSetTypeWithRepr` of Rust's `enumset`, except that `Repr` is an item of [`EnumSetType`] here,
/// and that Rust's derive implements the trait only for an integer that the option `repr` names.
pub trait EnumSetTypeWithRepr: EnumSetType {
    // The representation has at most 128 bits.
    ghost narrow: { Self.Repr.WIDTH ≤ 128 };
}

impl<T: EnumSetTypeWithRepr> EnumSet<T> {
    /// Returns the value that represents the set.
    pub fn as_repr(&self) -> T::Repr
        ensures { T.Repr.members result ≡ self.now }
    {
        self.repr
    }

    /// Returns the set that a value represents. Every bit of the value must be valid: it must be the bit of a variant.
    /// [`try_from_repr`](EnumSet::try_from_repr) tests this. Rust's call panics instead.
    pub fn from_repr(repr: T::Repr) -> EnumSet<T>
        requires valid { IsTrue (set.is_subset (T.Repr.members repr) (valid_bits T.elements)) }
        ensures { result ≡ T.Repr.members repr }
    {
        Self::of_repr(repr)
    }

    /// Returns the set that a value represents, if every bit of the value is valid (the bit of a variant), else `None`.
    pub fn try_from_repr(repr: T::Repr) -> Option<EnumSet<T>>
        ensures valid { IsSome result
            ↔ IsTrue (set.is_subset (T.Repr.members repr) (valid_bits T.elements)) }
        ensures value { IfSome result (λ s. s ≡ T.Repr.members repr) }
    {
        validated(repr)
    }

    /// Returns the set of the valid bits of a value, those that variants have.
    pub fn from_repr_truncated(repr: T::Repr) -> EnumSet<T>
        ensures { result ≡ set.intersection (T.Repr.members repr) (valid_bits T.elements) }
    {
        truncated(repr)
    }

    /// Returns the set that a value represents. Every bit of the value must be valid, as for
    /// [`from_repr`](EnumSet::from_repr). Rust's call is unsafe.
    pub fn from_repr_unchecked(repr: T::Repr) -> EnumSet<T>
        requires valid { IsTrue (set.is_subset (T.Repr.members repr) (valid_bits T.elements)) }
        ensures { result ≡ T.Repr.members repr }
    {
        Self::from_repr(repr)
    }
}
