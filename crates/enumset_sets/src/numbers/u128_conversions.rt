//! Sets to and from `u128`.

ghost use Rattle.std.specs.Prelude.{◌≡◌, ◌<◌, ◌↔◌, IsTrue, IsSome, IfSome};
ghost use Rattle.enumset_repr.specs.BitSet as set;
ghost use Rattle.enumset_repr.specs.Number.{bits, number};
ghost use Rattle.enumset_sets.specs.Elements.{valid_bits};

use crate::element::EnumSetType;
use crate::enum_set::EnumSet;
use crate::numbers::learn_fits;
use crate::raw::{exact, validated_low};
use enumset_repr::EnumSetTypeRepr;

#[tactic(auto, using(crate::specs::Laws::Conversions::conversions))]
impl<T: EnumSetType> EnumSet<T> {
    /// Returns the number whose bits are the members. Every member must be below 128, which always holds if the
    /// representation has no more bits. [`try_as_u128`](EnumSet::try_as_u128) tests this. Rust's call panics instead.
    pub fn as_u128(&self) -> u128
        requires fits { u128.BITS < T.Repr.WIDTH
            → IsTrue (set.is_subset self.now (set.below u128.BITS)) }
        ensures { result ≡ number self.now }
    {
        learn_fits(self, u128::BITS);
        self.as_u128_truncated()
    }

    /// Returns the number whose bits are the members, if every member is below 128, else `None`.
    pub fn try_as_u128(&self) -> Option<u128>
        ensures fits { IsSome result ↔ IsTrue (set.is_subset self.now (set.below u128.BITS)) }
        ensures value { IfSome result (λ n. n ≡ number self.now) }
    {
        self.repr.try_to_u128()
    }

    /// Returns the number whose bits are the members below 128.
    pub fn as_u128_truncated(&self) -> u128
        ensures { result ≡ number (set.low self.now u128.BITS) }
    {
        self.repr.to_u128()
    }

    /// Returns the set with the bits of a number. Every bit must be valid: it must be the bit of a variant.
    /// [`try_from_u128`](EnumSet::try_from_u128) tests this. Rust's call panics instead.
    pub fn from_u128(value: u128) -> EnumSet<T>
        requires valid { IsTrue (set.is_subset (bits value) (valid_bits T.elements)) }
        ensures { result ≡ bits value }
    {
        exact(T::Repr::from_u128(value))
    }

    /// Returns the set with the bits of a number, if every bit is valid (the bit of a variant), else `None`.
    #[tactic(auto, using(enumset_repr::specs::Laws::Algebra::is_subset_trans))]
    pub fn try_from_u128(value: u128) -> Option<EnumSet<T>>
        ensures valid { IsSome result
            ↔ IsTrue (set.is_subset (bits value) (valid_bits T.elements)) }
        ensures value { IfSome result (λ s. s ≡ bits value) }
    {
        validated_low(T::Repr::try_from_u128(value))
    }

    /// Returns the set with the valid bits of a number, those that variants have.
    pub fn from_u128_truncated(value: u128) -> EnumSet<T>
        ensures { result ≡ set.intersection (bits value) (valid_bits T.elements) }
    {
        Self::from_u128(value & Self::all().as_u128_truncated())
    }

    /// Returns the set with the bits of a number. Every bit must be valid, as for [`from_u128`](EnumSet::from_u128).
    /// Rust's call is unsafe.
    pub fn from_u128_unchecked(value: u128) -> EnumSet<T>
        requires valid { IsTrue (set.is_subset (bits value) (valid_bits T.elements)) }
        ensures { result ≡ bits value }
    {
        Self::from_u128(value)
    }
}
