//! Sets to and from `u32`.

ghost use Rattle.std.specs.Prelude.{◌≡◌, ◌<◌, ◌↔◌, IsTrue, IsSome, IfSome};
ghost use Rattle.enumset_repr.specs.BitSet as set;
ghost use Rattle.enumset_repr.specs.Number.{bits, number};
ghost use Rattle.enumset_sets.specs.Elements.{valid_bits};

use crate::element::EnumSetType;
use crate::enum_set::EnumSet;
use crate::numbers::learn_fits;
use enumset_repr::EnumSetTypeRepr;

#[tactic(auto, using(crate::specs::Laws::Conversions::conversions))]
impl<T: EnumSetType> EnumSet<T> {
    /// Returns the number whose bits are the members. Every member must be below 32, which always holds if the
    /// representation has no more bits. [`try_as_u32`](EnumSet::try_as_u32) tests this. Rust's call panics instead.
    pub fn as_u32(&self) -> u32
        requires fits { u32.BITS < T.Repr.WIDTH
            → IsTrue (set.is_subset self.now (set.below u32.BITS)) }
        ensures { result ≡ number self.now }
    {
        learn_fits(self, u32::BITS);
        self.as_u32_truncated()
    }

    /// Returns the number whose bits are the members, if every member is below 32, else `None`.
    pub fn try_as_u32(&self) -> Option<u32>
        ensures fits { IsSome result ↔ IsTrue (set.is_subset self.now (set.below u32.BITS)) }
        ensures value { IfSome result (λ n. n ≡ number self.now) }
    {
        self.repr.try_to_u32()
    }

    /// Returns the number whose bits are the members below 32.
    pub fn as_u32_truncated(&self) -> u32
        ensures { result ≡ number (set.low self.now u32.BITS) }
    {
        self.repr.to_u32()
    }

    /// Returns the set with the bits of a number. Every bit must be valid: it must be the bit of a variant.
    /// [`try_from_u32`](EnumSet::try_from_u32) tests this. Rust's call panics instead.
    pub fn from_u32(value: u32) -> EnumSet<T>
        requires valid { IsTrue (set.is_subset (bits value) (valid_bits T.elements)) }
        ensures { result ≡ bits value }
    {
        Self::from_u128(value as u128)
    }

    /// Returns the set with the bits of a number, if every bit is valid (the bit of a variant), else `None`.
    pub fn try_from_u32(value: u32) -> Option<EnumSet<T>>
        ensures valid { IsSome result
            ↔ IsTrue (set.is_subset (bits value) (valid_bits T.elements)) }
        ensures value { IfSome result (λ s. s ≡ bits value) }
    {
        Self::try_from_u128(value as u128)
    }

    /// Returns the set with the valid bits of a number, those that variants have.
    pub fn from_u32_truncated(value: u32) -> EnumSet<T>
        ensures { result ≡ set.intersection (bits value) (valid_bits T.elements) }
    {
        Self::from_u128_truncated(value as u128)
    }

    /// Returns the set with the bits of a number. Every bit must be valid, as for [`from_u32`](EnumSet::from_u32).
    /// Rust's call is unsafe.
    pub fn from_u32_unchecked(value: u32) -> EnumSet<T>
        requires valid { IsTrue (set.is_subset (bits value) (valid_bits T.elements)) }
        ensures { result ≡ bits value }
    {
        Self::from_u32(value)
    }
}
