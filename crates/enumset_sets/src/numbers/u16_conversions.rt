//! Sets to and from `u16`.

ghost use Rattle.std.specs.Prelude.{◌≡◌, ◌<◌, ◌↔◌, IsTrue, IsSome, IfSome};
ghost use Rattle.enumset_repr.specs.BitSet as set;
ghost use Rattle.enumset_repr.specs.Number.{bits, number};
ghost use Rattle.enumset_sets.specs.Elements.{valid_bits};

use crate::element::EnumSetType;
use crate::enum_set::EnumSet;
use crate::numbers::learn_fits;
use enumset_repr::EnumSetTypeRepr;

#[tactic(auto, using(crate::specs::Laws::Conversions::conversions))]
impl<T: EnumSetType> EnumSet<T> {
    /// Returns the number whose bits are the members. Every member must be below 16, which always holds if the
    /// representation has no more bits. [`try_as_u16`](EnumSet::try_as_u16) tests this. Rust's call panics instead.
    pub fn as_u16(&self) -> u16
        requires fits { u16.BITS < T.Repr.WIDTH
            → IsTrue (set.is_subset self.now (set.below u16.BITS)) }
        ensures { result ≡ number self.now }
    {
        learn_fits(self, u16::BITS);
        self.as_u16_truncated()
    }

    /// Returns the number whose bits are the members, if every member is below 16, else `None`.
    pub fn try_as_u16(&self) -> Option<u16>
        ensures fits { IsSome result ↔ IsTrue (set.is_subset self.now (set.below u16.BITS)) }
        ensures value { IfSome result (λ n. n ≡ number self.now) }
    {
        self.repr.try_to_u16()
    }

    /// Returns the number whose bits are the members below 16.
    pub fn as_u16_truncated(&self) -> u16
        ensures { result ≡ number (set.low self.now u16.BITS) }
    {
        self.repr.to_u16()
    }

    /// Returns the set with the bits of a number. Every bit must be valid: it must be the bit of a variant.
    /// [`try_from_u16`](EnumSet::try_from_u16) tests this. Rust's call panics instead.
    pub fn from_u16(value: u16) -> EnumSet<T>
        requires valid { IsTrue (set.is_subset (bits value) (valid_bits T.elements)) }
        ensures { result ≡ bits value }
    {
        Self::from_u128(value as u128)
    }

    /// Returns the set with the bits of a number, if every bit is valid (the bit of a variant), else `None`.
    pub fn try_from_u16(value: u16) -> Option<EnumSet<T>>
        ensures valid { IsSome result
            ↔ IsTrue (set.is_subset (bits value) (valid_bits T.elements)) }
        ensures value { IfSome result (λ s. s ≡ bits value) }
    {
        Self::try_from_u128(value as u128)
    }

    /// Returns the set with the valid bits of a number, those that variants have.
    pub fn from_u16_truncated(value: u16) -> EnumSet<T>
        ensures { result ≡ set.intersection (bits value) (valid_bits T.elements) }
    {
        Self::from_u128_truncated(value as u128)
    }

    /// Returns the set with the bits of a number. Every bit must be valid, as for [`from_u16`](EnumSet::from_u16).
    /// Rust's call is unsafe.
    pub fn from_u16_unchecked(value: u16) -> EnumSet<T>
        requires valid { IsTrue (set.is_subset (bits value) (valid_bits T.elements)) }
        ensures { result ≡ bits value }
    {
        Self::from_u16(value)
    }
}
