//! Mixed sets to and from the values that represent them, and to and from sets of elements.

ghost use Rattle.std.specs.Prelude.{◌≡◌, ◌↔◌, IsTrue, IsSome, IfSome};
ghost use Rattle.enumset_repr.specs.BitSet as set;
ghost use Rattle.enumset_mixed.specs.Mixed.{valid_members};
ghost use Rattle.enumset_sets.specs.Elements.{valid_bits};

use crate::mixed_enum_set::MixedEnumSet;
use enumset_repr::are_same;
use enumset_sets::{EnumSet, EnumSetTypeWithRepr};

impl<T: EnumSetTypeWithRepr> MixedEnumSet<T> {
    /// Returns the value that represents the set, unknown bits included.
    pub fn as_repr(&self) -> T::Repr
        ensures { T.Repr.members result ≡ self.now }
    {
        self.repr
    }

    /// Returns the set that a value represents, with all bits of the value, valid or unknown.
    pub fn from_repr(repr: T::Repr) -> MixedEnumSet<T>
        ensures { result ≡ T.Repr.members repr }
    {
        Self::of_repr(repr)
    }

    /// Returns the set of the valid bits of a value.
    pub fn from_repr_truncated(repr: T::Repr) -> MixedEnumSet<T>
        ensures { result ≡ valid_members (valid_bits T.elements) (T.Repr.members repr) }
    {
        convert_mixed(EnumSet::from_repr_truncated(repr))
    }

    /// Returns the same set as a set of elements. No member may be an unknown bit, which
    /// [`try_as_enumset`](MixedEnumSet::try_as_enumset) tests. Rust's call panics instead.
    pub fn as_enumset(&self) -> EnumSet<T>
        requires valid { IsTrue (set.is_subset self.now (valid_bits T.elements)) }
        ensures { result ≡ self.now }
    {
        EnumSet::from_repr(self.repr)
    }

    /// Returns the same set as a set of elements, if no member is an unknown bit, else `None`.
    pub fn try_as_enumset(&self) -> Option<EnumSet<T>>
        ensures valid { IsSome result
            ↔ IsTrue (set.is_subset self.now (valid_bits T.elements)) }
        ensures members { IfSome result (λ s. s ≡ self.now) }
    {
        if self.has_unknown_bits() {
            None
        } else {
            Some(EnumSet::from_repr(self.repr))
        }
    }

    /// Returns the set of the members that are valid bits, as a set of elements.
    pub fn as_enumset_truncate(&self) -> EnumSet<T>
        ensures { result ≡ valid_members (valid_bits T.elements) self.now }
    {
        EnumSet::from_repr_truncated(self.repr)
    }

    /// Returns whether the two sets have the same members. Rust's `enumset` writes this as `==` between a mixed set and
    /// a set of elements.
    pub fn eq_enumset(&self, other: EnumSet<T>) -> bool
        ensures { result ≡ set.is_same self.now other }
    {
        are_same(&self.repr, &other.as_repr())
    }

    /// Returns whether the set has this element and no other member, valid or unknown. Rust's `enumset` writes this as
    /// `==` between a set and an element.
    pub fn eq_element(&self, value: T) -> bool
        ensures { result ≡ set.is_same self.now (set.only (T.elements.bit value)) }
    {
        self.eq_enumset(EnumSet::only(value))
    }
}

/// Returns the mixed set of the same elements.
///
/// The function mirrors `convert_mixed` of the helper module `set` of Rust's `enumset`.
pub fn convert_mixed<T: EnumSetTypeWithRepr>(a: EnumSet<T>) -> MixedEnumSet<T>
    ensures { result ≡ a }
{
    MixedEnumSet::of_repr(a.as_repr())
}
