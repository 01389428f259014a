//! Sets to and from the values that represent them, for every element type.
//!
//! [`get`] and [`new`] mirror the functions of the helper module `set` of Rust's `enumset`.

ghost use Rattle.std.specs.Prelude.{◌≡◌, ◌<◌, ◌^◌, ◌↔◌, IsTrue, IsSome, IfSome, MatchOption, None};
ghost use Rattle.enumset_repr.specs.BitSet.{below, intersection, is_subset};
ghost use Rattle.enumset_sets.specs.Elements.{valid_bits};

use crate::element::EnumSetType;
use crate::enum_set::EnumSet;
use enumset_repr::EnumSetTypeRepr;

/// Returns the value that represents a set.
pub fn get<T: EnumSetType>(set: EnumSet<T>) -> T::Repr
    ensures { T.Repr.members result ≡ set }
{
    set.repr
}

/// Returns the set that a value represents. Every bit of the value must be valid: it must be the bit of a variant.
/// `repr.is_subset_of(&get(EnumSet::<T>::all()))` tests this. Rust's call takes any value.
pub fn new<T: EnumSetType>(repr: T::Repr) -> EnumSet<T>
    requires valid { IsTrue (is_subset (T.Repr.members repr) (valid_bits T.elements)) }
    ensures { result ≡ T.Repr.members repr }
{
    EnumSet::of_repr(repr)
}

/// Returns `ALL_BITS`, the value that represents the set of the valid bits of an element type. A proof learns from the
/// call that these bits are below the width.
pub fn valid_repr<T: EnumSetType>() -> T::Repr
    ensures members { T.Repr.members result ≡ valid_bits T.elements }
    ensures is_value { T.Repr.is_value result }
    ensures within { IsTrue (is_subset (valid_bits T.elements) (below T.Repr.WIDTH)) }
{
    let all = T::ALL_BITS;
    // Tells the proof that each member of the value is below the width.
    all.learn_is_value();
    all
}

/// Tells the proof that the valid bits are below the width, which is a `u32`. The call does nothing at run time.
#[inline]
pub(crate) fn learn_valid_bits<T: EnumSetType>()
    ensures within { IsTrue (is_subset (valid_bits T.elements) (below T.Repr.WIDTH)) }
    ensures width { T.Repr.WIDTH < 2 ^ 32 }
{
    let _all = valid_repr::<T>();
    let _width = T::Repr::WIDTH;
}

/// Returns the set that a value represents. Each member must be a valid bit. A proof learns that the valid bits are
/// below the width.
pub(crate) fn exact<T: EnumSetType>(repr: T::Repr) -> EnumSet<T>
    requires { IsTrue (is_subset (T.Repr.members repr) (valid_bits T.elements)) }
    ensures members { result ≡ T.Repr.members repr }
    ensures within { IsTrue (is_subset (valid_bits T.elements) (below T.Repr.WIDTH)) }
{
    learn_valid_bits::<T>();
    EnumSet::of_repr(repr)
}

/// Returns the set of the members of a value that are valid bits. A proof learns that the valid bits are below the
/// width.
pub(crate) fn truncated<T: EnumSetType>(repr: T::Repr) -> EnumSet<T>
    ensures members { result ≡ intersection (T.Repr.members repr) (valid_bits T.elements) }
    ensures within { IsTrue (is_subset (valid_bits T.elements) (below T.Repr.WIDTH)) }
{
    EnumSet::of_repr(repr & valid_repr::<T>())
}

/// Returns the set that a value represents, if each member is a valid bit, else `None`.
pub(crate) fn validated<T: EnumSetType>(repr: T::Repr) -> Option<EnumSet<T>>
    ensures valid { IsSome result
        ↔ IsTrue (is_subset (T.Repr.members repr) (valid_bits T.elements)) }
    ensures members { IfSome result (λ s. s ≡ T.Repr.members repr) }
{
    if repr.is_subset_of(&valid_repr::<T>()) {
        Some(EnumSet::of_repr(repr))
    } else {
        None
    }
}

/// Returns the set that a value represents, if there is a value and each member is a valid bit, else `None`. A proof
/// learns that the valid bits are below the width.
pub(crate) fn validated_low<T: EnumSetType>(taken: Option<T::Repr>) -> Option<EnumSet<T>>
    ensures valid { MatchOption taken (result ≡ None) (λ repr.
        (IsSome result ↔ IsTrue (is_subset (T.Repr.members repr) (valid_bits T.elements)))
        × IfSome result (λ s. s ≡ T.Repr.members repr)) }
    ensures within { IsTrue (is_subset (valid_bits T.elements) (below T.Repr.WIDTH)) }
{
    learn_valid_bits::<T>();
    validated(taken?)
}
