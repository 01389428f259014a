//! Comparisons of two values of a representation, as tests of the sets that they represent.

ghost use Rattle.std.specs.Prelude.{◌≡◌};
ghost use Rattle.enumset_repr.specs.BitSet as set;
ghost use Rattle.enumset_repr.specs.Order.{compare};

use crate::repr::EnumSetTypeRepr;
use std::cmp::Ordering;

/// Returns whether the two values represent the same set. Rust's `enumset` writes `==`.
#[tactic(auto, using(crate::specs::Laws::Members::is_same_iff))]
pub fn are_same<R: EnumSetTypeRepr>(a: &R, b: &R) -> bool
    ensures { result ≡ set.is_same (R.members a.now) (R.members b.now) }
{
    // The laws of `==` and of the order hold only for values of the type.
    a.learn_is_value();
    b.learn_is_value();
    a.eq(b)
}

/// Returns how the sets of the two values compare. Sets are ordered by the greatest number that is in exactly one of
/// them: the set that has it is the greater. Rust's `enumset` writes `cmp`.
pub fn order_of<R: EnumSetTypeRepr>(a: &R, b: &R) -> Ordering
    ensures { result ≡ compare (R.members a.now) (R.members b.now) }
{
    // The laws of `==` and of the order hold only for values of the type.
    a.learn_is_value();
    b.learn_is_value();
    a.cmp(b)
}
