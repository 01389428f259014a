//! Proofs about code over sets.

ghost use Rattle.std.specs.Prelude.{◌≡◌, Some, true, false};
ghost use Rattle.enumset.specs.Sets as set;

use crate::rights::Right;
use enumset::{EnumSet, EnumSetType};

/// Grants a right that is not granted and revokes it again, which changes nothing.
pub fn grant_then_revoke<T: EnumSetType>(granted: &mut EnumSet<T>, right: T)
    requires { set.contains granted.old (T.elements.bit right) ≡ false }
    ensures { granted.new ≡ granted.old }
{
    granted.insert(right);
    granted.remove(right);
}

/// Whether the granted set and its complement are disjoint: always.
pub fn is_apart_from_the_rest<T: EnumSetType>(granted: &EnumSet<T>) -> bool
    ensures { result ≡ true }
{
    granted.is_disjoint(granted.complement())
}

/// A new set, into which the granted rights are inserted one by one.
pub fn rebuilt<T: EnumSetType>(granted: &EnumSet<T>) -> EnumSet<T>
    ensures { result ≡ granted.now }
{
    let mut copy = EnumSet::new();
    for right in granted.iter() {
        copy.insert(right);
    }
    copy
}

/// The rights of either of two sets.
pub fn united(one: EnumSet<Right>, other: EnumSet<Right>) -> Option<EnumSet<Right>>
    ensures { result ≡ Some (set.union other one) }
{
    Some(one | other)
}
