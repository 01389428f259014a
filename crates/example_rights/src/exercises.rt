//! Solutions of the exercises on proofs.

ghost use Rattle.std.specs.Prelude.{◌≡◌, IfSome, IfNone, Some, option_map};
ghost use Rattle.enumset.specs.Sets as set;
ghost use Rattle.example_rights.specs.Right.{bit};

use crate::rights::Right;
use enumset::{EnumSet, EnumSetType};

/// Takes out the first of the granted rights.
pub fn take_first(granted: &mut EnumSet<Right>) -> Option<Right>
    ensures which { option_map bit result ≡ set.least granted.old }
    ensures taken { IfSome result (λ right. granted.new ≡ set.remove granted.old (bit right)) }
    ensures none { IfNone result (granted.new ≡ granted.old) }
{
    granted.pop_first()
}

/// The granted rights without the revoked ones, which are removed one by one.
pub fn not_revoked<T: EnumSetType>(granted: EnumSet<T>, revoked: &EnumSet<T>) -> EnumSet<T>
    ensures { result ≡ set.difference granted revoked.now }
{
    let mut left = granted;
    for right in revoked.iter() {
        left.remove(right);
    }
    left
}

/// All rights of two sets, and those that both have.
pub fn either_and_both(
    one: EnumSet<Right>,
    other: EnumSet<Right>,
) -> (EnumSet<Right>, EnumSet<Right>)
    ensures { result ≡ (set.union other one, set.intersection other one) }
{
    (one | other, one & other)
}

/// The same two sets, each stated by a clause of its own.
pub fn either_then_both(
    one: EnumSet<Right>,
    other: EnumSet<Right>,
) -> (EnumSet<Right>, EnumSet<Right>)
    ensures either { result.0 ≡ set.union other one }
    ensures both { result.1 ≡ set.intersection other one }
{
    (one | other, one & other)
}
