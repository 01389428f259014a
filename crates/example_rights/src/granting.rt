//! Rights that are granted one by one, and all at once.

ghost use Rattle.std.specs.Prelude.{◌≡◌, not, true};
ghost use Rattle.enumset.specs.Sets as set;
ghost use Rattle.example_rights.specs.Right.{bit};

use crate::rights::Right;
use enumset::EnumSet;

/// Grants a right, and returns whether it was missing.
pub fn grant(rights: &mut EnumSet<Right>, right: Right) -> bool
    ensures granted { rights.new ≡ set.insert rights.old (bit right) }
    ensures was_missing { result ≡ not (set.contains rights.old (bit right)) }
{
    rights.insert(right)
}

/// All rights: each of them, on the bits below 3.
pub fn all_granted() -> EnumSet<Right>
    ensures all { result ≡ set.below 3 }
    ensures each { (right : Right) → set.contains result (bit right) ≡ true }
{
    EnumSet::all()
}
