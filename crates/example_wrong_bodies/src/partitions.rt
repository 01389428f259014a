//! The parts of a set.

ghost use Rattle.std.specs.Prelude.{◌≡◌, true};
ghost use Rattle.enumset.specs.Sets as set;

use enumset::{EnumSet, EnumSetType};

/// A set in three parts: what one has, what only the other has, and the rest.
pub fn in_three<T: EnumSetType>(
    whole: &EnumSet<T>,
    one: &EnumSet<T>,
    other: &EnumSet<T>,
) -> (EnumSet<T>, EnumSet<T>, EnumSet<T>)
    ensures whole { set.union (set.union result.0 result.1) result.2 ≡ whole.now }
    ensures first { set.is_disjoint result.0 (set.union result.1 result.2) ≡ true }
    ensures last { set.is_disjoint result.1 result.2 ≡ true }
    ensures rest { set.is_disjoint result.2 (set.union one.now other.now) ≡ true }
    ensures of_one { result.0 ≡ set.intersection whole.now one.now }
    ensures of_other { result.1 ≡ set.difference (set.intersection whole.now other.now) one.now }
    ensures of_none { result.2 ≡ set.difference whole.now (set.union one.now other.now) }
{
    let first = whole.intersection(one.copied());
    let second = whole.intersection(other.difference(one.copied()));
    let rest = whole.difference(one.union(other.copied()));
    (first, second, rest)
}
