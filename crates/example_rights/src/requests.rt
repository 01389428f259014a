//! Requests for rights.

ghost use Rattle.std.specs.Prelude.{◌≡◌, ◌<◌, ◌≤◌, ℕ, true, nat_le, IfSome, IfNone};
ghost use Rattle.std.specs.List.{list_all};
ghost use Rattle.enumset.specs.Sets as set;

use crate::rights::Right;
use enumset::{EnumSet, EnumSetType};

/// Whether all requested rights are granted.
pub fn may(granted: EnumSet<Right>, requested: EnumSet<Right>) -> bool
    ensures { result ≡ set.is_subset requested granted }
{
    granted.is_superset(requested)
}

/// Whether none of the granted rights is requested.
pub fn is_none_requested(granted: &EnumSet<Right>, requested: &EnumSet<Right>) -> bool
    ensures { result ≡ set.is_disjoint granted.now requested.now }
{
    !granted.iter().any(|right| requested.contains(right))
}

/// How many of the granted rights are requested and licensed.
// `decided`: a count by two sets.
#[tactic(auto, using(enumset::specs::Sets::decided))]
pub fn usable_count(
    granted: EnumSet<Right>,
    requested: EnumSet<Right>,
    licensed: EnumSet<Right>,
) -> usize
    ensures { result ≡ set.len (set.intersection (set.intersection granted requested) licensed) }
{
    granted
        .iter()
        .filter(|right| requested.contains(*right) && licensed.contains(*right))
        .count()
}

/// The first of the rights that are requested and not granted.
pub fn first_missing<T: EnumSetType>(granted: &EnumSet<T>, requested: &EnumSet<T>) -> Option<T>
    ensures missing { IfSome result (λ right.
        set.contains (set.difference requested.now granted.now) (T.elements.bit right) ≡ true) }
    ensures least { IfSome result (λ right. (q : ℕ)
        → set.contains (set.difference requested.now granted.now) q ≡ true → T.elements.bit right ≤ q) }
    ensures none { IfNone result (set.difference requested.now granted.now ≡ set.empty) }
{
    requested.difference(granted.copied()).first()
}

/// The first of the granted rights past a limit.
pub fn first_past<T: EnumSetType>(granted: &EnumSet<T>, limit: u32) -> Option<T>
    ensures granted { IfSome result (λ right. set.contains granted.now (T.elements.bit right) ≡ true) }
    ensures past { IfSome result (λ right. limit < T.elements.bit right) }
    ensures least { IfSome result (λ right. (q : ℕ) → set.contains granted.now q ≡ true
        → limit < q → T.elements.bit right ≤ q) }
    ensures none { IfNone result ((q : ℕ) → set.contains granted.now q ≡ true → q ≤ limit) }
{
    granted
        .iter()
        .find(|right| EnumSet::bit_index(*right) > limit)
}

/// Whether no granted right is past a limit.
pub fn is_none_past<T: EnumSetType>(granted: &EnumSet<T>, limit: u32) -> bool
    ensures { result ≡ list_all (λ q. nat_le q limit) (set.ascending granted.now) }
{
    granted
        .iter()
        .all(|right| EnumSet::bit_index(right) <= limit)
}
