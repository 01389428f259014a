//! Chains of iterators over rights.

ghost use Rattle.std.specs.Prelude.{◌≡◌, not, option_map};
ghost use Rattle.std.specs.List.{find, list_all};
ghost use Rattle.enumset.specs.Sets as set;
ghost use Rattle.enumset.specs.Sets.{valid_bits, intersection_all};

use crate::rights::Right;
use enumset::{EnumSet, EnumSetType};

/// How many rights are granted.
pub fn granted_count<T: EnumSetType>(granted: &EnumSet<T>) -> usize
    ensures { result ≡ set.len granted.now }
{
    granted.iter().count()
}

/// How many of the granted rights are requested.
pub fn requested_count<T: EnumSetType>(granted: &EnumSet<T>, requested: &EnumSet<T>) -> usize
    ensures { result ≡ set.len (set.intersection granted.now requested.now) }
{
    granted
        .iter()
        .filter(|right| requested.contains(*right))
        .count()
}

/// Whether all granted rights are requested.
pub fn are_requested<T: EnumSetType>(granted: &EnumSet<T>, requested: &EnumSet<T>) -> bool
    ensures { result ≡ set.is_subset granted.now requested.now }
{
    granted.iter().all(|right| requested.contains(right))
}

/// Whether one of the granted rights is requested.
pub fn is_one_requested<T: EnumSetType>(granted: &EnumSet<T>, requested: &EnumSet<T>) -> bool
    ensures { result ≡ not (set.is_disjoint granted.now requested.now) }
{
    granted.iter().any(|right| requested.contains(right))
}

/// The first of the granted rights that is requested.
pub fn first_requested<T: EnumSetType>(granted: &EnumSet<T>, requested: &EnumSet<T>) -> Option<T>
    ensures { option_map T.elements.bit result
        ≡ find (set.contains requested.now) (set.ascending granted.now) }
{
    granted.iter().find(|right| requested.contains(*right))
}

/// The rights that all sets have.
pub fn in_each<T: EnumSetType>(sets: &[EnumSet<T>]) -> EnumSet<T>
    ensures { result ≡ intersection_all (valid_bits T.elements) sets.now }
{
    sets.iter()
        .fold(EnumSet::all(), |all, rights| all & rights.copied())
}

/// Whether all sets have a right.
pub fn is_in_each<T: EnumSetType>(sets: &[EnumSet<T>], right: T) -> bool
    ensures { result ≡ list_all (λ s. set.contains s (T.elements.bit right)) sets.now }
{
    sets.iter().all(|rights| rights.contains(right))
}

/// How many of the granted rights are requested or licensed.
// `decided`: a count by two sets.
#[tactic(auto, using(enumset::specs::Sets::decided))]
pub fn useful_count(
    granted: EnumSet<Right>,
    requested: EnumSet<Right>,
    licensed: EnumSet<Right>,
) -> usize
    ensures { result ≡ set.len (set.intersection granted (set.union requested licensed)) }
{
    granted
        .iter()
        .filter(|right| requested.contains(*right) || licensed.contains(*right))
        .count()
}

/// How many of the granted rights are requested and not denied.
// `decided`: a count by two sets.
#[tactic(auto, using(enumset::specs::Sets::decided))]
pub fn permitted_count(
    granted: EnumSet<Right>,
    requested: EnumSet<Right>,
    denied: EnumSet<Right>,
) -> usize
    ensures { result ≡ set.len (set.difference (set.intersection granted requested) denied) }
{
    granted
        .iter()
        .filter(|right| requested.contains(*right) && !denied.contains(*right))
        .count()
}

/// How many of the granted rights are neither requested nor denied.
// `decided`: a count by two sets.
#[tactic(auto, using(enumset::specs::Sets::decided))]
pub fn idle_count(
    granted: EnumSet<Right>,
    requested: EnumSet<Right>,
    denied: EnumSet<Right>,
) -> usize
    ensures { result ≡ set.len (set.difference granted (set.union requested denied)) }
{
    granted
        .iter()
        .filter(|right| !requested.contains(*right) && !denied.contains(*right))
        .count()
}
