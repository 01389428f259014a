//! Slices and vectors of sets.

ghost use Rattle.std.specs.Prelude.{◌≡◌, ◌≤◌, ◌++◌, ◌∷◌, [], true, vec_len, vec_capacity, OnOk, OnErr};
ghost use Rattle.std.specs.List.{list_all, list_any};
ghost use Rattle.std.specs.Ordering.{ord_max};
ghost use Rattle.enumset.specs.Sets as set;
ghost use Rattle.enumset.specs.Sets.{compare, intersection_all, union_all};

use enumset::{EnumSet, EnumSetType};
use std::alloc::AllocError;

/// The elements that at least one of many sets has.
pub fn in_some<T: EnumSetType>(sets: &[EnumSet<T>]) -> EnumSet<T>
    ensures { result ≡ union_all sets.now }
{
    sets.iter().copied().sum()
}

/// Whether some set of many has an element.
pub fn is_in_some<T: EnumSetType>(sets: &[EnumSet<T>], wanted: T) -> bool
    ensures { result ≡ list_any (λ s. set.contains s (T.elements.bit wanted)) sets.now }
{
    in_some(sets).contains(wanted)
}

/// Whether all sets of many are parts of a set.
pub fn are_within<T: EnumSetType>(sets: &[EnumSet<T>], whole: &EnumSet<T>) -> bool
    ensures { result ≡ list_all (λ s. set.is_subset s whole.now) sets.now }
{
    sets.iter().all(|members| members.is_subset_of(whole))
}

/// Adds a set at the end. Memory can be refused only if there is no room left, and then nothing changes.
pub fn add<T: EnumSetType>(sets: &mut Vec<EnumSet<T>>, new: EnumSet<T>) -> Result<(), AllocError>
    ensures added { OnOk result (sets.new.items ≡ sets.old.items ++ (new ∷ [])) }
    ensures unchanged { OnErr result (sets.new.items ≡ sets.old.items) }
    ensures full { OnErr result (vec_capacity sets.old ≤ vec_len sets.old) }
{
    sets.push(new)?;
    Ok(())
}

/// The greater of two sets, by their greatest bit that differs.
pub fn greater<T: EnumSetType>(one: EnumSet<T>, other: EnumSet<T>) -> EnumSet<T>
    ensures greater { result ≡ ord_max compare one other }
    ensures contained { set.is_subset one other ≡ true → result ≡ other }
    ensures containing { set.is_subset other one ≡ true → result ≡ one }
{
    one.max(other)
}

/// Whether, in a sorted list, a set may be before a set that contains it: always.
pub fn may_precede<T: EnumSetType>(part: &EnumSet<T>, whole: &EnumSet<T>) -> bool
    requires { set.is_subset part.now whole.now ≡ true }
    ensures { result ≡ true }
{
    *part <= *whole
}

/// What a set and all sets of many have in common.
pub fn in_all_of<T: EnumSetType>(whole: &EnumSet<T>, sets: &[EnumSet<T>]) -> EnumSet<T>
    ensures { result ≡ intersection_all whole.now sets.now }
{
    sets.iter()
        .fold(whole.copied(), |all, members| all & members.copied())
}

/// The part of a set that all sets of many have.
pub fn part_in_all<T: EnumSetType>(whole: &EnumSet<T>, sets: &[EnumSet<T>]) -> EnumSet<T>
    ensures part { result ≡ intersection_all whole.now sets.now }
    ensures within { set.is_subset result whole.now ≡ true }
{
    in_all_of(whole, sets)
}

/// Whether no set of many shares an element with a set.
pub fn are_apart_from<T: EnumSetType>(sets: &[EnumSet<T>], other: &EnumSet<T>) -> bool
    ensures { result ≡ list_all (λ s. set.is_disjoint s other.now) sets.now }
{
    sets.iter().all(|members| members.is_disjoint_from(other))
}

/// Whether the union of many sets shares no element with a set.
pub fn is_union_apart_from<T: EnumSetType>(sets: &[EnumSet<T>], other: &EnumSet<T>) -> bool
    ensures { result ≡ set.is_disjoint (union_all sets.now) other.now }
{
    are_apart_from(sets, other)
}
