//! Vectors of sets in their order.

ghost use Rattle.std.specs.Prelude.{◌≡◌, ◌≢◌, ◌≤◌, ◌++◌, IfOk, IfErr, All, length};
ghost use Rattle.std.specs.List.{slice_index_or};
ghost use Rattle.std.specs.List.Sorted.{IsPartitionPoint, IsPermutation, IsSearchInRange, IsSorted};
ghost use Rattle.std.specs.Ordering.{ord_max, ord_min};
ghost use Rattle.std.specs.declared.cmp.Ordering.TheVariants.{Less, Greater};
ghost use Rattle.enumset.specs.Sets as set;
ghost use Rattle.enumset.specs.Sets.{number, compare};

use enumset::{EnumSet, EnumSetType};
use std::alloc::AllocError;

/// Sorts sets, the least first.
pub fn sort<T: EnumSetType>(sets: &mut Vec<EnumSet<T>>)
    ensures same { IsPermutation sets.old.items sets.new.items }
    ensures sorted { IsSorted compare sets.new.items }
{
    sets.sort_unstable();
}

/// The sets of two vectors in one, sorted.
pub fn merged<T: EnumSetType>(
    one: Vec<EnumSet<T>>,
    other: &[EnumSet<T>],
) -> Result<Vec<EnumSet<T>>, AllocError>
    ensures same { IfOk result (λ all. IsPermutation (one.items ++ other.now) all.items) }
    ensures sorted { IfOk result (λ all. IsSorted compare all.items) }
{
    let mut all = one;
    all.extend_from_slice(other)?;
    all.sort_unstable();
    Ok(all)
}

/// Returns a place at which a list of sets has the wanted one. In a sorted list, a binary search finds one if there is
/// one; otherwise the error is the place between the lesser sets and the greater ones.
pub fn place_of<T: EnumSetType>(sets: &[EnumSet<T>], wanted: &EnumSet<T>) -> Result<usize, usize>
    ensures within { IsSearchInRange result (length sets.now) }
    ensures found { IfOk result (λ k. slice_index_or sets.now k set.empty ≡ wanted.now) }
    ensures between { IsSorted compare sets.now
        → IfErr result (IsPartitionPoint (λ s. compare s wanted.now ≡ Less)
        (λ s. compare s wanted.now ≡ Greater) sets.now) }
    ensures absent { IsSorted compare sets.now
        → IfErr result (λ _. All (λ s. s ≢ wanted.now) sets.now) }
{
    sets.binary_search(wanted)
}

/// Two sets, the lesser first.
pub fn in_order<T: EnumSetType>(one: EnumSet<T>, other: EnumSet<T>) -> (EnumSet<T>, EnumSet<T>)
    ensures lesser { result.0 ≡ ord_min compare one other }
    ensures greater { result.1 ≡ ord_max compare one other }
    ensures ordered { number result.0 ≤ number result.1 }
    ensures same { set.union result.0 result.1 ≡ set.union one other }
{
    if one <= other {
        (one, other)
    } else {
        (other, one)
    }
}
