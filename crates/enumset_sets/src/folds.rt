//! Sets from elements and from sets, and the elements of a set, by the traits of std.

ghost use Rattle.std.specs.Prelude.{◌≡◌, ◌<◌, ◌^◌, ⊤, List, map, length, IsOk, IfOk, IsTrue};
ghost use Rattle.std.specs.Iterator.{ExtendsWithItems, DrainsIf, IsFiniteIterable};
ghost use Rattle.std.specs.Iterator.Runs.{EveryRun, ItemsMapTo};
ghost use Rattle.enumset_repr.specs.Asks.{IsFresh};
ghost use Rattle.enumset_repr.specs.BitSet as set;
ghost use Rattle.enumset_sets.specs.Elements.{valid_bits};
ghost use Rattle.enumset_sets.specs.Folds.{union_all};

use crate::element::EnumSetType;
use crate::enum_set::EnumSet;
use crate::enum_set_iter::EnumSetIter;
use std::alloc::{AllocError, Global};
use std::iter::Sum;

/// The set of one element, as [`only`](EnumSet::only).
impl<T: EnumSetType> From<T> for EnumSet<T> {
    ghost from_gives = { λ t r. r ≡ set.only (T.elements.bit t) };

    fn from(value: T) -> EnumSet<T> {
        EnumSet::only(value)
    }
}

/// An iterator over the elements, ascending by bit, as [`iter`](EnumSet::iter).
impl<T: EnumSetType> IntoIterator for EnumSet<T> {
    type Item = T;

    type IntoIter = EnumSetIter<T>;

    ghost into_iter_gives = { λ s i. IsFresh (set.ascending s) T.Repr.PREFERRED_ARRAY_LEN i
        × IsTrue (set.is_subset s (valid_bits T.elements)) × (length i.items < 2 ^ 32)
        × EveryRun ⟦<EnumSetIter<T> as Iterator>⟧.next_gives
        (λ run. ItemsMapTo run T.elements.bit run.from.items) };

    fn into_iter(self) -> EnumSetIter<T> {
        self.iter()
    }
}

/// Adds every element that an iterator yields. The iterator must end. The call allocates nothing and always returns
/// `Ok`.
impl<T: EnumSetType> Extend<T> for EnumSet<T> {
    ghost extend_gives = { λ s ts r. r ≡ set.union s (set.from_list (map T.elements.bit ts)) };

    fn extend<U: IntoIterator<Item = T>>(&mut self, iter: U) -> Result<(), AllocError>
        requires { IsFiniteIterable U.into_iter_gives U.IntoIter.can_next
            U.IntoIter.remaining iter }
        ensures ran { ExtendsWithItems U.into_iter_gives U.IntoIter.next_gives
            (λ s ts r. r ≡ set.union s (set.from_list (map T.elements.bit ts)))
            iter self.old self.new result }
        ensures total { IsOk result }
    {
        for element in iter {
            self.insert(element);
        }
        Ok(())
    }
}

/// The set of the elements that an iterator yields. The iterator must end. The call allocates nothing and always
/// returns `Ok`.
impl<T: EnumSetType> FromIterator<T> for EnumSet<T> {
    type Alloc = Global;

    ghost from_iter_gives = { λ ts r. r ≡ set.from_list (map T.elements.bit ts) };

    fn from_iter<U: IntoIterator<Item = T>>(
        _alloc: Global,
        iter: U,
    ) -> Result<EnumSet<T>, AllocError>
        requires { IsFiniteIterable U.into_iter_gives U.IntoIter.can_next
            U.IntoIter.remaining iter }
        ensures ran { IfOk result (λ all. (items : U.IntoIter) × (ts : List T)
            × U.into_iter_gives iter items × DrainsIf U.IntoIter.next_gives ⊤ items ts
            × (all ≡ set.from_list (map T.elements.bit ts))) }
        ensures total { IsOk result }
    {
        let mut all = EnumSet::new();
        all.extend(iter)?;
        Ok(all)
    }
}

/// The union of all sets that an iterator yields. The iterator must end.
impl<T: EnumSetType> Sum<EnumSet<T>> for EnumSet<T> {
    ghost sum_gives = { λ sets r. r ≡ union_all sets };

    fn sum<I: Iterator<Item = EnumSet<T>> + Drop>(iter: I) -> EnumSet<T> {
        let mut all = EnumSet::new();
        for set in iter {
            all.insert_all(set);
        }
        all
    }
}

/// The set of the elements of an array.
impl<T: EnumSetType, const N: usize> From<[T; N]> for EnumSet<T> {
    ghost from_gives = { λ ts r. r ≡ set.from_list (map T.elements.bit ts) };

    fn from(value: [T; N]) -> EnumSet<T> {
        of_slice(&value)
    }
}

/// Returns the set of the elements of a slice.
fn of_slice<T: EnumSetType>(values: &[T]) -> EnumSet<T>
    ensures { result ≡ set.from_list (map T.elements.bit values.now) }
{
    let mut all = EnumSet::new();
    for value in values {
        all.insert(*value);
    }
    all
}
