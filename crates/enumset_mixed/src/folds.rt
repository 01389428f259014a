//! Mixed sets from elements and from sets, and the members of a mixed set, by the traits of std.

ghost use Rattle.std.specs.Prelude.{◌≡◌, ⊤, List, map, IsOk, IfOk, IsTrue};
ghost use Rattle.std.specs.Iterator.{ExtendsWithItems, DrainsIf, IsFiniteIterable};
ghost use Rattle.enumset_repr.specs.Asks.{IsFresh};
ghost use Rattle.enumset_repr.specs.BitSet as set;
ghost use Rattle.enumset_sets.specs.Folds.{union_all};

use crate::conversions::convert_mixed;
use crate::mixed_enum_set::MixedEnumSet;
use crate::mixed_enum_set_iter::MixedEnumSetIter;
use crate::mixed_value::MixedValue;
use enumset_sets::{EnumSet, EnumSetTypeWithRepr};
use std::alloc::{AllocError, Global};
use std::iter::Sum;

/// The set of one element, as [`only`](MixedEnumSet::only).
impl<T: EnumSetTypeWithRepr> From<T> for MixedEnumSet<T> {
    ghost from_gives = { λ t r. r ≡ set.only (T.elements.bit t) };

    fn from(value: T) -> MixedEnumSet<T> {
        MixedEnumSet::only(value)
    }
}

/// The set of the elements of an array.
impl<T: EnumSetTypeWithRepr, const N: usize> From<[T; N]> for MixedEnumSet<T> {
    ghost from_gives = { λ ts r. r ≡ set.from_list (map T.elements.bit ts) };

    fn from(value: [T; N]) -> MixedEnumSet<T> {
        convert_mixed(EnumSet::from(value))
    }
}

/// The mixed set of the same elements, as [`convert_mixed`].
impl<T: EnumSetTypeWithRepr> From<EnumSet<T>> for MixedEnumSet<T> {
    ghost from_gives = { λ s r. r ≡ s };

    fn from(value: EnumSet<T>) -> MixedEnumSet<T> {
        convert_mixed(value)
    }
}

/// An iterator over the members, ascending by bit, as [`iter`](MixedEnumSet::iter).
impl<T: EnumSetTypeWithRepr> IntoIterator for MixedEnumSet<T> {
    type Item = MixedValue<T>;

    type IntoIter = MixedEnumSetIter<T>;

    ghost into_iter_gives = { λ s i. IsFresh (set.ascending s) T.Repr.PREFERRED_ARRAY_LEN i
        × IsTrue (set.is_subset s (set.below T.Repr.WIDTH)) };

    fn into_iter(self) -> MixedEnumSetIter<T> {
        self.iter()
    }
}

/// Adds every element that an iterator yields. The iterator must end. The call allocates nothing and always returns
/// `Ok`.
impl<T: EnumSetTypeWithRepr> Extend<T> for MixedEnumSet<T> {
    ghost extend_gives = { λ s ts r. r ≡ set.union s (set.from_list (map T.elements.bit ts)) };

    fn extend<U: IntoIterator<Item = T>>(&mut self, iter: U) -> Result<(), AllocError>
        requires { IsFiniteIterable U.into_iter_gives U.IntoIter.can_next
            U.IntoIter.remaining iter }
        ensures ran { ExtendsWithItems U.into_iter_gives U.IntoIter.next_gives
            (λ s ts r. r ≡ set.union s (set.from_list (map T.elements.bit ts)))
            iter self.old self.new result }
        ensures total { IsOk result }
    {
        for element in iter {
            self.insert(element);
        }
        Ok(())
    }
}

/// The set of the elements that an iterator yields. The iterator must end. The call allocates nothing and always
/// returns `Ok`.
impl<T: EnumSetTypeWithRepr> FromIterator<T> for MixedEnumSet<T> {
    type Alloc = Global;

    ghost from_iter_gives = { λ ts r. r ≡ set.from_list (map T.elements.bit ts) };

    fn from_iter<U: IntoIterator<Item = T>>(
        alloc: Global,
        iter: U,
    ) -> Result<MixedEnumSet<T>, AllocError>
        requires { IsFiniteIterable U.into_iter_gives U.IntoIter.can_next
            U.IntoIter.remaining iter }
        ensures ran { IfOk result (λ all. (items : U.IntoIter) × (ts : List T)
            × U.into_iter_gives iter items × DrainsIf U.IntoIter.next_gives ⊤ items ts
            × (all ≡ set.from_list (map T.elements.bit ts))) }
        ensures total { IsOk result }
    {
        let all = EnumSet::from_iter(alloc, iter)?;
        Ok(convert_mixed(all))
    }
}

/// The union of all sets that an iterator yields. The iterator must end.
impl<T: EnumSetTypeWithRepr> Sum<MixedEnumSet<T>> for MixedEnumSet<T> {
    ghost sum_gives = { λ sets r. r ≡ union_all sets };

    fn sum<I: Iterator<Item = MixedEnumSet<T>> + Drop>(iter: I) -> MixedEnumSet<T> {
        let mut all = MixedEnumSet::new();
        for set in iter {
            all.insert_all(set);
        }
        all
    }
}
