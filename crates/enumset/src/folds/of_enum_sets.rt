//! Folds into a mixed set, of sets of elements.

ghost use Rattle.std.specs.Prelude.{◌≡◌, map};
ghost use Rattle.std.specs.Iterator.{IsFinite};
ghost use Rattle.enumset_repr.specs.BitSet.{union};
ghost use Rattle.enumset_sets.specs.Folds.{union_all};
ghost use Rattle.enumset.specs.Folds.{OnAllItems};

use super::into_sets::sum_set_refs;
use enumset_mixed::{MixedEnumSet, convert_mixed};
use enumset_sets::{EnumSet, EnumSetTypeWithRepr};

/// Adds each member of each set that an iterator yields, like Rust's `Extend<EnumSet<T>>`. The iterator must end.
pub fn mixed_extend_enumsets<T: EnumSetTypeWithRepr, I: Iterator<Item = EnumSet<T>> + Drop>(
    set: &mut MixedEnumSet<T>,
    items: I,
)
    requires can { I.can_next items }
    requires finite { IsFinite (I.remaining items) }
    ensures { OnAllItems I.next_gives items (λ sets. set.new ≡ union set.old (union_all sets)) }
{
    set.insert_all(mixed_sum_enumsets(items));
}

/// Adds each member of each set that an iterator yields, like Rust's `Extend<&EnumSet<T>>`. The iterator must end.
pub fn mixed_extend_enumset_refs<
    'a,
    T: EnumSetTypeWithRepr + 'a,
    I: Iterator<Item = &'a EnumSet<T>> + Drop,
>(set: &mut MixedEnumSet<T>, items: I)
    requires can { I.can_next items }
    requires finite { IsFinite (I.remaining items) }
    ensures { OnAllItems I.next_gives items (λ sets.
        set.new ≡ union set.old (union_all (map (λ s. s.now) sets))) }
{
    set.insert_all(mixed_sum_enumset_refs(items));
}

/// Returns the union of the sets that an iterator yields, like Rust's `FromIterator<EnumSet<T>>`. The iterator must
/// end.
pub fn mixed_from_enumsets<T: EnumSetTypeWithRepr, I: Iterator<Item = EnumSet<T>> + Drop>(
    items: I,
) -> MixedEnumSet<T>
    requires can { I.can_next items }
    requires finite { IsFinite (I.remaining items) }
    ensures { OnAllItems I.next_gives items (λ sets. result ≡ union_all sets) }
{
    mixed_sum_enumsets(items)
}

/// Returns the union of the sets that an iterator yields, like Rust's `FromIterator<&EnumSet<T>>`. The iterator must
/// end.
pub fn mixed_from_enumset_refs<
    'a,
    T: EnumSetTypeWithRepr + 'a,
    I: Iterator<Item = &'a EnumSet<T>> + Drop,
>(items: I) -> MixedEnumSet<T>
    requires can { I.can_next items }
    requires finite { IsFinite (I.remaining items) }
    ensures { OnAllItems I.next_gives items (λ sets. result ≡ union_all (map (λ s. s.now) sets)) }
{
    mixed_sum_enumset_refs(items)
}

/// Returns the union of the sets that an iterator yields, like Rust's `Sum<EnumSet<T>>`. The iterator must end.
pub fn mixed_sum_enumsets<T: EnumSetTypeWithRepr, I: Iterator<Item = EnumSet<T>> + Drop>(
    items: I,
) -> MixedEnumSet<T>
    requires can { I.can_next items }
    requires finite { IsFinite (I.remaining items) }
    ensures { OnAllItems I.next_gives items (λ sets. result ≡ union_all sets) }
{
    convert_mixed(items.sum())
}

/// Returns the union of the sets that an iterator yields, like Rust's `Sum<&EnumSet<T>>`. The iterator must end.
pub fn mixed_sum_enumset_refs<
    'a,
    T: EnumSetTypeWithRepr + 'a,
    I: Iterator<Item = &'a EnumSet<T>> + Drop,
>(items: I) -> MixedEnumSet<T>
    requires can { I.can_next items }
    requires finite { IsFinite (I.remaining items) }
    ensures { OnAllItems I.next_gives items (λ sets. result ≡ union_all (map (λ s. s.now) sets)) }
{
    convert_mixed(sum_set_refs(items))
}
