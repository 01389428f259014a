//! Folds into a mixed set, of elements and of mixed sets.

ghost use Rattle.std.specs.Prelude.{◌≡◌, map};
ghost use Rattle.std.specs.Iterator.{IsFinite};
ghost use Rattle.enumset_repr.specs.BitSet.{union, from_list};
ghost use Rattle.enumset_sets.specs.Folds.{union_all};
ghost use Rattle.enumset.specs.Folds.{OnAllItems};

use super::into_sets::{sum_element_refs, sum_elements};
use enumset_mixed::{MixedEnumSet, convert_mixed};
use enumset_sets::EnumSetTypeWithRepr;

/// Adds each element that an iterator yields, like Rust's `Extend<&T>`. The iterator must end.
pub fn mixed_extend_refs<'a, T: EnumSetTypeWithRepr + 'a, I: Iterator<Item = &'a T> + Drop>(
    set: &mut MixedEnumSet<T>,
    items: I,
)
    requires can { I.can_next items }
    requires finite { IsFinite (I.remaining items) }
    ensures { OnAllItems I.next_gives items (λ ts.
        set.new ≡ union set.old (from_list (map (λ t. T.elements.bit t.now) ts))) }
{
    set.insert_all(mixed_sum_element_refs(items));
}

/// Returns the set of the elements that an iterator yields, like Rust's `FromIterator<&T>`. The iterator must end.
pub fn mixed_from_refs<'a, T: EnumSetTypeWithRepr + 'a, I: Iterator<Item = &'a T> + Drop>(
    items: I,
) -> MixedEnumSet<T>
    requires can { I.can_next items }
    requires finite { IsFinite (I.remaining items) }
    ensures { OnAllItems I.next_gives items (λ ts.
        result ≡ from_list (map (λ t. T.elements.bit t.now) ts)) }
{
    mixed_sum_element_refs(items)
}

/// Adds each member of each set that an iterator yields, like Rust's `Extend<MixedEnumSet<T>>`. The iterator must end.
pub fn mixed_extend_sets<T: EnumSetTypeWithRepr, I: Iterator<Item = MixedEnumSet<T>> + Drop>(
    set: &mut MixedEnumSet<T>,
    items: I,
)
    requires can { I.can_next items }
    requires finite { IsFinite (I.remaining items) }
    ensures { OnAllItems I.next_gives items (λ sets. set.new ≡ union set.old (union_all sets)) }
{
    set.insert_all(items.sum());
}

/// Adds each member of each set that an iterator yields, like Rust's `Extend<&MixedEnumSet<T>>`. The iterator must end.
pub fn mixed_extend_set_refs<
    'a,
    T: EnumSetTypeWithRepr + 'a,
    I: Iterator<Item = &'a MixedEnumSet<T>> + Drop,
>(set: &mut MixedEnumSet<T>, items: I)
    requires can { I.can_next items }
    requires finite { IsFinite (I.remaining items) }
    ensures { OnAllItems I.next_gives items (λ sets.
        set.new ≡ union set.old (union_all (map (λ s. s.now) sets))) }
{
    set.insert_all(mixed_sum_set_refs(items));
}

/// Returns the union of the sets that an iterator yields, like Rust's `FromIterator<MixedEnumSet<T>>`. The iterator
/// must end.
pub fn mixed_from_sets<T: EnumSetTypeWithRepr, I: Iterator<Item = MixedEnumSet<T>> + Drop>(
    items: I,
) -> MixedEnumSet<T>
    requires can { I.can_next items }
    requires finite { IsFinite (I.remaining items) }
    ensures { OnAllItems I.next_gives items (λ sets. result ≡ union_all sets) }
{
    items.sum()
}

/// Returns the union of the sets that an iterator yields, like Rust's `FromIterator<&MixedEnumSet<T>>`. The iterator
/// must end.
pub fn mixed_from_set_refs<
    'a,
    T: EnumSetTypeWithRepr + 'a,
    I: Iterator<Item = &'a MixedEnumSet<T>> + Drop,
>(items: I) -> MixedEnumSet<T>
    requires can { I.can_next items }
    requires finite { IsFinite (I.remaining items) }
    ensures { OnAllItems I.next_gives items (λ sets. result ≡ union_all (map (λ s. s.now) sets)) }
{
    mixed_sum_set_refs(items)
}

/// Returns the union of the sets that an iterator yields, like Rust's `Sum<&MixedEnumSet<T>>`. The iterator must end.
pub fn mixed_sum_set_refs<
    'a,
    T: EnumSetTypeWithRepr + 'a,
    I: Iterator<Item = &'a MixedEnumSet<T>> + Drop,
>(items: I) -> MixedEnumSet<T>
    requires can { I.can_next items }
    requires finite { IsFinite (I.remaining items) }
    ensures { OnAllItems I.next_gives items (λ sets. result ≡ union_all (map (λ s. s.now) sets)) }
{
    let mut all = MixedEnumSet::new();
    for set in items {
        all = set.union(all);
    }
    all
}

/// Returns the set of the elements that an iterator yields, like Rust's `Sum<T>`. The iterator must end.
pub fn mixed_sum_elements<T: EnumSetTypeWithRepr, I: Iterator<Item = T> + Drop>(
    items: I,
) -> MixedEnumSet<T>
    requires can { I.can_next items }
    requires finite { IsFinite (I.remaining items) }
    ensures { OnAllItems I.next_gives items (λ ts. result ≡ from_list (map T.elements.bit ts)) }
{
    convert_mixed(sum_elements(items))
}

/// Returns the set of the elements that an iterator yields, like Rust's `Sum<&T>`. The iterator must end.
pub fn mixed_sum_element_refs<'a, T: EnumSetTypeWithRepr + 'a, I: Iterator<Item = &'a T> + Drop>(
    items: I,
) -> MixedEnumSet<T>
    requires can { I.can_next items }
    requires finite { IsFinite (I.remaining items) }
    ensures { OnAllItems I.next_gives items (λ ts.
        result ≡ from_list (map (λ t. T.elements.bit t.now) ts)) }
{
    convert_mixed(sum_element_refs(items))
}
