//! Folds into a set of elements.

ghost use Rattle.std.specs.Prelude.{◌≡◌, map};
ghost use Rattle.std.specs.Iterator.{IsFinite};
ghost use Rattle.enumset_repr.specs.BitSet.{union, from_list};
ghost use Rattle.enumset_sets.specs.Folds.{union_all};
ghost use Rattle.enumset.specs.Folds.{OnAllItems};

use enumset_sets::{EnumSet, EnumSetType};

/// Adds each element that an iterator yields, like Rust's `Extend<&T>`. The iterator must end.
pub fn extend_refs<'a, T: EnumSetType + 'a, I: Iterator<Item = &'a T> + Drop>(
    set: &mut EnumSet<T>,
    items: I,
)
    requires can { I.can_next items }
    requires finite { IsFinite (I.remaining items) }
    ensures { OnAllItems I.next_gives items (λ ts.
        set.new ≡ union set.old (from_list (map (λ t. T.elements.bit t.now) ts))) }
{
    set.insert_all(sum_element_refs(items));
}

/// Returns the set of the elements that an iterator yields, like Rust's `FromIterator<&T>`. The iterator must end.
pub fn from_refs<'a, T: EnumSetType + 'a, I: Iterator<Item = &'a T> + Drop>(items: I) -> EnumSet<T>
    requires can { I.can_next items }
    requires finite { IsFinite (I.remaining items) }
    ensures { OnAllItems I.next_gives items (λ ts.
        result ≡ from_list (map (λ t. T.elements.bit t.now) ts)) }
{
    sum_element_refs(items)
}

/// Adds each member of each set that an iterator yields, like Rust's `Extend<EnumSet<T>>`. The iterator must end.
pub fn extend_sets<T: EnumSetType, I: Iterator<Item = EnumSet<T>> + Drop>(
    set: &mut EnumSet<T>,
    items: I,
)
    requires can { I.can_next items }
    requires finite { IsFinite (I.remaining items) }
    ensures { OnAllItems I.next_gives items (λ sets. set.new ≡ union set.old (union_all sets)) }
{
    set.insert_all(items.sum());
}

/// Adds each member of each set that an iterator yields, like Rust's `Extend<&EnumSet<T>>`. The iterator must end.
pub fn extend_set_refs<'a, T: EnumSetType + 'a, I: Iterator<Item = &'a EnumSet<T>> + Drop>(
    set: &mut EnumSet<T>,
    items: I,
)
    requires can { I.can_next items }
    requires finite { IsFinite (I.remaining items) }
    ensures { OnAllItems I.next_gives items (λ sets.
        set.new ≡ union set.old (union_all (map (λ s. s.now) sets))) }
{
    set.insert_all(sum_set_refs(items));
}

/// Returns the union of the sets that an iterator yields, like Rust's `FromIterator<EnumSet<T>>`. The iterator must
/// end.
pub fn from_sets<T: EnumSetType, I: Iterator<Item = EnumSet<T>> + Drop>(items: I) -> EnumSet<T>
    requires can { I.can_next items }
    requires finite { IsFinite (I.remaining items) }
    ensures { OnAllItems I.next_gives items (λ sets. result ≡ union_all sets) }
{
    items.sum()
}

/// Returns the union of the sets that an iterator yields, like Rust's `FromIterator<&EnumSet<T>>`. The iterator must
/// end.
pub fn from_set_refs<'a, T: EnumSetType + 'a, I: Iterator<Item = &'a EnumSet<T>> + Drop>(
    items: I,
) -> EnumSet<T>
    requires can { I.can_next items }
    requires finite { IsFinite (I.remaining items) }
    ensures { OnAllItems I.next_gives items (λ sets. result ≡ union_all (map (λ s. s.now) sets)) }
{
    sum_set_refs(items)
}

/// Returns the union of the sets that an iterator yields, like Rust's `Sum<&EnumSet<T>>`. The iterator must end.
pub fn sum_set_refs<'a, T: EnumSetType + 'a, I: Iterator<Item = &'a EnumSet<T>> + Drop>(
    items: I,
) -> EnumSet<T>
    requires can { I.can_next items }
    requires finite { IsFinite (I.remaining items) }
    ensures { OnAllItems I.next_gives items (λ sets. result ≡ union_all (map (λ s. s.now) sets)) }
{
    let mut all = EnumSet::new();
    for set in items {
        all = set.union(all);
    }
    all
}

/// Returns the set of the elements that an iterator yields, like Rust's `Sum<T>`. The iterator must end.
pub fn sum_elements<T: EnumSetType, I: Iterator<Item = T> + Drop>(items: I) -> EnumSet<T>
    requires can { I.can_next items }
    requires finite { IsFinite (I.remaining items) }
    ensures { OnAllItems I.next_gives items (λ ts. result ≡ from_list (map T.elements.bit ts)) }
{
    let mut all = EnumSet::new();
    all.extend(items).unwrap();
    all
}

/// Returns the set of the elements that an iterator yields, like Rust's `Sum<&T>`. The iterator must end.
pub fn sum_element_refs<'a, T: EnumSetType + 'a, I: Iterator<Item = &'a T> + Drop>(
    items: I,
) -> EnumSet<T>
    requires can { I.can_next items }
    requires finite { IsFinite (I.remaining items) }
    ensures { OnAllItems I.next_gives items (λ ts.
        result ≡ from_list (map (λ t. T.elements.bit t.now) ts)) }
{
    let mut all = EnumSet::new();
    for element in items {
        all.insert(*element);
    }
    all
}
