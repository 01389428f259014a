//! Laws of folds: only which items there are matters, not their order or repeats.

ghost use Rattle.std.specs.Prelude.{◌≡◌, ◌↔◌, List, Contains, map};
ghost use Rattle.enumset_repr.specs.BitSet.{BitSet, from_list};
ghost use Rattle.enumset_sets.specs.Folds.{union_all};
ghost use Rattle.enumset.specs.Folds.{intersection_all};

use enumset_sets::EnumSetType;

/// Lists with the same elements make the same set.
pub fn fold_of_elements<T: EnumSetType>()
    ensures { (items others : List T) → ((item : T) → Contains items item ↔ Contains others item)
        → from_list (map T.elements.bit items) ≡ from_list (map T.elements.bit others) }
{}

/// Lists with the same sets have the same union. A set has the same intersection with all sets of either list.
pub fn fold_of_sets()
    ensures union { (items others : List BitSet)
        → ((item : BitSet) → Contains items item ↔ Contains others item)
        → union_all items ≡ union_all others }
    ensures intersection { (start : BitSet) (items others : List BitSet)
        → ((item : BitSet) → Contains items item ↔ Contains others item)
        → intersection_all start items ≡ intersection_all start others }
{}
