//! `MixedEnumSet` as the set of a run. `enum_set.rt` is the twin of this file: a call that changes here changes there.

ghost use Rattle.std.specs.Prelude.{◌≡◌, ◌↔◌, IsSome, IfSome};
ghost use Rattle.enumset_mixed.specs.Mixed.{bit_with_validity};
ghost use Rattle.enumset_sets.specs.Elements.{valid_bits};

use super::RunSet;
use super::enum_set::element_of;
use crate::answer::Answer;
use enumset_mixed::{MixedEnumSet, MixedEnumSetIter, MixedValue};
use enumset_repr::EnumSetTypeRepr;
use enumset_sets::{EnumSetType, EnumSetTypeWithRepr};
use std::cmp::Ordering;

impl<T: EnumSetTypeWithRepr> RunSet for MixedEnumSet<T> {
    ghost use Rattle.enumset_machine.specs.Plans.{width_rules};

    ghost members = { λ s. s };

    ghost rules = { width_rules (valid_bits T.elements) T.Repr.WIDTH };

    type Items = MixedEnumSetIter<T>;

    ghost rest = { λ items. items.items };

    fn is_bit_valid(bit: u32) -> bool {
        MixedEnumSet::<T>::is_bit_valid(bit)
    }

    fn bit_answer(bit: u32) -> Answer<Self> {
        if MixedEnumSet::<T>::is_bit_valid(bit) {
            Answer::Bit(bit)
        } else {
            Answer::Unknown(bit)
        }
    }

    fn new() -> Self {
        MixedEnumSet::new()
    }

    fn all() -> Self {
        MixedEnumSet::all()
    }

    fn only(bit: u32) -> Self {
        MixedEnumSet::only(element_of(bit))
    }

    fn insert(&mut self, bit: u32) -> bool {
        self.insert(element_of(bit))
    }

    fn remove(&mut self, bit: u32) -> bool {
        self.remove(element_of(bit))
    }

    fn contains(&self, bit: u32) -> bool {
        self.contains(element_of(bit))
    }

    fn clear(&mut self) {
        self.clear();
    }

    fn len(&self) -> usize {
        self.len()
    }

    fn is_empty(&self) -> bool {
        self.is_empty()
    }

    fn union(&self, other: Self) -> Self {
        self.union(other)
    }

    fn intersection(&self, other: Self) -> Self {
        self.intersection(other)
    }

    fn difference(&self, other: Self) -> Self {
        self.difference(other)
    }

    fn symmetric_difference(&self, other: Self) -> Self {
        self.symmetric_difference(other)
    }

    fn complement(&self) -> Self {
        self.complement()
    }

    fn insert_all(&mut self, other: Self) {
        self.insert_all(other);
    }

    fn remove_all(&mut self, other: Self) {
        self.remove_all(other);
    }

    fn is_disjoint(&self, other: Self) -> bool {
        self.is_disjoint(other)
    }

    fn is_superset(&self, other: Self) -> bool {
        self.is_superset(other)
    }

    fn is_subset(&self, other: Self) -> bool {
        self.is_subset(other)
    }

    fn is_same(&self, other: Self) -> bool {
        self == &other
    }

    fn compare(&self, other: Self) -> Ordering {
        self.cmp(&other)
    }

    fn number(&self, width: u32) -> Option<u128> {
        let repr = self.as_repr();
        match width {
            8 => repr.try_to_u8().map(u128::from),
            16 => repr.try_to_u16().map(u128::from),
            32 => repr.try_to_u32().map(u128::from),
            64 => repr.try_to_u64().map(u128::from),
            _ => repr.try_to_u128(),
        }
    }

    fn number_cut(&self, width: u32) -> u128 {
        let repr = self.as_repr();
        match width {
            8 => u128::from(repr.to_u8()),
            16 => u128::from(repr.to_u16()),
            32 => u128::from(repr.to_u32()),
            64 => u128::from(repr.to_u64()),
            _ => repr.to_u128(),
        }
    }

    fn from_number(width: u32, value: u128) -> Option<Self> {
        from_repr(match width {
            8 => T::Repr::try_from_u8(value as u8),
            16 => T::Repr::try_from_u16(value as u16),
            32 => T::Repr::try_from_u32(value as u32),
            64 => T::Repr::try_from_u64(value as u64),
            _ => T::Repr::try_from_u128(value),
        })
    }

    #[tactic(auto, using(crate::proofs::Cuts::low_below))]
    fn from_number_cut(width: u32, value: u128) -> Self {
        MixedEnumSet::from_repr(match width {
            8 => T::Repr::from_u8(value as u8),
            16 => T::Repr::from_u16(value as u16),
            32 => T::Repr::from_u32(value as u32),
            64 => T::Repr::from_u64(value as u64),
            _ => T::Repr::from_u128(value),
        })
    }

    fn words(&self, slice: &mut [u64]) -> Option<()> {
        self.as_repr().try_to_u64_slice(slice)
    }

    fn words_cut(&self, slice: &mut [u64]) {
        self.as_repr().to_u64_slice(slice);
    }

    fn from_words(words: &[u64]) -> Option<Self> {
        from_repr(T::Repr::try_from_u64_slice(words))
    }

    #[tactic(auto, using(crate::proofs::Cuts::low_below))]
    fn from_words_cut(words: &[u64]) -> Self {
        MixedEnumSet::from_repr(T::Repr::from_u64_slice(words))
    }

    fn items(&self) -> MixedEnumSetIter<T> {
        self.iter()
    }

    #[tactic(auto, using(enumset_mixed::specs::Laws::Items::gave_first))]
    fn next(items: &mut MixedEnumSetIter<T>) -> Option<u32> {
        match items.next() {
            Some(value) => Some(bit_of(value)),
            None => None,
        }
    }

    #[tactic(auto, using(enumset_mixed::specs::Laws::Items::none_left))]
    fn next_back(items: &mut MixedEnumSetIter<T>) -> Option<u32> {
        match items.next_back() {
            Some(value) => Some(bit_of(value)),
            None => None,
        }
    }

    fn items_left(items: &MixedEnumSetIter<T>) -> usize {
        items.len()
    }
}

/// The set that a value of the representation represents, if there is one.
fn from_repr<T: EnumSetTypeWithRepr>(repr: Option<T::Repr>) -> Option<MixedEnumSet<T>>
    ensures some { IsSome result ↔ IsSome repr }
    ensures members { IfSome result (λ s. IfSome repr (λ r. s ≡ T.Repr.members r)) }
{
    match repr {
        Some(repr) => Some(MixedEnumSet::from_repr(repr)),
        None => None,
    }
}

/// The bit of an item.
fn bit_of<T: EnumSetType>(value: MixedValue<T>) -> u32
    ensures { result ≡ (bit_with_validity T.elements.bit value).0 }
{
    match value {
        MixedValue::Valid(element) => element.enum_into_u32(),
        MixedValue::Invalid(bit) => bit,
    }
}
