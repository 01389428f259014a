//! `EnumSet` as the set of a run. `mixed_enum_set.rt` is the twin of this file: a call that changes here changes there.

ghost use Rattle.std.specs.Prelude.{◌≡◌, true};
ghost use Rattle.enumset_repr.specs.BitSet as set;
ghost use Rattle.enumset_sets.specs.Elements.{valid_bits};

use super::RunSet;
use crate::answer::Answer;
use enumset_repr::EnumSetTypeRepr;
use enumset_sets::{EnumSet, EnumSetIter, EnumSetType};
use std::cmp::Ordering;

/// The element of a valid bit.
pub(super) fn element_of<T: EnumSetType>(bit: u32) -> T
    requires { set.contains (valid_bits T.elements) bit ≡ true }
    ensures { T.elements.bit result ≡ bit }
{
    T::enum_from_u32(bit)
}

impl<T: EnumSetType> RunSet for EnumSet<T> {
    ghost use Rattle.enumset_machine.specs.Plans.{valid_rules};

    ghost members = { λ s. s };

    ghost rules = { valid_rules (valid_bits T.elements) };

    type Items = EnumSetIter<T>;

    ghost rest = { λ items. items.items };

    fn is_bit_valid(bit: u32) -> bool {
        EnumSet::<T>::is_bit_valid(bit)
    }

    fn bit_answer(bit: u32) -> Answer<Self> {
        Answer::Bit(bit)
    }

    fn new() -> Self {
        EnumSet::new()
    }

    fn all() -> Self {
        EnumSet::all()
    }

    fn only(bit: u32) -> Self {
        EnumSet::only(element_of(bit))
    }

    fn insert(&mut self, bit: u32) -> bool {
        self.insert(element_of(bit))
    }

    fn remove(&mut self, bit: u32) -> bool {
        self.remove(element_of(bit))
    }

    fn contains(&self, bit: u32) -> bool {
        self.contains(element_of(bit))
    }

    fn clear(&mut self) {
        self.clear();
    }

    fn len(&self) -> usize {
        self.len()
    }

    fn is_empty(&self) -> bool {
        self.is_empty()
    }

    fn union(&self, other: Self) -> Self {
        self.union(other)
    }

    fn intersection(&self, other: Self) -> Self {
        self.intersection(other)
    }

    fn difference(&self, other: Self) -> Self {
        self.difference(other)
    }

    fn symmetric_difference(&self, other: Self) -> Self {
        self.symmetric_difference(other)
    }

    fn complement(&self) -> Self {
        self.complement()
    }

    fn insert_all(&mut self, other: Self) {
        self.insert_all(other);
    }

    fn remove_all(&mut self, other: Self) {
        self.remove_all(other);
    }

    fn is_disjoint(&self, other: Self) -> bool {
        self.is_disjoint(other)
    }

    fn is_superset(&self, other: Self) -> bool {
        self.is_superset(other)
    }

    fn is_subset(&self, other: Self) -> bool {
        self.is_subset(other)
    }

    fn is_same(&self, other: Self) -> bool {
        self == &other
    }

    fn compare(&self, other: Self) -> Ordering {
        self.cmp(&other)
    }

    fn number(&self, width: u32) -> Option<u128> {
        match width {
            8 => self.try_as_u8().map(u128::from),
            16 => self.try_as_u16().map(u128::from),
            32 => self.try_as_u32().map(u128::from),
            64 => self.try_as_u64().map(u128::from),
            _ => self.try_as_u128(),
        }
    }

    fn number_cut(&self, width: u32) -> u128 {
        match width {
            8 => u128::from(self.as_u8_truncated()),
            16 => u128::from(self.as_u16_truncated()),
            32 => u128::from(self.as_u32_truncated()),
            64 => u128::from(self.as_u64_truncated()),
            _ => self.as_u128_truncated(),
        }
    }

    fn from_number(width: u32, value: u128) -> Option<Self> {
        match width {
            8 => EnumSet::try_from_u8(value as u8),
            16 => EnumSet::try_from_u16(value as u16),
            32 => EnumSet::try_from_u32(value as u32),
            64 => EnumSet::try_from_u64(value as u64),
            _ => EnumSet::try_from_u128(value),
        }
    }

    fn from_number_cut(width: u32, value: u128) -> Self {
        match width {
            8 => EnumSet::from_u8_truncated(value as u8),
            16 => EnumSet::from_u16_truncated(value as u16),
            32 => EnumSet::from_u32_truncated(value as u32),
            64 => EnumSet::from_u64_truncated(value as u64),
            _ => EnumSet::from_u128_truncated(value),
        }
    }

    fn words(&self, slice: &mut [u64]) -> Option<()> {
        self.try_copy_into_slice(slice)
    }

    fn words_cut(&self, slice: &mut [u64]) {
        self.copy_into_slice_truncated(slice);
    }

    fn from_words(words: &[u64]) -> Option<Self> {
        EnumSet::try_from_slice(words)
    }

    fn from_words_cut(words: &[u64]) -> Self {
        EnumSet::from_slice_truncated(words)
    }

    fn items(&self) -> EnumSetIter<T> {
        self.iter()
    }

    fn next(items: &mut EnumSetIter<T>) -> Option<u32> {
        let element = items.next()?;
        Some(element.enum_into_u32())
    }

    #[tactic(auto, using(enumset_repr::specs::Laws::Ends::lasts))]
    fn next_back(items: &mut EnumSetIter<T>) -> Option<u32> {
        let element = items.next_back()?;
        Some(element.enum_into_u32())
    }

    fn items_left(items: &EnumSetIter<T>) -> usize {
        items.len()
    }
}
