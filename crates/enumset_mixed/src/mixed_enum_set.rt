//! The type [`MixedEnumSet`] and its calls, except conversions, operators and folds.
//!
//! `EnumSet` of `enumset_sets` is its twin: a change of a call or of its contract here is mostly due there, too.

ghost use Rattle.std.specs.Prelude.{◌≡◌, ◌<◌, ◌≤◌, IsTrue, false, not};
ghost use Rattle.std.specs.Option.{option_map};
ghost use Rattle.enumset_repr.specs.BitSet as set;
ghost use Rattle.enumset_repr.specs.Ends.{least, greatest};
ghost use Rattle.enumset_mixed.specs.Mixed.{bit_with_validity, valid_members, unknown_members};
ghost use Rattle.enumset_sets.specs.Calls.{left};
ghost use Rattle.enumset_sets.specs.Elements.{valid_bits};

use crate::conversions::convert_mixed;
use crate::mixed_enum_set_iter::MixedEnumSetIter;
use crate::mixed_value::{MixedValue, value_of};
use enumset_repr::{EnumSetTypeRepr, are_same, greatest_bit, least_bit};
use enumset_sets::raw::valid_repr;
use enumset_sets::text::write_separator;
use enumset_sets::{EnumSet, EnumSetType, EnumSetTypeWithRepr};
use std::alloc::AllocError;
use std::fmt;
use std::marker::{Model, PhantomData};

/// A set of elements that also keeps unknown bits, as a value of a representation. So a program can pass on all bits
/// that a newer peer sent.
///
/// Contracts see a set as the set of its bits, which are called its members. A bit is valid if a variant has it, and
/// unknown otherwise.
///
/// The struct mirrors `MixedEnumSet` of Rust's `enumset`: each call there has its name here, and
/// [`eq_enumset`](MixedEnumSet::eq_enumset) and [`eq_element`](MixedEnumSet::eq_element) are Rust's `==` with an
/// [`EnumSet`] and an element. Calls with another set take a mixed set. In Rust they also take an element or an
/// [`EnumSet`], as operators do here. The parameter `R` is always the representation of `T`: write `MixedEnumSet<T>`.
pub struct MixedEnumSet<T: EnumSetTypeWithRepr, R: EnumSetTypeRepr = <T as EnumSetType>::Repr> {
    pub(crate) repr: R,
    of: PhantomData<T>,
}

impl<T: EnumSetTypeWithRepr, R: EnumSetTypeRepr> Model for MixedEnumSet<T, R> {
    ghost use Rattle.enumset_repr.specs.BitSet.{BitSet, coded_set};
    ghost use Rattle.enumset_mixed.specs.Mixed.{IsKept};

    ghost Value = { BitSet };

    ghost coded = { coded_set };

    ghost view = { λ s. R.members s.repr };

    ghost invariant = { λ s. IsKept R.members R.of_members R.is_value s.repr };

    ghost inverse = { λ s. record { repr = R.of_members s; of = record {} } };

    ghost inverse_ok = { λ a h i. record { repr = h.inverse i; of = a.of } };
}

/// `clone` returns the same set, and never fails. A set is `Copy`, so only generic code calls `clone`.
impl<T: EnumSetTypeWithRepr, R: EnumSetTypeRepr> Clone for MixedEnumSet<T, R> {
    ghost use Rattle.std.specs.Prelude.{⊤};

    ghost is_clone = { λ s t. s ≡ t };

    ghost is_infallible = { λ _. ⊤ };

    fn clone(&self) -> Result<MixedEnumSet<T, R>, AllocError> {
        Ok(MixedEnumSet {
            repr: self.repr,
            of: PhantomData,
        })
    }
}

impl<T: EnumSetTypeWithRepr, R: EnumSetTypeRepr> Copy for MixedEnumSet<T, R> {}

/// Sets are equal if they have the same members.
impl<T: EnumSetTypeWithRepr> PartialEq for MixedEnumSet<T> {
    ghost use Rattle.enumset_repr.specs.BitSet.{is_same};
    ghost use Rattle.enumset_repr.specs.Laws.Members.{is_same-IsPartialEquivalence};

    ghost eq = { is_same };

    ghost laws = { is_same-IsPartialEquivalence };

    fn eq(&self, other: &MixedEnumSet<T>) -> bool {
        are_same(&self.repr, &other.repr)
    }
}

impl<T: EnumSetTypeWithRepr> Eq for MixedEnumSet<T> {
    ghost use Rattle.enumset_repr.specs.Laws.Members.{is_same-IsEquivalence};

    ghost laws = { is_same-IsEquivalence };
}

/// `default` returns the empty set.
impl<T: EnumSetTypeWithRepr> Default for MixedEnumSet<T> {
    ghost use Rattle.std.specs.Prelude.{◌≡◌};
    ghost use Rattle.enumset_repr.specs.BitSet.{empty};

    ghost is_default = { λ s. s ≡ empty };

    fn default() -> MixedEnumSet<T> {
        MixedEnumSet::new()
    }
}

/// `{:?}` writes `MixedEnumSet(`, the `{:?}` texts of the members, ascending by bit and joined by ` | `, and `)`. The
/// text of an unknown bit is its number in brackets, such as `[3]`. No contract says so; tests do.
impl<T: EnumSetTypeWithRepr + fmt::Debug> fmt::Debug for MixedEnumSet<T> {
    fn fmt<W: fmt::Write>(&self, f: &mut fmt::Formatter<W>) -> fmt::Result {
        f.write_str("MixedEnumSet(")?;
        let mut is_first = true;
        for member in self.iter() {
            write_separator(is_first, f)?;
            is_first = false;
            member.fmt(f)?;
        }
        f.write_str(")")
    }
}

impl<T: EnumSetTypeWithRepr> MixedEnumSet<T> {
    /// Returns the set that a value represents.
    pub(crate) fn of_repr(repr: T::Repr) -> MixedEnumSet<T>
        ensures { result ≡ T.Repr.members repr }
    {
        // Tells the proof that `repr` is a value of its type, as the invariant of `MixedEnumSet` says.
        repr.learn_is_value();
        MixedEnumSet {
            repr,
            of: PhantomData,
        }
    }

    /// Returns the empty set.
    pub fn new() -> MixedEnumSet<T>
        ensures { result ≡ set.empty }
    {
        Self::of_repr(T::Repr::EMPTY)
    }

    /// Returns the empty set, as [`new`](MixedEnumSet::new).
    pub fn empty() -> MixedEnumSet<T>
        ensures { result ≡ set.empty }
    {
        Self::new()
    }

    /// Returns the set of all variants. It has no unknown bit.
    pub fn all() -> MixedEnumSet<T>
        ensures { result ≡ valid_bits T.elements }
    {
        Self::of_repr(valid_repr::<T>())
    }

    /// Returns the set of one element.
    pub fn only(t: T) -> MixedEnumSet<T>
        ensures { result ≡ set.only (T.elements.bit t) }
    {
        convert_mixed(EnumSet::only(t))
    }

    /// Returns the number of valid bits, which is the number of variants.
    pub fn variant_count() -> u32
        ensures { result ≡ set.len (valid_bits T.elements) }
    {
        EnumSet::<T>::variant_count()
    }

    /// Returns the bit of an element. It is valid, and below the width of the representation.
    pub fn bit_index(t: T) -> u32
        ensures bit { result ≡ T.elements.bit t }
        ensures valid { IsTrue (set.contains (valid_bits T.elements) result) }
        ensures within { result < T.Repr.WIDTH }
    {
        EnumSet::<T>::bit_index(t)
    }

    /// Returns whether a bit is valid, which is whether a variant has it. No bit at or past the width of the
    /// representation is valid. For such a bit the call of Rust's `enumset` tests another bit, overflows or panics.
    pub fn is_bit_valid(bit: u32) -> bool
        ensures valid { result ≡ set.contains (valid_bits T.elements) bit }
        ensures of_a_variant { result ≡ set.is_in bit T.elements.bit_list }
        ensures past { T.Repr.WIDTH ≤ bit → result ≡ false }
    {
        EnumSet::<T>::is_bit_valid(bit)
    }

    /// Returns the same set as a new value. Code over any element type calls it where it uses a set by value twice.
    pub fn copied(&self) -> MixedEnumSet<T>
        ensures { result ≡ self.now }
    {
        Self::of_repr(self.repr)
    }

    /// Returns the number of members, unknown bits included. Each is below the width of the representation.
    pub fn len(&self) -> usize
        ensures members { result ≡ set.len self.now }
        ensures within { IsTrue (set.is_subset self.now (set.below T.Repr.WIDTH)) }
    {
        self.repr.count_ones() as usize
    }

    /// Returns the number of members that are valid bits.
    pub fn valid_len(&self) -> usize
        ensures { result ≡ set.len (valid_members (valid_bits T.elements) self.now) }
    {
        self.as_enumset_truncate().len()
    }

    /// Returns whether the set is empty: it has no member, valid or unknown.
    pub fn is_empty(&self) -> bool
        ensures { result ≡ set.is_empty self.now }
    {
        self.repr.is_empty()
    }

    /// Returns whether some member is an unknown bit.
    pub fn has_unknown_bits(&self) -> bool
        ensures unknown { result
            ≡ not (set.is_empty (unknown_members (valid_bits T.elements) self.now)) }
        ensures valid { result ≡ not (set.is_subset self.now (valid_bits T.elements)) }
    {
        !self.repr.is_subset_of(&valid_repr::<T>())
    }

    /// Removes all members, valid and unknown.
    pub fn clear(&mut self)
        ensures { self.new ≡ set.empty }
    {
        *self = Self::new();
    }

    /// Returns whether an element is a member.
    pub fn contains(&self, value: T) -> bool
        ensures { result ≡ set.contains self.now (T.elements.bit value) }
    {
        self.repr.has_bit(Self::bit_index(value))
    }

    /// Returns whether a bit is a member, valid or unknown. No bit at or past the width of the representation is a
    /// member. For such a bit the call of Rust's `enumset` tests another bit, overflows or panics.
    pub fn has_bit(&self, value: u32) -> bool
        ensures has { result ≡ set.contains self.now value }
        ensures past { T.Repr.WIDTH ≤ value → result ≡ false }
    {
        value < T::Repr::WIDTH && self.repr.has_bit(value)
    }

    /// Adds an element, and returns whether it was absent.
    pub fn insert(&mut self, value: T) -> bool
        ensures inserted { self.new ≡ set.insert self.old (T.elements.bit value) }
        ensures was_absent { result ≡ not (set.contains self.old (T.elements.bit value)) }
    {
        self.insert_bit(Self::bit_index(value))
    }

    /// Adds a bit, valid or unknown, and returns whether it was absent. The bit must be below the width of the
    /// representation, `T::Repr::WIDTH`. For any other bit the call of Rust's `enumset` adds another bit, overflows or
    /// panics.
    pub fn insert_bit(&mut self, value: u32) -> bool
        requires { value < T.Repr.WIDTH }
        ensures inserted { self.new ≡ set.insert self.old value }
        ensures was_absent { result ≡ not (set.contains self.old value) }
    {
        let is_absent = !self.repr.has_bit(value);
        self.repr.add_bit(value);
        is_absent
    }

    /// Removes an element, and returns whether it was present.
    pub fn remove(&mut self, value: T) -> bool
        ensures removed { self.new ≡ set.remove self.old (T.elements.bit value) }
        ensures was_present { result ≡ set.contains self.old (T.elements.bit value) }
    {
        let bit = Self::bit_index(value);
        let is_present = self.repr.has_bit(bit);
        self.repr.remove_bit(bit);
        is_present
    }

    /// Removes a bit, valid or unknown, and returns whether it was present. A bit at or past the width of the
    /// representation is never present, so the call returns false and the set stays as it was. For such a bit the call
    /// of Rust's `enumset` removes another bit, overflows or panics.
    #[tactic(auto, using(enumset_repr::specs::Laws::Algebra::remove_absent))]
    pub fn remove_bit(&mut self, value: u32) -> bool
        ensures removed { self.new ≡ set.remove self.old value }
        ensures was_present { result ≡ set.contains self.old value }
        ensures past { T.Repr.WIDTH ≤ value → (result ≡ false) × (self.new ≡ self.old) }
    {
        let is_present = self.has_bit(value);
        if value < T::Repr::WIDTH {
            self.repr.remove_bit(value);
        }
        is_present
    }

    /// Returns whether no bit is a member of both sets.
    pub fn is_disjoint(&self, other: MixedEnumSet<T>) -> bool
        ensures { result ≡ set.is_disjoint self.now other }
    {
        self.repr.is_disjoint_from(&other.repr)
    }

    /// Returns whether every member of `other` is a member of this set.
    pub fn is_superset(&self, other: MixedEnumSet<T>) -> bool
        ensures { result ≡ set.is_subset other self.now }
    {
        other.repr.is_subset_of(&self.repr)
    }

    /// Returns whether every member of this set is a member of `other`.
    pub fn is_subset(&self, other: MixedEnumSet<T>) -> bool
        ensures { result ≡ set.is_subset self.now other }
    {
        self.repr.is_subset_of(&other.repr)
    }

    /// Returns the members of either set.
    pub fn union(&self, other: MixedEnumSet<T>) -> MixedEnumSet<T>
        ensures { result ≡ set.union self.now other }
    {
        Self::of_repr(self.repr | other.repr)
    }

    /// Returns the members of both sets.
    pub fn intersection(&self, other: MixedEnumSet<T>) -> MixedEnumSet<T>
        ensures { result ≡ set.intersection self.now other }
    {
        Self::of_repr(self.repr & other.repr)
    }

    /// Returns the members of this set that are not in `other`.
    pub fn difference(&self, other: MixedEnumSet<T>) -> MixedEnumSet<T>
        ensures { result ≡ set.difference self.now other }
    {
        Self::of_repr(self.repr.and_not(other.repr))
    }

    /// Returns the members of exactly one of the two sets.
    pub fn symmetric_difference(&self, other: MixedEnumSet<T>) -> MixedEnumSet<T>
        ensures { result ≡ set.symmetric_difference self.now other }
    {
        Self::of_repr(self.repr ^ other.repr)
    }

    /// Returns the members of exactly one of the two sets, under an older name.
    #[deprecated = "Use `symmetric_difference` instead."]
    pub fn symmetrical_difference(&self, other: MixedEnumSet<T>) -> MixedEnumSet<T>
        ensures { result ≡ set.symmetric_difference self.now other }
    {
        self.symmetric_difference(other)
    }

    /// Returns the valid bits that are not in the set, as elements. The result has no unknown bits, so it tells which
    /// elements are missing. To invert all bits, those of a newer peer's variants too, use
    /// [`full_complement`](MixedEnumSet::full_complement).
    pub fn complement(&self) -> MixedEnumSet<T>
        ensures { result ≡ set.difference (valid_bits T.elements) self.now }
    {
        Self::of_repr(valid_repr::<T>().and_not(self.repr))
    }

    /// Returns all bits below the width of the representation that are not in the set, valid or unknown. Each member of
    /// the set is below the width, so the full complement of the full complement is the set itself.
    /// [`complement`](MixedEnumSet::complement) returns only the valid ones.
    pub fn full_complement(&self) -> MixedEnumSet<T>
        ensures complement { result ≡ set.difference (set.below T.Repr.WIDTH) self.now }
        ensures within { IsTrue (set.is_subset self.now (set.below T.Repr.WIDTH)) }
    {
        Self::of_repr(!self.repr)
    }

    /// Adds every member of `other`.
    pub fn insert_all(&mut self, other: MixedEnumSet<T>)
        ensures { self.new ≡ set.union self.old other }
    {
        self.repr.or_with(&other.repr);
    }

    /// Removes every member of `other`.
    pub fn remove_all(&mut self, other: MixedEnumSet<T>)
        ensures { self.new ≡ set.difference self.old other }
    {
        self.repr.and_not_with(&other.repr);
    }

    /// Returns an iterator over the members, each once, ascending by bit, from both ends: the element for a valid bit,
    /// the number for an unknown one. Later changes to the set do not affect it. Each member of the set is below the
    /// width of the representation.
    pub fn iter(&self) -> MixedEnumSetIter<T>
        ensures ascending { result.items ≡ set.ascending self.now }
        ensures members { left result ≡ self.now }
        ensures asks { result.asks ≡ 0 }
        ensures span { result.span ≤ T.Repr.PREFERRED_ARRAY_LEN }
        ensures within { IsTrue (set.is_subset self.now (set.below T.Repr.WIDTH)) }
    {
        MixedEnumSetIter::over(self.repr)
    }
}

/// Calls that Rust's `enumset` does not have.
impl<T: EnumSetTypeWithRepr> MixedEnumSet<T> {
    /// Like [`is_disjoint`](MixedEnumSet::is_disjoint), without copying its argument.
    pub fn is_disjoint_from(&self, other: &MixedEnumSet<T>) -> bool
        ensures { result ≡ set.is_disjoint self.now other.now }
    {
        self.repr.is_disjoint_from(&other.repr)
    }

    /// Like [`is_superset`](MixedEnumSet::is_superset), without copying its argument.
    pub fn is_superset_of(&self, other: &MixedEnumSet<T>) -> bool
        ensures { result ≡ set.is_subset other.now self.now }
    {
        other.repr.is_subset_of(&self.repr)
    }

    /// Like [`is_subset`](MixedEnumSet::is_subset), without copying its argument.
    pub fn is_subset_of(&self, other: &MixedEnumSet<T>) -> bool
        ensures { result ≡ set.is_subset self.now other.now }
    {
        self.repr.is_subset_of(&other.repr)
    }

    /// Adds every member of `other`, and returns whether one of them was absent.
    pub fn union_with(&mut self, other: &MixedEnumSet<T>) -> bool
        ensures union { self.new ≡ set.union self.old other.now }
        ensures changed { result ≡ not (set.is_subset other.now self.old) }
    {
        self.repr.or_changes(&other.repr)
    }

    /// Removes every member that is not in `other`, and returns whether there was such a member.
    pub fn intersect_with(&mut self, other: &MixedEnumSet<T>) -> bool
        ensures intersection { self.new ≡ set.intersection self.old other.now }
        ensures changed { result ≡ not (set.is_subset self.old other.now) }
    {
        self.repr.and_changes(&other.repr)
    }

    /// Removes every member of `other`, and returns whether one of them was present.
    pub fn difference_with(&mut self, other: &MixedEnumSet<T>) -> bool
        ensures difference { self.new ≡ set.difference self.old other.now }
        ensures changed { result ≡ not (set.is_disjoint self.old other.now) }
    {
        self.repr.and_not_changes(&other.repr)
    }

    /// Returns the member with the least bit, valid or unknown, or `None` if the set is empty.
    pub fn first(&self) -> Option<MixedValue<T>>
        ensures { option_map (bit_with_validity T.elements.bit) result
            ≡ option_map (λ b. (b, set.contains (valid_bits T.elements) b)) (least self.now) }
    {
        Some(value_of(least_bit(&self.repr)?))
    }

    /// Returns the member with the greatest bit, valid or unknown, or `None` if the set is empty.
    pub fn last(&self) -> Option<MixedValue<T>>
        ensures { option_map (bit_with_validity T.elements.bit) result
            ≡ option_map (λ b. (b, set.contains (valid_bits T.elements) b)) (greatest self.now) }
    {
        Some(value_of(greatest_bit(&self.repr)?))
    }
}
