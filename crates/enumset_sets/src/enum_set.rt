//! The type [`EnumSet`] and its calls, except conversions to and from numbers, words and values of a representation,
//! operators and folds.
//!
//! `MixedEnumSet` of `enumset_mixed` is its twin: a change of a call or of its contract here is mostly due there, too.

ghost use Rattle.std.specs.Prelude.{◌≡◌, ◌<◌, ◌≤◌, ◌&&◌, ◌^◌, ℕ, Bool, IsTrue, IfNone, IfSome, false, if◌then◌else◌, nat_le, not, length};
ghost use Rattle.std.specs.Iterator.{YieldsFirstBy, YieldsLastBy};
ghost use Rattle.std.specs.Fn.{Called};
ghost use Rattle.std.specs.Iterator.Runs.{EveryRun, ItemsMapTo, CallKeepsClosure};
ghost use Rattle.std.specs.Option.{option_map};
ghost use Rattle.enumset_repr.specs.BitSet as set;
ghost use Rattle.enumset_repr.specs.Ends.{least, greatest};
ghost use Rattle.enumset_repr.specs.Number.{bits};
ghost use Rattle.enumset_sets.specs.Calls.{left, Selects};
ghost use Rattle.enumset_sets.specs.Elements.{one_past_greatest, valid_bits};
ghost use Rattle.enumset_sets.specs.Retain.{IsConstantTest, IsTest, Retains, RetainsTo};

use crate::element::EnumSetType;
use crate::enum_set_iter::EnumSetIter;
use crate::raw::{learn_valid_bits, valid_repr};
use crate::text::write_separator;
use enumset_repr::{EnumSetTypeRepr, are_same, greatest_bit, least_bit, least_bit_from};
use std::alloc::AllocError;
use std::fmt;
use std::marker::{Model, PhantomData};

/// A set of elements, kept as a value of a representation.
///
/// Contracts see a set as the set of its elements' bits, which are called its members. A bit is valid if a variant has
/// it.
///
/// The struct mirrors `EnumSet` of Rust's `enumset`: each call there has its name here, and
/// [`eq_element`](EnumSet::eq_element) is Rust's `==` between a set and an element. The parameter `R` is always the
/// representation of `T`: write `EnumSet<T>`.
///
/// # Numbers
///
/// The number of a set is the sum of 2^b over its members b. Let X be `u8`, `u16`, `u32`, `u64`, `u128` or `usize`, and
/// its width 8, 16, 32, 64, 128 or 64:
///
/// | Call | It returns | It requires |
/// | --- | --- | --- |
/// | `as_X` | the number | that every member is below the width, where the representation is wider |
/// | `try_as_X` | the number, if every member is below the width, else `None` | |
/// | `as_X_truncated` | the number of the set of the members below the width | |
/// | `from_X` | the set of the number | that every bit of it is valid |
/// | `try_from_X` | the set of the number, if every bit of it is valid, else `None` | |
/// | `from_X_truncated` | the set of the valid bits of the number | |
/// | `from_X_unchecked` | as `from_X` | the same |
///
/// The `try_` form tests what the other form requires: code that has matched its `Some` may call the other.
///
/// # Words
///
/// Word w of a set, a number of 64 bits, has the members from 64w to 64w + 63; the lowest word comes first. Arrays and
/// slices may have any length. Words past the last word of the representation are 0.
///
/// | Array | Slice | It returns or writes | It requires |
/// | --- | --- | --- | --- |
/// | `as_array` | `copy_into_slice` | the words | that every member is in one of them |
/// | `try_as_array` | `try_copy_into_slice` | the words, if every member is in one of them, else `None` | |
/// | `as_array_truncated` | `copy_into_slice_truncated` | the words, without the members that are in none of them | |
/// | `from_array` | `from_slice` | the set of the words | that every bit of them is valid |
/// | `try_from_array` | `try_from_slice` | the set of the words, if every bit of them is valid, else `None` | |
/// | `from_array_truncated` | `from_slice_truncated` | the set of the valid bits of the words | |
/// | `from_array_unchecked` | `from_slice_unchecked` | as `from_array`, `from_slice` | the same |
///
/// [`to_vec`](EnumSet::to_vec) returns all words of the representation.
pub struct EnumSet<T: EnumSetType, R: EnumSetTypeRepr = <T as EnumSetType>::Repr> {
    pub(crate) repr: R,
    of: PhantomData<T>,
}

impl<T: EnumSetType, R: EnumSetTypeRepr> Model for EnumSet<T, R> {
    ghost use Rattle.enumset_repr.specs.BitSet.{BitSet, coded_set};
    ghost use Rattle.enumset_sets.specs.Elements.{valid_bits};
    ghost use Rattle.enumset_sets.specs.SetInvariant.{IsHeld};

    ghost Value = { BitSet };

    ghost coded = { coded_set };

    ghost view = { λ s. R.members s.repr };

    ghost invariant = { λ s.
        IsHeld R.members R.of_members R.is_value (valid_bits T.elements) s.repr };

    ghost inverse = { λ s. record { repr = R.of_members s; of = record {} } };

    ghost inverse_ok = { λ a h i. record { repr = h.inverse i; of = a.of } };
}

/// `clone` returns the same set, and never fails. A set is `Copy`, so only generic code calls `clone`.
impl<T: EnumSetType, R: EnumSetTypeRepr> Clone for EnumSet<T, R> {
    ghost use Rattle.std.specs.Prelude.{⊤};

    ghost is_clone = { λ s t. s ≡ t };

    ghost is_infallible = { λ _. ⊤ };

    fn clone(&self) -> Result<EnumSet<T, R>, AllocError> {
        Ok(EnumSet {
            repr: self.repr,
            of: PhantomData,
        })
    }
}

impl<T: EnumSetType, R: EnumSetTypeRepr> Copy for EnumSet<T, R> {}

/// Sets are equal if they have the same members.
impl<T: EnumSetType> PartialEq for EnumSet<T> {
    ghost use Rattle.enumset_repr.specs.BitSet.{is_same};
    ghost use Rattle.enumset_repr.specs.Laws.Members.{is_same-IsPartialEquivalence};

    ghost eq = { is_same };

    ghost laws = { is_same-IsPartialEquivalence };

    fn eq(&self, other: &EnumSet<T>) -> bool {
        are_same(&self.repr, &other.repr)
    }
}

impl<T: EnumSetType> Eq for EnumSet<T> {
    ghost use Rattle.enumset_repr.specs.Laws.Members.{is_same-IsEquivalence};

    ghost laws = { is_same-IsEquivalence };
}

/// `default` returns the empty set.
impl<T: EnumSetType> Default for EnumSet<T> {
    ghost use Rattle.std.specs.Prelude.{◌≡◌};
    ghost use Rattle.enumset_repr.specs.BitSet.{empty};

    ghost is_default = { λ s. s ≡ empty };

    fn default() -> EnumSet<T> {
        EnumSet::new()
    }
}

/// `{:?}` writes `EnumSet(`, the `{:?}` texts of the elements, ascending by bit and joined by ` | `, and `)`. No
/// contract says so; tests do.
impl<T: EnumSetType + fmt::Debug> fmt::Debug for EnumSet<T> {
    fn fmt<W: fmt::Write>(&self, f: &mut fmt::Formatter<W>) -> fmt::Result {
        f.write_str("EnumSet(")?;
        let mut is_first = true;
        for element in self.iter() {
            write_separator(is_first, f)?;
            is_first = false;
            element.fmt(f)?;
        }
        f.write_str(")")
    }
}

#[tactic(auto, using(enumset_repr::specs::Rules::Members::decided))]
impl<T: EnumSetType> EnumSet<T> {
    /// Returns the set that a value represents. Each member must be a valid bit.
    pub(crate) fn of_repr(repr: T::Repr) -> EnumSet<T>
        requires { IsTrue (set.is_subset (T.Repr.members repr) (valid_bits T.elements)) }
        ensures { result ≡ T.Repr.members repr }
    {
        // Tells the proof that `repr` is a value of its type, as the invariant of `EnumSet` says.
        repr.learn_is_value();
        EnumSet {
            repr,
            of: PhantomData,
        }
    }

    /// Tells the proof that the members are valid bits, and that valid bits are below the width, which is a `u32`. The
    /// call does nothing at run time.
    #[inline]
    pub(crate) fn learn_members(&self)
        ensures valid { IsTrue (set.is_subset self.now (valid_bits T.elements)) }
        ensures within { IsTrue (set.is_subset (valid_bits T.elements) (set.below T.Repr.WIDTH)) }
        ensures width { T.Repr.WIDTH < 2 ^ 32 }
    {
        learn_valid_bits::<T>();
        // The proof learns the invariant of the type from a read.
        let _held = self.repr;
    }

    /// Returns the empty set.
    pub fn new() -> EnumSet<T>
        ensures { result ≡ set.empty }
    {
        Self::of_repr(T::Repr::EMPTY)
    }

    /// Returns the empty set, as [`new`](EnumSet::new).
    pub fn empty() -> EnumSet<T>
        ensures { result ≡ set.empty }
    {
        Self::new()
    }

    /// Returns the set of all variants.
    pub fn all() -> EnumSet<T>
        ensures { result ≡ valid_bits T.elements }
    {
        Self::of_repr(valid_repr::<T>())
    }

    /// Returns the set of one element.
    pub fn only(t: T) -> EnumSet<T>
        ensures { result ≡ set.only (T.elements.bit t) }
    {
        let mut repr = T::Repr::EMPTY;
        repr.add_bit(Self::bit_index(t));
        Self::of_repr(repr)
    }

    /// Returns one past the greatest valid bit, or 0 if no bit is valid.
    #[tactic(auto, unfolding(crate::specs::Elements::IsWidthOf))]
    pub fn bit_width() -> u32
        ensures { result ≡ one_past_greatest (valid_bits T.elements) }
    {
        T::BIT_WIDTH
    }

    /// Returns the number of valid bits, which is the number of variants.
    #[tactic(auto, unfolding(crate::specs::Elements::IsCountOf))]
    pub fn variant_count() -> u32
        ensures { result ≡ set.len (valid_bits T.elements) }
    {
        T::VARIANT_COUNT
    }

    /// Returns the bit of an element. It is valid, and below the width of the representation.
    pub fn bit_index(t: T) -> u32
        ensures bit { result ≡ T.elements.bit t }
        ensures valid { IsTrue (set.contains (valid_bits T.elements) result) }
        ensures within { result < T.Repr.WIDTH }
    {
        learn_valid_bits::<T>();
        t.enum_into_u32()
    }

    /// Returns whether a bit is valid, which is whether a variant has it. No bit at or past the width of the
    /// representation is valid. For such a bit the call of Rust's `enumset` tests another bit, overflows or panics.
    pub fn is_bit_valid(bit: u32) -> bool
        ensures valid { result ≡ set.contains (valid_bits T.elements) bit }
        ensures of_a_variant { result ≡ set.is_in bit T.elements.bit_list }
        ensures past { T.Repr.WIDTH ≤ bit → result ≡ false }
    {
        let all = valid_repr::<T>();
        bit < T::Repr::WIDTH && all.has_bit(bit)
    }

    /// Returns the same set as a new value. Code over any element type calls it where it uses a set by value twice.
    pub fn copied(&self) -> EnumSet<T>
        ensures { result ≡ self.now }
    {
        Self::of_repr(self.repr)
    }

    /// Returns the number of members. Each is a valid bit.
    pub fn len(&self) -> usize
        ensures members { result ≡ set.len self.now }
        ensures fits { result < 2 ^ 32 }
        ensures valid { IsTrue (set.is_subset self.now (valid_bits T.elements)) }
    {
        self.repr.count_ones() as usize
    }

    /// Returns whether the set is empty.
    pub fn is_empty(&self) -> bool
        ensures { result ≡ set.is_empty self.now }
    {
        self.repr.is_empty()
    }

    /// Removes all members.
    pub fn clear(&mut self)
        ensures { self.new ≡ set.empty }
    {
        *self = Self::new();
    }

    /// Returns whether an element is a member.
    pub fn contains(&self, value: T) -> bool
        ensures { result ≡ set.contains self.now (T.elements.bit value) }
    {
        self.repr.has_bit(Self::bit_index(value))
    }

    /// Adds an element, and returns whether it was absent.
    pub fn insert(&mut self, value: T) -> bool
        ensures inserted { self.new ≡ set.insert self.old (T.elements.bit value) }
        ensures was_absent { result ≡ not (set.contains self.old (T.elements.bit value)) }
    {
        let bit = Self::bit_index(value);
        let is_absent = !self.repr.has_bit(bit);
        self.repr.add_bit(bit);
        is_absent
    }

    /// Removes an element, and returns whether it was present.
    pub fn remove(&mut self, value: T) -> bool
        ensures removed { self.new ≡ set.remove self.old (T.elements.bit value) }
        ensures was_present { result ≡ set.contains self.old (T.elements.bit value) }
    {
        let bit = Self::bit_index(value);
        let is_present = self.repr.has_bit(bit);
        self.repr.remove_bit(bit);
        is_present
    }

    /// Returns whether no element is a member of both sets.
    pub fn is_disjoint(&self, other: EnumSet<T>) -> bool
        ensures { result ≡ set.is_disjoint self.now other }
    {
        self.repr.is_disjoint_from(&other.repr)
    }

    /// Returns whether every member of `other` is a member of this set.
    pub fn is_superset(&self, other: EnumSet<T>) -> bool
        ensures { result ≡ set.is_subset other self.now }
    {
        other.repr.is_subset_of(&self.repr)
    }

    /// Returns whether every member of this set is a member of `other`.
    pub fn is_subset(&self, other: EnumSet<T>) -> bool
        ensures { result ≡ set.is_subset self.now other }
    {
        self.repr.is_subset_of(&other.repr)
    }

    /// Returns the members of either set.
    pub fn union(&self, other: EnumSet<T>) -> EnumSet<T>
        ensures { result ≡ set.union self.now other }
    {
        Self::of_repr(self.repr | other.repr)
    }

    /// Returns the members of both sets.
    pub fn intersection(&self, other: EnumSet<T>) -> EnumSet<T>
        ensures { result ≡ set.intersection self.now other }
    {
        Self::of_repr(self.repr & other.repr)
    }

    /// Returns the members of this set that are not in `other`.
    pub fn difference(&self, other: EnumSet<T>) -> EnumSet<T>
        ensures { result ≡ set.difference self.now other }
    {
        Self::of_repr(self.repr.and_not(other.repr))
    }

    /// Returns the members of exactly one of the two sets.
    pub fn symmetric_difference(&self, other: EnumSet<T>) -> EnumSet<T>
        ensures { result ≡ set.symmetric_difference self.now other }
    {
        Self::of_repr(self.repr ^ other.repr)
    }

    /// Returns the members of exactly one of the two sets, under an older name.
    #[deprecated = "Use `symmetric_difference` instead."]
    pub fn symmetrical_difference(&self, other: EnumSet<T>) -> EnumSet<T>
        ensures { result ≡ set.symmetric_difference self.now other }
    {
        self.symmetric_difference(other)
    }

    /// Returns the valid bits that are not in the set, as elements. Each member of the set is a valid bit, so the
    /// complement of the complement is the set itself.
    pub fn complement(&self) -> EnumSet<T>
        ensures complement { result ≡ set.difference (valid_bits T.elements) self.now }
        ensures valid { IsTrue (set.is_subset self.now (valid_bits T.elements)) }
    {
        Self::of_repr(valid_repr::<T>().and_not(self.repr))
    }

    /// Adds every member of `other`.
    pub fn insert_all(&mut self, other: EnumSet<T>)
        ensures { self.new ≡ set.union self.old other }
    {
        self.repr.or_with(&other.repr);
    }

    /// Removes every member of `other`.
    pub fn remove_all(&mut self, other: EnumSet<T>)
        ensures { self.new ≡ set.difference self.old other }
    {
        self.repr.and_not_with(&other.repr);
    }

    /// Returns an iterator over the elements, each once, ascending by bit, from both ends. Later changes to the set do
    /// not affect it. Each member of the set is a valid bit.
    pub fn iter(&self) -> EnumSetIter<T>
        ensures ascending { result.items ≡ set.ascending self.now }
        ensures members { left result ≡ self.now }
        ensures asks { result.asks ≡ 0 }
        ensures span { result.span ≤ T.Repr.PREFERRED_ARRAY_LEN }
        ensures valid { IsTrue (set.is_subset self.now (valid_bits T.elements)) }
        // This holds whatever the body does: it says what the steps of any iterator yield.
        ensures runs { EveryRun ⟦<EnumSetIter<T> as Iterator>⟧.next_gives
            (λ run. ItemsMapTo run T.elements.bit run.from.items) }
        ensures fits { length result.items < 2 ^ 32 }
    {
        self.learn_members();
        EnumSetIter::over(self.repr)
    }

    /// Returns whether the set has this element and no other. Rust's `enumset` writes this as `==` between a set and an
    /// element.
    pub fn eq_element(&self, value: T) -> bool
        ensures { result ≡ set.is_same self.now (set.only (T.elements.bit value)) }
    {
        are_same(&self.repr, &Self::only(value).repr)
    }
}

/// Calls that Rust's `enumset` does not have.
#[tactic(auto, using(crate::proofs::EndMembers::valid_ends))]
impl<T: EnumSetType> EnumSet<T> {
    /// Returns the variants from `from` to `to` by their bits, both included, or none if `to` has the lesser bit.
    pub fn range(from: T, to: T) -> EnumSet<T>
        ensures { result ≡ set.retain (valid_bits T.elements)
            (λ q. nat_le (T.elements.bit from) q && nat_le q (T.elements.bit to)) }
    {
        let (first, last) = (Self::bit_index(from), Self::bit_index(to));
        learn_valid_bits::<T>();
        let all = valid_repr::<T>();
        let mut range = T::Repr::EMPTY;
        // By this `min` the compiler sees that an integer of at most 64 bits has one word.
        let end = (last as usize / 64 + 1).min(T::Repr::PREFERRED_ARRAY_LEN);
        for i in first as usize / 64..end {
            let start = 64 * i as u32;
            let before = ones_from(first.saturating_sub(start));
            let past = ones_from((last + 1).saturating_sub(start));
            range.put_word(i, all.word(i) & before & !past);
        }
        Self::of_repr(range)
    }

    /// Like [`is_disjoint`](EnumSet::is_disjoint), without copying its argument.
    pub fn is_disjoint_from(&self, other: &EnumSet<T>) -> bool
        ensures { result ≡ set.is_disjoint self.now other.now }
    {
        self.repr.is_disjoint_from(&other.repr)
    }

    /// Like [`is_superset`](EnumSet::is_superset), without copying its argument.
    pub fn is_superset_of(&self, other: &EnumSet<T>) -> bool
        ensures { result ≡ set.is_subset other.now self.now }
    {
        other.repr.is_subset_of(&self.repr)
    }

    /// Like [`is_subset`](EnumSet::is_subset), without copying its argument.
    pub fn is_subset_of(&self, other: &EnumSet<T>) -> bool
        ensures { result ≡ set.is_subset self.now other.now }
    {
        self.repr.is_subset_of(&other.repr)
    }

    /// Adds every member of `other`, and returns whether one of them was absent.
    pub fn union_with(&mut self, other: &EnumSet<T>) -> bool
        ensures union { self.new ≡ set.union self.old other.now }
        ensures changed { result ≡ not (set.is_subset other.now self.old) }
    {
        self.repr.or_changes(&other.repr)
    }

    /// Removes every member that is not in `other`, and returns whether there was such a member.
    pub fn intersect_with(&mut self, other: &EnumSet<T>) -> bool
        ensures intersection { self.new ≡ set.intersection self.old other.now }
        ensures changed { result ≡ not (set.is_subset self.old other.now) }
    {
        self.repr.and_changes(&other.repr)
    }

    /// Removes every member of `other`, and returns whether one of them was present.
    pub fn difference_with(&mut self, other: &EnumSet<T>) -> bool
        ensures difference { self.new ≡ set.difference self.old other.now }
        ensures changed { result ≡ not (set.is_disjoint self.old other.now) }
    {
        self.repr.and_not_changes(&other.repr)
    }

    /// Adds an element if it is absent, else removes it, and returns whether it is a member now.
    #[tactic(auto, using(crate::proofs::EndMembers::toggles))]
    pub fn toggle(&mut self, value: T) -> bool
        ensures toggled { self.new
            ≡ set.symmetric_difference self.old (set.only (T.elements.bit value)) }
        ensures is_member { result ≡ set.contains self.new (T.elements.bit value) }
        ensures was_absent { result ≡ not (set.contains self.old (T.elements.bit value)) }
    {
        let is_member = !self.contains(value);
        self.set(value, is_member);
        is_member
    }

    /// Adds an element if `is_member` is true, else removes it. So `is_member` says whether the element is a member
    /// now.
    pub fn set(&mut self, value: T, is_member: bool)
        ensures { self.new ≡ (if is_member
            then set.insert self.old (T.elements.bit value)
            else set.remove self.old (T.elements.bit value)) }
    {
        let bit = Self::bit_index(value);
        if is_member {
            self.repr.add_bit(bit);
        } else {
            self.repr.remove_bit(bit);
        }
    }

    /// Returns the element with the least bit, or `None` if the set is empty.
    pub fn first(&self) -> Option<T>
        ensures { option_map T.elements.bit result ≡ least self.now }
    {
        Some(T::enum_from_u32(least_bit(&self.repr)?))
    }

    /// Returns the element with the greatest bit, or `None` if the set is empty.
    pub fn last(&self) -> Option<T>
        ensures { option_map T.elements.bit result ≡ greatest self.now }
    {
        Some(T::enum_from_u32(greatest_bit(&self.repr)?))
    }

    /// Returns the element with the least bit at or past `bit`, or `None` if there is none. So
    /// `set.first_from(bit).or(set.first())` goes round the set.
    pub fn first_from(&self, bit: u32) -> Option<T>
        ensures { option_map T.elements.bit result
            ≡ least (set.difference self.now (set.below bit)) }
    {
        Some(T::enum_from_u32(least_bit_from(&self.repr, bit)?))
    }

    /// Takes out the element with the least bit and returns it, or returns `None` if the set is empty.
    pub fn pop_first(&mut self) -> Option<T>
        ensures first { YieldsFirstBy T.elements.bit set.ascending self.old result self.new }
        ensures least { option_map T.elements.bit result ≡ least self.old }
        ensures removed { IfSome result (λ t. self.new ≡ set.remove self.old (T.elements.bit t)) }
        ensures put_back { IfSome result (λ t. self.old ≡ set.insert self.new (T.elements.bit t)) }
        ensures fewer { IfSome result (λ _. set.len self.new < set.len self.old) }
        ensures none { IfNone result ((self.old ≡ set.empty) × (self.new ≡ set.empty)) }
    {
        let bit = least_bit(&self.repr)?;
        self.repr.remove_bit(bit);
        Some(T::enum_from_u32(bit))
    }

    /// Takes out the element with the greatest bit and returns it, or returns `None` if the set is empty.
    pub fn pop_last(&mut self) -> Option<T>
        ensures last { YieldsLastBy T.elements.bit set.ascending self.old result self.new }
        ensures greatest { option_map T.elements.bit result ≡ greatest self.old }
        ensures removed { IfSome result (λ t. self.new ≡ set.remove self.old (T.elements.bit t)) }
        ensures put_back { IfSome result (λ t. self.old ≡ set.insert self.new (T.elements.bit t)) }
        ensures fewer { IfSome result (λ _. set.len self.new < set.len self.old) }
        ensures none { IfNone result ((self.old ≡ set.empty) × (self.new ≡ set.empty)) }
    {
        let bit = greatest_bit(&self.repr)?;
        self.repr.remove_bit(bit);
        Some(T::enum_from_u32(bit))
    }

    /// Removes each element for which `keep` returns false. `keep` is called once for each element, ascending by bit.
    /// What is left is a subset of the set, whatever `keep` does. If `keep` tests only the bit, exactly the elements
    /// whose bits pass stay. The test may also read what `keep` captured, if no call changes it.
    ///
    /// No clause says what the calls leave in a variable that `keep` borrows and changes, like a count of its calls:
    /// the variable has some value then. To count the removed elements, compare `len` before and after.
    ///
    /// The model of this call is `BTreeSet::retain` of std.
    pub fn retain<F: FnMut(T) -> bool>(&mut self, keep: F)
        requires { F.IsAlwaysCallable keep }
        ensures calls { Retains T.elements.bit F.FnMut keep self.old self.new }
        ensures left { IsTrue (set.is_subset self.new self.old) }
        ensures selected { CallKeepsClosure F.FnMut keep
            → Selects T.elements.bit (λ t b. Called F.FnMut keep (t, tt) b keep) self.old self.new }
        ensures kept { (p : ℕ → Bool) → IsTest T.elements.bit F.FnMut p → self.new ≡ set.retain self.old p }
        ensures kept_unchanged { (p : ℕ → Bool) → IsConstantTest T.elements.bit F.FnMut keep p
            → self.new ≡ set.retain self.old p }
    {
        let mut keep_each = keep;
        self.retain_by(&mut keep_each);
    }

    /// Makes the calls of [`retain`](EnumSet::retain), one for each element, and no more. It takes the closure by
    /// reference, so that the clause can say what the calls make of the closure.
    fn retain_by<F: FnMut(T) -> bool>(&mut self, keep: &mut F)
        requires { F.IsAlwaysCallable keep.old }
        ensures { RetainsTo T.elements.bit F.FnMut keep.old keep.new self.old self.new }
    {
        for element in self.iter() {
            if !keep(element) {
                self.remove(element);
            }
        }
    }
}

/// Returns the word that has the bits from `k` to 63, which is 0 if `k` is greater than 63.
fn ones_from(k: u32) -> u64
    ensures { bits result ≡ set.difference (set.below 64) (set.below k) }
{
    if k < 64 { u64::MAX << k } else { 0 }
}
