//! The trait of representations: the types that keep the bits of a set.

ghost use Rattle.std.specs.Prelude.{◌≡◌, ℕ, ◌+◌, ◌*◌, ◌/◌, ◌<◌, ◌≤◌, ◌↔◌, List, length, not, IsTrue, IsSome, IfSome};
ghost use Rattle.enumset_repr.specs.Asks.{IsCounted};
ghost use Rattle.enumset_repr.specs.BitSet as set;
ghost use Rattle.enumset_repr.specs.BitSet.{BitSet};
ghost use Rattle.enumset_repr.specs.Number.{bits, number};
ghost use Rattle.enumset_repr.specs.Representations.{IsRepresentation, AreSetOperators, IsListed};
ghost use Rattle.enumset_repr.specs.Words.{word as word_of, with_word, words, bits_of};

use crate::halves::{halves_of, join_halves};
use std::fmt::Debug;
use std::hash::Hash;
use std::ops::{BitAnd, BitOr, BitXor, Not};

/// A representation. Each of its values represents a set of bit numbers below [`WIDTH`](EnumSetTypeRepr::WIDTH).
///
/// A type that implements the trait says which set each of its values represents, and proves that each call is the set
/// operation of its name. So contracts of code over a representation are about sets alone.
///
/// The items come in this order:
///
/// 1. Ghost members, which say which set a value represents, and which value represents a set; the constants; the
///    iterator, with the items that it has left.
/// 2. The eight calls that a representation writes, from `is_empty` to `put_word`.
/// 3. The calls with a default body, which a representation may replace.
/// 4. The four laws, which a representation proves. The law `represents` relates values and sets one to one.
/// 5. The 28 conversions to and from slices of words and numbers, which no representation writes. They are `final`, so
///    each is proved once, over the calls above.
///
/// The trait mirrors `EnumSetTypeRepr` of Rust's `enumset`, whose calls have the same names. These have no counterpart
/// there: `or_with`, `and_with`, `xor_with`, `and_not_with`, `is_subset_of`, `is_disjoint_from`, `or_changes`,
/// `and_changes`, `and_not_changes`, `word`, `put_word`, `items_left`, `same_iter` and `learn_is_value`. The
/// conversions to and from arrays are functions of [`arrays`](crate::arrays), and the ends of a set are functions of
/// [`ends`](crate::ends).
///
/// The default bodies of calls with two sets build values, and those of `or_changes`, `and_changes` and
/// `and_not_changes` are two passes, a test and then the change. A representation of many words should have its own, of
/// one pass each.
#[tactic(auto, using(crate::specs::Laws::Widths::cuts_to))]
pub trait EnumSetTypeRepr: Copy
    + Eq
    + Ord
    + Hash
    + Debug
    + BitAnd<Output = Self>
    + BitOr<Output = Self>
    + BitXor<Output = Self>
    + Not<Output = Self> {
    // ---- what each value represents

    // The set that a value represents.
    ghost members: { Self → BitSet };

    // The value that represents a set, if there is one.
    ghost of_members: { BitSet → Self };

    // Holds for the values of the type. A variable of a clause ranges over more: at `u8`, over every number.
    ghost is_value: { Self → Type 0 };

    // ---- the constants

    ghost PREFERRED_ARRAY_LEN: { ℕ };

    /// The number of words of 64 bits that a value has: the width divided by 64, rounded up.
    const PREFERRED_ARRAY_LEN: usize;

    ghost WIDTH: { ℕ };

    /// The number of bits that a value can keep. Each member of its set is below this number.
    const WIDTH: u32;

    ghost EMPTY: { Self };

    /// The empty set.
    const EMPTY: Self;

    // ---- the iterator

    /// An iterator over the members, each once, ascending, from both ends.
    type Iter: Iterator<Item = u32>
        + DoubleEndedIterator
        + ExactSizeIterator
        + Clone
        + Debug
        + Drop;

    // The items that an iterator has not yet yielded.
    ghost rest: { Self.Iter → List ℕ };

    // How many asks (counted reads of a word) an iterator has made.
    ghost asks: { Self.Iter → ℕ } = { λ _. 0 };

    // How many asks an iterator may still make beyond one for each item left.
    ghost span: { Self.Iter → ℕ } = { λ _. 0 };

    // ---- the calls that a representation writes

    /// Returns whether the set is empty. A proof also learns that `self` is a value of the type.
    fn is_empty(&self) -> bool
        ensures empty { result ≡ set.is_empty (members self.now) }
        ensures value { is_value self.now };

    /// Returns the number of members.
    fn count_ones(&self) -> u32
        ensures { result ≡ set.len (members self.now) };

    /// Adds a bit. The bit must be below the width.
    fn add_bit(&mut self, bit: u32)
        requires { bit < WIDTH }
        ensures members { members self.new ≡ set.insert (members self.old) bit }
        ensures value { is_value self.new };

    /// Removes a bit. The bit must be below the width.
    fn remove_bit(&mut self, bit: u32)
        requires { bit < WIDTH }
        ensures members { members self.new ≡ set.remove (members self.old) bit }
        ensures value { is_value self.new };

    /// Returns whether a bit is a member. The bit must be below the width.
    fn has_bit(&self, bit: u32) -> bool
        requires { bit < WIDTH }
        ensures { result ≡ set.contains (members self.now) bit };

    /// Returns an iterator over the members, ascending.
    fn iter(self) -> Self::Iter
        ensures rest { rest result ≡ set.ascending (members self) }
        ensures asks { asks result ≡ 0 }
        ensures span { span result ≤ PREFERRED_ARRAY_LEN };

    /// Returns the word of 64 bits at place `i`: the bits from `64 * i` to `64 * i + 63`. The place must be below
    /// [`PREFERRED_ARRAY_LEN`](EnumSetTypeRepr::PREFERRED_ARRAY_LEN).
    fn word(&self, i: usize) -> u64
        requires { i < PREFERRED_ARRAY_LEN }
        ensures { result ≡ word_of (members self.now) i };

    /// Replaces the word at place `i` by `w`, and drops the bits of `w` that would be at or past the width. The place
    /// must be below [`PREFERRED_ARRAY_LEN`](EnumSetTypeRepr::PREFERRED_ARRAY_LEN).
    fn put_word(&mut self, i: usize, w: u64)
        requires { i < PREFERRED_ARRAY_LEN }
        ensures { members self.new ≡ with_word (members self.old) WIDTH i w };

    // ---- the calls with a default body, which a representation may replace

    /// Tells the proof that `self` is a value of the type, and changes nothing.
    ///
    /// The default body calls `is_empty`. A representation of many words should have a body that reads no word.
    fn learn_is_value(self)
        ensures { is_value self }
    {
        let _ = self.is_empty();
    }

    /// Returns the members that are not in `other`.
    fn and_not(&self, other: Self) -> Self
        ensures { members result ≡ set.difference (members self.now) (members other) }
    {
        // The laws of `!` and of the width hold only for values of the type.
        self.learn_is_value();
        other.learn_is_value();
        *self & !other
    }

    /// Adds every member of `other`, in place.
    fn or_with(&mut self, other: &Self)
        ensures members { members self.new ≡ set.union (members self.old) (members other.now) }
        ensures value { is_value self.new }
    {
        *self = *self | *other;
        // This proves the clause `value`, here and in the methods below.
        self.learn_is_value();
    }

    /// Removes every member that is not in `other`, in place.
    fn and_with(&mut self, other: &Self)
        ensures members { members self.new ≡ set.intersection (members self.old) (members other.now) }
        ensures value { is_value self.new }
    {
        *self = *self & *other;
        self.learn_is_value();
    }

    /// Toggles every member of `other`, in place: adds it if it is absent, else removes it.
    fn xor_with(&mut self, other: &Self)
        ensures members { members self.new
            ≡ set.symmetric_difference (members self.old) (members other.now) }
        ensures value { is_value self.new }
    {
        *self = *self ^ *other;
        self.learn_is_value();
    }

    /// Removes every member of `other`, in place.
    fn and_not_with(&mut self, other: &Self)
        ensures members { members self.new ≡ set.difference (members self.old) (members other.now) }
        ensures value { is_value self.new }
    {
        *self = self.and_not(*other);
        self.learn_is_value();
    }

    /// Returns whether every member is also in `other`.
    fn is_subset_of(&self, other: &Self) -> bool
        ensures { result ≡ set.is_subset (members self.now) (members other.now) }
    {
        self.and_not(*other).is_empty()
    }

    /// Returns whether no bit is a member of both sets.
    fn is_disjoint_from(&self, other: &Self) -> bool
        ensures { result ≡ set.is_disjoint (members self.now) (members other.now) }
    {
        (*self & *other).is_empty()
    }

    /// Adds every member of `other`, in place, and returns whether one of them was absent.
    fn or_changes(&mut self, other: &Self) -> bool
        ensures members { members self.new ≡ set.union (members self.old) (members other.now) }
        ensures value { is_value self.new }
        ensures changed { result ≡ not (set.is_subset (members other.now) (members self.old)) }
    {
        let has_all = other.is_subset_of(self);
        self.or_with(other);
        !has_all
    }

    /// Removes every member that is not in `other`, in place, and returns whether there was such a member.
    fn and_changes(&mut self, other: &Self) -> bool
        ensures members { members self.new ≡ set.intersection (members self.old) (members other.now) }
        ensures value { is_value self.new }
        ensures changed { result ≡ not (set.is_subset (members self.old) (members other.now)) }
    {
        let keeps_all = self.is_subset_of(other);
        self.and_with(other);
        !keeps_all
    }

    /// Removes every member of `other`, in place, and returns whether one of them was present.
    fn and_not_changes(&mut self, other: &Self) -> bool
        ensures members { members self.new ≡ set.difference (members self.old) (members other.now) }
        ensures value { is_value self.new }
        ensures changed { result ≡ not (set.is_disjoint (members self.old) (members other.now)) }
    {
        let keeps_all = self.is_disjoint_from(other);
        self.and_not_with(other);
        !keeps_all
    }

    /// Returns the number of items that an iterator has left. Code over any representation calls this function, and not
    /// `size_hint` of the iterator.
    fn items_left(iter: &Self::Iter) -> usize
        ensures { result ≡ length (rest iter.now) }
    {
        iter.len()
    }

    /// Returns an iterator with the same items left. Code over any representation calls this function, which never
    /// fails, and not `clone` of the iterator.
    fn same_iter(iter: &Self::Iter) -> Self::Iter
        ensures rest { rest result ≡ rest iter.now }
        ensures asks { asks result ≡ asks iter.now }
        ensures span { span result ≡ span iter.now }
    {
        match iter.clone() {
            Ok(same) => same,
            Err(_) => unreachable!(),
        }
    }

    // ---- the laws that a representation proves

    // The members of each value are below the width, and `of_members` leads from them back to the value. So no two
    // values represent the same set. Each set below the width is represented by a value of the type. Values are equal,
    // and compare, as their sets do.
    ghost represents: { IsRepresentation members of_members is_value EMPTY WIDTH PREFERRED_ARRAY_LEN
        Self.PartialEq.eq Self.Ord.cmp };

    // `&`, `|`, `^` and `!` may be applied to any values, and are the operations on sets.
    ghost operators: { AreSetOperators members is_value WIDTH Self.BitAnd.can_bitand
        Self.BitOr.can_bitor Self.BitXor.can_bitxor Self.Not.can_not Self.BitAnd.bitand_gives
        Self.BitOr.bitor_gives Self.BitXor.bitxor_gives Self.Not.not_gives };

    // An iterator may step from either end at any time. A step yields the first or the last of the items left.
    ghost listed: { IsListed rest Self.Iter.Iterator.can_next
        Self.Iter.DoubleEndedIterator.can_next_back Self.Iter.Iterator.next_gives
        Self.Iter.DoubleEndedIterator.next_back_gives Self.Iter.Clone.is_infallible
        Self.Iter.Clone.is_clone Self.Iter.Iterator.remaining };

    // A step raises the sum of asks and span by at most one if it yields an item, and not at all otherwise. A clone has
    // the same asks and span.
    ghost counts: { IsCounted asks span Self.Iter.Iterator.next_gives
        Self.Iter.DoubleEndedIterator.next_back_gives Self.Iter.Clone.is_clone };

    // ==== the conversions, which no representation writes: each is proved once, over the calls above

    // ---- slices of words

    /// Writes the words of the set to a slice, the lowest first, and 0 past the last word of the representation.
    /// Members at or past 64 times the length of the slice are left out.
    final fn to_u64_slice(&self, out: &mut [u64])
        ensures { out.new ≡ words (members self.now) (length out.old) }
    {
        // Tells the proof that the set has no member past the last word of the representation.
        self.learn_is_value();
        let used = out.len().min(Self::PREFERRED_ARRAY_LEN);
        for i in 0..used {
            out[i] = self.word(i);
        }
        for place in used..out.len() {
            out[place] = 0;
        }
    }

    /// Writes the words of the set to a slice, if every member is below 64 times its length. Otherwise returns `None`
    /// and leaves the slice unchanged.
    final fn try_to_u64_slice(&self, out: &mut [u64]) -> Option<()>
        ensures fits { IsSome result
            ↔ IsTrue (set.is_subset (members self.now) (set.below (64 * length out.old))) }
        ensures words { IsSome result → out.new ≡ words (members self.now) (length out.old) }
        ensures unchanged { result ≡ None → out.new ≡ out.old }
    {
        if !has_no_word_from(self, out.len()) {
            return None;
        }
        self.to_u64_slice(out);
        Some(())
    }

    /// Returns the set with the bits of a list of words, the lowest first. Bits at or past the width are left out.
    final fn from_u64_slice(v: &[u64]) -> Self
        ensures { members result ≡ set.low (bits_of v.now) WIDTH }
    {
        let mut repr = Self::EMPTY;
        for i in 0..v.len().min(Self::PREFERRED_ARRAY_LEN) {
            repr.put_word(i, v[i]);
        }
        repr
    }

    /// Returns the set with the bits of a list of words, the lowest first, if all these bits are below the width, else
    /// `None`.
    final fn try_from_u64_slice(v: &[u64]) -> Option<Self>
        ensures fits { IsSome result ↔ IsTrue (set.is_subset (bits_of v.now) (set.below WIDTH)) }
        ensures value { IfSome result (λ s. members s ≡ bits_of v.now) }
    {
        let repr = Self::from_u64_slice(v);
        for i in 0..v.len() {
            if word_or_zero(&repr, i) != v[i] {
                return None;
            }
        }
        Some(repr)
    }

    // ---- u128, by a list of two words. The smaller types go by u128, except `try_to_..`, which goes by one word.

    /// Returns the set with the bits of a number. Bits at or past the width are left out.
    final fn from_u128(v: u128) -> Self
        ensures { members result ≡ set.low (bits v) WIDTH }
    {
        Self::from_u64_slice(&halves_of(v))
    }

    /// Returns the set with the bits of a number, if all these bits are below the width, else `None`.
    final fn try_from_u128(v: u128) -> Option<Self>
        ensures fits { IsSome result ↔ IsTrue (set.is_subset (bits v) (set.below WIDTH)) }
        ensures value { IfSome result (λ s. members s ≡ bits v) }
    {
        Self::try_from_u64_slice(&halves_of(v))
    }

    /// Returns the number whose bits are the members below 128.
    final fn to_u128(&self) -> u128
        ensures { result ≡ number (set.low (members self.now) u128.BITS) }
    {
        let mut halves = [0; 2];
        self.to_u64_slice(&mut halves);
        join_halves(halves[0], halves[1])
    }

    /// Returns the number whose bits are the members, if all of them are below 128, else `None`.
    final fn try_to_u128(&self) -> Option<u128>
        ensures fits { IsSome result
            ↔ IsTrue (set.is_subset (members self.now) (set.below u128.BITS)) }
        ensures value { IfSome result (λ n. n ≡ number (members self.now)) }
    {
        let mut halves = [0; 2];
        self.try_to_u64_slice(&mut halves)?;
        Some(join_halves(halves[0], halves[1]))
    }

    // ---- u8

    /// Returns the set with the bits of a number. Bits at or past the width are left out.
    final fn from_u8(v: u8) -> Self
        ensures { members result ≡ set.low (bits v) WIDTH }
    {
        Self::from_u128(v as u128)
    }

    /// Returns the set with the bits of a number, if all these bits are below the width, else `None`.
    final fn try_from_u8(v: u8) -> Option<Self>
        ensures fits { IsSome result ↔ IsTrue (set.is_subset (bits v) (set.below WIDTH)) }
        ensures value { IfSome result (λ s. members s ≡ bits v) }
    {
        Self::try_from_u128(v as u128)
    }

    /// Returns the number whose bits are the members below 8.
    final fn to_u8(&self) -> u8
        ensures { result ≡ number (set.low (members self.now) u8.BITS) }
    {
        (self.to_u128() & u8::MAX as u128) as u8
    }

    /// Returns the number whose bits are the members, if all of them are below 8, else `None`.
    final fn try_to_u8(&self) -> Option<u8>
        ensures fits { IsSome result
            ↔ IsTrue (set.is_subset (members self.now) (set.below u8.BITS)) }
        ensures value { IfSome result (λ n. n ≡ number (members self.now)) }
    {
        u8::try_from(self.try_to_u64()?).ok()
    }

    // ---- u16

    /// Returns the set with the bits of a number. Bits at or past the width are left out.
    final fn from_u16(v: u16) -> Self
        ensures { members result ≡ set.low (bits v) WIDTH }
    {
        Self::from_u128(v as u128)
    }

    /// Returns the set with the bits of a number, if all these bits are below the width, else `None`.
    final fn try_from_u16(v: u16) -> Option<Self>
        ensures fits { IsSome result ↔ IsTrue (set.is_subset (bits v) (set.below WIDTH)) }
        ensures value { IfSome result (λ s. members s ≡ bits v) }
    {
        Self::try_from_u128(v as u128)
    }

    /// Returns the number whose bits are the members below 16.
    final fn to_u16(&self) -> u16
        ensures { result ≡ number (set.low (members self.now) u16.BITS) }
    {
        (self.to_u128() & u16::MAX as u128) as u16
    }

    /// Returns the number whose bits are the members, if all of them are below 16, else `None`.
    final fn try_to_u16(&self) -> Option<u16>
        ensures fits { IsSome result
            ↔ IsTrue (set.is_subset (members self.now) (set.below u16.BITS)) }
        ensures value { IfSome result (λ n. n ≡ number (members self.now)) }
    {
        u16::try_from(self.try_to_u64()?).ok()
    }

    // ---- u32

    /// Returns the set with the bits of a number. Bits at or past the width are left out.
    final fn from_u32(v: u32) -> Self
        ensures { members result ≡ set.low (bits v) WIDTH }
    {
        Self::from_u128(v as u128)
    }

    /// Returns the set with the bits of a number, if all these bits are below the width, else `None`.
    final fn try_from_u32(v: u32) -> Option<Self>
        ensures fits { IsSome result ↔ IsTrue (set.is_subset (bits v) (set.below WIDTH)) }
        ensures value { IfSome result (λ s. members s ≡ bits v) }
    {
        Self::try_from_u128(v as u128)
    }

    /// Returns the number whose bits are the members below 32.
    final fn to_u32(&self) -> u32
        ensures { result ≡ number (set.low (members self.now) u32.BITS) }
    {
        (self.to_u128() & u32::MAX as u128) as u32
    }

    /// Returns the number whose bits are the members, if all of them are below 32, else `None`.
    final fn try_to_u32(&self) -> Option<u32>
        ensures fits { IsSome result
            ↔ IsTrue (set.is_subset (members self.now) (set.below u32.BITS)) }
        ensures value { IfSome result (λ n. n ≡ number (members self.now)) }
    {
        u32::try_from(self.try_to_u64()?).ok()
    }

    // ---- u64

    /// Returns the set with the bits of a number. Bits at or past the width are left out.
    final fn from_u64(v: u64) -> Self
        ensures { members result ≡ set.low (bits v) WIDTH }
    {
        Self::from_u128(v as u128)
    }

    /// Returns the set with the bits of a number, if all these bits are below the width, else `None`.
    final fn try_from_u64(v: u64) -> Option<Self>
        ensures fits { IsSome result ↔ IsTrue (set.is_subset (bits v) (set.below WIDTH)) }
        ensures value { IfSome result (λ s. members s ≡ bits v) }
    {
        Self::try_from_u128(v as u128)
    }

    /// Returns the number whose bits are the members below 64.
    final fn to_u64(&self) -> u64
        ensures { result ≡ number (set.low (members self.now) u64.BITS) }
    {
        (self.to_u128() & u64::MAX as u128) as u64
    }

    /// Returns the number whose bits are the members, if all of them are below 64, else `None`.
    final fn try_to_u64(&self) -> Option<u64>
        ensures fits { IsSome result
            ↔ IsTrue (set.is_subset (members self.now) (set.below u64.BITS)) }
        ensures value { IfSome result (λ n. n ≡ number (members self.now)) }
    {
        let mut word = [0];
        self.try_to_u64_slice(&mut word)?;
        Some(word[0])
    }

    // ---- usize

    /// Returns the set with the bits of a number. Bits at or past the width are left out.
    final fn from_usize(v: usize) -> Self
        ensures { members result ≡ set.low (bits v) WIDTH }
    {
        Self::from_u128(v as u128)
    }

    /// Returns the set with the bits of a number, if all these bits are below the width, else `None`.
    final fn try_from_usize(v: usize) -> Option<Self>
        ensures fits { IsSome result ↔ IsTrue (set.is_subset (bits v) (set.below WIDTH)) }
        ensures value { IfSome result (λ s. members s ≡ bits v) }
    {
        Self::try_from_u128(v as u128)
    }

    /// Returns the number whose bits are the members below 64.
    final fn to_usize(&self) -> usize
        ensures { result ≡ number (set.low (members self.now) usize.BITS) }
    {
        (self.to_u128() & usize::MAX as u128) as usize
    }

    /// Returns the number whose bits are the members, if all of them are below 64, else `None`.
    final fn try_to_usize(&self) -> Option<usize>
        ensures fits { IsSome result
            ↔ IsTrue (set.is_subset (members self.now) (set.below usize.BITS)) }
        ensures value { IfSome result (λ n. n ≡ number (members self.now)) }
    {
        Some(self.try_to_u64()? as usize)
    }
}

/// Returns the word of 64 bits at any place of a set, or 0 past the last word of the representation.
pub fn word_or_zero<R: EnumSetTypeRepr>(repr: &R, i: usize) -> u64
    ensures { result ≡ word_of (R.members repr.now) i }
{
    // Tells the proof that the set has no member past the last word of the representation.
    repr.learn_is_value();
    if i < R::PREFERRED_ARRAY_LEN {
        repr.word(i)
    } else {
        0
    }
}

/// Returns whether every member is below 64 times `from`, which is whether each word from place `from` on is 0.
///
/// These words are tested in blocks of sixteen, up to the first block that is not 0; the words left over are the last
/// block. If there are at least sixteen words, the first one is tested by itself before all blocks.
fn has_no_word_from<R: EnumSetTypeRepr>(repr: &R, from: usize) -> bool
    ensures { result ≡ set.is_subset (R.members repr.now) (set.below (64 * from)) }
{
    // Tells the proof that the set has no member past the last word of the representation.
    repr.learn_is_value();
    let len = R::PREFERRED_ARRAY_LEN;
    if len <= from {
        return true;
    }
    let blocks = (len - from) / 16;
    if blocks > 0 && repr.word(from) != 0 {
        return false;
    }
    for k in 0..blocks {
        let i = from + 16 * k;
        if !are_zero(repr, i, i + 16) {
            return false;
        }
    }
    are_zero(repr, from + 16 * blocks, len)
}

/// Returns whether each word from place `from` up to, but not including, place `to` is 0. `from` must be at most `to`,
/// and `to` at most the number of words.
pub(crate) fn are_zero<R: EnumSetTypeRepr>(repr: &R, from: usize, to: usize) -> bool
    requires ordered { from ≤ to }
    requires within { to ≤ R.PREFERRED_ARRAY_LEN }
    ensures { IsTrue result
        ↔ ((w : ℕ) → from ≤ w → w < to → word_of (R.members repr.now) w ≡ 0) }
{
    let mut any = 0;
    for i in from..to {
        any |= repr.word(i);
    }
    any == 0
}
