//! Mixed sets as JSON numbers and as JSON arrays of words.

ghost use Rattle.std.specs.Prelude.{◌≡◌, ◌≤◌, IfOk, IfErr, IsOk};
ghost use Rattle.enumset_repr.specs.BitSet.{BitSet, low, is_subset, below};
ghost use Rattle.enumset_repr.specs.Number.{number};
ghost use Rattle.enumset_repr.specs.Words.{words};
ghost use Rattle.serde_json.specs.View.{view};
ghost use Rattle.enumset.specs.Json.{number_value, mixed_set_of_number};
ghost use Rattle.enumset.specs.Json.{words_value, mixed_set_of_words, kept_below};
ghost use Rattle.enumset.specs.declared.set_json.fault.JsonFault.TheVariants.{OutOfMemory};

use super::fault::JsonFault;
use super::unknown::Unknown;
use super::width::{fits, whole_number};
use super::words::{read_words, write_words};
use super::words_read::WordsRead;
use enumset_mixed::MixedEnumSet;
use enumset_repr::EnumSetTypeRepr;
use enumset_sets::{EnumSetType, EnumSetTypeWithRepr};
use serde_json::Value;
use std::alloc::Global;

/// Returns the set's number, unknown bits included. The representation may have 64 bits at most. The call allocates
/// nothing, and always succeeds; the allocator and the `Result` are as in the other writers. Rust's `enumset` writes
/// this form for a `MixedEnumSet`.
pub fn mixed_to_number<T: EnumSetTypeWithRepr>(
    _alloc: Global,
    set: &MixedEnumSet<T>,
) -> Result<Value, JsonFault>
    requires narrow { T.Repr.WIDTH ≤ 64 }
    ensures succeeds { IsOk result }
    ensures value { IfOk result (λ value. view value ≡ number_value (number set.now)) }
{
    Ok(Value::from(mixed_number_of(set)))
}

/// Returns the set's number, unknown bits included. The representation may have 64 bits at most.
pub(super) fn mixed_number_of<T: EnumSetTypeWithRepr>(set: &MixedEnumSet<T>) -> u64
    requires { T.Repr.WIDTH ≤ 64 }
    ensures { result ≡ number set.now }
{
    let repr = set.as_repr();
    // Tells the proof that each member is below the width.
    repr.learn_is_value();
    repr.to_u64()
}

/// Returns the set of all bits of a number below two to the representation's width, which may be 64 at most.
///
/// The faults are [`JsonFault::NotANumber`], [`JsonFault::NotWhole`] and [`JsonFault::OutOfRange`], tested in this
/// order. The call allocates nothing. Rust's `enumset` reads this form for a `MixedEnumSet`.
pub fn mixed_from_number<T: EnumSetTypeWithRepr>(
    value: &Value,
) -> Result<MixedEnumSet<T>, JsonFault>
    requires narrow { T.Repr.WIDTH ≤ 64 }
    ensures { result ≡ mixed_set_of_number T.Repr.WIDTH (view value.now) }
{
    mixed_set_of(whole_number(value)?)
}

/// Returns the set of all bits of a number, if the number is below two to the representation's width, else
/// [`JsonFault::OutOfRange`].
pub(super) fn mixed_set_of<T: EnumSetTypeWithRepr>(
    number: u64,
) -> Result<MixedEnumSet<T>, JsonFault>
    ensures { result ≡ mixed_set_of_number T.Repr.WIDTH (number_value number) }
{
    if !fits(number, <T::Repr as EnumSetTypeRepr>::WIDTH) {
        return Err(JsonFault::OutOfRange);
    }
    Ok(MixedEnumSet::from_repr(T::Repr::from_u64(number)))
}

/// Returns the set's words of 64 bits, the lowest first, as many as its representation has, unknown bits included. The
/// only fault is [`JsonFault::OutOfMemory`], which never comes where the representation has no word. Rust's `enumset`
/// writes a number of the type that `repr` names instead.
pub fn mixed_to_words<T: EnumSetTypeWithRepr>(
    alloc: Global,
    set: &MixedEnumSet<T>,
) -> Result<Value, JsonFault>
    ensures succeeds { T.Repr.PREFERRED_ARRAY_LEN ≡ 0 → IsOk result }
    ensures value { IfOk result (λ value.
        view value ≡ words_value (words set.now T.Repr.PREFERRED_ARRAY_LEN)) }
    ensures fault { IfErr result (λ fault. fault ≡ OutOfMemory) }
{
    write_words(alloc, &set.as_repr())
}

/// Returns the set of all bits of an array of words of 64 bits, the lowest first. There may be any number of them. Bits
/// at and past the representation's width are left out, or refused.
///
/// The faults are [`JsonFault::NotAnArray`], [`JsonFault::NotAWord`] of the first element that is not a word and, where
/// bits past the width are refused, [`JsonFault::OutOfRange`], tested in this order. The call allocates nothing. Rust's
/// `enumset` reads a number of the type that `repr` names instead.
pub fn mixed_from_words<T: EnumSetTypeWithRepr>(
    value: &Value,
    past: Unknown,
) -> Result<MixedEnumSet<T>, JsonFault>
    ensures { result ≡ mixed_set_of_words T.Repr.WIDTH past (view value.now) }
{
    kept_below(read_words(value)?, past)
}

/// Returns the set of the bits below the representation's width, or [`JsonFault::OutOfRange`] if there are others and
/// such bits are refused.
pub(super) fn kept_below<T: EnumSetTypeWithRepr>(
    words: WordsRead<T::Repr>,
    past: Unknown,
) -> Result<MixedEnumSet<T>, JsonFault>
    ensures { (bits : BitSet) → (T.Repr.members words.repr ≡ low bits T.Repr.WIDTH)
        → (words.is_whole ≡ is_subset bits (below T.Repr.WIDTH))
        → result ≡ kept_below T.Repr.WIDTH past bits }
{
    let WordsRead { repr, is_whole } = words;
    match past {
        Unknown::Refuse if !is_whole => Err(JsonFault::OutOfRange),
        _ => Ok(MixedEnumSet::from_repr(repr)),
    }
}
