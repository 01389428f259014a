//! Sets as JSON arrays of words.

ghost use Rattle.std.specs.Prelude.{◌≡◌, ℕ, List, Ok, Err, IfOk, IfErr, IsOk};
ghost use Rattle.enumset_repr.specs.BitSet.{BitSet, low, is_subset, below};
ghost use Rattle.enumset_repr.specs.Words.{words, bits_of};
ghost use Rattle.serde_json.specs.View.{view};
ghost use Rattle.enumset.specs.Json.{words_value, words_in, accepted, set_of_words};
ghost use Rattle.enumset.specs.declared.set_json.fault.JsonFault.TheVariants.{OutOfMemory};
ghost use Rattle.enumset_sets.specs.Elements.{valid_bits};

use super::fault::JsonFault;
use super::unknown::Unknown;
use super::words_read::WordsRead;
use enumset_repr::EnumSetTypeRepr;
use enumset_sets::{EnumSet, EnumSetType, raw};
use serde_json::Value;
use std::alloc::Global;

/// Returns the set's words of 64 bits, the lowest first, as many as its representation has. The only fault is
/// [`JsonFault::OutOfMemory`], which never comes where the representation has no word. Rust's `enumset` writes this
/// form under `serialize_repr = "array"`.
pub fn to_words<T: EnumSetType>(alloc: Global, set: &EnumSet<T>) -> Result<Value, JsonFault>
    ensures succeeds { T.Repr.PREFERRED_ARRAY_LEN ≡ 0 → IsOk result }
    ensures value { IfOk result (λ value.
        view value ≡ words_value (words set.now T.Repr.PREFERRED_ARRAY_LEN)) }
    ensures fault { IfErr result (λ fault. fault ≡ OutOfMemory) }
{
    write_words(alloc, &raw::get(set.copied()))
}

/// Returns the array of the words of a value that represents a set.
pub(super) fn write_words<R: EnumSetTypeRepr>(alloc: Global, repr: &R) -> Result<Value, JsonFault>
    ensures succeeds { R.PREFERRED_ARRAY_LEN ≡ 0 → IsOk result }
    ensures value { IfOk result (λ value.
        view value ≡ words_value (words (R.members repr.now) R.PREFERRED_ARRAY_LEN)) }
    ensures fault { IfErr result (λ fault. fault ≡ OutOfMemory) }
{
    let mut all = Vec::with_capacity(alloc, R::PREFERRED_ARRAY_LEN)?;
    for i in 0..R::PREFERRED_ARRAY_LEN {
        all.push(Value::from(repr.word(i)))?;
    }
    Ok(Value::from(all))
}

/// Returns the set of the valid bits of an array of words of 64 bits, the lowest first. There may be any number of
/// them.
///
/// The faults are [`JsonFault::NotAnArray`], [`JsonFault::NotAWord`] of the first element that is not a word and, where
/// unknown bits are refused, [`JsonFault::UnknownBits`], tested in this order. The call allocates nothing. Rust's
/// `enumset` reads this form under `serialize_repr = "array"`.
pub fn from_words<T: EnumSetType>(value: &Value, unknown: Unknown) -> Result<EnumSet<T>, JsonFault>
    ensures { result ≡ set_of_words (valid_bits T.elements) unknown (view value.now) }
{
    accepted(read_words(value)?, unknown)
}

/// Returns the set of the valid bits of words, or [`JsonFault::UnknownBits`] if the words have other bits and these are
/// refused.
pub(super) fn accepted<T: EnumSetType>(
    words: WordsRead<T::Repr>,
    unknown: Unknown,
) -> Result<EnumSet<T>, JsonFault>
    ensures { (bits : BitSet) → (T.Repr.members words.repr ≡ low bits T.Repr.WIDTH)
        → (words.is_whole ≡ is_subset bits (below T.Repr.WIDTH))
        → result ≡ accepted (valid_bits T.elements) unknown bits }
{
    let WordsRead { repr, is_whole } = words;
    let all = raw::valid_repr::<T>();
    match unknown {
        Unknown::Drop => Ok(raw::new(repr & all)),
        Unknown::Refuse if is_whole && repr.is_subset_of(&all) => Ok(raw::new(repr)),
        Unknown::Refuse => Err(JsonFault::UnknownBits),
    }
}

/// Returns the bits of an array's words that are below the representation's width, and whether the words have no other
/// bits. The faults are [`JsonFault::NotAnArray`] and [`JsonFault::NotAWord`] of the first element that is not a word.
pub(super) fn read_words<R: EnumSetTypeRepr>(value: &Value) -> Result<WordsRead<R>, JsonFault>
    ensures read { IfOk result (λ read. (ws : List ℕ)
        × (words_in (view value.now) ≡ Ok ws)
        × (R.members read.repr ≡ low (bits_of ws) R.WIDTH)
        × (read.is_whole ≡ is_subset (bits_of ws) (below R.WIDTH))) }
    ensures fault { IfErr result (λ fault. words_in (view value.now) ≡ Err fault) }
{
    let items = value.as_array().ok_or(JsonFault::NotAnArray)?;
    let mut words = WordsRead::new();
    for (place, item) in items.iter().enumerate() {
        let word = item.as_u64().ok_or(JsonFault::NotAWord(place))?;
        words.take(place, word);
    }
    Ok(words)
}
