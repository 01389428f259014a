//! Strings that are arrays of words, written and read without a tree of values.

ghost use Rattle.std.specs.Prelude.{◌≡◌, ℕ, List, IfOk, IfSome, IsSome, Some, string_bytes};
ghost use Rattle.enumset_repr.specs.BitSet.{low, is_subset, below};
ghost use Rattle.enumset_repr.specs.Words.{words, bits_of};
ghost use Rattle.serde_json.specs.Read.{read};
ghost use Rattle.serde_json.specs.Written.{compact_text};
ghost use Rattle.enumset.specs.Json.{words_value};
ghost use Rattle.enumset.specs.JsonPlain.{IsPlainWords};

use super::digits::{ascii_text, push_digits};
use super::plain_numbers::split_number;
use super::scan::{after_byte, are_spaces, split_spaces};
use super::words_read::WordsRead;
use enumset_repr::EnumSetTypeRepr;
use std::alloc::{AllocError, Global};

/// Returns the array of the words of a value that represents a set, as a string.
pub(super) fn write_plain_words<R: EnumSetTypeRepr>(
    alloc: Global,
    repr: &R,
) -> Result<String, AllocError>
    ensures text { IfOk result (λ text. string_bytes text
        ≡ compact_text (words_value (words (R.members repr.now) R.PREFERRED_ARRAY_LEN))) }
    ensures reads { IfOk result (λ text. read (string_bytes text)
        ≡ Some (words_value (words (R.members repr.now) R.PREFERRED_ARRAY_LEN))) }
{
    // A word has at most twenty digits and a comma, and the array two brackets.
    let room = R::PREFERRED_ARRAY_LEN.saturating_mul(21).saturating_add(2);
    let mut bytes = Vec::with_capacity(alloc, room)?;
    bytes.push(b'[')?;
    for i in 0..R::PREFERRED_ARRAY_LEN {
        if i > 0 {
            bytes.push(b',')?;
        }
        push_digits(&mut bytes, repr.word(i))?;
    }
    bytes.push(b']')?;
    Ok(ascii_text(bytes))
}

/// Returns the bits of an array's words that are below the representation's width, and whether the words have no other
/// bits. The array has only whole numbers below 2^64, with spaces anywhere between its tokens. For any other string the
/// result is `None`.
pub(super) fn read_plain_words<R: EnumSetTypeRepr>(text: &str) -> Option<WordsRead<R>>
    ensures words { IfSome result (λ found. (ws : List ℕ)
        × (read text.now ≡ Some (words_value ws))
        × (R.members found.repr ≡ low (bits_of ws) R.WIDTH)
        × (found.is_whole ≡ is_subset (bits_of ws) (below R.WIDTH))) }
    ensures plain { IsPlainWords text.now → IsSome result }
{
    let mut left = after_byte(text.as_bytes(), b'[')?;
    let mut words = WordsRead::new();
    if let Some(end) = after_byte(left, b']') {
        return are_spaces(end).then_some(words);
    }
    for place in 0..text.len() {
        let (_, digits) = split_spaces(left);
        let (word, rest) = split_number(digits)?;
        words.take(place, word);
        if let Some(end) = after_byte(rest, b']') {
            return are_spaces(end).then_some(words);
        }
        left = after_byte(rest, b',')?;
    }
    None
}
