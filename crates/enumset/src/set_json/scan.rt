//! Steps over a string of JSON whose names have no escapes: spaces byte by byte, names sixteen bytes at a time where
//! sixteen are left. A byte is plain if it needs no escape in a JSON string and does not end it.

ghost use Rattle.std.specs.Prelude.{◌≡◌, ◌≤◌, ◌<◌, ◌+◌, ◌*◌, ◌++◌, ◌∷◌, [], ◌↔◌, ℕ, List, true, false};
ghost use Rattle.std.specs.Prelude.{IfSome, IsTrue, length, take, drop, slice_index};
ghost use Rattle.std.specs.Option.{IsSomeAnd};
ghost use Rattle.enumset.specs.JsonPlain.{Begins, IsPlainByte, IsPlain, is_space, AreSpaces, Passed};

use std::simd::prelude::*;

/// Returns whether a byte is plain.
#[inline(always)]
fn is_plain_byte(byte: u8) -> bool
    ensures { IsTrue result ↔ IsPlainByte byte }
{
    byte != b'"' && byte != b'\\' && byte >= b' '
}

/// Returns whether all bytes of a name are plain, so that it needs no escape in a JSON string.
pub(super) fn is_plain(name: &str) -> bool
    ensures { IsTrue result → IsPlain name.now }
{
    let bytes = name.as_bytes();
    match bytes.len() {
        4..8 => are_ends_plain::<4>(bytes),
        8..16 => are_ends_plain::<8>(bytes),
        len => plain_len(bytes) == len,
    }
}

/// Returns whether the first N bytes and the last N are plain, which are all bytes if there are at most 2 N. For short
/// names this is faster than byte by byte.
#[inline(always)]
fn are_ends_plain<const N: usize>(bytes: &[u8]) -> bool
    requires room { N ≤ length bytes.now }
    requires short { length bytes.now ≤ 2 * N }
    requires lanes { N ≤ 16 }
    ensures { IsTrue result → IsPlain bytes.now }
{
    plain_before::<N>(bytes, 0) == N && plain_before::<N>(bytes, bytes.len() - N) == N
}

/// Returns how many bytes at the front are plain.
#[inline(always)]
fn plain_len(bytes: &[u8]) -> usize
    ensures within { result ≤ length bytes.now }
    ensures plain { IsPlain (take result bytes.now) }
    ensures most { ¬ Begins IsPlainByte (drop result bytes.now) }
{
    for k in 0..bytes.len() / 16 {
        let before = plain_before::<16>(bytes, 16 * k);
        if before < 16 {
            return 16 * k + before;
        }
    }
    for i in bytes.len() / 16 * 16..bytes.len() {
        if !is_plain_byte(bytes[i]) {
            return i;
        }
    }
    bytes.len()
}

/// Returns how many of the N bytes from the index `begin` on come before the first that is not plain, or N if all are.
#[inline(always)]
fn plain_before<const N: usize>(bytes: &[u8], begin: usize) -> usize
    requires room { begin + N ≤ length bytes.now }
    requires lanes { N ≤ 16 }
    ensures within { result ≤ N }
    ensures plain { IsPlain (take result (drop begin bytes.now)) }
    ensures most { result < N → ¬ IsPlainByte (slice_index bytes.now (begin + result)) }
{
    let lanes = Simd::<u8, N>::from_slice(&bytes[begin..]);
    let special = lanes.simd_eq(Simd::splat(b'"'))
        | lanes.simd_eq(Simd::splat(b'\\'))
        | lanes.simd_lt(Simd::splat(b' '));
    N.min(special.to_bitmask().trailing_zeros() as usize)
}

/// Returns the spaces at the front, and what follows them.
#[inline(always)]
pub(super) fn split_spaces(bytes: &[u8]) -> (&[u8], &[u8])
    ensures whole { bytes.now ≡ result.0.now ++ result.1.now }
    ensures spaces { AreSpaces result.0.now }
    ensures most { ¬ Begins (λ x. is_space x ≡ true) result.1.now }
{
    for i in 0..bytes.len() {
        let byte = bytes[i];
        let is_space = byte == b' ' || byte == b'\t' || byte == b'\n' || byte == b'\r';
        if !is_space {
            return bytes.split_at(i);
        }
    }
    bytes.split_at(bytes.len())
}

/// Returns what follows the byte `byte`, if only spaces come before it, else `None`.
#[inline(always)]
pub(super) fn after_byte(bytes: &[u8], byte: u8) -> Option<&[u8]>
    ensures passed { IfSome result (λ rest. Passed bytes.now byte rest.now) }
    ensures found { (rest : List ℕ) → is_space byte ≡ false → Passed bytes.now byte rest
        → IsSomeAnd result (λ r. r.now ≡ rest) }
{
    let (first, rest) = split_spaces(bytes).1.split_first()?;
    (*first == byte).then_some(rest)
}

/// Returns whether there are only spaces.
#[inline(always)]
pub(super) fn are_spaces(bytes: &[u8]) -> bool
    ensures { IsTrue result ↔ AreSpaces bytes.now }
{
    split_spaces(bytes).1.is_empty()
}

/// Returns the bytes of a plain string after its opening quote, and what follows its closing quote, or `None` if the
/// string is not plain or has no end.
#[inline(always)]
pub(super) fn split_string(bytes: &[u8]) -> Option<(&[u8], &[u8])>
    ensures plain { IfSome result (λ parts. IsPlain parts.0.now) }
    ensures whole { IfSome result (λ parts. bytes.now ≡ parts.0.now ++ 34 ∷ parts.1.now) }
    ensures found { (string : List ℕ) → (rest : List ℕ) → IsPlain string → bytes.now ≡ string ++ 34 ∷ rest
        → IsSomeAnd result (λ parts. (parts.0.now ≡ string) × (parts.1.now ≡ rest)) }
{
    let (string, rest) = bytes.split_at(plain_len(bytes));
    let (quote, rest) = rest.split_first()?;
    (*quote == b'"').then_some((string, rest))
}
