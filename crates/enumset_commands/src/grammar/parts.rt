//! The parts of a text between bytes of one value.
ghost use Rattle.std.specs.Prelude.{◌≡◌, ◌==◌, ◌∷◌, ◌+◌, ◌≤◌, [], length, not, MatchOption};
ghost use Rattle.std.specs.List.{position, prefix_len, slice_split};
ghost use Rattle.std.specs.Simd.Lanes.{chunk};

use std::simd::prelude::*;

/// The text before the first separator, and the text after it, or `None` if there is no separator.
#[tactic(auto, using(crate::proofs::Parts::part_steps))]
pub(super) fn split_once(text: &[u8], separator: u8) -> Option<(&[u8], &[u8])>
    ensures { MatchOption result
        (slice_split (λ b. b == separator) text.now ≡ text.now ∷ [])
        (λ cut. slice_split (λ b. b == separator) text.now
        ≡ cut.0.now ∷ slice_split (λ b. b == separator) cut.1.now) }
{
    let end = index_of(text, separator)?;
    Some((&text[..end], &text[end + 1..]))
}

/// The index of the first wanted byte.
///
/// Sixteen bytes are compared at once: a line is seldom longer, and this costs little more than comparing one byte. The
/// first byte is compared alone before, for empty lines.
fn index_of(text: &[u8], wanted: u8) -> Option<usize>
    ensures { result ≡ position (λ b. b == wanted) text.now }
{
    if let [first, ..] = text
        && *first == wanted
    {
        return Some(0);
    }
    for k in 0..text.len() / 16 {
        let begin = 16 * k;
        let before = count_before(text, begin, wanted);
        if before < 16 {
            return Some(begin + before);
        }
    }
    for i in text.len() / 16 * 16..text.len() {
        if text[i] == wanted {
            return Some(i);
        }
    }
    None
}

/// How many of the sixteen bytes from an index on come before the first wanted byte.
fn count_before(text: &[u8], begin: usize, wanted: u8) -> usize
    requires { begin + 16 ≤ length text.now }
    ensures { result ≡ prefix_len (λ b. not (b == wanted)) (chunk begin 16 text.now) }
{
    let found = u8x16::from_slice(&text[begin..])
        .simd_eq(u8x16::splat(wanted))
        .to_bitmask();
    if found == 0 {
        16
    } else {
        found.trailing_zeros() as usize
    }
}
