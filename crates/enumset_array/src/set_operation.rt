//! Operations on words that are operations on sets, and what they do to whole values.

ghost use Rattle.std.specs.Prelude.{◌≡◌, ℕ, bit_and, bit_or, bit_xor, not};
ghost use Rattle.std.specs.Int.{w64, bit_not};
ghost use Rattle.std.specs.Simd.Lanes.{zip2};
ghost use Rattle.enumset_repr.specs.BitSet as set;
ghost use Rattle.enumset_repr.specs.BitSet.{BitSet};
ghost use Rattle.enumset_array.specs.ArrayWords.{set_of, IsArrayRepr};
ghost use Rattle.enumset_array.specs.Operations.{IsOnBits};
ghost use Rattle.enumset_array.specs.Laws.Operations.{on_and, on_or, on_xor, on_and_not, on_change};

use crate::array_repr::ArrayRepr;
use crate::lanes;
use std::simd::prelude::*;

/// An operation on two sets, on two words and on four pairs of words at once.
pub(crate) trait SetOperation {
    // The result for two words.
    ghost of_words: { ℕ → ℕ → ℕ };

    // The result for two sets.
    ghost of_sets: { BitSet → BitSet → BitSet };

    /// The result for two words.
    fn on_words(a: u64, b: u64) -> u64
        ensures { result ≡ of_words a b };

    /// The results for four pairs of words: each word of `a` with the word of `b` in the same place.
    fn on_lanes(a: u64x4, b: u64x4) -> u64x4
        ensures { result ≡ zip2 of_words a b };

    // The result for two words has the bits of the result for their sets.
    ghost on_bits: { IsOnBits of_words of_sets };
}

/// `a & b`.
pub(crate) struct And;

/// `a | b`.
pub(crate) struct Or;

/// `a ^ b`.
pub(crate) struct Xor;

/// `a & !b`.
pub(crate) struct AndNot;

/// The bits of `a` that the operation `O` changes: `a ^` its result.
pub(crate) struct Change<O>(O);

impl SetOperation for And {
    ghost of_words = { bit_and };

    ghost of_sets = { set.intersection };

    fn on_words(a: u64, b: u64) -> u64 {
        a & b
    }

    fn on_lanes(a: u64x4, b: u64x4) -> u64x4 {
        a & b
    }

    ghost on_bits = { on_and };
}

impl SetOperation for Or {
    ghost of_words = { bit_or };

    ghost of_sets = { set.union };

    fn on_words(a: u64, b: u64) -> u64 {
        a | b
    }

    fn on_lanes(a: u64x4, b: u64x4) -> u64x4 {
        a | b
    }

    ghost on_bits = { on_or };
}

impl SetOperation for Xor {
    ghost of_words = { bit_xor };

    ghost of_sets = { set.symmetric_difference };

    fn on_words(a: u64, b: u64) -> u64 {
        a ^ b
    }

    fn on_lanes(a: u64x4, b: u64x4) -> u64x4 {
        a ^ b
    }

    ghost on_bits = { on_xor };
}

impl SetOperation for AndNot {
    ghost of_words = { λ a b. bit_and a (bit_not w64 b) };

    ghost of_sets = { set.difference };

    fn on_words(a: u64, b: u64) -> u64 {
        a & !b
    }

    fn on_lanes(a: u64x4, b: u64x4) -> u64x4 {
        a & !b
    }

    ghost on_bits = { on_and_not };
}

impl<O: SetOperation> SetOperation for Change<O> {
    ghost of_words = { λ a b. bit_xor a (O.of_words a b) };

    ghost of_sets = { λ s t. set.symmetric_difference s (O.of_sets s t) };

    fn on_words(a: u64, b: u64) -> u64 {
        a ^ O::on_words(a, b)
    }

    #[tactic(auto, using(crate::proofs::WordLanes::changed_lanes))]
    fn on_lanes(a: u64x4, b: u64x4) -> u64x4 {
        a ^ O::on_lanes(a, b)
    }

    ghost on_bits = { on_change O.of_words O.of_sets O.on_bits };
}

/// Replaces a value by the result of the operation for this value and `other`.
pub(crate) fn apply<O: SetOperation, const N: usize>(repr: &mut ArrayRepr<N>, other: &ArrayRepr<N>)
    ensures value { IsArrayRepr N repr.new }
    ensures set { set_of N repr.new ≡ O.of_sets (set_of N repr.old) (set_of N other.now) }
{
    lanes::apply_to_words::<O>(&mut repr.0, other.words());
}

/// Replaces a value by the result of the operation for this value and `other`, and returns whether its set changed.
pub(crate) fn apply_changes<O: SetOperation, const N: usize>(
    repr: &mut ArrayRepr<N>,
    other: &ArrayRepr<N>,
) -> bool
    ensures value { IsArrayRepr N repr.new }
    ensures set { set_of N repr.new ≡ O.of_sets (set_of N repr.old) (set_of N other.now) }
    ensures changed { result
        ≡ not (set.is_same (set_of N repr.old) (O.of_sets (set_of N repr.old) (set_of N other.now))) }
{
    lanes::change_words::<O>(&mut repr.0, other.words())
}

/// Returns whether the result of the operation for two values is the empty set.
pub(crate) fn yields_none<O: SetOperation, const N: usize>(
    repr: &ArrayRepr<N>,
    other: &ArrayRepr<N>,
) -> bool
    ensures value { IsArrayRepr N repr.now }
    ensures empty { result ≡ set.is_empty (O.of_sets (set_of N repr.now) (set_of N other.now)) }
{
    lanes::words_yield_none::<O>(repr.words(), other.words())
}
