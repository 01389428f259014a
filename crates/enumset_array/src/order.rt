//! The order of the representation of many words, which is the order of the sets. Rust's `enumset` compares the lowest
//! words first.

ghost use Rattle.std.specs.Prelude.{◌≡◌, Some, length, refl};
ghost use Rattle.enumset_repr.specs.Order.{compare};
ghost use Rattle.enumset_array.specs.Order.{highest_first};
ghost use Rattle.enumset_array.specs.ArrayWords.{set_of};
ghost use Rattle.enumset_array.specs.Laws.Order.{highest_first_total, highest_first_partial, highest_first_ties};

use crate::array_repr::ArrayRepr;
use crate::lanes::equal_from;
use std::cmp::Ordering;

impl<const N: usize> PartialOrd for ArrayRepr<N> {
    ghost partial_cmp = { λ a b. Some (highest_first a b) };

    ghost laws = { highest_first_partial };

    fn partial_cmp(&self, other: &ArrayRepr<N>) -> Option<Ordering> {
        Some(self.cmp(other))
    }
}

impl<const N: usize> Ord for ArrayRepr<N> {
    ghost cmp = { highest_first };

    ghost total = { highest_first_total };

    ghost matches_partial_cmp = { λ _ _. refl };

    ghost matches_eq = { highest_first_ties };

    /// The highest word that differs decides. So sets are ordered by the greatest number that is in exactly one of
    /// them: the set that has it is the greater.
    fn cmp(&self, other: &ArrayRepr<N>) -> Ordering
        ensures words { result ≡ highest_first self.now other.now }
        ensures sets { result ≡ compare (set_of N self.now) (set_of N other.now) }
    {
        compare_words(self.words(), other.words())
    }
}

/// Returns how two lists of the same length compare: the highest place where they differ decides.
fn compare_words(words: &[u64], others: &[u64]) -> Ordering
    requires { length words.now ≡ length others.now }
    ensures { result ≡ highest_first words.now others.now }
{
    let mut end = equal_from(words, others);
    while end > 0 {
        end -= 1;
        if words[end] != others[end] {
            return words[end].cmp(&others[end]);
        }
    }
    Ordering::Equal
}
