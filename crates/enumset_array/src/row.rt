//! A list of words that can be read only by two calls, each of which counts as an ask.

ghost use Rattle.std.specs.Prelude.{◌≡◌, ℕ, ◌+◌, ◌<◌, List, ◌∷◌, [], ◌++◌, length, slice_index, slice_set, IfSome, IfNone};
ghost use Rattle.enumset_repr.specs.BitSet.{ascending};
ghost use Rattle.enumset_repr.specs.Number.{bits};
ghost use Rattle.enumset_array.specs.Views.{AreWords};

/// A list of fewer than 67108864 words of 64 bits, and a count of asks.
///
/// An ask is one call of [`ask_front`](Row::ask_front) or [`ask_back`](Row::ask_back). Code over a row can read its
/// words only by these calls, so the count says how often the code has read a word.
pub trait Row {
    // The words.
    ghost words: { Self → List ℕ };

    // The number of asks so far.
    ghost asks: { Self → ℕ };

    /// Returns the number of words, which is below 67108864. This call is not an ask.
    fn word_count(&self) -> usize
        ensures count { result ≡ length (words self.now) }
        ensures are_words { AreWords (words self.now) };

    /// Takes out the least bit of the word at place `i` and returns it, or returns `None` if the word is 0. Bits are
    /// counted from the lowest of that word, which is 0. The other words stay.
    ///
    /// The place must be below [`word_count`](Row::word_count). The count of asks grows by one.
    fn ask_front(&mut self, i: usize) -> Option<u32>
        requires { i < length (words self.old) }
        ensures counted { asks self.new ≡ asks self.old + 1 }
        ensures empty { IfNone result (slice_index (words self.old) i ≡ 0) }
        ensures kept { IfNone result (words self.new ≡ words self.old) }
        ensures taken { IfSome result (λ b.
            ascending (bits (slice_index (words self.old) i))
            ≡ b ∷ ascending (bits (slice_index (words self.new) i))) }
        ensures others { words self.new ≡ slice_set (words self.old) i (slice_index (words self.new) i) }
        ensures are_words { AreWords (words self.old) };

    /// Takes out the greatest bit of the word at place `i` and returns it, or returns `None` if the word is 0. Bits are
    /// counted from the lowest of that word, which is 0. The other words stay.
    ///
    /// The place must be below [`word_count`](Row::word_count). The count of asks grows by one.
    fn ask_back(&mut self, i: usize) -> Option<u32>
        requires { i < length (words self.old) }
        ensures counted { asks self.new ≡ asks self.old + 1 }
        ensures empty { IfNone result (slice_index (words self.old) i ≡ 0) }
        ensures kept { IfNone result (words self.new ≡ words self.old) }
        ensures taken { IfSome result (λ b.
            ascending (bits (slice_index (words self.old) i))
            ≡ ascending (bits (slice_index (words self.new) i)) ++ b ∷ []) }
        ensures others { words self.new ≡ slice_set (words self.old) i (slice_index (words self.new) i) }
        ensures are_words { AreWords (words self.old) };
}
