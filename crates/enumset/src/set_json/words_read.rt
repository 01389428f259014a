//! The words of an array, read one by one.

ghost use Rattle.std.specs.Prelude.{◌≡◌, true, ◌&&◌, ◌==◌, nat_lt, if◌then◌else◌};
ghost use Rattle.enumset_repr.specs.BitSet.{empty};
ghost use Rattle.enumset_repr.specs.Words.{word as word_of, with_word};

use enumset_repr::EnumSetTypeRepr;
use enumset_repr::repr::word_or_zero;

/// The words that were read so far.
#[derive(Drop)]
pub(super) struct WordsRead<R: EnumSetTypeRepr> {
    /// The bits of the words that are below the width.
    pub(super) repr: R,
    /// Whether the words have no other bits.
    pub(super) is_whole: bool,
}

impl<R: EnumSetTypeRepr> WordsRead<R> {
    /// Returns the state before any word was read.
    #[inline(always)]
    pub(super) fn new() -> Self
        ensures none { R.members result.repr ≡ empty }
        ensures whole { result.is_whole ≡ true }
    {
        WordsRead {
            repr: R::EMPTY,
            is_whole: true,
        }
    }

    /// Reads one more word, the one at the index `place` of the array.
    #[inline(always)]
    pub(super) fn take(&mut self, place: usize, word: u64)
        ensures put { R.members self.new.repr ≡ (if nat_lt place R.PREFERRED_ARRAY_LEN
            then with_word (R.members self.old.repr) R.WIDTH place word else R.members self.old.repr) }
        ensures whole { self.new.is_whole
            ≡ (self.old.is_whole && (word_of (R.members self.new.repr) place == word)) }
    {
        if place < R::PREFERRED_ARRAY_LEN {
            self.repr.put_word(place, word);
        }
        self.is_whole &= word_or_zero(&self.repr, place) == word;
    }
}
