//! The iterator over the bits of an integer.

ghost use Rattle.std.specs.Prelude.{◌≡◌, length, Some, ⊤};
ghost use Rattle.std.specs.Iterator.{YieldsFirst, YieldsLast, item_count};
ghost use Rattle.enumset_repr.specs.BitSet.{ascending};

use crate::primitive::Primitive;
use std::alloc::AllocError;

/// An iterator over the bits that are set in an integer, by number, each once, ascending, from both ends.
///
/// `size_hint` and `len` are exact, and a clone has the same bits left. The struct mirrors `PrimitiveIter` of Rust's
/// `enumset`.
#[derive(Copy, Debug)]
pub struct PrimitiveIter<T: Primitive>(pub T);

/// `clone` returns an iterator with the same bits left, and never fails.
impl<T: Primitive> Clone for PrimitiveIter<T> {
    ghost is_clone = { λ it copy. copy ≡ it };

    ghost is_infallible = { λ _. ⊤ };

    fn clone(&self) -> Result<Self, AllocError> {
        Ok(*self)
    }
}

#[tactic(auto, using(crate::specs::Laws::Ends::at_the_ends))]
impl<T: Primitive> Iterator for PrimitiveIter<T> {
    type Item = u32;

    ghost next_gives = { YieldsFirst (λ i. ascending (T.set_of i.0)) };

    ghost remaining = { item_count (λ i. ascending (T.set_of i.0)) };

    /// Takes out the least bit that is left and returns it, or returns `None` if no bit is left.
    fn next(&mut self) -> Option<u32> {
        let least = self.0.trailing_zeros();
        if least == T::BITS {
            return None;
        }
        self.0 = self.0.without_least();
        Some(least)
    }

    /// Returns exactly how many bits are left.
    fn size_hint(&self) -> (usize, Option<usize>)
        ensures lower { result.0 ≡ length (ascending (T.set_of self.now.0)) }
        ensures upper { result.1 ≡ Some (length (ascending (T.set_of self.now.0))) }
    {
        let left = self.len();
        (left, Some(left))
    }
}

#[tactic(auto, using(crate::specs::Laws::Ends::at_the_ends))]
impl<T: Primitive> DoubleEndedIterator for PrimitiveIter<T> {
    ghost next_back_gives = { YieldsLast (λ i. ascending (T.set_of i.0)) };

    /// Takes out the greatest bit that is left and returns it, or returns `None` if no bit is left.
    fn next_back(&mut self) -> Option<u32> {
        let above = self.0.leading_zeros();
        if above == T::BITS {
            return None;
        }
        let greatest = T::BITS - 1 - above;
        self.0 = self.0.without(greatest);
        Some(greatest)
    }
}

#[tactic(auto, using(crate::specs::Laws::Ends::at_the_ends))]
impl<T: Primitive> ExactSizeIterator for PrimitiveIter<T> {
    /// Returns the number of bits left.
    fn len(&self) -> usize {
        self.0.ones() as usize
    }
}
