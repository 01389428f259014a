//! Two cursors over the words of a row, and a step from either end.

ghost use Rattle.std.specs.Prelude.{◌≡◌};
ghost use Rattle.std.specs.Iterator.{YieldsFirst, YieldsLast};
ghost use Rattle.enumset_array.specs.Cursors.{span, Covers};
ghost use Rattle.enumset_array.specs.OneStep.{TakesOut, CountsAsks, MovesFront, MovesBack};
ghost use Rattle.enumset_array.specs.Items.{items_of};

use crate::row::Row;
use std::marker::Model;

/// Two places in a row of words. The words between them may still have bits: from the one at the front cursor up to the
/// one before the back cursor. Their number is the span. Rust's `enumset` keeps such a pair inside its `ArrayIter`.
#[derive(Clone, Copy, Debug)]
pub struct Cursors {
    front: usize,
    back: usize,
}

impl Model for Cursors {
    ghost use Rattle.std.specs.Prelude.{◌≤◌};
    ghost use Rattle.enumset_array.specs.Cursors.{Reach};

    ghost Value = { Reach };

    ghost view = { λ c. record { front = c.front; back = c.back } };

    ghost invariant = { λ c. c.front ≤ c.back };

    ghost inverse = { λ r. record { front = r.front; back = r.back } };
}

impl Cursors {
    /// Returns cursors with the first `n` words between them.
    pub fn over(n: usize) -> Cursors
        ensures { result ≡ record { front = 0; back = n } }
    {
        Cursors { front: 0, back: n }
    }
}

/// Takes out the least bit of the row and returns its number, 64 times the place of its word plus its number in the
/// word, or returns `None` if all words are 0.
///
/// The back cursor must be at most the number of words, and each word that is not between the cursors must be 0. The
/// step asks the words from the front cursor on, and an ask that finds no bit advances that cursor. So the sum of asks
/// and span grows by one if a bit is returned, and stays otherwise. The back cursor stays. If the cursors have met, the
/// step returns `None` without an ask. After `None` they have met.
pub fn step_front<R: Row>(row: &mut R, cursors: &mut Cursors) -> Option<u32>
    requires { Covers (R.words row.old) cursors.old }
    ensures item { YieldsFirst items_of (R.words row.old) result (R.words row.new) }
    ensures words { TakesOut (R.words row.old) result (R.words row.new) }
    ensures asks { CountsAsks (R.asks row.old) (span cursors.old) result
        (R.asks row.new) (span cursors.new) }
    ensures moves { MovesFront cursors.old cursors.new }
    ensures covers { Covers (R.words row.new) cursors.new }
{
    let Cursors { mut front, back } = *cursors;
    while front < back {
        match row.ask_front(front) {
            Some(bit) => {
                cursors.front = front;
                return Some(64 * front as u32 + bit);
            }
            None => front += 1,
        }
    }
    cursors.front = front;
    None
}

/// Takes out the greatest bit of the row and returns its number, 64 times the place of its word plus its number in the
/// word, or returns `None` if all words are 0.
///
/// The back cursor must be at most the number of words, and each word that is not between the cursors must be 0. The
/// step asks the words down from the back cursor, and an ask that finds no bit moves that cursor down. So the sum of
/// asks and span grows by one if a bit is returned, and stays otherwise. The front cursor stays. If the cursors have
/// met, the step returns `None` without an ask. After `None` they have met.
pub fn step_back<R: Row>(row: &mut R, cursors: &mut Cursors) -> Option<u32>
    requires { Covers (R.words row.old) cursors.old }
    ensures item { YieldsLast items_of (R.words row.old) result (R.words row.new) }
    ensures words { TakesOut (R.words row.old) result (R.words row.new) }
    ensures asks { CountsAsks (R.asks row.old) (span cursors.old) result
        (R.asks row.new) (span cursors.new) }
    ensures moves { MovesBack cursors.old cursors.new }
    ensures covers { Covers (R.words row.new) cursors.new }
{
    let Cursors { front, mut back } = *cursors;
    while front < back {
        let last = back - 1;
        match row.ask_back(last) {
            Some(bit) => {
                cursors.back = back;
                return Some(64 * last as u32 + bit);
            }
            None => back = last,
        }
    }
    cursors.back = back;
    None
}
