//! A row that can show how often it was asked.

ghost use Rattle.std.specs.Prelude.{◌≡◌, ◌+◌, ◌-◌, ◌^◌, min};
ghost use Rattle.enumset_array.specs.ArrayWords.{words_in_use};

use crate::array_repr::ArrayRepr;
use crate::row::Row;
use crate::words::Words;
use std::marker::Model;

/// The words in use of an `ArrayRepr`, with a count of asks that can be read at run time.
///
/// The struct is for tests. The number that it shows stops at `u64::MAX`; the count that contracts see has no limit.
#[derive(Drop, Debug)]
pub struct ShownRow<const N: usize> {
    row: Words<N>,
    shown: u64,
}

impl<const N: usize> Model for ShownRow<N> {
    ghost use Rattle.std.specs.Prelude.{◌≡◌, ◌-◌, ◌^◌, min};
    ghost use Rattle.enumset_array.specs.Views.{RowView};

    ghost Value = { RowView };

    ghost view = { λ r. r.row };

    ghost invariant = { λ r. r.shown ≡ min r.row.asks (2 ^ 64 - 1) };
}

impl<const N: usize> ShownRow<N> {
    /// Returns the words in use of an `ArrayRepr`, with a count of 0 asks.
    pub fn new(repr: ArrayRepr<N>) -> Self
        ensures { result ≡ record { words = words_in_use N repr.entry; asks = 0 } }
    {
        ShownRow {
            row: Words::new(repr),
            shown: 0,
        }
    }

    /// Returns the number of asks so far, or `u64::MAX` if there were more.
    pub fn shown(&self) -> u64
        ensures { result ≡ min self.now.asks (2 ^ 64 - 1) }
    {
        self.shown
    }
}

impl<const N: usize> Row for ShownRow<N> {
    ghost words = { λ r. r.words };

    ghost asks = { λ r. r.asks };

    fn word_count(&self) -> usize {
        self.row.word_count()
    }

    fn ask_front(&mut self, i: usize) -> Option<u32> {
        self.shown = one_more(self.shown);
        self.row.ask_front(i)
    }

    fn ask_back(&mut self, i: usize) -> Option<u32> {
        self.shown = one_more(self.shown);
        self.row.ask_back(i)
    }
}

/// Returns the number to show after one more ask.
fn one_more(shown: u64) -> u64
    ensures { result ≡ min (shown + 1) (2 ^ 64 - 1) }
{
    shown.saturating_add(1)
}
