//! The iterator registers of a machine.

ghost use Rattle.std.specs.Prelude.{◌≡◌, true, slice_set, slice_index_or, [], length};
ghost use Rattle.enumset_repr.specs.Ends.{first, last, without_first, without_last};
ghost use Rattle.enumset_machine.specs.States as model;

use crate::run_set::RunSet;
use std::marker::Model;

/// Whether there is an iterator register of this number. There are two.
pub(crate) fn is_iterator_register(i: u8) -> bool
    ensures { result ≡ model.is_iterator_register i }
{
    i < 2
}

/// Registers 0 and 1 for iterators, at first empty. Contracts see the items left in each.
#[derive(Drop)]
pub(super) struct IteratorRegisters<S: RunSet> {
    zero: Option<S::Items>,
    one: Option<S::Items>,
}

impl<S: RunSet> Model for IteratorRegisters<S> {
    ghost use Rattle.std.specs.Prelude.{ℕ, List, [], ◌∷◌, unwrap_or, option_map};
    ghost use Rattle.std.specs.Coded.{coded_list, coded_ℕ};

    ghost Value = { List (List ℕ) };

    ghost coded = { coded_list (coded_list coded_ℕ) };

    ghost view = { λ s. unwrap_or (option_map S.rest s.zero) []
        ∷ unwrap_or (option_map S.rest s.one) [] ∷ [] };
}

impl<S: RunSet> IteratorRegisters<S> {
    /// Two empty registers.
    pub(super) fn new() -> IteratorRegisters<S>
        ensures { result ≡ model.start.lists }
    {
        IteratorRegisters {
            zero: None,
            one: None,
        }
    }

    /// Puts an iterator into a register.
    pub(super) fn put(&mut self, i: u8, items: S::Items)
        requires { model.is_iterator_register i ≡ true }
        ensures { self.new ≡ slice_set self.old i (S.rest items) }
    {
        match i {
            0 => self.zero = Some(items),
            _ => self.one = Some(items),
        }
    }

    /// One step from the front of the iterator in a register.
    pub(super) fn next(&mut self, i: u8) -> Option<u32>
        requires { model.is_iterator_register i ≡ true }
        ensures given { result ≡ first (slice_index_or self.old i []) }
        ensures rest { self.new
            ≡ slice_set self.old i (without_first (slice_index_or self.old i [])) }
    {
        match i {
            0 => S::next(self.zero.as_mut()?),
            _ => S::next(self.one.as_mut()?),
        }
    }

    /// One step from the back of the iterator in a register.
    pub(super) fn next_back(&mut self, i: u8) -> Option<u32>
        requires { model.is_iterator_register i ≡ true }
        ensures given { result ≡ last (slice_index_or self.old i []) }
        ensures rest { self.new
            ≡ slice_set self.old i (without_last (slice_index_or self.old i [])) }
    {
        match i {
            0 => S::next_back(self.zero.as_mut()?),
            _ => S::next_back(self.one.as_mut()?),
        }
    }

    /// How many members are left in the iterator in a register.
    pub(super) fn items_left(&self, i: u8) -> usize
        requires { model.is_iterator_register i ≡ true }
        ensures { result ≡ length (slice_index_or self.now i []) }
    {
        let items = if i == 0 { &self.zero } else { &self.one };
        match *items {
            Some(ref items) => S::items_left(items),
            None => 0,
        }
    }
}
