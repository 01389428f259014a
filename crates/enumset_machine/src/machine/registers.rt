//! The set registers of a machine.

ghost use Rattle.std.specs.Prelude.{◌≡◌, ◌∷◌, [], true, slice_set, slice_index_or};
ghost use Rattle.std.specs.List.{list_all};
ghost use Rattle.enumset_repr.specs.BitSet.{empty};
ghost use Rattle.enumset_machine.specs.States as model;

use crate::run_set::RunSet;
use std::marker::Model;

/// Whether there is a set register of this number. There are four.
pub(crate) fn is_set_register(r: u8) -> bool
    ensures { result ≡ model.is_set_register r }
{
    r < 4
}

/// Whether there are set registers of both numbers.
pub(crate) fn are_set_registers(a: u8, b: u8) -> bool
    ensures { result ≡ list_all model.is_set_register (a ∷ b ∷ []) }
{
    is_set_register(a) && is_set_register(b)
}

/// Four sets, in registers 0 to 3.
#[derive(Drop)]
pub(super) struct Registers<S: RunSet> {
    zero: S,
    one: S,
    two: S,
    three: S,
}

impl<S: RunSet> Model for Registers<S> {
    ghost use Rattle.std.specs.Prelude.{List, [], ◌∷◌};
    ghost use Rattle.std.specs.Coded.{coded_list};
    ghost use Rattle.enumset_repr.specs.BitSet.{BitSet, coded_set};

    ghost Value = { List BitSet };

    ghost coded = { coded_list coded_set };

    ghost view = { λ s. S.members s.zero ∷ S.members s.one
        ∷ S.members s.two ∷ S.members s.three ∷ [] };
}

impl<S: RunSet> Registers<S> {
    /// Four empty sets.
    pub(super) fn new() -> Registers<S>
        ensures { result ≡ model.start.sets }
    {
        let empty = S::new();
        Registers {
            zero: empty,
            one: empty,
            two: empty,
            three: empty,
        }
    }

    /// The set in a register.
    pub(super) fn get(&self, r: u8) -> S
        requires { model.is_set_register r ≡ true }
        ensures { S.members result ≡ slice_index_or self.now r empty }
    {
        match r {
            0 => self.zero,
            1 => self.one,
            2 => self.two,
            _ => self.three,
        }
    }

    /// Puts a set into a register.
    pub(super) fn put(&mut self, r: u8, set: S)
        requires { model.is_set_register r ≡ true }
        ensures { self.new ≡ slice_set self.old r (S.members set) }
    {
        match r {
            0 => self.zero = set,
            1 => self.one = set,
            2 => self.two = set,
            _ => self.three = set,
        }
    }
}
