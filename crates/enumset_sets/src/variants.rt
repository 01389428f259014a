//! Functions that tell a proof that a match over bits has an arm for each variant.
//!
//! A match over at most 32 bits needs none of these functions. They do nothing at run time.

ghost use Rattle.std.specs.Prelude.{◌<◌, ◌++◌, IsTrue};
ghost use Rattle.std.specs.List.{range_with_len};
ghost use Rattle.enumset_repr.specs.BitSet.{is_in};
ghost use Rattle.enumset_sets.specs.Variants.{IsNoneOf};

/// Tells the proof that a number in the list of the numbers from 0 to `count - 1` is below `count`.
#[inline]
pub fn is_below(bit: u32, count: u32)
    requires { IsTrue (is_in bit (range_with_len 0 count)) }
    ensures { bit < count }
{}

/// Tells the proof that a number in a list does not differ from every number of the list.
#[inline]
pub fn is_listed(bit: u32, bits: &[u32])
    requires { IsTrue (is_in bit bits.now) }
    ensures { IsNoneOf bit bits.now → ⊥ }
{}

/// Tells the proof that a number in two joined lists that is not in the first list is in the second.
#[inline]
pub fn is_listed_later(bit: u32, first: &[u32], later: &[u32])
    requires listed { IsTrue (is_in bit (first.now ++ later.now)) }
    requires not_first { IsNoneOf bit first.now }
    ensures { IsTrue (is_in bit later.now) }
{}
