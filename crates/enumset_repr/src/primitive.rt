//! Integers as sets of their bits: what an iterator over the bits of an integer needs of it.

ghost use Rattle.std.specs.Prelude.{◌≡◌, ◌+◌, ◌<◌, ℕ, MatchOption, IsSome, IfSome};
ghost use Rattle.enumset_repr.specs.BitSet as set;
ghost use Rattle.enumset_repr.specs.BitSet.{BitSet};
ghost use Rattle.enumset_repr.specs.Ends.{least, greatest};

/// An integer of [`BITS`](Primitive::BITS) bits. It represents the set of the numbers of its bits that are 1, where the
/// lowest bit has the number 0.
///
/// The trait mirrors `Primitive` of Rust's `enumset`. There the iterator also needs `WIDTH`, `is_empty`, `count_ones`
/// and `remove_bit` of a representation. Here [`BITS`](Primitive::BITS), [`ones`](Primitive::ones),
/// [`without`](Primitive::without) and [`without_least`](Primitive::without_least) take their place, so the iterator
/// needs no representation.
pub trait Primitive: Copy {
    // The set that the integer represents.
    ghost set_of: { Self → BitSet };

    ghost BITS: { ℕ };

    /// The number of bits, set or not.
    const BITS: u32;

    /// Returns the number of bits above the greatest one that is set, or [`BITS`](Primitive::BITS) if none is set.
    fn leading_zeros(&self) -> u32
        ensures { MatchOption (greatest (set_of self.now)) (result ≡ BITS) (λ m. result + m + 1 ≡ BITS) };

    /// Returns the least bit that is set, or [`BITS`](Primitive::BITS) if none is set.
    fn trailing_zeros(&self) -> u32
        ensures least { MatchOption (least (set_of self.now)) (result ≡ BITS) (λ m. result ≡ m) }
        ensures below { IfSome (least (set_of self.now)) (λ m. m < BITS) };

    /// Returns the number of bits that are set.
    fn ones(&self) -> u32
        ensures { result ≡ set.len (set_of self.now) };

    /// Returns the integer with one bit cleared. The bit must be below [`BITS`](Primitive::BITS).
    fn without(&self, bit: u32) -> Self
        requires { bit < BITS }
        ensures { set_of result ≡ set.remove (set_of self.now) bit };

    /// Returns the integer with its least bit cleared. At least one bit must be set.
    fn without_least(&self) -> Self
        requires { IsSome (least (set_of self.now)) }
        ensures { IfSome (least (set_of self.now)) (λ m. set_of result ≡ set.remove (set_of self.now) m) }
    {
        self.without(self.trailing_zeros())
    }
}
