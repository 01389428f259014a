//! Least fixed points of several sets at once: one set for each node of a graph, as data flow has them, or for each
//! symbol of a grammar.

ghost use Rattle.std.specs.Prelude.{◌≡◌, ◌<◌, ℕ, List, length};
ghost use Rattle.enumset_repr.specs.BitSet.{BitSet};
ghost use Rattle.enumset_sets.specs.FixedPointsOfMany.{AreLeastClosed, IsMonotoneForMany};

use crate::element::EnumSetType;
use crate::enum_set::EnumSet;

/// A step from several sets, each in its place, to what follows from them at once in each place. What follows from
/// subsets is a subset of what follows from the sets.
pub trait StepForMany<T: EnumSetType> {
    // What follows from the sets at once in a place.
    ghost step: { Self → List BitSet → ℕ → BitSet };

    /// Returns what follows from the sets at once in a place, which must be below the number of sets.
    fn step(&self, sets: &[EnumSet<T>], place: usize) -> EnumSet<T>
        requires { place < length sets.now }
        ensures { result ≡ Self.step self.now sets.now place };

    // What follows from subsets is a subset of what follows from the sets.
    ghost monotone: { (s : Self) → IsMonotoneForMany (step s) };
}

/// Adds to each set what follows in its place, until nothing changes. So the sets become the least ones that have what
/// they had and all that follows from the new sets: the least fixed point of the step over the start.
///
/// The call goes over all places at most n + 1 times, where n is the sum, over the sets, of how many variants each
/// lacks.
pub fn least_closed_sets<T: EnumSetType, S: StepForMany<T>>(sets: &mut [EnumSet<T>], step: &S)
    ensures { AreLeastClosed (S.step step.now) sets.old sets.new }
{
    let mut changed = true;
    while changed {
        changed = false;
        for place in 0..sets.len() {
            let more = step.step(sets, place);
            more.learn_members();
            changed |= sets[place].union_with(&more);
        }
    }
}
