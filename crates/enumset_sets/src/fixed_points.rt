//! Least fixed points: what a set reaches in any number of steps, what follows from it, what it needs in turn.

ghost use Rattle.std.specs.Prelude.{◌≡◌, ℕ};
ghost use Rattle.enumset_repr.specs.BitSet.{BitSet};
ghost use Rattle.enumset_sets.specs.FixedPoints.{IsLeastClosed, IsMonotone, LeadsBy, union_over};

use crate::element::EnumSetType;
use crate::enum_set::EnumSet;

/// A step from a set to what follows from the set at once. What follows from a subset is a subset of what follows from
/// the set.
pub trait Step<T: EnumSetType> {
    // What follows from a set at once.
    ghost step: { Self → BitSet → BitSet };

    /// Returns what follows from a set at once.
    fn step(&self, from: &EnumSet<T>) -> EnumSet<T>
        ensures { result ≡ Self.step self.now from.now };

    // What follows from a subset is a subset of what follows from the set.
    ghost monotone: { (s : Self) → IsMonotone (step s) };
}

/// Returns the least set that has the members of `start` and all that follows from the returned set: the least fixed
/// point of the step over the start.
///
/// The call takes at most one step more than there are variants outside the start.
pub fn least_closed<T: EnumSetType, S: Step<T>>(start: EnumSet<T>, step: &S) -> EnumSet<T>
    ensures { IsLeastClosed (S.step step.now) start result }
{
    let mut reached = start;
    loop {
        let more = step.step(&reached);
        more.learn_members();
        if !reached.union_with(&more) {
            return reached;
        }
    }
}

/// Returns the elements that can be reached from the start: the start itself, and each element to which a reached one
/// leads. This is the reflexive transitive closure of `next`, from the start.
///
/// `next` returns the elements to which one element leads: a set, one element or an array of elements. If what it
/// returns depends only on the element, the result is the least set that has the start and that `next` does not leave.
/// Otherwise nothing is known of the result. The call makes one call of `next` for each reached element.
pub fn reachable<T: EnumSetType, O: Into<EnumSet<T>>, F: Fn(T) -> O>(
    start: EnumSet<T>,
    next: F,
) -> EnumSet<T>
    requires { F.IsAlwaysCallable next }
    ensures { (rows : ℕ → BitSet) → LeadsBy T.elements.bit F.Fn O.converts next rows
        → IsLeastClosed (union_over rows) start result }
{
    let mut done = EnumSet::new();
    let mut pending = start;
    while let Some(element) = pending.pop_first() {
        done.insert(element);
        let mut more: EnumSet<T> = next(element).into();
        more.difference_with(&done);
        pending.union_with(&more);
    }
    done
}
