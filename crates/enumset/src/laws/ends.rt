//! A law of steps from both ends of an iterator.

ghost use Rattle.std.specs.Prelude.{◌≡◌, ◌++◌, List, None, Contains, IsTrue, reverse};
ghost use Rattle.enumset_repr.specs.BitSet.{BitSet, ascending};
ghost use Rattle.enumset_repr.specs.Number.{is_distinct};
ghost use Rattle.enumset_array.specs.Walks.{answer, answers, without_answers, items_among};
ghost use Rattle.enumset_array.specs.declared.traversal.End.{End};
ghost use Rattle.enumset.specs.BothEnds.{from_front, from_back};

/// Steps are taken from the two ends of an iterator over a set, in any order. What came from the front, what is left,
/// and what came from the back reversed are the ascending list of the members. Once a step yielded `None`, nothing is
/// left, and each later step yields `None`, from either end. No bit comes twice.
pub fn both_ends()
    ensures so_far { (s : BitSet) (ends : List End)
        → from_front (ascending s) ends ++ without_answers (ascending s) ends
        ++ reverse (from_back (ascending s) ends)
        ≡ ascending s }
    ensures whole { (s : BitSet) (ends : List End) → Contains (answers (ascending s) ends) None
        → from_front (ascending s) ends ++ reverse (from_back (ascending s) ends) ≡ ascending s }
    ensures ended { (s : BitSet) (ends : List End) (next : End)
        → Contains (answers (ascending s) ends) None
        → answer next (without_answers (ascending s) ends) ≡ None }
    ensures once { (s : BitSet) (ends : List End)
        → IsTrue (is_distinct (items_among (answers (ascending s) ends))) }
{}
