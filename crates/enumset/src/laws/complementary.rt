//! Laws of complements within a set v: the valid bits, or for `full_complement` the bits below the width.

ghost use Rattle.std.specs.Prelude.{◌≡◌, IsTrue};
ghost use Rattle.enumset_repr.specs.BitSet.{BitSet, intersection, difference, is_subset};

/// Complements are taken in a set v. The complement of the complement of a subset of v is this subset. For another set,
/// such as a mixed set with unknown members, the complement of the complement has the members that are in v. If w
/// contains v, the complement in v has the members of the complement in w that are in v.
///
/// The contracts of `EnumSet::complement` and `MixedEnumSet::full_complement` say that the set is a subset of v.
pub fn complements()
    ensures twice { (v s : BitSet) → IsTrue (is_subset s v) → difference v (difference v s) ≡ s }
    ensures twice_of_any { (v s : BitSet) → difference v (difference v s) ≡ intersection s v }
    ensures of_greater { (v w s : BitSet)
        → IsTrue (is_subset v w) → intersection (difference w s) v ≡ difference v s }
{}
