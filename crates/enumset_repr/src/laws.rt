//! Laws that a proof learns from a call.

ghost use Rattle.std.specs.Prelude.{◌≡◌, ◌≢◌, ◌↔◌, ◌<◌, ◌==◌, ◌&&◌, ◌||◌, ℕ, Bool, List, IsTrue, false, length, nat_lt, not, slice_index};
ghost use Rattle.std.specs.Cmp.{IsTotalOrder};
ghost use Rattle.std.specs.Ordering.{nat_cmp};
ghost use Rattle.std.specs.declared.cmp.Ordering.TheVariants.{Less, Equal};
ghost use Rattle.enumset_repr.specs.BitSet as set;
ghost use Rattle.enumset_repr.specs.BitSet.{BitSet, is_in, contains, ascending, is_subset, difference, below};
ghost use Rattle.enumset_repr.specs.Number.{number};
ghost use Rattle.enumset_repr.specs.Order.{compare};

use crate::repr::EnumSetTypeRepr;

/// Tells the proof the equations of sets:
///
/// - which numbers are members of the result of each operation;
/// - that sets with the same members are equal;
/// - that a set is the set of the list of its members, which ascends, and that `len` is the length of this list;
/// - what the tests `is_subset`, `is_disjoint`, `is_same` and `is_empty` say of the members.
///
/// The equations determine each operation, so a reader who believes them need not read how sets are defined. The call
/// does nothing at run time.
#[tactic(auto, using(crate::specs::Laws::Model::equations))]
pub fn model()
    ensures empty { (q : ℕ) → contains set.empty q ≡ false }
    ensures insert { (s : BitSet) (b q : ℕ)
        → contains (set.insert s b) q ≡ ((q == b) || contains s q) }
    ensures remove { (s : BitSet) (b q : ℕ)
        → contains (set.remove s b) q ≡ (not (q == b) && contains s q) }
    ensures retain { (s : BitSet) (p : ℕ → Bool) (q : ℕ)
        → contains (set.retain s p) q ≡ (contains s q && p q) }
    ensures from_list { (bs : List ℕ) (q : ℕ) → contains (set.from_list bs) q ≡ is_in q bs }
    ensures insert_each { (s : BitSet) (bs : List ℕ) (q : ℕ)
        → contains (set.insert_each s bs) q ≡ (contains s q || is_in q bs) }
    ensures union { (s t : BitSet) (q : ℕ)
        → contains (set.union s t) q ≡ (contains s q || contains t q) }
    ensures intersection { (s t : BitSet) (q : ℕ)
        → contains (set.intersection s t) q ≡ (contains s q && contains t q) }
    ensures difference { (s t : BitSet) (q : ℕ)
        → contains (set.difference s t) q ≡ (contains s q && not (contains t q)) }
    ensures symmetric_difference { (s t : BitSet) (q : ℕ)
        → contains (set.symmetric_difference s t) q
        ≡ ((contains s q && not (contains t q)) || (contains t q && not (contains s q))) }
    ensures below { (n q : ℕ) → contains (set.below n) q ≡ nat_lt q n }
    ensures low { (s : BitSet) (n q : ℕ) → contains (set.low s n) q ≡ (contains s q && nat_lt q n) }
    ensures same { (s t : BitSet) → ((q : ℕ) → contains s q ≡ contains t q) → s ≡ t }
    ensures listed { (s : BitSet) → set.from_list (ascending s) ≡ s }
    ensures ascends { (s : BitSet) (i j : ℕ) → i < j → j < length (ascending s)
        → slice_index (ascending s) i < slice_index (ascending s) j }
    ensures len { (s : BitSet) → set.len s ≡ length (ascending s) }
    ensures subset { (s t : BitSet) → IsTrue (is_subset s t)
        ↔ ((q : ℕ) → IsTrue (contains s q) → IsTrue (contains t q)) }
    ensures disjoint { (s t : BitSet) → IsTrue (set.is_disjoint s t)
        ↔ ((q : ℕ) → IsTrue (contains s q) → contains t q ≡ false) }
    ensures is_same { (s t : BitSet) → IsTrue (set.is_same s t) ↔ s ≡ t }
    ensures is_empty { (s : BitSet) → IsTrue (set.is_empty s) ↔ s ≡ set.empty }
{}

/// Tells the proof the laws of the order of sets. Sets are ordered by the greatest bit that is in exactly one of them:
/// the set that has it is the greater.
///
/// The order is total, and only equal sets compare as equal. A proper subset is less. For two subsets of one set,
/// their complements in that set compare the other way round. The greater set has the greater number.
///
/// The laws hold for `cmp` of every representation, and of every set over one. The call does nothing at run time.
#[tactic(auto, using(crate::specs::Laws::Order::orders))]
pub fn order()
    ensures total { IsTotalOrder compare }
    ensures same { (s t : BitSet) → (compare s t ≡ Equal ↔ s ≡ t) }
    ensures subset { (s t : BitSet) → IsTrue (is_subset s t) → s ≢ t → compare s t ≡ Less }
    ensures turned { (u s t : BitSet) → IsTrue (is_subset s u) → IsTrue (is_subset t u)
        → compare (difference u s) (difference u t) ≡ compare t s }
    ensures number { (s t : BitSet) → compare s t ≡ nat_cmp (number s) (number t) }
{}

/// Tells the proof that each set below the width of a representation has a value there: `of_members` of the set is a
/// value of the type, and represents the set. So a set may move from one representation to another.
///
/// The call does nothing at run time.
pub fn represented<R: EnumSetTypeRepr>()
    ensures { (s : BitSet) → IsTrue (is_subset s (below R.WIDTH))
        → R.is_value (R.of_members s) × (R.members (R.of_members s) ≡ s) }
{}
