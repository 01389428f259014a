//! Quorums and majorities of a council, and exactly one of several.

ghost use Rattle.std.specs.Prelude.{◌≡◌, ◌↔◌, ◌≤◌, ◌+◌, not, true, false, IfSome, IfNone};
ghost use Rattle.enumset.specs.Sets as set;
ghost use Rattle.enumset.specs.Sets.{valid_bits};
ghost use Rattle.example_set_facts.specs.Bits.{seat};

use crate::seats::Seat;
use enumset::{EnumSet, EnumSetType};

/// Whether enough of the members are present.
pub fn is_quorum(present: &EnumSet<Seat>, members: &EnumSet<Seat>, quorum: usize) -> bool
    ensures { result ≡ true ↔ (quorum ≤ set.len (set.intersection present.now members.now)) }
{
    (*present & *members).len() >= quorum
}

/// Whether more members vote yes than no. Nobody votes twice.
pub fn is_carried(members: &EnumSet<Seat>, yes: &EnumSet<Seat>, no: &EnumSet<Seat>) -> bool
    requires { set.is_disjoint yes.now no.now ≡ true }
    ensures { result ≡ true ↔ (set.len (set.intersection members.now no.now) + 1
        ≤ set.len (set.intersection members.now yes.now)) }
{
    (*members & *yes).len() > (*members & *no).len()
}

/// Whether exactly one of two seats is taken.
pub fn has_one_of_two(taken: &EnumSet<Seat>, one: Seat, other: Seat) -> bool
    ensures { result ≡ true ↔ (set.contains taken.now (seat one)
        ≡ not (set.contains taken.now (seat other))) }
{
    taken.contains(one) != taken.contains(other)
}

/// The only seat that is taken, if there is exactly one.
pub fn only_one(taken: &EnumSet<Seat>) -> Option<Seat>
    ensures only { IfSome result (λ t. taken.now ≡ set.only (seat t)) }
    ensures none { IfNone result ((t : Seat) → taken.now ≡ set.only (seat t) → true ≡ false) }
{
    let first = taken.first()?;
    taken.eq_element(first).then_some(first)
}

/// Whether exactly one of several candidates is present.
pub fn has_one_of(present: &EnumSet<Seat>, candidates: &EnumSet<Seat>) -> bool
    ensures { result ≡ true ↔ (set.len (set.intersection present.now candidates.now) ≡ 1) }
{
    (*present & *candidates).len() == 1
}

/// How many seats three committees have together, if no two share one.
// `len_disjoint_union`: the members of disjoint sets are added, twice in a row.
#[tactic(auto, using(enumset::specs::Sets::decided, enumset::specs::Sets::len_disjoint_union))]
pub fn count_of_three(one: &EnumSet<Seat>, two: &EnumSet<Seat>, three: &EnumSet<Seat>) -> usize
    requires one_two { set.is_disjoint one.now two.now ≡ true }
    requires three { set.is_disjoint (set.union one.now two.now) three.now ≡ true }
    ensures { result ≡ set.len one.now + set.len two.now + set.len three.now }
{
    (*one | *two | *three).len()
}

/// The seats that at least two of three committees have.
pub fn two_of_three(
    one: &EnumSet<Seat>,
    two: &EnumSet<Seat>,
    three: &EnumSet<Seat>,
) -> EnumSet<Seat>
    ensures shared { result ≡ set.union (set.intersection one.now two.now)
        (set.union (set.intersection one.now three.now) (set.intersection two.now three.now)) }
    ensures all { set.is_subset (set.intersection one.now (set.intersection two.now three.now)) result ≡ true }
    ensures some { set.is_subset result (set.union one.now two.now) ≡ true }
    ensures agreed { one.now ≡ two.now → result ≡ one.now }
{
    (*one & *two) | ((*one ^ *two) & *three)
}

/// How many seats are vacant, of twelve.
pub fn vacant_count(taken: EnumSet<Seat>) -> usize
    ensures vacant { result ≡ set.len (set.difference (valid_bits ⟦<Seat as EnumSetType>⟧.elements) taken) }
    ensures taken { result + set.len taken ≡ 12 }
{
    12 - taken.len()
}
