//! Seats of a council that vote yes in several votes.

ghost use Rattle.std.specs.Prelude.{◌≡◌, ◌&&◌, ◌||◌, ℕ, true};
ghost use Rattle.enumset.specs.Sets as set;

use crate::seats::Seat;
use enumset::EnumSet;

/// The seats that vote yes in at least two of three votes.
pub fn majority(one: &EnumSet<Seat>, two: &EnumSet<Seat>, three: &EnumSet<Seat>) -> EnumSet<Seat>
    ensures majority { result ≡ set.union (set.intersection one.now (set.union two.now three.now))
        (set.intersection two.now three.now) }
    ensures each { (q : ℕ) → set.contains result q
        ≡ ((set.contains one.now q && set.contains two.now q)
        || (set.contains one.now q && set.contains three.now q)
        || (set.contains two.now q && set.contains three.now q)) }
{
    (*one & (*two | *three)) | (*two & *three)
}

/// The seats that vote yes in an odd number of three votes: the sum of bits, without carry.
pub fn parity(one: &EnumSet<Seat>, two: &EnumSet<Seat>, three: &EnumSet<Seat>) -> EnumSet<Seat>
    ensures { result ≡ set.symmetric_difference one.now (set.symmetric_difference two.now three.now) }
{
    *one ^ *two ^ *three
}

/// The seats that vote yes in exactly one of three votes.
pub fn single(one: &EnumSet<Seat>, two: &EnumSet<Seat>, three: &EnumSet<Seat>) -> EnumSet<Seat>
    ensures single { result ≡ set.union (set.difference one.now (set.union two.now three.now))
        (set.union (set.difference two.now (set.union one.now three.now))
        (set.difference three.now (set.union one.now two.now))) }
    ensures no_two { set.is_disjoint result (set.intersection one.now three.now) ≡ true }
{
    parity(one, two, three) - (*one & *two & *three)
}

/// The seats that make a majority by the third vote: yes there, while the two other votes differ.
pub fn decided_by_third(
    one: &EnumSet<Seat>,
    two: &EnumSet<Seat>,
    three: &EnumSet<Seat>,
) -> EnumSet<Seat>
    ensures { result ≡ set.intersection three.now (set.symmetric_difference one.now two.now) }
{
    majority(one, two, three) - (*one & *two)
}

/// The answers of some seats in one vote, and of the other seats in another.
pub fn chosen(by: &EnumSet<Seat>, one: &EnumSet<Seat>, other: &EnumSet<Seat>) -> EnumSet<Seat>
    ensures chosen { result ≡ set.union (set.intersection by.now one.now) (set.difference other.now by.now) }
    ensures both { one.now ≡ other.now → result ≡ one.now }
{
    *other ^ ((*one ^ *other) & *by)
}
