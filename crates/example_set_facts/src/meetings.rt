//! Meetings of a council, each with the seats that came.

ghost use Rattle.std.specs.Prelude.{◌≡◌, ◌≤◌};
ghost use Rattle.example_set_facts.specs.Bits.{seat};
ghost use Rattle.example_set_facts.specs.Meetings.{visits};

use crate::seats::Seat;
use enumset::EnumSet;

/// To how many meetings a seat came.
// `visits` is a term that stays closed elsewhere.
#[tactic(auto, using(enumset::specs::Sets::set_laws), unfolding(crate::specs::Meetings::visits))]
pub fn visits_of(meetings: &[EnumSet<Seat>], of: Seat) -> usize
    ensures { result ≡ visits meetings.now (seat of) }
{
    meetings.iter().filter(|came| came.contains(of)).count()
}

/// The seat that came to most meetings; of several the first.
pub fn most_present(meetings: &[EnumSet<Seat>]) -> Seat
    ensures most { (other : Seat) → visits meetings.now (seat other) ≤ visits meetings.now (seat result) }
    ensures first { (other : Seat) → visits meetings.now (seat other) ≡ visits meetings.now (seat result)
        → seat result ≤ seat other }
{
    let mut left = EnumSet::<Seat>::all();
    let mut best = Seat::Chair;
    while let Some(next) = left.pop_first() {
        if visits_of(meetings, next) > visits_of(meetings, best) {
            best = next;
        }
    }
    best
}
