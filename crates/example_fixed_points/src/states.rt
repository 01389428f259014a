//! The states that can follow, over a table with a row for each state.

ghost use Rattle.std.specs.Prelude.{◌≡◌};
ghost use Rattle.enumset.specs.FixedPoints.{IsLeastClosed, union_over};
ghost use Rattle.example_fixed_points.specs.Tables.{row};

use crate::state::State;
use enumset::EnumSet;
use enumset::fixed_points::reachable;

/// The states in which an article can be, if it is in one of some states now. Row b of the table has the states that
/// can come directly after that of bit b. Nothing comes after a state past the end of the table.
pub fn to_come(table: &[EnumSet<State>], now: EnumSet<State>) -> EnumSet<State>
    ensures { IsLeastClosed (union_over (row table.now)) now result }
{
    reachable(now, |state| next(table, state))
}

/// The states that can come directly after one.
pub fn next(table: &[EnumSet<State>], state: State) -> EnumSet<State>
    ensures { result ≡ row table.now (⟦<State as enumset::EnumSetType>⟧.elements.bit state) }
{
    match table.get(EnumSet::bit_index(state) as usize) {
        Some(row) => *row,
        None => EnumSet::empty(),
    }
}

/// The states that can come directly after some.
pub fn next_of_all(table: &[EnumSet<State>], states: &EnumSet<State>) -> EnumSet<State>
    ensures { result ≡ union_over (row table.now) states.now }
{
    let mut all = EnumSet::new();
    for state in states.iter() {
        all.insert_all(next(table, state));
    }
    all
}

/// The same as [`to_come`], in rounds until nothing changes.
pub fn to_come_in_rounds(table: &[EnumSet<State>], now: EnumSet<State>) -> EnumSet<State>
    ensures { IsLeastClosed (union_over (row table.now)) now result }
{
    let mut reached = now;
    while reached.union_with(&next_of_all(table, &reached)) {}
    reached
}

/// The same as [`to_come`], in rounds until the set is what it was before the round.
pub fn to_come_by_comparison(table: &[EnumSet<State>], now: EnumSet<State>) -> EnumSet<State>
    ensures { IsLeastClosed (union_over (row table.now)) now result }
{
    let mut reached = now;
    loop {
        let before = reached;
        reached.insert_all(next_of_all(table, &reached));
        if reached == before {
            return reached;
        }
    }
}
