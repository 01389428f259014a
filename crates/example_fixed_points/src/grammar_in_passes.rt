//! FIRST and FOLLOW of all nonterminals at once, with a set for each nonterminal in the place of its bit.

ghost use Rattle.std.specs.Prelude.{◌≡◌, replicate};
ghost use Rattle.enumset.specs.Sets as set;
ghost use Rattle.enumset.specs.FixedPoints.{AreLeastClosed, gathered, many_gathered, set_at, union_over};
ghost use Rattle.example_fixed_points.specs.Grammar.{nonterminal, leading_table, leading_tokens_table};
ghost use Rattle.example_fixed_points.specs.Tables.{row};

use crate::grammar::{leading, leading_tokens};
use crate::nonterminal::Nonterminal;
use crate::token::Token;
use enumset::EnumSet;
use enumset::fixed_points_of_many::{StepForMany, least_closed_sets};

/// FIRST of each nonterminal, in passes over all nonterminals until nothing changes.
pub fn all_first() -> [EnumSet<Token>; 15]
    ensures { AreLeastClosed (gathered leading_tokens_table leading_table)
        (replicate 15 set.empty) result }
{
    let mut sets = [EnumSet::new(); 15];
    let mut changed = true;
    while changed {
        changed = false;
        for of in EnumSet::<Nonterminal>::all() {
            let more = first_at_once(&sets, of);
            let place = EnumSet::bit_index(of) as usize;
            changed |= sets[place].union_with(&more);
        }
    }
    sets
}

/// What the sets of all nonterminals say at once of a nonterminal: the tokens that may stand first in a rule of it, and
/// the sets of the nonterminals that may.
pub fn first_at_once(sets: &[EnumSet<Token>], of: Nonterminal) -> EnumSet<Token>
    ensures { result ≡ gathered leading_tokens_table leading_table sets.now (nonterminal of) }
{
    leading_tokens(of) | sets_of(sets, &leading(of))
}

/// The sets of some nonterminals in one.
pub fn sets_of(sets: &[EnumSet<Token>], of: &EnumSet<Nonterminal>) -> EnumSet<Token>
    ensures { result ≡ union_over (set_at sets.now) of.now }
{
    let mut all = EnumSet::new();
    for nonterminal in of.iter() {
        all.insert_all(set_of(sets, nonterminal));
    }
    all
}

/// The set of a nonterminal, or the empty set if the slice has none.
pub fn set_of(sets: &[EnumSet<Token>], of: Nonterminal) -> EnumSet<Token>
    ensures { result ≡ set_at sets.now (nonterminal of) }
{
    tokens_at(sets, EnumSet::bit_index(of) as usize)
}

/// Tokens that flow from nonterminals to nonterminals: row b of `tokens` has those that arise at the nonterminal of bit
/// b, and row b of `sources` has the nonterminals from which it takes all tokens. A row past the end is empty.
#[derive(Clone, Copy, Debug)]
pub struct Flow<'t, 's> {
    pub tokens: &'t [EnumSet<Token>],
    pub sources: &'s [EnumSet<Nonterminal>],
}

impl StepForMany<Token> for Flow<'_, '_> {
    ghost step = { λ flow. gathered (row flow.tokens.now) (row flow.sources.now) };

    /// Returns the tokens that arise at a nonterminal or stand in the set of one from which it takes.
    fn step(&self, sets: &[EnumSet<Token>], place: usize) -> EnumSet<Token> {
        tokens_at(self.tokens, place) | sets_of(sets, &nonterminals_at(self.sources, place))
    }

    ghost monotone = { λ flow. many_gathered (row flow.tokens.now) (row flow.sources.now) };
}

/// A row of tokens, or the empty set if the table has none.
fn tokens_at(table: &[EnumSet<Token>], place: usize) -> EnumSet<Token>
    ensures { result ≡ row table.now place }
{
    match table.get(place) {
        Some(set) => *set,
        None => EnumSet::empty(),
    }
}

/// A row of nonterminals, or the empty set if the table has none.
fn nonterminals_at(table: &[EnumSet<Nonterminal>], place: usize) -> EnumSet<Nonterminal>
    ensures { result ≡ row table.now place }
{
    match table.get(place) {
        Some(set) => *set,
        None => EnumSet::empty(),
    }
}

/// Adds to the set of each nonterminal the tokens that flow there. So it makes FIRST of the rows of
/// [`leading_tokens`] and [`leading`], and FOLLOW of those of `following_tokens` and `enclosing`.
pub fn add_flow(flow: &Flow<'_, '_>, sets: &mut [EnumSet<Token>])
    ensures { AreLeastClosed (gathered (row flow.now.tokens.now) (row flow.now.sources.now))
        sets.old sets.new }
{
    least_closed_sets(sets, flow);
}
