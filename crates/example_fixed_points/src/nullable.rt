//! Which nonterminals of a grammar can be empty.

ghost use Rattle.std.specs.Prelude.{◌≡◌};
ghost use Rattle.enumset.specs.Sets as set;
ghost use Rattle.enumset.specs.FixedPoints.{IsLeastClosed, concluded, monotone_concluded};
ghost use Rattle.example_fixed_points.specs.Rules.{conditions};

use crate::nonterminal::Nonterminal;
use enumset::EnumSet;
use enumset::fixed_points::{Step, least_closed};

/// A rule of a grammar without tokens: a nonterminal, and the nonterminals of which its text is made.
#[derive(Clone, Copy, Debug)]
pub struct Rule {
    pub of: Nonterminal,
    pub parts: EnumSet<Nonterminal>,
}

/// The rules of a grammar that have no tokens.
#[derive(Clone, Copy, Debug)]
pub struct Rules<'a> {
    pub list: &'a [Rule],
}

impl Step<Nonterminal> for Rules<'_> {
    ghost step = { λ rules. concluded (conditions rules.list.now) };

    /// Returns the nonterminals of which a rule has only parts that can be empty, if those of a set can.
    fn step(&self, from: &EnumSet<Nonterminal>) -> EnumSet<Nonterminal> {
        let mut found = EnumSet::new();
        for rule in self.list {
            if rule.parts.is_subset_of(from) {
                found.insert(rule.of);
            }
        }
        found
    }

    ghost monotone = { λ rules. monotone_concluded (conditions rules.list.now) };
}

/// The nonterminals that can be empty: those of which a rule has only parts that can be empty.
pub fn nullable(rules: &[Rule]) -> EnumSet<Nonterminal>
    ensures { IsLeastClosed (concluded (conditions rules.now)) set.empty result }
{
    least_closed(EnumSet::empty(), &Rules { list: rules })
}
