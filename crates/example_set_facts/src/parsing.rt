//! Sets of tokens of a parser: which tokens a phrase may begin with, and which may follow it.

ghost use Rattle.std.specs.Prelude.{◌≡◌, ◌↔◌, ◌&&◌, ◌||◌, ℕ, true, false};
ghost use Rattle.enumset.specs.Sets as set;
ghost use Rattle.enumset.specs.Sets.{valid_bits};
ghost use Rattle.example_set_facts.specs.Bits.{token};

use crate::tokens::Token;
use enumset::{EnumSet, EnumSetType};

/// The first tokens of two phrases in a row. Those of the second count if the first may be empty.
pub fn first_of_both(
    first: &EnumSet<Token>,
    may_be_empty: bool,
    second: &EnumSet<Token>,
) -> EnumSet<Token>
    ensures { (q : ℕ) → set.contains result q
        ≡ (set.contains first.now q || (may_be_empty && set.contains second.now q)) }
{
    if may_be_empty {
        *first | *second
    } else {
        *first
    }
}

/// Adds what a phrase begins with, except the mark of an empty one, to what may follow another. Returns whether that
/// has grown.
pub fn add_follow(follow: &mut EnumSet<Token>, first: &EnumSet<Token>, mark: Token) -> bool
    ensures added { follow.new ≡ set.union follow.old (set.remove first.now (token mark)) }
    ensures grown { result ≡ false ↔ (follow.new ≡ follow.old) }
{
    follow.union_with(&(*first - mark))
}

/// The tokens that a phrase may begin with, and the others.
pub fn divided(found: EnumSet<Token>, first: EnumSet<Token>) -> (EnumSet<Token>, EnumSet<Token>)
    ensures { result ≡ (set.intersection found first, set.difference found first) }
{
    (first & found, found & !first)
}

/// Whether one token tells two phrases apart.
pub fn are_apart(one: &EnumSet<Token>, other: &EnumSet<Token>) -> bool
    ensures { result ≡ true ↔ ((q : ℕ) → set.contains one.now q ≡ true → set.contains other.now q ≡ false) }
{
    one.is_disjoint(*other)
}

/// Whether a phrase that may be empty can be parsed with one token ahead.
pub fn is_predictable(first: &EnumSet<Token>, may_be_empty: bool, follow: &EnumSet<Token>) -> bool
    ensures { result ≡ true
        ↔ (may_be_empty ≡ true → set.intersection first.now follow.now ≡ set.empty) }
{
    !may_be_empty || first.is_disjoint(*follow)
}

/// The tokens to name in a message: what may begin a phrase or follow it, without what is skipped.
pub fn expected(
    first: &EnumSet<Token>,
    follow: &EnumSet<Token>,
    skipped: &EnumSet<Token>,
) -> EnumSet<Token>
    ensures expected { result ≡ set.union (set.difference first.now skipped.now)
        (set.difference follow.now skipped.now) }
    ensures named { set.is_disjoint skipped.now first.now ≡ true → set.is_subset first.now result ≡ true }
{
    (*first | *follow) - *skipped
}

/// The tokens at which a parser goes on after a fault: those that may follow, and the mark of the end.
pub fn resumes_at(follow: &EnumSet<Token>, end: Token) -> EnumSet<Token>
    ensures resumed { result ≡ set.insert follow.now (token end) }
    ensures within { set.is_subset follow.now result ≡ true }
    ensures end { set.contains result (token end) ≡ true }
    ensures no_more { (q : ℕ) → set.contains result q ≡ true → set.contains follow.now q ≡ false
        → q ≡ token end }
{
    *follow | end
}

/// The tokens that no phrase of three begins with.
pub fn unused(one: &EnumSet<Token>, two: &EnumSet<Token>, three: &EnumSet<Token>) -> EnumSet<Token>
    ensures { result ≡ set.intersection (set.intersection
        (set.difference (valid_bits ⟦<Token as EnumSetType>⟧.elements) one.now)
        (set.difference (valid_bits ⟦<Token as EnumSetType>⟧.elements) two.now))
        (set.difference (valid_bits ⟦<Token as EnumSetType>⟧.elements) three.now) }
{
    !(*one | *two | *three)
}
