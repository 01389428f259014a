//! The kinds of tokens with which each part of an expression begins.

ghost use Rattle.std.specs.Prelude.{◌≡◌, ◌↔◌, ◌∷◌, [], ℕ, IsTrue, map};
ghost use Rattle.enumset.specs.FixedPoints.{union_over};
ghost use Rattle.enumset.specs.Sets as set;
ghost use Rattle.example_expressions.specs.Grammar.{bit};
ghost use Rattle.example_expressions.specs.First.{part_bit, leading_kinds_of, leading_parts_of, CanBegin};

use crate::kind::Kind;
use crate::part::Part;
use enumset::EnumSet;
use enumset::fixed_points::reachable;

/// The kinds of tokens with which an expression can begin, and so each operand in it.
pub fn operand_kinds() -> EnumSet<Kind>
    ensures { result ≡ set.from_list (map bit (Kind.Number ∷ Kind.Open ∷ Kind.Minus ∷ [])) }
{
    first_kinds(Part::Sum)
}

/// The kinds of tokens with which a part can begin: those with which one of its rules begins, and those with which a
/// part can begin that comes first in one of its rules.
pub fn first_kinds(whole: Part) -> EnumSet<Kind>
    ensures { (kind : ℕ) → IsTrue (set.contains result kind) ↔ CanBegin whole kind }
{
    all_leading_kinds(&reachable(EnumSet::only(whole), |part| leading_parts(part)))
}

/// The kinds of tokens with which a rule of some parts begins.
fn all_leading_kinds(parts: &EnumSet<Part>) -> EnumSet<Kind>
    ensures { result ≡ union_over leading_kinds_of parts.now }
{
    let mut kinds = EnumSet::new();
    for part in parts.iter() {
        kinds.insert_all(leading_kinds(part));
    }
    kinds
}

/// The kinds of tokens with which a rule of a part begins.
// `written_out`: the rows of the table are lists, each written out.
#[tactic(auto, using(enumset::specs::Sets::set_laws, enumset::specs::Sets::written_out))]
fn leading_kinds(part: Part) -> EnumSet<Kind>
    ensures { result ≡ leading_kinds_of (part_bit part) }
{
    match part {
        Part::Sum | Part::Product => EnumSet::new(),
        Part::Operand => EnumSet::from([Kind::Number, Kind::Open, Kind::Minus]),
    }
}

/// The parts with which a rule of a part begins.
// `written_out`: the rows of the table are lists, each written out.
#[tactic(auto, using(enumset::specs::Sets::set_laws, enumset::specs::Sets::written_out))]
fn leading_parts(part: Part) -> EnumSet<Part>
    ensures { result ≡ leading_parts_of (part_bit part) }
{
    match part {
        Part::Sum => EnumSet::from([Part::Sum, Part::Product]),
        Part::Product => EnumSet::from([Part::Product, Part::Operand]),
        Part::Operand => EnumSet::new(),
    }
}
