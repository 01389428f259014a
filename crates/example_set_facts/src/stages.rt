//! The stages of a document, with titles of their own, and the text of a set of them.

ghost use Rattle.std.specs.Prelude.{◌≡◌, IfOk, string_bytes, codes};
ghost use Rattle.std.specs.List.{join_by};
ghost use Rattle.enumset.specs.Sets as set;
ghost use Rattle.example_set_facts.specs.Stages.{title};

use enumset::{EnumSet, EnumSetType, laws};
use std::alloc::{AllocError, Global};
use std::fmt;

/// A stage of a document.
#[derive(Clone, Copy, Debug, PartialEq, Eq)]
pub enum Stage {
    Draft,
    InReview,
    Published,
}

impl EnumSetType for Stage {
    ghost use Rattle.std.specs.Prelude.{◌∷◌, []};
    ghost use Rattle.enumset.specs.Sets.{in_place, lawful_in_integer, lawful_in_place};
    ghost use Rattle.example_set_facts.specs.contracts.stages.Stage.{the_type};
    ghost use Rattle.example_set_facts.specs.declared.stages.Stage.TheVariants as variant;

    type Repr = u8;

    ghost elements = { in_place the_type };

    // With this list a contract knows the text of a set.
    ghost values = { variant.Draft ∷ variant.InReview ∷ variant.Published ∷ [] };

    ghost ALL_BITS = { 7 };

    const ALL_BITS: u8 = 7;

    ghost BIT_WIDTH = { 3 };

    const BIT_WIDTH: u32 = 3;

    ghost VARIANT_COUNT = { 3 };

    const VARIANT_COUNT: u32 = 3;

    fn enum_into_u32(self) -> u32 {
        self as u32
    }

    fn enum_from_u32(val: u32) -> Stage {
        match val {
            0 => Stage::Draft,
            1 => Stage::InReview,
            2 => Stage::Published,
            _ => unreachable!(),
        }
    }

    ghost lawful = { lawful_in_place the_type (lawful_in_integer the_type _ tt) };
}

/// The stage's title.
impl fmt::Display for Stage {
    ghost use Rattle.std.specs.Prelude.{Some};
    ghost use Rattle.example_set_facts.specs.Stages.{stage, title};

    ghost output = { λ s. Some (title (stage s)) };

    fn fmt<W: fmt::Write>(&self, f: &mut fmt::Formatter<W>) -> fmt::Result {
        f.write_str(match self {
            Stage::Draft => "draft",
            Stage::InReview => "in review",
            Stage::Published => "published",
        })
    }
}

/// The titles of stages, joined by ` | `.
// `text_of_stages` is about this text: what `Display` of a stage writes.
#[tactic(auto, using(crate::proofs::StageTexts::text_of_stages))]
pub fn shown(alloc: Global, stages: EnumSet<Stage>) -> Result<String, AllocError>
    ensures { IfOk result (λ text. string_bytes text
        ≡ join_by title (codes " | ") (set.ascending stages)) }
{
    laws::members_are_valid(&stages);
    format!(in alloc; "{stages}")
}
