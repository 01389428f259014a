// Written by enumset_derive types_derived states from State: change the source, and write this again.

use enumset::{EnumSetType, EnumSetTypeWithRepr};

/// Where a connection stands.
#[derive(Clone, Copy, PartialEq, Eq, Debug, Default)]
pub enum State {
    #[default]
    Closed,
    SynSent,
    Established,
}

impl EnumSetType for State {
    ghost use Rattle.std.specs.Prelude.{◌∷◌, []};
    ghost use Rattle.enumset.specs.Sets.{in_place, lawful_in_integer, lawful_in_place};
    ghost use Rattle.types_derived.specs.contracts.states.State.{the_type};
    ghost use Rattle.types_derived.specs.declared.states.State.TheVariants as variant;

    type Repr = u8;

    ghost elements = { in_place the_type };

    ghost values = { variant.Closed ∷ variant.SynSent ∷ variant.Established ∷ [] };

    ghost ALL_BITS = { 7 };

    const ALL_BITS: u8 = 0x7;

    ghost BIT_WIDTH = { 3 };

    const BIT_WIDTH: u32 = 3;

    ghost VARIANT_COUNT = { 3 };

    const VARIANT_COUNT: u32 = 3;

    fn enum_into_u32(self) -> u32 {
        self as u32
    }

    fn enum_from_u32(val: u32) -> Self {
        match val {
            0 => Self::Closed,
            1 => Self::SynSent,
            2 => Self::Established,
            _ => unreachable!(),
        }
    }

    ghost lawful = { lawful_in_place the_type (lawful_in_integer the_type _ tt) };
}

impl EnumSetTypeWithRepr for State {
    ghost use Rattle.std.proofs.Common.{rules};

    ghost narrow = { Prim.search rules };
}

/// The name of the variant.
impl std::fmt::Display for State {
    ghost use Rattle.std.specs.Prelude.{Some, ◌∷◌, [], codes};
    ghost use Rattle.std.specs.List.{slice_index_or};
    ghost use denote.Enum.Declared.{tag_of};
    ghost use Rattle.types_derived.specs.contracts.states.State.{the_type};

    ghost output = { λ v. Some (slice_index_or
        (codes "Closed" ∷ codes "SynSent" ∷ codes "Established" ∷ [])
        (tag_of the_type v) []) };

    fn fmt<W: std::fmt::Write>(&self, f: &mut std::fmt::Formatter<W>) -> std::fmt::Result {
        match self {
            Self::Closed => f.write_str("Closed"),
            Self::SynSent => f.write_str("SynSent"),
            Self::Established => f.write_str("Established"),
        }
    }
}
