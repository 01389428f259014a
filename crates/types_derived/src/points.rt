// Written by enumset_derive types_derived points from Point: change the source, and write this again.

//! The points of a compass, which are read from their names and written as these.

use enumset::{EnumSetNames, EnumSetType, EnumSetTypeWithRepr, names_of};

/// A point of a compass.
#[derive(Clone, Copy, PartialEq, Eq, Debug)]
pub enum Point {
    North,
    NorthNorthEast,
    NorthEast,
    EastNorthEast,
    East,
    EastSouthEast,
    SouthEast,
    SouthSouthEast,
    South,
    SouthSouthWest,
    SouthWest,
    WestSouthWest,
    West,
    WestNorthWest,
    NorthWest,
    NorthNorthWest,
}

impl EnumSetType for Point {
    ghost use Rattle.std.specs.Prelude.{◌∷◌, []};
    ghost use Rattle.enumset.specs.Sets.{in_place, lawful_in_integer, lawful_in_place};
    ghost use Rattle.types_derived.specs.contracts.points.Point.{the_type};
    ghost use Rattle.types_derived.specs.declared.points.Point.TheVariants as variant;

    type Repr = u16;

    ghost elements = { in_place the_type };

    ghost values = { variant.North ∷ variant.NorthNorthEast ∷ variant.NorthEast ∷
        variant.EastNorthEast ∷ variant.East ∷ variant.EastSouthEast ∷ variant.SouthEast ∷
        variant.SouthSouthEast ∷ variant.South ∷ variant.SouthSouthWest ∷
        variant.SouthWest ∷ variant.WestSouthWest ∷ variant.West ∷ variant.WestNorthWest ∷
        variant.NorthWest ∷ variant.NorthNorthWest ∷ [] };

    ghost ALL_BITS = { 65535 };

    const ALL_BITS: u16 = 0xFFFF;

    ghost BIT_WIDTH = { 16 };

    const BIT_WIDTH: u32 = 16;

    ghost VARIANT_COUNT = { 16 };

    const VARIANT_COUNT: u32 = 16;

    fn enum_into_u32(self) -> u32 {
        self as u32
    }

    fn enum_from_u32(val: u32) -> Self {
        match val {
            0 => Self::North,
            1 => Self::NorthNorthEast,
            2 => Self::NorthEast,
            3 => Self::EastNorthEast,
            4 => Self::East,
            5 => Self::EastSouthEast,
            6 => Self::SouthEast,
            7 => Self::SouthSouthEast,
            8 => Self::South,
            9 => Self::SouthSouthWest,
            10 => Self::SouthWest,
            11 => Self::WestSouthWest,
            12 => Self::West,
            13 => Self::WestNorthWest,
            14 => Self::NorthWest,
            15 => Self::NorthNorthWest,
            _ => unreachable!(),
        }
    }

    ghost lawful = { lawful_in_place the_type (lawful_in_integer the_type _ tt) };
}

impl EnumSetTypeWithRepr for Point {
    ghost use Rattle.std.proofs.Common.{rules};

    ghost narrow = { Prim.search rules };
}

#[tactic(auto, unfolding(enumset::specs::Sets::place))]
impl EnumSetNames for Point {
    ghost use Rattle.std.specs.Prelude.{codes, ◌∷◌, []};

    ghost names = { codes "North" ∷ codes "NorthNorthEast" ∷ codes "NorthEast" ∷
        codes "EastNorthEast" ∷ codes "East" ∷ codes "EastSouthEast" ∷ codes "SouthEast" ∷
        codes "SouthSouthEast" ∷ codes "South" ∷ codes "SouthSouthWest" ∷
        codes "SouthWest" ∷ codes "WestSouthWest" ∷ codes "West" ∷ codes "WestNorthWest" ∷
        codes "NorthWest" ∷ codes "NorthNorthWest" ∷ [] };

    fn names() -> &'static [(Self, &'static str)] {
        names_of!(
            Point: North NorthNorthEast NorthEast EastNorthEast East EastSouthEast SouthEast
            SouthSouthEast South SouthSouthWest SouthWest WestSouthWest West WestNorthWest NorthWest
            NorthNorthWest
        )
    }

    ghost named = { tt };
}

/// The name of the variant.
impl std::fmt::Display for Point {
    ghost use Rattle.std.specs.Prelude.{Some, ◌∷◌, [], codes};
    ghost use Rattle.std.specs.List.{slice_index_or};
    ghost use denote.Enum.Declared.{tag_of};
    ghost use Rattle.types_derived.specs.contracts.points.Point.{the_type};

    ghost output = { λ v. Some (slice_index_or
        (codes "North" ∷ codes "NorthNorthEast" ∷ codes "NorthEast" ∷
        codes "EastNorthEast" ∷ codes "East" ∷ codes "EastSouthEast" ∷ codes "SouthEast" ∷
        codes "SouthSouthEast" ∷ codes "South" ∷ codes "SouthSouthWest" ∷
        codes "SouthWest" ∷ codes "WestSouthWest" ∷ codes "West" ∷ codes "WestNorthWest" ∷
        codes "NorthWest" ∷ codes "NorthNorthWest" ∷ [])
        (tag_of the_type v) []) };

    fn fmt<W: std::fmt::Write>(&self, f: &mut std::fmt::Formatter<W>) -> std::fmt::Result {
        match self {
            Self::North => f.write_str("North"),
            Self::NorthNorthEast => f.write_str("NorthNorthEast"),
            Self::NorthEast => f.write_str("NorthEast"),
            Self::EastNorthEast => f.write_str("EastNorthEast"),
            Self::East => f.write_str("East"),
            Self::EastSouthEast => f.write_str("EastSouthEast"),
            Self::SouthEast => f.write_str("SouthEast"),
            Self::SouthSouthEast => f.write_str("SouthSouthEast"),
            Self::South => f.write_str("South"),
            Self::SouthSouthWest => f.write_str("SouthSouthWest"),
            Self::SouthWest => f.write_str("SouthWest"),
            Self::WestSouthWest => f.write_str("WestSouthWest"),
            Self::West => f.write_str("West"),
            Self::WestNorthWest => f.write_str("WestNorthWest"),
            Self::NorthWest => f.write_str("NorthWest"),
            Self::NorthNorthWest => f.write_str("NorthNorthWest"),
        }
    }
}

/// The error of parsing a `Point`: no variant has this name.
#[derive(Clone, Copy, PartialEq, Eq, Debug)]
pub struct ParsePointError;

impl std::fmt::Display for ParsePointError {
    ghost use Rattle.std.specs.Prelude.{Some, codes};

    ghost output = { λ _. Some (codes "no Point has this name") };

    fn fmt<W: std::fmt::Write>(&self, f: &mut std::fmt::Formatter<W>) -> std::fmt::Result {
        f.write_str("no Point has this name")
    }
}

impl std::error::Error for ParsePointError {}

/// The variant that has this name, as `EnumSetNames::of_name`.
impl std::str::FromStr for Point {
    ghost use Rattle.std.specs.Prelude.{◌≡◌, option_map};
    ghost use Rattle.std.specs.Result.{result_ok};
    ghost use Rattle.enumset.specs.Names.{names_of, bit_named};

    type Err = ParsePointError;

    ghost from_str_gives = { λ text r. option_map ⟦<Point as EnumSetType>⟧.elements.bit (result_ok r)
        ≡ bit_named (names_of ⟦<Point as EnumSetType>⟧.elements ⟦<Point as EnumSetNames>⟧.names) text };

    fn from_str(s: &str) -> std::result::Result<Self, ParsePointError> {
        Self::of_name(s).ok_or(ParsePointError)
    }
}
